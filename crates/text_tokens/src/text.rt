// Bytes that are looked at one at a time, each look counted.
ghost use Rattle.std.specs.Prelude.{◌≡◌, ◌↔◌, ℕ, ◌+◌, ◌*◌, ◌<◌, ◌≤◌, IfSome, IsSome, length, take, drop, nat_eq, slice_index};
ghost use Rattle.shapes_core.specs.Name.{IsName};

use crate::looks::Looks;
use shapes_core::Name;
use std::marker::Model;
use std::sync::ledger::Ledger;

/// A text, or a part of it. Only `at` and `name` tell what its bytes are, and they count in the `Looks` that they are
/// given.
#[derive(Drop)]
pub(crate) struct Text<'a> {
    bytes: &'a [u8],
}

impl<'a> Model for Text<'a> {
    ghost use Rattle.std.specs.Prelude.{ℕ, List};

    ghost Value = { List ℕ };

    ghost view = { λ text. text.bytes.now };
}

impl<'a> Text<'a> {
    pub(crate) fn new(bytes: &'a [u8]) -> Text<'a>
        ensures { result ≡ bytes.now }
    {
        Text { bytes }
    }

    pub(crate) fn len(&self) -> usize
        ensures { result ≡ length self.now }
    {
        self.bytes.len()
    }

    pub(crate) fn is_empty(&self) -> bool
        ensures { result ≡ nat_eq (length self.now) 0 }
    {
        self.bytes.is_empty()
    }

    /// The first bytes, this many.
    pub(crate) fn front(&self, count: usize) -> Text<'a>
        requires { count ≤ length self.now }
        ensures { result ≡ take count self.now }
    {
        Text {
            bytes: &self.bytes[..count],
        }
    }

    /// What is left behind the first bytes, this many.
    pub(crate) fn behind(&self, count: usize) -> Text<'a>
        requires { count ≤ length self.now }
        ensures { result ≡ drop count self.now }
    {
        Text {
            bytes: &self.bytes[count..],
        }
    }

    /// Looks at one byte.
    pub(crate) fn at<L: Ledger>(&self, place: usize, looks: &mut Looks<L>) -> u8
        requires { place < length self.now }
        ensures value { result ≡ slice_index self.now place }
        ensures cost { looks.new ≡ looks.old + 1 }
    {
        looks.add(1);
        self.bytes[place]
    }

    /// The name that the bytes spell. Each is looked at twice: a name's bytes are tested, and then copied.
    pub(crate) fn name<L: Ledger>(&self, looks: &mut Looks<L>) -> Option<Name>
        ensures spelled { IsSome result ↔ IsName self.now }
        ensures same { IfSome result (λ name. name ≡ self.now) }
        ensures cost { looks.new ≡ looks.old + 2 * length self.now }
    {
        looks.add(self.bytes.len() as u64);
        looks.add(self.bytes.len() as u64);
        Name::new(self.bytes)
    }
}
