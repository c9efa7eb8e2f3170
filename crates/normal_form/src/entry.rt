// The entries of an index.
ghost use Rattle.std.specs.Prelude.{◌≡◌, ◌↔◌, ◌≤◌, IsSome, IfSome, length};

use shapes_core::MOST_AXES;
use shapes_core::laws::copies_are_padded;
use std::marker::Model;

/// A number at an index: a constant, a variable and a constant, or a constant minus a variable.
#[derive(Clone, Copy, Debug, PartialEq, Eq)]
pub enum Entry {
    At(i64),
    Plus { var: u32, add: i64 },
    Minus { var: u32, add: i64 },
}

/// At most 6 entries, one an axis.
#[derive(Clone, Copy)]
pub struct Entries {
    list: [Entry; MOST_AXES],
    axes: usize,
}

impl Model for Entries {
    ghost use Rattle.std.specs.Prelude.{pos, List, length, take};
    ghost use Rattle.shapes_core.specs.Padded.{IsPadded, padded};
    ghost use Rattle.normal_form.specs.declared.entry.Entry.{Entry as AnEntry};
    ghost use Rattle.normal_form.specs.declared.entry.Entry.TheVariants.{At};

    ghost Value = { List AnEntry };

    ghost view = { λ e. take e.axes e.list };

    ghost invariant = { λ e. IsPadded (At (pos 0)) 6 e.list e.axes };

    ghost inverse = { λ list. record { list = padded (At (pos 0)) 6 list; axes = length list } };

    ghost inverse_ok = { λ n h i. record { list = h.filled i; axes = h.counted i } };
}

impl Entries {
    /// The list of these entries, or `None` where they are more than 6.
    pub fn new(list: &[Entry]) -> Option<Entries>
        ensures within { IsSome result ↔ length list.now ≤ 6 }
        ensures same { IfSome result (λ entries. entries ≡ list.now) }
    {
        if list.len() > MOST_AXES {
            return None;
        }
        copies_are_padded::<Entry>();
        let mut filled = [Entry::At(0); MOST_AXES];
        filled[..list.len()].copy_from_slice(list);
        Some(Entries {
            list: filled,
            axes: list.len(),
        })
    }

    /// The entries, one an axis.
    pub fn list(&self) -> &[Entry]
        ensures value { result.now ≡ self.now }
        ensures few { length self.now ≤ 6 }
    {
        &self.list[..self.axes]
    }
}
