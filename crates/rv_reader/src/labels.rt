// Labels, with the numbers of the lines for which they stand.
ghost use Rattle.std.specs.Prelude.{◌≡◌, ◌++◌, [], ◌∷◌, OnOk, None};
ghost use Rattle.rv_reader.specs.Refusals.{stands_for};

use indexmap::IndexMap;
use shapes_core::NoMemory;
use std::alloc::Global;
use std::marker::Model;

/// The labels of a text, in the order of their lines.
#[derive(Drop)]
pub(crate) struct Labels<'a> {
    numbers: IndexMap<&'a [u8], u32>,
}

impl<'a> Model for Labels<'a> {
    ghost use Rattle.std.specs.Prelude.{List, ℕ, map};

    ghost Value = { List (List ℕ × ℕ) };

    ghost view = { λ l. map (λ e. (e.0.now, e.1)) l.numbers.entries };
}

impl<'a> Labels<'a> {
    pub(crate) fn new(alloc: Global) -> Labels<'a>
        ensures { result ≡ [] }
    {
        Labels {
            numbers: IndexMap::new(alloc),
        }
    }

    /// The number for which a label stands.
    pub(crate) fn find(&self, name: &[u8]) -> Option<u32>
        ensures { result ≡ stands_for self.now name.now }
    {
        self.numbers.get(&name).copied()
    }

    /// Adds a label that is not there.
    pub(crate) fn insert(&mut self, name: &'a [u8], number: u32) -> Result<(), NoMemory>
        requires { stands_for self.old name.now ≡ None }
        ensures { OnOk result (self.new ≡ self.old ++ (name.now, number) ∷ []) }
    {
        self.numbers.insert(name, number)?;
        Ok(())
    }
}
