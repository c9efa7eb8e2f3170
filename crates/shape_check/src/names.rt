// The names that stand for arrays.
ghost use Rattle.std.specs.Prelude.{◌≡◌, ◌++◌, [], ◌∷◌, OnOk, None};
ghost use Rattle.shape_check.specs.Judged.{found};

use crate::known::Known;
use indexmap::IndexMap;
use shapes_core::{Name, NoMemory};
use std::alloc::Global;
use std::marker::Model;

/// Names with what is known of the arrays for which they stand.
#[derive(Drop)]
pub(crate) struct Names {
    known: IndexMap<Name, Known>,
}

impl Model for Names {
    ghost use Rattle.std.specs.Prelude.{List, ℕ};
    ghost use Rattle.shape_check.specs.declared.known.Known.{Known as KnownArray};

    ghost Value = { List (List ℕ × KnownArray) };

    ghost view = { λ n. n.known.entries };
}

impl Names {
    pub(crate) fn new(alloc: Global) -> Names
        ensures { result ≡ [] }
    {
        Names {
            known: IndexMap::new(alloc),
        }
    }

    /// What is known of a name.
    pub(crate) fn find(&self, name: Name) -> Option<Known>
        ensures { result ≡ found self.now name }
    {
        self.known.get(&name).copied()
    }

    /// Adds a name that is not there.
    pub(crate) fn insert(&mut self, name: Name, known: Known) -> Result<(), NoMemory>
        requires { found self.old name ≡ None }
        ensures { OnOk result (self.new ≡ self.old ++ (name, known) ∷ []) }
    {
        self.known.insert(name, known)?;
        Ok(())
    }
}
