// The names of areas.
ghost use Rattle.std.specs.Prelude.{◌≡◌, ◌++◌, [], ◌∷◌, OnOk, false};
ghost use Rattle.std.specs.List.{list_any};
ghost use Rattle.rv_reader.specs.Cuts.{same};

use indexmap::IndexMap;
use shapes_core::NoMemory;
use std::alloc::Global;
use std::marker::Model;

/// The names of inputs and outputs so far, in their order.
#[derive(Drop)]
pub(crate) struct Names {
    names: IndexMap<Vec<u8>, ()>,
}

impl Model for Names {
    ghost use Rattle.std.specs.Prelude.{List, ℕ, map};

    ghost Value = { List (List ℕ) };

    ghost view = { λ n. map (λ e. e.0.items) n.names.entries };
}

impl Names {
    pub(crate) fn new(alloc: Global) -> Names
        ensures { result ≡ [] }
    {
        Names {
            names: IndexMap::new(alloc),
        }
    }

    pub(crate) fn contains(&self, name: &[u8]) -> bool
        ensures { result ≡ list_any (same name.now) self.now }
    {
        self.names.contains_key(name)
    }

    /// Adds a name that is not there.
    pub(crate) fn insert(&mut self, alloc: Global, name: &[u8]) -> Result<(), NoMemory>
        requires { list_any (same name.now) self.old ≡ false }
        ensures { OnOk result (self.new ≡ self.old ++ name.now ∷ []) }
    {
        let mut key = Vec::new(alloc);
        key.extend_from_slice(name)?;
        self.names.insert(key, ())?;
        Ok(())
    }
}
