// The places of the declared arrays by their names.
ghost use Rattle.std.specs.Prelude.{◌≡◌, ◌≢◌, ◌<◌, List, length, map, AllPairs, IfOk, IfSome};
ghost use Rattle.shapes_core.specs.declared.area.Declared.{Declared as Announced};
ghost use Rattle.array_text.specs.Index.{IsIndex};
ghost use Rattle.array_text.specs.Outcome.{place_of};

use shapes_core::{Declared, Name, NoMemory};
use std::alloc::Global;
use std::collections::HashMap;

/// A map from the names of the declared arrays to their places.
pub(crate) type Index<'a> = HashMap<&'a [u8], usize>;

/// The map of these arrays, whose names differ.
pub(crate) fn index_of<'a>(alloc: Global, declared: &'a [Declared]) -> Result<Index<'a>, NoMemory>
    requires { AllPairs (λ one other. one ≢ other) (map (λ array. array.name) declared.now) }
    ensures { IfOk result (λ index. IsIndex declared.now index) }
{
    let mut index = HashMap::new(alloc);
    for place in 0..declared.len() {
        index.insert(declared[place].name.bytes(), place)?;
    }
    Ok(index)
}

/// The place of the declared array of this name.
pub(crate) fn place_of(index: &Index<'_>, name: &Name) -> Option<usize>
    ensures value { (declared : List Announced) → IsIndex declared index.now
        → result ≡ place_of declared name.now }
    ensures within { (declared : List Announced) → IsIndex declared index.now
        → IfSome result (λ place. place < length declared) }
{
    index.get(name.bytes()).copied()
}
