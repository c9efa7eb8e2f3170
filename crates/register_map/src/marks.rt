// Which codes get machine registers.
ghost use Rattle.std.specs.Prelude.{◌≡◌, ◌==◌, position};
ghost use Rattle.register_map.specs.Assigned.{mark, register_at};

use shapes_core::NoMemory;
use std::alloc::Global;
use std::cmp::Ordering;
use std::collections::BTreeMap;

/// How many machine registers are given.
const REGISTERS: usize = 10;

/// The heaviest codes, from the heaviest one down, as many as there are machine registers. Of two
/// that weigh the same the smaller one is first.
pub(crate) fn heaviest(alloc: Global, weights: &BTreeMap<u64, u64>) -> Result<Vec<u64>, NoMemory> {
    let mut pairs: Vec<(u64, u64)> = Vec::new(alloc);
    for (code, weight) in weights {
        pairs.push((*code, *weight))?;
    }
    pairs.sort_unstable_by(heavier);
    pairs.truncate(REGISTERS);
    let mut marked = Vec::new(alloc);
    for pair in &pairs {
        marked.push(pair.0)?;
    }
    Ok(marked)
}

fn heavier(one: &(u64, u64), other: &(u64, u64)) -> Ordering {
    other.1.cmp(&one.1).then(one.0.cmp(&other.0))
}

/// The machine register of a code, where it is one of the ten first that are marked.
pub(crate) fn mark(marked: &[u64], code: u64) -> Option<u8>
    ensures { result ≡ mark marked.now code }
{
    match place_of(marked, code) {
        Some(place) => register_at(place),
        None => None,
    }
}

fn place_of(marked: &[u64], code: u64) -> Option<usize>
    ensures { result ≡ position (λ other. other == code) marked.now }
{
    marked.iter().position(|other| *other == code)
}

fn register_at(place: usize) -> Option<u8>
    ensures { result ≡ register_at place }
{
    if place < 3 {
        Some(place as u8 + 5)
    } else if place < 10 {
        Some(place as u8 + 8)
    } else {
        None
    }
}
