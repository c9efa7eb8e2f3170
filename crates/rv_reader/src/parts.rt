// The parts of an area's row, with a space between each two.
ghost use Rattle.std.specs.Prelude.{◌≡◌, ◌==◌, ◌≤◌, ◌∷◌, IfOk, length, map};
ghost use Rattle.std.specs.List.{slice_split};
ghost use Rattle.std.specs.Option.{option_map};
ghost use Rattle.rv_reader.specs.AreaRows.{numbers_of};
ghost use Rattle.rv_reader.specs.Marks.{capped};
ghost use Rattle.rv_reader.specs.Parts.{left_len, parts_left};

use crate::cuts::{Mark, behind_first, cut};
use crate::operands::number;
use shapes_core::NoMemory;
use std::alloc::Global;

/// The first part, and what stands behind its space, if it has one.
#[tactic(auto, using(crate::proofs::PartLemmas::part_next, crate::proofs::PartLemmas::part_last))]
pub(crate) fn next_part<'a>(text: &'a [u8]) -> (&'a [u8], Option<&'a [u8]>)
    ensures split { slice_split (λ byte. byte == 32) text.now ≡ result.0.now ∷ parts_left result.1 }
    ensures shorter { left_len result.1 ≤ length text.now }
{
    let (part, rest) = cut(text, Mark::Space);
    if rest.is_empty() {
        return (part, None);
    }
    (part, Some(behind_first(rest)))
}

/// The numbers that are left in a row, or `None` where a part is no number.
#[tactic(auto, using(crate::proofs::PartLemmas::numbers_start, crate::proofs::PartLemmas::numbers_step, crate::proofs::PartLemmas::numbers_none, crate::proofs::PartLemmas::numbers_end))]
pub(crate) fn numbers(alloc: Global, row: Option<&[u8]>) -> Result<Option<Vec<u64>>, NoMemory>
    ensures { IfOk result (λ found. option_map (λ v. v.items) found
        ≡ option_map (map capped) (numbers_of (parts_left row.entry))) }
{
    let mut found = Vec::new(alloc);
    let mut left = row;
    while let Some(text) = left {
        let (part, rest) = next_part(text);
        let Some(value) = number(part) else {
            return Ok(None);
        };
        found.push(value)?;
        left = rest;
    }
    Ok(Some(found))
}
