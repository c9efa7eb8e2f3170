// Which instructions have a label, and on which lines of the emitted text they stand.
ghost use Rattle.std.specs.Prelude.{◌≡◌, ◌+◌, ◌≤◌, ◌<◌, ◌^◌, ◌++◌, IfOk, OnOk, length};
ghost use Rattle.shapes_core.specs.Limits.{most_items};
ghost use Rattle.rv_line.specs.Emitted.{target_of, places_from, is_labelled, label_text};
ghost use Rattle.rv_line.specs.Labels.{AreLabels, TargetsWithin};

use crate::instruction::{push_label_name, push_text};
use crate::line::Line;
use shapes_core::NoMemory;
use std::alloc::Global;

/// The number of the instruction to which an instruction may go, besides the one behind it.
fn target(line: &Line) -> Option<u32>
    ensures { result ≡ target_of line.now }
{
    match line {
        Line::Branch { target, .. } => Some(*target),
        Line::Jal { target, .. } => Some(*target),
        _ => None,
    }
}

/// For each instruction, and for the end, whether some instruction goes there.
pub fn labels(alloc: Global, lines: &[Line]) -> Result<Vec<bool>, NoMemory>
    requires targets { TargetsWithin (length lines.now) lines.now }
    requires count { length lines.now ≤ most_items }
    ensures { IfOk result (λ labelled. AreLabels lines.now labelled.items) }
{
    let mut labelled = vec![in alloc; false; lines.len() + 1]?;
    for line in lines {
        if let Some(target) = target(line) {
            labelled[target as usize] = true;
        }
    }
    Ok(labelled)
}

/// The lines of the emitted text where the program's instructions stand. `first` is the line behind that of the
/// program's own label.
pub fn places(
    alloc: Global,
    first: u32,
    lines: &[Line],
    labelled: &[bool],
) -> Result<Vec<u32>, NoMemory>
    requires labels { AreLabels lines.now labelled.now }
    requires first { first < 2 ^ 31 }
    requires count { length lines.now ≤ most_items }
    ensures { IfOk result (λ places.
        places.items ≡ places_from (is_labelled lines.now) first 0 lines.now) }
{
    let mut places = Vec::with_capacity(alloc, lines.len())?;
    let mut place = first;
    for at in 0..lines.len() {
        if labelled[at] {
            place += 1;
        }
        places.push(place)?;
        place += 1;
    }
    Ok(places)
}

/// The line of a label, where there is one.
pub fn push_label(out: &mut Vec<u8>, labelled: bool, number: u32) -> Result<(), NoMemory>
    ensures { OnOk result (out.new.items ≡ out.old.items ++ label_text labelled number) }
{
    if labelled {
        push_label_name(out, number)?;
        push_text(out, ":\n")?;
    }
    Ok(())
}
