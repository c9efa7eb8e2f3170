// Lines of a nest, within so many loops and choices.
ghost use Rattle.std.specs.Prelude.{◌≡◌, [], ◌∷◌, ◌++◌, codes, OnOk};
ghost use Rattle.loop_ir.specs.Pool.{inner_lists, steps_of};
ghost use Rattle.loop_ir.specs.Steps.{End};
ghost use Rattle.form_text.specs.NestPieces.{first_text};
ghost use Rattle.form_text.specs.NestSpelling.{for_text, if_text, job_row, margin, bare_text, row, step_lines, target_text};

use crate::actions::{push_action, push_worded};
use crate::areas::push_area;
use crate::words::{push_count, push_number, push_text};
use loop_ir::Step;
use moa_tree::{Job, Op};
use shapes_core::{Area, AreaKind, NoMemory};

/// The line of a job.
pub(crate) fn push_job_row(out: &mut Vec<u8>, areas: &[Area], job: Job) -> Result<(), NoMemory>
    ensures { OnOk result (out.new.items ≡ out.old.items ++ job_row areas.now job) }
{
    push_text(out, b"job ")?;
    push_target(out, areas, job.area, job.fold)?;
    push_text(out, b"\n")
}

/// What a job computes.
fn push_target(
    out: &mut Vec<u8>,
    areas: &[Area],
    area: u32,
    fold: Option<Op>,
) -> Result<(), NoMemory>
    ensures { OnOk result (out.new.items ≡ out.old.items ++ target_text fold areas.now area) }
{
    if fold.is_none() {
        push_text(out, b"out ")?;
        return push_area(out, areas, area);
    }
    push_text(out, b"scan ")?;
    match areas.get(area as usize) {
        None => Ok(()),
        Some(found) => push_bare(out, &found.kind),
    }
}

/// A scan by its number alone.
fn push_bare(out: &mut Vec<u8>, kind: &AreaKind) -> Result<(), NoMemory>
    ensures { OnOk result (out.new.items ≡ out.old.items ++ bare_text kind.now) }
{
    match kind {
        AreaKind::In(name) | AreaKind::Out(name) => push_text(out, name.bytes()),
        AreaKind::Scan(number) => push_count(out, u64::from(*number)),
    }
}

/// Two blanks for each loop and each choice.
fn push_margin(out: &mut Vec<u8>, depth: u32) -> Result<(), NoMemory>
    ensures { OnOk result (out.new.items ≡ out.old.items ++ margin depth) }
{
    for _ in 0..depth {
        push_text(out, b"  ")?;
    }
    Ok(())
}

/// A line of one word.
pub(crate) fn push_row(out: &mut Vec<u8>, depth: u32, word: &[u8]) -> Result<(), NoMemory>
    ensures { OnOk result (out.new.items ≡ out.old.items ++ row depth word.now) }
{
    push_margin(out, depth)?;
    push_text(out, word)?;
    push_text(out, b"\n")
}

/// The line of a step that does no list.
pub(crate) fn push_action_row(
    out: &mut Vec<u8>,
    areas: &[Area],
    depth: u32,
    step: Step,
) -> Result<(), NoMemory>
    ensures { OnOk result (out.new.items ≡ out.old.items ++ row depth (first_text areas.now (steps_of (λ inner. End) (step ∷ [])))) }
{
    push_margin(out, depth)?;
    push_action(out, areas, step)?;
    push_text(out, b"\n")
}

/// The first line of a loop.
pub(crate) fn push_for(
    out: &mut Vec<u8>,
    depth: u32,
    counter: u32,
    turns: u64,
) -> Result<(), NoMemory>
    ensures { OnOk result (out.new.items ≡ out.old.items ++ row depth (for_text counter turns)) }
{
    push_margin(out, depth)?;
    push_worded(out, b"for", counter)?;
    push_text(out, b" < ")?;
    push_count(out, turns)?;
    push_text(out, b"\n")
}

/// The first line of a choice.
pub(crate) fn push_if(out: &mut Vec<u8>, depth: u32, left: u32, below: i64) -> Result<(), NoMemory>
    ensures { OnOk result (out.new.items ≡ out.old.items ++ row depth (if_text left below)) }
{
    push_margin(out, depth)?;
    push_worded(out, b"if", left)?;
    push_text(out, b" < ")?;
    push_number(out, below)?;
    push_text(out, b"\n")
}
