// The lines of a nest.
ghost use Rattle.std.specs.Prelude.{◌≡◌, ◌<◌, ◌≤◌, [], ◌∷◌, ◌++◌, length, IfOk, OnOk};
ghost use Rattle.std.specs.List.{AllByRecursion};
ghost use Rattle.loop_ir.specs.Pool.{inner_lists, steps_of, tree, tree_at, trees_from};
ghost use Rattle.form_text.specs.NestSpelling.{nest_lines, step_lines};

use crate::rows::{push_action_row, push_for, push_if, push_job_row, push_row};
use loop_ir::laws::lists_in_order;
use loop_ir::{Nest, Step};
use moa_tree::Job;
use shape_check::Layout;
use shapes_core::{Area, NoMemory};
use std::alloc::Global;

/// The nest of a job, one step a line, in a block with this layout. An area of which the layout
/// has none is spelled by no byte. This project's own.
pub fn nest_text(alloc: Global, nest: &Nest, job: Job, layout: &Layout) -> Result<Vec<u8>, NoMemory>
    ensures { IfOk result (λ text. text.items ≡ nest_lines layout.now job (tree nest.now)) }
{
    let areas = layout.areas();
    let mut out = Vec::new(alloc);
    push_job_row(&mut out, areas, job)?;
    if nest.lists() > 0 {
        push_list(&mut out, areas, nest, 0, 0)?;
    }
    Ok(out)
}

/// The lines of a list within so many loops and choices.
#[cycle(lines)]
fn push_list(
    out: &mut Vec<u8>,
    areas: &[Area],
    nest: &Nest,
    depth: u32,
    number: u32,
) -> Result<(), NoMemory>
    requires there { number < length nest.now }
    requires deep { depth ≤ number }
    ensures { OnOk result (out.new.items ≡ out.old.items ++ step_lines areas.now depth (tree_at (trees_from 0 nest.now) number)) }
{
    lists_in_order();
    for step in nest.list(number) {
        push_step(out, areas, nest, depth, *step)?;
    }
    Ok(())
}

/// The lines of a step.
#[cycle(lines)]
fn push_step(
    out: &mut Vec<u8>,
    areas: &[Area],
    nest: &Nest,
    depth: u32,
    step: Step,
) -> Result<(), NoMemory>
    requires { AllByRecursion (λ inner. (depth < inner) × (inner < length nest.now)) (inner_lists step) }
    ensures { OnOk result (out.new.items ≡ out.old.items
        ++ step_lines areas.now depth (steps_of (tree_at (trees_from 0 nest.now)) (step ∷ []))) }
{
    match step {
        Step::For {
            counter,
            turns,
            body,
        } => {
            push_for(out, depth, counter, turns)?;
            push_list(out, areas, nest, depth + 1, body)?;
            push_row(out, depth, b"end")
        }
        Step::If {
            left,
            below,
            yes,
            no,
        } => {
            push_if(out, depth, left, below)?;
            push_list(out, areas, nest, depth + 1, yes)?;
            push_row(out, depth, b"else")?;
            push_list(out, areas, nest, depth + 1, no)?;
            push_row(out, depth, b"end")
        }
        plain => push_action_row(out, areas, depth, plain),
    }
}
