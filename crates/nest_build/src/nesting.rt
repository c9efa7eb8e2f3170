// Loops around steps, each with its list.
ghost use Rattle.std.specs.Prelude.{◌≡◌, ◌++◌, pos, ◌-ℤ◌, IfOk, OnOk};
ghost use Rattle.loop_ir.specs.Steps.{End, For, joined};
ghost use Rattle.nest_build.specs.Coding.{loops_of, plain, spots_of};
ghost use Rattle.nest_build.specs.Nests.{all_loops, inner_loops, listed, walks};
ghost use Rattle.nest_build.specs.Standing.{AreNamed, Stands, tree_in};

use crate::axes::Axis;
use crate::places::Stand;
use crate::values::lowered;
use crate::walks::push_walks;
use loop_ir::{Lists, Step};
use shapes_core::NoMemory;
use std::alloc::Global;

/// All loops around a body: behind the outermost one no place is needed.
pub(crate) fn all_loops(
    alloc: Global,
    lists: &mut Lists,
    stands: &[Stand],
    axes: &[Axis],
    body: Vec<Step>,
) -> Result<Vec<Step>, NoMemory>
    requires { AreNamed lists.old body.items }
    ensures { IfOk result (λ steps. Stands lists.new steps.items
        (all_loops (spots_of stands.now) (loops_of axes.now) (tree_in lists.old body.items))) }
{
    let Some((axis, others)) = axes.split_first() else {
        return Ok(body);
    };
    let inside = inner_loops(alloc, lists, stands, others, body)?;
    around(alloc, lists, stands, *axis, inside)
}

/// Loops, at most 6, within another one: each place is brought back behind its loop.
fn inner_loops(
    alloc: Global,
    lists: &mut Lists,
    stands: &[Stand],
    axes: &[Axis],
    body: Vec<Step>,
) -> Result<Vec<Step>, NoMemory>
    requires { AreNamed lists.old body.items }
    ensures { IfOk result (λ steps. Stands lists.new steps.items
        (inner_loops (spots_of stands.now) (loops_of axes.now) (tree_in lists.old body.items))) }
{
    let Some((axis, others)) = axes.split_first() else {
        return Ok(body);
    };
    let inside = inner_loops(alloc, lists, stands, others, body)?;
    let mut steps = around(alloc, lists, stands, *axis, inside)?;
    push_rewinds(&mut steps, stands, axis)?;
    Ok(steps)
}

/// Adds steps by which places are brought back behind a loop.
fn push_rewinds(steps: &mut Vec<Step>, stands: &[Stand], axis: &Axis) -> Result<(), NoMemory>
    ensures { OnOk result (steps.new.items
        ≡ steps.old.items ++ plain (walks (spots_of stands.now) axis.now.var (pos 0 -ℤ pos axis.now.turns))) }
{
    let times = lowered(0, axis.turns)?;
    push_walks(steps, stands, axis.var, times)
}

/// A loop around steps, behind which each place walks along its variable.
fn around(
    alloc: Global,
    lists: &mut Lists,
    stands: &[Stand],
    axis: Axis,
    inside: Vec<Step>,
) -> Result<Vec<Step>, NoMemory>
    requires { AreNamed lists.old inside.items }
    ensures { IfOk result (λ steps. Stands lists.new steps.items
        (For axis.counter axis.turns (joined (tree_in lists.old inside.items) (listed (walks (spots_of stands.now) axis.var (pos 1)))) End)) }
{
    let mut list = inside;
    push_walks(&mut list, stands, axis.var, 1)?;
    if lists.is_full() {
        return Err(NoMemory);
    }
    let body = lists.add(list)?;
    let mut steps = Vec::new(alloc);
    steps.push(Step::For {
        counter: axis.counter,
        turns: axis.turns,
        body,
    })?;
    Ok(steps)
}
