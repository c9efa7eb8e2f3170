// The loops of a region.
ghost use Rattle.std.specs.Prelude.{◌≡◌, ◌++◌, ◌∷◌, [], ◌+◌, OnOk};
ghost use Rattle.nest_build.specs.Coding.{loops_of};
ghost use Rattle.nest_build.specs.Parts.{counter_of, loops_from, low_of};

use crate::numbers::next;
use shapes_core::NoMemory;

/// A loop over an axis: the register that counts it, the variable of the axis, and its turns.
#[derive(Clone, Copy)]
pub(crate) struct Axis {
    pub(crate) counter: u32,
    pub(crate) var: u32,
    pub(crate) turns: u64,
}

/// Adds the loops of axes, at most 6, of which the first has this variable, and the first that is a loop this counter.
pub(crate) fn push_axes(
    out: &mut Vec<Axis>,
    counter: u32,
    var: u32,
    region: &[(u64, u64)],
) -> Result<(), NoMemory>
    ensures { OnOk result (loops_of out.new.items ≡ loops_of out.old.items ++ loops_from counter var region.now) }
{
    let Some((pair, others)) = region.split_first() else {
        return Ok(());
    };
    let turns = pair.1.saturating_sub(pair.0);
    let behind = next(var)?;
    if turns == 1 {
        return push_axes(out, counter, behind, others);
    }
    push_axis(out, counter, var, turns)?;
    push_axes(out, next(counter)?, behind, others)
}

/// Adds a loop.
fn push_axis(out: &mut Vec<Axis>, counter: u32, var: u32, turns: u64) -> Result<(), NoMemory>
    ensures { OnOk result (loops_of out.new.items ≡ loops_of out.old.items ++ record { counter = counter; var = var; turns = turns } ∷ []) }
{
    out.push(Axis {
        counter,
        var,
        turns,
    })?;
    Ok(())
}

/// The register that counts the loop over a variable, where there is one.
pub(crate) fn counter_of(axes: &[Axis], var: u32) -> Option<u32>
    ensures { result ≡ counter_of (loops_of axes.now) var }
{
    let Some((axis, others)) = axes.split_first() else {
        return None;
    };
    if axis.var == var {
        return Some(axis.counter);
    }
    counter_of(others, var)
}

/// The least number of a variable in a region.
pub(crate) fn low_of(region: &[(u64, u64)], var: u32) -> u64
    ensures { result ≡ low_of region.now var }
{
    let Some(pair) = region.get(var as usize) else {
        return 0;
    };
    pair.0
}
