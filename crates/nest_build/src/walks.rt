// Steps that set registers and places, and that walk places along a variable.
ghost use Rattle.std.specs.Prelude.{◌≡◌, ◌++◌, ◌∷◌, [], ◌*ℤ◌, OnOk, map};
ghost use Rattle.loop_ir.specs.Steps.{Place};
ghost use Rattle.nest_build.specs.Coding.{plain, spots_of};
ghost use Rattle.nest_build.specs.Nests.{sets_from, stride_along, walk_by, walks};

use crate::numbers::next;
use crate::places::{Stand, stride_along};
use loop_ir::Step;
use shapes_core::NoMemory;

/// Adds steps that set registers, from this one on, to values.
pub(crate) fn push_sets(steps: &mut Vec<Step>, first: u32, values: &[i64]) -> Result<(), NoMemory>
    ensures { OnOk result (steps.new.items ≡ steps.old.items ++ plain (sets_from first values.now)) }
{
    let mut register = first;
    let mut left = values;
    while let Some((value, others)) = left.split_first() {
        steps.push(Step::Set {
            to: register,
            value: *value,
        })?;
        register = next(register)?;
        left = others;
    }
    Ok(())
}

/// Adds steps that set places to their words.
pub(crate) fn push_places(steps: &mut Vec<Step>, stands: &[Stand]) -> Result<(), NoMemory>
    ensures { OnOk result (steps.new.items ≡ steps.old.items ++ plain (map (λ spot. Place spot.place spot.word) (spots_of stands.now))) }
{
    let mut left = stands;
    while let Some((stand, others)) = left.split_first() {
        push_place(steps, stand)?;
        left = others;
    }
    Ok(())
}

/// Adds a step that sets a place to its word.
fn push_place(steps: &mut Vec<Step>, stand: &Stand) -> Result<(), NoMemory>
    ensures { OnOk result (steps.new.items ≡ steps.old.items ++ plain (Place stand.now.place stand.now.word ∷ [])) }
{
    steps.push(Step::Place {
        to: stand.place,
        word: stand.word,
    })?;
    Ok(())
}

/// Adds steps by which places walk along a variable so many times.
pub(crate) fn push_walks(
    steps: &mut Vec<Step>,
    stands: &[Stand],
    var: u32,
    times: i64,
) -> Result<(), NoMemory>
    ensures { OnOk result (steps.new.items ≡ steps.old.items ++ plain (walks (spots_of stands.now) var times)) }
{
    let mut left = stands;
    while let Some((stand, others)) = left.split_first() {
        push_walk(steps, stand, var, times)?;
        left = others;
    }
    Ok(())
}

/// Adds the step by which a place walks, where it has a stride along the variable.
fn push_walk(steps: &mut Vec<Step>, stand: &Stand, var: u32, times: i64) -> Result<(), NoMemory>
    ensures { OnOk result (steps.new.items
        ≡ steps.old.items ++ plain (walk_by stand.now.place (times *ℤ stride_along stand.now.strides var))) }
{
    let Some(stride) = stride_along(stand.strides.list(), var) else {
        return Err(NoMemory);
    };
    let Some(words) = times.checked_mul(stride) else {
        return Err(NoMemory);
    };
    push_words(steps, stand.place, words)
}

/// Adds the step by which a place walks so many words, unless they are none.
fn push_words(steps: &mut Vec<Step>, place: u32, words: i64) -> Result<(), NoMemory>
    ensures { OnOk result (steps.new.items ≡ steps.old.items ++ plain (walk_by place words)) }
{
    if words == 0 {
        return Ok(());
    }
    steps.push(Step::Walk { place, words })?;
    Ok(())
}
