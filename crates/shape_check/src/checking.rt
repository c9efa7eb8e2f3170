// The verdict on a program.
ghost use Rattle.std.specs.Prelude.{◌≡◌, ◌<◌, ◌≤◌, ◌++◌, ◌^◌, ℕ, Err, None, Some, Option, IfErr, IfOk, MatchResult, OnOk};
ghost use Rattle.text_tokens.specs.declared.token.Position.{Position};
ghost use Rattle.shape_check.specs.declared.error.CheckError.TheVariants as answer;
ghost use Rattle.shapes_core.specs.Limits.{greatest_size, greatest_work, most_words};
ghost use Rattle.moa_tree.specs.Pools.{Pools};
ghost use Rattle.shape_check.specs.Blocks.{IsLayout, array_words};
ghost use Rattle.shape_check.specs.Kept.{Explains, IsChecked};
ghost use Rattle.shape_check.specs.Layout.{placed};
ghost use Rattle.shape_check.specs.Limited.{IsBlockRefused, checking_of};
ghost use Rattle.shape_check.specs.Progress.{Surveyed};

use crate::checked::Checked;
use crate::error::CheckError;
use crate::layout::{Layout, array_words, place};
use crate::progress::Progress;
use crate::survey::survey;
use moa_tree::Program;
use shapes_core::{AreaKind, GREATEST_SIZE, GREATEST_WORK, MOST_WORDS, NoMemory, Shape};
use std::alloc::Global;

/// Refuses a value that is greater than a limit of the whole program.
fn within(which: u8, greatest: u64, value: u64) -> Result<(), CheckError>
    ensures fits { value < 2 ^ 64 }
    ensures told { MatchResult result (λ _. value ≤ greatest) (λ error. (greatest < value) × (error ≡ answer.Limit None which value)) }
{
    if value > greatest {
        return Err(CheckError::Limit {
            at: None,
            which,
            value,
        });
    }
    Ok(())
}

/// Refuses what was surveyed of a program that is beyond a limit on what it costs.
fn within_costs(progress: &Progress) -> Result<(), CheckError>
    ensures { (pools : Pools) → Surveyed pools progress.now → MatchResult result
        (λ _. (progress.now.totals.size ≤ greatest_size) × (progress.now.totals.work ≤ greatest_work))
        (λ error. Explains pools error) }
{
    within(5, GREATEST_SIZE, progress.totals.size)?;
    within(6, GREATEST_WORK, progress.totals.work)
}

/// The arrays of the block, one list behind the other.
fn arrays_of(alloc: Global, progress: &Progress) -> Result<Vec<(AreaKind, Shape)>, NoMemory>
    ensures { IfOk result (λ arrays. arrays.items
        ≡ progress.now.inputs.items ++ progress.now.outputs.items ++ progress.now.scans.items) }
{
    let mut arrays = Vec::from_slice(alloc, &progress.inputs)?;
    arrays.extend_from_slice(&progress.outputs)?;
    arrays.extend_from_slice(&progress.scans)?;
    Ok(arrays)
}

/// The layout of arrays, unless they have more words than a block may.
fn layout_within(alloc: Global, arrays: &[(AreaKind, Shape)]) -> Result<Layout, CheckError>
    requires { array_words arrays.now ≤ most_words → IsLayout (placed 0 arrays.now) }
    ensures { MatchResult result
        (λ layout. (array_words arrays.now ≤ most_words) × (layout ≡ placed 0 arrays.now))
        (λ error. IsBlockRefused arrays.now error) }
{
    within(7, MOST_WORDS, array_words(arrays))?;
    Ok(Layout::new(place(alloc, arrays)?))
}

/// The layout of the block of what was surveyed of a program, unless that is beyond a limit of the whole program.
fn layout_for(alloc: Global, progress: &Progress) -> Result<Layout, CheckError>
    requires { (pools : Pools) × Surveyed pools progress.now }
    ensures { (pools : Pools) → Surveyed pools progress.now → MatchResult result
        (λ layout. IsChecked (checking_of pools progress.now layout)) (λ error. Explains pools error) }
{
    within_costs(progress)?;
    let arrays = arrays_of(alloc, progress)?;
    layout_within(alloc, &arrays)
}

/// The checked program, unless it is beyond a limit of the whole program.
fn limited(alloc: Global, program: Program, progress: Progress) -> Result<Checked, CheckError>
    requires { Surveyed program progress }
    ensures checked { IfOk result (λ checked. checked.pools ≡ program) }
    ensures refused { IfErr result (λ error. Explains program error) }
{
    let layout = layout_for(alloc, &progress)?;
    let Progress {
        names: _names,
        shapes,
        statement_shapes,
        jobs,
        inputs: _inputs,
        outputs: _outputs,
        scans: _scans,
        totals,
    } = progress;
    Ok(Checked::new(
        program,
        shapes,
        statement_shapes,
        jobs,
        layout,
        totals.size,
        totals.work,
    ))
}

/// The checked program: its shapes, its jobs, the layout of its block and what it costs. It is refused by the first rule
/// or limit that fails, and only then, at the position of the word or the name where it fails; else memory is wanting.
/// An accepted program is never refused, and a refused one never accepted, since the verdict is a function of it.
pub fn check(alloc: Global, program: Program) -> Result<Checked, CheckError>
    ensures checked { IfOk result (λ checked. checked.pools ≡ program) }
    ensures refused { IfErr result (λ error. Explains program error) }
{
    let _statements = program.statements();
    let progress = survey(alloc, &program)?;
    limited(alloc, program, progress)
}
