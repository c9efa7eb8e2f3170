// The text of a program's nests.
ghost use Rattle.std.specs.Prelude.{◌≡◌, ◌<◌, ◌+◌, IfOk, IsOk, OnOk, Some, length, map, slice_get};
ghost use Rattle.loop_ir.specs.Pool.{tree};
ghost use Rattle.nest_jobs.specs.Leads.{nests};
ghost use Rattle.psi_top.specs.Shown.{nest, nest_first};
ghost use Rattle.shape_check.specs.Judged.{items_in};
ghost use Rattle.shape_check.specs.Statements.{verdict_of};

use form_text::nest_text;
use loop_ir::Nest;
use moa_tree::Job;
use psi_compile::nests_of;
use shape_check::{Checked, layout_of};
use shapes_core::NoMemory;
use std::alloc::Global;

/// The job of this number.
fn job_at(checked: &Checked, number: usize) -> Job
    requires { number < length checked.now.jobs }
    ensures { slice_get checked.now.jobs number ≡ Some result }
{
    checked.jobs()[number]
}

/// The nest of this number.
fn nest_at(made: &[Nest], number: usize) -> &Nest
    requires { number < length made.now }
    ensures { slice_get made.now number ≡ Some result.now }
{
    &made[number]
}

/// Adds the lines of the nest of the job of this number.
fn push_nest(
    alloc: Global,
    text: &mut Vec<u8>,
    checked: &Checked,
    made: &[Nest],
    number: usize,
) -> Result<(), NoMemory>
    requires job { number < length checked.now.jobs }
    requires nests { map tree made.now ≡ nests (items_in checked.now.pools) }
    requires there { number < length made.now }
    ensures { OnOk result (text.old.items ≡ nest_first (items_in checked.now.pools) number
        → text.new.items ≡ nest_first (items_in checked.now.pools) (number + 1)) }
{
    let _program = checked.program();
    let nest = nest_at(made, number);
    let job = job_at(checked, number);
    let lines = nest_text(alloc, nest, job, layout_of(checked))?;
    text.extend_from_slice(&lines)?;
    Ok(())
}

/// The nests of a checked program's jobs, in order.
pub(crate) fn nests_text(alloc: Global, checked: &Checked) -> Result<Vec<u8>, NoMemory>
    ensures made { IfOk result (λ text. text.items ≡ nest (items_in checked.now.pools)) }
    ensures accepted { IsOk (verdict_of (items_in checked.now.pools)) }
{
    let mut text = Vec::new(alloc);
    let _program = checked.program();
    let made = nests_of(alloc, checked)?;
    let count = checked.jobs().len().min(made.len());
    for number in 0..count {
        push_nest(alloc, &mut text, checked, &made, number)?;
    }
    Ok(text)
}
