// The text of a program's forms.
ghost use Rattle.std.specs.Prelude.{◌≡◌, ◌<◌, ◌+◌, length, map, IfOk, IsOk, OnOk};
ghost use Rattle.shape_check.specs.Judged.{items_in};
ghost use Rattle.shape_check.specs.Statements.{verdict_of};
ghost use Rattle.normal_form.specs.Kept.{form_in};
ghost use Rattle.psi_rules.specs.Tables.{AreTables};
ghost use Rattle.psi_top.specs.Shown.{shown, shown_first, spelled_as, strided_line};

use form_text::{normal_text, operational_text};
use normal_form::Normal;
use psi_rules::{Tables, reduce_among, tables_of};
use shape_check::{Checked, Layout, layout_of};
use shapes_core::NoMemory;
use std::alloc::Global;
use stride_form::to_operational;

/// Which forms are shown.
#[derive(Clone, Copy)]
pub(crate) enum FormKind {
    /// Each load by its index vector.
    Normal,
    /// Each load by a start and strides.
    Operational,
}

/// The line of a job with its operational form, on the whole of its array.
fn strided_line(alloc: Global, normal: &Normal, layout: &Layout) -> Result<Vec<u8>, NoMemory>
    requires whole { normal.now.region ≡ map (λ n. (0, n)) normal.now.shape }
    ensures { IfOk result (λ line. line.items ≡ strided_line layout.now normal.now.job normal.now.shape (form_in normal.now.terms)) }
{
    let operational = to_operational(alloc, normal)?;
    operational_text(alloc, &operational, layout)
}

/// The line of a job with its form, on the whole of its array.
fn line_of(
    alloc: Global,
    kind: FormKind,
    normal: &Normal,
    layout: &Layout,
) -> Result<Vec<u8>, NoMemory>
    requires whole { normal.now.region ≡ map (λ n. (0, n)) normal.now.shape }
    ensures { IfOk result (λ line. line.items ≡ spelled_as kind layout.now normal.now.job normal.now.shape (form_in normal.now.terms)) }
{
    match kind {
        FormKind::Normal => normal_text(alloc, normal, layout),
        FormKind::Operational => strided_line(alloc, normal, layout),
    }
}

/// Adds the line of the job of this number.
fn push_form(
    alloc: Global,
    kind: FormKind,
    text: &mut Vec<u8>,
    checked: &Checked,
    tables: &Tables,
    job: u32,
) -> Result<(), NoMemory>
    requires tables { AreTables checked.now tables.now }
    requires job { job < length checked.now.jobs }
    ensures { OnOk result (text.old.items ≡ shown_first kind (items_in checked.now.pools) job
        → text.new.items ≡ shown_first kind (items_in checked.now.pools) (job + 1)) }
{
    let _program = checked.program();
    let normal = reduce_among(alloc, checked, tables, job)?;
    let line = line_of(alloc, kind, &normal, layout_of(checked))?;
    text.extend_from_slice(&line)?;
    Ok(())
}

/// The forms of a checked program, a line a job, in order.
pub(crate) fn forms_of(
    alloc: Global,
    kind: FormKind,
    checked: &Checked,
) -> Result<Vec<u8>, NoMemory>
    ensures made { IfOk result (λ text. text.items ≡ shown kind (items_in checked.now.pools)) }
    ensures accepted { IsOk (verdict_of (items_in checked.now.pools)) }
{
    let mut text = Vec::new(alloc);
    let _program = checked.program();
    let tables = tables_of(alloc, checked)?;
    let count = checked.job_count();
    for job in 0..count {
        push_form(alloc, kind, &mut text, checked, &tables, job)?;
    }
    Ok(text)
}
