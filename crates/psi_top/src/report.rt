// The report on a program.
ghost use Rattle.std.specs.Fmt.{decimal};
ghost use Rattle.std.specs.List.{sum_by};
ghost use Rattle.std.specs.Prelude.{◌≡◌, ◌++◌, ℤ, List, codes, IfOk, IsOk, OnOk};
ghost use Rattle.shapes_core.specs.Shape.{total};
ghost use Rattle.moa_tree.specs.Expr.{Expr};
ghost use Rattle.moa_tree.specs.Pool.{item_of};
ghost use Rattle.shape_check.specs.Judged.{items_in};
ghost use Rattle.shape_check.specs.Statements.{verdict_of};
ghost use Rattle.psi_top.specs.Report.{costs_text, extents_text, report, statement_line};

use itoa::Buffer;
use moa_tree::Statement;
use shape_check::{Checked, layout_of};
use shapes_core::{Name, NoMemory, Shape};
use std::alloc::Global;

fn push_number(report: &mut Vec<u8>, number: u64) -> Result<(), NoMemory>
    ensures { OnOk result (report.new.items ≡ report.old.items ++ decimal number) }
{
    let mut buffer = Buffer::new();
    report.extend_from_slice(buffer.format(number).as_bytes())?;
    Ok(())
}

/// Adds an extent after a blank.
fn push_extent(report: &mut Vec<u8>, extent: u64) -> Result<(), NoMemory>
    ensures { OnOk result (report.new.items ≡ report.old.items ++ (codes " " ++ decimal extent)) }
{
    report.extend_from_slice(b" ")?;
    push_number(report, extent)
}

fn push_extents(report: &mut Vec<u8>, shape: Shape) -> Result<(), NoMemory>
    ensures { OnOk result (report.new.items ≡ report.old.items ++ extents_text shape) }
{
    for extent in shape.extents() {
        push_extent(report, *extent)?;
    }
    Ok(())
}

/// Adds a line of a word, a name and the extents of a shape.
fn push_line(report: &mut Vec<u8>, word: &str, name: Name, shape: Shape) -> Result<(), NoMemory>
    ensures { OnOk result (report.new.items ≡ report.old.items ++ (word.now ++ codes " " ++ name ++ extents_text shape ++ codes "\n")) }
{
    report.extend_from_slice(word.as_bytes())?;
    report.extend_from_slice(b" ")?;
    report.extend_from_slice(name.bytes())?;
    push_extents(report, shape)?;
    report.extend_from_slice(b"\n")?;
    Ok(())
}

/// Adds the line of a statement whose array has this shape.
fn push_statement(report: &mut Vec<u8>, statement: Statement, shape: Shape) -> Result<(), NoMemory>
    ensures { (numbers : List ℤ) (trees : List Expr) → OnOk result (report.new.items
        ≡ report.old.items ++ statement_line (item_of numbers trees statement, shape)) }
{
    match statement {
        Statement::Input { name, .. } => push_line(report, "in", name, shape),
        Statement::Name { name, .. } => push_line(report, "let", name, shape),
        Statement::Output { name, .. } => push_line(report, "out", name, shape),
    }
}

/// Adds the lines of what a program costs.
fn push_costs(report: &mut Vec<u8>, checked: &Checked) -> Result<(), NoMemory>
    ensures { OnOk result (report.new.items ≡ report.old.items
        ++ costs_text checked.now.size checked.now.work (sum_by (λ area. total area.shape) checked.now.areas)) }
{
    report.extend_from_slice(b"size ")?;
    push_number(report, checked.size())?;
    report.extend_from_slice(b"\nwork ")?;
    push_number(report, checked.work())?;
    report.extend_from_slice(b"\nwords ")?;
    push_number(report, layout_of(checked).words())?;
    report.extend_from_slice(b"\n")?;
    Ok(())
}

/// The report on a checked program: each statement with its shape, and what it costs.
pub(crate) fn report_on(alloc: Global, checked: &Checked) -> Result<Vec<u8>, NoMemory>
    ensures made { IfOk result (λ text. text.items ≡ report (items_in checked.now.pools)) }
    ensures accepted { IsOk (verdict_of (items_in checked.now.pools)) }
{
    let mut report = Vec::new(alloc);
    let statements = checked.program().statements();
    for number in 0..statements.len() {
        push_statement(
            &mut report,
            statements[number],
            checked.statement_shape(number),
        )?;
    }
    push_costs(&mut report, checked)?;
    Ok(report)
}
