// The texts that tasks make of a source.
ghost use Rattle.std.specs.Prelude.{◌≤◌, IfErr, IfOk, length};
ghost use Rattle.moa_reader.specs.Limits.{longest_source};
ghost use Rattle.moa_tree.specs.Pools.{tree_of};
ghost use Rattle.moa_tree.specs.Readings.{Reads};
ghost use Rattle.psi_compile.specs.Errors.{IsCause};
ghost use Rattle.psi_top.specs.Made.{IsCauseFor, IsMade, IsUnbuilt};

use crate::command::Task;
use crate::forms::{FormKind, forms_of};
use crate::nests::nests_text;
use crate::report::report_on;
use moa_reader::{print, read};
use psi_compile::laws::causes_are_kept;
use psi_compile::{CompileError, built_program, compile};
use shape_check::{Checked, check};
use std::alloc::Global;

/// The program that a source reads as, checked.
fn checked(alloc: Global, source: &[u8]) -> Result<Checked, CompileError>
    requires { length source.now ≤ longest_source }
    ensures read { IfOk result (λ checked. Reads source.now (tree_of checked.pools)) }
    ensures causes { IfErr result (λ error. IsCause source.now error) }
    ensures unbuilt { IfErr result (λ error. IsUnbuilt error → ⊥) }
{
    causes_are_kept();
    let program = read(alloc, source)?;
    Ok(check(alloc, program)?)
}

/// The report on a source.
fn report_text(alloc: Global, source: &[u8]) -> Result<Vec<u8>, CompileError>
    requires { length source.now ≤ longest_source }
    ensures made { IfOk result (λ text. IsMade Task.Check source.now text.items) }
    ensures causes { IfErr result (λ error. IsCauseFor Task.Check source.now error) }
{
    let program = checked(alloc, source)?;
    Ok(report_on(alloc, &program)?)
}

/// The canonical text of a source.
fn canonical_text(alloc: Global, source: &[u8]) -> Result<Vec<u8>, CompileError>
    requires { length source.now ≤ longest_source }
    ensures made { IfOk result (λ text. IsMade Task.ShowSource source.now text.items) }
    ensures causes { IfErr result (λ error. IsCauseFor Task.ShowSource source.now error) }
{
    let program = checked(alloc, source)?;
    let read = program.program();
    Ok(print(alloc, read)?)
}

/// The denotational normal forms of a source.
fn dnf_text(alloc: Global, source: &[u8]) -> Result<Vec<u8>, CompileError>
    requires { length source.now ≤ longest_source }
    ensures made { IfOk result (λ text. IsMade Task.ShowDnf source.now text.items) }
    ensures causes { IfErr result (λ error. IsCauseFor Task.ShowDnf source.now error) }
{
    let program = checked(alloc, source)?;
    Ok(forms_of(alloc, FormKind::Normal, &program)?)
}

/// The operational normal forms of a source.
fn onf_text(alloc: Global, source: &[u8]) -> Result<Vec<u8>, CompileError>
    requires { length source.now ≤ longest_source }
    ensures made { IfOk result (λ text. IsMade Task.ShowOnf source.now text.items) }
    ensures causes { IfErr result (λ error. IsCauseFor Task.ShowOnf source.now error) }
{
    let program = checked(alloc, source)?;
    Ok(forms_of(alloc, FormKind::Operational, &program)?)
}

/// The nests of a source, of which each expression is built.
fn nest_text(alloc: Global, source: &[u8]) -> Result<Vec<u8>, CompileError>
    requires { length source.now ≤ longest_source }
    ensures made { IfOk result (λ text. IsMade Task.ShowNest source.now text.items) }
    ensures causes { IfErr result (λ error. IsCauseFor Task.ShowNest source.now error) }
{
    let program = built_program(alloc, source)?;
    Ok(nests_text(alloc, &program)?)
}

/// The text that a source is compiled to.
fn compiled_text(alloc: Global, source: &[u8]) -> Result<Vec<u8>, CompileError>
    requires { length source.now ≤ longest_source }
    ensures made { IfOk result (λ text. IsMade Task.Compile source.now text.items) }
    ensures causes { IfErr result (λ error. IsCauseFor Task.Compile source.now error) }
{
    compile(alloc, source)
}

/// The text that a task makes of a source.
pub(crate) fn text_for(alloc: Global, task: Task, source: &[u8]) -> Result<Vec<u8>, CompileError>
    requires { length source.now ≤ longest_source }
    ensures made { IfOk result (λ text. IsMade task source.now text.items) }
    ensures causes { IfErr result (λ error. IsCauseFor task source.now error) }
{
    match task {
        Task::Check => report_text(alloc, source),
        Task::ShowSource => canonical_text(alloc, source),
        Task::ShowDnf => dnf_text(alloc, source),
        Task::ShowOnf => onf_text(alloc, source),
        Task::ShowNest => nest_text(alloc, source),
        Task::Compile => compiled_text(alloc, source),
    }
}
