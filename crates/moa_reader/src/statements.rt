// The statements of a text.
ghost use Rattle.std.specs.Prelude.{◌≡◌, ◌≢◌, ◌≤◌, ◌<◌, ℕ, Bool, List, [], ◌∷◌, length, IfErr, IfOk, OnOk, None, false, true};
ghost use Rattle.moa_tree.specs.Expected.{Want, on_items, at_start};
ghost use Rattle.moa_tree.specs.Outcome.{is_stuck};
ghost use Rattle.moa_tree.specs.Refusals.{is_end};
ghost use Rattle.moa_tree.specs.Vocabulary.{Lexeme as Terminal, version_number as number_of};
ghost use Rattle.moa_reader.specs.Build.{IsOpen};
ghost use Rattle.moa_reader.specs.Outcomes.{IsRefusedWith};
ghost use Rattle.moa_reader.specs.Rooms.{HasRoom, Spends};
ghost use Rattle.moa_reader.specs.Sources.{Takes, all};
ghost use Rattle.moa_reader.specs.Statements.{ReadsDefinition, ReadsRest, ReadsStatements, ReadsVersion, word_of};

use crate::error::ReadError;
use crate::expression::expression;
use crate::growth::pools_keep;
use crate::lists::numbers;
use crate::pools::Builder;
use crate::source::Source;
use crate::words::Declaration;
use moa_tree::{Statement, Version};
use shapes_core::Name;
use std::alloc::Global;
use text_tokens::{Position, Sign};

/// Passes over `psi` and the number of a version.
pub(crate) fn version_line(source: &mut Source<'_>) -> Result<(), ReadError>
    ensures read { OnOk result (ReadsVersion source.old source.new) }
    ensures fewer { OnOk result (length source.new.behind < length source.old.behind) }
    ensures refused { IfErr result (λ error. IsRefusedWith at_start (all source.old) error) }
{
    if !source.lexeme().is_psi() {
        return Err(source.refusal(4));
    }
    source.advance();
    version_number(source)?;
    Ok(())
}

#[tactic(auto, using(crate::proofs::WantLemmas::version_taken, crate::proofs::WantLemmas::version_stuck))]
fn version_number(source: &mut Source<'_>) -> Result<Version, ReadError>
    ensures taken { IfOk result (λ version. Takes source.old (Terminal.Number (number_of version)) source.new) }
    ensures fewer { OnOk result (length source.new.behind < length source.old.behind) }
    ensures refused { IfErr result (λ error. (wants : List Want) → IsRefusedWith (Want.VersionNumber ∷ wants) (all source.old) error) }
{
    let Some(version) = source.lexeme().version() else {
        return Err(source.refusal(4));
    };
    source.advance();
    Ok(version)
}

/// The name that is wanted next.
#[tactic(auto, using(crate::proofs::WantLemmas::name_taken, crate::proofs::WantLemmas::name_stuck))]
fn name(source: &mut Source<'_>) -> Result<Name, ReadError>
    ensures taken { IfOk result (λ name. Takes source.old (Terminal.Name name) source.new) }
    ensures fewer { OnOk result (length source.new.behind < length source.old.behind) }
    ensures refused { IfErr result (λ error. (wants : List Want) → IsRefusedWith (Want.AName ∷ wants) (all source.old) error) }
{
    let Some(name) = source.lexeme().name() else {
        return Err(source.refusal(7));
    };
    source.advance();
    Ok(name)
}

/// A name with its position, and the node of the expression that it stands for.
#[derive(Clone, Copy)]
struct Definition {
    name: Name,
    at: Position,
    node: u32,
}

/// Reads a name, `=` and an expression.
fn define(
    alloc: Global,
    source: &mut Source<'_>,
    builder: &mut Builder,
) -> Result<Definition, ReadError>
    requires open { IsOpen [] [] builder.old }
    requires room { HasRoom 0 source.old builder.old }
    ensures read { IfOk result (λ definition. ReadsDefinition source.old builder.old definition.name definition.node source.new builder.new) }
    ensures spent { OnOk result (Spends 0 source.old builder.old 1 source.new builder.new) }
    ensures stands { IfOk result (λ definition. definition.at ≡ source.old.at) }
    ensures refused { IfErr result (λ error. (wants : List Want) → is_stuck wants ≡ false
        → IsRefusedWith (Want.AName ∷ Want.AnEqual ∷ Want.AnExpr 1 ∷ wants) (all source.old) error) }
{
    let at = source.at();
    let name = name(source)?;
    source.sign(Sign::Equal, 8)?;
    let node = expression(alloc, source, builder)?;
    Ok(Definition { name, at, node })
}

/// Reads an input behind its word.
fn input(source: &mut Source<'_>, builder: &mut Builder) -> Result<(), ReadError>
    requires open { IsOpen [] [] builder.old }
    requires room { HasRoom 0 source.old builder.old }
    ensures read { OnOk result (ReadsRest Declaration.Input source.old builder.old source.new builder.new) }
    ensures spent { OnOk result (Spends 0 source.old builder.old 0 source.new builder.new) }
    ensures refused { IfErr result (λ error. (wants : List Want) → IsRefusedWith (Want.AName ∷ wants) (all source.old) error) }
{
    pools_keep();
    let at = source.at();
    let name = name(source)?;
    let start = builder.list();
    numbers(source, builder)?;
    let extents = builder.list_from(start);
    builder.statement(Statement::Input { name, extents, at })?;
    Ok(())
}

/// Reads a name for an expression behind its word.
fn named(alloc: Global, source: &mut Source<'_>, builder: &mut Builder) -> Result<(), ReadError>
    requires open { IsOpen [] [] builder.old }
    requires room { HasRoom 0 source.old builder.old }
    ensures read { OnOk result (ReadsRest Declaration.Name source.old builder.old source.new builder.new) }
    ensures spent { OnOk result (Spends 0 source.old builder.old 0 source.new builder.new) }
    ensures refused { IfErr result (λ error. (wants : List Want) → is_stuck wants ≡ false
        → IsRefusedWith (Want.AName ∷ Want.AnEqual ∷ Want.AnExpr 1 ∷ wants) (all source.old) error) }
{
    let definition = define(alloc, source, builder)?;
    builder.statement(Statement::Name {
        name: definition.name,
        node: definition.node,
        at: definition.at,
    })?;
    Ok(())
}

/// Reads an output behind its word.
fn output(alloc: Global, source: &mut Source<'_>, builder: &mut Builder) -> Result<(), ReadError>
    requires open { IsOpen [] [] builder.old }
    requires room { HasRoom 0 source.old builder.old }
    ensures read { OnOk result (ReadsRest Declaration.Output source.old builder.old source.new builder.new) }
    ensures spent { OnOk result (Spends 0 source.old builder.old 0 source.new builder.new) }
    ensures refused { IfErr result (λ error. (wants : List Want) → is_stuck wants ≡ false
        → IsRefusedWith (Want.AName ∷ Want.AnEqual ∷ Want.AnExpr 1 ∷ wants) (all source.old) error) }
{
    let definition = define(alloc, source, builder)?;
    builder.statement(Statement::Output {
        name: definition.name,
        node: definition.node,
        at: definition.at,
    })?;
    Ok(())
}

/// Reads a statement behind its word.
fn rest(
    alloc: Global,
    source: &mut Source<'_>,
    builder: &mut Builder,
    what: Declaration,
) -> Result<(), ReadError>
    requires open { IsOpen [] [] builder.old }
    requires room { HasRoom 0 source.old builder.old }
    ensures read { OnOk result (ReadsRest what source.old builder.old source.new builder.new) }
    ensures spent { OnOk result (Spends 0 source.old builder.old 0 source.new builder.new) }
    ensures refused { IfErr result (λ error. (seen : Bool) → IsRefusedWith (on_items seen [] (word_of what)) (all source.old) error) }
{
    match what {
        Declaration::Input => input(source, builder),
        Declaration::Name => named(alloc, source, builder),
        Declaration::Output => output(alloc, source, builder),
    }
}

/// Reads a statement, and says whether an output was seen by then.
#[tactic(auto, using(crate::proofs::WantLemmas::declaration_stuck, crate::proofs::WantLemmas::declaration_cause))]
pub(crate) fn statement(
    alloc: Global,
    source: &mut Source<'_>,
    builder: &mut Builder,
    has_output: bool,
) -> Result<bool, ReadError>
    requires made { IsOpen [] [] builder.old }
    requires more { is_end source.old.lexeme ≡ false }
    requires room { HasRoom 0 source.old builder.old }
    ensures read { IfOk result (λ later. ReadsStatements has_output source.old builder.old later source.new builder.new) }
    ensures spent { OnOk result (Spends 0 source.old builder.old 0 source.new builder.new) }
    ensures fewer { OnOk result (length source.new.behind < length source.old.behind) }
    ensures refused { IfErr result (λ error. IsRefusedWith (Want.Items has_output ∷ []) (all source.old) error) }
{
    let Some(what) = source.lexeme().declares() else {
        return Err(source.refusal(5));
    };
    source.advance();
    rest(alloc, source, builder, what)?;
    Ok(what.sees_output(has_output))
}

/// Reads all statements, up to the end.
#[tactic(auto, using(crate::proofs::StatementLemmas::statements_none, crate::proofs::StatementLemmas::output_stuck, crate::proofs::StatementLemmas::output_cause))]
pub(crate) fn statements(
    alloc: Global,
    source: &mut Source<'_>,
    builder: &mut Builder,
) -> Result<(), ReadError>
    requires open { IsOpen [] [] builder.old }
    requires room { HasRoom 0 source.old builder.old }
    ensures read { OnOk result (ReadsStatements false source.old builder.old true source.new builder.new) }
    ensures ended { OnOk result ((is_end source.new.lexeme ≡ true) × (source.new.behind ≡ [])) }
    ensures refused { IfErr result (λ error. IsRefusedWith (Want.Items false ∷ []) (all source.old) error) }
{
    let mut has_output = false;
    'statements: while !source.is_at_end() {
        has_output = statement(alloc, source, builder, has_output)?;
    }
    if !has_output {
        return Err(source.refusal(6));
    }
    Ok(())
}
