// The call that reads a whole text.
ghost use Rattle.std.specs.Prelude.{◌≡◌, ◌≤◌, ℕ, Err, IfErr, IfOk, MatchResult, None, Some, length};
ghost use Rattle.rv_reader.specs.Limits.{longest_assembly};
ghost use Rattle.rv_line.specs.Parts.{Parts};
ghost use Rattle.rv_line.specs.Spells.{Spells};
ghost use Rattle.rv_reader.specs.Errors.{IsRefusal};
ghost use Rattle.rv_reader.specs.Refusals.{parts_of, refusal};
ghost use Rattle.rv_reader.specs.declared.error.AsmError.TheVariants as asm;

use crate::body::read_body;
use crate::error::AsmError;
use crate::header::read_header;
use crate::laws::{other_texts_spell_their_parts, spelled_texts_are_not_refused};
use crate::rows::read_rows;
use crate::settle::settle;
use rv_line::spelling_laws::texts_spell_one;
use rv_line::{Assembly, Header, Line};
use shapes_core::Area;
use std::alloc::Global;

/// What is read of a whole text.
#[derive(Drop)]
struct Found {
    header: Header,
    areas: Vec<Area>,
    lines: Vec<Line>,
    places: Vec<u32>,
}

#[tactic(auto, using(crate::proofs::WholeLemmas::same_count))]
fn find_parts(alloc: Global, text: &[u8]) -> Result<Found, AsmError>
    requires { length text.now ≤ longest_assembly }
    ensures fine { IfOk result (λ found. refusal text.now ≡ None) }
    ensures parts { IfOk result (λ found. parts_of text.now ≡ record {
      header = found.header;
      areas = found.areas.items;
      lines = found.lines.items;
      places = found.places.items;
    }) }
    ensures areas { IfOk result (λ found. length found.areas.items ≤ length text.now) }
    ensures lines { IfOk result (λ found. length found.lines.items ≤ length text.now) }
    ensures places { IfOk result (λ found. length found.places.items ≡ length found.lines.items) }
    ensures refused { IfErr result (λ e. IsRefusal e (refusal text.now)) }
{
    let front = read_header(text)?;
    let rows = read_rows(alloc, front.header.spill, front.rest)?;
    let body = read_body(alloc, rows.rest, rows.place)?;
    let lines = settle(alloc, &body)?;
    Ok(Found {
        header: front.header,
        areas: rows.areas,
        lines,
        places: body.places,
    })
}

fn read_once(alloc: Global, text: &[u8]) -> Result<Assembly, AsmError>
    requires { length text.now ≤ longest_assembly }
    ensures read { IfOk result (λ assembly. Spells text.now assembly) }
    ensures refused { IfErr result (λ e. IsRefusal e (refusal text.now)) }
{
    other_texts_spell_their_parts();
    let found = find_parts(alloc, text)?;
    Ok(Assembly::at_lines(found.header, found.areas, found.lines, found.places))
}

/// Reads an assembly text of at most 32 MiB: the program that it spells, or the line, counted from 1, and the cause for
/// which it is refused, or that memory could not be had. Lines are tried in order for the causes 1 to 9 and 12, and where
/// none has one of these, the branches and jumps for the causes 10 and 11.
pub fn read_asm(alloc: Global, text: &[u8]) -> Result<Assembly, AsmError>
    requires { length text.now ≤ longest_assembly }
    ensures read { IfOk result (λ assembly. Spells text.now assembly) }
    ensures refused { (line cause : ℕ) → result ≡ Err (asm.Text line cause) → refusal text.now ≡ Some (line, cause) }
    ensures spelled { (parts : Parts) → Spells text.now parts
        → MatchResult result (λ assembly. assembly ≡ parts) (λ e. e ≡ asm.Memory) }
    ensures never_read { (line cause : ℕ) → refusal text.now ≡ Some (line, cause)
        → MatchResult result (λ assembly. ⊥) (λ e. IsRefusal e (Some (line, cause))) }
{
    spelled_texts_are_not_refused();
    texts_spell_one();
    read_once(alloc, text)
}
