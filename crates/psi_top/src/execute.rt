// The run of an assembly text on an array file.
ghost use Rattle.std.specs.Prelude.{◌≡◌, ◌≢◌, ℕ, ◌+◌, ◌≤◌, List, length, IfErr, IfOk, MatchResult};
ghost use Rattle.array_text.specs.Limits.{longest_arrays};
ghost use Rattle.psi_edges.specs.Limits.{longest_name};
ghost use Rattle.rv_reader.specs.Limits.{longest_assembly};
ghost use Rattle.rv_line.specs.Parts.{Parts};
ghost use Rattle.rv_reader.specs.Refusals.{parts_of};
ghost use Rattle.array_run.specs.Ran.{Prints, ran};
ghost use Rattle.psi_top.specs.Answer.{IsAnswer, outcome_of};
ghost use Rattle.psi_top.specs.Command.{IsRun};
ghost use Rattle.psi_top.specs.Line.{greatest_block};
ghost use Rattle.psi_top.specs.Outcome.{IsRunnable, Reached, most_read, over_text, ran_outcome, words_of_block};
ghost use Rattle.psi_top.specs.Views.{shelf_view};
ghost use Rattle.psi_top.specs.declared.refusal.Refusal.TheVariants.{Memory};

use crate::fetch::fetch;
use crate::refusal::Refusal;
use crate::run_failure::{GREATEST_BLOCK, RunFailure};
use array_run::{RunError, run_on_arrays};
use array_text::LONGEST_ARRAYS;
use psi_edges::Shelf;
use rv_line::Assembly;
use rv_reader::laws::{each_text_spells_or_is_refused, spelled_texts_are_not_refused};
use rv_reader::{AsmError, LONGEST_ASSEMBLY, read_asm};
use std::alloc::Global;

/// The program that an assembly text spells, where its block may have the words.
fn program_of<'a>(alloc: Global, name: &'a str, text: &[u8]) -> Result<Assembly, Refusal<'a>>
    requires { length text.now ≤ longest_assembly }
    ensures runnable { IfOk result (λ program. IsRunnable text.now) }
    ensures parts { IfOk result (λ program. program ≡ parts_of text.now) }
    ensures refused { IfErr result (λ refusal. refusal ≢ Memory → (rest : Parts → Reached)
        → over_text name.now rest text.now ≡ (outcome_of refusal, 0)) }
{
    spelled_texts_are_not_refused();
    each_text_spells_or_is_refused();
    match read_asm(alloc, text) {
        Ok(program) => {
            let words = program.block_words();
            if words > GREATEST_BLOCK {
                let failure = RunFailure::Block { words };
                return Err(Refusal::Run { name, failure });
            }
            Ok(program)
        }
        Err(AsmError::Text { line, cause }) => Err(Refusal::Run {
            name,
            failure: RunFailure::Assembly { line, cause },
        }),
        Err(AsmError::Memory) => Err(Refusal::Memory),
    }
}

/// What the run of a program on an array file prints.
fn printed<'a>(
    alloc: Global,
    assembly: &'a str,
    arrays: &'a str,
    program: &Assembly,
    file: &[u8],
) -> Result<Vec<u8>, Refusal<'a>>
    requires room { words_of_block program.now ≤ greatest_block }
    requires short { length file.now ≤ longest_arrays }
    ensures prints { IfOk result (λ text. ran program.now file.now ≡ Prints text.items) }
    ensures refused { IfErr result (λ refusal. refusal ≢ Memory
        → ran_outcome assembly.now arrays.now (ran program.now file.now) ≡ outcome_of refusal) }
{
    let (name, failure) = match run_on_arrays(alloc, program, file) {
        Ok(text) => return Ok(text),
        Err(RunError::Data { line, cause }) => (arrays, RunFailure::Data { line, cause }),
        Err(RunError::Access { line, address }) => (assembly, RunFailure::Access { line, address }),
        Err(RunError::OffText { address }) => (assembly, RunFailure::OffText { address }),
        Err(RunError::Trap { line }) => (assembly, RunFailure::Trap { line }),
        Err(RunError::Budget { steps }) => (assembly, RunFailure::Budget { steps }),
        Err(RunError::Memory) => return Err(Refusal::Memory),
    };
    Err(Refusal::Run { name, failure })
}

/// What the run of the assembly text of the one name on the arrays of the other prints.
pub(crate) fn run_of<'a, F: Shelf>(
    alloc: Global,
    assembly: &'a str,
    arrays: &'a str,
    shelf: &mut F,
) -> Result<Vec<u8>, Refusal<'a>>
    requires short_assembly { length assembly.now ≤ longest_name }
    requires short_arrays { length arrays.now ≤ longest_name }
    ensures due { (words : List (List ℕ)) → IsRun words assembly.now arrays.now
        → IsAnswer words (shelf_view F.Shelf shelf.old) (shelf_view F.Shelf shelf.new) result }
    ensures unchanged { F.files shelf.new ≡ F.files shelf.old }
    ensures later { F.faults shelf.old ≤ F.faults shelf.new }
    ensures more_given { F.given shelf.old ≤ F.given shelf.new }
    ensures most_given { F.given shelf.new ≤ F.given shelf.old + most_read }
{
    let text = fetch(alloc, shelf, assembly, 8, LONGEST_ASSEMBLY)?;
    let program = program_of(alloc, assembly, &text)?;
    let file = fetch(alloc, shelf, arrays, 9, LONGEST_ARRAYS)?;
    printed(alloc, assembly, arrays, &program, &file)
}
