// The commands of the program.
ghost use Rattle.std.specs.Prelude.{◌≡◌, ◌≢◌, ℕ, ℤ, ◌+◌, ◌≤◌, ◌⊎◌, List, [], ◌∷◌, length, map, IfErr, IfOk, IsSomeAnd, string_bytes, Contains};
ghost use Rattle.moa_reader.specs.Limits.{longest_source};
ghost use Rattle.psi_edges.specs.Limits.{longest_name};
ghost use Rattle.moa_tree.specs.Expr.{Tree};
ghost use Rattle.shape_check.specs.Layout.{areas};
ghost use Rattle.array_text.specs.Outcome.{Accepted, outcome_of};
ghost use Rattle.array_run.specs.Ran.{printed_all};
ghost use Rattle.array_run.specs.Starts.{inputs, outputs};
ghost use Rattle.psi_compile.specs.Compiled.{IsCompiled};
ghost use Rattle.psi_compile.specs.Demands.{denoted};
ghost use Rattle.psi_edges.specs.Causes.{Rose};
ghost use Rattle.psi_edges.specs.Files.{OnFile, TellsFile};
ghost use Rattle.psi_edges.specs.Held.{Appends};
ghost use Rattle.psi_top.specs.Answer.{IsAnswer, IsPublished};
ghost use Rattle.psi_top.specs.Command.{IsCommand, IsMisuse, IsRun};
ghost use Rattle.psi_top.specs.Line.{cannot_read_line};
ghost use Rattle.psi_top.specs.Made.{IsDone};
ghost use Rattle.psi_top.specs.Outcome.{IsDue, IsOutcome, IsTextOf, IsUnreadable, Outcome, line_of, most_read, status_of};
ghost use Rattle.psi_top.specs.Put.{IsPut};
ghost use Rattle.psi_top.specs.Views.{shelf_view, sink_view};
ghost use Rattle.psi_top.specs.declared.command.Task.{Task as AnyTask};

use crate::command::{Command, Task, command_of};
use crate::execute::run_of;
use crate::fetch::fetch;
use crate::laws::{one_outcome, texts_run};
use crate::refusal::{Refusal, put_line, refuse};
use crate::status::Status;
use crate::texts::text_for;
use moa_reader::LONGEST_SOURCE;
use psi_compile::CompileError;
use psi_edges::{Shelf, Sink, WriteFault, write_whole};
use std::alloc::Global;

const CANNOT_WRITE: &str = "psic: cannot write\n";

/// The text that a task makes of the source of this name.
fn source_answer<'a, F: Shelf>(
    alloc: Global,
    task: Task,
    name: &'a str,
    shelf: &mut F,
) -> Result<Vec<u8>, Refusal<'a>>
    requires { length name.now ≤ longest_name }
    ensures due { (words : List (List ℕ)) → IsCommand words task name.now
        → IsAnswer words (shelf_view F.Shelf shelf.old) (shelf_view F.Shelf shelf.new) result }
    ensures unchanged { F.files shelf.new ≡ F.files shelf.old }
    ensures later { F.faults shelf.old ≤ F.faults shelf.new }
    ensures more_given { F.given shelf.old ≤ F.given shelf.new }
    ensures most_given { F.given shelf.new ≤ F.given shelf.old + (longest_source + 1) }
{
    let source = fetch(alloc, shelf, name, 1, LONGEST_SOURCE)?;
    match text_for(alloc, task, &source) {
        Ok(text) => Ok(text),
        Err(CompileError::Text { at, cause }) => Err(Refusal::Text { name, at, cause }),
        Err(CompileError::Rule { at, rule }) => Err(Refusal::Rule { name, at, rule }),
        Err(CompileError::Limit { at, which, value }) => Err(Refusal::Limit {
            name,
            at,
            which,
            value,
        }),
        Err(CompileError::NotBuilt { at }) => Err(Refusal::NotBuilt { name, at }),
        Err(CompileError::Memory) => Err(Refusal::Memory),
    }
}

/// What the words come to: a text to be put, or a refusal.
fn answer_to<'a, F: Shelf>(
    alloc: Global,
    words: &'a [String],
    shelf: &mut F,
) -> Result<Vec<u8>, Refusal<'a>>
    ensures due { IsAnswer (map string_bytes words.now)
        (shelf_view F.Shelf shelf.old) (shelf_view F.Shelf shelf.new) result }
    ensures unchanged { F.files shelf.new ≡ F.files shelf.old }
    ensures later { F.faults shelf.old ≤ F.faults shelf.new }
    ensures more_given { F.given shelf.old ≤ F.given shelf.new }
    ensures most_given { F.given shelf.new ≤ F.given shelf.old + most_read }
    ensures source_given { (task : AnyTask) (name : List ℕ) → IsCommand (map string_bytes words.now) task name
        → F.given shelf.new ≤ F.given shelf.old + (longest_source + 1) }
{
    match command_of(words) {
        None => Err(Refusal::Usage),
        Some(Command::OnSource { task, name }) => source_answer(alloc, task, name, shelf),
        Some(Command::Run { assembly, arrays }) => run_of(alloc, assembly, arrays, shelf),
    }
}

/// Puts the text, or says that it cannot be put. Answers the status.
fn put_text<K: Sink, E: Sink>(out: &mut K, err: &mut E, text: &[u8]) -> Status
    ensures put { (outcome : Outcome) → IsTextOf outcome text.now → status_of outcome ≡ 0 → line_of outcome ≡ []
        → IsPut outcome (sink_view K.Sink out.old) (sink_view K.Sink out.new)
        (sink_view E.Sink err.old) (sink_view E.Sink err.new) result }
    ensures out_later { K.faults out.old ≤ K.faults out.new }
    ensures err_later { E.faults err.old ≤ E.faults err.new }
{
    match write_whole(out, text) {
        Ok(()) => Status::DONE,
        Err(WriteFault) => put_line(err, Status::CANNOT_WRITE, CANNOT_WRITE),
    }
}

/// Puts what was answered, the text to `out` or the line of the refusal to `err`. Answers the status.
fn publish<K: Sink, E: Sink>(
    alloc: Global,
    out: &mut K,
    err: &mut E,
    answer: Result<Vec<u8>, Refusal<'_>>,
) -> Status
    ensures put { IsPublished answer.entry (sink_view K.Sink out.old) (sink_view K.Sink out.new)
        (sink_view E.Sink err.old) (sink_view E.Sink err.new) result }
    ensures out_later { K.faults out.old ≤ K.faults out.new }
    ensures err_later { E.faults err.old ≤ E.faults err.new }
{
    match answer {
        Ok(text) => put_text(out, err, &text),
        Err(refusal) => refuse(alloc, err, refusal),
    }
}

/// Runs the command that the words give, over a shelf of files, a sink for what is put out and a sink for
/// what is said of errors, and answers the status. The commands are `check FILE`, `show dnf FILE`,
/// `show onf FILE`, `show nest FILE`, `show source FILE`, `compile FILE` and `run ASM DATA`, with names of at
/// most `LONGEST_NAME` bytes.
///
/// | status | comes | line put to `err` |
/// |---|---|---|
/// | 0 | the whole text was put to `out` | none |
/// | 1 | the words are no command | `usage: psic check FILE \| show dnf\|onf\|nest\|source FILE \| compile FILE \| run ASM DATA` |
/// | 2 | a read of a file failed | `psic: cannot read FILE`, with the name of that file |
/// | 3 | a put failed | `psic: cannot write`, where that was of `out` |
/// | 4 | the source is no program | `FILE:LINE:COLUMN: text CAUSE: ` and the cause in words |
/// | 5 | a shape rule is the first to fail in the program | `FILE:LINE:COLUMN: rule RULE: ` and the rule in words |
/// | 6 | the source has more than `LONGEST_SOURCE` bytes | `FILE: limit 1: longer than MOST bytes` |
/// | 6 | a limit is the first to fail in the program | `FILE:LINE:COLUMN: limit LIMIT: VALUE exceeds GREATEST`, without a place where it is one of the whole program |
/// | 6 | the assembly text has more than `LONGEST_ASSEMBLY` bytes, or the array file more than `LONGEST_ARRAYS` | `ASM: limit 8: longer than MOST bytes`, `DATA: limit 9: longer than MOST bytes` |
/// | 6 | the block of the assembly text has more than `GREATEST_BLOCK` words | `ASM: limit 10: VALUE exceeds GREATEST` |
/// | 7 | the array file does not hold the inputs of the assembly text | `DATA:LINE: data CAUSE: ` and the cause in words |
/// | 8 | the file is no assembly text | `ASM:LINE: assembly CAUSE: ` and the cause in words |
/// | 9 | the run stopped before its end | `ASM:LINE: stopped: access ADDRESS`, `ASM: stopped: off text ADDRESS`, `ASM:LINE: stopped: trap` or `ASM: stopped: budget STEPS` |
/// | 10 | memory was wanted | `psic: no memory` |
/// | 11 | for `compile` and `show nest`: an expression is not built | `FILE:LINE:COLUMN: not built`, at the first such word |
///
/// A source is tried for 4, then, for `compile` and `show nest`, for 11, and then for 5 and 6.
/// Everything is composed before the first byte is put.
pub fn psi<F: Shelf, K: Sink, E: Sink>(
    alloc: Global,
    words: &[String],
    shelf: &mut F,
    out: &mut K,
    err: &mut E,
) -> Status
    // What is due is put, with its status, or a put of it failed.
    ensures answered { (outcome : Outcome)
        × IsDue (map string_bytes words.now) (shelf_view F.Shelf shelf.old) (shelf_view F.Shelf shelf.new) outcome
        × IsPut outcome (sink_view K.Sink out.old) (sink_view K.Sink out.new)
        (sink_view E.Sink err.old) (sink_view E.Sink err.new) result }
    // At 0 the text is what the task makes of the named file, or what the run prints.
    ensures made { result ≡ 0 → (text : List ℕ)
        × IsDone (map string_bytes words.now) (F.files shelf.old) text
        × Appends (K.held out.old) (K.held out.new) text
        × (E.held err.new ≡ E.held err.old) }
    // A run of what a source is compiled to prints what the source denotes, of the arrays that the file holds.
    ensures denotes { (assembly arrays text : List ℕ) (tree : Tree) → IsRun (map string_bytes words.now) assembly arrays
        → TellsFile (F.files shelf.old) assembly text → IsCompiled tree text
        → (result ≢ 8) × (result ≢ 9) × (result ≡ 0 → OnFile (F.files shelf.old) arrays (λ file. (lists : List (List ℤ))
        × (outcome_of (inputs (areas tree.statements)) file ≡ Accepted lists)
        × Appends (K.held out.old) (K.held out.new) (printed_all (outputs (areas tree.statements)) (denoted tree lists)))) }
    // Where no call of the outside fails and there is memory, the status is that of the outcome.
    ensures complete { (outcome : Outcome) (read : ℕ)
        → IsSomeAnd (F.files shelf.old) (λ files. IsOutcome (map string_bytes words.now) files files outcome read)
        → ¬ Rose (F.faults shelf.old) (F.faults shelf.new) ⊎ (status_of outcome ≡ 2)
        → ¬ Rose (K.faults out.old) (K.faults out.new) → ¬ Rose (E.faults err.old) (E.faults err.new)
        → (result ≡ status_of outcome) ⊎ (result ≡ 10) }
    // Words that are no command take no memory.
    ensures misuse { IsMisuse (map string_bytes words.now)
        → (result ≡ 1) ⊎ ((result ≡ 3) × Rose (E.faults err.old) (E.faults err.new)) }
    ensures quiet { result ≢ 0 → result ≢ 3 → K.held out.new ≡ K.held out.old }
    // 2 comes only where a read of a file of the words failed: the count rose in this call, and its last failed name is that file's.
    ensures unreadable { result ≡ 2 → (name : List ℕ)
        × IsUnreadable (map string_bytes words.now) (shelf_view F.Shelf shelf.old) (shelf_view F.Shelf shelf.new) name
        × Appends (E.held err.old) (E.held err.new) (cannot_read_line name) }
    // A failed put answers 3, and a failed read 2 or 3, or 10 where there is no memory for its line.
    ensures puts_counted { result ≢ 3
        → (K.faults out.new ≡ K.faults out.old) × (E.faults err.new ≡ E.faults err.old) }
    ensures reads_counted { result ≢ 2 → result ≢ 3 → result ≢ 10 → F.faults shelf.new ≡ F.faults shelf.old }
    ensures statuses { Contains (0 ∷ 1 ∷ 2 ∷ 3 ∷ 4 ∷ 5 ∷ 6 ∷ 7 ∷ 8 ∷ 9 ∷ 10 ∷ 11 ∷ []) result }
    // What it leaves: the same files, counts that never fall, and at most so many bytes given.
    ensures unchanged { F.files shelf.new ≡ F.files shelf.old }
    ensures later { (F.faults shelf.old ≤ F.faults shelf.new)
        × (K.faults out.old ≤ K.faults out.new) × (E.faults err.old ≤ E.faults err.new) }
    ensures given { (F.given shelf.old ≤ F.given shelf.new)
        × (F.given shelf.new ≤ F.given shelf.old + most_read) }
    ensures source_given { (task : AnyTask) (name : List ℕ) → IsCommand (map string_bytes words.now) task name
        → F.given shelf.new ≤ F.given shelf.old + (longest_source + 1) }
{
    one_outcome();
    texts_run();
    let answer = answer_to(alloc, words, shelf);
    publish(alloc, out, err, answer)
}
