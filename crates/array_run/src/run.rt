// A run on the arrays of a file.
ghost use Rattle.std.specs.Prelude.{◌≡◌, ◌<◌, ◌≤◌, ◌*◌, IfErr, IfOk, length};
ghost use Rattle.std.specs.List.{AllZip};
ghost use Rattle.array_text.specs.Limits.{longest_arrays};
ghost use Rattle.shapes_core.specs.Limits.{most_words};
ghost use Rattle.shapes_core.specs.Shape.{total};
ghost use Rattle.rv_line.specs.Parts.{block_words};
ghost use Rattle.rv_machine.specs.Views.{end_of};
ghost use Rattle.array_text.specs.Outcome.{Outcome, outcome_of};
ghost use Rattle.array_run.specs.Ends.{IsAtLine};
ghost use Rattle.array_run.specs.Ran.{Prints, Says, ended, ran, ran_from, run_from, text_line};
ghost use Rattle.array_run.specs.Starts.{inputs};

use crate::error::RunError;
use crate::outputs::print_outputs;
use crate::start::{BASE, inputs, start_block, start_registers};
use array_text::{Arrays, laws, read_arrays};
use rv_line::Assembly;
use rv_machine::{End, run};
use rv_steps::machine_laws;
use shapes_core::Declared;
use std::alloc::Global;

/// The printed output arrays, in the order of the areas, of a run of the program on the arrays of
/// a file of at most `LONGEST_ARRAYS` bytes, or why there are none. The block has at most `MOST_WORDS` words
/// and lies at the address 4294967296; the inputs hold the file's arrays and every other word is 0.
/// `x10` holds the block's address, `x1` that of the end, every other register 0, and the run may
/// make as many steps as the header says. This project's own.
pub fn run_on_arrays(alloc: Global, program: &Assembly, file: &[u8]) -> Result<Vec<u8>, RunError>
    requires room { block_words program.now.header program.now.areas ≤ most_words }
    requires short { length file.now ≤ longest_arrays }
    ensures prints { IfOk result (λ text. ran program.now file.now ≡ Prints text.items) }
    ensures says { IfErr result (λ error. Says error (ran program.now file.now)) }
{
    let mut block = read_block(alloc, program, file)?;
    run_on_block(alloc, program, &mut block)
}

/// The block of a program with the arrays of a file, before a run.
fn read_block(alloc: Global, program: &Assembly, file: &[u8]) -> Result<Vec<u8>, RunError>
    requires room { block_words program.now.header program.now.areas ≤ most_words }
    requires short { length file.now ≤ longest_arrays }
    ensures starts { IfOk result (λ block.
        ran program.now file.now ≡ ran_from program.now block.items) }
    ensures sized { IfOk result (λ block.
        length block.items ≡ 8 * block_words program.now.header program.now.areas) }
    ensures says { IfErr result (λ error. Says error (ran program.now file.now)) }
{
    let declared = inputs(alloc, program.areas())?;
    let arrays = read(alloc, program, file, &declared)?;
    Ok(start_block(alloc, program, &arrays, declared.len())?)
}

/// The arrays of a file for the inputs of a program.
fn read(
    alloc: Global,
    program: &Assembly,
    file: &[u8],
    declared: &[Declared],
) -> Result<Arrays, RunError>
    requires short { length file.now ≤ longest_arrays }
    requires inputs { declared.now ≡ inputs program.now.areas }
    ensures accepted { IfOk result (λ arrays.
        outcome_of (inputs program.now.areas) file.now ≡ Outcome.Accepted arrays) }
    ensures whole { IfOk result (λ arrays.
        AllZip (λ array values. length values ≡ total array.shape) (inputs program.now.areas)
        arrays) }
    ensures each { IfOk result (λ arrays. length arrays ≡ length declared.now) }
    ensures says { IfErr result (λ error. Says error (ran program.now file.now)) }
{
    laws::grammar();
    laws::accepted_arrays_are_whole();
    let _areas = program.areas();
    Ok(read_arrays(alloc, file, declared)?)
}

/// The printed output arrays of a run on a block, or why there are none.
fn run_on_block(alloc: Global, program: &Assembly, block: &mut [u8]) -> Result<Vec<u8>, RunError>
    requires sized { length block.old ≡ 8 * block_words program.now.header program.now.areas }
    ensures prints { IfOk result (λ text. ran_from program.now block.old ≡ Prints text.items) }
    ensures says { IfErr result (λ error. Says error (ran_from program.now block.old)) }
{
    let end = run_to_end(program, block);
    print_end(alloc, program, end, block)
}

/// Runs a program on its block, and says how the run ended.
fn run_to_end(program: &Assembly, block: &mut [u8]) -> End
    requires sized { length block.old ≡ 8 * block_words program.now.header program.now.areas }
    ensures end { (run_from program.now block.old).end ≡ end_of result }
    ensures block { (run_from program.now block.old).last.block ≡ block.new }
    ensures line { IsAtLine (length program.now.lines) result }
    ensures len { length block.new ≡ length block.old }
{
    machine_laws::steps_keep_configurations();
    let mut registers = start_registers(program.lines().len());
    run(program, BASE, block, &mut registers, program.header().steps)
}

/// What comes of a run that ended so, with this block: the printed output arrays, or why there are
/// none.
fn print_end(alloc: Global, program: &Assembly, end: End, block: &[u8]) -> Result<Vec<u8>, RunError>
    requires sized { length block.now ≡ 8 * block_words program.now.header program.now.areas }
    requires line { IsAtLine (length program.now.lines) end }
    ensures prints { IfOk result (λ text.
        ended program.now (end_of end) block.now ≡ Prints text.items) }
    ensures says { IfErr result (λ error. Says error (ended program.now (end_of end) block.now)) }
{
    match end {
        End::Done { .. } => {
            let spill = program.header().spill;
            Ok(print_outputs(alloc, spill, program.areas(), block)?)
        }
        End::Access { line, address } => {
            let line = text_line(program, line);
            Err(RunError::Access { line, address })
        }
        End::OffText { address } => Err(RunError::OffText { address }),
        End::Trap { line } => {
            let line = text_line(program, line);
            Err(RunError::Trap { line })
        }
        End::Budget => {
            let steps = program.header().steps;
            Err(RunError::Budget { steps })
        }
    }
}

/// The line of the text where a line of the program stands.
fn text_line(program: &Assembly, line: u32) -> u32
    requires { line < length program.now.lines }
    ensures { result ≡ text_line program.now.places line }
{
    program.text_line(line)
}
