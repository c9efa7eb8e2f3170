// Runs of an assembly text on a block and registers that are filled from a seed.
ghost use Rattle.std.specs.Prelude.{◌≡◌, ◌≤◌, length, slice_index};

use crate::block::{BASE, Block};
use crate::bytes::push_number;
use array_text::{LONGEST_ARRAYS, print_array, read_arrays};
use rv_line::Assembly;
use rv_machine::{End, Regs, run};
use rv_reader::{LONGEST_ASSEMBLY, read_asm};
use shapes_core::{Area, AreaKind, Declared, Name, NoMemory, total};
use std::alloc::Global;

/// The address of the first instruction.
const FIRST: u64 = 65536;

/// The greatest number of words of a block that is made.
const MOST_WORDS: u64 = 4194304;

/// The registers that a callee gives back as it found them, and the two that its caller sets.
const SAVED: [u8; 17] = [1, 2, 3, 4, 8, 9, 10, 18, 19, 20, 21, 22, 23, 24, 25, 26, 27];

/// The next number behind this one.
pub fn next_number(number: u64) -> u64 {
    let mixed = number ^ (number >> 29);
    mixed
        .wrapping_mul(6364136223846793005)
        .wrapping_add(1442695040888963407)
}

/// Registers that are filled from a seed, but for those that the caller sets.
fn start(lines: usize, seed: u64) -> Regs
    ensures { slice_index result.x 0 ≡ 0 }
{
    let mut x = [0; 32];
    let mut number = seed;
    for register in 0..32_usize {
        number = next_number(number);
        x[register] = number;
    }
    x[1] = (lines as u64).wrapping_mul(4).wrapping_add(FIRST);
    x[10] = BASE;
    x[0] = 0;
    Regs { x, pc: FIRST }
}

/// The part of an array file that has the array of this name.
fn part_of(alloc: Global, file: &str, name: &Name) -> Result<Vec<u8>, NoMemory> {
    let mut part = Vec::new(alloc);
    let mut is_behind = false;
    for rest in file.split("array ") {
        let first = rest.split_whitespace().next().unwrap_or("");
        if is_behind && first.as_bytes() == name.bytes() {
            part.extend_from_slice(b"array ")?;
            part.extend_from_slice(rest.as_bytes())?;
        }
        is_behind = true;
    }
    Ok(part)
}

/// Puts the values that an array file has for an input into the block, and says whether it has them.
fn put_input(
    alloc: Global,
    block: &mut Block,
    area: &Area,
    name: Name,
    file: &str,
) -> Result<bool, NoMemory> {
    let part = part_of(alloc, file, &name)?;
    let shape = area.shape;
    if part.len() as u64 > LONGEST_ARRAYS {
        return Ok(false);
    }
    match read_arrays(alloc, &part, &[Declared { name, shape }]) {
        Err(_) => Ok(false),
        Ok(arrays) => {
            block.put(area.start, arrays.values(0));
            Ok(true)
        }
    }
}

/// Puts all inputs into the block, and says whether the array file has them.
fn put_inputs(
    alloc: Global,
    block: &mut Block,
    areas: &[Area],
    file: &str,
) -> Result<bool, NoMemory> {
    for area in areas {
        if let AreaKind::In(name) = area.kind {
            if !put_input(alloc, block, area, name, file)? {
                return Ok(false);
            }
        }
    }
    Ok(true)
}

/// Whether the inputs are the same in both blocks.
fn are_kept(block: &Block, before: &Block, areas: &[Area]) -> bool {
    for area in areas {
        if let AreaKind::In(_) = area.kind {
            for place in 0..total(&area.shape) {
                let word = area.start.saturating_add(place);
                if block.value(word) != before.value(word) {
                    return false;
                }
            }
        }
    }
    true
}

/// Whether the registers that a callee gives back are the same.
fn are_saved(x: &[u64; 32], before: &[u64; 32]) -> bool {
    for register in &SAVED {
        let number = *register as usize & 31;
        if x[number] != before[number] {
            return false;
        }
    }
    true
}

/// Appends an output as the program prints it.
fn push_output(
    alloc: Global,
    said: &mut Vec<u8>,
    block: &Block,
    area: &Area,
    name: Name,
) -> Result<(), NoMemory> {
    let shape = area.shape;
    let values = block.values(alloc, area.start, total(&shape))?;
    if values.len() as u64 == total(&shape) {
        let text = print_array(alloc, &Declared { name, shape }, &values)?;
        said.extend_from_slice(&text)?;
    }
    Ok(())
}

/// Appends all outputs.
fn push_outputs(
    alloc: Global,
    said: &mut Vec<u8>,
    block: &Block,
    areas: &[Area],
) -> Result<(), NoMemory> {
    for area in areas {
        if let AreaKind::Out(name) = area.kind {
            push_output(alloc, said, block, area, name)?;
        }
    }
    Ok(())
}

/// Appends how many steps were made, or that the run did not come to its end.
fn push_end(said: &mut Vec<u8>, end: End, printed: u64) -> Result<(), NoMemory> {
    match end {
        End::Done { steps } => {
            said.extend_from_slice(b"steps ")?;
            push_number(said, steps)?;
            said.push(b'\n')?;
            push_line(said, steps == printed, b"as many as printed\n")?;
        }
        _ => said.extend_from_slice(b"stopped\n")?,
    }
    Ok(())
}

fn push_line(said: &mut Vec<u8>, holds: bool, line: &[u8]) -> Result<(), NoMemory> {
    if holds {
        said.extend_from_slice(line)?;
    }
    Ok(())
}

/// Runs a program, and says what came of it.
fn run_program(
    alloc: Global,
    seed: u64,
    program: &Assembly,
    file: &str,
) -> Result<Vec<u8>, NoMemory> {
    let mut said = Vec::new(alloc);
    let words = program.block_words();
    let areas = program.areas();
    let spill = program.header().spill;
    if words > MOST_WORDS {
        said.extend_from_slice(b"the block is too large\n")?;
        return Ok(said);
    }
    let mut block = Block::filled(alloc, seed, spill, words)?;
    if !put_inputs(alloc, &mut block, areas, file)? {
        said.extend_from_slice(b"an input is missing\n")?;
        return Ok(said);
    }
    let before = block.copy(alloc)?;
    let mut regs = start(program.lines().len(), seed);
    let x = regs.x;
    let end = block.run(program, &mut regs);
    push_end(&mut said, end, program.header().steps)?;
    push_line(
        &mut said,
        are_kept(&block, &before, areas),
        b"inputs kept\n",
    )?;
    push_line(&mut said, are_saved(&regs.x, &x), b"registers kept\n")?;
    push_outputs(alloc, &mut said, &block, areas)?;
    Ok(said)
}

/// Runs an assembly text on the arrays of a file, with every other word and register filled from a seed, and says
/// how many steps were made, whether inputs and saved registers are as before, and the outputs.
pub fn run_on(alloc: Global, seed: u64, text: &[u8], file: &[u8]) -> Result<Vec<u8>, NoMemory> {
    let Ok(file) = str::from_utf8(file) else {
        return Ok(Vec::new(alloc));
    };
    if text.len() as u64 > LONGEST_ASSEMBLY {
        return Ok(Vec::new(alloc));
    }
    match read_asm(alloc, text) {
        Ok(program) => run_program(alloc, seed, &program, file),
        Err(_) => Ok(Vec::new(alloc)),
    }
}
