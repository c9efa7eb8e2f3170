// Where a run on arrays starts.
ghost use Rattle.std.specs.Prelude.{◌≡◌, ◌≤◌, ◌*◌, ◌^◌, ◌++◌, IfOk, OnOk, length, slice_index, sum_by};
ghost use Rattle.std.specs.Int.{to_le_bytes, w64};
ghost use Rattle.std.specs.List.{flat_map};
ghost use Rattle.shapes_core.specs.Limits.{greatest_extent, most_items, most_words};
ghost use Rattle.rv_line.specs.Parts.{block_words};
ghost use Rattle.rv_steps.specs.Effects.{word_of};
ghost use Rattle.array_run.specs.Starts.{bytes_of, input_in, inputs, start_block, start_registers, words_left, zeros};

use array_text::Arrays;
use rv_line::Assembly;
use rv_machine::Regs;
use shapes_core::{Area, AreaKind, Declared, NoMemory, total};
use std::alloc::Global;

/// The address of the block.
pub const BASE: u64 = 4294967296;

/// The address of the first line of a program.
const FIRST: u64 = 65536;

/// The arrays that a program with these areas takes, in their order.
pub fn inputs(alloc: Global, areas: &[Area]) -> Result<Vec<Declared>, NoMemory>
    ensures { IfOk result (λ declared. declared.items ≡ inputs areas.now) }
{
    let mut declared = Vec::new(alloc);
    for area in areas {
        push_input(&mut declared, area)?;
    }
    Ok(declared)
}

fn push_input(declared: &mut Vec<Declared>, area: &Area) -> Result<(), NoMemory>
    ensures { OnOk result
        (declared.new.items ≡ declared.old.items ++ input_in area.now.kind area.now.shape) }
{
    if let AreaKind::In(name) = area.kind {
        let shape = area.shape;
        declared.push(Declared { name, shape })?;
    }
    Ok(())
}

/// The block of a program on the values of its inputs, of which there are so many: spill words of
/// 0, these values, and 0 in every other area. It is written once.
pub fn start_block(
    alloc: Global,
    program: &Assembly,
    arrays: &Arrays,
    count: usize,
) -> Result<Vec<u8>, NoMemory>
    requires room { block_words program.now.header program.now.areas ≤ most_words }
    requires count { count ≡ length arrays.now }
    ensures { IfOk result (λ block.
        block.items ≡ start_block program.now.header.spill program.now.areas arrays.now) }
{
    let mut block = Vec::with_capacity(alloc, 8 * program.block_words() as usize)?;
    push_zeros(&mut block, program.header().spill)?;
    push_arrays(&mut block, arrays, count)?;
    push_zeros(&mut block, words_left(program.areas()))?;
    Ok(block)
}

/// Puts so many words of 0 behind a block.
fn push_zeros(block: &mut Vec<u8>, words: u64) -> Result<(), NoMemory>
    requires { words ≤ 2 ^ 55 }
    ensures { OnOk result (block.new.items ≡ block.old.items ++ zeros words) }
{
    let end = block.len() + 8 * words as usize;
    block.resize(end, 0)?;
    Ok(())
}

fn push_arrays(block: &mut Vec<u8>, arrays: &Arrays, count: usize) -> Result<(), NoMemory>
    requires { count ≡ length arrays.now }
    ensures { OnOk result (block.new.items ≡ block.old.items ++ flat_map bytes_of arrays.now) }
{
    for place in 0..count {
        push_values(block, arrays.values(place))?;
    }
    Ok(())
}

fn push_values(block: &mut Vec<u8>, values: &[i64]) -> Result<(), NoMemory>
    ensures { OnOk result (block.new.items ≡ block.old.items ++ bytes_of values.now) }
{
    for value in values {
        push_value(block, *value)?;
    }
    Ok(())
}

fn push_value(block: &mut Vec<u8>, value: i64) -> Result<(), NoMemory>
    ensures { OnOk result (block.new.items ≡ block.old.items ++ to_le_bytes w64 (word_of value)) }
{
    block.extend_from_slice(&value.cast_unsigned().to_le_bytes())?;
    Ok(())
}

/// The words of all areas that are no input.
fn words_left(areas: &[Area]) -> u64
    requires { length areas.now ≤ most_items }
    ensures value { result ≡ sum_by words_left areas.now }
    ensures small { result ≤ greatest_extent * length areas.now }
{
    let mut words = 0;
    for area in areas {
        words += words_left_in(area);
    }
    words
}

fn words_left_in(area: &Area) -> u64
    ensures value { result ≡ words_left area.now }
    ensures small { result ≤ greatest_extent }
{
    match area.kind {
        AreaKind::In(_) => 0,
        AreaKind::Out(_) => total(&area.shape),
        AreaKind::Scan(_) => total(&area.shape),
    }
}

/// The registers of a program of so many lines, before its first: `x1` holds the address of the
/// end, `x10` that of the block, and every other register 0.
pub fn start_registers(count: usize) -> Regs
    requires { count ≤ most_items }
    ensures registers { result.x ≡ start_registers count }
    ensures first { result.pc ≡ 65536 }
    ensures zero { slice_index result.x 0 ≡ 0 }
{
    let mut x = [0; 32];
    x[1] = FIRST + 4 * count as u64;
    x[10] = BASE;
    Regs { x, pc: FIRST }
}
