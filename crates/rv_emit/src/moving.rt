// Lines between homes and registers.
ghost use Rattle.std.specs.Prelude.{◌≡◌, ◌<◌, ◌++◌, ◌∷◌, [], OnOk};
ghost use Rattle.rv_emit.specs.Moving.{advance_lines, fetch_lines, is_near, put_lines};
ghost use Rattle.rv_emit.specs.Moving.{reach_lines, reach_offset, reach_register, register_of};
ghost use Rattle.rv_emit.specs.Moving.{repay_lines, settle_lines};
ghost use Rattle.rv_emit.specs.Walks.{bytes};
ghost use Rattle.rv_line.specs.declared.line.Imm.{Imm};
ghost use Rattle.rv_line.specs.declared.line.Line.{Line};
ghost use Rattle.rv_line.specs.declared.line.Load.{Load};
ghost use Rattle.rv_line.specs.declared.line.Store.{Store};
ghost use Rattle.rv_line.specs.declared.line.Three.{Three};
ghost use Rattle.rv_steps.specs.Constants.{constant_lines};

use crate::constants::{constant, is_short};
use crate::owed::Debt;
use register_map::Home;
use rv_line::{Imm, Line, Load, Store, Three};
use shapes_core::NoMemory;

/// The register that holds the address of the block.
pub(crate) const BLOCK: u8 = 10;

/// The registers that are free within a step: two take what is read.
pub(crate) const FIRST: u8 = 28;

pub(crate) const SECOND: u8 = 29;

/// This one takes what is to be put, and addresses.
pub(crate) const RESULT: u8 = 30;

/// This one takes the addresses of far spill words, and constants.
pub(crate) const FAR: u8 = 31;

/// The spill words whose offset from the block is an immediate.
const NEAR: u32 = 256;

pub(crate) fn push_three(
    lines: &mut Vec<Line>,
    code: Three,
    to: u8,
    left: u8,
    right: u8,
) -> Result<(), NoMemory>
    ensures { OnOk result (lines.new.items ≡ lines.old.items
        ++ Line.Three code to left right ∷ []) }
{
    lines.push(Line::Three {
        code,
        to,
        left,
        right,
    })?;
    Ok(())
}

pub(crate) fn push_imm(
    lines: &mut Vec<Line>,
    code: Imm,
    to: u8,
    from: u8,
    imm: i32,
) -> Result<(), NoMemory>
    ensures { OnOk result (lines.new.items ≡ lines.old.items ++ Line.Imm code to from imm ∷ []) }
{
    lines.push(Line::Imm {
        code,
        to,
        from,
        imm,
    })?;
    Ok(())
}

/// Loads the word at an offset from an address.
pub(crate) fn push_load(lines: &mut Vec<Line>, to: u8, imm: i32, base: u8) -> Result<(), NoMemory>
    ensures { OnOk result (lines.new.items ≡ lines.old.items
        ++ Line.Load Load.Ld to imm base ∷ []) }
{
    lines.push(Line::Load {
        code: Load::Ld,
        to,
        imm,
        base,
    })?;
    Ok(())
}

/// Stores the word at an offset from an address.
pub(crate) fn push_store(
    lines: &mut Vec<Line>,
    from: u8,
    imm: i32,
    base: u8,
) -> Result<(), NoMemory>
    ensures { OnOk result (lines.new.items ≡ lines.old.items
        ++ Line.Store Store.Sd from imm base ∷ []) }
{
    lines.push(Line::Store {
        code: Store::Sd,
        from,
        imm,
        base,
    })?;
    Ok(())
}

/// Sets a register to a number.
pub(crate) fn push_constant(lines: &mut Vec<Line>, to: u8, value: i64) -> Result<(), NoMemory>
    requires above { 0 < to }
    requires below { to < 32 }
    ensures { OnOk result (lines.new.items ≡ lines.old.items ++ constant_lines to value) }
{
    let few = constant(to, value);
    lines.extend_from_slice(few.lines())?;
    Ok(())
}

fn is_near(word: u32) -> bool
    ensures { result ≡ is_near word }
{
    word < NEAR
}

/// Brings a spill word into reach.
fn push_reach(lines: &mut Vec<Line>, word: u32) -> Result<(), NoMemory>
    ensures { OnOk result (lines.new.items ≡ lines.old.items ++ reach_lines word) }
{
    if is_near(word) {
        return Ok(());
    }
    push_constant(lines, FAR, 8 * word as i64)?;
    push_three(lines, Three::Add, FAR, FAR, BLOCK)
}

/// The register from which a spill word is reached then.
fn reach_register(word: u32) -> u8
    ensures { result ≡ reach_register word }
{
    if is_near(word) { BLOCK } else { FAR }
}

/// The offset there.
fn reach_offset(word: u32) -> i32
    ensures { result ≡ reach_offset word }
{
    if is_near(word) { 8 * word as i32 } else { 0 }
}

/// The register of a home: its own, or this one for a spill word.
pub(crate) fn register_of(scratch: u8, home: Home) -> u8
    ensures { result ≡ register_of scratch home }
{
    match home {
        Home::Register(number) => number,
        Home::Spill(_) => scratch,
    }
}

/// Lines after which that register holds what the home does.
pub(crate) fn push_fetch(lines: &mut Vec<Line>, scratch: u8, home: Home) -> Result<(), NoMemory>
    ensures { OnOk result (lines.new.items ≡ lines.old.items ++ fetch_lines scratch home) }
{
    match home {
        Home::Register(_) => Ok(()),
        Home::Spill(word) => {
            push_reach(lines, word)?;
            push_load(lines, scratch, reach_offset(word), reach_register(word))
        }
    }
}

/// Lines after which the home holds what its own register does, or x30 for a spill word.
pub(crate) fn push_put(lines: &mut Vec<Line>, home: Home) -> Result<(), NoMemory>
    ensures { OnOk result (lines.new.items ≡ lines.old.items ++ put_lines home) }
{
    match home {
        Home::Register(_) => Ok(()),
        Home::Spill(word) => {
            push_reach(lines, word)?;
            push_store(lines, RESULT, reach_offset(word), reach_register(word))
        }
    }
}

/// The bytes of so many words, which wrap at 64 bits.
pub(crate) fn bytes(words: i64) -> i64
    ensures { result ≡ bytes words }
{
    8i64.wrapping_mul(words)
}

/// The register adds so many bytes.
fn push_advance(lines: &mut Vec<Line>, register: u8, count: i64) -> Result<(), NoMemory>
    ensures { OnOk result (lines.new.items ≡ lines.old.items ++ advance_lines register count) }
{
    if is_short(count) {
        return push_imm(lines, Imm::Addi, register, register, count as i32);
    }
    push_constant(lines, FAR, count)?;
    push_three(lines, Three::Add, register, register, FAR)
}

/// The home adds the words that it owes.
pub(crate) fn push_repay(lines: &mut Vec<Line>, home: Home, words: i64) -> Result<(), NoMemory>
    ensures { OnOk result (lines.new.items ≡ lines.old.items ++ repay_lines home words) }
{
    if words == 0 {
        return Ok(());
    }
    push_bytes(lines, home, bytes(words))
}

/// The home adds so many bytes.
fn push_bytes(lines: &mut Vec<Line>, home: Home, count: i64) -> Result<(), NoMemory>
    ensures { OnOk result (lines.new.items ≡ lines.old.items ++ (fetch_lines 30 home
        ++ (advance_lines (register_of 30 home) count ++ put_lines home))) }
{
    push_fetch(lines, RESULT, home)?;
    push_advance(lines, register_of(RESULT, home), count)?;
    push_put(lines, home)
}

/// So does each.
pub(crate) fn push_settle(lines: &mut Vec<Line>, owed: &[Debt]) -> Result<(), NoMemory>
    ensures { OnOk result (lines.new.items ≡ lines.old.items ++ settle_lines owed.now) }
{
    for debt in owed {
        push_repay(lines, debt.0, debt.1)?;
    }
    Ok(())
}
