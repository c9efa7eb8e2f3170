// What one line does to the registers and the block, and where the run goes on.
ghost use Rattle.std.specs.Prelude.{◌≡◌, ◌%◌, ◌+◌, ◌^◌, ◌<◌, ◌≤◌, List, MatchOption, if◌then◌else◌, length, slice_index, ℕ};
ghost use Rattle.shapes_core.specs.Limits.{most_items};
ghost use Rattle.rv_line.specs.Fits.{FitsLine, IsRegister};
ghost use Rattle.rv_steps.specs.Machine.{Goes, address, with_register};
ghost use Rattle.rv_machine.specs.Flows.{IsUnchanged, IsWithin, Steps, next_of};
ghost use Rattle.rv_machine.specs.declared.flow.Flow.{Flow};

use crate::arithmetic::{immediate_value, is_taken, three_value, upper_value, word_of};
use crate::flow::Flow;
use crate::memory::{load, store};
use crate::registers::{read, write};
use crate::text::{address_of, line_at};
use rv_line::Line;

/// Writes a register, and goes on at the next line.
#[inline]
fn set(x: &mut [u64; 32], to: u8, value: u64) -> Flow
    requires register { IsRegister to }
    requires zero { slice_index x.old 0 ≡ 0 }
    ensures next { result ≡ Flow.Next }
    ensures value { x.new ≡ with_register x.old to value }
    ensures zero { slice_index x.new 0 ≡ 0 }
{
    write(x, to, value);
    Flow::Next
}

/// A register plus an immediate, wrapped at 2^64.
#[inline]
fn sum(x: &[u64; 32], register: u8, imm: i32) -> u64
    requires register { IsRegister register }
    requires zero { slice_index x.now 0 ≡ 0 }
    ensures { result ≡ address x.now register imm }
{
    read(x, register).wrapping_add(word_of(imm))
}

/// Writes the value that a load at an address gives, if its access is allowed.
#[inline]
fn loaded(x: &mut [u64; 32], to: u8, value: Option<u64>, address: u64) -> Flow
    requires register { IsRegister to }
    requires zero { slice_index x.old 0 ≡ 0 }
    ensures next { MatchOption value ((result ≡ Flow.Access address) × (x.new ≡ x.old))
        (λ v. (result ≡ Flow.Next) × (x.new ≡ with_register x.old to v)) }
    ensures zero { slice_index x.new 0 ≡ 0 }
{
    match value {
        Some(value) => set(x, to, value),
        None => Flow::Access(address),
    }
}

/// On to the next line behind a store at an address, if its access is allowed.
#[inline]
fn stored(done: Option<()>, address: u64) -> Flow
    ensures { MatchOption done (result ≡ Flow.Access address) (λ v. result ≡ Flow.Next) }
{
    match done {
        Some(()) => Flow::Next,
        None => Flow::Access(address),
    }
}

/// On to a branch's target, or to the next line. It is a jump and no choice of a number, so that the processor
/// does not wait for the test.
#[inline]
fn branched(taken: bool, target: u32) -> Flow
    ensures { result ≡ (if taken then Flow.Jump target else Flow.Next) }
{
    if taken {
        Flow::Jump(target as usize)
    } else {
        Flow::Next
    }
}

/// On to an address, which may be that of no line.
#[inline]
fn jumped(address: u64, count: usize) -> Flow
    requires { count ≤ most_items }
    ensures within { IsWithin count result }
    ensures goes { (before after : List ℕ) → IsUnchanged result before after }
    ensures next { (at : ℕ) (registers block : List ℕ) → next_of at result registers block
        ≡ Goes (record { registers = registers; pc = address; block = block }) }
{
    match line_at(address, count) {
        Some(line) => Flow::Jump(line),
        None => Flow::Away(address),
    }
}

/// Does what a line says, where register 0 is 0 and the line has its number among the program's.
#[inline]
pub fn step(
    line: Line,
    at: usize,
    count: usize,
    base: u64,
    block: &mut [u8],
    x: &mut [u64; 32],
) -> Flow
    requires fits { FitsLine count at line }
    requires within { at < count }
    requires count { count ≤ most_items }
    requires aligned { base % 8 ≡ 0 }
    requires room { base + length block.old ≤ 2 ^ 64 }
    requires zero { slice_index x.old 0 ≡ 0 }
    ensures { Steps base count at line x.old block.old result x.new block.new }
{
    match line {
        Line::Three {
            code,
            to,
            left,
            right,
        } => {
            let value = three_value(code, read(x, left), read(x, right));
            set(x, to, value)
        }
        Line::Imm {
            code,
            to,
            from,
            imm,
        } => {
            let value = immediate_value(code, read(x, from), imm);
            set(x, to, value)
        }
        Line::Load {
            code,
            to,
            imm,
            base: pointer,
        } => {
            let address = sum(x, pointer, imm);
            loaded(x, to, load(code, base, block, address), address)
        }
        Line::Store {
            code,
            from,
            imm,
            base: pointer,
        } => {
            let address = sum(x, pointer, imm);
            stored(store(code, base, block, address, read(x, from)), address)
        }
        Line::Branch {
            code,
            left,
            right,
            target,
        } => { branched(is_taken(code, read(x, left), read(x, right)), target) }
        Line::Lui { to, imm } => set(x, to, upper_value(imm)),
        Line::Auipc { to, imm } => set(x, to, address_of(at).wrapping_add(upper_value(imm))),
        Line::Jal { to, target } => {
            write(x, to, address_of(at + 1));
            Flow::Jump(target as usize)
        }
        Line::Jalr {
            to,
            imm,
            base: pointer,
        } => {
            let address = sum(x, pointer, imm) / 2 * 2;
            write(x, to, address_of(at + 1));
            jumped(address, count)
        }
        Line::Fence => Flow::Next,
        Line::Ecall | Line::Ebreak => Flow::Trap,
    }
}
