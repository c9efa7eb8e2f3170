// A run of a program.
ghost use Rattle.std.specs.Prelude.{if◌then◌else◌, ◌==◌, ◌≡◌, ◌+◌, ◌%◌, ◌^◌, ◌<◌, ◌≤◌, Some, length, slice_get, slice_index};
ghost use Rattle.shapes_core.specs.Limits.{most_items};
ghost use Rattle.rv_line.specs.Fits.{FitLines, FitsLine};
ghost use Rattle.rv_machine.specs.Views.{config_of, end_of};
ghost use Rattle.rv_steps.specs.Machine.{address_of};
ghost use Rattle.rv_steps.specs.Stops.{Stops, run};

use crate::chains::chains_go_on;
use crate::flow::Flow;
use crate::step::step;
use crate::text::{address_of, line_at};
use rv_line::{Assembly, Line};
use rv_steps::machine_laws;

/// The integer registers, and the address of the line that comes next.
#[derive(Clone, Copy)]
pub struct Regs {
    pub x: [u64; 32],
    pub pc: u64,
}

/// How a run ended: at the end, after so many steps; before the line whose load or store of the byte at an
/// address, and maybe more, is not allowed; before an address that is that of no line; before the line that is
/// `ecall` or `ebreak`; or with the budget spent.
#[derive(Clone, Copy, Debug, PartialEq, Eq)]
pub enum End {
    Done { steps: u64 },
    Access { line: u32, address: u64 },
    OffText { address: u64 },
    Trap { line: u32 },
    Budget,
}

/// How a run ended, and the pc of its last configuration.
#[derive(Clone, Copy)]
struct Last {
    end: End,
    pc: u64,
}

/// A line by its number.
#[inline]
fn fetch(lines: &[Line], at: usize) -> Line
    requires fits { FitLines (length lines.now) 0 lines.now }
    requires line { at < length lines.now }
    ensures there { slice_get lines.now at ≡ Some result }
    ensures fits { FitsLine (length lines.now) at result }
{
    lines[at]
}

/// How a run ends at an address that is that of no line, after so many steps.
fn off_text(address: u64, made: u64, budget: u64) -> End
    requires { made ≤ budget }
    ensures { result ≡ (if made == budget then End.Budget else End.OffText address) }
{
    if made == budget {
        End::Budget
    } else {
        End::OffText { address }
    }
}

/// How a run ends with its budget spent, at a line or at the end.
fn spent(at: usize, count: usize, budget: u64) -> End
    ensures { result ≡ (if at == count then End.Done budget else End.Budget) }
{
    if at == count {
        End::Done { steps: budget }
    } else {
        End::Budget
    }
}

/// Runs lines from one of them, or from the end.
fn walk(
    lines: &[Line],
    base: u64,
    block: &mut [u8],
    x: &mut [u64; 32],
    start: usize,
    budget: u64,
) -> Last
    requires fits { FitLines (length lines.now) 0 lines.now }
    requires count { length lines.now ≤ most_items }
    requires start { start ≤ length lines.now }
    requires aligned { base % 8 ≡ 0 }
    requires room { base + length block.old ≤ 2 ^ 64 }
    requires zero { slice_index x.old 0 ≡ 0 }
    ensures stops { Stops lines.now base budget
        (record { registers = x.old; pc = address_of start; block = block.old })
        (end_of result.end)
        (record { registers = x.new; pc = result.pc; block = block.new }) }
    ensures zero { slice_index x.new 0 ≡ 0 }
{
    chains_go_on();
    let count = lines.len();
    let mut at = start;
    for made in 0..budget {
        if at == count {
            let end = End::Done { steps: made };
            return ended_at(end, at);
        }
        match step(fetch(lines, at), at, count, base, block, x) {
            Flow::Next => at += 1,
            Flow::Jump(line) => at = line,
            Flow::Away(pc) => {
                let end = off_text(pc, made + 1, budget);
                return Last { end, pc };
            }
            Flow::Access(address) => {
                let line = at as u32;
                let end = End::Access { line, address };
                return ended_at(end, at);
            }
            Flow::Trap => {
                let end = End::Trap { line: at as u32 };
                return ended_at(end, at);
            }
        }
    }
    ended_at(spent(at, count, budget), at)
}

/// An end at a line, or at the end of the text.
fn ended_at(end: End, at: usize) -> Last
    requires { at ≤ most_items }
    ensures end { result.end ≡ end }
    ensures pc { result.pc ≡ address_of at }
{
    let pc = address_of(at);
    Last { end, pc }
}

/// Runs a program on registers, of which x0 is 0, and a block of memory at an address that is a multiple of 8.
/// Makes at most `budget` steps, and takes no memory. The registers and the block are then those of the last
/// configuration.
pub fn run(program: &Assembly, base: u64, block: &mut [u8], regs: &mut Regs, budget: u64) -> End
    requires aligned { base % 8 ≡ 0 }
    requires room { base + length block.old ≤ 2 ^ 64 }
    requires zero { slice_index regs.old.x 0 ≡ 0 }
    ensures outcome { run program.now.lines base budget (config_of regs.old block.old)
        ≡ record { end = end_of result; last = config_of regs.new block.new } }
    ensures stops { Stops program.now.lines base budget (config_of regs.old block.old)
        (end_of result) (config_of regs.new block.new) }
    ensures zero { slice_index regs.new.x 0 ≡ 0 }
{
    machine_laws::runs_stop();
    chains_go_on();
    let lines = program.lines();
    match line_at(regs.pc, lines.len()) {
        Some(start) => {
            let last = walk(lines, base, block, &mut regs.x, start, budget);
            regs.pc = last.pc;
            last.end
        }
        None => off_text(regs.pc, 0, budget),
    }
}
