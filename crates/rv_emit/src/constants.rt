// Lines that set a register to a number.
ghost use Rattle.rv_line.specs.Fits.{FitLines};
ghost use Rattle.rv_line.specs.declared.line.Imm.{Imm};
ghost use Rattle.rv_line.specs.declared.line.Line.{Line};
ghost use Rattle.rv_steps.specs.Accesses.{Leads};
ghost use Rattle.rv_steps.specs.Constants.{constant_lines, is_signed_below, lower_of};
ghost use Rattle.rv_steps.specs.Constants.{shift_lines, shifted_lines, short_lines, upper_of};
ghost use Rattle.rv_steps.specs.Effects.{word_of};
ghost use Rattle.rv_steps.specs.Good.{is_kept};
ghost use Rattle.rv_steps.specs.Kinds.{is_base, is_free, written};
ghost use Rattle.rv_steps.specs.Machine.{Config, address_of, with_register};
ghost use Rattle.rv_steps.specs.Pieces.{StandsAt};
ghost use Rattle.rv_steps.specs.Wrapped.{residue};
ghost use Rattle.std.specs.List.{list_all};
ghost use Rattle.std.specs.Prelude.{IsTrue, List, [], false, length, true, ℕ, ℤ};
ghost use Rattle.std.specs.Prelude.{◌*◌, ◌+◌, ◌++◌, ◌<◌, ◌==◌, ◌^◌, ◌∷◌, ◌≡◌, ◌≤◌};

use crate::few::Few;
use rv_line::{Imm, Line};
use rv_steps::constant_laws;

/// The bound of the signed numbers of twelve bits.
const SHORT: u32 = 2048;

/// The bound of the signed numbers of 32 bits.
const WORD: u32 = 2147483648;

/// The upper parts that are shifted up, at most: enough for a number of 64 bits.
const LEVELS: u32 = 3;

/// Whether the number is from `-bound` to `bound - 1`.
fn is_within(bound: u32, value: i64) -> bool
    ensures { result ≡ is_signed_below bound value }
{
    -(bound as i64) <= value && value < bound as i64
}

/// Whether the number is an immediate.
pub(crate) fn is_short(value: i64) -> bool
    ensures { result ≡ is_signed_below 2048 value }
{
    is_within(SHORT, value)
}

/// The number without its lowest twelve bits, rounded to the nearest.
fn upper_of(value: i64) -> i64
    ensures { result ≡ upper_of value }
{
    ((value as i128 + 2048) >> 12) as i64
}

/// What is left beside the upper part: a signed number of twelve bits.
fn lower_of(value: i64) -> i32
    ensures { result ≡ lower_of value }
{
    (value as i128 - 4096 * upper_of(value) as i128) as i32
}

/// The twenty bits of `lui`.
fn bits_of(upper: i64) -> u32
    ensures { result ≡ residue 1048576 upper }
{
    upper.rem_euclid(1048576) as u32
}

fn line(code: Imm, to: u8, from: u8, imm: i32) -> Line
    ensures { result ≡ Line.Imm code to from imm }
{
    Line::Imm {
        code,
        to,
        from,
        imm,
    }
}

/// The lines for a signed number of 32 bits: `addi` where twelve bits are enough, and else `lui`
/// and `addiw`.
fn short(to: u8, value: i64) -> Few
    ensures lines { result ≡ short_lines to value }
    ensures few { length result ≤ 2 }
{
    let mut lines = Few::none();
    if is_short(value) {
        lines.push(line(Imm::Addi, to, 0, value as i32));
        return lines;
    }
    lines.push(Line::Lui {
        to,
        imm: bits_of(upper_of(value)),
    });
    lines.push(line(Imm::Addiw, to, to, lower_of(value)));
    lines
}

/// Shifts an upper part up by twelve bits, and adds what is left of the number.
fn push_shift(lines: &mut Few, to: u8, value: i64)
    requires room { length lines.now ≤ 6 }
    ensures { lines.new ≡ lines.old ++ shift_lines to value }
{
    lines.push(line(Imm::Slli, to, to, 12));
    lines.push(line(Imm::Addi, to, to, lower_of(value)));
}

/// The lines with at most so many shifts.
fn shifted(levels: u32, to: u8, value: i64) -> Few
    requires levels { levels ≤ 3 }
    ensures lines { result ≡ shifted_lines levels to value }
    ensures few { length result ≤ 2 * levels + 2 }
{
    if levels == 0 {
        return short(to, value);
    }
    if is_within(WORD, value) {
        return short(to, value);
    }
    let mut lines = shifted(levels - 1, to, upper_of(value));
    push_shift(&mut lines, to, value);
    lines
}

/// Lines after which the register holds the number: one `addi` for a signed number of twelve bits,
/// `lui` and `addiw` for one of 32, and else the lines of its upper part, `slli` and `addi`. Each
/// upper part is rounded, so that what is left of the number is a signed immediate. This split into
/// rounded parts of twelve bits is the usual one for RISC-V (`li`).
pub fn constant(to: u8, value: i64) -> Few
    requires above { 0 < to }
    requires below { to < 32 }
    ensures lines { result ≡ constant_lines to value }
    ensures few { length result ≤ 8 }
    ensures one { is_signed_below 2048 value ≡ true → length result ≡ 1 }
    ensures two { is_signed_below (2 ^ 31) value ≡ true → length result ≤ 2 }
    ensures sets { (lines : List Line) (base k : ℕ) (c : Config) → StandsAt lines k result
        → to < length c.registers → c.pc ≡ address_of k
        → Leads lines base (length result) c (record {
          registers = with_register c.registers to (word_of value);
          pc = address_of (k + length result);
          block = c.block;
        }) [] }
    ensures fit { (count at : ℕ) → FitLines count at result }
    ensures base { IsTrue (list_all is_base result) }
    ensures written { IsTrue (list_all (λ line. written line == to) result) }
    ensures free { is_kept to ≡ false → IsTrue (list_all is_free result) }
{
    constant_laws::constants_are_set();
    constant_laws::constants_have_lines();
    constant_laws::constants_are_short();
    constant_laws::constants_fit();
    shifted(LEVELS, to, value)
}
