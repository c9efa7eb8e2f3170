// Lines that compute the operators: from registers to a register.
ghost use Rattle.std.specs.Prelude.{◌≡◌, ◌<◌, ◌+◌, ◌^◌, ◌++◌, ◌∷◌, [], OnOk, length};
ghost use Rattle.rv_emit.specs.Computing.{choice_of, copy_lines, greater_lines, one_lines};
ghost use Rattle.rv_emit.specs.Computing.{smaller_lines, two_lines};
ghost use Rattle.rv_line.specs.declared.line.Branch.{Branch};
ghost use Rattle.rv_line.specs.declared.line.Line.{Line};

use crate::moving::{FAR, RESULT, push_imm, push_three};
use moa_tree::{Op, Unary};
use rv_line::{Branch, Imm, Line, Three};
use shapes_core::NoMemory;

/// The register that holds 0.
pub(crate) const ZERO: u8 = 0;

/// The number of a line so far behind those that are there.
pub(crate) fn line_ahead(lines: &[Line], more: u32) -> u32
    requires { length lines.now + more < 2 ^ 32 }
    ensures { result ≡ length lines.now + more }
{
    lines.len() as u32 + more
}

pub(crate) fn push_branch(
    lines: &mut Vec<Line>,
    code: Branch,
    left: u8,
    right: u8,
    target: u32,
) -> Result<(), NoMemory>
    ensures { OnOk result (lines.new.items ≡ lines.old.items
        ++ Line.Branch code left right target ∷ []) }
{
    lines.push(Line::Branch {
        code,
        left,
        right,
        target,
    })?;
    Ok(())
}

/// The lines of a unary operator.
pub(crate) fn push_one(lines: &mut Vec<Line>, op: Unary, to: u8, from: u8) -> Result<(), NoMemory>
    ensures { OnOk result (lines.new.items ≡ lines.old.items ++ one_lines op to from) }
{
    match op {
        Unary::Neg => push_three(lines, Three::Sub, to, ZERO, from),
        Unary::Not => push_imm(lines, Imm::Xori, to, from, -1),
        Unary::Abs => {
            push_imm(lines, Imm::Srai, FAR, from, 63)?;
            push_three(lines, Three::Xor, RESULT, from, FAR)?;
            push_three(lines, Three::Sub, to, RESULT, FAR)
        }
    }
}

fn push_copy(lines: &mut Vec<Line>, to: u8, from: u8) -> Result<(), NoMemory>
    ensures { OnOk result (lines.new.items ≡ lines.old.items ++ copy_lines to from) }
{
    if to == from {
        return Ok(());
    }
    push_imm(lines, Imm::Addi, to, from, 0)
}

/// A register is kept where it is at least another one, and takes that one's number else.
fn push_greater(lines: &mut Vec<Line>, to: u8, other: u8) -> Result<(), NoMemory>
    requires { length lines.old.items + 2 < 2 ^ 32 }
    ensures { OnOk result (lines.new.items ≡ lines.old.items
        ++ greater_lines (length lines.old.items) to other) }
{
    let target = line_ahead(lines, 2);
    push_branch(lines, Branch::Bge, to, other, target)?;
    push_imm(lines, Imm::Addi, to, other, 0)
}

/// It is kept where the other one is at least it.
fn push_smaller(lines: &mut Vec<Line>, to: u8, other: u8) -> Result<(), NoMemory>
    requires { length lines.old.items + 2 < 2 ^ 32 }
    ensures { OnOk result (lines.new.items ≡ lines.old.items
        ++ smaller_lines (length lines.old.items) to other) }
{
    let target = line_ahead(lines, 2);
    push_branch(lines, Branch::Bge, other, to, target)?;
    push_imm(lines, Imm::Addi, to, other, 0)
}

/// The smaller one of two.
fn push_min(lines: &mut Vec<Line>, to: u8, left: u8, right: u8) -> Result<(), NoMemory>
    requires { length lines.old.items
        + length (choice_of smaller_lines (length lines.old.items) to left right) < 2 ^ 32 }
    ensures { OnOk result (lines.new.items ≡ lines.old.items
        ++ choice_of smaller_lines (length lines.old.items) to left right) }
{
    if to == right {
        return push_smaller(lines, to, left);
    }
    push_copy(lines, to, left)?;
    push_smaller(lines, to, right)
}

/// The greater one of two.
fn push_max(lines: &mut Vec<Line>, to: u8, left: u8, right: u8) -> Result<(), NoMemory>
    requires { length lines.old.items
        + length (choice_of greater_lines (length lines.old.items) to left right) < 2 ^ 32 }
    ensures { OnOk result (lines.new.items ≡ lines.old.items
        ++ choice_of greater_lines (length lines.old.items) to left right) }
{
    if to == right {
        return push_greater(lines, to, left);
    }
    push_copy(lines, to, left)?;
    push_greater(lines, to, right)
}

/// The lines of a binary operator, whose result may take the register of an operand.
pub(crate) fn push_two(
    lines: &mut Vec<Line>,
    op: Op,
    to: u8,
    left: u8,
    right: u8,
) -> Result<(), NoMemory>
    requires { length lines.old.items
        + length (two_lines (length lines.old.items) op to left right) < 2 ^ 32 }
    ensures { OnOk result (lines.new.items ≡ lines.old.items
        ++ two_lines (length lines.old.items) op to left right) }
{
    match op {
        Op::Add => push_three(lines, Three::Add, to, left, right),
        Op::Sub => push_three(lines, Three::Sub, to, left, right),
        Op::Mul => push_three(lines, Three::Mul, to, left, right),
        Op::Quot => push_three(lines, Three::Div, to, left, right),
        Op::Rem => push_three(lines, Three::Rem, to, left, right),
        Op::Min => push_min(lines, to, left, right),
        Op::Max => push_max(lines, to, left, right),
        Op::Eq => {
            push_three(lines, Three::Sub, RESULT, left, right)?;
            push_imm(lines, Imm::Sltiu, to, RESULT, 1)
        }
        Op::Ne => {
            push_three(lines, Three::Sub, RESULT, left, right)?;
            push_three(lines, Three::Sltu, to, ZERO, RESULT)
        }
        Op::Lt => push_three(lines, Three::Slt, to, left, right),
        Op::Le => {
            push_three(lines, Three::Slt, RESULT, right, left)?;
            push_imm(lines, Imm::Sltiu, to, RESULT, 1)
        }
        Op::And => push_three(lines, Three::And, to, left, right),
        Op::Or => push_three(lines, Three::Or, to, left, right),
        Op::Xor => push_three(lines, Three::Xor, to, left, right),
    }
}
