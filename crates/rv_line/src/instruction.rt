// The text of an instruction.
ghost use Rattle.std.specs.Prelude.{◌≡◌, ◌++◌, OnOk};
ghost use Rattle.std.specs.Fmt.{decimal, signed_decimal};
ghost use Rattle.rv_line.specs.Emitted.{
  instruction_text,
  register_text,
  address_text,
  label_name,
  two_operands,
  three_operands,
};
ghost use Rattle.rv_line.specs.Operands.{operand_text};

use crate::line::Line;
use itoa::Buffer;
use shapes_core::NoMemory;

pub fn push_text(out: &mut Vec<u8>, text: &str) -> Result<(), NoMemory>
    ensures { OnOk result (out.new.items ≡ out.old.items ++ text.now) }
{
    out.extend_from_slice(text.as_bytes())?;
    Ok(())
}

pub fn push_number(out: &mut Vec<u8>, number: u64) -> Result<(), NoMemory>
    ensures { OnOk result (out.new.items ≡ out.old.items ++ decimal number) }
{
    let mut buffer = Buffer::new();
    push_text(out, buffer.format(number))
}

fn push_signed(out: &mut Vec<u8>, imm: i32) -> Result<(), NoMemory>
    ensures { OnOk result (out.new.items ≡ out.old.items ++ signed_decimal imm) }
{
    let mut buffer = Buffer::new();
    push_text(out, buffer.format(imm))
}

fn push_register(out: &mut Vec<u8>, register: u8) -> Result<(), NoMemory>
    ensures { OnOk result (out.new.items ≡ out.old.items ++ register_text register) }
{
    push_text(out, "x")?;
    push_number(out, register as u64)
}

fn push_address(out: &mut Vec<u8>, imm: i32, base: u8) -> Result<(), NoMemory>
    ensures { OnOk result (out.new.items ≡ out.old.items ++ address_text imm base) }
{
    push_signed(out, imm)?;
    push_text(out, "(")?;
    push_register(out, base)?;
    push_text(out, ")")
}

pub fn push_label_name(out: &mut Vec<u8>, number: u32) -> Result<(), NoMemory>
    ensures { OnOk result (out.new.items ≡ out.old.items ++ label_name number) }
{
    push_text(out, ".L")?;
    push_number(out, number as u64)
}

/// The operand that stands last in an instruction.
#[derive(Clone, Copy)]
enum Operand {
    Register(u8),
    Signed(i32),
    Unsigned(u32),
    Address(i32, u8),
    Label(u32),
}

fn push_operand(out: &mut Vec<u8>, operand: Operand) -> Result<(), NoMemory>
    ensures { OnOk result (out.new.items ≡ out.old.items ++ operand_text operand) }
{
    match operand {
        Operand::Register(register) => push_register(out, register),
        Operand::Signed(imm) => push_signed(out, imm),
        Operand::Unsigned(imm) => push_number(out, imm as u64),
        Operand::Address(imm, base) => push_address(out, imm, base),
        Operand::Label(target) => push_label_name(out, target),
    }
}

/// A mnemonic, a register and one more operand.
fn push_two(out: &mut Vec<u8>, mnemonic: &str, one: u8, two: Operand) -> Result<(), NoMemory>
    ensures { OnOk result (
        out.new.items ≡ out.old.items ++
        two_operands mnemonic.now (register_text one) (operand_text two)
        ) }
{
    push_text(out, mnemonic)?;
    push_text(out, " ")?;
    push_register(out, one)?;
    push_text(out, ", ")?;
    push_operand(out, two)
}

/// A mnemonic, two registers and one more operand.
fn push_three(
    out: &mut Vec<u8>,
    mnemonic: &str,
    one: u8,
    two: u8,
    three: Operand,
) -> Result<(), NoMemory>
    ensures { OnOk result (
        out.new.items ≡ out.old.items ++
        three_operands mnemonic.now (register_text one) (register_text two) (operand_text three)
        ) }
{
    push_two(out, mnemonic, one, Operand::Register(two))?;
    push_text(out, ", ")?;
    push_operand(out, three)
}

/// An instruction, without the blanks in front.
pub fn push_instruction(out: &mut Vec<u8>, line: &Line) -> Result<(), NoMemory>
    ensures { OnOk result (out.new.items ≡ out.old.items ++ instruction_text line.now) }
{
    match *line {
        Line::Three {
            code,
            to,
            left,
            right,
        } => push_three(out, code.mnemonic(), to, left, Operand::Register(right)),
        Line::Imm {
            code,
            to,
            from,
            imm,
        } => push_three(out, code.mnemonic(), to, from, Operand::Signed(imm)),
        Line::Load {
            code,
            to,
            imm,
            base,
        } => push_two(out, code.mnemonic(), to, Operand::Address(imm, base)),
        Line::Store {
            code,
            from,
            imm,
            base,
        } => push_two(out, code.mnemonic(), from, Operand::Address(imm, base)),
        Line::Branch {
            code,
            left,
            right,
            target,
        } => push_three(out, code.mnemonic(), left, right, Operand::Label(target)),
        Line::Lui { to, imm } => push_two(out, "lui", to, Operand::Unsigned(imm)),
        Line::Auipc { to, imm } => push_two(out, "auipc", to, Operand::Unsigned(imm)),
        Line::Jal { to, target } => push_two(out, "jal", to, Operand::Label(target)),
        Line::Jalr { to, imm, base } => push_two(out, "jalr", to, Operand::Address(imm, base)),
        Line::Fence => push_text(out, "fence"),
        Line::Ecall => push_text(out, "ecall"),
        Line::Ebreak => push_text(out, "ebreak"),
    }
}
