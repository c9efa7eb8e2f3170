// Words and numbers.
ghost use Rattle.std.specs.Prelude.{◌≡◌, ◌++◌, OnOk};
ghost use Rattle.std.specs.Fmt.{decimal, signed_decimal};
ghost use Rattle.moa_tree.specs.Vocabulary.{op_word, unary_word};
ghost use Rattle.form_text.specs.Spelling.{variable_text};

use itoa::Buffer;
use moa_tree::{Op, Unary};
use shapes_core::NoMemory;

pub(crate) fn push_text(out: &mut Vec<u8>, text: &[u8]) -> Result<(), NoMemory>
    ensures { OnOk result (out.new.items ≡ out.old.items ++ text.now) }
{
    out.extend_from_slice(text)?;
    Ok(())
}

pub(crate) fn push_number(out: &mut Vec<u8>, number: i64) -> Result<(), NoMemory>
    ensures { OnOk result (out.new.items ≡ out.old.items ++ signed_decimal number) }
{
    push_text(out, Buffer::new().format(number).as_bytes())
}

pub(crate) fn push_count(out: &mut Vec<u8>, count: u64) -> Result<(), NoMemory>
    ensures { OnOk result (out.new.items ≡ out.old.items ++ decimal count) }
{
    push_text(out, Buffer::new().format(count).as_bytes())
}

pub(crate) fn push_variable(out: &mut Vec<u8>, var: u32) -> Result<(), NoMemory>
    ensures { OnOk result (out.new.items ≡ out.old.items ++ variable_text var) }
{
    push_text(out, b"v")?;
    push_count(out, u64::from(var))
}

pub(crate) fn unary_word(op: Unary) -> &'static [u8]
    ensures { result.now ≡ unary_word op }
{
    match op {
        Unary::Neg => b"neg",
        Unary::Not => b"not",
        Unary::Abs => b"abs",
    }
}

pub(crate) fn op_word(op: Op) -> &'static [u8]
    ensures { result.now ≡ op_word op }
{
    match op {
        Op::Add => b"add",
        Op::Sub => b"sub",
        Op::Mul => b"mul",
        Op::Quot => b"quot",
        Op::Rem => b"rem",
        Op::Min => b"min",
        Op::Max => b"max",
        Op::Eq => b"eq",
        Op::Ne => b"ne",
        Op::Lt => b"lt",
        Op::Le => b"le",
        Op::And => b"and",
        Op::Or => b"or",
        Op::Xor => b"xor",
    }
}
