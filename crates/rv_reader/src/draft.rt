// The instructions of each form, by what is read of their operands.
ghost use Rattle.std.specs.Prelude.{◌≡◌, ℤ, nat_abs};
ghost use Rattle.std.specs.declared.result.Result.TheVariants.{Ok as Good};
ghost use Rattle.rv_line.specs.declared.line.Line.TheVariants as line;
ghost use Rattle.rv_reader.specs.BodyLines.{in_range, with_operand};
ghost use Rattle.rv_reader.specs.BodyLines.Draft.{Whole, ToBranch, ToJump};
ghost use Rattle.rv_reader.specs.Forms.{accepts, is_between, is_immediate, is_upper};
ghost use Rattle.rv_reader.specs.Operands.{label_of};
ghost use Rattle.rv_reader.specs.Views.{addressed_line, draft_result, upper_line};

use crate::error::{MALFORMED, OUT_OF_RANGE};
use crate::operands::is_label;
use rv_line::{Branch, Imm, Line, Load, Store, Three};

/// An instruction, whose target is still the name of a label.
#[derive(Clone, Copy)]
pub(crate) enum Draft<'a> {
    Whole(Line),
    ToBranch {
        code: Branch,
        left: u8,
        right: u8,
        label: &'a [u8],
    },
    ToJump {
        to: u8,
        label: &'a [u8],
    },
}

/// The forms with an address.
#[derive(Clone, Copy)]
pub(crate) enum Addressed {
    Load(Load),
    Store(Store),
    Jalr,
}

/// The forms with the upper bits of a word.
#[derive(Clone, Copy)]
pub(crate) enum Upper {
    Lui,
    Auipc,
}

fn is_between(low: i64, high: i64, number: i64) -> bool
    ensures { result ≡ is_between low high number }
{
    low <= number && number <= high
}

fn is_immediate(imm: i64) -> bool
    ensures { result ≡ is_immediate imm }
{
    is_between(-2048, 2047, imm)
}

/// Whether the mnemonic accepts the immediate.
fn accepts(code: Imm, imm: i64) -> bool
    ensures { result ≡ accepts code imm }
{
    match code {
        Imm::Addi => is_immediate(imm),
        Imm::Slti => is_immediate(imm),
        Imm::Sltiu => is_immediate(imm),
        Imm::Xori => is_immediate(imm),
        Imm::Ori => is_immediate(imm),
        Imm::Andi => is_immediate(imm),
        Imm::Slli => is_between(0, 63, imm),
        Imm::Srli => is_between(0, 63, imm),
        Imm::Srai => is_between(0, 63, imm),
        Imm::Addiw => is_immediate(imm),
        Imm::Slliw => is_between(0, 31, imm),
        Imm::Srliw => is_between(0, 31, imm),
        Imm::Sraiw => is_between(0, 31, imm),
    }
}

/// An instruction with three registers.
pub(crate) fn with_registers<'a>(
    code: Three,
    to: Option<u8>,
    left: Option<u8>,
    right: Option<u8>,
) -> Result<Draft<'a>, u8>
    ensures { draft_result result ≡ with_operand to (λ to. with_operand left (λ left. with_operand right (λ right.
        Good (Whole (line.Three code to left right))))) }
{
    let Some(to) = to else {
        return Err(MALFORMED);
    };
    let Some(left) = left else {
        return Err(MALFORMED);
    };
    let Some(right) = right else {
        return Err(MALFORMED);
    };
    Ok(Draft::Whole(Line::Three {
        code,
        to,
        left,
        right,
    }))
}

/// An instruction with an immediate.
#[tactic(auto, using(crate::proofs::RangeLemmas::accepted_small))]
pub(crate) fn with_immediate<'a>(
    code: Imm,
    to: Option<u8>,
    from: Option<u8>,
    imm: Option<i64>,
) -> Result<Draft<'a>, u8>
    ensures { draft_result result ≡ with_operand to (λ to. with_operand from (λ from. with_operand imm (λ imm.
        in_range (accepts code imm) (line.Imm code to from imm)))) }
{
    let Some(to) = to else {
        return Err(MALFORMED);
    };
    let Some(from) = from else {
        return Err(MALFORMED);
    };
    let Some(imm) = imm else {
        return Err(MALFORMED);
    };
    if !accepts(code, imm) {
        return Err(OUT_OF_RANGE);
    }
    Ok(Draft::Whole(Line::Imm {
        code,
        to,
        from,
        imm: imm as i32,
    }))
}

fn addressed_line(form: Addressed, register: u8, imm: i32, base: u8) -> Line
    ensures { result ≡ addressed_line form register imm base }
{
    match form {
        Addressed::Load(code) => Line::Load {
            code,
            to: register,
            imm,
            base,
        },
        Addressed::Store(code) => Line::Store {
            code,
            from: register,
            imm,
            base,
        },
        Addressed::Jalr => Line::Jalr {
            to: register,
            imm,
            base,
        },
    }
}

/// An instruction with an address.
#[tactic(auto, using(crate::proofs::RangeLemmas::immediate_small))]
pub(crate) fn with_address<'a>(
    form: Addressed,
    register: Option<u8>,
    address: Option<(i64, u8)>,
) -> Result<Draft<'a>, u8>
    ensures { draft_result result ≡ with_operand register (λ register. with_operand address (λ at.
        in_range (is_immediate at.0) (addressed_line form register at.0 at.1))) }
{
    let Some(register) = register else {
        return Err(MALFORMED);
    };
    let Some((imm, base)) = address else {
        return Err(MALFORMED);
    };
    if !is_immediate(imm) {
        return Err(OUT_OF_RANGE);
    }
    Ok(Draft::Whole(addressed_line(form, register, imm as i32, base)))
}

fn is_upper(imm: i64) -> bool
    ensures { result ≡ is_upper imm }
{
    is_between(0, 1048575, imm)
}

fn upper_line(form: Upper, to: u8, imm: u32) -> Line
    ensures { result ≡ upper_line form to imm }
{
    match form {
        Upper::Lui => Line::Lui { to, imm },
        Upper::Auipc => Line::Auipc { to, imm },
    }
}

/// An instruction with the upper bits of a word.
#[tactic(auto, using(crate::proofs::RangeLemmas::upper_small, crate::proofs::RangeLemmas::upper_abs))]
pub(crate) fn with_upper<'a>(form: Upper, to: Option<u8>, imm: Option<i64>) -> Result<Draft<'a>, u8>
    ensures { draft_result result ≡ with_operand to (λ to. with_operand imm (λ imm.
        in_range (is_upper imm) (upper_line form to (nat_abs imm)))) }
{
    let Some(to) = to else {
        return Err(MALFORMED);
    };
    let Some(imm) = imm else {
        return Err(MALFORMED);
    };
    if !is_upper(imm) {
        return Err(OUT_OF_RANGE);
    }
    Ok(Draft::Whole(upper_line(form, to, imm as u32)))
}

/// A branch.
pub(crate) fn with_label<'a>(
    code: Branch,
    left: Option<u8>,
    right: Option<u8>,
    label: &'a [u8],
) -> Result<Draft<'a>, u8>
    ensures { draft_result result ≡ with_operand left (λ left. with_operand right (λ right.
        with_operand (label_of label.now) (λ label. Good (ToBranch code left right label)))) }
{
    let Some(left) = left else {
        return Err(MALFORMED);
    };
    let Some(right) = right else {
        return Err(MALFORMED);
    };
    if !is_label(label) {
        return Err(MALFORMED);
    }
    Ok(Draft::ToBranch {
        code,
        left,
        right,
        label,
    })
}

/// A jump.
pub(crate) fn with_jump<'a>(to: Option<u8>, label: &'a [u8]) -> Result<Draft<'a>, u8>
    ensures { draft_result result ≡ with_operand to (λ to. with_operand (label_of label.now) (λ label. Good (ToJump to label))) }
{
    let Some(to) = to else {
        return Err(MALFORMED);
    };
    if !is_label(label) {
        return Err(MALFORMED);
    }
    Ok(Draft::ToJump { to, label })
}
