// An instruction, by its mnemonic and its operands.
ghost use Rattle.std.specs.Prelude.{◌≡◌};
ghost use Rattle.rv_reader.specs.BodyLines.{address_draft, branch_draft, draft_of, imm_draft, instruction_of, jump_draft, lone_draft, three_draft, upper_draft};
ghost use Rattle.rv_reader.specs.Views.{addressed_line, draft_result, listed, upper_line};

use crate::cuts::{Mark, cut};
use crate::draft::{
    Addressed, Draft, Upper, with_address, with_immediate, with_jump, with_label, with_registers,
    with_upper,
};
use crate::error::{MALFORMED, UNKNOWN};
use crate::form::{Form, form_of};
use crate::operands::{address, immediate, register};
use crate::split::{Operands, split_operands};
use rv_line::{Branch, Imm, Line, Three};

fn three_draft<'a>(code: Three, operands: Operands<'a>) -> Result<Draft<'a>, u8>
    ensures { draft_result result ≡ three_draft code (listed operands.entry) }
{
    match operands {
        Operands::Zero => Err(MALFORMED),
        Operands::One(_) => Err(MALFORMED),
        Operands::Two(_, _) => Err(MALFORMED),
        Operands::Three(one, two, three) => {
            with_registers(code, register(one), register(two), register(three))
        }
        Operands::More => Err(MALFORMED),
    }
}

#[tactic(auto, using(crate::proofs::RangeLemmas::imm_by))]
fn imm_draft<'a>(code: Imm, operands: Operands<'a>) -> Result<Draft<'a>, u8>
    ensures { draft_result result ≡ imm_draft code (listed operands.entry) }
{
    match operands {
        Operands::Zero => Err(MALFORMED),
        Operands::One(_) => Err(MALFORMED),
        Operands::Two(_, _) => Err(MALFORMED),
        Operands::Three(one, two, three) => {
            with_immediate(code, register(one), register(two), immediate(three))
        }
        Operands::More => Err(MALFORMED),
    }
}

fn address_draft<'a>(form: Addressed, operands: Operands<'a>) -> Result<Draft<'a>, u8>
    ensures { draft_result result ≡ address_draft (addressed_line form) (listed operands.entry) }
{
    match operands {
        Operands::Zero => Err(MALFORMED),
        Operands::One(_) => Err(MALFORMED),
        Operands::Two(one, two) => with_address(form, register(one), address(two)),
        Operands::Three(_, _, _) => Err(MALFORMED),
        Operands::More => Err(MALFORMED),
    }
}

#[tactic(auto, using(crate::proofs::RangeLemmas::upper_by))]
fn upper_draft<'a>(form: Upper, operands: Operands<'a>) -> Result<Draft<'a>, u8>
    ensures { draft_result result ≡ upper_draft (upper_line form) (listed operands.entry) }
{
    match operands {
        Operands::Zero => Err(MALFORMED),
        Operands::One(_) => Err(MALFORMED),
        Operands::Two(one, two) => with_upper(form, register(one), immediate(two)),
        Operands::Three(_, _, _) => Err(MALFORMED),
        Operands::More => Err(MALFORMED),
    }
}

fn branch_draft<'a>(code: Branch, operands: Operands<'a>) -> Result<Draft<'a>, u8>
    ensures { draft_result result ≡ branch_draft code (listed operands.entry) }
{
    match operands {
        Operands::Zero => Err(MALFORMED),
        Operands::One(_) => Err(MALFORMED),
        Operands::Two(_, _) => Err(MALFORMED),
        Operands::Three(one, two, three) => {
            with_label(code, register(one), register(two), three)
        }
        Operands::More => Err(MALFORMED),
    }
}

fn jump_draft<'a>(operands: Operands<'a>) -> Result<Draft<'a>, u8>
    ensures { draft_result result ≡ jump_draft (listed operands.entry) }
{
    match operands {
        Operands::Zero => Err(MALFORMED),
        Operands::One(_) => Err(MALFORMED),
        Operands::Two(one, two) => with_jump(register(one), two),
        Operands::Three(_, _, _) => Err(MALFORMED),
        Operands::More => Err(MALFORMED),
    }
}

fn lone_draft<'a>(line: Line, operands: Operands<'a>) -> Result<Draft<'a>, u8>
    ensures { draft_result result ≡ lone_draft line (listed operands.entry) }
{
    match operands {
        Operands::Zero => Ok(Draft::Whole(line)),
        Operands::One(_) => Err(MALFORMED),
        Operands::Two(_, _) => Err(MALFORMED),
        Operands::Three(_, _, _) => Err(MALFORMED),
        Operands::More => Err(MALFORMED),
    }
}

fn draft_of<'a>(form: Form, operands: Operands<'a>) -> Result<Draft<'a>, u8>
    ensures { draft_result result ≡ draft_of form (listed operands.entry) }
{
    match form {
        Form::Three(code) => three_draft(code, operands),
        Form::Imm(code) => imm_draft(code, operands),
        Form::Load(code) => address_draft(Addressed::Load(code), operands),
        Form::Store(code) => address_draft(Addressed::Store(code), operands),
        Form::Branch(code) => branch_draft(code, operands),
        Form::Lui => upper_draft(Upper::Lui, operands),
        Form::Auipc => upper_draft(Upper::Auipc, operands),
        Form::Jal => jump_draft(operands),
        Form::Jalr => address_draft(Addressed::Jalr, operands),
        Form::Fence => lone_draft(Line::Fence, operands),
        Form::Ecall => lone_draft(Line::Ecall, operands),
        Form::Ebreak => lone_draft(Line::Ebreak, operands),
    }
}

/// An instruction by its core, or the cause with which it is refused.
#[tactic(auto, using(crate::proofs::RangeLemmas::split_same))]
pub(crate) fn instruction_of<'a>(core: &'a [u8]) -> Result<Draft<'a>, u8>
    ensures { draft_result result ≡ instruction_of core.now }
{
    let (word, rest) = cut(core, Mark::Blank);
    match form_of(word) {
        None => Err(UNKNOWN),
        Some(form) => draft_of(form, split_operands(rest)),
    }
}
