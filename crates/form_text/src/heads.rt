// What of a term stands before its operands.
ghost use Rattle.std.specs.Prelude.{◌≡◌, [], ◌++◌, codes, OnOk};
ghost use Rattle.form_text.specs.Pieces.{head_text, numbers};
ghost use Rattle.normal_form.specs.Pool.{form_of, operands};
ghost use Rattle.form_text.specs.Spelling.{binary_head, case_head, element_text, entry_text, fold_head, let_head, unary_head};

use crate::areas::push_element;
use crate::entries::{push_binding, push_entry};
use crate::pieces::Operands;
use crate::words::{op_word, push_count, push_number, push_text, push_variable, unary_word};
use moa_tree::{Op, Unary};
use normal_form::{Bind, Entry, Term};
use shapes_core::{Area, NoMemory};

/// A term without operands, or what stands before its operands.
pub(crate) fn push_head(out: &mut Vec<u8>, areas: &[Area], term: &Term) -> Result<(), NoMemory>
    ensures { OnOk result (out.new.items ≡ out.old.items ++ head_text (element_text areas.now) (form_of [] term.now)) }
{
    match term {
        Term::Lit(value) => push_number(out, *value),
        Term::Index(entry) => push_index(out, *entry),
        Term::Load { area, at, .. } => push_element(out, areas, *area, at.list()),
        Term::Un { op, .. } => push_unary(out, *op),
        Term::Bin { op, .. } => push_binary(out, *op),
        Term::Case { left, below, .. } => push_case(out, *left, *below),
        Term::Fold {
            op,
            var,
            low,
            high,
            ..
        } => push_fold(out, *op, *var, *low, *high),
        Term::Let { var, bind, .. } => push_let(out, *var, bind),
    }
}

/// The operands of a term.
pub(crate) fn operands(term: &Term) -> Operands
    ensures { numbers result ≡ operands term.now }
{
    match term {
        Term::Lit(_) | Term::Index(_) | Term::Load { .. } => Operands::None,
        Term::Un { of, .. } | Term::Fold { of, .. } | Term::Let { of, .. } => Operands::One(*of),
        Term::Bin { left, right, .. } => Operands::Two(*left, *right),
        Term::Case { yes, no, .. } => Operands::Two(*yes, *no),
    }
}

pub(crate) fn push_index(out: &mut Vec<u8>, entry: Entry) -> Result<(), NoMemory>
    ensures { OnOk result (out.new.items ≡ out.old.items ++ (codes "index(" ++ (entry_text entry ++ codes ")"))) }
{
    push_text(out, b"index(")?;
    push_entry(out, entry)?;
    push_text(out, b")")
}

pub(crate) fn push_unary(out: &mut Vec<u8>, op: Unary) -> Result<(), NoMemory>
    ensures { OnOk result (out.new.items ≡ out.old.items ++ unary_head op) }
{
    push_text(out, unary_word(op))?;
    push_text(out, b"(")
}

pub(crate) fn push_binary(out: &mut Vec<u8>, op: Op) -> Result<(), NoMemory>
    ensures { OnOk result (out.new.items ≡ out.old.items ++ binary_head op) }
{
    push_text(out, op_word(op))?;
    push_text(out, b"(")
}

pub(crate) fn push_case(out: &mut Vec<u8>, left: Entry, below: i64) -> Result<(), NoMemory>
    ensures { OnOk result (out.new.items ≡ out.old.items ++ case_head left below) }
{
    push_text(out, b"case(")?;
    push_entry(out, left)?;
    push_text(out, b" < ")?;
    push_number(out, below)?;
    push_text(out, b", ")
}

pub(crate) fn push_fold(
    out: &mut Vec<u8>,
    op: Op,
    var: u32,
    low: u64,
    high: u64,
) -> Result<(), NoMemory>
    ensures { OnOk result (out.new.items ≡ out.old.items ++ fold_head op var low high) }
{
    push_text(out, b"fold(")?;
    push_text(out, op_word(op))?;
    push_text(out, b", ")?;
    push_variable(out, var)?;
    push_text(out, b" from ")?;
    push_count(out, low)?;
    push_text(out, b" to ")?;
    push_count(out, high)?;
    push_text(out, b", ")
}

pub(crate) fn push_let(out: &mut Vec<u8>, var: u32, bind: &Bind) -> Result<(), NoMemory>
    ensures { OnOk result (out.new.items ≡ out.old.items ++ let_head var bind.now) }
{
    push_text(out, b"let(")?;
    push_variable(out, var)?;
    push_text(out, b" = ")?;
    push_binding(out, bind)?;
    push_text(out, b", ")
}
