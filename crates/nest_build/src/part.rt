// What stands at the top of a term.
ghost use Rattle.std.specs.Prelude.{◌<◌, length};
ghost use Rattle.stride_form.specs.Kept.{AreOpOrdered};
ghost use Rattle.stride_form.specs.Pool.{op_form_at, op_forms};
ghost use Rattle.nest_build.specs.Reading.{IsPart};

use moa_tree::{Op, Unary};
use normal_form::Entry;
use stride_form::laws::terms_are_over_operands;
use stride_form::{OpTerm, Operational};

/// The top of a term: of an access its area alone, and nothing of a choice, a fold or a binding.
#[derive(Clone, Copy)]
pub(crate) enum Part {
    Lit(i64),
    Index(Entry),
    Get(u32),
    Un { op: Unary, of: u32 },
    Bin { op: Op, left: u32, right: u32 },
    Other,
}

/// The top of a term. It is small, so that a recursion over terms has small frames.
#[inline(never)]
pub(crate) fn top_of(form: &Operational, number: u32) -> Part
    requires ordered { AreOpOrdered 0 form.now.terms }
    requires there { number < length form.now.terms }
    ensures { IsPart (op_forms form.now.terms) number (op_form_at (op_forms form.now.terms) number) result }
{
    terms_are_over_operands();
    match form.term(number) {
        OpTerm::Lit(value) => Part::Lit(value),
        OpTerm::Index(entry) => Part::Index(entry),
        OpTerm::Get(access) => Part::Get(access.area),
        OpTerm::Un { op, of } => Part::Un { op, of },
        OpTerm::Bin { op, left, right } => Part::Bin { op, left, right },
        OpTerm::Case { .. } => Part::Other,
        OpTerm::Fold { .. } => Part::Other,
        OpTerm::Let { .. } => Part::Other,
    }
}
