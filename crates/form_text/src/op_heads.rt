// What of a term of an operational form stands before its operands.
ghost use Rattle.std.specs.Prelude.{◌≡◌, [], ◌++◌, OnOk};
ghost use Rattle.form_text.specs.Pieces.{head_text, numbers};
ghost use Rattle.stride_form.specs.Pool.{op_form_of, op_operands};
ghost use Rattle.form_text.specs.Spelling.{access_text};

use crate::areas::push_access;
use crate::heads::{push_binary, push_case, push_fold, push_index, push_let, push_unary};
use crate::pieces::Operands;
use crate::words::push_number;
use shapes_core::{Area, NoMemory};
use stride_form::OpTerm;

/// A term without operands, or what stands before its operands.
pub(crate) fn push_op_head(out: &mut Vec<u8>, areas: &[Area], term: &OpTerm) -> Result<(), NoMemory>
    ensures { OnOk result (out.new.items ≡ out.old.items ++ head_text (access_text areas.now) (op_form_of [] term.now)) }
{
    match term {
        OpTerm::Lit(value) => push_number(out, *value),
        OpTerm::Index(entry) => push_index(out, *entry),
        OpTerm::Get(access) => push_access(out, areas, access),
        OpTerm::Un { op, .. } => push_unary(out, *op),
        OpTerm::Bin { op, .. } => push_binary(out, *op),
        OpTerm::Case { left, below, .. } => push_case(out, *left, *below),
        OpTerm::Fold {
            op,
            var,
            low,
            high,
            ..
        } => push_fold(out, *op, *var, *low, *high),
        OpTerm::Let { var, bind, .. } => push_let(out, *var, bind),
    }
}

/// The operands of a term.
pub(crate) fn op_operands(term: &OpTerm) -> Operands
    ensures { numbers result ≡ op_operands term.now }
{
    match term {
        OpTerm::Lit(_) | OpTerm::Index(_) | OpTerm::Get(_) => Operands::None,
        OpTerm::Un { of, .. } | OpTerm::Fold { of, .. } | OpTerm::Let { of, .. } => Operands::One(
            *of,
        ),
        OpTerm::Bin { left, right, .. } => Operands::Two(*left, *right),
        OpTerm::Case { yes, no, .. } => Operands::Two(*yes, *no),
    }
}
