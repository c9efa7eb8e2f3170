// The line of an operational form.
ghost use Rattle.std.specs.Prelude.{◌≡◌, ℕ, ◌<◌, List, [], ◌∷◌, ◌++◌, length, reverse, IfOk, OnOk};
ghost use Rattle.stride_form.specs.Kept.{AreOpOrdered, op_form_in};
ghost use Rattle.stride_form.specs.Pool.{op_form_at, op_forms};
ghost use Rattle.form_text.specs.Pieces.{IsPutting, IsThere, pieces_size};
ghost use Rattle.form_text.specs.Spelling.{body_text, access_text, operational_line, term_text};

use crate::areas::push_job;
use crate::op_heads::{op_operands, push_op_head};
use crate::pieces::{Piece, push_after};
use crate::words::push_text;
use shape_check::Layout;
use shapes_core::{Area, NoMemory};
use std::alloc::Global;
use stride_form::Operational;
use stride_form::laws::terms_are_over_operands;

/// The line of a job with its operational form, in a block with this layout. An area of which the layout has none
/// is spelled by no byte. This project's own.
pub fn operational_text(
    alloc: Global,
    form: &Operational,
    layout: &Layout,
) -> Result<Vec<u8>, NoMemory>
    ensures { IfOk result (λ text. text.items ≡ operational_line layout.now form.now.job form.now.shape (op_form_in form.now.terms)) }
{
    let areas = layout.areas();
    let mut out = Vec::new(alloc);
    push_job(&mut out, areas, form.job(), form.shape().extents())?;
    push_body(alloc, &mut out, areas, form)?;
    push_text(&mut out, b"\n")?;
    Ok(out)
}

/// The term of a form, or that it has none.
fn push_body(
    alloc: Global,
    out: &mut Vec<u8>,
    areas: &[Area],
    form: &Operational,
) -> Result<(), NoMemory>
    ensures { OnOk result (out.new.items ≡ out.old.items ++ body_text (access_text areas.now) (op_form_in form.now.terms)) }
{
    if form.empty() {
        return push_text(out, b"empty");
    }
    push_term(alloc, out, areas, form, form.top())
}

/// A term, over a stack of what is still to be put: a form is too deep for recursion.
fn push_term(
    alloc: Global,
    out: &mut Vec<u8>,
    areas: &[Area],
    form: &Operational,
    top: u32,
) -> Result<(), NoMemory>
    requires ordered { AreOpOrdered 0 form.now.terms }
    requires there { top < length form.now.terms }
    ensures { OnOk result (out.new.items ≡ out.old.items
        ++ term_text (access_text areas.now) (op_form_at (op_forms form.now.terms) top)) }
{
    let mut waiting = Vec::new(alloc);
    waiting.push(Piece::Of(top))?;
    while let Some(piece) = waiting.pop() {
        push_piece(out, &mut waiting, areas, form, piece)?;
    }
    Ok(())
}

/// What was on top of the stack.
fn push_piece(
    out: &mut Vec<u8>,
    waiting: &mut Vec<Piece>,
    areas: &[Area],
    form: &Operational,
    piece: Piece,
) -> Result<(), NoMemory>
    requires ordered { AreOpOrdered 0 form.now.terms }
    requires there { IsThere (length form.now.terms) piece }
    ensures put { OnOk result ((whole : List ℕ)
        → IsPutting (access_text areas.now) (op_forms form.now.terms) (length form.now.terms) whole out.old.items (waiting.old.items ++ piece ∷ [])
        → IsPutting (access_text areas.now) (op_forms form.now.terms) (length form.now.terms) whole out.new.items waiting.new.items) }
    ensures less { OnOk result (pieces_size (op_forms form.now.terms) (reverse waiting.new.items)
        < pieces_size (op_forms form.now.terms) (reverse (waiting.old.items ++ piece ∷ []))) }
{
    terms_are_over_operands();
    match piece {
        Piece::Comma => push_text(out, b", "),
        Piece::Close => push_text(out, b")"),
        Piece::Of(number) => {
            let term = form.term(number);
            push_op_head(out, areas, &term)?;
            push_after(waiting, op_operands(&term))
        }
    }
}
