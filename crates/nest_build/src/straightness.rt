// Whether a form is straight.
ghost use Rattle.std.specs.Prelude.{◌≡◌, ◌<◌, Some, length};
ghost use Rattle.stride_form.specs.Kept.{AreOpOrdered, op_form_in};
ghost use Rattle.stride_form.specs.Operational.{Operational as OpForm};
ghost use Rattle.stride_form.specs.Pool.{op_form_at, op_forms};
ghost use Rattle.nest_build.specs.Parts.{is_straight};

use crate::part::{Part, top_of};
use stride_form::Operational;

/// Whether a form has no choice, no fold and no binding. An empty form has none.
pub fn is_straight(form: &Operational) -> bool
    ensures { (tree : OpForm) → op_form_in form.now.terms ≡ Some tree → result ≡ is_straight tree }
{
    if form.empty() {
        return true;
    }
    has_straight(form, form.top())
}

/// Whether a term is straight.
#[inline(never)]
fn has_straight(form: &Operational, number: u32) -> bool
    requires ordered { AreOpOrdered 0 form.now.terms }
    requires there { number < length form.now.terms }
    ensures { result ≡ is_straight (op_form_at (op_forms form.now.terms) number) }
{
    match top_of(form, number) {
        Part::Un { of, .. } => has_straight(form, of),
        Part::Bin { left, right, .. } => has_straight(form, left) && has_straight(form, right),
        Part::Lit(_) => true,
        Part::Index(_) => true,
        Part::Get(_) => true,
        Part::Other => false,
    }
}
