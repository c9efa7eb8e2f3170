// The literals, accesses and registers of a form.
ghost use Rattle.std.specs.Prelude.{◌≡◌, ◌++◌, ◌∷◌, ◌<◌, ◌+◌, [], IfOk, OnOk, length};
ghost use Rattle.normal_form.specs.Forms.{Get};
ghost use Rattle.stride_form.specs.declared.access.Access.{Access as AnAccess};
ghost use Rattle.stride_form.specs.Kept.{AreOpOrdered};
ghost use Rattle.stride_form.specs.Pool.{op_form_at, op_forms};
ghost use Rattle.nest_build.specs.Parts.{accesses, behind_value, literals, values_of};

use crate::part::{Part, top_of};
use shapes_core::NoMemory;
use stride_form::laws::terms_are_over_operands;
use stride_form::{Access, OpTerm, Operational};

/// Adds the literals of a term, from the left.
#[inline(never)]
pub(crate) fn push_literals(
    out: &mut Vec<i64>,
    form: &Operational,
    number: u32,
) -> Result<(), NoMemory>
    requires ordered { AreOpOrdered 0 form.now.terms }
    requires there { number < length form.now.terms }
    ensures { OnOk result (out.new.items ≡ out.old.items ++ literals (op_form_at (op_forms form.now.terms) number)) }
{
    match top_of(form, number) {
        Part::Lit(value) => {
            out.push(value)?;
            Ok(())
        }
        Part::Un { of, .. } => push_literals(out, form, of),
        Part::Bin { left, right, .. } => {
            push_literals(out, form, left)?;
            push_literals(out, form, right)
        }
        Part::Index(_) => Ok(()),
        Part::Get(_) => Ok(()),
        Part::Other => Ok(()),
    }
}

/// Adds the accesses of a term, from the left.
#[inline(never)]
pub(crate) fn push_accesses(
    out: &mut Vec<Access>,
    form: &Operational,
    number: u32,
) -> Result<(), NoMemory>
    requires ordered { AreOpOrdered 0 form.now.terms }
    requires there { number < length form.now.terms }
    ensures { OnOk result (out.new.items ≡ out.old.items ++ accesses (op_form_at (op_forms form.now.terms) number)) }
{
    match top_of(form, number) {
        Part::Get(_) => push_access(out, form, number),
        Part::Un { of, .. } => push_accesses(out, form, of),
        Part::Bin { left, right, .. } => {
            push_accesses(out, form, left)?;
            push_accesses(out, form, right)
        }
        Part::Lit(_) => Ok(()),
        Part::Index(_) => Ok(()),
        Part::Other => Ok(()),
    }
}

/// Adds the access that a term is.
#[inline(never)]
fn push_access(out: &mut Vec<Access>, form: &Operational, number: u32) -> Result<(), NoMemory>
    requires ordered { AreOpOrdered 0 form.now.terms }
    requires there { number < length form.now.terms }
    ensures { (access : AnAccess) → op_form_at (op_forms form.now.terms) number ≡ Get access
        → OnOk result (out.new.items ≡ out.old.items ++ access ∷ []) }
{
    terms_are_over_operands();
    let OpTerm::Get(access) = form.term(number) else {
        return Err(NoMemory);
    };
    out.push(access)?;
    Ok(())
}

/// The first register behind the value of an operand.
#[inline(never)]
pub(crate) fn behind(form: &Operational, number: u32, free: u32) -> Result<u32, NoMemory>
    requires ordered { AreOpOrdered 0 form.now.terms }
    requires there { number < length form.now.terms }
    ensures { IfOk result (λ register. register ≡ behind_value free (op_form_at (op_forms form.now.terms) number)) }
{
    let Part::Lit(_) = top_of(form, number) else {
        return next(free);
    };
    Ok(free)
}

/// The next number of 32 bits.
pub(crate) fn next(number: u32) -> Result<u32, NoMemory>
    ensures { IfOk result (λ sum. sum ≡ number + 1) }
{
    number.checked_add(1).ok_or(NoMemory)
}

/// How many registers the values of a term take, beside those of its literals.
#[inline(never)]
pub(crate) fn values(form: &Operational, number: u32) -> Result<u32, NoMemory>
    requires ordered { AreOpOrdered 0 form.now.terms }
    requires there { number < length form.now.terms }
    ensures { IfOk result (λ count. count ≡ values_of (op_form_at (op_forms form.now.terms) number)) }
{
    match top_of(form, number) {
        Part::Un { of, .. } => {
            let count = values(form, of)?;
            Ok(count.max(1))
        }
        Part::Bin { left, right, .. } => {
            let one = values(form, left)?;
            let other = values(form, right)?;
            let first = behind(form, left, 0)?;
            Ok(one.max(sum(first, other)?).max(1))
        }
        Part::Lit(_) => Ok(0),
        Part::Index(_) => Ok(1),
        Part::Get(_) => Ok(1),
        Part::Other => Ok(1),
    }
}

/// A sum of numbers of 32 bits.
pub(crate) fn sum(one: u32, other: u32) -> Result<u32, NoMemory>
    ensures { IfOk result (λ sum. sum ≡ one + other) }
{
    one.checked_add(other).ok_or(NoMemory)
}
