// The laws of accesses and of pools, as clauses of functions that do nothing: each access is the element that its load is.
ghost use Rattle.std.specs.Prelude.{◌≡◌, ◌<◌, ℕ, List, Some, pos, slice_get, unsigned_abs};
ghost use Rattle.shapes_core.specs.Gamma.{gamma};
ghost use Rattle.shapes_core.specs.Shape.{total};
ghost use Rattle.normal_form.specs.Assignments.{Assignment, places};
ghost use Rattle.normal_form.specs.Forms.{Element, Normal as NormalForm};
ghost use Rattle.normal_form.specs.Meaning.{Reached, Store, element_value, meaning};
ghost use Rattle.normal_form.specs.Stands.{AreIndex, IsFine};
ghost use Rattle.stride_form.specs.Accesses.{access_of, access_value, place_of};
ghost use Rattle.stride_form.specs.declared.op_term.OpTerm.{OpTerm};
ghost use Rattle.stride_form.specs.Kept.{AreOpOrdered};
ghost use Rattle.stride_form.specs.Operational.{operational};
ghost use Rattle.stride_form.specs.Places.{IsAtPlace, IsFineAccess};
ghost use Rattle.stride_form.specs.Pool.{IsOverOperands};

use shapes_core::laws::gamma_laws;

/// The place of an access is the row-major offset of its load's entries wherever they stand for an index vector: it is not
/// negative, and below the total of the area's shape.
pub fn places_are_offsets()
    ensures offset { (m : Assignment) (element : Element) → AreIndex m element.at element.shape
        → place_of m (access_of element) ≡ pos (gamma (places m element.at) element.shape) }
    ensures not_negative { (m : Assignment) (element : Element) → AreIndex m element.at element.shape
        → IsAtPlace m (access_of element) }
    ensures below { (m : Assignment) (element : Element) → AreIndex m element.at element.shape
        → unsigned_abs (place_of m (access_of element)) < total element.shape }
{
    gamma_laws();
}

/// An operational form means what its form does wherever that reaches only what is fine, and reaches only what is fine then.
pub fn meaning_is_kept()
    ensures same { (store : Store) (m : Assignment) (form : NormalForm) → Reached IsFine m form
        → meaning (access_value store) m (operational form) ≡ meaning (element_value store) m form }
    ensures fine { (m : Assignment) (form : NormalForm) → Reached IsFine m form
        → Reached IsFineAccess m (operational form) }
{}

/// A term of a pool stands for its operator over what its operands stand for, which stand before it.
pub fn terms_are_over_operands()
    ensures { (terms : List OpTerm) (number : ℕ) (of : OpTerm) → AreOpOrdered 0 terms → slice_get terms number ≡ Some of
        → IsOverOperands terms number of }
{}
