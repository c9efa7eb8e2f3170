// The laws of the four rules, as clauses of functions that do nothing: what they make of a form means the same.
ghost use Rattle.std.specs.Prelude.{◌≡◌, ℕ, List, pos};
ghost use Rattle.shapes_core.specs.Gamma.{gamma};
ghost use Rattle.shapes_core.specs.Shape.{IsShape};
ghost use Rattle.normal_form.specs.Assignments.{Assignment, assigned, places};
ghost use Rattle.normal_form.specs.Forms.{Element, Normal as NormalForm};
ghost use Rattle.normal_form.specs.Kept.{AreEntries, IsBox, IsInBox, IsKept, job_variables};
ghost use Rattle.normal_form.specs.Meaning.{Reached, Store, element_value, meaning};
ghost use Rattle.normal_form.specs.Stands.{AreIndex, IsFine};
ghost use Rattle.stride_form.specs.Accesses.{access_value, place_of};
ghost use Rattle.stride_form.specs.Exact.{AreTrue};
ghost use Rattle.stride_form.specs.Facts.{Facts};
ghost use Rattle.stride_form.specs.Kept.{IsOpKept};
ghost use Rattle.stride_form.specs.Places.{IsFineAccess};
ghost use Rattle.stride_form.specs.Rules.{access_in, operational_on};

/// Where what is known of variables is true, the place of an access is the row-major offset of its load's entries wherever they
/// stand for an index vector: at the digits of a number in the shape too, since the number lies in it.
pub fn accesses_are_at_offsets()
    ensures { (m : Assignment) (known : List ℕ) (facts : Facts) (element : Element) → AreTrue m known facts
        → AreEntries known element.at element.shape → AreIndex m element.at element.shape
        → place_of m (access_in facts element) ≡ pos (gamma (places m element.at) element.shape) }
{}

/// On its region the operational form of a form that is kept means what the form does, and reaches only what is fine.
pub fn rules_keep_the_meaning()
    ensures same { (store : Store) (own : ℕ) (shape : List ℕ) (region : List (ℕ × ℕ)) (form : NormalForm) (index : List ℕ)
        → IsBox region shape → IsKept own (job_variables shape) form → IsInBox index region → Reached IsFine (assigned index) form
        → meaning (access_value store) (assigned index) (operational_on region form) ≡ meaning (element_value store) (assigned index) form }
    ensures fine { (own : ℕ) (shape : List ℕ) (region : List (ℕ × ℕ)) (form : NormalForm) (index : List ℕ)
        → IsBox region shape → IsKept own (job_variables shape) form → IsInBox index region → Reached IsFine (assigned index) form
        → Reached IsFineAccess (assigned index) (operational_on region form) }
{}

/// The operational form of a form that is kept is kept: its variables are those that are bound above their uses, and its constants,
/// strides and starts are small.
pub fn rules_keep_what_is_kept()
    ensures { (own : ℕ) (shape : List ℕ) (region : List (ℕ × ℕ)) (form : NormalForm) → IsShape shape → IsBox region shape
        → IsKept own (job_variables shape) form → IsOpKept own (job_variables shape) (operational_on region form) }
{}
