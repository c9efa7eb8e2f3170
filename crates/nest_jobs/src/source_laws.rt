// What forms take from a source, and nests with their forms, as clauses of functions that do
// nothing.
ghost use Rattle.std.specs.Prelude.{◌≡◌, ◌≤◌, Bool, ℕ, ℤ, List, Ok, Some, pos, slice_get, true};
ghost use Rattle.std.specs.List.{AllByRecursion};
ghost use Rattle.moa_tree.specs.declared.operator.Op.{Op as Operator};
ghost use Rattle.moa_tree.specs.Canonical.{IsBuiltItem};
ghost use Rattle.moa_tree.specs.Denotation.{Store as Lists};
ghost use Rattle.moa_tree.specs.Expr.{Item};
ghost use Rattle.moa_tree.specs.Readings.{has_output};
ghost use Rattle.moa_tree.specs.ShapeOf.{Shapes};
ghost use Rattle.normal_form.specs.Forms.{Normal};
ghost use Rattle.shape_check.specs.Costs.{size, work};
ghost use Rattle.shape_check.specs.Layout.{areas};
ghost use Rattle.shape_check.specs.Statements.{verdict_of};
ghost use Rattle.psi_rules.specs.Areas.{given};
ghost use Rattle.psi_rules.specs.Jobs.{forms};
ghost use Rattle.stride_form.specs.Operational.{operational};
ghost use Rattle.nest_jobs.specs.Leads.{nests};
ghost use Rattle.nest_jobs.specs.Plain.{ArePlain};
ghost use Rattle.nest_jobs.specs.Sources.{AreNestsOf, EachPasses, form_passes};

use crate::laws::{block_laws, forms_are_buildable};
use shape_check::laws::verdicts_are_shapes;
use stride_form::binding_laws::rules_are_about_bindings;

/// The operators and numbers in the forms of a plain program are those of its source, and 0: tests
/// that these pass are passed by each form.
pub fn forms_take_from_sources()
    ensures { (op_test : Operator → Bool) (number_test : ℤ → Bool) (items : List Item) (number : ℕ)
        (form : Normal) → ArePlain items → EachPasses op_test number_test items
        → number_test (pos 0) ≡ true → slice_get (forms items) number ≡ Some (Some form)
        → form_passes op_test number_test (operational form) ≡ true }
{}

/// The nests of a plain accepted program are those of its forms, which can be built, on the whole
/// of the arrays of its jobs.
pub fn nests_are_of_forms()
    ensures { (inputs : Lists) (items : List Item) (shapes : Shapes) → verdict_of items ≡ Ok shapes
        → AllByRecursion IsBuiltItem items → ArePlain items
        → AreNestsOf (areas items) (forms items) (given inputs items) (nests items) }
{
    block_laws();
    forms_are_buildable();
    rules_are_about_bindings();
    verdicts_are_shapes();
}

/// A plain program with an output has some size and asks for some work.
pub fn outputs_have_size()
    ensures size { (items : List Item) → ArePlain items → has_output items ≡ true → 2 ≤ size items }
    ensures work { (items : List Item) → ArePlain items → has_output items ≡ true → 1 ≤ work items }
{}
