// What every form of the rules keeps, as clauses of functions that do nothing.
ghost use Rattle.std.specs.List.{AllByRecursion};
ghost use Rattle.std.specs.Prelude.{◌≡◌, ℕ, List, [], Ok, Some, slice_get};
ghost use Rattle.moa_tree.specs.Canonical.{IsBuiltItem};
ghost use Rattle.moa_tree.specs.Denotation.{Store as Lists};
ghost use Rattle.moa_tree.specs.Expr.{Item};
ghost use Rattle.moa_tree.specs.Pools.{IsProgram, Pools};
ghost use Rattle.moa_tree.specs.ShapeOf.{Shapes};
ghost use Rattle.shape_check.specs.Costs.{Prices};
ghost use Rattle.shape_check.specs.Jobs.{TreeJob, jobs};
ghost use Rattle.shape_check.specs.Judged.{items_in};
ghost use Rattle.shape_check.specs.Statements.{verdict_of};
ghost use Rattle.normal_form.specs.Cutting.{IsRoomy, IsVarying};
ghost use Rattle.normal_form.specs.Forms.{Normal};
ghost use Rattle.normal_form.specs.Kept.{IsFoldJob, IsKept, job_variables};
ghost use Rattle.psi_rules.specs.Areas.{Given, given};
ghost use Rattle.psi_rules.specs.Jobs.{forms};
ghost use Rattle.psi_rules.specs.Keeping.{AreKeptForms, KeepExpressions};
ghost use Rattle.psi_rules.specs.Rules.{Names};
ghost use Rattle.psi_rules.specs.Within.{OperandsWithin};

use crate::laws::operands_move;
use moa_tree::reads_again;
use normal_form::keeping_laws::{
    folds_keep, joins_keep, operators_keep, reshapes_keep, turns_keep,
};
use shape_check::laws::{lists_are_totals, operands_are_accepted, verdicts_are_shapes};
use shapes_core::laws::span_laws;

/// An accepted expression has a shape, and what its rule makes of entries within it is within the
/// shapes of its operands.
pub fn operands_stay_within()
    ensures { (shapes : Shapes) (room : ℕ) → OperandsWithin shapes room }
{
    operands_are_accepted();
    verdicts_are_shapes();
}

/// The form of an accepted expression that folds by operators that fold keeps it, in a form of an
/// area that is none of its scans', where the constants of its entries leave room for each of its
/// nodes.
pub fn expressions_keep()
    ensures { (names : Names) (prices : Prices) → KeepExpressions names prices }
{
    operators_keep();
    turns_keep();
    joins_keep();
    folds_keep();
    reshapes_keep();
    operands_move();
    operands_stay_within();
}

/// A program folds by operators that fold.
pub fn programs_are_built()
    ensures { (pools : Pools) → IsProgram pools → AllByRecursion IsBuiltItem (items_in pools) }
{
    reads_again();
}

/// In the form of each job of an accepted program that folds by operators that fold, each variable
/// is in scope and bound once, constants are small, no term loads the job's own area, and what is
/// loaded has a shape, also where it is never reached; no choice, turn or digit is of a constant, and
/// constants leave room for the turns in the place of their variables.
pub fn forms_keep()
    ensures each { (inputs : Lists) (items : List Item) (shapes : Shapes)
        → verdict_of items ≡ Ok shapes → AllByRecursion IsBuiltItem items
        → AreKeptForms (jobs items) (given inputs items) (forms items) }
    ensures at { (inputs : Lists) (items : List Item) (shapes : Shapes) (number : ℕ)
        (tree_job : TreeJob) (array : Given) (form : Normal)
        → verdict_of items ≡ Ok shapes → AllByRecursion IsBuiltItem items
        → slice_get (jobs items) number ≡ Some tree_job
        → slice_get (given inputs items) number ≡ Some array
        → slice_get (forms items) number ≡ Some (Some form)
        → IsKept tree_job.job.area (job_variables array.shape) form }
    ensures varying { (inputs : Lists) (items : List Item) (shapes : Shapes) (number : ℕ)
        (tree_job : TreeJob) (array : Given) (form : Normal)
        → verdict_of items ≡ Ok shapes → AllByRecursion IsBuiltItem items
        → slice_get (jobs items) number ≡ Some tree_job
        → slice_get (given inputs items) number ≡ Some array
        → slice_get (forms items) number ≡ Some (Some form)
        → IsVarying form }
    ensures roomy { (inputs : Lists) (items : List Item) (shapes : Shapes) (number : ℕ)
        (tree_job : TreeJob) (array : Given) (form : Normal)
        → verdict_of items ≡ Ok shapes → AllByRecursion IsBuiltItem items
        → slice_get (jobs items) number ≡ Some tree_job
        → slice_get (given inputs items) number ≡ Some array
        → slice_get (forms items) number ≡ Some (Some form)
        → IsRoomy [] form }
{
    operators_keep();
    expressions_keep();
    operands_move();
    verdicts_are_shapes();
    lists_are_totals();
    span_laws();
}

/// In an accepted program that folds by operators that fold, the job of a scan folds by one of
/// them, along an axis.
pub fn scans_fold()
    ensures { (inputs : Lists) (items : List Item) (shapes : Shapes) (number : ℕ)
        (tree_job : TreeJob) (array : Given)
        → verdict_of items ≡ Ok shapes → AllByRecursion IsBuiltItem items
        → slice_get (jobs items) number ≡ Some tree_job
        → slice_get (given inputs items) number ≡ Some array
        → IsFoldJob tree_job.job.fold array.shape }
{
    operands_move();
    operands_are_accepted();
    verdicts_are_shapes();
    lists_are_totals();
}
