// The theorem on the rules, as clauses of functions that do nothing.
ghost use Rattle.std.specs.Prelude.{◌≡◌, ℕ, List, Ok};
ghost use Rattle.moa_tree.specs.Denotation.{Store as Lists};
ghost use Rattle.moa_tree.specs.Expr.{Expr, Item};
ghost use Rattle.moa_tree.specs.ShapeOf.{Shapes};
ghost use Rattle.moa_tree.specs.Subexpressions.{scans_in};
ghost use Rattle.moa_tree.specs.Values.{Env, shapes_of, value};
ghost use Rattle.shape_check.specs.Statements.{verdict_of};
ghost use Rattle.shape_check.specs.Verdict.{verdict};
ghost use Rattle.normal_form.specs.Meaning.{Store};
ghost use Rattle.normal_form.specs.Stands.{Represents};
ghost use Rattle.psi_rules.specs.Agrees.{AreFormsOf, AreNamed, HoldEach};
ghost use Rattle.psi_rules.specs.Areas.{given, store};
ghost use Rattle.psi_rules.specs.Jobs.{forms};
ghost use Rattle.psi_rules.specs.Operands.{OperandsMove};
ghost use Rattle.psi_rules.specs.Rules.{Names, form};

use moa_tree::stored_values;
use normal_form::laws::{
    folds_represent, joins_represent, operators_represent, reshapes_represent, turns_represent,
};
use shape_check::laws::{
    lists_are_totals, operands_are_accepted, places_are_indices, verdicts_are_shapes,
};

/// The operands of an accepted expression are accepted, and what its rule makes of entries stands
/// for the places at which its operator takes elements of its operands.
pub fn operands_move()
    ensures { (shapes : Shapes) → OperandsMove shapes }
{
    operands_are_accepted();
    places_are_indices();
}

/// The rules give what an expression is: over areas that hold the arrays of its scans, and among
/// names whose forms give their arrays, the form of an accepted expression reaches only what is
/// fine, and means its value at each index vector.
pub fn forms_represent()
    ensures { (store : Store) (names : Names) (env : Env) (scan at : ℕ) (expr : Expr)
        → (shape : List ℕ)
        → AreNamed store names env → HoldEach store env scan (scans_in expr)
        → verdict (shapes_of env) at expr ≡ Ok shape
        → Represents store (form names scan expr) shape (value env expr) }
{
    operators_represent();
    turns_represent();
    joins_represent();
    folds_represent();
    reshapes_represent();
    operands_move();
    verdicts_are_shapes();
}

/// Over areas that hold the lists of an accepted program, its inputs, its outputs and what its
/// scans give, each job has one form: it reaches only what is fine, and means the value of the
/// job's array at each index vector. A job whose array has no element has none.
pub fn jobs_give()
    ensures { (inputs : Lists) (items : List Item) (shapes : Shapes)
        → verdict_of items ≡ Ok shapes
        → AreFormsOf (store inputs items) (forms items) (given inputs items) }
{
    operators_represent();
    forms_represent();
    operands_move();
    verdicts_are_shapes();
    lists_are_totals();
    stored_values();
}
