// The theorem on the nests of a whole program, as the clause of a function that does nothing.
ghost use Rattle.std.specs.List.{AllByRecursion};
ghost use Rattle.std.specs.Prelude.{◌≡◌, List, Ok, length};
ghost use Rattle.moa_tree.specs.Canonical.{IsBuiltItem};
ghost use Rattle.moa_tree.specs.Denotation.{Store as Lists};
ghost use Rattle.moa_tree.specs.Expr.{Item};
ghost use Rattle.moa_tree.specs.ShapeOf.{Shapes};
ghost use Rattle.shape_check.specs.Layout.{words};
ghost use Rattle.shape_check.specs.Statements.{verdict_of};
ghost use Rattle.loop_ir.specs.Running.{State, run_all};
ghost use Rattle.nest_jobs.specs.Leads.{HoldInputs, Leads, nests};
ghost use Rattle.nest_jobs.specs.Plain.{ArePlain};

use crate::laws::{areas_are_laid_out, block_laws, forms_are_buildable};
use moa_tree::stored_values;
use nest_build::laws::nests_give;
use psi_rules::laws::jobs_give;
use shape_check::laws::{lists_are_totals, verdicts_are_shapes};
use shapes_core::laws::gamma_laws;
use stride_form::binding_laws::rules_are_about_bindings;
use stride_form::laws::meaning_is_kept;

/// The nests of a plain accepted program, one after another, leave in the area of each input its
/// list, and in that of each output what the program denotes, whatever the other words and all
/// registers and places held; and all that they read and write is inside the areas.
pub fn programs_lead()
    ensures { (inputs : Lists) (items : List Item) (shapes : Shapes) (state : State)
        → verdict_of items ≡ Ok shapes → AllByRecursion IsBuiltItem items → ArePlain items
        → length state.words ≡ words items → HoldInputs inputs items state.words
        → Leads inputs items state (run_all (nests items) state) }
{
    block_laws();
    areas_are_laid_out();
    forms_are_buildable();
    stored_values();
    nests_give();
    jobs_give();
    lists_are_totals();
    verdicts_are_shapes();
    gamma_laws();
    meaning_is_kept();
    rules_are_about_bindings();
}
