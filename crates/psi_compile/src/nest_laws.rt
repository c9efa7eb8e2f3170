// Laws of the nests of a program that is compiled, as clauses of functions that do nothing.
ghost use Rattle.std.specs.List.{AllByRecursion, zip};
ghost use Rattle.std.specs.Prelude.{◌*◌, ◌^◌, ◌≤◌, ℕ, IsOk, List};
ghost use Rattle.shapes_core.specs.Limits.{greatest_size, greatest_work};
ghost use Rattle.moa_tree.specs.Expr.{Tree};
ghost use Rattle.moa_tree.specs.Readings.{Reads};
ghost use Rattle.nest_jobs.specs.Leads.{nests};
ghost use Rattle.nest_jobs.specs.Plain.{ArePlain};
ghost use Rattle.psi_compile.specs.Assigned.{AreAssigned};
ghost use Rattle.register_map.specs.Fits.{NamesFew};
ghost use Rattle.register_map.specs.Homes.{Given};
ghost use Rattle.rv_emit.specs.Pricing.{total_cost, total_time};
ghost use Rattle.rv_emit.specs.Programs.{most_spill};
ghost use Rattle.rv_emit.specs.Simulating.{AreReady};
ghost use Rattle.shape_check.specs.Costs.{size, work};
ghost use Rattle.shape_check.specs.Statements.{verdict_of};

use moa_tree::reads_again;
use nest_build::bound_laws::{nests_cost_little, nests_name_few, nests_set_what_fits};
use nest_build::shape_laws::{nests_keep_counters, nests_need_nothing};
use nest_jobs::laws::{areas_are_laid_out, forms_are_small};
use nest_jobs::source_laws::{forms_take_from_sources, nests_are_of_forms, outputs_have_size};
use rv_steps::constant_laws::constants_are_short;
use shape_check::laws::verdicts_are_shapes;

/// Nests with homes of their own are ready to be emitted.
pub fn nests_are_ready()
    ensures { (text : List ℕ) (tree : Tree) (homes : List Given)
        → Reads text tree → IsOk (verdict_of tree.statements) → ArePlain tree.statements
        → AreAssigned (nests tree.statements) homes
        → AreReady (most_spill homes) (zip (nests tree.statements) homes) }
{
    forms_take_from_sources();
    nests_are_of_forms();
    nests_keep_counters();
    nests_need_nothing();
    nests_set_what_fits();
    reads_again();
}

/// They keep the bounds of an accepted program: 240 lines and 8 spill words a unit of size, and
/// 1024 steps a unit of work; and they name registers and places by small numbers.
pub fn nests_are_small()
    ensures lines { (text : List ℕ) (tree : Tree) (homes : List Given)
        → Reads text tree → IsOk (verdict_of tree.statements) → ArePlain tree.statements
        → AreAssigned (nests tree.statements) homes
        → total_cost (zip (nests tree.statements) homes) ≤ 240 * size tree.statements }
    ensures spill { (text : List ℕ) (tree : Tree) (homes : List Given)
        → Reads text tree → IsOk (verdict_of tree.statements) → ArePlain tree.statements
        → AreAssigned (nests tree.statements) homes
        → most_spill homes ≤ 8 * size tree.statements }
    ensures steps { (text : List ℕ) (tree : Tree) (homes : List Given)
        → Reads text tree → IsOk (verdict_of tree.statements) → ArePlain tree.statements
        → AreAssigned (nests tree.statements) homes
        → total_time (zip (nests tree.statements) homes) ≤ 1024 * work tree.statements }
    ensures names { (text : List ℕ) (tree : Tree) → Reads text tree
        → IsOk (verdict_of tree.statements) → ArePlain tree.statements
        → AllByRecursion NamesFew (nests tree.statements) }
    ensures size { (text : List ℕ) (tree : Tree) → Reads text tree
        → IsOk (verdict_of tree.statements) → size tree.statements ≤ greatest_size }
    ensures work { (text : List ℕ) (tree : Tree) → Reads text tree
        → IsOk (verdict_of tree.statements) → work tree.statements ≤ greatest_work }
{
    areas_are_laid_out();
    constants_are_short();
    forms_are_small();
    nests_are_of_forms();
    nests_cost_little();
    nests_name_few();
    outputs_have_size();
    reads_again();
    verdicts_are_shapes();
}
