// That the lines of a program's nests serve its caller, as clauses of functions that do nothing.
ghost use Rattle.std.specs.List.{list_all, zip};
ghost use Rattle.std.specs.Prelude.{◌≡◌, ◌≤◌, ℕ, IsOk, IsTrue, List, length};
ghost use Rattle.moa_tree.specs.Expr.{Tree};
ghost use Rattle.moa_tree.specs.Readings.{Reads};
ghost use Rattle.nest_jobs.specs.Leads.{nests};
ghost use Rattle.nest_jobs.specs.Plain.{ArePlain};
ghost use Rattle.psi_compile.specs.Assigned.{AreAssigned};
ghost use Rattle.psi_compile.specs.Compiled.{UsesOnly};
ghost use Rattle.psi_compile.specs.Demands.{denoted};
ghost use Rattle.register_map.specs.Homes.{Given};
ghost use Rattle.rv_emit.specs.Emitting.{program};
ghost use Rattle.rv_emit.specs.Pricing.{is_base_op};
ghost use Rattle.rv_emit.specs.Programs.{most_spill};
ghost use Rattle.rv_emit.specs.Simulating.{is_steady_op};
ghost use Rattle.rv_line.specs.declared.assembly.Header.{Header};
ghost use Rattle.rv_line.specs.declared.line.Line.{Line};
ghost use Rattle.rv_steps.specs.Good.{IsStart, Serves};
ghost use Rattle.rv_steps.specs.Kinds.{is_base};
ghost use Rattle.rv_steps.specs.Machine.{Config};
ghost use Rattle.rv_steps.specs.Stops.{Ends};
ghost use Rattle.shape_check.specs.Layout.{areas};
ghost use Rattle.shape_check.specs.Statements.{verdict_of};

use crate::nest_laws::{nests_are_ready, nests_are_small};
use moa_tree::reads_again;
use nest_build::bound_laws::nests_write_their_own;
use nest_jobs::laws::{areas_are_laid_out, rules_leave_plain_forms};
use nest_jobs::program_laws::programs_lead;
use nest_jobs::source_laws::forms_take_from_sources;
use rv_emit::form_laws::lines_are_base;
use rv_emit::size_laws::programs_cost;
use rv_emit::step_laws::programs_are_performed;
use rv_steps::machine_laws::bytes_are_kept;
use shape_check::laws::verdicts_are_shapes;

/// From any start the lines of a program's nests end within the header's steps with what the
/// program denotes in its outputs, and touch nothing else. Without a minimum and a maximum they make
/// exactly these steps.
pub fn programs_serve()
    ensures serves { (text : List ℕ) (tree : Tree) (homes : List Given) (header : Header)
        (lines : List Line) (base : ℕ) (c : Config)
        → Reads text tree → IsOk (verdict_of tree.statements) → ArePlain tree.statements
        → AreAssigned (nests tree.statements) homes → header.spill ≡ most_spill homes
        → header.steps ≡ (program header.spill (zip (nests tree.statements) homes) 0).steps
        → lines ≡ (program header.spill (zip (nests tree.statements) homes) 0).lines
        → IsStart header (areas tree.statements) lines base c
        → Serves header (areas tree.statements) lines (denoted tree) base c }
    ensures exact { (text : List ℕ) (tree : Tree) (homes : List Given) (header : Header)
        (lines : List Line) (base : ℕ) (c : Config)
        → Reads text tree → IsOk (verdict_of tree.statements) → ArePlain tree.statements
        → AreAssigned (nests tree.statements) homes → header.spill ≡ most_spill homes
        → header.steps ≡ (program header.spill (zip (nests tree.statements) homes) 0).steps
        → lines ≡ (program header.spill (zip (nests tree.statements) homes) 0).lines
        → UsesOnly is_steady_op tree → IsStart header (areas tree.statements) lines base c
        → (last : Config) × Ends lines base header.steps c last }
    ensures base { (tree : Tree) (homes : List Given) (spill : ℕ) → ArePlain tree.statements
        → UsesOnly is_base_op tree
        → IsTrue (list_all is_base (program spill (zip (nests tree.statements) homes) 0).lines) }
{
    areas_are_laid_out();
    bytes_are_kept();
    forms_take_from_sources();
    lines_are_base();
    nests_are_ready();
    nests_are_small();
    nests_write_their_own();
    programs_are_performed();
    programs_cost();
    programs_lead();
    reads_again();
    rules_leave_plain_forms();
    verdicts_are_shapes();
}
