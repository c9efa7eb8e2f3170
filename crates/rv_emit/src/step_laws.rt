// That the lines of nests do what the nests do, as clauses of functions that do nothing.
ghost use Rattle.loop_ir.specs.Fitting.{HoldsFit};
ghost use Rattle.loop_ir.specs.Running.{State};
ghost use Rattle.loop_ir.specs.Steps.{Steps};
ghost use Rattle.register_map.specs.Homes.{Given};
ghost use Rattle.rv_emit.specs.Emitting.{program};
ghost use Rattle.rv_emit.specs.Showing.{AreTouches, HasBlock};
ghost use Rattle.rv_emit.specs.Simulating.{AreReady, Performs, StepsSimulate, are_steady, run_each};
ghost use Rattle.rv_line.specs.declared.line.Line.{Line};
ghost use Rattle.rv_steps.specs.Good.{values_at};
ghost use Rattle.rv_steps.specs.Machine.{Config, address_of, register_at};
ghost use Rattle.shapes_core.specs.Limits.{most_items, most_words};
ghost use Rattle.std.specs.Prelude.{List, length, ℕ, ◌%◌, ◌*◌, ◌+◌, ◌^◌, ◌≡◌, ◌≤◌};

use crate::action_laws::actions_are_simulated;
use crate::counting_laws::{counting_runs_keep, unread_counters_may_count_down};
use crate::form_laws::lines_are_free;
use crate::machine::machine_is_known;
use crate::moving_laws::{debts_are_settled, homes_are_fetched, homes_are_put};
use loop_ir::laws::{needed_decides, others_stay, traces_grow, values_fit};

/// From a configuration that shows what steps need, their lines lead to one that shows what is
/// needed behind them.
pub fn steps_are_simulated()
    ensures { StepsSimulate }
{
    needed_decides();
    others_stay();
    values_fit();
    traces_grow();
    machine_is_known();
    actions_are_simulated();
    debts_are_settled();
    homes_are_fetched();
    homes_are_put();
}

/// From any block that holds the words of a state, the lines of nests end with the words to which
/// the nests lead.
pub fn programs_are_performed()
    ensures { (lines : List Line) (nests : List (Steps × Given)) (base spill : ℕ) (state : State)
        (c : Config)
        → base % 8 ≡ 0 → base + 8 * (spill + length state.words) ≤ 2 ^ 64 → spill ≤ most_words
        → AreReady spill nests → HoldsFit state → HasBlock base spill (length state.words) c
        → values_at c.block spill (length state.words) ≡ state.words
        → lines ≡ (program spill nests 0).lines → length lines ≤ most_items
        → c.pc ≡ address_of 0 → register_at c.registers 1 ≡ address_of (length lines)
        → AreTouches (length state.words) (run_each nests state)
        → Performs lines base spill (program spill nests 0).steps (are_steady nests) state
        (run_each nests state) c }
{
    values_fit();
    traces_grow();
    machine_is_known();
    steps_are_simulated();
    unread_counters_may_count_down();
    counting_runs_keep();
    lines_are_free();
}
