// Laws of the lines of steps that do no list, as clauses of functions that do nothing.
ghost use Rattle.moa_tree.specs.declared.operator.Op.{Op};
ghost use Rattle.moa_tree.specs.declared.operator.Unary.{Unary};
ghost use Rattle.loop_ir.specs.Steps.{Action, Copy, One, Place, Read, Set, Spot, Two, Walk, Write};
ghost use Rattle.rv_emit.specs.Simulating.{ActionSimulates};
ghost use Rattle.std.specs.Prelude.{ℕ, ℤ};

use crate::machine::machine_is_known;
use crate::moving_laws::{homes_are_fetched, homes_are_put, homes_repay};

/// The lines of a step that sets a register without a place do what it does.
pub fn registers_are_set()
    ensures set { (to : ℕ) (value : ℤ) → ActionSimulates (Set to value) }
    ensures copy { (to from : ℕ) → ActionSimulates (Copy to from) }
    ensures one { (op : Unary) (to from : ℕ) → ActionSimulates (One op to from) }
    ensures two { (op : Op) (to left right : ℕ) → ActionSimulates (Two op to left right) }
{
    machine_is_known();
    homes_are_fetched();
    homes_are_put();
}

/// The lines of a step that sets a place do what it does.
pub fn places_are_set()
    ensures place { (to : ℕ) (word : ℤ) → ActionSimulates (Place to word) }
    ensures spot { (to : ℕ) (word : ℤ) (by : ℕ) → ActionSimulates (Spot to word by) }
    ensures walk { (place : ℕ) (words : ℤ) → ActionSimulates (Walk place words) }
{
    machine_is_known();
    homes_are_fetched();
    homes_are_put();
}

/// The lines of a read and of a write do what they do.
pub fn words_are_moved()
    ensures read { (to area place : ℕ) → ActionSimulates (Read to area place) }
    ensures write { (area place from : ℕ) → ActionSimulates (Write area place from) }
{
    machine_is_known();
    homes_are_fetched();
    homes_are_put();
    homes_repay();
}

/// The lines of a step that does no list do what it does.
pub fn actions_are_simulated()
    ensures { (action : Action) → ActionSimulates action }
{
    registers_are_set();
    places_are_set();
    words_are_moved();
}
