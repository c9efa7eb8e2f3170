// How many lines nests have and how many steps they make, as clauses of functions that do nothing.
ghost use Rattle.loop_ir.specs.Costs.{cost, time};
ghost use Rattle.loop_ir.specs.Steps.{Steps};
ghost use Rattle.register_map.specs.Homes.{Given};
ghost use Rattle.rv_emit.specs.Emitting.{Plan, emitted, owed_after, program};
ghost use Rattle.rv_emit.specs.Moving.{settle_lines};
ghost use Rattle.rv_emit.specs.Pricing.{prices_of, total_cost, total_time};
ghost use Rattle.rv_emit.specs.Programs.{HaveHomes};
ghost use Rattle.rv_emit.specs.Showing.{HomesLie};
ghost use Rattle.rv_emit.specs.Simulating.{AreHomed};
ghost use Rattle.rv_emit.specs.Walks.{Owed};
ghost use Rattle.std.specs.Prelude.{List, length, ℕ, ◌+◌, ◌≤◌};

/// The lines of steps and those that bring what is owed behind them are at most the cost and those
/// that brought what was owed before. The same holds of the steps that they make, and the time.
pub fn steps_cost()
    ensures lines { (plan : Plan) (owed : Owed) (steps : Steps) (at : ℕ) → plan.spill ≤ 8192
        → HaveHomes plan.homes steps → HomesLie plan
        → length (emitted plan owed steps at).lines
        + length (settle_lines (owed_after plan owed steps))
        ≤ cost (prices_of plan.homes) steps + length (settle_lines owed) }
    ensures steps { (plan : Plan) (owed : Owed) (steps : Steps) (at : ℕ) → plan.spill ≤ 8192
        → HaveHomes plan.homes steps → HomesLie plan
        → (emitted plan owed steps at).steps + length (settle_lines (owed_after plan owed steps))
        ≤ time (prices_of plan.homes) steps + length (settle_lines owed) }
{}

/// A program has at most as many lines as its nests cost, and makes at most as many steps as they
/// take time.
pub fn programs_cost()
    ensures lines { (nests : List (Steps × Given)) (spill : ℕ) → AreHomed spill nests → spill ≤ 8192
        → length (program spill nests 0).lines ≤ total_cost nests }
    ensures steps { (nests : List (Steps × Given)) (spill : ℕ) → AreHomed spill nests → spill ≤ 8192
        → (program spill nests 0).steps ≤ total_time nests }
{}
