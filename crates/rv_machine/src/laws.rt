// The law of budgets. The function does nothing: its clauses are the law.
ghost use Rattle.std.specs.Prelude.{List, ℕ, ◌≡◌, ◌+◌};
ghost use Rattle.rv_line.specs.declared.line.Line.{Line};
ghost use Rattle.rv_steps.specs.Machine.{Config};
ghost use Rattle.rv_steps.specs.Stops.{Budget, End, Stops, run};
ghost use Rattle.rv_machine.specs.Budgets.{end_after};

use rv_steps::machine_laws;

/// A run whose budget is spent goes on, with another, as one run with both.
pub fn budgets_add()
    ensures stops { (lines : List Line) (base m n : ℕ) (c d e : Config) (end : End) → Stops lines base m c Budget d
        → Stops lines base n d end e → Stops lines base (m + n) c (end_after m end) e }
    ensures computed { (lines : List Line) (base m n : ℕ) (c d : Config) → Stops lines base m c Budget d
        → run lines base (m + n) c ≡ record { end = end_after m (run lines base n d).end; last = (run lines base n d).last } }
{
    machine_laws::chains_compose();
    machine_laws::runs_stop();
}
