// How a chain of steps goes on with a line. The function does nothing: its clauses are the laws.
ghost use Rattle.std.specs.Prelude.{List, Some, if◌then◌else◌, length, ℕ, ◌==◌, ◌≡◌, ◌+◌, ◌<◌, ◌≤◌};
ghost use Rattle.rv_line.specs.declared.line.Line.{Line};
ghost use Rattle.rv_steps.specs.Machine.{Config, Goes, Halts, IsAt, Stop, line_step};
ghost use Rattle.rv_steps.specs.Stops.{Breaks, Reaches, Stops};
ghost use Rattle.rv_machine.specs.Flows.{IsOff};
ghost use Rattle.rv_machine.specs.Views.{end_of};
ghost use Rattle.rv_machine.specs.declared.machine.End.{End};

use rv_steps::machine_laws;

pub fn chains_go_on()
    ensures start { (lines : List Line) (base : ℕ) (c : Config) → Reaches lines base 0 c c }
    ensures goes { (lines : List Line) (base n k : ℕ) (line : Line) (c d e : Config) → Reaches lines base n c d
        → IsAt lines k line d → line_step base k (Some line) d ≡ Goes e → Reaches lines base (n + 1) c e }
    ensures halts { (lines : List Line) (base budget n k : ℕ) (line : Line) (c d : Config) (stop : Stop)
        → n < budget → Reaches lines base n c d → IsAt lines k line d
        → line_step base k (Some line) d ≡ Halts stop → Breaks lines base budget c stop d }
    ensures off { (lines : List Line) (base budget n : ℕ) (c d : Config) → n ≤ budget → Reaches lines base n c d
        → IsOff (length lines) d.pc → (end : End) → end ≡ (if n == budget then End.Budget else End.OffText d.pc)
        → Stops lines base budget c (end_of end) d }
{
    machine_laws::chains_compose();
    machine_laws::lines_take_steps();
}
