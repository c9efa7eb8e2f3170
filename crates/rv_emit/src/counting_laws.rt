// Laws of counters that count down, as clauses of functions that do nothing.
ghost use Rattle.loop_ir.specs.Fitting.{HoldsFit, SetsFit};
ghost use Rattle.loop_ir.specs.Kept.{KeepsCounters, may_set};
ghost use Rattle.loop_ir.specs.Needed.{AreAlike, Keys};
ghost use Rattle.loop_ir.specs.Running.{Access, Key, State, run};
ghost use Rattle.loop_ir.specs.Steps.{Steps};
ghost use Rattle.rv_emit.specs.Counting.{reads_of, run_counting};
ghost use Rattle.std.specs.Prelude.{List, false, length, not, true, ◌++◌, ◌≡◌};

use loop_ir::laws::{needed_decides, others_stay, traces_grow, values_fit};

/// Where nothing reads the counters that count down, steps do what they do where all count up,
/// but for these counters.
pub fn unread_counters_may_count_down()
    ensures { (down : Keys) (steps : Steps) (first second : State)
        → ((key : Key) → reads_of steps key ≡ true → down key ≡ false)
        → AreAlike (λ key. not (down key)) first second
        → AreAlike (λ key. not (down key)) (run steps first) (run_counting down steps second) }
{
    needed_decides();
    others_stay();
    values_fit();
    traces_grow();
}

/// Steps leave alone what they may not set, keep numbers that fit 64 signed bits and as many words,
/// and a trace only grows.
pub fn counting_runs_keep()
    ensures others { (down : Keys) (steps : Steps) (key : Key) (state : State)
        → may_set steps key ≡ false
        → (run_counting down steps state).held key ≡ state.held key }
    ensures fit { (down : Keys) (steps : Steps) (state : State) → KeepsCounters steps
        → SetsFit steps → HoldsFit state
        → HoldsFit (run_counting down steps state) }
    ensures words { (down : Keys) (steps : Steps) (state : State)
        → length (run_counting down steps state).words ≡ length state.words }
    ensures grow { (down : Keys) (steps : Steps) (state : State)
        → (more : List Access) × ((run_counting down steps state).trace ≡ more ++ state.trace) }
{
    needed_decides();
    others_stay();
    values_fit();
    traces_grow();
}
