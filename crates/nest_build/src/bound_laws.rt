// What the nests of forms cost, name, set and write, as clauses of functions that do nothing.
ghost use Rattle.std.specs.Prelude.{◌≡◌, ◌+◌, ◌*◌, ◌<◌, ◌≤◌, ℕ, List, true};
ghost use Rattle.std.specs.List.{AllByRecursion};
ghost use Rattle.shapes_core.specs.Limits.{most_words};
ghost use Rattle.shapes_core.specs.declared.area.Area.{Area};
ghost use Rattle.stride_form.specs.Operational.{Operational};
ghost use Rattle.loop_ir.specs.Costs.{Prices, cost, time};
ghost use Rattle.loop_ir.specs.Fitting.{Fits64, SetsFit};
ghost use Rattle.loop_ir.specs.Kept.{EachNamed};
ghost use Rattle.loop_ir.specs.Needed.{Keys};
ghost use Rattle.loop_ir.specs.Running.{Pointer, Register, State, run};
ghost use Rattle.nest_build.specs.Bounds.{AddsOwn, AreLow, places_in, terms};
ghost use Rattle.nest_build.specs.Gives.{AreLaidOut, IsBuildable};
ghost use Rattle.nest_build.specs.Nests.{nest_of};
ghost use Rattle.nest_build.specs.Parts.{literals};

use loop_ir::laws::lists_join;
use shapes_core::laws::gamma_laws;
use stride_form::laws::places_are_offsets;

/// A nest of a straight form costs less than 240 for each term and two more, and takes less than 1024
/// steps for each term and one more at each index vector of its region and one more, where the
/// areas lie in at most `MOST_WORDS` words.
pub fn nests_cost_little()
    ensures lines { (prices : Prices) (areas : List Area) (words own : ℕ) (shape : List ℕ)
        (region : List (ℕ × ℕ)) (form : Operational)
        → AreLow prices → AreLaidOut areas words → words ≤ most_words
        → IsBuildable areas own shape region form
        → 1 + cost prices (nest_of areas own shape region form) ≤ 240 * (2 + terms form) }
    ensures steps { (prices : Prices) (areas : List Area) (words own : ℕ) (shape : List ℕ)
        (region : List (ℕ × ℕ)) (form : Operational)
        → AreLow prices → AreLaidOut areas words → words ≤ most_words
        → IsBuildable areas own shape region form
        → 1 + time prices (nest_of areas own shape region form)
        ≤ 1024 * ((1 + places_in region) * (1 + terms form)) }
{
    gamma_laws();
    lists_join();
    places_are_offsets();
}

/// It names registers from 0 on, and places behind them: registers below 6 and one for each term,
/// and places below 7 and two for each term.
pub fn nests_name_few()
    ensures { (keys : Keys) (areas : List Area) (own : ℕ) (shape : List ℕ)
        (region : List (ℕ × ℕ)) (form : Operational)
        → IsBuildable areas own shape region form
        → ((number : ℕ) → number < 6 + terms form → keys (Register number) ≡ true)
        → ((number : ℕ) → number < 7 + 2 * terms form → keys (Pointer number) ≡ true)
        → EachNamed (λ key. keys key ≡ true) (nest_of areas own shape region form) }
{}

/// Registers are set to numbers that fit 64 signed bits, where the form's literals do.
pub fn nests_set_what_fits()
    ensures { (areas : List Area) (own : ℕ) (shape : List ℕ) (region : List (ℕ × ℕ))
        (form : Operational) → IsBuildable areas own shape region form
        → AllByRecursion Fits64 (literals form) → SetsFit (nest_of areas own shape region form) }
{}

/// It writes the job's own area alone.
pub fn nests_write_their_own()
    ensures { (areas : List Area) (own : ℕ) (shape : List ℕ) (region : List (ℕ × ℕ))
        (form : Operational) (state : State)
        → AddsOwn own state.trace (run (nest_of areas own shape region form) state).trace }
{}
