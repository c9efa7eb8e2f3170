// Laws of what nests do and need, as clauses of functions that do nothing.
ghost use Rattle.std.specs.Prelude.{◌≡◌, ◌+◌, ◌++◌, ◌<◌, ℕ, ℤ, List, Some, length, slice_get, true, false};
ghost use Rattle.std.specs.List.{AllByRecursion, flat_map, list_all};
ghost use Rattle.shapes_core.specs.declared.area.Area.{Area};
ghost use Rattle.loop_ir.specs.Costs.{Prices, cost, time};
ghost use Rattle.loop_ir.specs.Fitting.{HoldsFit, SetsFit};
ghost use Rattle.loop_ir.specs.Inside.{IsDefined, IsInside, IsWordOf, allows, has_word};
ghost use Rattle.loop_ir.specs.declared.step.Step.{Step};
ghost use Rattle.loop_ir.specs.Kept.{EachNamed, IsNest, KeepsCounters, may_set};
ghost use Rattle.loop_ir.specs.Needed.{AreAlike, Keys, needed};
ghost use Rattle.loop_ir.specs.Pool.{inner_lists, steps_of, tree_at, trees_from};
ghost use Rattle.loop_ir.specs.Running.{Access, Key, State, run};
ghost use Rattle.loop_ir.specs.Steps.{Steps, joined};

/// One list behind another does the one and then the other, costs what both cost, and needs what the first needs where what
/// the second needs is needed behind it.
pub fn lists_join()
    ensures runs { (first second : Steps) (state : State) → run (joined first second) state ≡ run second (run first state) }
    ensures needs { (first second : Steps) (after : Keys) (key : Key)
        → needed (joined first second) after key ≡ needed first (needed second after) key }
    ensures costs { (prices : Prices) (first second : Steps) → cost prices (joined first second) ≡ cost prices first + cost prices second }
    ensures times { (prices : Prices) (first second : Steps) → time prices (joined first second) ≡ time prices first + time prices second }
    ensures counters { (first second : Steps) → KeepsCounters first → KeepsCounters second → KeepsCounters (joined first second) }
    ensures named { (keys : Keys) (first second : Steps) → EachNamed (λ key. keys key ≡ true) first → EachNamed (λ key. keys key ≡ true) second
        → EachNamed (λ key. keys key ≡ true) (joined first second) }
{}

/// A trace only grows: what is inside at the end was inside at each point.
pub fn traces_grow()
    ensures grow { (steps : Steps) (state : State) → (more : List Access) × ((run steps state).trace ≡ more ++ state.trace) }
    ensures defined { (areas : List Area) (steps : Steps) (state : State) → IsDefined areas (run steps state) → IsDefined areas state }
{}

/// The tests of areas show what is inside: a word that passes is of its area, and a trace each of whose accesses passes is inside.
pub fn tests_show_what_is_inside()
    ensures word { (areas : List Area) (number : ℕ) (word : ℤ) → has_word areas number word ≡ true → IsWordOf areas number word }
    ensures trace { (areas : List Area) (trace : List Access) → list_all (allows areas) trace ≡ true
        → AllByRecursion (IsInside areas) trace }
{}

/// What is needed decides: steps lead from states that are alike in what is needed before them to states that are alike in
/// what is needed after them.
pub fn needed_decides()
    ensures { (steps : Steps) (after : Keys) (first second : State) → AreAlike (needed steps after) first second
        → AreAlike after (run steps first) (run steps second) }
{}

/// What is needed before steps is named by them, or needed after them.
pub fn needed_is_named()
    ensures { (keys : Keys) (steps : Steps) (after : Keys) → EachNamed (λ key. keys key ≡ true) steps
        → ((key : Key) → after key ≡ true → keys key ≡ true) → (key : Key) → needed steps after key ≡ true → keys key ≡ true }
{}

/// Steps leave alone the registers and places that they may not set.
pub fn others_stay()
    ensures { (steps : Steps) (key : Key) (state : State) → may_set steps key ≡ false → (run steps state).held key ≡ state.held key }
{}

/// Registers and words fit 64 signed bits after steps where they do before them, where each number that is set does, and where
/// each loop turns less than 2^63 times and keeps its counter.
pub fn values_fit()
    ensures { (steps : Steps) (state : State) → KeepsCounters steps → SetsFit steps → HoldsFit state → HoldsFit (run steps state) }
{
    moa_tree::values_fit();
}

/// In a nest the tree of a list is that of its steps over the trees of the lists that they name, which have greater numbers.
pub fn lists_in_order()
    ensures trees { (lists : List (List Step)) (number : ℕ) (list : List Step) → IsNest lists → slice_get lists number ≡ Some list
        → tree_at (trees_from 0 lists) number ≡ steps_of (tree_at (trees_from 0 lists)) list }
    ensures greater { (lists : List (List Step)) (number : ℕ) (list : List Step) → IsNest lists → slice_get lists number ≡ Some list
        → AllByRecursion (λ inner. (number < inner) × (inner < length lists)) (flat_map inner_lists list) }
{}
