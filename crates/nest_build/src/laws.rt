// What the nests of forms do, as clauses of functions that do nothing.
ghost use Rattle.std.specs.Prelude.{ℕ, List, length};
ghost use Rattle.shapes_core.specs.declared.area.Area.{Area};
ghost use Rattle.stride_form.specs.Operational.{Operational};
ghost use Rattle.loop_ir.specs.Running.{State, run};
ghost use Rattle.nest_build.specs.Gives.{AddsInside, AreLaidOut, Gives, IsBuildable};
ghost use Rattle.nest_build.specs.Nests.{nest_of};

use loop_ir::laws::lists_join;
use shapes_core::laws::gamma_laws;
use stride_form::laws::places_are_offsets;

/// From any state over areas that are laid out in its words, the nest of a straight form gives the job's values on its
/// region, changes no other word, and stays inside the areas.
pub fn nests_give()
    ensures gives { (areas : List Area) (own : ℕ) (shape : List ℕ) (region : List (ℕ × ℕ)) (form : Operational) (state : State)
        → AreLaidOut areas (length state.words) → IsBuildable areas own shape region form
        → Gives areas own shape region form state.words (run (nest_of areas own shape region form) state).words }
    ensures inside { (areas : List Area) (own : ℕ) (shape : List ℕ) (region : List (ℕ × ℕ)) (form : Operational) (state : State)
        → AreLaidOut areas (length state.words) → IsBuildable areas own shape region form
        → AddsInside areas state.trace (run (nest_of areas own shape region form) state).trace }
{
    gamma_laws();
    lists_join();
    places_are_offsets();
}
