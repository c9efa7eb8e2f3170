// What the nests of forms keep and need, as clauses of functions that do nothing.
ghost use Rattle.std.specs.Prelude.{◌≡◌, ℕ, List, true, false};
ghost use Rattle.shapes_core.specs.declared.area.Area.{Area};
ghost use Rattle.shapes_core.specs.Shape.{IsShape};
ghost use Rattle.normal_form.specs.Kept.{IsBox};
ghost use Rattle.stride_form.specs.Operational.{Operational};
ghost use Rattle.loop_ir.specs.Kept.{KeepsCounters};
ghost use Rattle.loop_ir.specs.Needed.{needed, none};
ghost use Rattle.loop_ir.specs.Running.{Key};
ghost use Rattle.nest_build.specs.Nests.{nest_of};
ghost use Rattle.nest_build.specs.Parts.{is_straight};

use loop_ir::laws::lists_join;

/// The nest of a straight form may be started with anything in every register and place.
pub fn nests_need_nothing()
    ensures { (areas : List Area) (own : ℕ) (shape : List ℕ) (region : List (ℕ × ℕ)) (form : Operational) (key : Key)
        → is_straight form ≡ true → needed (nest_of areas own shape region form) none key ≡ false }
{
    lists_join();
}

/// No step of a nest sets the counter of a loop around it, and loops turn less than 2^63 times.
pub fn nests_keep_counters()
    ensures { (areas : List Area) (own : ℕ) (shape : List ℕ) (region : List (ℕ × ℕ)) (form : Operational) → IsShape shape → IsBox region shape
        → KeepsCounters (nest_of areas own shape region form) }
{
    lists_join();
}
