// What a checked program keeps, tried on the small pools, whose program is `in A 2` and `out C = take <1> A`: no body runs.
ghost use Rattle.std.specs.Prelude.{◌≡◌, [], ◌∷◌};
ghost use Rattle.shape_check.specs.Kept.{Checking, IsChecked};
ghost use Rattle.shape_check.specs.KeptExamples.{small_checked};

/// Each part is the one of the definitions: one more or less is none.
pub fn parts_are_kept()
    ensures kept { IsChecked small_checked }
    ensures size { IsChecked (record small_checked { size = 3 }) → ⊥ }
    ensures work { IsChecked (record small_checked { work = 5 }) → ⊥ }
    ensures shapes { IsChecked (record small_checked { shapes = (2 ∷ []) ∷ (2 ∷ []) ∷ [] }) → ⊥ }
    ensures each { IsChecked (record small_checked { shapes = (2 ∷ []) ∷ (1 ∷ []) ∷ [] ∷ [] }) → ⊥ }
    ensures statements { IsChecked (record small_checked { statement_shapes = (2 ∷ []) ∷ [] }) → ⊥ }
    ensures jobs { IsChecked (record small_checked { jobs = [] }) → ⊥ }
    ensures areas { IsChecked (record small_checked { areas = [] }) → ⊥ }
{}
