// Layouts of blocks, and near misses, worked out from the definition: no body runs.
ghost use Rattle.std.specs.Prelude.{◌≡◌, ◌+◌, [], ◌∷◌, codes};
ghost use Rattle.shapes_core.specs.declared.area.AreaKind.TheVariants as area;
ghost use Rattle.shape_check.specs.Blocks.{ArePacked, IsLayout, words_of};

/// Inputs, outputs and scans, one behind the other from 0 on; no word may be left out or be in two areas.
pub fn packed_areas()
    ensures one_behind_the_other { ArePacked 0 (record { kind = area.In (codes "A"); shape = 3 ∷ []; start = 0 }
        ∷ record { kind = area.Out (codes "C"); shape = 2 ∷ 2 ∷ []; start = 3 }
        ∷ record { kind = area.Scan 0; shape = []; start = 7 } ∷ []) }
    ensures first_one_late { ArePacked 0 (record { kind = area.In (codes "A"); shape = 3 ∷ []; start = 1 } ∷ []) → ⊥ }
    ensures next_one_late { ArePacked 0 (record { kind = area.In (codes "A"); shape = 3 ∷ []; start = 0 }
        ∷ record { kind = area.Out (codes "C"); shape = 3 ∷ []; start = 4 } ∷ []) → ⊥ }
    ensures next_one_early { ArePacked 0 (record { kind = area.In (codes "A"); shape = 3 ∷ []; start = 0 }
        ∷ record { kind = area.Out (codes "C"); shape = 3 ∷ []; start = 2 } ∷ []) → ⊥ }
    ensures words { words_of (record { kind = area.In (codes "A"); shape = 3 ∷ []; start = 0 }
        ∷ record { kind = area.Out (codes "C"); shape = 2 ∷ 2 ∷ []; start = 3 } ∷ []) ≡ 7 }
{}

/// A layout, and areas that are none: a start is one late, a name stands twice, a number of a scan is skipped, an output
/// stands before an input, a scan before an output, and there is a word too many.
pub fn layouts()
    ensures layout { IsLayout (record { kind = area.In (codes "A"); shape = 3 ∷ []; start = 0 }
        ∷ record { kind = area.Out (codes "C"); shape = 3 ∷ []; start = 3 }
        ∷ record { kind = area.Scan 0; shape = 3 ∷ []; start = 6 } ∷ []) }
    ensures nothing { IsLayout [] }
    ensures late { IsLayout (record { kind = area.In (codes "A"); shape = 3 ∷ []; start = 1 } ∷ []) → ⊥ }
    ensures twice { IsLayout (record { kind = area.In (codes "A"); shape = 3 ∷ []; start = 0 }
        ∷ record { kind = area.Out (codes "A"); shape = 3 ∷ []; start = 3 } ∷ []) → ⊥ }
    ensures skipped { IsLayout (record { kind = area.Scan 1; shape = 3 ∷ []; start = 0 } ∷ []) → ⊥ }
    ensures output_first { IsLayout (record { kind = area.Out (codes "C"); shape = 3 ∷ []; start = 0 }
        ∷ record { kind = area.In (codes "A"); shape = 3 ∷ []; start = 3 } ∷ []) → ⊥ }
    ensures scan_first { IsLayout (record { kind = area.Scan 0; shape = 3 ∷ []; start = 0 }
        ∷ record { kind = area.Out (codes "C"); shape = 3 ∷ []; start = 3 } ∷ []) → ⊥ }
    ensures word_too_many { IsLayout (record { kind = area.In (codes "A"); shape = 134217729 ∷ []; start = 0 } ∷ []) → ⊥ }
{}
