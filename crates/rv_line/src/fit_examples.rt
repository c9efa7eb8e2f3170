// What fits at the edges of its ranges, and what does not beside them.
ghost use Rattle.std.specs.Prelude.{pos, negsuc, ◌^◌, ◌-◌, [], ◌∷◌, codes};
ghost use Rattle.rv_line.specs.FitExamples.{AreLast, IsLast, half_shift_lines, pairs, register_lines, shift_lines, signed_lines, upper_lines};
ghost use Rattle.rv_line.specs.Fits.{AreAreas, Fits, FitsLine};
ghost use Rattle.rv_line.specs.declared.line.Branch.TheVariants.{Bne};
ghost use Rattle.rv_line.specs.declared.line.Line.TheVariants.{Branch as BranchLine, Jal};
ghost use Rattle.shapes_core.specs.declared.area.AreaKind.TheVariants.{In, Out, Scan};

/// The ranges of the fields of an instruction.
pub fn field_examples()
    ensures least_immediate { AreLast signed_lines (negsuc 2047) (negsuc 2048) }
    ensures greatest_immediate { AreLast signed_lines (pos 2047) (pos 2048) }
    ensures least_shift { AreLast shift_lines (pos 0) (negsuc 0) }
    ensures greatest_shift { AreLast shift_lines (pos 63) (pos 64) }
    ensures least_half_shift { AreLast half_shift_lines (pos 0) (negsuc 0) }
    ensures greatest_half_shift { AreLast half_shift_lines (pos 31) (pos 32) }
    ensures greatest_upper { AreLast upper_lines 1048575 1048576 }
    ensures greatest_register { AreLast register_lines 31 32 }
{}

/// How far an instruction may go: 1024 instructions back and 1023 ahead by a branch, 262144 back and 262143 ahead
/// by `jal`.
pub fn target_examples()
    ensures branch_back { IsLast (λ target. FitsLine 9000 4000 (BranchLine Bne 5 6 target)) 2976 2975 }
    ensures branch_ahead { IsLast (λ target. FitsLine 9000 4000 (BranchLine Bne 5 6 target)) 5023 5024 }
    ensures branch_end { IsLast (λ target. FitsLine 4100 4000 (BranchLine Bne 5 6 target)) 4100 4101 }
    ensures jump_back { IsLast (λ target. FitsLine 900000 400000 (Jal 1 target)) 137856 137855 }
    ensures jump_ahead { IsLast (λ target. FitsLine 900000 400000 (Jal 1 target)) 662143 662144 }
    ensures jump_end { IsLast (λ target. FitsLine 410000 400000 (Jal 1 target)) 410000 410001 }
{}

/// The ranges of the numbers of a header.
pub fn header_examples()
    ensures steps { IsLast (λ steps. Fits (record { steps = steps; spill = 0 }) [] []) (2 ^ 63 - 1) (2 ^ 63) }
    ensures spill { IsLast (λ spill. Fits (record { steps = 0; spill = spill }) [] []) 134217728 134217729 }
{}

/// The order of areas, their names and where they start.
pub fn area_examples()
    ensures in_order { AreAreas (pairs (In (codes "A") ∷ In (codes "B") ∷ Out (codes "C") ∷ Out (codes "D") ∷ Scan 0 ∷ Scan 1 ∷ [])) }
    ensures input_behind_output { AreAreas (pairs (Out (codes "A") ∷ In (codes "B") ∷ [])) → ⊥ }
    ensures input_behind_scan { AreAreas (pairs (Scan 0 ∷ In (codes "A") ∷ [])) → ⊥ }
    ensures output_behind_scan { AreAreas (pairs (Scan 0 ∷ Out (codes "A") ∷ [])) → ⊥ }
    ensures scans_from_1 { AreAreas (pairs (Scan 1 ∷ [])) → ⊥ }
    ensures scan_left_out { AreAreas (pairs (Out (codes "A") ∷ Scan 0 ∷ Scan 2 ∷ [])) → ⊥ }
    ensures inputs_of_one_name { AreAreas (pairs (In (codes "A") ∷ In (codes "A") ∷ [])) → ⊥ }
    ensures outputs_of_one_name { AreAreas (pairs (Out (codes "A") ∷ Out (codes "A") ∷ [])) → ⊥ }
    ensures input_and_output_of_one_name { AreAreas (pairs (In (codes "A") ∷ Out (codes "A") ∷ [])) → ⊥ }
    ensures no_name { AreAreas (pairs (In (codes "1A") ∷ [])) → ⊥ }
    ensures no_shape { AreAreas (record { kind = Scan 0; shape = 16777217 ∷ []; start = 0 } ∷ []) → ⊥ }
    ensures first_behind_0 { AreAreas (record { kind = Scan 0; shape = []; start = 1 } ∷ []) → ⊥ }
    ensures gap { AreAreas (record { kind = Scan 0; shape = []; start = 0 } ∷ record { kind = Scan 1; shape = []; start = 2 } ∷ []) → ⊥ }
    ensures overlap { AreAreas (record { kind = Scan 0; shape = []; start = 0 } ∷ record { kind = Scan 1; shape = []; start = 0 } ∷ []) → ⊥ }
{}
