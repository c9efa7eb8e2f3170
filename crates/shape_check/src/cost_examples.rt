// Jobs, layouts and costs that are worked out from the definitions: no body runs.
ghost use Rattle.std.specs.Prelude.{◌≡◌, [], ◌∷◌, None, Some, codes, map};
ghost use Rattle.shapes_core.specs.declared.area.AreaKind.TheVariants as area;
ghost use Rattle.moa_tree.specs.declared.operator.Op.TheVariants as op;
ghost use Rattle.shape_check.specs.Examples.{costs, statements};
ghost use Rattle.shape_check.specs.Jobs.{jobs};
ghost use Rattle.shape_check.specs.Layout.{areas, node_shapes};

/// Size, work and words.
pub fn cost_examples()
    ensures two_vectors { costs "in A 3 in B 3 out C = add A B" ≡ (5, 16, 9) }
    ensures matrix_product { costs "in A 2 2 in B 2 2 out C = inner add mul A B" ≡ (5, 50, 12) }
    ensures oblong_product { costs "in A 2 3 in B 3 4 out C = inner add mul A B" ≡ (5, 126, 26) }
    ensures empty_folds { costs "in A 0 3 in B 0 out C = reduce add A out D = reduce min B" ≡ (8, 12, 4) }
    ensures reduction { costs "in A 5 2 out C = reduce add neg A" ≡ (5, 51, 12) }
    ensures scan_used_twice { costs "in A 4 let P = scan add A out C = add P P" ≡ (9, 35, 12) }
    ensures unused_scan { costs "in A 4 let P = scan add A out C = 1" ≡ (7, 19, 9) }
    ensures scan_in_a_scan { costs "in A 4 out C = scan add neg scan mul A" ≡ (12, 45, 16) }
    ensures differences { costs "in X 6 out D = sub (drop <1> X) (drop <-1> X)" ≡ (7, 36, 11) }
    ensures used_twice { costs "in A 3 let b = add A 1 out C = mul b b" ≡ (9, 32, 6) }
    ensures output_used { costs "in A 3 out B = add A 1 out C = mul B B" ≡ (10, 32, 9) }
    ensures longest_iota { costs "out C = iota 16777216" ≡ (3, 33554434, 16777216) }
{}

/// The scans of a statement come before its output, the last in the text first; each has the area of its place in the text.
pub fn job_examples()
    ensures order { map (λ j. j.job) (jobs (statements "in A 4 let P = add scan add A scan mul scan max A out C = scan min P in B 2 out D = B"))
        ≡ record { area = 6; node = 5; fold = Some op.Max } ∷ record { area = 5; node = 4; fold = Some op.Mul }
        ∷ record { area = 4; node = 2; fold = Some op.Add } ∷ record { area = 7; node = 7; fold = Some op.Min }
        ∷ record { area = 2; node = 6; fold = None } ∷ record { area = 3; node = 8; fold = None } ∷ [] }
{}

/// The inputs come first, then the outputs, then the scans, each in the order of declaration.
pub fn layout_examples()
    ensures areas { areas (statements "in A 2 3 let P = scan add A out C = transpose P in B 4 out D = scan mul (scan add B) out E = C")
        ≡ record { kind = area.In (codes "A"); shape = 2 ∷ 3 ∷ []; start = 0 }
        ∷ record { kind = area.In (codes "B"); shape = 4 ∷ []; start = 6 }
        ∷ record { kind = area.Out (codes "C"); shape = 3 ∷ 2 ∷ []; start = 10 }
        ∷ record { kind = area.Out (codes "D"); shape = 4 ∷ []; start = 16 }
        ∷ record { kind = area.Out (codes "E"); shape = 3 ∷ 2 ∷ []; start = 20 }
        ∷ record { kind = area.Scan 0; shape = 2 ∷ 3 ∷ []; start = 26 }
        ∷ record { kind = area.Scan 1; shape = 4 ∷ []; start = 32 }
        ∷ record { kind = area.Scan 2; shape = 4 ∷ []; start = 36 } ∷ [] }
    ensures nodes { node_shapes (statements "in A 2 3 let P = transpose A out C = add 1 psi <0> P")
        ≡ (3 ∷ 2 ∷ []) ∷ (2 ∷ 3 ∷ []) ∷ (2 ∷ []) ∷ [] ∷ (2 ∷ []) ∷ (3 ∷ 2 ∷ []) ∷ [] }
{}
