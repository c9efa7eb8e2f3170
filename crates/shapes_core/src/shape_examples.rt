// Shapes, names and offsets that are worked out from the definitions: no body runs.
ghost use Rattle.std.specs.Prelude.{◌≡◌, true, false, [], ◌∷◌, codes, map, replicate};
ghost use Rattle.shapes_core.specs.Limits.{greatest_extent, most_axes};
ghost use Rattle.shapes_core.specs.Gamma.{IsIndex, digit, digits, gamma, rows, ungamma, weight};
ghost use Rattle.shapes_core.specs.Name.{is_name};
ghost use Rattle.shapes_core.specs.Shape.{is_shape, same_tail, span, total};

/// Names, and words that are none.
pub fn names()
    ensures some { map (λ word. is_name (codes word)) ("A" ∷ "z9" ∷ "Z_a0" ∷ []) ≡ true ∷ true ∷ true ∷ [] }
    ensures none { map (λ word. is_name (codes word)) ("" ∷ "_a" ∷ "2a" ∷ "a-b" ∷ "[" ∷ "a:" ∷ []) ≡ replicate 6 false }
    ensures longest { is_name (replicate 64 97) ≡ true }
    ensures longer { is_name (replicate 65 97) ≡ false }
{}

/// Shapes at their limits.
pub fn limits()
    ensures totals { map total ([] ∷ (2 ∷ 3 ∷ 4 ∷ []) ∷ (4 ∷ 0 ∷ 5 ∷ []) ∷ []) ≡ 1 ∷ 24 ∷ 0 ∷ [] }
    ensures spans { map span ([] ∷ (2 ∷ 3 ∷ 4 ∷ []) ∷ (4 ∷ 0 ∷ 5 ∷ []) ∷ []) ≡ 1 ∷ 24 ∷ 20 ∷ [] }
    ensures most { greatest_extent ∷ most_axes ∷ [] ≡ 16777216 ∷ 6 ∷ [] }
    ensures shapes { map is_shape ([] ∷ (1 ∷ 2 ∷ 3 ∷ 4 ∷ 5 ∷ 6 ∷ []) ∷ (16777216 ∷ []) ∷ (4096 ∷ 4096 ∷ []) ∷ [])
        ≡ replicate 4 true }
    ensures no_shapes { map is_shape (replicate 7 1 ∷ (16777217 ∷ []) ∷ (4097 ∷ 4096 ∷ []) ∷ (4097 ∷ 0 ∷ 4096 ∷ []) ∷ [])
        ≡ replicate 4 false }
{}

/// The last axis goes fastest.
pub fn offsets()
    ensures gammas { map (λ index. gamma index (2 ∷ 3 ∷ 4 ∷ [])) ((0 ∷ 0 ∷ 1 ∷ []) ∷ (0 ∷ 1 ∷ 0 ∷ []) ∷ (1 ∷ 0 ∷ 2 ∷ []) ∷ (1 ∷ 2 ∷ 3 ∷ []) ∷ [])
        ≡ 1 ∷ 4 ∷ 14 ∷ 23 ∷ [] }
    ensures ungammas { map (ungamma (2 ∷ 3 ∷ 4 ∷ [])) (1 ∷ 4 ∷ 14 ∷ 23 ∷ [])
        ≡ (0 ∷ 0 ∷ 1 ∷ []) ∷ (0 ∷ 1 ∷ 0 ∷ []) ∷ (1 ∷ 0 ∷ 2 ∷ []) ∷ (1 ∷ 2 ∷ 3 ∷ []) ∷ [] }
    ensures matrix { rows (2 ∷ 3 ∷ [])
        ≡ (0 ∷ 0 ∷ []) ∷ (0 ∷ 1 ∷ []) ∷ (0 ∷ 2 ∷ []) ∷ (1 ∷ 0 ∷ []) ∷ (1 ∷ 1 ∷ []) ∷ (1 ∷ 2 ∷ []) ∷ [] }
    ensures scalar { rows [] ≡ [] ∷ [] }
    ensures nothing { rows (2 ∷ 0 ∷ []) ≡ [] }
    ensures scalar_at_0 { gamma [] [] ≡ 0 }
    ensures no_axis { gamma (1 ∷ []) [] ≡ 0 }
    ensures last { IsIndex (1 ∷ 2 ∷ []) (2 ∷ 3 ∷ []) }
    ensures beyond { IsIndex (1 ∷ 3 ∷ []) (2 ∷ 3 ∷ []) → ⊥ }
    ensures too_few_axes { IsIndex (1 ∷ []) (2 ∷ 3 ∷ []) → ⊥ }
{}

/// Each digit is found by itself. An extent 0 counts as 1 in a weight, and the digits begin again after the total.
pub fn weights_and_digits()
    ensures weights { map (weight (2 ∷ 3 ∷ 4 ∷ [])) (0 ∷ 1 ∷ 2 ∷ []) ≡ 12 ∷ 4 ∷ 1 ∷ [] }
    ensures no_rows { map (weight (2 ∷ 0 ∷ 4 ∷ [])) (0 ∷ 1 ∷ 2 ∷ []) ≡ 4 ∷ 4 ∷ 1 ∷ [] }
    ensures no_columns { map (weight (2 ∷ 3 ∷ 0 ∷ [])) (0 ∷ 1 ∷ 2 ∷ []) ≡ 3 ∷ 1 ∷ 1 ∷ [] }
    ensures of_14 { digit 14 12 2 ∷ digit 14 4 3 ∷ digit 14 1 4 ∷ [] ≡ 1 ∷ 0 ∷ 2 ∷ [] }
    ensures all { map (digits (2 ∷ 3 ∷ 4 ∷ [])) (1 ∷ 4 ∷ 14 ∷ 23 ∷ [])
        ≡ (0 ∷ 0 ∷ 1 ∷ []) ∷ (0 ∷ 1 ∷ 0 ∷ []) ∷ (1 ∷ 0 ∷ 2 ∷ []) ∷ (1 ∷ 2 ∷ 3 ∷ []) ∷ [] }
    ensures again { digits (2 ∷ 3 ∷ 4 ∷ []) 38 ≡ 1 ∷ 0 ∷ 2 ∷ [] }
    ensures scalar { digits [] 0 ≡ [] }
{}

/// Extents after the first: any first extents, in order, and as many on both sides.
pub fn tails()
    ensures same { map (same_tail (2 ∷ 3 ∷ 4 ∷ [])) ((2 ∷ 3 ∷ 4 ∷ []) ∷ (7 ∷ 3 ∷ 4 ∷ []) ∷ []) ≡ true ∷ true ∷ [] }
    ensures vectors { same_tail (2 ∷ []) (0 ∷ []) ≡ true }
    ensures other { map (same_tail (2 ∷ 3 ∷ 4 ∷ [])) ((2 ∷ 4 ∷ 3 ∷ []) ∷ (2 ∷ 3 ∷ 5 ∷ []) ∷ (2 ∷ 3 ∷ []) ∷ (2 ∷ 3 ∷ 4 ∷ 1 ∷ []) ∷ (2 ∷ []) ∷ [])
        ≡ replicate 5 false }
{}
