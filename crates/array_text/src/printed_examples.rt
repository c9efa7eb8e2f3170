// Printed forms, worked out from the definition: no body runs.
ghost use Rattle.std.specs.Prelude.{◌≡◌, [], ◌∷◌, codes, pos, negsuc};
ghost use Rattle.array_text.specs.Examples.{a_matrix, a_scalar, a_vector, an_empty};
ghost use Rattle.array_text.specs.Printed.{printed};

/// The rows of the last axis, each on its line.
pub fn printed_forms()
    ensures vector { printed a_vector (pos 7 ∷ negsuc 7 ∷ []) ≡ codes "array A 2\n7 -8\n" }
    ensures scalar { printed a_scalar (pos 0 ∷ []) ≡ codes "array B\n0\n" }
    ensures matrix { printed a_matrix (pos 1 ∷ pos 2 ∷ pos 3 ∷ pos 4 ∷ pos 5 ∷ pos 6 ∷ [])
        ≡ codes "array C 2 3\n1 2 3\n4 5 6\n" }
    ensures no_values { printed an_empty [] ≡ codes "array E 2 0\n" }
{}
