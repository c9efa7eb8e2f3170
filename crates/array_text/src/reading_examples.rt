// Array files that are read or refused, worked out from the definition: no body runs.
ghost use Rattle.std.specs.Prelude.{◌≡◌, [], ◌∷◌, ◌++◌, codes, pos, negsuc, replicate};
ghost use Rattle.array_text.specs.Examples.{a_matrix, an_empty, outcome};
ghost use Rattle.array_text.specs.Outcome.{Outcome, outcome_of};

/// Files that give the declared arrays their values.
pub fn accepted()
    ensures in_order { outcome (codes "array A 2\n7 -8\narray B\n9\n")
        ≡ Outcome.Accepted ((pos 7 ∷ negsuc 7 ∷ []) ∷ (pos 9 ∷ []) ∷ []) }
    ensures other_order { outcome (codes "array B # one value\r\n\t009 array A 02 # two\n\n-0\n1")
        ≡ Outcome.Accepted ((pos 0 ∷ pos 1 ∷ []) ∷ (pos 9 ∷ []) ∷ []) }
    ensures rows { outcome_of (a_matrix ∷ []) (codes "array C 2 3\n1 2 3 4\n5\n6")
        ≡ Outcome.Accepted ((pos 1 ∷ pos 2 ∷ pos 3 ∷ pos 4 ∷ pos 5 ∷ pos 6 ∷ []) ∷ []) }
    ensures no_values { outcome_of (an_empty ∷ []) (codes "array E 2 0")
        ≡ Outcome.Accepted ([] ∷ []) }
    ensures nothing { outcome_of [] (codes "# no array\n") ≡ Outcome.Accepted [] }
{}

/// What is no token, or a number out of range, where anything may be wanted.
pub fn token_refusals()
    ensures sign { outcome (codes "array A 2\n7 <") ≡ Outcome.Refused 2 1 }
    ensures sign_in_front { outcome (codes "\n=") ≡ Outcome.Refused 2 1 }
    ensures no_token { outcome (codes "array A 2\n7 8-") ≡ Outcome.Refused 2 1 }
    ensures out_of_range { outcome (codes "array A 2\n9223372036854775807\n9223372036854775808")
        ≡ Outcome.Refused 3 2 }
    ensures on_a_heads_line { outcome (codes "array Z -1 9223372036854775808 (")
        ≡ Outcome.Refused 1 2 }
    ensures as_a_name { outcome (codes "array\n(") ≡ Outcome.Refused 2 1 }
{}

/// Where `array` or a name is wanted.
pub fn array_refusals()
    ensures number { outcome (codes "array A 2\n7 8\n9") ≡ Outcome.Refused 3 3 }
    ensures word { outcome (codes "array B\n9 arrays") ≡ Outcome.Refused 2 3 }
    ensures no_name { outcome (codes "array 2") ≡ Outcome.Refused 1 3 }
    ensures long_name { outcome (codes "array " ++ replicate 65 97) ≡ Outcome.Refused 1 3 }
    ensures name_on_a_later_line { outcome (codes "array\nA 2\n7 8") ≡ Outcome.Refused 2 3 }
    ensures end_for_a_name { outcome (codes "array\n\n") ≡ Outcome.Refused 3 3 }
{}

/// Heads that are refused once their line is read.
pub fn head_refusals()
    ensures extent { outcome (codes "array A x\n7 8") ≡ Outcome.Refused 1 4 }
    ensures negative { outcome (codes "array Z -2\n7 8") ≡ Outcome.Refused 1 4 }
    ensures undeclared { outcome (codes "array a 2\n7 8") ≡ Outcome.Refused 1 5 }
    ensures repeated { outcome (codes "array B\n9\narray B 2\n9") ≡ Outcome.Refused 3 6 }
    ensures shape { outcome (codes "array A 3\n7 8") ≡ Outcome.Refused 1 7 }
    ensures values_on_the_line { outcome (codes "array B 9") ≡ Outcome.Refused 1 7 }
    ensures head_behind_an_empty { outcome_of (an_empty ∷ an_empty ∷ [])
        (codes "array E 2 0\narray E 2 0\n") ≡ Outcome.Refused 2 6 }
{}

/// Where a value is wanted, or the file ends too early.
pub fn value_refusals()
    ensures word { outcome (codes "array A 2\n7\narray B\n9") ≡ Outcome.Refused 3 8 }
    ensures end { outcome (codes "array A 2\n7\n") ≡ Outcome.Refused 3 8 }
    ensures end_of_the_heads_line { outcome (codes "array B") ≡ Outcome.Refused 1 8 }
    ensures missing { outcome (codes "array B\n9\n\n") ≡ Outcome.Refused 4 9 }
    ensures all_missing { outcome [] ≡ Outcome.Refused 1 9 }
{}
