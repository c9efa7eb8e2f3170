// Accesses that are computed.
ghost use Rattle.std.specs.Prelude.{◌≡◌, ◌+◌, pos, negsuc, [], ◌∷◌};
ghost use Rattle.normal_form.specs.declared.entry.Entry.TheVariants.{At, Plus, Minus};
ghost use Rattle.normal_form.specs.Moves.{variable};
ghost use Rattle.stride_form.specs.Accesses.{access_of, place_of, with_stride, word_access};

/// A load of each kind of entries, with its start and strides.
pub fn accesses()
    ensures row_major { access_of (record { area = 1; shape = 2 ∷ 3 ∷ 4 ∷ []; at = variable 0 ∷ variable 1 ∷ variable 2 ∷ [] })
        ≡ record { area = 1; start = pos 0; strides = (0, pos 12) ∷ (1, pos 4) ∷ (2, pos 1) ∷ [] } }
    ensures permuted { access_of (record { area = 0; shape = 2 ∷ 3 ∷ 4 ∷ []; at = variable 1 ∷ variable 2 ∷ variable 0 ∷ [] })
        ≡ record { area = 0; start = pos 0; strides = (0, pos 1) ∷ (1, pos 12) ∷ (2, pos 4) ∷ [] } }
    ensures reversed { access_of (record { area = 0; shape = 4 ∷ []; at = Minus 0 (pos 1) ∷ [] })
        ≡ record { area = 0; start = pos 1; strides = (0, negsuc 0) ∷ [] } }
    ensures behind { access_of (record { area = 0; shape = 6 ∷ []; at = Plus 0 (pos 1) ∷ [] })
        ≡ record { area = 0; start = pos 1; strides = (0, pos 1) ∷ [] } }
    ensures constant { access_of (record { area = 0; shape = 2 ∷ 3 ∷ []; at = At (pos 1) ∷ variable 0 ∷ [] })
        ≡ record { area = 0; start = pos 3; strides = (0, pos 1) ∷ [] } }
    ensures scalar { access_of (record { area = 2; shape = []; at = [] })
        ≡ record { area = 2; start = pos 0; strides = [] } }
    ensures one_variable { access_of (record { area = 0; shape = 3 ∷ 4 ∷ []; at = Plus 5 (pos 2) ∷ Minus 5 (pos 3) ∷ [] })
        ≡ record { area = 0; start = pos 11; strides = (5, pos 3) ∷ [] } }
{}

/// Starts as words, at an entry with a constant that no form has and at one beside it.
pub fn words()
    ensures small { word_access (record { area = 0; shape = 3 ∷ 4 ∷ []; at = Plus 5 (pos 2) ∷ Minus 5 (pos 3) ∷ [] })
        ≡ record { area = 0; start = pos 11; strides = (5, pos 3) ∷ [] } }
    ensures greatest { word_access (record { area = 0; shape = 1 ∷ []; at = Plus 5 (pos 9223372036854775807) ∷ [] })
        ≡ record { area = 0; start = pos 9223372036854775807; strides = (5, pos 1) ∷ [] } }
    ensures beyond { word_access (record { area = 0; shape = 1 ∷ 2 ∷ []; at = Plus 5 (pos 4611686018427387904) ∷ At (pos 0) ∷ [] })
        ≡ record { area = 0; start = negsuc 9223372036854775807; strides = (5, pos 2) ∷ [] } }
{}

/// The places of accesses.
pub fn places()
    ensures first { place_of (λ var. 0) (access_of (record { area = 0; shape = 3 ∷ 4 ∷ []; at = variable 1 ∷ Minus 0 (pos 3) ∷ [] })) ≡ pos 3 }
    ensures each { place_of (λ var. var + 1) (access_of (record { area = 0; shape = 3 ∷ 4 ∷ []; at = variable 1 ∷ Minus 0 (pos 3) ∷ [] })) ≡ pos 10 }
{}
