// What separates tokens, and where a text may be cut, worked out from the definition: no body runs.
ghost use Rattle.std.specs.Prelude.{◌≡◌, true, false, [], ◌∷◌, codes, map};
ghost use Rattle.text_tokens.specs.Separators.{IsCut, IsGap, Separator, begins_in_run, ends_in_run, has_open_comment};

/// Gaps, and what is none.
pub fn gaps()
    ensures blanks { IsGap (codes " \t\r\n") }
    ensures one_blank { IsGap (codes "\r") }
    ensures comment { IsGap (codes "# 1 <\n") }
    ensures nothing { Separator [] }
    ensures no_byte { IsGap [] → ⊥ }
    ensures open_comment { Separator (codes "#") → ⊥ }
    ensures word { Separator (codes " a") → ⊥ }
{}

/// Comments that are open or ended, and runs that go on or not.
pub fn cuts()
    ensures comments { map (λ text. has_open_comment (codes text)) ("" ∷ "a" ∷ "#" ∷ "a#b" ∷ "#a\nb" ∷ "#a\nb#" ∷ [])
        ≡ false ∷ false ∷ true ∷ true ∷ false ∷ true ∷ [] }
    ensures begins { map (λ text. begins_in_run (codes text)) ("" ∷ "a b" ∷ " a" ∷ "-" ∷ "<a" ∷ [])
        ≡ false ∷ true ∷ false ∷ true ∷ false ∷ [] }
    ensures ends { map (λ text. ends_in_run (codes text)) ("" ∷ "a b" ∷ "a " ∷ "<-" ∷ "a<" ∷ [])
        ≡ false ∷ true ∷ false ∷ true ∷ false ∷ [] }
    ensures after_a_blank { IsCut (codes "a ") (codes "b") }
    ensures before_a_sign { IsCut (codes "a") (codes "<b") }
    ensures in_a_run { IsCut (codes "a") (codes "b") → ⊥ }
    ensures in_a_comment { IsCut (codes "#a ") (codes "b") → ⊥ }
{}
