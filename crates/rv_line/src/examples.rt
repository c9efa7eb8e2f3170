// Texts that spell a program, and texts that spell none.
ghost use Rattle.std.specs.Prelude.{[], ◌∷◌};
ghost use Rattle.rv_line.specs.SpellingExamples.{
  small_text,
  small_parts,
  loose_text,
  leading_zero_text,
  large_imm_text,
  no_label_text,
  wrong_offset_text,
  repeated_label_text,
};
ghost use Rattle.rv_line.specs.Parts.{Parts};
ghost use Rattle.rv_line.specs.Spells.{Spells};

/// What the format means, on small texts.
pub fn spelling_examples()
    ensures small { Spells small_text (small_parts (5 ∷ 6 ∷ [])) }
    ensures loose { Spells loose_text (small_parts (9 ∷ 10 ∷ [])) }
    ensures misplaced { Spells small_text (small_parts (5 ∷ 7 ∷ [])) → ⊥ }
    ensures leading_zero { (parts : Parts) → Spells leading_zero_text parts → ⊥ }
    ensures large_imm { (parts : Parts) → Spells large_imm_text parts → ⊥ }
    ensures no_label { (parts : Parts) → Spells no_label_text parts → ⊥ }
    ensures wrong_offset { (parts : Parts) → Spells wrong_offset_text parts → ⊥ }
    ensures repeated_label { (parts : Parts) → Spells repeated_label_text parts → ⊥ }
{}
