// Laws of the definitions. The functions do nothing: their clauses are the laws.
ghost use Rattle.std.specs.Prelude.{List, ℕ, ◌≡◌, MatchOption};
ghost use Rattle.std.specs.declared.option.Option.TheVariants.{None};
ghost use Rattle.rv_line.specs.Parts.{Parts};
ghost use Rattle.rv_line.specs.Spells.{Spells};
ghost use Rattle.rv_reader.specs.Refusals.{refusal, parts_of};

use rv_line::spelling_laws::texts_spell_one;

/// A text that spells a program is not refused.
pub fn spelled_texts_are_not_refused()
    ensures { (text : List ℕ) (parts : Parts) → Spells text parts → refusal text ≡ None }
{}

/// A text that is not refused spells its parts.
pub fn other_texts_spell_their_parts()
    ensures { (text : List ℕ) → refusal text ≡ None → Spells text (parts_of text) }
{}

/// Each text spells its parts and no others, or it spells none and is refused, on one line with one cause.
pub fn each_text_spells_or_is_refused()
    ensures parts { (text : List ℕ) (parts : Parts) → Spells text parts → parts ≡ parts_of text }
    ensures either { (text : List ℕ)
        → MatchOption (refusal text) (Spells text (parts_of text)) (λ _. (parts : Parts) → Spells text parts → ⊥) }
{
    texts_spell_one();
}
