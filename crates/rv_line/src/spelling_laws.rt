// Laws of the format. The functions do nothing: their clauses are the laws.
ghost use Rattle.rv_line.specs.Emitted.{as_emitted, emitted};
ghost use Rattle.rv_line.specs.Fits.{Fits};
ghost use Rattle.rv_line.specs.Parts.{Parts};
ghost use Rattle.rv_line.specs.Spells.{Spells};
ghost use Rattle.std.specs.Prelude.{List, ℕ, ◌≡◌};

/// A text spells at most one program, with one line of the text for each of its instructions.
pub fn texts_spell_one()
    ensures { (text : List ℕ) (p q : Parts) → Spells text p → Spells text q → p ≡ q }
{}

/// What fits has a spelling: the text that is emitted.
pub fn fitting_programs_are_spelled()
    ensures { (parts : Parts) → Fits parts.header parts.areas parts.lines → Spells (emitted parts) (as_emitted parts) }
{}
