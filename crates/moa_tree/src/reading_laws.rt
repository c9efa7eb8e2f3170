// Laws of readings and refusals: no body runs.
ghost use Rattle.std.specs.Prelude.{◌≡◌, ℕ, List, IsTrue, [], ◌∷◌, ◌↔◌, ◌≢◌, ◌⊎◌};
ghost use Rattle.std.specs.List.{AllByRecursion};
ghost use Rattle.text_tokens.specs.declared.token.Position.{Position};
ghost use Rattle.moa_tree.specs.Canonical.{IsWritable, canonical};
ghost use Rattle.moa_tree.specs.Expected.{Want, wants_after, at_start, cause_of, stuck};
ghost use Rattle.moa_tree.specs.Expr.{Tree};
ghost use Rattle.moa_tree.specs.Outcome.{Outcome, outcome_of};
ghost use Rattle.moa_tree.specs.Readings.{Reads, ReadsProgram, has_output};
ghost use Rattle.moa_tree.specs.Refusals.{BeginsAt, IsFront, IsRefused, Wants};
ghost use Rattle.moa_tree.specs.Vocabulary.{Lexeme};

use text_tokens::laws::{printed_names, printed_numbers, values_fit};

/// What a front is, and what is wanted behind it, is decided from the left: by a stack of what is still wanted.
pub fn fronts()
    ensures read { (list : List Lexeme)
        → (wants_after at_start list ≡ []) ↔ ((levels : ℕ) × (tree : Tree) × ReadsProgram levels list tree) }
    ensures front { (list : List Lexeme) → IsFront list ↔ (wants_after at_start list ≢ stuck) }
    ensures depth { (depth : ℕ) (list : List Lexeme)
        → BeginsAt depth list ↔ ((wants : List Want) × (wants_after at_start list ≡ Want.AnExpr depth ∷ wants)) }
    ensures cause { (front : List Lexeme) (next : Lexeme) (cause : ℕ)
        → IsFront front → Wants front next cause → cause_of (wants_after at_start front) next ≡ cause }
    ensures wants { (front : List Lexeme) (next : Lexeme)
        → IsFront front → wants_after at_start front ≢ [] → Wants front next (cause_of (wants_after at_start front) next) }
{}

/// What a text is read as, or where it is refused and why, is computed.
pub fn outcomes()
    ensures read { (text : List ℕ) (tree : Tree) → (outcome_of text ≡ Outcome.Read tree) ↔ Reads text tree }
    ensures refused { (text : List ℕ) (position : Position) (cause : ℕ)
        → (outcome_of text ≡ Outcome.Refused position cause) ↔ IsRefused text position cause }
{}

/// Each text is read or refused.
pub fn read_or_refused()
    ensures { (text : List ℕ) → ((tree : Tree) × Reads text tree)
        ⊎ ((position : Position) × (cause : ℕ) × IsRefused text position cause) }
{
    outcomes();
}

/// A text has at most one reading.
pub fn one_reading()
    ensures { (text : List ℕ) (first second : Tree) → Reads text first → Reads text second → first ≡ second }
{
    outcomes();
}

/// A text is refused at one position at most, with one cause.
pub fn one_refusal()
    ensures { (text : List ℕ) (first second : Position) (cause other : ℕ)
        → IsRefused text first cause → IsRefused text second other → (first ≡ second) × (cause ≡ other) }
{
    outcomes();
}

/// A text that has a reading is not refused.
pub fn never_both()
    ensures { (text : List ℕ) (tree : Tree) (position : Position) (cause : ℕ)
        → Reads text tree → IsRefused text position cause → ⊥ }
{
    outcomes();
}

/// The canonical text of a program reads as that program.
pub fn canonical_reads()
    ensures { (tree : Tree) → AllByRecursion (IsWritable tree.version) tree.statements → IsTrue (has_output tree.statements)
        → Reads (canonical tree) tree }
{
    printed_names();
    printed_numbers();
}

/// What a text is read as, its canonical text is read as.
pub fn reads_again()
    ensures writable { (text : List ℕ) (tree : Tree) → Reads text tree
        → AllByRecursion (IsWritable tree.version) tree.statements × IsTrue (has_output tree.statements) }
    ensures again { (text : List ℕ) (tree : Tree) → Reads text tree → Reads (canonical tree) tree }
{
    values_fit();
    canonical_reads();
}
