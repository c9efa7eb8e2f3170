// Laws of the definition, and examples of it: no body runs.
ghost use Rattle.std.specs.Prelude.{◌≡◌, ◌≢◌, ◌+◌, ◌<◌, ◌≤◌, ℕ, ℤ, false, List, [], ◌∷◌, ◌++◌, length, codes, replicate, pos, negsuc, FitsSigned, IsTrue};
ghost use Rattle.std.specs.Fmt.{signed_decimal};
ghost use Rattle.std.specs.Int.{w64};
ghost use Rattle.std.specs.List.{All, AllPairs, list_all};
ghost use Rattle.shapes_core.specs.Name.{IsName};
ghost use Rattle.text_tokens.specs.declared.token.Position.{Position};
ghost use Rattle.text_tokens.specs.declared.token.Token.{Token as TextToken};
ghost use Rattle.text_tokens.specs.Bytes.{is_within_line};
ghost use Rattle.text_tokens.specs.Runs.{IsFit};
ghost use Rattle.text_tokens.specs.Separators.{IsCut, IsGap, Separator, begins_in_run, has_open_comment};
ghost use Rattle.text_tokens.specs.Tokens.{GivesNext, IsBefore, Remaining, along, inner_tokens, placed, position_past, start, tokens, tokens_only};

use crate::token::{Sign, Token};

/// Worked examples of the definition.
pub fn examples()
    ensures empty { tokens start [] ≡ placed 1 1 Token.End ∷ [] }
    ensures comments { tokens start (codes "a # 1 <\r\n\t7#") ≡ placed 1 1 (Token.Word (codes "a"))
        ∷ placed 2 2 (Token.Number (pos 7)) ∷ placed 2 4 Token.End ∷ [] }
    ensures carriage_return { tokens start (codes "a\rb\r\n") ≡ placed 1 1 (Token.Word (codes "a"))
        ∷ placed 1 3 (Token.Word (codes "b")) ∷ placed 2 1 Token.End ∷ [] }
    ensures open_comment { tokens start (codes "x#y")
        ≡ placed 1 1 (Token.Word (codes "x")) ∷ placed 1 4 Token.End ∷ [] }
    ensures negative { tokens start (codes "-5")
        ≡ placed 1 1 (Token.Number (negsuc 4)) ∷ placed 1 3 Token.End ∷ [] }
    ensures two_minuses { tokens start (codes "--5")
        ≡ placed 1 1 Token.Malformed ∷ placed 1 4 Token.End ∷ [] }
    ensures late_minus { tokens start (codes "5-")
        ≡ placed 1 1 Token.Malformed ∷ placed 1 3 Token.End ∷ [] }
    ensures lone_minus { tokens start (codes "-")
        ≡ placed 1 1 Token.Malformed ∷ placed 1 2 Token.End ∷ [] }
    ensures inner_minus { tokens start (codes "a-b")
        ≡ placed 1 1 Token.Malformed ∷ placed 1 4 Token.End ∷ [] }
    ensures no_letter_first { tokens start (codes "5a _5")
        ≡ placed 1 1 Token.Malformed ∷ placed 1 4 Token.Malformed ∷ placed 1 6 Token.End ∷ [] }
    ensures zeros { tokens start (codes "007")
        ≡ placed 1 1 (Token.Number (pos 7)) ∷ placed 1 4 Token.End ∷ [] }
    ensures minus_zero { tokens start (codes "-0")
        ≡ placed 1 1 (Token.Number (pos 0)) ∷ placed 1 3 Token.End ∷ [] }
    ensures least { tokens start (codes "-9223372036854775808")
        ≡ placed 1 1 (Token.Number (negsuc 9223372036854775807)) ∷ placed 1 21 Token.End ∷ [] }
    ensures below_least { tokens start (codes "-9223372036854775809")
        ≡ placed 1 1 Token.OutOfRange ∷ placed 1 21 Token.End ∷ [] }
    ensures greatest { tokens start (codes "9223372036854775807")
        ≡ placed 1 1 (Token.Number (pos 9223372036854775807)) ∷ placed 1 20 Token.End ∷ [] }
    ensures above_greatest { tokens start (codes "9223372036854775808")
        ≡ placed 1 1 Token.OutOfRange ∷ placed 1 20 Token.End ∷ [] }
    ensures word { tokens start (replicate 64 97)
        ≡ placed 1 1 (Token.Word (replicate 64 97)) ∷ placed 1 65 Token.End ∷ [] }
    ensures long_word { tokens start (replicate 65 97)
        ≡ placed 1 1 Token.LongWord ∷ placed 1 66 Token.End ∷ [] }
    ensures other_byte { tokens start (200 ∷ 97 ∷ []) ≡ placed 1 1 Token.Malformed
        ∷ placed 1 2 (Token.Word (codes "a")) ∷ placed 1 3 Token.End ∷ [] }
    ensures list { tokens start (codes "<-1 2>") ≡ placed 1 1 (Token.Sign Sign.Less)
        ∷ placed 1 2 (Token.Number (negsuc 0)) ∷ placed 1 5 (Token.Number (pos 2))
        ∷ placed 1 6 (Token.Sign Sign.Greater) ∷ placed 1 7 Token.End ∷ [] }
    ensures signs { tokens start (codes "f(x)=y") ≡ placed 1 1 (Token.Word (codes "f"))
        ∷ placed 1 2 (Token.Sign Sign.Open) ∷ placed 1 3 (Token.Word (codes "x"))
        ∷ placed 1 4 (Token.Sign Sign.Close) ∷ placed 1 5 (Token.Sign Sign.Equal)
        ∷ placed 1 6 (Token.Word (codes "y")) ∷ placed 1 7 Token.End ∷ [] }
{}

/// Each token stands before all that follow it.
pub fn positions_rise()
    ensures { (position : Position) (bytes : List ℕ)
        → AllPairs (λ t u. IsBefore t.1 u.1) (tokens position bytes) }
{}

/// Positions have an order: a position is not before itself, and what is before one that is before a third is
/// before the third.
pub fn positions_are_ordered()
    ensures irreflexive { (a : Position) → IsBefore a a → ⊥ }
    ensures transitive { (a b c : Position) → IsBefore a b → IsBefore b c → IsBefore a c }
    ensures further_right { IsBefore (record { line = 1; column = 2 }) (record { line = 1; column = 3 }) }
    ensures next_line { IsBefore (record { line = 1; column = 9 }) (record { line = 2; column = 1 }) }
    ensures no_line_back { IsBefore (record { line = 2; column = 1 }) (record { line = 1; column = 9 }) → ⊥ }
{}

/// Each word among the tokens is a name, and each number has 64 bits.
pub fn values_fit()
    ensures { (position : Position) (bytes : List ℕ)
        → All (λ t. IsFit t.0) (tokens position bytes) }
{}

/// A word that is no name does not fit, and a number that takes more bits does not.
pub fn unfit_values()
    ensures no_name { IsFit (Token.Word (codes "a-b")) → ⊥ }
    ensures no_number { IsFit (Token.Number (pos 9223372036854775808)) → ⊥ }
{}

/// What a scanner gives is the list of the tokens, in order: each but the end takes bytes, and the end comes again.
pub fn tokens_are_given_in_order()
    ensures token { (old new : Remaining) (given : TextToken × Position) → GivesNext old given new → given.0 ≢ Token.End
        → (tokens old.position old.bytes ≡ given ∷ tokens new.position new.bytes)
        × (length new.bytes < length old.bytes) }
    ensures end { (old new : Remaining) (given : TextToken × Position) → GivesNext old given new → given.0 ≡ Token.End
        → (tokens old.position old.bytes ≡ given ∷ []) × (tokens new.position new.bytes ≡ given ∷ [])
        × (length new.bytes ≤ length old.bytes) }
{}

/// A text has at most as many tokens as bytes, and its end.
pub fn tokens_are_few()
    ensures { (position : Position) (bytes : List ℕ) → length (tokens position bytes) ≤ 1 + length bytes }
{}

/// The tokens of a text are those of its front and those of its back, where no comment and no run
/// goes on from the one into the other.
pub fn pieces()
    ensures { (position : Position) (front back : List ℕ) → IsCut front back
        → tokens position (front ++ back)
        ≡ inner_tokens position front ++ tokens (position_past position front) back }
{}

/// Blanks, line ends and comments mean nothing but that tokens end: what stands between two tokens may
/// be exchanged for any other of them, and what stands at the front or at the end may be left out.
pub fn separators()
    ensures exchanged { (front gap other back : List ℕ) → has_open_comment front ≡ false
        → IsGap gap → IsGap other
        → tokens_only (front ++ gap ++ back) ≡ tokens_only (front ++ other ++ back) }
    ensures leading { (gap back : List ℕ) → Separator gap
        → tokens_only (gap ++ back) ≡ tokens_only back }
    ensures trailing { (front gap : List ℕ) → has_open_comment front ≡ false → Separator gap
        → tokens_only (front ++ gap) ≡ tokens_only front }
    ensures silent { (position : Position) (gap : List ℕ) → Separator gap
        → inner_tokens position gap ≡ [] }
    ensures last_comment { (position : Position) (text : List ℕ)
        → IsTrue (list_all is_within_line text) → inner_tokens position (35 ∷ text) ≡ [] }
{}

/// A number of 64 bits as it is printed is that number's one token, whatever follows that does not go
/// on with its run.
pub fn printed_numbers()
    ensures first { (position : Position) (z : ℤ) (rest : List ℕ)
        → FitsSigned w64 z → begins_in_run rest ≡ false
        → tokens position (signed_decimal z ++ rest) ≡ (Token.Number z, position)
        ∷ tokens (along position (length (signed_decimal z))) rest }
    ensures alone { (position : Position) (z : ℤ) → FitsSigned w64 z
        → tokens position (signed_decimal z) ≡ (Token.Number z, position)
        ∷ (Token.End, along position (length (signed_decimal z))) ∷ [] }
{}

/// A name is its one word, whatever follows that does not go on with its run.
pub fn printed_names()
    ensures first { (position : Position) (name rest : List ℕ)
        → IsName name → begins_in_run rest ≡ false
        → tokens position (name ++ rest) ≡ (Token.Word name, position)
        ∷ tokens (along position (length name)) rest }
    ensures alone { (position : Position) (name : List ℕ) → IsName name
        → tokens position name ≡ (Token.Word name, position)
        ∷ (Token.End, along position (length name)) ∷ [] }
{}
