// The words of the language, worked out from the definition: no body runs.
ghost use Rattle.std.specs.Prelude.{◌≡◌, ℤ, Some, true, false, [], ◌∷◌, codes, map, pos};
ghost use Rattle.text_tokens.specs.declared.token.Sign.TheVariants as sign;
ghost use Rattle.moa_tree.specs.declared.tree.Version.{Version as LanguageVersion};
ghost use Rattle.moa_tree.specs.Vocabulary.{Lexeme, is_fold, is_reserved, reserved, spelling, version_number, version_numbered, word_among};

use crate::operator::{Op, Unary};
use crate::tree::Version;

/// The number of each version, and the version of each number.
pub fn versions()
    ensures numbers { map version_number (Version.First ∷ []) ≡ pos 1 ∷ [] }
    ensures numbered { (version : LanguageVersion) → version_numbered (version_number version) ≡ Some version }
    ensures number { (number : ℤ) (version : LanguageVersion) → version_numbered number ≡ Some version → number ≡ version_number version }
{}

/// How each reserved word and each sign is spelled.
pub fn spellings()
    ensures reserved { map spelling (reserved Version.First) ≡ map codes ("in" ∷ "let" ∷ "out" ∷ "psi" ∷ "iota"
        ∷ "take" ∷ "drop" ∷ "reverse" ∷ "rotate" ∷ "transpose" ∷ "permute" ∷ "cat"
        ∷ "reshape" ∷ "ravel" ∷ "outer" ∷ "inner" ∷ "reduce" ∷ "scan"
        ∷ "neg" ∷ "not" ∷ "abs"
        ∷ "add" ∷ "sub" ∷ "mul" ∷ "quot" ∷ "rem" ∷ "min" ∷ "max"
        ∷ "eq" ∷ "ne" ∷ "lt" ∷ "le" ∷ "and" ∷ "or" ∷ "xor" ∷ []) }
    ensures signs { map (λ s. spelling (Lexeme.Sign s)) (sign.Less ∷ sign.Greater ∷ sign.Open ∷ sign.Close ∷ sign.Equal ∷ [])
        ≡ map codes ("<" ∷ ">" ∷ "(" ∷ ")" ∷ "=" ∷ []) }
    ensures name { spelling (Lexeme.Name (codes "B2")) ≡ codes "B2" }
{}

/// What each reserved word is, and what a name is.
pub fn words()
    ensures statements { map (λ word. word_among (reserved Version.First) (codes word)) ("psi" ∷ "in" ∷ "let" ∷ "out" ∷ [])
        ≡ Lexeme.Psi ∷ Lexeme.In ∷ Lexeme.Let ∷ Lexeme.Out ∷ [] }
    ensures views { map (λ word. word_among (reserved Version.First) (codes word)) ("iota" ∷ "take" ∷ "drop"
        ∷ "reverse" ∷ "rotate" ∷ "transpose" ∷ "permute" ∷ "cat" ∷ "reshape" ∷ "ravel" ∷ [])
        ≡ Lexeme.Iota ∷ Lexeme.Take ∷ Lexeme.Drop ∷ Lexeme.Reverse ∷ Lexeme.Rotate
        ∷ Lexeme.Transpose ∷ Lexeme.Permute ∷ Lexeme.Cat ∷ Lexeme.Reshape ∷ Lexeme.Ravel ∷ [] }
    ensures products_and_folds { map (λ word. word_among (reserved Version.First) (codes word)) ("outer" ∷ "inner" ∷ "reduce" ∷ "scan" ∷ [])
        ≡ Lexeme.Outer ∷ Lexeme.Inner ∷ Lexeme.Reduce ∷ Lexeme.Scan ∷ [] }
    ensures unary_operators { map (λ word. word_among (reserved Version.First) (codes word)) ("neg" ∷ "not" ∷ "abs" ∷ [])
        ≡ map Lexeme.Unary (Unary.Neg ∷ Unary.Not ∷ Unary.Abs ∷ []) }
    ensures binary_operators { map (λ word. word_among (reserved Version.First) (codes word)) ("add" ∷ "sub" ∷ "mul" ∷ "quot" ∷ "rem"
        ∷ "min" ∷ "max" ∷ "eq" ∷ "ne" ∷ "lt" ∷ "le" ∷ "and" ∷ "or" ∷ "xor" ∷ [])
        ≡ map Lexeme.Binary (Op.Add ∷ Op.Sub ∷ Op.Mul ∷ Op.Quot ∷ Op.Rem
        ∷ Op.Min ∷ Op.Max ∷ Op.Eq ∷ Op.Ne ∷ Op.Lt ∷ Op.Le ∷ Op.And ∷ Op.Or ∷ Op.Xor ∷ []) }
    ensures name { word_among (reserved Version.First) (codes "Add") ≡ Lexeme.Name (codes "Add") }
    ensures is_word { is_reserved Version.First (codes "xor") ≡ true }
    ensures is_name { is_reserved Version.First (codes "adds") ≡ false }
{}

/// The operators that a fold takes.
pub fn folds()
    ensures all { map is_fold (Op.Add ∷ Op.Mul ∷ Op.Min ∷ Op.Max ∷ Op.And ∷ Op.Or ∷ Op.Xor ∷ [])
        ≡ true ∷ true ∷ true ∷ true ∷ true ∷ true ∷ true ∷ [] }
    ensures no_others { map is_fold (Op.Sub ∷ Op.Quot ∷ Op.Rem ∷ Op.Eq ∷ Op.Ne ∷ Op.Lt ∷ Op.Le ∷ [])
        ≡ false ∷ false ∷ false ∷ false ∷ false ∷ false ∷ false ∷ [] }
{}
