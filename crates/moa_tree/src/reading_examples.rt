// Readings and refusals that are worked out from the definition: no body runs.
ghost use Rattle.std.specs.Prelude.{◌≡◌, ℕ, List, [], ◌∷◌, ◌++◌, codes, replicate, pos, negsuc};
ghost use Rattle.moa_tree.specs.Canonical.{canonical};
ghost use Rattle.moa_tree.specs.Examples.{program, refused};
ghost use Rattle.moa_tree.specs.Expr.{Expr, Item};
ghost use Rattle.moa_tree.specs.Outcome.{Outcome, outcome_of};

use crate::operator::{Op, Unary};

/// The sum of two vectors, with comments and carriage returns, and an output at the last level.
pub fn readings()
    ensures two_vectors { outcome_of (codes "# the sum\r\npsi 1\r\nin A 3 # <\r\nin B 3\r\nout C = add A B#") ≡ Outcome.Read (program
        (Item.Input (codes "A") (pos 3 ∷ []) ∷ Item.Input (codes "B") (pos 3 ∷ [])
        ∷ Item.Output (codes "C") (Expr.Two Op.Add (Expr.Use (codes "A")) (Expr.Use (codes "B"))) ∷ [])) }
    ensures deepest { outcome_of (codes "psi 1\nin A\nout C = " ++ (replicate 127 40 ++ (65 ∷ replicate 127 41))) ≡ Outcome.Read (program
        (Item.Input (codes "A") [] ∷ Item.Output (codes "C") (Expr.Use (codes "A")) ∷ [])) }
{}

/// A program and its canonical text.
pub fn canonical_text()
    ensures { canonical (program (Item.Input (codes "A") (pos 2 ∷ pos 3 ∷ [])
        ∷ Item.Let (codes "B") (Expr.Take (pos 1 ∷ negsuc 0 ∷ []) (Expr.Use (codes "A")))
        ∷ Item.Output (codes "C") (Expr.Inner Op.Max Op.Sub (Expr.Reshape [] (Expr.One Unary.Neg (Expr.Iota (pos 1))))
        (Expr.Rotate (negsuc 4) (Expr.Use (codes "B")))) ∷ []))
        ≡ codes "psi 1\nin A 2 3\nlet B = take <1 -1> A\nout C = inner max sub reshape <> neg iota 1 rotate -5 B\n" }
{}

/// What is no token, whatever is wanted in its place.
pub fn token_refusals()
    ensures malformed { outcome_of (codes "psi 1 out C = +") ≡ refused 1 15 1 }
    ensures out_of_range { outcome_of (codes "psi 9223372036854775808") ≡ refused 1 5 2 }
    ensures long_word { outcome_of (codes "psi 1\nin " ++ replicate 65 97) ≡ refused 2 4 3 }
{}

/// Where a version or a statement is wanted.
pub fn statement_refusals()
    ensures empty { outcome_of [] ≡ refused 1 1 4 }
    ensures version { outcome_of (codes "psi -1") ≡ refused 1 5 4 }
    ensures statement { outcome_of (codes "psi 1\nin A 3 i32") ≡ refused 2 8 5 }
    ensures output { outcome_of (codes "psi 1\nin A 3\n") ≡ refused 3 1 6 }
    ensures name { outcome_of (codes "psi 1\nlet add = 1") ≡ refused 2 5 7 }
    ensures equal { outcome_of (codes "psi 1\nout C A") ≡ refused 2 7 8 }
{}

/// Where an expression or a part of one is wanted.
pub fn expression_refusals()
    ensures expression { outcome_of (codes "psi 1\nin A 3\nout C = add A") ≡ refused 3 14 9 }
    ensures close { outcome_of (codes "psi 1\nout C = (1 2)") ≡ refused 2 12 10 }
    ensures list { outcome_of (codes "psi 1\nout C = take 1") ≡ refused 2 14 11 }
    ensures length { outcome_of (codes "psi 1\nout C = iota <1>") ≡ refused 2 14 12 }
    ensures entry { outcome_of (codes "psi 1\nout C = take <A>") ≡ refused 2 15 12 }
    ensures fold { outcome_of (codes "psi 1\nout C = reduce sub 1") ≡ refused 2 16 13 }
    ensures second_operator { outcome_of (codes "psi 1\nout C = inner add 1 1") ≡ refused 2 19 13 }
{}

/// One level too many, where another token is refused for what it is.
pub fn depth_refusals()
    ensures too_deep { outcome_of (codes "psi 1\nin A\nout C = " ++ (replicate 128 40 ++ (65 ∷ replicate 128 41)))
        ≡ refused 3 137 14 }
    ensures wanted_first { outcome_of (codes "psi 1\nin A\nout C = " ++ (replicate 128 40 ++ 41 ∷ []))
        ≡ refused 3 137 9 }
{}
