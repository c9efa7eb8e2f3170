// What is said of compiled texts and of refusals, tried on examples: no body runs.
ghost use Rattle.std.specs.Prelude.{◌≡◌, ℕ, List, [], ◌∷◌, codes, length, None, pos};
ghost use Rattle.text_tokens.specs.declared.token.Position.{Position};
ghost use Rattle.moa_tree.specs.Examples.{a, b, numbers, program};
ghost use Rattle.moa_tree.specs.Expr.{Input, Output, Ravel, Tree, Two, Use};
ghost use Rattle.moa_tree.specs.declared.operator.Op.TheVariants as op;
ghost use Rattle.rv_line.specs.Parts.{Parts};
ghost use Rattle.rv_line.specs.Spells.{Spells};
ghost use Rattle.rv_line.specs.declared.line.Line.TheVariants as line;
ghost use Rattle.rv_line.specs.declared.line.Three.TheVariants as three;
ghost use Rattle.psi_compile.specs.Compiled.{IsBounded, IsCompiled};
ghost use Rattle.psi_compile.specs.Errors.{IsBuiltFirst, IsCause};
ghost use Rattle.psi_compile.specs.declared.error.CompileError.TheVariants as error;

use moa_tree::{never_both, one_reading, outcomes};

/// Each bound at its greatest, and one more.
pub fn bounds_are_kept()
    ensures greatest { (made : Parts) → length made.lines ≡ 3840 → made.header.spill ≡ 8 → made.header.steps ≡ 1024
        → IsBounded 1 1 made }
    ensures most_lines { (made : Parts) → length made.lines ≡ 245760 → made.header.spill ≡ 512 → made.header.steps ≡ 1024
        → IsBounded 64 1 made }
    ensures a_line_more { (made : Parts) → length made.lines ≡ 3841 → IsBounded 1 1 made → ⊥ }
    ensures a_line_more_in_all { (made : Parts) (size work : ℕ) → length made.lines ≡ 245761 → IsBounded size work made → ⊥ }
    ensures a_spill_word_more { (made : Parts) → made.header.spill ≡ 9 → IsBounded 1 1 made → ⊥ }
    ensures a_step_more { (made : Parts) → made.header.steps ≡ 1025 → IsBounded 1 1 made → ⊥ }
{}

/// Texts that are not what a source is compiled to: of a program that is not built or not accepted, that are too long, and
/// that write a register that is given back or multiply where the source does not.
pub fn other_texts_are_refused()
    ensures not_built { (text : List ℕ) → IsCompiled (program (Input (codes "A") (numbers "3") ∷ Output (codes "C") (Ravel a) ∷ [])) text → ⊥ }
    ensures not_accepted { (text : List ℕ) → IsCompiled (program (Output (codes "C") a ∷ [])) text → ⊥ }
    ensures too_long { (tree : Tree) (text : List ℕ) (made : Parts) → Spells text made → length made.lines ≡ 245761
        → IsCompiled tree text → ⊥ }
    ensures kept_register { (tree : Tree) (text : List ℕ) (made : Parts) → Spells text made → made.lines ≡ line.Lui 18 7 ∷ []
        → IsCompiled tree text → ⊥ }
    ensures product { (text : List ℕ) (made : Parts) → Spells text made → made.lines ≡ line.Three three.Mul 5 6 7 ∷ []
        → IsCompiled (program (Input (codes "A") (numbers "3") ∷ Output (codes "C") (Two op.Add a a) ∷ [])) text → ⊥ }
{}

/// An empty source has one cause, where the version is wanted, at its start.
pub fn causes_are_told()
    ensures empty { IsCause [] (error.Text (record { line = 1; column = 1 }) 4) }
    ensures other_cause { IsCause [] (error.Text (record { line = 1; column = 1 }) 5) → ⊥ }
    ensures other_place { IsCause [] (error.Text (record { line = 1; column = 2 }) 4) → ⊥ }
    ensures rule { (at : Position) (rule : ℕ) → IsCause [] (error.Rule at rule) → ⊥ }
    ensures not_built { (at : Position) → IsCause [] (error.NotBuilt at) → ⊥ }
    ensures memory { IsCause [] error.Memory }
{
    outcomes();
    never_both();
}

/// The first expression that is not built is a cause, at its position, also where a shape rule is broken.
pub fn what_is_not_built_is_told()
    ensures first { IsCause (codes "psi 1\nout C = neg ravel A") (error.NotBuilt (record { line = 2; column = 13 })) }
    ensures built { IsCause (codes "psi 1\nout C = neg ravel A") (error.NotBuilt (record { line = 2; column = 9 })) → ⊥ }
    ensures before_shapes { IsBuiltFirst (codes "psi 1\nout C = neg ravel A")
        (error.Rule (record { line = 2; column = 19 }) 2) → ⊥ }
{
    outcomes();
    one_reading();
}
