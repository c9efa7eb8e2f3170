// Worked examples of the trees for which pools stand: no body runs.
ghost use Rattle.std.specs.Prelude.{◌≡◌, pos, [], ◌∷◌, codes};
ghost use Rattle.moa_tree.specs.declared.tree.Node.TheVariants as node;
ghost use Rattle.moa_tree.specs.declared.tree.Statement.TheVariants as statement;
ghost use Rattle.moa_tree.specs.Examples.{a, numbers};
ghost use Rattle.moa_tree.specs.Expr.{Expr, Number, Use, Two, Take, Scan, Input, Let, Output};
ghost use Rattle.moa_tree.specs.Pool.{items_of, trees};
ghost use Rattle.moa_tree.specs.PoolExamples.{doubled, left_over, one_list_twice, placed, shared_scan, small, three_statements};
ghost use Rattle.moa_tree.specs.Pools.{IsProgram, walk};
ghost use Rattle.moa_tree.specs.Positions.{StandsIn, expression_positions, name_positions};

use crate::operator::Op;
use crate::reading_laws::canonical_reads;

/// Nodes whose operands stand before them, with numbers of the pool.
pub fn pool_examples()
    ensures no_node { trees [] [] ≡ [] }
    ensures shared_operand { trees [] (node.Use (codes "A") ∷ node.Two Op.Add 0 0 ∷ node.Two Op.Mul 1 0 ∷ [])
        ≡ a ∷ Two Op.Add a a ∷ Two Op.Mul (Two Op.Add a a) a ∷ [] }
    ensures statements { items_of (numbers "6 -2 7")
        (node.Use (codes "A") ∷ node.Take (record { start = 1; count = 1 }) 0 ∷ node.Scan Op.Max 1 ∷ [])
        (statement.Input (codes "A") (record { start = 0; count = 1 }) (record { line = 1; column = 7 })
        ∷ statement.Name (codes "P") 2 (record { line = 2; column = 5 })
        ∷ statement.Output (codes "C") 1 (record { line = 3; column = 5 }) ∷ [])
        ≡ Input (codes "A") (numbers "6") ∷ Let (codes "P") (Scan Op.Max (Take (numbers "-2") a))
        ∷ Output (codes "C") (Take (numbers "-2") a) ∷ [] }
{}

/// A program, and pools that are none: a node is used twice or not at all, or a number is in two lists.
pub fn program_pools()
    ensures small_program { IsProgram small }
    ensures no_shared_node { IsProgram shared_scan → ⊥ }
    ensures no_node_left_over { IsProgram left_over → ⊥ }
    ensures no_doubling { IsProgram doubled → ⊥ }
    ensures no_shared_number { IsProgram one_list_twice → ⊥ }
{
    canonical_reads();
}

/// The nodes of programs in prefix order.
pub fn walk_examples()
    ensures one_statement { walk small ≡ 1 ∷ 0 ∷ [] }
    ensures several_statements { walk three_statements ≡ 3 ∷ 2 ∷ 1 ∷ 0 ∷ 6 ∷ 5 ∷ 4 ∷ [] }
{}

/// Where expressions and names stand in a text.
pub fn position_examples()
    ensures parentheses { expression_positions (codes "psi 1 out C=add((A))(neg 2)")
        ≡ placed 1 13 ∷ placed 1 18 ∷ placed 1 22 ∷ placed 1 26 ∷ [] }
    ensures lists_and_operators { expression_positions (codes "psi 1 out C=inner max sub rotate 3 A take<1 2>B")
        ≡ placed 1 13 ∷ placed 1 27 ∷ placed 1 36 ∷ placed 1 38 ∷ placed 1 47 ∷ [] }
    ensures comments { expression_positions (codes "psi 1 in A 2#out\nout A=#A\n A") ≡ placed 3 2 ∷ [] }
    ensures names { name_positions (codes "psi 1 in A 2#out\nlet B=A out C=B")
        ≡ placed 1 10 ∷ placed 2 5 ∷ placed 2 13 ∷ [] }
    ensures one_statement { StandsIn (codes "psi 1\nin A 2\nout C = take <1> A") small }
    ensures several_statements { StandsIn (codes "psi 1\nin A 2 # a\nlet P = sub (neg A) 1\nout C = cat P (P)\n") three_statements }
    ensures name_elsewhere { StandsIn (codes "psi 1\nin  A 2\nout C = take <1> A") small → ⊥ }
    ensures expression_elsewhere { StandsIn (codes "psi 1\nin A 2\nout C =  take <1> A") small → ⊥ }
{}
