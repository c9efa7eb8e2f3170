// Laws over the meaning of programs: no body runs.
ghost use Rattle.std.specs.Int.{w64};
ghost use Rattle.std.specs.List.{All};
ghost use Rattle.std.specs.Prelude.{FitsSigned, ◌≡◌, ℕ, ℤ, List, [], ◌∷◌, ◌++◌};
ghost use Rattle.shapes_core.specs.Gamma.{IsIndex};
ghost use Rattle.moa_tree.specs.declared.operator.Op.{Op as Operator};
ghost use Rattle.moa_tree.specs.Denotation.{output_list};
ghost use Rattle.moa_tree.specs.Expr.{Expr};
ghost use Rattle.moa_tree.specs.Folds.{fold_of, none_folded};
ghost use Rattle.moa_tree.specs.declared.operator.Unary.{Unary as UnaryOperator};
ghost use Rattle.moa_tree.specs.Operators.{apply, apply_unary, identity};
ghost use Rattle.moa_tree.specs.Values.{Env, element, shape_in, value};

use shapes_core::laws::gamma_laws;

/// The list of an output reads back, at each index vector, as the value of its expression.
pub fn stored_values()
    ensures { (env : Env) (expr : Expr) (index : List ℕ) → IsIndex index (shape_in env expr)
        → element (output_list env expr) (shape_in env expr) index ≡ value env expr index }
{
    gamma_laws();
}

/// A fold over no element is the identity, and one element more is one more use of the operator.
pub fn fold_equations()
    ensures none { (op : Operator) → fold_of op [] ≡ none_folded (identity op) }
    ensures more { (op : Operator) (numbers : List ℤ) (last : ℤ)
        → fold_of op (numbers ++ last ∷ []) ≡ apply op (fold_of op numbers) last }
{}

/// Operators and folds stay within 64 bits.
pub fn values_fit()
    ensures binary { (op : Operator) (left right : ℤ) → FitsSigned w64 left → FitsSigned w64 right
        → FitsSigned w64 (apply op left right) }
    ensures unary { (op : UnaryOperator) (of : ℤ) → FitsSigned w64 of
        → FitsSigned w64 (apply_unary op of) }
    ensures fold { (op : Operator) (numbers : List ℤ) → All (λ x. FitsSigned w64 x) numbers
        → FitsSigned w64 (fold_of op numbers) }
{}
