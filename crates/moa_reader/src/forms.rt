// The forms of an expression with operands, without their operands.
ghost use Rattle.std.specs.Prelude.{◌≡◌, ℕ, ℤ, List, [], ◌∷◌};
ghost use Rattle.moa_tree.specs.Expr.{Expr};
ghost use Rattle.moa_tree.specs.Pool.{expr_of, operands, tree_at};
ghost use Rattle.moa_tree.specs.Pools.{lists_of};
ghost use Rattle.moa_reader.specs.Forms.{form_lists, one_of, two_of, with_fold, with_list};

use moa_tree::{Node, Numbers, Op, Unary};

/// A form with one operand.
#[derive(Clone, Copy)]
pub(crate) enum OneForm {
    Unary(Unary),
    Psi(Numbers),
    Take(Numbers),
    Drop(Numbers),
    Permute(Numbers),
    Reshape(Numbers),
    Reverse,
    Transpose,
    Ravel,
    Rotate(i64),
    Reduce(Op),
    Scan(Op),
}

/// A form with two operands.
#[derive(Clone, Copy)]
pub(crate) enum TwoForm {
    Binary(Op),
    Cat,
    Outer(Op),
    Inner { fold: Op, op: Op },
}

/// A form with one operand behind a list.
#[derive(Clone, Copy)]
pub(crate) enum ListForm {
    Psi,
    Take,
    Drop,
    Permute,
    Reshape,
}

/// A form with one operand behind an operator that folds.
#[derive(Clone, Copy)]
pub(crate) enum FoldForm {
    Reduce,
    Scan,
}

impl OneForm {
    /// The node of the form over its operand.
    pub(crate) fn node(self, of: u32) -> Node
        ensures expr { (pool : List ℤ) (those : List Expr) → expr_of pool those result ≡ one_of pool self (tree_at those of) }
        ensures operands { operands result ≡ of ∷ [] }
        ensures lists { lists_of result ≡ form_lists self }
    {
        match self {
            OneForm::Unary(op) => Node::One { op, of },
            OneForm::Psi(list) => Node::Psi { list, of },
            OneForm::Take(list) => Node::Take { list, of },
            OneForm::Drop(list) => Node::Drop { list, of },
            OneForm::Permute(list) => Node::Permute { list, of },
            OneForm::Reshape(list) => Node::Reshape { list, of },
            OneForm::Reverse => Node::Reverse { of },
            OneForm::Transpose => Node::Transpose { of },
            OneForm::Ravel => Node::Ravel { of },
            OneForm::Rotate(by) => Node::Rotate { by, of },
            OneForm::Reduce(fold) => Node::Reduce { fold, of },
            OneForm::Scan(fold) => Node::Scan { fold, of },
        }
    }
}

impl TwoForm {
    /// The node of the form over its operands.
    pub(crate) fn node(self, left: u32, right: u32) -> Node
        ensures expr { (pool : List ℤ) (those : List Expr)
            → expr_of pool those result ≡ two_of self (tree_at those left) (tree_at those right) }
        ensures operands { operands result ≡ left ∷ right ∷ [] }
        ensures lists { lists_of result ≡ [] }
    {
        match self {
            TwoForm::Binary(op) => Node::Two { op, left, right },
            TwoForm::Cat => Node::Cat { left, right },
            TwoForm::Outer(op) => Node::Outer { op, left, right },
            TwoForm::Inner { fold, op } => Node::Inner {
                fold,
                op,
                left,
                right,
            },
        }
    }
}

impl ListForm {
    /// The form with its list.
    pub(crate) fn with(self, list: Numbers) -> OneForm
        ensures { result ≡ with_list self list }
    {
        match self {
            ListForm::Psi => OneForm::Psi(list),
            ListForm::Take => OneForm::Take(list),
            ListForm::Drop => OneForm::Drop(list),
            ListForm::Permute => OneForm::Permute(list),
            ListForm::Reshape => OneForm::Reshape(list),
        }
    }
}

impl FoldForm {
    /// The form with its operator.
    pub(crate) fn with(self, op: Op) -> OneForm
        ensures { result ≡ with_fold self op }
    {
        match self {
            FoldForm::Reduce => OneForm::Reduce(op),
            FoldForm::Scan => OneForm::Scan(op),
        }
    }
}
