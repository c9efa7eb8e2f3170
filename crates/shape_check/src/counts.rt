// What one use of an operator counts.
ghost use Rattle.std.specs.Prelude.{◌≡◌, ◌+◌, ◌*◌, ℤ, List, [], ◌∷◌, map};
ghost use Rattle.moa_tree.specs.Expr.{Expr};
ghost use Rattle.moa_tree.specs.Pool.{expr_of, operands, tree_at};
ghost use Rattle.shape_check.specs.Costs.{Prices, element_work, nodes};
ghost use Rattle.shape_check.specs.Judged.{capped};
ghost use Rattle.shape_check.specs.Operated.{AreAccepted, IsOperator};

use crate::entries::extent_at;
use crate::known::Known;
use moa_tree::Node;

/// The nodes of an operator over these operands, or the greatest number of 64 bits where they are more.
pub(crate) fn operator_nodes(node: &Node, first: &Known, second: &Known) -> u64
    ensures { (prices : Prices) (pool : List ℤ) (trees : List Expr) → IsOperator node.now
        → AreAccepted prices (map (tree_at trees) (operands node.now)) (first.now ∷ second.now ∷ [])
        → result ≡ capped (nodes prices (expr_of pool trees node.now)) }
{
    match node {
        Node::Scan { .. } => 1,
        _ => 1u64.saturating_add(first.nodes.saturating_add(second.nodes)),
    }
}

/// The work of a fold for one element: that of its operands for each of the elements that it folds.
fn folded_work(extent: u64, own: u64, operands: u64) -> u64
    ensures { result ≡ capped (1 + capped (extent * capped (own + operands))) }
{
    1u64.saturating_add(extent.saturating_mul(own.saturating_add(operands)))
}

/// The work of an operator for one element, or the greatest number of 64 bits where it is more.
pub(crate) fn operator_work(node: &Node, first: &Known, second: &Known) -> u64
    ensures { (prices : Prices) (pool : List ℤ) (trees : List Expr) → IsOperator node.now
        → AreAccepted prices (map (tree_at trees) (operands node.now)) (first.now ∷ second.now ∷ [])
        → result ≡ capped (element_work prices (expr_of pool trees node.now)) }
{
    let operands = first.work.saturating_add(second.work);
    match node {
        Node::Scan { .. } => 1,
        Node::Reduce { .. } => folded_work(extent_at(first.shape.extents(), 0), 1, operands),
        Node::Inner { .. } => folded_work(extent_at(second.shape.extents(), 0), 2, operands),
        _ => 1u64.saturating_add(operands),
    }
}
