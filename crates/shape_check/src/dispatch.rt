// What an operator makes of its operands.
ghost use Rattle.std.specs.Prelude.{◌≡◌, ◌<◌, ℕ, List, [], ◌∷◌, length, map};
ghost use Rattle.std.specs.List.{AllByRecursion};
ghost use Rattle.moa_tree.specs.Expr.{Expr, Use};
ghost use Rattle.moa_tree.specs.Pool.{expr_of, operands, tree_at};
ghost use Rattle.moa_tree.specs.Pools.{AreThere, IsProgram, lists_of};
ghost use Rattle.shape_check.specs.Broken.{located};
ghost use Rattle.shape_check.specs.Costs.{Prices, shapes_of};
ghost use Rattle.shape_check.specs.Judged.{AreNames, node_tree};
ghost use Rattle.shape_check.specs.Operated.{AreAccepted, AreShaped, IsOperated, IsOperator, node_at};
ghost use Rattle.shape_check.specs.Verdict.{verdict};

use crate::broken::Broken;
use crate::counts::{operator_nodes, operator_work};
use crate::known::Known;
use crate::limits::limited;
use crate::names::Names;
use crate::operators::{
    cat_shape, drop_shape, inner_shape, iota_shape, outer_shape, permute_shape, pointwise_shape,
    psi_shape, ravel_shape, reduce_shape, reshape_shape, take_shape, transpose_shape, with_axis,
};
use crate::parts::{node_at, node_laws};
use moa_tree::{Node, Program};
use shapes_core::{Name, Shape};

/// The shape that an operator makes of its operands' shapes.
fn operator_shape(
    program: &Program,
    node: &Node,
    first: &Shape,
    second: &Shape,
) -> Result<Shape, Broken>
    requires { AllByRecursion (AreThere program.now.numbers) (lists_of node.now) }
    ensures { (prices : Prices) (trees : List Expr) → IsOperator node.now
        → AreShaped (shapes_of prices) (map (tree_at trees) (operands node.now)) (first.now ∷ second.now ∷ [])
        → (at : ℕ) → located at result ≡ verdict (shapes_of prices) at (expr_of program.now.numbers trees node.now) }
{
    match node {
        Node::Number(_) | Node::Use(_) => limited(&[]),
        Node::Iota(extent) => iota_shape(*extent),
        Node::One { .. } => limited(first.extents()),
        Node::Two { .. } => pointwise_shape(first, second),
        Node::Psi { list, .. } => psi_shape(program.list(*list), first),
        Node::Take { list, .. } => take_shape(program.list(*list), first),
        Node::Drop { list, .. } => drop_shape(program.list(*list), first),
        Node::Reverse { .. } => with_axis(first, 12),
        Node::Rotate { .. } => with_axis(first, 13),
        Node::Transpose { .. } => transpose_shape(first),
        Node::Permute { list, .. } => permute_shape(program.list(*list), first),
        Node::Cat { .. } => cat_shape(first, second),
        Node::Reshape { list, .. } => reshape_shape(program.list(*list), first),
        Node::Ravel { .. } => ravel_shape(first),
        Node::Outer { .. } => outer_shape(first, second),
        Node::Inner { .. } => inner_shape(first, second),
        Node::Reduce { .. } => reduce_shape(first),
        Node::Scan { .. } => with_axis(first, 24),
    }
}

/// What is known of an operator by what is known of its operands, or what is broken. An operand that it has not
/// counts nothing.
pub(crate) fn operate(
    program: &Program,
    number: u32,
    first: &Known,
    second: &Known,
) -> Result<Known, Broken>
    requires program { IsProgram program.now }
    requires there { number < length program.now.nodes }
    ensures { (prices : Prices) → IsOperator (node_at program.now number)
        → AreAccepted prices (map (node_tree program.now) (operands (node_at program.now number))) (first.now ∷ second.now ∷ [])
        → IsOperated prices (node_tree program.now number) result }
{
    node_laws(program);
    let node = node_at(program, number);
    match operator_shape(program, &node, &first.shape, &second.shape) {
        Ok(shape) => Ok(Known {
            shape,
            nodes: operator_nodes(&node, first, second),
            work: operator_work(&node, first, second),
        }),
        Err(broken) => Err(broken),
    }
}

/// What is known of a name, or that no earlier statement has it.
pub(crate) fn declared(names: &Names, name: Name) -> Result<Known, Broken>
    ensures { (prices : Prices) → AreNames names.now prices → IsOperated prices (Use name) result }
{
    let _bytes = name.bytes();
    match names.find(name) {
        Some(known) => {
            let _extents = known.shape.extents();
            Ok(known)
        }
        None => Err(Broken::Rule(2)),
    }
}
