// What one use of an expression counts.
ghost use Rattle.std.specs.Prelude.{◌≡◌, ◌<◌, ◌+◌, ◌*◌, ℕ, ℤ, List, length, slice_index};
ghost use Rattle.moa_tree.specs.Expr.{Expr};
ghost use Rattle.moa_tree.specs.Pool.{expr_of, tree_at, walk_of};
ghost use Rattle.moa_tree.specs.Pools.{IsProgram};
ghost use Rattle.shape_check.specs.Costs.{Prices, element_work, nodes};
ghost use Rattle.shape_check.specs.Uses.{HasOperands, HasShapes, IsCapped, IsPriced, IsUse, form_nodes, form_work};
ghost use Rattle.shape_check.specs.Judged.{AreNames};

use crate::names::Names;
use moa_tree::{Node, Operands, Program, node_trees, parts_are_there, walks_in_order};
use shapes_core::{Name, Shape};

/// The nodes of an expression, and its work for one element. Counts that are greater than the greatest number of 64
/// bits are that number.
#[derive(Clone, Copy)]
pub(crate) struct Counts {
    pub(crate) nodes: u64,
    pub(crate) work: u64,
}

/// How the counts of a node come from those of its operands.
enum Form {
    Stored,
    Use(Name),
    One(u32),
    Two(u32, u32),
    Inner(u32, u32),
    Reduce(u32),
}

fn form_of(node: &Node) -> Form
    ensures nodes { (prices : Prices) (pool : List ℤ) (trees : List Expr)
        → nodes prices (expr_of pool trees node.now) ≡ form_nodes prices (tree_at trees) result }
    ensures work { (prices : Prices) (pool : List ℤ) (trees : List Expr)
        → element_work prices (expr_of pool trees node.now) ≡ form_work prices (tree_at trees) result }
    ensures operands { HasOperands result node.now }
{
    match node {
        Node::Use(name) => Form::Use(*name),
        Node::Scan { .. } => Form::Stored,
        Node::Inner { left, right, .. } => Form::Inner(*left, *right),
        Node::Reduce { of, .. } => Form::Reduce(*of),
        _ => match node.operands() {
            Operands::None => Form::Stored,
            Operands::One(of) => Form::One(of),
            Operands::Two(left, right) => Form::Two(left, right),
        },
    }
}

/// The counts of an array that is stored.
fn stored() -> Counts
    ensures { IsCapped 1 1 result }
{
    Counts { nodes: 1, work: 1 }
}

/// The counts of a name.
fn used(names: &Names, name: Name) -> Counts
    ensures { (prices : Prices) → AreNames names.now prices → IsUse prices name result }
{
    let _spelling = name.bytes();
    match names.find(name) {
        None => stored(),
        Some(known) => Counts {
            nodes: known.nodes,
            work: known.work,
        },
    }
}

/// The counts above an operand that is gone over once.
fn above(of: Counts) -> Counts
    ensures { (nodes work : ℕ) → IsCapped nodes work of → IsCapped (1 + nodes) (1 + work) result }
{
    Counts {
        nodes: of.nodes.saturating_add(1),
        work: of.work.saturating_add(1),
    }
}

/// The counts of two operands.
fn both(left: Counts, right: Counts) -> Counts
    ensures { (nodes work more most : ℕ) → IsCapped nodes work left → IsCapped more most right
        → IsCapped (nodes + more) (work + most) result }
{
    Counts {
        nodes: left.nodes.saturating_add(right.nodes),
        work: left.work.saturating_add(right.work),
    }
}

/// The counts above an operand that is gone over so many times.
fn above_all(of: Counts, extent: u64) -> Counts
    ensures { (nodes work : ℕ) → IsCapped nodes work of → IsCapped (1 + nodes) (1 + extent * work) result }
{
    Counts {
        nodes: of.nodes.saturating_add(1),
        work: extent.saturating_mul(of.work).saturating_add(1),
    }
}

/// The same with a step of an operator at each time.
fn stepped(of: Counts, step: u64) -> Counts
    ensures { (nodes work : ℕ) → IsCapped nodes work of → IsCapped nodes (step + work) result }
{
    Counts {
        nodes: of.nodes,
        work: of.work.saturating_add(step),
    }
}

/// The first extent of a shape, or 0.
fn first_extent(shape: &Shape) -> u64
    ensures { result ≡ slice_index shape.now 0 }
{
    match shape.extents().first() {
        None => 0,
        Some(extent) => *extent,
    }
}

/// The counts of the expression of a node, where the table has the shapes of its nodes.
pub(crate) fn counts_of(program: &Program, names: &Names, shapes: &[Shape], number: u32) -> Counts
    requires program { IsProgram program.now }
    requires there { number < length program.now.nodes }
    requires each { length shapes.now ≡ length program.now.nodes }
    ensures { (prices : Prices) → AreNames names.now prices
        → HasShapes program.now prices shapes.now (walk_of program.now.nodes number) → IsPriced program.now prices number result }
{
    walks_in_order();
    node_trees();
    parts_are_there();
    let node = program.node(number);
    match form_of(&node) {
        Form::Stored => stored(),
        Form::Use(name) => used(names, name),
        Form::One(of) => above(counts_of(program, names, shapes, of)),
        Form::Two(left, right) => above(both(
            counts_of(program, names, shapes, left),
            counts_of(program, names, shapes, right),
        )),
        Form::Inner(left, right) => {
            let extent = first_extent(&shapes[right as usize]);
            let each = both(
                counts_of(program, names, shapes, left),
                counts_of(program, names, shapes, right),
            );
            above_all(stepped(each, 2), extent)
        }
        Form::Reduce(of) => {
            let extent = first_extent(&shapes[of as usize]);
            above_all(stepped(counts_of(program, names, shapes, of), 1), extent)
        }
    }
}
