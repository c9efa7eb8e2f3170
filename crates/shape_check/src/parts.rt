// What a node works on.
ghost use Rattle.std.specs.Prelude.{◌≡◌, ◌<◌, ℕ, ◌∷◌, length, map};
ghost use Rattle.std.specs.List.{AllByRecursion, flat_map};
ghost use Rattle.moa_tree.specs.Pool.{expr_of, operands, trees, walk_of};
ghost use Rattle.moa_tree.specs.Pools.{AreThere, IsProgram, lists_of};
ghost use Rattle.moa_tree.specs.Subexpressions.{subexpressions};
ghost use Rattle.shape_check.specs.Judged.{node_tree};
ghost use Rattle.shape_check.specs.Operated.{HasParts, node_at};

use moa_tree::{Node, Operands, Program, node_trees, parts_are_there, walks_in_order};
use shapes_core::Name;

/// The name that a node stands for, or its operands.
#[derive(Clone, Copy)]
pub(crate) enum Parts {
    Name(Name),
    None,
    One(u32),
    Two(u32, u32),
}

/// The node of this number.
pub(crate) fn node_at(program: &Program, number: u32) -> Node
    requires program { IsProgram program.now }
    requires there { number < length program.now.nodes }
    ensures same { node_at program.now number ≡ result }
    ensures lists { AllByRecursion (AreThere program.now.numbers) (lists_of result) }
    ensures operands { AllByRecursion (λ operand. operand < number) (operands result) }
{
    parts_are_there();
    program.node(number)
}

/// What the nodes of a program are, by their operands: trees, walks, and that a walk goes over the expressions of its
/// tree. Nothing runs.
pub(crate) fn node_laws(program: &Program)
    requires { IsProgram program.now }
    ensures trees { (n : ℕ) → n < length program.now.nodes
        → node_tree program.now n ≡ expr_of program.now.numbers (trees program.now.numbers program.now.nodes) (node_at program.now n) }
    ensures walks { (n : ℕ) → n < length program.now.nodes
        → walk_of program.now.nodes n ≡ n ∷ flat_map (walk_of program.now.nodes) (operands (node_at program.now n)) }
    ensures expressions { (n : ℕ) → n < length program.now.nodes
        → map (node_tree program.now) (walk_of program.now.nodes n) ≡ subexpressions (node_tree program.now n) }
{
    let _program = program;
    node_trees();
    walks_in_order();
}

/// What the node of this number works on.
pub(crate) fn parts_of(program: &Program, number: u32) -> Parts
    requires program { IsProgram program.now }
    requires there { number < length program.now.nodes }
    ensures { HasParts (node_at program.now number) number result }
{
    match node_at(program, number) {
        Node::Use(name) => Parts::Name(name),
        node => match node.operands() {
            Operands::None => Parts::None,
            Operands::One(of) => Parts::One(of),
            Operands::Two(left, right) => Parts::Two(left, right),
        },
    }
}
