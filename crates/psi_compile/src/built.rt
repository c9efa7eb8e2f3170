// Whether a program is built so far.
ghost use Rattle.std.specs.Prelude.{◌≡◌, ◌≤◌, ◌<◌, ℕ, ℤ, IfErr, IfOk, List, MatchOption, length};
ghost use Rattle.std.specs.List.{AllByRecursion, flat_map};
ghost use Rattle.moa_reader.specs.Limits.{longest_source};
ghost use Rattle.moa_tree.specs.Expr.{Expr};
ghost use Rattle.moa_tree.specs.Pool.{expr_of, walk_of};
ghost use Rattle.moa_tree.specs.Pools.{IsProgram, nodes_of, tree_of, walk};
ghost use Rattle.moa_tree.specs.Positions.{StandsIn};
ghost use Rattle.moa_tree.specs.Readings.{Reads};
ghost use Rattle.nest_jobs.specs.Plain.{ArePlain, is_plain};
ghost use Rattle.psi_compile.specs.Built.{IsNotBuilt};
ghost use Rattle.psi_compile.specs.Errors.{IsBuiltFirst, IsCause};
ghost use Rattle.psi_compile.specs.Unbuilt.{first_in};

use crate::error::CompileError;
use crate::laws::causes_are_kept;
use moa_reader::read;
use moa_tree::{Node, Operands, Program, Statement, node_trees, parts_are_there, walks_in_order};
use shape_check::{Checked, check};
use std::alloc::Global;
use text_tokens::Position;

/// Whether the operator of a node is built: it makes no choice, no fold and no binding.
fn is_built(node: &Node) -> bool
    ensures { (pool : List ℤ) (trees : List Expr)
        → result ≡ is_plain (expr_of pool trees node.now) }
{
    match node {
        Node::Rotate { .. } => false,
        Node::Cat { .. } => false,
        Node::Reshape { .. } => false,
        Node::Ravel { .. } => false,
        Node::Inner { .. } => false,
        Node::Reduce { .. } => false,
        Node::Scan { .. } => false,
        Node::Number(_) | Node::Use(_) | Node::Iota(_) => true,
        Node::One { .. } | Node::Two { .. } | Node::Outer { .. } => true,
        Node::Psi { .. } | Node::Take { .. } | Node::Drop { .. } => true,
        Node::Reverse { .. } | Node::Transpose { .. } | Node::Permute { .. } => true,
    }
}

/// The first node in the expression of a node, in prefix order, whose operator is not built.
fn first_below(program: &Program, number: u32) -> Option<u32>
    requires program { IsProgram program.now }
    requires there { number < length program.now.nodes }
    ensures { result ≡ first_in program.now (walk_of program.now.nodes number) }
{
    node_trees();
    walks_in_order();
    parts_are_there();
    let node = program.node(number);
    if !is_built(&node) {
        return Some(number);
    }
    match node.operands() {
        Operands::None => None,
        Operands::One(of) => first_below(program, of),
        Operands::Two(left, right) => match first_below(program, left) {
            Some(found) => Some(found),
            None => first_below(program, right),
        },
    }
}

/// The first in the expression of a statement.
fn first_in_statement(program: &Program, statement: &Statement) -> Option<u32>
    requires program { IsProgram program.now }
    requires there { AllByRecursion (λ number. number < length program.now.nodes)
        (nodes_of statement.now) }
    ensures { result ≡ first_in program.now
        (flat_map (walk_of program.now.nodes) (nodes_of statement.now)) }
{
    match statement {
        Statement::Input { .. } => None,
        Statement::Name { node, .. } | Statement::Output { node, .. } => {
            first_below(program, *node)
        }
    }
}

/// The first in a program.
fn first_node(program: &Program) -> Option<u32>
    requires { IsProgram program.now }
    ensures { result ≡ first_in program.now (walk program.now) }
{
    parts_are_there();
    for statement in program.statements() {
        if let Some(found) = first_in_statement(program, statement) {
            return Some(found);
        }
    }
    None
}

/// The position of the first expression of a program that is not built.
fn first_unbuilt(program: &Program) -> Option<Position>
    ensures { (text : List ℕ) → Reads text (tree_of program.now) → StandsIn text program.now
        → MatchOption result (ArePlain (tree_of program.now).statements)
        (λ at. IsNotBuilt text at) }
{
    walks_in_order();
    let _statements = program.statements();
    match first_node(program) {
        None => None,
        Some(number) => Some(program.position(number)),
    }
}

/// The program that a source reads as, of which each expression is built, checked. A source is
/// refused where the reader refuses it, and else where it has an expression that is not built, at
/// the first one, and else where the check refuses it.
pub fn built_program(alloc: Global, source: &[u8]) -> Result<Checked, CompileError>
    requires { length source.now ≤ longest_source }
    ensures read { IfOk result (λ checked. Reads source.now (tree_of checked.pools)) }
    ensures plain { IfOk result (λ checked. ArePlain (tree_of checked.pools).statements) }
    ensures causes { IfErr result (λ error. IsCause source.now error) }
    ensures built { IfErr result (λ error. IsBuiltFirst source.now error) }
{
    causes_are_kept();
    let program = read(alloc, source)?;
    if let Some(at) = first_unbuilt(&program) {
        return Err(CompileError::NotBuilt { at });
    }
    Ok(check(alloc, program)?)
}
