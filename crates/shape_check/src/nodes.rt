// How many nodes a program has.
ghost use Rattle.std.specs.Prelude.{◌≡◌, ◌<◌, ◌≤◌, ℕ, length};
ghost use Rattle.std.specs.List.{AllByRecursion};
ghost use Rattle.moa_tree.specs.Pools.{IsProgram, nodes_of};

use moa_tree::{Program, Statement, parts_are_there};

/// The least bound from this one on for the number of the statement's node.
fn bound_of(bound: usize, statement: &Statement) -> usize
    ensures kept { bound ≤ result }
    ensures above { AllByRecursion (λ number. number < result) (nodes_of statement.now) }
    ensures least { (other : ℕ) → bound ≤ other → AllByRecursion (λ number. number < other) (nodes_of statement.now) → result ≤ other }
{
    match statement {
        Statement::Input { .. } => bound,
        Statement::Name { node, .. } | Statement::Output { node, .. } => {
            bound.max(*node as usize + 1)
        }
    }
}

/// The number of nodes: the last one is no operand, so it is the expression of a statement.
pub(crate) fn count_nodes(program: &Program) -> usize
    requires { IsProgram program.now }
    ensures { result ≡ length program.now.nodes }
{
    parts_are_there();
    let mut count = 0;
    for statement in program.statements() {
        count = bound_of(count, statement);
    }
    count
}
