// The pools of a program that is being read.
ghost use Rattle.std.specs.Prelude.{◌≡◌, ◌+◌, ◌-◌, ◌<◌, ◌≤◌, [], ◌∷◌, length, IfOk, OnOk};
ghost use Rattle.shapes_core.specs.Limits.{most_items};
ghost use Rattle.moa_tree.specs.Canonical.{canonical};
ghost use Rattle.moa_tree.specs.Pool.{expr_of, trees};
ghost use Rattle.moa_tree.specs.Pools.{tree_of};
ghost use Rattle.moa_tree.specs.Readings.{Reads};
ghost use Rattle.moa_reader.specs.Build.{IsOpen, no_pools, with_node, with_numbers, with_statement};
ghost use Rattle.moa_reader.specs.Frames.{tree_in};
ghost use Rattle.moa_reader.specs.Rooms.{built};

use moa_tree::{Node, Numbers, Program, Statement, Version, what_is_added};
use shapes_core::NoMemory;
use std::alloc::Global;
use std::marker::Model;
use text_tokens::Position;

/// The version of a program, and the nodes, numbers and statements that were read so far.
#[derive(Drop)]
pub(crate) struct Builder {
    version: Version,
    nodes: Vec<Node>,
    positions: Vec<Position>,
    numbers: Vec<i64>,
    statements: Vec<Statement>,
}

impl Model for Builder {
    ghost use Rattle.std.specs.Prelude.{◌+◌, ◌≤◌, length};
    ghost use Rattle.shapes_core.specs.Limits.{most_items};
    ghost use Rattle.moa_tree.specs.Pools.{Pools};

    ghost Value = { Pools };

    ghost view = { λ b. record { version = b.version; nodes = b.nodes.items; positions = b.positions.items; numbers = b.numbers.items; statements = b.statements.items } };

    ghost invariant = { λ b. length b.nodes.items + length b.numbers.items + length b.statements.items ≤ most_items };
}

impl Builder {
    #[tactic(auto, using(crate::proofs::RoomLemmas::built_nothing))]
    pub(crate) fn new(alloc: Global, version: Version) -> Builder
        ensures value { result ≡ no_pools version }
        ensures nothing { built result ≡ 0 }
    {
        Builder {
            version,
            nodes: Vec::new(alloc),
            positions: Vec::new(alloc),
            numbers: Vec::new(alloc),
            statements: Vec::new(alloc),
        }
    }

    /// Adds a node, and gives its number.
    pub(crate) fn node(&mut self, node: Node, at: Position) -> Result<u32, NoMemory>
        requires { built self.old < most_items }
        ensures added { OnOk result (self.new ≡ with_node self.old node at) }
        ensures number { IfOk result (λ number. number ≡ length self.old.nodes) }
        ensures tree { IfOk result (λ number. tree_in self.new number ≡ expr_of self.old.numbers (trees self.old.numbers self.old.nodes) node) }
        ensures built { OnOk result (built self.new ≡ 1 + built self.old) }
    {
        what_is_added();
        let number = self.nodes.len();
        self.positions.push(at)?;
        self.nodes.push(node)?;
        Ok(number as u32)
    }

    /// Where a list begins whose numbers are added next.
    pub(crate) fn list(&self) -> usize
        ensures value { result ≡ length self.now.numbers }
        ensures few { length self.now.numbers ≤ most_items }
    {
        self.numbers.len()
    }

    /// Adds a number to the list that was begun last.
    pub(crate) fn number(&mut self, value: i64) -> Result<(), NoMemory>
        requires { built self.old < most_items }
        ensures added { OnOk result (self.new ≡ with_numbers self.old (value ∷ [])) }
        ensures built { OnOk result (built self.new ≡ 1 + built self.old) }
    {
        self.numbers.push(value)?;
        Ok(())
    }

    /// The list of the numbers that were added since it was begun.
    pub(crate) fn list_from(&self, start: usize) -> Numbers
        requires { start ≤ length self.now.numbers }
        ensures value { result ≡ record { start = start; count = length self.now.numbers - start } }
        ensures few { length self.now.numbers ≤ most_items }
    {
        let len = self.numbers.len();
        Numbers {
            start: start as u32,
            count: (len - start) as u32,
        }
    }

    pub(crate) fn statement(&mut self, statement: Statement) -> Result<(), NoMemory>
        requires { built self.old < most_items }
        ensures added { OnOk result (self.new ≡ with_statement self.old statement) }
        ensures built { OnOk result (built self.new ≡ 1 + built self.old) }
    {
        self.statements.push(statement)?;
        Ok(())
    }

    /// The program of these pools, in which nothing is left without use.
    pub(crate) fn finish(self) -> Program
        requires closed { IsOpen [] [] self }
        requires reads { Reads (canonical (tree_of self)) (tree_of self) }
        ensures { result ≡ self }
    {
        Program::new(
            self.version,
            self.nodes,
            self.positions,
            self.numbers,
            self.statements,
        )
    }
}
