// A program as its pools.
ghost use Rattle.std.specs.Prelude.{◌≡◌, ◌+◌, ◌<◌, ◌≤◌, Some, length, slice_get};
ghost use Rattle.moa_tree.specs.Pool.{list_at};
ghost use Rattle.moa_tree.specs.Pools.{AreThere, IsProgram};

use crate::tree::{Node, Numbers, Statement, Version};
use std::marker::Model;
use text_tokens::Position;

/// A program: its version, and its statements over a pool of nodes, with the position of each, and a pool of numbers.
/// Its canonical text reads as this program, up to positions and the numbering of the pools.
#[derive(Drop)]
pub struct Program {
    version: Version,
    nodes: Vec<Node>,
    positions: Vec<Position>,
    numbers: Vec<i64>,
    statements: Vec<Statement>,
}

impl Model for Program {
    ghost use Rattle.moa_tree.specs.Pools.{IsProgram, Pools};

    ghost Value = { Pools };

    ghost view = { λ p. record { version = p.version; nodes = p.nodes.items; positions = p.positions.items; numbers = p.numbers.items; statements = p.statements.items } };

    ghost invariant = { λ p. IsProgram (record { version = p.version; nodes = p.nodes.items; positions = p.positions.items; numbers = p.numbers.items; statements = p.statements.items }) };
}

impl Program {
    /// The program of these pools. It takes no memory.
    pub fn new(
        version: Version,
        nodes: Vec<Node>,
        positions: Vec<Position>,
        numbers: Vec<i64>,
        statements: Vec<Statement>,
    ) -> Program
        requires { IsProgram (record { version = version; nodes = nodes.items; positions = positions.items; numbers = numbers.items; statements = statements.items }) }
        ensures { result ≡ record { version = version; nodes = nodes.items; positions = positions.items; numbers = numbers.items; statements = statements.items } }
    {
        Program {
            version,
            nodes,
            positions,
            numbers,
            statements,
        }
    }

    /// The version of the language that the program is written in.
    pub fn version(&self) -> Version
        ensures { result ≡ self.now.version }
    {
        self.version
    }

    /// The statements, in order.
    pub fn statements(&self) -> &[Statement]
        ensures value { result.now ≡ self.now.statements }
        ensures program { IsProgram self.now }
    {
        &self.statements
    }

    /// The node of this number.
    pub fn node(&self, number: u32) -> Node
        requires { number < length self.now.nodes }
        ensures { slice_get self.now.nodes number ≡ Some result }
    {
        self.nodes[number as usize]
    }

    /// The position of the word or the number with which the node begins.
    pub fn position(&self, number: u32) -> Position
        requires { number < length self.now.nodes }
        ensures { slice_get self.now.positions number ≡ Some result }
    {
        self.positions[number as usize]
    }

    /// The numbers of a list.
    pub fn list(&self, numbers: Numbers) -> &[i64]
        requires { AreThere self.now.numbers numbers }
        ensures { result.now ≡ list_at self.now.numbers numbers }
    {
        let start = numbers.start as usize;
        &self.numbers[start..start + numbers.count as usize]
    }
}
