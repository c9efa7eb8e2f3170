// Programs as pools: nodes and numbers that are named by where they stand.
ghost use Rattle.std.specs.Prelude.{◌≡◌};
ghost use Rattle.moa_tree.specs.Pool.{listed, operands};
ghost use Rattle.moa_tree.specs.Vocabulary.{version_number, version_numbered};

use crate::operator::{Op, Unary};
use shapes_core::Name;
use text_tokens::Position;

/// The versions of the language, which the first line of a program names: `psi 1`.
#[derive(Clone, Copy, Debug, PartialEq, Eq)]
pub enum Version {
    First,
}

impl Version {
    /// The number that stands in the first line of a program.
    pub fn number(self) -> i64
        ensures value { result ≡ version_number self }
    {
        match self {
            Version::First => 1,
        }
    }

    /// The version of this number, if there is one.
    pub fn numbered(number: i64) -> Option<Version>
        ensures value { result ≡ version_numbered number }
    {
        match number {
            1 => Some(Version::First),
            _ => None,
        }
    }
}

/// Some numbers of a pool, one behind the other.
#[derive(Clone, Copy)]
pub struct Numbers {
    pub start: u32,
    pub count: u32,
}

/// An expression, whose operands are nodes of the same pool with smaller numbers.
#[derive(Clone, Copy)]
pub enum Node {
    Number(i64),
    Use(Name),
    Iota(i64),
    One {
        op: Unary,
        of: u32,
    },
    Two {
        op: Op,
        left: u32,
        right: u32,
    },
    Psi {
        list: Numbers,
        of: u32,
    },
    Take {
        list: Numbers,
        of: u32,
    },
    Drop {
        list: Numbers,
        of: u32,
    },
    Reverse {
        of: u32,
    },
    Rotate {
        by: i64,
        of: u32,
    },
    Transpose {
        of: u32,
    },
    Permute {
        list: Numbers,
        of: u32,
    },
    Cat {
        left: u32,
        right: u32,
    },
    Reshape {
        list: Numbers,
        of: u32,
    },
    Ravel {
        of: u32,
    },
    Outer {
        op: Op,
        left: u32,
        right: u32,
    },
    Inner {
        fold: Op,
        op: Op,
        left: u32,
        right: u32,
    },
    Reduce {
        fold: Op,
        of: u32,
    },
    Scan {
        fold: Op,
        of: u32,
    },
}

/// The nodes on which a node works, from the left.
#[derive(Clone, Copy)]
pub enum Operands {
    None,
    One(u32),
    Two(u32, u32),
}

impl Node {
    /// The nodes on which the node works.
    pub fn operands(self) -> Operands
        ensures { listed result ≡ operands self }
    {
        match self {
            Node::Number(_) | Node::Use(_) | Node::Iota(_) => Operands::None,
            Node::One { of, .. }
            | Node::Psi { of, .. }
            | Node::Take { of, .. }
            | Node::Drop { of, .. }
            | Node::Reverse { of }
            | Node::Rotate { of, .. }
            | Node::Transpose { of }
            | Node::Permute { of, .. }
            | Node::Reshape { of, .. }
            | Node::Ravel { of }
            | Node::Reduce { of, .. }
            | Node::Scan { of, .. } => Operands::One(of),
            Node::Two { left, right, .. }
            | Node::Cat { left, right }
            | Node::Outer { left, right, .. }
            | Node::Inner { left, right, .. } => Operands::Two(left, right),
        }
    }
}

/// A statement, with the position of its name.
#[derive(Clone, Copy)]
pub enum Statement {
    Input {
        name: Name,
        extents: Numbers,
        at: Position,
    },
    Name {
        name: Name,
        node: u32,
        at: Position,
    },
    Output {
        name: Name,
        node: u32,
        at: Position,
    },
}

/// What is computed and stored as one array: an output, or a scan, which has an operator. `area` is the
/// number of its area in the layout, and `node` its expression, of a scan the operand.
#[derive(Clone, Copy)]
pub struct Job {
    pub area: u32,
    pub node: u32,
    pub fold: Option<Op>,
}
