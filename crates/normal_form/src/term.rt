// The terms of a form.
use crate::entry::{Entries, Entry};
use moa_tree::{Op, Unary};
use shapes_core::Shape;

/// A number that is computed of an index, and bound to a variable: `of` and `by` modulo `extent`; the row-major offset of
/// entries in a shape; or the digit of an offset, which is it divided by `weight` and modulo `extent`.
#[derive(Clone, Copy)]
pub enum Bind {
    Turn { of: Entry, by: u64, extent: u64 },
    Flat { of: Entries, shape: Shape },
    Digit { of: Entry, weight: u64, extent: u64 },
}

/// A term, whose operands are terms of the same pool with smaller numbers. A constant; the number of an entry; an element of
/// an area with this shape; an operator on one or two terms; one of two terms by whether an entry is below a number; a fold
/// from the left over a variable from `low` to below `high`; or a term under a variable that is bound.
#[derive(Clone, Copy)]
pub enum Term {
    Lit(i64),
    Index(Entry),
    Load {
        area: u32,
        shape: Shape,
        at: Entries,
    },
    Un {
        op: Unary,
        of: u32,
    },
    Bin {
        op: Op,
        left: u32,
        right: u32,
    },
    Case {
        left: Entry,
        below: i64,
        yes: u32,
        no: u32,
    },
    Fold {
        op: Op,
        var: u32,
        low: u64,
        high: u64,
        of: u32,
    },
    Let {
        var: u32,
        bind: Bind,
        of: u32,
    },
}
