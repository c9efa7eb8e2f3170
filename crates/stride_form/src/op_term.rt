// The terms of an operational form.
use crate::access::Access;
use moa_tree::{Op, Unary};
use normal_form::{Bind, Entry};

/// A term, whose operands are terms of the same pool with smaller numbers: one of a normal form, with an access in place of the
/// load of an element at entries.
#[derive(Clone, Copy)]
pub enum OpTerm {
    Lit(i64),
    Index(Entry),
    Get(Access),
    Un {
        op: Unary,
        of: u32,
    },
    Bin {
        op: Op,
        left: u32,
        right: u32,
    },
    Case {
        left: Entry,
        below: i64,
        yes: u32,
        no: u32,
    },
    Fold {
        op: Op,
        var: u32,
        low: u64,
        high: u64,
        of: u32,
    },
    Let {
        var: u32,
        bind: Bind,
        of: u32,
    },
}
