// What is known of variables.
use crate::walk::Walk;
use normal_form::Entry;

/// An entry with the least and the greatest number that it may be, and with the offset of a load of one axis at it.
#[derive(Clone, Copy)]
pub struct Number {
    pub entry: Entry,
    pub least: i64,
    pub greatest: i64,
    pub walk: Walk,
}

/// What is known of a variable: that it is a number from `low` on and below `high`, that it stands for an entry, that it is an
/// offset below `total`, or that it is a digit of a number.
#[derive(Clone, Copy)]
pub enum Fact {
    Range {
        low: u64,
        high: u64,
    },
    Alias(Entry),
    Offset {
        total: u64,
        walk: Walk,
    },
    DigitOf {
        of: Number,
        weight: u64,
        extent: u64,
    },
}
