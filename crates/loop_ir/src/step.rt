// The steps of nests.
use moa_tree::{Op, Unary};

/// A step over numbered registers, which hold 64-bit values, and numbered places, which hold word numbers counted from the
/// end of the spill words: a register is set to a number, to another register, to an operator on one or two; a place is set
/// to a word, to a word plus a register, or walks on by some words; a register is read from the word of an area at a place,
/// or written to it; a list of steps is done so many times, with its turns counted from 0 on; or one of two lists is done, by
/// whether a register is below a number. Lists are named by their numbers.
#[derive(Clone, Copy)]
pub enum Step {
    Set {
        to: u32,
        value: i64,
    },
    Copy {
        to: u32,
        from: u32,
    },
    One {
        op: Unary,
        to: u32,
        from: u32,
    },
    Two {
        op: Op,
        to: u32,
        left: u32,
        right: u32,
    },
    Place {
        to: u32,
        word: i64,
    },
    Spot {
        to: u32,
        word: i64,
        by: u32,
    },
    Walk {
        place: u32,
        words: i64,
    },
    Read {
        to: u32,
        area: u32,
        place: u32,
    },
    Write {
        area: u32,
        place: u32,
        from: u32,
    },
    For {
        counter: u32,
        turns: u64,
        body: u32,
    },
    If {
        left: u32,
        below: i64,
        yes: u32,
        no: u32,
    },
}
