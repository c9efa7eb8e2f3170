// What a text is made of.
use shapes_core::Name;

/// Where a byte stands: both numbers count from 1, and a column counts bytes.
#[derive(Clone, Copy, Debug, PartialEq, Eq)]
pub struct Position {
    pub line: u32,
    pub column: u32,
}

/// A token of one byte: `<`, `>`, `(`, `)` or `=`.
#[derive(Clone, Copy, Debug, PartialEq, Eq)]
pub enum Sign {
    Less,
    Greater,
    Open,
    Close,
    Equal,
}

/// A token of a text.
#[derive(Clone, Copy)]
pub enum Token {
    /// A word of at most 64 bytes.
    Word(Name),
    /// A word of more than 64 bytes.
    LongWord,
    Number(i64),
    /// A number outside -2^63 to 2^63 - 1.
    OutOfRange,
    Sign(Sign),
    /// Bytes that form no token: a run that is neither a word nor a number, or one byte that stands in no run.
    Malformed,
    /// The end of the text.
    End,
}
