// What is declared and where it lies in the block.
use crate::name::Name;
use crate::shape::Shape;

/// A name with the shape of its array.
#[derive(Clone, Copy)]
pub struct Declared {
    pub name: Name,
    pub shape: Shape,
}

/// What an area of the block holds: an input, an output, or the buffer of the scan of that number.
#[derive(Clone, Copy)]
pub enum AreaKind {
    In(Name),
    Out(Name),
    Scan(u32),
}

/// An array in the block, in row-major order, one word of 8 bytes an element.
#[derive(Clone, Copy)]
pub struct Area {
    pub kind: AreaKind,
    pub shape: Shape,
    /// The number of its first word, counted from the end of the spill words.
    pub start: u64,
}
