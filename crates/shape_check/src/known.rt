// What is known of an expression or of a name.
use shapes_core::Shape;

/// The shape of an array, and what one use of it counts: nodes, and work for each element. Counts that are greater than
/// the greatest number of 64 bits are that number.
#[derive(Clone, Copy)]
pub struct Known {
    pub shape: Shape,
    pub nodes: u64,
    pub work: u64,
}
