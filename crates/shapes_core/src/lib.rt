// Names, shapes and areas: what every other crate of the compiler speaks of.
//
// A name and a shape are small values that are copied. Contracts see a name as the list of its bytes
// and a shape as the list of its extents. No call of this crate takes memory.
#![tactic(auto)]

mod area;
pub mod laws;
mod limits;
mod name;
mod no_memory;
mod offset;
mod shape;
pub mod shape_examples;

pub use area::{Area, AreaKind, Declared};
pub use limits::{
    GREATEST_EXTENT, GREATEST_SIZE, GREATEST_WORK, MOST_AXES, MOST_ITEMS, MOST_WORDS,
};
pub use name::Name;
pub use no_memory::NoMemory;
pub use offset::{digit, gamma, weight};
pub use shape::{Shape, same_tail, total};
