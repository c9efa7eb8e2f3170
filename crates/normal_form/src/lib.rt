// Normal forms: the terms to which the index rules bring a job, and what they mean. After Mullin, A Mathematics of Arrays
// (1988), and Mullin and Thibault, A Reduction Semantics for Array Expressions: The PSI Compiler (1994).
#![tactic(auto)]

mod entry;
pub mod former_examples;
pub mod keeping_laws;
pub mod laws;
mod normal;
mod region;
mod strides;
mod term;

pub use entry::{Entries, Entry};
pub use normal::Normal;
pub use region::Region;
pub use strides::Strides;
pub use term::{Bind, Term};
