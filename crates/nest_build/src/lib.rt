// Nests of forms: a job's operational form becomes loops that walk along its arrays. This project's own, after the starts, strides
// and loop counts of Mullin and Thibault, A Reduction Semantics for Array Expressions: The PSI Compiler (1994).
#![tactic(auto)]

mod axes;
pub mod bound_laws;
mod building;
pub mod laws;
pub mod nest_examples;
mod nesting;
mod numbers;
mod part;
mod places;
pub mod shape_laws;
mod straightness;
mod values;
mod walks;

pub use building::build;
pub use straightness::is_straight;
