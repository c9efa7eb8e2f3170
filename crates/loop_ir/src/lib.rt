// Loop nests: what a job is compiled to before its numbers get homes and its steps become lines. This project's own.
#![tactic(auto)]

pub mod laws;
mod lists;
mod nest;
pub mod nest_examples;
mod step;

pub use lists::Lists;
pub use nest::Nest;
pub use step::Step;
