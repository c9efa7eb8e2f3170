// Runs an assembly on the arrays of a file, in a block of memory of its own.
#![tactic(auto)]

mod error;
pub mod examples;
pub mod laws;
mod outputs;
mod run;
mod start;

pub use error::RunError;
pub use run::run_on_arrays;
