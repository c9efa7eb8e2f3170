// Compiles a source: the text that is good for the program that the source reads as.
#![tactic(auto)]

mod built;
pub mod compiled_examples;
mod compiler;
pub mod demand_examples;
mod error;
pub mod laws;
pub mod nest_laws;
mod nests;
pub mod serve_laws;

pub use built::built_program;
pub use compiler::compile;
pub use error::CompileError;
pub use nests::nests_of;
