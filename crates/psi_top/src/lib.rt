// The commands of the program, over a shelf of files and two sinks.
#![tactic(auto)]

pub mod call_examples;
mod command;
mod execute;
mod fetch;
mod forms;
mod laws;
mod message;
mod nests;
mod program;
mod refusal;
mod report;
mod run_failure;
pub mod shown_examples;
mod start;
mod status;
mod texts;

pub use laws::{compiled_texts_run_to_their_end, one_outcome};
pub use program::psi;
pub use start::run;
pub use status::Status;
