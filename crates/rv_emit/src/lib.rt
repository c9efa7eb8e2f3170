// The lines of the machine to which nests are brought, and the laws of what they do.
#![tactic(auto)]

pub mod access_examples;
mod action_laws;
mod actions;
mod computing;
mod computing_laws;
mod constants;
mod counters;
mod counting_laws;
mod emission;
pub mod emitting_examples;
mod few;
pub mod form_laws;
mod handling;
mod machine;
mod moving;
mod moving_laws;
mod owed;
mod pieces;
mod site;
pub mod size_laws;
pub mod spilling_examples;
pub mod step_laws;
mod steps;

pub use constants::constant;
pub use emission::emit;
pub use few::Few;
