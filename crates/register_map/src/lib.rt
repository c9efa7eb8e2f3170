// Homes for the registers and places of nests: the machine registers that are free, and spill
// words. This project's own.
#![tactic(auto)]

mod assignment;
mod codes;
pub mod fit_examples;
mod home;
mod marks;
mod weights;

pub use assignment::assign;
pub use home::{Home, Homes};
