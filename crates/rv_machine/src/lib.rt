// The interpreter that runs lines of RV64IM on registers and a block of memory.
#![tactic(auto)]

mod arithmetic;
mod chains;
mod flow;
pub mod laws;
mod machine;
mod memory;
mod registers;
mod step;
mod text;

pub use machine::{End, Regs, run};
