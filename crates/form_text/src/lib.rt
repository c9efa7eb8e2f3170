// How normal and operational forms are spelled, one line a job, and loop nests, one line a step.
#![tactic(auto)]

mod actions;
mod areas;
mod entries;
pub mod examples;
mod heads;
mod nest_lines;
mod normal_line;
mod op_heads;
mod operational_line;
mod pieces;
mod rows;
mod strides;
mod words;

pub use nest_lines::nest_text;
pub use normal_line::normal_text;
pub use operational_line::operational_text;
