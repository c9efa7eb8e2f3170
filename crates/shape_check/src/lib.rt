// The verdict on a program that was read: its shapes, its jobs, the layout of its block and what it costs, or the first
// rule or limit that fails.
#![tactic(auto)]

mod broken;
mod checked;
mod checking;
pub mod cost_examples;
mod counts;
mod dispatch;
mod entries;
mod error;
mod expression;
mod inventory;
pub mod kept_examples;
mod known;
pub mod laws;
mod layout;
pub mod layout_examples;
mod limits;
mod names;
mod nodes;
mod operators;
mod parts;
mod progress;
mod scans;
mod statement;
mod survey;
mod totals;
mod uses;
pub mod verdict_examples;

pub use checked::{Checked, layout_of};
pub use checking::check;
pub use error::CheckError;
pub use layout::Layout;
pub use moa_tree::Job;
