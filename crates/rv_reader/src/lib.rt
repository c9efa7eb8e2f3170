// Reads an assembly text: the program that it spells, with the line of the text where each instruction stands, or the
// line and the cause for which it is refused. Which texts are refused is a definition that computes, with its laws.
#![tactic(auto)]

mod asm;
mod body;
mod cuts;
mod draft;
mod error;
mod examples;
mod form;
mod header;
mod instruction;
mod kind;
mod labels;
pub mod laws;
mod limits;
mod lines;
mod names;
mod operands;
mod parts;
mod reading;
mod row;
mod rows;
mod settle;
mod split;

pub use asm::read_asm;
pub use error::AsmError;
pub use examples::{
    accepted_texts, area_refusals, header_refusals, line_refusals, reading_examples,
    target_refusals,
};
pub use limits::LONGEST_ASSEMBLY;
