// Reads source text and writes it: exactly the programs of the language, with where each expression and each
// statement's name stands in the text, or the one position and cause for which a text is refused.
#![tactic(auto)]

mod error;
mod expression;
mod forms;
mod frames;
mod growth;
mod heads;
mod limits;
mod lists;
mod parts;
mod pools;
mod printer;
mod reading;
mod source;
mod statements;
mod words;

pub use error::ReadError;
pub use limits::LONGEST_SOURCE;
pub use printer::print;
pub use reading::read;
