// Words, numbers and signs: the tokens that sources and array files are made of, and a scanner that gives the
// tokens of a text one after the other.
//
// Contracts see a text as the list of its tokens with their positions, which specs/ defines from its bytes.
// No call takes memory or copies the text, and the scanner takes time linear in its bytes.
#![tactic(auto)]

mod bytes;
pub mod cut_examples;
pub mod laws;
mod looks;
mod number;
mod run;
mod scanner;
mod text;
mod token;

pub use looks::Looks;
pub use scanner::Scanner;
pub use token::{Position, Sign, Token};
