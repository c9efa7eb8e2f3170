// Array files: the values of declared arrays as text, read and printed.
//
// Contracts see a file as the list of its tokens with their lines, and the arrays that were read as
// the list of their values, an array at the place where it is declared.
#![tactic(auto)]

mod arrays;
mod error;
mod head;
mod index;
pub mod laws;
mod limits;
pub mod printed_examples;
mod printer;
mod reading;
pub mod reading_examples;
mod source;
mod values;

pub use arrays::Arrays;
pub use error::DataError;
pub use limits::LONGEST_ARRAYS;
pub use printer::print_array;
pub use reading::read_arrays;
