// From the jobs of accepted programs to nests: what a nest asks of its form holds of the form of
// each job of a plain program, and the nests, one after another, leave what the program denotes.
#![tactic(auto)]

pub mod laws;
pub mod lead_examples;
pub mod program_laws;
pub mod source_laws;
