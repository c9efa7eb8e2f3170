// What lines of RV64IM do on a machine, what runs of them leave, and what a compiled text is good for.
#![tactic(auto)]

pub mod access_examples;
pub mod access_laws;
pub mod arithmetic_examples;
pub mod constant_laws;
pub mod frame_laws;
pub mod good_examples;
pub mod loop_examples;
pub mod loop_laws;
pub mod machine_examples;
pub mod machine_laws;
pub mod run_laws;
pub mod word_laws;
