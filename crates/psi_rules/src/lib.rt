// The index rules: an index is pushed through every operator of a job until only stored arrays are
// indexed. After Mullin, A Mathematics of Arrays (1988), and Mullin and Thibault, A Reduction
// Semantics for Array Expressions: The PSI Compiler (1994).
#![tactic(auto)]

mod arms;
pub mod block_laws;
mod digits;
pub mod keeping_laws;
pub mod laws;
pub mod loading_laws;
mod moves;
mod node_shapes;
mod nodes;
mod places;
mod pool;
mod reduction;
pub mod rule_examples;
mod shaped;
mod shapes;
mod sides;
mod statements;
mod tables;
pub mod task_laws;
mod terms;
mod turns;

pub use reduction::{reduce, reduce_among};
pub use statements::tables_of;
pub use tables::Tables;
