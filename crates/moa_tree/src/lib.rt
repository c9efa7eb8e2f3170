// The language's tree: operators, expressions and programs, how they are spelled, and what they mean.
#![tactic(auto)]

mod operator;
mod pool_laws;
mod program;
mod reading_examples;
mod reading_laws;
mod tree;
mod tree_examples;
mod tree_laws;
mod value_examples;
mod value_laws;
mod vocabulary_examples;

pub use operator::{Op, Unary, apply, apply_unary, identity};
pub use pool_laws::{nodes_are_local, parts_are_there, pools_grow, what_is_added};
pub use program::Program;
pub use reading_examples::{
    canonical_text, depth_refusals, expression_refusals, readings, statement_refusals,
    token_refusals,
};
pub use reading_laws::{
    canonical_reads, fronts, never_both, one_reading, one_refusal, outcomes, read_or_refused,
    reads_again,
};
pub use tree::{Job, Node, Numbers, Operands, Statement, Version};
pub use tree_examples::{pool_examples, position_examples, program_pools, walk_examples};
pub use tree_laws::{node_trees, walks_in_order};
pub use value_examples::{
    axis_examples, binary_examples, fold_examples, join_examples, later_axis_examples,
    product_examples, program_examples, scan_examples, unary_examples, view_examples,
};
pub use value_laws::{fold_equations, stored_values, values_fit};
pub use vocabulary_examples::{folds, spellings, versions, words};
