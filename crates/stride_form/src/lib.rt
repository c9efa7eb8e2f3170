// Operational normal forms: each load by its entries becomes an access by a start and a stride for each variable. After Mullin
// and Thibault, A Reduction Semantics for Array Expressions: The PSI Compiler (1994).
#![tactic(auto)]

mod access;
pub mod access_examples;
pub mod binding_laws;
mod bindings;
mod collect;
mod conversion;
mod digits;
mod entries;
mod facts;
mod flags;
pub mod former_examples;
pub mod former_laws;
pub mod laws;
mod op_term;
mod operational;
pub mod operational_examples;
mod pile;
pub mod rule_laws;
mod table;
mod walk;
mod writer;
mod writing;

pub use access::Access;
pub use conversion::to_operational;
pub use facts::{Fact, Number};
pub use normal_form::Strides;
pub use op_term::OpTerm;
pub use operational::Operational;
pub use walk::Walk;
