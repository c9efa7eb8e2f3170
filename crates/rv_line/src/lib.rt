// Assembly of RV64IM: its instructions, and the texts of programs.
#![tactic(auto)]

mod assembly;
mod emitted;
mod examples;
mod fit_examples;
mod instruction;
mod label;
mod line;
mod mnemonic;
pub mod spelling_laws;

pub use assembly::{Assembly, Header};
pub use emitted::text;
pub use examples::spelling_examples;
pub use fit_examples::{area_examples, field_examples, header_examples, target_examples};
pub use line::{Branch, Imm, Line, Load, Store, Three};
