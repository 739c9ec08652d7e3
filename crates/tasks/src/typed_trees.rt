// What is well typed over a task or a signature, and a tree by its children, without memory.
//
// Contract: exactly what the definition says.

mod enclosing;
pub mod instances;
mod open;
mod types;
mod typing;
mod vocabulary;

pub use open::{is_open_typed, variable_has_type};
pub use types::{Types, is_instance};
pub use typing::{is_ground, is_ground_formula, is_ground_type, is_typed_over, well_typed};
pub use vocabulary::Vocabulary;
