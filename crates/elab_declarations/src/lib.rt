//! Declarations of all kinds but `use`, `clone` and `scope`: types without a definition, aliases, groups of algebraic
//! types, groups of functions, predicates and constants, groups of inductive predicates, axioms, lemmas and goals.
//!
//! Contract: exactly what a declaration makes, or its first fault.
#![tactic(auto)]

mod declarations;
pub mod inductive_declarations;
mod new_names;
mod propositions;
pub mod type_declarations;
mod types;

pub use declarations::{begin, elaborate, is_logical, no_names};
pub use elab_groups::parts::{ElabFault, Elaborated};
pub use propositions::say;
