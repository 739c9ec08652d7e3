//! The files of `stress` as a library: a source, a driver, and the refutations of the parts of the source's goal.
//!
//! Contract: exactly the texts of the definitions.
#![tactic(auto)]

mod library;
mod refutations;
mod sources;
mod templates;

pub use library::{StressLibrary, accepted_text, refutation_names};
pub use refutations::refutation;
pub use sources::source;
