//! The transformation that splits every goal, under `forall`, `let` and `if` too, and brings refutations of the parts back.
//!
//! Contract: `Transform`.
#![tactic(auto)]

mod gluing;
mod opening;
mod over;
pub mod parts;
mod refuting;
mod splitting;

pub use splitting::Split;
