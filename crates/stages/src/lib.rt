//! The transformations by their words, the stages of a driver, tasks carried through them, and refutations brought
//! back through all of them.
//!
//! Contract: exactly the tasks of the equations, or the first refusal by its stage; a derivation of the task with the
//! sequents of the refutations.
#![tactic(auto)]

mod carrying;
mod fault;
mod lifting;
mod listing;
mod task_levels;
pub mod transformations;

pub use crate::transformations::Transformation;
pub use carrying::carry;
pub use fault::CarryFault;
pub use lifting::{Derived, lift};
pub use listing::stages_of;
pub use task_levels::{Level, TaskLevels};
