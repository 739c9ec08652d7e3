//! The removal of propositions by theory and name.
//!
//! Contract: the task of its equation, and the laws of a transformation.
#![tactic(auto)]

mod removal;
mod removing;

pub use evidence::stage_limits::limit_tasks;
pub use removal::is_removed;
pub use removing::Remove;
