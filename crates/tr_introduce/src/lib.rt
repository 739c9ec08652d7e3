//! The transformation `introduce_premises`.
//!
//! Contract: the task of its equation, and the laws of a transformation.
#![tactic(auto)]

mod gluing;
mod introducing;
mod introduction;
mod openings;
mod refuting;

pub use introducing::Introduce;
pub use introduction::introduced_task;
