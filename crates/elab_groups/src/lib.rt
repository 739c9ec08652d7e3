//! Groups of functions, predicates and constants: what the elaboration of each kind of declaration depends on, the
//! members of a group, their bodies by one list of type equations, the equations that define them.
//!
//! Contract: exactly what a group makes, or its first fault.
#![tactic(auto)]

mod bodies;
mod equations;
mod groups;
pub mod members;
pub mod parts;
mod solving;

pub use groups::elaborate_group;
pub use solving::{Bodies, solve_group};
