// The search for the wanted instances of a polymorphic formula over a store: what asks for instances of it, and the wanted assignments, one
// type variable after the other.
//
// Contract: exactly the wanted assignments, in their order, up to a number of them.

mod asking;
mod search;

pub use crate::instance_search::{InstanceKey, Sought, gather, types_in_order};
pub use search::wanted_assignments;
