// What occurs in trees over a store, each once, by first appearance: instances of symbols, or types; a part that is shared is looked at
// once. The search for wanted instances is made of it.
//
// Contract: exactly what occurs, in order.

mod gathering;

pub use gathering::{InstanceKey, Sought, gather, types_in_order};
