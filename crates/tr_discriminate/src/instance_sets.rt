// The three sets of instances of `discriminate` over a store, and the declarations of a task with the wanted instances at a set in the place
// of polymorphic propositions.
//
// Contract: exactly those at the last set; too large only where a task is at one of its sets.

mod instances;
mod sets;

pub use sets::discriminated_declarations;
