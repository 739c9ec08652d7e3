// Groups of inductive predicates: their names and those of their clauses, the entries, the clauses by one list of type
// equations.
//
// Contract: exactly what such a group makes, or its first fault.

mod clauses;
mod inductives;
mod naming;
mod sources;

pub use inductives::elaborate_inductives;
