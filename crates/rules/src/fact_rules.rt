// The rows that cite a fact of the task, and those of integers.
//
// Contract: each row exactly.

mod facts;
mod integers;
mod inversion;
mod parts;

pub use facts::{clause, def, fact, inv};
pub use integers::{bound, linear, trichotomy};
