// The entries of name tables: a name, and what it stands for.
//
// Contract: the types alone.

mod names;

pub use names::{NameEntry, NameOf};
