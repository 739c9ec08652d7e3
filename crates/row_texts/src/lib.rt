//! What the programs of rows print: trees, entries and declarations in prefix form, on one line.
#![tactic(auto)]

mod declarations;
mod printing;

pub use declarations::{put_declaration, put_entries};
pub use printing::{put_name, put_number, put_numbered, put_symbol, put_tree, put_trees};
