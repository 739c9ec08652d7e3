//! Maps of symbols, under which type symbols may become types; the trees of one signature as trees of another, a
//! shared tree mapped once; what each element of a theory becomes in a clone; copies of declarations, entries and
//! names under such a map.
//!
//! Contract: exactly the mapped tree and the copies: the kind of a declaration and the form of a clause, an equation
//! and a proposition stay.
#![tactic(auto)]

pub mod clone_copies;
pub mod clone_elements;
mod copies;
mod making;
mod maps;

pub use copies::{copy_decl, copy_entry};
pub use making::no_trees;
pub use maps::{MappedTrees, SymbolMap, map_symbol, map_tree};
