// Descent of declarations, scopes, theories and files; the reader of sources.
//
// Contract: the one file of the tokens, with its places, or the first token that is nested too deep, or the least with
// which no source begins.

mod bodies;
mod clauses;
mod clones;
mod declared;
mod declaring;
mod files;
mod parameters;
mod sources;
mod types;

pub use files::whole_file;
pub use grammar::recognise::{SyntaxFault, complete, has_one_file};
pub use sources::parse;
