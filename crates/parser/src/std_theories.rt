// The embedded library: the surface trees of nine theories, read from their texts, each of which is a source by
// computation.
//
// Contract: the one file of each text, with its places, in order.

mod library;
mod texts;

pub use crate::parse_decls::parse;
pub use library::{drop_file, drop_files, library_files, texts_are_sources};
