// The faults of a run; files that are fetched by their numbers; how parts of a run answer one after another, the first
// stop first.
//
// Contract: exactly the file, or what stops; laws of the answers of parts.

mod faults;
mod fetching;

pub use faults::{Fault, RunFault};
pub use fetching::{fetch_short, fetch_whole};
pub use outside::{Library, Seq};
