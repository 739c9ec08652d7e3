//! Files of steps with all lines and rules, read.
//!
//! Contract: the steps of a file, which may come in pieces, or its first wrong line as soon as it is ended.
#![tactic(auto)]

mod ended;
mod fault;
mod feeding;
mod good;
mod marks;
pub mod quick_steps;
mod read;
pub mod shared_sums;
mod words;

pub use fault::ReadFault;
pub use feeding::{StepReader, read_whole};
pub use name_tables::name_entries::{NameEntry, NameOf};
