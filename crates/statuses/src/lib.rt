//! The shape of the words, the statuses with their lines and codes, what is put on the sinks; the order of faults;
//! what the code of a fault means.
//!
//! Contract: exactly the command of the words; what a text or a line does to a sink, and the status after it; the
//! message of each code.
#![tactic(auto)]

pub mod explain;
pub mod fault_order;
mod lines;
mod numbers;
mod sinks;
mod status;
mod words;

pub use crate::fault_order::{Fault, RunFault, fetch_short, fetch_whole};
pub use lines::line_of;
pub use outside::{Library, Seq, Sink};
pub use sinks::{finish, report};
pub use status::Status;
pub use words::{Command, read_command};
