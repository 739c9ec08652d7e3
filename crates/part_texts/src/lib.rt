//! The problems of the parts of a goal, and their texts or name tables, one after another, in SMT-LIB 2.6 and in TFF0;
//! a law of what an SMT-LIB text says.
//!
//! Contract: exactly the texts, or the first fault by its part.
#![tactic(auto)]

mod fault;
mod making;
mod names;
pub mod smt_law;
pub mod smt_texts;
mod texts;
pub mod tff_texts;

pub use drivers::driver_parts::Driver;
pub use fault::PartFault;
pub use making::problems_of;
pub use names::name_texts;
pub use printed_problems::{PrintFault, Problem};
pub use texts::part_texts;
