//! Files of steps with all lines and rules, written.
//!
//! Contract: a text that is read back as the same steps, by any table that names what is in them, and by the task's own.
#![tactic(auto)]

mod named;
mod roots;
pub mod tree_writing;
mod words;
mod writer;

pub use kernel::{closes, ends_in_start, first_wrong, right_step};
pub use name_tables::{NameEntry, NameOf, task_names};
pub use step_lines::rule_words::{Argument, word_of, written_rule};
pub use step_reading::{ReadFault, StepReader, read_whole};
pub use writer::{write_derivation, write_steps, written_steps};
