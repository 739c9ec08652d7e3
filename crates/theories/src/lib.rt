//! The theories of a source: declarations one after another, with their side conditions, `use`, `clone` and scopes,
//! after the embedded library; laws: a source has at most one list of theories, the task of each goal is valid, the
//! names of its symbols are words of a line, and the entries of int.Int are the first.
//!
//! Contract: exactly the theories of a source, or its first fault.
#![tactic(auto)]

mod cloned_laws;
pub mod cloning;
mod declarations;
pub mod declaring;
pub mod determined;
mod files;
mod ints;
pub mod side_conditions;
mod sound_laws;
mod words_laws;

pub use cloned_laws::{cloned_sound, stays_plain};
pub use determined::theories_determined;
pub use elaboration_laws::{CheckFault, TaskFault, Theories, Theory, ValueShape, cover, task_of};
pub use files::type_file;
pub use ints::ints_known;
pub use sound_laws::{source_tasks_valid, theories_sound};
pub use theory_states::SourceFault;
pub use words_laws::names_words;
