//! What is known while theories are typed: the theories before, the open one, and one list of all declarations, of
//! which each theory has the places of those that are visible; the names that a theory passes on, as moves in a scope;
//! the task of a goal.
//!
//! Contract: exactly the state after a theory is used, a declaration is put in, a theory is opened; the theory of a
//! path; the scopes after a `use`; the task of a goal.
#![tactic(auto)]

mod fault;
pub mod goal_tasks;
mod moves;
mod states;
mod uses;

pub use fault::SourceFault;
pub use moves::{Move, bring_theory, hand_on, leave, replay};
pub use states::{AxiomAt, KnownTheory, Opened, Typed, push_decl};
pub use uses::{alias_text, bring_names, find_theory, last_part, path_text, use_theory};
