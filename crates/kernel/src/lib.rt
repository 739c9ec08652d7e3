//! Which steps are right, and which derive a task.
//!
//! Contract: exactly the right steps, with one entry for steps whose trees are known to be typed.
#![tactic(auto)]

mod rows;
mod steps;
mod typed;

pub use rules::{Rule, Step};
pub use steps::{closes, ends_in_start, first_wrong, right_step, right_typed_step};
pub use tasks::{Body, Decl, Seq, Signature, SymbolInfo, Task, Text};
pub use trees::store::Store;
pub use trees::{Ints, TermId};
