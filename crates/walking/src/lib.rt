//! The walk of an open tree at an environment of closed terms, generic in a rule for nodes: the image of the tree, its
//! instance, and evidence that the two instances are alike; tasks whose formulas are rewritten, by one function or by
//! a rule.
//!
//! Contract: a formula of a task and its image under the rule are equivalent, by a step for each half; exactly the
//! rewritten task, its facts and its start refuted in the old task.
#![tactic(auto)]

mod arguments;
mod formulas;
mod ifs;
mod lets;
mod linked;
mod matching;
mod quantified;
mod remembered;
pub mod rewriting;
pub mod rule_rewriting;
mod walking;

pub use formulas::{Rewritten, rewrite_formula};
pub use linked::Linked;
pub use walking::{Rewrite, walk};
