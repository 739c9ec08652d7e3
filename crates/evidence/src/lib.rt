//! Drafts of right steps; steps by each rule and by scripts of rules; what a transformation is; the bound of a stage;
//! what a task with other parts keeps; a stage brought back.
//!
//! Contract: a transformation's laws, and refutations of its tasks made one of the old task.
#![tactic(auto)]

mod by;
pub mod changed_tasks;
mod draft;
mod lift;
mod names;
pub mod proof_scripts;
mod stage;
pub mod stage_limits;
pub mod task_parts;

pub use by::{
    by_clash, by_fact, by_failing, by_holding, by_rule, fact_lemma, failing_rule, finish,
    holding_rule, join_lists, keep_but, last_formula, negation,
};
pub use draft::Draft;
pub use lift::lift_stage;
pub use names::facts_named;
pub use stage::{StageFault, Transform};
