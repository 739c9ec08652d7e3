// Formulas of tasks rewritten by a rule for nodes: what a formula becomes over a store, and the evidence of it, for each
// transformation that a rule says.
//
// Contract: exactly the image of a formula under the rule, and a step for each half of their equivalence.

mod evidence_by_rule;
mod task_rules;

pub use crate::rewriting::{
    FormulaImage, FormulaScope, RewriteFormulas, cite_rewritten, glue_rewritten, scoped_tasks,
};
pub use evidence::{Draft, StageFault, Transform};
pub use evidence_by_rule::rewrite_by_rule;
pub use task_rules::{TaskRule, image_by_rule};
