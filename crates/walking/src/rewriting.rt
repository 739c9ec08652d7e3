// Tasks whose formulas are rewritten by one function, everywhere or in the goal alone, with what brings refutations back: a trait says
// what a formula becomes, over a store and by evidence, and all else of a transformation is given here.
//
// Contract: exactly the rewritten task; its facts and its start refuted in the old task.

mod citing;
mod formulas;
mod gluing;
mod making;

pub use citing::cite_rewritten;
pub use formulas::{FormulaImage, FormulaScope, RewriteFormulas};
pub use gluing::glue_rewritten;
pub use making::scoped_tasks;
