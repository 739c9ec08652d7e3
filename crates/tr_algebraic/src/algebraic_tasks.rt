// Tasks in which algebraic types are symbols with their laws: which declarations may not be in the old task, the task that is made
// of one without `match`es, and where each of its propositions comes from.
//
// Contract: exactly the task of the rule; the first declaration that may not be there; origins by place.

mod making;
mod origins;
mod refusal;

pub use making::tasks_with_laws;
pub use origins::{PropositionOrigin, origin_of};
pub use refusal::refused_place;
