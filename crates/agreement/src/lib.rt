//! Agreement of two closed expressions over a list of pairs, which is the congruence closure of the pairs, a rank of expressions by
//! which a search for it ends, and the step that shows them alike.
//!
//! Contract: two formulas, or two terms of one type, that agree over pairs with steps have a step that shows them equivalent or equal.
#![tactic(auto)]

ghost use Rattle.agreement.specs.Laws.{
  PartsAreOne,
  PartsAgree,
  MoreLevelsAgree,
  MorePairsAgree,
  BodiesRankLower,
  BranchesRankLower,
};

mod agreeing;
mod answers;
mod branches;
mod members;
mod parts;
mod questions;

pub use agreeing::equiv;

/// The laws of agreement, for readers to cite: two expressions of one operator have one list of
/// parts; two that agree and are neither equal nor a pair have parts that agree; and what agrees
/// does so within more levels and over more pairs. It does nothing when it runs.
pub fn law_of_agreement()
    ensures one { PartsAreOne }
    ensures parts { PartsAgree }
    ensures levels { MoreLevelsAgree }
    ensures pairs { MorePairsAgree }
{}

/// The laws of ranks: the body of a binder at a closed term, and the first test and body of a closed
/// `match`, have a lower rank than the whole, and the `match` with the other branches has no higher
/// one. It does nothing when it runs.
pub fn law_of_ranks()
    ensures bodies { BodiesRankLower }
    ensures branches { BranchesRankLower }
{}
