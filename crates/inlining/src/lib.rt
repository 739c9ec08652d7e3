//! What definitions give where they are used. Inlining: which definitions are inlined, and what a task becomes; laws of the rule at one
//! node (it keeps typing, at types too), of one pass in place of one for each definition, of the new task (it is valid), and of a
//! definition's equation at a use. And the equations of recursive definitions, by branches.
//!
//! Contract: definitions and laws; the modes.
#![tactic(auto)]

ghost use Rattle.inlining.specs.Laws.{
  UsesKeepTyping,
  InlinedAtTypes,
  InlinedInOnePass,
  InlinedTasksAreValid,
  FunctionsAtUses,
  PredicatesAtUses,
};

pub mod branch_equations;
mod modes;

pub use modes::InlineMode;

/// The laws of inlining: a use that becomes its body keeps sort, type and typing; inlining commutes with
/// types that are put in; one pass in which each use becomes its full body, that with the definitions
/// before inlined, is the passes of all definitions, from the last to the first; and what a valid task
/// becomes is valid, where it isn't too large. It does nothing when it runs.
pub fn law_of_inlining()
    ensures rule { UsesKeepTyping }
    ensures types { InlinedAtTypes }
    ensures single { InlinedInOnePass }
    ensures valid { InlinedTasksAreValid }
{}

/// The laws of uses: the right side of a definition's equation, at types and closed arguments, says that
/// the use there equals the body there, or is equivalent to it. It does nothing when it runs.
pub fn law_of_uses()
    ensures functions { FunctionsAtUses }
    ensures predicates { PredicatesAtUses }
{}
