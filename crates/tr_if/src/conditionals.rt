// Conditionals brought out of formulas: the first conditional term of an atom, an atom by cases on its conditional terms, and
// formulas without conditionals, with the laws of these.
//
// Contract: exactly the formula without its conditionals, or that it has more than 2^20 tree nodes; laws.

ghost use Rattle.tr_if.specs.conditionals.Laws.{
  FirstComesFirst,
  OthersStay,
  FormulasBecomeImplications,
  NodesGrow,
  TypingIsKept,
  CommutesWithPutTypes,
};

mod atoms;
mod bindings;
mod eliminating;
mod firsts;
mod growth;

pub use atoms::{atom_by_cases, implications};
pub use bindings::has_let_or_match;
pub use eliminating::eliminate_ifs;
pub use firsts::{IfParts, first_if, if_parts, replace_first};
pub use growth::GrowthFault;

/// The laws of conditionals brought out of formulas: the first conditional of an atom goes first, an atom without one stays, and a
/// conditional formula becomes two implications; formulas have no fewer nodes than they had; what is made is typed as it was,
/// at types too. It does nothing when it runs.
pub fn law_of_conditionals()
    ensures first { FirstComesFirst }
    ensures others { OthersStay }
    ensures formulas { FormulasBecomeImplications }
    ensures nodes { NodesGrow }
    ensures typing { TypingIsKept }
    ensures types { CommutesWithPutTypes }
{}
