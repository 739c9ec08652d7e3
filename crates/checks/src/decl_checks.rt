// The checks of a declaration after its types: clauses of inductive predicates, structural recursion, finite values of
// algebraic types.
//
// Contract: the first thing that is wrong, exactly, and none where nothing is.

mod checks;
mod clauses;
mod fault;
mod standing;
mod structure;
mod values;

pub use checks::check_decl;
pub use fault::CheckFault;
