// What recursive definitions say, made over a store: the equation of each member, or those of its branches.
//
// Contract: exactly the formulas of the definitions, and from which equation each comes.

mod branches;
mod equations;
mod origins;
mod saying;
mod terms;

pub use origins::recursions_origin;
pub use saying::recursions_said;
