// Evidence of the laws of algebraic types: a step whose sequent is the negation of a law alone.
//
// Contract: such a step for each law, of whichever kind, at types.

mod cases;
mod laws;
mod opening;

pub use laws::refute_law;
