// Steps made from a script of rules over a front of formulas, proved once for the transformations.
//
// Contract: a step whose sequent is the front and what the script refutes.

mod line;
mod making;
mod opening;
mod script;
mod sides;

pub use line::{Line, Places, Word};
pub use script::derive;
