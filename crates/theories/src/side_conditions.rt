// The side conditions of a declaration: each match takes all values, and then the checks of declarations.
//
// Contract: the first match that is open, or else the first fault of the declarations, and none where there is none.

mod sides;

pub use sides::{SideFault, check_sides};
