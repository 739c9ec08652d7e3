// Whether a step is right, told in the time that the different parts of its trees take: an instance is made in the store and
// compared by its number, and what is told of a tree is remembered by its number.
//
// Contract: exactly the right steps.

mod asking;
mod matches;
mod parameters;
mod place;
mod ready;
mod rows;
mod steps;
mod sums;
mod variables;

pub use steps::is_right_step;
pub use variables::is_top_open;
