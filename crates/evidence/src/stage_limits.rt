// How large the tasks of a stage may be, told by the sizes and heights that the store keeps.
//
// Contract: the tasks exactly where they aren't above a bound.

mod heights;
mod limits;

pub use heights::task_height;
pub use limits::{AboveBound, are_small, limit_tasks};
