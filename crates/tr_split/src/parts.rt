// The parts of a goal, as `split_goal_right` takes it apart, and a task for each.
//
// Contract: the tasks of its equation.

mod parts;
mod split;

pub use split::split_goal;
