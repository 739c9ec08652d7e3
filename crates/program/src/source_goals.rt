// A goal of a source by the words of a call: the source is fetched, read and typed, its driver is read, and the goal's
// task is made.
//
// Contract: exactly the goal's task and its driver, or the first thing that is in the way, in the order of faults.

mod driver;
mod goal;
mod known;
mod setting;
mod source;

pub use goal::find_task;
pub use setting::{GoalSetting, find_setting};
