// Theories over one signature, each declaration kept once, with the goals that can be named; the symbols that
// declarations, the types of what they make, and a goal name, a shared tree looked at once; the task of a goal, with the
// declarations of tuples in front.
//
// Contract: exactly these symbols, and exactly the task of a goal, or that there is no such theory or goal.

mod declarations;
mod making;
mod theories;
mod tuples;

pub use declarations::named_in;
pub use making::{TaskFault, task_of};
pub use theories::{GoalAt, Theories, Theory};
