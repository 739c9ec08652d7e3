//! What is printed of a task under a driver: names, preludes, the declared types and symbols, formulas; or the task's first
//! fault.
//!
//! Contract: exactly the problem, or exactly the first fault, declaration by declaration.
#![tactic(auto)]

mod checked;
mod checks;
mod fault;
mod forms;
mod making;
mod places;
mod printed;
pub mod printed_terms;
mod templates;

pub use drivers::driver_parts::Driver;
pub use fault::PrintFault;
pub use making::{Shared, problem, problem_after};
pub use name_tables::task_names;
pub use printed::Problem;
pub use templates::has_template;
