// Evidence for the equations of the branches of recursive definitions: each follows from the definition's own equation.
//
// Contract: a step that refutes the negation of a branch's equation at types, alone.

mod branches;
mod equation_instances;
mod universal;

pub use branches::branch_step;
