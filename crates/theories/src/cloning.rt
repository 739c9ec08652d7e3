// Clones of theories: the first fault of a clone, or its copies with their names.
//
// Contract: exactly what is known after a clone, or its first fault; what is known stays typed.

mod cloning;
mod copying;
mod own;
mod reading;

pub use cloning::clone_theory;
