//! The linear leaf over the integers.
//!
//! Contract: exactly which weighted sums can't hold, without memory.
#![tactic(auto)]

mod terms;
mod uses;

pub use uses::closes_linear;
