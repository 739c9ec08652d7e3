// The rows of terms of algebraic types: `matchdef`, `case`, `distinct`, `inject`, `project`.
//
// Contract: each row exactly.

mod asked;
mod binds;
mod cases;
mod data;
mod matches;
mod pattern_tests;

pub use cases::case;
pub use data::{distinct, inject, project};
pub use matches::match_def;
