// The type variables of an expression and the widths of its tuples, by first appearance.
//
// Contract: exactly these lists.

mod variables;

pub use variables::{Seen, enter_form, enter_variables};
