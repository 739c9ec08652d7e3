// Groups of algebraic types: their names, the types of their fields, the entries of types, constructors and projections.
//
// Contract: exactly what such a group makes, or its first fault.

mod entries;
mod fields;
mod group;
mod naming;
mod widths;

pub use group::elaborate_algebraic;
pub use open_types::type_of_form;
