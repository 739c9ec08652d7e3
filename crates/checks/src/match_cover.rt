// A shape of values that no pattern of a list meets, found by the constructors of columns.

mod constructors;
mod exhaustive;
mod patterns;
mod shape;

pub use constructors::are_own_variables;
pub use exhaustive::cover;
pub use shape::ValueShape;
