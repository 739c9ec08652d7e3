// Groups of definitions and of inductive predicates spelled out: their symbols, and then the formulas that they say, as propositions.
//
// Contract: what is put in the place of a group, from which fact each proposition comes, and that it keeps what is made.

mod clause_origins;
mod decls;
mod definitions;
mod inductives;
mod inversions;
mod said;

pub use clause_origins::inductives_origin;
pub use decls::push_in_place;
pub use definitions::{definitions_origin, definitions_said};
pub use inductives::inductives_said;
pub use said::Said;
