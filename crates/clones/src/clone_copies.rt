// The copies of a theory that is cloned: entries, declarations with what axioms become, and names.
//
// Contract: exactly the entries, declarations, axioms and goals of the copies, the places that are joined, and the mapped
// names.

mod entries;
mod moves;
mod origins;
mod places;

pub use crate::{MappedTrees, SymbolMap, no_trees};
pub use entries::push_entries;
pub use moves::map_moves;
pub use origins::{axioms_of, own_places};
pub use places::{CopiedBy, copy_places};
