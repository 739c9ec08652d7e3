// The elements of a clone: what their sides stand for, the first that is wrong, and what they replace.
//
// Contract: exactly the first fault of names on the right and the first wrong element, and exactly what they replace and the map of
// a clone.

mod elements;
mod left;
mod replacements;
mod rights;
mod sides;

pub use elements::{ElementFault, Replacement, entry_or, make_replacement};
pub use left::{Abstract, ClonedTheory, LeftNames};
pub use replacements::{
    Effect, Effects, Side, SymbolFor, TypeFor, is_replaced, kept_symbols, map_of, vars_of,
};
pub use rights::{Right, check_variables};
pub use sides::sides_of;
