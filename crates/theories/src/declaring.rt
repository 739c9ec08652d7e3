// One declaration of a theory that is no `use`, `clone` or `scope`: it is elaborated and checked, and its declarations,
// axioms, goals and names become known; the names that it made, as moves that bring them into other scopes.
//
// Contract: exactly what is known then, or the first fault of the declaration; what is known stays typed, and sound.

mod faults;
mod kept;
mod made;
mod proposed;
mod typing;

pub use elab_declarations::{begin, is_logical};
pub use faults::{elaboration_fault, side_fault};
pub use made::push_declared;
pub use typing::type_declaration;
