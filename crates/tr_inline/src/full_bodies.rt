// Inlining over a store: the full bodies of a task's definitions, from the first to the last, by mode, and what formulas become by
// them. What is large in each instance is refused where it is made, and an argument whose parameter a body doesn't use isn't made.
//
// Contract: the rule of the full bodies is that of the definitions; a formula's image under it, exactly, or it is too large.

mod choosing;
mod fault;
mod formulas;
mod imaging;
mod listing;
mod making;
mod members;
mod putting;
mod sizes;
mod uses;

pub use checks::recursive_groups::defining_body;
pub use fault::InlineFault;
pub use formulas::inline_formula;
pub use inlining::InlineMode;
pub use listing::definitions_inlined;
pub use making::full_bodies;
pub use members::list_members;
pub use putting::{put_arguments, put_types};
pub use trees::binders::{inst_many, inst_types};
pub use uses::FullBody;
