// The members of a group of functions, predicates and constants: the names that they make and use, the types of their
// signatures, their entries.
//
// Contract: exactly their entries and names, or the first fault of names.

mod naming;
mod params;
mod signing;
mod sources;

pub use naming::{check_members, declare_member, declare_members, over_vars, push_param_names};
pub use params::{check_params, enter_params, push_params, signature_seen};
pub use signing::{Signatures, Signed, push_group};
pub use sources::{MemberSource, enter_members, gather_members};
