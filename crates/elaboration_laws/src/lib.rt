//! Laws: what is elaborated is well typed and valid over any vocabulary of its signature; the typings of an expression,
//! by rules without unknowns, are the solutions of its type equations; the first fault of names is at the least token;
//! the task of a goal after declarations that are valid where they are is valid; what this asks holds of what is
//! elaborated, declaration by declaration, and of theories that are used; names stay typed as they come into scopes, and
//! copies of valid declarations are valid; what is known while theories are typed stays typed and sound as a theory
//! begins, uses another one, gets further declarations and ends; what a clone makes, place by place, is what its steps
//! make, and keeps what is known typed and sound; no code.
//!
//! Contract: definitions and laws.
#![tactic(auto)]

mod checks_laws;
mod copies_laws;
mod declaration_copies;
mod entries_laws;
mod maps_laws;
mod places_laws;
mod scope_moves;
mod sound_states;
mod states_laws;
mod typed_states;
mod typings_laws;
mod valid;
mod valid_goals;
mod well_typed;

pub use checks::decl_checks::CheckFault;
pub use checks::match_cover::{ValueShape, cover};
pub use checks_laws::first_fault_is_least;
pub use copies_laws::{
    clones_next, clones_sound, new_goals_sound, others_stay, rights_typed, signatures_typed,
    trials_agree,
};
pub use declaration_copies::{copies_valid, formulas_copied, types_copied};
pub use elab_groups::parts::NameFault;
pub use entries_laws::{entries_typed, names_typed};
pub use maps_laws::{copies_typed, outcomes_placed, sides_typed, types_mapped};
pub use places_laws::{moves_become, places_made};
pub use scope_moves::{finds_typed, moves_typed, scopes_kept, stays_typed};
pub use sound_states::{begins_sound, goals_valid, joins_whole, stays_sound};
pub use states_laws::{clones_stay, names_become};
pub use theory_states::goal_tasks::{GoalAt, TaskFault, Theories, Theory, task_of};
pub use typed_states::uses_typed;
pub use typings_laws::{
    equations_decide, group_decides, solutions_are_typings, typings_are_solutions,
    undetermined_is_first,
};
pub use valid::{
    agrees_typed, begins_typed, defines_valid, elaborates_patterns, elaborates_valid, lists_valid,
    makes_valid, moves_valid, next_goal_valid, next_valid, stays_valid,
};
pub use valid_goals::{
    begins_built, goals_sound, joins_sound, keeps_built, keeps_sound, keeps_typed, tasks_valid,
    tokens_fit,
};
pub use well_typed::{
    has_tuples, has_typed_matches, is_formula, is_typed_at_solutions, is_well_formed, is_well_typed,
};
