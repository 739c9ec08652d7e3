//! The abstract syntax of types, patterns, terms and formulas; the first fault of their names, in the order of the
//! tokens at which the checks stand; the type variables of an expression and the widths of its tuples, by first
//! appearance.
//!
//! Contract: the first fault of names, and none where there is none; exactly these lists.
#![tactic(auto)]

mod bound;
mod names;
mod operators;
mod patterns;
mod records;
mod triggers;
mod type_names;
pub mod variables;
mod world;

ghost use Rattle.std.specs.Prelude.{◌≡◌};

pub use bound::Names;
pub use names::{check, let_name};
pub use operators::{Operation, infix_operation, own_name, prefix_operator};
pub use patterns::{check_pattern, check_patterns};
pub use records::{Fields, place_named, places_named, record_named};
pub use scopes::{Scope, Table, TypeName};
use std::alloc::{AllocError, AllocFailed};
pub use surface::{
    DeclNode, DeclTree, Expr, MemberTree, Name, OpName, ParamTree, PropKind, Style, TypeTree,
};
pub use triggers::{Trigger, TriggerHead, names_predicate, trigger_of};
pub use type_names::check_form;
pub use world::{World, variable_named};

/// What is wrong with the names of a declaration.
#[derive(Clone, Copy)]
pub enum NamingFault {
    /// Memory is wanting.
    Memory,
    /// A name or type variable isn't there.
    Unknown { token: usize },
    /// A name is made twice, in one table of one scope, in one list of parameters or in one pattern.
    Duplicate { token: usize },
    /// A term stands for a formula or the other way round, alternatives bind different names, or a `match` has none.
    WrongKind { token: usize },
    /// A symbol, constructor or type has another number of arguments.
    Arity { token: usize },
}

impl From<AllocError> for NamingFault {
    ghost use Rattle.std.specs.Prelude.{◌≡◌};
    ghost use Rattle.name_resolution.specs.declared.NamingFault.TheVariants.{Memory as NoMemory};

    ghost from_gives = { λ _ e. e ≡ NoMemory };

    fn from(_: AllocError) -> Self {
        NamingFault::Memory
    }
}

impl<T: Drop> From<AllocFailed<T>> for NamingFault {
    ghost use Rattle.std.specs.Prelude.{◌≡◌};
    ghost use Rattle.name_resolution.specs.declared.NamingFault.TheVariants.{Memory as NoMemory};

    ghost from_gives = { λ _ e. e ≡ NoMemory };

    fn from(_: AllocFailed<T>) -> Self {
        NamingFault::Memory
    }
}
