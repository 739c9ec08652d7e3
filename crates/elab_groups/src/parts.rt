// What the elaboration of each kind of declaration depends on: declarations in abstract syntax and the names that they
// make, entries of a signature, formulas by the walk and the solution of type equations.
//
// Contract: a formula at every solution of its equations, or its first fault of types.

mod entries;
mod made;
mod names;
mod solution;

ghost use Rattle.std.specs.Prelude.{◌≡◌};

pub use entries::{
    NewConstructor, join_words, push_constructor, push_entry, push_tuples, push_type, variables,
};
pub use made::{Elaborated, Place, declare, naming_fault, typing_fault};
pub use name_resolution::variables::{Seen, enter_form, enter_variables};
pub use name_resolution::{NamingFault, own_name};
pub use names::{NamedToken, find_repeated, gather, texts_of, world_over};
pub use open_types::MatchAt;
pub use scopes::{NameFault, Scope, Seq, Table, Text, TypeName};
pub use solution::{Formula, TypingFault, put_matches, put_trees, solve_draft, solve_formula};
use std::alloc::{AllocError, AllocFailed};
pub use surface::{
    AlgTree, ClauseTree, ConTree, DeclNode, DeclTree, ElemTree, Expr, File, IndTree, Link,
    MemberTree, Name, OpName, Path, PropKind, Style, TheoryTree, lex,
};
pub use tasks::{Body, Decl, Ints, Signature, Sort, Store, Task, TermId};
pub use trees::binders::inst_types;

/// Why a declaration isn't elaborated; `decl` is its number.
#[derive(Clone, Copy)]
pub enum ElabFault {
    /// Memory is wanting.
    Memory,
    /// A name or type variable isn't there.
    Unknown { decl: usize, token: usize },
    /// A name is made twice, in one table of one scope, in one list of parameters or in one pattern.
    Duplicate { decl: usize, token: usize },
    /// A term stands for a formula or the other way round, or alternatives bind different names.
    WrongKind { decl: usize, token: usize },
    /// A symbol, constructor or type has another number of arguments.
    Arity { decl: usize, token: usize },
    /// The equations 0 to `k` have no solution, and those before `k` have one.
    Clash { decl: usize, k: usize },
    /// The first node whose types the equations leave open.
    Undetermined { decl: usize, token: usize },
}

impl From<AllocError> for ElabFault {
    ghost use Rattle.std.specs.Prelude.{◌≡◌};
    ghost use Rattle.elab_groups.specs.declared.parts.ElabFault.TheVariants.{Memory as NoMemory};

    ghost from_gives = { λ _ e. e ≡ NoMemory };

    fn from(_: AllocError) -> Self {
        ElabFault::Memory
    }
}

impl<T: Drop> From<AllocFailed<T>> for ElabFault {
    ghost use Rattle.std.specs.Prelude.{◌≡◌};
    ghost use Rattle.elab_groups.specs.declared.parts.ElabFault.TheVariants.{Memory as NoMemory};

    ghost from_gives = { λ _ e. e ≡ NoMemory };

    fn from(_: AllocFailed<T>) -> Self {
        ElabFault::Memory
    }
}
