// What the elaboration of a declaration gives, and why a declaration is refused.
// They depend on the declarations of tasks; each kind of declaration gives or answers these.
ghost use Rattle.std.specs.Prelude.{◌≡◌, true, false, OnOk, IfErr};
ghost use Rattle.scopes.specs.Names.{with_name};
ghost use Rattle.elab_groups.specs.parts.Elaborated.{elab_naming_fault, elab_typing_fault};
ghost use Rattle.elab_groups.specs.parts.Outcomes.{declared_in, IsNameRefused};

use crate::parts::ElabFault;
use crate::parts::solution::TypingFault;
use name_resolution::NamingFault;
use open_types::MatchAt;
use scopes::{NameFault, Scope, Seq, Table, TypeName};
use tasks::Decl;

/// What a declaration becomes.
#[derive(Drop)]
pub struct Elaborated {
    /// Its declarations of a task: none for an alias.
    pub decls: Seq<Decl>,
    /// The entries of the type variables of a lemma or a goal, by first appearance.
    pub rigid: Seq<usize>,
    /// Each `match` and each `let` of a pattern, those in triggers too, in reading order, with a pattern for each alternative.
    pub matches: Seq<MatchAt>,
}

/// Where a declaration stands: the path of its theory, the names of the open scopes, each followed by a dot, and its number.
#[derive(Clone, Copy)]
pub struct Place<'a> {
    pub theory: &'a [u8],
    pub within: &'a [u8],
    pub decl: usize,
}

/// A fault of names in the declaration of a number.
pub fn naming_fault(decl: usize, fault: NamingFault) -> ElabFault
    ensures { result ≡ elab_naming_fault decl fault }
{
    match fault {
        NamingFault::Memory => ElabFault::Memory,
        NamingFault::Unknown { token } => ElabFault::Unknown { decl, token },
        NamingFault::Duplicate { token } => ElabFault::Duplicate { decl, token },
        NamingFault::WrongKind { token } => ElabFault::WrongKind { decl, token },
        NamingFault::Arity { token } => ElabFault::Arity { decl, token },
    }
}

/// A fault of types in the declaration of a number.
pub fn typing_fault(decl: usize, fault: TypingFault) -> ElabFault
    ensures { result ≡ elab_typing_fault decl fault }
{
    match fault {
        TypingFault::Memory => ElabFault::Memory,
        TypingFault::Clash { k } => ElabFault::Clash { decl, k },
        TypingFault::Undetermined { token } => ElabFault::Undetermined { decl, token },
    }
}

/// The innermost scope declares a name, which is at a token. That a name is never unknown there is known.
pub fn declare(
    scope: &mut Scope,
    table: Table,
    name: &[u8],
    thing: TypeName,
    token: usize,
) -> Result<(), NamingFault>
    ensures ok { OnOk result (scope.new ≡ with_name table name.now thing true scope.old) }
    ensures free { OnOk result (declared_in scope.old table name.now ≡ false) }
    ensures err { IfErr result (IsNameRefused (declared_in scope.old table name.now) token) }
{
    match scope.enter_name(table, name, thing) {
        Ok(()) => Ok(()),
        Err(NameFault::Duplicate) => Err(NamingFault::Duplicate { token }),
        Err(_) => Err(NamingFault::Memory),
    }
}
