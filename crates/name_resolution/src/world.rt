// What names mean where a declaration stands.
// It depends on signatures and scopes; the walks of names and of trees look names up here.
ghost use Rattle.std.specs.Prelude.{◌≡◌, ◌<◌, length, IfSome};
ghost use Rattle.name_resolution.specs.Where.{place_of};

use scopes::{Scope, Table, TypeName};
use tasks::{SymbolInfo, Text, tuple_among};

/// The signature, the scopes, and the declaration's type variables by number. Where `new_vars` is
/// true any other type variable is new, and else it isn't there.
#[derive(Clone, Copy)]
pub struct World<'a> {
    pub symbols: &'a [SymbolInfo],
    pub scope: &'a Scope,
    pub vars: &'a [Text],
    pub new_vars: bool,
}

impl World<'_> {
    ghost use Rattle.std.specs.Prelude.{◌≡◌, List};
    ghost use Rattle.tasks.specs.trees.Tree.{Tree};
    ghost use Rattle.tasks.specs.Meaning.{symbols_at};
    ghost use Rattle.tasks.specs.Entries.{tuple_in};
    ghost use Rattle.name_resolution.specs.Naming.{symbol_named, type_named};

    /// The entry for which a symbol's name after its scopes stands.
    pub fn symbol_named(&self, scopes: &[Text], name: &[u8]) -> Option<usize>
        ensures { result ≡ symbol_named self.now.scope.now scopes.now name.now }
    {
        self.scope.look_at(Table::Symbols, scopes, name)
    }

    /// What a type's name after its scopes stands for. The name `int` without scopes is the type `int` where nothing else
    /// has it.
    pub fn type_named(&self, scopes: &[Text], name: &[u8]) -> Option<TypeName>
        ensures { result ≡ type_named self.now.scope.now scopes.now name.now }
    {
        match self.scope.look_type_at(scopes, name) {
            Some(found) => Some(found),
            None => {
                if scopes.is_empty() && name == b"int".as_slice() {
                    Some(TypeName::Entry(0))
                } else {
                    None
                }
            }
        }
    }

    /// The entry of the constructor of the tuples of a width.
    pub fn tuple_named(&self, width: usize) -> Option<usize>
        ensures { (s : List Tree) → result ≡ tuple_in (symbols_at s self.now.symbols.now) width }
    {
        tuple_among(self.symbols, width)
    }
}

/// The number of a type variable.
pub fn variable_named(vars: &[Text], name: &[u8]) -> Option<usize>
    ensures place { result ≡ place_of name.now vars.now }
    ensures below { IfSome result (λ k. k < length vars.now) }
{
    let (first, rest) = vars.split_first()?;
    if first.as_slice() == name {
        Some(0)
    } else {
        let place = variable_named(rest, name)?;
        Some(place + 1)
    }
}
