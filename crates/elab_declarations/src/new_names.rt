// A further name that a group makes.
// It depends on an index that finds a word without walking those before it; the names of groups depend on it.
ghost use Rattle.std.specs.Prelude.{◌≡◌, ◌++◌, ◌∷◌, [], true, OnOk};
ghost use Rattle.scopes.specs.Names.{with_entry};
ghost use Rattle.name_resolution.specs.Naming.{Tells};
ghost use Rattle.elab_groups.specs.parts.Declarations.{token_name};
ghost use Rattle.elab_groups.specs.parts.Outcomes.{declared_in};
ghost use Rattle.elab_declarations.specs.NewNames.{indexed_names, name_made};

use elab_groups::parts::declare;
use indexmap::IndexSet;
use name_resolution::NamingFault;
use scopes::{Scope, Table, Text, TypeName};

/// A name that neither the scope nor the group has in a table, which stands for the entry with the number; `before` has those that
/// the group made before.
pub(crate) fn declare_new(
    scope: &mut Scope,
    table: Table,
    before: &mut IndexSet<Vec<u8>>,
    own: Text,
    token: usize,
    number: usize,
) -> Result<(), NamingFault>
    ensures scope { OnOk result (scope.new ≡ with_entry table own number true scope.old) }
    ensures before { OnOk result (indexed_names before.new ≡ indexed_names before.old ++ own
        ∷ []) }
    ensures told { Tells result (name_made (declared_in scope.old table own)
        (indexed_names before.old) (token_name token own)) }
{
    declare(scope, table, own.as_slice(), TypeName::Entry(number), token)?;
    if before.insert(own.into_vec())? {
        Ok(())
    } else {
        Err(NamingFault::Duplicate { token })
    }
}
