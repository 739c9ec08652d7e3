// The sides of elements, in their order.
// They depend on right sides and on the names of the theory; replacements are made of them.
ghost use Rattle.std.specs.Prelude.{◌≡◌, ◌++◌, ℕ, List, [], None, length, map, All, IfOk, IfErr, OnOk, Err};
ghost use Rattle.tasks.specs.trees.Tree.{Tree};
ghost use Rattle.tasks.specs.trees.Node.{Grows};
ghost use Rattle.tasks.specs.Meaning.{symbols_at};
ghost use Rattle.surface.specs.SurfaceDeclarations.{element_of};
ghost use Rattle.name_resolution.specs.Naming.{Tells, scope_at};
ghost use Rattle.elab_groups.specs.parts.Entries.{IsSignature, IsExtended, AreScopes};
ghost use Rattle.clones.specs.clone_elements.Rights.{rights_fault, rights_tuples};
ghost use Rattle.clones.specs.clone_elements.Replacements.{sides_made};
ghost use Rattle.clones.specs.clone_elements.Origins.{place_at};
ghost use Rattle.clones.specs.clone_elements.Meaning.{sides_at, SideHeld};

use crate::clone_elements::left::LeftNames;
use crate::clone_elements::replacements::Side;
use crate::clone_elements::rights::right_side;
use name_resolution::{NamingFault, Scope};
use std::alloc::Global;
use surface::ElemTree;
use tasks::{Signature, Store};

// The sides of elements, after others, and the entries of the tuples of their types.
fn push_sides<'a>(
    alloc: Global,
    store: &mut Store,
    sig: &mut Signature,
    scope: &Scope,
    names: &LeftNames,
    sides: &mut Vec<Side<'a>>,
    elements: &'a [ElemTree],
) -> Result<(), NamingFault>
    requires signature { IsSignature store.old sig.old.symbols }
    requires scopes { AreScopes store.old (length sig.old.symbols) scope.now }
    requires held { All (SideHeld store.old) sides.old.items }
    ensures entries { OnOk result (IsExtended store.old sig.old store.new sig.new (rights_tuples
        (symbols_at store.old sig.old.symbols) (map element_of elements.now))) }
    ensures held { OnOk result (All (SideHeld store.new) sides.new.items) }
    ensures sides { OnOk result (sides_at store.new sides.new.items
        ≡ sides_at store.old sides.old.items ++ sides_made (place_at names.now)
        (symbols_at store.old sig.old.symbols) (scope_at store.old scope.now)
        (map element_of elements.now)) }
    ensures told { Tells result (rights_fault (symbols_at store.old sig.old.symbols)
        (scope_at store.old scope.now) (map element_of elements.now)) }
    ensures grows { Grows store.old store.new }
{
    let Some((first, rest)) = elements.split_first() else {
        return Ok(());
    };
    let right = right_side(alloc, store, sig, scope, &first.node)?;
    let left = names.find_declaration(alloc, &first.node)?;
    sides.push(Side {
        element: first,
        left,
        right,
    })?;
    push_sides(alloc, store, sig, scope, names, sides, rest)
}

/// The sides of elements, and the entries of the tuples of their types; or the first fault of the names on the right. The signature
/// is used no more after a refusal.
pub fn sides_of<'a>(
    alloc: Global,
    store: &mut Store,
    sig: &mut Signature,
    scope: &Scope,
    names: &LeftNames,
    elements: &'a [ElemTree],
) -> Result<Vec<Side<'a>>, NamingFault>
    requires signature { IsSignature store.old sig.old.symbols }
    requires scopes { AreScopes store.old (length sig.old.symbols) scope.now }
    ensures entries { OnOk result (IsExtended store.old sig.old store.new sig.new (rights_tuples
        (symbols_at store.old sig.old.symbols) (map element_of elements.now))) }
    ensures held { IfOk result (λ v. All (SideHeld store.new) v.items) }
    ensures sides { IfOk result (λ v. sides_at store.new v.items ≡ sides_made (place_at names.now)
        (symbols_at store.old sig.old.symbols) (scope_at store.old scope.now)
        (map element_of elements.now)) }
    ensures free { OnOk result (rights_fault (symbols_at store.old sig.old.symbols)
        (scope_at store.old scope.now) (map element_of elements.now) ≡ None) }
    ensures err { IfErr result (λ fault. Tells (Err fault) (rights_fault
        (symbols_at store.old sig.old.symbols) (scope_at store.old scope.now)
        (map element_of elements.now))) }
    ensures grows { Grows store.old store.new }
{
    let mut sides = Vec::new(alloc);
    push_sides(alloc, store, sig, scope, names, &mut sides, elements)?;
    Ok(sides)
}
