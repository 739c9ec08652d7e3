// The elements of a clone are read: their sides, and what they replace.
// They depend on the elements of clones and on what is known of theories.
ghost use Rattle.std.specs.Prelude.{◌≡◌, None, length, map, All, IfOk, IfErr, OnOk};
ghost use Rattle.tasks.specs.trees.Node.{Grows};
ghost use Rattle.tasks.specs.Meaning.{symbols_at, DeclHeld};
ghost use Rattle.elab_groups.specs.name_resolution.Naming.{scope_at};
ghost use Rattle.surface.specs.SurfaceDeclarations.{element_of};
ghost use Rattle.elab_groups.specs.parts.Entries.{IsSignature, IsExtended, AreScopes};
ghost use Rattle.theory_states.specs.Uses.{OrMemory};
ghost use Rattle.clones.specs.clone_elements.Rights.{rights_fault, rights_tuples};
ghost use Rattle.clones.specs.clone_elements.Replacements.{tried_map, no_effects};
ghost use Rattle.clones.specs.clone_elements.Elements.{SidesTold};
ghost use Rattle.clones.specs.clone_elements.Meaning.{sides_at, SideHeld, IsReplacement};
ghost use Rattle.clones.specs.clone_elements.Origins.{origin_at};
ghost use Rattle.theories.specs.cloning.Cloned.{naming, sides_over, IsNamesFault, IsElementFault};
ghost use Rattle.theories.specs.cloning.ReadElements.{AreElementsRead, IsElementsFault};

use clones::clone_elements::{
    ClonedTheory, ElementFault, LeftNames, Replacement, Side, make_replacement, sides_of,
};
use elab_groups::parts::{NamingFault, Scope};
use std::alloc::Global;
use surface::ElemTree;
use tasks::{Signature, Store};
use theory_states::SourceFault;

/// A fault of names in the declaration of a number.
pub(crate) fn naming(decl: usize, fault: NamingFault) -> SourceFault
    ensures { result ≡ naming decl fault }
{
    match fault {
        NamingFault::Memory => SourceFault::Memory,
        NamingFault::Unknown { token } => SourceFault::Unknown { decl, token },
        NamingFault::Duplicate { token } => SourceFault::Duplicate { decl, token },
        NamingFault::WrongKind { token } => SourceFault::WrongKind { decl, token },
        NamingFault::Arity { token } => SourceFault::Arity { decl, token },
    }
}

// The sides of the elements of a clone, which is the declaration of a number, with the entries of tuples that their types need; or the
// first fault of the names on the right.
fn read_sides<'a>(
    alloc: Global,
    store: &mut Store,
    sig: &mut Signature,
    scope: &Scope,
    source: &ClonedTheory<'_>,
    number: usize,
    elements: &'a [ElemTree],
) -> Result<Vec<Side<'a>>, SourceFault>
    requires signature { IsSignature store.old sig.old.symbols }
    requires scopes { AreScopes store.old (length sig.old.symbols) scope.now }
    ensures entries { OnOk result (IsExtended store.old sig.old store.new sig.new (rights_tuples
        (symbols_at store.old sig.old.symbols) (map element_of elements.now))) }
    ensures held { IfOk result (λ v. All (SideHeld store.new) v.items) }
    ensures sides { IfOk result (λ v. sides_at store.new v.items ≡ sides_over (origin_at store.old
        source.now) (symbols_at store.old sig.old.symbols) (scope_at store.old scope.now)
        (map element_of elements.now)) }
    ensures free { OnOk result (rights_fault (symbols_at store.old sig.old.symbols)
        (scope_at store.old scope.now) (map element_of elements.now) ≡ None) }
    ensures err { IfErr result (OrMemory (IsNamesFault number (rights_fault
        (symbols_at store.old sig.old.symbols) (scope_at store.old scope.now)
        (map element_of elements.now)))) }
    ensures grows { Grows store.old store.new }
{
    let names = LeftNames::new(alloc, sig, source)?;
    match sides_of(alloc, store, sig, scope, &names, elements) {
        Ok(sides) => Ok(sides),
        Err(fault) => Err(naming(number, fault)),
    }
}

// What the elements of a clone replace, which is the declaration of a number; or the first element that is wrong.
fn replacement_of(
    alloc: Global,
    store: &mut Store,
    sig: &Signature,
    source: &ClonedTheory<'_>,
    number: usize,
    sides: &[Side<'_>],
) -> Result<Replacement, SourceFault>
    requires signature { IsSignature store.old sig.now.symbols }
    requires decls { All (DeclHeld store.old) source.now.decls.now }
    requires sides { All (SideHeld store.old) sides.now }
    ensures right { OnOk result (SidesTold (symbols_at store.old sig.now.symbols)
        (origin_at store.old source.now) (tried_map (symbols_at store.old sig.now.symbols)
        (origin_at store.old source.now) (sides_at store.old sides.now)) no_effects
        (sides_at store.old sides.now) None) }
    ensures replacement { IfOk result (IsReplacement store.new
        (symbols_at store.old sig.now.symbols) (origin_at store.old source.now)
        (sides_at store.old sides.now)) }
    ensures err { IfErr result (OrMemory (IsElementFault number (symbols_at store.old
        sig.now.symbols) (origin_at store.old source.now) (sides_at store.old sides.now))) }
    ensures grows { Grows store.old store.new }
{
    match make_replacement(alloc, store, sig, source, sides) {
        Ok(replacement) => Ok(replacement),
        Err(ElementFault::Memory) => Err(SourceFault::Memory),
        Err(ElementFault::BadSubstitution { token }) => Err(SourceFault::BadSubstitution {
            decl: number,
            token,
        }),
    }
}

/// What the elements of a clone replace, which is the declaration of a number, with the entries of tuples that their types need; or the
/// first fault of the names on the right, or else the first wrong element.
pub(crate) fn read_elements(
    alloc: Global,
    store: &mut Store,
    sig: &mut Signature,
    scope: &Scope,
    source: &ClonedTheory<'_>,
    number: usize,
    elements: &[ElemTree],
) -> Result<Replacement, SourceFault>
    requires signature { IsSignature store.old sig.old.symbols }
    requires scopes { AreScopes store.old (length sig.old.symbols) scope.now }
    requires decls { All (DeclHeld store.old) source.now.decls.now }
    ensures entries { OnOk result (IsExtended store.old sig.old store.new sig.new (rights_tuples
        (symbols_at store.old sig.old.symbols) (map element_of elements.now))) }
    ensures read { IfOk result (AreElementsRead (symbols_at store.old sig.old.symbols)
        (scope_at store.old scope.now) (origin_at store.old source.now)
        (map element_of elements.now) store.new) }
    ensures err { IfErr result (OrMemory (IsElementsFault number
        (symbols_at store.old sig.old.symbols) (scope_at store.old scope.now)
        (origin_at store.old source.now)
        (map element_of elements.now))) }
    ensures grows { Grows store.old store.new }
{
    let sides = read_sides(alloc, store, sig, scope, source, number, elements)?;
    replacement_of(alloc, store, sig, source, number, sides.as_slice())
}
