// What a theory that is cloned has of its own.
// It depends on what is known of theories.
ghost use Rattle.std.specs.Prelude.{◌≡◌, ◌++◌, nat_eq, List, IfOk, OnOk};
ghost use Rattle.indexmap.specs.IndexMap.{get};
ghost use Rattle.tasks.specs.trees.Tree.{Tree};
ghost use Rattle.tasks.specs.Meaning.{declarations_at};
ghost use Rattle.theory_states.specs.Meaning.{known_at};
ghost use Rattle.clones.specs.clone_copies.Origins.{is_own, own_at, own_places, with_axioms, axioms_at};

use indexmap::IndexMap;
use std::alloc::{AllocError, Global};
use tasks::{Decl, Seq, Text};
use theory_states::{AxiomAt, KnownTheory};

/// Whether the declaration at a place is of the theory with this path.
pub fn is_own(decls: &[Decl], path: &[u8], place: usize) -> bool
    ensures { (s : List Tree) → result ≡ is_own (declarations_at s decls.now) path.now place }
{
    match decls.get(place) {
        Some(decl) => decl.theory.as_slice() == path,
        None => path.is_empty(),
    }
}

// A place, if its declaration is of the theory with this path, after others.
fn push_own(
    decls: &[Decl],
    path: &[u8],
    own: &mut Vec<usize>,
    place: usize,
) -> Result<(), AllocError>
    ensures { OnOk result ((s : List Tree) → own.new.items ≡ own.old.items
        ++ own_at (declarations_at s decls.now) path.now place) }
{
    if is_own(decls, path, place) {
        own.push(place)?;
    }
    Ok(())
}

/// The places of a theory's own declarations, in order. Only want of memory refuses.
pub fn own_places(
    alloc: Global,
    decls: &[Decl],
    known: &KnownTheory,
) -> Result<Vec<usize>, AllocError>
    ensures { IfOk result (λ v. (s : List Tree) → v.items ≡ own_places (declarations_at s decls.now)
        (known_at s known.now)) }
{
    let path = known.theory.path.as_slice();
    let mut own = Vec::new(alloc);
    for place in known.theory.visible.as_slice() {
        push_own(decls, path, &mut own, *place)?;
    }
    Ok(own)
}

// The same names once more.
pub(crate) fn copy_names(alloc: Global, names: &[Text]) -> Result<Seq<Text>, AllocError>
    ensures { IfOk result (λ v. v ≡ names.now) }
{
    let mut all = Vec::new(alloc);
    for name in names {
        let copy = name.clone()?;
        all.push(copy)?;
    }
    Ok(Seq::from_vec(all))
}

// The names of the type variables of axioms, by the places of these, over what is there.
fn enter_axioms(
    alloc: Global,
    places: &mut IndexMap<usize, Seq<Text>>,
    axioms: &[AxiomAt],
) -> Result<(), AllocError>
    ensures { OnOk result (get nat_eq places.new ≡ with_axioms axioms.now (get nat_eq places.old)) }
{
    for it in axioms {
        let names = copy_names(alloc, it.vars.as_slice())?;
        places.insert(it.decl, names)?;
    }
    Ok(())
}

/// The names of the type variables of axioms, by the places of these. Only want of memory refuses.
pub fn axioms_of(
    alloc: Global,
    axioms: &[AxiomAt],
) -> Result<IndexMap<usize, Seq<Text>>, AllocError>
    ensures { IfOk result (λ m. get nat_eq m ≡ axioms_at axioms.now) }
{
    let mut places: IndexMap<usize, Seq<Text>> = IndexMap::new(alloc);
    enter_axioms(alloc, &mut places, axioms)?;
    Ok(places)
}
