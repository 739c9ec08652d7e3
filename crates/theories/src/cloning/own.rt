// What a theory that is cloned has of its own, and the names of the scopes of its copies.
// They depend on what is known of theories; the parts of a clone depend on them.
ghost use Rattle.std.specs.Prelude.{◌≡◌, nat_eq, List, IfOk};
ghost use Rattle.std.specs.Option.{option_copied};
ghost use Rattle.indexmap.specs.IndexMap.{get};
ghost use Rattle.tasks.specs.trees.Tree.{Tree};
ghost use Rattle.tasks.specs.Meaning.{declarations_at};
ghost use Rattle.theory_states.specs.Meaning.{known_at};
ghost use Rattle.clones.specs.clone_elements.Origins.{origin_at};
ghost use Rattle.clones.specs.clone_copies.Origins.{origin_of};
ghost use Rattle.theories.specs.cloning.Cloned.{within_of};
ghost use Rattle.theories.specs.cloning.Owned.{IsOwnOf};

use clones::clone_copies::{axioms_of, own_places};
use clones::clone_elements::ClonedTheory;
use indexmap::IndexMap;
use std::alloc::{AllocError, Global};
use surface::Link;
use tasks::{Decl, Seq, Text};
use theory_states::KnownTheory;

/// The path of a theory, the places of its visible declarations and of its own ones, in order, and its axioms by their places, with the
/// names of their type variables.
#[derive(Drop)]
pub(crate) struct Own {
    pub(crate) path: Text,
    pub(crate) visible: Seq<usize>,
    pub(crate) places: Vec<usize>,
    pub(crate) axioms: IndexMap<usize, Seq<Text>>,
}

/// What a theory has of its own. Only want of memory refuses.
pub(crate) fn own_of(alloc: Global, decls: &[Decl], known: &KnownTheory) -> Result<Own, AllocError>
    ensures { IfOk result (λ o. (s : List Tree) → IsOwnOf (declarations_at s decls.now)
        (known_at s known.now) o) }
{
    let path = known.theory.path.clone()?;
    let visible = Seq::from_slice(alloc, known.theory.visible.as_slice())?;
    let places = own_places(alloc, decls, known)?;
    let axioms = axioms_of(alloc, known.axioms.as_slice())?;
    Ok(Own {
        path,
        visible,
        places,
        axioms,
    })
}

/// The theory as it is read by elements.
pub(crate) fn source_of<'a>(decls: &'a [Decl], own: &'a Own) -> ClonedTheory<'a>
    ensures decls { result.decls.now ≡ decls.now }
    ensures own { result.own.now ≡ own.now.places.items }
    ensures axioms { result.axioms.now ≡ own.now.axioms }
{
    ClonedTheory {
        decls,
        own: own.places.as_slice(),
        axioms: &own.axioms,
    }
}

/// The names of the scopes of the copies, each followed by a dot. Only want of memory refuses.
pub(crate) fn within_of(
    alloc: Global,
    within: &[u8],
    link: Link,
    last: &[u8],
    alias: Option<&[u8]>,
) -> Result<Vec<u8>, AllocError>
    ensures { IfOk result (λ v. v.items ≡ within_of link last.now (option_copied alias.entry)
        within.now) }
{
    let mut bytes = Vec::from_slice(alloc, within)?;
    match link {
        Link::Export => Ok(bytes),
        Link::Import | Link::Bare => {
            let name = match alias {
                Some(name) => name,
                None => last,
            };
            bytes.extend_from_slice(name)?;
            bytes.push(b'.')?;
            Ok(bytes)
        }
    }
}
