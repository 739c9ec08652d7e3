// The bodies of a group at every solution of their type equations.
ghost use Rattle.std.specs.Prelude.{◌≡◌, ◌≤◌, List, length, map, All, IfOk, IfErr};
ghost use Rattle.std.specs.List.{AllByRecursion};
ghost use Rattle.tasks.specs.trees.Tree.{Tree};
ghost use Rattle.tasks.specs.trees.Node.{Holds, Grows};
ghost use Rattle.tasks.specs.trees.Sorts.{sort_of};
ghost use Rattle.tasks.specs.Meaning.{trees_at};
ghost use Rattle.name_resolution.specs.Naming.{where_at};
ghost use Rattle.open_types.specs.Drafts.{WorldHeld, IsReady, match_at, notes_at};
ghost use Rattle.open_types.specs.Scoped.{IsScoped};
ghost use Rattle.elab_groups.specs.parts.Elaborated.{IsTypingFault};
ghost use Rattle.elab_groups.specs.parts.Values.{notes_after};
ghost use Rattle.elab_groups.specs.members.Sources.{members_at, signed_at, SignedHeld, IsScopedSignature, AreResolved};
ghost use Rattle.elab_groups.specs.Groups.{most_variables, bodies_pieces, pieces_notes, AreSolved, BodiesSolved};
ghost use Rattle.elab_groups.specs.Bodies.{AreDefined, AreBodies, BodiesHeld, AreBounded};

use crate::bodies::walk_bodies;
use crate::members::{MemberSource, Signed};
use crate::parts::{TypingFault, put_matches, put_trees, solve_draft};
use name_resolution::World;
use open_types::{Constraints, MatchAt, start_draft};
use std::alloc::Global;
use tasks::{Seq, Store, TermId};

/// The bodies of a group with the matches in them.
#[derive(Drop)]
pub struct Bodies {
    pub trees: Vec<TermId>,
    pub matches: Seq<MatchAt>,
}

// Trees and matches over the unknowns of a draft, at every solution of its equations.
fn solve_bodies(
    alloc: Global,
    store: &mut Store,
    rigid: usize,
    draft: &Constraints,
    ids: &[TermId],
) -> Result<Bodies, TypingFault>
    requires ready { IsReady store.old draft.now }
    requires own { rigid ≤ length draft.now.takers }
    requires ids { All (Holds store.old) ids.now }
    requires bounded { AreBounded rigid (notes_after rigid (notes_at store.old draft.now))
        (trees_at store.old ids.now) }
    ensures held { IfOk result (BodiesHeld store.new) }
    ensures sorts { IfOk result (λ it. map sort_of (trees_at store.new it.trees.items) ≡ map sort_of
        (trees_at store.old ids.now)) }
    ensures ok { IfOk result (λ it. AreSolved rigid
        (notes_after rigid (notes_at store.old draft.now))
        (trees_at store.old ids.now) (trees_at store.new it.trees.items)
        (map (match_at store.new) it.matches)) }
    ensures err { IfErr result (IsTypingFault rigid
        (notes_after rigid (notes_at store.old draft.now))) }
    ensures grows { Grows store.old store.new }
{
    let types = solve_draft(alloc, store, rigid, draft)?;
    let mut trees = Vec::new(alloc);
    put_trees(alloc, store, &mut trees, ids, types.as_slice())?;
    let mut matches = Vec::new(alloc);
    put_matches(
        alloc,
        store,
        &mut matches,
        draft.matches.as_slice(),
        types.as_slice(),
    )?;
    Ok(Bodies {
        trees,
        matches: Seq::from_vec(matches),
    })
}

// The greatest number of type variables of a signature.
fn most_variables(signed: &[Signed]) -> usize
    ensures { (s : List Tree) → result ≡ most_variables (map (signed_at s) signed.now) }
{
    match signed.split_first() {
        Some((first, rest)) => {
            let others = most_variables(rest);
            first.vars.len().max(others)
        }
        None => 0,
    }
}

/// The bodies of members whose names are there.
pub fn solve_group(
    alloc: Global,
    store: &mut Store,
    world: &World<'_>,
    members: &[MemberSource<'_>],
    signed: &[Signed],
) -> Result<Bodies, TypingFault>
    requires world { WorldHeld store.old world.now }
    requires scoped { IsScoped (where_at store.old world.now) }
    requires signed { All (SignedHeld store.old) signed.now }
    requires own { AllByRecursion IsScopedSignature (map (signed_at store.old) signed.now) }
    requires resolved { AreResolved (where_at store.old world.now) (members_at members.now)
        (map (signed_at store.old) signed.now) }
    requires each { length signed.now ≡ length members.now }
    ensures held { IfOk result (BodiesHeld store.new) }
    ensures bodies { IfOk result (λ it. AreDefined (members_at members.now) → AreBodies store.new
        signed.now it.trees.items) }
    ensures ok { IfOk result (λ it. BodiesSolved (where_at store.old world.now)
        (members_at members.now) (map (signed_at store.old) signed.now)
        (trees_at store.new it.trees.items) (map (match_at store.new) it.matches)) }
    ensures err { IfErr result (IsTypingFault
        (most_variables (map (signed_at store.old) signed.now))
        (pieces_notes (bodies_pieces (where_at store.old world.now) (members_at members.now)
        (map (signed_at store.old) signed.now)))) }
    ensures grows { Grows store.old store.new }
{
    let rigid = most_variables(signed);
    let mut draft = start_draft(alloc, rigid)?;
    let mut ids = Vec::new(alloc);
    walk_bodies(alloc, store, &mut draft, world, &mut ids, members, signed)?;
    solve_bodies(alloc, store, rigid, &draft, ids.as_slice())
}
