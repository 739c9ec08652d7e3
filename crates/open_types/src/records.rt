// The types and the values of a record's fields, at their places.
// They depend on types alone; the walks of patterns and of expressions depend on them.
ghost use Rattle.std.specs.Prelude.{◌≡◌, ◌++◌, IfOk, OnOk, All, get_or, slice_set, replicate};
ghost use Rattle.trees.specs.Node.{tree_at, Holds, Grows};
ghost use Rattle.trees.specs.Sorts.{IsList, int_type};
ghost use Rattle.trees.specs.declared.Sort.TheVariants.{Term};
ghost use Rattle.tasks.specs.Equations.{cells};
ghost use Rattle.tasks.specs.Meaning.{trees_at};
ghost use Rattle.tasks.specs.Typing.{members};
ghost use Rattle.name_resolution.specs.Records.{put_at_places};
ghost use Rattle.open_types.specs.Patterns.{place_types};
ghost use Rattle.open_types.specs.Pieces.{values_placed};
ghost use Rattle.open_types.specs.Drafts.{HoldsType};
ghost use Rattle.trees.specs.binders.Visits.{HoldsTerm};

use crate::types::int;
use scopes::Seq;
use std::alloc::{AllocError, Global};
use trees::store::{Grow, Node, Store, TermId};

/// The type at a place, or `int`.
pub fn place_type(store: &Store, types: &[TermId], place: usize) -> TermId
    requires { All (HoldsType store.now) types.now }
    ensures held { HoldsType store.now result }
    ensures tree { tree_at store.now result
        ≡ get_or (trees_at store.now types.now) place int_type }
{
    match types.get(place) {
        Some(ty) => *ty,
        None => int(store),
    }
}

/// The types at places, or `int`.
pub fn place_types(
    alloc: Global,
    store: &Store,
    types: &[TermId],
    places: &[usize],
) -> Result<Vec<TermId>, AllocError>
    requires { All (HoldsType store.now) types.now }
    ensures held { IfOk result (λ them. All (HoldsType store.now) them.items) }
    ensures trees { IfOk result (λ them. trees_at store.now them.items ≡ place_types places.now
        (trees_at store.now types.now)) }
{
    let mut them = Vec::new(alloc);
    for place in places {
        them.push(place_type(store, types, *place))?;
    }
    Ok(them)
}

// The members of a list of terms, after others.
fn push_terms(store: &Store, list: TermId, out: &mut Vec<TermId>) -> Result<(), AllocError>
    requires held { Holds store.now list }
    requires terms { IsList Term (tree_at store.now list) }
    requires out_held { All (HoldsTerm store.now) out.old.items }
    ensures tree { OnOk result (trees_at store.now out.new.items
        ≡ trees_at store.now out.old.items ++ members (tree_at store.now list)) }
    ensures new_held { OnOk result (All (HoldsTerm store.now) out.new.items) }
{
    match store.node(list) {
        Node::Cell(first, rest) => {
            out.push(first)?;
            push_terms(store, rest, out)
        }
        _ => Ok(()),
    }
}

// A value at its place.
#[tactic(auto, using(name_resolution::proofs::Putting::set_past))]
fn put_value(items: &mut Seq<TermId>, place: usize, value: TermId)
    ensures { items.new ≡ slice_set items.old place value }
{
    if place < items.len() {
        items.set(place, value);
    }
}

// Values at places, one after another.
fn put_values(places: &[usize], values: &[TermId], items: &mut Seq<TermId>)
    ensures { items.new ≡ put_at_places places.now values.now items.old }
{
    let Some((place, others)) = places.split_first() else {
        return;
    };
    let Some((value, rest)) = values.split_first() else {
        return;
    };
    put_value(items, *place, *value);
    put_values(others, rest, items)
}

// So many times the number 0, where no value of a field is put yet.
fn no_values(alloc: Global, none: TermId, count: usize) -> Result<Seq<TermId>, AllocError>
    ensures { IfOk result (λ items. items ≡ replicate count none) }
{
    let mut items = Seq::new(alloc);
    for _field in 0..count {
        items.push(none)?;
    }
    Ok(items)
}

// The list of these terms.
fn list_of_terms(store: &mut Store, ids: &[TermId]) -> Result<TermId, AllocError>
    requires { All (HoldsTerm store.old) ids.now }
    ensures held { IfOk result (Holds store.new) }
    ensures list { IfOk result (λ id. IsList Term (tree_at store.new id)) }
    ensures tree { IfOk result (λ id. tree_at store.new id ≡ cells (trees_at store.old ids.now)) }
    ensures grows { Grows store.old store.new }
{
    match ids.split_first() {
        Some((first, rest)) => {
            let list = list_of_terms(store, rest)?;
            store.add(Node::Cell(*first, list))
        }
        None => store.add(Node::End),
    }
}

/// The values of fields, which are a list, at their places among so many.
pub fn place_values(
    alloc: Global,
    store: &mut Store,
    values: TermId,
    places: &[usize],
    count: usize,
) -> Result<TermId, AllocError>
    requires values { Holds store.old values }
    requires terms { IsList Term (tree_at store.old values) }
    ensures held { IfOk result (Holds store.new) }
    ensures list { IfOk result (λ id. IsList Term (tree_at store.new id)) }
    ensures tree { IfOk result (λ id. tree_at store.new id
        ≡ values_placed places.now count (tree_at store.old values)) }
    ensures grows { Grows store.old store.new }
{
    let none = store.add(Node::Num(0))?;
    let mut own = Vec::new(alloc);
    push_terms(store, values, &mut own)?;
    let mut items = no_values(alloc, none, count)?;
    put_values(places, own.as_slice(), &mut items);
    list_of_terms(store, items.as_slice())
}
