// The search for wanted assignments: one type variable after the other, each type in the order of the ranks, and no further than some
// instance that asks may still be in the set.
// It depends on what asks for instances; the transformation depends on it.
ghost use Rattle.std.specs.Prelude.{◌≡◌, ◌+◌, ◌≤◌, ◌<◌, ◌&&◌, ◌==◌, ℕ, List, [], ◌∷◌, ◌++◌, All, map, length, take, IfOk, OnOk};
ghost use Rattle.std.specs.List.{flat_map, list_any};
ghost use Rattle.trees.specs.Tree.{Tree, above_ty_vars};
ghost use Rattle.trees.specs.Node.{tree_at, trees_at, Holds};
ghost use Rattle.name_tables.specs.Seen.{seen_occurrences, KeysHeld, GainsKeys};
ghost use Rattle.tr_discriminate.specs.wanted_instances.Instances.{instance_types};
ghost use Rattle.tr_discriminate.specs.wanted_instances.Wanted.{wanted_types};
ghost use Rattle.tr_discriminate.specs.wanted_instances.Discriminated.{proposition_of};
ghost use Rattle.tr_discriminate.specs.wanted_instances.Search.{found_from, may_fit, matches, may_go_on};
ghost use Rattle.tr_discriminate.specs.wanted_search.Asking.{asking_at, IsAskingInstance, HasCandidates, IsAsking};
ghost use Rattle.tr_discriminate.specs.wanted_search.Search.{key_type, assignments_at, AssignmentsHeld, IsSearchResult, FindsUpTo, may_ask, found_each};

use crate::instance_search::InstanceKey;
use crate::wanted_search::asking::{Asking, AskingInstance, asking_for, has_variable};
use std::alloc::{AllocError, Global};
use tasks::Seq;
use trees::store::Store;
use trees::{Node, Parts, TermId, same_head};

// Whether a type, where its first variables are known and the others may be anything, may be this ground type.
fn may_fit(store: &Store, known: &[TermId], e: TermId, ground: TermId) -> bool
    requires known { All (Holds store.now) known.now }
    requires e_held { Holds store.now e }
    requires ground_held { Holds store.now ground }
    ensures { result ≡ may_fit (trees_at store.now known.now) (tree_at store.now e)
        (tree_at store.now ground) }
{
    let node = store.node(e);
    if let Node::TyVar(number) = node {
        return match known.get(number) {
            Some(ty) => store.same(*ty, ground),
            None => true,
        };
    }
    let other = store.node(ground);
    match (node.parts(), other.parts()) {
        (Parts::None, Parts::None) => same_head(node, other),
        (Parts::One(a), Parts::One(x)) => same_head(node, other) && may_fit(store, known, a, x),
        (Parts::Two(a, b), Parts::Two(x, y)) => same_head(node, other)
            && may_fit(store, known, a, x)
            && may_fit(store, known, b, y),
        (Parts::Three(a, b, c), Parts::Three(x, y, z)) => same_head(node, other)
            && may_fit(store, known, a, x)
            && may_fit(store, known, b, y)
            && may_fit(store, known, c, z),
        _ => false,
    }
}

// Whether an instance in the formula may be one of the set.
fn is_matched(store: &Store, known: &[TermId], instance: &AskingInstance) -> bool
    requires known { All (Holds store.now) known.now }
    requires instance { IsAskingInstance store.now instance.now }
    ensures { (set : List (ℕ × ℕ)) → HasCandidates set instance.now
        → result ≡ list_any
        (matches (trees_at store.now known.now) (asking_at store.now instance.now))
        (seen_occurrences store.now set) }
{
    for key in instance.candidates.as_slice() {
        if may_fit(store, known, instance.types, TermId(key.1)) {
            return true;
        }
    }
    false
}

// Whether an instance in the formula asks, mentions a type variable, and may be one of the set.
fn may_ask(
    store: &Store,
    named_only: bool,
    instance: &AskingInstance,
    known: &[TermId],
    number: usize,
) -> bool
    requires instance { IsAskingInstance store.now instance.now }
    requires known { All (Holds store.now) known.now }
    ensures { (set : List (ℕ × ℕ)) → HasCandidates set instance.now
        → result ≡ may_ask (seen_occurrences store.now set) named_only
        (trees_at store.now known.now) number (asking_at store.now instance.now) }
{
    if named_only && instance.symbol == 0 {
        return false;
    }
    has_variable(store, instance.inside.as_slice(), number) && is_matched(store, known, instance)
}

// Whether some instance that asks mentions a type variable, and may be one of the set.
fn is_asked(store: &Store, asking: &Asking, known: &[TermId], number: usize) -> bool
    requires instances { All (IsAskingInstance store.now) asking.now.instances }
    requires known { All (Holds store.now) known.now }
    ensures { (set : List (ℕ × ℕ)) → All (HasCandidates set) asking.now.instances
        → result ≡ list_any (may_ask (seen_occurrences store.now set) asking.now.named_only
        (trees_at store.now known.now) number)
        (map (asking_at store.now) asking.now.instances) }
{
    for instance in asking.instances.as_slice() {
        if may_ask(store, asking.named_only, instance, known, number) {
            return true;
        }
    }
    false
}

// Whether for each type variable some instance that asks, and may be one of the set, mentions it. Where a formula asks by `p 'a 'b`
// and the set has `p int bool` alone, a search that has put `bool` in for `'a` ends here, before it tries any type for `'b`.
fn may_go_on(
    store: &Store,
    set: &[InstanceKey],
    a: TermId,
    asking: &Asking,
    known: &[TermId],
) -> bool
    requires asking { IsAsking store.now set.now (tree_at store.now a) asking.now }
    requires known { All (Holds store.now) known.now }
    ensures { result ≡ may_go_on (seen_occurrences store.now set.now) (tree_at store.now a)
        (trees_at store.now known.now) }
{
    let _ = set;
    let _ = a;
    for number in 0..asking.above {
        if has_variable(store, asking.inside.as_slice(), number)
            && !is_asked(store, asking, known, number)
        {
            return false;
        }
    }
    true
}

/// What a search is for.
#[derive(Drop)]
struct Search<'a> {
    alloc: Global,
    /// The set of instances.
    set: &'a [InstanceKey],
    /// The types in them, in the order of their ranks.
    types: &'a [InstanceKey],
    /// The formula, and what asks for its instances.
    formula: TermId,
    asking: &'a Asking,
    /// One more than so many are enough.
    most: usize,
}

// The wanted assignments that begin with these types, with so many more to choose, after others.
#[cycle(finding)]
fn find(
    store: &Store,
    search: &Search<'_>,
    known: &mut Vec<TermId>,
    left: usize,
    found: &mut Vec<Seq<TermId>>,
) -> Result<(), AllocError>
    requires asking { IsAsking store.now search.now.set.now (tree_at store.now search.now.formula)
        search.now.asking.now }
    requires types { KeysHeld store.now search.now.types.now }
    requires known { All (Holds store.now) known.old.items }
    requires long { above_ty_vars (tree_at store.now search.now.formula)
        ≤ length known.old.items + left }
    requires found { IsSearchResult store.now search.now.most found.old.items }
    ensures known { OnOk result (known.new.items ≡ known.old.items) }
    ensures found { OnOk result (FindsUpTo store.now search.now.most found.old.items
        (found_from (seen_occurrences store.now search.now.set.now)
        (map (key_type store.now) search.now.types.now) (tree_at store.now search.now.formula)
        (trees_at store.now known.old.items) left) found.new.items) }
{
    if found.len() > search.most {
        return Ok(());
    }
    if !may_go_on(
        store,
        search.set,
        search.formula,
        search.asking,
        known.as_slice(),
    ) {
        return Ok(());
    }
    if left == 0 {
        found.push(Seq::from_slice(search.alloc, known.as_slice())?)?;
        return Ok(());
    }
    if has_variable(store, search.asking.inside.as_slice(), known.len()) {
        return find_each(store, search, search.types, known, left - 1, found);
    }
    let int = [(0, store.int_type().0)];
    find_each(store, search, &int, known, left - 1, found)
}

// The same with each of these types next.
#[cycle(finding)]
fn find_each(
    store: &Store,
    search: &Search<'_>,
    choices: &[InstanceKey],
    known: &mut Vec<TermId>,
    left: usize,
    found: &mut Vec<Seq<TermId>>,
) -> Result<(), AllocError>
    requires asking { IsAsking store.now search.now.set.now (tree_at store.now search.now.formula)
        search.now.asking.now }
    requires types { KeysHeld store.now search.now.types.now }
    requires choices { KeysHeld store.now choices.now }
    requires known { All (Holds store.now) known.old.items }
    requires long { above_ty_vars (tree_at store.now search.now.formula)
        ≤ length known.old.items + left + 1 }
    requires found { IsSearchResult store.now search.now.most found.old.items }
    ensures known { OnOk result (known.new.items ≡ known.old.items) }
    ensures found { OnOk result (FindsUpTo store.now search.now.most found.old.items
        (found_each (seen_occurrences store.now search.now.set.now)
        (map (key_type store.now) search.now.types.now) (tree_at store.now search.now.formula)
        (trees_at store.now known.old.items) left (map (key_type store.now) choices.now))
        found.new.items) }
{
    for key in choices {
        known.push(TermId(key.1))?;
        find(store, search, known, left, found)?;
        let _ = known.pop();
    }
    Ok(())
}

/// The wanted assignments at a set of instances with these types, for so many type variables, in order; no more than one above
/// `most`. Only want of memory refuses.
pub fn wanted_assignments(
    alloc: Global,
    store: &Store,
    set: &[InstanceKey],
    types: &[InstanceKey],
    formula: TermId,
    vars: usize,
    most: usize,
) -> Result<Vec<Seq<TermId>>, AllocError>
    requires held { Holds store.now formula }
    requires set_held { KeysHeld store.now set.now }
    requires types { GainsKeys store.now []
        (flat_map instance_types (seen_occurrences store.now set.now)) types.now }
    requires above { above_ty_vars (tree_at store.now formula) ≤ vars }
    ensures held { IfOk result (λ v. AssignmentsHeld store.now v.items) }
    ensures are { IfOk result (λ v. assignments_at store.now v.items ≡ take (most + 1)
        (wanted_types (seen_occurrences store.now set.now)
        (proposition_of vars (tree_at store.now formula)))) }
{
    let asking = asking_for(alloc, store, set, formula)?;
    let search = Search {
        alloc,
        set,
        types,
        formula,
        asking: &asking,
        most,
    };
    let mut known = Vec::new(alloc);
    let mut found = Vec::new(alloc);
    find(store, &search, &mut known, vars, &mut found)?;
    Ok(found)
}
