// What asks for instances of a formula: the instances in it, and which of a set's instances each may become.
// It depends on what is gathered from trees; the search for wanted assignments depends on it.
ghost use Rattle.std.specs.Prelude.{◌≡◌, ◌≤◌, ◌==◌, ◌&&◌, ◌||◌, nat_eq, not, ℕ, [], ◌∷◌, List, All, map, filter, IfOk};
ghost use Rattle.std.specs.List.{list_any};
ghost use Rattle.trees.specs.Tree.{Tree, above_ty_vars};
ghost use Rattle.trees.specs.Node.{tree_at, Holds};
ghost use Rattle.name_tables.specs.Seen.{occurrence_at, seen_occurrences, KeyHeld, KeysHeld, GainsKeys};
ghost use Rattle.tr_discriminate.specs.wanted_instances.Instances.{types_within, has_variable, mentions};
ghost use Rattle.tr_discriminate.specs.wanted_instances.Wanted.{is_of_symbol, mention_all};
ghost use Rattle.tr_discriminate.specs.wanted_search.Asking.{is_type_variable, asking_at, IsAskingInstance, HasCandidates, IsAsking};

use crate::instance_search::{InstanceKey, Sought, gather};
use indexmap::IndexSet;
use std::alloc::{AllocError, Global};
use tasks::Seq;
use trees::store::Store;
use trees::{Node, TermId};

/// An instance in a formula.
#[derive(Drop)]
pub struct AskingInstance {
    /// Its symbol's entry, or 0 for `=`.
    pub symbol: usize,
    /// The list of its types, or the type of the sides.
    pub types: TermId,
    /// The types in these.
    pub inside: Seq<InstanceKey>,
    /// The instances of the set that have its symbol.
    pub candidates: Seq<InstanceKey>,
}

/// What asks for instances of a formula.
#[derive(Drop)]
pub struct Asking {
    /// The least number above the formula's type variables.
    pub above: usize,
    /// The types in it.
    pub inside: Seq<InstanceKey>,
    /// Its instances, each once.
    pub instances: Seq<AskingInstance>,
    /// Whether those of `=` don't ask, since those of symbols mention all type variables.
    pub named_only: bool,
}

// Whether a tree is a type variable.
fn is_type_variable(store: &Store, ty: TermId, number: usize) -> bool
    requires { Holds store.now ty }
    ensures { result ≡ is_type_variable number (tree_at store.now ty) }
{
    match store.node(ty) {
        Node::TyVar(found) => number == found,
        _ => false,
    }
}

/// Whether a type variable is in a tree, by the types in it.
pub fn has_variable(store: &Store, inside: &[InstanceKey], number: usize) -> bool
    requires { KeysHeld store.now inside.now }
    ensures { (e : Tree) → GainsKeys store.now [] (types_within e) inside.now
        → result ≡ has_variable number e }
{
    for key in inside {
        if is_type_variable(store, TermId(key.1), number) {
            return true;
        }
    }
    false
}

// The types in a tree, each once.
fn types_inside(alloc: Global, store: &Store, e: TermId) -> Result<Seq<InstanceKey>, AllocError>
    requires { Holds store.now e }
    ensures { IfOk result (GainsKeys store.now [] (types_within (tree_at store.now e))) }
{
    let mut types = IndexSet::new(alloc);
    gather(alloc, store, &mut types, Sought::Types, e)?;
    Seq::from_slice(alloc, types.as_slice())
}

// The instances of a set that have a symbol.
fn with_symbol(
    alloc: Global,
    set: &[InstanceKey],
    symbol: usize,
) -> Result<Seq<InstanceKey>, AllocError>
    ensures { IfOk result (λ v. v ≡ filter (λ (k : ℕ × ℕ). nat_eq symbol k.0) set.now) }
{
    let mut found = Vec::new(alloc);
    for key in set {
        if symbol == key.0 {
            found.push(*key)?;
        }
    }
    Ok(Seq::from_vec(found))
}

fn asking_instance(
    alloc: Global,
    store: &Store,
    set: &[InstanceKey],
    key: InstanceKey,
) -> Result<AskingInstance, AllocError>
    requires held { KeyHeld store.now key }
    requires set_held { KeysHeld store.now set.now }
    ensures instance { IfOk result (IsAskingInstance store.now) }
    ensures candidates { IfOk result (HasCandidates set.now) }
    ensures is { IfOk result (λ d. asking_at store.now d ≡ occurrence_at store.now key) }
{
    let types = TermId(key.1);
    let inside = types_inside(alloc, store, types)?;
    let candidates = with_symbol(alloc, set, key.0)?;
    Ok(AskingInstance {
        symbol: key.0,
        types,
        inside,
        candidates,
    })
}

// For each instance in a formula.
fn asking_instances(
    alloc: Global,
    store: &Store,
    set: &[InstanceKey],
    occurring: &[InstanceKey],
) -> Result<Seq<AskingInstance>, AllocError>
    requires held { KeysHeld store.now occurring.now }
    requires set_held { KeysHeld store.now set.now }
    ensures instances { IfOk result (All (IsAskingInstance store.now)) }
    ensures candidates { IfOk result (All (HasCandidates set.now)) }
    ensures are { IfOk result (λ v. map (asking_at store.now) v
        ≡ seen_occurrences store.now occurring.now) }
{
    let mut made = Vec::new(alloc);
    for key in occurring {
        let next = asking_instance(alloc, store, set, *key)?;
        made.push(next)?;
    }
    Ok(Seq::from_vec(made))
}

// Whether an instance of a symbol mentions a type variable.
fn is_mentioned_by_named(store: &Store, instances: &[AskingInstance], number: usize) -> bool
    requires { All (IsAskingInstance store.now) instances.now }
    ensures { result ≡ list_any (mentions number)
        (filter is_of_symbol (map (asking_at store.now) instances.now)) }
{
    for instance in instances {
        if instance.symbol != 0 && has_variable(store, instance.inside.as_slice(), number) {
            return true;
        }
    }
    false
}

// Whether the instances of symbols mention all type variables.
fn named_suffice(
    store: &Store,
    above: usize,
    inside: &[InstanceKey],
    instances: &[AskingInstance],
) -> bool
    requires instances { All (IsAskingInstance store.now) instances.now }
    requires held { KeysHeld store.now inside.now }
    ensures { (a : Tree) → GainsKeys store.now [] (types_within a) inside.now
        → result ≡ mention_all above a
        (filter is_of_symbol (map (asking_at store.now) instances.now)) }
{
    for number in 0..above {
        if has_variable(store, inside, number) && !is_mentioned_by_named(store, instances, number) {
            return false;
        }
    }
    true
}

/// What asks for instances of a formula. Only want of memory refuses.
pub fn asking_for(
    alloc: Global,
    store: &Store,
    set: &[InstanceKey],
    a: TermId,
) -> Result<Asking, AllocError>
    requires held { Holds store.now a }
    requires set_held { KeysHeld store.now set.now }
    requires above { above_ty_vars (tree_at store.now a) ≤ usize.MAX }
    ensures { IfOk result (IsAsking store.now set.now (tree_at store.now a)) }
{
    let mut occurring = IndexSet::new(alloc);
    gather(alloc, store, &mut occurring, Sought::Instances, a)?;
    let above = store.above_type_variables(a);
    let inside = types_inside(alloc, store, a)?;
    let instances = asking_instances(alloc, store, set, occurring.as_slice())?;
    let named_only = named_suffice(store, above, inside.as_slice(), instances.as_slice());
    Ok(Asking {
        above,
        inside,
        instances,
        named_only,
    })
}
