// What occurs in trees, each once, by first appearance: instances of symbols, or types. A part that is shared is looked at once.
// It depends on the store; the sets of instances and the search for wanted ones are made of it.
ghost use Rattle.std.specs.Prelude.{◌≡◌, [], ◌∷◌, length, IfOk, OnOk};
ghost use Rattle.std.specs.List.{flat_map};
ghost use Rattle.trees.specs.Tree.{Leaf, HEnd};
ghost use Rattle.trees.specs.Node.{tree_at, node_tree, parts_of, Holds, AreBelow};
ghost use Rattle.trees.specs.Sorts.{type_of};
ghost use Rattle.name_tables.specs.Seen.{occurrence_at, seen_occurrences, KeyHeld, KeysHeld, GainsKeys};
ghost use Rattle.tr_discriminate.specs.wanted_instances.Instances.{type_or_end, instance_types};
ghost use Rattle.tr_discriminate.specs.instance_search.Gather.{gathered, own_instances, types_at_top, before_parts, after_parts, in_parts, IsGathering, WalkGains};

use indexmap::IndexSet;
use std::alloc::{AllocError, Global};
use trees::store::Store;
use trees::{Node, Parts, TermId};

/// A symbol's entry, or 0 for `=`, and the number of the list of its types, or of the type of its sides.
pub type InstanceKey = (usize, usize);

/// What is sought in a tree.
#[derive(Clone, Copy)]
pub enum Sought {
    /// The instances of symbols and of `=`, in preorder.
    Instances,
    /// The types, each as the instance of `=` at it; arguments are before the type that has them.
    Types,
}

// Adds an instance, unless it is there.
fn add_key(
    store: &Store,
    keys: &mut IndexSet<InstanceKey>,
    key: InstanceKey,
) -> Result<(), AllocError>
    requires keys_held { KeysHeld store.now keys.old.keys }
    requires held { KeyHeld store.now key }
    ensures { OnOk result (GainsKeys store.now keys.old.keys (occurrence_at store.now key ∷ [])
        keys.new.keys) }
{
    store.laws();
    keys.insert(key)?;
    Ok(())
}

// The type of a term, or the list without members where it has none.
fn type_or_end(store: &Store, e: TermId) -> TermId
    requires { Holds store.now e }
    ensures held { Holds store.now result }
    ensures tree { tree_at store.now result ≡ type_or_end (type_of (tree_at store.now e)) }
{
    if let Some(ty) = store.ty(e) {
        return ty;
    }
    match store.node(store.int_type()).parts() {
        Parts::One(args) => args,
        _ => unreachable!(),
    }
}

// Adds the instance that the operator of a node is, where it is one.
fn add_instance(
    store: &Store,
    keys: &mut IndexSet<InstanceKey>,
    node: Node,
) -> Result<(), AllocError>
    requires keys_held { KeysHeld store.now keys.old.keys }
    requires held { AreBelow (length store.now) (parts_of node) }
    ensures { OnOk result (GainsKeys store.now keys.old.keys
        (own_instances (node_tree store.now node)) keys.new.keys) }
{
    match node {
        Node::Pred(symbol, types, _) => add_key(store, keys, (symbol, types.0)),
        Node::Eq(left, _) => add_key(store, keys, (0, type_or_end(store, left).0)),
        Node::Fun(symbol, types, _, _) => add_key(store, keys, (symbol, types.0)),
        Node::PatCon(symbol, types, _, _) => add_key(store, keys, (symbol, types.0)),
        _ => Ok(()),
    }
}

// Adds a tree as a type, where it is one.
fn add_type(store: &Store, keys: &mut IndexSet<InstanceKey>, e: TermId) -> Result<(), AllocError>
    requires keys_held { KeysHeld store.now keys.old.keys }
    requires held { Holds store.now e }
    ensures { OnOk result (GainsKeys store.now keys.old.keys (types_at_top (tree_at store.now e))
        keys.new.keys) }
{
    match store.node(e) {
        Node::TyVar(_) => add_key(store, keys, (0, e.0)),
        Node::TyRigid(_) => add_key(store, keys, (0, e.0)),
        Node::TyApp(_, _) => add_key(store, keys, (0, e.0)),
        _ => Ok(()),
    }
}

// Adds what the operator of a tree adds before its children.
fn add_before(
    store: &Store,
    keys: &mut IndexSet<InstanceKey>,
    sought: Sought,
    e: TermId,
) -> Result<(), AllocError>
    requires keys_held { KeysHeld store.now keys.old.keys }
    requires held { Holds store.now e }
    ensures { OnOk result (GainsKeys store.now keys.old.keys
        (before_parts sought (tree_at store.now e)) keys.new.keys) }
{
    match sought {
        Sought::Instances => add_instance(store, keys, store.node(e)),
        Sought::Types => Ok(()),
    }
}

// And after them.
fn add_after(
    store: &Store,
    keys: &mut IndexSet<InstanceKey>,
    sought: Sought,
    e: TermId,
) -> Result<(), AllocError>
    requires keys_held { KeysHeld store.now keys.old.keys }
    requires held { Holds store.now e }
    ensures { OnOk result (GainsKeys store.now keys.old.keys
        (after_parts sought (tree_at store.now e)) keys.new.keys) }
{
    match sought {
        Sought::Instances => Ok(()),
        Sought::Types => add_type(store, keys, e),
    }
}

// Gathers what is sought in a tree, unless that was done.
#[cycle(gathering)]
fn gather_tree(
    store: &Store,
    keys: &mut IndexSet<InstanceKey>,
    done: &mut IndexSet<usize>,
    sought: Sought,
    e: TermId,
) -> Result<(), AllocError>
    requires walk { IsGathering store.now sought keys.old.keys done.old.keys }
    requires held { Holds store.now e }
    ensures { OnOk result (WalkGains store.now sought keys.old.keys
        (gathered sought (tree_at store.now e)) keys.new.keys done.new.keys) }
{
    if done.contains(&e.0) {
        return Ok(());
    }
    add_before(store, keys, sought, e)?;
    gather_parts(store, keys, done, sought, e)?;
    add_after(store, keys, sought, e)?;
    done.insert(e.0)?;
    Ok(())
}

// Gathers what is sought in the children of a tree.
#[cycle(gathering)]
fn gather_parts(
    store: &Store,
    keys: &mut IndexSet<InstanceKey>,
    done: &mut IndexSet<usize>,
    sought: Sought,
    e: TermId,
) -> Result<(), AllocError>
    requires walk { IsGathering store.now sought keys.old.keys done.old.keys }
    requires held { Holds store.now e }
    ensures { OnOk result (WalkGains store.now sought keys.old.keys
        (in_parts sought (tree_at store.now e)) keys.new.keys done.new.keys) }
{
    match store.node(e).parts() {
        Parts::None => Ok(()),
        Parts::One(a) => gather_tree(store, keys, done, sought, a),
        Parts::Two(a, b) => {
            gather_tree(store, keys, done, sought, a)?;
            gather_tree(store, keys, done, sought, b)
        }
        Parts::Three(x, y, z) => {
            gather_tree(store, keys, done, sought, x)?;
            gather_tree(store, keys, done, sought, y)?;
            gather_tree(store, keys, done, sought, z)
        }
    }
}

/// Adds what is sought in a tree, each unless it is there. Only want of memory refuses.
pub fn gather(
    alloc: Global,
    store: &Store,
    keys: &mut IndexSet<InstanceKey>,
    sought: Sought,
    e: TermId,
) -> Result<(), AllocError>
    requires keys_held { KeysHeld store.now keys.old.keys }
    requires held { Holds store.now e }
    ensures { OnOk result (GainsKeys store.now keys.old.keys
        (gathered sought (tree_at store.now e)) keys.new.keys) }
{
    let mut done = IndexSet::new(alloc);
    gather_tree(store, keys, &mut done, sought, e)
}

/// The types in instances, each once: the rank of a type is its place. Only want of memory refuses.
pub fn types_in_order(
    alloc: Global,
    store: &Store,
    set: &[InstanceKey],
) -> Result<IndexSet<InstanceKey>, AllocError>
    requires { KeysHeld store.now set.now }
    ensures { IfOk result (λ v. GainsKeys store.now []
        (flat_map instance_types (seen_occurrences store.now set.now)) v.keys) }
{
    let mut types = IndexSet::new(alloc);
    for key in set {
        gather(alloc, store, &mut types, Sought::Types, TermId(key.1))?;
    }
    Ok(types)
}
