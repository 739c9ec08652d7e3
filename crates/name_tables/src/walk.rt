// Which symbols occur in a task, each at its types, once, by first appearance. A term that is shared is looked at once.
// It depends on the store and the tasks; what is in a table is made from it.
ghost use Rattle.std.specs.Prelude.{◌≡◌, ◌∷◌, [], ◌++◌, length, All, IfOk, OnOk};
ghost use Rattle.std.specs.List.{flat_map};
ghost use Rattle.trees.specs.Tree.{Leaf, HEnd};
ghost use Rattle.trees.specs.Node.{tree_at, node_tree, parts_of, Holds, AreBelow};
ghost use Rattle.trees.specs.Sorts.{type_of};
ghost use Rattle.tasks.specs.Task.{props_of};
ghost use Rattle.tasks.specs.Meaning.{trees_at, body_at, declarations_at, task_at, BodyHeld, DeclHeld, TaskHeld};
ghost use Rattle.name_tables.specs.Occurrences.{in_type, in_option, in_types_of, occurrences_at, in_proposition, occurrences, task_occurrences};
ghost use Rattle.name_tables.specs.Seen.{occurrence_at, seen_occurrences, has, with_all, AreIn, KeyHeld, KeysHeld, IsSeen, Sees, IsWalk, WalksTerms, GainsKeys};
ghost use Rattle.name_tables.specs.Own.{own, inner, said_occurrences};
ghost use Rattle.name_tables.specs.Fronts.{declared_occurrences, rest_occurrences};

use indexmap::IndexSet;
use std::alloc::{AllocError, Global};
use tasks::{Body, Decl, Task};
use trees::store::Store;
use trees::{Node, Parts, TermId};

/// A symbol's entry, and the number of the list of its types.
pub(crate) type Key = (usize, usize);

/// The number of the list without members.
pub(crate) fn empty_list(store: &Store) -> TermId
    ensures held { Holds store.now result }
    ensures tree { tree_at store.now result ≡ Leaf HEnd }
{
    match store.node(store.int_type()).parts() {
        Parts::One(args) => args,
        _ => unreachable!(),
    }
}

/// The same symbols at types once more.
pub(crate) fn copied_keys(keys: &IndexSet<Key>) -> Result<IndexSet<Key>, AllocError>
    ensures { IfOk result (λ v. v.keys ≡ keys.now.keys) }
{
    keys.clone()
}

/// Adds a symbol at types, unless it is there.
pub(crate) fn add_key(store: &Store, keys: &mut IndexSet<Key>, key: Key) -> Result<(), AllocError>
    requires keys_held { KeysHeld store.now keys.old.keys }
    requires held { KeyHeld store.now key }
    ensures { OnOk result (GainsKeys store.now keys.old.keys (occurrence_at store.now key ∷ [])
        keys.new.keys) }
{
    store.laws();
    keys.insert(key)?;
    Ok(())
}

/// Whether a symbol at types is there.
pub(crate) fn has_key(store: &Store, keys: &IndexSet<Key>, key: Key) -> bool
    requires keys_held { KeysHeld store.now keys.now.keys }
    requires held { KeyHeld store.now key }
    ensures { result ≡ has (seen_occurrences store.now keys.now.keys)
        (occurrence_at store.now key) }
{
    store.laws();
    keys.contains(&key)
}

// Notes a symbol at types that are noted.
fn note(store: &Store, seen: &mut IndexSet<Key>, key: Key) -> Result<(), AllocError>
    requires seen { IsSeen store.now seen.old.keys }
    requires held { KeyHeld store.now key }
    requires types { AreIn (seen_occurrences store.now seen.old.keys)
        (in_type (occurrence_at store.now
        key).types) }
    ensures { OnOk result (Sees store.now seen.old.keys (occurrence_at store.now key ∷ [])
        seen.new.keys) }
{
    add_key(store, seen, key)
}

// Notes what is in a type or a list of types.
fn note_type(store: &Store, seen: &mut IndexSet<Key>, ty: TermId) -> Result<(), AllocError>
    requires seen { IsSeen store.now seen.old.keys }
    requires held { Holds store.now ty }
    ensures { OnOk result (Sees store.now seen.old.keys (in_type (tree_at store.now ty))
        seen.new.keys) }
{
    match store.node(ty) {
        Node::TyRigid(symbol) => note(store, seen, (symbol, empty_list(store).0)),
        Node::TyApp(symbol, args) => {
            if has_key(store, seen, (symbol, args.0)) {
                return Ok(());
            }
            note_type(store, seen, args)?;
            note(store, seen, (symbol, args.0))
        }
        Node::Cell(first, rest) => {
            note_type(store, seen, first)?;
            note_type(store, seen, rest)
        }
        _ => Ok(()),
    }
}

// Notes what is in the type of a term.
fn note_type_of(store: &Store, seen: &mut IndexSet<Key>, e: TermId) -> Result<(), AllocError>
    requires seen { IsSeen store.now seen.old.keys }
    requires held { Holds store.now e }
    ensures { OnOk result (Sees store.now seen.old.keys (in_option (type_of (tree_at store.now e)))
        seen.new.keys) }
{
    match store.ty(e) {
        Some(ty) => note_type(store, seen, ty),
        None => Ok(()),
    }
}

// Notes what is in the types of the members of a list.
fn note_types_of(store: &Store, seen: &mut IndexSet<Key>, args: TermId) -> Result<(), AllocError>
    requires seen { IsSeen store.now seen.old.keys }
    requires held { Holds store.now args }
    ensures { OnOk result (Sees store.now seen.old.keys (in_types_of (tree_at store.now args))
        seen.new.keys) }
{
    match store.node(args) {
        Node::Cell(first, rest) => {
            note_type_of(store, seen, first)?;
            note_types_of(store, seen, rest)
        }
        _ => Ok(()),
    }
}

// Notes a symbol at types, and before it what is in the types.
fn note_at_types(
    store: &Store,
    seen: &mut IndexSet<Key>,
    symbol: usize,
    types: TermId,
) -> Result<(), AllocError>
    requires seen { IsSeen store.now seen.old.keys }
    requires held { Holds store.now types }
    ensures { OnOk result (Sees store.now seen.old.keys
        (occurrences_at symbol (tree_at store.now types))
        seen.new.keys) }
{
    note_type(store, seen, types)?;
    note(store, seen, (symbol, types.0))
}

// Notes a function at types, its arguments' types and its result's.
fn note_function(
    store: &Store,
    seen: &mut IndexSet<Key>,
    symbol: usize,
    types: TermId,
    args: TermId,
    result_type: TermId,
) -> Result<(), AllocError>
    requires seen { IsSeen store.now seen.old.keys }
    requires types_held { Holds store.now types }
    requires args_held { Holds store.now args }
    requires result_held { Holds store.now result_type }
    ensures { OnOk result (Sees store.now seen.old.keys (in_types_of (tree_at store.now args)
        ++ (in_type (tree_at store.now result_type)
        ++ occurrences_at symbol (tree_at store.now types)))
        seen.new.keys) }
{
    note_types_of(store, seen, args)?;
    note_type(store, seen, result_type)?;
    note_at_types(store, seen, symbol, types)
}

// Notes a predicate at types, and its arguments' types.
fn note_predicate(
    store: &Store,
    seen: &mut IndexSet<Key>,
    symbol: usize,
    types: TermId,
    args: TermId,
) -> Result<(), AllocError>
    requires seen { IsSeen store.now seen.old.keys }
    requires types_held { Holds store.now types }
    requires args_held { Holds store.now args }
    ensures { OnOk result (Sees store.now seen.old.keys (in_types_of (tree_at store.now args)
        ++ occurrences_at symbol (tree_at store.now types)) seen.new.keys) }
{
    note_types_of(store, seen, args)?;
    note_at_types(store, seen, symbol, types)
}

// Notes what the operator of a node adds.
fn note_node(store: &Store, seen: &mut IndexSet<Key>, node: Node) -> Result<(), AllocError>
    requires seen { IsSeen store.now seen.old.keys }
    requires held { AreBelow (length store.now) (parts_of node) }
    ensures { OnOk result (Sees store.now seen.old.keys (own (node_tree store.now node))
        seen.new.keys) }
{
    match node {
        Node::Num(_) => note(store, seen, (0, empty_list(store).0)),
        Node::Param(_, ty) => note_type(store, seen, ty),
        Node::Pred(symbol, types, args) => note_predicate(store, seen, symbol, types, args),
        Node::Eq(left, _) => note_type_of(store, seen, left),
        Node::Forall(ty, _) => note_type(store, seen, ty),
        Node::Exists(ty, _) => note_type(store, seen, ty),
        Node::Fun(symbol, types, args, ty) => note_function(store, seen, symbol, types, args, ty),
        Node::PatCon(symbol, types, args, ty) => {
            note_function(store, seen, symbol, types, args, ty)
        }
        _ => Ok(()),
    }
}

// Notes what occurs in a term or formula, unless that was done.
#[cycle(terms)]
fn note_term(
    store: &Store,
    seen: &mut IndexSet<Key>,
    done: &mut IndexSet<usize>,
    e: TermId,
) -> Result<(), AllocError>
    requires walk { IsWalk store.now seen.old.keys done.old.keys }
    requires held { Holds store.now e }
    ensures { OnOk result (WalksTerms store.now seen.old.keys (occurrences (tree_at store.now e))
        seen.new.keys done.new.keys) }
{
    if done.contains(&e.0) {
        return Ok(());
    }
    note_node(store, seen, store.node(e))?;
    note_parts(store, seen, done, e)?;
    done.insert(e.0)?;
    Ok(())
}

// Notes what occurs in the children of a term or formula.
#[cycle(terms)]
fn note_parts(
    store: &Store,
    seen: &mut IndexSet<Key>,
    done: &mut IndexSet<usize>,
    e: TermId,
) -> Result<(), AllocError>
    requires walk { IsWalk store.now seen.old.keys done.old.keys }
    requires held { Holds store.now e }
    ensures { OnOk result (WalksTerms store.now seen.old.keys (inner (tree_at store.now e))
        seen.new.keys done.new.keys) }
{
    match store.node(e).parts() {
        Parts::None => Ok(()),
        Parts::One(a) => note_term(store, seen, done, a),
        Parts::Two(a, b) => {
            note_term(store, seen, done, a)?;
            note_term(store, seen, done, b)
        }
        Parts::Three(x, y, z) => {
            note_term(store, seen, done, x)?;
            note_term(store, seen, done, y)?;
            note_term(store, seen, done, z)
        }
    }
}

fn note_formulas(
    store: &Store,
    seen: &mut IndexSet<Key>,
    done: &mut IndexSet<usize>,
    formulas: &[TermId],
) -> Result<(), AllocError>
    requires walk { IsWalk store.now seen.old.keys done.old.keys }
    requires held { All (Holds store.now) formulas.now }
    ensures { OnOk result (WalksTerms store.now seen.old.keys
        (flat_map occurrences (trees_at store.now
        formulas.now)) seen.new.keys done.new.keys) }
{
    for formula in formulas {
        note_term(store, seen, done, *formula)?;
    }
    Ok(())
}

// Notes what occurs in what a declaration says.
fn note_body(
    store: &Store,
    seen: &mut IndexSet<Key>,
    done: &mut IndexSet<usize>,
    body: &Body,
) -> Result<(), AllocError>
    requires walk { IsWalk store.now seen.old.keys done.old.keys }
    requires held { BodyHeld store.now body.now }
    ensures { OnOk result (WalksTerms store.now seen.old.keys
        (said_occurrences (body_at store.now body.now))
        seen.new.keys done.new.keys) }
{
    match body {
        Body::Prop(formula) => note_term(store, seen, done, *formula),
        _ => Ok(()),
    }
}

fn note_propositions(
    store: &Store,
    seen: &mut IndexSet<Key>,
    done: &mut IndexSet<usize>,
    decls: &[Decl],
) -> Result<(), AllocError>
    requires walk { IsWalk store.now seen.old.keys done.old.keys }
    requires held { All (DeclHeld store.now) decls.now }
    ensures { OnOk result (WalksTerms store.now seen.old.keys (flat_map in_proposition (props_of
        (declarations_at store.now decls.now))) seen.new.keys done.new.keys) }
{
    for decl in decls {
        note_body(store, seen, done, &decl.body)?;
    }
    Ok(())
}

// Notes what is in types.
fn note_types(store: &Store, seen: &mut IndexSet<Key>, types: &[TermId]) -> Result<(), AllocError>
    requires seen { IsSeen store.now seen.old.keys }
    requires held { All (Holds store.now) types.now }
    ensures { OnOk result (Sees store.now seen.old.keys (flat_map in_type (trees_at store.now
        types.now)) seen.new.keys) }
{
    for ty in types {
        note_type(store, seen, *ty)?;
    }
    Ok(())
}

/// What occurs in what declarations say.
pub(crate) fn seen_in_declarations(
    alloc: Global,
    store: &Store,
    decls: &[Decl],
) -> Result<IndexSet<Key>, AllocError>
    requires { All (DeclHeld store.now) decls.now }
    ensures { IfOk result (λ v. Sees store.now []
        (declared_occurrences (declarations_at store.now decls.now)) v.keys) }
{
    let mut seen = IndexSet::new(alloc);
    let mut done = IndexSet::new(alloc);
    note_propositions(store, &mut seen, &mut done, decls)?;
    Ok(seen)
}

/// Notes what occurs in the parameters, the locals and the goal of a task.
pub(crate) fn note_rest(
    alloc: Global,
    store: &Store,
    seen: &mut IndexSet<Key>,
    task: &Task,
) -> Result<(), AllocError>
    requires seen { IsSeen store.now seen.old.keys }
    requires held { TaskHeld store.now task.now }
    ensures { OnOk result (Sees store.now seen.old.keys
        (rest_occurrences (task_at store.now task.now)) seen.new.keys) }
{
    let mut done = IndexSet::new(alloc);
    note_types(store, seen, task.params.as_slice())?;
    note_formulas(store, seen, &mut done, task.locals.as_slice())?;
    note_term(store, seen, &mut done, task.goal)
}

/// What occurs in a task.
pub(crate) fn seen_in(
    alloc: Global,
    store: &Store,
    task: &Task,
) -> Result<IndexSet<Key>, AllocError>
    requires { TaskHeld store.now task.now }
    ensures { IfOk result (λ v. GainsKeys store.now []
        (task_occurrences (task_at store.now task.now))
        v.keys) }
{
    let mut seen = seen_in_declarations(alloc, store, task.decls.as_slice())?;
    note_rest(alloc, store, &mut seen, task)?;
    Ok(seen)
}

/// What occurs in a term or formula.
pub(crate) fn seen_in_term(
    alloc: Global,
    store: &Store,
    e: TermId,
) -> Result<IndexSet<Key>, AllocError>
    requires { Holds store.now e }
    ensures { IfOk result (λ v. GainsKeys store.now [] (occurrences (tree_at store.now e)) v.keys) }
{
    let mut seen = IndexSet::new(alloc);
    let mut done = IndexSet::new(alloc);
    note_term(store, &mut seen, &mut done, e)?;
    Ok(seen)
}

/// What is in a type.
pub(crate) fn seen_in_type(
    alloc: Global,
    store: &Store,
    ty: TermId,
) -> Result<IndexSet<Key>, AllocError>
    requires { Holds store.now ty }
    ensures { IfOk result (λ v. GainsKeys store.now [] (in_type (tree_at store.now ty)) v.keys) }
{
    let mut seen = IndexSet::new(alloc);
    note_type(store, &mut seen, ty)?;
    Ok(seen)
}
