// The map of trees by a map of symbols. A tree that is shared is mapped once.
// It depends on the store and the binding functions.
ghost use Rattle.std.specs.Prelude.{◌≡◌, ◌++◌, length, IfOk, OnOk};
ghost use Rattle.trees.specs.Tree.{One};
ghost use Rattle.trees.specs.Binding.{inst_types};
ghost use Rattle.trees.specs.Node.{tree_at, assemble, Holds, Grows, head_of_node, parts_of, AreBelow, IsLike};
ghost use Rattle.trees.specs.Sorts.{sort_of, Fits, IsList};
ghost use Rattle.trees.specs.binders.Visits.{HoldTypes, trees_at};
ghost use Rattle.tasks.specs.Typing.{members};
ghost use Rattle.clones.specs.Mapped.{head_mapped, type_mapped, one_mapped};
ghost use Rattle.clones.specs.Meaning.{map_at, MapHeld, IsAlike, IsMapped, AreKnown};

use indexmap::IndexMap;
use std::alloc::{AllocError, Global};
use trees::binders::inst_types;
use trees::store::{Grow, Store};
use trees::{Node, Parts, Sort, TermId};

/// A map of symbols: what each becomes, where it isn't itself. A type symbol among `types` becomes the type, in which its arguments
/// stand for the type variables.
#[derive(Drop)]
pub struct SymbolMap {
    pub symbols: IndexMap<usize, usize>,
    pub types: IndexMap<usize, TermId>,
}

/// The mapped trees so far, by the numbers of the trees.
pub type MappedTrees = IndexMap<usize, TermId>;

/// What a symbol becomes. No memory is taken.
pub fn map_symbol(store: &Store, map: &SymbolMap, symbol: usize) -> usize
    ensures { result ≡ (map_at store.now map.now).symbols symbol }
{
    let _ = store;
    match map.symbols.get(&symbol) {
        Some(new) => *new,
        None => symbol,
    }
}

// The node with its symbol mapped.
fn map_node(store: &Store, map: &SymbolMap, node: Node) -> Node
    ensures head { head_of_node result
        ≡ head_mapped (map_at store.now map.now).symbols (head_of_node node) }
    ensures parts { parts_of result ≡ parts_of node }
{
    match node {
        Node::TyApp(symbol, args) => Node::TyApp(map_symbol(store, map, symbol), args),
        Node::Fun(symbol, types, args, ty) => {
            Node::Fun(map_symbol(store, map, symbol), types, args, ty)
        }
        Node::Pred(symbol, types, args) => Node::Pred(map_symbol(store, map, symbol), types, args),
        Node::PatCon(symbol, types, parts, ty) => {
            Node::PatCon(map_symbol(store, map, symbol), types, parts, ty)
        }
        _ => node,
    }
}

// The node with its symbol mapped, over other children.
fn remake(
    store: &mut Store,
    map: &SymbolMap,
    node: Node,
    parts: Parts,
) -> Result<TermId, AllocError>
    requires like { IsLike (parts_of node) parts }
    requires held { AreBelow (length store.old) parts }
    requires fits { Fits (assemble store.old
        (head_mapped (map_at store.old map.now).symbols (head_of_node node)) parts) }
    ensures held { IfOk result (Holds store.new) }
    ensures tree { IfOk result (λ id. tree_at store.new id ≡ assemble store.old
        (head_mapped (map_at store.old map.now).symbols (head_of_node node)) parts) }
    ensures grows { Grows store.old store.new }
{
    let mapped = map_node(store, map, node);
    store.add(mapped.with_parts(parts))
}

// The members of a list of types, after others.
fn push_members(store: &Store, list: TermId, out: &mut Vec<TermId>) -> Result<(), AllocError>
    requires held { Holds store.now list }
    requires types { IsList Sort.Kind (tree_at store.now list) }
    requires out_held { HoldTypes store.now out.old.items }
    ensures tree { OnOk result (trees_at store.now out.new.items
        ≡ trees_at store.now out.old.items ++ members (tree_at store.now list)) }
    ensures new_held { OnOk result (HoldTypes store.now out.new.items) }
{
    match store.node(list) {
        Node::Cell(first, rest) => {
            out.push(first)?;
            push_members(store, rest, out)
        }
        _ => Ok(()),
    }
}

// A type symbol at mapped arguments.
fn map_type(
    alloc: Global,
    store: &mut Store,
    map: &SymbolMap,
    symbol: usize,
    args: TermId,
) -> Result<TermId, AllocError>
    requires map_held { MapHeld store.old map.now }
    requires args_held { Holds store.old args }
    requires types { IsList Sort.Kind (tree_at store.old args) }
    ensures held { IfOk result (Holds store.new) }
    ensures tree { IfOk result (λ id. tree_at store.new id
        ≡ type_mapped ((map_at store.old map.now).types symbol)
        ((map_at store.old map.now).symbols symbol) (tree_at store.old args)) }
    ensures kind { IfOk result (λ id. sort_of (tree_at store.new id) ≡ Sort.Kind) }
    ensures grows { Grows store.old store.new }
{
    match map.types.get(&symbol) {
        Some(ty) => {
            let mut types = Vec::new(alloc);
            push_members(store, args, &mut types)?;
            inst_types(alloc, store, *ty, types.as_slice())
        }
        None => {
            let new = map_symbol(store, map, symbol);
            store.add(Node::TyApp(new, args))
        }
    }
}

// The node of a tree over mapped children, of which there is one.
fn map_one(
    alloc: Global,
    store: &mut Store,
    map: &SymbolMap,
    node: Node,
    a: TermId,
) -> Result<TermId, AllocError>
    requires map_held { MapHeld store.old map.now }
    requires like { IsLike (parts_of node) (Parts.One a) }
    requires held { Holds store.old a }
    requires fits { Fits (One (head_of_node node) (tree_at store.old a)) }
    ensures held { IfOk result (Holds store.new) }
    ensures tree { IfOk result (λ id. tree_at store.new id
        ≡ one_mapped (map_at store.old map.now) (head_of_node node) (tree_at store.old a)) }
    ensures alike { IfOk result (λ id. IsAlike (One (head_of_node node) (tree_at store.old a))
        (tree_at store.new id)) }
    ensures grows { Grows store.old store.new }
{
    match node {
        Node::TyApp(symbol, _) => map_type(alloc, store, map, symbol, a),
        _ => remake(store, map, node, Parts::One(a)),
    }
}

/// The mapped tree. What is made is remembered, so that several trees under one map share their parts. Only want of memory refuses.
#[cycle(mapping)]
pub fn map_tree(
    alloc: Global,
    store: &mut Store,
    map: &SymbolMap,
    known: &mut MappedTrees,
    e: TermId,
) -> Result<TermId, AllocError>
    requires map_held { MapHeld store.old map.now }
    requires held { Holds store.old e }
    requires known { AreKnown (map_at store.old map.now) store.old known.old }
    ensures mapped { IfOk result (IsMapped (map_at store.old map.now) (tree_at store.old e)
        store.new) }
    ensures known { OnOk result (AreKnown (map_at store.old map.now) store.new known.new) }
    ensures grows { Grows store.old store.new }
{
    if let Some(made) = known.get(&e.0) {
        return Ok(*made);
    }
    let made = map_parts(alloc, store, map, known, e)?;
    known.insert(e.0, made)?;
    Ok(made)
}

// The mapped tree, from its mapped children.
#[cycle(mapping)]
fn map_parts(
    alloc: Global,
    store: &mut Store,
    map: &SymbolMap,
    known: &mut MappedTrees,
    e: TermId,
) -> Result<TermId, AllocError>
    requires map_held { MapHeld store.old map.now }
    requires held { Holds store.old e }
    requires known { AreKnown (map_at store.old map.now) store.old known.old }
    ensures mapped { IfOk result (IsMapped (map_at store.old map.now) (tree_at store.old e)
        store.new) }
    ensures known { OnOk result (AreKnown (map_at store.old map.now) store.new known.new) }
    ensures grows { Grows store.old store.new }
{
    let node = store.node(e);
    match node.parts() {
        Parts::None => Ok(e),
        Parts::One(a) => {
            let x = map_tree(alloc, store, map, known, a)?;
            map_one(alloc, store, map, node, x)
        }
        Parts::Two(a, b) => {
            let x = map_tree(alloc, store, map, known, a)?;
            let y = map_tree(alloc, store, map, known, b)?;
            remake(store, map, node, Parts::Two(x, y))
        }
        Parts::Three(a, b, c) => {
            let x = map_tree(alloc, store, map, known, a)?;
            let y = map_tree(alloc, store, map, known, b)?;
            let z = map_tree(alloc, store, map, known, c)?;
            remake(store, map, node, Parts::Three(x, y, z))
        }
    }
}
