// The image of a tree under the rule of the full bodies. An argument whose parameter a body doesn't use isn't made.
ghost use Rattle.std.specs.Prelude.{◌≡◌, ◌<◌, ◌≤◌, length, Bool, IfOk, IfErr};
ghost use Rattle.trees.specs.Tree.{Tree};
ghost use Rattle.trees.specs.Node.{tree_at, assemble, Holds, Grows, head_of_node, parts_of, AreBelow, IsLike};
ghost use Rattle.trees.specs.Sorts.{Fits, sort_of, IsList};
ghost use Rattle.tasks.specs.Typing.{members};
ghost use Rattle.inlining.specs.images.typing_laws.HasTyping.{over_parts};
ghost use Rattle.inlining.specs.images.image_trees.Imaged.{RuleOver, IsTypedSomewhere};
ghost use Rattle.tr_inline.specs.full_bodies.Least.{is_used};
ghost use Rattle.tr_inline.specs.full_bodies.Faults.{IsFaultOf, IsArgumentFault, IsArgumentsFault};
ghost use Rattle.tr_inline.specs.full_bodies.FullBodies.{AreReady, IsUseAt, IsArgument, AreArguments};
ghost use Rattle.tr_inline.specs.full_bodies.Inlined.{rule_of, inlined_at, CanInline, IsInlined};

use crate::full_bodies::fault::InlineFault;
use crate::full_bodies::putting::{put_arguments, put_types};
use crate::full_bodies::sizes::{refuse_large, uses_variable};
use crate::full_bodies::uses::{Inlining, SymbolUse, find_use};
use indexmap::IndexMap;
use std::alloc::{AllocError, Global};
use trees::store::{Grow, Store};
use trees::{Node, Parts, Sort, TermId};

// What is made so far, by the number of a tree.
type Known = IndexMap<usize, TermId>;

// How many members a list has.
fn count_members(store: &Store, list: TermId) -> usize
    requires { Holds store.now list }
    ensures number { result ≡ length (members (tree_at store.now list)) }
    ensures below { result ≤ list.0 }
{
    match store.node(list) {
        Node::Cell(_, rest) => count_members(store, rest) + 1,
        _ => 0,
    }
}

// The node with other children.
fn remake(store: &mut Store, node: Node, parts: Parts) -> Result<TermId, AllocError>
    requires like { IsLike (parts_of node) parts }
    requires held { AreBelow (length store.old) parts }
    requires fits { Fits (assemble store.old (head_of_node node) parts) }
    ensures held { IfOk result (Holds store.new) }
    ensures tree { IfOk result (λ id. tree_at store.new id
        ≡ assemble store.old (head_of_node node) parts) }
    ensures grows { Grows store.old store.new }
{
    store.add(node.with_parts(parts))
}

// The image of a tree, which is made once.
#[cycle(imaging)]
fn inline_tree(
    alloc: Global,
    store: &mut Store,
    inlining: &Inlining,
    known: &mut Known,
    e: TermId,
) -> Result<TermId, InlineFault>
    requires { CanInline store.old inlining.now known.old e }
    ensures inlined { IfOk result (IsInlined store.old inlining.now e store.new known.new) }
    ensures fault { IfErr result (IsFaultOf (inlined_at store.old inlining.now e)) }
    ensures grows { Grows store.old store.new }
{
    if let Some(made) = known.get(&e.0) {
        return Ok(*made);
    }
    let made = inline_node(alloc, store, inlining, known, e)?;
    match known.insert(e.0, made) {
        Ok(_) => Ok(made),
        Err(_) => Err(InlineFault::Memory),
    }
}

// The same, of a tree that isn't remembered.
#[cycle(imaging)]
fn inline_node(
    alloc: Global,
    store: &mut Store,
    inlining: &Inlining,
    known: &mut Known,
    e: TermId,
) -> Result<TermId, InlineFault>
    requires { CanInline store.old inlining.now known.old e }
    ensures inlined { IfOk result (IsInlined store.old inlining.now e store.new known.new) }
    ensures fault { IfErr result (IsFaultOf (inlined_at store.old inlining.now e)) }
    ensures grows { Grows store.old store.new }
{
    match find_use(store, inlining, e) {
        Some(at) => inline_use(alloc, store, inlining, known, e, at),
        None => inline_parts(alloc, store, inlining, known, e),
    }
}

// The full body at the types and the images of the arguments of a use.
#[cycle(imaging)]
fn inline_use(
    alloc: Global,
    store: &mut Store,
    inlining: &Inlining,
    known: &mut Known,
    e: TermId,
    at: SymbolUse,
) -> Result<TermId, InlineFault>
    requires can { CanInline store.old inlining.now known.old e }
    requires at { IsUseAt store.old (rule_of store.old inlining.now) e at }
    ensures inlined { IfOk result (IsInlined store.old inlining.now e store.new known.new) }
    ensures fault { IfErr result (IsFaultOf (inlined_at store.old inlining.now e)) }
    ensures grows { Grows store.old store.new }
{
    let Some(full) = at.full else {
        return Err(InlineFault::Large);
    };
    let body = put_types(alloc, store, full, at.types)?;
    let args = inline_arguments(alloc, store, inlining, known, body, at.args)?;
    let made = put_arguments(alloc, store, body, args)?;
    let small = refuse_large(store, made)?;
    Ok(small)
}

// The list of the images of arguments.
#[cycle(imaging)]
fn inline_arguments(
    alloc: Global,
    store: &mut Store,
    inlining: &Inlining,
    known: &mut Known,
    body: TermId,
    args: TermId,
) -> Result<TermId, InlineFault>
    requires can { CanInline store.old inlining.now known.old args }
    requires body { Holds store.old body }
    requires list { IsList Sort.Term (tree_at store.old args) }
    ensures arguments { IfOk result (AreArguments (rule_of store.old inlining.now)
        (tree_at store.old body) (members (tree_at store.old args)) store.new known.new) }
    ensures fault { IfErr result (IsArgumentsFault (rule_of store.old inlining.now).rule
        (tree_at store.old body) (members (tree_at store.old args))) }
    ensures grows { Grows store.old store.new }
{
    match store.node(args) {
        Node::Cell(first, rest) => {
            let number = count_members(store, rest);
            let x = inline_argument(alloc, store, inlining, known, body, number, first)?;
            let y = inline_arguments(alloc, store, inlining, known, body, rest)?;
            let made = store.add(Node::Cell(x, y))?;
            Ok(made)
        }
        _ => Ok(args),
    }
}

// The image of an argument, or the number 0 where the variable that it is for isn't used.
#[cycle(imaging)]
fn inline_argument(
    alloc: Global,
    store: &mut Store,
    inlining: &Inlining,
    known: &mut Known,
    body: TermId,
    number: usize,
    e: TermId,
) -> Result<TermId, InlineFault>
    requires can { CanInline store.old inlining.now known.old e }
    requires body { Holds store.old body }
    requires sort { sort_of (tree_at store.old e) ≡ Sort.Term }
    ensures argument { IfOk result (IsArgument (rule_of store.old inlining.now)
        (is_used number (tree_at store.old body)) (tree_at store.old e) store.new known.new) }
    ensures fault { IfErr result (IsArgumentFault (is_used number (tree_at store.old body))
        (inlined_at store.old inlining.now e)) }
    ensures grows { Grows store.old store.new }
{
    if uses_variable(store, body, number) {
        let made = inline_tree(alloc, store, inlining, known, e)?;
        return Ok(made);
    }
    let zero = store.add(Node::Num(0))?;
    Ok(zero)
}

// The node over the images of its parts.
#[cycle(imaging)]
fn inline_parts(
    alloc: Global,
    store: &mut Store,
    inlining: &Inlining,
    known: &mut Known,
    e: TermId,
) -> Result<TermId, InlineFault>
    requires can { CanInline store.old inlining.now known.old e }
    requires over { inlined_at store.old inlining.now e
        ≡ over_parts (rule_of store.old inlining.now).rule (tree_at store.old e) }
    ensures inlined { IfOk result (IsInlined store.old inlining.now e store.new known.new) }
    ensures fault { IfErr result (IsFaultOf (inlined_at store.old inlining.now e)) }
    ensures grows { Grows store.old store.new }
{
    let node = store.node(e);
    if let Node::Bound(_, _) = node {
        return Ok(e);
    }
    match node.parts() {
        Parts::None => Ok(e),
        Parts::One(a) => {
            let x = inline_tree(alloc, store, inlining, known, a)?;
            let made = remake(store, node, Parts::One(x))?;
            Ok(made)
        }
        Parts::Two(a, b) => {
            let x = inline_tree(alloc, store, inlining, known, a)?;
            let y = inline_tree(alloc, store, inlining, known, b)?;
            let made = remake(store, node, Parts::Two(x, y))?;
            Ok(made)
        }
        Parts::Three(a, b, c) => {
            let x = inline_tree(alloc, store, inlining, known, a)?;
            let y = inline_tree(alloc, store, inlining, known, b)?;
            let z = inline_tree(alloc, store, inlining, known, c)?;
            let made = remake(store, node, Parts::Three(x, y, z))?;
            Ok(made)
        }
    }
}

/// What a typed tree becomes by the rule of the full bodies, where it isn't found to be large.
pub(crate) fn inline_whole(
    alloc: Global,
    store: &mut Store,
    inlining: &Inlining,
    e: TermId,
) -> Result<TermId, InlineFault>
    requires ready { AreReady store.old inlining.now.task.now inlining.now.bodies.now }
    requires held { Holds store.old e }
    requires typed { IsTypedSomewhere (rule_of store.old inlining.now) (tree_at store.old e) }
    ensures held { IfOk result (Holds store.new) }
    ensures tree { IfOk result (λ id. tree_at store.new id
        ≡ inlined_at store.old inlining.now e) }
    ensures fault { IfErr result (IsFaultOf (inlined_at store.old inlining.now e)) }
    ensures grows { Grows store.old store.new }
{
    let mut known = IndexMap::new(alloc);
    let made = inline_tree(alloc, store, inlining, &mut known, e)?;
    let small = refuse_large(store, made)?;
    Ok(small)
}
