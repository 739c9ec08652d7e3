// Recursive groups of definitions: a body of one of them uses a member.
//
// Contract: the test is exact, and is what the checks of declarations call recursive. It takes no memory, and goes through each
// part as often as it occurs, or remembers within a call what it found.

ghost use Rattle.std.specs.Prelude.{◌≡◌, ◌↔◌, ◌==◌, ◌||◌, IsTrue, All};
ghost use Rattle.std.specs.List.{list_any};
ghost use Rattle.trees.specs.Node.{tree_at, node_tree, Holds};
ghost use Rattle.tasks.specs.declared.declaration.Def.{Def};
ghost use Rattle.tasks.specs.Meaning.{definitions_at};
ghost use Rattle.checks.specs.decl_checks.Structure.{defining_body, defined, IsRecursive};
ghost use Rattle.checks.specs.recursive_groups.Groups.{top_uses, TopLacks, uses, some_uses, is_recursive};

use crate::node_tests::{NodeTest, each_passes};
use std::alloc::Global;
use tasks::Def;
use trees::store::Store;
use trees::{Node, Op, Parts, TermId};

/// The body of a definition, by its equation: what is equated below its quantifiers.
pub fn defining_body(store: &Store, equation: TermId) -> TermId
    requires { Holds store.now equation }
    ensures tree { tree_at store.now result ≡ defining_body (tree_at store.now equation) }
    ensures held { Holds store.now result }
{
    match store.node(equation) {
        Node::Forall(_, b) => defining_body(store, b),
        Node::Eq(_, b) => b,
        Node::Join(Op::Iff, _, b) => b,
        _ => equation,
    }
}

// Whether a symbol is defined in a group.
fn defines(store: &Store, group: &[Def], symbol: usize) -> bool
    ensures { result ≡ list_any (λ j. j == symbol)
        (defined (definitions_at store.now group.now)) }
{
    match group.split_first() {
        Some((first, rest)) => first.symbol == symbol || defines(store, rest, symbol),
        None => false,
    }
}

// Whether a member of a group is used at the top of a tree.
fn top_uses(store: &Store, group: &[Def], node: Node) -> bool
    ensures { result
        ≡ top_uses (defined (definitions_at store.now group.now)) (node_tree store.now node) }
{
    match node {
        Node::Pred(symbol, _, _) => defines(store, group, symbol),
        Node::Fun(symbol, _, _, _) => defines(store, group, symbol),
        _ => false,
    }
}

// Whether a member of a group is used in a tree.
fn uses(store: &Store, group: &[Def], e: TermId) -> bool
    requires { Holds store.now e }
    ensures { result
        ≡ uses (defined (definitions_at store.now group.now)) (tree_at store.now e) }
{
    let node = store.node(e);
    if top_uses(store, group, node) {
        return true;
    }
    match node.parts() {
        Parts::None => false,
        Parts::One(a) => uses(store, group, a),
        Parts::Two(a, b) => uses(store, group, a) || uses(store, group, b),
        Parts::Three(a, b, c) => {
            uses(store, group, a) || uses(store, group, b) || uses(store, group, c)
        }
    }
}

// Whether some body uses a member of a group.
fn some_uses(store: &Store, group: &[Def], defs: &[Def]) -> bool
    requires { All (λ (d : Def). Holds store.now d.equation) defs.now }
    ensures { result ≡ some_uses (defined (definitions_at store.now group.now))
        (definitions_at store.now defs.now) }
{
    match defs.split_first() {
        Some((first, rest)) => {
            uses(store, group, defining_body(store, first.equation))
                || some_uses(store, group, rest)
        }
        None => false,
    }
}

/// Whether some body of a group of definitions uses a member.
pub fn is_recursive(store: &Store, defs: &[Def]) -> bool
    requires { All (λ (d : Def). Holds store.now d.equation) defs.now }
    ensures test { result ≡ is_recursive (definitions_at store.now defs.now) }
    ensures exact { IsTrue result ↔ IsRecursive (definitions_at store.now defs.now) }
{
    some_uses(store, defs, defs)
}

// No member of a group is used.
#[derive(Drop)]
struct Unused<'a> {
    group: &'a [Def],
}

impl<'a> NodeTest for Unused<'a> {
    ghost Passes = { λ v s. TopLacks (defined (definitions_at s v.group.now)) };

    fn passes(&self, store: &Store, node: Node) -> bool {
        !top_uses(store, self.group, node)
    }
}

// Whether a member of a group is used in a tree, by the numbers of its parts.
#[tactic(auto, using(crate::proofs::recursive_groups::Exact::used_or_not))]
fn uses_by_number(alloc: Global, store: &Store, group: &[Def], e: TermId) -> bool
    requires { Holds store.now e }
    ensures { result
        ≡ uses (defined (definitions_at store.now group.now)) (tree_at store.now e) }
{
    !each_passes(alloc, store, &Unused { group }, e)
}

// Whether some body uses a member of a group, by the numbers of its parts.
fn some_uses_by_number(alloc: Global, store: &Store, group: &[Def], defs: &[Def]) -> bool
    requires { All (λ (d : Def). Holds store.now d.equation) defs.now }
    ensures { result ≡ some_uses (defined (definitions_at store.now group.now))
        (definitions_at store.now defs.now) }
{
    match defs.split_first() {
        Some((first, rest)) => {
            uses_by_number(alloc, store, group, defining_body(store, first.equation))
                || some_uses_by_number(alloc, store, group, rest)
        }
        None => false,
    }
}

/// Whether some body of a group of definitions uses a member, where each different part of a body is visited once.
pub fn is_recursive_by_number(alloc: Global, store: &Store, defs: &[Def]) -> bool
    requires { All (λ (d : Def). Holds store.now d.equation) defs.now }
    ensures test { result ≡ is_recursive (definitions_at store.now defs.now) }
    ensures exact { IsTrue result ↔ IsRecursive (definitions_at store.now defs.now) }
{
    some_uses_by_number(alloc, store, defs, defs)
}
