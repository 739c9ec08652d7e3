// A test of each node of a tree. Each different part is asked once, as its answer is remembered by its number.
//
// Contract: exactly whether each node passes. Where memory is wanting an answer isn't remembered, which costs time alone.

ghost use Rattle.std.specs.Prelude.{◌↔◌, IsTrue, List, length};
ghost use Rattle.trees.specs.Tree.{Tree};
ghost use Rattle.trees.specs.Node.{tree_at, node_tree, parts_of, Holds, AreBelow};
ghost use Rattle.checks.specs.node_tests.Each.{EachNode, CanTell, TellsEach};

use indexmap::IndexMap;
use std::alloc::Global;
use trees::store::Store;
use trees::{Node, Parts, TermId};

/// A test of a node.
pub(crate) trait NodeTest {
    /// What passes, over a store.
    ghost Passes: { Self → List Tree → Tree → Type 0 };

    /// Whether a node passes.
    fn passes(&self, store: &Store, node: Node) -> bool
        requires { AreBelow (length store.now) (parts_of node) }
        ensures { IsTrue result ↔ Passes self.now store.now (node_tree store.now node) };
}

// The answers so far, by the numbers of trees.
type Known = IndexMap<usize, bool>;

// Whether each node of a tree passes, which is found once.
#[cycle(each_passes)]
fn tree_passes<T: NodeTest>(store: &Store, test: &T, known: &mut Known, e: TermId) -> bool
    requires { CanTell (EachNode (T.Passes test.now store.now)) store.now known.old e }
    ensures { TellsEach (EachNode (T.Passes test.now store.now)) store.now e known.new result }
{
    if let Some(answer) = known.get(&e.0) {
        return *answer;
    }
    let answer = parts_pass(store, test, known, e);
    let _ = known.insert(e.0, answer);
    answer
}

// The same, of a tree that isn't remembered.
#[cycle(each_passes)]
fn parts_pass<T: NodeTest>(store: &Store, test: &T, known: &mut Known, e: TermId) -> bool
    requires { CanTell (EachNode (T.Passes test.now store.now)) store.now known.old e }
    ensures { TellsEach (EachNode (T.Passes test.now store.now)) store.now e known.new result }
{
    let node = store.node(e);
    if !test.passes(store, node) {
        return false;
    }
    match node.parts() {
        Parts::None => true,
        Parts::One(a) => tree_passes(store, test, known, a),
        Parts::Two(a, b) => {
            tree_passes(store, test, known, a) && tree_passes(store, test, known, b)
        }
        Parts::Three(a, b, c) => {
            tree_passes(store, test, known, a)
                && tree_passes(store, test, known, b)
                && tree_passes(store, test, known, c)
        }
    }
}

/// Whether each node of a tree passes.
pub(crate) fn each_passes<T: NodeTest>(alloc: Global, store: &Store, test: &T, e: TermId) -> bool
    requires { Holds store.now e }
    ensures { IsTrue result ↔ EachNode (T.Passes test.now store.now) (tree_at store.now e) }
{
    let mut known = IndexMap::new(alloc);
    tree_passes(store, test, &mut known, e)
}
