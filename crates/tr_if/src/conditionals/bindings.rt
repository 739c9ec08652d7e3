// Whether a tree has a `let` or a `match`.
ghost use Rattle.std.specs.Prelude.{◌≡◌};
ghost use Rattle.trees.specs.Node.{tree_at, Holds, head_of_node};
ghost use Rattle.tr_if.specs.conditionals.Conditionals.{is_let_or_match, has_let_or_match};

use trees::store::Store;
use trees::{Node, Parts, TermId};

// Whether a node is one.
fn is_let_or_match(node: Node) -> bool
    ensures { result ≡ is_let_or_match (head_of_node node) }
{
    match node {
        Node::Let(_, _) | Node::Case(_, _) => true,
        _ => false,
    }
}

/// Whether a tree has a `let` or a `match`.
pub fn has_let_or_match(store: &Store, e: TermId) -> bool
    requires { Holds store.now e }
    ensures { result ≡ has_let_or_match (tree_at store.now e) }
{
    let node = store.node(e);
    match node.parts() {
        Parts::None => false,
        Parts::One(a) => has_let_or_match(store, a),
        Parts::Two(a, b) => {
            is_let_or_match(node) || (has_let_or_match(store, a) || has_let_or_match(store, b))
        }
        Parts::Three(a, b, c) => {
            has_let_or_match(store, a) || (has_let_or_match(store, b) || has_let_or_match(store, c))
        }
    }
}
