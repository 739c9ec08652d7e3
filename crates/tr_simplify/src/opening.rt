// Whether a variable is open in a tree.
ghost use Rattle.std.specs.Prelude.{◌≡◌};
ghost use Rattle.trees.specs.Node.{tree_at, Holds};
ghost use Rattle.trees.specs.Facts.{is_open};

use tasks::Store;
use trees::{Node, Parts, TermId};

/// Whether the variable of this number of binders up is open in a tree.
pub(crate) fn is_open(store: &Store, e: TermId, number: usize) -> bool
    requires { Holds store.now e }
    ensures { result ≡ is_open number (tree_at store.now e) }
{
    if store.loose(e) <= number && number < usize::MAX {
        return false;
    }
    let node = store.node(e);
    if let Node::Bound(index, ty) = node {
        return index == number || is_open(store, ty, number);
    }
    match node.parts() {
        Parts::None => false,
        Parts::One(a) => is_open(store, a, number),
        Parts::Two(a, b) => {
            let under = number.saturating_add(store.binders(node, a));
            is_open(store, a, number) || is_open(store, b, under)
        }
        Parts::Three(a, b, c) => {
            is_open(store, a, number) || is_open(store, b, number) || is_open(store, c, number)
        }
    }
}
