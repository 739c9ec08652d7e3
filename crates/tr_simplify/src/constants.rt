// Which constant a formula is.
ghost use Rattle.std.specs.Prelude.{◌≡◌};
ghost use Rattle.trees.specs.Node.{tree_at, Holds};
ghost use Rattle.tr_simplify.specs.Laws.{constant};

use crate::laws::TruthValue;
use tasks::Grow;
use trees::{Node, TermId};

/// Which constant a formula is.
pub(crate) fn constant_of<G: Grow>(g: &G, id: TermId) -> TruthValue
    requires { Holds (G.trees g.now) id }
    ensures { result ≡ constant (tree_at (G.trees g.now) id) }
{
    match g.store().node(id) {
        Node::True => TruthValue::True,
        Node::False => TruthValue::False,
        _ => TruthValue::Other,
    }
}
