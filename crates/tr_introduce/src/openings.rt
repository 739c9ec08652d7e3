// What a goal begins with.
ghost use Rattle.std.specs.Prelude.{◌≡◌};
ghost use Rattle.trees.specs.Tree.{Two, HJoin};
ghost use Rattle.trees.specs.Node.{tree_at, Holds};
ghost use Rattle.tr_introduce.specs.Steps.{IsBeginning};

use trees::store::Store;
use trees::{Node, Op, TermId};

// A quantifier with its type and body, an implication with its sides, or neither.
#[derive(Clone, Copy)]
pub(crate) enum Beginning {
    Universal(TermId, TermId),
    Implication(TermId, TermId),
    Neither,
}

// What the goal begins with.
pub(crate) fn beginning_of(store: &Store, goal: TermId) -> Beginning
    requires { Holds store.now goal }
    ensures { IsBeginning store.now goal result }
{
    match store.node(goal) {
        Node::Forall(ty, body) => Beginning::Universal(ty, body),
        Node::Join(op, a, b) => connective_beginning(store, goal, op, a, b),
        _ => Beginning::Neither,
    }
}

// What a goal that joins two formulas begins with.
fn connective_beginning(store: &Store, goal: TermId, op: Op, a: TermId, b: TermId) -> Beginning
    requires tree { tree_at store.now goal ≡ Two (HJoin op) (tree_at store.now a)
        (tree_at store.now b) }
    requires a_held { Holds store.now a }
    requires b_held { Holds store.now b }
    ensures { IsBeginning store.now goal result }
{
    let _ = store;
    let _ = goal;
    match op {
        Op::Imp => Beginning::Implication(a, b),
        Op::And | Op::AndThen | Op::Or | Op::OrElse | Op::Iff => Beginning::Neither,
    }
}
