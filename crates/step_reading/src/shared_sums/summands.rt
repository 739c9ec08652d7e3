// What a term is at its top, as a sum.
// It depends on the store; what is known of terms, and the sums that are pending, depend on it.
ghost use Rattle.std.specs.Prelude.{◌≡◌, ℕ, ℤ, ◌<◌, List};
ghost use Rattle.trees.specs.Tree.{Tree};
ghost use Rattle.trees.specs.Node.{tree_at, Holds};
ghost use Rattle.linear_leaf.specs.Linear.{sum_operation, reading};
ghost use Rattle.linear_leaf.specs.Views.{top_of, two_top, read_top};
ghost use Rattle.step_reading.specs.shared_sums.Tops.{top_by, ArePartsBelow};

use trees::store::Store;
use trees::{Ints, Node, TermId};

// What a term is at its top.
#[derive(Clone, Copy)]
pub(crate) enum Summand {
    Number(i128),
    Negated(TermId),
    Plus(TermId, TermId),
    Minus(TermId, TermId),
    Times(TermId, TermId),
    Atom,
}

// A function on two arguments.
fn on_two(ints: &Ints, f: usize, a: TermId, b: TermId) -> Summand
    ensures tree { (s : List Tree) → top_by s result
        ≡ two_top (sum_operation ints.now f) (tree_at s a) (tree_at s b) }
    ensures below { (k : ℕ) → a.0 < k → b.0 < k → ArePartsBelow k result }
{
    if f == ints.add {
        Summand::Plus(a, b)
    } else if f == ints.sub {
        Summand::Minus(a, b)
    } else if f == ints.mul {
        Summand::Times(a, b)
    } else {
        Summand::Atom
    }
}

// What a term is at its top.
fn summand_of(store: &Store, ints: &Ints, e: TermId) -> Summand
    requires { Holds store.now e }
    ensures tree { top_by store.now result ≡ top_of ints.now (tree_at store.now e) }
    ensures below { ArePartsBelow e.0 result }
{
    match store.node(e) {
        Node::Num(n) => Summand::Number(n),
        Node::Fun(f, _, args, _) => match store.node(args) {
            Node::Cell(a, rest) => match store.node(rest) {
                Node::End => {
                    if f == ints.neg {
                        Summand::Negated(a)
                    } else {
                        Summand::Atom
                    }
                }
                Node::Cell(b, end) => match store.node(end) {
                    Node::End => on_two(ints, f, a, b),
                    _ => Summand::Atom,
                },
                _ => Summand::Atom,
            },
            _ => Summand::Atom,
        },
        _ => Summand::Atom,
    }
}

/// What a term is at its top, and so how it is read.
#[tactic(auto, using(linear_leaf::proofs::Reading::reading_is))]
pub(crate) fn top_of(store: &Store, ints: &Ints, e: TermId) -> Summand
    requires { Holds store.now e }
    ensures reads { (v : Tree → ℤ) → reading ints.now v (tree_at store.now e)
        ≡ read_top ints.now v (tree_at store.now e) (top_by store.now result) }
    ensures below { ArePartsBelow e.0 result }
{
    summand_of(store, ints, e)
}
