// The inversion formula of a predicate at types, told without making it.
// It depends on its parts; the row of `inv` depends on it.
ghost use Rattle.std.specs.Prelude.{◌≡◌, ◌↔◌, All, IsTrue, length};
ghost use Rattle.trees.specs.Node.{tree_at, Holds};
ghost use Rattle.trees.specs.Binding.{inst_types};
ghost use Rattle.tasks.specs.Equations.{for_all};
ghost use Rattle.tasks.specs.Meaning.{trees_at};
ghost use Rattle.rules.specs.fact_rules.Inversions.{predicate_use, body_of, formula_at, InversionHeld};

use crate::Shape;
use crate::fact_rules::parts::{are_own_types, are_variables, is_given_by_any};
use tasks::typed_trees::{Types, is_instance};
use trees::store::Store;
use trees::{Node, Op, TermId};

// The inversion formula of a predicate with arguments of these types and these clauses, at types.
#[derive(Clone, Copy)]
pub(crate) struct Inversion<'a> {
    pub symbol: usize,
    pub args: &'a [TermId],
    pub clauses: &'a [TermId],
    pub types: &'a [TermId],
}

// Whether a tree is the predicate on its variables.
#[tactic(auto, using(crate::proofs::fact_rules::Putting::two_at))]
fn is_use(store: &Store, v: &Inversion<'_>, made: TermId) -> bool
    requires v_held { InversionHeld v.now store.now }
    requires held { Holds store.now made }
    ensures { IsTrue result ↔ (tree_at store.now made
        ≡ inst_types (predicate_use v.now.symbol (length v.now.types.now)
        (trees_at store.now v.now.args.now)) (trees_at store.now v.now.types.now)) }
{
    match store.node(made) {
        Node::Pred(symbol, types, args) => symbol == v.symbol
            && are_own_types(store, v.types, types)
            && are_variables(store, v.types, v.args, args),
        _ => false,
    }
}

// Whether a tree is what is under the quantifiers.
#[tactic(auto, using(crate::proofs::fact_rules::Putting::two_at))]
fn is_body(store: &Store, v: &Inversion<'_>, made: TermId) -> bool
    requires v_held { InversionHeld v.now store.now }
    requires held { Holds store.now made }
    ensures { IsTrue result ↔ (tree_at store.now made
        ≡ inst_types (body_of v.now.symbol (length v.now.types.now)
        (trees_at store.now v.now.args.now) (trees_at store.now v.now.clauses.now))
        (trees_at store.now v.now.types.now)) }
{
    match store.node(made) {
        Node::Join(op, a, b) => op == Op::Imp
            && is_use(store, v, a)
            && is_given_by_any(store, v.types, v.args, v.clauses, b),
        _ => false,
    }
}

// Whether a tree is that under quantifiers for these types.
#[tactic(auto, using(crate::proofs::fact_rules::Putting::two_at))]
fn is_quantified(store: &Store, v: &Inversion<'_>, args: &[TermId], made: TermId) -> bool
    requires v_held { InversionHeld v.now store.now }
    requires args_held { All (Holds store.now) args.now }
    requires held { Holds store.now made }
    ensures { IsTrue result ↔ (tree_at store.now made
        ≡ inst_types (for_all (trees_at store.now args.now)
        (body_of v.now.symbol (length v.now.types.now) (trees_at store.now v.now.args.now)
        (trees_at store.now v.now.clauses.now))) (trees_at store.now v.now.types.now)) }
{
    match args.split_first() {
        Some((ty, rest)) => match store.node(made) {
            Node::Forall(a, b) => {
                if !is_instance(store, *ty, Types::Given(v.types), a) {
                    return false;
                }
                is_quantified(store, v, rest, b)
            },
            _ => false,
        },
        None => is_body(store, v, made),
    }
}

impl<'a> Shape for Inversion<'a> {
    ghost tree = { λ v s. formula_at v s };

    ghost IsHeld = { λ v s. InversionHeld v s };

    fn is(&self, store: &Store, id: TermId) -> bool {
        is_quantified(store, self, self.args, id)
    }
}
