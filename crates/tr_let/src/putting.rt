// What a `let` becomes, over whatever grows by trees.
ghost use Rattle.std.specs.Prelude.{◌≡◌, IfOk};
ghost use Rattle.trees.specs.Tree.{Two, HLet};
ghost use Rattle.trees.specs.Node.{tree_at, Holds};
ghost use Rattle.trees.specs.Sorts.{WellSorted, sort_of};
ghost use Rattle.tr_let.specs.LetRule.{let_rule};

use std::alloc::{AllocError, Global};
use tasks::Grow;
use trees::binders::index_bounds::put_terms;
use trees::{Sort, TermId};

/// The body of a `let` with its value in the place of its variable.
pub(crate) fn put_value<G: Grow>(
    alloc: Global,
    g: &mut G,
    e: TermId,
    value: TermId,
    body: TermId,
) -> Result<TermId, AllocError>
    requires value_held { Holds (G.trees g.old) value }
    requires body_held { Holds (G.trees g.old) body }
    requires node { tree_at (G.trees g.old) e
        ≡ Two HLet (tree_at (G.trees g.old) value) (tree_at (G.trees g.old) body) }
    requires term { sort_of (tree_at (G.trees g.old) value) ≡ Sort.Term }
    ensures held { IfOk result (Holds (G.trees g.new)) }
    ensures tree { IfOk result (λ id. tree_at (G.trees g.new) id
        ≡ let_rule (tree_at (G.trees g.old) e)) }
    ensures sorted { IfOk result (λ id. WellSorted (tree_at (G.trees g.new) id)) }
    ensures grows { G.grows g.old g.new }
{
    let _ = e;
    let made = put_terms(alloc, g, body, &[value])?;
    Ok(made)
}
