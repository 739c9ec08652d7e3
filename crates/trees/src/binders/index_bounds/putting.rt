// Open terms put into a tree, where its indices fit.
ghost use Rattle.std.specs.Prelude.{◌≡◌, IsTrue, IfOk};
ghost use Rattle.trees.specs.Binding.{inst_many};
ghost use Rattle.trees.specs.Node.{tree_at, trees_at, Holds};
ghost use Rattle.trees.specs.Sorts.{WellSorted};
ghost use Rattle.trees.specs.binders.Visits.{HoldTerms};
ghost use Rattle.trees.specs.binders.index_bounds.Bounds.{AreIndicesWithin};

use crate::TermId;
use crate::binders::index_bounds::bounding::index_bound;
use crate::binders::inst_many;
use crate::store::{Grow, Store};
use std::alloc::{AllocError, Global};

// Whether each index of each term surely is below a number.
fn are_within(
    alloc: Global,
    store: &Store,
    room: usize,
    terms: &[TermId],
) -> Result<bool, AllocError>
    requires { HoldTerms store.now terms.now }
    ensures { IfOk result (λ r. IsTrue r → AreIndicesWithin store.now room terms.now) }
{
    match terms.split_first() {
        Some((first, rest)) => {
            let bound = index_bound(alloc, store, *first)?;
            if room < bound {
                return Ok(false);
            }
            let others = are_within(alloc, store, room, rest)?;
            Ok(others)
        }
        None => Ok(true),
    }
}

/// A tree with open terms in the place of its innermost variables, the last one for the variable 0. An index that doesn't fit a
/// number stands under as many binders as there is memory for numbers of trees, and is answered as want of memory.
pub fn put_terms<G: Grow>(
    alloc: Global,
    g: &mut G,
    body: TermId,
    terms: &[TermId],
) -> Result<TermId, AllocError>
    requires body_held { Holds (G.trees g.old) body }
    requires terms { HoldTerms (G.trees g.old) terms.now }
    ensures held { IfOk result (Holds (G.trees g.new)) }
    ensures tree { IfOk result (λ id. tree_at (G.trees g.new) id
        ≡ inst_many (tree_at (G.trees g.old) body) (trees_at (G.trees g.old) terms.now)) }
    ensures sorted { IfOk result (λ id. WellSorted (tree_at (G.trees g.new) id)) }
    ensures grows { G.grows g.old g.new }
{
    g.store().laws();
    let bound = index_bound(alloc, g.store(), body)?;
    let fits = are_within(alloc, g.store(), usize::MAX - bound, terms)?;
    if !fits {
        return Err(AllocError);
    }
    let made = inst_many(alloc, g, body, terms)?;
    Ok(made)
}
