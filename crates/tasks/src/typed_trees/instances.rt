// Instances of open trees: closed terms put in for open variables, and what stays of typing, type variables and parameters
// there.
//
// Contract: an instance by a closed term, typed where both are; laws for any number of terms.

ghost use Rattle.std.specs.Prelude.{◌≡◌, IfOk};
ghost use Rattle.trees.specs.Node.{tree_at, Holds};
ghost use Rattle.trees.specs.Sorts.{sort_of};
ghost use Rattle.trees.specs.Binding.{inst, Param};
ghost use Rattle.tasks.specs.typed_trees.instances.Instances.{IsClosedTerm, IsInstance};

use std::alloc::{AllocError, Global};
use trees::binders::inst;
use trees::store::Grow;
use trees::{Node, Sort, TermId};

/// A parameter, by its number and type.
pub fn parameter<G: Grow>(g: &mut G, number: usize, ty: TermId) -> Result<TermId, AllocError>
    requires held { Holds (G.trees g.old) ty }
    requires kind { sort_of (tree_at (G.trees g.old) ty) ≡ Sort.Kind }
    ensures held { IfOk result (Holds (G.trees g.new)) }
    ensures tree { IfOk result (λ id. tree_at (G.trees g.new) id
        ≡ Param number (tree_at (G.trees g.old) ty)) }
    ensures closed { IfOk result (λ id. IsClosedTerm (tree_at (G.trees g.new) id)) }
    ensures grows { G.grows g.old g.new }
{
    g.store().laws();
    g.add(Node::Param(number, ty))
}

/// The tree with a closed term in the place of its variable 0. It is typed where the two are, and has their type variables
/// and parameters alone.
pub fn instance<G: Grow>(
    alloc: Global,
    g: &mut G,
    body: TermId,
    by: TermId,
) -> Result<TermId, AllocError>
    requires body_held { Holds (G.trees g.old) body }
    requires by_held { Holds (G.trees g.old) by }
    requires closed { IsClosedTerm (tree_at (G.trees g.old) by) }
    ensures held { IfOk result (Holds (G.trees g.new)) }
    ensures tree { IfOk result (λ id. tree_at (G.trees g.new) id
        ≡ inst (tree_at (G.trees g.old) body) (tree_at (G.trees g.old) by)) }
    ensures keeps { IfOk result (λ id. IsInstance (tree_at (G.trees g.old) body)
        (tree_at (G.trees g.old) by) (tree_at (G.trees g.new) id)) }
    ensures grows { G.grows g.old g.new }
{
    g.store().laws();
    inst(alloc, g, body, by)
}
