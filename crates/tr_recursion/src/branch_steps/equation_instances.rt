// A branch's equation at closed terms: the use of the symbol is unfolded, and the `match` there gives the branch.
// It depends on uses and on matches; branches' equations depend on it.
ghost use Rattle.std.specs.Prelude.{◌≡◌, [], ◌∷◌, IfOk};
ghost use Rattle.trees.specs.Tree.{Tree};
ghost use Rattle.trees.specs.Node.{tree_at, Holds};
ghost use Rattle.tasks.specs.Task.{neg};
ghost use Rattle.evidence.specs.Drafts.{Extends, Refutes, IsFormulaAt};
ghost use Rattle.congruence.specs.Alike.{ArePair, Shows};
ghost use Rattle.tr_recursion.specs.branch_instances.Chosen.{IsChosenOf};
ghost use Rattle.tr_inline.specs.Definitions.{IsDefinedIn, unfolding_rule};
ghost use Rattle.tr_inline.specs.Uses.{IsUseOf};
ghost use Rattle.tr_recursion.specs.branch_steps.Instances.{HasTwoSides, AreSidesOf, IsBranchInstance};

use crate::constructor_matches::alike_chosen;
use congruence::{AlikeBy, chain, step_of_alike};
use evidence::Draft;
use std::alloc::AllocError;
use tasks::{Def, Grow, TermId};
use tr_inline::unfold_closed;
use trees::Node;

/// The two sides of an equation or equivalence.
#[derive(Clone, Copy)]
pub(crate) struct TwoSides {
    pub left: TermId,
    pub right: TermId,
}

fn sides_of(draft: &Draft, formula: TermId) -> TwoSides
    requires held { Holds draft.now.trees formula }
    requires sides { HasTwoSides (tree_at draft.now.trees formula) }
    ensures { AreSidesOf draft.now.trees formula result }
{
    match draft.store().node(formula) {
        Node::Eq(left, right) => TwoSides { left, right },
        Node::Join(_, left, right) => TwoSides { left, right },
        _ => unreachable!(),
    }
}

// A closed use of a symbol is alike what its unfolded `match` chooses.
fn alike_by_match(
    draft: &mut Draft,
    def: Def,
    left: TermId,
    right: TermId,
) -> Result<AlikeBy, AllocError>
    requires defined { IsDefinedIn draft.old def }
    requires pair { ArePair draft.old left right }
    requires used { (zs : Tree) × ((ts : Tree)
        × IsUseOf def.symbol (tree_at draft.old.trees left) zs ts) }
    requires chosen { IsChosenOf (unfolding_rule draft.old.task def.symbol
        (tree_at draft.old.trees left)) (tree_at draft.old.trees right) }
    ensures shows { IfOk result (λ a. Shows draft.new a (tree_at draft.old.trees left)
        (tree_at draft.old.trees right)) }
    ensures grows { Extends draft.old draft.new }
{
    let one = unfold_closed(draft, def, left)?;
    let two = alike_chosen(draft, one.whole, right)?;
    let made = chain(draft, left, one.whole, right, one.alike, two)?;
    Ok(made)
}

/// A step that refutes the negation of a branch's equation at closed terms, alone, by that of the definition.
pub(crate) fn instance_step(
    draft: &mut Draft,
    def: Def,
    formula: TermId,
) -> Result<usize, AllocError>
    requires defined { IsDefinedIn draft.old def }
    requires formula { IsFormulaAt draft.old formula }
    requires instance { IsBranchInstance draft.old.task def.symbol
        (tree_at draft.old.trees formula) }
    ensures refutes { IfOk result (λ n. Refutes draft.new n
        (neg (tree_at draft.old.trees formula) ∷ [])) }
    ensures grows { Extends draft.old draft.new }
{
    let sides = sides_of(draft, formula);
    let by = alike_by_match(draft, def, sides.left, sides.right)?;
    let step = step_of_alike(draft, sides.left, sides.right, by)?;
    Ok(step)
}
