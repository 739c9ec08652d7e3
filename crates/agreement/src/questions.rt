// Pairs of closed expressions that are asked to agree, and evidence for pairs.
ghost use Rattle.std.specs.Prelude.{◌≡◌, [], ◌∷◌, None, IfSome, All, Contains};
ghost use Rattle.trees.specs.Node.{tree_at, Holds};
ghost use Rattle.tasks.specs.Task.{neg};
ghost use Rattle.congruence.specs.kernel.rules.Forms.{alike};
ghost use Rattle.evidence.specs.Drafts.{Refutes};
ghost use Rattle.agreement.specs.Questions.{IsProvedPair, pairs_at};

use congruence::AlikeBy;
use evidence::Draft;
use tasks::Grow;
use trees::TermId;

/// Two expressions, and the number of the next parameter.
#[derive(Clone, Copy)]
pub(crate) struct Question {
    pub left: TermId,
    pub right: TermId,
    pub number: usize,
}

/// Evidence for two expressions.
#[derive(Clone, Copy)]
pub(crate) struct Link {
    pub left: TermId,
    pub right: TermId,
    pub alike: AlikeBy,
}

// The step of a pair, where it is one of the list.
pub(crate) fn step_for(
    draft: &Draft,
    atoms: &[(TermId, TermId, usize)],
    left: TermId,
    right: TermId,
) -> Option<usize>
    requires left { Holds draft.now.trees left }
    requires right { Holds draft.now.trees right }
    requires atoms { All (IsProvedPair draft.now) atoms.now }
    ensures some { IfSome result (λ k. Refutes draft.now k (neg (alike
        (tree_at draft.now.trees left) (tree_at draft.now.trees right)) ∷ [])) }
    ensures none { result ≡ None → Contains (pairs_at draft.now.trees atoms.now)
        (tree_at draft.now.trees left, tree_at draft.now.trees right) → ⊥ }
{
    match atoms.split_first() {
        Some((atom, others)) => {
            let same_left = draft.store().same(atom.0, left);
            let same_right = draft.store().same(atom.1, right);
            if same_left && same_right {
                Some(atom.2)
            } else {
                step_for(draft, others, left, right)
            }
        }
        None => None,
    }
}
