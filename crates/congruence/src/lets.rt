// A `let` and its body at its value.
ghost use Rattle.std.specs.Prelude.{◌≡◌, [], ◌∷◌, IfOk};
ghost use Rattle.trees.specs.Tree.{Two, HLet};
ghost use Rattle.trees.specs.Node.{tree_at, Holds};
ghost use Rattle.trees.specs.Binding.{inst};
ghost use Rattle.tasks.specs.Task.{neg};
ghost use Rattle.rules.specs.Forms.{alike};
ghost use Rattle.evidence.specs.Drafts.{Extends, Refutes};
ghost use Rattle.congruence.specs.Alike.{Shows, ArePair};

use crate::alike::AlikeBy;
use crate::claims::{alike_by_step, denial};
use evidence::Draft;
use evidence::proof_scripts::{Line, Word, derive};
use std::alloc::AllocError;
use trees::TermId;

// [not (let x = v in b ~ b[v])].
fn unfold_let(
    draft: &mut Draft,
    whole: TermId,
    inner: TermId,
    value: TermId,
    body: TermId,
) -> Result<usize, AllocError>
    requires pair { ArePair draft.old whole inner }
    requires whole_is { tree_at draft.old.trees whole
        ≡ Two HLet (tree_at draft.old.trees value) (tree_at draft.old.trees body) }
    requires inner_is { tree_at draft.old.trees inner
        ≡ inst (tree_at draft.old.trees body) (tree_at draft.old.trees value) }
    ensures refutes { IfOk result (λ k. Refutes draft.new k
        (neg (alike (tree_at draft.old.trees whole) (tree_at draft.old.trees inner)) ∷ [])) }
    ensures grows { Extends draft.old draft.new }
{
    let _ = value;
    let _ = body;
    let goal = denial(draft, whole, inner)?;
    derive(
        draft,
        &[],
        &[goal],
        &[
            Line::Rule(Word::LetDef(whole)),
            Line::Rule(Word::Clash(1, 0)),
        ],
    )
}

/// A `let` is alike its body at its value.
pub fn alike_let(
    draft: &mut Draft,
    whole: TermId,
    inner: TermId,
    value: TermId,
    body: TermId,
) -> Result<AlikeBy, AllocError>
    requires pair { ArePair draft.old whole inner }
    requires value_held { Holds draft.old.trees value }
    requires body_held { Holds draft.old.trees body }
    requires whole_is { tree_at draft.old.trees whole
        ≡ Two HLet (tree_at draft.old.trees value) (tree_at draft.old.trees body) }
    requires inner_is { tree_at draft.old.trees inner
        ≡ inst (tree_at draft.old.trees body) (tree_at draft.old.trees value) }
    ensures shows { IfOk result (λ a. Shows draft.new a (tree_at draft.old.trees whole)
        (tree_at draft.old.trees inner)) }
    ensures grows { Extends draft.old draft.new }
{
    let step = unfold_let(draft, whole, inner, value, body)?;
    alike_by_step(draft, whole, inner, step)
}
