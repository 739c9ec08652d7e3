// A quantifier opened at a new parameter, and refuted from its body there.
// It depends on scripts; the evidence of laws depends on it.
ghost use Rattle.std.specs.Prelude.{◌≡◌, ◌+◌, ◌≤◌, [], ◌∷◌, IfOk};
ghost use Rattle.tasks.specs.trees.Tree.{Two, HForall, above_params};
ghost use Rattle.tasks.specs.trees.Node.{tree_at, Holds};
ghost use Rattle.tasks.specs.trees.Binding.{inst, Param};
ghost use Rattle.tasks.specs.Task.{neg};
ghost use Rattle.evidence.specs.Drafts.{Extends, AddsTrees, Refutes, IsFormulaAt};

use evidence::proof_scripts::{Line, Word, derive};
use evidence::{Draft, negation};
use std::alloc::AllocError;
use tasks::typed_trees::instances::{instance, parameter};
use tasks::{Grow, TermId};

/// The body of a quantifier at the parameter of this number.
pub(crate) fn open_body(
    draft: &mut Draft,
    formula: TermId,
    ty: TermId,
    body: TermId,
    fresh: usize,
) -> Result<TermId, AllocError>
    requires formula { IsFormulaAt draft.old formula }
    requires is { tree_at draft.old.trees formula
        ≡ Two HForall (tree_at draft.old.trees ty) (tree_at draft.old.trees body) }
    requires ty_held { Holds draft.old.trees ty }
    requires body_held { Holds draft.old.trees body }
    requires below { above_params (tree_at draft.old.trees formula) ≤ fresh }
    ensures formula { IfOk result (IsFormulaAt draft.new) }
    ensures tree { IfOk result (λ id. tree_at draft.new.trees id
        ≡ inst (tree_at draft.old.trees body) (Param fresh (tree_at draft.old.trees ty))) }
    ensures below { IfOk result (λ id. above_params (tree_at draft.new.trees id) ≤ fresh + 1) }
    ensures grows { AddsTrees draft.old draft.new }
{
    let term = parameter(draft, fresh, ty)?;
    let alloc = draft.allocator();
    let made = instance(alloc, draft, body, term)?;
    Ok(made)
}

/// [not forall x. a], from [not a[c]] at a new parameter.
pub(crate) fn by_new_parameter(
    draft: &mut Draft,
    formula: TermId,
    ty: TermId,
    body: TermId,
    fresh: usize,
    step: usize,
) -> Result<usize, AllocError>
    requires formula { IsFormulaAt draft.old formula }
    requires is { tree_at draft.old.trees formula
        ≡ Two HForall (tree_at draft.old.trees ty) (tree_at draft.old.trees body) }
    requires below { above_params (tree_at draft.old.trees formula) ≤ fresh }
    requires step { Refutes draft.old step (neg (inst (tree_at draft.old.trees body)
        (Param fresh (tree_at draft.old.trees ty))) ∷ []) }
    ensures refutes { IfOk result (λ k. Refutes draft.new k
        (neg (tree_at draft.old.trees formula) ∷ [])) }
    ensures grows { Extends draft.old draft.new }
{
    let _ = ty;
    let _ = body;
    let negated = negation(draft, formula)?;
    derive(
        draft,
        &[],
        &[negated],
        &[Line::Rule(Word::NotForall(0, fresh)), Line::Given(step, 1)],
    )
}
