// A universal formula from its body at a new parameter.
// It depends on drafts; branches' equations depend on it.
ghost use Rattle.std.specs.Prelude.{◌≡◌, ◌≤◌, [], ◌∷◌, IfOk};
ghost use Rattle.trees.specs.Tree.{Tree, Two, HForall, above_params};
ghost use Rattle.trees.specs.Node.{tree_at, Holds};
ghost use Rattle.trees.specs.Binding.{inst, Param};
ghost use Rattle.tasks.specs.Task.{neg};
ghost use Rattle.evidence.specs.Drafts.{AddsTrees, Extends, Refutes, IsFormulaAt};

use congruence::{instance, parameter};
use evidence::{Draft, negation};
use std::alloc::AllocError;
use tasks::{Grow, TermId};
use tr_inline::{Line, Word, derive};

/// A number above those of a formula's parameters; want of memory where no machine number is so large.
pub(crate) fn number_above(draft: &Draft, formula: TermId) -> Result<usize, AllocError>
    requires { Holds draft.now.trees formula }
    ensures { IfOk result (λ n. above_params (tree_at draft.now.trees formula) ≤ n) }
{
    let number = draft.store().above_parameters(formula);
    if number == usize::MAX {
        return Err(AllocError);
    }
    Ok(number)
}

/// The body of a universal formula at the parameter of a number.
pub(crate) fn body_at(
    draft: &mut Draft,
    formula: TermId,
    ty: TermId,
    body: TermId,
    number: usize,
) -> Result<TermId, AllocError>
    requires formula { IsFormulaAt draft.old formula }
    requires is { tree_at draft.old.trees formula
        ≡ Two HForall (tree_at draft.old.trees ty) (tree_at draft.old.trees body) }
    requires ty_held { Holds draft.old.trees ty }
    requires body_held { Holds draft.old.trees body }
    ensures formula { IfOk result (IsFormulaAt draft.new) }
    ensures tree { IfOk result (λ id. tree_at draft.new.trees id
        ≡ inst (tree_at draft.old.trees body) (Param number (tree_at draft.old.trees ty))) }
    ensures grows { AddsTrees draft.old draft.new }
{
    let _ = formula;
    let term = parameter(draft, number, ty)?;
    let alloc = draft.allocator();
    let made = instance(alloc, draft, body, term)?;
    Ok(made)
}

/// [not forall x. a], from [not a[c]] at a new parameter.
pub(crate) fn universal_step(
    draft: &mut Draft,
    formula: TermId,
    number: usize,
    step: usize,
) -> Result<usize, AllocError>
    requires formula { IsFormulaAt draft.old formula }
    requires universal { (ty : Tree) × ((body : Tree)
        × (tree_at draft.old.trees formula ≡ Two HForall ty body)) }
    requires new { above_params (tree_at draft.old.trees formula) ≤ number }
    requires step { (ty body : Tree) → tree_at draft.old.trees formula ≡ Two HForall ty body
        → Refutes draft.old step (neg (inst body (Param number ty)) ∷ []) }
    ensures refutes { IfOk result (λ k. Refutes draft.new k
        (neg (tree_at draft.old.trees formula) ∷ [])) }
    ensures grows { Extends draft.old draft.new }
{
    let negated = negation(draft, formula)?;
    derive(
        draft,
        &[],
        &[negated],
        &[Line::Rule(Word::NotForall(0, number)), Line::Given(step, 1)],
    )
}
