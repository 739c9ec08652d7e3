// What a goal binds opened, with the ends of its parts there.
ghost use Rattle.std.specs.Prelude.{◌≡◌, ◌+◌, IfOk};
ghost use Rattle.tasks.specs.trees.Tree.{Two, HForall, HLet};
ghost use Rattle.tasks.specs.trees.Node.{tree_at, Holds};
ghost use Rattle.tasks.specs.trees.Binding.{inst, Param};
ghost use Rattle.evidence.specs.Drafts.{Extends};
ghost use Rattle.tr_split.specs.Gluing.{CanGlue, IsGoalOpened};

use crate::over::{Over, ends_over};
use evidence::Draft;
use std::alloc::AllocError;
use tasks::TermId;
use tasks::typed_trees::instances::{instance, parameter};

// The body of a quantifier at the parameter of this number, and steps that refute its parts.
pub(crate) fn open_universal(
    draft: &mut Draft,
    front: &[TermId],
    goal: TermId,
    ty: TermId,
    body: TermId,
    number: usize,
    ends: &[usize],
) -> Result<(TermId, Vec<usize>), AllocError>
    requires can { CanGlue draft.old front.now goal number ends.now }
    requires tree { tree_at draft.old.trees goal
        ≡ Two HForall (tree_at draft.old.trees ty) (tree_at draft.old.trees body) }
    requires ty_held { Holds draft.old.trees ty }
    requires body_held { Holds draft.old.trees body }
    ensures opened { IfOk result (λ r. IsGoalOpened draft.old draft.new front.now
        (inst (tree_at draft.old.trees body) (Param number (tree_at draft.old.trees ty)))
        (number + 1) r.0 r.1.items) }
    ensures grows { Extends draft.old draft.new }
{
    let param = parameter(draft, number, ty)?;
    let alloc = draft.allocator();
    let inner = instance(alloc, draft, body, param)?;
    let made = ends_over(draft, front, Over::Universal(ty, param), body, ends)?;
    Ok((inner, made))
}

// The body of a `let` at its value, and steps that refute its parts.
pub(crate) fn open_valued(
    draft: &mut Draft,
    front: &[TermId],
    goal: TermId,
    value: TermId,
    body: TermId,
    number: usize,
    ends: &[usize],
) -> Result<(TermId, Vec<usize>), AllocError>
    requires can { CanGlue draft.old front.now goal number ends.now }
    requires tree { tree_at draft.old.trees goal
        ≡ Two HLet (tree_at draft.old.trees value) (tree_at draft.old.trees body) }
    requires value_held { Holds draft.old.trees value }
    requires body_held { Holds draft.old.trees body }
    ensures opened { IfOk result (λ r. IsGoalOpened draft.old draft.new front.now
        (inst (tree_at draft.old.trees body) (tree_at draft.old.trees value))
        number r.0 r.1.items) }
    ensures grows { Extends draft.old draft.new }
{
    let alloc = draft.allocator();
    let inner = instance(alloc, draft, body, value)?;
    let made = ends_over(draft, front, Over::Value(value), body, ends)?;
    Ok((inner, made))
}
