// From a step that refutes what was introduced from a goal, one that refutes the goal's negation.
ghost use Rattle.std.specs.Prelude.{◌≡◌, ◌++◌, [], ◌∷◌, length, IfOk};
ghost use Rattle.trees.specs.Tree.{Two, HForall, HJoin};
ghost use Rattle.trees.specs.Node.{tree_at, Holds};
ghost use Rattle.tasks.specs.Task.{neg};
ghost use Rattle.tasks.specs.Meaning.{trees_at};
ghost use Rattle.evidence.specs.Drafts.{Extends, Refutes, IsFormulaAt, AreFormulas};
ghost use Rattle.tr_introduce.specs.Steps.{AreParamsBelow, EndsDraftAt};

use crate::introduction::open_body;
use crate::openings::{Beginning, beginning_of};
use crate::refuting::{Opening, refute_negated};
use evidence::{Draft, join_lists, last_formula};
use std::alloc::AllocError;
use trees::store::Grow;
use trees::{Op, TermId};

// From a step that refutes what is introduced from the goal over these formulas, where parameters have these types so far, one
// that refutes the formulas and the negated goal.
#[cycle(glue)]
pub(crate) fn glue_goal(
    draft: &mut Draft,
    front: &[TermId],
    goal: TermId,
    params: &[TermId],
    end: usize,
) -> Result<usize, AllocError>
    requires front { AreFormulas draft.old front.now }
    requires goal { IsFormulaAt draft.old goal }
    requires below { AreParamsBelow (length params.now) (trees_at draft.old.trees front.now)
        (tree_at draft.old.trees goal) }
    requires end { EndsDraftAt draft.old end (trees_at draft.old.trees front.now)
        (tree_at draft.old.trees goal) (length params.now) }
    ensures refutes { IfOk result (λ k. Refutes draft.new k
        (trees_at draft.old.trees front.now ++ neg (tree_at draft.old.trees goal) ∷ [])) }
    ensures grows { Extends draft.old draft.new }
{
    match beginning_of(draft.store(), goal) {
        Beginning::Universal(ty, body) => {
            glue_universal(draft, front, goal, ty, body, params, end)
        }
        Beginning::Implication(premise, conclusion) => {
            glue_implication(draft, front, goal, premise, conclusion, params, end)
        }
        Beginning::Neither => Ok(end),
    }
}

// From the step that refutes what is introduced, one that refutes the formulas and a negated quantifier.
#[cycle(glue)]
fn glue_universal(
    draft: &mut Draft,
    front: &[TermId],
    goal: TermId,
    ty: TermId,
    body: TermId,
    params: &[TermId],
    end: usize,
) -> Result<usize, AllocError>
    requires front { AreFormulas draft.old front.now }
    requires goal { IsFormulaAt draft.old goal }
    requires tree { tree_at draft.old.trees goal
        ≡ Two HForall (tree_at draft.old.trees ty) (tree_at draft.old.trees body) }
    requires ty_held { Holds draft.old.trees ty }
    requires body_held { Holds draft.old.trees body }
    requires below { AreParamsBelow (length params.now) (trees_at draft.old.trees front.now)
        (tree_at draft.old.trees goal) }
    requires end { EndsDraftAt draft.old end (trees_at draft.old.trees front.now)
        (tree_at draft.old.trees goal) (length params.now) }
    ensures refutes { IfOk result (λ k. Refutes draft.new k
        (trees_at draft.old.trees front.now ++ neg (tree_at draft.old.trees goal) ∷ [])) }
    ensures grows { Extends draft.old draft.new }
{
    let number = params.len();
    let alloc = draft.allocator();
    let goal_at = open_body(alloc, draft, number, ty, body)?;
    let wider = join_lists(alloc, params, &[ty])?;
    let step = glue_goal(draft, front, goal_at, &wider, end)?;
    let no_body = last_formula(draft, step);
    refute_negated(
        draft,
        front,
        goal,
        Opening::Universal(number),
        &[no_body],
        step,
    )
}

// From the step that refutes what is introduced, one that refutes the formulas and a negated implication.
#[cycle(glue)]
fn glue_implication(
    draft: &mut Draft,
    front: &[TermId],
    goal: TermId,
    premise: TermId,
    conclusion: TermId,
    params: &[TermId],
    end: usize,
) -> Result<usize, AllocError>
    requires front { AreFormulas draft.old front.now }
    requires goal { IsFormulaAt draft.old goal }
    requires tree { tree_at draft.old.trees goal
        ≡ Two (HJoin Op.Imp) (tree_at draft.old.trees premise)
        (tree_at draft.old.trees conclusion) }
    requires premise_held { Holds draft.old.trees premise }
    requires conclusion_held { Holds draft.old.trees conclusion }
    requires below { AreParamsBelow (length params.now) (trees_at draft.old.trees front.now)
        (tree_at draft.old.trees goal) }
    requires end { EndsDraftAt draft.old end (trees_at draft.old.trees front.now)
        (tree_at draft.old.trees goal) (length params.now) }
    ensures refutes { IfOk result (λ k. Refutes draft.new k
        (trees_at draft.old.trees front.now ++ neg (tree_at draft.old.trees goal) ∷ [])) }
    ensures grows { Extends draft.old draft.new }
{
    let wider = join_lists(draft.allocator(), front, &[premise])?;
    let step = glue_goal(draft, &wider, conclusion, params, end)?;
    let no_conclusion = last_formula(draft, step);
    let added = [premise, no_conclusion];
    refute_negated(draft, front, goal, Opening::Implication, &added, step)
}
