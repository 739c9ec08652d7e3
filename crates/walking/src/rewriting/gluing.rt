// The start of the old task, refuted by a step that refutes that of the rewritten one.
// It depends on the evidence of a formula; the transformations glue by it.
ghost use Rattle.std.specs.Prelude.{◌≡◌, ◌<◌, ◌++◌, [], ◌∷◌, length, IfOk};
ghost use Rattle.tasks.specs.trees.Node.{tree_at};
ghost use Rattle.tasks.specs.Task.{neg, start};
ghost use Rattle.tasks.specs.Copying.{with_goal};
ghost use Rattle.tasks.specs.Meaning.{trees_at, tasks_at};
ghost use Rattle.evidence.specs.Drafts.{Extends, Refutes, IsFormulaAt, AreFormulas};
ghost use Rattle.evidence.specs.Stages.{Gives, IsOwnTask, EndIn};
ghost use Rattle.evidence.specs.changed_tasks.Changed.{changed_task};
ghost use Rattle.walking.specs.rewriting.Rewritten.{formulas_equation};
ghost use Rattle.walking.specs.rewriting.Starts.{CanGlueStart, AreLocalImages, IsHalf, IsHalfFor, tree_or};

use crate::rewriting::{FormulaScope, RewriteFormulas};
use evidence::proof_scripts::{Line, Places, Word, derive};
use evidence::{Draft, join_lists, keep_but, negation};
use std::alloc::{AllocError, Global};
use tasks::{Task, TermId};

// What a formula becomes, and a step that refutes the formula with the negation of that.
#[derive(Clone, Copy)]
struct Half {
    image: TermId,
    step: usize,
}

// The sequent without an image at its end, where a step refutes a formula of it with the negation of the image.
fn without_image(
    draft: &mut Draft,
    sequent: &[TermId],
    place: usize,
    half: Half,
    step: usize,
) -> Result<usize, AllocError>
    requires sequent { AreFormulas draft.old sequent.now }
    requires half { IsHalfFor draft.old (trees_at draft.old.trees sequent.now) place half }
    requires step { Refutes draft.old step (trees_at draft.old.trees sequent.now
        ++ tree_at draft.old.trees half.image ∷ []) }
    ensures refutes { IfOk result (λ k. Refutes draft.new k
        (trees_at draft.old.trees sequent.now)) }
    ensures grows { Extends draft.old draft.new }
{
    let negated = negation(draft, half.image)?;
    let all = join_lists(draft.allocator(), sequent, &[negated])?;
    let kept = draft.keep(&all, &[place, sequent.len()], half.step)?;
    draft.cut(sequent, half.image, step, kept)
}

// [not a; not not b], from a step that refutes [b; not a].
fn negate_half(
    draft: &mut Draft,
    a: TermId,
    b: TermId,
    no_a: TermId,
    no_b: TermId,
    back: usize,
) -> Result<usize, AllocError>
    requires a { IsFormulaAt draft.old a }
    requires b { IsFormulaAt draft.old b }
    requires no_a { IsFormulaAt draft.old no_a }
    requires no_b { IsFormulaAt draft.old no_b }
    requires no_a_is { tree_at draft.old.trees no_a ≡ neg (tree_at draft.old.trees a) }
    requires no_b_is { tree_at draft.old.trees no_b ≡ neg (tree_at draft.old.trees b) }
    requires back { Refutes draft.old back
        (tree_at draft.old.trees b ∷ neg (tree_at draft.old.trees a) ∷ []) }
    ensures refutes { IfOk result (λ k. Refutes draft.new k
        (tree_at draft.old.trees no_a ∷ neg (tree_at draft.old.trees no_b) ∷ [])) }
    ensures grows { Extends draft.old draft.new }
{
    let whole = negation(draft, no_b)?;
    derive(
        draft,
        &[],
        &[no_a, whole],
        &[
            Line::Rule(Word::NotNot(1)),
            Line::Kept(back, Places::Two(2, 0)),
        ],
    )
}

// A local of the task: what it becomes, and its half.
fn local_half<F: RewriteFormulas>(
    rewrite: &F,
    from: &Task,
    draft: &mut Draft,
    no_goal: TermId,
    place: usize,
) -> Result<Half, AllocError>
    requires can { CanGlueStart (F.Ready rewrite.now) draft.old from.now no_goal }
    requires within { place < length from.now.locals }
    ensures half { IfOk result (IsHalf draft.new (tree_or draft.old.task.locals place)
        (F.function rewrite.now draft.old.task (tree_or draft.old.task.locals place))) }
    ensures grows { Extends draft.old draft.new }
{
    let _ = no_goal;
    let locals = from.locals.as_slice();
    let local = locals[place];
    let made = rewrite.rewrite(draft, from, local)?;
    Ok(Half {
        image: made.image,
        step: made.there,
    })
}

// The negation of the goal: that of what the goal becomes, and its half.
fn goal_half<F: RewriteFormulas>(
    rewrite: &F,
    from: &Task,
    draft: &mut Draft,
    no_goal: TermId,
) -> Result<Half, AllocError>
    requires can { CanGlueStart (F.Ready rewrite.now) draft.old from.now no_goal }
    ensures half { IfOk result (IsHalf draft.new (neg draft.old.task.goal)
        (neg (F.function rewrite.now draft.old.task draft.old.task.goal))) }
    ensures grows { Extends draft.old draft.new }
{
    let made = rewrite.rewrite(draft, from, from.goal)?;
    let negated = negation(draft, made.image)?;
    let step = negate_half(draft, from.goal, made.image, no_goal, negated, made.back)?;
    Ok(Half {
        image: negated,
        step,
    })
}

// The start of the task with further formulas after it.
fn start_with(
    alloc: Global,
    from: &Task,
    no_goal: TermId,
    done: &[TermId],
) -> Result<Vec<TermId>, AllocError>
    ensures { IfOk result (λ v. v.items ≡ (from.now.locals ++ no_goal ∷ []) ++ done.now) }
{
    let start = join_lists(alloc, from.locals.as_slice(), &[no_goal])?;
    join_lists(alloc, &start, done)
}

// Where all locals are rewritten: the start of the old task with what they become, refuted.
fn glue_last<F: RewriteFormulas>(
    rewrite: &F,
    from: &Task,
    draft: &mut Draft,
    no_goal: TermId,
    done: &[TermId],
    end: usize,
) -> Result<usize, AllocError>
    requires can { CanGlueStart (F.Ready rewrite.now) draft.old from.now no_goal }
    requires done { AreLocalImages draft.old (F.function rewrite.now draft.old.task) done.now }
    requires all { length done.now ≡ length draft.old.task.locals }
    requires end { Refutes draft.old end
        (start (changed_task (F.function rewrite.now draft.old.task) draft.old.task)) }
    ensures refutes { IfOk result (λ k. Refutes draft.new k
        (start draft.old.task ++ trees_at draft.old.trees done.now)) }
    ensures grows { Extends draft.old draft.new }
{
    let half = goal_half(rewrite, from, draft, no_goal)?;
    let alloc = draft.allocator();
    let start = join_lists(alloc, from.locals.as_slice(), &[no_goal])?;
    let images = join_lists(alloc, done, &[half.image])?;
    let step = keep_but(draft, &[], &start, &images, end)?;
    let sequent = start_with(alloc, from, no_goal, done)?;
    without_image(draft, &sequent, from.locals.len(), half, step)
}

// The start of the old task with what the first locals become, refuted: each further one is put after them, and then taken away.
fn glue_locals<F: RewriteFormulas>(
    rewrite: &F,
    from: &Task,
    draft: &mut Draft,
    no_goal: TermId,
    done: &[TermId],
    end: usize,
) -> Result<usize, AllocError>
    requires can { CanGlueStart (F.Ready rewrite.now) draft.old from.now no_goal }
    requires done { AreLocalImages draft.old (F.function rewrite.now draft.old.task) done.now }
    requires end { Refutes draft.old end
        (start (changed_task (F.function rewrite.now draft.old.task) draft.old.task)) }
    ensures refutes { IfOk result (λ k. Refutes draft.new k
        (start draft.old.task ++ trees_at draft.old.trees done.now)) }
    ensures grows { Extends draft.old draft.new }
{
    if done.len() == from.locals.len() {
        return glue_last(rewrite, from, draft, no_goal, done, end);
    }
    let half = local_half(rewrite, from, draft, no_goal, done.len())?;
    let wider = join_lists(draft.allocator(), done, &[half.image])?;
    let step = glue_locals(rewrite, from, draft, no_goal, &wider, end)?;
    let sequent = start_with(draft.allocator(), from, no_goal, done)?;
    without_image(draft, &sequent, done.len(), half, step)
}

// The start of the old task, where the goal alone is rewritten.
fn glue_goal<F: RewriteFormulas>(
    rewrite: &F,
    from: &Task,
    draft: &mut Draft,
    no_goal: TermId,
    end: usize,
) -> Result<usize, AllocError>
    requires can { CanGlueStart (F.Ready rewrite.now) draft.old from.now no_goal }
    requires end { Refutes draft.old end (start (with_goal draft.old.task
        (F.function rewrite.now draft.old.task draft.old.task.goal))) }
    ensures refutes { IfOk result (λ k. Refutes draft.new k (start draft.old.task)) }
    ensures grows { Extends draft.old draft.new }
{
    let half = goal_half(rewrite, from, draft, no_goal)?;
    let locals = from.locals.as_slice();
    let step = keep_but(draft, locals, &[no_goal], &[half.image], end)?;
    let sequent = join_lists(draft.allocator(), locals, &[no_goal])?;
    without_image(draft, &sequent, locals.len(), half, step)
}

/// From a step whose sequent is the start of the rewritten task, one whose sequent is the start of the old task.
pub fn glue_rewritten<F: RewriteFormulas>(
    rewrite: &F,
    scope: FormulaScope,
    from: &Task,
    to: &Vec<Task>,
    ends: &[usize],
    draft: &mut Draft,
) -> Result<usize, AllocError>
    requires ready { F.Ready rewrite.now draft.old.task draft.old.trees }
    requires own { IsOwnTask draft.old from.now }
    requires gives { Gives (formulas_equation scope (F.function rewrite.now)) draft.old.task
        (tasks_at draft.old.trees to.now.items) }
    requires ends { EndIn draft.old ends.now (tasks_at draft.old.trees to.now.items) }
    ensures refutes { IfOk result (λ k. Refutes draft.new k (start draft.old.task)) }
    ensures grows { Extends draft.old draft.new }
{
    let _ = to;
    let no_goal = negation(draft, from.goal)?;
    match scope {
        FormulaScope::Everywhere => {
            let step = glue_locals(rewrite, from, draft, no_goal, &[], ends[0])?;
            Ok(step)
        }
        FormulaScope::Goal => {
            let step = glue_goal(rewrite, from, draft, no_goal, ends[0])?;
            Ok(step)
        }
    }
}
