// Evidence for two closed expressions that agree over a list of pairs. What is found is remembered by pairs of numbers.
ghost use Rattle.std.specs.Prelude.{◌≡◌, ◌≤◌, ◌++◌, ℕ, List, [], ◌∷◌, All, length, IfOk};
ghost use Rattle.trees.specs.Tree.{Tree, above_params};
ghost use Rattle.trees.specs.Node.{tree_at};
ghost use Rattle.tasks.specs.Task.{neg};
ghost use Rattle.congruence.specs.kernel.rules.Forms.{alike};
ghost use Rattle.evidence.specs.Drafts.{Extends, Refutes};
ghost use Rattle.congruence.specs.Alike.{ArePair, Shows};
ghost use Rattle.agreement.specs.Agreement.{AgreeOver, ArePartsOf, AgreeWithin, number_under};
ghost use Rattle.agreement.specs.Questions.{
  IsProvedPair,
  IsAsked,
  IsLower,
  AgreeAsked,
  AgreeByParts,
  AddsLinks,
  AreKnownAlike,
  pairs_at,
};

use crate::answers::answer;
use crate::parts::parts_of;
use crate::questions::{Link, Question, step_for};
use congruence::{AlikeBy, alike_by_step, step_of_alike};
use evidence::Draft;
use indexmap::IndexMap;
use std::alloc::AllocError;
use tasks::Grow;
use trees::TermId;

// Evidence that was found, by two numbers.
type Known = IndexMap<(usize, usize), AlikeBy>;

// A number, which is less than 2^64.
fn number_of(id: TermId) -> usize
    ensures { result ≡ id.0 }
{
    id.0
}

// Evidence for two expressions that agree.
#[cycle(agree)]
fn agree(
    draft: &mut Draft,
    atoms: &[(TermId, TermId, usize)],
    known: &mut Known,
    q: Question,
) -> Result<AlikeBy, AllocError>
    requires atoms { All (IsProvedPair draft.old) atoms.now }
    requires known { AreKnownAlike draft.old known.old }
    requires asked { IsAsked draft.old q }
    requires agree { AgreeAsked draft.old (pairs_at draft.old.trees atoms.now) q }
    ensures shows { IfOk result (λ w. Shows draft.new w (tree_at draft.old.trees q.left)
        (tree_at draft.old.trees q.right)) }
    ensures known { IfOk result (λ _. AreKnownAlike draft.new known.new) }
    ensures grows { Extends draft.old draft.new }
{
    if draft.store().same(q.left, q.right) {
        return Ok(AlikeBy::Same);
    }
    if let Some(made) = known.get(&(q.left.0, q.right.0)) {
        return Ok(*made);
    }
    let made = agree_apart(draft, atoms, known, q)?;
    known.insert((q.left.0, q.right.0), made)?;
    Ok(made)
}

// Evidence for two different expressions that agree: a pair of the list, or of one operator.
#[cycle(agree)]
fn agree_apart(
    draft: &mut Draft,
    atoms: &[(TermId, TermId, usize)],
    known: &mut Known,
    q: Question,
) -> Result<AlikeBy, AllocError>
    requires atoms { All (IsProvedPair draft.old) atoms.now }
    requires known { AreKnownAlike draft.old known.old }
    requires asked { IsAsked draft.old q }
    requires agree { AgreeAsked draft.old (pairs_at draft.old.trees atoms.now) q }
    requires apart { tree_at draft.old.trees q.left ≡ tree_at draft.old.trees q.right → ⊥ }
    ensures shows { IfOk result (λ w. Shows draft.new w (tree_at draft.old.trees q.left)
        (tree_at draft.old.trees q.right)) }
    ensures known { IfOk result (λ _. AreKnownAlike draft.new known.new) }
    ensures grows { Extends draft.old draft.new }
{
    match step_for(draft, atoms, q.left, q.right) {
        Some(step) => alike_by_step(draft, q.left, q.right, step),
        None => agree_parts(draft, atoms, known, q),
    }
}

// Evidence for two expressions of one operator whose parts agree.
#[cycle(agree)]
fn agree_parts(
    draft: &mut Draft,
    atoms: &[(TermId, TermId, usize)],
    known: &mut Known,
    q: Question,
) -> Result<AlikeBy, AllocError>
    requires atoms { All (IsProvedPair draft.old) atoms.now }
    requires known { AreKnownAlike draft.old known.old }
    requires asked { IsAsked draft.old q }
    requires parts { AgreeByParts draft.old (pairs_at draft.old.trees atoms.now) q }
    ensures shows { IfOk result (λ w. Shows draft.new w (tree_at draft.old.trees q.left)
        (tree_at draft.old.trees q.right)) }
    ensures known { IfOk result (λ _. AreKnownAlike draft.new known.new) }
    ensures grows { Extends draft.old draft.new }
{
    let questions = parts_of(draft, q)?;
    let _count = questions.len();
    let mut links = Vec::new(draft.allocator());
    agree_all(draft, atoms, known, q, &questions, &mut links)?;
    answer(draft, q, &links)
}

// Adds the evidence for questions about parts of `whole`.
#[cycle(agree)]
fn agree_all(
    draft: &mut Draft,
    atoms: &[(TermId, TermId, usize)],
    known: &mut Known,
    whole: Question,
    questions: &[Question],
    links: &mut Vec<Link>,
) -> Result<(), AllocError>
    requires atoms { All (IsProvedPair draft.old) atoms.now }
    requires known { AreKnownAlike draft.old known.old }
    requires whole { IsAsked draft.old whole }
    requires asked { All (IsAsked draft.old) questions.now }
    requires agree { All (AgreeAsked draft.old (pairs_at draft.old.trees atoms.now)) questions.now }
    requires lower { All (λ p. IsLower draft.old.trees p whole) questions.now }
    ensures links { IfOk result (λ _. AddsLinks draft.old draft.new links.old.items links.new.items
        questions.now) }
    ensures known { IfOk result (λ _. AreKnownAlike draft.new known.new) }
    ensures grows { Extends draft.old draft.new }
{
    match questions.split_first() {
        Some((first, others)) => {
            let _number = number_of(first.left);
            let alike = agree(draft, atoms, known, *first)?;
            links.push(Link {
                left: first.left,
                right: first.right,
                alike,
            })?;
            agree_all(draft, atoms, known, whole, others, links)
        }
        None => Ok(()),
    }
}

// How many parameters the task has.
fn parameter_count(draft: &Draft) -> usize
    ensures { result ≡ length draft.now.task.params }
{
    draft.task().params.len()
}

/// For two formulas, or two terms of one type, that agree over the pairs: a step whose sequent is
/// `not (left = right)` alone, for terms, or `not (left <-> right)`, for formulas. Each pair has a
/// step of that form. Only want of memory refuses.
pub fn equiv(
    draft: &mut Draft,
    left: TermId,
    right: TermId,
    atoms: &[(TermId, TermId, usize)],
) -> Result<usize, AllocError>
    requires sides { ArePair draft.old left right }
    requires left_own { above_params (tree_at draft.old.trees left)
        ≤ length draft.old.task.params }
    requires right_own { above_params (tree_at draft.old.trees right)
        ≤ length draft.old.task.params }
    requires agree { AgreeOver draft.old.task (pairs_at draft.old.trees atoms.now)
        (tree_at draft.old.trees left) (tree_at draft.old.trees right) }
    requires atoms { All (IsProvedPair draft.old) atoms.now }
    ensures refutes { IfOk result (λ k. Refutes draft.new k (neg (alike
        (tree_at draft.old.trees left) (tree_at draft.old.trees right)) ∷ [])) }
    ensures grows { Extends draft.old draft.new }
{
    let number = parameter_count(draft);
    let q = Question {
        left,
        right,
        number,
    };
    let mut known = IndexMap::new(draft.allocator());
    let alike = agree(draft, atoms, &mut known, q)?;
    step_of_alike(draft, left, right, alike)
}
