// `match`es with the same patterns: the questions for their branches, and evidence from evidence for them.
ghost use Rattle.std.specs.Prelude.{◌≡◌, ◌<◌, List, [], IfOk};
ghost use Rattle.trees.specs.declared.Sort.TheVariants.{Term};
ghost use Rattle.trees.specs.Tree.{Tree, Two, HCase, HCell, HArm};
ghost use Rattle.trees.specs.Node.{tree_at, trees_at, Holds};
ghost use Rattle.trees.specs.Binding.{inst_many};
ghost use Rattle.trees.specs.Sorts.{sort_of};
ghost use Rattle.trees.specs.binders.Visits.{HoldTerms};
ghost use Rattle.tasks.specs.MatchTests.{test, bind};
ghost use Rattle.images.specs.PatternTerms.{IsTypedPattern};
ghost use Rattle.evidence.specs.Drafts.{Extends, AddsTrees};
ghost use Rattle.congruence.specs.kernel.Right.{IsGroundExpression};
ghost use Rattle.congruence.specs.Alike.{ArePair, Shows};
ghost use Rattle.agreement.specs.Agreement.{ArePairedBranches, ArePartsOf};
ghost use Rattle.agreement.specs.Questions.{
  IsAsked,
  AreQuestions,
  AddsQuestions,
  HasLinkedParts,
};
ghost use Rattle.agreement.specs.Branches.{
  AreAskedCases,
  IsAskedBranch,
  IsCaseAt,
  HasTwoBranches,
  IsRestCase,
  AreLinkedCases,
  HasLastBodies,
  HasMore,
};

use crate::answers::through;
use crate::questions::{Link, Question};
use congruence::{AlikeBy, CaseLinks, Conditional, alike_branch, alike_matches, cells_of};
use evidence::Draft;
use images::match_terms::{Asked, ask};
use std::alloc::AllocError;
use tasks::{Grow, Lookup};
use trees::binders::inst_many;
use trees::{Node, TermId};

/// The first branch of a list, and the list of the others.
#[derive(Clone, Copy)]
pub(crate) struct Branch {
    pub pattern: TermId,
    pub body: TermId,
    pub others: TermId,
}

// The first branch of a list of branches, and the list of the others.
fn first_branch(draft: &Draft, arms: TermId) -> Branch
    requires held { Holds draft.now.trees arms }
    requires branches { (p : Tree) × ((a : Tree) × ((r : Tree)
        × (tree_at draft.now.trees arms ≡ Two HCell (Two HArm p a) r))) }
    ensures pattern_held { Holds draft.now.trees result.pattern }
    ensures body_held { Holds draft.now.trees result.body }
    ensures others_held { Holds draft.now.trees result.others }
    ensures others_below { result.others.0 < arms.0 }
    ensures tree { tree_at draft.now.trees arms ≡ Two HCell
        (Two HArm (tree_at draft.now.trees result.pattern) (tree_at draft.now.trees result.body))
        (tree_at draft.now.trees result.others) }
{
    match draft.store().node(arms) {
        Node::Cell(arm, others) => match draft.store().node(arm) {
            Node::Arm(pattern, body) => Branch {
                pattern,
                body,
                others,
            },
            _ => unreachable!(),
        },
        _ => unreachable!(),
    }
}

/// The test of a pattern, and the terms for its variables.
#[derive(Drop)]
struct AskedPattern {
    test: TermId,
    terms: Vec<TermId>,
}

// The test of a pattern, asked of a closed term, and the terms for the pattern's variables.
fn ask_pattern(draft: &mut Draft, pattern: TermId, term: TermId) -> Result<AskedPattern, AllocError>
    requires pattern_held { Holds draft.old.trees pattern }
    requires pattern { IsTypedPattern draft.old.task [] (tree_at draft.old.trees pattern) }
    requires term_held { Holds draft.old.trees term }
    requires term { sort_of (tree_at draft.old.trees term) ≡ Term }
    ensures test_held { IfOk result (λ a. Holds draft.new.trees a.test) }
    ensures test { IfOk result (λ a. tree_at draft.new.trees a.test ≡ test draft.old.task
        (tree_at draft.old.trees pattern) (tree_at draft.old.trees term)) }
    ensures terms_held { IfOk result (λ a. HoldTerms draft.new.trees a.terms.items) }
    ensures terms { IfOk result (λ a. trees_at draft.new.trees a.terms.items ≡ bind draft.old.task
        (tree_at draft.old.trees pattern) (tree_at draft.old.trees term)) }
    ensures grows { AddsTrees draft.old draft.new }
{
    let task = draft.task().clone()?;
    let look = Lookup::without_index(&task);
    let alloc = draft.allocator();
    let asked = ask(alloc, draft, look, pattern, term)?;
    let Asked {
        tests: _,
        test,
        terms,
    } = asked;
    Ok(AskedPattern { test, terms })
}

/// The test of a branch's pattern, asked of a term, and the branch's body at the terms for the pattern's variables.
#[derive(Clone, Copy)]
pub(crate) struct OpenedBranch {
    pub test: TermId,
    pub inner: TermId,
}

// Opens the first branch of a `match` of a term.
fn open_branch(
    draft: &mut Draft,
    term: TermId,
    arms: TermId,
    first: Branch,
) -> Result<OpenedBranch, AllocError>
    requires term_held { Holds draft.old.trees term }
    requires pattern_held { Holds draft.old.trees first.pattern }
    requires body_held { Holds draft.old.trees first.body }
    requires closed { IsGroundExpression draft.old.task
        (Two HCase (tree_at draft.old.trees term) (tree_at draft.old.trees arms)) }
    requires arms { tree_at draft.old.trees arms ≡ Two HCell
        (Two HArm (tree_at draft.old.trees first.pattern) (tree_at draft.old.trees first.body))
        (tree_at draft.old.trees first.others) }
    ensures test_held { IfOk result (λ o. Holds draft.new.trees o.test) }
    ensures test { IfOk result (λ o. tree_at draft.new.trees o.test ≡ test draft.old.task
        (tree_at draft.old.trees first.pattern) (tree_at draft.old.trees term)) }
    ensures inner_held { IfOk result (λ o. Holds draft.new.trees o.inner) }
    ensures inner { IfOk result (λ o. tree_at draft.new.trees o.inner
        ≡ inst_many (tree_at draft.old.trees first.body) (bind draft.old.task
        (tree_at draft.old.trees first.pattern) (tree_at draft.old.trees term))) }
    ensures grows { AddsTrees draft.old draft.new }
{
    let _ = arms;
    let _task = draft.task();
    let asked = ask_pattern(draft, first.pattern, term)?;
    let alloc = draft.allocator();
    let inner = inst_many(alloc, draft, first.body, &asked.terms)?;
    Ok(OpenedBranch {
        test: asked.test,
        inner,
    })
}

/// Two `match`es, by their terms and their lists of branches.
#[derive(Clone, Copy)]
pub(crate) struct Cases {
    pub by: TermId,
    pub arms: TermId,
    pub other_by: TermId,
    pub other_arms: TermId,
}

/// The questions for the first branches of two `match`es, and the `match`es with the other branches.
#[derive(Clone, Copy)]
pub(crate) struct AskedBranch {
    pub test: Question,
    pub body: Question,
    pub others: Cases,
}

// The questions for the first branches of two `match`es.
fn ask_branch(draft: &mut Draft, q: Question, cases: Cases) -> Result<AskedBranch, AllocError>
    requires branches { AreAskedCases draft.old q cases }
    ensures asked { IfOk result (IsAskedBranch draft.new q cases) }
    ensures grows { AddsTrees draft.old draft.new }
{
    let _task = draft.task();
    let one = first_branch(draft, cases.arms);
    let two = first_branch(draft, cases.other_arms);
    let left = open_branch(draft, cases.by, cases.arms, one)?;
    let right = open_branch(draft, cases.other_by, cases.other_arms, two)?;
    Ok(AskedBranch {
        test: Question {
            left: left.test,
            right: right.test,
            number: q.number,
        },
        body: Question {
            left: left.inner,
            right: right.inner,
            number: q.number,
        },
        others: Cases {
            by: cases.by,
            arms: one.others,
            other_by: cases.other_by,
            other_arms: two.others,
        },
    })
}

// Adds the questions for the branches of two `match`es.
fn push_branches(
    draft: &mut Draft,
    q: Question,
    cases: Cases,
    questions: &mut Vec<Question>,
) -> Result<(), AllocError>
    requires branches { AreAskedCases draft.old q cases }
    ensures adds { IfOk result (λ _. AddsQuestions draft.new q questions.old.items
        questions.new.items (ArePairedBranches draft.old.task (tree_at draft.old.trees cases.by)
        (tree_at draft.old.trees cases.other_by) (tree_at draft.old.trees cases.arms)
        (tree_at draft.old.trees cases.other_arms))) }
    ensures grows { AddsTrees draft.old draft.new }
{
    let first = ask_branch(draft, q, cases)?;
    match cells_of(draft, first.others.arms) {
        Some(_) => {
            questions.push(first.test)?;
            questions.push(first.body)?;
            push_branches(draft, q, first.others, questions)
        }
        None => {
            questions.push(first.body)?;
            Ok(())
        }
    }
}

/// Of two `match`es.
pub(crate) fn case_parts(
    draft: &mut Draft,
    q: Question,
    by: TermId,
    arms: TermId,
) -> Result<Vec<Question>, AllocError>
    requires asked { IsAsked draft.old q }
    requires left { tree_at draft.old.trees q.left
        ≡ Two HCase (tree_at draft.old.trees by) (tree_at draft.old.trees arms) }
    requires by_below { by.0 < q.left.0 }
    requires arms_below { arms.0 < q.left.0 }
    requires parts { (ps : List (Tree × Tree)) × ArePartsOf draft.old.task q.number
        (tree_at draft.old.trees q.left) (tree_at draft.old.trees q.right) ps }
    ensures parts { IfOk result (λ v. AreQuestions draft.new q v.items) }
    ensures grows { AddsTrees draft.old draft.new }
{
    match draft.store().node(q.right) {
        Node::Case(other_by, other_arms) => {
            let cases = Cases {
                by,
                arms,
                other_by,
                other_arms,
            };
            let mut made = Vec::new(draft.allocator());
            push_branches(draft, q, cases, &mut made)?;
            Ok(made)
        }
        _ => unreachable!(),
    }
}

/// A `match` by its number, with those of its term and its list of branches.
#[derive(Clone, Copy)]
pub(crate) struct CaseAt {
    pub whole: TermId,
    pub by: TermId,
    pub arms: TermId,
}

// The `match` with the branches after the first.
fn rest_case(draft: &mut Draft, case: CaseAt) -> Result<CaseAt, AllocError>
    requires case { IsCaseAt draft.old case }
    requires more { HasTwoBranches draft.old.trees case.arms }
    ensures rest { IfOk result (IsRestCase draft.new case) }
    ensures grows { AddsTrees draft.old draft.new }
{
    let _task = draft.task();
    let branch = first_branch(draft, case.arms);
    let whole = draft.add(Node::Case(case.by, branch.others))?;
    Ok(CaseAt {
        whole,
        by: case.by,
        arms: branch.others,
    })
}

/// Two `match`es with the branches after the first.
#[derive(Clone, Copy)]
pub(crate) struct RestCases {
    pub left: CaseAt,
    pub right: CaseAt,
}

// Both with the branches after the first.
fn rest_cases(draft: &mut Draft, left: CaseAt, right: CaseAt) -> Result<RestCases, AllocError>
    requires left { IsCaseAt draft.old left }
    requires left_more { HasTwoBranches draft.old.trees left.arms }
    requires right { IsCaseAt draft.old right }
    requires right_more { HasTwoBranches draft.old.trees right.arms }
    ensures left { IfOk result (λ r. IsRestCase draft.new left r.left) }
    ensures right { IfOk result (λ r. IsRestCase draft.new right r.right) }
    ensures grows { AddsTrees draft.old draft.new }
{
    let one = rest_case(draft, left)?;
    let two = rest_case(draft, right)?;
    Ok(RestCases {
        left: one,
        right: two,
    })
}

// Two `match`es whose last branches are alike.
fn alike_lasts(
    draft: &mut Draft,
    left: CaseAt,
    right: CaseAt,
    body: Link,
) -> Result<AlikeBy, AllocError>
    requires last { HasLastBodies draft.old left right body }
    ensures shows { IfOk result (λ w. Shows draft.new w (tree_at draft.old.trees left.whole)
        (tree_at draft.old.trees right.whole)) }
    ensures grows { Extends draft.old draft.new }
{
    let first = alike_branch(draft, left.whole, body.left)?;
    let second = alike_branch(draft, right.whole, body.right)?;
    through(draft, left.whole, right.whole, body, first, second)
}

// Two `match`es whose first tests and bodies are alike, and whose other branches are.
fn alike_firsts(
    draft: &mut Draft,
    left: CaseAt,
    right: CaseAt,
    test: Link,
    body: Link,
    others: Link,
) -> Result<AlikeBy, AllocError>
    requires more { HasMore draft.old left right test body others }
    ensures shows { IfOk result (λ w. Shows draft.new w (tree_at draft.old.trees left.whole)
        (tree_at draft.old.trees right.whole)) }
    ensures grows { Extends draft.old draft.new }
{
    let from = Conditional {
        whole: left.whole,
        condition: test.left,
        then_part: body.left,
        else_part: others.left,
    };
    let to = Conditional {
        whole: right.whole,
        condition: test.right,
        then_part: body.right,
        else_part: others.right,
    };
    let links = CaseLinks {
        condition: test.alike,
        then_part: body.alike,
        else_part: others.alike,
    };
    alike_matches(draft, from, to, links)
}

// Two `match`es with the same patterns, from evidence for their tests and bodies.
fn alike_branches(
    draft: &mut Draft,
    left: CaseAt,
    right: CaseAt,
    links: &[Link],
) -> Result<AlikeBy, AllocError>
    requires cases { AreLinkedCases draft.old left right links.now }
    ensures shows { IfOk result (λ w. Shows draft.new w (tree_at draft.old.trees left.whole)
        (tree_at draft.old.trees right.whole)) }
    ensures grows { Extends draft.old draft.new }
{
    let _task = draft.task();
    match links.split_first() {
        Some((first, others)) => match others.split_first() {
            Some((body, more)) => {
                let rest = rest_cases(draft, left, right)?;
                let alike = alike_branches(draft, rest.left, rest.right, more)?;
                let rest = Link {
                    left: rest.left.whole,
                    right: rest.right.whole,
                    alike,
                };
                alike_firsts(draft, left, right, *first, *body, rest)
            }
            None => alike_lasts(draft, left, right, *first),
        },
        None => unreachable!(),
    }
}

/// For two `match`es.
pub(crate) fn answer_case(
    draft: &mut Draft,
    q: Question,
    by: TermId,
    arms: TermId,
    links: &[Link],
) -> Result<AlikeBy, AllocError>
    requires linked { HasLinkedParts draft.old q links.now }
    requires left { tree_at draft.old.trees q.left
        ≡ Two HCase (tree_at draft.old.trees by) (tree_at draft.old.trees arms) }
    requires by_held { Holds draft.old.trees by }
    requires arms_held { Holds draft.old.trees arms }
    ensures shows { IfOk result (λ w. Shows draft.new w (tree_at draft.old.trees q.left)
        (tree_at draft.old.trees q.right)) }
    ensures grows { Extends draft.old draft.new }
{
    match draft.store().node(q.right) {
        Node::Case(other_by, other_arms) => {
            let left = CaseAt {
                whole: q.left,
                by,
                arms,
            };
            let right = CaseAt {
                whole: q.right,
                by: other_by,
                arms: other_arms,
            };
            alike_branches(draft, left, right, links)
        }
        _ => unreachable!(),
    }
}
