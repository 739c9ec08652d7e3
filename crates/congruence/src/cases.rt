// Two conditionals with equivalent conditions and alike parts.
ghost use Rattle.std.specs.Prelude.{◌≡◌, [], ◌∷◌, IfOk};
ghost use Rattle.trees.specs.Tree.{Tree, Two, HJoin};
ghost use Rattle.trees.specs.Node.{tree_at, Holds};
ghost use Rattle.trees.specs.Binding.{inst};
ghost use Rattle.trees.specs.Sorts.{sort_of};
ghost use Rattle.tasks.specs.Task.{neg};
ghost use Rattle.rules.specs.Forms.{alike, equal};
ghost use Rattle.evidence.specs.Drafts.{Extends, AddsTrees, Refutes, IsFormulaAt};
ghost use Rattle.congruence.specs.Alike.{HasHalves, Shows, ArePair, TemplateFor};
ghost use Rattle.congruence.specs.Conditionals.{IsConditional, HasValues, IsCase, AreLinked, HasCaseHalves};
ghost use Rattle.congruence.specs.Conditionals.{IsIfAt, IsMatchAt, IsLastBranch};

use crate::alike::{AlikeBy, Halves, equation, make_halves};
use crate::claims::{alike_by_step, denial, equal_step};
use crate::conditionals::{CaseValues, Conditional, if_values, match_values};
use crate::replacing::{apart, open_hole, template_left};
use evidence::proof_scripts::{Line, Places, Word, derive};
use evidence::{Draft, negation};
use std::alloc::AllocError;
use tasks::Grow;
use trees::{Node, Op, Sort, TermId};

/// Evidence for the condition and the parts of two conditionals.
#[derive(Clone, Copy)]
pub struct CaseLinks {
    pub condition: AlikeBy,
    pub then_part: AlikeBy,
    pub else_part: AlikeBy,
}

// What an expression is alike under a hypothesis, by a step.
#[derive(Clone, Copy)]
pub(crate) struct Case {
    whole: TermId,
    hypothesis: TermId,
    part: TermId,
    value: usize,
}

// The negated equation of a term and a hole at the type of another one.
fn template_beside(
    draft: &mut Draft,
    l: TermId,
    r: TermId,
    other: TermId,
) -> Result<TermId, AllocError>
    requires pair { ArePair draft.old l r }
    requires beside { ArePair draft.old l other }
    requires term { sort_of (tree_at draft.old.trees l) ≡ Sort.Term }
    ensures held { IfOk result (Holds draft.new.trees) }
    ensures template { IfOk result (λ id. TemplateFor draft.new.task
        (tree_at draft.new.trees l) (tree_at draft.new.trees id)) }
    ensures before { IfOk result (λ id. neg (equal (tree_at draft.new.trees other)
        (tree_at draft.new.trees l)) ≡ inst (tree_at draft.new.trees id)
        (tree_at draft.new.trees l)) }
    ensures after { IfOk result (λ id. neg (equal (tree_at draft.new.trees other)
        (tree_at draft.new.trees r)) ≡ inst (tree_at draft.new.trees id)
        (tree_at draft.new.trees r)) }
    ensures grows { AddsTrees draft.old draft.new }
{
    let hole = open_hole(draft, l, r)?;
    let open = draft.add(Node::Eq(other, hole))?;
    let template = draft.add(Node::Not(open))?;
    Ok(template)
}

// [not (x = R); c'], from [c'; not (R = x')] and `x = x'`.
fn replaced_second(
    draft: &mut Draft,
    other: TermId,
    right: Case,
    goal: TermId,
    lemma: usize,
) -> Result<usize, AllocError>
    requires right { IsCase draft.old right }
    requires term { sort_of (tree_at draft.old.trees right.whole) ≡ Sort.Term }
    requires beside { ArePair draft.old right.whole other }
    requires goal { IsFormulaAt draft.old goal }
    requires goal_is { tree_at draft.old.trees goal ≡ neg (equal (tree_at draft.old.trees other)
        (tree_at draft.old.trees right.whole)) }
    requires lemma { Refutes draft.old lemma (neg (equal (tree_at draft.old.trees other)
        (tree_at draft.old.trees right.part)) ∷ []) }
    ensures refutes { IfOk result (λ k. Refutes draft.new k (tree_at draft.old.trees goal
        ∷ tree_at draft.old.trees right.hypothesis ∷ [])) }
    ensures grows { Extends draft.old draft.new }
{
    let link = equation(draft, right.whole, right.part)?;
    let template = template_beside(draft, right.whole, right.part, other)?;
    derive(
        draft,
        &[],
        &[goal, right.hypothesis],
        &[
            Line::Cut(link),
            Line::Rule(Word::Replace(2, 0, template)),
            Line::Kept(lemma, Places::One(3)),
            Line::Kept(right.value, Places::Two(1, 2)),
        ],
    )
}

// [not (L = R); c; c'], from [c; not (L = x)] and [not (x = R); c'].
fn replaced_first(
    draft: &mut Draft,
    left: Case,
    right: Case,
    goal: TermId,
    step: usize,
) -> Result<usize, AllocError>
    requires left { IsCase draft.old left }
    requires right { IsCase draft.old right }
    requires term { sort_of (tree_at draft.old.trees left.whole) ≡ Sort.Term }
    requires sides { ArePair draft.old left.whole right.whole }
    requires goal { IsFormulaAt draft.old goal }
    requires goal_is { tree_at draft.old.trees goal ≡ neg (equal
        (tree_at draft.old.trees left.whole) (tree_at draft.old.trees right.whole)) }
    requires step { Refutes draft.old step (neg (equal (tree_at draft.old.trees left.part)
        (tree_at draft.old.trees right.whole)) ∷ tree_at draft.old.trees right.hypothesis ∷ []) }
    ensures refutes { IfOk result (λ k. Refutes draft.new k (tree_at draft.old.trees goal
        ∷ tree_at draft.old.trees left.hypothesis
        ∷ tree_at draft.old.trees right.hypothesis ∷ [])) }
    ensures grows { Extends draft.old draft.new }
{
    let link = equation(draft, left.whole, left.part)?;
    let hole = open_hole(draft, left.whole, left.part)?;
    let template = template_left(
        draft,
        hole,
        left.whole,
        left.part,
        right.whole,
        left.whole,
        left.part,
    )?;
    derive(
        draft,
        &[],
        &[goal, left.hypothesis, right.hypothesis],
        &[
            Line::Cut(link),
            Line::Rule(Word::Replace(3, 0, template)),
            Line::Kept(step, Places::Two(4, 2)),
            Line::Kept(left.value, Places::Two(1, 3)),
        ],
    )
}

// [not (L = R); c; c'], from what the two are under these, and `x = x'`.
fn under_terms(
    draft: &mut Draft,
    left: Case,
    right: Case,
    goal: TermId,
    lemma: usize,
) -> Result<usize, AllocError>
    requires left { IsCase draft.old left }
    requires right { IsCase draft.old right }
    requires term { sort_of (tree_at draft.old.trees left.whole) ≡ Sort.Term }
    requires sides { ArePair draft.old left.whole right.whole }
    requires goal { IsFormulaAt draft.old goal }
    requires goal_is { tree_at draft.old.trees goal ≡ neg (equal
        (tree_at draft.old.trees left.whole) (tree_at draft.old.trees right.whole)) }
    requires lemma { Refutes draft.old lemma (neg (equal (tree_at draft.old.trees left.part)
        (tree_at draft.old.trees right.part)) ∷ []) }
    ensures refutes { IfOk result (λ k. Refutes draft.new k (tree_at draft.old.trees goal
        ∷ tree_at draft.old.trees left.hypothesis
        ∷ tree_at draft.old.trees right.hypothesis ∷ [])) }
    ensures grows { Extends draft.old draft.new }
{
    let between = apart(draft, left.part, right.whole)?;
    let step = replaced_second(draft, left.part, right, between, lemma)?;
    replaced_first(draft, left, right, goal, step)
}

// [c; L; not x'], from [c; not (L <-> x)] and [x; not x'].
fn case_there(
    draft: &mut Draft,
    case: Case,
    other: TermId,
    step: usize,
) -> Result<usize, AllocError>
    requires case { IsCase draft.old case }
    requires formula { sort_of (tree_at draft.old.trees case.whole) ≡ Sort.Formula }
    requires other { IsFormulaAt draft.old other }
    requires step { Refutes draft.old step (tree_at draft.old.trees case.part
        ∷ neg (tree_at draft.old.trees other) ∷ []) }
    ensures refutes { IfOk result (λ k. Refutes draft.new k
        (tree_at draft.old.trees case.hypothesis ∷ tree_at draft.old.trees case.whole
        ∷ neg (tree_at draft.old.trees other) ∷ [])) }
    ensures grows { Extends draft.old draft.new }
{
    let claimed = draft.add(Node::Join(Op::Iff, case.whole, case.part))?;
    let negated = negation(draft, other)?;
    derive(
        draft,
        &[],
        &[case.hypothesis, case.whole, negated],
        &[
            Line::Cut(claimed),
            Line::Holding(Op::Iff, 3),
            Line::Kept(step, Places::Two(5, 2)),
            Line::Rule(Word::Clash(1, 4)),
            Line::Kept(case.value, Places::Two(0, 3)),
        ],
    )
}

// [c; x; not L], from [c; not (L <-> x)].
fn case_back(draft: &mut Draft, case: Case) -> Result<usize, AllocError>
    requires case { IsCase draft.old case }
    requires formula { sort_of (tree_at draft.old.trees case.whole) ≡ Sort.Formula }
    ensures refutes { IfOk result (λ k. Refutes draft.new k
        (tree_at draft.old.trees case.hypothesis ∷ tree_at draft.old.trees case.part
        ∷ neg (tree_at draft.old.trees case.whole) ∷ [])) }
    ensures grows { Extends draft.old draft.new }
{
    let claimed = draft.add(Node::Join(Op::Iff, case.whole, case.part))?;
    let negated = negation(draft, case.whole)?;
    derive(
        draft,
        &[],
        &[case.hypothesis, case.part, negated],
        &[
            Line::Cut(claimed),
            Line::Holding(Op::Iff, 3),
            Line::Rule(Word::Clash(4, 2)),
            Line::Rule(Word::Clash(1, 5)),
            Line::Kept(case.value, Places::Two(0, 3)),
        ],
    )
}

// [c; L; not x'] and [c; x; not L].
fn case_halves(
    draft: &mut Draft,
    case: Case,
    other: TermId,
    step: usize,
) -> Result<Halves, AllocError>
    requires case { IsCase draft.old case }
    requires formula { sort_of (tree_at draft.old.trees case.whole) ≡ Sort.Formula }
    requires other { IsFormulaAt draft.old other }
    requires step { Refutes draft.old step (tree_at draft.old.trees case.part
        ∷ neg (tree_at draft.old.trees other) ∷ []) }
    ensures halves { IfOk result (λ h. HasCaseHalves draft.new case other h.there h.back) }
    ensures grows { Extends draft.old draft.new }
{
    let there = case_there(draft, case, other, step)?;
    let back = case_back(draft, case)?;
    Ok(Halves { there, back })
}

// [not (L <-> R); c; c'], from [c; L; not x'], [c; x; not L], [c'; R; not x] and [c'; x'; not R].
fn under_cases(
    draft: &mut Draft,
    left: Case,
    right: Case,
    goal: TermId,
    first: Halves,
    second: Halves,
) -> Result<usize, AllocError>
    requires left { IsCase draft.old left }
    requires right { IsCase draft.old right }
    requires formula { sort_of (tree_at draft.old.trees left.whole) ≡ Sort.Formula }
    requires sides { ArePair draft.old left.whole right.whole }
    requires goal { IsFormulaAt draft.old goal }
    requires goal_is { tree_at draft.old.trees goal ≡ neg (Two (HJoin Op.Iff)
        (tree_at draft.old.trees left.whole) (tree_at draft.old.trees right.whole)) }
    requires first { HasCaseHalves draft.old left right.part first.there first.back }
    requires second { HasCaseHalves draft.old right left.part second.there second.back }
    ensures refutes { IfOk result (λ k. Refutes draft.new k (tree_at draft.old.trees goal
        ∷ tree_at draft.old.trees left.hypothesis
        ∷ tree_at draft.old.trees right.hypothesis ∷ [])) }
    ensures grows { Extends draft.old draft.new }
{
    derive(
        draft,
        &[],
        &[goal, left.hypothesis, right.hypothesis],
        &[
            Line::Failing(Op::Iff, 0),
            Line::Cut(right.part),
            Line::Kept(second.back, Places::Three(2, 5, 4)),
            Line::Kept(first.there, Places::Three(1, 3, 5)),
            Line::Cut(left.part),
            Line::Kept(first.back, Places::Three(1, 5, 3)),
            Line::Kept(second.there, Places::Three(2, 4, 5)),
        ],
    )
}

// [not (L <-> R); c; c'], from what the two are under these, and `x <-> x'`.
fn under_formulas(
    draft: &mut Draft,
    left: Case,
    right: Case,
    goal: TermId,
    parts: Halves,
) -> Result<usize, AllocError>
    requires left { IsCase draft.old left }
    requires right { IsCase draft.old right }
    requires formula { sort_of (tree_at draft.old.trees left.whole) ≡ Sort.Formula }
    requires sides { ArePair draft.old left.whole right.whole }
    requires goal { IsFormulaAt draft.old goal }
    requires goal_is { tree_at draft.old.trees goal ≡ neg (Two (HJoin Op.Iff)
        (tree_at draft.old.trees left.whole) (tree_at draft.old.trees right.whole)) }
    requires parts { HasHalves draft.old (tree_at draft.old.trees left.part)
        (tree_at draft.old.trees right.part) parts.there parts.back }
    ensures refutes { IfOk result (λ k. Refutes draft.new k (tree_at draft.old.trees goal
        ∷ tree_at draft.old.trees left.hypothesis
        ∷ tree_at draft.old.trees right.hypothesis ∷ [])) }
    ensures grows { Extends draft.old draft.new }
{
    let first = case_halves(draft, left, right.part, parts.there)?;
    let second = case_halves(draft, right, left.part, parts.back)?;
    under_cases(draft, left, right, goal, first, second)
}

// [not (L <-> R); c; c'], from what the two are under these, and evidence for the parts.
fn formulas_under(
    draft: &mut Draft,
    left: Case,
    right: Case,
    goal: TermId,
    parts: AlikeBy,
) -> Result<usize, AllocError>
    requires left { IsCase draft.old left }
    requires right { IsCase draft.old right }
    requires formula { sort_of (tree_at draft.old.trees left.whole) ≡ Sort.Formula }
    requires sides { ArePair draft.old left.whole right.whole }
    requires goal { IsFormulaAt draft.old goal }
    requires goal_is { tree_at draft.old.trees goal ≡ neg (Two (HJoin Op.Iff)
        (tree_at draft.old.trees left.whole) (tree_at draft.old.trees right.whole)) }
    requires parts { Shows draft.old parts (tree_at draft.old.trees left.part)
        (tree_at draft.old.trees right.part) }
    ensures refutes { IfOk result (λ k. Refutes draft.new k (tree_at draft.old.trees goal
        ∷ tree_at draft.old.trees left.hypothesis
        ∷ tree_at draft.old.trees right.hypothesis ∷ [])) }
    ensures grows { Extends draft.old draft.new }
{
    let halves = make_halves(draft, left.part, right.part, parts)?;
    under_formulas(draft, left, right, goal, halves)
}

// [not (L ~ R); c; c'], from what the two are under these, and `x ~ x'`.
fn under(
    draft: &mut Draft,
    left: Case,
    right: Case,
    goal: TermId,
    parts: AlikeBy,
) -> Result<usize, AllocError>
    requires left { IsCase draft.old left }
    requires right { IsCase draft.old right }
    requires sides { ArePair draft.old left.whole right.whole }
    requires goal { IsFormulaAt draft.old goal }
    requires goal_is { tree_at draft.old.trees goal ≡ neg (alike
        (tree_at draft.old.trees left.whole) (tree_at draft.old.trees right.whole)) }
    requires parts { Shows draft.old parts (tree_at draft.old.trees left.part)
        (tree_at draft.old.trees right.part) }
    ensures refutes { IfOk result (λ k. Refutes draft.new k (tree_at draft.old.trees goal
        ∷ tree_at draft.old.trees left.hypothesis
        ∷ tree_at draft.old.trees right.hypothesis ∷ [])) }
    ensures grows { Extends draft.old draft.new }
{
    match draft.store().sort(left.whole) {
        Sort::Term => {
            let lemma = equal_step(draft, left.part, right.part, parts)?;
            under_terms(draft, left, right, goal, lemma)
        }
        _ => { formulas_under(draft, left, right, goal, parts) }
    }
}

// [goal], from steps for it under both conditions and under both negations, where the conditions are equivalent.
fn by_conditions(
    draft: &mut Draft,
    goal: TermId,
    left: TermId,
    right: TermId,
    conditions: Halves,
    yes: usize,
    no: usize,
) -> Result<usize, AllocError>
    requires goal { IsFormulaAt draft.old goal }
    requires left { IsFormulaAt draft.old left }
    requires right { IsFormulaAt draft.old right }
    requires conditions { HasHalves draft.old (tree_at draft.old.trees left)
        (tree_at draft.old.trees right) conditions.there conditions.back }
    requires yes { Refutes draft.old yes (tree_at draft.old.trees goal
        ∷ tree_at draft.old.trees left ∷ tree_at draft.old.trees right ∷ []) }
    requires no { Refutes draft.old no (tree_at draft.old.trees goal
        ∷ neg (tree_at draft.old.trees left) ∷ neg (tree_at draft.old.trees right) ∷ []) }
    ensures refutes { IfOk result (λ k. Refutes draft.new k (tree_at draft.old.trees goal ∷ [])) }
    ensures grows { Extends draft.old draft.new }
{
    derive(
        draft,
        &[],
        &[goal],
        &[
            Line::Cut(left),
            Line::Cut(right),
            Line::Kept(yes, Places::Three(0, 1, 2)),
            Line::Kept(conditions.there, Places::Two(1, 2)),
            Line::Cut(right),
            Line::Kept(conditions.back, Places::Two(2, 1)),
            Line::Kept(no, Places::Three(0, 1, 2)),
        ],
    )
}

// [not (L ~ R); c; c'].
fn under_conditions(
    draft: &mut Draft,
    left: Conditional,
    left_values: CaseValues,
    right: Conditional,
    right_values: CaseValues,
    goal: TermId,
    links: CaseLinks,
) -> Result<usize, AllocError>
    requires left { IsConditional draft.old left }
    requires right { IsConditional draft.old right }
    requires sides { ArePair draft.old left.whole right.whole }
    requires left_values { HasValues draft.old left left_values }
    requires right_values { HasValues draft.old right right_values }
    requires goal { IsFormulaAt draft.old goal }
    requires goal_is { tree_at draft.old.trees goal ≡ neg (alike
        (tree_at draft.old.trees left.whole) (tree_at draft.old.trees right.whole)) }
    requires links { AreLinked draft.old left right links }
    ensures refutes { IfOk result (λ k. Refutes draft.new k (tree_at draft.old.trees goal
        ∷ tree_at draft.old.trees left.condition ∷ tree_at draft.old.trees right.condition ∷ [])) }
    ensures grows { Extends draft.old draft.new }
{
    let one = Case {
        whole: left.whole,
        hypothesis: left.condition,
        part: left.then_part,
        value: left_values.then_value,
    };
    let other = Case {
        whole: right.whole,
        hypothesis: right.condition,
        part: right.then_part,
        value: right_values.then_value,
    };
    under(draft, one, other, goal, links.then_part)
}

// [not (L ~ R); not c; not c'].
fn under_negations(
    draft: &mut Draft,
    left: Conditional,
    left_values: CaseValues,
    right: Conditional,
    right_values: CaseValues,
    goal: TermId,
    links: CaseLinks,
) -> Result<usize, AllocError>
    requires left { IsConditional draft.old left }
    requires right { IsConditional draft.old right }
    requires sides { ArePair draft.old left.whole right.whole }
    requires left_values { HasValues draft.old left left_values }
    requires right_values { HasValues draft.old right right_values }
    requires goal { IsFormulaAt draft.old goal }
    requires goal_is { tree_at draft.old.trees goal ≡ neg (alike
        (tree_at draft.old.trees left.whole) (tree_at draft.old.trees right.whole)) }
    requires links { AreLinked draft.old left right links }
    ensures refutes { IfOk result (λ k. Refutes draft.new k (tree_at draft.old.trees goal
        ∷ neg (tree_at draft.old.trees left.condition)
        ∷ neg (tree_at draft.old.trees right.condition) ∷ [])) }
    ensures grows { Extends draft.old draft.new }
{
    let no_left = negation(draft, left.condition)?;
    let no_right = negation(draft, right.condition)?;
    let one = Case {
        whole: left.whole,
        hypothesis: no_left,
        part: left.else_part,
        value: left_values.else_value,
    };
    let other = Case {
        whole: right.whole,
        hypothesis: no_right,
        part: right.else_part,
        value: right_values.else_value,
    };
    under(draft, one, other, goal, links.else_part)
}

// [not (L ~ R)].
fn decided(
    draft: &mut Draft,
    left: Conditional,
    left_values: CaseValues,
    right: Conditional,
    right_values: CaseValues,
    goal: TermId,
    links: CaseLinks,
) -> Result<usize, AllocError>
    requires left { IsConditional draft.old left }
    requires right { IsConditional draft.old right }
    requires sides { ArePair draft.old left.whole right.whole }
    requires left_values { HasValues draft.old left left_values }
    requires right_values { HasValues draft.old right right_values }
    requires goal { IsFormulaAt draft.old goal }
    requires goal_is { tree_at draft.old.trees goal ≡ neg (alike
        (tree_at draft.old.trees left.whole) (tree_at draft.old.trees right.whole)) }
    requires links { AreLinked draft.old left right links }
    ensures refutes { IfOk result (λ k. Refutes draft.new k (tree_at draft.old.trees goal ∷ [])) }
    ensures grows { Extends draft.old draft.new }
{
    let yes = under_conditions(draft, left, left_values, right, right_values, goal, links)?;
    let no = under_negations(draft, left, left_values, right, right_values, goal, links)?;
    let halves = make_halves(draft, left.condition, right.condition, links.condition)?;
    by_conditions(
        draft,
        goal,
        left.condition,
        right.condition,
        halves,
        yes,
        no,
    )
}

/// Two conditionals whose conditions are equivalent and whose parts are alike, from what each is under its condition.
pub fn alike_cases(
    draft: &mut Draft,
    left: Conditional,
    left_values: CaseValues,
    right: Conditional,
    right_values: CaseValues,
    links: CaseLinks,
) -> Result<AlikeBy, AllocError>
    requires left { IsConditional draft.old left }
    requires right { IsConditional draft.old right }
    requires sides { ArePair draft.old left.whole right.whole }
    requires left_values { HasValues draft.old left left_values }
    requires right_values { HasValues draft.old right right_values }
    requires links { AreLinked draft.old left right links }
    ensures shows { IfOk result (λ w. Shows draft.new w (tree_at draft.old.trees left.whole)
        (tree_at draft.old.trees right.whole)) }
    ensures grows { Extends draft.old draft.new }
{
    let goal = denial(draft, left.whole, right.whole)?;
    let step = decided(draft, left, left_values, right, right_values, goal, links)?;
    alike_by_step(draft, left.whole, right.whole, step)
}

/// Two `if`s whose conditions are equivalent and whose parts are alike.
pub fn alike_ifs(
    draft: &mut Draft,
    left: Conditional,
    right: Conditional,
    links: CaseLinks,
) -> Result<AlikeBy, AllocError>
    requires left { IsConditional draft.old left }
    requires right { IsConditional draft.old right }
    requires sides { ArePair draft.old left.whole right.whole }
    requires left_is { IsIfAt draft.old left }
    requires right_is { IsIfAt draft.old right }
    requires links { AreLinked draft.old left right links }
    ensures shows { IfOk result (λ w. Shows draft.new w (tree_at draft.old.trees left.whole)
        (tree_at draft.old.trees right.whole)) }
    ensures grows { Extends draft.old draft.new }
{
    let one = if_values(draft, left)?;
    let two = if_values(draft, right)?;
    alike_cases(draft, left, one, right, two, links)
}

/// Two `match`es with more branches than one, where the tests of their first patterns are equivalent, the first bodies are alike at
/// the patterns' terms, and so are the `match`es with the other branches.
pub fn alike_matches(
    draft: &mut Draft,
    left: Conditional,
    right: Conditional,
    links: CaseLinks,
) -> Result<AlikeBy, AllocError>
    requires left { IsConditional draft.old left }
    requires right { IsConditional draft.old right }
    requires sides { ArePair draft.old left.whole right.whole }
    requires left_is { IsMatchAt draft.old left }
    requires right_is { IsMatchAt draft.old right }
    requires links { AreLinked draft.old left right links }
    ensures shows { IfOk result (λ w. Shows draft.new w (tree_at draft.old.trees left.whole)
        (tree_at draft.old.trees right.whole)) }
    ensures grows { Extends draft.old draft.new }
{
    let one = match_values(draft, left)?;
    let two = match_values(draft, right)?;
    alike_cases(draft, left, one, right, two, links)
}

// [not (E ~ a)], where E is a `match` with one branch, and `a` its body at the pattern's terms.
fn unfold_branch(draft: &mut Draft, whole: TermId, inner: TermId) -> Result<usize, AllocError>
    requires pair { ArePair draft.old whole inner }
    requires is { IsLastBranch draft.old.task (tree_at draft.old.trees whole)
        (tree_at draft.old.trees inner) }
    ensures refutes { IfOk result (λ n. Refutes draft.new n
        (neg (alike (tree_at draft.old.trees whole) (tree_at draft.old.trees inner)) ∷ [])) }
    ensures grows { Extends draft.old draft.new }
{
    let goal = denial(draft, whole, inner)?;
    derive(
        draft,
        &[],
        &[goal],
        &[Line::Branch(whole, inner), Line::Rule(Word::Clash(1, 0))],
    )
}

/// A `match` with one branch is alike its body at the pattern's terms.
pub fn alike_branch(draft: &mut Draft, whole: TermId, inner: TermId) -> Result<AlikeBy, AllocError>
    requires pair { ArePair draft.old whole inner }
    requires is { IsLastBranch draft.old.task (tree_at draft.old.trees whole)
        (tree_at draft.old.trees inner) }
    ensures shows { IfOk result (λ a. Shows draft.new a (tree_at draft.old.trees whole)
        (tree_at draft.old.trees inner)) }
    ensures grows { Extends draft.old draft.new }
{
    let step = unfold_branch(draft, whole, inner)?;
    alike_by_step(draft, whole, inner, step)
}
