// One term in the place of another: the template lemma, for terms and for formulas, and links of terms.
ghost use Rattle.std.specs.Prelude.{◌≡◌, [], ◌∷◌, Some, IfOk};
ghost use Rattle.trees.specs.Tree.{Tree};
ghost use Rattle.trees.specs.Node.{tree_at, Holds};
ghost use Rattle.trees.specs.Binding.{inst, Bound};
ghost use Rattle.trees.specs.Sorts.{sort_of, type_of};
ghost use Rattle.tasks.specs.Task.{neg};
ghost use Rattle.rules.specs.Forms.{equal};
ghost use Rattle.evidence.specs.Drafts.{Extends, AddsTrees, Refutes, IsFormulaAt};
ghost use Rattle.congruence.specs.Alike.{HasHalves, Shows, ArePair, IsClosedAt, HoleAt, TemplateFor};
ghost use Rattle.congruence.specs.EqualTerms.{AreEqual};

use crate::alike::{
    AlikeBy, Halves, by_replacing, chain_formulas, equation, irreflexive, type_of_term,
};
use evidence::proof_scripts::{Line, Places, Word, derive};
use evidence::{Draft, negation};
use std::alloc::AllocError;
use tasks::Grow;
use trees::{Node, Sort, TermId};

/// Two terms, and a step that shows them equal.
#[derive(Clone, Copy)]
pub(crate) struct EqualTerms {
    a: TermId,
    b: TermId,
    step: usize,
}

// The negated equation of a tree with a hole and a closed term.
pub(crate) fn template_left(
    draft: &mut Draft,
    hole: TermId,
    left: TermId,
    middle: TermId,
    right: TermId,
    a: TermId,
    b: TermId,
) -> Result<TermId, AllocError>
    requires pair { ArePair draft.old a b }
    requires term { sort_of (tree_at draft.old.trees a) ≡ Sort.Term }
    requires hole { HoleAt draft.old hole left middle a b }
    requires sides { ArePair draft.old left right }
    requires middle_held { Holds draft.old.trees middle }
    requires left_term { sort_of (tree_at draft.old.trees left) ≡ Sort.Term }
    ensures held { IfOk result (Holds draft.new.trees) }
    ensures template { IfOk result (λ id. TemplateFor draft.new.task
        (tree_at draft.new.trees a) (tree_at draft.new.trees id)) }
    ensures before { IfOk result (λ id. neg (equal (tree_at draft.new.trees left)
        (tree_at draft.new.trees right)) ≡ inst (tree_at draft.new.trees id)
        (tree_at draft.new.trees a)) }
    ensures after { IfOk result (λ id. neg (equal (tree_at draft.new.trees middle)
        (tree_at draft.new.trees right)) ≡ inst (tree_at draft.new.trees id)
        (tree_at draft.new.trees b)) }
    ensures grows { AddsTrees draft.old draft.new }
{
    let _ = left;
    let _ = middle;
    let _ = a;
    let _ = b;
    let open = draft.add(Node::Eq(hole, right))?;
    let template = draft.add(Node::Not(open))?;
    Ok(template)
}

// The negated equation of two terms.
pub(crate) fn apart(draft: &mut Draft, l: TermId, r: TermId) -> Result<TermId, AllocError>
    requires pair { ArePair draft.old l r }
    requires term { sort_of (tree_at draft.old.trees l) ≡ Sort.Term }
    ensures formula { IfOk result (IsFormulaAt draft.new) }
    ensures tree { IfOk result (λ id. tree_at draft.new.trees id
        ≡ neg (equal (tree_at draft.new.trees l) (tree_at draft.new.trees r))) }
    ensures grows { AddsTrees draft.old draft.new }
{
    let link = equation(draft, l, r)?;
    negation(draft, link)
}

// [not (left = right)], from `a = b`, of which `left` and `middle` are instances of one tree, and a step for `middle`.
fn by_hole(
    draft: &mut Draft,
    hole: TermId,
    left: TermId,
    middle: TermId,
    right: TermId,
    terms: EqualTerms,
    step: usize,
) -> Result<usize, AllocError>
    requires terms { AreEqual draft.old terms }
    requires hole { HoleAt draft.old hole left middle terms.a terms.b }
    requires sides { ArePair draft.old left right }
    requires after { ArePair draft.old middle right }
    requires left_term { sort_of (tree_at draft.old.trees left) ≡ Sort.Term }
    requires middle_term { sort_of (tree_at draft.old.trees middle) ≡ Sort.Term }
    requires step { Refutes draft.old step
        (neg (equal (tree_at draft.old.trees middle) (tree_at draft.old.trees right)) ∷ []) }
    ensures refutes { IfOk result (λ k. Refutes draft.new k
        (neg (equal (tree_at draft.old.trees left) (tree_at draft.old.trees right)) ∷ [])) }
    ensures grows { Extends draft.old draft.new }
{
    let goal = apart(draft, left, right)?;
    let template = template_left(draft, hole, left, middle, right, terms.a, terms.b)?;
    by_replacing(draft, goal, template, terms.a, terms.b, terms.step, step)
}

/// [not (l = r)], from `l = m` and `m = r`.
pub(crate) fn chain_terms(
    draft: &mut Draft,
    l: TermId,
    m: TermId,
    r: TermId,
    first: usize,
    second: usize,
) -> Result<usize, AllocError>
    requires left { ArePair draft.old l m }
    requires right { ArePair draft.old m r }
    requires term { sort_of (tree_at draft.old.trees l) ≡ Sort.Term }
    requires first { Refutes draft.old first
        (neg (equal (tree_at draft.old.trees l) (tree_at draft.old.trees m)) ∷ []) }
    requires second { Refutes draft.old second
        (neg (equal (tree_at draft.old.trees m) (tree_at draft.old.trees r)) ∷ []) }
    ensures refutes { IfOk result (λ k. Refutes draft.new k
        (neg (equal (tree_at draft.old.trees l) (tree_at draft.old.trees r)) ∷ [])) }
    ensures grows { Extends draft.old draft.new }
{
    let hole = open_hole(draft, l, m)?;
    let terms = EqualTerms {
        a: l,
        b: m,
        step: first,
    };
    by_hole(draft, hole, l, m, r, terms, second)
}

/// The variable 0 at the type of two terms.
pub fn open_hole(draft: &mut Draft, l: TermId, r: TermId) -> Result<TermId, AllocError>
    requires pair { ArePair draft.old l r }
    requires term { sort_of (tree_at draft.old.trees l) ≡ Sort.Term }
    ensures hole { IfOk result (λ id. HoleAt draft.new id l r l r) }
    ensures tree { IfOk result (λ id. (ty : Tree) → type_of (tree_at draft.old.trees l) ≡ Some ty
        → tree_at draft.new.trees id ≡ Bound 0 ty) }
    ensures grows { AddsTrees draft.old draft.new }
{
    let _ = r;
    let _task = draft.task();
    let ty = type_of_term(draft, l);
    let hole = draft.add(Node::Bound(0, ty))?;
    Ok(hole)
}

/// [not (left = right)], where the two are instances of one tree at terms that are equal.
fn replaced_terms(
    draft: &mut Draft,
    hole: TermId,
    left: TermId,
    right: TermId,
    terms: EqualTerms,
) -> Result<usize, AllocError>
    requires terms { AreEqual draft.old terms }
    requires hole { HoleAt draft.old hole left right terms.a terms.b }
    requires sides { ArePair draft.old left right }
    requires left_term { sort_of (tree_at draft.old.trees left) ≡ Sort.Term }
    ensures refutes { IfOk result (λ k. Refutes draft.new k
        (neg (equal (tree_at draft.old.trees left) (tree_at draft.old.trees right)) ∷ [])) }
    ensures grows { Extends draft.old draft.new }
{
    let same = apart(draft, right, right)?;
    let step = irreflexive(draft, same)?;
    by_hole(draft, hole, left, right, right, terms, step)
}

// [left; not right], where the two are instances of one formula at terms that are equal.
fn replaced_there(
    draft: &mut Draft,
    hole: TermId,
    left: TermId,
    right: TermId,
    terms: EqualTerms,
) -> Result<usize, AllocError>
    requires terms { AreEqual draft.old terms }
    requires hole { HoleAt draft.old hole left right terms.a terms.b }
    requires template { TemplateFor draft.old.task (tree_at draft.old.trees terms.a)
        (tree_at draft.old.trees hole) }
    requires left { IsFormulaAt draft.old left }
    requires right { IsFormulaAt draft.old right }
    ensures refutes { IfOk result (λ k. Refutes draft.new k
        (tree_at draft.old.trees left ∷ neg (tree_at draft.old.trees right) ∷ [])) }
    ensures grows { Extends draft.old draft.new }
{
    let negated = negation(draft, right)?;
    let link = equation(draft, terms.a, terms.b)?;
    derive(
        draft,
        &[],
        &[left, negated],
        &[
            Line::Cut(link),
            Line::Rule(Word::Replace(2, 0, hole)),
            Line::Rule(Word::Clash(3, 1)),
            Line::Kept(terms.step, Places::One(2)),
        ],
    )
}

// [right; not left], likewise.
fn replaced_back(
    draft: &mut Draft,
    hole: TermId,
    template: TermId,
    left: TermId,
    right: TermId,
    no_left: TermId,
    terms: EqualTerms,
) -> Result<usize, AllocError>
    requires terms { AreEqual draft.old terms }
    requires hole { HoleAt draft.old hole left right terms.a terms.b }
    requires template_held { Holds draft.old.trees template }
    requires template { TemplateFor draft.old.task (tree_at draft.old.trees terms.a)
        (tree_at draft.old.trees template) }
    requires template_is { tree_at draft.old.trees template ≡ neg (tree_at draft.old.trees hole) }
    requires left { IsFormulaAt draft.old left }
    requires right { IsFormulaAt draft.old right }
    requires no_left { IsFormulaAt draft.old no_left }
    requires no_left_is { tree_at draft.old.trees no_left ≡ neg (tree_at draft.old.trees left) }
    ensures refutes { IfOk result (λ k. Refutes draft.new k
        (tree_at draft.old.trees right ∷ tree_at draft.old.trees no_left ∷ [])) }
    ensures grows { Extends draft.old draft.new }
{
    let _ = hole;
    let _ = left;
    let link = equation(draft, terms.a, terms.b)?;
    derive(
        draft,
        &[],
        &[right, no_left],
        &[
            Line::Cut(link),
            Line::Rule(Word::Replace(2, 1, template)),
            Line::Rule(Word::Clash(0, 3)),
            Line::Kept(terms.step, Places::One(2)),
        ],
    )
}

// The same, with what it takes.
fn replaced_home(
    draft: &mut Draft,
    hole: TermId,
    left: TermId,
    right: TermId,
    terms: EqualTerms,
) -> Result<usize, AllocError>
    requires terms { AreEqual draft.old terms }
    requires hole { HoleAt draft.old hole left right terms.a terms.b }
    requires left { IsFormulaAt draft.old left }
    requires right { IsFormulaAt draft.old right }
    ensures refutes { IfOk result (λ k. Refutes draft.new k
        (tree_at draft.old.trees right ∷ neg (tree_at draft.old.trees left) ∷ [])) }
    ensures grows { Extends draft.old draft.new }
{
    let no_left = negation(draft, left)?;
    let template = not_hole(draft, hole, left, right, terms.a, terms.b)?;
    replaced_back(draft, hole, template, left, right, no_left, terms)
}

// The negation of a formula with a hole.
fn not_hole(
    draft: &mut Draft,
    hole: TermId,
    left: TermId,
    right: TermId,
    a: TermId,
    b: TermId,
) -> Result<TermId, AllocError>
    requires a_held { Holds draft.old.trees a }
    requires hole { HoleAt draft.old hole left right a b }
    requires left { IsFormulaAt draft.old left }
    ensures held { IfOk result (Holds draft.new.trees) }
    ensures is { IfOk result (λ id. tree_at draft.new.trees id
        ≡ neg (tree_at draft.new.trees hole)) }
    ensures template { IfOk result (λ id. TemplateFor draft.new.task
        (tree_at draft.new.trees a) (tree_at draft.new.trees id)) }
    ensures grows { AddsTrees draft.old draft.new }
{
    let _ = left;
    let _ = right;
    let _ = a;
    let _ = b;
    let template = draft.add(Node::Not(hole))?;
    Ok(template)
}

// The halves of two formulas that are instances of one at terms that are equal.
fn replaced_halves(
    draft: &mut Draft,
    hole: TermId,
    left: TermId,
    right: TermId,
    terms: EqualTerms,
) -> Result<Halves, AllocError>
    requires terms { AreEqual draft.old terms }
    requires hole { HoleAt draft.old hole left right terms.a terms.b }
    requires left { IsFormulaAt draft.old left }
    requires right { IsFormulaAt draft.old right }
    ensures halves { IfOk result (λ h. HasHalves draft.new (tree_at draft.old.trees left)
        (tree_at draft.old.trees right) h.there h.back) }
    ensures grows { Extends draft.old draft.new }
{
    let there = replaced_there(draft, hole, left, right, terms)?;
    let back = replaced_home(draft, hole, left, right, terms)?;
    Ok(Halves { there, back })
}

/// Two instances of one tree at terms that are alike.
pub fn alike_replaced(
    draft: &mut Draft,
    hole: TermId,
    left: TermId,
    right: TermId,
    a: TermId,
    b: TermId,
    alike: AlikeBy,
) -> Result<AlikeBy, AllocError>
    requires pair { ArePair draft.old a b }
    requires term { sort_of (tree_at draft.old.trees a) ≡ Sort.Term }
    requires hole { HoleAt draft.old hole left right a b }
    requires sides { ArePair draft.old left right }
    requires shows { Shows draft.old alike (tree_at draft.old.trees a) (tree_at draft.old.trees b) }
    ensures shows { IfOk result (λ w. Shows draft.new w (tree_at draft.old.trees left)
        (tree_at draft.old.trees right)) }
    ensures grows { Extends draft.old draft.new }
{
    match alike {
        AlikeBy::Same => Ok(AlikeBy::Same),
        AlikeBy::Formulas(_, _) => unreachable!(),
        AlikeBy::Terms(step) => {
            let terms = EqualTerms { a, b, step };
            alike_at_hole(draft, hole, left, right, terms)
        }
    }
}

// The same, by a step that shows the terms equal.
fn alike_at_hole(
    draft: &mut Draft,
    hole: TermId,
    left: TermId,
    right: TermId,
    terms: EqualTerms,
) -> Result<AlikeBy, AllocError>
    requires terms { AreEqual draft.old terms }
    requires hole { HoleAt draft.old hole left right terms.a terms.b }
    requires sides { ArePair draft.old left right }
    ensures shows { IfOk result (λ w. Shows draft.new w (tree_at draft.old.trees left)
        (tree_at draft.old.trees right)) }
    ensures grows { Extends draft.old draft.new }
{
    match draft.store().sort(left) {
        Sort::Term => {
            let step = replaced_terms(draft, hole, left, right, terms)?;
            Ok(AlikeBy::Terms(step))
        }
        _ => {
            let made = replaced_halves(draft, hole, left, right, terms)?;
            Ok(AlikeBy::Formulas(made.there, made.back))
        }
    }
}

// The negated equation of a term and a hole at the type of another one.
fn template_right(
    draft: &mut Draft,
    hole: TermId,
    l: TermId,
    r: TermId,
) -> Result<TermId, AllocError>
    requires pair { ArePair draft.old l r }
    requires term { sort_of (tree_at draft.old.trees l) ≡ Sort.Term }
    requires hole { HoleAt draft.old hole l r l r }
    ensures held { IfOk result (Holds draft.new.trees) }
    ensures is { IfOk result (λ id. tree_at draft.new.trees id ≡ neg (equal
        (tree_at draft.new.trees r) (tree_at draft.new.trees hole))) }
    ensures hole { HoleAt draft.new hole l r l r }
    ensures grows { AddsTrees draft.old draft.new }
{
    let _ = l;
    let open = draft.add(Node::Eq(r, hole))?;
    let template = draft.add(Node::Not(open))?;
    Ok(template)
}

/// [not (r = l)], from `l = r`.
pub(crate) fn flip_terms(
    draft: &mut Draft,
    l: TermId,
    r: TermId,
    lemma: usize,
) -> Result<usize, AllocError>
    requires pair { ArePair draft.old l r }
    requires term { sort_of (tree_at draft.old.trees l) ≡ Sort.Term }
    requires lemma { Refutes draft.old lemma
        (neg (equal (tree_at draft.old.trees l) (tree_at draft.old.trees r)) ∷ []) }
    ensures refutes { IfOk result (λ k. Refutes draft.new k
        (neg (equal (tree_at draft.old.trees r) (tree_at draft.old.trees l)) ∷ [])) }
    ensures grows { Extends draft.old draft.new }
{
    let goal = apart(draft, r, l)?;
    let same = apart(draft, r, r)?;
    let step = irreflexive(draft, same)?;
    turn(draft, l, r, goal, lemma, step)
}

// The same, from a step for `r = r`.
fn turn(
    draft: &mut Draft,
    l: TermId,
    r: TermId,
    goal: TermId,
    lemma: usize,
    step: usize,
) -> Result<usize, AllocError>
    requires pair { ArePair draft.old l r }
    requires term { sort_of (tree_at draft.old.trees l) ≡ Sort.Term }
    requires goal { IsFormulaAt draft.old goal }
    requires goal_is { tree_at draft.old.trees goal ≡ neg (equal (tree_at draft.old.trees r)
        (tree_at draft.old.trees l)) }
    requires lemma { Refutes draft.old lemma
        (neg (equal (tree_at draft.old.trees l) (tree_at draft.old.trees r)) ∷ []) }
    requires step { Refutes draft.old step
        (neg (equal (tree_at draft.old.trees r) (tree_at draft.old.trees r)) ∷ []) }
    ensures refutes { IfOk result (λ k. Refutes draft.new k
        (tree_at draft.old.trees goal ∷ [])) }
    ensures grows { Extends draft.old draft.new }
{
    let hole = open_hole(draft, l, r)?;
    let template = template_right(draft, hole, l, r)?;
    by_replacing(draft, goal, template, l, r, lemma, step)
}

/// The evidence turned round.
pub fn flip(draft: &mut Draft, l: TermId, r: TermId, alike: AlikeBy) -> Result<AlikeBy, AllocError>
    requires pair { ArePair draft.old l r }
    requires shows { Shows draft.old alike (tree_at draft.old.trees l) (tree_at draft.old.trees r) }
    ensures shows { IfOk result (λ a. Shows draft.new a (tree_at draft.old.trees r)
        (tree_at draft.old.trees l)) }
    ensures grows { Extends draft.old draft.new }
{
    match alike {
        AlikeBy::Same => Ok(AlikeBy::Same),
        AlikeBy::Terms(lemma) => {
            let step = flip_terms(draft, l, r, lemma)?;
            Ok(AlikeBy::Terms(step))
        }
        AlikeBy::Formulas(there, back) => Ok(AlikeBy::Formulas(back, there)),
    }
}

/// Evidence through a middle.
pub fn chain(
    draft: &mut Draft,
    l: TermId,
    m: TermId,
    r: TermId,
    first: AlikeBy,
    second: AlikeBy,
) -> Result<AlikeBy, AllocError>
    requires left { ArePair draft.old l m }
    requires right { ArePair draft.old m r }
    requires first { Shows draft.old first (tree_at draft.old.trees l) (tree_at draft.old.trees m) }
    requires second { Shows draft.old second (tree_at draft.old.trees m)
        (tree_at draft.old.trees r) }
    ensures shows { IfOk result (λ a. Shows draft.new a (tree_at draft.old.trees l)
        (tree_at draft.old.trees r)) }
    ensures grows { Extends draft.old draft.new }
{
    match first {
        AlikeBy::Same => Ok(second),
        AlikeBy::Terms(one) => match second {
            AlikeBy::Same => Ok(first),
            AlikeBy::Terms(two) => {
                let step = chain_terms(draft, l, m, r, one, two)?;
                Ok(AlikeBy::Terms(step))
            }
            AlikeBy::Formulas(_, _) => unreachable!(),
        },
        AlikeBy::Formulas(_, _) => chain_formulas(draft, l, m, r, first, second),
    }
}
