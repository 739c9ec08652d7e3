// A closed `match` of a constructor's application, branch after branch.
ghost use Rattle.std.specs.Prelude.{◌≡◌, ℕ, ◌==◌, [], ◌∷◌, IfOk};
ghost use Rattle.trees.specs.Tree.{Tree, Leaf, Two, Three, HCase, HEnd, HFun, HPatCon};
ghost use Rattle.trees.specs.Node.{tree_at, Holds};
ghost use Rattle.tasks.specs.Task.{neg};
ghost use Rattle.congruence.specs.kernel.rules.Forms.{alike};
ghost use Rattle.evidence.specs.Drafts.{Extends, AddsTrees, Refutes, IsFormulaAt};
ghost use Rattle.congruence.specs.Alike.{ArePair, Shows};
ghost use Rattle.congruence.specs.Conditionals.{IsConditional, IsMatchAt};
ghost use Rattle.tr_recursion.specs.constructor_matches.Asked.{IsFirstOpened, IsOwnApplication, IsHere, AreOtherConstructors};
ghost use Rattle.tr_recursion.specs.branch_instances.Chosen.{IsChosen, IsChosenOf};

use crate::constructor_matches::branches::{
    FirstBranch, OpenedBranch, ask_pattern, first_branch, open_branch,
};
use crate::constructor_matches::fields::{application_parts, list_terms, own_fields, right_side};
use crate::constructor_matches::replacing::{Around, replace_fields};
use congruence::{
    AlikeBy, Conditional, Replaced, alike_branch, alike_by_step, cells_of, chain, flip,
    match_values, step_of_alike,
};
use evidence::proof_scripts::{Line, Places, Word, derive};
use evidence::{Draft, negation};
use std::alloc::AllocError;
use tasks::Grow;
use trees::{Node, Op, Sort, TermId};

// That a term equals another, or that a formula is equivalent to another.
fn claim(draft: &mut Draft, l: TermId, r: TermId) -> Result<TermId, AllocError>
    requires pair { ArePair draft.old l r }
    ensures formula { IfOk result (IsFormulaAt draft.new) }
    ensures tree { IfOk result (λ id. tree_at draft.new.trees id
        ≡ alike (tree_at draft.old.trees l) (tree_at draft.old.trees r)) }
    ensures grows { AddsTrees draft.old draft.new }
{
    match draft.store().sort(l) {
        Sort::Term => draft.add(Node::Eq(l, r)),
        _ => draft.add(Node::Join(Op::Iff, l, r)),
    }
}

// The negation of that.
fn denial(draft: &mut Draft, l: TermId, r: TermId) -> Result<TermId, AllocError>
    requires pair { ArePair draft.old l r }
    ensures formula { IfOk result (IsFormulaAt draft.new) }
    ensures tree { IfOk result (λ id. tree_at draft.new.trees id
        ≡ neg (alike (tree_at draft.old.trees l) (tree_at draft.old.trees r))) }
    ensures grows { AddsTrees draft.old draft.new }
{
    let claimed = claim(draft, l, r)?;
    let made = negation(draft, claimed)?;
    Ok(made)
}

// A term or formula is alike another by a step for this under a hypothesis, and a step that refutes the hypothesis's negation.
fn alike_under(
    draft: &mut Draft,
    whole: TermId,
    part: TermId,
    hypothesis: TermId,
    value: usize,
    lemma: usize,
) -> Result<AlikeBy, AllocError>
    requires pair { ArePair draft.old whole part }
    requires hypothesis { IsFormulaAt draft.old hypothesis }
    requires value { Refutes draft.old value (tree_at draft.old.trees hypothesis
        ∷ neg (alike (tree_at draft.old.trees whole) (tree_at draft.old.trees part)) ∷ []) }
    requires lemma { Refutes draft.old lemma (neg (tree_at draft.old.trees hypothesis) ∷ []) }
    ensures shows { IfOk result (λ a. Shows draft.new a (tree_at draft.old.trees whole)
        (tree_at draft.old.trees part)) }
    ensures grows { Extends draft.old draft.new }
{
    let goal = denial(draft, whole, part)?;
    let step = derive(
        draft,
        &[],
        &[goal],
        &[
            Line::Cut(hypothesis),
            Line::Kept(value, Places::Two(1, 0)),
            Line::Kept(lemma, Places::One(1)),
        ],
    )?;
    let made = alike_by_step(draft, whole, part, step)?;
    Ok(made)
}

// A `match` is alike the one with the branches after the first, which is on another constructor.
fn alike_rest(draft: &mut Draft, k: Conditional, else_value: usize) -> Result<AlikeBy, AllocError>
    requires parts { IsConditional draft.old k }
    requires value { Refutes draft.old else_value (neg (tree_at draft.old.trees k.condition)
        ∷ neg (alike (tree_at draft.old.trees k.whole) (tree_at draft.old.trees k.else_part))
        ∷ []) }
    requires other { AreOtherConstructors draft.old.task (tree_at draft.old.trees k.condition) }
    ensures shows { IfOk result (λ a. Shows draft.new a (tree_at draft.old.trees k.whole)
        (tree_at draft.old.trees k.else_part)) }
    ensures grows { Extends draft.old draft.new }
{
    let no_test = negation(draft, k.condition)?;
    let denied = negation(draft, no_test)?;
    let lemma = derive(
        draft,
        &[],
        &[denied],
        &[Line::Rule(Word::NotNot(0)), Line::Rule(Word::Distinct(1))],
    )?;
    let made = alike_under(draft, k.whole, k.else_part, no_test, else_value, lemma)?;
    Ok(made)
}

// A constructor on the projections of an application of it, with the arguments in their places.
fn replace_built(
    draft: &mut Draft,
    built: TermId,
    scrutinee: TermId,
) -> Result<Replaced, AllocError>
    requires rebuilt { IsOwnApplication draft.old built scrutinee }
    ensures pair { IfOk result (λ m. ArePair draft.new built m.right) }
    ensures right_is { IfOk result (λ m. tree_at draft.new.trees m.right
        ≡ tree_at draft.old.trees scrutinee) }
    ensures shows { IfOk result (λ m. Shows draft.new m.alike (tree_at draft.old.trees built)
        (tree_at draft.new.trees m.right)) }
    ensures grows { Extends draft.old draft.new }
{
    let made = application_parts(draft, built);
    let own = application_parts(draft, scrutinee);
    let terms = list_terms(draft, made.args)?;
    let fields = list_terms(draft, own.args)?;
    let around = Around::Application(made.function, made.types, made.ty);
    let mut before = Vec::new(draft.allocator());
    let replaced = replace_fields(draft, around, &mut before, built, &terms, &fields)?;
    Ok(replaced)
}

// The test of a pattern of the constructor holds: a step that refutes its negation.
fn test_step(
    draft: &mut Draft,
    whole: TermId,
    scrutinee: TermId,
    first: FirstBranch,
    opened: OpenedBranch,
    right: TermId,
) -> Result<usize, AllocError>
    requires opened { IsFirstOpened draft.old whole scrutinee first opened }
    requires here { IsHere draft.old scrutinee first (tree_at draft.old.trees right) }
    ensures refutes { IfOk result (λ n. Refutes draft.new n
        (neg (tree_at draft.old.trees opened.test) ∷ [])) }
    ensures grows { Extends draft.old draft.new }
{
    let _ = whole;
    let _ = right;
    let _ = first;
    let _task = draft.task();
    let built = right_side(draft, opened.test);
    let replaced = replace_built(draft, built, scrutinee)?;
    let back = flip(draft, built, replaced.right, replaced.alike)?;
    let step = step_of_alike(draft, replaced.right, built, back)?;
    Ok(step)
}

// The body of a branch on the constructor, at the terms for its pattern's variables, is alike the body at the fields.
fn alike_fields(
    draft: &mut Draft,
    whole: TermId,
    scrutinee: TermId,
    first: FirstBranch,
    opened: OpenedBranch,
    right: TermId,
) -> Result<AlikeBy, AllocError>
    requires right_held { Holds draft.old.trees right }
    requires opened { IsFirstOpened draft.old whole scrutinee first opened }
    requires here { IsHere draft.old scrutinee first (tree_at draft.old.trees right) }
    ensures shows { IfOk result (λ a. Shows draft.new a (tree_at draft.old.trees opened.inner)
        (tree_at draft.old.trees right)) }
    ensures grows { Extends draft.old draft.new }
{
    let _ = whole;
    let _ = right;
    let _task = draft.task();
    let asked = ask_pattern(draft, first.pattern, scrutinee)?;
    let fields = own_fields(draft, first.pattern, scrutinee)?;
    let around = Around::Open(first.body);
    let mut before = Vec::new(draft.allocator());
    let inner = opened.inner;
    let made = replace_fields(draft, around, &mut before, inner, &asked.terms, &fields)?;
    Ok(made.alike)
}

// A `match` whose last branch is on the constructor.
fn alike_last(
    draft: &mut Draft,
    whole: TermId,
    scrutinee: TermId,
    first: FirstBranch,
    opened: OpenedBranch,
    right: TermId,
) -> Result<AlikeBy, AllocError>
    requires pair { ArePair draft.old whole right }
    requires opened { IsFirstOpened draft.old whole scrutinee first opened }
    requires here { IsHere draft.old scrutinee first (tree_at draft.old.trees right) }
    requires last { tree_at draft.old.trees first.others ≡ Leaf HEnd }
    ensures shows { IfOk result (λ a. Shows draft.new a (tree_at draft.old.trees whole)
        (tree_at draft.old.trees right)) }
    ensures grows { Extends draft.old draft.new }
{
    let one = alike_branch(draft, whole, opened.inner)?;
    let two = alike_fields(draft, whole, scrutinee, first, opened, right)?;
    let made = chain(draft, whole, opened.inner, right, one, two)?;
    Ok(made)
}

// A `match` whose first branch is on the constructor, where there are others.
fn alike_first(
    draft: &mut Draft,
    whole: TermId,
    scrutinee: TermId,
    first: FirstBranch,
    opened: OpenedBranch,
    then_value: usize,
    right: TermId,
) -> Result<AlikeBy, AllocError>
    requires pair { ArePair draft.old whole right }
    requires opened { IsFirstOpened draft.old whole scrutinee first opened }
    requires here { IsHere draft.old scrutinee first (tree_at draft.old.trees right) }
    requires value { Refutes draft.old then_value (tree_at draft.old.trees opened.test
        ∷ neg (alike (tree_at draft.old.trees whole) (tree_at draft.old.trees opened.inner))
        ∷ []) }
    ensures shows { IfOk result (λ a. Shows draft.new a (tree_at draft.old.trees whole)
        (tree_at draft.old.trees right)) }
    ensures grows { Extends draft.old draft.new }
{
    let lemma = test_step(draft, whole, scrutinee, first, opened, right)?;
    let one = alike_under(draft, whole, opened.inner, opened.test, then_value, lemma)?;
    let two = alike_fields(draft, whole, scrutinee, first, opened, right)?;
    let made = chain(draft, whole, opened.inner, right, one, two)?;
    Ok(made)
}

// Whether the pattern of a branch is of the constructor of an application.
fn is_on(draft: &Draft, scrutinee: TermId, first: FirstBranch) -> bool
    requires held { Holds draft.now.trees scrutinee }
    requires pattern_held { Holds draft.now.trees first.pattern }
    ensures { (f k : ℕ) (xs args ty ys fields type : Tree)
        → tree_at draft.now.trees scrutinee ≡ Three (HFun f) xs args ty
        → tree_at draft.now.trees first.pattern ≡ Three (HPatCon k) ys fields type
        → result ≡ (f == k) }
{
    match draft.store().node(scrutinee) {
        Node::Fun(function, _, _, _) => match draft.store().node(first.pattern) {
            Node::PatCon(constructor, _, _, _) => function == constructor,
            _ => false,
        },
        _ => false,
    }
}

// A closed `match` of a constructor's application is alike the chosen branch's body, branch after branch. For `match S x with Z -> a
// | S y -> b end` and the body `b` at `x`: the whole is alike `if is_Z (S x) then a else match S x with S y -> b end`, whose test is
// refuted, as the constructors differ; the `match` with the other branches, which are fewer, is alike the body.
fn alike_branches(
    draft: &mut Draft,
    whole: TermId,
    scrutinee: TermId,
    arms: TermId,
    right: TermId,
) -> Result<AlikeBy, AllocError>
    requires pair { ArePair draft.old whole right }
    requires scrutinee_held { Holds draft.old.trees scrutinee }
    requires arms_held { Holds draft.old.trees arms }
    requires is { tree_at draft.old.trees whole
        ≡ Two HCase (tree_at draft.old.trees scrutinee) (tree_at draft.old.trees arms) }
    requires chosen { IsChosen (tree_at draft.old.trees scrutinee) (tree_at draft.old.trees arms)
        (tree_at draft.old.trees right) }
    ensures shows { IfOk result (λ a. Shows draft.new a (tree_at draft.old.trees whole)
        (tree_at draft.old.trees right)) }
    ensures grows { Extends draft.old draft.new }
{
    let _task = draft.task();
    let first = first_branch(draft, arms);
    let opened = open_branch(draft, whole, scrutinee, first)?;
    match cells_of(draft, first.others) {
        None => {
            let last = alike_last(draft, whole, scrutinee, first, opened, right)?;
            Ok(last)
        }
        Some(_) => {
            let rest = draft.add(Node::Case(scrutinee, first.others))?;
            let k = Conditional {
                whole,
                condition: opened.test,
                then_part: opened.inner,
                else_part: rest,
            };
            let values = match_values(draft, k)?;
            if is_on(draft, scrutinee, first) {
                let then_value = values.then_value;
                let own = alike_first(draft, whole, scrutinee, first, opened, then_value, right)?;
                Ok(own)
            } else {
                let one = alike_rest(draft, k, values.else_value)?;
                let two = alike_branches(draft, rest, scrutinee, first.others, right)?;
                let joined = chain(draft, whole, rest, right, one, two)?;
                Ok(joined)
            }
        }
    }
}

/// A closed `match` of a constructor's application, by branches on constructors, is alike the body of the constructor's branch, with
/// the application's arguments in the place of the pattern's variables. Only want of memory refuses.
pub fn alike_chosen(draft: &mut Draft, whole: TermId, right: TermId) -> Result<AlikeBy, AllocError>
    requires pair { ArePair draft.old whole right }
    requires chosen { IsChosenOf (tree_at draft.old.trees whole) (tree_at draft.old.trees right) }
    ensures shows { IfOk result (λ a. Shows draft.new a (tree_at draft.old.trees whole)
        (tree_at draft.old.trees right)) }
    ensures grows { Extends draft.old draft.new }
{
    match draft.store().node(whole) {
        Node::Case(scrutinee, arms) => {
            let made = alike_branches(draft, whole, scrutinee, arms, right)?;
            Ok(made)
        }
        _ => unreachable!(),
    }
}
