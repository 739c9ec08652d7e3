// `match`es at environments: the scrutinee's image, the first branch at the terms for its pattern's variables, and the links of
// branches.
ghost use Rattle.std.specs.Prelude.{◌≡◌, ◌<◌, ◌≤◌, ◌∷◌, ◌++◌, [], length, All, IfOk};
ghost use Rattle.trees.specs.Tree.{Tree, Leaf, Two, HCase, HCell, HArm, HEnd, above_params, head_of};
ghost use Rattle.trees.specs.Node.{tree_at, trees_at, Holds};
ghost use Rattle.trees.specs.Binding.{inst_many};
ghost use Rattle.trees.specs.Sorts.{sort_of};
ghost use Rattle.evidence.specs.Drafts.{Extends, AddsTrees};
ghost use Rattle.congruence.specs.Alike.{ArePair, Shows};
ghost use Rattle.congruence.specs.Conditionals.{IsLastBranch};
ghost use Rattle.walking.specs.Places.{types_for, IsInstanceAt, IsLinkOf};
ghost use Rattle.walking.specs.Opened.{IsOpenedBranch};
ghost use Rattle.trees.specs.binders.Visits.{HoldTerms};
ghost use Rattle.tasks.specs.MatchTests.{test, bind};
ghost use Rattle.images.specs.Open.{IsEnvironment, IsOpenUnder};
ghost use Rattle.images.specs.PatternTerms.{IsTypedPattern};

use crate::linked::Linked;
use crate::quantified::instance_at;
use congruence::{
    AlikeBy, CaseLinks, Conditional, alike_branch, alike_matches, alike_scrutinee, chain, flip,
};
use evidence::Draft;
use images::match_terms::{Asked, ask};
use std::alloc::AllocError;
use tasks::{Grow, Lookup};
use trees::binders::inst_many;
use trees::{Node, Sort, TermId};

/// The scrutinee and the branches of a `match`.
#[derive(Clone, Copy)]
pub(crate) struct CaseParts {
    pub scrutinee: TermId,
    pub arms: TermId,
}

/// The scrutinee and the branches of a `match`.
pub(crate) fn case_parts(draft: &Draft, id: TermId) -> CaseParts
    requires held { Holds draft.now.trees id }
    requires case_node { (x : Tree) × ((y : Tree) × (tree_at draft.now.trees id ≡ Two HCase x y)) }
    ensures scrutinee_held { Holds draft.now.trees result.scrutinee }
    ensures arms_held { Holds draft.now.trees result.arms }
    ensures tree { tree_at draft.now.trees id
        ≡ Two HCase (tree_at draft.now.trees result.scrutinee)
        (tree_at draft.now.trees result.arms) }
{
    match draft.store().node(id) {
        Node::Case(scrutinee, arms) => CaseParts { scrutinee, arms },
        _ => unreachable!(),
    }
}

/// The first branch of a list, and the list of the others.
#[derive(Clone, Copy)]
pub(crate) struct FirstBranch {
    pub pattern: TermId,
    pub body: TermId,
    pub others: TermId,
}

/// The first branch of a list of branches, and the list of the others.
pub(crate) fn first_branch(draft: &Draft, arms: TermId) -> FirstBranch
    requires held { Holds draft.now.trees arms }
    requires branches { (p : Tree) × ((a : Tree) × ((r : Tree)
        × (tree_at draft.now.trees arms ≡ Two HCell (Two HArm p a) r))) }
    ensures pattern_held { Holds draft.now.trees result.pattern }
    ensures body_held { Holds draft.now.trees result.body }
    ensures others_held { Holds draft.now.trees result.others }
    ensures body_below { result.body.0 < arms.0 }
    ensures others_below { result.others.0 < arms.0 }
    ensures tree { tree_at draft.now.trees arms ≡ Two HCell
        (Two HArm (tree_at draft.now.trees result.pattern) (tree_at draft.now.trees result.body))
        (tree_at draft.now.trees result.others) }
{
    match draft.store().node(arms) {
        Node::Cell(arm, others) => match draft.store().node(arm) {
            Node::Arm(pattern, body) => FirstBranch {
                pattern,
                body,
                others,
            },
            _ => unreachable!(),
        },
        _ => unreachable!(),
    }
}

/// A `match` with another scrutinee, open and at an environment.
#[derive(Clone, Copy)]
pub(crate) struct CaseTrees {
    pub e: TermId,
    pub left: TermId,
}

// A `match` with the image of its scrutinee, open and at the environment.
#[tactic(auto, using(evidence::specs::Laws::AddsTrees_trans))]
fn case_trees(
    draft: &mut Draft,
    env: &[TermId],
    e: TermId,
    left: TermId,
    open: CaseParts,
    parts: CaseParts,
    one: Linked,
    fresh: usize,
) -> Result<CaseTrees, AllocError>
    requires place { IsInstanceAt draft.old env.now e left fresh }
    requires node { tree_at draft.old.trees e
        ≡ Two HCase (tree_at draft.old.trees open.scrutinee) (tree_at draft.old.trees open.arms) }
    requires left_is { tree_at draft.old.trees left ≡ Two HCase
        (tree_at draft.old.trees parts.scrutinee) (tree_at draft.old.trees parts.arms) }
    requires open_held { Holds draft.old.trees open.scrutinee }
    requires open_arms_held { Holds draft.old.trees open.arms }
    requires arms_held { Holds draft.old.trees parts.arms }
    requires scrutinee_held { Holds draft.old.trees parts.scrutinee }
    requires one { IsLinkOf draft.old env.now parts.scrutinee fresh
        (tree_at draft.old.trees one.image) one }
    ensures place { IfOk result (λ m. IsInstanceAt draft.new env.now m.e m.left fresh) }
    ensures node { IfOk result (λ m. tree_at draft.new.trees m.e
        ≡ Two HCase (tree_at draft.new.trees one.image) (tree_at draft.new.trees open.arms)) }
    ensures left_is { IfOk result (λ m. tree_at draft.new.trees m.left
        ≡ Two HCase (tree_at draft.new.trees one.right) (tree_at draft.new.trees parts.arms)) }
    ensures pair { IfOk result (λ m. ArePair draft.new left m.left) }
    ensures grows { AddsTrees draft.old draft.new }
{
    let _ = env;
    let _ = e;
    let _ = left;
    let _ = fresh;
    let mixed = draft.add(Node::Case(one.image, open.arms))?;
    let middle = draft.add(Node::Case(one.right, parts.arms))?;
    Ok(CaseTrees {
        e: mixed,
        left: middle,
    })
}

/// A `match` with the image of its scrutinee, open and at an environment, and evidence that it is alike the `match`.
#[derive(Clone, Copy)]
pub(crate) struct MixedCase {
    pub e: TermId,
    pub left: TermId,
    pub alike: AlikeBy,
}

/// A `match` with the image of its scrutinee.
pub(crate) fn mix_case(
    draft: &mut Draft,
    env: &[TermId],
    e: TermId,
    left: TermId,
    open: CaseParts,
    parts: CaseParts,
    one: Linked,
    fresh: usize,
) -> Result<MixedCase, AllocError>
    requires place { IsInstanceAt draft.old env.now e left fresh }
    requires node { tree_at draft.old.trees e
        ≡ Two HCase (tree_at draft.old.trees open.scrutinee) (tree_at draft.old.trees open.arms) }
    requires left_is { tree_at draft.old.trees left ≡ Two HCase
        (tree_at draft.old.trees parts.scrutinee) (tree_at draft.old.trees parts.arms) }
    requires open_held { Holds draft.old.trees open.scrutinee }
    requires open_arms_held { Holds draft.old.trees open.arms }
    requires arms_held { Holds draft.old.trees parts.arms }
    requires pair { ArePair draft.old parts.scrutinee one.right }
    requires term { sort_of (tree_at draft.old.trees parts.scrutinee) ≡ Sort.Term }
    requires one { IsLinkOf draft.old env.now parts.scrutinee fresh
        (tree_at draft.old.trees one.image) one }
    ensures place { IfOk result (λ m. IsInstanceAt draft.new env.now m.e m.left fresh) }
    ensures node { IfOk result (λ m. tree_at draft.new.trees m.e
        ≡ Two HCase (tree_at draft.new.trees one.image) (tree_at draft.new.trees open.arms)) }
    ensures pair { IfOk result (λ m. ArePair draft.new left m.left) }
    ensures shows { IfOk result (λ m. Shows draft.new m.alike (tree_at draft.new.trees left)
        (tree_at draft.new.trees m.left)) }
    ensures grows { Extends draft.old draft.new }
{
    let m = case_trees(draft, env, e, left, open, parts, one, fresh)?;
    let alike = alike_scrutinee(
        draft,
        left,
        m.left,
        parts.scrutinee,
        one.right,
        parts.arms,
        one.alike,
    )?;
    Ok(MixedCase {
        e: m.e,
        left: m.left,
        alike,
    })
}

/// The test of a pattern, and the terms for its variables.
#[derive(Drop)]
struct AskedPattern {
    test: TermId,
    terms: Vec<TermId>,
}

// The test of a pattern, asked of a closed term, and the terms for the pattern's variables.
fn ask_pattern(draft: &mut Draft, pattern: TermId, term: TermId) -> Result<AskedPattern, AllocError>
    requires pattern_held { Holds draft.old.trees pattern }
    requires pattern { IsTypedPattern draft.old.task [] (tree_at draft.old.trees pattern) }
    requires term_held { Holds draft.old.trees term }
    requires term { sort_of (tree_at draft.old.trees term) ≡ Sort.Term }
    ensures test_held { IfOk result (λ a. Holds draft.new.trees a.test) }
    ensures test { IfOk result (λ a. tree_at draft.new.trees a.test ≡ test draft.old.task
        (tree_at draft.old.trees pattern) (tree_at draft.old.trees term)) }
    ensures terms_held { IfOk result (λ a. HoldTerms draft.new.trees a.terms.items) }
    ensures terms { IfOk result (λ a. trees_at draft.new.trees a.terms.items ≡ bind draft.old.task
        (tree_at draft.old.trees pattern) (tree_at draft.old.trees term)) }
    ensures grows { AddsTrees draft.old draft.new }
{
    let task = draft.task().clone()?;
    let look = Lookup::without_index(&task);
    let alloc = draft.allocator();
    let asked = ask(alloc, draft, look, pattern, term)?;
    let Asked {
        tests: _,
        test,
        terms,
    } = asked;
    Ok(AskedPattern { test, terms })
}

/// The first branch of a `match`, at the terms for its pattern's variables.
#[derive(Drop)]
pub(crate) struct OpenedBranch {
    pub by: TermId,
    pub under: TermId,
    pub others: TermId,
    pub test: TermId,
    pub terms: Vec<TermId>,
    pub inner: TermId,
}

/// Opens the first branch of a `match` at an environment.
pub(crate) fn open_branch(
    draft: &mut Draft,
    env: &[TermId],
    e: TermId,
    left: TermId,
    scrutinee: TermId,
    open: FirstBranch,
    fresh: usize,
) -> Result<OpenedBranch, AllocError>
    requires place { IsInstanceAt draft.old env.now e left fresh }
    requires node { tree_at draft.old.trees e ≡ Two HCase (tree_at draft.old.trees scrutinee)
        (Two HCell
        (Two HArm (tree_at draft.old.trees open.pattern) (tree_at draft.old.trees open.body))
        (tree_at draft.old.trees open.others)) }
    requires scrutinee_held { Holds draft.old.trees scrutinee }
    requires pattern_held { Holds draft.old.trees open.pattern }
    requires body_held { Holds draft.old.trees open.body }
    requires others_held { Holds draft.old.trees open.others }
    ensures opened { IfOk result
        (IsOpenedBranch draft.new env.now left open.pattern open.body fresh) }
    ensures grows { AddsTrees draft.old draft.new }
{
    let _ = env;
    let _ = e;
    let _ = scrutinee;
    let _ = fresh;
    let _task = draft.task();
    let parts = case_parts(draft, left);
    let first = first_branch(draft, parts.arms);
    let asked = ask_pattern(draft, open.pattern, parts.scrutinee)?;
    let alloc = draft.allocator();
    let inner = inst_many(alloc, draft, first.body, &asked.terms)?;
    Ok(OpenedBranch {
        by: parts.scrutinee,
        under: first.body,
        others: first.others,
        test: asked.test,
        terms: asked.terms,
        inner,
    })
}

// An open `match` of these parts, and its instance.
#[tactic(auto, using(evidence::specs::Laws::AddsTrees_trans))]
fn branch_trees(
    draft: &mut Draft,
    env: &[TermId],
    scrutinee: TermId,
    pattern: TermId,
    body: TermId,
    others: TermId,
    fresh: usize,
) -> Result<CaseTrees, AllocError>
    requires env_held { All (Holds draft.old.trees) env.now }
    requires scrutinee_held { Holds draft.old.trees scrutinee }
    requires pattern_held { Holds draft.old.trees pattern }
    requires body_held { Holds draft.old.trees body }
    requires others_held { Holds draft.old.trees others }
    requires around { IsEnvironment draft.old.task (types_for (trees_at draft.old.trees env.now))
        (trees_at draft.old.trees env.now) fresh }
    requires open { IsOpenUnder draft.old.task (types_for (trees_at draft.old.trees env.now))
        (Two HCase (tree_at draft.old.trees scrutinee) (Two HCell
        (Two HArm (tree_at draft.old.trees pattern) (tree_at draft.old.trees body))
        (tree_at draft.old.trees others))) fresh }
    requires own { above_params (Two HCase (tree_at draft.old.trees scrutinee) (Two HCell
        (Two HArm (tree_at draft.old.trees pattern) (tree_at draft.old.trees body))
        (tree_at draft.old.trees others))) ≤ length draft.old.task.params }
    requires order { length draft.old.task.params ≤ fresh }
    ensures place { IfOk result (λ m. IsInstanceAt draft.new env.now m.e m.left fresh) }
    ensures node { IfOk result (λ m. tree_at draft.new.trees m.e ≡ Two HCase
        (tree_at draft.old.trees scrutinee) (Two HCell
        (Two HArm (tree_at draft.old.trees pattern) (tree_at draft.old.trees body))
        (tree_at draft.old.trees others))) }
    ensures grows { AddsTrees draft.old draft.new }
{
    let _ = fresh;
    let arm = draft.add(Node::Arm(pattern, body))?;
    let list = draft.add(Node::Cell(arm, others))?;
    let image = draft.add(Node::Case(scrutinee, list))?;
    let right = instance_at(draft, env, image)?;
    Ok(CaseTrees {
        e: image,
        left: right,
    })
}

// The `match` with the other branches, open and at the environment.
#[tactic(auto, using(evidence::specs::Laws::AddsTrees_trans))]
pub(crate) fn rest_trees(
    draft: &mut Draft,
    env: &[TermId],
    e: TermId,
    left: TermId,
    scrutinee: TermId,
    open: FirstBranch,
    opened: &OpenedBranch,
    fresh: usize,
) -> Result<CaseTrees, AllocError>
    requires place { IsInstanceAt draft.old env.now e left fresh }
    requires node { tree_at draft.old.trees e ≡ Two HCase (tree_at draft.old.trees scrutinee)
        (Two HCell
        (Two HArm (tree_at draft.old.trees open.pattern) (tree_at draft.old.trees open.body))
        (tree_at draft.old.trees open.others)) }
    requires scrutinee_held { Holds draft.old.trees scrutinee }
    requires pattern_held { Holds draft.old.trees open.pattern }
    requires body_held { Holds draft.old.trees open.body }
    requires others_held { Holds draft.old.trees open.others }
    requires more { head_of (tree_at draft.old.trees open.others) ≡ HCell }
    requires opened { IsOpenedBranch draft.old env.now left open.pattern open.body fresh
        opened.now }
    ensures place { IfOk result (λ m. IsInstanceAt draft.new env.now m.e m.left fresh) }
    ensures node { IfOk result (λ m. tree_at draft.new.trees m.e ≡ Two HCase
        (tree_at draft.old.trees scrutinee) (tree_at draft.old.trees open.others)) }
    ensures left_is { IfOk result (λ m. tree_at draft.new.trees m.left ≡ Two HCase
        (tree_at draft.old.trees opened.now.by) (tree_at draft.old.trees opened.now.others)) }
    ensures branches { IfOk result (λ _. head_of (tree_at draft.new.trees opened.now.others)
        ≡ HCell) }
    ensures pair { IfOk result (λ m. ArePair draft.new left m.left) }
    ensures grows { AddsTrees draft.old draft.new }
{
    let _ = env;
    let _ = e;
    let _ = left;
    let _ = fresh;
    let _task = draft.task();
    let rest = draft.add(Node::Case(scrutinee, open.others))?;
    let rest_left = draft.add(Node::Case(opened.by, opened.others))?;
    Ok(CaseTrees {
        e: rest,
        left: rest_left,
    })
}

// The body of a last branch is alike the `match`.
fn alike_last(draft: &mut Draft, inner: TermId, whole: TermId) -> Result<AlikeBy, AllocError>
    requires pair { ArePair draft.old whole inner }
    requires is { IsLastBranch draft.old.task (tree_at draft.old.trees whole)
        (tree_at draft.old.trees inner) }
    ensures shows { IfOk result (λ a. Shows draft.new a (tree_at draft.new.trees inner)
        (tree_at draft.new.trees whole)) }
    ensures grows { Extends draft.old draft.new }
{
    let there = alike_branch(draft, whole, inner)?;
    let made = flip(draft, whole, inner, there)?;
    Ok(made)
}

// Two `match`es whose last branches are alike.
fn alike_lasts(
    draft: &mut Draft,
    left: TermId,
    inner: TermId,
    middle: TermId,
    right: TermId,
    by: AlikeBy,
) -> Result<AlikeBy, AllocError>
    requires left { ArePair draft.old left inner }
    requires middle { ArePair draft.old inner middle }
    requires right { ArePair draft.old right middle }
    requires left_is { IsLastBranch draft.old.task (tree_at draft.old.trees left)
        (tree_at draft.old.trees inner) }
    requires right_is { IsLastBranch draft.old.task (tree_at draft.old.trees right)
        (tree_at draft.old.trees middle) }
    requires shows { Shows draft.old by (tree_at draft.old.trees inner)
        (tree_at draft.old.trees middle) }
    ensures shows { IfOk result (λ a. Shows draft.new a (tree_at draft.old.trees left)
        (tree_at draft.old.trees right)) }
    ensures grows { Extends draft.old draft.new }
{
    let first = alike_branch(draft, left, inner)?;
    let there = chain(draft, left, inner, middle, first, by)?;
    let back = alike_last(draft, middle, right)?;
    let made = chain(draft, left, middle, right, there, back)?;
    Ok(made)
}

/// A `match` over a link of its last branch.
pub(crate) fn link_last(
    draft: &mut Draft,
    env: &[TermId],
    e: TermId,
    left: TermId,
    scrutinee: TermId,
    open: FirstBranch,
    opened: &OpenedBranch,
    part: Linked,
    fresh: usize,
) -> Result<Linked, AllocError>
    requires place { IsInstanceAt draft.old env.now e left fresh }
    requires node { tree_at draft.old.trees e ≡ Two HCase (tree_at draft.old.trees scrutinee)
        (Two HCell
        (Two HArm (tree_at draft.old.trees open.pattern) (tree_at draft.old.trees open.body))
        (tree_at draft.old.trees open.others)) }
    requires scrutinee_held { Holds draft.old.trees scrutinee }
    requires pattern_held { Holds draft.old.trees open.pattern }
    requires others_held { Holds draft.old.trees open.others }
    requires last { tree_at draft.old.trees open.others ≡ Leaf HEnd }
    requires opened { IsOpenedBranch draft.old env.now left open.pattern open.body fresh
        opened.now }
    requires part { IsLinkOf draft.old (env.now ++ opened.now.terms.items) opened.now.inner fresh
        (tree_at draft.old.trees part.image) part }
    ensures link { IfOk result (IsLinkOf draft.new env.now left fresh (Two HCase
        (tree_at draft.old.trees scrutinee) (Two HCell
        (Two HArm (tree_at draft.old.trees open.pattern) (tree_at draft.old.trees part.image))
        (tree_at draft.old.trees open.others)))) }
    ensures grows { Extends draft.old draft.new }
{
    let _ = e;
    let _task = draft.task();
    let m = branch_trees(
        draft,
        env,
        scrutinee,
        open.pattern,
        part.image,
        open.others,
        fresh,
    )?;
    let alike = alike_lasts(draft, left, opened.inner, part.right, m.left, part.alike)?;
    Ok(Linked {
        image: m.e,
        right: m.left,
        alike,
    })
}

/// A `match` over links of its first branch and of the `match` with the others.
pub(crate) fn link_more(
    draft: &mut Draft,
    env: &[TermId],
    e: TermId,
    left: TermId,
    scrutinee: TermId,
    open: FirstBranch,
    opened: &OpenedBranch,
    part: Linked,
    rest: TermId,
    more: Linked,
    fresh: usize,
) -> Result<Linked, AllocError>
    requires place { IsInstanceAt draft.old env.now e left fresh }
    requires node { tree_at draft.old.trees e ≡ Two HCase (tree_at draft.old.trees scrutinee)
        (Two HCell
        (Two HArm (tree_at draft.old.trees open.pattern) (tree_at draft.old.trees open.body))
        (tree_at draft.old.trees open.others)) }
    requires scrutinee_held { Holds draft.old.trees scrutinee }
    requires pattern_held { Holds draft.old.trees open.pattern }
    requires opened { IsOpenedBranch draft.old env.now left open.pattern open.body fresh
        opened.now }
    requires part { IsLinkOf draft.old (env.now ++ opened.now.terms.items) opened.now.inner fresh
        (tree_at draft.old.trees part.image) part }
    requires rest { ArePair draft.old left rest }
    requires rest_is { tree_at draft.old.trees rest ≡ Two HCase
        (tree_at draft.old.trees opened.now.by) (tree_at draft.old.trees opened.now.others) }
    requires branches { head_of (tree_at draft.old.trees opened.now.others) ≡ HCell }
    requires more { IsLinkOf draft.old env.now rest fresh (tree_at draft.old.trees more.image)
        more }
    requires more_is { (others : Tree) × (tree_at draft.old.trees more.image
        ≡ Two HCase (tree_at draft.old.trees scrutinee) others) }
    ensures link { IfOk result (λ m. (others : Tree) → tree_at draft.old.trees more.image
        ≡ Two HCase (tree_at draft.old.trees scrutinee) others
        → IsLinkOf draft.new env.now left fresh (Two HCase (tree_at draft.old.trees scrutinee)
        (Two HCell
        (Two HArm (tree_at draft.old.trees open.pattern) (tree_at draft.old.trees part.image))
        others)) m) }
    ensures grows { Extends draft.old draft.new }
{
    let _ = e;
    let _task = draft.task();
    let parts = case_parts(draft, more.image);
    let m = branch_trees(
        draft,
        env,
        scrutinee,
        open.pattern,
        part.image,
        parts.arms,
        fresh,
    )?;
    let from = Conditional {
        whole: left,
        condition: opened.test,
        then_part: opened.inner,
        else_part: rest,
    };
    let to = Conditional {
        whole: m.left,
        condition: opened.test,
        then_part: part.right,
        else_part: more.right,
    };
    let links = CaseLinks {
        condition: AlikeBy::Same,
        then_part: part.alike,
        else_part: more.alike,
    };
    let alike = alike_matches(draft, from, to, links)?;
    Ok(Linked {
        image: m.e,
        right: m.left,
        alike,
    })
}

/// A `match` over the link of the one with its scrutinee's image.
pub(crate) fn link_case(
    draft: &mut Draft,
    env: &[TermId],
    left: TermId,
    mixed: MixedCase,
    made: Linked,
    fresh: usize,
) -> Result<Linked, AllocError>
    requires pair { ArePair draft.old left mixed.left }
    requires shows { Shows draft.old mixed.alike (tree_at draft.old.trees left)
        (tree_at draft.old.trees mixed.left) }
    requires made { IsLinkOf draft.old env.now mixed.left fresh (tree_at draft.old.trees made.image)
        made }
    ensures link { IfOk result (IsLinkOf draft.new env.now left fresh
        (tree_at draft.old.trees made.image)) }
    ensures grows { Extends draft.old draft.new }
{
    let _ = env;
    let _ = fresh;
    let alike = chain(draft, left, mixed.left, made.right, mixed.alike, made.alike)?;
    Ok(Linked {
        image: made.image,
        right: made.right,
        alike,
    })
}
