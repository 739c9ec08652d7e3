// `let`s at environments: the body at the value's image, and the link of a `let` over those of its value and body.
ghost use Rattle.std.specs.Prelude.{◌≡◌, ◌∷◌, ◌++◌, [], IfOk};
ghost use Rattle.trees.specs.Tree.{Tree, Two, HLet};
ghost use Rattle.trees.specs.Node.{tree_at, Holds};
ghost use Rattle.trees.specs.Binding.{inst};
ghost use Rattle.trees.specs.Sorts.{sort_of};
ghost use Rattle.evidence.specs.Drafts.{Extends, AddsTrees};
ghost use Rattle.congruence.specs.Alike.{IsClosedAt, ArePair, Shows};
ghost use Rattle.walking.specs.Places.{IsInstanceAt, IsLinkOf};

use crate::linked::Linked;
use crate::quantified::instance_at;
use congruence::{AlikeBy, alike_let, alike_value, chain, flip, instance};
use evidence::Draft;
use std::alloc::AllocError;
use tasks::Grow;
use trees::{Node, Sort, TermId};

/// The value and the body of a `let`.
#[derive(Clone, Copy)]
pub(crate) struct LetParts {
    pub value: TermId,
    pub body: TermId,
}

/// The value and the body of a `let`.
pub(crate) fn let_parts(draft: &Draft, id: TermId) -> LetParts
    requires held { Holds draft.now.trees id }
    requires let_node { (x : Tree) × ((y : Tree) × (tree_at draft.now.trees id ≡ Two HLet x y)) }
    ensures value_held { Holds draft.now.trees result.value }
    ensures body_held { Holds draft.now.trees result.body }
    ensures tree { tree_at draft.now.trees id ≡ Two HLet (tree_at draft.now.trees result.value)
        (tree_at draft.now.trees result.body) }
{
    match draft.store().node(id) {
        Node::Let(value, body) => LetParts { value, body },
        _ => unreachable!(),
    }
}

/// A `let` with another value, and its body at this value.
#[derive(Clone, Copy)]
struct LetTrees {
    middle: TermId,
    inner: TermId,
}

// A `let` with another value of the same type, and its body at this value.
#[tactic(auto, using(evidence::specs::Laws::AddsTrees_trans))]
fn let_trees(
    draft: &mut Draft,
    left: TermId,
    value: TermId,
    body: TermId,
    other: TermId,
) -> Result<LetTrees, AllocError>
    requires left { IsClosedAt draft.old left }
    requires left_is { tree_at draft.old.trees left
        ≡ Two HLet (tree_at draft.old.trees value) (tree_at draft.old.trees body) }
    requires body_held { Holds draft.old.trees body }
    requires pair { ArePair draft.old value other }
    requires term { sort_of (tree_at draft.old.trees value) ≡ Sort.Term }
    ensures sides { IfOk result (λ m. ArePair draft.new left m.middle) }
    ensures middle_is { IfOk result (λ m. tree_at draft.new.trees m.middle
        ≡ Two HLet (tree_at draft.new.trees other) (tree_at draft.new.trees body)) }
    ensures pair { IfOk result (λ m. ArePair draft.new m.middle m.inner) }
    ensures inner_is { IfOk result (λ m. tree_at draft.new.trees m.inner
        ≡ inst (tree_at draft.new.trees body) (tree_at draft.new.trees other)) }
    ensures grows { AddsTrees draft.old draft.new }
{
    let _ = left;
    let _ = value;
    let middle = draft.add(Node::Let(other, body))?;
    let alloc = draft.allocator();
    let inner = instance(alloc, draft, body, other)?;
    Ok(LetTrees { middle, inner })
}

/// The body of a `let` at another value, and evidence that the `let` is alike it.
#[derive(Clone, Copy)]
pub(crate) struct OpenedLet {
    pub inner: TermId,
    pub alike: AlikeBy,
}

/// The body of a `let` at a term that is alike its value.
pub(crate) fn open_let(
    draft: &mut Draft,
    left: TermId,
    value: TermId,
    body: TermId,
    other: TermId,
    alike: AlikeBy,
) -> Result<OpenedLet, AllocError>
    requires left { IsClosedAt draft.old left }
    requires left_is { tree_at draft.old.trees left
        ≡ Two HLet (tree_at draft.old.trees value) (tree_at draft.old.trees body) }
    requires body_held { Holds draft.old.trees body }
    requires pair { ArePair draft.old value other }
    requires term { sort_of (tree_at draft.old.trees value) ≡ Sort.Term }
    requires shows { Shows draft.old alike (tree_at draft.old.trees value)
        (tree_at draft.old.trees other) }
    ensures pair { IfOk result (λ o. ArePair draft.new left o.inner) }
    ensures inner_is { IfOk result (λ o. tree_at draft.new.trees o.inner
        ≡ inst (tree_at draft.old.trees body) (tree_at draft.old.trees other)) }
    ensures shows { IfOk result (λ o. Shows draft.new o.alike (tree_at draft.old.trees left)
        (tree_at draft.new.trees o.inner)) }
    ensures grows { Extends draft.old draft.new }
{
    let m = let_trees(draft, left, value, body, other)?;
    let first = alike_value(draft, left, m.middle, value, other, body, alike)?;
    let second = alike_let(draft, m.middle, m.inner, other, body)?;
    let made = chain(draft, left, m.middle, m.inner, first, second)?;
    Ok(OpenedLet {
        inner: m.inner,
        alike: made,
    })
}

/// A `let` over images, its instance, and the body of that.
#[derive(Clone, Copy)]
struct LetPlaced {
    image: TermId,
    right: TermId,
    under: TermId,
}

// The trees of a `let` over links of its value and body.
#[tactic(auto, using(evidence::specs::Laws::AddsTrees_trans))]
fn let_places(
    draft: &mut Draft,
    env: &[TermId],
    value: TermId,
    one: Linked,
    inner: TermId,
    part: Linked,
    fresh: usize,
) -> Result<LetPlaced, AllocError>
    requires one { IsLinkOf draft.old env.now value fresh (tree_at draft.old.trees one.image) one }
    requires term { sort_of (tree_at draft.old.trees value) ≡ Sort.Term }
    requires part { IsLinkOf draft.old (env.now ++ one.right ∷ []) inner fresh
        (tree_at draft.old.trees part.image) part }
    ensures place { IfOk result (λ m. IsInstanceAt draft.new env.now m.image m.right fresh) }
    ensures image { IfOk result (λ m. tree_at draft.new.trees m.image
        ≡ Two HLet (tree_at draft.old.trees one.image) (tree_at draft.old.trees part.image)) }
    ensures right { IfOk result (λ m. tree_at draft.new.trees m.right
        ≡ Two HLet (tree_at draft.new.trees one.right) (tree_at draft.new.trees m.under)) }
    ensures under_held { IfOk result (λ m. Holds draft.new.trees m.under) }
    ensures at { IfOk result (λ m. tree_at draft.new.trees part.right
        ≡ inst (tree_at draft.new.trees m.under) (tree_at draft.new.trees one.right)) }
    ensures pair { IfOk result (λ m. ArePair draft.new m.right part.right) }
    ensures grows { AddsTrees draft.old draft.new }
{
    let _ = value;
    let _ = inner;
    let _ = fresh;
    let image = draft.add(Node::Let(one.image, part.image))?;
    let right = instance_at(draft, env, image)?;
    let parts = let_parts(draft, right);
    Ok(LetPlaced {
        image,
        right,
        under: parts.body,
    })
}

// The body of a `let` at its value is alike the `let`.
fn alike_body(
    draft: &mut Draft,
    inner: TermId,
    whole: TermId,
    value: TermId,
    body: TermId,
) -> Result<AlikeBy, AllocError>
    requires pair { ArePair draft.old whole inner }
    requires value_held { Holds draft.old.trees value }
    requires body_held { Holds draft.old.trees body }
    requires whole_is { tree_at draft.old.trees whole
        ≡ Two HLet (tree_at draft.old.trees value) (tree_at draft.old.trees body) }
    requires inner_is { tree_at draft.old.trees inner
        ≡ inst (tree_at draft.old.trees body) (tree_at draft.old.trees value) }
    ensures shows { IfOk result (λ a. Shows draft.new a (tree_at draft.new.trees inner)
        (tree_at draft.new.trees whole)) }
    ensures grows { Extends draft.old draft.new }
{
    let there = alike_let(draft, whole, inner, value, body)?;
    let made = flip(draft, whole, inner, there)?;
    Ok(made)
}

/// A `let` over links of its value and its body.
pub(crate) fn link_let(
    draft: &mut Draft,
    env: &[TermId],
    left: TermId,
    value: TermId,
    one: Linked,
    opened: OpenedLet,
    part: Linked,
    fresh: usize,
) -> Result<Linked, AllocError>
    requires pair { ArePair draft.old left opened.inner }
    requires shows { Shows draft.old opened.alike (tree_at draft.old.trees left)
        (tree_at draft.old.trees opened.inner) }
    requires value_held { Holds draft.old.trees value }
    requires one { IsLinkOf draft.old env.now value fresh (tree_at draft.old.trees one.image) one }
    requires term { sort_of (tree_at draft.old.trees value) ≡ Sort.Term }
    requires part { IsLinkOf draft.old (env.now ++ one.right ∷ []) opened.inner fresh
        (tree_at draft.old.trees part.image) part }
    ensures link { IfOk result (IsLinkOf draft.new env.now left fresh
        (Two HLet (tree_at draft.old.trees one.image) (tree_at draft.old.trees part.image))) }
    ensures grows { Extends draft.old draft.new }
{
    let there = chain(
        draft,
        left,
        opened.inner,
        part.right,
        opened.alike,
        part.alike,
    )?;
    let m = let_places(draft, env, value, one, opened.inner, part, fresh)?;
    let back = alike_body(draft, part.right, m.right, one.right, m.under)?;
    let alike = chain(draft, left, part.right, m.right, there, back)?;
    Ok(Linked {
        image: m.image,
        right: m.right,
        alike,
    })
}
