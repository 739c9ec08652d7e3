// Quantified formulas at environments: instances, and the links of their bodies at a new parameter.
ghost use Rattle.std.specs.Prelude.{◌≡◌, ◌≤◌, ◌+◌, [], ◌∷◌, ◌++◌, List, All, IfOk};
ghost use Rattle.trees.specs.Tree.{Tree, Two, above_params};
ghost use Rattle.trees.specs.Node.{tree_at, trees_at, Holds};
ghost use Rattle.trees.specs.Binding.{inst, inst_many, Param};
ghost use Rattle.trees.specs.Sorts.{WellSorted, sort_of};
ghost use Rattle.tasks.specs.Task.{neg};
ghost use Rattle.tasks.specs.Vocabulary.{of_task};
ghost use Rattle.congruence.specs.tasks.typed_trees.instances.Instances.{AreFor};
ghost use Rattle.evidence.specs.Drafts.{Extends, AddsTrees, Refutes, IsFormulaAt};
ghost use Rattle.congruence.specs.Alike.{HasHalves, IsClosedAt, ArePair, Shows};
ghost use Rattle.walking.specs.Places.{IsInstanceAt, IsLinkOf};
ghost use Rattle.congruence.specs.Quantifiers.{quantifier_head};

use crate::linked::Linked;
use congruence::{alike_quantified, instance, parameter};
use evidence::Draft;
use std::alloc::AllocError;
use tasks::Grow;
use trees::binders::inst_many;
use trees::{Node, Sort, TermId};

/// The instance of an open tree at an environment.
pub(crate) fn instance_at(
    draft: &mut Draft,
    env: &[TermId],
    e: TermId,
) -> Result<TermId, AllocError>
    requires held { Holds draft.old.trees e }
    requires sorted { WellSorted (tree_at draft.old.trees e) }
    requires env_held { All (Holds draft.old.trees) env.now }
    requires terms { (types : List Tree) × AreFor (of_task draft.old.task) types
        (trees_at draft.old.trees env.now) }
    ensures held { IfOk result (Holds draft.new.trees) }
    ensures tree { IfOk result (λ id. tree_at draft.new.trees id ≡ inst_many
        (tree_at draft.old.trees e) (trees_at draft.old.trees env.now)) }
    ensures grows { AddsTrees draft.old draft.new }
{
    let alloc = draft.allocator();
    inst_many(alloc, draft, e, env)
}

/// A quantified formula.
fn quantified(
    draft: &mut Draft,
    universal: bool,
    ty: TermId,
    body: TermId,
) -> Result<TermId, AllocError>
    requires ty_held { Holds draft.old.trees ty }
    requires body_held { Holds draft.old.trees body }
    requires kind { sort_of (tree_at draft.old.trees ty) ≡ Sort.Kind }
    requires formula { sort_of (tree_at draft.old.trees body) ≡ Sort.Formula }
    ensures held { IfOk result (Holds draft.new.trees) }
    ensures tree { IfOk result (λ id. tree_at draft.new.trees id ≡ Two (quantifier_head universal)
        (tree_at draft.old.trees ty) (tree_at draft.old.trees body)) }
    ensures sorted { IfOk result (λ id. WellSorted (tree_at draft.new.trees id)) }
    ensures grows { AddsTrees draft.old draft.new }
{
    if universal {
        draft.add(Node::Forall(ty, body))
    } else {
        draft.add(Node::Exists(ty, body))
    }
}

/// What a quantified formula is over.
pub(crate) fn under_quantified(draft: &Draft, universal: bool, id: TermId) -> TermId
    requires held { Holds draft.now.trees id }
    requires is { (ty : Tree) × ((x : Tree) × (tree_at draft.now.trees id
        ≡ Two (quantifier_head universal) ty x)) }
    ensures held { Holds draft.now.trees result }
    ensures tree { (ty x : Tree) → tree_at draft.now.trees id ≡ Two (quantifier_head universal) ty x
        → tree_at draft.now.trees id ≡ Two (quantifier_head universal) ty
        (tree_at draft.now.trees result) }
{
    if universal {
        match draft.store().node(id) {
            Node::Forall(_, body) => body,
            _ => unreachable!(),
        }
    } else {
        match draft.store().node(id) {
            Node::Exists(_, body) => body,
            _ => unreachable!(),
        }
    }
}

/// A quantified formula over an image, its instance, and what that is over.
#[derive(Clone, Copy)]
struct Placed {
    image: TermId,
    right: TermId,
    under: TermId,
}

// The trees of a quantified formula over a link of its body at a new parameter.
fn quantified_trees(
    draft: &mut Draft,
    env: &[TermId],
    universal: bool,
    e: TermId,
    left: TermId,
    ty: TermId,
    body: TermId,
    number: usize,
    term: TermId,
    inner: TermId,
    part: Linked,
) -> Result<Placed, AllocError>
    requires place { IsInstanceAt draft.old env.now e left number }
    requires e_is { tree_at draft.old.trees e ≡ Two (quantifier_head universal)
        (tree_at draft.old.trees ty) (tree_at draft.old.trees body) }
    requires ty_held { Holds draft.old.trees ty }
    requires term_is { tree_at draft.old.trees term ≡ Param number (tree_at draft.old.trees ty) }
    requires inner { IsFormulaAt draft.old inner }
    requires part { IsLinkOf draft.old (env.now ++ term ∷ []) inner (number + 1)
        (tree_at draft.old.trees part.image) part }
    ensures place { IfOk result (λ m. IsInstanceAt draft.new env.now m.image m.right number) }
    ensures image { IfOk result (λ m. tree_at draft.new.trees m.image
        ≡ Two (quantifier_head universal) (tree_at draft.old.trees ty)
        (tree_at draft.old.trees part.image)) }
    ensures right { IfOk result (λ m. tree_at draft.new.trees m.right
        ≡ Two (quantifier_head universal) (tree_at draft.old.trees ty)
        (tree_at draft.new.trees m.under)) }
    ensures under_held { IfOk result (λ m. Holds draft.new.trees m.under) }
    ensures at { IfOk result (λ m. tree_at draft.old.trees part.right
        ≡ inst (tree_at draft.new.trees m.under) (Param number (tree_at draft.old.trees ty))) }
    ensures grows { AddsTrees draft.old draft.new }
{
    let _ = e;
    let _ = left;
    let _ = body;
    let _ = number;
    let _ = term;
    let _ = inner;
    let image = quantified(draft, universal, ty, part.image)?;
    let right = instance_at(draft, env, image)?;
    let under = under_quantified(draft, universal, right);
    Ok(Placed {
        image,
        right,
        under,
    })
}

/// A quantified formula over a link of its body at a new parameter.
pub(crate) fn link_quantified(
    draft: &mut Draft,
    env: &[TermId],
    universal: bool,
    e: TermId,
    left: TermId,
    ty: TermId,
    body: TermId,
    under: TermId,
    number: usize,
    term: TermId,
    inner: TermId,
    part: Linked,
) -> Result<Linked, AllocError>
    requires place { IsInstanceAt draft.old env.now e left number }
    requires e_is { tree_at draft.old.trees e ≡ Two (quantifier_head universal)
        (tree_at draft.old.trees ty) (tree_at draft.old.trees body) }
    requires left_is { tree_at draft.old.trees left ≡ Two (quantifier_head universal)
        (tree_at draft.old.trees ty) (tree_at draft.old.trees under) }
    requires ty_held { Holds draft.old.trees ty }
    requires under_held { Holds draft.old.trees under }
    requires term { IsClosedAt draft.old term }
    requires term_is { tree_at draft.old.trees term ≡ Param number (tree_at draft.old.trees ty) }
    requires inner { IsFormulaAt draft.old inner }
    requires inner_is { tree_at draft.old.trees inner ≡ inst (tree_at draft.old.trees under)
        (Param number (tree_at draft.old.trees ty)) }
    requires part { IsLinkOf draft.old (env.now ++ term ∷ []) inner (number + 1)
        (tree_at draft.old.trees part.image) part }
    ensures link { IfOk result (IsLinkOf draft.new env.now left number
        (Two (quantifier_head universal) (tree_at draft.old.trees ty)
        (tree_at draft.old.trees part.image))) }
    ensures grows { Extends draft.old draft.new }
{
    let m = quantified_trees(
        draft, env, universal, e, left, ty, body, number, term, inner, part,
    )?;
    let alike = alike_quantified(
        draft, universal, left, m.right, ty, under, m.under, number, term, inner, part.right,
        part.alike,
    )?;
    Ok(Linked {
        image: m.image,
        right: m.right,
        alike,
    })
}

/// What a quantified formula is over_images, and that at a new parameter.
#[derive(Clone, Copy)]
pub(crate) struct Opened {
    pub under: TermId,
    pub term: TermId,
    pub inner: TermId,
}

/// The body of a quantified formula at a new parameter, with the open body at the environment that has it.
pub(crate) fn open_quantified(
    draft: &mut Draft,
    env: &[TermId],
    universal: bool,
    e: TermId,
    left: TermId,
    ty: TermId,
    body: TermId,
    fresh: usize,
) -> Result<Opened, AllocError>
    requires place { IsInstanceAt draft.old env.now e left fresh }
    requires ty_held { Holds draft.old.trees ty }
    requires body_held { Holds draft.old.trees body }
    requires e_is { tree_at draft.old.trees e ≡ Two (quantifier_head universal)
        (tree_at draft.old.trees ty) (tree_at draft.old.trees body) }
    ensures under_held { IfOk result (λ o. Holds draft.new.trees o.under) }
    ensures left_is { IfOk result (λ o. tree_at draft.new.trees left
        ≡ Two (quantifier_head universal) (tree_at draft.new.trees ty)
        (tree_at draft.new.trees o.under)) }
    ensures term { IfOk result (λ o. IsClosedAt draft.new o.term) }
    ensures term_is { IfOk result (λ o. tree_at draft.new.trees o.term
        ≡ Param fresh (tree_at draft.new.trees ty)) }
    ensures inner { IfOk result (λ o. IsFormulaAt draft.new o.inner) }
    ensures inner_is { IfOk result (λ o. tree_at draft.new.trees o.inner
        ≡ inst (tree_at draft.new.trees o.under) (Param fresh (tree_at draft.new.trees ty))) }
    ensures place { IfOk result (λ o. IsInstanceAt draft.new (env.now ++ o.term ∷ []) body o.inner
        (fresh + 1)) }
    ensures grows { AddsTrees draft.old draft.new }
{
    let _ = env;
    let _ = e;
    let _ = body;
    let under = under_quantified(draft, universal, left);
    let term = parameter(draft, fresh, ty)?;
    let alloc = draft.allocator();
    let inner = instance(alloc, draft, under, term)?;
    Ok(Opened { under, term, inner })
}
