// The walk of an open tree at an environment.
ghost use Rattle.std.specs.Prelude.{◌≡◌, ◌+◌, ◌<◌, All, IfOk};
ghost use Rattle.trees.specs.Tree.{Tree, One, Two, Three, HNot, HJoin, HEq, HLet, HIf, HCase, head_of};
ghost use Rattle.trees.specs.Node.{tree_at, trees_at, Holds};
ghost use Rattle.trees.specs.Sorts.{sort_of};
ghost use Rattle.tasks.specs.Task.{TaskTree};
ghost use Rattle.evidence.specs.Drafts.{DraftTree, Extends, IsFormulaAt};
ghost use Rattle.images.specs.Images.{image, IsOtherHead};
ghost use Rattle.congruence.specs.Alike.{IsClosedAt};
ghost use Rattle.walking.specs.Places.{IsInstanceAt, IsLinkOf, over_images};
ghost use Rattle.congruence.specs.Applications.{applied, IsSymbolHeld};
ghost use Rattle.walking.specs.Arguments.{AreInstancesAt, AreLinksOf};
ghost use Rattle.walking.specs.Remembered.{AreRememberedLinks};
ghost use Rattle.images.specs.Templates.{listed};
ghost use Rattle.congruence.specs.Quantifiers.{quantifier_head};

use crate::arguments::{link_argument, link_symbol};
use crate::ifs::{if_of, link_if};
use crate::lets::{let_parts, link_let, open_let};
use crate::linked::{Linked, LinkedArguments};
use crate::matching::{
    CaseParts, case_parts, first_branch, link_case, link_last, link_more, mix_case, open_branch,
    rest_trees,
};
use crate::quantified::{link_quantified, open_quantified};
use crate::remembered::{Links, seen_terms, term_list};
use congruence::{
    AlikeBy, SymbolAt, alike_equal, alike_join, alike_not, arguments_of, cells_of, chain,
    member_parts,
};
use evidence::{Draft, join_lists};
use indexmap::IndexMap;
use std::alloc::AllocError;
use tasks::Grow;
use trees::{Node, Op, TermId};

/// A rule for nodes, with what brings evidence of it.
pub trait Rewrite {
    /// What the rule makes of a node over images.
    ghost rule: { Self → TaskTree → Tree → Tree };

    /// What has to be so of the rule's own numbers and values.
    ghost Ready: { Self → DraftTree → Type 0 };

    ghost stays_ready: { (x : Self) (d d1 : DraftTree) → Extends d d1 → Ready x d → Ready x d1 };

    /// It leaves types, patterns, lists and branches as they are.
    ghost others: { (x : Self) (t : TaskTree) (e : Tree) → IsOtherHead (head_of e) → rule x t e ≡ e };

    /// The rule at an open node whose instance is `left`.
    fn link(
        &self,
        draft: &mut Draft,
        env: &[TermId],
        e: TermId,
        left: TermId,
        fresh: usize,
    ) -> Result<Linked, AllocError>
        requires ready { Ready self.now draft.old }
        requires place { IsInstanceAt draft.old env.now e left fresh }
        ensures link { IfOk result (IsLinkOf draft.new env.now left fresh
            (rule self.now draft.old.task (tree_at draft.old.trees e))) }
        ensures grows { Extends draft.old draft.new };
}

/// The image of an open tree, its instance, and evidence that the two instances are alike. Each different part of the tree is
/// walked once at the same terms. Only want of memory refuses.
pub fn walk<R: Rewrite>(
    rewrite: &R,
    draft: &mut Draft,
    env: &[TermId],
    e: TermId,
    left: TermId,
    fresh: usize,
) -> Result<Linked, AllocError>
    requires ready { R.Ready rewrite.now draft.old }
    requires place { IsInstanceAt draft.old env.now e left fresh }
    ensures link { IfOk result (IsLinkOf draft.new env.now left fresh
        (image (R.rule rewrite.now draft.old.task) (tree_at draft.old.trees e))) }
    ensures grows { Extends draft.old draft.new }
{
    let mut links: Links = IndexMap::new(draft.allocator());
    let made = walk_tree(rewrite, draft, &mut links, env, e, left, fresh)?;
    Ok(made)
}

// The link of an open tree at the terms that it can see, which is made once, carried to the whole environment.
#[cycle(walk)]
fn walk_tree<R: Rewrite>(
    rewrite: &R,
    draft: &mut Draft,
    links: &mut Links,
    env: &[TermId],
    e: TermId,
    left: TermId,
    fresh: usize,
) -> Result<Linked, AllocError>
    requires ready { R.Ready rewrite.now draft.old }
    requires remembered { AreRememberedLinks draft.old (R.rule rewrite.now) links.old }
    requires place { IsInstanceAt draft.old env.now e left fresh }
    ensures link { IfOk result (IsLinkOf draft.new env.now left fresh
        (image (R.rule rewrite.now draft.old.task) (tree_at draft.old.trees e))) }
    ensures remembered { IfOk result (λ _.
        AreRememberedLinks draft.new (R.rule rewrite.now) links.new) }
    ensures grows { Extends draft.old draft.new }
{
    let near = seen_terms(draft, env, e);
    let list = term_list(draft, near)?;
    if let Some(made) = links.get(&(e.0, list.0)) {
        return Ok(*made);
    }
    let made = walk_node(rewrite, draft, links, near, e, left, fresh)?;
    links.insert((e.0, list.0), made)?;
    Ok(made)
}

// The rule at a node over the images of its parts.
#[cycle(walk)]
fn walk_node<R: Rewrite>(
    rewrite: &R,
    draft: &mut Draft,
    links: &mut Links,
    env: &[TermId],
    e: TermId,
    left: TermId,
    fresh: usize,
) -> Result<Linked, AllocError>
    requires ready { R.Ready rewrite.now draft.old }
    requires remembered { AreRememberedLinks draft.old (R.rule rewrite.now) links.old }
    requires place { IsInstanceAt draft.old env.now e left fresh }
    ensures link { IfOk result (IsLinkOf draft.new env.now left fresh
        (image (R.rule rewrite.now draft.old.task) (tree_at draft.old.trees e))) }
    ensures remembered { IfOk result (λ _.
        AreRememberedLinks draft.new (R.rule rewrite.now) links.new) }
    ensures grows { Extends draft.old draft.new }
{
    let parts = walk_parts(rewrite, draft, links, env, e, left, fresh)?;
    let made = rewrite.link(draft, env, parts.image, parts.right, fresh)?;
    let alike = chain(
        draft,
        left,
        parts.right,
        made.right,
        parts.alike,
        made.alike,
    )?;
    Ok(Linked {
        image: made.image,
        right: made.right,
        alike,
    })
}

// The node over the images of its parts.
#[cycle(walk)]
fn walk_parts<R: Rewrite>(
    rewrite: &R,
    draft: &mut Draft,
    links: &mut Links,
    env: &[TermId],
    e: TermId,
    left: TermId,
    fresh: usize,
) -> Result<Linked, AllocError>
    requires ready { R.Ready rewrite.now draft.old }
    requires remembered { AreRememberedLinks draft.old (R.rule rewrite.now) links.old }
    requires place { IsInstanceAt draft.old env.now e left fresh }
    ensures link { IfOk result (IsLinkOf draft.new env.now left fresh
        (over_images (R.rule rewrite.now draft.old.task) (tree_at draft.old.trees e))) }
    ensures remembered { IfOk result (λ _.
        AreRememberedLinks draft.new (R.rule rewrite.now) links.new) }
    ensures grows { Extends draft.old draft.new }
{
    match draft.store().node(e) {
        Node::Not(a) => {
            let under = under_not(draft, left);
            let part = walk_tree(rewrite, draft, links, env, a, under, fresh)?;
            link_not(draft, env, left, under, part, fresh)
        }
        Node::Join(op, a, b) => walk_join(rewrite, draft, links, env, e, left, op, a, b, fresh),
        Node::Forall(ty, body) => {
            walk_under(rewrite, draft, links, env, e, left, true, ty, body, fresh)
        }
        Node::Exists(ty, body) => {
            walk_under(rewrite, draft, links, env, e, left, false, ty, body, fresh)
        }
        Node::Eq(a, b) => walk_equal(rewrite, draft, links, env, e, left, a, b, fresh),
        Node::Fun(f, types, arguments, ty) => {
            let symbol = SymbolAt::Function(f, types, ty);
            walk_symbol(
                rewrite, draft, links, env, e, left, symbol, arguments, fresh,
            )
        }
        Node::Pred(p, types, arguments) => {
            let symbol = SymbolAt::Predicate(p, types);
            walk_symbol(
                rewrite, draft, links, env, e, left, symbol, arguments, fresh,
            )
        }
        Node::Let(value, body) => walk_let(rewrite, draft, links, env, e, left, value, body, fresh),
        Node::If(a, b, c) => walk_if(rewrite, draft, links, env, e, left, a, b, c, fresh),
        Node::Case(scrutinee, arms) => {
            walk_case(rewrite, draft, links, env, e, left, scrutinee, arms, fresh)
        }
        Node::Bound(_, _) => Ok(Linked {
            image: e,
            right: left,
            alike: AlikeBy::Same,
        }),
        Node::Param(_, _) => Ok(Linked {
            image: e,
            right: left,
            alike: AlikeBy::Same,
        }),
        Node::Num(_) => Ok(Linked {
            image: e,
            right: left,
            alike: AlikeBy::Same,
        }),
        Node::True | Node::False => Ok(Linked {
            image: e,
            right: left,
            alike: AlikeBy::Same,
        }),
        _ => unreachable!(),
    }
}

// The connective over the images of its sides.
#[cycle(walk)]
fn walk_join<R: Rewrite>(
    rewrite: &R,
    draft: &mut Draft,
    links: &mut Links,
    env: &[TermId],
    e: TermId,
    left: TermId,
    op: Op,
    a: TermId,
    b: TermId,
    fresh: usize,
) -> Result<Linked, AllocError>
    requires ready { R.Ready rewrite.now draft.old }
    requires remembered { AreRememberedLinks draft.old (R.rule rewrite.now) links.old }
    requires place { IsInstanceAt draft.old env.now e left fresh }
    requires node { tree_at draft.old.trees e
        ≡ Two (HJoin op) (tree_at draft.old.trees a) (tree_at draft.old.trees b) }
    requires first_below { a.0 < e.0 }
    requires second_below { b.0 < e.0 }
    ensures link { IfOk result (IsLinkOf draft.new env.now left fresh
        (over_images (R.rule rewrite.now draft.old.task) (tree_at draft.old.trees e))) }
    ensures remembered { IfOk result (λ _.
        AreRememberedLinks draft.new (R.rule rewrite.now) links.new) }
    ensures grows { Extends draft.old draft.new }
{
    let sides = joined_sides(draft, left);
    let one = walk_tree(rewrite, draft, links, env, a, sides.first, fresh)?;
    let two = walk_tree(rewrite, draft, links, env, b, sides.second, fresh)?;
    link_join(
        draft,
        env,
        op,
        left,
        sides.first,
        sides.second,
        one,
        two,
        fresh,
    )
}

// The equation over the images of its sides.
#[cycle(walk)]
fn walk_equal<R: Rewrite>(
    rewrite: &R,
    draft: &mut Draft,
    links: &mut Links,
    env: &[TermId],
    e: TermId,
    left: TermId,
    a: TermId,
    b: TermId,
    fresh: usize,
) -> Result<Linked, AllocError>
    requires ready { R.Ready rewrite.now draft.old }
    requires remembered { AreRememberedLinks draft.old (R.rule rewrite.now) links.old }
    requires place { IsInstanceAt draft.old env.now e left fresh }
    requires node { tree_at draft.old.trees e
        ≡ Two HEq (tree_at draft.old.trees a) (tree_at draft.old.trees b) }
    requires first_below { a.0 < e.0 }
    requires second_below { b.0 < e.0 }
    ensures link { IfOk result (IsLinkOf draft.new env.now left fresh
        (over_images (R.rule rewrite.now draft.old.task) (tree_at draft.old.trees e))) }
    ensures remembered { IfOk result (λ _.
        AreRememberedLinks draft.new (R.rule rewrite.now) links.new) }
    ensures grows { Extends draft.old draft.new }
{
    let sides = equal_sides(draft, left);
    let one = walk_tree(rewrite, draft, links, env, a, sides.first, fresh)?;
    let two = walk_tree(rewrite, draft, links, env, b, sides.second, fresh)?;
    link_equal(draft, env, left, sides.first, sides.second, one, two, fresh)
}

// The quantifier over the image of its body.
#[cycle(walk)]
fn walk_under<R: Rewrite>(
    rewrite: &R,
    draft: &mut Draft,
    links: &mut Links,
    env: &[TermId],
    e: TermId,
    left: TermId,
    universal: bool,
    ty: TermId,
    body: TermId,
    fresh: usize,
) -> Result<Linked, AllocError>
    requires ready { R.Ready rewrite.now draft.old }
    requires remembered { AreRememberedLinks draft.old (R.rule rewrite.now) links.old }
    requires place { IsInstanceAt draft.old env.now e left fresh }
    requires ty_held { Holds draft.old.trees ty }
    requires node { tree_at draft.old.trees e ≡ Two (quantifier_head universal)
        (tree_at draft.old.trees ty) (tree_at draft.old.trees body) }
    requires below { body.0 < e.0 }
    ensures link { IfOk result (IsLinkOf draft.new env.now left fresh
        (over_images (R.rule rewrite.now draft.old.task) (tree_at draft.old.trees e))) }
    ensures remembered { IfOk result (λ _.
        AreRememberedLinks draft.new (R.rule rewrite.now) links.new) }
    ensures grows { Extends draft.old draft.new }
{
    if fresh == usize::MAX {
        return Err(AllocError);
    }
    let o = open_quantified(draft, env, universal, e, left, ty, body, fresh)?;
    let longer = join_lists(draft.allocator(), env, &[o.term])?;
    let part = walk_tree(rewrite, draft, links, &longer, body, o.inner, fresh + 1)?;
    link_quantified(
        draft, env, universal, e, left, ty, body, o.under, fresh, o.term, o.inner, part,
    )
}

// The application over the images of its arguments.
#[cycle(walk)]
fn walk_symbol<R: Rewrite>(
    rewrite: &R,
    draft: &mut Draft,
    links: &mut Links,
    env: &[TermId],
    e: TermId,
    left: TermId,
    symbol: SymbolAt,
    arguments: TermId,
    fresh: usize,
) -> Result<Linked, AllocError>
    requires ready { R.Ready rewrite.now draft.old }
    requires remembered { AreRememberedLinks draft.old (R.rule rewrite.now) links.old }
    requires place { IsInstanceAt draft.old env.now e left fresh }
    requires symbol_held { IsSymbolHeld draft.old.trees symbol }
    requires node { tree_at draft.old.trees e
        ≡ applied draft.old.trees symbol (tree_at draft.old.trees arguments) }
    requires below { arguments.0 < e.0 }
    ensures link { IfOk result (IsLinkOf draft.new env.now left fresh
        (over_images (R.rule rewrite.now draft.old.task) (tree_at draft.old.trees e))) }
    ensures remembered { IfOk result (λ _.
        AreRememberedLinks draft.new (R.rule rewrite.now) links.new) }
    ensures grows { Extends draft.old draft.new }
{
    let from = arguments_of(draft, symbol, left);
    let made = walk_arguments(
        rewrite,
        draft,
        links,
        env,
        symbol,
        &[],
        left,
        arguments,
        from,
        fresh,
    )?;
    link_symbol(draft, env, e, left, symbol, arguments, made, fresh)
}

// The images of the last arguments of an application.
#[cycle(walk)]
fn walk_arguments<R: Rewrite>(
    rewrite: &R,
    draft: &mut Draft,
    links: &mut Links,
    env: &[TermId],
    symbol: SymbolAt,
    before: &[TermId],
    left: TermId,
    list: TermId,
    from: TermId,
    fresh: usize,
) -> Result<LinkedArguments, AllocError>
    requires ready { R.Ready rewrite.now draft.old }
    requires remembered { AreRememberedLinks draft.old (R.rule rewrite.now) links.old }
    requires places { AreInstancesAt draft.old env.now list from fresh }
    requires symbol_held { IsSymbolHeld draft.old.trees symbol }
    requires before_held { All (Holds draft.old.trees) before.now }
    requires left { IsClosedAt draft.old left }
    requires left_is { tree_at draft.old.trees left ≡ applied draft.old.trees symbol
        (listed (trees_at draft.old.trees before.now) (tree_at draft.old.trees from)) }
    ensures links { IfOk result (AreLinksOf draft.new env.now symbol before.now left fresh
        (image (R.rule rewrite.now draft.old.task) (tree_at draft.old.trees list))) }
    ensures remembered { IfOk result (λ _.
        AreRememberedLinks draft.new (R.rule rewrite.now) links.new) }
    ensures grows { Extends draft.old draft.new }
{
    match cells_of(draft, list) {
        Some(open) => {
            let parts = member_parts(draft, from);
            let longer = join_lists(draft.allocator(), before, &[parts.first])?;
            let after = walk_arguments(
                rewrite,
                draft,
                links,
                env,
                symbol,
                &longer,
                left,
                open.others,
                parts.others,
                fresh,
            )?;
            let one = walk_tree(rewrite, draft, links, env, open.first, parts.first, fresh)?;
            link_argument(
                draft,
                env,
                symbol,
                before,
                left,
                parts.first,
                one,
                after,
                fresh,
            )
        }
        None => Ok(LinkedArguments {
            image: list,
            list: from,
            right: left,
            alike: AlikeBy::Same,
        }),
    }
}

// The `let` over the images of its value and body.
#[cycle(walk)]
fn walk_let<R: Rewrite>(
    rewrite: &R,
    draft: &mut Draft,
    links: &mut Links,
    env: &[TermId],
    e: TermId,
    left: TermId,
    value: TermId,
    body: TermId,
    fresh: usize,
) -> Result<Linked, AllocError>
    requires ready { R.Ready rewrite.now draft.old }
    requires remembered { AreRememberedLinks draft.old (R.rule rewrite.now) links.old }
    requires place { IsInstanceAt draft.old env.now e left fresh }
    requires node { tree_at draft.old.trees e
        ≡ Two HLet (tree_at draft.old.trees value) (tree_at draft.old.trees body) }
    requires value_below { value.0 < e.0 }
    requires body_below { body.0 < e.0 }
    ensures link { IfOk result (IsLinkOf draft.new env.now left fresh
        (over_images (R.rule rewrite.now draft.old.task) (tree_at draft.old.trees e))) }
    ensures remembered { IfOk result (λ _.
        AreRememberedLinks draft.new (R.rule rewrite.now) links.new) }
    ensures grows { Extends draft.old draft.new }
{
    let parts = let_parts(draft, left);
    let one = walk_tree(rewrite, draft, links, env, value, parts.value, fresh)?;
    let opened = open_let(draft, left, parts.value, parts.body, one.right, one.alike)?;
    let longer = join_lists(draft.allocator(), env, &[one.right])?;
    let part = walk_tree(rewrite, draft, links, &longer, body, opened.inner, fresh)?;
    link_let(draft, env, left, parts.value, one, opened, part, fresh)
}

// The `if` over the images of its condition and its parts.
#[cycle(walk)]
fn walk_if<R: Rewrite>(
    rewrite: &R,
    draft: &mut Draft,
    links: &mut Links,
    env: &[TermId],
    e: TermId,
    left: TermId,
    condition: TermId,
    then_part: TermId,
    else_part: TermId,
    fresh: usize,
) -> Result<Linked, AllocError>
    requires ready { R.Ready rewrite.now draft.old }
    requires remembered { AreRememberedLinks draft.old (R.rule rewrite.now) links.old }
    requires place { IsInstanceAt draft.old env.now e left fresh }
    requires node { tree_at draft.old.trees e ≡ Three HIf (tree_at draft.old.trees condition)
        (tree_at draft.old.trees then_part) (tree_at draft.old.trees else_part) }
    requires condition_below { condition.0 < e.0 }
    requires then_below { then_part.0 < e.0 }
    requires else_below { else_part.0 < e.0 }
    ensures link { IfOk result (IsLinkOf draft.new env.now left fresh
        (over_images (R.rule rewrite.now draft.old.task) (tree_at draft.old.trees e))) }
    ensures remembered { IfOk result (λ _.
        AreRememberedLinks draft.new (R.rule rewrite.now) links.new) }
    ensures grows { Extends draft.old draft.new }
{
    let parts = if_of(draft, left);
    let one = walk_tree(
        rewrite,
        draft,
        links,
        env,
        condition,
        parts.condition,
        fresh,
    )?;
    let two = walk_tree(
        rewrite,
        draft,
        links,
        env,
        then_part,
        parts.then_part,
        fresh,
    )?;
    let three = walk_tree(
        rewrite,
        draft,
        links,
        env,
        else_part,
        parts.else_part,
        fresh,
    )?;
    link_if(draft, env, parts, one, two, three, fresh)
}

// The `match` over the images of its scrutinee and of the bodies of its branches.
#[cycle(walk)]
fn walk_case<R: Rewrite>(
    rewrite: &R,
    draft: &mut Draft,
    links: &mut Links,
    env: &[TermId],
    e: TermId,
    left: TermId,
    scrutinee: TermId,
    arms: TermId,
    fresh: usize,
) -> Result<Linked, AllocError>
    requires ready { R.Ready rewrite.now draft.old }
    requires remembered { AreRememberedLinks draft.old (R.rule rewrite.now) links.old }
    requires place { IsInstanceAt draft.old env.now e left fresh }
    requires node { tree_at draft.old.trees e
        ≡ Two HCase (tree_at draft.old.trees scrutinee) (tree_at draft.old.trees arms) }
    requires scrutinee_below { scrutinee.0 < e.0 }
    requires arms_below { arms.0 < e.0 }
    ensures link { IfOk result (IsLinkOf draft.new env.now left fresh
        (over_images (R.rule rewrite.now draft.old.task) (tree_at draft.old.trees e))) }
    ensures remembered { IfOk result (λ _.
        AreRememberedLinks draft.new (R.rule rewrite.now) links.new) }
    ensures grows { Extends draft.old draft.new }
{
    let parts = case_parts(draft, left);
    let one = walk_tree(
        rewrite,
        draft,
        links,
        env,
        scrutinee,
        parts.scrutinee,
        fresh,
    )?;
    let open = CaseParts { scrutinee, arms };
    let m = mix_case(draft, env, e, left, open, parts, one, fresh)?;
    let made = walk_arms(
        rewrite, draft, links, env, m.e, m.left, one.image, arms, fresh,
    )?;
    link_case(draft, env, left, m, made, fresh)
}

// A `match` on an image, over the images of the bodies of its branches.
#[cycle(walk)]
fn walk_arms<R: Rewrite>(
    rewrite: &R,
    draft: &mut Draft,
    links: &mut Links,
    env: &[TermId],
    e: TermId,
    left: TermId,
    scrutinee: TermId,
    arms: TermId,
    fresh: usize,
) -> Result<Linked, AllocError>
    requires ready { R.Ready rewrite.now draft.old }
    requires remembered { AreRememberedLinks draft.old (R.rule rewrite.now) links.old }
    requires place { IsInstanceAt draft.old env.now e left fresh }
    requires node { tree_at draft.old.trees e
        ≡ Two HCase (tree_at draft.old.trees scrutinee) (tree_at draft.old.trees arms) }
    requires scrutinee_held { Holds draft.old.trees scrutinee }
    requires arms_held { Holds draft.old.trees arms }
    ensures link { IfOk result (IsLinkOf draft.new env.now left fresh
        (Two HCase (tree_at draft.old.trees scrutinee)
        (image (R.rule rewrite.now draft.old.task) (tree_at draft.old.trees arms)))) }
    ensures remembered { IfOk result (λ _.
        AreRememberedLinks draft.new (R.rule rewrite.now) links.new) }
    ensures grows { Extends draft.old draft.new }
{
    let open = first_branch(draft, arms);
    let opened = open_branch(draft, env, e, left, scrutinee, open, fresh)?;
    let longer = join_lists(draft.allocator(), env, &opened.terms)?;
    let part = walk_tree(
        rewrite,
        draft,
        links,
        &longer,
        open.body,
        opened.inner,
        fresh,
    )?;
    match cells_of(draft, open.others) {
        None => link_last(draft, env, e, left, scrutinee, open, &opened, part, fresh),
        Some(_) => {
            let rest = rest_trees(draft, env, e, left, scrutinee, open, &opened, fresh)?;
            let more = walk_arms(
                rewrite,
                draft,
                links,
                env,
                rest.e,
                rest.left,
                scrutinee,
                open.others,
                fresh,
            )?;
            link_more(
                draft, env, e, left, scrutinee, open, &opened, part, rest.left, more, fresh,
            )
        }
    }
}

// A connective over links.
fn link_join(
    draft: &mut Draft,
    env: &[TermId],
    op: Op,
    left: TermId,
    first: TermId,
    second: TermId,
    one: Linked,
    two: Linked,
    fresh: usize,
) -> Result<Linked, AllocError>
    requires left { IsFormulaAt draft.old left }
    requires first { IsClosedAt draft.old first }
    requires second { IsClosedAt draft.old second }
    requires one_right { IsClosedAt draft.old one.right }
    requires two_right { IsClosedAt draft.old two.right }
    requires left_is { tree_at draft.old.trees left
        ≡ Two (HJoin op) (tree_at draft.old.trees first) (tree_at draft.old.trees second) }
    requires one { IsLinkOf draft.old env.now first fresh (tree_at draft.old.trees one.image) one }
    requires two { IsLinkOf draft.old env.now second fresh (tree_at draft.old.trees two.image) two }
    ensures link { IfOk result (IsLinkOf draft.new env.now left fresh
        (Two (HJoin op) (tree_at draft.old.trees one.image) (tree_at draft.old.trees two.image))) }
    ensures grows { Extends draft.old draft.new }
{
    let _ = env;
    let _ = fresh;
    let image = draft.add(Node::Join(op, one.image, two.image))?;
    let right = draft.add(Node::Join(op, one.right, two.right))?;
    let alike = alike_join(
        draft, op, left, right, first, second, one.right, two.right, one.alike, two.alike,
    )?;
    Ok(Linked {
        image,
        right,
        alike,
    })
}

// An equation over links.
fn link_equal(
    draft: &mut Draft,
    env: &[TermId],
    left: TermId,
    first: TermId,
    second: TermId,
    one: Linked,
    two: Linked,
    fresh: usize,
) -> Result<Linked, AllocError>
    requires left { IsFormulaAt draft.old left }
    requires first { IsClosedAt draft.old first }
    requires second { IsClosedAt draft.old second }
    requires one_right { IsClosedAt draft.old one.right }
    requires two_right { IsClosedAt draft.old two.right }
    requires left_is { tree_at draft.old.trees left
        ≡ Two HEq (tree_at draft.old.trees first) (tree_at draft.old.trees second) }
    requires one { IsLinkOf draft.old env.now first fresh (tree_at draft.old.trees one.image) one }
    requires two { IsLinkOf draft.old env.now second fresh (tree_at draft.old.trees two.image) two }
    ensures link { IfOk result (IsLinkOf draft.new env.now left fresh
        (Two HEq (tree_at draft.old.trees one.image) (tree_at draft.old.trees two.image))) }
    ensures grows { Extends draft.old draft.new }
{
    let _ = env;
    let _ = fresh;
    let image = draft.add(Node::Eq(one.image, two.image))?;
    let right = draft.add(Node::Eq(one.right, two.right))?;
    let alike = alike_equal(
        draft, left, right, first, one.right, second, two.right, one.alike, two.alike,
    )?;
    Ok(Linked {
        image,
        right,
        alike,
    })
}

// The sides of a formula of a connective.
#[derive(Clone, Copy)]
struct JoinedSides {
    first: TermId,
    second: TermId,
}

fn joined_sides(draft: &Draft, id: TermId) -> JoinedSides
    requires held { Holds draft.now.trees id }
    requires joined { (op : Op) × ((x : Tree) × ((y : Tree) × (tree_at draft.now.trees id
        ≡ Two (HJoin op) x y))) }
    ensures first_held { Holds draft.now.trees result.first }
    ensures second_held { Holds draft.now.trees result.second }
    ensures tree { (op : Op) (x y : Tree) → tree_at draft.now.trees id ≡ Two (HJoin op) x y
        → tree_at draft.now.trees id ≡ Two (HJoin op) (tree_at draft.now.trees result.first)
        (tree_at draft.now.trees result.second) }
{
    match draft.store().node(id) {
        Node::Join(_, first, second) => JoinedSides { first, second },
        _ => unreachable!(),
    }
}

// The negation over a link.
fn link_not(
    draft: &mut Draft,
    env: &[TermId],
    left: TermId,
    under: TermId,
    part: Linked,
    fresh: usize,
) -> Result<Linked, AllocError>
    requires left { IsFormulaAt draft.old left }
    requires under { IsClosedAt draft.old under }
    requires right { IsClosedAt draft.old part.right }
    requires left_is { tree_at draft.old.trees left ≡ One HNot (tree_at draft.old.trees under) }
    requires part { IsLinkOf draft.old env.now under fresh (tree_at draft.old.trees part.image)
        part }
    ensures link { IfOk result (IsLinkOf draft.new env.now left fresh
        (One HNot (tree_at draft.old.trees part.image))) }
    ensures grows { Extends draft.old draft.new }
{
    let _ = env;
    let _ = fresh;
    let image = draft.add(Node::Not(part.image))?;
    let right = draft.add(Node::Not(part.right))?;
    let alike = alike_not(draft, left, right, under, part.right, part.alike)?;
    Ok(Linked {
        image,
        right,
        alike,
    })
}

// What a negation negates.
fn under_not(draft: &Draft, id: TermId) -> TermId
    requires held { Holds draft.now.trees id }
    requires negation { (x : Tree) × (tree_at draft.now.trees id ≡ One HNot x) }
    ensures held { Holds draft.now.trees result }
    ensures tree { tree_at draft.now.trees id ≡ One HNot (tree_at draft.now.trees result) }
{
    match draft.store().node(id) {
        Node::Not(a) => a,
        _ => unreachable!(),
    }
}

fn equal_sides(draft: &Draft, id: TermId) -> JoinedSides
    requires held { Holds draft.now.trees id }
    requires equation { (x : Tree) × ((y : Tree) × (tree_at draft.now.trees id ≡ Two HEq x y)) }
    ensures first_held { Holds draft.now.trees result.first }
    ensures second_held { Holds draft.now.trees result.second }
    ensures tree { tree_at draft.now.trees id ≡ Two HEq (tree_at draft.now.trees result.first)
        (tree_at draft.now.trees result.second) }
{
    match draft.store().node(id) {
        Node::Eq(first, second) => JoinedSides { first, second },
        _ => unreachable!(),
    }
}
