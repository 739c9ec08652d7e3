// Equations of alike terms.
ghost use Rattle.std.specs.Prelude.{◌≡◌, IfOk};
ghost use Rattle.trees.specs.Tree.{Tree, Two, HEq};
ghost use Rattle.trees.specs.Node.{tree_at, Holds};
ghost use Rattle.trees.specs.Sorts.{sort_of};
ghost use Rattle.evidence.specs.Drafts.{Extends, AddsTrees, IsFormulaAt};
ghost use Rattle.congruence.specs.Alike.{Shows, ArePair, IsClosedAt, HoleAt};

use crate::alike::AlikeBy;
use crate::replacing::{alike_replaced, chain, open_hole};
use evidence::Draft;
use std::alloc::AllocError;
use tasks::Grow;
use trees::{Node, Sort, TermId};

// `[] = c`, of which the two equations are instances.
fn hole_first(
    draft: &mut Draft,
    left: TermId,
    middle: TermId,
    a: TermId,
    b: TermId,
    c: TermId,
) -> Result<TermId, AllocError>
    requires left { IsFormulaAt draft.old left }
    requires pair { ArePair draft.old a b }
    requires term { sort_of (tree_at draft.old.trees a) ≡ Sort.Term }
    requires c { IsClosedAt draft.old c }
    requires middle_held { Holds draft.old.trees middle }
    requires left_is { tree_at draft.old.trees left
        ≡ Two HEq (tree_at draft.old.trees a) (tree_at draft.old.trees c) }
    requires middle_is { tree_at draft.old.trees middle
        ≡ Two HEq (tree_at draft.old.trees b) (tree_at draft.old.trees c) }
    ensures hole { IfOk result (λ id. HoleAt draft.new id left middle a b) }
    ensures grows { AddsTrees draft.old draft.new }
{
    let _ = left;
    let _ = middle;
    let open = open_hole(draft, a, b)?;
    let hole = draft.add(Node::Eq(open, c))?;
    Ok(hole)
}

// `b = []`.
fn hole_second(
    draft: &mut Draft,
    middle: TermId,
    right: TermId,
    b: TermId,
    c: TermId,
    e: TermId,
) -> Result<TermId, AllocError>
    requires middle { IsFormulaAt draft.old middle }
    requires pair { ArePair draft.old c e }
    requires term { sort_of (tree_at draft.old.trees c) ≡ Sort.Term }
    requires b { IsClosedAt draft.old b }
    requires right_held { Holds draft.old.trees right }
    requires middle_is { tree_at draft.old.trees middle
        ≡ Two HEq (tree_at draft.old.trees b) (tree_at draft.old.trees c) }
    requires right_is { tree_at draft.old.trees right
        ≡ Two HEq (tree_at draft.old.trees b) (tree_at draft.old.trees e) }
    ensures hole { IfOk result (λ id. HoleAt draft.new id middle right c e) }
    ensures grows { AddsTrees draft.old draft.new }
{
    let _ = middle;
    let _ = right;
    let open = open_hole(draft, c, e)?;
    let hole = draft.add(Node::Eq(b, open))?;
    Ok(hole)
}

// An equation whose first side is replaced.
fn equal_first(
    draft: &mut Draft,
    left: TermId,
    middle: TermId,
    a: TermId,
    b: TermId,
    c: TermId,
    alike: AlikeBy,
) -> Result<AlikeBy, AllocError>
    requires left { IsFormulaAt draft.old left }
    requires sides { ArePair draft.old left middle }
    requires pair { ArePair draft.old a b }
    requires term { sort_of (tree_at draft.old.trees a) ≡ Sort.Term }
    requires c { IsClosedAt draft.old c }
    requires left_is { tree_at draft.old.trees left
        ≡ Two HEq (tree_at draft.old.trees a) (tree_at draft.old.trees c) }
    requires middle_is { tree_at draft.old.trees middle
        ≡ Two HEq (tree_at draft.old.trees b) (tree_at draft.old.trees c) }
    requires shows { Shows draft.old alike (tree_at draft.old.trees a) (tree_at draft.old.trees b) }
    ensures shows { IfOk result (λ w. Shows draft.new w (tree_at draft.new.trees left)
        (tree_at draft.new.trees middle)) }
    ensures grows { Extends draft.old draft.new }
{
    let hole = hole_first(draft, left, middle, a, b, c)?;
    alike_replaced(draft, hole, left, middle, a, b, alike)
}

// An equation whose second side is replaced.
fn equal_second(
    draft: &mut Draft,
    middle: TermId,
    right: TermId,
    b: TermId,
    c: TermId,
    e: TermId,
    alike: AlikeBy,
) -> Result<AlikeBy, AllocError>
    requires middle { IsFormulaAt draft.old middle }
    requires sides { ArePair draft.old middle right }
    requires pair { ArePair draft.old c e }
    requires term { sort_of (tree_at draft.old.trees c) ≡ Sort.Term }
    requires b { IsClosedAt draft.old b }
    requires middle_is { tree_at draft.old.trees middle
        ≡ Two HEq (tree_at draft.old.trees b) (tree_at draft.old.trees c) }
    requires right_is { tree_at draft.old.trees right
        ≡ Two HEq (tree_at draft.old.trees b) (tree_at draft.old.trees e) }
    requires shows { Shows draft.old alike (tree_at draft.old.trees c) (tree_at draft.old.trees e) }
    ensures shows { IfOk result (λ w. Shows draft.new w (tree_at draft.new.trees middle)
        (tree_at draft.new.trees right)) }
    ensures grows { Extends draft.old draft.new }
{
    let hole = hole_second(draft, middle, right, b, c, e)?;
    alike_replaced(draft, hole, middle, right, c, e, alike)
}

// The equation with one side replaced.
fn middle_equation(
    draft: &mut Draft,
    left: TermId,
    a: TermId,
    b: TermId,
    c: TermId,
) -> Result<TermId, AllocError>
    requires left { IsFormulaAt draft.old left }
    requires pair { ArePair draft.old a b }
    requires term { sort_of (tree_at draft.old.trees a) ≡ Sort.Term }
    requires c { IsClosedAt draft.old c }
    requires left_is { tree_at draft.old.trees left
        ≡ Two HEq (tree_at draft.old.trees a) (tree_at draft.old.trees c) }
    ensures formula { IfOk result (IsFormulaAt draft.new) }
    ensures tree { IfOk result (λ id. tree_at draft.new.trees id
        ≡ Two HEq (tree_at draft.old.trees b) (tree_at draft.old.trees c)) }
    ensures grows { AddsTrees draft.old draft.new }
{
    let _ = left;
    let _ = a;
    let made = draft.add(Node::Eq(b, c))?;
    Ok(made)
}

/// Two equations of alike terms.
pub fn alike_equal(
    draft: &mut Draft,
    left: TermId,
    right: TermId,
    a: TermId,
    b: TermId,
    c: TermId,
    e: TermId,
    first: AlikeBy,
    second: AlikeBy,
) -> Result<AlikeBy, AllocError>
    requires left { IsFormulaAt draft.old left }
    requires right { IsFormulaAt draft.old right }
    requires first_pair { ArePair draft.old a b }
    requires second_pair { ArePair draft.old c e }
    requires first_term { sort_of (tree_at draft.old.trees a) ≡ Sort.Term }
    requires second_term { sort_of (tree_at draft.old.trees c) ≡ Sort.Term }
    requires left_is { tree_at draft.old.trees left
        ≡ Two HEq (tree_at draft.old.trees a) (tree_at draft.old.trees c) }
    requires right_is { tree_at draft.old.trees right
        ≡ Two HEq (tree_at draft.old.trees b) (tree_at draft.old.trees e) }
    requires first { Shows draft.old first (tree_at draft.old.trees a) (tree_at draft.old.trees b) }
    requires second { Shows draft.old second (tree_at draft.old.trees c)
        (tree_at draft.old.trees e) }
    ensures shows { IfOk result (λ w. Shows draft.new w (tree_at draft.old.trees left)
        (tree_at draft.old.trees right)) }
    ensures grows { Extends draft.old draft.new }
{
    let middle = middle_equation(draft, left, a, b, c)?;
    let one = equal_first(draft, left, middle, a, b, c, first)?;
    let two = equal_second(draft, middle, right, b, c, e, second)?;
    chain(draft, left, middle, right, one, two)
}
