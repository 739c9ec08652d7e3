// The value of a `let` and the scrutinee of a `match`, replaced by alike terms.
ghost use Rattle.std.specs.Prelude.{◌≡◌, IfOk};
ghost use Rattle.trees.specs.Tree.{Tree, Two, HLet, HCase};
ghost use Rattle.trees.specs.Node.{tree_at, Holds};
ghost use Rattle.trees.specs.Sorts.{sort_of};
ghost use Rattle.evidence.specs.Drafts.{Extends, AddsTrees};
ghost use Rattle.congruence.specs.Alike.{Shows, ArePair, HoleAt};

use crate::alike::AlikeBy;
use crate::replacing::{alike_replaced, open_hole};
use evidence::Draft;
use std::alloc::AllocError;
use tasks::Grow;
use trees::{Node, Sort, TermId};

// `let x = [] in body`.
fn hole_value(
    draft: &mut Draft,
    left: TermId,
    right: TermId,
    a: TermId,
    b: TermId,
    body: TermId,
) -> Result<TermId, AllocError>
    requires sides { ArePair draft.old left right }
    requires pair { ArePair draft.old a b }
    requires term { sort_of (tree_at draft.old.trees a) ≡ Sort.Term }
    requires body_held { Holds draft.old.trees body }
    requires left_is { tree_at draft.old.trees left
        ≡ Two HLet (tree_at draft.old.trees a) (tree_at draft.old.trees body) }
    requires right_is { tree_at draft.old.trees right
        ≡ Two HLet (tree_at draft.old.trees b) (tree_at draft.old.trees body) }
    ensures hole { IfOk result (λ id. HoleAt draft.new id left right a b) }
    ensures grows { AddsTrees draft.old draft.new }
{
    let _ = left;
    let _ = right;
    let open = open_hole(draft, a, b)?;
    let hole = draft.add(Node::Let(open, body))?;
    Ok(hole)
}

/// Two `let`s with one body and alike values.
pub fn alike_value(
    draft: &mut Draft,
    left: TermId,
    right: TermId,
    a: TermId,
    b: TermId,
    body: TermId,
    alike: AlikeBy,
) -> Result<AlikeBy, AllocError>
    requires sides { ArePair draft.old left right }
    requires pair { ArePair draft.old a b }
    requires term { sort_of (tree_at draft.old.trees a) ≡ Sort.Term }
    requires body_held { Holds draft.old.trees body }
    requires left_is { tree_at draft.old.trees left
        ≡ Two HLet (tree_at draft.old.trees a) (tree_at draft.old.trees body) }
    requires right_is { tree_at draft.old.trees right
        ≡ Two HLet (tree_at draft.old.trees b) (tree_at draft.old.trees body) }
    requires shows { Shows draft.old alike (tree_at draft.old.trees a) (tree_at draft.old.trees b) }
    ensures shows { IfOk result (λ w. Shows draft.new w (tree_at draft.new.trees left)
        (tree_at draft.new.trees right)) }
    ensures grows { Extends draft.old draft.new }
{
    let hole = hole_value(draft, left, right, a, b, body)?;
    alike_replaced(draft, hole, left, right, a, b, alike)
}

// `match [] with arms end`.
fn hole_scrutinee(
    draft: &mut Draft,
    left: TermId,
    right: TermId,
    a: TermId,
    b: TermId,
    arms: TermId,
) -> Result<TermId, AllocError>
    requires sides { ArePair draft.old left right }
    requires pair { ArePair draft.old a b }
    requires term { sort_of (tree_at draft.old.trees a) ≡ Sort.Term }
    requires arms_held { Holds draft.old.trees arms }
    requires left_is { tree_at draft.old.trees left
        ≡ Two HCase (tree_at draft.old.trees a) (tree_at draft.old.trees arms) }
    requires right_is { tree_at draft.old.trees right
        ≡ Two HCase (tree_at draft.old.trees b) (tree_at draft.old.trees arms) }
    ensures hole { IfOk result (λ id. HoleAt draft.new id left right a b) }
    ensures grows { AddsTrees draft.old draft.new }
{
    let _ = left;
    let _ = right;
    let open = open_hole(draft, a, b)?;
    let hole = draft.add(Node::Case(open, arms))?;
    Ok(hole)
}

/// Two `match`es with the same branches, of alike terms.
pub fn alike_scrutinee(
    draft: &mut Draft,
    left: TermId,
    right: TermId,
    a: TermId,
    b: TermId,
    arms: TermId,
    alike: AlikeBy,
) -> Result<AlikeBy, AllocError>
    requires sides { ArePair draft.old left right }
    requires pair { ArePair draft.old a b }
    requires term { sort_of (tree_at draft.old.trees a) ≡ Sort.Term }
    requires arms_held { Holds draft.old.trees arms }
    requires left_is { tree_at draft.old.trees left
        ≡ Two HCase (tree_at draft.old.trees a) (tree_at draft.old.trees arms) }
    requires right_is { tree_at draft.old.trees right
        ≡ Two HCase (tree_at draft.old.trees b) (tree_at draft.old.trees arms) }
    requires shows { Shows draft.old alike (tree_at draft.old.trees a) (tree_at draft.old.trees b) }
    ensures shows { IfOk result (λ w. Shows draft.new w (tree_at draft.new.trees left)
        (tree_at draft.new.trees right)) }
    ensures grows { Extends draft.old draft.new }
{
    let hole = hole_scrutinee(draft, left, right, a, b, arms)?;
    alike_replaced(draft, hole, left, right, a, b, alike)
}
