// The arms of branches.
// They depend on patterns and on the order of variables; the walk of branches depends on them.
ghost use Rattle.std.specs.Prelude.{◌≡◌, ◌∷◌, ◌++◌, IfOk, OnOk, map, All};
ghost use Rattle.trees.specs.Tree.{Two, HCell, HArm};
ghost use Rattle.trees.specs.Node.{tree_at, Holds, Grows};
ghost use Rattle.trees.specs.Sorts.{sort_of, IsExpression, IsList};
ghost use Rattle.trees.specs.declared.Sort.TheVariants.{Branch};
ghost use Rattle.open_types.specs.Patterns.{cells_onto};
ghost use Rattle.open_types.specs.Drafts.{HoldsPattern, LaterHeld, PatternsHeld, later_at, later_arm, branch_arms};

use crate::patterns::{BranchPatterns, LaterPattern};
use crate::reorder::reorder;
use scopes::Seq;
use std::alloc::{AllocError, Global};
use trees::store::{Grow, Node, Store, TermId};

// The numbers of later alternatives, after those that are there.
fn push_later_patterns(patterns: &mut Seq<TermId>, later: &[LaterPattern]) -> Result<(), AllocError>
    ensures { OnOk result (patterns.new ≡ patterns.old ++ map (λ l. l.pattern) later.now) }
{
    let Some((first, rest)) = later.split_first() else {
        return Ok(());
    };
    patterns.push(first.pattern)?;
    push_later_patterns(patterns, rest)
}

/// The numbers of a branch's patterns, after those that are there.
pub fn push_patterns(patterns: &mut Seq<TermId>, branch: &BranchPatterns) -> Result<(), AllocError>
    ensures { OnOk result (patterns.new ≡ patterns.old ++ branch.now.first
        ∷ map (λ l. l.pattern) branch.now.later) }
{
    patterns.push(branch.first)?;
    push_later_patterns(patterns, branch.later.as_slice())
}

// An arm before others.
fn push_arm(
    store: &mut Store,
    pattern: TermId,
    body: TermId,
    list: TermId,
) -> Result<TermId, AllocError>
    requires pattern { HoldsPattern store.old pattern }
    requires body { Holds store.old body }
    requires expression { IsExpression (sort_of (tree_at store.old body)) }
    requires list { Holds store.old list }
    requires branches { IsList Branch (tree_at store.old list) }
    ensures held { IfOk result (Holds store.new) }
    ensures tree { IfOk result (λ id. tree_at store.new id ≡ Two HCell (Two HArm
        (tree_at store.old pattern) (tree_at store.old body)) (tree_at store.old list)) }
    ensures branches { IfOk result (λ id. IsList Branch (tree_at store.new id)) }
    ensures grows { Grows store.old store.new }
{
    let arm = store.add(Node::Arm(pattern, body))?;
    store.add(Node::Cell(arm, list))
}

// The arms of later alternatives, before others.
fn push_later(
    alloc: Global,
    store: &mut Store,
    later: &[LaterPattern],
    body: TermId,
    list: TermId,
) -> Result<TermId, AllocError>
    requires later { All (LaterHeld store.old) later.now }
    requires body { Holds store.old body }
    requires expression { IsExpression (sort_of (tree_at store.old body)) }
    requires list { Holds store.old list }
    requires branches { IsList Branch (tree_at store.old list) }
    ensures held { IfOk result (Holds store.new) }
    ensures tree { IfOk result (λ id. tree_at store.new id ≡ cells_onto (map (later_arm
        (tree_at store.old body)) (map (later_at store.old) later.now)) (tree_at store.old list)) }
    ensures branches { IfOk result (λ id. IsList Branch (tree_at store.new id)) }
    ensures grows { Grows store.old store.new }
{
    let Some((first, rest)) = later.split_first() else {
        return Ok(list);
    };
    let tail = push_later(alloc, store, rest, body, list)?;
    let own = reorder(alloc, store, body, first.places.as_slice())?;
    push_arm(store, first.pattern, own, tail)
}

/// The arms of a branch, before others.
pub fn push_arms(
    alloc: Global,
    store: &mut Store,
    branch: &BranchPatterns,
    body: TermId,
    list: TermId,
) -> Result<TermId, AllocError>
    requires patterns { PatternsHeld store.old branch.now }
    requires body { Holds store.old body }
    requires expression { IsExpression (sort_of (tree_at store.old body)) }
    requires list { Holds store.old list }
    requires branches { IsList Branch (tree_at store.old list) }
    ensures held { IfOk result (Holds store.new) }
    ensures tree { IfOk result (λ id. tree_at store.new id
        ≡ cells_onto (branch_arms store.old branch.now
        (tree_at store.old body)) (tree_at store.old list)) }
    ensures branches { IfOk result (λ id. IsList Branch (tree_at store.new id)) }
    ensures grows { Grows store.old store.new }
{
    let tail = push_later(alloc, store, branch.later.as_slice(), body, list)?;
    push_arm(store, branch.first, body, tail)
}
