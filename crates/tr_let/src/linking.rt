// The link of a `let`: its body at its value, and evidence by what `let` stands for.
ghost use Rattle.std.specs.Prelude.{◌≡◌, IfOk};
ghost use Rattle.trees.specs.Tree.{Tree, Two, HLet};
ghost use Rattle.trees.specs.Node.{tree_at, Holds};
ghost use Rattle.trees.specs.Binding.{inst};
ghost use Rattle.evidence.specs.Drafts.{Extends, AddsTrees};
ghost use Rattle.congruence.specs.Alike.{ArePair};
ghost use Rattle.walking.specs.Places.{IsInstanceAt, IsLinkOf};
ghost use Rattle.tr_let.specs.LetRule.{let_rule};

use crate::putting::put_value;
use congruence::{alike_let, instance};
use evidence::Draft;
use std::alloc::AllocError;
use tasks::Grow;
use trees::{Node, TermId};
use walking::Linked;

/// The value and the body of a `let`.
#[derive(Clone, Copy)]
pub(crate) struct LetParts {
    pub value: TermId,
    pub body: TermId,
}

// The value and the body of a `let`.
fn let_parts(draft: &Draft, id: TermId) -> LetParts
    requires held { Holds draft.now.trees id }
    requires let_node { (v : Tree) × ((b : Tree) × (tree_at draft.now.trees id ≡ Two HLet v b)) }
    ensures value_held { Holds draft.now.trees result.value }
    ensures body_held { Holds draft.now.trees result.body }
    ensures tree { tree_at draft.now.trees id ≡ Two HLet (tree_at draft.now.trees result.value)
        (tree_at draft.now.trees result.body) }
{
    match draft.store().node(id) {
        Node::Let(value, body) => LetParts { value, body },
        _ => unreachable!(),
    }
}

// A body at its value, open and at an environment.
#[derive(Clone, Copy)]
struct BodyAt {
    image: TermId,
    right: TermId,
}

// The body of a `let` at its value, open and at an environment.
#[tactic(auto, using(evidence::specs::Laws::AddsTrees_trans))]
fn put_both(
    draft: &mut Draft,
    env: &[TermId],
    e: TermId,
    left: TermId,
    open: LetParts,
    closed: LetParts,
    fresh: usize,
) -> Result<BodyAt, AllocError>
    requires place { IsInstanceAt draft.old env.now e left fresh }
    requires value_held { Holds draft.old.trees open.value }
    requires body_held { Holds draft.old.trees open.body }
    requires open { tree_at draft.old.trees e ≡ Two HLet (tree_at draft.old.trees open.value)
        (tree_at draft.old.trees open.body) }
    requires left_value_held { Holds draft.old.trees closed.value }
    requires left_body_held { Holds draft.old.trees closed.body }
    requires closed { tree_at draft.old.trees left
        ≡ Two HLet (tree_at draft.old.trees closed.value) (tree_at draft.old.trees closed.body) }
    ensures place { IfOk result (λ m. IsInstanceAt draft.new env.now m.image m.right fresh) }
    ensures image { IfOk result (λ m. tree_at draft.new.trees m.image
        ≡ inst (tree_at draft.old.trees open.body) (tree_at draft.old.trees open.value)) }
    ensures pair { IfOk result (λ m. ArePair draft.new left m.right) }
    ensures right { IfOk result (λ m. tree_at draft.new.trees m.right
        ≡ inst (tree_at draft.new.trees closed.body) (tree_at draft.new.trees closed.value)) }
    ensures grows { AddsTrees draft.old draft.new }
{
    let _ = env;
    let _ = left;
    let _ = fresh;
    let alloc = draft.allocator();
    let image = put_value(alloc, draft, e, open.value, open.body)?;
    let right = instance(alloc, draft, closed.body, closed.value)?;
    Ok(BodyAt { image, right })
}

/// The link of a `let` at an environment.
pub(crate) fn link_let(
    draft: &mut Draft,
    env: &[TermId],
    e: TermId,
    left: TermId,
    open: LetParts,
    fresh: usize,
) -> Result<Linked, AllocError>
    requires place { IsInstanceAt draft.old env.now e left fresh }
    requires value_held { Holds draft.old.trees open.value }
    requires body_held { Holds draft.old.trees open.body }
    requires open { tree_at draft.old.trees e ≡ Two HLet (tree_at draft.old.trees open.value)
        (tree_at draft.old.trees open.body) }
    ensures link { IfOk result (IsLinkOf draft.new env.now left fresh
        (let_rule (tree_at draft.old.trees e))) }
    ensures grows { Extends draft.old draft.new }
{
    let closed = let_parts(draft, left);
    let m = put_both(draft, env, e, left, open, closed, fresh)?;
    let alike = alike_let(draft, left, m.right, closed.value, closed.body)?;
    Ok(Linked {
        image: m.image,
        right: m.right,
        alike,
    })
}
