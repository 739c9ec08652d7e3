// The link of a node: what the laws make of it, open and at an environment.
ghost use Rattle.std.specs.Prelude.{◌≡◌, true, IfOk};
ghost use Rattle.trees.specs.Node.{tree_at, Holds};
ghost use Rattle.evidence.specs.Drafts.{Extends, AddsTrees};
ghost use Rattle.congruence.specs.Alike.{ArePair};
ghost use Rattle.walking.specs.Places.{IsInstanceAt, IsLinkOf};
ghost use Rattle.tr_simplify.specs.Laws.{has_laws, simplify_rule};

use crate::evidence_of_laws::alike_simplified;
use crate::simplifying::simplify_node;
use evidence::Draft;
use std::alloc::AllocError;
use tasks::{Grow, Store};
use trees::{Node, TermId};
use walking::Linked;

/// Whether there are laws for a node.
pub(crate) fn has_laws(store: &Store, e: TermId) -> bool
    requires { Holds store.now e }
    ensures { result ≡ has_laws (tree_at store.now e) }
{
    match store.node(e) {
        Node::Not(_) => true,
        Node::Join(_, _, _) => true,
        Node::Forall(_, _) => true,
        Node::Exists(_, _) => true,
        Node::If(_, _, _) => true,
        _ => false,
    }
}

// What the laws make of a node, open and at an environment.
#[derive(Clone, Copy)]
struct BothImages {
    image: TermId,
    right: TermId,
}

// What the laws make of a node, open and at an environment.
#[tactic(auto, using(evidence::specs::Laws::AddsTrees_trans))]
fn simplify_both(
    draft: &mut Draft,
    env: &[TermId],
    e: TermId,
    left: TermId,
    fresh: usize,
) -> Result<BothImages, AllocError>
    requires place { IsInstanceAt draft.old env.now e left fresh }
    requires laws { has_laws (tree_at draft.old.trees e) ≡ true }
    ensures place { IfOk result (λ m. IsInstanceAt draft.new env.now m.image m.right fresh) }
    ensures image { IfOk result (λ m. tree_at draft.new.trees m.image
        ≡ simplify_rule (tree_at draft.old.trees e)) }
    ensures pair { IfOk result (λ m. ArePair draft.new left m.right) }
    ensures right { IfOk result (λ m. tree_at draft.new.trees m.right
        ≡ simplify_rule (tree_at draft.new.trees left)) }
    ensures grows { AddsTrees draft.old draft.new }
{
    let _ = env;
    let _ = fresh;
    let alloc = draft.allocator();
    let image = simplify_node(alloc, draft, e)?;
    draft.store().laws();
    let right = simplify_node(alloc, draft, left)?;
    Ok(BothImages { image, right })
}

/// The link of a node for which there are laws.
pub(crate) fn link_law(
    draft: &mut Draft,
    env: &[TermId],
    e: TermId,
    left: TermId,
    fresh: usize,
) -> Result<Linked, AllocError>
    requires place { IsInstanceAt draft.old env.now e left fresh }
    requires laws { has_laws (tree_at draft.old.trees e) ≡ true }
    ensures link { IfOk result (IsLinkOf draft.new env.now left fresh
        (simplify_rule (tree_at draft.old.trees e))) }
    ensures grows { Extends draft.old draft.new }
{
    let m = simplify_both(draft, env, e, left, fresh)?;
    let alike = alike_simplified(draft, left, m.right, fresh)?;
    Ok(Linked {
        image: m.image,
        right: m.right,
        alike,
    })
}
