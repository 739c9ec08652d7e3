// `if`s at environments: the link of an `if` over those of its condition and its parts.
ghost use Rattle.std.specs.Prelude.{◌≡◌, IfOk};
ghost use Rattle.trees.specs.Tree.{Tree, Three, HIf};
ghost use Rattle.trees.specs.Node.{tree_at, Holds};
ghost use Rattle.evidence.specs.Drafts.{Extends, AddsTrees};
ghost use Rattle.congruence.specs.Alike.{IsClosedAt};
ghost use Rattle.walking.specs.Places.{IsInstanceAt, IsLinkOf};

use crate::linked::Linked;
use congruence::{CaseLinks, Conditional, alike_ifs};
use evidence::Draft;
use std::alloc::AllocError;
use tasks::Grow;
use trees::{Node, TermId};

/// The condition and the parts of an `if`.
pub(crate) fn if_of(draft: &Draft, id: TermId) -> Conditional
    requires held { Holds draft.now.trees id }
    requires if_node { (x : Tree) × ((y : Tree) × ((z : Tree)
        × (tree_at draft.now.trees id ≡ Three HIf x y z))) }
    ensures whole { result.whole ≡ id }
    ensures condition_held { Holds draft.now.trees result.condition }
    ensures then_held { Holds draft.now.trees result.then_part }
    ensures else_held { Holds draft.now.trees result.else_part }
    ensures tree { tree_at draft.now.trees id ≡ Three HIf
        (tree_at draft.now.trees result.condition) (tree_at draft.now.trees result.then_part)
        (tree_at draft.now.trees result.else_part) }
{
    match draft.store().node(id) {
        Node::If(condition, then_part, else_part) => Conditional {
            whole: id,
            condition,
            then_part,
            else_part,
        },
        _ => unreachable!(),
    }
}

/// An `if` over images, and its instance.
#[derive(Clone, Copy)]
struct IfPlaced {
    image: TermId,
    right: TermId,
}

// The trees of an `if` over links of its condition and parts.
#[tactic(auto, using(evidence::specs::Laws::AddsTrees_trans))]
fn if_places(
    draft: &mut Draft,
    env: &[TermId],
    left: Conditional,
    one: Linked,
    two: Linked,
    three: Linked,
    fresh: usize,
) -> Result<IfPlaced, AllocError>
    requires left { IsClosedAt draft.old left.whole }
    requires left_is { tree_at draft.old.trees left.whole ≡ Three HIf
        (tree_at draft.old.trees left.condition) (tree_at draft.old.trees left.then_part)
        (tree_at draft.old.trees left.else_part) }
    requires condition_held { Holds draft.old.trees left.condition }
    requires then_held { Holds draft.old.trees left.then_part }
    requires else_held { Holds draft.old.trees left.else_part }
    requires one { IsLinkOf draft.old env.now left.condition fresh
        (tree_at draft.old.trees one.image) one }
    requires two { IsLinkOf draft.old env.now left.then_part fresh
        (tree_at draft.old.trees two.image) two }
    requires three { IsLinkOf draft.old env.now left.else_part fresh
        (tree_at draft.old.trees three.image) three }
    ensures place { IfOk result (λ m. IsInstanceAt draft.new env.now m.image m.right fresh) }
    ensures image { IfOk result (λ m. tree_at draft.new.trees m.image ≡ Three HIf
        (tree_at draft.old.trees one.image) (tree_at draft.old.trees two.image)
        (tree_at draft.old.trees three.image)) }
    ensures right { IfOk result (λ m. tree_at draft.new.trees m.right ≡ Three HIf
        (tree_at draft.new.trees one.right) (tree_at draft.new.trees two.right)
        (tree_at draft.new.trees three.right)) }
    ensures grows { AddsTrees draft.old draft.new }
{
    let _ = env;
    let _ = left;
    let _ = fresh;
    let image = draft.add(Node::If(one.image, two.image, three.image))?;
    let right = draft.add(Node::If(one.right, two.right, three.right))?;
    Ok(IfPlaced { image, right })
}

/// An `if` over links of its condition and its parts.
pub(crate) fn link_if(
    draft: &mut Draft,
    env: &[TermId],
    left: Conditional,
    one: Linked,
    two: Linked,
    three: Linked,
    fresh: usize,
) -> Result<Linked, AllocError>
    requires left { IsClosedAt draft.old left.whole }
    requires left_is { tree_at draft.old.trees left.whole ≡ Three HIf
        (tree_at draft.old.trees left.condition) (tree_at draft.old.trees left.then_part)
        (tree_at draft.old.trees left.else_part) }
    requires condition_held { Holds draft.old.trees left.condition }
    requires then_held { Holds draft.old.trees left.then_part }
    requires else_held { Holds draft.old.trees left.else_part }
    requires one { IsLinkOf draft.old env.now left.condition fresh
        (tree_at draft.old.trees one.image) one }
    requires two { IsLinkOf draft.old env.now left.then_part fresh
        (tree_at draft.old.trees two.image) two }
    requires three { IsLinkOf draft.old env.now left.else_part fresh
        (tree_at draft.old.trees three.image) three }
    ensures link { IfOk result (IsLinkOf draft.new env.now left.whole fresh (Three HIf
        (tree_at draft.old.trees one.image) (tree_at draft.old.trees two.image)
        (tree_at draft.old.trees three.image))) }
    ensures grows { Extends draft.old draft.new }
{
    let m = if_places(draft, env, left, one, two, three, fresh)?;
    let right = Conditional {
        whole: m.right,
        condition: one.right,
        then_part: two.right,
        else_part: three.right,
    };
    let links = CaseLinks {
        condition: one.alike,
        then_part: two.alike,
        else_part: three.alike,
    };
    let alike = alike_ifs(draft, left, right, links)?;
    Ok(Linked {
        image: m.image,
        right: m.right,
        alike,
    })
}
