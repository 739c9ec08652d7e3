// The image of a tree: its parts first, then the rule. Each part is visited once.
ghost use Rattle.std.specs.Prelude.{◌≡◌, List, length, IfOk};
ghost use Rattle.trees.specs.Tree.{Tree};
ghost use Rattle.trees.specs.Node.{tree_at, node_tree, assemble, Holds, Grows, head_of_node, parts_of, AreBelow, IsLike};
ghost use Rattle.trees.specs.Sorts.{Fits};
ghost use Rattle.images.specs.Images.{image};
ghost use Rattle.images.specs.image_trees.Imaged.{RuleOver, KeepsItsTyping, IsTypedSomewhere, CanImage, IsImaged, IsOverParts};

use indexmap::IndexMap;
use std::alloc::{AllocError, Global};
use trees::store::Grow;
use trees::{Node, Parts, TermId};

/// A rule for nodes over what grows by trees.
pub trait NodeRule {
    /// What it makes of a node, and over which vocabulary it keeps typing.
    ghost rule_over: { Self → List Tree → RuleOver };

    /// The numbers in it are held, and what it depends on is valid.
    ghost Ready: { Self → List Tree → Type 0 };

    /// What the rule makes of a typed node.
    fn at_node<G: Grow>(&self, alloc: Global, g: &mut G, e: TermId) -> Result<TermId, AllocError>
        requires ready { Ready self.now (G.trees g.old) }
        requires held { Holds (G.trees g.old) e }
        requires typed { IsTypedSomewhere (rule_over self.now (G.trees g.old))
            (tree_at (G.trees g.old) e) }
        ensures held { IfOk result (Holds (G.trees g.new)) }
        ensures tree { IfOk result (λ id. tree_at (G.trees g.new) id
            ≡ (rule_over self.now (G.trees g.old)).rule (tree_at (G.trees g.old) e)) }
        ensures grows { G.grows g.old g.new };

    ghost stays_ready: { (x : Self) (s t : List Tree) → Grows s t → Ready x s → Ready x t };

    ghost stays: { (x : Self) (s t : List Tree) → Grows s t → Ready x s → rule_over x t ≡ rule_over x s };

    ghost keeps: { (x : Self) (s : List Tree) → Ready x s → KeepsItsTyping (rule_over x s) };
}

// What is made so far, by the number of a tree.
type Known = IndexMap<usize, TermId>;

// The node of a number.
fn node_of<G: Grow>(g: &G, id: TermId) -> Node
    requires { Holds (G.trees g.now) id }
    ensures tree { tree_at (G.trees g.now) id ≡ node_tree (G.trees g.now) result }
    ensures below { AreBelow id.0 (parts_of result) }
    ensures fits { Fits (tree_at (G.trees g.now) id) }
{
    g.store().node(id)
}

// The node with other children.
fn remake<G: Grow>(g: &mut G, node: Node, parts: Parts) -> Result<TermId, AllocError>
    requires like { IsLike (parts_of node) parts }
    requires held { AreBelow (length (G.trees g.old)) parts }
    requires fits { Fits (assemble (G.trees g.old) (head_of_node node) parts) }
    ensures held { IfOk result (Holds (G.trees g.new)) }
    ensures tree { IfOk result (λ id. tree_at (G.trees g.new) id
        ≡ assemble (G.trees g.old) (head_of_node node) parts) }
    ensures grows { G.grows g.old g.new }
{
    g.add(node.with_parts(parts))
}

// The image of a tree, which is made once.
#[cycle(imaging)]
fn image_of<G: Grow, R: NodeRule>(
    alloc: Global,
    g: &mut G,
    rule: &R,
    known: &mut Known,
    e: TermId,
) -> Result<TermId, AllocError>
    requires { CanImage (R.rule_over rule.now (G.trees g.old)) (R.Ready rule.now (G.trees g.old))
        (G.trees g.old) known.old e }
    ensures imaged { IfOk result (IsImaged (R.rule_over rule.now (G.trees g.old))
        (tree_at (G.trees g.old) e) (G.trees g.new) known.new) }
    ensures grows { G.grows g.old g.new }
{
    if let Some(made) = known.get(&e.0) {
        return Ok(*made);
    }
    let over = over_parts(alloc, g, rule, known, e)?;
    let made = rule.at_node(alloc, g, over)?;
    known.insert(e.0, made)?;
    Ok(made)
}

// The node of a tree over the images of its parts.
#[cycle(imaging)]
fn over_parts<G: Grow, R: NodeRule>(
    alloc: Global,
    g: &mut G,
    rule: &R,
    known: &mut Known,
    e: TermId,
) -> Result<TermId, AllocError>
    requires { CanImage (R.rule_over rule.now (G.trees g.old)) (R.Ready rule.now (G.trees g.old))
        (G.trees g.old) known.old e }
    ensures over { IfOk result (IsOverParts (R.rule_over rule.now (G.trees g.old))
        (tree_at (G.trees g.old) e) (G.trees g.new) known.new) }
    ensures grows { G.grows g.old g.new }
{
    let node = node_of(g, e);
    match node.parts() {
        Parts::None => Ok(e),
        Parts::One(a) => {
            let x = image_of(alloc, g, rule, known, a)?;
            remake(g, node, Parts::One(x))
        }
        Parts::Two(a, b) => {
            let x = image_of(alloc, g, rule, known, a)?;
            let y = image_of(alloc, g, rule, known, b)?;
            remake(g, node, Parts::Two(x, y))
        }
        Parts::Three(a, b, c) => {
            let x = image_of(alloc, g, rule, known, a)?;
            let y = image_of(alloc, g, rule, known, b)?;
            let z = image_of(alloc, g, rule, known, c)?;
            remake(g, node, Parts::Three(x, y, z))
        }
    }
}

/// The image of a typed tree.
pub fn image_tree<G: Grow, R: NodeRule>(
    alloc: Global,
    g: &mut G,
    rule: &R,
    e: TermId,
) -> Result<TermId, AllocError>
    requires ready { R.Ready rule.now (G.trees g.old) }
    requires held { Holds (G.trees g.old) e }
    requires typed { IsTypedSomewhere (R.rule_over rule.now (G.trees g.old))
        (tree_at (G.trees g.old) e) }
    ensures held { IfOk result (Holds (G.trees g.new)) }
    ensures tree { IfOk result (λ id. tree_at (G.trees g.new) id
        ≡ image (R.rule_over rule.now (G.trees g.old)).rule (tree_at (G.trees g.old) e)) }
    ensures grows { G.grows g.old g.new }
{
    let mut known = IndexMap::new(alloc);
    let made = image_of(alloc, g, rule, &mut known, e)?;
    Ok(made)
}
