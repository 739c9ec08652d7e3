// What the laws make of a node over images, over whatever grows by trees.
ghost use Rattle.std.specs.Prelude.{◌≡◌, IfOk};
ghost use Rattle.trees.specs.Tree.{Two, Three, HJoin, HIf};
ghost use Rattle.trees.specs.Node.{tree_at, Holds};
ghost use Rattle.trees.specs.Sorts.{sort_of};
ghost use Rattle.tr_simplify.specs.Laws.{negated_by, IsQuantifiedOver, simplify_rule};

use crate::constants::constant_of;
use crate::laws::{LawResult, TruthValue, law_for};
use crate::opening::is_open;
use congruence::instance;
use std::alloc::{AllocError, Global};
use tasks::Grow;
use trees::{Node, Op, Sort, TermId};

// The negation of a formula of which it is known whether it is a constant.
fn negate<G: Grow>(g: &mut G, known: TruthValue, a: TermId) -> Result<TermId, AllocError>
    requires held { Holds (G.trees g.old) a }
    requires formula { sort_of (tree_at (G.trees g.old) a) ≡ Sort.Formula }
    ensures held { IfOk result (Holds (G.trees g.new)) }
    ensures tree { IfOk result (λ id. tree_at (G.trees g.new) id
        ≡ negated_by known (tree_at (G.trees g.old) a)) }
    ensures grows { G.grows g.old g.new }
{
    match known {
        TruthValue::True => g.add(Node::False),
        TruthValue::False => g.add(Node::True),
        TruthValue::Other => g.add(Node::Not(a)),
    }
}

// What the laws make of a connective.
fn simplify_join<G: Grow>(
    g: &mut G,
    e: TermId,
    op: Op,
    a: TermId,
    b: TermId,
) -> Result<TermId, AllocError>
    requires held { Holds (G.trees g.old) e }
    requires first_held { Holds (G.trees g.old) a }
    requires second_held { Holds (G.trees g.old) b }
    requires first { sort_of (tree_at (G.trees g.old) a) ≡ Sort.Formula }
    requires second { sort_of (tree_at (G.trees g.old) b) ≡ Sort.Formula }
    requires node { tree_at (G.trees g.old) e
        ≡ Two (HJoin op) (tree_at (G.trees g.old) a) (tree_at (G.trees g.old) b) }
    ensures held { IfOk result (Holds (G.trees g.new)) }
    ensures tree { IfOk result (λ id. tree_at (G.trees g.new) id
        ≡ simplify_rule (tree_at (G.trees g.old) e)) }
    ensures grows { G.grows g.old g.new }
{
    let first = constant_of(g, a);
    let second = constant_of(g, b);
    match law_for(op, first, second) {
        LawResult::Stays => Ok(e),
        LawResult::First => Ok(a),
        LawResult::Second => Ok(b),
        LawResult::True => g.add(Node::True),
        LawResult::False => g.add(Node::False),
        LawResult::NotFirst => negate(g, first, a),
        LawResult::NotSecond => negate(g, second, b),
    }
}

// What the laws make of an `if`.
fn simplify_if<G: Grow>(g: &G, e: TermId, c: TermId, a: TermId, b: TermId) -> TermId
    requires held { Holds (G.trees g.now) e }
    requires condition_held { Holds (G.trees g.now) c }
    requires first_held { Holds (G.trees g.now) a }
    requires second_held { Holds (G.trees g.now) b }
    requires node { tree_at (G.trees g.now) e ≡ Three HIf (tree_at (G.trees g.now) c)
        (tree_at (G.trees g.now) a) (tree_at (G.trees g.now) b) }
    ensures held { Holds (G.trees g.now) result }
    ensures tree { tree_at (G.trees g.now) result ≡ simplify_rule (tree_at (G.trees g.now) e) }
{
    match constant_of(g, c) {
        TruthValue::True => a,
        TruthValue::False => b,
        TruthValue::Other => e,
    }
}

// What the laws make of a quantifier.
fn simplify_quantified<G: Grow>(
    alloc: Global,
    g: &mut G,
    e: TermId,
    body: TermId,
) -> Result<TermId, AllocError>
    requires held { Holds (G.trees g.old) e }
    requires body_held { Holds (G.trees g.old) body }
    requires node { IsQuantifiedOver (tree_at (G.trees g.old) e) (tree_at (G.trees g.old) body) }
    ensures held { IfOk result (Holds (G.trees g.new)) }
    ensures tree { IfOk result (λ id. tree_at (G.trees g.new) id
        ≡ simplify_rule (tree_at (G.trees g.old) e)) }
    ensures grows { G.grows g.old g.new }
{
    if is_open(g.store(), body, 0) {
        return Ok(e);
    }
    let zero = g.add(Node::Num(0))?;
    let made = instance(alloc, g, body, zero)?;
    Ok(made)
}

/// What the laws make of a node over images.
pub(crate) fn simplify_node<G: Grow>(
    alloc: Global,
    g: &mut G,
    e: TermId,
) -> Result<TermId, AllocError>
    requires { Holds (G.trees g.old) e }
    ensures held { IfOk result (Holds (G.trees g.new)) }
    ensures tree { IfOk result (λ id. tree_at (G.trees g.new) id
        ≡ simplify_rule (tree_at (G.trees g.old) e)) }
    ensures grows { G.grows g.old g.new }
{
    match g.store().node(e) {
        Node::Not(a) => {
            let known = constant_of(g, a);
            let made = negate(g, known, a)?;
            Ok(made)
        }
        Node::Join(op, a, b) => simplify_join(g, e, op, a, b),
        Node::Forall(_, body) => simplify_quantified(alloc, g, e, body),
        Node::Exists(_, body) => simplify_quantified(alloc, g, e, body),
        Node::If(c, a, b) => Ok(simplify_if(g, e, c, a, b)),
        _ => Ok(e),
    }
}
