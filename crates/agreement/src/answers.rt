// Evidence for two expressions of one operator, from evidence for their parts.
ghost use Rattle.std.specs.Prelude.{◌≡◌, [], ◌∷◌, IfOk};
ghost use Rattle.trees.specs.Tree.{Tree, One, Two, Three, HNot, HJoin, HEq, HIf, HLet};
ghost use Rattle.trees.specs.Node.{tree_at, Holds};
ghost use Rattle.evidence.specs.Drafts.{Extends};
ghost use Rattle.congruence.specs.Alike.{ArePair, Shows};
ghost use Rattle.congruence.specs.Quantifiers.{quantifier_head};
ghost use Rattle.agreement.specs.Agreement.{ArePartsOf};
ghost use Rattle.agreement.specs.Questions.{IsAsked, IsShownLink, HasLinkedParts, links_at};

use crate::branches::answer_case;
use crate::members::answer_symbol;
use crate::parts::body_of;
use crate::questions::{Link, Question};
use congruence::{
    AlikeBy, CaseLinks, Conditional, SymbolAt, alike_equal, alike_ifs, alike_join, alike_let,
    alike_not, alike_quantified, chain, flip, parameter,
};
use evidence::Draft;
use std::alloc::AllocError;
use tasks::Grow;
use trees::{Node, Op, TermId};

// For two negations.
fn answer_not(draft: &mut Draft, q: Question, links: &[Link]) -> Result<AlikeBy, AllocError>
    requires linked { HasLinkedParts draft.old q links.now }
    requires left { (a : Tree) × (tree_at draft.old.trees q.left ≡ One HNot a) }
    ensures shows { IfOk result (λ w. Shows draft.new w (tree_at draft.old.trees q.left)
        (tree_at draft.old.trees q.right)) }
    ensures grows { Extends draft.old draft.new }
{
    let part = links[0];
    alike_not(draft, q.left, q.right, part.left, part.right, part.alike)
}

// For two formulas of one connective.
fn answer_join(
    draft: &mut Draft,
    q: Question,
    op: Op,
    links: &[Link],
) -> Result<AlikeBy, AllocError>
    requires linked { HasLinkedParts draft.old q links.now }
    requires left { (a : Tree) × ((c : Tree) × (tree_at draft.old.trees q.left
        ≡ Two (HJoin op) a c)) }
    ensures shows { IfOk result (λ w. Shows draft.new w (tree_at draft.old.trees q.left)
        (tree_at draft.old.trees q.right)) }
    ensures grows { Extends draft.old draft.new }
{
    let first = links[0];
    let second = links[1];
    alike_join(
        draft,
        op,
        q.left,
        q.right,
        first.left,
        second.left,
        first.right,
        second.right,
        first.alike,
        second.alike,
    )
}

// For two equations.
fn answer_equal(draft: &mut Draft, q: Question, links: &[Link]) -> Result<AlikeBy, AllocError>
    requires linked { HasLinkedParts draft.old q links.now }
    requires left { (a : Tree) × ((c : Tree) × (tree_at draft.old.trees q.left ≡ Two HEq a c)) }
    ensures shows { IfOk result (λ w. Shows draft.new w (tree_at draft.old.trees q.left)
        (tree_at draft.old.trees q.right)) }
    ensures grows { Extends draft.old draft.new }
{
    let first = links[0];
    let second = links[1];
    alike_equal(
        draft,
        q.left,
        q.right,
        first.left,
        first.right,
        second.left,
        second.right,
        first.alike,
        second.alike,
    )
}

// For two `if`s.
fn answer_if(draft: &mut Draft, q: Question, links: &[Link]) -> Result<AlikeBy, AllocError>
    requires linked { HasLinkedParts draft.old q links.now }
    requires left { (c : Tree) × ((a : Tree) × ((b : Tree) × (tree_at draft.old.trees q.left
        ≡ Three HIf c a b))) }
    ensures shows { IfOk result (λ w. Shows draft.new w (tree_at draft.old.trees q.left)
        (tree_at draft.old.trees q.right)) }
    ensures grows { Extends draft.old draft.new }
{
    let condition = links[0];
    let then_part = links[1];
    let else_part = links[2];
    let left = Conditional {
        whole: q.left,
        condition: condition.left,
        then_part: then_part.left,
        else_part: else_part.left,
    };
    let right = Conditional {
        whole: q.right,
        condition: condition.right,
        then_part: then_part.right,
        else_part: else_part.right,
    };
    let links = CaseLinks {
        condition: condition.alike,
        then_part: then_part.alike,
        else_part: else_part.alike,
    };
    alike_ifs(draft, left, right, links)
}

// For two quantified formulas.
fn answer_under(
    draft: &mut Draft,
    q: Question,
    universal: bool,
    ty: TermId,
    a: TermId,
    part: Link,
) -> Result<AlikeBy, AllocError>
    requires asked { IsAsked draft.old q }
    requires left { tree_at draft.old.trees q.left ≡ Two (quantifier_head universal)
        (tree_at draft.old.trees ty) (tree_at draft.old.trees a) }
    requires ty_held { Holds draft.old.trees ty }
    requires a_held { Holds draft.old.trees a }
    requires part { IsShownLink draft.old part }
    requires parts { ArePartsOf draft.old.task q.number (tree_at draft.old.trees q.left)
        (tree_at draft.old.trees q.right) (links_at draft.old.trees (part ∷ [])) }
    ensures shows { IfOk result (λ w. Shows draft.new w (tree_at draft.old.trees q.left)
        (tree_at draft.old.trees q.right)) }
    ensures grows { Extends draft.old draft.new }
{
    let b = body_of(draft, universal, q.right);
    let term = parameter(draft, q.number, ty)?;
    alike_quantified(
        draft, universal, q.left, q.right, ty, a, b, q.number, term, part.left, part.right,
        part.alike,
    )
}

/// From the one whole to the other by the values of both.
pub(crate) fn through(
    draft: &mut Draft,
    whole: TermId,
    other: TermId,
    part: Link,
    left: AlikeBy,
    right: AlikeBy,
) -> Result<AlikeBy, AllocError>
    requires sides { ArePair draft.old whole other }
    requires left_pair { ArePair draft.old whole part.left }
    requires right_pair { ArePair draft.old other part.right }
    requires part { IsShownLink draft.old part }
    requires left { Shows draft.old left (tree_at draft.old.trees whole)
        (tree_at draft.old.trees part.left) }
    requires right { Shows draft.old right (tree_at draft.old.trees other)
        (tree_at draft.old.trees part.right) }
    ensures shows { IfOk result (λ w. Shows draft.new w (tree_at draft.old.trees whole)
        (tree_at draft.old.trees other)) }
    ensures grows { Extends draft.old draft.new }
{
    let back = flip(draft, other, part.right, right)?;
    let there = chain(draft, whole, part.left, part.right, left, part.alike)?;
    chain(draft, whole, part.right, other, there, back)
}

// For two `let`s.
fn answer_let(
    draft: &mut Draft,
    q: Question,
    v: TermId,
    a: TermId,
    part: Link,
) -> Result<AlikeBy, AllocError>
    requires asked { IsAsked draft.old q }
    requires left { tree_at draft.old.trees q.left ≡ Two HLet (tree_at draft.old.trees v)
        (tree_at draft.old.trees a) }
    requires v_held { Holds draft.old.trees v }
    requires a_held { Holds draft.old.trees a }
    requires part { IsShownLink draft.old part }
    requires parts { ArePartsOf draft.old.task q.number (tree_at draft.old.trees q.left)
        (tree_at draft.old.trees q.right) (links_at draft.old.trees (part ∷ [])) }
    ensures shows { IfOk result (λ w. Shows draft.new w (tree_at draft.old.trees q.left)
        (tree_at draft.old.trees q.right)) }
    ensures grows { Extends draft.old draft.new }
{
    match draft.store().node(q.right) {
        Node::Let(w, b) => {
            let left = alike_let(draft, q.left, part.left, v, a)?;
            let right = alike_let(draft, q.right, part.right, w, b)?;
            through(draft, q.left, q.right, part, left, right)
        }
        _ => unreachable!(),
    }
}

/// Evidence for two expressions of one operator, from evidence for all parts.
pub(crate) fn answer(draft: &mut Draft, q: Question, links: &[Link]) -> Result<AlikeBy, AllocError>
    requires linked { HasLinkedParts draft.old q links.now }
    ensures shows { IfOk result (λ w. Shows draft.new w (tree_at draft.old.trees q.left)
        (tree_at draft.old.trees q.right)) }
    ensures grows { Extends draft.old draft.new }
{
    match draft.store().node(q.left) {
        Node::Not(_) => answer_not(draft, q, links),
        Node::Join(op, _, _) => answer_join(draft, q, op, links),
        Node::Eq(_, _) => answer_equal(draft, q, links),
        Node::If(_, _, _) => answer_if(draft, q, links),
        Node::Forall(ty, a) => answer_under(draft, q, true, ty, a, links[0]),
        Node::Exists(ty, a) => answer_under(draft, q, false, ty, a, links[0]),
        Node::Let(v, a) => answer_let(draft, q, v, a, links[0]),
        Node::Fun(f, types, arguments, ty) => {
            answer_symbol(draft, q, SymbolAt::Function(f, types, ty), arguments, links)
        }
        Node::Pred(p, types, arguments) => {
            answer_symbol(draft, q, SymbolAt::Predicate(p, types), arguments, links)
        }
        Node::Case(scrutinee, arms) => answer_case(draft, q, scrutinee, arms, links),
        _ => unreachable!(),
    }
}
