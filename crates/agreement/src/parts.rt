// The questions for the parts of two expressions of one operator.
ghost use Rattle.std.specs.Prelude.{◌≡◌, ◌<◌, List, IfOk};
ghost use Rattle.trees.specs.Tree.{Tree, One, Two, Three, HNot, HJoin, HEq, HIf, HLet};
ghost use Rattle.trees.specs.Node.{tree_at, Holds};
ghost use Rattle.evidence.specs.Drafts.{AddsTrees};
ghost use Rattle.congruence.specs.Quantifiers.{quantifier_head};
ghost use Rattle.agreement.specs.Agreement.{ArePartsOf};
ghost use Rattle.agreement.specs.Questions.{IsAsked, AreQuestions};

use crate::branches::case_parts;
use crate::members::symbol_parts;
use crate::questions::Question;
use congruence::{SymbolAt, instance, parameter};
use evidence::Draft;
use std::alloc::AllocError;
use tasks::Grow;
use trees::{Node, Op, TermId};

// Of two negations.
fn not_parts(draft: &Draft, q: Question, a: TermId) -> Result<Vec<Question>, AllocError>
    requires asked { IsAsked draft.now q }
    requires left { tree_at draft.now.trees q.left ≡ One HNot (tree_at draft.now.trees a) }
    requires below { a.0 < q.left.0 }
    requires parts { (ps : List (Tree × Tree)) × ArePartsOf draft.now.task q.number
        (tree_at draft.now.trees q.left) (tree_at draft.now.trees q.right) ps }
    ensures parts { IfOk result (λ v. AreQuestions draft.now q v.items) }
{
    let number = q.number;
    match draft.store().node(q.right) {
        Node::Not(b) => {
            Vec::from_slice(
                draft.allocator(),
                &[Question {
                    left: a,
                    right: b,
                    number,
                }],
            )
        }
        _ => unreachable!(),
    }
}

// Of two formulas of one connective.
fn join_parts(
    draft: &Draft,
    q: Question,
    op: Op,
    a: TermId,
    c: TermId,
) -> Result<Vec<Question>, AllocError>
    requires asked { IsAsked draft.now q }
    requires left { tree_at draft.now.trees q.left ≡ Two (HJoin op) (tree_at draft.now.trees a)
        (tree_at draft.now.trees c) }
    requires first_below { a.0 < q.left.0 }
    requires second_below { c.0 < q.left.0 }
    requires parts { (ps : List (Tree × Tree)) × ArePartsOf draft.now.task q.number
        (tree_at draft.now.trees q.left) (tree_at draft.now.trees q.right) ps }
    ensures parts { IfOk result (λ v. AreQuestions draft.now q v.items) }
{
    let number = q.number;
    match draft.store().node(q.right) {
        Node::Join(_, b, e) => {
            Vec::from_slice(
                draft.allocator(),
                &[
                    Question {
                        left: a,
                        right: b,
                        number,
                    },
                    Question {
                        left: c,
                        right: e,
                        number,
                    },
                ],
            )
        }
        _ => unreachable!(),
    }
}

// Of two equations.
fn equal_parts(
    draft: &Draft,
    q: Question,
    a: TermId,
    c: TermId,
) -> Result<Vec<Question>, AllocError>
    requires asked { IsAsked draft.now q }
    requires left { tree_at draft.now.trees q.left ≡ Two HEq (tree_at draft.now.trees a)
        (tree_at draft.now.trees c) }
    requires first_below { a.0 < q.left.0 }
    requires second_below { c.0 < q.left.0 }
    requires parts { (ps : List (Tree × Tree)) × ArePartsOf draft.now.task q.number
        (tree_at draft.now.trees q.left) (tree_at draft.now.trees q.right) ps }
    ensures parts { IfOk result (λ v. AreQuestions draft.now q v.items) }
{
    let number = q.number;
    match draft.store().node(q.right) {
        Node::Eq(b, e) => {
            Vec::from_slice(
                draft.allocator(),
                &[
                    Question {
                        left: a,
                        right: b,
                        number,
                    },
                    Question {
                        left: c,
                        right: e,
                        number,
                    },
                ],
            )
        }
        _ => unreachable!(),
    }
}

// Of two `if`s.
fn if_parts(
    draft: &Draft,
    q: Question,
    c: TermId,
    a: TermId,
    b: TermId,
) -> Result<Vec<Question>, AllocError>
    requires asked { IsAsked draft.now q }
    requires left { tree_at draft.now.trees q.left ≡ Three HIf (tree_at draft.now.trees c)
        (tree_at draft.now.trees a) (tree_at draft.now.trees b) }
    requires condition_below { c.0 < q.left.0 }
    requires then_below { a.0 < q.left.0 }
    requires else_below { b.0 < q.left.0 }
    requires parts { (ps : List (Tree × Tree)) × ArePartsOf draft.now.task q.number
        (tree_at draft.now.trees q.left) (tree_at draft.now.trees q.right) ps }
    ensures parts { IfOk result (λ v. AreQuestions draft.now q v.items) }
{
    let number = q.number;
    match draft.store().node(q.right) {
        Node::If(d, x, y) => {
            Vec::from_slice(
                draft.allocator(),
                &[
                    Question {
                        left: c,
                        right: d,
                        number,
                    },
                    Question {
                        left: a,
                        right: x,
                        number,
                    },
                    Question {
                        left: b,
                        right: y,
                        number,
                    },
                ],
            )
        }
        _ => unreachable!(),
    }
}

// Of two quantified formulas: their bodies at the next parameter.
fn under_parts(
    draft: &mut Draft,
    q: Question,
    universal: bool,
    ty: TermId,
    a: TermId,
) -> Result<Vec<Question>, AllocError>
    requires asked { IsAsked draft.old q }
    requires left { tree_at draft.old.trees q.left ≡ Two (quantifier_head universal)
        (tree_at draft.old.trees ty) (tree_at draft.old.trees a) }
    requires type_below { ty.0 < q.left.0 }
    requires body_below { a.0 < q.left.0 }
    requires parts { (ps : List (Tree × Tree)) × ArePartsOf draft.old.task q.number
        (tree_at draft.old.trees q.left) (tree_at draft.old.trees q.right) ps }
    ensures parts { IfOk result (λ v. AreQuestions draft.new q v.items) }
    ensures grows { AddsTrees draft.old draft.new }
{
    if q.number == usize::MAX {
        return Err(AllocError);
    }
    let b = body_of(draft, universal, q.right);
    let term = parameter(draft, q.number, ty)?;
    let left = instance(draft.allocator(), draft, a, term)?;
    let right = instance(draft.allocator(), draft, b, term)?;
    Vec::from_slice(
        draft.allocator(),
        &[Question {
            left,
            right,
            number: q.number + 1,
        }],
    )
}

/// The body of a quantified formula.
pub(crate) fn body_of(draft: &Draft, universal: bool, id: TermId) -> TermId
    requires held { Holds draft.now.trees id }
    requires is { (ty : Tree) × ((x : Tree) × (tree_at draft.now.trees id
        ≡ Two (quantifier_head universal) ty x)) }
    ensures held { Holds draft.now.trees result }
    ensures tree { (ty x : Tree) → tree_at draft.now.trees id ≡ Two (quantifier_head universal) ty x
        → tree_at draft.now.trees id ≡ Two (quantifier_head universal) ty
        (tree_at draft.now.trees result) }
{
    if universal {
        match draft.store().node(id) {
            Node::Forall(_, body) => body,
            _ => unreachable!(),
        }
    } else {
        match draft.store().node(id) {
            Node::Exists(_, body) => body,
            _ => unreachable!(),
        }
    }
}

// Of two `let`s: their bodies at their values.
fn let_parts(
    draft: &mut Draft,
    q: Question,
    v: TermId,
    a: TermId,
) -> Result<Vec<Question>, AllocError>
    requires asked { IsAsked draft.old q }
    requires left { tree_at draft.old.trees q.left ≡ Two HLet (tree_at draft.old.trees v)
        (tree_at draft.old.trees a) }
    requires value_below { v.0 < q.left.0 }
    requires body_below { a.0 < q.left.0 }
    requires parts { (ps : List (Tree × Tree)) × ArePartsOf draft.old.task q.number
        (tree_at draft.old.trees q.left) (tree_at draft.old.trees q.right) ps }
    ensures parts { IfOk result (λ v. AreQuestions draft.new q v.items) }
    ensures grows { AddsTrees draft.old draft.new }
{
    let number = q.number;
    match draft.store().node(q.right) {
        Node::Let(w, b) => {
            let left = instance(draft.allocator(), draft, a, v)?;
            let right = instance(draft.allocator(), draft, b, w)?;
            Vec::from_slice(
                draft.allocator(),
                &[Question {
                    left,
                    right,
                    number,
                }],
            )
        }
        _ => unreachable!(),
    }
}

/// The questions for the parts of two expressions of one operator.
pub(crate) fn parts_of(draft: &mut Draft, q: Question) -> Result<Vec<Question>, AllocError>
    requires asked { IsAsked draft.old q }
    requires parts { (ps : List (Tree × Tree)) × ArePartsOf draft.old.task q.number
        (tree_at draft.old.trees q.left) (tree_at draft.old.trees q.right) ps }
    ensures parts { IfOk result (λ v. AreQuestions draft.new q v.items) }
    ensures grows { AddsTrees draft.old draft.new }
{
    match draft.store().node(q.left) {
        Node::Not(a) => not_parts(draft, q, a),
        Node::Join(op, a, c) => join_parts(draft, q, op, a, c),
        Node::Eq(a, c) => equal_parts(draft, q, a, c),
        Node::If(c, a, b) => if_parts(draft, q, c, a, b),
        Node::Forall(ty, a) => under_parts(draft, q, true, ty, a),
        Node::Exists(ty, a) => under_parts(draft, q, false, ty, a),
        Node::Let(v, a) => let_parts(draft, q, v, a),
        Node::Fun(f, types, arguments, ty) => symbol_parts(
            draft,
            q,
            SymbolAt::Function(f, types, ty),
            arguments,
        ),
        Node::Pred(p, types, arguments) => symbol_parts(
            draft,
            q,
            SymbolAt::Predicate(p, types),
            arguments,
        ),
        Node::Case(scrutinee, arms) => case_parts(draft, q, scrutinee, arms),
        _ => unreachable!(),
    }
}
