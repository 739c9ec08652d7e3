// What is introduced from goals.
use crate::introduce::small::{filled_store, task};
use std::alloc::Global;
use std::process::Abort;
use tr_introduce::introduced_task;
use trees::{Node, Op, TermId};

const INT: TermId = TermId(1);

// Each node's number is its place and 2 more.
static NODES: [Node; 26] = [
    // 2: the variable x; 3, 4: the parameters 0 and 1
    Node::Bound(0, INT),
    Node::Param(0, INT),
    Node::Param(1, INT),
    // 5: x = x; 6: forall x. x = x; 7, 8: the same at the parameters
    Node::Eq(TermId(2), TermId(2)),
    Node::Forall(INT, TermId(5)),
    Node::Eq(TermId(3), TermId(3)),
    Node::Eq(TermId(4), TermId(4)),
    // 9: true; 10: true -> forall x. x = x
    Node::True,
    Node::Join(Op::Imp, TermId(9), TermId(6)),
    // 11: the variable x under one more; 12: x = y; 13: y = x; 16: forall x y. x = y -> y = x; 17, 18: the same at the parameters
    Node::Bound(1, INT),
    Node::Eq(TermId(11), TermId(2)),
    Node::Eq(TermId(2), TermId(11)),
    Node::Join(Op::Imp, TermId(12), TermId(13)),
    Node::Forall(INT, TermId(14)),
    Node::Forall(INT, TermId(15)),
    Node::Eq(TermId(3), TermId(4)),
    Node::Eq(TermId(4), TermId(3)),
    // 22: true -> forall x. x = x -> forall y. x = y
    Node::Forall(INT, TermId(12)),
    Node::Join(Op::Imp, TermId(5), TermId(19)),
    Node::Forall(INT, TermId(20)),
    Node::Join(Op::Imp, TermId(9), TermId(21)),
    // 23: (forall x. x = x) /\ (forall x. x = x); 24: exists x. x = x
    Node::Join(Op::And, TermId(6), TermId(6)),
    Node::Exists(INT, TermId(5)),
    // 25: (exists x. x = x) -> forall x. x = x; 26: true -> true; 27: (true -> true) -> exists x. x = x
    Node::Join(Op::Imp, TermId(24), TermId(6)),
    Node::Join(Op::Imp, TermId(9), TermId(9)),
    Node::Join(Op::Imp, TermId(26), TermId(24)),
];

type Row = (
    &'static [TermId],
    TermId,
    &'static [TermId],
    &'static [TermId],
    TermId,
);

// The parameters and a goal; the parameters, the locals and the goal with what is introduced.
static ROWS: [Row; 9] = [
    (&[], TermId(6), &[INT], &[], TermId(7)),
    (&[INT], TermId(6), &[INT, INT], &[], TermId(8)),
    (&[], TermId(10), &[INT], &[TermId(9)], TermId(7)),
    (&[], TermId(16), &[INT, INT], &[TermId(17)], TermId(18)),
    (
        &[],
        TermId(22),
        &[INT, INT],
        &[TermId(9), TermId(7)],
        TermId(17),
    ),
    (&[], TermId(23), &[], &[], TermId(23)),
    (&[], TermId(24), &[], &[], TermId(24)),
    (&[], TermId(25), &[INT], &[TermId(24)], TermId(7)),
    (&[], TermId(27), &[], &[TermId(26)], TermId(24)),
];

fn compare(rt: &impl Abort, alloc: Global, row: &Row) {
    let (params, goal, made_params, made_locals, made_goal) = *row;
    let mut store = filled_store(rt, alloc, &NODES);
    let whole = task(rt, alloc, &store, params, goal, &[("T", "a", true)]);
    let made = introduced_task(alloc, &mut store, &whole).expect(rt, "out of memory");
    assert!(rt; made.params.as_slice() == made_params);
    assert!(rt; made.locals.as_slice() == made_locals);
    assert!(rt; made.goal == made_goal);
    assert!(rt; made.decls.len() == 1);
}

#[test]
fn parameters_and_premises_are_introduced(rt: HostRuntime) {
    for row in ROWS.iter() {
        compare(&rt, rt.alloc(), row);
    }
}
