// The trees of the rows, as nodes in the order in which a store gets them: the first has the number 2.
// The symbols are those of the small task.
use trees::{Node, Op, TermId};

const INT: TermId = TermId(1);

const END: TermId = TermId(0);

/// Each node's number is its place and 2 more.
pub(crate) static NODES: [Node; 67] = [
    // 2: 'a; 4: list 'a; 6: list int; 7: 'b of the goal
    Node::TyVar(0),
    Node::Cell(TermId(2), END),
    Node::TyApp(1, TermId(3)),
    Node::Cell(INT, END),
    Node::TyApp(1, TermId(5)),
    Node::TyRigid(6),
    Node::Cell(TermId(7), END),
    // 9: 1; 11: p 1; 12: the variable 0 of type int; 14: p on it
    Node::Num(1),
    Node::Cell(TermId(9), END),
    Node::Pred(4, END, TermId(10)),
    Node::Bound(0, INT),
    Node::Cell(TermId(12), END),
    Node::Pred(4, END, TermId(13)),
    // 15: forall x: int. p x; 16: forall x: list int. p x
    Node::Forall(INT, TermId(14)),
    Node::Forall(TermId(6), TermId(14)),
    // 17: let x = 1 in p x; 18: Nil; 19: let x = Nil in p x
    Node::Let(TermId(9), TermId(14)),
    Node::Fun(2, TermId(5), END, TermId(6)),
    Node::Let(TermId(18), TermId(14)),
    // 22: (if true then 1 else 1) = 1; 24: (if true then 1 else Nil) = 1
    Node::True,
    Node::If(TermId(20), TermId(9), TermId(9)),
    Node::Eq(TermId(21), TermId(9)),
    Node::If(TermId(20), TermId(9), TermId(18)),
    Node::Eq(TermId(23), TermId(9)),
    // 26: f 1 = 1 at int; 29: f 1 = 1 at list int
    Node::Fun(5, TermId(5), TermId(10), INT),
    Node::Eq(TermId(25), TermId(9)),
    Node::Cell(TermId(6), END),
    Node::Fun(5, TermId(27), TermId(10), INT),
    Node::Eq(TermId(28), TermId(9)),
    // 34: forall x: 'b. f x = x at 'b; 37: forall x: 'b. f x = 1 at 'b
    Node::Bound(0, TermId(7)),
    Node::Cell(TermId(30), END),
    Node::Fun(5, TermId(8), TermId(31), TermId(7)),
    Node::Eq(TermId(32), TermId(30)),
    Node::Forall(TermId(7), TermId(33)),
    Node::Fun(5, TermId(8), TermId(31), INT),
    Node::Eq(TermId(35), TermId(9)),
    Node::Forall(TermId(7), TermId(36)),
    // 40: Cons 1 Nil; 46: Cons x _ as z; 49: p x; 54: match Cons 1 Nil with Cons x _ as z -> p x | _ -> true end
    Node::Cell(TermId(18), END),
    Node::Cell(TermId(9), TermId(38)),
    Node::Fun(3, TermId(5), TermId(39), TermId(6)),
    Node::PatVar(INT),
    Node::PatAny(TermId(6)),
    Node::Cell(TermId(42), END),
    Node::Cell(TermId(41), TermId(43)),
    Node::PatCon(3, TermId(5), TermId(44), TermId(6)),
    Node::PatAlias(TermId(45)),
    Node::Bound(1, INT),
    Node::Cell(TermId(47), END),
    Node::Pred(4, END, TermId(48)),
    Node::Arm(TermId(46), TermId(49)),
    Node::Arm(TermId(42), TermId(20)),
    Node::Cell(TermId(51), END),
    Node::Cell(TermId(50), TermId(52)),
    Node::Case(TermId(40), TermId(53)),
    // 57: the same with p z in the first branch
    Node::Arm(TermId(46), TermId(14)),
    Node::Cell(TermId(55), TermId(52)),
    Node::Case(TermId(40), TermId(56)),
    // 61: match Cons 1 Nil with Nil -> true | _ -> true end; 66: match 1 with f x -> true end
    Node::PatCon(2, TermId(5), END, TermId(6)),
    Node::Arm(TermId(58), TermId(20)),
    Node::Cell(TermId(59), TermId(52)),
    Node::Case(TermId(40), TermId(60)),
    Node::Cell(TermId(41), END),
    Node::PatCon(5, TermId(5), TermId(62), INT),
    Node::Arm(TermId(63), TermId(20)),
    Node::Cell(TermId(64), END),
    Node::Case(TermId(9), TermId(65)),
    // 67: not p 1; 68: p 1 and p 1
    Node::Not(TermId(11)),
    Node::Join(Op::And, TermId(11), TermId(11)),
];
