// Nodes added to a store, and what each query answers of them.
// They go through the calls of `term_store`; nothing depends on them.
use std::process::Abort;
use trees::store::{Grow, Store};
use trees::{Node, Op, Sort, TermId};

// Adds a node that fits.
fn put(rt: &impl Abort, store: &mut Store, node: Node) -> TermId {
    assert!(rt; store.accepts(node));
    store.add(node).expect(rt, "memory")
}

// A node, and sort, size, height, loose depth, variables and type of its tree. The numbers of its children are those of the
// rows before it.
type Row = (Node, Sort, u64, u64, usize, usize, Option<TermId>);

static ROWS: [Row; 17] = [
    (Node::End, Sort::List, 1, 1, 0, 0, None),
    (Node::TyApp(0, TermId(0)), Sort::Kind, 2, 2, 0, 0, None),
    (Node::Num(7), Sort::Term, 1, 1, 0, 0, Some(TermId(1))),
    (
        Node::Bound(0, TermId(1)),
        Sort::Term,
        3,
        3,
        1,
        0,
        Some(TermId(1)),
    ),
    (
        Node::Bound(2, TermId(1)),
        Sort::Term,
        3,
        3,
        3,
        0,
        Some(TermId(1)),
    ),
    (
        Node::Cell(TermId(4), TermId(0)),
        Sort::List,
        5,
        4,
        3,
        0,
        None,
    ),
    (
        Node::Pred(4, TermId(0), TermId(5)),
        Sort::Formula,
        7,
        5,
        3,
        0,
        None,
    ),
    (
        Node::Forall(TermId(1), TermId(6)),
        Sort::Formula,
        10,
        6,
        2,
        0,
        None,
    ),
    (
        Node::PatVar(TermId(1)),
        Sort::Pattern,
        3,
        3,
        0,
        1,
        Some(TermId(1)),
    ),
    (
        Node::PatAlias(TermId(8)),
        Sort::Pattern,
        4,
        4,
        0,
        2,
        Some(TermId(1)),
    ),
    (
        Node::Cell(TermId(8), TermId(0)),
        Sort::List,
        5,
        4,
        0,
        1,
        None,
    ),
    (
        Node::Cell(TermId(9), TermId(10)),
        Sort::List,
        10,
        5,
        0,
        3,
        None,
    ),
    (
        Node::PatCon(9, TermId(0), TermId(11), TermId(1)),
        Sort::Pattern,
        14,
        6,
        0,
        3,
        Some(TermId(1)),
    ),
    (
        Node::Arm(TermId(12), TermId(4)),
        Sort::Branch,
        18,
        7,
        0,
        0,
        None,
    ),
    (
        Node::Cell(TermId(13), TermId(0)),
        Sort::List,
        20,
        8,
        0,
        0,
        None,
    ),
    (
        Node::Case(TermId(3), TermId(14)),
        Sort::Term,
        24,
        9,
        1,
        0,
        Some(TermId(1)),
    ),
    (
        Node::If(TermId(7), TermId(2), TermId(15)),
        Sort::Term,
        36,
        10,
        2,
        0,
        Some(TermId(1)),
    ),
];

// Whether the queries answer of a tree what the row says.
fn answers(store: &Store, id: TermId, row: Row) -> bool {
    let (node, sort, size, height, loose, variables, ty) = row;
    store.holds(id)
        && store.node(id) == node
        && store.sort(id) == sort
        && store.size(id) == size
        && store.height(id) == height
        && store.loose(id) == loose
        && store.pattern_variables(id) == variables
        && store.ty(id) == ty
}

fn answers_of_each_tree(rt: &impl Abort, store: &mut Store) {
    for (i, row) in ROWS.iter().enumerate() {
        let id = put(rt, store, row.0);
        assert!(rt; id.0 == i && answers(store, id, *row), "{i}");
    }
}

// Nodes over the rows above, and the numbers above their type variables and parameters.
static ABOVE: [(Node, usize, usize); 8] = [
    (Node::TyApp(0, TermId(0)), 0, 0), // 1  int
    (Node::TyVar(2), 3, 0), // 17 the type variable 2
    (Node::TyVar(usize::MAX), usize::MAX, 0), // 18 the greatest type variable
    (Node::Param(4, TermId(1)), 0, 5), // 19 c4 : int
    (Node::Param(3, TermId(17)), 3, 4), // 20 c3 : the type variable 2
    (Node::Eq(TermId(19), TermId(20)), 3, 5), // 21 c4 = c3
    (Node::Forall(TermId(17), TermId(21)), 3, 5), // 22 forall. c4 = c3
    (Node::Param(usize::MAX, TermId(1)), 0, usize::MAX), // 23 the greatest parameter
];

// Whether these numbers are kept above the type variables and the parameters of a tree.
fn are_above(store: &Store, id: TermId, types: usize, params: usize) -> bool {
    store.holds(id)
        && store.above_type_variables(id) == types
        && store.above_parameters(id) == params
}

fn numbers_above_variables(rt: &impl Abort, store: &mut Store) {
    for (node, types, params) in ABOVE.iter() {
        let id = put(rt, store, *node);
        assert!(rt; are_above(store, id, *types, *params));
    }
}

// Nodes over the rows above that do not fit.
static REFUSED: [Node; 14] = [
    Node::Cell(TermId(1), TermId(5)),
    Node::Cell(TermId(2), TermId(2)),
    Node::Cell(TermId(0), TermId(0)),
    Node::TyApp(1, TermId(5)),
    Node::TyApp(1, TermId(1)),
    Node::Fun(2, TermId(5), TermId(0), TermId(1)),
    Node::Fun(2, TermId(0), TermId(5), TermId(2)),
    Node::Pred(2, TermId(0), TermId(10)),
    Node::PatCon(2, TermId(0), TermId(5), TermId(1)),
    Node::Bound(usize::MAX, TermId(1)),
    Node::Bound(0, TermId(2)),
    Node::Case(TermId(2), TermId(0)),
    Node::If(TermId(7), TermId(2), TermId(7)),
    Node::Not(TermId(1000)),
];

// Conjunctions of a tree with itself, whose nodes count as often as they occur.
fn counts_shared_parts(rt: &impl Abort, store: &mut Store) {
    let mut last = put(rt, store, Node::True);
    let mut size = 1_u64;
    for levels in 1..74_u64 {
        last = put(rt, store, Node::Join(Op::And, last, last));
        size = size.saturating_mul(2).saturating_add(1);
        assert!(rt; store.holds(last));
        assert!(rt; store.height(last) == levels + 1 && store.size(last) == size);
    }
    assert!(rt; size == u64::MAX);
}

// One type symbol with two lists of arguments.
fn compares_the_arguments(rt: &impl Abort, store: &mut Store) {
    let first = put(rt, store, Node::TyApp(9, TermId(0)));
    let list = put(rt, store, Node::Cell(TermId(1), TermId(0)));
    let second = put(rt, store, Node::TyApp(9, list));
    assert!(rt; store.holds(first) && store.holds(second));
    assert!(rt; store.same(first, first) && !store.same(first, second));
}

// Adds literals that are new at first, from a number on.
fn add_literals(rt: &impl Abort, store: &mut Store, first: TermId) {
    for literal in 0..1048576 {
        let id = store
            .add(Node::Num((literal + 8) as i128))
            .expect(rt, "memory");
        assert!(rt; first.0.checked_add(literal) == Some(id.0));
    }
}

#[test]
fn answers_of_trees(rt: HostRuntime) {
    let mut store = Store::new(rt.alloc()).expect(&rt, "memory");
    let (end, int) = (TermId(0), store.int_type());
    assert!(rt; int == TermId(1) && store.holds(end) && !store.holds(TermId(2)));
    assert!(rt; store.same(int, int) && !store.same(int, end));
    assert!(rt; store.binders(Node::Forall(int, end), int) == 1);
    answers_of_each_tree(&rt, &mut store);
    for node in REFUSED.iter() {
        assert!(rt; !store.accepts(*node));
    }
    numbers_above_variables(&rt, &mut store);
    compares_the_arguments(&rt, &mut store);
    counts_shared_parts(&rt, &mut store);
    let first = put(&rt, &mut store, Node::Num(8));
    add_literals(&rt, &mut store, first);
    add_literals(&rt, &mut store, first);
}
