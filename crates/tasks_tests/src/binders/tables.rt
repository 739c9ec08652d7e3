// Trees with binders, and what each call makes of them, reasoned from the textbook's equations.
// They go through the calls of `binders` over a store; nothing depends on them.
use crate::binders::calls::{Change, is_made, make_change, put};
use crate::binders::random::{agree_on_random_trees, fill, put_into_chain};
use std::alloc::Global;
use trees::binders::{has_param, occurs};
use trees::store::Store;
use trees::{Node, TermId};

// The rows' numbers: the place in the table is the number in the store.
static NODES: [Node; 30] = [
    Node::End, // 0
    Node::TyApp(0, TermId(0)), // 1  int
    Node::Num(7), // 2  7
    Node::Bound(0, TermId(1)), // 3  #0
    Node::Bound(1, TermId(1)), // 4  #1
    Node::Bound(2, TermId(1)), // 5  #2
    Node::Param(5, TermId(1)), // 6  c5
    Node::Eq(TermId(3), TermId(2)), // 7  #0 = 7
    Node::Eq(TermId(2), TermId(2)), // 8  7 = 7
    Node::Eq(TermId(4), TermId(3)), // 9  #1 = #0
    Node::Exists(TermId(1), TermId(9)), // 10 exists. #1 = #0
    Node::Eq(TermId(2), TermId(3)), // 11 7 = #0
    Node::Exists(TermId(1), TermId(11)), // 12 exists. 7 = #0
    Node::Eq(TermId(5), TermId(3)), // 13 #2 = #0
    Node::Exists(TermId(1), TermId(13)), // 14 exists. #2 = #0
    Node::Eq(TermId(6), TermId(3)), // 15 c5 = #0
    Node::Exists(TermId(1), TermId(15)), // 16 exists. c5 = #0
    Node::Eq(TermId(3), TermId(4)), // 17 #0 = #1
    Node::Eq(TermId(6), TermId(2)), // 18 c5 = 7
    Node::Eq(TermId(2), TermId(6)), // 19 7 = c5
    Node::TyVar(0), // 20 'a
    Node::PatVar(TermId(20)), // 21 x : 'a
    Node::Bound(0, TermId(20)), // 22 #0 : 'a
    Node::Eq(TermId(22), TermId(22)), // 23 #0 = #0 at 'a
    Node::Exists(TermId(20), TermId(23)), // 24 exists 'a. #0 = #0
    Node::Eq(TermId(3), TermId(3)), // 25 #0 = #0
    Node::Exists(TermId(1), TermId(25)), // 26 exists. #0 = #0
    Node::PatVar(TermId(1)), // 27 x : int
    Node::Arm(TermId(27), TermId(4)), // 28 x -> #1
    Node::Arm(TermId(27), TermId(2)), // 29 x -> 7
];

// A change, a tree, and what it becomes.
static MADE: [(Change, usize, usize); 37] = [
    (Change::Shift(1, 0), 3, 4),
    (Change::Shift(2, 0), 3, 5),
    (Change::Shift(1, 1), 3, 3),
    (Change::Shift(1, 1), 4, 5),
    (Change::Shift(1, 0), 10, 14),
    (Change::Shift(1, 1), 10, 10),
    (Change::Shift(0, 0), 7, 7),
    (Change::Shift(9, 0), 8, 8),
    (Change::Shift(1, 0), 24, 24),
    (Change::Put(2), 3, 2),
    (Change::Put(2), 4, 3),
    (Change::Put(2), 5, 4),
    (Change::Put(2), 7, 8),
    (Change::Put(6), 7, 18),
    (Change::Put(2), 10, 12),
    (Change::Put(3), 10, 10),
    (Change::Put(4), 10, 14),
    (Change::Put(6), 10, 16),
    (Change::Put(2), 14, 10),
    (Change::Put(2), 28, 29),
    (Change::Put(6), 8, 8),
    (Change::PutTwo(6, 2), 9, 18),
    (Change::PutTwo(6, 2), 17, 19),
    (Change::PutTwo(2, 6), 10, 16),
    (Change::Types(1), 20, 1),
    (Change::Types(1), 21, 27),
    (Change::Types(1), 23, 25),
    (Change::Types(1), 24, 26),
    (Change::Types(20), 24, 24),
    (Change::Types(1), 26, 26),
    (Change::Close(5), 6, 3),
    (Change::Close(4), 6, 6),
    (Change::Close(5), 18, 7),
    (Change::Close(5), 19, 11),
    (Change::Close(5), 16, 10),
    (Change::Close(5), 10, 14),
    (Change::Close(5), 3, 4),
];

// Whether each node has its place as its number.
fn fill_store(store: &mut Store) -> bool {
    for (i, node) in NODES.iter().enumerate() {
        if put(store, *node) != Some(TermId(i)) {
            return false;
        }
    }
    true
}

// Whether the calls make what a row says, and it is told without memory of that tree, and not of the empty list.
fn is_row(alloc: Global, store: &mut Store, change: Change, e: TermId, wanted: TermId) -> bool {
    make_change(alloc, store, e, change) == Some(wanted)
        && is_made(store, e, change, wanted) != Some(false)
        && is_made(store, e, change, TermId(0)) != Some(true)
}

// Whether a tree is a part of another, and whether a parameter is in it.
fn part_in(store: &Store, part: TermId, param: usize, e: TermId) -> Option<(bool, bool)> {
    if store.holds(e) && store.holds(part) {
        Some((occurs(store, part, e), has_param(store, e, param)))
    } else {
        None
    }
}

#[test]
fn changes_trees(rt: HostRuntime) {
    let mut store = Store::new(rt.alloc()).expect(&rt, "memory");
    assert!(rt; fill_store(&mut store));
    for (change, e, wanted) in MADE.iter() {
        let is = is_row(rt.alloc(), &mut store, *change, TermId(*e), TermId(*wanted));
        assert!(rt; is, "{e} {wanted}");
    }
    // A tree, another one, whether that is a part of it, a parameter, and whether that is in it.
    for (e, part, is_part, param, has) in [
        (16, 6, true, 5, true),
        (16, 16, true, 4, false),
        (16, 2, false, 6, false),
        (10, 1, true, 5, false),
    ] {
        assert!(rt; part_in(&store, TermId(part), param, TermId(e)) == Some((is_part, has)));
    }
    let mut seed = 1_961;
    assert!(rt; fill(&mut store, &mut seed));
    assert!(rt; agree_on_random_trees(rt.alloc(), &mut store, &mut seed));
    assert!(rt; put_into_chain(rt.alloc(), &mut store) == Some(true));
}
