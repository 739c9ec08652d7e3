// The rows: a sequent by its nodes' numbers, places with their multipliers, and whether the leaf closes.
ghost use Rattle.std.specs.Prelude.{All, IsTrue};
ghost use Rattle.trees.specs.Node.{Holds};

use linear_leaf::closes_linear;
use std::alloc::Global;
use std::process::Abort;
use step_reading::shared_sums::is_closed_by;
use trees::store::{Grow, Store};
use trees::{Ints, Node, TermId};

const MEMORY: &str = "out of memory";

static INTS: Ints = Ints {
    neg: 1,
    add: 2,
    sub: 3,
    mul: 4,
    lt: 5,
    le: 6,
    gt: 7,
    ge: 8,
};

const END: TermId = TermId(0);

const INT: TermId = TermId(1);

// Each node's number is its place and 2 more.
static NODES: [Node; 51] = [
    // 2: 0; 3: 1; 4: 2; 5: x
    Node::Num(0),
    Node::Num(1),
    Node::Num(2),
    Node::Param(0, INT),
    // 8: 1 < 0
    Node::Cell(TermId(2), END),
    Node::Cell(TermId(3), TermId(6)),
    Node::Pred(5, END, TermId(7)),
    // 12: 2 * x = 1
    Node::Cell(TermId(5), END),
    Node::Cell(TermId(4), TermId(9)),
    Node::Fun(4, END, TermId(10), INT),
    Node::Eq(TermId(11), TermId(3)),
    // 14: x <= 0; 16: 1 <= x
    Node::Cell(TermId(5), TermId(6)),
    Node::Pred(6, END, TermId(13)),
    Node::Cell(TermId(3), TermId(9)),
    Node::Pred(6, END, TermId(15)),
    // 19: 0 <= 1; 20: not (0 <= 1)
    Node::Cell(TermId(3), END),
    Node::Cell(TermId(2), TermId(17)),
    Node::Pred(6, END, TermId(18)),
    Node::Not(TermId(19)),
    // 24: (x - x) * x; 26: (x - x) * x < 0; 27: (x - x) * x >= 0
    Node::Cell(TermId(5), TermId(9)),
    Node::Fun(3, END, TermId(21), INT),
    Node::Cell(TermId(22), TermId(9)),
    Node::Fun(4, END, TermId(23), INT),
    Node::Cell(TermId(24), TermId(6)),
    Node::Pred(5, END, TermId(25)),
    Node::Pred(8, END, TermId(25)),
    // 30: 0 < x - x
    Node::Cell(TermId(22), END),
    Node::Cell(TermId(2), TermId(28)),
    Node::Pred(5, END, TermId(29)),
    // 37: 0 < x + - x
    Node::Fun(1, END, TermId(9), INT),
    Node::Cell(TermId(31), END),
    Node::Cell(TermId(5), TermId(32)),
    Node::Fun(2, END, TermId(33), INT),
    Node::Cell(TermId(34), END),
    Node::Cell(TermId(2), TermId(35)),
    Node::Pred(5, END, TermId(36)),
    // 38: not (1 < 0); 39: 0 > 1; 40: 0 < 1; 41: not (0 < 1)
    Node::Not(TermId(8)),
    Node::Pred(7, END, TermId(18)),
    Node::Pred(5, END, TermId(18)),
    Node::Not(TermId(40)),
    // 42: 0 >= 1; 43: not (0 >= 1); 44: 1 > 0; 45: not (1 > 0)
    Node::Pred(8, END, TermId(18)),
    Node::Not(TermId(42)),
    Node::Pred(7, END, TermId(7)),
    Node::Not(TermId(44)),
    // 46: true; 49: y = y, of another type
    Node::True,
    Node::TyApp(9, END),
    Node::Param(1, TermId(47)),
    Node::Eq(TermId(48), TermId(48)),
    // 51: 2 * x < 0 with another function in place of the product
    Node::Fun(9, END, TermId(10), INT),
    Node::Cell(TermId(50), TermId(6)),
    Node::Pred(5, END, TermId(51)),
];

// 2^124; the weight of 1 < 0 is four times the multiplier.
const QUARTER: i128 = 21267647932558653966460912964485513216;

static ROWS: [(&[TermId], &[(usize, i128)], bool); 27] = [
    (&[TermId(8)], &[(0, QUARTER)], true),
    (&[TermId(8)], &[(0, QUARTER + 1)], false),
    (&[TermId(8)], &[(0, 0)], false),
    (&[TermId(8)], &[(1, 1)], false),
    (&[TermId(8)], &[], false),
    (&[TermId(8)], &[(0, 1), (0, 1)], true),
    (
        &[TermId(12), TermId(14), TermId(16)],
        &[(0, -1), (1, 2)],
        true,
    ),
    (
        &[TermId(12), TermId(14), TermId(16)],
        &[(0, 1), (2, 2)],
        true,
    ),
    (
        &[TermId(12), TermId(14), TermId(16)],
        &[(0, 1), (1, 2)],
        false,
    ),
    (
        &[TermId(12), TermId(14), TermId(16)],
        &[(0, -1), (1, 1)],
        false,
    ),
    (&[TermId(19)], &[(0, -1)], false),
    (&[TermId(20)], &[(0, 1)], true),
    (&[TermId(26), TermId(27)], &[(0, 1)], false),
    (&[TermId(26), TermId(27)], &[(0, 1), (1, 1)], true),
    (&[TermId(30)], &[(0, 1)], true),
    (&[TermId(37)], &[(0, 1)], true),
    (&[TermId(38)], &[(0, 1)], false),
    (&[TermId(39)], &[(0, 1)], true),
    (&[TermId(40)], &[(0, 1)], false),
    (&[TermId(41)], &[(0, 1)], true),
    (&[TermId(42)], &[(0, 1)], true),
    (&[TermId(43)], &[(0, 1)], false),
    (&[TermId(45)], &[(0, 1)], true),
    (&[TermId(8), TermId(40)], &[(0, 1), (1, 0)], true),
    (&[TermId(8), TermId(46)], &[(0, 1), (1, 0)], false),
    (&[TermId(8), TermId(49)], &[(0, 1), (1, 0)], false),
    (&[TermId(52), TermId(16)], &[(0, 1), (1, 2)], false),
];

// The store of the rows.
fn filled_store(rt: &impl Abort, alloc: Global) -> Store {
    let mut store = Store::new(alloc).expect(rt, MEMORY);
    for (place, node) in NODES.iter().enumerate() {
        assert!(rt; store.accepts(*node));
        let id = store.add(*node).expect(rt, MEMORY);
        assert!(rt; id.0 == place.saturating_add(2));
    }
    store
}

fn are_held(store: &Store, sequent: &[TermId]) -> bool
    ensures { IsTrue result → All (Holds store.now) sequent.now }
{
    match sequent.split_first() {
        Some((first, more)) => store.holds(*first) && are_held(store, more),
        None => true,
    }
}

#[test]
fn a_leaf_closes_or_does_not(rt: HostRuntime) {
    let store = filled_store(&rt, rt.alloc());
    for (sequent, uses, closes) in ROWS.iter() {
        assert!(rt; are_held(&store, sequent));
        assert!(rt; closes_linear(&store, &INTS, sequent, uses) == *closes);
        let shared = is_closed_by(rt.alloc(), &store, &INTS, sequent, uses).expect(&rt, MEMORY);
        assert!(rt; shared == *closes);
    }
}
