// Random nodes of each kind over the numbers so far, and the store beside its reference on those that fit.
// They go through the calls of `term_store`; nothing depends on them.
ghost use Rattle.trees.specs.Node.{Holds};

use std::process::Abort;
use trees::store::plain::PlainStore;
use trees::store::{Grow, Store};
use trees::{Node, Op, TermId};

const KINDS: usize = 25;

// The kinds of a list's first member and rest, and of a branch.
const CELL: usize = 3;

const BRANCH: usize = 20;

// How many nodes of each kind are taken; of lists more, over all of the others.
const EACH: usize = 20;

// A number below a bound, from a linear congruential generator.
fn random(seed: &mut u64, bound: u64) -> u64 {
    *seed = (*seed % 2_147_483_648 * 1_103_515_245 + 12_345) % 2_147_483_648;
    *seed / 65_536 % bound.max(1)
}

// A number for a child: that of the empty list, of `int`, of the latest list or branch, or any of so many.
fn child(seed: &mut u64, list: TermId, branch: TermId, count: u64) -> TermId {
    match random(seed, 8) {
        0 => TermId(0),
        1 => TermId(1),
        2 => list,
        3 => branch,
        _ => TermId(random(seed, count) as usize),
    }
}

// A node of a kind with a number, over three children.
fn node_of(kind: usize, number: usize, a: TermId, b: TermId, c: TermId) -> Node {
    match kind {
        0 => Node::TyVar(number),
        1 => Node::TyRigid(number),
        2 => Node::TyApp(number, a),
        3 => Node::Cell(a, b),
        4 => Node::Bound(number, a),
        5 => Node::Param(number, a),
        6 => Node::Num(number as i128),
        7 => Node::Fun(number, a, b, c),
        8 => Node::Pred(number, a, b),
        9 => Node::Eq(a, b),
        10 => Node::True,
        11 => Node::False,
        12 => Node::Not(a),
        13 => Node::Join(Op::And, a, b),
        14 => Node::Join(Op::Imp, a, b),
        15 => Node::Forall(a, b),
        16 => Node::Exists(a, b),
        17 => Node::Let(a, b),
        18 => Node::If(a, b, c),
        19 => Node::Case(a, b),
        20 => Node::Arm(a, b),
        21 => Node::PatAny(a),
        22 => Node::PatVar(a),
        23 => Node::PatCon(number, a, b, c),
        _ => Node::PatAlias(a),
    }
}

// Whether both stores answer alike of a number.
fn agree(store: &Store, plain: &PlainStore, id: TermId) -> bool
    requires store { Holds store.now id }
    requires plain { Holds plain.now id }
{
    store.node(id) == plain.node(id)
        && store.sort(id) == plain.sort(id)
        && store.size(id) == plain.size(id)
        && store.height(id) == plain.height(id)
        && store.loose(id) == plain.loose(id)
        && store.pattern_variables(id) == plain.pattern_variables(id)
        && store.above_type_variables(id) == plain.above_type_variables(id)
        && store.above_parameters(id) == plain.above_parameters(id)
        && store.ty(id) == plain.ty(id)
}

// Both stores take a node, or both refuse it. Whether it is taken.
fn take_node(rt: &impl Abort, store: &mut Store, plain: &mut PlainStore, node: Node) -> bool {
    if !store.accepts(node) {
        assert!(rt; !plain.accepts(node));
        return false;
    }
    assert!(rt; plain.accepts(node));
    let id = store.add(node).expect(rt, "memory");
    let other = plain.add(node).expect(rt, "memory");
    assert!(rt; id.0 == other.0 && agree(store, plain, id));
    true
}

#[test]
fn answers_as_the_plain_list_does(rt: HostRuntime) {
    let mut store = Store::new(rt.alloc()).expect(&rt, "memory");
    let mut plain = PlainStore::new(rt.alloc()).expect(&rt, "memory");
    let mut made = [0; KINDS];
    let mut seed = 20_261;
    let mut count = 2_u64;
    let mut list = TermId(0);
    let mut branch = TermId(0);
    for step in 0..200_000 {
        let kind = step % KINDS;
        let most = if kind == CELL { step / 1000 } else { EACH };
        if made[kind] < most {
            let number = random(&mut seed, 4) as usize;
            let a = child(&mut seed, list, branch, count);
            let b = child(&mut seed, list, branch, count);
            let c = child(&mut seed, list, branch, count);
            if take_node(&rt, &mut store, &mut plain, node_of(kind, number, a, b, c)) {
                made[kind] += 1;
            }
            if store.holds(TermId(count as usize)) {
                match kind {
                    CELL => list = TermId(count as usize),
                    BRANCH => branch = TermId(count as usize),
                    _ => {}
                }
                count = count.saturating_add(1);
            }
        }
    }
    for taken in made {
        assert!(rt; taken >= EACH / 2);
    }
    assert!(rt; count > 200);
}
