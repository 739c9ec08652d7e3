// Random trees of each kind, each changed by the calls and by the plain walk, and a chain that is too large for it.
// They go through the calls of `binders` over a store; the tables depend on them.
use crate::binders::calls::{Change, is_made, make_change, plain, put};
use std::alloc::Global;
use trees::store::Store;
use trees::{Node, Op, TermId};

const KINDS: usize = 25;

// The kinds of a list's first member and rest, and of a branch.
const CELL: usize = 3;

const BRANCH: usize = 20;

// How many nodes of each kind are taken; of lists more, over all of the others.
const EACH: usize = 16;

// A number below a bound, from a linear congruential generator.
fn random(seed: &mut u64, bound: u64) -> u64 {
    *seed = (*seed % 2_147_483_648 * 1_103_515_245 + 12_345) % 2_147_483_648;
    *seed / 65_536 % bound.max(1)
}

// A number for a child: that of the empty list, of `int`, of the latest list or branch, or any of so many.
fn child(seed: &mut u64, list: TermId, branch: TermId, count: u64) -> TermId {
    match random(seed, 8) {
        0 => TermId(0),
        1 => TermId(1),
        2 => list,
        3 => branch,
        _ => TermId(random(seed, count) as usize),
    }
}

// A node of a kind with a number, over three children.
fn node_of(kind: usize, number: usize, a: TermId, b: TermId, c: TermId) -> Node {
    match kind {
        0 => Node::TyVar(number),
        1 => Node::TyRigid(number),
        2 => Node::TyApp(number, a),
        3 => Node::Cell(a, b),
        4 => Node::Bound(number, a),
        5 => Node::Param(number, a),
        6 => Node::Num(number as i128),
        7 => Node::Fun(number, a, b, c),
        8 => Node::Pred(number, a, b),
        9 => Node::Eq(a, b),
        10 => Node::True,
        11 => Node::False,
        12 => Node::Not(a),
        13 => Node::Join(Op::And, a, b),
        14 => Node::Join(Op::Imp, a, b),
        15 => Node::Forall(a, b),
        16 => Node::Exists(a, b),
        17 => Node::Let(a, b),
        18 => Node::If(a, b, c),
        19 => Node::Case(a, b),
        20 => Node::Arm(a, b),
        21 => Node::PatAny(a),
        22 => Node::PatVar(a),
        23 => Node::PatCon(number, a, b, c),
        _ => Node::PatAlias(a),
    }
}

// Adds random trees over those in the store. Whether some of each kind are taken.
pub fn fill(store: &mut Store, seed: &mut u64) -> bool {
    let mut taken = [0; KINDS];
    let mut count = 2_u64;
    let mut list = TermId(0);
    let mut branch = TermId(0);
    for step in 0..200_000 {
        let kind = step % KINDS;
        let most = if kind == CELL { step / 1000 } else { EACH };
        let number = random(seed, 3) as usize;
        let a = child(seed, list, branch, count);
        let b = child(seed, list, branch, count);
        let c = child(seed, list, branch, count);
        if taken[kind] < most && put(store, node_of(kind, number, a, b, c)).is_some() {
            taken[kind] += 1;
        }
        if store.holds(TermId(count as usize)) {
            match kind {
                CELL => list = TermId(count as usize),
                BRANCH => branch = TermId(count as usize),
                _ => {}
            }
            count = count.saturating_add(1);
        }
    }
    taken.iter().all(|n| *n >= EACH / 2)
}

// Whether the plain walk makes what the call makes, and it is told without memory of that tree, and of the old one only if
// they are the same.
fn agrees(alloc: Global, store: &mut Store, e: TermId, change: Change, found: TermId) -> bool {
    plain(alloc, store, e, change, 0) == Some(found)
        && is_made(store, e, change, found) != Some(false)
        && (found == e || is_made(store, e, change, e) != Some(true))
}

fn is_small(store: &Store, e: TermId) -> bool {
    store.holds(e) && store.size(e) < 1000
}

// Whether the calls and the plain walk make the same of random trees.
pub fn agree_on_random_trees(alloc: Global, store: &mut Store, seed: &mut u64) -> bool {
    let mut count = 0_usize;
    for step in 0..4000 {
        let bound = (KINDS * EACH / 2) as u64;
        let e = TermId(random(seed, bound) as usize);
        let a = random(seed, bound) as usize;
        let b = random(seed, bound) as usize;
        let change = match step % 5 {
            0 => Change::Shift(a % 3, b % 3),
            1 => Change::Put(a),
            2 => Change::PutTwo(a, b),
            3 => Change::Types(a),
            _ => Change::Close(a % 4),
        };
        if is_small(store, e) && is_small(store, TermId(a)) {
            if let Some(found) = make_change(alloc, store, e, change) {
                if !agrees(alloc, store, e, change, found) {
                    return false;
                }
                count = count.saturating_add(1);
            }
        }
    }
    count > 500
}

// Whether a term can be put into each level of a chain, where a level is a `let` over the one below it twice, so that the tree
// has more nodes than a number counts.
pub fn put_into_chain(alloc: Global, store: &mut Store) -> Option<bool> {
    let seven = put(store, Node::Num(7))?;
    let mut open = put(store, Node::Bound(1, TermId(1)))?;
    // What the level becomes below no binder and below one: the variable below it there is the one that is replaced.
    let mut outside = put(store, Node::Bound(0, TermId(1)))?;
    let mut inside = seven;
    for _ in 0..70 {
        if make_change(alloc, store, open, Change::Put(seven.0)) != Some(outside) {
            return Some(false);
        }
        let below = open;
        open = put(store, Node::Let(below, below))?;
        outside = put(store, Node::Let(outside, inside))?;
        inside = put(store, Node::Let(inside, below))?;
    }
    Some(store.holds(open) && store.size(open) == u64::MAX)
}
