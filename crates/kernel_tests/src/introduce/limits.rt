// The bounds on the tasks of a stage.
use crate::introduce::small::task;
use evidence::stage_limits::{are_small, limit_tasks, task_height};
use std::alloc::Global;
use std::process::Abort;
use trees::store::{Grow, Store};
use trees::{Node, Op, TermId};

const MEMORY: &str = "out of memory";

// A formula with so many conjunctions above one another, each of one formula with itself, and so many negations above them; how many
// tasks have it; whether they are small enough.
static ROWS: [(usize, usize, usize, bool); 9] = [
    (0, 0, 0, true),
    (0, 0, 1, true),
    (19, 0, 1, true),
    (20, 0, 1, false),
    (0, 1999, 1, true),
    (0, 2000, 1, false),
    (19, 0, 8, true),
    (19, 0, 9, false),
    (200, 0, 1, false),
];

// `true` under so many conjunctions and negations.
fn formula(rt: &impl Abort, store: &mut Store, doubled: usize, negated: usize) -> TermId {
    let mut formula = store.add(Node::True).expect(rt, MEMORY);
    for _ in 0..doubled {
        let node = Node::Join(Op::And, formula, formula);
        assert!(rt; store.accepts(node));
        formula = store.add(node).expect(rt, MEMORY);
    }
    for _ in 0..negated {
        let node = Node::Not(formula);
        assert!(rt; store.accepts(node));
        formula = store.add(node).expect(rt, MEMORY);
    }
    formula
}

fn compare(rt: &impl Abort, alloc: Global, row: &(usize, usize, usize, bool)) {
    let (doubled, negated, many, small) = *row;
    let mut store = Store::new(alloc).expect(rt, MEMORY);
    let goal = formula(rt, &mut store, doubled, negated);
    let mut tasks = Vec::new(alloc);
    for _ in 0..many {
        tasks
            .push(task(rt, alloc, &store, &[], goal, &[]))
            .expect(rt, MEMORY);
    }
    assert!(rt; are_small(&store, &tasks) == small);
    assert!(rt; limit_tasks(&store, tasks).is_ok() == small);
}

#[test]
fn tasks_are_bounded(rt: HostRuntime) {
    for row in ROWS.iter() {
        compare(&rt, rt.alloc(), row);
    }
}

#[test]
fn a_height_counts_propositions(rt: HostRuntime) {
    let alloc = rt.alloc();
    let mut store = Store::new(alloc).expect(&rt, MEMORY);
    let goal = formula(&rt, &mut store, 3, 2);
    let whole = task(&rt, alloc, &store, &[], goal, &[("T", "a", true)]);
    assert!(&rt; task_height(&store, &whole) == 6);
}
