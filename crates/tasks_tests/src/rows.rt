// The rows: each is well typed, and its twin, which is wrong in one place, isn't.
// They depend on the small task.
ghost use Rattle.trees.specs.Node.{Holds};
ghost use Rattle.tasks.specs.Meaning.{TaskHeld};
ghost use Rattle.tasks.specs.Looking.{LookupHeld};

use crate::nodes::NODES;
use crate::small::small_task;
use std::alloc::Global;
use std::process::Abort;
use tasks::typed_trees::well_typed;
use tasks::{Fact, Index, Lookup, Role, Task, nodes};
use trees::store::{Grow, Store};
use trees::{Sort, TermId};

const MEMORY: &str = "out of memory";

// What is well typed, and its twin.
static ROWS: [(usize, usize); 8] = [
    (15, 16),
    (17, 19),
    (22, 24),
    (26, 29),
    (34, 37),
    (54, 57),
    (61, 66),
    (68, 57),
];

// The store of the rows.
fn filled_store(rt: &impl Abort, alloc: Global) -> Store {
    let mut store = Store::new(alloc).expect(rt, MEMORY);
    for (place, node) in NODES.iter().enumerate() {
        assert!(rt; store.accepts(*node));
        let id = store.add(*node).expect(rt, MEMORY);
        assert!(rt; id.0 == place.saturating_add(2));
    }
    store
}

// The small task, which says, defines and asks the tree 15.
fn held_task(rt: &impl Abort, alloc: Global, store: &Store) -> Task
    ensures { TaskHeld store.now result }
{
    assert!(rt; store.holds(TermId(15)));
    small_task(rt, alloc, store, TermId(15), TermId(11))
}

fn is_typed(rt: &impl Abort, store: &Store, task: &Task, number: usize) -> bool
    requires { TaskHeld store.now task.now }
{
    assert!(rt; store.holds(TermId(number)));
    well_typed(store, task, TermId(number))
}

#[test]
fn rows_are_typed_and_their_twins_are_not(rt: HostRuntime) {
    let store = filled_store(&rt, rt.alloc());
    let task = held_task(&rt, rt.alloc(), &store);
    for (typed, twin) in ROWS.iter() {
        assert!(rt; is_typed(&rt, &store, &task, *typed));
        assert!(rt; !is_typed(&rt, &store, &task, *twin));
    }
}

// Names a role.
fn role_number(role: Role<'_>) -> usize {
    match role {
        Role::Plain => 0,
        Role::Defined(_) => 1,
        Role::Inductive(_) => 2,
        Role::Algebraic(_) => 3,
        Role::Constructor(_) => 4,
        Role::Projection(_, place) => 5 + place % 2,
    }
}

// The roles of the entries, in order.
static ROLES: [usize; 11] = [0, 3, 4, 4, 0, 0, 0, 5, 6, 1, 2];

// Whether the entries have these roles, and each is declared.
fn has_roles(lookup: &Lookup<'_>, store: &Store) -> bool
    requires { LookupHeld store.now lookup.now }
{
    for (symbol, role) in ROLES.iter().enumerate() {
        if role_number(lookup.role(store, symbol)) != *role || !lookup.declares(store, symbol) {
            return false;
        }
    }
    true
}

// Whether there are no more than the eleven entries and the one proposition.
fn has_ends(lookup: &Lookup<'_>, store: &Store) -> bool
    requires { LookupHeld store.now lookup.now }
{
    !lookup.declares(store, 11)
        && lookup.proposition(store, 0).is_some()
        && lookup.proposition(store, 1).is_none()
}

// The same with an index.
fn is_indexed(rt: &impl Abort, alloc: Global, store: &Store, task: &Task) -> bool
    requires { TaskHeld store.now task.now }
{
    let index = Index::new(alloc, task).expect(rt, MEMORY);
    let fast = Lookup::with_index(task, &index);
    has_roles(&fast, store) && has_ends(&fast, store)
}

#[test]
fn a_look_up_is_the_same_with_an_index(rt: HostRuntime) {
    let store = filled_store(&rt, rt.alloc());
    let task = held_task(&rt, rt.alloc(), &store);
    assert!(rt; has_roles(&Lookup::without_index(&task), &store));
    assert!(rt; is_indexed(&rt, rt.alloc(), &store, &task));
}

// The facts of the task, in order, and none after them.
static FACTS: [Option<Fact>; 6] = [
    Some(Fact::Proposition(0)),
    Some(Fact::Equation(9)),
    Some(Fact::Clause(10, 0)),
    Some(Fact::Clause(10, 1)),
    Some(Fact::Inversion(10)),
    None,
];

fn is_same_fact(found: Option<Fact>, wanted: Option<Fact>) -> bool {
    match (found, wanted) {
        (Some(Fact::Proposition(a)), Some(Fact::Proposition(b))) => a == b,
        (Some(Fact::Equation(a)), Some(Fact::Equation(b))) => a == b,
        (Some(Fact::Clause(a, i)), Some(Fact::Clause(b, j))) => a == b && i == j,
        (Some(Fact::Inversion(a)), Some(Fact::Inversion(b))) => a == b,
        (None, None) => true,
        _ => false,
    }
}

fn has_facts(index: &Index) -> bool {
    for (place, fact) in FACTS.iter().enumerate() {
        if !is_same_fact(index.fact_at(place), *fact) {
            return false;
        }
    }
    true
}

#[test]
fn an_index_has_the_facts(rt: HostRuntime) {
    let store = filled_store(&rt, rt.alloc());
    let task = held_task(&rt, rt.alloc(), &store);
    let index = Index::new(rt.alloc(), &task).expect(&rt, MEMORY);
    assert!(rt; has_facts(&index));
}

// The nodes of the task with a goal.
fn nodes_with(rt: &impl Abort, alloc: Global, store: &Store, task: &Task, goal: TermId) -> u64
    requires task { TaskHeld store.now task.now }
    requires goal { Holds store.now goal }
{
    let copy = task.with_goal(alloc, goal).expect(rt, MEMORY);
    nodes(store, &copy)
}

// 10 nodes each of the proposition, the equation, the first clause and the goal; 5 of the second clause and of the local
#[test]
fn a_task_has_nodes(rt: HostRuntime) {
    let store = filled_store(&rt, rt.alloc());
    let task = held_task(&rt, rt.alloc(), &store);
    assert!(rt; nodes(&store, &task) == 50);
    assert!(rt; store.holds(TermId(15)));
    assert!(rt; nodes_with(&rt, rt.alloc(), &store, &task, TermId(15)) == 50);
}

// Whether the task begins with its local and the negation of its goal.
fn has_start(rt: &impl Abort, alloc: Global, store: &mut Store) -> bool {
    assert!(rt; store.holds(TermId(15)));
    assert!(rt; store.sort(TermId(15)) == Sort::Formula);
    let task = small_task(rt, alloc, store, TermId(15), TermId(11));
    let start = task.start(alloc, store).expect(rt, MEMORY);
    start.as_slice() == [TermId(11), TermId(69)].as_slice()
}

#[test]
fn a_task_has_a_start(rt: HostRuntime) {
    let mut store = filled_store(&rt, rt.alloc());
    assert!(rt; has_start(&rt, rt.alloc(), &mut store));
}
