// What occurs in the declarations of a task, noted once for the tasks that have the same ones.
// It depends on the walk and on what is in a table; the problems and the texts of parts depend on it.
ghost use Rattle.std.specs.Prelude.{◌≡◌, List, IsTrue, IsSomeAnd, IfOk, OnOk};
ghost use Rattle.trees.specs.Tree.{Tree};
ghost use Rattle.tasks.specs.Meaning.{task_at, TaskHeld};
ghost use Rattle.name_tables.specs.Tables.{problem_things};
ghost use Rattle.name_tables.specs.Seen.{seen_occurrences, KeysHeld};
ghost use Rattle.name_tables.specs.Fronts.{AreSameBodies, HaveSameBodies, HaveSameFront, IsFrontNoted, IsNotedFor};

use crate::things::Things;
use crate::walk::{Key, copied_keys, note_rest, seen_in_declarations};
use indexmap::IndexSet;
use std::alloc::{AllocError, Global};
use tasks::{Body, Decl, Task};
use trees::Ints;
use trees::store::Store;

/// What was noted of the declarations of a task: what occurs in what they say, and what is in the table of a problem
/// whose parameters, locals and goal add nothing to that.
#[derive(Drop)]
pub struct Noted<'a> {
    pub front: Option<&'a Task>,
    pub seen: IndexSet<Key>,
    pub things: Things,
}

// Whether two signatures tell the same entries of int.Int.
fn are_same_ints(a: Option<Ints>, b: Option<Ints>) -> bool
    ensures { IsTrue result → a ≡ b }
{
    match (a, b) {
        (Some(y), Some(z)) => {
            [y.neg, y.add, y.sub, y.mul, y.lt, y.le, y.gt, y.ge]
                == [z.neg, z.add, z.sub, z.mul, z.lt, z.le, z.gt, z.ge]
        }
        (None, None) => true,
        _ => false,
    }
}

// Whether two declarations make the same symbol or say the same. Of groups it isn't told.
fn are_same_bodies(a: &Body, b: &Body) -> bool
    ensures { IsTrue result → AreSameBodies a.now b.now }
{
    match (a, b) {
        (Body::TypeSymbol(j), Body::TypeSymbol(k)) => *j == *k,
        (Body::Symbol(j), Body::Symbol(k)) => *j == *k,
        (Body::Prop(d), Body::Prop(e)) => *d == *e,
        _ => false,
    }
}

// Whether declarations make the same symbols and say the same.
fn have_same_bodies(a: &[Decl], b: &[Decl]) -> bool
    ensures { IsTrue result → HaveSameBodies a.now b.now }
{
    if a.len() != b.len() {
        return false;
    }
    for place in 0..a.len() {
        if !are_same_bodies(&a[place].body, &b[place].body) {
            return false;
        }
    }
    true
}

// Whether what two tasks have before their parameters, locals and goals is the same for a table.
fn have_same_front(a: &Task, b: &Task) -> bool
    ensures { IsTrue result → HaveSameFront a.now b.now }
{
    are_same_ints(a.sig.ints, b.sig.ints)
        && a.rigid.as_slice() == b.rigid.as_slice()
        && have_same_bodies(a.decls.as_slice(), b.decls.as_slice())
}

impl<'a> Noted<'a> {
    /// Nothing is noted.
    pub fn new(alloc: Global) -> Noted<'a>
        ensures { (s : List Tree) → IsFrontNoted s result }
    {
        Noted {
            front: None,
            seen: IndexSet::new(alloc),
            things: Things::none(alloc),
        }
    }

    // Whether it was noted of the declarations that this task has.
    fn is_for(&self, task: &Task) -> bool
        ensures { IsTrue result → IsSomeAnd self.now.front (λ front. HaveSameFront front.now
            task.now) }
    {
        match self.front {
            Some(front) => have_same_front(front, task),
            None => false,
        }
    }

    // Notes the declarations of a task, unless they are noted.
    fn turn_to(&mut self, alloc: Global, store: &Store, task: &'a Task) -> Result<(), AllocError>
        requires noted { IsFrontNoted store.now self.old }
        requires held { TaskHeld store.now task.now }
        ensures noted { OnOk result (IsFrontNoted store.now self.new) }
        ensures this { OnOk result (IsNotedFor store.now (task_at store.now task.now) self.new) }
    {
        if self.is_for(task) {
            return Ok(());
        }
        let seen = seen_in_declarations(alloc, store, task.decls.as_slice())?;
        let things = Things::of_seen(alloc, store, task, seen.as_slice())?;
        *self = Noted {
            front: Some(task),
            seen,
            things,
        };
        Ok(())
    }

    // What is in the table of the problem of a task whose declarations are noted.
    fn with_rest(&self, alloc: Global, store: &Store, task: &Task) -> Result<Things, AllocError>
        requires noted { IsNotedFor store.now (task_at store.now task.now) self.now }
        requires held { TaskHeld store.now task.now }
        ensures held { IfOk result (KeysHeld store.now) }
        ensures things { IfOk result (λ v. seen_occurrences store.now v
            ≡ problem_things (task_at store.now task.now)) }
    {
        let mut seen = copied_keys(&self.seen)?;
        note_rest(alloc, store, &mut seen, task)?;
        if seen.len() == self.seen.len() {
            return self.things.copied();
        }
        Things::of_seen(alloc, store, task, seen.as_slice())
    }

    /// What is in the table of a task's problem, as `Things::of_problem`: where the task has the declarations that were noted, what
    /// they say isn't looked at again. Only want of memory refuses.
    pub fn things_of(
        &mut self,
        alloc: Global,
        store: &Store,
        task: &'a Task,
    ) -> Result<Things, AllocError>
        requires noted { IsFrontNoted store.now self.old }
        requires held { TaskHeld store.now task.now }
        ensures held { IfOk result (KeysHeld store.now) }
        ensures things { IfOk result (λ v. seen_occurrences store.now v
            ≡ problem_things (task_at store.now task.now)) }
        ensures noted { OnOk result (IsFrontNoted store.now self.new) }
    {
        self.turn_to(alloc, store, task)?;
        self.with_rest(alloc, store, task)
    }
}
