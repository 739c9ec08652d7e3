// Theories with the declarations that are in them, and the goals that can be named.
// They depend on the tasks' declarations; the task of a goal is made from them.
ghost use Rattle.std.specs.Prelude.{◌≡◌, length, map, drop, reverse, All, IfSome};
ghost use Rattle.std.specs.List.{find};
ghost use Rattle.std.specs.Option.{option_map};
ghost use Rattle.theory_states.specs.goal_tasks.Theories.{has_path, has_name};
ghost use Rattle.theory_states.specs.goal_tasks.Meaning.{goal_at, theory_at, GoalHeld, TheoryHeld};

use std::rc::Rc;
use tasks::{Decl, Seq, Signature, Text};
use trees::TermId;
use trees::store::Store;

/// A goal, or a lemma that can be named.
#[derive(Drop)]
pub struct GoalAt {
    /// Its name after the names of its scopes, joined by dots.
    pub name: Text,
    /// The number of visible declarations that are before it.
    pub before: usize,
    /// Its proposition with the types of its own type variables.
    pub prop: TermId,
    /// The entries of its type variables, by first appearance.
    pub rigid: Seq<usize>,
}

/// A theory.
#[derive(Drop)]
pub struct Theory {
    pub path: Text,
    /// The places of the declarations that are visible at its end, in order, goals left out.
    pub visible: Seq<usize>,
    /// Its goals, and its lemmas that can be named, in order.
    pub goals: Seq<GoalAt>,
}

/// Theories over one signature, each of whose declarations is there once.
#[derive(Drop)]
pub struct Theories {
    pub sig: Rc<Signature>,
    pub decls: Seq<Decl>,
    /// How many theories at the front are those of the embedded library.
    pub embedded: usize,
    /// The theories of the library and then those of the source, in order.
    pub list: Seq<Theory>,
}

// Whether a theory has this path.
fn has_path(store: &Store, decls: &Seq<Decl>, theory: &Theory, path: &[u8]) -> bool
    ensures { result ≡ has_path path.now (theory_at store.now decls.now theory.now) }
{
    let _ = store;
    let _ = decls;
    theory.path.as_slice() == path
}

/// The theory of the source with this path.
pub(crate) fn find_theory<'a>(store: &Store, all: &'a Theories, path: &[u8]) -> Option<&'a Theory>
    requires { All (TheoryHeld store.now all.now.decls) all.now.list }
    ensures tree { option_map (λ t. theory_at store.now all.now.decls t.now) result
        ≡ find (has_path path.now) (drop all.now.embedded
        (map (theory_at store.now all.now.decls) all.now.list)) }
    ensures held { IfSome result (λ t. TheoryHeld store.now all.now.decls t.now) }
{
    let list = all.list.as_slice();
    let mut at = all.embedded;
    while at < list.len() {
        let theory = &list[at];
        if has_path(store, &all.decls, theory, path) {
            return Some(theory);
        }
        at += 1;
    }
    None
}

// Whether a goal has this name.
fn has_name(store: &Store, goal: &GoalAt, name: &[u8]) -> bool
    ensures { result ≡ has_name name.now (goal_at store.now goal.now) }
{
    let _ = store;
    goal.name.as_slice() == name
}

/// The last goal with this name.
pub(crate) fn find_goal<'a>(store: &Store, goals: &'a [GoalAt], name: &[u8]) -> Option<&'a GoalAt>
    requires { All (GoalHeld store.now) goals.now }
    ensures tree { option_map (λ g. goal_at store.now g.now) result
        ≡ find (has_name name.now) (reverse (map (goal_at store.now) goals.now)) }
    ensures held { IfSome result (λ g. GoalHeld store.now g.now) }
{
    let mut left = goals.len();
    while left > 0 {
        left -= 1;
        if has_name(store, &goals[left], name) {
            return Some(&goals[left]);
        }
    }
    None
}
