// Stores of given nodes, and tasks over them: parameters, locals, a goal, and declarations by theory and name.
ghost use Rattle.std.specs.Prelude.{All, List};
ghost use Rattle.trees.specs.Tree.{Tree};
ghost use Rattle.trees.specs.Node.{Holds};
ghost use Rattle.tasks.specs.Meaning.{BodyHeld, DeclHeld, TaskHeld};

use std::alloc::Global;
use std::process::Abort;
use std::rc::Rc;
use tasks::{Body, Decl, Seq, Signature, Task, Text};
use trees::store::{Grow, Store};
use trees::{Node, TermId};

pub(crate) const MEMORY: &str = "out of memory";

/// A declaration by its theory and name: a proposition, or a symbol.
pub(crate) type Named = (&'static str, &'static str, bool);

/// A store with these nodes, of which the first has the number 2.
pub(crate) fn filled_store(rt: &impl Abort, alloc: Global, nodes: &[Node]) -> Store {
    let mut store = Store::new(alloc).expect(rt, MEMORY);
    for (place, node) in nodes.iter().enumerate() {
        assert!(rt; store.accepts(*node));
        let id = store.add(*node).expect(rt, MEMORY);
        assert!(rt; id.0 == place.saturating_add(2));
    }
    store
}

/// A number, or that of `int` where it isn't held.
pub(crate) fn held_or_int(store: &Store, id: TermId) -> TermId
    ensures { Holds store.now result }
{
    if store.holds(id) {
        id
    } else {
        store.int_type()
    }
}

// Those numbers that are held.
fn ids_of(rt: &impl Abort, alloc: Global, store: &Store, ids: &[TermId]) -> Seq<TermId>
    ensures { All (Holds store.now) result }
{
    let mut all = Seq::new(alloc);
    for id in ids {
        if store.holds(*id) {
            all.push(*id).expect(rt, MEMORY);
        }
    }
    all
}

/// A text.
pub(crate) fn text(rt: &impl Abort, alloc: Global, word: &str) -> Text {
    Text::from_slice(alloc, word.as_bytes()).expect(rt, MEMORY)
}

// What a declaration says or makes.
fn body(formula: TermId, proposition: bool) -> Body
    ensures { (s : List Tree) → Holds s formula → BodyHeld s result }
{
    if proposition {
        Body::Prop(formula)
    } else {
        Body::Symbol(1)
    }
}

// The declarations, whose propositions say this formula.
fn decls(
    rt: &impl Abort,
    alloc: Global,
    store: &Store,
    formula: TermId,
    named: &[Named],
) -> Seq<Decl>
    requires { Holds store.now formula }
    ensures { All (DeclHeld store.now) result }
{
    let _ = store;
    let mut all = Seq::new(alloc);
    for (theory, name, proposition) in named {
        all.push(Decl {
            theory: text(rt, alloc, theory),
            name: text(rt, alloc, name),
            vars: 0,
            body: body(formula, *proposition),
        })
        .expect(rt, MEMORY);
    }
    all
}

/// A task without symbols. Its propositions say what its goal says.
pub(crate) fn task(
    rt: &impl Abort,
    alloc: Global,
    store: &Store,
    params: &[TermId],
    goal: TermId,
    named: &[Named],
) -> Task
    ensures { TaskHeld store.now result }
{
    let goal = held_or_int(store, goal);
    let signature = Signature {
        symbols: Seq::new(alloc),
        ints: None,
    };
    Task {
        sig: Rc::new(alloc, signature).expect(rt, MEMORY),
        rigid: Seq::new(alloc),
        decls: decls(rt, alloc, store, goal, named),
        params: ids_of(rt, alloc, store, params),
        locals: Seq::new(alloc),
        goal,
    }
}
