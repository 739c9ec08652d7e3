// The height of a task.
ghost use Rattle.std.specs.Prelude.{◌≡◌, min, All};
ghost use Rattle.trees.specs.Node.{Holds};
ghost use Rattle.tasks.specs.Meaning.{trees_at, body_at, definitions_at, inductives_at, declarations_at, task_at, InductiveHeld, BodyHeld, DeclHeld, TaskHeld};
ghost use Rattle.evidence.specs.stage_limits.Limits.{formula_height, equation_height, clause_height, body_height, declaration_height, task_height};

use tasks::{Body, Decl, Def, Ind, Task};
use trees::TermId;
use trees::store::Store;

// The greatest height of formulas, or the greatest number.
fn formula_height(store: &Store, formulas: &[TermId]) -> u64
    requires { All (Holds store.now) formulas.now }
    ensures { result ≡ min (formula_height (trees_at store.now formulas.now)) u64.MAX }
{
    let mut top = 0u64;
    for formula in formulas {
        top = top.max(store.height(*formula));
    }
    top
}

// The greatest height of equations, or the greatest number.
fn equation_height(store: &Store, defs: &[Def]) -> u64
    requires { All (λ (d : Def). Holds store.now d.equation) defs.now }
    ensures { result ≡ min (equation_height (definitions_at store.now defs.now)) u64.MAX }
{
    let mut top = 0u64;
    for def in defs {
        top = top.max(store.height(def.equation));
    }
    top
}

// The greatest height of clauses, or the greatest number.
fn clause_height(store: &Store, inductives: &[Ind]) -> u64
    requires { All (InductiveHeld store.now) inductives.now }
    ensures { result ≡ min (clause_height (inductives_at store.now inductives.now)) u64.MAX }
{
    match inductives.split_first() {
        Some((first, rest)) => formula_height(store, first.clauses.as_slice()).max(clause_height(
            store, rest,
        )),
        None => 0,
    }
}

// The greatest height of a body's formulas, or the greatest number.
fn body_height(store: &Store, body: &Body) -> u64
    requires { BodyHeld store.now body.now }
    ensures { result ≡ min (body_height (body_at store.now body.now)) u64.MAX }
{
    match body {
        Body::Defs(defs) => equation_height(store, defs.as_slice()),
        Body::Inductives(inductives) => clause_height(store, inductives.as_slice()),
        Body::Prop(formula) => store.height(*formula),
        _ => 0,
    }
}

// The greatest height of declarations, or the greatest number.
fn declaration_height(store: &Store, decls: &[Decl]) -> u64
    requires { All (DeclHeld store.now) decls.now }
    ensures { result ≡ min (declaration_height (declarations_at store.now decls.now)) u64.MAX }
{
    let mut top = 0u64;
    for decl in decls {
        top = top.max(body_height(store, &decl.body));
    }
    top
}

/// The greatest height of a task's propositions, equations of definitions, clauses, locals and goal, or the greatest
/// number where it is above that.
pub fn task_height(store: &Store, task: &Task) -> u64
    requires { TaskHeld store.now task.now }
    ensures { result ≡ min (task_height (task_at store.now task.now)) u64.MAX }
{
    let decls = declaration_height(store, task.decls.as_slice());
    let locals = formula_height(store, task.locals.as_slice());
    decls.max(locals.max(store.height(task.goal)))
}
