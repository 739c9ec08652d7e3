// The task of a goal.
// It depends on the theories, the symbols that are in declarations, and the declarations of tuples.
ghost use Rattle.std.specs.Prelude.{◌≡◌, ◌++◌, ◌↔◌, take, slice_get, option_to_list, All, IfOk, OnOk, IsNone, IsSomeAnd};
ghost use Rattle.trees.specs.Node.{tree_at, Holds};
ghost use Rattle.tasks.specs.Meaning.{declarations_at, symbols_at, task_at, SymbolHeld, DeclHeld, TaskHeld};
ghost use Rattle.theory_states.specs.goal_tasks.Named.{named, declarations_named};
ghost use Rattle.theory_states.specs.goal_tasks.Theories.{theory_named, goal_named};
ghost use Rattle.theory_states.specs.goal_tasks.Tuples.{tuples_in};
ghost use Rattle.theory_states.specs.goal_tasks.Tasks.{task_for, IsTaskOf};
ghost use Rattle.theory_states.specs.goal_tasks.Meaning.{goal_at, theory_at, theories_at, placed, GoalHeld, TheoryHeld, AllTheoriesHeld, AreTuples};

use crate::goal_tasks::declarations::named_in;
use crate::goal_tasks::theories::{find_goal, find_theory};
use crate::goal_tasks::tuples::tuples_in;
use crate::goal_tasks::{GoalAt, Theories, Theory};
use std::alloc::{AllocError, Global};
use tasks::{Decl, Seq, Signature, Task};
use trees::TermId;
use trees::store::Store;

/// Why there is no task, or want of memory.
#[derive(Clone, Copy)]
pub enum TaskFault {
    Memory,
    /// The source has no theory with this path.
    NoTheory,
    /// The theory has no goal with this name, nor a lemma that can be named.
    NoGoal,
}

// The declaration with this place, if there is one, after others.
fn push_placed(decls: &Seq<Decl>, place: usize, out: &mut Vec<Decl>) -> Result<(), AllocError>
    ensures { OnOk result (out.new.items ≡ out.old.items
        ++ option_to_list (slice_get decls.now place)) }
{
    match decls.get(place) {
        Some(decl) => {
            let copy = decl.clone()?;
            out.push(copy)?;
            Ok(())
        }
        None => Ok(()),
    }
}

// The declarations with the first so many of these places.
fn declarations_at(
    alloc: Global,
    decls: &Seq<Decl>,
    places: &[usize],
    count: usize,
) -> Result<Vec<Decl>, AllocError>
    ensures { IfOk result (λ v. v.items ≡ placed decls.now (take count places.now)) }
{
    let mut out = Vec::new(alloc);
    let end = count.min(places.len());
    for at in 0..end {
        push_placed(decls, places[at], &mut out)?;
    }
    Ok(out)
}

// The declarations of the tuples that occur in declarations or in a goal.
fn tuple_decls(
    alloc: Global,
    store: &Store,
    sig: &Signature,
    own: &[Decl],
    goal: TermId,
) -> Result<Vec<Decl>, AllocError>
    requires symbols_held { All (SymbolHeld store.now) sig.now.symbols }
    requires tuples { AreTuples (symbols_at store.now sig.now.symbols) }
    requires held { All (DeclHeld store.now) own.now }
    requires goal_held { Holds store.now goal }
    ensures tree { IfOk result (λ v. declarations_at store.now v.items
        ≡ tuples_in (symbols_at store.now sig.now.symbols)
        (declarations_named (symbols_at store.now sig.now.symbols)
        (declarations_at store.now own.now) ++ named (tree_at store.now goal))) }
    ensures new_held { IfOk result (λ v. All (DeclHeld store.now) v.items) }
{
    let found = named_in(alloc, store, sig, own, goal)?;
    tuples_in(alloc, store, sig, &found)
}

// Declarations after those of the tuples that occur in them or in a goal.
fn with_tuples(
    alloc: Global,
    store: &Store,
    sig: &Signature,
    own: Vec<Decl>,
    goal: TermId,
) -> Result<Seq<Decl>, AllocError>
    requires symbols_held { All (SymbolHeld store.now) sig.now.symbols }
    requires tuples { AreTuples (symbols_at store.now sig.now.symbols) }
    requires held { All (DeclHeld store.now) own.items }
    requires goal_held { Holds store.now goal }
    ensures tree { IfOk result (λ v. declarations_at store.now v
        ≡ tuples_in (symbols_at store.now sig.now.symbols)
        (declarations_named (symbols_at store.now sig.now.symbols)
        (declarations_at store.now own.items) ++ named (tree_at store.now goal))
        ++ declarations_at store.now own.items) }
    ensures new_held { IfOk result (All (DeclHeld store.now)) }
{
    let mut decls = Seq::from_vec(tuple_decls(alloc, store, sig, own.as_slice(), goal)?);
    decls.append(Seq::from_vec(own))?;
    Ok(decls)
}

// The declarations of the task of a goal of a theory.
fn task_decls(
    alloc: Global,
    store: &Store,
    all: &Theories,
    theory: &Theory,
    goal: &GoalAt,
) -> Result<Seq<Decl>, AllocError>
    requires held { AllTheoriesHeld store.now all.now }
    requires tuples { AreTuples (symbols_at store.now all.now.sig.value.symbols) }
    requires theory_held { TheoryHeld store.now all.now.decls theory.now }
    requires goal_held { GoalHeld store.now goal.now }
    ensures tree { IfOk result (λ v. declarations_at store.now v
        ≡ (task_for (theories_at store.now all.now) (theory_at store.now all.now.decls theory.now)
        (goal_at store.now goal.now)).decls) }
    ensures new_held { IfOk result (All (DeclHeld store.now)) }
{
    let decls = &all.decls;
    let own = declarations_at(alloc, decls, theory.visible.as_slice(), goal.before)?;
    with_tuples(alloc, store, &all.sig, own, goal.prop)
}

// The task of a goal of a theory.
fn make_task(
    alloc: Global,
    store: &Store,
    all: &Theories,
    theory: &Theory,
    goal: &GoalAt,
) -> Result<Task, AllocError>
    requires held { AllTheoriesHeld store.now all.now }
    requires tuples { AreTuples (symbols_at store.now all.now.sig.value.symbols) }
    requires theory_held { TheoryHeld store.now all.now.decls theory.now }
    requires goal_held { GoalHeld store.now goal.now }
    ensures tree { IfOk result (λ t. task_at store.now t
        ≡ task_for (theories_at store.now all.now) (theory_at store.now all.now.decls theory.now)
        (goal_at store.now goal.now)) }
    ensures new_held { IfOk result (TaskHeld store.now) }
{
    let decls = task_decls(alloc, store, all, theory, goal)?;
    Ok(Task {
        sig: all.sig.clone()?,
        rigid: goal.rigid.clone()?,
        decls,
        params: Seq::new(alloc),
        locals: Seq::new(alloc),
        goal: goal.prop,
    })
}

/// The task of the goal with this name in the theory of the source with this path: the declarations that are before it, after
/// those of the tuples that occur in them or in the goal, in ascending width. Where several goals have the name, it is the last
/// one. A theory of the embedded library is none of the source's.
///
/// `NoTheory` and `NoGoal` come exactly where there is no such theory, and where it has no such goal; else only want of memory
/// refuses.
pub fn task_of(
    alloc: Global,
    store: &Store,
    all: &Theories,
    theory: &str,
    goal: &str,
) -> Result<Task, TaskFault>
    requires held { AllTheoriesHeld store.now all.now }
    requires tuples { AreTuples (symbols_at store.now all.now.sig.value.symbols) }
    ensures task { IfOk result (λ t. IsTaskOf (theories_at store.now all.now) theory.now goal.now
        (task_at store.now t)) }
    ensures no_theory { (result ≡ Err TaskFault.NoTheory)
        ↔ IsNone (theory_named (theories_at store.now all.now) theory.now) }
    ensures no_goal { (result ≡ Err TaskFault.NoGoal)
        ↔ IsSomeAnd (theory_named (theories_at store.now all.now) theory.now)
        (λ t. IsNone (goal_named t goal.now)) }
    ensures held { IfOk result (TaskHeld store.now) }
{
    let Some(found) = find_theory(store, all, theory.as_bytes()) else {
        return Err(TaskFault::NoTheory);
    };
    let Some(at) = find_goal(store, found.goals.as_slice(), goal.as_bytes()) else {
        return Err(TaskFault::NoGoal);
    };
    match make_task(alloc, store, all, found, at) {
        Ok(task) => Ok(task),
        Err(_) => Err(TaskFault::Memory),
    }
}
