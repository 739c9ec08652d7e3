// What is introduced from a goal, and the task with it.
ghost use Rattle.std.specs.Prelude.{◌≡◌, IfOk};
ghost use Rattle.trees.specs.Node.{tree_at, Holds, Grows};
ghost use Rattle.trees.specs.Sorts.{sort_of};
ghost use Rattle.trees.specs.Binding.{inst, Param};
ghost use Rattle.tasks.specs.Meaning.{task_at, TaskHeld};
ghost use Rattle.tasks.specs.typed_trees.instances.Instances.{IsInstance};
ghost use Rattle.tr_introduce.specs.Introduce.{introduced, introduced_task, judgement_at, prefix};
ghost use Rattle.tr_introduce.specs.Held.{IsHeld};

use crate::openings::{Beginning, beginning_of};
use evidence::task_parts::with_parts;
use outside::Seq;
use std::alloc::{AllocError, Global};
use tasks::Task;
use tasks::typed_trees::instances::{instance, parameter};
use trees::store::{Grow, Store};
use trees::{Sort, TermId};

// Puts the types of new parameters and the premises of the goal after those that are there, and gives the goal that is left.
pub(crate) fn introduce(
    alloc: Global,
    store: &mut Store,
    goal: TermId,
    params: &mut Vec<TermId>,
    locals: &mut Vec<TermId>,
) -> Result<TermId, AllocError>
    requires { IsHeld store.old params.old.items locals.old.items goal }
    ensures held { IfOk result (IsHeld store.new params.new.items locals.new.items) }
    ensures is { IfOk result (λ g. judgement_at store.new params.new.items locals.new.items g
        ≡ introduced (judgement_at store.old params.old.items locals.old.items goal)) }
    ensures grows { Grows store.old store.new }
{
    match beginning_of(store, goal) {
        Beginning::Universal(ty, body) => {
            let goal_at = open_body(alloc, store, params.len(), ty, body)?;
            params.push(ty)?;
            introduce(alloc, store, goal_at, params, locals)
        }
        Beginning::Implication(premise, conclusion) => {
            locals.push(premise)?;
            introduce(alloc, store, conclusion, params, locals)
        }
        Beginning::Neither => Ok(goal),
    }
}

// The body of a quantifier at the parameter of this number.
pub(crate) fn open_body<G: Grow>(
    alloc: Global,
    g: &mut G,
    number: usize,
    ty: TermId,
    body: TermId,
) -> Result<TermId, AllocError>
    requires ty_held { Holds (G.trees g.old) ty }
    requires kind { sort_of (tree_at (G.trees g.old) ty) ≡ Sort.Kind }
    requires body_held { Holds (G.trees g.old) body }
    ensures held { IfOk result (Holds (G.trees g.new)) }
    ensures tree { IfOk result (λ id. tree_at (G.trees g.new) id
        ≡ inst (tree_at (G.trees g.old) body) (Param number (tree_at (G.trees g.old) ty))) }
    ensures keeps { IfOk result (λ id. IsInstance (tree_at (G.trees g.old) body)
        (Param number (tree_at (G.trees g.old) ty)) (tree_at (G.trees g.new) id)) }
    ensures grows { G.grows g.old g.new }
{
    let made = parameter(g, number, ty)?;
    instance(alloc, g, body, made)
}

/// The task with parameters and premises introduced from its goal as long as the goal begins with `forall` or `->`: of
/// `forall x. A` the variable becomes the parameter whose number is the number of parameters, and `A` the goal there; of
/// `A -> B` the premise `A` becomes the last local, and `B` the goal.
///
/// Only want of memory refuses.
pub fn introduced_task(alloc: Global, store: &mut Store, task: &Task) -> Result<Task, AllocError>
    requires { TaskHeld store.old task.now }
    ensures held { IfOk result (TaskHeld store.new) }
    ensures task { IfOk result (λ t. task_at store.new t
        ≡ introduced_task (task_at store.old task.now)) }
    ensures neither { IfOk result (λ t. prefix (tree_at store.new t.goal) ≡ 0) }
    ensures grows { Grows store.old store.new }
{
    let mut params = Vec::from_slice(alloc, task.params.as_slice())?;
    let mut locals = Vec::from_slice(alloc, task.locals.as_slice())?;
    let goal = introduce(alloc, store, task.goal, &mut params, &mut locals)?;
    let decls = task.decls.clone_each()?;
    let params = Seq::from_vec(params);
    let locals = Seq::from_vec(locals);
    with_parts(task, decls, params, locals, goal)
}
