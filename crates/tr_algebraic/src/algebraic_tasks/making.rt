// The task in which symbols and laws are in the place of algebraic types.
ghost use Rattle.std.specs.Prelude.{◌≡◌, [], ◌∷◌, IfOk};
ghost use Rattle.tasks.specs.trees.Node.{Grows};
ghost use Rattle.tasks.specs.Meaning.{task_at, tasks_at, TaskHeld, TasksHeld};
ghost use Rattle.tasks.specs.Valid.{IsValid};
ghost use Rattle.declarations.specs.Said.{own_said};
ghost use Rattle.tr_algebraic.specs.algebraic_forms.Groups.{algebraic_rule};
ghost use Rattle.tr_algebraic.specs.algebraic_tasks.Plain.{task_with_laws};

use crate::algebraic_forms::push_in_place;
use declarations::{FactSearch, RewriteDeclarations, own_origin, rewritten_tasks};
use std::alloc::{AllocError, Global};
use tasks::{Decl, Signature, Store, Task};

// The rule that puts symbols and laws in the place of algebraic types.
#[derive(Clone, Copy)]
struct TypesAsSymbols;

impl RewriteDeclarations for TypesAsSymbols {
    ghost rule = { λ _. algebraic_rule };

    ghost said = { λ _ symbols n d. own_said n d d.body };

    fn push_in_place(
        &self,
        alloc: Global,
        store: &mut Store,
        sig: &Signature,
        decl: &Decl,
        decls: &mut Vec<Decl>,
    ) -> Result<(), AllocError> {
        push_in_place(alloc, store, sig, decl, decls)
    }

    fn origin(&self, store: &Store, decl: &Decl, place: usize, k: usize) -> FactSearch {
        let _ = store;
        own_origin(decl, place, k)
    }
}

/// The task with symbols and laws in the place of algebraic types, alone.
///
/// Only want of memory refuses.
pub fn tasks_with_laws(
    alloc: Global,
    store: &mut Store,
    task: &Task,
) -> Result<Vec<Task>, AllocError>
    requires held { TaskHeld store.old task.now }
    requires valid { IsValid (task_at store.old task.now) }
    ensures tasks { IfOk result (λ ts. tasks_at store.new ts.items
        ≡ task_with_laws (task_at store.old task.now) ∷ []) }
    ensures held { IfOk result (λ ts. TasksHeld store.new ts.items) }
    ensures grows { Grows store.old store.new }
{
    rewritten_tasks(alloc, store, &TypesAsSymbols, task)
}
