// The three sets of instances, and the declarations of a task at the last one.
// They depend on the declarations at a set; the transformation depends on them.
ghost use Rattle.std.specs.Prelude.{◌≡◌, All, IfOk, IfErr, IfSome, OnOk};
ghost use Rattle.std.specs.List.{flat_map};
ghost use Rattle.std.specs.Option.{option_map};
ghost use Rattle.tasks.specs.trees.Node.{tree_at, trees_at, Holds, Grows};
ghost use Rattle.tasks.specs.Task.{props};
ghost use Rattle.tasks.specs.Meaning.{body_at, declarations_at, task_at, BodyHeld, DeclHeld, TaskHeld};
ghost use Rattle.tasks.specs.Valid.{IsValid};
ghost use Rattle.name_tables.specs.Seen.{seen_occurrences, KeysHeld, GainsKeys};
ghost use Rattle.tr_discriminate.specs.wanted_instances.Instances.{inner_instances};
ghost use Rattle.tr_discriminate.specs.wanted_instances.Discriminated.{first_set, next_set, last_set, discriminated_decls};
ghost use Rattle.tr_discriminate.specs.instance_sets.Made.{option_instances, monomorphic_formula, said_instances, IsAboveAllowed};
ghost use Rattle.tr_discriminate.specs.instance_sets.Sets.{IsKeySet, IsEarlySet, IsLargeAtSet};

use crate::instance_search::{InstanceKey, Sought, gather};
use crate::instance_sets::instances::declarations_at_set;
use evidence::StageFault;
use indexmap::IndexSet;
use std::alloc::{AllocError, Global};
use tasks::{Body, Decl, Seq, Store, Task, TermId};

// The formula of a monomorphic proposition.
fn monomorphic_formula(store: &Store, body: &Body) -> Option<TermId>
    requires { BodyHeld store.now body.now }
    ensures held { IfSome result (Holds store.now) }
    ensures formula { option_map (tree_at store.now) result
        ≡ monomorphic_formula (body_at store.now body.now) }
{
    match body {
        Body::Prop(formula) => {
            if store.above_type_variables(*formula) == 0 {
                Some(*formula)
            } else {
                None
            }
        }
        _ => None,
    }
}

// Adds the instances in a monomorphic proposition.
fn add_monomorphic(
    alloc: Global,
    store: &Store,
    keys: &mut IndexSet<InstanceKey>,
    body: &Body,
) -> Result<(), AllocError>
    requires keys_held { KeysHeld store.now keys.old.keys }
    requires held { BodyHeld store.now body.now }
    ensures { OnOk result (GainsKeys store.now keys.old.keys
        (option_instances (monomorphic_formula (body_at store.now body.now))) keys.new.keys) }
{
    match monomorphic_formula(store, body) {
        Some(formula) => gather(alloc, store, keys, Sought::Instances, formula),
        None => Ok(()),
    }
}

// Adds the instances in the monomorphic propositions among declarations.
fn add_said(
    alloc: Global,
    store: &Store,
    keys: &mut IndexSet<InstanceKey>,
    decls: &[Decl],
) -> Result<(), AllocError>
    requires keys_held { KeysHeld store.now keys.old.keys }
    requires held { All (DeclHeld store.now) decls.now }
    ensures { OnOk result (GainsKeys store.now keys.old.keys
        (said_instances (declarations_at store.now decls.now)) keys.new.keys) }
{
    for decl in decls {
        add_monomorphic(alloc, store, keys, &decl.body)?;
    }
    Ok(())
}

// Adds the instances in formulas.
fn add_formulas(
    alloc: Global,
    store: &Store,
    keys: &mut IndexSet<InstanceKey>,
    formulas: &[TermId],
) -> Result<(), AllocError>
    requires keys_held { KeysHeld store.now keys.old.keys }
    requires held { All (Holds store.now) formulas.now }
    ensures { OnOk result (GainsKeys store.now keys.old.keys
        (flat_map inner_instances (trees_at store.now formulas.now)) keys.new.keys) }
{
    for formula in formulas {
        gather(alloc, store, keys, Sought::Instances, *formula)?;
    }
    Ok(())
}

// The ground instances of the monomorphic propositions, the locals and the goal.
fn first_set(alloc: Global, store: &Store, task: &Task) -> Result<IndexSet<InstanceKey>, AllocError>
    requires { TaskHeld store.now task.now }
    ensures { IfOk result (λ v. IsKeySet store.now
        (first_set (task_at store.now task.now)) v.keys) }
{
    let mut keys = IndexSet::new(alloc);
    add_said(alloc, store, &mut keys, task.decls.as_slice())?;
    add_formulas(alloc, store, &mut keys, task.locals.as_slice())?;
    gather(alloc, store, &mut keys, Sought::Instances, task.goal)?;
    Ok(keys)
}

// Adds the instances in those of propositions that are wanted at a set to it.
fn add_wanted(
    alloc: Global,
    store: &mut Store,
    task: &Task,
    keys: &mut IndexSet<InstanceKey>,
) -> Result<(), StageFault>
    requires held { TaskHeld store.old task.now }
    requires valid { IsValid (task_at store.old task.now) }
    requires keys_held { KeysHeld store.old keys.old.keys }
    requires early { IsEarlySet (task_at store.old task.now)
        (seen_occurrences store.old keys.old.keys) }
    ensures set { OnOk result (IsKeySet store.new (next_set (props (task_at store.old task.now))
        (seen_occurrences store.old keys.old.keys)) keys.new.keys) }
    ensures fault { IfErr result (IsLargeAtSet (task_at store.old task.now)) }
    ensures grows { Grows store.old store.new }
{
    let decls = declarations_at_set(alloc, store, task, keys.as_slice())?;
    add_said(alloc, store, keys, decls.as_slice())?;
    Ok(())
}

// The last of the three sets.
fn last_set(
    alloc: Global,
    store: &mut Store,
    task: &Task,
) -> Result<IndexSet<InstanceKey>, StageFault>
    requires held { TaskHeld store.old task.now }
    requires valid { IsValid (task_at store.old task.now) }
    ensures set { IfOk result (λ v. IsKeySet store.new
        (last_set (task_at store.old task.now)) v.keys) }
    ensures fault { IfErr result (IsLargeAtSet (task_at store.old task.now)) }
    ensures grows { Grows store.old store.new }
{
    let mut keys = first_set(alloc, store, task)?;
    add_wanted(alloc, store, task, &mut keys)?;
    add_wanted(alloc, store, task, &mut keys)?;
    Ok(keys)
}

/// The declarations of a task with the instances that are wanted at the last set; `TooLarge` only where the task has more than 2^20 nodes at
/// one of its sets.
pub fn discriminated_declarations(
    alloc: Global,
    store: &mut Store,
    task: &Task,
) -> Result<Seq<Decl>, StageFault>
    requires held { TaskHeld store.old task.now }
    requires valid { IsValid (task_at store.old task.now) }
    ensures decls { IfOk result (λ v. declarations_at store.new v
        ≡ discriminated_decls (last_set (task_at store.old task.now))
        (task_at store.old task.now).decls) }
    ensures held { IfOk result (All (DeclHeld store.new)) }
    ensures fault { IfErr result (IsLargeAtSet (task_at store.old task.now)) }
    ensures grows { Grows store.old store.new }
{
    let keys = last_set(alloc, store, task)?;
    let decls = declarations_at_set(alloc, store, task, keys.as_slice())?;
    Ok(decls)
}
