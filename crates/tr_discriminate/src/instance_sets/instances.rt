// The declarations of a task where the wanted instances at a set are in the place of polymorphic propositions.
// It depends on the search for wanted assignments; the sets and the task depend on it.
ghost use Rattle.std.specs.Prelude.{◌≡◌, ◌≤◌, ◌<◌, [], ◌∷◌, map, All, IfOk, IfErr, IfSome};
ghost use Rattle.std.specs.Option.{option_map};
ghost use Rattle.tasks.specs.trees.Node.{tree_at, trees_at, Holds, Grows};
ghost use Rattle.tasks.specs.trees.Binding.{inst_types};
ghost use Rattle.trees.specs.binders.Visits.{HoldTypes};
ghost use Rattle.tasks.specs.Meaning.{body_at, declaration_at, declarations_at, task_at, BodyHeld, DeclHeld, TaskHeld};
ghost use Rattle.tasks.specs.Valid.{IsValid};
ghost use Rattle.name_tables.specs.Seen.{seen_occurrences, KeysHeld};
ghost use Rattle.tr_discriminate.specs.wanted_instances.Wanted.{wanted_formulas};
ghost use Rattle.tr_discriminate.specs.wanted_instances.Growing.{GoesOn};
ghost use Rattle.tr_discriminate.specs.wanted_instances.Discriminated.{said_at, proposition_of, put_in_place, discriminated_decls, last_set};
ghost use Rattle.tr_discriminate.specs.wanted_search.Search.{assignments_at};
ghost use Rattle.tr_discriminate.specs.instance_sets.Made.{IsRanked, IsSearchable, IsSearchableBody, IsAboveAllowed, PutsDeclarations, polymorphic_formula, instances_of, AreTypeLists};

use crate::instance_search::{InstanceKey, types_in_order};
use crate::wanted_search::wanted_assignments;
use evidence::StageFault;
use std::alloc::{AllocError, Global};
use tasks::{Body, Decl, Seq, Store, Task, TermId};
use trees::binders::inst_types;

/// The most tree nodes of a task.
const MOST_NODES: u64 = 1 << 20;

/// A set of instances, and the types in them in the order of their ranks.
#[derive(Drop)]
struct Ranked<'a> {
    alloc: Global,
    keys: &'a [InstanceKey],
    types: &'a [InstanceKey],
}

/// What a declaration says.
#[derive(Drop)]
struct Saying<'a> {
    alloc: Global,
    decl: &'a Decl,
    formula: TermId,
}

// The declaration of an instance, which counts no type variables.
fn said_at(decl: &Decl, formula: TermId) -> Result<Decl, AllocError>
    ensures { IfOk result (λ d. d ≡ record decl.now { vars = 0; body = Body.Prop formula }) }
{
    Ok(Decl {
        theory: decl.theory.clone()?,
        name: decl.name.clone()?,
        vars: 0,
        body: Body::Prop(formula),
    })
}

// PutsDeclarations an instance of a proposition after declarations, where so many nodes are allowed; it gives how many are left.
fn push_instance(
    store: &mut Store,
    saying: &Saying<'_>,
    types: &[TermId],
    decls: &mut Seq<Decl>,
    allowed: u64,
) -> Result<u64, StageFault>
    requires formula { Holds store.old saying.now.formula }
    requires types { HoldTypes store.old types.now }
    requires held { All (DeclHeld store.old) decls.old }
    ensures puts { IfOk result (PutsDeclarations store.old decls.old allowed
        (said_at (declaration_at store.old saying.now.decl.now)
        (inst_types (tree_at store.old saying.now.formula)
        (trees_at store.old types.now)) ∷ []) store.new decls.new) }
    ensures fault { IfErr result (IsAboveAllowed allowed
        (said_at (declaration_at store.old saying.now.decl.now)
        (inst_types (tree_at store.old saying.now.formula)
        (trees_at store.old types.now)) ∷ [])) }
    ensures grows { Grows store.old store.new }
{
    let formula = inst_types(saying.alloc, store, saying.formula, types)?;
    let nodes = store.size(formula);
    if allowed < nodes {
        return Err(StageFault::TooLarge);
    }
    let made = said_at(saying.decl, formula)?;
    decls.push(made)?;
    Ok(allowed - nodes)
}

// The same for each list of types in order.
fn push_instances(
    store: &mut Store,
    saying: &Saying<'_>,
    assignments: &[Seq<TermId>],
    decls: &mut Seq<Decl>,
    allowed: u64,
) -> Result<u64, StageFault>
    requires formula { Holds store.old saying.now.formula }
    requires types { AreTypeLists store.old assignments.now }
    requires held { All (DeclHeld store.old) decls.old }
    ensures puts { IfOk result (PutsDeclarations store.old decls.old allowed
        (instances_of (declaration_at store.old saying.now.decl.now)
        (tree_at store.old saying.now.formula) (assignments_at store.old assignments.now))
        store.new decls.new) }
    ensures fault { IfErr result (IsAboveAllowed allowed
        (instances_of (declaration_at store.old saying.now.decl.now)
        (tree_at store.old saying.now.formula) (assignments_at store.old assignments.now))) }
    ensures grows { Grows store.old store.new }
{
    let mut left = allowed;
    for types in assignments {
        let next = push_instance(store, saying, types.as_slice(), decls, left)?;
        left = next;
    }
    Ok(left)
}

// The same for the wanted instances. The search ends as soon as there are too many.
fn push_wanted(
    store: &mut Store,
    ranked: &Ranked<'_>,
    saying: &Saying<'_>,
    decls: &mut Seq<Decl>,
    allowed: u64,
) -> Result<u64, StageFault>
    requires ranked { IsRanked store.old ranked.now.keys.now ranked.now.types.now }
    requires formula { Holds store.old saying.now.formula }
    requires ready { IsSearchable (seen_occurrences store.old ranked.now.keys.now)
        saying.now.decl.now.vars (tree_at store.old saying.now.formula) }
    requires held { All (DeclHeld store.old) decls.old }
    requires small { allowed ≤ 1048576 }
    ensures puts { IfOk result (PutsDeclarations store.old decls.old allowed
        (map (said_at (declaration_at store.old saying.now.decl.now))
        (wanted_formulas (seen_occurrences store.old ranked.now.keys.now)
        (proposition_of saying.now.decl.now.vars (tree_at store.old saying.now.formula))))
        store.new decls.new) }
    ensures fault { IfErr result (IsAboveAllowed allowed
        (map (said_at (declaration_at store.old saying.now.decl.now))
        (wanted_formulas (seen_occurrences store.old ranked.now.keys.now)
        (proposition_of saying.now.decl.now.vars (tree_at store.old saying.now.formula))))) }
    ensures grows { Grows store.old store.new }
{
    let size = store.size(saying.formula);
    let many = allowed / size;
    let most = many as usize;
    let wanted = wanted_assignments(
        saying.alloc,
        store,
        ranked.keys,
        ranked.types,
        saying.formula,
        saying.decl.vars,
        most,
    )?;
    let count = wanted.len();
    if count > most {
        return Err(StageFault::TooLarge);
    }
    let left = push_instances(store, saying, wanted.as_slice(), decls, allowed)?;
    Ok(left)
}

// The formula of a polymorphic proposition.
fn polymorphic_formula(store: &Store, body: &Body) -> Option<TermId>
    requires { BodyHeld store.now body.now }
    ensures held { IfSome result (Holds store.now) }
    ensures formula { option_map (tree_at store.now) result
        ≡ polymorphic_formula (body_at store.now body.now) }
{
    match body {
        Body::Prop(formula) => {
            if store.above_type_variables(*formula) == 0 {
                None
            } else {
                Some(*formula)
            }
        }
        _ => None,
    }
}

// PutsDeclarations what is in the place of a declaration after others.
fn push_in_place(
    store: &mut Store,
    ranked: &Ranked<'_>,
    decl: &Decl,
    decls: &mut Seq<Decl>,
    allowed: u64,
) -> Result<u64, StageFault>
    requires ranked { IsRanked store.old ranked.now.keys.now ranked.now.types.now }
    requires decl { DeclHeld store.old decl.now }
    requires ready { IsSearchableBody (seen_occurrences store.old ranked.now.keys.now) decl.now.vars
        (body_at store.old decl.now.body) }
    requires held { All (DeclHeld store.old) decls.old }
    requires small { allowed ≤ 1048576 }
    ensures puts { IfOk result (PutsDeclarations store.old decls.old allowed
        (put_in_place (seen_occurrences store.old ranked.now.keys.now)
        (declaration_at store.old decl.now) (body_at store.old decl.now.body))
        store.new decls.new) }
    ensures fault { IfErr result (IsAboveAllowed allowed
        (put_in_place (seen_occurrences store.old ranked.now.keys.now)
        (declaration_at store.old decl.now) (body_at store.old decl.now.body))) }
    ensures grows { Grows store.old store.new }
{
    match polymorphic_formula(store, &decl.body) {
        Some(formula) => {
            let saying = Saying {
                alloc: ranked.alloc,
                decl,
                formula,
            };
            let left = push_wanted(store, ranked, &saying, decls, allowed)?;
            Ok(left)
        }
        None => {
            let same = decl.clone()?;
            decls.push(same)?;
            Ok(allowed)
        }
    }
}

/// The declarations of a task with the wanted instances at a set; `TooLarge` only where they have more than 2^20 nodes.
pub(crate) fn declarations_at_set(
    alloc: Global,
    store: &mut Store,
    task: &Task,
    set: &[InstanceKey],
) -> Result<Seq<Decl>, StageFault>
    requires held { TaskHeld store.old task.now }
    requires valid { IsValid (task_at store.old task.now) }
    requires set_held { KeysHeld store.old set.now }
    requires goes { GoesOn (seen_occurrences store.old set.now)
        (last_set (task_at store.old task.now)) }
    ensures decls { IfOk result (λ v. declarations_at store.new v
        ≡ discriminated_decls (seen_occurrences store.old set.now)
        (task_at store.old task.now).decls) }
    ensures held { IfOk result (All (DeclHeld store.new)) }
    ensures fault { IfErr result (IsAboveAllowed 1048576
        (discriminated_decls (seen_occurrences store.old set.now)
        (task_at store.old task.now).decls)) }
    ensures grows { Grows store.old store.new }
{
    let types = types_in_order(alloc, store, set)?;
    let ranks = types.as_slice();
    let ranked = Ranked {
        alloc,
        keys: set,
        types: ranks,
    };
    let mut decls = Seq::new(alloc);
    let mut left = MOST_NODES;
    for decl in task.decls.as_slice() {
        let next = push_in_place(store, &ranked, decl, &mut decls, left)?;
        left = next;
    }
    Ok(decls)
}
