// From which fact of the old task each fact of a rewritten one comes.
// It depends on the rules; transformations cite by it.
ghost use Rattle.std.specs.Prelude.{◌≡◌, ◌+◌, ◌≤◌, ◌<◌, List, [], ◌∷◌, map, length, slice_get, All, IfOk};
ghost use Rattle.trees.specs.Node.{tree_at, Holds};
ghost use Rattle.tasks.specs.Task.{SymbolTree, neg, start};
ghost use Rattle.tasks.specs.Facts.{said_in};
ghost use Rattle.tasks.specs.Looking.{fact_name};
ghost use Rattle.tasks.specs.Meaning.{trees_at, body_at, declarations_at, task_at, tasks_at, DeclHeld};
ghost use Rattle.evidence.specs.Drafts.{Extends, Refutes, IsFormulaAt};
ghost use Rattle.evidence.specs.Facts.{IsFact};
ghost use Rattle.evidence.specs.Stages.{Gives, IsOwnTask, InStage, EndIn};
ghost use Rattle.declarations.specs.Rewritten.{KeepsMade, rewritten_task};
ghost use Rattle.declarations.specs.Said.{said_from, AreSaid, AreOwnFacts};
ghost use Rattle.declarations.specs.Names.{IsOldName};
ghost use Rattle.declarations.specs.Equation.{rewrite_equation};

use crate::{FactSearch, RewriteDeclarations};
use evidence::{Draft, fact_lemma};
use std::alloc::AllocError;
use tasks::{Body, Decl, Fact, Task};
use trees::TermId;
use trees::store::{Grow, Store};

// How many propositions a declaration says.
fn said_in(store: &Store, body: &Body) -> usize
    ensures said { result ≡ said_in (body_at store.now body.now) }
    ensures one { result ≤ 1 }
{
    let _ = store;
    match body {
        Body::Prop(_) => 1,
        _ => 0,
    }
}

// From which fact the k-th proposition of these declarations, rewritten, comes, where so many propositions of the old task are
// before them; none where there are not so many.
fn origin_of<R: RewriteDeclarations>(
    store: &Store,
    rule: &R,
    decls: &[Decl],
    place: usize,
    k: usize,
) -> Option<Fact>
    requires held { All (DeclHeld store.now) decls.now }
    requires fits { place + length decls.now ≤ usize.MAX }
    ensures { (symbols : List SymbolTree) → result ≡ slice_get (map fact_name
        (said_from (R.said rule.now) symbols place (declarations_at store.now decls.now))) k }
{
    match decls.split_first() {
        Some((first, rest)) => match rule.origin(store, first, place, k) {
            FactSearch::Here(name) => Some(name),
            FactSearch::After(left) => {
                let next = place + said_in(store, &first.body);
                origin_of(store, rule, rest, next, left)
            }
        },
        None => None,
    }
}

// The name in the old task, the draft's, of a fact of the rewritten one.
fn old_name<R: RewriteDeclarations>(rule: &R, draft: &Draft, from: &Task, name: Fact) -> Fact
    requires own { IsOwnTask draft.now from.now }
    requires keeps { KeepsMade (R.rule rule.now) }
    requires said { AreSaid (R.rule rule.now) (R.said rule.now) }
    requires facts { AreOwnFacts (R.said rule.now) }
    ensures { IsOldName draft.now.task (rewritten_task (R.rule rule.now) draft.now.task) name
        result }
{
    match name {
        Fact::Proposition(k) => match origin_of(draft.store(), rule, from.decls.as_slice(), 0, k) {
            Some(old) => old,
            None => Fact::Proposition(k),
        },
        Fact::Equation(k) => Fact::Equation(k),
        Fact::Clause(k, c) => Fact::Clause(k, c),
        Fact::Inversion(k) => Fact::Inversion(k),
    }
}

/// A step whose sequent is the negation of a fact of the rewritten task, alone: by the fact of the old task, the draft's, that says
/// the same.
pub fn cite_old<R: RewriteDeclarations>(
    rule: &R,
    from: &Task,
    to: &Task,
    name: Fact,
    types: &[TermId],
    formula: TermId,
    draft: &mut Draft,
) -> Result<usize, AllocError>
    requires keeps { KeepsMade (R.rule rule.now) }
    requires said { AreSaid (R.rule rule.now) (R.said rule.now) }
    requires facts { AreOwnFacts (R.said rule.now) }
    requires stage { InStage (rewrite_equation (R.rule rule.now)) draft.old from.now to.now }
    requires types_held { All (Holds draft.old.trees) types.now }
    requires formula { IsFormulaAt draft.old formula }
    requires fact { IsFact draft.old.task (task_at draft.old.trees to.now) name
        (trees_at draft.old.trees types.now) (tree_at draft.old.trees formula) }
    ensures refutes { IfOk result (λ k. Refutes draft.new k
        (neg (tree_at draft.old.trees formula) ∷ [])) }
    ensures grows { Extends draft.old draft.new }
{
    let _ = to;
    let old = old_name(rule, draft, from, name);
    fact_lemma(draft, old, types, formula)
}

/// The end of the rewritten task's part, whose sequent is the start of the old task, too.
pub fn only_end<R: RewriteDeclarations>(
    rule: &R,
    to: &Vec<Task>,
    ends: &[usize],
    draft: &Draft,
) -> usize
    requires gives { Gives (rewrite_equation (R.rule rule.now)) draft.now.task
        (tasks_at draft.now.trees to.now.items) }
    requires ends { EndIn draft.now ends.now (tasks_at draft.now.trees to.now.items) }
    ensures { Refutes draft.now result (start draft.now.task) }
{
    let _ = rule;
    let _ = to;
    let _ = draft;
    ends[0]
}
