// The transformation that spells out inductive predicates.
ghost use Rattle.declarations.specs.spelled_groups.Groups.{inductive_facts};
ghost use Rattle.declarations.specs.spelled_groups.Spelled.{spelling_rule, spelling_said};
ghost use Rattle.tr_define.specs.Kept.{inductives_equation, inductives_keep};

use declarations::spelled_groups::{inductives_origin, inductives_said, push_in_place};
use declarations::{FactSearch, RewriteDeclarations, cite_old, only_end, rewritten_tasks};
use evidence::{Draft, StageFault, Transform};
use std::alloc::{AllocError, Global};
use tasks::{Decl, Fact, Signature, Store, Task, TermId};

/// The transformation that spells out each group of inductive predicates: its predicates, then their clauses in order, and then the
/// inversion formula of each, as propositions. It gives one task.
#[derive(Clone, Copy)]
pub struct InductiveGroups;

impl RewriteDeclarations for InductiveGroups {
    ghost rule = { λ _. spelling_rule inductive_facts };

    ghost said = { λ _. spelling_said inductive_facts };

    fn push_in_place(
        &self,
        alloc: Global,
        store: &mut Store,
        sig: &Signature,
        decl: &Decl,
        decls: &mut Vec<Decl>,
    ) -> Result<(), AllocError> {
        let said = inductives_said(alloc, store, sig, decl)?;
        push_in_place(alloc, store, sig, decl, said, decls)
    }

    fn origin(&self, store: &Store, decl: &Decl, place: usize, k: usize) -> FactSearch {
        inductives_origin(store, decl, place, k)
    }
}

impl Transform for InductiveGroups {
    ghost equation = { λ _ from. inductives_equation from };

    /// The task with these groups spelled out.
    fn make(&self, alloc: Global, store: &mut Store, task: &Task) -> Result<Vec<Task>, StageFault> {
        Ok(rewritten_tasks(alloc, store, self, task)?)
    }

    fn fact(
        &self,
        from: &Task,
        to: &Task,
        name: Fact,
        types: &[TermId],
        formula: TermId,
        draft: &mut Draft,
    ) -> Result<usize, AllocError> {
        cite_old(self, from, to, name, types, formula, draft)
    }

    fn glue(
        &self,
        from: &Task,
        to: &Vec<Task>,
        ends: &[usize],
        draft: &mut Draft,
    ) -> Result<usize, AllocError> {
        let _ = from;
        Ok(only_end(self, to, ends, draft))
    }

    ghost keeps = { λ _ t ts valid gives. inductives_keep t ts valid gives };
}
