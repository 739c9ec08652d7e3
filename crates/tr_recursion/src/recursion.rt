// The transformation that spells out recursive definitions.
ghost use Rattle.tr_define.specs.declarations.spelled_groups.Spelled.{spelling_rule, spelling_said};
ghost use Rattle.tr_inline.specs.inlining.branch_equations.Branches.{recursion_facts};
ghost use Rattle.tr_recursion.specs.Kept.{recursions_equation, recursions_keep};

use crate::origins::{origin_of, origin_step};
use crate::recursion_forms::{recursions_origin, recursions_said};
use declarations::{FactSearch, RewriteDeclarations, only_end, rewritten_tasks};
use evidence::{Draft, StageFault, Transform, fact_lemma};
use std::alloc::{AllocError, Global};
use tasks::{Decl, Fact, Grow, Signature, Store, Task, TermId};
use tr_define::push_in_place;

/// The transformation that spells out each recursive group of definitions: its symbols, and then the equation of each, by branches
/// where its body is a `match` on one parameter by constructors, as propositions. It gives one task.
#[derive(Clone, Copy)]
pub struct Recursion;

impl RewriteDeclarations for Recursion {
    ghost rule = { λ _. spelling_rule recursion_facts };

    ghost said = { λ _. spelling_said recursion_facts };

    fn push_in_place(
        &self,
        alloc: Global,
        store: &mut Store,
        sig: &Signature,
        decl: &Decl,
        decls: &mut Vec<Decl>,
    ) -> Result<(), AllocError> {
        let said = recursions_said(alloc, store, sig, decl)?;
        push_in_place(alloc, store, sig, decl, said, decls)
    }

    fn origin(&self, store: &Store, decl: &Decl, place: usize, k: usize) -> FactSearch {
        recursions_origin(store, decl, place, k)
    }
}

impl Transform for Recursion {
    ghost equation = { λ _ from. recursions_equation from };

    /// The task with these groups spelled out.
    fn make(&self, alloc: Global, store: &mut Store, task: &Task) -> Result<Vec<Task>, StageFault> {
        Ok(rewritten_tasks(alloc, store, self, task)?)
    }

    fn fact(
        &self,
        from: &Task,
        to: &Task,
        name: Fact,
        types: &[TermId],
        formula: TermId,
        draft: &mut Draft,
    ) -> Result<usize, AllocError> {
        let _ = to;
        match name {
            Fact::Proposition(k) => match origin_of(draft.store(), from.decls.as_slice(), 0, k) {
                Some(old) => {
                    let made = origin_step(draft, from, old, types, formula)?;
                    Ok(made)
                }
                None => unreachable!(),
            },
            _ => {
                let made = fact_lemma(draft, name, types, formula)?;
                Ok(made)
            }
        }
    }

    fn glue(
        &self,
        from: &Task,
        to: &Vec<Task>,
        ends: &[usize],
        draft: &mut Draft,
    ) -> Result<usize, AllocError> {
        let _ = from;
        Ok(only_end(self, to, ends, draft))
    }

    ghost keeps = { λ _ t ts valid gives. recursions_keep t ts valid gives };
}
