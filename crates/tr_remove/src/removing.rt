// The transformation that removes propositions.
ghost use Rattle.tr_remove.specs.Remove.{removal_rule, left_said, remove_equation};
ghost use Rattle.tr_remove.specs.Kept.{remove_keeps};

use crate::removal::is_removed;
use declarations::{
    FactSearch, RewriteDeclarations, cite_old, only_end, own_origin, rewritten_tasks,
};
use evidence::{Draft, StageFault, Transform};
use std::alloc::{AllocError, Global};
use tasks::{Decl, Fact, Seq, Signature, Store, Task, TermId, Text};

/// The transformation that removes the propositions of these theories and names: a proposition goes where both are its own.
/// It gives one task.
#[derive(Drop)]
pub struct Remove {
    pub props: Seq<(Text, Text)>,
}

impl RewriteDeclarations for Remove {
    ghost rule = { λ x. removal_rule x.props };

    ghost said = { λ x. left_said x.props };

    fn push_in_place(
        &self,
        alloc: Global,
        store: &mut Store,
        sig: &Signature,
        decl: &Decl,
        decls: &mut Vec<Decl>,
    ) -> Result<(), AllocError> {
        let _ = alloc;
        let _ = store;
        let _ = sig;
        if is_removed(self.props.as_slice(), decl) {
            return Ok(());
        }
        decls.push(decl.clone()?)?;
        Ok(())
    }

    fn origin(&self, store: &Store, decl: &Decl, place: usize, k: usize) -> FactSearch {
        let _ = store;
        if is_removed(self.props.as_slice(), decl) {
            return FactSearch::After(k);
        }
        own_origin(decl, place, k)
    }
}

impl Transform for Remove {
    ghost equation = { λ x from. remove_equation x.props from };

    /// The task without what is removed.
    fn make(&self, alloc: Global, store: &mut Store, task: &Task) -> Result<Vec<Task>, StageFault> {
        Ok(rewritten_tasks(alloc, store, self, task)?)
    }

    fn fact(
        &self,
        from: &Task,
        to: &Task,
        name: Fact,
        types: &[TermId],
        formula: TermId,
        draft: &mut Draft,
    ) -> Result<usize, AllocError> {
        cite_old(self, from, to, name, types, formula, draft)
    }

    fn glue(
        &self,
        from: &Task,
        to: &Vec<Task>,
        ends: &[usize],
        draft: &mut Draft,
    ) -> Result<usize, AllocError> {
        let _ = from;
        Ok(only_end(self, to, ends, draft))
    }

    ghost keeps = { λ x t ts valid gives. remove_keeps x.props t ts valid gives };
}
