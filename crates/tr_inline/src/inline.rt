// The transformations that inline definitions.
ghost use Rattle.std.specs.Prelude.{◌≡◌};
ghost use Rattle.tr_inline.specs.Inlined.{mode_scope};
ghost use Rattle.tr_inline.specs.Kept.{inline_keeps};
ghost use Rattle.inlining.specs.Inlining.{inline_equation};

use crate::formulas::InlinedFormulas;
use crate::full_bodies::{InlineMode, full_bodies};
use evidence::{Draft, StageFault, Transform};
use std::alloc::{AllocError, Global};
use tasks::{Fact, Store, Task, TermId};
use walking::rewriting::{FormulaScope, cite_rewritten, glue_rewritten, scoped_tasks};

/// The transformation that inlines definitions that aren't recursive, from the last to the first: each use of the symbol becomes
/// the body of its definition, at the types and arguments of the use. It gives one task; the definitions stay.
#[derive(Clone, Copy)]
pub struct Inline {
    /// Which definitions, and in which formulas.
    pub mode: InlineMode,
}

// The formulas in which a mode inlines.
fn mode_scope(mode: InlineMode) -> FormulaScope
    ensures { result ≡ mode_scope mode }
{
    match mode {
        InlineMode::Trivial => FormulaScope::Everywhere,
        InlineMode::Goal => FormulaScope::Goal,
        InlineMode::All => FormulaScope::Everywhere,
    }
}

impl Transform for Inline {
    ghost equation = { λ x from. inline_equation x.mode from };

    /// The task with the definitions of the mode inlined. `TooLarge` comes only where a formula of it is larger or higher than
    /// a stage allows.
    fn make(&self, alloc: Global, store: &mut Store, task: &Task) -> Result<Vec<Task>, StageFault> {
        let bodies = full_bodies(alloc, store, task, self.mode)?;
        let formulas = InlinedFormulas {
            mode: self.mode,
            bodies: Some(bodies.as_slice()),
        };
        let scope = mode_scope(self.mode);
        let made = scoped_tasks(alloc, store, &formulas, scope, task)?;
        Ok(made)
    }

    fn fact(
        &self,
        from: &Task,
        to: &Task,
        name: Fact,
        types: &[TermId],
        formula: TermId,
        draft: &mut Draft,
    ) -> Result<usize, AllocError> {
        let formulas = InlinedFormulas {
            mode: self.mode,
            bodies: None,
        };
        let scope = mode_scope(self.mode);
        let step = cite_rewritten(&formulas, scope, from, to, name, types, formula, draft)?;
        Ok(step)
    }

    fn glue(
        &self,
        from: &Task,
        to: &Vec<Task>,
        ends: &[usize],
        draft: &mut Draft,
    ) -> Result<usize, AllocError> {
        let formulas = InlinedFormulas {
            mode: self.mode,
            bodies: None,
        };
        let scope = mode_scope(self.mode);
        let step = glue_rewritten(&formulas, scope, from, to, ends, draft)?;
        Ok(step)
    }

    ghost keeps = { λ x t ts valid gives. inline_keeps x.mode t ts valid gives };
}
