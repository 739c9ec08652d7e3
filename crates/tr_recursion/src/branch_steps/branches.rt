// A branch's equation by the definition's: its quantifiers are opened at new parameters.
// It depends on the equation at closed terms.
ghost use Rattle.std.specs.Prelude.{List, [], ◌∷◌, IfOk};
ghost use Rattle.trees.specs.Tree.{Tree};
ghost use Rattle.trees.specs.Node.{tree_at};
ghost use Rattle.tasks.specs.Task.{neg};
ghost use Rattle.tasks.specs.Meaning.{definition_at};
ghost use Rattle.evidence.specs.Drafts.{Extends, Refutes, IsFormulaAt};
ghost use Rattle.tr_inline.specs.Definitions.{IsDefinedIn};
ghost use Rattle.tr_recursion.specs.branch_steps.Instances.{OpensToBranch, IsBranchAt};

use crate::branch_steps::equation_instances::instance_step;
use crate::branch_steps::universal::{body_at, number_above, universal_step};
use evidence::Draft;
use std::alloc::AllocError;
use tasks::{Def, Grow, TermId};
use trees::Node;

// A step that refutes the negation of a formula that is a branch's equation at closed terms, once its quantifiers are opened.
fn opened_step(draft: &mut Draft, def: Def, formula: TermId) -> Result<usize, AllocError>
    requires defined { IsDefinedIn draft.old def }
    requires formula { IsFormulaAt draft.old formula }
    requires opens { OpensToBranch draft.old.task def.symbol (tree_at draft.old.trees formula) }
    ensures refutes { IfOk result (λ n. Refutes draft.new n
        (neg (tree_at draft.old.trees formula) ∷ [])) }
    ensures grows { Extends draft.old draft.new }
{
    match draft.store().node(formula) {
        Node::Forall(ty, body) => {
            let number = number_above(draft, formula)?;
            let inner = body_at(draft, formula, ty, body, number)?;
            let step = opened_step(draft, def, inner)?;
            let made = universal_step(draft, formula, number, step)?;
            Ok(made)
        }
        _ => {
            let made = instance_step(draft, def, formula)?;
            Ok(made)
        }
    }
}

/// A step that refutes the negation of the equation of a branch of a definition at types, alone, by the definition's own equation.
/// Only want of memory refuses.
pub fn branch_step(draft: &mut Draft, def: Def, formula: TermId) -> Result<usize, AllocError>
    requires defined { IsDefinedIn draft.old def }
    requires formula { IsFormulaAt draft.old formula }
    requires branch { (types : List Tree) × IsBranchAt draft.old.task
        (definition_at draft.old.trees def) types (tree_at draft.old.trees formula) }
    ensures refutes { IfOk result (λ n. Refutes draft.new n
        (neg (tree_at draft.old.trees formula) ∷ [])) }
    ensures grows { Extends draft.old draft.new }
{
    let made = opened_step(draft, def, formula)?;
    Ok(made)
}
