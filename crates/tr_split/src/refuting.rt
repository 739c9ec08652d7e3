// The negation of a goal refuted by a script.
ghost use Rattle.std.specs.Prelude.{[], ◌∷◌};
ghost use Rattle.tasks.specs.trees.Node.{tree_at};
ghost use Rattle.tasks.specs.Task.{neg};
ghost use Rattle.tasks.specs.Meaning.{trees_at};
ghost use Rattle.evidence.specs.Drafts.{IsFormulaAt, AreFormulas};
ghost use Rattle.evidence.specs.proof_scripts.Scripts.{lines_at, LinesHeld, Follows};
ghost use Rattle.tr_split.specs.Gluing.{IsGlued};

use evidence::proof_scripts::{Line, derive};
use evidence::{Draft, negation};
use std::alloc::AllocError;
use tasks::TermId;

// A step that refutes these formulas and the negation of the goal, by lines that refute it.
pub(crate) fn refute_goal(
    draft: &mut Draft,
    front: &[TermId],
    goal: TermId,
    lines: &[Line],
) -> Result<usize, AllocError>
    requires front { AreFormulas draft.old front.now }
    requires goal { IsFormulaAt draft.old goal }
    requires lines { LinesHeld draft.old lines.now }
    requires follow { Follows draft.old (trees_at draft.old.trees front.now)
        (lines_at draft.old.trees lines.now)
        ((neg (tree_at draft.old.trees goal) ∷ []) ∷ []) }
    ensures { IsGlued draft.old draft.new front.now goal result }
{
    let no_goal = negation(draft, goal)?;
    let step = derive(draft, front, &[no_goal], lines)?;
    Ok(step)
}
