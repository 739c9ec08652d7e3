// What formulas become.
ghost use Rattle.std.specs.Prelude.{◌≡◌, [], IfOk, IfErr};
ghost use Rattle.trees.specs.Node.{tree_at, Holds, Grows};
ghost use Rattle.tasks.specs.Meaning.{task_at};
ghost use Rattle.tasks.specs.Vocabulary.{of_task};
ghost use Rattle.inlining.specs.images.Images.{image};
ghost use Rattle.inlining.specs.images.typing_laws.HasTyping.{HasTyping};
ghost use Rattle.tr_inline.specs.full_bodies.FullBodies.{rule_after, AreReady};
ghost use Rattle.tr_inline.specs.full_bodies.Made.{IsFormulaFault};

use crate::full_bodies::fault::InlineFault;
use crate::full_bodies::imaging::inline_whole;
use crate::full_bodies::uses::{FullBody, Inlining};
use std::alloc::Global;
use tasks::Task;
use trees::TermId;
use trees::store::Store;

/// What a closed formula of a task becomes, where each use of a symbol with a body becomes the full body at the types and
/// arguments of the use. `Large` says that it would have more than 2^20 nodes, or be higher than 2,000; one that is given
/// may be, too.
pub fn inline_formula(
    alloc: Global,
    store: &mut Store,
    task: &Task,
    bodies: &[FullBody],
    formula: TermId,
) -> Result<TermId, InlineFault>
    requires ready { AreReady store.old task.now bodies.now }
    requires held { Holds store.old formula }
    requires typed { HasTyping (of_task (task_at store.old task.now)) []
        (tree_at store.old formula) }
    ensures held { IfOk result (Holds store.new) }
    ensures tree { IfOk result (λ id. tree_at store.new id
        ≡ image (rule_after store.old (λ e. e) bodies.now) (tree_at store.old formula)) }
    ensures fault { IfErr result (IsFormulaFault
        (image (rule_after store.old (λ e. e) bodies.now) (tree_at store.old formula))) }
    ensures grows { Grows store.old store.new }
{
    let inlining = Inlining { task, bodies };
    let made = inline_whole(alloc, store, &inlining, formula)?;
    Ok(made)
}
