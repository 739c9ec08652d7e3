// What formulas of a task become.
// Clients implement it; the rewritten task, its facts and its start depend on it.
ghost use Rattle.std.specs.Prelude.{◌≡◌, ◌≤◌, List, [], ◌∷◌, length, IfOk, IfErr};
ghost use Rattle.tasks.specs.trees.Tree.{Tree, above_params};
ghost use Rattle.tasks.specs.trees.Node.{tree_at, Holds, Grows};
ghost use Rattle.tasks.specs.Task.{TaskTree, neg};
ghost use Rattle.tasks.specs.Meaning.{task_at};
ghost use Rattle.tasks.specs.Valid.{IsValid};
ghost use Rattle.tasks.specs.Vocabulary.{of_task};
ghost use Rattle.evidence.specs.Drafts.{Extends, Refutes, IsFormulaAt};
ghost use Rattle.evidence.specs.Stages.{IsOwnTask};
ghost use Rattle.evidence.specs.changed_tasks.Changed.{KeepsFormulas};
ghost use Rattle.walking.specs.rewriting.Formulas.{CommutesWithTypes, CanRewrite, IsFormulaIn};
ghost use Rattle.evidence.specs.changed_tasks.Limits.{IsLarge};
ghost use Rattle.walking.specs.rewriting.Faults.{IsLimitFault};

use evidence::{Draft, StageFault};
use std::alloc::{AllocError, Global};
use tasks::{Store, Task, TermId};

/// Which formulas of a task are rewritten.
#[derive(Clone, Copy)]
pub enum FormulaScope {
    /// Its propositions, its locals and its goal.
    Everywhere,
    /// Its goal alone.
    Goal,
}

/// What a formula becomes, and steps for the two halves of their equivalence.
#[derive(Clone, Copy)]
pub struct FormulaImage {
    pub image: TermId,
    pub there: usize,
    pub back: usize,
}

/// What formulas of a task become, over a store and with evidence.
pub trait RewriteFormulas {
    /// What a closed formula of a task becomes.
    ghost function: { Self → TaskTree → Tree → Tree };

    /// What has to be so of its own numbers, for a task, in a store of these trees.
    ghost Ready: { Self → TaskTree → List Tree → Type 0 };

    /// What a formula becomes, or why the stage gives nothing: one whose images can't be made where they are too large
    /// may answer `TooLarge` here, and only there.
    fn image_of(
        &self,
        alloc: Global,
        store: &mut Store,
        task: &Task,
        formula: TermId,
    ) -> Result<TermId, StageFault>
        requires can { CanRewrite (Ready self.now) store.old task.now }
        requires formula { IsFormulaIn store.old (task_at store.old task.now) formula }
        ensures held { IfOk result (Holds store.new) }
        ensures tree { IfOk result (λ id. tree_at store.new id
            ≡ function self.now (task_at store.old task.now) (tree_at store.old formula)) }
        ensures fault { IfErr result (IsLimitFault (IsLarge
            (function self.now (task_at store.old task.now) (tree_at store.old formula)))) }
        ensures grows { Grows store.old store.new };

    /// What a formula of the draft's task becomes, and steps for the two halves of their equivalence.
    fn rewrite(
        &self,
        draft: &mut Draft,
        from: &Task,
        formula: TermId,
    ) -> Result<FormulaImage, AllocError>
        requires ready { Ready self.now draft.old.task draft.old.trees }
        requires own { IsOwnTask draft.old from.now }
        requires formula { IsFormulaAt draft.old formula }
        requires below { above_params (tree_at draft.old.trees formula)
            ≤ length draft.old.task.params }
        ensures formula { IfOk result (λ m. IsFormulaAt draft.new m.image) }
        ensures image { IfOk result (λ m. tree_at draft.new.trees m.image
            ≡ function self.now draft.old.task (tree_at draft.old.trees formula)) }
        ensures there { IfOk result (λ m. Refutes draft.new m.there
            (tree_at draft.old.trees formula ∷ neg (tree_at draft.new.trees m.image) ∷ [])) }
        ensures back { IfOk result (λ m. Refutes draft.new m.back
            (tree_at draft.new.trees m.image ∷ neg (tree_at draft.old.trees formula) ∷ [])) }
        ensures grows { Extends draft.old draft.new };

    ghost stays_ready: { (x : Self) (t : TaskTree) (s s1 : List Tree) → Grows s s1 → Ready x t s → Ready x t s1 };

    /// What a formula becomes is one, with its typing.
    ghost keeps_typing: { (x : Self) (t : TaskTree) → IsValid t → KeepsFormulas (of_task t) (function x t) };

    /// What a formula at types becomes is what it becomes, at the types.
    ghost at_types: { (x : Self) (t : TaskTree) → IsValid t → CommutesWithTypes (of_task t) (function x t) };
}
