// Facts of the rewritten task, refuted by those of the old one.
// They depend on the evidence of a formula; the transformations cite by them.
ghost use Rattle.std.specs.Prelude.{[], ◌∷◌, All, IfOk};
ghost use Rattle.tasks.specs.trees.Node.{tree_at, Holds};
ghost use Rattle.tasks.specs.Task.{neg};
ghost use Rattle.tasks.specs.Meaning.{trees_at, task_at};
ghost use Rattle.evidence.specs.Drafts.{Extends, AddsTrees, Refutes, IsFormulaAt};
ghost use Rattle.evidence.specs.Facts.{IsFact};
ghost use Rattle.evidence.specs.Stages.{IsOwnTask, InStage};
ghost use Rattle.walking.specs.rewriting.Rewritten.{formulas_equation};
ghost use Rattle.walking.specs.rewriting.Facts.{IsPropositionAt, IsMadeAt, IsImageAt};

use crate::rewriting::{FormulaScope, RewriteFormulas};
use evidence::proof_scripts::{Line, Places, derive};
use evidence::{Draft, fact_lemma, negation};
use images::instance_at;
use std::alloc::AllocError;
use tasks::{Fact, Grow, Task, TermId, nth_proposition};

// A proposition of the task at types.
fn proposition_at(
    draft: &mut Draft,
    from: &Task,
    number: usize,
    types: &[TermId],
) -> Result<TermId, AllocError>
    requires own { IsOwnTask draft.old from.now }
    requires types_held { All (Holds draft.old.trees) types.now }
    requires proposition { IsPropositionAt draft.old.task number
        (trees_at draft.old.trees types.now) }
    ensures made { IfOk result (IsMadeAt draft.new number (trees_at draft.old.trees types.now)) }
    ensures grows { AddsTrees draft.old draft.new }
{
    match nth_proposition(draft.store(), from, number) {
        Some(said) => {
            let alloc = draft.allocator();
            let made = instance_at(alloc, draft, said.formula, types, &[])?;
            Ok(made)
        }
        None => unreachable!(),
    }
}

// [not b], from steps that refute [a; not b] and [not a].
fn refute_image(
    draft: &mut Draft,
    a: TermId,
    b: TermId,
    there: usize,
    lemma: usize,
) -> Result<usize, AllocError>
    requires a { IsFormulaAt draft.old a }
    requires b { IsFormulaAt draft.old b }
    requires there { Refutes draft.old there
        (tree_at draft.old.trees a ∷ neg (tree_at draft.old.trees b) ∷ []) }
    requires lemma { Refutes draft.old lemma (neg (tree_at draft.old.trees a) ∷ []) }
    ensures refutes { IfOk result (λ k. Refutes draft.new k
        (neg (tree_at draft.old.trees b) ∷ [])) }
    ensures grows { Extends draft.old draft.new }
{
    let negated = negation(draft, b)?;
    derive(
        draft,
        &[],
        &[negated],
        &[
            Line::Cut(a),
            Line::Kept(there, Places::Two(1, 0)),
            Line::Kept(lemma, Places::One(1)),
        ],
    )
}

// A proposition of the rewritten task at types: its base lemma in the old task, and the half of an equivalence.
fn cite_proposition<F: RewriteFormulas>(
    rewrite: &F,
    from: &Task,
    number: usize,
    types: &[TermId],
    formula: TermId,
    draft: &mut Draft,
) -> Result<usize, AllocError>
    requires ready { F.Ready rewrite.now draft.old.task draft.old.trees }
    requires own { IsOwnTask draft.old from.now }
    requires types_held { All (Holds draft.old.trees) types.now }
    requires formula { IsFormulaAt draft.old formula }
    requires image { IsImageAt draft.old.task (F.function rewrite.now draft.old.task) number
        (trees_at draft.old.trees types.now) (tree_at draft.old.trees formula) }
    ensures refutes { IfOk result (λ k. Refutes draft.new k
        (neg (tree_at draft.old.trees formula) ∷ [])) }
    ensures grows { Extends draft.old draft.new }
{
    let old = proposition_at(draft, from, number, types)?;
    let lemma = fact_lemma(draft, Fact::Proposition(number), types, old)?;
    let made = rewrite.rewrite(draft, from, old)?;
    let step = refute_image(draft, old, formula, made.there, lemma)?;
    Ok(step)
}

/// A step whose sequent is the negation of a fact of the rewritten task at these types, alone.
pub fn cite_rewritten<F: RewriteFormulas>(
    rewrite: &F,
    scope: FormulaScope,
    from: &Task,
    to: &Task,
    name: Fact,
    types: &[TermId],
    formula: TermId,
    draft: &mut Draft,
) -> Result<usize, AllocError>
    requires ready { F.Ready rewrite.now draft.old.task draft.old.trees }
    requires stage { InStage (formulas_equation scope (F.function rewrite.now))
        draft.old from.now to.now }
    requires types_held { All (Holds draft.old.trees) types.now }
    requires formula { IsFormulaAt draft.old formula }
    requires fact { IsFact draft.old.task (task_at draft.old.trees to.now) name
        (trees_at draft.old.trees types.now) (tree_at draft.old.trees formula) }
    ensures refutes { IfOk result (λ k. Refutes draft.new k
        (neg (tree_at draft.old.trees formula) ∷ [])) }
    ensures grows { Extends draft.old draft.new }
{
    let _ = to;
    match scope {
        FormulaScope::Everywhere => match name {
            Fact::Proposition(number) => {
                cite_proposition(rewrite, from, number, types, formula, draft)
            }
            _ => fact_lemma(draft, name, types, formula),
        },
        FormulaScope::Goal => fact_lemma(draft, name, types, formula),
    }
}
