// From which old proposition a new one comes, and at which types.
// It depends on the types along an instance; the transformation depends on it.
ghost use Rattle.std.specs.Prelude.{◌≡◌, ◌+◌, ◌≤◌, List, [], ◌∷◌, length, All, IfOk};
ghost use Rattle.trees.specs.Sorts.{int_type};
ghost use Rattle.trees.specs.Node.{tree_at, trees_at, Holds};
ghost use Rattle.tasks.specs.Task.{PropositionTree, neg, props_of};
ghost use Rattle.tasks.specs.Meaning.{declarations_at, DeclHeld};
ghost use Rattle.tasks.specs.Vocabulary.{Vocabulary};
ghost use Rattle.tasks.specs.Typing.{TypedUnder};
ghost use Rattle.tasks.specs.Valid.{VariablesBelow, IsTypeIn};
ghost use Rattle.evidence.specs.Drafts.{Extends, Refutes, IsFormulaAt};
ghost use Rattle.evidence.specs.Stages.{IsOwnTask};
ghost use Rattle.tr_discriminate.specs.Origins.{AreFrom, HasOrigin, IsInstanceThere};

use crate::types::types_along;
use evidence::{Draft, fact_lemma};
use std::alloc::{AllocError, Global};
use tasks::{Body, Decl, Fact, Grow, Store, Task, TermId};
use trees::binders::is_inst_types;

/// A proposition by its place among those of a task, and types for its type variables.
#[derive(Drop)]
struct Origin {
    place: usize,
    types: Vec<TermId>,
}

// The first proposition among declarations of which a formula is an instance, where so many propositions are before them.
fn origin_from(
    alloc: Global,
    store: &Store,
    decls: &[Decl],
    place: usize,
    formula: TermId,
) -> Result<Origin, AllocError>
    requires held { All (DeclHeld store.now) decls.now }
    requires formula { Holds store.now formula }
    requires fits { place + length decls.now ≤ usize.MAX }
    requires origin { HasOrigin (declarations_at store.now decls.now)
        (tree_at store.now formula) }
    ensures held { IfOk result (λ o. All (Holds store.now) o.types.items) }
    ensures there { (ps : List PropositionTree)
        → AreFrom ps place (props_of (declarations_at store.now decls.now))
        → IfOk result (λ o. IsInstanceThere ps o.place (trees_at store.now o.types.items)
        (tree_at store.now formula)) }
    ensures types { IfOk result (λ o. (v : Vocabulary) → IsTypeIn v 0 int_type
        → TypedUnder v [] (tree_at store.now formula)
        → VariablesBelow 0 (tree_at store.now formula)
        → All (IsTypeIn v 0) (trees_at store.now o.types.items)) }
{
    match decls.split_first() {
        Some((first, rest)) => match first.body {
            Body::Prop(a) => {
                let types = types_along(alloc, store, first.vars, a, formula)?;
                let found = is_inst_types(store, a, &types, formula);
                if found {
                    return Ok(Origin { place, types });
                }
                let next = origin_from(alloc, store, rest, place + 1, formula)?;
                Ok(next)
            }
            _ => {
                let next = origin_from(alloc, store, rest, place, formula)?;
                Ok(next)
            }
        },
        None => unreachable!(),
    }
}

/// A step whose sequent is the negation of an instance of a proposition of the draft's task, alone.
pub(crate) fn cite_origin(
    from: &Task,
    formula: TermId,
    draft: &mut Draft,
) -> Result<usize, AllocError>
    requires own { IsOwnTask draft.old from.now }
    requires formula { IsFormulaAt draft.old formula }
    requires origin { HasOrigin draft.old.task.decls (tree_at draft.old.trees formula) }
    ensures refutes { IfOk result (λ k. Refutes draft.new k
        (neg (tree_at draft.old.trees formula) ∷ [])) }
    ensures grows { Extends draft.old draft.new }
{
    let alloc = draft.allocator();
    let origin = origin_from(alloc, draft.store(), from.decls.as_slice(), 0, formula)?;
    let step = fact_lemma(
        draft,
        Fact::Proposition(origin.place),
        &origin.types,
        formula,
    )?;
    Ok(step)
}
