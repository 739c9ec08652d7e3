// From which fact of the old task a fact of the new one follows.
// It depends on branches' equations; the transformation depends on it.
ghost use Rattle.std.specs.Prelude.{◌≡◌, ◌+◌, ◌≤◌, ◌∷◌, [], List, map, length, slice_get, All, IfOk};
ghost use Rattle.tasks.specs.trees.Tree.{Tree};
ghost use Rattle.tasks.specs.trees.Node.{tree_at, Holds};
ghost use Rattle.tasks.specs.Task.{SymbolTree, neg};
ghost use Rattle.tasks.specs.Facts.{said_in};
ghost use Rattle.tasks.specs.Looking.{fact_name};
ghost use Rattle.tasks.specs.Meaning.{trees_at, body_at, declarations_at, DeclHeld};
ghost use Rattle.tasks.specs.Roles.{DefinedRole, role};
ghost use Rattle.evidence.specs.Drafts.{Extends, Refutes, IsFormulaAt};
ghost use Rattle.evidence.specs.Stages.{IsOwnTask};
ghost use Rattle.declarations.specs.Said.{said_from};
ghost use Rattle.tr_define.specs.declarations.spelled_groups.Spelled.{spelling_said};
ghost use Rattle.tr_inline.specs.inlining.branch_equations.Branches.{recursion_facts};
ghost use Rattle.tr_recursion.specs.Followed.{FollowsFrom, FollowsFromEquation};

use crate::branch_steps::branch_step;
use crate::recursion_forms::recursions_origin;
use declarations::FactSearch;
use evidence::{Draft, fact_lemma};
use std::alloc::AllocError;
use tasks::{Body, Decl, Def, Fact, Grow, Lookup, Role, Store, Task, TermId};
use trees::binders::is_inst_types;

// How many propositions a declaration says.
fn said_in(store: &Store, body: &Body) -> usize
    ensures said { result ≡ said_in (body_at store.now body.now) }
    ensures one { result ≤ 1 }
{
    let _ = store;
    match body {
        Body::Prop(_) => 1,
        _ => 0,
    }
}

/// From which fact the k-th proposition of these declarations, spelled out, comes, where so many propositions of the old task are
/// before them; none where there are not so many.
pub(crate) fn origin_of(store: &Store, decls: &[Decl], place: usize, k: usize) -> Option<Fact>
    requires held { All (DeclHeld store.now) decls.now }
    requires fits { place + length decls.now ≤ usize.MAX }
    ensures { (symbols : List SymbolTree) → result ≡ slice_get (map fact_name
        (said_from (spelling_said recursion_facts) symbols place
        (declarations_at store.now decls.now))) k }
{
    match decls.split_first() {
        Some((first, rest)) => match recursions_origin(store, first, place, k) {
            FactSearch::Here(name) => Some(name),
            FactSearch::After(left) => {
                let next = place + said_in(store, &first.body);
                origin_of(store, rest, next, left)
            }
        },
        None => None,
    }
}

// The equation of a symbol that the draft's task defines.
fn equation_of(draft: &Draft, from: &Task, symbol: usize) -> TermId
    requires own { IsOwnTask draft.now from.now }
    requires defined { (e : Tree) × (role draft.now.task symbol ≡ DefinedRole e) }
    ensures held { Holds draft.now.trees result }
    ensures tree { role draft.now.task symbol ≡ DefinedRole (tree_at draft.now.trees result) }
{
    let look = Lookup::without_index(from);
    match look.role(draft.store(), symbol) {
        Role::Defined(equation) => equation,
        _ => unreachable!(),
    }
}

// A step whose sequent is the negation of what follows from a definition's equation at types, alone.
fn equation_step(
    draft: &mut Draft,
    from: &Task,
    symbol: usize,
    types: &[TermId],
    formula: TermId,
) -> Result<usize, AllocError>
    requires own { IsOwnTask draft.old from.now }
    requires types_held { All (Holds draft.old.trees) types.now }
    requires formula { IsFormulaAt draft.old formula }
    requires follows { FollowsFromEquation draft.old.task symbol
        (trees_at draft.old.trees types.now) (tree_at draft.old.trees formula) }
    ensures refutes { IfOk result (λ k. Refutes draft.new k
        (neg (tree_at draft.old.trees formula) ∷ [])) }
    ensures grows { Extends draft.old draft.new }
{
    let equation = equation_of(draft, from, symbol);
    if is_inst_types(draft.store(), equation, types, formula) {
        let made = fact_lemma(draft, Fact::Equation(symbol), types, formula)?;
        Ok(made)
    } else {
        let made = branch_step(draft, Def { symbol, equation }, formula)?;
        Ok(made)
    }
}

/// A step whose sequent is the negation of a fact of the new task at types, alone, by the fact of the old one from which it follows.
pub(crate) fn origin_step(
    draft: &mut Draft,
    from: &Task,
    old: Fact,
    types: &[TermId],
    formula: TermId,
) -> Result<usize, AllocError>
    requires own { IsOwnTask draft.old from.now }
    requires types_held { All (Holds draft.old.trees) types.now }
    requires formula { IsFormulaAt draft.old formula }
    requires follows { FollowsFrom draft.old.task old (trees_at draft.old.trees types.now)
        (tree_at draft.old.trees formula) }
    ensures refutes { IfOk result (λ k. Refutes draft.new k
        (neg (tree_at draft.old.trees formula) ∷ [])) }
    ensures grows { Extends draft.old draft.new }
{
    match old {
        Fact::Equation(symbol) => {
            let made = equation_step(draft, from, symbol, types, formula)?;
            Ok(made)
        }
        _ => {
            let made = fact_lemma(draft, old, types, formula)?;
            Ok(made)
        }
    }
}
