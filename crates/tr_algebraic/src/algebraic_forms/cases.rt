// The law of exhaustion: each value is made by a constructor on its own fields.
// It depends on the terms; the laws of a type are made of it.
ghost use Rattle.std.specs.Prelude.{◌≡◌, map, All, IfOk};
ghost use Rattle.trees.specs.Node.{tree_at, trees_at, Grows};
ghost use Rattle.tasks.specs.Equations.{cells};
ghost use Rattle.tasks.specs.Meaning.{con_at, cons_at};
ghost use Rattle.declarations.specs.spelled_groups.Making.{IsKindAt, IsFormulaId};
ghost use Rattle.tr_algebraic.specs.algebraic_forms.Formulas.{projected_fields, case_equation, disjunction, exhaustion_law};
ghost use Rattle.tr_algebraic.specs.algebraic_forms.Making.{IsOwnType, IsTermAt, AreTermsAt, ConIsFit};

use crate::algebraic_forms::terms::{OwnType, apply, field_of, variable};
use std::alloc::AllocError;
use tasks::Con;
use trees::store::{Grow, Store};
use trees::{Node, Op, TermId};

// The list of the projections of a term to fields of these types.
fn projected_fields(
    store: &mut Store,
    own: OwnType,
    projections: &[usize],
    types: &[TermId],
    term: TermId,
) -> Result<TermId, AllocError>
    requires own { IsOwnType store.old own.symbol own.vars own }
    requires types { All (IsKindAt store.old) types.now }
    requires term { IsTermAt store.old term }
    ensures terms { IfOk result (AreTermsAt store.new) }
    ensures tree { IfOk result (λ id. tree_at store.new id ≡ cells (projected_fields own.vars
        projections.now (trees_at store.old types.now) (tree_at store.old term))) }
    ensures grows { Grows store.old store.new }
{
    let Some((projection, others)) = projections.split_first() else {
        let end = store.add(Node::End)?;
        return Ok(end);
    };
    let Some((ty, rest)) = types.split_first() else {
        let end = store.add(Node::End)?;
        return Ok(end);
    };
    let list = projected_fields(store, own, others, rest, term)?;
    let field = field_of(store, own, *projection, term, *ty)?;
    let made = store.add(Node::Cell(field, list))?;
    Ok(made)
}

// That a term is a constructor on its own fields.
fn case_equation(
    store: &mut Store,
    own: OwnType,
    con: &Con,
    term: TermId,
) -> Result<TermId, AllocError>
    requires own { IsOwnType store.old own.symbol own.vars own }
    requires con { ConIsFit store.old con.now }
    requires term { IsTermAt store.old term }
    ensures formula { IfOk result (IsFormulaId store.new) }
    ensures tree { IfOk result (λ id. tree_at store.new id ≡ case_equation own.symbol own.vars
        (tree_at store.old term) (con_at store.old con.now)) }
    ensures grows { Grows store.old store.new }
{
    let projections = con.projections.as_slice();
    let args = projected_fields(store, own, projections, con.fields.as_slice(), term)?;
    let whole = apply(store, own, con.symbol, args, own.ty)?;
    let made = store.add(Node::Eq(term, whole))?;
    Ok(made)
}

// That a term is one of these constructors on its own fields.
fn cases_of(
    store: &mut Store,
    own: OwnType,
    cons: &[Con],
    term: TermId,
) -> Result<TermId, AllocError>
    requires own { IsOwnType store.old own.symbol own.vars own }
    requires cons { All (ConIsFit store.old) cons.now }
    requires term { IsTermAt store.old term }
    ensures formula { IfOk result (IsFormulaId store.new) }
    ensures tree { IfOk result (λ id. tree_at store.new id ≡ disjunction
        (map (case_equation own.symbol own.vars (tree_at store.old term))
        (cons_at store.old cons.now))) }
    ensures grows { Grows store.old store.new }
{
    let Some((first, rest)) = cons.split_first() else {
        return store.add(Node::False);
    };
    let case = case_equation(store, own, first, term)?;
    if rest.is_empty() {
        return Ok(case);
    }
    let others = cases_of(store, own, rest, term)?;
    store.add(Node::Join(Op::Or, case, others))
}

/// That each value of the type is one of these constructors on its own fields.
pub(crate) fn exhaustion_law(
    store: &mut Store,
    own: OwnType,
    cons: &[Con],
) -> Result<TermId, AllocError>
    requires own { IsOwnType store.old own.symbol own.vars own }
    requires cons { All (ConIsFit store.old) cons.now }
    ensures formula { IfOk result (IsFormulaId store.new) }
    ensures tree { IfOk result (λ id. tree_at store.new id
        ≡ exhaustion_law own.symbol own.vars (cons_at store.old cons.now)) }
    ensures grows { Grows store.old store.new }
{
    let x = variable(store, 0, 0, own.ty)?;
    let cases = cases_of(store, own, cons, x)?;
    let made = store.add(Node::Forall(own.ty, cases))?;
    Ok(made)
}
