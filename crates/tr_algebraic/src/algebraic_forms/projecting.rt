// The laws of projections: each projection of a constructor gives its field.
// They depend on the terms; the laws of a type are made of them.
ghost use Rattle.std.specs.Prelude.{◌≡◌, ◌+◌, ◌++◌, All, IfOk, OnOk};
ghost use Rattle.trees.specs.Binding.{Bound};
ghost use Rattle.trees.specs.Node.{tree_at, trees_at, Holds, Grows};
ghost use Rattle.tasks.specs.Meaning.{con_at, cons_at};
ghost use Rattle.declarations.specs.spelled_groups.Making.{IsKindAt, IsFormulaId};
ghost use Rattle.tr_algebraic.specs.algebraic_forms.Formulas.{projection_law, projection_laws, all_projection_laws};
ghost use Rattle.tr_algebraic.specs.algebraic_forms.Making.{IsOwnType, ConIsFit};

use crate::algebraic_forms::terms::{OwnType, con_on_variables, field_of, quantify, variable};
use std::alloc::AllocError;
use tasks::Con;
use trees::store::{Grow, Store};
use trees::{Node, TermId};

// That a projection of a constructor gives the field of this type, after which there are so many.
fn projection_law(
    store: &mut Store,
    own: OwnType,
    con: &Con,
    projection: usize,
    ty: TermId,
    inner: usize,
) -> Result<TermId, AllocError>
    requires own { IsOwnType store.old own.symbol own.vars own }
    requires con { ConIsFit store.old con.now }
    requires ty { IsKindAt store.old ty }
    ensures formula { IfOk result (IsFormulaId store.new) }
    ensures tree { IfOk result (λ id. tree_at store.new id ≡ projection_law own.symbol own.vars
        (con_at store.old con.now) projection (tree_at store.old ty)
        (Bound (0 + inner) (tree_at store.old ty))) }
    ensures grows { Grows store.old store.new }
{
    let whole = con_on_variables(store, own, con, 0)?;
    let field = field_of(store, own, projection, whole, ty)?;
    let value = variable(store, 0, inner, ty)?;
    let equation = store.add(Node::Eq(field, value))?;
    let made = quantify(store, con.fields.as_slice(), equation)?;
    Ok(made)
}

// The laws of these projections to a constructor's last fields, after other laws.
fn push_projection_laws(
    store: &mut Store,
    own: OwnType,
    con: &Con,
    projections: &[usize],
    types: &[TermId],
    laws: &mut Vec<TermId>,
) -> Result<(), AllocError>
    requires own { IsOwnType store.old own.symbol own.vars own }
    requires con { ConIsFit store.old con.now }
    requires types { All (IsKindAt store.old) types.now }
    requires laws { All (Holds store.old) laws.old.items }
    ensures laws { OnOk result (trees_at store.new laws.new.items
        ≡ trees_at store.old laws.old.items ++ projection_laws own.symbol own.vars
        (con_at store.old con.now) projections.now (trees_at store.old types.now)) }
    ensures held { OnOk result (All (Holds store.new) laws.new.items) }
    ensures grows { Grows store.old store.new }
{
    let Some((projection, others)) = projections.split_first() else {
        return Ok(());
    };
    let Some((ty, rest)) = types.split_first() else {
        return Ok(());
    };
    let made = projection_law(store, own, con, *projection, *ty, rest.len())?;
    laws.push(made)?;
    push_projection_laws(store, own, con, others, rest, laws)
}

/// The laws of the projections of these constructors, after other laws.
pub(crate) fn push_all_projection_laws(
    store: &mut Store,
    own: OwnType,
    cons: &[Con],
    laws: &mut Vec<TermId>,
) -> Result<(), AllocError>
    requires own { IsOwnType store.old own.symbol own.vars own }
    requires cons { All (ConIsFit store.old) cons.now }
    requires laws { All (Holds store.old) laws.old.items }
    ensures laws { OnOk result (trees_at store.new laws.new.items
        ≡ trees_at store.old laws.old.items
        ++ all_projection_laws own.symbol own.vars (cons_at store.old cons.now)) }
    ensures held { OnOk result (All (Holds store.new) laws.new.items) }
    ensures grows { Grows store.old store.new }
{
    let Some((con, rest)) = cons.split_first() else {
        return Ok(());
    };
    let projections = con.projections.as_slice();
    push_projection_laws(store, own, con, projections, con.fields.as_slice(), laws)?;
    push_all_projection_laws(store, own, rest, laws)
}
