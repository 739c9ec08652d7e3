// The laws of distinctness: no value is made by two constructors.
// They depend on the terms; the laws of a type are made of them.
ghost use Rattle.std.specs.Prelude.{◌≡◌, ◌++◌, map, All, IfOk, OnOk};
ghost use Rattle.trees.specs.Node.{tree_at, trees_at, Holds, Grows};
ghost use Rattle.tasks.specs.Task.{neg};
ghost use Rattle.tasks.specs.Equations.{for_all};
ghost use Rattle.tasks.specs.Meaning.{con_at, cons_at};
ghost use Rattle.declarations.specs.spelled_groups.Making.{IsFormulaId};
ghost use Rattle.tr_algebraic.specs.algebraic_forms.Formulas.{different, distinctness_law, distinctness_laws};
ghost use Rattle.tr_algebraic.specs.algebraic_forms.Making.{IsOwnType, ConIsFit};

use crate::algebraic_forms::terms::{OwnType, con_on_variables, quantify};
use std::alloc::AllocError;
use tasks::Con;
use trees::store::{Grow, Store};
use trees::{Node, TermId};

// That two constructors differ, below the quantifiers.
fn different(
    store: &mut Store,
    own: OwnType,
    first: &Con,
    second: &Con,
) -> Result<TermId, AllocError>
    requires own { IsOwnType store.old own.symbol own.vars own }
    requires first { ConIsFit store.old first.now }
    requires second { ConIsFit store.old second.now }
    ensures formula { IfOk result (IsFormulaId store.new) }
    ensures tree { IfOk result (λ id. tree_at store.new id ≡ different own.symbol own.vars
        (con_at store.old first.now) (con_at store.old second.now)) }
    ensures grows { Grows store.old store.new }
{
    let left = con_on_variables(store, own, first, second.fields.len())?;
    let right = con_on_variables(store, own, second, 0)?;
    let equation = store.add(Node::Eq(left, right))?;
    let made = store.add(Node::Not(equation))?;
    Ok(made)
}

// That two constructors differ.
fn distinctness_law(
    store: &mut Store,
    own: OwnType,
    first: &Con,
    second: &Con,
) -> Result<TermId, AllocError>
    requires own { IsOwnType store.old own.symbol own.vars own }
    requires first { ConIsFit store.old first.now }
    requires second { ConIsFit store.old second.now }
    ensures formula { IfOk result (IsFormulaId store.new) }
    ensures tree { IfOk result (λ id. tree_at store.new id ≡ distinctness_law own.symbol own.vars
        (con_at store.old first.now) (con_at store.old second.now)) }
    ensures grows { Grows store.old store.new }
{
    let inner = different(store, own, first, second)?;
    let under = quantify(store, second.fields.as_slice(), inner)?;
    let made = quantify(store, first.fields.as_slice(), under)?;
    Ok(made)
}

// That a constructor differs from each of these, after other laws.
fn push_differences(
    store: &mut Store,
    own: OwnType,
    first: &Con,
    rest: &[Con],
    laws: &mut Vec<TermId>,
) -> Result<(), AllocError>
    requires own { IsOwnType store.old own.symbol own.vars own }
    requires first { ConIsFit store.old first.now }
    requires rest { All (ConIsFit store.old) rest.now }
    requires laws { All (Holds store.old) laws.old.items }
    ensures laws { OnOk result (trees_at store.new laws.new.items
        ≡ trees_at store.old laws.old.items ++ map (distinctness_law own.symbol own.vars
        (con_at store.old first.now)) (cons_at store.old rest.now)) }
    ensures held { OnOk result (All (Holds store.new) laws.new.items) }
    ensures grows { Grows store.old store.new }
{
    let Some((second, others)) = rest.split_first() else {
        return Ok(());
    };
    let made = distinctness_law(store, own, first, second)?;
    laws.push(made)?;
    push_differences(store, own, first, others, laws)
}

/// That each two of these constructors differ, in order, after other laws.
pub(crate) fn push_distinctness_laws(
    store: &mut Store,
    own: OwnType,
    cons: &[Con],
    laws: &mut Vec<TermId>,
) -> Result<(), AllocError>
    requires own { IsOwnType store.old own.symbol own.vars own }
    requires cons { All (ConIsFit store.old) cons.now }
    requires laws { All (Holds store.old) laws.old.items }
    ensures laws { OnOk result (trees_at store.new laws.new.items
        ≡ trees_at store.old laws.old.items
        ++ distinctness_laws own.symbol own.vars (cons_at store.old cons.now)) }
    ensures held { OnOk result (All (Holds store.new) laws.new.items) }
    ensures grows { Grows store.old store.new }
{
    let Some((first, rest)) = cons.split_first() else {
        return Ok(());
    };
    push_differences(store, own, first, rest, laws)?;
    push_distinctness_laws(store, own, rest, laws)
}
