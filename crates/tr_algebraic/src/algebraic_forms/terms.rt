// Terms at an algebraic type's own type variables: constructors and projections on terms, and formulas under quantifiers.
// They depend on the store; the laws of types are made of them.
ghost use Rattle.std.specs.Prelude.{◌≡◌, ◌+◌, ◌≤◌, [], ◌∷◌, length, All, IfOk};
ghost use Rattle.trees.specs.Tree.{Three, HFun};
ghost use Rattle.trees.specs.Binding.{Bound};
ghost use Rattle.trees.specs.Node.{tree_at, trees_at, Holds, Grows};
ghost use Rattle.trees.specs.Sorts.{IsList};
ghost use Rattle.trees.specs.declared.Sort.TheVariants.{Kind};
ghost use Rattle.tasks.specs.Equations.{cells, type_variables, for_all};
ghost use Rattle.tasks.specs.Meaning.{con_at};
ghost use Rattle.declarations.specs.spelled_groups.Making.{IsKindAt, IsFormulaId};
ghost use Rattle.tr_algebraic.specs.algebraic_forms.Formulas.{own_type_list, variables_under, variable_under, con_on, field_of};
ghost use Rattle.tr_algebraic.specs.algebraic_forms.Making.{IsOwnType, IsTermAt, AreTermsAt, ConIsFit};

use std::alloc::AllocError;
use tasks::Con;
use trees::store::{Grow, Store};
use trees::{Node, TermId};

/// An algebraic type at its own type variables: its number, how many they are, their list, and the type.
#[derive(Clone, Copy)]
pub(crate) struct OwnType {
    pub symbol: usize,
    pub vars: usize,
    pub list: TermId,
    pub ty: TermId,
}

// The list of so many type variables, from a number on.
fn type_variables(store: &mut Store, from: usize, many: usize) -> Result<TermId, AllocError>
    requires { from + many ≤ usize.MAX }
    ensures held { IfOk result (Holds store.new) }
    ensures list { IfOk result (λ id. IsList Kind (tree_at store.new id)) }
    ensures tree { IfOk result (λ id. tree_at store.new id ≡ cells (type_variables from many)) }
    ensures grows { Grows store.old store.new }
{
    if many == 0 {
        return store.add(Node::End);
    }
    let list = type_variables(store, from + 1, many - 1)?;
    let variable = store.add(Node::TyVar(from))?;
    store.add(Node::Cell(variable, list))
}

/// A type of this number at so many type variables of its own.
pub(crate) fn own_type(store: &mut Store, symbol: usize, vars: usize) -> Result<OwnType, AllocError>
    ensures own { IfOk result (IsOwnType store.new symbol vars) }
    ensures grows { Grows store.old store.new }
{
    let list = type_variables(store, 0, vars)?;
    let ty = store.add(Node::TyApp(symbol, list))?;
    Ok(OwnType {
        symbol,
        vars,
        list,
        ty,
    })
}

/// A variable of a type, that many binders up; want of memory where no machine number is so large.
pub(crate) fn variable(
    store: &mut Store,
    below: usize,
    inner: usize,
    ty: TermId,
) -> Result<TermId, AllocError>
    requires { IsKindAt store.old ty }
    ensures term { IfOk result (IsTermAt store.new) }
    ensures tree { IfOk result (λ id. tree_at store.new id
        ≡ Bound (below + inner) (tree_at store.old ty)) }
    ensures grows { Grows store.old store.new }
{
    let Some(index) = below.checked_add(inner) else {
        return Err(AllocError);
    };
    if index == usize::MAX {
        return Err(AllocError);
    }
    let made = store.add(Node::Bound(index, ty))?;
    Ok(made)
}

// The list of the variables of quantifiers over these types, in which there are so many more.
fn variables(store: &mut Store, below: usize, types: &[TermId]) -> Result<TermId, AllocError>
    requires { All (IsKindAt store.old) types.now }
    ensures terms { IfOk result (AreTermsAt store.new) }
    ensures tree { IfOk result (λ id. tree_at store.new id
        ≡ cells (variables_under below (trees_at store.old types.now))) }
    ensures grows { Grows store.old store.new }
{
    let Some((first, rest)) = types.split_first() else {
        let end = store.add(Node::End)?;
        return Ok(end);
    };
    let list = variables(store, below, rest)?;
    let variable = variable(store, below, rest.len(), *first)?;
    let made = store.add(Node::Cell(variable, list))?;
    Ok(made)
}

/// A function at the type variables on a list of terms, with a result of this type.
pub(crate) fn apply(
    store: &mut Store,
    own: OwnType,
    function: usize,
    args: TermId,
    ty: TermId,
) -> Result<TermId, AllocError>
    requires own { IsOwnType store.old own.symbol own.vars own }
    requires args { AreTermsAt store.old args }
    requires ty { IsKindAt store.old ty }
    ensures term { IfOk result (IsTermAt store.new) }
    ensures tree { IfOk result (λ id. tree_at store.new id ≡ Three (HFun function)
        (own_type_list own.vars) (tree_at store.old args) (tree_at store.old ty)) }
    ensures grows { Grows store.old store.new }
{
    let made = store.add(Node::Fun(function, own.list, args, ty))?;
    Ok(made)
}

/// A constructor on the variables of quantifiers over its fields' types, in which there are so many more.
pub(crate) fn con_on_variables(
    store: &mut Store,
    own: OwnType,
    con: &Con,
    below: usize,
) -> Result<TermId, AllocError>
    requires own { IsOwnType store.old own.symbol own.vars own }
    requires con { ConIsFit store.old con.now }
    ensures term { IfOk result (IsTermAt store.new) }
    ensures tree { IfOk result (λ id. tree_at store.new id ≡ con_on own.symbol own.vars
        (con_at store.old con.now) (variables_under below (trees_at store.old con.now.fields))) }
    ensures grows { Grows store.old store.new }
{
    let args = variables(store, below, con.fields.as_slice())?;
    let made = apply(store, own, con.symbol, args, own.ty)?;
    Ok(made)
}

/// A projection of a term to a field of this type.
pub(crate) fn field_of(
    store: &mut Store,
    own: OwnType,
    projection: usize,
    term: TermId,
    ty: TermId,
) -> Result<TermId, AllocError>
    requires own { IsOwnType store.old own.symbol own.vars own }
    requires term { IsTermAt store.old term }
    requires ty { IsKindAt store.old ty }
    ensures term { IfOk result (IsTermAt store.new) }
    ensures tree { IfOk result (λ id. tree_at store.new id ≡ field_of own.vars projection
        (tree_at store.old ty) (tree_at store.old term)) }
    ensures grows { Grows store.old store.new }
{
    let end = store.add(Node::End)?;
    let args = store.add(Node::Cell(term, end))?;
    let made = apply(store, own, projection, args, ty)?;
    Ok(made)
}

/// A formula under a quantifier for each of these types, the first outermost.
pub(crate) fn quantify(
    store: &mut Store,
    types: &[TermId],
    formula: TermId,
) -> Result<TermId, AllocError>
    requires types { All (IsKindAt store.old) types.now }
    requires formula { IsFormulaId store.old formula }
    ensures formula { IfOk result (IsFormulaId store.new) }
    ensures tree { IfOk result (λ id. tree_at store.new id
        ≡ for_all (trees_at store.old types.now) (tree_at store.old formula)) }
    ensures grows { Grows store.old store.new }
{
    let Some((first, rest)) = types.split_first() else {
        return Ok(formula);
    };
    let inner = quantify(store, rest, formula)?;
    store.add(Node::Forall(*first, inner))
}
