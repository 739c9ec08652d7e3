// The inversion formulas of inductive predicates, made over a store.
// It depends on the store; what groups say depends on it.
ghost use Rattle.std.specs.Prelude.{◌≡◌, ◌+◌, ◌≤◌, All, Some, IfOk, IfSome};
ghost use Rattle.trees.specs.Tree.{One, HBound};
ghost use Rattle.std.specs.Option.{option_map};
ghost use Rattle.trees.specs.Node.{tree_at, trees_at, Holds, Grows};
ghost use Rattle.trees.specs.Sorts.{IsList, sort_of};
ghost use Rattle.trees.specs.declared.Sort.TheVariants.{Kind, Term, Formula};
ghost use Rattle.tasks.specs.Equations.{cells, type_variables, bound_variables, for_all};
ghost use Rattle.tasks.specs.Inversion.{argument_equations, clause_parts, given_by, given_by_any, inversion};
ghost use Rattle.tasks.specs.Meaning.{symbol_at};
ghost use Rattle.declarations.specs.spelled_groups.Making.{IsKindAt, IsFormulaId, joined_with, or_true, conjoined};

use std::alloc::AllocError;
use tasks::SymbolInfo;
use trees::store::{Grow, Store};
use trees::{Node, Op, TermId};

// The list of so many type variables, from a number on.
fn own_types(store: &mut Store, from: usize, many: usize) -> Result<TermId, AllocError>
    requires { from + many ≤ usize.MAX }
    ensures held { IfOk result (Holds store.new) }
    ensures list { IfOk result (λ id. IsList Kind (tree_at store.new id)) }
    ensures tree { IfOk result (λ id. tree_at store.new id ≡ cells (type_variables from many)) }
    ensures grows { Grows store.old store.new }
{
    if many == 0 {
        return store.add(Node::End);
    }
    let list = own_types(store, from + 1, many - 1)?;
    let variable = store.add(Node::TyVar(from))?;
    store.add(Node::Cell(variable, list))
}

// The list of the variables that quantifiers over these types bind, the outermost first.
fn parameters_list(store: &mut Store, args: &[TermId]) -> Result<TermId, AllocError>
    requires { All (IsKindAt store.old) args.now }
    ensures held { IfOk result (Holds store.new) }
    ensures list { IfOk result (λ id. IsList Term (tree_at store.new id)) }
    ensures tree { IfOk result (λ id. tree_at store.new id ≡ cells
        (bound_variables (trees_at store.old args.now))) }
    ensures grows { Grows store.old store.new }
{
    let Some((first, rest)) = args.split_first() else {
        return store.add(Node::End);
    };
    let list = parameters_list(store, rest)?;
    let variable = store.add(Node::Bound(rest.len(), *first))?;
    store.add(Node::Cell(variable, list))
}

// A formula under a quantifier for each of these types, the first outermost.
fn quantify_formula(
    store: &mut Store,
    args: &[TermId],
    formula: TermId,
) -> Result<TermId, AllocError>
    requires args { All (IsKindAt store.old) args.now }
    requires formula { IsFormulaId store.old formula }
    ensures formula { IfOk result (IsFormulaId store.new) }
    ensures tree { IfOk result (λ id. tree_at store.new id ≡ for_all (trees_at store.old args.now)
        (tree_at store.old formula)) }
    ensures grows { Grows store.old store.new }
{
    let Some((first, rest)) = args.split_first() else {
        return Ok(formula);
    };
    let inner = quantify_formula(store, rest, formula)?;
    store.add(Node::Forall(*first, inner))
}

// A conjunction with what comes after it, if anything does.
fn conjunction_with(
    store: &mut Store,
    first: TermId,
    rest: Option<TermId>,
) -> Result<TermId, AllocError>
    requires first { IsFormulaId store.old first }
    requires rest { IfSome rest (IsFormulaId store.old) }
    ensures formula { IfOk result (IsFormulaId store.new) }
    ensures tree { IfOk result (λ id. Some (tree_at store.new id)
        ≡ joined_with (tree_at store.old first) (option_map (tree_at store.old) rest)) }
    ensures grows { Grows store.old store.new }
{
    match rest {
        Some(rest) => store.add(Node::Join(Op::And, first, rest)),
        None => Ok(first),
    }
}

// A variable of a type, that many binders up; want of memory where no machine number is so large.
fn variable(store: &mut Store, depth: usize, above: usize, ty: TermId) -> Result<TermId, AllocError>
    requires { IsKindAt store.old ty }
    ensures held { IfOk result (Holds store.new) }
    ensures tree { IfOk result (λ id. tree_at store.new id
        ≡ One (HBound (depth + above)) (tree_at store.old ty)) }
    ensures grows { Grows store.old store.new }
{
    let Some(index) = depth.checked_add(above) else {
        return Err(AllocError);
    };
    if index == usize::MAX {
        return Err(AllocError);
    }
    store.add(Node::Bound(index, ty))
}

// The formula, or true.
fn or_true(store: &mut Store, parts: Option<TermId>) -> Result<TermId, AllocError>
    requires { IfSome parts (IsFormulaId store.old) }
    ensures formula { IfOk result (IsFormulaId store.new) }
    ensures tree { IfOk result (λ id. tree_at store.new id
        ≡ or_true (option_map (tree_at store.old) parts)) }
    ensures grows { Grows store.old store.new }
{
    match parts {
        Some(formula) => Ok(formula),
        None => store.add(Node::True),
    }
}

// Each variable equals its argument, under so many binders more.
fn argument_equations(
    store: &mut Store,
    depth: usize,
    types: &[TermId],
    args: TermId,
) -> Result<Option<TermId>, AllocError>
    requires types { All (IsKindAt store.old) types.now }
    requires args { Holds store.old args }
    requires list { IsList Term (tree_at store.old args) }
    ensures formula { IfOk result (λ o. IfSome o (IsFormulaId store.new)) }
    ensures tree { IfOk result (λ o. option_map (tree_at store.new) o
        ≡ conjoined (argument_equations depth (bound_variables (trees_at store.old types.now))
        (tree_at store.old args))) }
    ensures grows { Grows store.old store.new }
{
    let Some((first, rest)) = types.split_first() else {
        return Ok(None);
    };
    match store.node(args) {
        Node::Cell(term, others) => {
            let more = argument_equations(store, depth, rest, others)?;
            let variable = variable(store, depth, rest.len(), *first)?;
            let equation = store.add(Node::Eq(variable, term))?;
            Ok(Some(conjunction_with(store, equation, more)?))
        }
        _ => Ok(None),
    }
}

// The premises of a clause and the equations on its conclusion's arguments.
fn clause_parts(
    store: &mut Store,
    depth: usize,
    types: &[TermId],
    clause: TermId,
) -> Result<Option<TermId>, AllocError>
    requires types { All (IsKindAt store.old) types.now }
    requires clause { IsFormulaId store.old clause }
    ensures formula { IfOk result (λ o. IfSome o (IsFormulaId store.new)) }
    ensures tree { IfOk result (λ o. option_map (tree_at store.new) o
        ≡ conjoined (clause_parts depth (bound_variables (trees_at store.old types.now))
        (tree_at store.old clause))) }
    ensures grows { Grows store.old store.new }
{
    match store.node(clause) {
        Node::Join(Op::Imp, premise, conclusion) => {
            let more = clause_parts(store, depth, types, conclusion)?;
            Ok(Some(conjunction_with(store, premise, more)?))
        }
        Node::Pred(_, _, args) => argument_equations(store, depth, types, args),
        _ => Ok(None),
    }
}

// That a clause gives the predicate on the variables of these types, under so many binders more.
#[tactic(auto, using(crate::proofs::spelled_groups::Making::true_conjoined))]
fn given_by(
    store: &mut Store,
    depth: usize,
    types: &[TermId],
    clause: TermId,
) -> Result<TermId, AllocError>
    requires types { All (IsKindAt store.old) types.now }
    requires clause { IsFormulaId store.old clause }
    ensures formula { IfOk result (IsFormulaId store.new) }
    ensures tree { IfOk result (λ id. tree_at store.new id
        ≡ given_by depth (bound_variables (trees_at store.old types.now))
        (tree_at store.old clause)) }
    ensures grows { Grows store.old store.new }
{
    match store.node(clause) {
        Node::Forall(ty, body) => {
            let Some(next) = depth.checked_add(1) else {
                return Err(AllocError);
            };
            let inner = given_by(store, next, types, body)?;
            store.add(Node::Exists(ty, inner))
        }
        _ => {
            let parts = clause_parts(store, depth, types, clause)?;
            or_true(store, parts)
        }
    }
}

// That some clause does.
fn given_by_any(
    store: &mut Store,
    types: &[TermId],
    clauses: &[TermId],
) -> Result<TermId, AllocError>
    requires types { All (IsKindAt store.old) types.now }
    requires clauses { All (IsFormulaId store.old) clauses.now }
    ensures formula { IfOk result (IsFormulaId store.new) }
    ensures tree { IfOk result (λ id. tree_at store.new id
        ≡ given_by_any (bound_variables (trees_at store.old types.now))
        (trees_at store.old clauses.now)) }
    ensures grows { Grows store.old store.new }
{
    let Some((first, rest)) = clauses.split_first() else {
        return store.add(Node::False);
    };
    let given = given_by(store, 0, types, *first)?;
    if rest.is_empty() {
        return Ok(given);
    }
    let others = given_by_any(store, types, rest)?;
    store.add(Node::Join(Op::Or, given, others))
}

/// The inversion formula of a predicate of this number and entry, with these clauses.
pub(crate) fn inversion(
    store: &mut Store,
    symbol: usize,
    info: &SymbolInfo,
    clauses: &[TermId],
) -> Result<TermId, AllocError>
    requires args { All (IsKindAt store.old) info.now.args }
    requires clauses { All (IsFormulaId store.old) clauses.now }
    ensures formula { IfOk result (IsFormulaId store.new) }
    ensures tree { IfOk result (λ id. tree_at store.new id
        ≡ inversion symbol (symbol_at store.old info.now) (trees_at store.old clauses.now)) }
    ensures grows { Grows store.old store.new }
{
    let args = info.args.as_slice();
    let types = own_types(store, 0, info.vars)?;
    let variables = parameters_list(store, args)?;
    let atom = store.add(Node::Pred(symbol, types, variables))?;
    let given = given_by_any(store, args, clauses)?;
    let inner = store.add(Node::Join(Op::Imp, atom, given))?;
    quantify_formula(store, args, inner)
}
