// The equations of branches, made over a store.
// They depend on branches and on terms; what recursive definitions say depends on them.
ghost use Rattle.std.specs.Prelude.{◌≡◌, ◌-◌, ◌++◌, true, map, take, drop, length, IfOk, OnOk};
ghost use Rattle.std.specs.List.{list_all};
ghost use Rattle.trees.specs.Tree.{Three, HFun};
ghost use Rattle.trees.specs.Node.{tree_at, trees_at, Holds, Grows};
ghost use Rattle.trees.specs.Sorts.{sort_of};
ghost use Rattle.trees.specs.declared.Sort.TheVariants.{Kind};
ghost use Rattle.trees.specs.binders.Visits.{HoldsTerm, HoldTerms, HoldTypes};
ghost use Rattle.tasks.specs.Typing.{members};
ghost use Rattle.tasks.specs.Equations.{cells, for_all};
ghost use Rattle.declarations.specs.spelled_groups.Making.{IsFormulaId};
ghost use Rattle.tr_inline.specs.inlining.branch_equations.Branches.{is_plain_field, field_type, bound_fields, branch_types, branch_fields, branch_sides, branch_equation, below_quantifiers, HasSides};
ghost use Rattle.tr_recursion.specs.recursion_forms.Read.{constructor_branch_at, IsBranchHeld};
ghost use Rattle.tr_recursion.specs.recursion_forms.Made.{parameters_with, sides_with};

use crate::recursion_forms::branches::{Branch, below_quantifiers};
use crate::recursion_forms::terms::{list_of, push_variables, put_terms};
use std::alloc::{AllocError, Global};
use trees::store::{Grow, Store};
use trees::{Node, Op, TermId};

// The parameters before the one that has so many after it.
fn before(args: &[TermId], index: usize) -> &[TermId]
    ensures { result.now ≡ take (length args.now - 1 - index) args.now }
{
    let (first, _) = args.split_at(args.len().saturating_sub(1).saturating_sub(index));
    first
}

// Those after it.
fn after(args: &[TermId], index: usize) -> &[TermId]
    ensures { result.now ≡ drop (length args.now - index) args.now }
{
    let (_, last) = args.split_at(args.len().saturating_sub(index));
    last
}

// The type of a variable or a wildcard.
fn field_type(store: &Store, pattern: TermId) -> TermId
    requires held { Holds store.now pattern }
    requires plain { is_plain_field (tree_at store.now pattern) ≡ true }
    ensures held { Holds store.now result }
    ensures kind { sort_of (tree_at store.now result) ≡ Kind }
    ensures tree { tree_at store.now result ≡ field_type (tree_at store.now pattern) }
{
    match store.node(pattern) {
        Node::PatVar(ty) => ty,
        Node::PatAny(ty) => ty,
        _ => unreachable!(),
    }
}

// The types of a constructor's fields, after others.
fn push_field_types(
    store: &Store,
    fields: TermId,
    types: &mut Vec<TermId>,
) -> Result<(), AllocError>
    requires fields { Holds store.now fields }
    requires plain { list_all is_plain_field (members (tree_at store.now fields)) ≡ true }
    requires types { HoldTypes store.now types.old.items }
    ensures held { OnOk result (HoldTypes store.now types.new.items) }
    ensures trees { OnOk result (trees_at store.now types.new.items
        ≡ trees_at store.now types.old.items
        ++ map field_type (members (tree_at store.now fields))) }
{
    match store.node(fields) {
        Node::Cell(first, rest) => {
            types.push(field_type(store, first))?;
            push_field_types(store, rest, types)
        }
        _ => Ok(()),
    }
}

// The types of the variables of a branch's equation.
fn branch_types(
    alloc: Global,
    store: &Store,
    args: &[TermId],
    index: usize,
    branch: Branch,
) -> Result<Vec<TermId>, AllocError>
    requires args { HoldTypes store.now args.now }
    requires branch { IsBranchHeld store.now branch }
    ensures held { IfOk result (λ v. HoldTypes store.now v.items) }
    ensures trees { IfOk result (λ v. trees_at store.now v.items
        ≡ branch_types (trees_at store.now args.now) index
        (constructor_branch_at store.now branch)) }
{
    let mut types = Vec::from_slice(alloc, before(args, index))?;
    push_field_types(store, branch.fields, &mut types)?;
    types.extend_from_slice(after(args, index))?;
    Ok(types)
}

// The variables for the fields, below those of the parameters after them.
fn field_variables(
    alloc: Global,
    store: &mut Store,
    args: &[TermId],
    index: usize,
    branch: Branch,
) -> Result<Vec<TermId>, AllocError>
    requires args { HoldTypes store.old args.now }
    requires branch { IsBranchHeld store.old branch }
    ensures held { IfOk result (λ v. HoldTerms store.new v.items) }
    ensures trees { IfOk result (λ v. trees_at store.new v.items
        ≡ branch_fields (trees_at store.old args.now) index
        (constructor_branch_at store.old branch)) }
    ensures grows { Grows store.old store.new }
{
    let mut types = Vec::new(alloc);
    push_field_types(store, branch.fields, &mut types)?;
    let mut made = Vec::new(alloc);
    push_variables(store, after(args, index).len(), types.as_slice(), &mut made)?;
    Ok(made)
}

// A branch's constructor on terms.
fn built_term(store: &mut Store, branch: Branch, fields: &[TermId]) -> Result<TermId, AllocError>
    requires branch { IsBranchHeld store.old branch }
    requires fields { HoldTerms store.old fields.now }
    ensures held { IfOk result (HoldsTerm store.new) }
    ensures tree { IfOk result (λ id. tree_at store.new id
        ≡ Three (HFun branch.symbol) (tree_at store.old branch.types)
        (cells (trees_at store.old fields.now)) (tree_at store.old branch.ty)) }
    ensures grows { Grows store.old store.new }
{
    let list = list_of(store, fields)?;
    store.add(Node::Fun(branch.symbol, branch.types, list, branch.ty))
}

// What the parameters are in a branch's equation, with the constructor on these terms in the place of the matched one.
fn parameters_with(
    alloc: Global,
    store: &mut Store,
    args: &[TermId],
    index: usize,
    branch: Branch,
    fields: &[TermId],
) -> Result<Vec<TermId>, AllocError>
    requires args { HoldTypes store.old args.now }
    requires branch { IsBranchHeld store.old branch }
    requires fields { HoldTerms store.old fields.now }
    ensures held { IfOk result (λ v. HoldTerms store.new v.items) }
    ensures trees { IfOk result (λ v. trees_at store.new v.items
        ≡ parameters_with (trees_at store.old args.now) index
        (constructor_branch_at store.old branch)
        (trees_at store.old fields.now)) }
    ensures grows { Grows store.old store.new }
{
    let last = after(args, index);
    let Some(below) = fields.len().checked_add(last.len()) else {
        return Err(AllocError);
    };
    let mut made = Vec::new(alloc);
    push_variables(store, below, before(args, index), &mut made)?;
    let built = built_term(store, branch, fields)?;
    made.push(built)?;
    push_variables(store, 0, last, &mut made)?;
    Ok(made)
}

// The terms that the variables among patterns are, after others.
fn push_bound(
    store: &Store,
    fields: TermId,
    own: &[TermId],
    terms: &mut Vec<TermId>,
) -> Result<(), AllocError>
    requires fields { Holds store.now fields }
    requires own { HoldTerms store.now own.now }
    requires terms { HoldTerms store.now terms.old.items }
    ensures held { OnOk result (HoldTerms store.now terms.new.items) }
    ensures trees { OnOk result (trees_at store.now terms.new.items
        ≡ trees_at store.now terms.old.items
        ++ bound_fields (members (tree_at store.now fields)) (trees_at store.now own.now)) }
{
    match store.node(fields) {
        Node::Cell(first, rest) => match own.split_first() {
            Some((term, others)) => match store.node(first) {
                Node::PatVar(_) => {
                    terms.push(*term)?;
                    push_bound(store, rest, others, terms)
                }
                _ => push_bound(store, rest, others, terms),
            },
            None => Ok(()),
        },
        _ => Ok(()),
    }
}

// Two sides with terms in the place of all variables, those of the right one in a body of its sort.
fn put_in_sides(
    alloc: Global,
    store: &mut Store,
    sides: TermId,
    body: TermId,
    left: &[TermId],
    right: &[TermId],
) -> Result<TermId, AllocError>
    requires sides { Holds store.old sides }
    requires body { Holds store.old body }
    requires fit { HasSides (sort_of (tree_at store.old body)) (tree_at store.old sides) }
    requires left { HoldTerms store.old left.now }
    requires right { HoldTerms store.old right.now }
    ensures formula { IfOk result (IsFormulaId store.new) }
    ensures tree { IfOk result (λ id. tree_at store.new id
        ≡ sides_with (tree_at store.old sides) (tree_at store.old body)
        (trees_at store.old left.now) (trees_at store.old right.now)) }
    ensures grows { Grows store.old store.new }
{
    match store.node(sides) {
        Node::Eq(first, _) => {
            let one = put_terms(alloc, store, first, left)?;
            let other = put_terms(alloc, store, body, right)?;
            store.add(Node::Eq(one, other))
        }
        Node::Join(Op::Iff, first, _) => {
            let one = put_terms(alloc, store, first, left)?;
            let other = put_terms(alloc, store, body, right)?;
            store.add(Node::Join(Op::Iff, one, other))
        }
        _ => unreachable!(),
    }
}

// The sides of a branch's equation, from those of the definition's.
fn branch_sides(
    alloc: Global,
    store: &mut Store,
    args: &[TermId],
    index: usize,
    branch: Branch,
    sides: TermId,
) -> Result<TermId, AllocError>
    requires args { HoldTypes store.old args.now }
    requires branch { IsBranchHeld store.old branch }
    requires sides { Holds store.old sides }
    requires fit { HasSides (sort_of (tree_at store.old branch.body)) (tree_at store.old sides) }
    ensures formula { IfOk result (IsFormulaId store.new) }
    ensures tree { IfOk result (λ id. tree_at store.new id
        ≡ branch_sides (trees_at store.old args.now) index (constructor_branch_at store.old branch)
        (tree_at store.old sides)) }
    ensures grows { Grows store.old store.new }
{
    let fields = field_variables(alloc, store, args, index, branch)?;
    let left = parameters_with(alloc, store, args, index, branch, fields.as_slice())?;
    let mut right = Vec::from_slice(alloc, left.as_slice())?;
    push_bound(store, branch.fields, fields.as_slice(), &mut right)?;
    let made = put_in_sides(
        alloc,
        store,
        sides,
        branch.body,
        left.as_slice(),
        right.as_slice(),
    )?;
    Ok(made)
}

// A formula under a quantifier for each of these types, the first outermost.
fn quantify(store: &mut Store, types: &[TermId], formula: TermId) -> Result<TermId, AllocError>
    requires types { HoldTypes store.old types.now }
    requires formula { IsFormulaId store.old formula }
    ensures formula { IfOk result (IsFormulaId store.new) }
    ensures tree { IfOk result (λ id. tree_at store.new id
        ≡ for_all (trees_at store.old types.now) (tree_at store.old formula)) }
    ensures grows { Grows store.old store.new }
{
    match types.split_first() {
        Some((first, rest)) => {
            let inner = quantify(store, rest, formula)?;
            store.add(Node::Forall(*first, inner))
        }
        None => Ok(formula),
    }
}

/// The equation of a branch of a definition with parameters of these types, by the definition's equation.
pub(crate) fn branch_equation(
    alloc: Global,
    store: &mut Store,
    args: &[TermId],
    equation: TermId,
    index: usize,
    branch: Branch,
) -> Result<TermId, AllocError>
    requires args { HoldTypes store.old args.now }
    requires equation { Holds store.old equation }
    requires branch { IsBranchHeld store.old branch }
    requires fit { HasSides (sort_of (tree_at store.old branch.body))
        (below_quantifiers (tree_at store.old equation)) }
    ensures formula { IfOk result (IsFormulaId store.new) }
    ensures tree { IfOk result (λ id. tree_at store.new id
        ≡ branch_equation (trees_at store.old args.now) (tree_at store.old equation) index
        (constructor_branch_at store.old branch)) }
    ensures grows { Grows store.old store.new }
{
    let types = branch_types(alloc, store, args, index, branch)?;
    let sides = below_quantifiers(store, equation);
    let formula = branch_sides(alloc, store, args, index, branch, sides)?;
    let made = quantify(store, types.as_slice(), formula)?;
    Ok(made)
}
