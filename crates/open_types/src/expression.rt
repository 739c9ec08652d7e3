// The walk of an expression: its tree over unknowns, and what it notes in a draft.
// It depends on drafts, variables, uses and binders; what solves the equations depends on it.
ghost use Rattle.std.specs.Prelude.{◌≡◌, None, IfOk, IfSome, length, map, true, false, List, OnOk, option_map};
ghost use Rattle.trees.specs.Node.{tree_at, Holds, Grows};
ghost use Rattle.trees.specs.Sorts.{sort_of};
ghost use Rattle.tasks.specs.Meaning.{trees_at};
ghost use Rattle.trees.specs.declared.Sort.TheVariants.{Term, Formula};
ghost use Rattle.surface.specs.Surface.{integer_word};
ghost use Rattle.name_resolution.specs.Abstract.{expression_of, expressions_of, record_expression, value_fields_of, field_values_of, grouped, applied_expression, quantified_expression, binders_of, triggers_of, integer_value, match_expression, first_tree, more_branches, no_branches, more_alternatives, no_alternatives, first_form, side_by_side, alternatives_of, branches_of};
ghost use Rattle.surface.specs.Surface as code;
ghost use Rattle.name_resolution.specs.Naming.{where_at};
ghost use Rattle.open_types.specs.Patterns.{entry_of};
ghost use Rattle.open_types.specs.Pieces.{piece, pieces, symbol_piece, triggers_notes, trigger_wanted, trigger_taken, literal_piece, equality, branches_arms};
ghost use Rattle.open_types.specs.Drafts.{HoldsType, locals_at, due, is_due, operands_at, IsReady, IsMade, IsWalked, CanUse, CanWalk, AreWalked, CanWalkAll, CanWalkTriggers, CanWalkBranches, AreArms, IsNoted};

use crate::arms::{push_arms, push_patterns};
use crate::bound::{bind, quantify};
use crate::draft::{Constraints, equate, fill, make, new_unknown, reserve};
use crate::locals::{Local, Locals, local_named};
use crate::operands::{Operands, split_operands};
use crate::patterns::walk_alternatives;
use crate::records::{place_types, place_values};
use crate::triggers::trigger_type;
use crate::types::{entry_at, entry_number, int, type_of_form};
use crate::uses::{
    begin_use, entry_args, finish_use, first_type, other_types, types_put, walk_local,
};
use name_resolution::{
    Fields, Operation, World, infix_operation, let_name, own_name, places_named, prefix_operator,
    record_named,
};
use scopes::{Seq, Text};
use std::alloc::{AllocError, Global};
use surface::{BinderTree, BranchTree, Expr, ExprNode, FieldValue, Pat, TriggerTree};
use trees::store::{Grow, Node, Store, TermId};

// The value of an integer, which in a source isn't below zero.
fn literal_value(value: &i128) -> i128
    ensures { result ≡ integer_value (integer_word value.now) }
{
    if *value < 0 { 0 } else { *value }
}

// A literal.
fn walk_literal(
    store: &mut Store,
    draft: &mut Constraints,
    wanted: Option<TermId>,
    value: &i128,
) -> Result<TermId, AllocError>
    requires wanted { IfSome wanted (HoldsType store.old) }
    requires ready { IsReady store.old draft.old }
    requires term { is_due wanted ≡ false }
    ensures walked { IfOk result (IsWalked
        (literal_piece (integer_value (integer_word value.now)) (option_map
        (tree_at store.old) wanted)) (due wanted) store.old draft.old store.new draft.new) }
    ensures grows { Grows store.old store.new }
{
    let number = literal_value(value);
    let int = int(store);
    equate(store, draft, int, wanted)?;
    make(store, draft, Node::Num(number))
}

// An equality, or with `false` its negation.
fn make_equality(
    store: &mut Store,
    draft: &Constraints,
    same: bool,
    left: TermId,
    right: TermId,
) -> Result<TermId, AllocError>
    requires left { Holds store.old left }
    requires right { Holds store.old right }
    requires left_term { sort_of (tree_at store.old left) ≡ Term }
    requires right_term { sort_of (tree_at store.old right) ≡ Term }
    requires ready { IsReady store.old draft.now }
    ensures made { IfOk result (IsMade store.old draft.now store.new (equality same (tree_at
        store.old left) (tree_at store.old right))) }
    ensures grows { Grows store.old store.new }
{
    let id = make(store, draft, Node::Eq(left, right))?;
    if same {
        Ok(id)
    } else {
        make(store, draft, Node::Not(id))
    }
}

/// The tree of an expression, whose names are there. A term of the wanted type is due, or a formula.
#[cycle(walking)]
pub fn walk(
    alloc: Global,
    store: &mut Store,
    draft: &mut Constraints,
    e: &Expr,
    world: &World<'_>,
    locals: &Locals<'_>,
    wanted: Option<TermId>,
) -> Result<TermId, AllocError>
    requires { CanWalk store.old draft.old world.now locals.now wanted (expression_of e.now) }
    ensures walked { IfOk result (IsWalked (piece (where_at store.old world.now) (locals_at
        store.old locals.now) (length draft.old.takers) (option_map (tree_at store.old) wanted)
        (expression_of e.now)) (due wanted) store.old draft.old store.new draft.new) }
    ensures grows { Grows store.old store.new }
{
    let token = e.at.main;
    match &e.node {
        ExprNode::Apply(name, arguments) => {
            let own = own_name(alloc, name.style, name.text.as_slice())?;
            let scopes = name.scopes.as_slice();
            let operands = Operands::Many(arguments.as_slice());
            walk_use(
                alloc,
                store,
                draft,
                token,
                scopes,
                own.as_slice(),
                operands,
                world,
                locals,
                wanted,
            )
        }
        ExprNode::Int(value) => walk_literal(store, draft, wanted, value),
        ExprNode::True => make(store, draft, Node::True),
        ExprNode::False => make(store, draft, Node::False),
        ExprNode::Group(parts) => {
            walk_group(
                alloc,
                store,
                draft,
                token,
                parts.as_slice(),
                world,
                locals,
                wanted,
            )
        }
        ExprNode::Cast(inner, ty) => {
            let own = type_of_form(alloc, store, world, ty)?;
            equate(store, draft, own, wanted)?;
            walk(alloc, store, draft, inner.get(), world, locals, Some(own))
        }
        ExprNode::Prefix(op, inner) => {
            let own = prefix_operator(alloc, op)?;
            let operands = Operands::One(inner.get());
            walk_use(
                alloc,
                store,
                draft,
                token,
                &[],
                own.as_slice(),
                operands,
                world,
                locals,
                wanted,
            )
        }
        ExprNode::Dot(inner, field) => {
            let own = own_name(alloc, field.style, field.text.as_slice())?;
            let symbol = world.symbol_named(field.scopes.as_slice(), own.as_slice());
            let operands = Operands::One(inner.get());
            walk_symbol(
                alloc, store, draft, token, symbol, operands, world, locals, wanted,
            )
        }
        ExprNode::Fields(fields, _) => {
            let fields = fields.as_slice();
            walk_record(alloc, store, draft, token, fields, world, locals, wanted)
        }
        ExprNode::Not(inner) => {
            let a = walk(alloc, store, draft, inner.get(), world, locals, None)?;
            make(store, draft, Node::Not(a))
        }
        ExprNode::Binary(left, op, right) => match infix_operation(op) {
            Operation::Connective(op) => {
                let a = walk(alloc, store, draft, left.get(), world, locals, None)?;
                let b = walk(alloc, store, draft, right.get(), world, locals, None)?;
                make(store, draft, Node::Join(op, a, b))
            }
            Operation::Equality(same) => {
                let ty = new_unknown(store, draft, token)?;
                let a = walk(alloc, store, draft, left.get(), world, locals, Some(ty))?;
                let b = walk(alloc, store, draft, right.get(), world, locals, Some(ty))?;
                make_equality(store, draft, same, a, b)
            }
            Operation::Symbol(name) => {
                let operands = Operands::Two(left.get(), right.get());
                walk_use(
                    alloc,
                    store,
                    draft,
                    token,
                    &[],
                    name,
                    operands,
                    world,
                    locals,
                    wanted,
                )
            }
        },
        ExprNode::If(test, left, right) => {
            let c = walk(alloc, store, draft, test.get(), world, locals, None)?;
            let a = walk(alloc, store, draft, left.get(), world, locals, wanted)?;
            let b = walk(alloc, store, draft, right.get(), world, locals, wanted)?;
            make(store, draft, Node::If(c, a, b))
        }
        ExprNode::Let(patterns, value, body) => match let_name(patterns.as_slice()) {
            Some(name) => {
                let ty = new_unknown(store, draft, token)?;
                let a = walk(alloc, store, draft, value.get(), world, locals, Some(ty))?;
                let bound = [Local {
                    name: name.text.as_slice(),
                    ty,
                }];
                let inside = Locals::Inside(&bound, &*locals);
                let b = walk(alloc, store, draft, body.get(), world, &inside, wanted)?;
                make(store, draft, Node::Let(a, b))
            }
            None => {
                let patterns = patterns.as_slice();
                let value = value.get();
                let body = body.get();
                walk_matched(
                    alloc, store, draft, token, patterns, value, body, world, locals, wanted,
                )
            }
        },
        ExprNode::Quant(all, binders, triggers, body) => {
            let binders = binders.as_slice();
            walk_quantified(
                alloc,
                store,
                draft,
                token,
                *all,
                binders,
                triggers,
                body.get(),
                world,
                locals,
            )
        }
        ExprNode::Match(values, _, branches) => {
            let values = values.as_slice();
            let branches = branches.as_slice();
            walk_match(
                alloc, store, draft, token, values, branches, world, locals, wanted,
            )
        }
    }
}

// A name after its scopes before its operands.
#[cycle(walking)]
fn walk_use(
    alloc: Global,
    store: &mut Store,
    draft: &mut Constraints,
    token: usize,
    scopes: &[Text],
    name: &[u8],
    operands: Operands<'_>,
    world: &World<'_>,
    locals: &Locals<'_>,
    wanted: Option<TermId>,
) -> Result<TermId, AllocError>
    requires { CanWalk store.old draft.old world.now locals.now wanted
        (applied_expression token scopes.now
        name.now (operands_at operands)) }
    ensures walked { IfOk result (IsWalked (piece (where_at store.old world.now) (locals_at
        store.old locals.now) (length draft.old.takers) (option_map (tree_at store.old) wanted)
        (applied_expression token scopes.now name.now (operands_at operands.entry))) (due wanted)
        store.old
        draft.old store.new draft.new) }
    ensures grows { Grows store.old store.new }
{
    match local_named(locals, scopes, name)? {
        Some((place, ty)) => walk_local(store, draft, place, ty, wanted),
        None => {
            let symbol = world.symbol_named(scopes, name);
            walk_symbol(
                alloc, store, draft, token, symbol, operands, world, locals, wanted,
            )
        }
    }
}

// The entry of a symbol before its operands.
#[cycle(walking)]
fn walk_symbol(
    alloc: Global,
    store: &mut Store,
    draft: &mut Constraints,
    token: usize,
    symbol: Option<usize>,
    operands: Operands<'_>,
    world: &World<'_>,
    locals: &Locals<'_>,
    wanted: Option<TermId>,
) -> Result<TermId, AllocError>
    requires { CanUse store.old draft.old world.now locals.now wanted (operands_at operands) }
    ensures walked { IfOk result (IsWalked (symbol_piece (where_at store.old world.now) (locals_at
        store.old locals.now) (length draft.old.takers) (option_map (tree_at store.old) wanted)
        token (entry_of (where_at store.old world.now).symbols symbol) (operands_at operands.entry))
        (due wanted) store.old draft.old store.new draft.new) }
    ensures grows { Grows store.old store.new }
{
    let symbol = entry_number(symbol);
    let info = entry_at(world.symbols, symbol);
    let types = begin_use(alloc, store, draft, token, info, wanted)?;
    let parameters = types_put(alloc, store, entry_args(info), types.as_slice())?;
    let args = walk_all(
        alloc,
        store,
        draft,
        operands,
        world,
        locals,
        parameters.as_slice(),
    )?;
    finish_use(store, draft, symbol, types.as_slice(), args, wanted)
}

// The fields of a record.
#[cycle(walking)]
fn walk_record(
    alloc: Global,
    store: &mut Store,
    draft: &mut Constraints,
    token: usize,
    fields: &[FieldValue],
    world: &World<'_>,
    locals: &Locals<'_>,
    wanted: Option<TermId>,
) -> Result<TermId, AllocError>
    requires { CanWalk store.old draft.old world.now locals.now wanted
        (record_expression token (value_fields_of fields.now) (field_values_of fields.now)) }
    ensures walked { IfOk result (IsWalked (piece (where_at store.old world.now) (locals_at
        store.old locals.now) (length draft.old.takers) (option_map (tree_at store.old) wanted)
        (record_expression token (value_fields_of fields.now) (field_values_of fields.now)))
        (due wanted) store.old draft.old store.new draft.new) }
    ensures grows { Grows store.old store.new }
{
    let owner = record_named(alloc, world, Fields::Values(fields))?;
    let places = places_named(alloc, world, owner, Fields::Values(fields))?;
    let info = entry_at(world.symbols, owner);
    let types = begin_use(alloc, store, draft, token, info, wanted)?;
    let parameters = types_put(alloc, store, entry_args(info), types.as_slice())?;
    let parameters = parameters.as_slice();
    let own = place_types(alloc, store, parameters, places.as_slice())?;
    let operands = Operands::Values(fields);
    let values = walk_all(alloc, store, draft, operands, world, locals, own.as_slice())?;
    let count = parameters.len();
    let args = place_values(alloc, store, values, places.as_slice(), count)?;
    finish_use(store, draft, owner, types.as_slice(), args, wanted)
}

// Arguments, of which these types are wanted.
#[cycle(walking)]
fn walk_all(
    alloc: Global,
    store: &mut Store,
    draft: &mut Constraints,
    operands: Operands<'_>,
    world: &World<'_>,
    locals: &Locals<'_>,
    wanted: &[TermId],
) -> Result<TermId, AllocError>
    requires { CanWalkAll store.old draft.old world.now locals.now wanted.now
        (operands_at operands) }
    ensures walked { IfOk result (AreWalked (pieces (where_at store.old world.now) (locals_at
        store.old locals.now) (length draft.old.takers) (trees_at store.old wanted.now) (operands_at
        operands.entry)) store.old draft.old store.new draft.new) }
    ensures grows { Grows store.old store.new }
{
    let Some((first, rest)) = split_operands(operands) else {
        return make(store, draft, Node::End);
    };
    let ty = first_type(store, wanted);
    let a = walk(alloc, store, draft, first, world, locals, Some(ty))?;
    let b = walk_all(
        alloc,
        store,
        draft,
        rest,
        world,
        locals,
        other_types(wanted),
    )?;
    make(store, draft, Node::Cell(a, b))
}

// Expressions in parentheses: one is itself, any other number of them is a tuple.
#[cycle(walking)]
fn walk_group(
    alloc: Global,
    store: &mut Store,
    draft: &mut Constraints,
    token: usize,
    list: &[Expr],
    world: &World<'_>,
    locals: &Locals<'_>,
    wanted: Option<TermId>,
) -> Result<TermId, AllocError>
    requires { CanWalk store.old draft.old world.now locals.now wanted (grouped token
        (expressions_of list.now)) }
    ensures walked { IfOk result (IsWalked (piece (where_at store.old world.now) (locals_at
        store.old locals.now) (length draft.old.takers) (option_map (tree_at store.old) wanted)
        (grouped token (expressions_of list.now))) (due wanted) store.old draft.old store.new
        draft.new) }
    ensures grows { Grows store.old store.new }
{
    if list.len() == 1 {
        return walk(alloc, store, draft, &list[0], world, locals, wanted);
    }
    let symbol = world.tuple_named(list.len());
    let operands = Operands::Many(list);
    walk_symbol(
        alloc, store, draft, token, symbol, operands, world, locals, wanted,
    )
}

// A formula under quantifiers.
#[cycle(walking)]
fn walk_quantified(
    alloc: Global,
    store: &mut Store,
    draft: &mut Constraints,
    token: usize,
    all: bool,
    binders: &[BinderTree],
    triggers: &Option<TriggerTree>,
    body: &Expr,
    world: &World<'_>,
    locals: &Locals<'_>,
) -> Result<TermId, AllocError>
    requires { CanWalk store.old draft.old world.now locals.now None
        (quantified_expression token all
        (binders_of binders.now) (triggers_of triggers.now) (expression_of body.now)) }
    ensures walked { IfOk result (IsWalked (piece (where_at store.old world.now) (locals_at
        store.old locals.now) (length draft.old.takers) None
        (quantified_expression token all (binders_of
        binders.now) (triggers_of triggers.now) (expression_of body.now))) Formula store.old
        draft.old store.new draft.new) }
    ensures grows { Grows store.old store.new }
{
    let mut bound = Vec::new(alloc);
    bind(alloc, store, draft, &mut bound, binders, world, token)?;
    let inside = Locals::Inside(bound.as_slice(), &*locals);
    walk_triggers(alloc, store, draft, triggers, world, &inside)?;
    let inner = walk(alloc, store, draft, body, world, &inside, None)?;
    quantify(store, draft, all, bound.as_slice(), inner)
}

// Triggers, whose trees are dropped.
#[cycle(walking)]
fn walk_triggers(
    alloc: Global,
    store: &mut Store,
    draft: &mut Constraints,
    triggers: &Option<TriggerTree>,
    world: &World<'_>,
    locals: &Locals<'_>,
) -> Result<(), AllocError>
    requires { CanWalkTriggers store.old draft.old world.now locals.now (triggers_of triggers.now) }
    ensures noted { OnOk result (IsNoted store.old draft.old store.new draft.new (triggers_notes
        (where_at store.old world.now) (locals_at store.old locals.now) (length draft.old.takers)
        (triggers_of triggers.now))) }
    ensures grows { Grows store.old store.new }
{
    match triggers {
        Some(terms) => walk_terms(alloc, store, draft, terms.terms.as_slice(), world, locals),
        None => Ok(()),
    }
}

#[cycle(walking)]
fn walk_terms(
    alloc: Global,
    store: &mut Store,
    draft: &mut Constraints,
    list: &[Expr],
    world: &World<'_>,
    locals: &Locals<'_>,
) -> Result<(), AllocError>
    requires { CanWalkTriggers store.old draft.old world.now locals.now (expressions_of list.now) }
    ensures noted { OnOk result (IsNoted store.old draft.old store.new draft.new (triggers_notes
        (where_at store.old world.now) (locals_at store.old locals.now) (length draft.old.takers)
        (expressions_of list.now))) }
    ensures grows { Grows store.old store.new }
{
    let Some((first, rest)) = list.split_first() else {
        return Ok(());
    };
    let ty = trigger_type(alloc, store, draft, first, world, locals)?;
    walk(alloc, store, draft, first, world, locals, ty)?;
    walk_terms(alloc, store, draft, rest, world, locals)
}

// The first token of values side by side.
fn first_token(values: &[Expr]) -> usize
    ensures { result ≡ first_tree (code.trees (map code.tree_of values.now)) }
{
    match values.first() {
        Some(first) => first.at.first,
        None => 0,
    }
}

// A `match` of values. One value is itself, any other number of them is a tuple.
#[cycle(walking)]
fn walk_match(
    alloc: Global,
    store: &mut Store,
    draft: &mut Constraints,
    token: usize,
    values: &[Expr],
    branches: &[BranchTree],
    world: &World<'_>,
    locals: &Locals<'_>,
    wanted: Option<TermId>,
) -> Result<TermId, AllocError>
    requires { CanWalk store.old draft.old world.now locals.now wanted
        (match_expression token false (grouped
        (first_tree (code.trees (map code.tree_of values.now))) (expressions_of values.now))
        (branches_of branches.now)) }
    ensures walked { IfOk result (IsWalked (piece (where_at store.old world.now)
        (locals_at store.old locals.now) (length draft.old.takers)
        (option_map (tree_at store.old) wanted) (match_expression token false (grouped (first_tree
        (code.trees (map code.tree_of values.now))) (expressions_of values.now))
        (branches_of branches.now))) (due wanted) store.old draft.old store.new draft.new) }
    ensures grows { Grows store.old store.new }
{
    let place = reserve(alloc, store, draft, token)?;
    let ty = new_unknown(store, draft, token)?;
    let first = first_token(values);
    let subject = walk_group(alloc, store, draft, first, values, world, locals, Some(ty))?;
    let mut patterns = Seq::new(alloc);
    let arms = walk_branches(
        alloc,
        store,
        draft,
        &mut patterns,
        branches,
        ty,
        world,
        locals,
        wanted,
    )?;
    fill(draft, place, token, patterns);
    make(store, draft, Node::Case(subject, arms))
}

// A `let` of a pattern, which is a `match` with one branch.
#[cycle(walking)]
fn walk_matched(
    alloc: Global,
    store: &mut Store,
    draft: &mut Constraints,
    token: usize,
    pattern: &[Pat],
    value: &Expr,
    body: &Expr,
    world: &World<'_>,
    locals: &Locals<'_>,
    wanted: Option<TermId>,
) -> Result<TermId, AllocError>
    requires { CanWalk store.old draft.old world.now locals.now wanted (match_expression token true
        (expression_of value.now) (more_branches (more_alternatives (first_form
        (code.patterns pattern.now)) (side_by_side (code.patterns pattern.now)) no_alternatives)
        (expression_of body.now) no_branches)) }
    ensures walked { IfOk result (IsWalked (piece (where_at store.old world.now)
        (locals_at store.old locals.now) (length draft.old.takers)
        (option_map (tree_at store.old) wanted) (match_expression token true
        (expression_of value.now) (more_branches (more_alternatives (first_form
        (code.patterns pattern.now)) (side_by_side (code.patterns pattern.now)) no_alternatives)
        (expression_of body.now) no_branches)))
        (due wanted) store.old draft.old store.new draft.new) }
    ensures grows { Grows store.old store.new }
{
    let place = reserve(alloc, store, draft, token)?;
    let ty = new_unknown(store, draft, token)?;
    let subject = walk(alloc, store, draft, value, world, locals, Some(ty))?;
    let mut patterns = Seq::new(alloc);
    let arms = walk_branch(
        alloc,
        store,
        draft,
        &mut patterns,
        pattern,
        &[],
        body,
        &[],
        ty,
        world,
        locals,
        wanted,
    )?;
    fill(draft, place, token, patterns);
    make(store, draft, Node::Case(subject, arms))
}

// Branches, whose patterns have a type.
#[cycle(walking)]
fn walk_branches(
    alloc: Global,
    store: &mut Store,
    draft: &mut Constraints,
    patterns: &mut Seq<TermId>,
    list: &[BranchTree],
    subject: TermId,
    world: &World<'_>,
    locals: &Locals<'_>,
    wanted: Option<TermId>,
) -> Result<TermId, AllocError>
    requires { CanWalkBranches store.old draft.old world.now locals.now wanted subject patterns.old
        (branches_of list.now) }
    ensures arms { IfOk result (AreArms (branches_arms (where_at store.old world.now)
        (locals_at store.old locals.now) (length draft.old.takers) (tree_at store.old subject)
        (option_map (tree_at store.old) wanted) (branches_of list.now)) (due wanted)
        store.old draft.old patterns.old store.new draft.new patterns.new) }
    ensures grows { Grows store.old store.new }
{
    let Some((branch, others)) = list.split_first() else {
        return make(store, draft, Node::End);
    };
    let body = &branch.body;
    match branch.alternatives.as_slice().split_first() {
        Some((first, rest)) => {
            let first = first.as_slice();
            walk_branch(
                alloc, store, draft, patterns, first, rest, body, others, subject, world, locals,
                wanted,
            )
        }
        None => {
            walk(alloc, store, draft, body, world, locals, wanted)?;
            walk_branches(
                alloc, store, draft, patterns, others, subject, world, locals, wanted,
            )
        }
    }
}

// A branch before others.
#[cycle(walking)]
fn walk_branch(
    alloc: Global,
    store: &mut Store,
    draft: &mut Constraints,
    patterns: &mut Seq<TermId>,
    first: &[Pat],
    rest: &[Seq<Pat>],
    body: &Expr,
    others: &[BranchTree],
    subject: TermId,
    world: &World<'_>,
    locals: &Locals<'_>,
    wanted: Option<TermId>,
) -> Result<TermId, AllocError>
    requires { CanWalkBranches store.old draft.old world.now locals.now wanted subject patterns.old
        (more_branches (more_alternatives (first_form (code.patterns first.now)) (side_by_side
        (code.patterns first.now)) (alternatives_of rest.now)) (expression_of body.now)
        (branches_of others.now)) }
    ensures arms { IfOk result (AreArms (branches_arms (where_at store.old world.now)
        (locals_at store.old locals.now) (length draft.old.takers) (tree_at store.old subject)
        (option_map (tree_at store.old) wanted) (more_branches (more_alternatives (first_form
        (code.patterns first.now)) (side_by_side (code.patterns first.now))
        (alternatives_of rest.now)) (expression_of body.now) (branches_of others.now)))
        (due wanted) store.old draft.old patterns.old store.new draft.new patterns.new) }
    ensures grows { Grows store.old store.new }
{
    let mut bound = Vec::new(alloc);
    let branch = walk_alternatives(alloc, store, draft, &mut bound, first, rest, world, subject)?;
    push_patterns(patterns, &branch)?;
    let inside = Locals::Inside(bound.as_slice(), &*locals);
    let body = walk(alloc, store, draft, body, world, &inside, wanted)?;
    let list = walk_branches(
        alloc, store, draft, patterns, others, subject, world, locals, wanted,
    )?;
    push_arms(alloc, store, &branch, body, list)
}
