// The rows of rules that put a term in, told by an instance that is made in the store, and the row of `linear`: `None` for the others,
// and where the kernel's test makes no instance.
// They depend on what a premise adds; the test of a step depends on them.
ghost use Rattle.std.specs.Prelude.{◌≡◌, ◌↔◌, ◌≤◌, None, Some, slice_get, IsTrue, IfOk, IfSome};
ghost use Rattle.std.specs.Option.{option_map};
ghost use Rattle.tasks.specs.trees.Node.{tree_at, Holds, Grows};
ghost use Rattle.tasks.specs.trees.Sorts.{sort_of};
ghost use Rattle.tasks.specs.trees.Tree.{loose};
ghost use Rattle.tasks.specs.Vocabulary.{of_task};
ghost use Rattle.tasks.specs.Open.{OpenTyped};
ghost use Rattle.tasks.specs.Valid.{IsGround};
ghost use Rattle.kernel.specs.Open.{TemplateIsOpen};
ghost use Rattle.step_reading.specs.quick_steps.Rows.{ReplacesSide};
ghost use Rattle.tasks.specs.typed_trees.instances.Instances.{IsClosedTerm};
ghost use Rattle.rules.specs.Trees.{RLetDef};
ghost use Rattle.rules.specs.Rows.{AtTerm, AtNew, IsRuleRow};
ghost use Rattle.rules.specs.Meaning.{pair_at, PairHeld, rule_at, RuleHeld};
ghost use Rattle.step_reading.specs.quick_steps.Places.{task_here, sequent_here, premises_here, PlaceHeld};

use crate::quick_steps::matches::match_unfolded;
use crate::quick_steps::parameters::is_new;
use crate::quick_steps::place::{Place, adds_alike, adds_signed};
use crate::quick_steps::sums::linear;
use crate::quick_steps::variables::variable_has_type;
use rules::{Rule, equation_sides, existential_parts, has_type, negated_formula, universal_parts};
use std::alloc::{AllocError, Global};
use tasks::typed_trees::instances::{instance, parameter};
use tasks::typed_trees::is_ground;
use tasks::{Node, Sort, Store, TermId};

// The formula at a place of the sequent.
fn formula_at(store: &Store, place: &Place<'_>, i: usize) -> Option<TermId>
    requires { PlaceHeld store.now place.now }
    ensures tree { option_map (tree_at store.now) result
        ≡ slice_get (sequent_here store.now place.now) i }
    ensures held { IfSome result (Holds store.now) }
{
    let _ = store;
    place.sequent.get(i).copied()
}

// Whether a tree is a term without open variables.
fn is_closed_term(store: &Store, id: TermId) -> bool
    requires { Holds store.now id }
    ensures { IsTrue result → IsClosedTerm (tree_at store.now id) }
{
    store.sort(id) == Sort::Term && store.loose(id) == 0
}

// The body of a quantifier at a term of its type.
fn at_term(
    alloc: Global,
    store: &mut Store,
    place: &Place<'_>,
    quantifier: Option<(TermId, TermId)>,
    term: TermId,
    sign: bool,
) -> Result<Option<bool>, AllocError>
    requires place { PlaceHeld store.old place.now }
    requires quantifier { IfSome quantifier (PairHeld store.old) }
    requires term { Holds store.old term }
    ensures told { IfOk result (λ o. IfSome o (λ b. IsTrue b
        ↔ AtTerm (option_map (pair_at store.old) quantifier) (sequent_here store.old place.now)
        (tree_at store.old term) sign (premises_here store.old place.now))) }
    ensures kept { IfOk result (λ o. o ≡ None → store.new ≡ store.old) }
    ensures grows { Grows store.old store.new }
{
    let Some((ty, body)) = quantifier else {
        return Ok(None);
    };
    if !is_closed_term(store, term) {
        return Ok(None);
    }
    if !has_type(store, term, ty) {
        return Ok(None);
    }
    let made = instance(alloc, store, body, term)?;
    Ok(Some(adds_signed(store, place, made, sign)))
}

// The body of a quantifier at a parameter that the sequent doesn't have.
fn at_new(
    alloc: Global,
    store: &mut Store,
    place: &Place<'_>,
    quantifier: Option<(TermId, TermId)>,
    number: usize,
    sign: bool,
) -> Result<Option<bool>, AllocError>
    requires place { PlaceHeld store.old place.now }
    requires quantifier { IfSome quantifier (PairHeld store.old) }
    ensures told { IfOk result (λ o. IfSome o (λ b. IsTrue b
        ↔ AtNew (option_map (pair_at store.old) quantifier) (sequent_here store.old place.now)
        number sign (premises_here store.old place.now))) }
    ensures kept { IfOk result (λ o. o ≡ None → store.new ≡ store.old) }
    ensures grows { Grows store.old store.new }
{
    let Some((ty, body)) = quantifier else {
        return Ok(None);
    };
    if store.sort(ty) != Sort::Kind {
        return Ok(None);
    }
    let new = is_new(alloc, store, place.sequent, number)?;
    if !new {
        return Ok(Some(false));
    }
    let param = parameter(store, number, ty)?;
    let made = instance(alloc, store, body, param)?;
    Ok(Some(adds_signed(store, place, made, sign)))
}

// A `let` put out.
fn let_def(
    alloc: Global,
    store: &mut Store,
    place: &Place<'_>,
    e: TermId,
) -> Result<Option<bool>, AllocError>
    requires place { PlaceHeld store.old place.now }
    requires held { Holds store.old e }
    ensures told { IfOk result (λ o. IfSome o (λ b. IsTrue b
        ↔ IsRuleRow (task_here store.old place.now) (sequent_here store.old place.now)
        (RLetDef (tree_at store.old e)) (premises_here store.old place.now))) }
    ensures kept { IfOk result (λ o. o ≡ None → store.new ≡ store.old) }
    ensures grows { Grows store.old store.new }
{
    let Node::Let(value, body) = store.node(e) else {
        return Ok(None);
    };
    if !is_closed_term(store, value) {
        return Ok(None);
    }
    let made = instance(alloc, store, body, value)?;
    Ok(Some(adds_alike(store, place, e, made)))
}

// Whether a tree is a formula free of schematic types in which the variable 0 alone may be open.
fn is_open_once(store: &Store, e: TermId) -> bool
    requires { Holds store.now e }
    ensures sort { IsTrue result → sort_of (tree_at store.now e) ≡ Sort.Formula }
    ensures loose { IsTrue result → loose (tree_at store.now e) ≤ 1 }
    ensures ground { IsTrue result → IsGround (tree_at store.now e) }
{
    store.sort(e) == Sort::Formula && store.loose(e) <= 1 && is_ground(store, e)
}

// One side of an equation in the place of the other in a formula.
fn replaced(
    alloc: Global,
    store: &mut Store,
    place: &Place<'_>,
    sides: (TermId, TermId),
    found: TermId,
    template: TermId,
) -> Result<Option<bool>, AllocError>
    requires place { PlaceHeld store.old place.now }
    requires sides { PairHeld store.old sides }
    requires formula { Holds store.old found }
    requires held { Holds store.old template }
    requires open { OpenTyped (of_task (task_here store.old place.now))
        (tree_at store.old template) }
    ensures told { IfOk result (λ o. IfSome o (λ b. IsTrue b
        ↔ ReplacesSide (task_here store.old place.now) (Some (pair_at store.old sides))
        (Some (tree_at store.old found)) (sequent_here store.old place.now)
        (tree_at store.old template) (premises_here store.old place.now))) }
    ensures kept { IfOk result (λ o. o ≡ None → store.new ≡ store.old) }
    ensures grows { Grows store.old store.new }
{
    let Some(ty) = store.ty(sides.0) else {
        return Ok(None);
    };
    if !is_closed_term(store, sides.0) || !is_closed_term(store, sides.1) {
        return Ok(None);
    }
    if !is_open_once(store, template) {
        return Ok(None);
    }
    let has = variable_has_type(alloc, store, template, ty)?;
    if !has {
        return Ok(Some(false));
    }
    let before = instance(alloc, store, template, sides.0)?;
    if !store.same(before, found) {
        return Ok(Some(false));
    }
    let made = instance(alloc, store, template, sides.1)?;
    Ok(Some(adds_signed(store, place, made, true)))
}

// Whether the formula at a place has one side of an equation in the place of the other, and the premise has what comes of it.
fn replace(
    alloc: Global,
    store: &mut Store,
    place: &Place<'_>,
    sides: Option<(TermId, TermId)>,
    formula: Option<TermId>,
    template: TermId,
) -> Result<Option<bool>, AllocError>
    requires place { PlaceHeld store.old place.now }
    requires sides { IfSome sides (PairHeld store.old) }
    requires formula { IfSome formula (Holds store.old) }
    requires held { Holds store.old template }
    requires open { OpenTyped (of_task (task_here store.old place.now))
        (tree_at store.old template) }
    ensures told { IfOk result (λ o. IfSome o (λ b. IsTrue b
        ↔ ReplacesSide (task_here store.old place.now) (option_map (pair_at store.old) sides)
        (option_map (tree_at store.old) formula) (sequent_here store.old place.now)
        (tree_at store.old template) (premises_here store.old place.now))) }
    ensures kept { IfOk result (λ o. o ≡ None → store.new ≡ store.old) }
    ensures grows { Grows store.old store.new }
{
    match sides {
        Some(both) => match formula {
            Some(found) => replaced(alloc, store, place, both, found, template),
            None => Ok(None),
        },
        None => Ok(None),
    }
}

/// Whether the row of a rule holds at a place, where the rule puts a term in or is `linear`.
pub(crate) fn told_row(
    alloc: Global,
    store: &mut Store,
    place: &Place<'_>,
    rule: &Rule,
) -> Result<Option<bool>, AllocError>
    requires place { PlaceHeld store.old place.now }
    requires rule { RuleHeld store.old rule.now }
    requires template { TemplateIsOpen (task_here store.old place.now)
        (rule_at store.old rule.now) }
    ensures told { IfOk result (λ o. IfSome o (λ b. IsTrue b
        ↔ IsRuleRow (task_here store.old place.now) (sequent_here store.old place.now)
        (rule_at store.old rule.now) (premises_here store.old place.now))) }
    ensures kept { IfOk result (λ o. o ≡ None → store.new ≡ store.old) }
    ensures grows { Grows store.old store.new }
{
    match rule {
        Rule::Forall(i, t) => {
            let parts = universal_parts(store, formula_at(store, place, *i));
            at_term(alloc, store, place, parts, *t, true)
        }
        Rule::NotForall(i, n) => {
            let inner = negated_formula(store, formula_at(store, place, *i));
            let parts = universal_parts(store, inner);
            at_new(alloc, store, place, parts, *n, false)
        }
        Rule::Exists(i, n) => {
            let parts = existential_parts(store, formula_at(store, place, *i));
            at_new(alloc, store, place, parts, *n, true)
        }
        Rule::NotExists(i, t) => {
            let inner = negated_formula(store, formula_at(store, place, *i));
            let parts = existential_parts(store, inner);
            at_term(alloc, store, place, parts, *t, false)
        }
        Rule::LetDef(e) => let_def(alloc, store, place, *e),
        Rule::MatchDef(e) => match_unfolded(alloc, store, place, *e),
        Rule::Replace(i, j, e) => {
            let sides = equation_sides(store, formula_at(store, place, *i));
            replace(alloc, store, place, sides, formula_at(store, place, *j), *e)
        }
        Rule::Linear(uses) => {
            let closed = linear(alloc, store, place, uses.as_slice())?;
            Ok(Some(closed))
        }
        _ => Ok(None),
    }
}
