// Whether the variables that a binder binds have their types wherever they are in its body: each number is visited once under
// each number of binders.
// It depends on the store; the row of `replace` depends on it, and so does a reader of steps.
ghost use Rattle.std.specs.Prelude.{◌≡◌, ◌↔◌, ◌<◌, ◌≤◌, IsTrue, IfOk, OnOk, IfSome, slice_get};
ghost use Rattle.std.specs.Option.{option_map};
ghost use Rattle.tasks.specs.trees.Node.{tree_at, head_of_node, Holds};
ghost use Rattle.tasks.specs.trees.Tree.{loose};
ghost use Rattle.tasks.specs.trees.Binding.{Bound};
ghost use Rattle.tasks.specs.Typing.{pattern_types};
ghost use Rattle.tasks.specs.Open.{VariableHas, VariablesHave, OpenTyped, PartsAreOpen};
ghost use Rattle.trees.specs.binders.Depth.{IsUnder};
ghost use Rattle.tasks.specs.typed_trees.Named.{vocabulary_at, VocabularyHeld};
ghost use Rattle.step_reading.specs.quick_steps.Variables.{types_bound, BinderHeld, AreSeen, ToldOfTree};

use std::alloc::{AllocError, Global};
use std::collections::HashSet;
use tasks::typed_trees::{Vocabulary, is_open_typed};
use tasks::{Node, Parts, Store, TermId};

// What a binder binds: a variable of a type, or the variables of a pattern.
#[derive(Clone, Copy)]
enum Binder {
    Variable(TermId),
    Pattern(TermId),
}

// The numbers of trees, each with the number of binders around it, in which the variables are known to have their types.
type Seen = HashSet<(usize, usize)>;

// How many variables a node binds in its second child, whose first child is given, on top of so many.
fn depth_under(store: &Store, node: Node, first: TermId, depth: usize) -> usize
    requires { Holds store.now first }
    ensures { IsUnder depth result (head_of_node node) (tree_at store.now first) }
{
    depth.saturating_add(store.binders(node, first))
}

// The type of a pattern's variable, the last one counted as 0.
fn variable_type(store: &Store, pattern: TermId, back: usize) -> Option<TermId>
    requires held { Holds store.now pattern }
    requires small { back < 18446744073709551615 }
    ensures tree { option_map (tree_at store.now) result
        ≡ slice_get (pattern_types (tree_at store.now pattern)) back }
    ensures held { IfSome result (Holds store.now) }
{
    match store.node(pattern) {
        Node::PatVar(ty) => { if back == 0 { Some(ty) } else { None } }
        Node::PatAlias(inner) => match store.ty(inner) {
            Some(ty) => {
                if back == 0 {
                    Some(ty)
                } else {
                    variable_type(store, inner, back - 1)
                }
            }
            None => variable_type(store, inner, back),
        },
        Node::Cell(first, more) => {
            let count = store.pattern_variables(more);
            if back < count {
                variable_type(store, more, back)
            } else {
                variable_type(store, first, back - count)
            }
        }
        Node::PatCon(_, _, parts, _) => variable_type(store, parts, back),
        _ => None,
    }
}

// The type of a bound variable, the last one counted as 0.
fn bound_type(store: &Store, binder: Binder, back: usize) -> Option<TermId>
    requires held { BinderHeld store.now binder }
    requires small { back < 18446744073709551615 }
    ensures tree { option_map (tree_at store.now) result
        ≡ slice_get (types_bound store.now binder) back }
    ensures held { IfSome result (Holds store.now) }
{
    match binder {
        Binder::Variable(ty) => { if back == 0 { Some(ty) } else { None } }
        Binder::Pattern(pattern) => variable_type(store, pattern, back),
    }
}

// Whether a variable that the binders around do not close has its type, where the binder binds it.
fn is_typed_variable(
    store: &Store,
    binder: Binder,
    depth: usize,
    index: usize,
    ty: TermId,
    e: TermId,
) -> bool
    requires binder { BinderHeld store.now binder }
    requires ty_held { Holds store.now ty }
    requires e_held { Holds store.now e }
    requires tree { tree_at store.now e ≡ Bound index (tree_at store.now ty) }
    requires above { depth ≤ index }
    ensures { ToldOfTree depth (types_bound store.now binder) (tree_at store.now e) result }
{
    store.laws();
    match bound_type(store, binder, index - depth) {
        Some(known) => store.same(ty, known),
        None => true,
    }
}

// Whether the variables from so many binders up have their types wherever they are there.
#[cycle(visiting)]
fn variables_have(
    store: &Store,
    seen: &mut Seen,
    binder: Binder,
    e: TermId,
    depth: usize,
) -> Result<bool, AllocError>
    requires binder { BinderHeld store.now binder }
    requires e_held { Holds store.now e }
    requires seen { AreSeen (types_bound store.now binder) store.now seen.old }
    ensures told { IfOk result (ToldOfTree depth (types_bound store.now binder)
        (tree_at store.now e)) }
    ensures seen { OnOk result (AreSeen (types_bound store.now binder) store.now seen.new) }
{
    if store.loose(e) <= depth {
        return Ok(true);
    }
    if seen.contains(&(e.0, depth)) {
        return Ok(true);
    }
    let have = variables_have_inside(store, seen, binder, e, depth)?;
    if have {
        seen.insert((e.0, depth))?;
    }
    Ok(have)
}

// Whether the variables of an open tree from so many binders up have their types, by its node.
#[cycle(visiting)]
fn variables_have_inside(
    store: &Store,
    seen: &mut Seen,
    binder: Binder,
    e: TermId,
    depth: usize,
) -> Result<bool, AllocError>
    requires binder { BinderHeld store.now binder }
    requires e_held { Holds store.now e }
    requires open { depth < loose (tree_at store.now e) }
    requires seen { AreSeen (types_bound store.now binder) store.now seen.old }
    ensures told { IfOk result (ToldOfTree depth (types_bound store.now binder)
        (tree_at store.now e)) }
    ensures seen { OnOk result (AreSeen (types_bound store.now binder) store.now seen.new) }
{
    let node = store.node(e);
    if let Node::Bound(index, ty) = node {
        return Ok(is_typed_variable(store, binder, depth, index, ty, e));
    }
    match node.parts() {
        Parts::None => Ok(true),
        Parts::One(a) => {
            let have = variables_have(store, seen, binder, a, depth)?;
            Ok(have)
        }
        Parts::Two(a, b) => {
            let under = depth_under(store, node, a, depth);
            if !variables_have(store, seen, binder, a, depth)? {
                return Ok(false);
            }
            let have = variables_have(store, seen, binder, b, under)?;
            Ok(have)
        }
        Parts::Three(a, b, c) => {
            if !variables_have(store, seen, binder, a, depth)? {
                return Ok(false);
            }
            if !variables_have(store, seen, binder, b, depth)? {
                return Ok(false);
            }
            let have = variables_have(store, seen, binder, c, depth)?;
            Ok(have)
        }
    }
}

// Whether the variables that a binder binds have their types in its body.
fn bound_fit(alloc: Global, store: &Store, binder: Binder, body: TermId) -> Result<bool, AllocError>
    requires binder { BinderHeld store.now binder }
    requires held { Holds store.now body }
    ensures { IfOk result (λ b. IsTrue b ↔ VariablesHave 0 (types_bound store.now binder)
        (tree_at store.now body)) }
{
    let mut seen = HashSet::new(alloc);
    let fit = variables_have(store, &mut seen, binder, body, 0)?;
    Ok(fit)
}

/// Whether the innermost open variable of a tree has a type wherever it is there. Only want of memory refuses.
pub(crate) fn variable_has_type(
    alloc: Global,
    store: &Store,
    e: TermId,
    ty: TermId,
) -> Result<bool, AllocError>
    requires e_held { Holds store.now e }
    requires ty_held { Holds store.now ty }
    ensures { IfOk result (λ b. IsTrue b ↔ VariableHas 0 (tree_at store.now ty)
        (tree_at store.now e)) }
{
    let has = bound_fit(alloc, store, Binder::Variable(ty), e)?;
    Ok(has)
}

/// Whether a tree whose children are typed as far as they go is so itself. It looks at the top, and at a binder at each
/// different part of its body, under each number of binders. Only want of memory refuses.
pub fn is_top_open(
    alloc: Global,
    store: &Store,
    v: &Vocabulary<'_>,
    e: TermId,
) -> Result<bool, AllocError>
    requires v_held { VocabularyHeld store.now v.now }
    requires held { Holds store.now e }
    requires parts { PartsAreOpen (vocabulary_at store.now v.now) (tree_at store.now e) }
    ensures { IfOk result (λ b. IsTrue b ↔ OpenTyped (vocabulary_at store.now v.now)
        (tree_at store.now e)) }
{
    match store.node(e) {
        Node::Forall(ty, body) | Node::Exists(ty, body) => {
            let fit = bound_fit(alloc, store, Binder::Variable(ty), body)?;
            Ok(fit)
        }
        Node::Let(value, body) => match store.ty(value) {
            Some(ty) => {
                let fit = bound_fit(alloc, store, Binder::Variable(ty), body)?;
                Ok(fit)
            }
            None => Ok(is_open_typed(store, v, e)),
        },
        Node::Arm(pattern, body) => {
            let fit = bound_fit(alloc, store, Binder::Pattern(pattern), body)?;
            Ok(fit)
        }
        _ => Ok(is_open_typed(store, v, e)),
    }
}
