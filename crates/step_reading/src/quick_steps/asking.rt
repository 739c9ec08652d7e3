// What a pattern asks of a term, made in the store: its tests, and the terms for its variables.
// It depends on a constructor on the fields of a term; the row of `matchdef` depends on it.
ghost use Rattle.std.specs.Prelude.{◌≡◌, ◌∷◌, [], ◌++◌, ℕ, All, IsTrue, IfOk, OnOk, IfSome};
ghost use Rattle.trees.specs.Tree.{Tree, Three, HFun};
ghost use Rattle.trees.specs.Node.{tree_at, trees_at, Holds, Grows};
ghost use Rattle.trees.specs.Sorts.{IsList};
ghost use Rattle.trees.specs.binders.Visits.{HoldTerms, HoldsTerm, AreHeldOfSort};
ghost use Rattle.tasks.specs.Looking.{LookupHeld};
ghost use Rattle.tasks.specs.Typing.{members};
ghost use Rattle.tasks.specs.MatchTests.{fields, constructor_projections, con_equation, tests, pattern_terms};
ghost use Rattle.images.specs.PatternTerms.{HasClosedResult};
ghost use Rattle.images.specs.match_terms.Asking.{task_under, AreHeldBoth};

use images::match_terms::rebuilt_term;
use std::alloc::{AllocError, Global};
use tasks::{Grow, Lookup, Node, Role, Sort, Store, TermId};

// A pattern with more tests or more variables isn't asked: its parts may be shared, so that it has more than any store.
const MOST: usize = 256;

// The projections of a constructor.
fn projections<'a>(store: &Store, look: Lookup<'a>, constructor: usize) -> &'a [usize]
    requires { LookupHeld store.now look }
    ensures { result.now ≡ constructor_projections (task_under store.now look.entry) constructor }
{
    match look.role(store, constructor) {
        Role::Constructor(con) => con.projections.as_slice(),
        _ => &[],
    }
}

// Whether the result of a symbol is a closed type.
fn has_closed_result(store: &Store, look: Lookup<'_>, symbol: usize) -> bool
    requires { LookupHeld store.now look }
    ensures { IsTrue result → HasClosedResult (task_under store.now look.entry) symbol }
{
    match look.task.sig.symbols.get(symbol) {
        Some(info) => match info.result {
            Some(ty) => store.sort(ty) == Sort::Kind && store.loose(ty) == 0,
            None => false,
        },
        None => false,
    }
}

// Whether the results of symbols are closed types.
fn have_closed_results(store: &Store, look: Lookup<'_>, symbols: &[usize]) -> bool
    requires { LookupHeld store.now look }
    ensures { IsTrue result → All (HasClosedResult (task_under store.now look.entry)) symbols.now }
{
    match symbols.split_first() {
        Some((first, rest)) => has_closed_result(store, look, *first)
            && have_closed_results(store, look, rest),
        None => true,
    }
}

// Whether the results of a constructor and of its projections are closed types.
fn is_closed_constructor(store: &Store, look: Lookup<'_>, constructor: usize) -> bool
    requires { LookupHeld store.now look }
    ensures { IsTrue result → All (HasClosedResult (task_under store.now look.entry))
        (constructor ∷ constructor_projections (task_under store.now look.entry) constructor) }
{
    has_closed_result(store, look, constructor)
        && have_closed_results(store, look, projections(store, look, constructor))
}

// The terms of a list, after others.
fn push_terms(store: &Store, list: TermId, out: &mut Vec<TermId>) -> Result<(), AllocError>
    requires held { Holds store.now list }
    requires terms { IsList Sort.Term (tree_at store.now list) }
    requires out_held { HoldTerms store.now out.old.items }
    ensures trees { OnOk result (trees_at store.now out.new.items
        ≡ trees_at store.now out.old.items ++ members (tree_at store.now list)) }
    ensures held { OnOk result (HoldTerms store.now out.new.items) }
{
    match store.node(list) {
        Node::Cell(first, rest) => {
            out.push(first)?;
            push_terms(store, rest, out)
        }
        _ => Ok(()),
    }
}

// The arguments of a function; none of what is no function.
fn arguments(alloc: Global, store: &Store, term: TermId) -> Result<Vec<TermId>, AllocError>
    requires { Holds store.now term }
    ensures held { IfOk result (λ v. HoldTerms store.now v.items) }
    ensures trees { IfOk result (λ v. (f : ℕ) (types args ty : Tree)
        → tree_at store.now term ≡ Three (HFun f) types args ty
        → trees_at store.now v.items ≡ members args) }
{
    let mut out = Vec::new(alloc);
    match store.node(term) {
        Node::Fun(_, _, args, _) => {
            push_terms(store, args, &mut out)?;
            Ok(out)
        }
        _ => Ok(out),
    }
}

// What a constructor's pattern asks of a term: the equation of the term and the constructor on its fields, and the fields.
#[derive(Drop)]
struct Opened {
    equation: TermId,
    fields: Vec<TermId>,
}

// Opens a term by a constructor at a list of types.
fn open_term(
    alloc: Global,
    store: &mut Store,
    look: Lookup<'_>,
    constructor: usize,
    types: TermId,
    term: TermId,
) -> Result<Opened, AllocError>
    requires look { LookupHeld store.old look }
    requires results { All (HasClosedResult (task_under store.old look))
        (constructor ∷ constructor_projections (task_under store.old look) constructor) }
    requires types_held { Holds store.old types }
    requires types { IsList Sort.Kind (tree_at store.old types) }
    requires term { HoldsTerm store.old term }
    ensures equation_held { IfOk result (λ o. AreHeldOfSort Sort.Formula store.new
        (o.equation ∷ [])) }
    ensures equation { IfOk result (λ o. tree_at store.new o.equation
        ≡ con_equation (task_under store.old look.entry) constructor
        (tree_at store.old types) (tree_at store.old term)) }
    ensures fields_held { IfOk result (λ o. HoldTerms store.new o.fields.items) }
    ensures fields { IfOk result (λ o. trees_at store.new o.fields.items
        ≡ fields (task_under store.old look.entry)
        (constructor_projections (task_under store.old look.entry) constructor)
        (tree_at store.old types) (tree_at store.old term)) }
    ensures grows { Grows store.old store.new }
{
    let own = projections(store, look, constructor);
    let made = rebuilt_term(alloc, store, look, constructor, own, types, term)?;
    let equation = store.add(Node::Eq(term, made))?;
    let fields = arguments(alloc, store, made)?;
    Ok(Opened { equation, fields })
}

// The term of a list of one.
fn only_term(terms: &[TermId]) -> Option<TermId>
    ensures { IfSome result (λ t. terms.now ≡ t ∷ []) }
{
    match terms.split_first() {
        Some((first, rest)) => { if rest.is_empty() { Some(*first) } else { None } }
        None => None,
    }
}

/// The tests of a pattern or of a list of patterns, and the terms for its variables, after others. Whether it is asked: a large
/// one isn't, nor is one that has not as many terms, or whose symbols don't have closed types as their results.
pub(crate) fn ask_all(
    alloc: Global,
    store: &mut Store,
    look: Lookup<'_>,
    pattern: TermId,
    terms: &[TermId],
    made: &mut Vec<TermId>,
    bound: &mut Vec<TermId>,
) -> Result<bool, AllocError>
    requires look { LookupHeld store.old look }
    requires pattern { Holds store.old pattern }
    requires terms { HoldTerms store.old terms.now }
    requires held { AreHeldBoth store.old made.old.items bound.old.items }
    ensures held { OnOk result (AreHeldBoth store.new made.new.items bound.new.items) }
    ensures tests { IfOk result (λ b. IsTrue b → trees_at store.new made.new.items
        ≡ trees_at store.old made.old.items ++ tests (task_under store.old look.entry)
        (tree_at store.old pattern) (trees_at store.old terms.now)) }
    ensures terms { IfOk result (λ b. IsTrue b → trees_at store.new bound.new.items
        ≡ trees_at store.old bound.old.items ++ pattern_terms (task_under store.old look.entry)
        (tree_at store.old pattern) (trees_at store.old terms.now)) }
    ensures grows { Grows store.old store.new }
{
    if made.len() >= MOST || bound.len() >= MOST {
        return Ok(false);
    }
    match store.node(pattern) {
        Node::PatVar(_) => {
            let Some(only) = only_term(terms) else {
                return Ok(false);
            };
            bound.push(only)?;
            Ok(true)
        }
        Node::PatAlias(inner) => {
            let Some(named) = only_term(terms) else {
                return Ok(false);
            };
            let asked = ask_all(alloc, store, look, inner, terms, made, bound)?;
            bound.push(named)?;
            Ok(asked)
        }
        Node::Cell(first, more) => {
            let Some((head, tail)) = terms.split_first() else {
                return Ok(false);
            };
            if !ask_all(alloc, store, look, first, &[*head], made, bound)? {
                return Ok(false);
            }
            let asked = ask_all(alloc, store, look, more, tail, made, bound)?;
            Ok(asked)
        }
        Node::PatCon(constructor, types, parts, _) => {
            let Some(term) = only_term(terms) else {
                return Ok(false);
            };
            if !is_closed_constructor(store, look, constructor) {
                return Ok(false);
            }
            let opened = open_term(alloc, store, look, constructor, types, term)?;
            made.push(opened.equation)?;
            let asked = ask_all(
                alloc,
                store,
                look,
                parts,
                opened.fields.as_slice(),
                made,
                bound,
            )?;
            Ok(asked)
        }
        _ => Ok(true),
    }
}
