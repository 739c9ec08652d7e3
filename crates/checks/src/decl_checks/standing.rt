// How variables stand to the argument that a use has to make smaller.
// They depend on tasks; structural recursion depends on them.
ghost use Rattle.std.specs.Prelude.{◌≡◌, ◌==◌, if◌then◌else◌, ◌++◌, List, IsTrue, length, map, IfSome, IfOk, OnOk};
ghost use Rattle.std.specs.Option.{option_map};
ghost use Rattle.trees.specs.Tree.{Tree};
ghost use Rattle.trees.specs.Node.{tree_at, node_tree, parts_of, Holds, AreBelow};
ghost use Rattle.tasks.specs.Task.{symbol_or};
ghost use Rattle.tasks.specs.Meaning.{symbol_at, symbols_at};
ghost use Rattle.checks.specs.decl_checks.Structure.{parameter_standings, bound_index, standing, through, is_tuple_constructor, components, list_head, list_tail, bound_to, stands, standings_in};
ghost use Rattle.checks.specs.decl_checks.Kept.{IsAtLeast, AreAtLeast, lesser, lessers};

use std::alloc::{AllocError, Global};
use tasks::{Signature, SymbolInfo, SymbolKind};
use trees::store::Store;
use trees::{Node, TermId};

/// How a variable stands to the argument: it is none of it, it is the argument, or it is strictly inside it.
#[derive(Clone, Copy)]
pub(crate) enum Standing {
    Other,
    Whole,
    Inside,
}

// Whether an entry is a constructor of tuples.
fn is_tuple(info: &SymbolInfo) -> bool
    ensures { (s : List Tree) → result ≡ is_tuple_constructor (symbol_at s info.now) }
{
    info.kind == SymbolKind::Constructor && info.theory.as_slice() == b"BuiltIn".as_slice()
}

// Whether a symbol is a constructor of tuples.
fn is_tuple_at(store: &Store, sig: &Signature, symbol: usize) -> bool
    ensures { result ≡ is_tuple_constructor
        (symbol_or (symbols_at store.now sig.now.symbols) symbol) }
{
    let _ = store;
    match sig.symbols.get(symbol) {
        Some(info) => is_tuple(info),
        None => false,
    }
}

// The list of the members of a tuple of a constructor that is written out; none inside a term.
#[tactic(auto, using(crate::proofs::decl_checks::Learning::tuple_args, crate::proofs::decl_checks::Learning::other_constructor, crate::proofs::decl_checks::Learning::not_tuple, crate::proofs::decl_checks::Learning::none_inside))]
fn components(store: &Store, sig: &Signature, inside: bool, con: usize, e: TermId) -> Option<TermId>
    requires { Holds store.now e }
    ensures tree { option_map (tree_at store.now) result
        ≡ components (symbols_at store.now sig.now.symbols) inside con (tree_at store.now e) }
    ensures held { IfSome result (Holds store.now) }
{
    if inside {
        return None;
    }
    match store.node(e) {
        Node::Fun(symbol, _, args, _) => {
            if symbol != con {
                return None;
            }
            if is_tuple_at(store, sig, symbol) {
                return Some(args);
            }
            None
        }
        _ => None,
    }
}

// The first member of a list.
fn first_member(store: &Store, list: TermId) -> TermId
    requires { Holds store.now list }
    ensures tree { tree_at store.now result ≡ list_head (tree_at store.now list) }
    ensures held { Holds store.now result }
{
    match store.node(list) {
        Node::Cell(first, _) => first,
        _ => list,
    }
}

// The other members of a list.
fn other_members(store: &Store, list: TermId) -> TermId
    requires { Holds store.now list }
    ensures tree { tree_at store.now result ≡ list_tail (tree_at store.now list) }
    ensures held { Holds store.now result }
{
    match store.node(list) {
        Node::Cell(_, rest) => rest,
        _ => list,
    }
}

// The number of binders between a variable and its own.
fn bound_index(store: &Store, e: TermId) -> Option<usize>
    requires { Holds store.now e }
    ensures { result ≡ bound_index (tree_at store.now e) }
{
    match store.node(e) {
        Node::Bound(index, _) => Some(index),
        _ => None,
    }
}

// How what is inside something stands, or (false) the thing itself.
fn standing_through(inside: bool, standing: Standing) -> Standing
    ensures { result ≡ through inside standing }
{
    if !inside {
        return standing;
    }
    match standing {
        Standing::Other => Standing::Other,
        _ => Standing::Inside,
    }
}

/// How a term stands, under variables that stand so, innermost first.
pub(crate) fn standing_of(store: &Store, known: &[Standing], e: TermId) -> Standing
    requires { Holds store.now e }
    ensures { result ≡ standing known.now (tree_at store.now e) }
{
    match bound_index(store, e) {
        Some(index) => match known.get(index) {
            Some(found) => *found,
            None => Standing::Other,
        },
        None => Standing::Other,
    }
}

// How the parameter of a number stands, where the one of a place is the argument.
#[tactic(auto, using(crate::proofs::decl_checks::Parameters::is_whole, crate::proofs::decl_checks::Parameters::is_other))]
fn parameter(number: usize, place: usize) -> Standing
    ensures { result ≡ (if number == place then Standing.Whole else Standing.Other) }
{
    if number == place {
        return Standing::Whole;
    }
    Standing::Other
}

// How the parameters of a definition stand, so many, of which one is the argument, the last one first, after others.
fn push_parameters(count: usize, place: usize, out: &mut Vec<Standing>) -> Result<(), AllocError>
    ensures { OnOk result (out.new.items ≡ out.old.items ++ parameter_standings count place) }
{
    if count == 0 {
        return Ok(());
    }
    let last = count - 1;
    let first = parameter(last, place);
    out.push(first)?;
    push_parameters(last, place, out)
}

/// How the parameters of a definition stand, so many, of which one is the argument, the last one first.
pub(crate) fn parameters(
    alloc: Global,
    count: usize,
    place: usize,
) -> Result<Vec<Standing>, AllocError>
    ensures { IfOk result (λ v. v.items ≡ parameter_standings count place) }
{
    let mut out = Vec::new(alloc);
    push_parameters(count, place, &mut out)?;
    Ok(out)
}

// How the variables of a pattern stand that is matched with a term, or with what is inside one, after others.
#[tactic(auto, using(crate::proofs::decl_checks::Learning::by_parts, crate::proofs::decl_checks::Learning::by_constructor))]
fn push_learned(
    store: &Store,
    sig: &Signature,
    known: &[Standing],
    inside: bool,
    e: TermId,
    pattern: TermId,
    out: &mut Vec<Standing>,
) -> Result<(), AllocError>
    requires e_held { Holds store.now e }
    requires held { Holds store.now pattern }
    ensures { OnOk result (out.new.items ≡ out.old.items ++ map (stands known.now)
        (bound_to (symbols_at store.now sig.now.symbols) inside (tree_at store.now e)
        (tree_at store.now pattern))) }
{
    match store.node(pattern) {
        Node::PatVar(_) => {
            out.push(standing_through(inside, standing_of(store, known, e)))?;
            Ok(())
        }
        Node::PatAlias(a) => {
            out.push(standing_through(inside, standing_of(store, known, e)))?;
            push_learned(store, sig, known, inside, e, a, out)
        }
        Node::Cell(a, b) => {
            push_learned(store, sig, known, inside, other_members(store, e), b, out)?;
            push_learned(store, sig, known, inside, first_member(store, e), a, out)
        }
        Node::PatCon(con, _, parts, _) => match components(store, sig, inside, con, e) {
            Some(args) => push_learned(store, sig, known, false, args, parts, out),
            None => push_learned(store, sig, known, true, e, parts, out),
        },
        _ => Ok(()),
    }
}

/// How the variables stand in what an operator binds variables in, where the branches around are of a match on a term.
pub(crate) fn standings_under(
    alloc: Global,
    store: &Store,
    sig: &Signature,
    known: &[Standing],
    matched: TermId,
    node: Node,
) -> Result<Vec<Standing>, AllocError>
    requires matched_held { Holds store.now matched }
    requires held { AreBelow (length store.now) (parts_of node) }
    ensures { IfOk result (λ v. v.items
        ≡ standings_in (symbols_at store.now sig.now.symbols) known.now (tree_at store.now matched)
        (node_tree store.now node)) }
{
    let mut out = Vec::new(alloc);
    match node {
        Node::Forall(_, _) | Node::Exists(_, _) | Node::Let(_, _) => out.push(Standing::Other)?,
        Node::Arm(a, _) => push_learned(store, sig, known, false, matched, a, &mut out)?,
        _ => (),
    }
    out.extend_from_slice(known)?;
    Ok(out)
}

// Whether a standing is at least another one: nothing is less than a variable that is none of the argument, nor more than one
// inside it.
fn is_at_least(least: Standing, found: Standing) -> bool
    ensures { IsTrue result → IsAtLeast least found }
{
    match (least, found) {
        (Standing::Other, _) => true,
        (_, Standing::Inside) => true,
        (Standing::Whole, Standing::Whole) => true,
        _ => false,
    }
}

/// Whether each variable of a list stands at least as in another list, which isn't longer.
pub(crate) fn is_above(low: &[Standing], known: &[Standing]) -> bool
    ensures { IsTrue result → AreAtLeast low.now known.now }
{
    match (low.split_first(), known.split_first()) {
        (Some((least, others)), Some((found, rest))) => {
            is_at_least(*least, *found) && is_above(others, rest)
        }
        (Some(_), None) => false,
        _ => true,
    }
}

// The lesser of two standings.
fn lesser(a: Standing, b: Standing) -> Standing
    ensures { result ≡ lesser a b }
{
    match (a, b) {
        (Standing::Other, _) | (Standing::Whole, Standing::Other) => Standing::Other,
        (Standing::Whole, _) => Standing::Whole,
        (Standing::Inside, found) => found,
    }
}

// The lesser standings of each place of two lists, after others.
fn push_lessers(a: &[Standing], b: &[Standing], out: &mut Vec<Standing>) -> Result<(), AllocError>
    ensures { OnOk result (out.new.items ≡ out.old.items ++ lessers a.now b.now) }
{
    match (a.split_first(), b.split_first()) {
        (Some((x, xs)), Some((y, ys))) => {
            out.push(lesser(*x, *y))?;
            push_lessers(xs, ys, out)
        }
        _ => Ok(()),
    }
}

/// The lesser standings of each place of two lists.
pub(crate) fn lessers(
    alloc: Global,
    a: &[Standing],
    b: &[Standing],
) -> Result<Vec<Standing>, AllocError>
    ensures { IfOk result (λ v. v.items ≡ lessers a.now b.now) }
{
    let mut out = Vec::new(alloc);
    push_lessers(a, b, &mut out)?;
    Ok(out)
}
