// Structural recursion: a choice of one argument for each member of a group, at which each use of a member gets smaller.
// It depends on how variables stand; the check of a declaration depends on it.
ghost use Rattle.std.specs.Prelude.{ℕ, ◌≡◌, ◌↔◌, ◌*◌, ◌<◌, ◌++◌, List, IsTrue, All, min, length, IfOk, OnOk};
ghost use Rattle.trees.specs.Tree.{Tree};
ghost use Rattle.trees.specs.Node.{tree_at, node_tree, parts_of, Holds, AreBelow};
ghost use Rattle.tasks.specs.Task.{SymbolTree};
ghost use Rattle.tasks.specs.Meaning.{symbols_at, definition_at, definitions_at};
ghost use Rattle.checks.specs.decl_checks.Structure.{PassesInside, UsePasses, TopPasses, UsesPassInside, symbol_arity, OnePasses, AllPass, IsStructural, choices, choice_of, PassesAt};
ghost use Rattle.checks.specs.decl_checks.Meaning.{DefinitionHeld};
ghost use Rattle.checks.specs.decl_checks.Kept.{AreKept, CanPass, TellsUses};

use crate::decl_checks::standing::{
    Standing, is_above, lessers, parameters, standing_of, standings_under,
};
use crate::recursive_groups::defining_body;
use indexmap::IndexMap;
use outside::Seq;
use std::alloc::{AllocError, Global};
use tasks::{Def, Signature};
use trees::store::Store;
use trees::{Node, Parts, TermId};

// Whether the argument at a place of a list is strictly inside.
fn passes_inside(store: &Store, known: &[Standing], args: TermId, place: usize) -> bool
    requires held { Holds store.now args }
    ensures { IsTrue result ↔ PassesInside known.now (tree_at store.now args) place }
{
    match store.node(args) {
        Node::Cell(first, rest) => {
            if place == 0 {
                matches!(standing_of(store, known, first), Standing::Inside)
            } else {
                passes_inside(store, known, rest, place - 1)
            }
        }
        _ => false,
    }
}

// Whether a use of a symbol passes something inside at the place of a member, if it is the one that is used.
fn member_passes(
    store: &Store,
    member: (usize, usize),
    known: &[Standing],
    symbol: usize,
    args: TermId,
) -> bool
    requires held { Holds store.now args }
    ensures { IsTrue result ↔ (member.0 ≡ symbol
        → PassesInside known.now (tree_at store.now args) member.1) }
{
    if member.0 != symbol {
        return true;
    }
    passes_inside(store, known, args, member.1)
}

// Whether a use of a symbol passes something inside at the place of each member that it is.
fn use_passes(
    store: &Store,
    chosen: &[(usize, usize)],
    known: &[Standing],
    symbol: usize,
    args: TermId,
) -> bool
    requires held { Holds store.now args }
    ensures { IsTrue result ↔ UsePasses chosen.now known.now symbol (tree_at store.now args) }
{
    match chosen.split_first() {
        Some((first, rest)) => {
            member_passes(store, *first, known, symbol, args)
                && use_passes(store, rest, known, symbol, args)
        }
        None => true,
    }
}

// Whether the use at the top of a tree, if it is one, passes something inside.
fn top_passes(store: &Store, chosen: &[(usize, usize)], known: &[Standing], node: Node) -> bool
    requires held { AreBelow (length store.now) (parts_of node) }
    ensures { IsTrue result ↔ TopPasses chosen.now known.now (node_tree store.now node) }
{
    match node {
        Node::Pred(symbol, _, args) => use_passes(store, chosen, known, symbol, args),
        Node::Fun(symbol, _, args, _) => use_passes(store, chosen, known, symbol, args),
        _ => true,
    }
}

// Standings with which a match passes, each the least so far, by the number of the match and of the term around it.
type Kept = IndexMap<(usize, usize), Seq<Standing>>;

// Whether it is kept that a tree passes.
fn has_passed(kept: &Kept, known: &[Standing], matched: TermId, e: TermId) -> bool
    ensures { (symbols : List SymbolTree) (chosen : List (ℕ × ℕ)) (s : List Tree)
        → AreKept symbols chosen s kept.now → IsTrue result
        → UsesPassInside symbols chosen known.now (tree_at s matched) (tree_at s e) }
{
    match kept.get(&(e.0, matched.0)) {
        Some(low) => is_above(low.as_slice(), known),
        None => false,
    }
}

// The standings to be kept of a tree that passes.
fn to_keep(
    kept: &Kept,
    known: &[Standing],
    matched: TermId,
    e: TermId,
) -> Result<Seq<Standing>, AllocError>
    ensures { (symbols : List SymbolTree) (chosen : List (ℕ × ℕ)) (s : List Tree)
        → AreKept symbols chosen s kept.now
        → UsesPassInside symbols chosen known.now (tree_at s matched) (tree_at s e)
        → IfOk result (λ v. UsesPassInside symbols chosen v (tree_at s matched) (tree_at s e)) }
{
    let alloc = *kept.allocator();
    match kept.get(&(e.0, matched.0)) {
        Some(low) => Ok(Seq::from_vec(lessers(alloc, low.as_slice(), known)?)),
        None => {
            let mut all = Vec::new(alloc);
            all.extend_from_slice(known)?;
            Ok(Seq::from_vec(all))
        }
    }
}

// Whether each use of a member in a tree passes something inside, where the branches around are of a match on a term. A match
// that passed isn't visited again where no variable stands lower.
#[cycle(passes)]
fn passes(
    store: &Store,
    sig: &Signature,
    chosen: &[(usize, usize)],
    kept: &mut Kept,
    known: &[Standing],
    matched: TermId,
    e: TermId,
) -> Result<bool, AllocError>
    requires { CanPass (symbols_at store.now sig.now.symbols) chosen.now store.now kept.old matched
        e }
    ensures { IfOk result (TellsUses (symbols_at store.now sig.now.symbols) chosen.now store.now
        known.now matched e kept.new) }
{
    if has_passed(kept, known, matched, e) {
        return Ok(true);
    }
    let passed = parts_pass(store, sig, chosen, kept, known, matched, e)?;
    if passed && matches!(store.node(e), Node::Case(_, _)) {
        let low = to_keep(kept, known, matched, e)?;
        kept.insert((e.0, matched.0), low)?;
    }
    Ok(passed)
}

// The same, of a tree of which nothing is kept. A type has no use.
#[cycle(passes)]
fn parts_pass(
    store: &Store,
    sig: &Signature,
    chosen: &[(usize, usize)],
    kept: &mut Kept,
    known: &[Standing],
    matched: TermId,
    e: TermId,
) -> Result<bool, AllocError>
    requires { CanPass (symbols_at store.now sig.now.symbols) chosen.now store.now kept.old matched
        e }
    ensures { IfOk result (TellsUses (symbols_at store.now sig.now.symbols) chosen.now store.now
        known.now matched e kept.new) }
{
    let node = store.node(e);
    if !top_passes(store, chosen, known, node) {
        return Ok(false);
    }
    match node {
        Node::TyApp(_, _) => Ok(true),
        Node::Case(a, b) => {
            if !passes(store, sig, chosen, kept, known, matched, a)? {
                return Ok(false);
            }
            passes(store, sig, chosen, kept, known, a, b)
        }
        Node::Forall(a, b) | Node::Exists(a, b) | Node::Let(a, b) | Node::Arm(a, b) => {
            if !passes(store, sig, chosen, kept, known, matched, a)? {
                return Ok(false);
            }
            let under = standings_under(*kept.allocator(), store, sig, known, matched, node)?;
            passes(store, sig, chosen, kept, under.as_slice(), matched, b)
        }
        node => match node.parts() {
            Parts::None => Ok(true),
            Parts::One(a) => passes(store, sig, chosen, kept, known, matched, a),
            Parts::Two(a, b) => Ok(
                passes(store, sig, chosen, kept, known, matched, a)?
                    && passes(store, sig, chosen, kept, known, matched, b)?,
            ),
            Parts::Three(a, b, c) => Ok(
                passes(store, sig, chosen, kept, known, matched, a)?
                    && passes(store, sig, chosen, kept, known, matched, b)?
                    && passes(store, sig, chosen, kept, known, matched, c)?,
            ),
        },
    }
}

// Whether the body of a definition passes at the place of one of its arguments.
fn body_passes(
    alloc: Global,
    store: &Store,
    sig: &Signature,
    chosen: &[(usize, usize)],
    known: &[Standing],
    body: TermId,
) -> Result<bool, AllocError>
    requires { Holds store.now body }
    ensures { IfOk result (λ b. IsTrue b ↔ UsesPassInside (symbols_at store.now sig.now.symbols)
        chosen.now known.now (tree_at store.now body) (tree_at store.now body)) }
{
    let mut kept = IndexMap::new(alloc);
    let passed = passes(store, sig, chosen, &mut kept, known, body, body)?;
    Ok(passed)
}

// The number of a symbol's arguments.
fn arity_of(store: &Store, sig: &Signature, symbol: usize) -> usize
    ensures { result ≡ symbol_arity (symbols_at store.now sig.now.symbols) symbol }
{
    let _ = store;
    match sig.symbols.get(symbol) {
        Some(info) => info.args.len(),
        None => 0,
    }
}

// Whether a definition has its member, with the place of one of its arguments, and its body passes.
fn one_passes(
    alloc: Global,
    store: &Store,
    sig: &Signature,
    chosen: &[(usize, usize)],
    def: Def,
    member: (usize, usize),
) -> Result<bool, AllocError>
    requires { DefinitionHeld store.now def }
    ensures { IfOk result (λ b. IsTrue b ↔ OnePasses (symbols_at store.now sig.now.symbols)
        chosen.now (definition_at store.now def) member) }
{
    let count = arity_of(store, sig, def.symbol);
    if member.0 != def.symbol || member.1 >= count {
        return Ok(false);
    }
    let body = defining_body(store, def.equation);
    let known = parameters(alloc, count, member.1)?;
    body_passes(alloc, store, sig, chosen, known.as_slice(), body)
}

// Whether each definition has its member, with the place of one of its arguments, and its body passes.
fn all_pass(
    alloc: Global,
    store: &Store,
    sig: &Signature,
    chosen: &[(usize, usize)],
    defs: &[Def],
    own: &[(usize, usize)],
) -> Result<bool, AllocError>
    requires { All (DefinitionHeld store.now) defs.now }
    ensures { IfOk result (λ b. IsTrue b ↔ AllPass (symbols_at store.now sig.now.symbols)
        chosen.now (definitions_at store.now defs.now) own.now) }
{
    match (defs.split_first(), own.split_first()) {
        (Some((first, rest)), Some((member, others))) => {
            if !one_passes(alloc, store, sig, chosen, *first, *member)? {
                return Ok(false);
            }
            all_pass(alloc, store, sig, chosen, rest, others)
        }
        (None, None) => Ok(true),
        _ => Ok(false),
    }
}

// The choice of a number, after others.
#[tactic(auto, using(crate::proofs::decl_checks::Choosing::left_positive, crate::proofs::decl_checks::Choosing::right_positive))]
fn push_choice(
    store: &Store,
    sig: &Signature,
    defs: &[Def],
    number: usize,
    out: &mut Vec<(usize, usize)>,
) -> Result<(), AllocError>
    requires { 0 < choices (symbols_at store.now sig.now.symbols)
        (definitions_at store.now defs.now) }
    ensures { OnOk result (out.new.items ≡ out.old.items
        ++ choice_of (symbols_at store.now sig.now.symbols)
        (definitions_at store.now defs.now) number) }
{
    match defs.split_first() {
        Some((first, rest)) => {
            let count = arity_of(store, sig, first.symbol);
            let place = number % count;
            out.push((first.symbol, place))?;
            push_choice(store, sig, rest, number / count, out)
        }
        None => Ok(()),
    }
}

// Whether a group of definitions passes at the choice of a number.
fn passes_at(
    alloc: Global,
    store: &Store,
    sig: &Signature,
    defs: &[Def],
    number: usize,
) -> Result<bool, AllocError>
    requires held { All (DefinitionHeld store.now) defs.now }
    requires some { 0 < choices (symbols_at store.now sig.now.symbols)
        (definitions_at store.now defs.now) }
    ensures { IfOk result (λ b. IsTrue b ↔ PassesAt (symbols_at store.now sig.now.symbols)
        (definitions_at store.now defs.now) number) }
{
    let mut chosen = Vec::new(alloc);
    push_choice(store, sig, defs, number, &mut chosen)?;
    let all = chosen.as_slice();
    all_pass(alloc, store, sig, all, defs, all)
}

/// Whether a group of definitions, with so many choices, is structural. Only want of memory refuses.
pub(crate) fn is_structural(
    alloc: Global,
    store: &Store,
    sig: &Signature,
    defs: &[Def],
    count: usize,
) -> Result<bool, AllocError>
    requires held { All (DefinitionHeld store.now) defs.now }
    requires count { count ≡ choices (symbols_at store.now sig.now.symbols)
        (definitions_at store.now defs.now) }
    ensures { IfOk result (λ b. IsTrue b ↔ IsStructural (symbols_at store.now sig.now.symbols)
        (definitions_at store.now defs.now)) }
{
    for number in 0..count {
        if passes_at(alloc, store, sig, defs, number)? {
            return Ok(true);
        }
    }
    Ok(false)
}

/// How many choices of places there are, or the greatest number.
#[tactic(auto, using(crate::proofs::decl_checks::Choosing::saturated))]
pub(crate) fn choices(store: &Store, sig: &Signature, defs: &[Def]) -> usize
    ensures { result ≡ min (choices (symbols_at store.now sig.now.symbols)
        (definitions_at store.now defs.now)) usize.MAX }
{
    match defs.split_first() {
        Some((first, rest)) => {
            let others = choices(store, sig, rest);
            arity_of(store, sig, first.symbol).saturating_mul(others)
        }
        None => 1,
    }
}
