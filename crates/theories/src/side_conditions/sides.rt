// The side conditions of a declaration.
// They depend on the cover of patterns and on the checks of declarations; the theories of a source depend on them.
ghost use Rattle.std.specs.Prelude.{◌↔◌, All, map, IfErr, IfOk, IsTrue};
ghost use Rattle.tasks.specs.Meaning.{symbols_at, declarations_at, SymbolHeld, DeclHeld};
ghost use Rattle.checks.specs.decl_checks.Checks.{HasNoFault};
ghost use Rattle.open_types.specs.Drafts.{match_at};
ghost use Rattle.theories.specs.side_conditions.Sides.{IsCovered, IsSideFault, IsMatch, MatchesAnswer, ChecksAnswer, bodies};

use checks::decl_checks::{CheckFault, check_decl};
use checks::match_cover::cover;
use open_types::MatchAt;
use std::alloc::{AllocError, Global};
use tasks::{Decl, Signature};
use trees::store::Store;

/// What is wrong beside names and types, or want of memory.
#[derive(Clone, Copy)]
pub enum SideFault {
    Memory,
    /// The match at this token doesn't take all values.
    NotExhaustive { token: usize },
    /// What is wrong with a declaration.
    Check(CheckFault),
}

// Whether a match takes all values.
fn is_covered(
    alloc: Global,
    store: &Store,
    sig: &Signature,
    found: &MatchAt,
) -> Result<bool, AllocError>
    requires symbols_held { All (SymbolHeld store.now) sig.now.symbols }
    requires right { IsMatch store.now (symbols_at store.now sig.now.symbols) found.now }
    ensures { IfOk result (λ b. IsTrue b ↔ IsCovered (symbols_at store.now sig.now.symbols)
        (match_at store.now found.now)) }
{
    let escaping = cover(alloc, store, sig, found.patterns.as_slice())?;
    Ok(escaping.is_none())
}

// Each match takes all values.
fn check_matches(
    alloc: Global,
    store: &Store,
    sig: &Signature,
    matches: &[MatchAt],
) -> Result<(), SideFault>
    requires symbols_held { All (SymbolHeld store.now) sig.now.symbols }
    requires matches { All (IsMatch store.now (symbols_at store.now sig.now.symbols)) matches.now }
    ensures { MatchesAnswer (symbols_at store.now sig.now.symbols)
        (map (match_at store.now) matches.now) result }
{
    match matches.split_first() {
        Some((first, rest)) => match is_covered(alloc, store, sig, first) {
            Ok(true) => check_matches(alloc, store, sig, rest),
            Ok(false) => Err(SideFault::NotExhaustive { token: first.token }),
            Err(_) => Err(SideFault::Memory),
        },
        None => Ok(()),
    }
}

// Each declaration passes its checks.
fn check_decls(
    alloc: Global,
    store: &Store,
    sig: &Signature,
    decls: &[Decl],
) -> Result<(), SideFault>
    requires { All (DeclHeld store.now) decls.now }
    ensures { ChecksAnswer (symbols_at store.now sig.now.symbols)
        (bodies (declarations_at store.now decls.now)) result }
{
    match decls.split_first() {
        Some((first, rest)) => match check_decl(alloc, store, sig, first) {
            Ok(()) => check_decls(alloc, store, sig, rest),
            Err(CheckFault::Memory) => Err(SideFault::Memory),
            Err(fault) => Err(SideFault::Check(fault)),
        },
        None => Ok(()),
    }
}

/// Whether each match takes all values, and then whether each declaration passes its checks: the first match that doesn't, by its
/// token, or the first fault of the declarations.
pub fn check_sides(
    alloc: Global,
    store: &Store,
    sig: &Signature,
    matches: &[MatchAt],
    decls: &[Decl],
) -> Result<(), SideFault>
    requires symbols_held { All (SymbolHeld store.now) sig.now.symbols }
    requires matches { All (IsMatch store.now (symbols_at store.now sig.now.symbols)) matches.now }
    requires held { All (DeclHeld store.now) decls.now }
    ensures covered { IfOk result (λ _. All (IsCovered (symbols_at store.now sig.now.symbols))
        (map (match_at store.now) matches.now)) }
    ensures checked { IfOk result (λ _. All (HasNoFault (symbols_at store.now sig.now.symbols))
        (bodies (declarations_at store.now decls.now))) }
    ensures refused { IfErr result (IsSideFault (symbols_at store.now sig.now.symbols)
        (map (match_at store.now) matches.now) (bodies (declarations_at store.now decls.now))) }
{
    check_matches(alloc, store, sig, matches)?;
    check_decls(alloc, store, sig, decls)
}
