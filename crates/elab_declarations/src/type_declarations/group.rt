// A group of algebraic types: its entries, its names and its declaration, or its first fault.
ghost use Rattle.std.specs.Prelude.{◌≡◌, ◌++◌, ◌+◌, ◌∷◌, ◌<◌, ◌^◌, [], List, None, length, All, IfOk, IfErr, OnOk, Err};
ghost use Rattle.trees.specs.Tree.{Tree};
ghost use Rattle.trees.specs.Node.{Grows};
ghost use Rattle.tasks.specs.Task.{Constructs};
ghost use Rattle.tasks.specs.Meaning.{symbols_at, declarations_at, algebraics_at, DeclHeld};
ghost use Rattle.name_resolution.specs.Naming.{Tells, scope_at};
ghost use Rattle.elab_groups.specs.parts.Declarations.{types_fault};
ghost use Rattle.elab_groups.specs.parts.Entries.{wanting_tuples, IsSignature, IsExtended, AreScopes};
ghost use Rattle.elab_groups.specs.parts.Outcomes.{over, setting, IsKept};
ghost use Rattle.elab_declarations.specs.type_declarations.Algebraics.{algebraics_of, group_seen, group_count, with_types, type_entries, algebraic_trees, group_entries, first_name, first_vars, group_made, AreTypesElaborated, IsTypesRefusal};
ghost use Rattle.elab_declarations.specs.type_declarations.Held.{AlgTyped, AreWithin, HaveThings};

use crate::type_declarations::entries::{push_entries, push_type_entries};
use crate::type_declarations::fields::push_types;
use crate::type_declarations::naming::{Before, declare_types};
use crate::type_declarations::widths::group_seen;
use elab_groups::parts::{ElabFault, Elaborated, Place, join_words, naming_fault, push_tuples};
use indexmap::IndexSet;
use name_resolution::NamingFault;
use scopes::{Scope, Seq, Text};
use std::alloc::{AllocError, Global};
use surface::AlgTree;
use tasks::{Alg, Body, Decl, Signature};
use trees::store::Store;

// The entries of a group's tuples and of its types, the first of which has the number.
fn push_symbols(
    alloc: Global,
    store: &mut Store,
    sig: &mut Signature,
    place: &Place<'_>,
    types: &[AlgTree],
) -> Result<usize, AllocError>
    requires { IsSignature store.old sig.old.symbols }
    ensures entries { OnOk result (IsExtended store.old sig.old store.new sig.new
        (wanting_tuples (symbols_at store.old sig.old.symbols) (group_seen (algebraics_of
        types.now)).widths ++ type_entries place.now.theory.now place.now.within.now (algebraics_of
        types.now))) }
    ensures first { IfOk result (λ symbol. symbol ≡ length sig.old.symbols + length
        (wanting_tuples (symbols_at store.old sig.old.symbols) (group_seen (algebraics_of
        types.now)).widths)) }
    ensures following { IfOk result (λ symbol. length sig.new.symbols ≡ symbol + length types.now) }
    ensures grows { Grows store.old store.new }
{
    let seen = group_seen(alloc, types)?;
    push_tuples(alloc, store, sig, seen.widths.as_slice())?;
    let symbol = sig.symbols.len();
    push_type_entries(alloc, store, sig, place, types)?;
    Ok(symbol)
}

// A number is below 2^64. It does nothing when it runs.
fn bound_number(number: usize)
    ensures { number < 2 ^ 64 }
{
    let _ = number;
}

// The names that a group makes: its types stand for the entries from a number on, its constructors for those from another.
fn declare_group(
    alloc: Global,
    scope: &mut Scope,
    symbol: usize,
    number: usize,
    types: &[AlgTree],
) -> Result<(), NamingFault>
    requires { symbol + length types.now < 2 ^ 64 }
    ensures scope { OnOk result (scope.new ≡ with_types symbol number (algebraics_of types.now)
        scope.old) }
    ensures fits { OnOk result (number + group_count (algebraics_of types.now) < 2 ^ 64) }
    ensures told { Tells result (group_made scope.old (algebraics_of types.now)) }
{
    let mut before = Before {
        types: IndexSet::new(alloc),
        constructors: IndexSet::new(alloc),
    };
    let mut next = number;
    declare_types(alloc, scope, &mut before, symbol, &mut next, types)?;
    bound_number(next);
    Ok(())
}

// The types of a group with their constructors, or the first fault of the types of their fields.
fn make_types(
    alloc: Global,
    store: &mut Store,
    sig: &Signature,
    scope: &Scope,
    symbol: usize,
    number: usize,
    types: &[AlgTree],
) -> Result<Seq<Alg>, NamingFault>
    requires signature { IsSignature store.old sig.now.symbols }
    requires scopes { HaveThings store.old scope.now }
    requires symbols { symbol + length types.now < 2 ^ 64 }
    requires fits { number + group_count (algebraics_of types.now) < 2 ^ 64 }
    ensures typed { IfOk result (All (AlgTyped store.new)) }
    ensures types { IfOk result (λ made. algebraics_at store.new made ≡ algebraic_trees
        (over (symbols_at store.old sig.now.symbols) (scope_at store.old scope.now) [])
        symbol number (algebraics_of types.now)) }
    ensures within { IfOk result (λ made. AreWithin (algebraics_of types.now)
        (algebraics_at store.new made)) }
    ensures free { OnOk result (types_fault
        (over (symbols_at store.old sig.now.symbols) (scope_at store.old scope.now) [])
        (algebraics_of types.now) ≡ None) }
    ensures err { IfErr result (λ fault. Tells (Err fault) (types_fault
        (over (symbols_at store.old sig.now.symbols) (scope_at store.old scope.now) [])
        (algebraics_of types.now))) }
    ensures grows { Grows store.old store.new }
{
    let mut made = Seq::new(alloc);
    let mut next = number;
    push_types(
        alloc, store, sig, scope, &mut made, symbol, &mut next, types,
    )?;
    Ok(made)
}

fn first_name(types: &[AlgTree]) -> &[u8]
    ensures { result.now ≡ first_name (algebraics_of types.now) }
{
    match types.split_first() {
        Some((first, _)) => first.name.text.as_slice(),
        None => &[],
    }
}

fn first_vars(types: &[AlgTree]) -> usize
    ensures { result ≡ first_vars (algebraics_of types.now) }
{
    match types.split_first() {
        Some((first, _)) => first.vars.len(),
        None => 0,
    }
}

// The declaration of a group, with the entries of its constructors.
fn make_group(
    alloc: Global,
    store: &mut Store,
    sig: &mut Signature,
    place: &Place<'_>,
    types: &[AlgTree],
    made: Seq<Alg>,
) -> Result<Elaborated, AllocError>
    requires signature { IsSignature store.old sig.old.symbols }
    requires typed { All (AlgTyped store.old) made }
    requires below { AreWithin (algebraics_of types.now) (algebraics_at store.old made) }
    ensures entries { OnOk result (IsExtended store.old sig.old store.new sig.new (group_entries
        place.now.theory.now place.now.within.now (algebraics_of types.now)
        (algebraics_at store.old made))) }
    ensures decls { IfOk result (λ it. declarations_at store.new it.decls ≡ record {
      theory = place.now.theory.now;
      name = place.now.within.now ++ first_name (algebraics_of types.now);
      vars = first_vars (algebraics_of types.now);
      body = Constructs (algebraics_at store.old made);
    } ∷ []) }
    ensures held { IfOk result (λ it. All (DeclHeld store.new) it.decls) }
    ensures rigid { IfOk result (λ it. it.rigid ≡ []) }
    ensures matches { IfOk result (λ it. it.matches ≡ []) }
    ensures grows { Grows store.old store.new }
{
    push_entries(alloc, store, sig, place, types, made.as_slice())?;
    let mut decls = Seq::new(alloc);
    decls.push(Decl {
        theory: Text::from_slice(alloc, place.theory)?,
        name: join_words(alloc, place.within, first_name(types))?,
        vars: first_vars(types),
        body: Body::Algebraics(made),
    })?;
    Ok(Elaborated {
        decls,
        rigid: Seq::new(alloc),
        matches: Seq::new(alloc),
    })
}

/// A group of algebraic types, which see each other. `place` is where the declaration stands.
///
/// After `Ok` the signature has its earlier entries, then those of the tuples of new widths by first appearance, of the types, and
/// type by type of the constructors, each before its projections; the innermost scope has the names of the types, of the
/// constructors and of the fields that have one. A fault is the first of the names that it makes, a name in a table of the scope twice or a type variable twice,
/// and then of the names in its fields. After a refusal the signature and the scope are used no more.
pub fn elaborate_algebraic(
    alloc: Global,
    store: &mut Store,
    sig: &mut Signature,
    scope: &mut Scope,
    place: &Place<'_>,
    types: &[AlgTree],
) -> Result<Elaborated, ElabFault>
    requires signature { IsSignature store.old sig.old.symbols }
    requires scopes { AreScopes store.old (length sig.old.symbols) scope.old }
    ensures ok { IfOk result (AreTypesElaborated (setting place.now store.old sig.old scope.old)
        (algebraics_of types.now) sig.old store.new sig.new scope.new) }
    ensures kept { IfOk result (IsKept store.new sig.new scope.new) }
    ensures err { IfErr result (IsTypesRefusal (setting place.now store.old sig.old scope.old)
        (algebraics_of types.now)) }
    ensures grows { Grows store.old store.new }
{
    let symbol = push_symbols(alloc, store, sig, place, types)?;
    let number = sig.symbols.len();
    match declare_group(alloc, scope, symbol, number, types) {
        Ok(()) => match make_types(alloc, store, sig, scope, symbol, number, types) {
            Ok(made) => {
                let elaborated = make_group(alloc, store, sig, place, types, made)?;
                Ok(elaborated)
            }
            Err(fault) => Err(naming_fault(place.decl, fault)),
        },
        Err(fault) => Err(naming_fault(place.decl, fault)),
    }
}
