// The types of the fields of a group, or the first fault of their names.
ghost use Rattle.std.specs.Prelude.{◌≡◌, ◌++◌, ◌+◌, ◌<◌, ◌^◌, ◌∷◌, [], ℕ, List, None, length, map, false, All, IfOk, IfErr, OnOk, Err};
ghost use Rattle.trees.specs.Tree.{Tree};
ghost use Rattle.trees.specs.Node.{Grows};
ghost use Rattle.tasks.specs.Meaning.{symbols_at, trees_at, con_at, cons_at, algebraics_at};
ghost use Rattle.name_resolution.specs.Naming.{where_at, Tells, scope_at};
ghost use Rattle.open_types.specs.Drafts.{HoldsType, WorldHeld};
ghost use Rattle.elab_groups.specs.parts.Declarations.{word, words, params_fault, constructors_fault, types_fault};
ghost use Rattle.elab_groups.specs.members.Members.{parameter_types};
ghost use Rattle.elab_groups.specs.members.Sources.{parameters_of};
ghost use Rattle.elab_declarations.specs.type_declarations.Algebraics.{constructors_in, constructors_of, algebraics_of, count_fields, entry_count, group_count, numbering_from, constructor_trees, algebraic_trees};
ghost use Rattle.elab_groups.specs.parts.Entries.{tuple_in, IsSignature};
ghost use Rattle.elab_groups.specs.parts.Outcomes.{over};
ghost use Rattle.elab_declarations.specs.type_declarations.Held.{ConTyped, AlgTyped, HaveThings};

use elab_groups::members::{check_params, push_params};
use elab_groups::parts::texts_of;
use name_resolution::{NamingFault, World};
use scopes::{Scope, Seq, Text};
use std::alloc::{AllocError, Global};
use surface::{AlgTree, ConTree, ParamTree};
use tasks::{Alg, Con, Signature};
use trees::store::{Store, TermId};

// A number for each of these types, from one on.
fn push_numbers(numbers: &mut Vec<usize>, number: usize, types: &[TermId]) -> Result<(), AllocError>
    requires { number + length types.now < 2 ^ 64 }
    ensures { OnOk result ((s : List Tree) → numbers.new.items ≡ numbers.old.items ++ numbering_from
        number (trees_at s types.now)) }
{
    let Some((_, rest)) = types.split_first() else {
        return Ok(());
    };
    numbers.push(number)?;
    push_numbers(numbers, number + 1, rest)
}

// A constructor of a number.
fn make_constructor(
    alloc: Global,
    store: &mut Store,
    world: &World<'_>,
    number: usize,
    fields: &[ParamTree],
) -> Result<Con, NamingFault>
    requires world { WorldHeld store.old world.now }
    requires closed { world.now.new_vars ≡ false }
    requires fits { number + (count_fields (parameters_of fields.now) + 1) < 2 ^ 64 }
    ensures typed { IfOk result (ConTyped store.new) }
    ensures con { IfOk result (λ it. con_at store.new it ≡ record {
      symbol = number;
      fields = parameter_types (where_at store.old world.now) (parameters_of fields.now);
      projections = numbering_from (number + 1) (parameter_types (where_at store.old world.now)
          (parameters_of fields.now));
    }) }
    ensures count { IfOk result (λ it. length it.fields ≡ count_fields (parameters_of
        fields.now)) }
    ensures free { OnOk result (params_fault (where_at store.old world.now) false (parameters_of
        fields.now) ≡ None) }
    ensures err { IfErr result (λ fault. Tells (Err fault) (params_fault
        (where_at store.old world.now) false (parameters_of fields.now))) }
    ensures grows { Grows store.old store.new }
{
    check_params(alloc, fields, world)?;
    let mut types = Vec::new(alloc);
    push_params(alloc, store, &mut types, fields, world)?;
    let mut projections = Vec::new(alloc);
    push_numbers(&mut projections, number + 1, types.as_slice())?;
    Ok(Con {
        symbol: number,
        fields: Seq::from_vec(types),
        projections: Seq::from_vec(projections),
    })
}

// Constructors from a number on, after those that are there.
fn push_constructors(
    alloc: Global,
    store: &mut Store,
    world: &World<'_>,
    made: &mut Seq<Con>,
    number: &mut usize,
    cons: &[ConTree],
) -> Result<(), NamingFault>
    requires world { WorldHeld store.old world.now }
    requires closed { world.now.new_vars ≡ false }
    requires made { All (ConTyped store.old) made.old }
    requires fits { number.old + entry_count (constructors_of cons.now) < 2 ^ 64 }
    ensures typed { OnOk result (All (ConTyped store.new) made.new) }
    ensures cons { OnOk result (cons_at store.new made.new ≡ cons_at store.old made.old
        ++ constructor_trees
        (where_at store.old world.now) number.old (constructors_of cons.now)) }
    ensures number { OnOk result (number.new ≡ number.old + entry_count (constructors_of
        cons.now)) }
    ensures told { Tells result (constructors_fault (where_at store.old world.now) (constructors_of
        cons.now)) }
    ensures grows { Grows store.old store.new }
{
    let Some((first, rest)) = cons.split_first() else {
        return Ok(());
    };
    let con = make_constructor(alloc, store, world, *number, first.fields.as_slice())?;
    *number += con.fields.len() + 1;
    made.push(con)?;
    push_constructors(alloc, store, world, made, number, rest)
}

// The constructors of a type from a number on, after those that are there.
fn push_alternatives(
    alloc: Global,
    store: &mut Store,
    world: &World<'_>,
    made: &mut Seq<Con>,
    number: &mut usize,
    of: &AlgTree,
) -> Result<(), NamingFault>
    requires world { WorldHeld store.old world.now }
    requires closed { world.now.new_vars ≡ false }
    requires made { All (ConTyped store.old) made.old }
    requires fits { number.old + entry_count (constructors_in of.now) < 2 ^ 64 }
    ensures typed { OnOk result (All (ConTyped store.new) made.new) }
    ensures cons { OnOk result (cons_at store.new made.new ≡ cons_at store.old made.old
        ++ constructor_trees
        (where_at store.old world.now) number.old (constructors_in of.now)) }
    ensures number { OnOk result (number.new ≡ number.old + entry_count (constructors_in of.now)) }
    ensures told { Tells result (constructors_fault (where_at store.old world.now) (constructors_in
        of.now)) }
    ensures grows { Grows store.old store.new }
{
    let fields = of.fields.as_slice();
    if let [_, ..] = fields {
        let con = make_constructor(alloc, store, world, *number, fields)?;
        *number += con.fields.len() + 1;
        made.push(con)?;
        return Ok(());
    }
    push_constructors(alloc, store, world, made, number, of.cons.as_slice())
}

// What names mean over a signature and scopes with these type variables and no others.
fn world_of<'a>(sig: &'a Signature, scope: &'a Scope, vars: &'a [Text]) -> World<'a>
    ensures names { (s : List Tree) → where_at s result ≡ over (symbols_at s sig.now.symbols)
        (scope_at s scope.now) vars.now }
    ensures closed { result.new_vars ≡ false }
    ensures held { (s : List Tree) → IsSignature s sig.now.symbols → HaveThings s scope.now
        → WorldHeld s result }
{
    World {
        symbols: sig.symbols.as_slice(),
        scope,
        vars,
        new_vars: false,
    }
}

// The constructors of a type from a number on.
fn make_constructors(
    alloc: Global,
    store: &mut Store,
    sig: &Signature,
    scope: &Scope,
    number: &mut usize,
    source: &AlgTree,
) -> Result<Seq<Con>, NamingFault>
    requires signature { IsSignature store.old sig.now.symbols }
    requires scopes { HaveThings store.old scope.now }
    requires fits { number.old + entry_count (constructors_in source.now) < 2 ^ 64 }
    ensures typed { IfOk result (All (ConTyped store.new)) }
    ensures cons { IfOk result (λ made. cons_at store.new made ≡ constructor_trees
        (over (symbols_at store.old sig.now.symbols) (scope_at store.old scope.now)
        (words (map word source.now.vars))) number.old (constructors_in source.now)) }
    ensures number { OnOk result (number.new ≡ number.old + entry_count (constructors_in
        source.now)) }
    ensures free { OnOk result (constructors_fault
        (over (symbols_at store.old sig.now.symbols) (scope_at store.old scope.now)
        (words (map word source.now.vars))) (constructors_in source.now) ≡ None) }
    ensures err { IfErr result (λ fault. Tells (Err fault) (constructors_fault
        (over (symbols_at store.old sig.now.symbols) (scope_at store.old scope.now)
        (words (map word source.now.vars))) (constructors_in source.now))) }
    ensures grows { Grows store.old store.new }
{
    let vars = texts_of(alloc, source.vars.as_slice())?;
    let world = world_of(sig, scope, vars.as_slice());
    let mut made = Seq::new(alloc);
    push_alternatives(alloc, store, &world, &mut made, number, source)?;
    Ok(made)
}

/// The types of a group from a number on, with their constructors from another, after those that are there.
pub fn push_types(
    alloc: Global,
    store: &mut Store,
    sig: &Signature,
    scope: &Scope,
    made: &mut Seq<Alg>,
    symbol: usize,
    number: &mut usize,
    types: &[AlgTree],
) -> Result<(), NamingFault>
    requires signature { IsSignature store.old sig.now.symbols }
    requires scopes { HaveThings store.old scope.now }
    requires made { All (AlgTyped store.old) made.old }
    requires symbols { symbol + length types.now < 2 ^ 64 }
    requires fits { number.old + group_count (algebraics_of types.now) < 2 ^ 64 }
    ensures typed { OnOk result (All (AlgTyped store.new) made.new) }
    ensures types { OnOk result (algebraics_at store.new made.new ≡ algebraics_at store.old
        made.old ++ algebraic_trees
        (over (symbols_at store.old sig.now.symbols) (scope_at store.old scope.now) [])
        symbol number.old (algebraics_of types.now)) }
    ensures told { Tells result (types_fault
        (over (symbols_at store.old sig.now.symbols) (scope_at store.old scope.now) [])
        (algebraics_of types.now)) }
    ensures grows { Grows store.old store.new }
{
    let Some((first, rest)) = types.split_first() else {
        return Ok(());
    };
    let cons = make_constructors(alloc, store, sig, scope, number, first)?;
    made.push(Alg { symbol, cons })?;
    push_types(alloc, store, sig, scope, made, symbol + 1, number, rest)
}
