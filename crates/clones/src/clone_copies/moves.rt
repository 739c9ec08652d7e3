// The names that a clone passes on.
// They depend on maps of symbols and on moves in scopes.
ghost use Rattle.std.specs.Prelude.{◌≡◌, List, map, All, IfOk, OnOk};
ghost use Rattle.tasks.specs.trees.Tree.{Tree};
ghost use Rattle.tasks.specs.trees.Node.{tree_at, Grows};
ghost use Rattle.elab_groups.specs.scopes.declared.Referent.TheVariants.{Alias};
ghost use Rattle.tasks.specs.Meaning.{symbols_at};
ghost use Rattle.name_resolution.specs.Naming.{meaning_at};
ghost use Rattle.clones.specs.Mapped.{mapped};
ghost use Rattle.clones.specs.Meaning.{map_at, MapHeld, AreKnown};
ghost use Rattle.open_types.specs.Drafts.{HoldsType, MeaningHeld};
ghost use Rattle.theory_states.specs.Meaning.{move_at, MoveHeld};
ghost use Rattle.clones.specs.clone_copies.Moves.{type_symbol_mapped, thing_mapped, move_mapped, moves_mapped};

use crate::clone_elements::vars_of;
use crate::{MappedTrees, SymbolMap, map_symbol, map_tree};
use elab_groups::parts::{Table, TypeName};
use std::alloc::{AllocError, Global};
use tasks::{Signature, Store, TermId};
use theory_states::Move;

// The name of a type at so many type variables.
fn alias_of(vars: usize, ty: TermId) -> TypeName
    ensures { result ≡ Alias vars ty.0 }
{
    TypeName::Alias { vars, ty: ty.0 }
}

// What the name of a type symbol stands for in the copy.
fn map_type_symbol(store: &Store, morphism: &SymbolMap, vars: usize, symbol: usize) -> TypeName
    requires { MapHeld store.now morphism.now }
    ensures is { meaning_at store.now result ≡ type_symbol_mapped vars
        ((map_at store.now morphism.now).types symbol)
        ((map_at store.now morphism.now).symbols symbol) }
    ensures result_held { MeaningHeld store.now result }
{
    match morphism.types.get(&symbol) {
        Some(ty) => alias_of(vars, *ty),
        None => TypeName::Entry(map_symbol(store, morphism, symbol)),
    }
}

// What the name of a type stands for in the copy, where it is an alias.
fn map_alias(
    alloc: Global,
    store: &mut Store,
    morphism: &SymbolMap,
    known: &mut MappedTrees,
    vars: usize,
    ty: TermId,
) -> Result<TypeName, AllocError>
    requires map_held { MapHeld store.old morphism.now }
    requires known { AreKnown (map_at store.old morphism.now) store.old known.old }
    requires held { HoldsType store.old ty }
    ensures is { IfOk result (λ v. meaning_at store.new v ≡ Alias vars
        (mapped (map_at store.old morphism.now) (tree_at store.old ty))) }
    ensures result_held { IfOk result (MeaningHeld store.new) }
    ensures known { OnOk result (AreKnown (map_at store.old morphism.now) store.new known.new) }
    ensures grows { Grows store.old store.new }
{
    let made = map_tree(alloc, store, morphism, known, ty)?;
    Ok(alias_of(vars, made))
}

// What a name stands for in the copy.
fn map_thing(
    alloc: Global,
    store: &mut Store,
    sig: &Signature,
    morphism: &SymbolMap,
    known: &mut MappedTrees,
    table: Table,
    thing: TypeName,
) -> Result<TypeName, AllocError>
    requires map_held { MapHeld store.old morphism.now }
    requires known { AreKnown (map_at store.old morphism.now) store.old known.old }
    requires held { MeaningHeld store.old thing }
    ensures is { IfOk result (λ v. (s : List Tree) → meaning_at store.new v ≡ thing_mapped
        (symbols_at s sig.now.symbols) (map_at store.old morphism.now) table
        (meaning_at store.old thing)) }
    ensures result_held { IfOk result (MeaningHeld store.new) }
    ensures known { OnOk result (AreKnown (map_at store.old morphism.now) store.new known.new) }
    ensures grows { Grows store.old store.new }
{
    match table {
        Table::Types => match thing {
            TypeName::Entry(symbol) => {
                Ok(map_type_symbol(store, morphism, vars_of(sig, symbol), symbol))
            }
            TypeName::Alias { vars, ty } => map_alias(
                alloc,
                store,
                morphism,
                known,
                vars,
                TermId(ty),
            ),
        },
        Table::Symbols => match thing {
            TypeName::Entry(symbol) => Ok(TypeName::Entry(map_symbol(store, morphism, symbol))),
            TypeName::Alias { vars, ty } => Ok(TypeName::Alias { vars, ty }),
        },
        Table::Propositions => Ok(thing),
        Table::Scopes => Ok(thing),
    }
}

// A move in the copy.
fn map_move(
    alloc: Global,
    store: &mut Store,
    sig: &Signature,
    morphism: &SymbolMap,
    known: &mut MappedTrees,
    step: &Move<usize>,
) -> Result<Move<usize>, AllocError>
    requires map_held { MapHeld store.old morphism.now }
    requires known { AreKnown (map_at store.old morphism.now) store.old known.old }
    requires held { MoveHeld store.old step.now }
    ensures is { IfOk result (λ v. (s : List Tree) → move_at store.new v ≡ move_mapped
        (symbols_at s sig.now.symbols) (map_at store.old morphism.now)
        (move_at store.old step.now)) }
    ensures result_held { IfOk result (MoveHeld store.new) }
    ensures known { OnOk result (AreKnown (map_at store.old morphism.now) store.new known.new) }
    ensures grows { Grows store.old store.new }
{
    match step {
        Move::Brings(table, name, thing) => {
            let made = map_thing(alloc, store, sig, morphism, known, *table, *thing)?;
            let name = name.clone()?;
            Ok(Move::Brings(*table, name, made))
        }
        Move::Opens(name) => {
            let name = name.clone()?;
            Ok(Move::Opens(name))
        }
        Move::Closes => Ok(Move::Closes),
    }
}

/// The moves in the copy, in order. Only want of memory refuses.
pub fn map_moves(
    alloc: Global,
    store: &mut Store,
    sig: &Signature,
    morphism: &SymbolMap,
    known: &mut MappedTrees,
    moves: &[Move<usize>],
) -> Result<Vec<Move<usize>>, AllocError>
    requires map_held { MapHeld store.old morphism.now }
    requires known { AreKnown (map_at store.old morphism.now) store.old known.old }
    requires held { All (MoveHeld store.old) moves.now }
    ensures are { IfOk result (λ v. (s : List Tree) → map (move_at store.new) v.items
        ≡ moves_mapped (symbols_at s sig.now.symbols) (map_at store.old morphism.now)
        (map (move_at store.old) moves.now)) }
    ensures result_held { IfOk result (λ v. All (MoveHeld store.new) v.items) }
    ensures known { OnOk result (AreKnown (map_at store.old morphism.now) store.new known.new) }
    ensures grows { Grows store.old store.new }
{
    let mut out = Vec::new(alloc);
    for step in moves {
        let copy = map_move(alloc, store, sig, morphism, known, step)?;
        out.push(copy)?;
    }
    Ok(out)
}
