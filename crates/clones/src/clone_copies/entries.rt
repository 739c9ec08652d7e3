// The entries of the symbols of copies.
// They depend on copies of entries and on signatures.
ghost use Rattle.std.specs.Prelude.{◌≡◌, ◌++◌, ◌<◌, List, length, map, slice_get, Some, All, IfOk, OnOk};
ghost use Rattle.tasks.specs.trees.Tree.{Tree};
ghost use Rattle.tasks.specs.trees.Node.{Grows};
ghost use Rattle.tasks.specs.Task.{int_symbol};
ghost use Rattle.tasks.specs.Meaning.{symbols_at, SymbolHeld};
ghost use Rattle.clones.specs.Meaning.{map_at, MapHeld, AreKnown};
ghost use Rattle.clones.specs.clone_copies.Entries.{entries_copied};

use crate::clone_elements::entry_or;
use crate::{MappedTrees, SymbolMap, copy_entry};
use std::alloc::{AllocError, Global};
use tasks::{Seq, Signature, Store, SymbolInfo};

// The entries of the copies of these symbols.
fn copy_entries(
    alloc: Global,
    store: &mut Store,
    sig: &Signature,
    morphism: &SymbolMap,
    known: &mut MappedTrees,
    theory: &[u8],
    within: &[u8],
    symbols: &[usize],
) -> Result<Vec<SymbolInfo>, AllocError>
    requires int { slice_get (symbols_at store.old sig.now.symbols) 0 ≡ Some int_symbol }
    requires entries { All (SymbolHeld store.old) sig.now.symbols }
    requires map_held { MapHeld store.old morphism.now }
    requires known { AreKnown (map_at store.old morphism.now) store.old known.old }
    ensures made { IfOk result (λ v. symbols_at store.new v.items ≡ entries_copied
        (symbols_at store.old sig.now.symbols) (map_at store.old morphism.now) theory.now within.now
        symbols.now) }
    ensures held { IfOk result (λ v. All (SymbolHeld store.new) v.items) }
    ensures known { OnOk result (AreKnown (map_at store.old morphism.now) store.new known.new) }
    ensures grows { Grows store.old store.new }
{
    let mut out = Vec::new(alloc);
    for symbol in symbols {
        let info = entry_or(sig, *symbol);
        let copy = copy_entry(alloc, store, morphism, known, theory, within, info)?;
        out.push(copy)?;
    }
    Ok(out)
}

/// The entries of the copies of these symbols come after those of a signature, in the same order. Only want of memory refuses.
pub fn push_entries(
    alloc: Global,
    store: &mut Store,
    sig: &mut Signature,
    morphism: &SymbolMap,
    known: &mut MappedTrees,
    theory: &[u8],
    within: &[u8],
    symbols: &[usize],
) -> Result<(), AllocError>
    requires int { slice_get (symbols_at store.old sig.old.symbols) 0 ≡ Some int_symbol }
    requires entries { All (SymbolHeld store.old) sig.old.symbols }
    requires map_held { MapHeld store.old morphism.now }
    requires known { AreKnown (map_at store.old morphism.now) store.old known.old }
    ensures symbols { OnOk result (symbols_at store.new sig.new.symbols
        ≡ symbols_at store.old sig.old.symbols ++ entries_copied
        (symbols_at store.old sig.old.symbols) (map_at store.old morphism.now) theory.now within.now
        symbols.now) }
    ensures ints { sig.new.ints ≡ sig.old.ints }
    ensures held { OnOk result (All (SymbolHeld store.new) sig.new.symbols) }
    ensures known { OnOk result (AreKnown (map_at store.old morphism.now) store.new known.new) }
    ensures grows { Grows store.old store.new }
{
    let copies = copy_entries(alloc, store, sig, morphism, known, theory, within, symbols)?;
    sig.symbols.append(Seq::from_vec(copies))
}
