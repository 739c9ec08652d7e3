// Maps of symbols from nothing, an entry at a time.
// They depend on maps alone; copies of theories make theirs so.
ghost use Rattle.std.specs.Prelude.{◌≡◌, ◌==◌, ℕ, List, if◌then◌else◌, Some, None, OnOk};
ghost use Rattle.trees.specs.Tree.{Tree};
ghost use Rattle.trees.specs.Node.{tree_at, Holds};
ghost use Rattle.trees.specs.Sorts.{sort_of};
ghost use Rattle.clones.specs.Mapped.{Map};
ghost use Rattle.clones.specs.Meaning.{map_at, MapHeld, AreKnown};

use crate::{MappedTrees, SymbolMap};
use indexmap::IndexMap;
use std::alloc::{AllocError, Global};
use trees::store::Store;
use trees::{Sort, TermId};

/// No mapped trees. It takes no memory.
pub fn no_trees(alloc: Global) -> MappedTrees
    ensures { (m : Map) (s : List Tree) → AreKnown m s result }
{
    IndexMap::new(alloc)
}

impl SymbolMap {
    /// The map under which each symbol stays. It takes no memory.
    pub fn new(alloc: Global) -> SymbolMap
        ensures symbols { (s : List Tree) (k : ℕ) → (map_at s result).symbols k ≡ k }
        ensures types { (s : List Tree) (k : ℕ) → (map_at s result).types k ≡ None }
        ensures held { (s : List Tree) → MapHeld s result }
    {
        SymbolMap {
            symbols: IndexMap::new(alloc),
            types: IndexMap::new(alloc),
        }
    }

    /// A symbol becomes another one. Only want of memory refuses.
    pub fn add_symbol(&mut self, symbol: usize, new: usize) -> Result<(), AllocError>
        ensures symbols { OnOk result ((s : List Tree) (k : ℕ) → (map_at s self.new).symbols k
            ≡ (if symbol == k then new else (map_at s self.old).symbols k)) }
        ensures types { OnOk result ((s : List Tree) (k : ℕ) → (map_at s self.new).types k
            ≡ (map_at s self.old).types k) }
        ensures held { (s : List Tree) → MapHeld s self.old → MapHeld s self.new }
    {
        self.symbols.insert(symbol, new)?;
        Ok(())
    }

    /// A type symbol becomes a type. Only want of memory refuses.
    pub fn add_type(&mut self, store: &Store, symbol: usize, ty: TermId) -> Result<(), AllocError>
        requires held { Holds store.now ty }
        requires kind { sort_of (tree_at store.now ty) ≡ Sort.Kind }
        ensures symbols { OnOk result ((s : List Tree) (k : ℕ) → (map_at s self.new).symbols k
            ≡ (map_at s self.old).symbols k) }
        ensures types { OnOk result ((k : ℕ) → (map_at store.now self.new).types k
            ≡ (if symbol == k then Some (tree_at store.now ty)
            else (map_at store.now self.old).types k)) }
        ensures held { OnOk result (MapHeld store.now self.old → MapHeld store.now self.new) }
    {
        let _ = store;
        self.types.insert(symbol, ty)?;
        Ok(())
    }
}
