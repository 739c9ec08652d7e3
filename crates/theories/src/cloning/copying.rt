// The copies of a clone, from what its elements replace.
// They depend on copies and on what is known of theories.
ghost use Rattle.std.specs.Prelude.{◌≡◌, map, All, IfOk, OnOk};
ghost use Rattle.std.specs.Option.{option_copied};
ghost use Rattle.tasks.specs.trees.Node.{Grows};
ghost use Rattle.tasks.specs.Meaning.{symbols_at};
ghost use Rattle.clones.specs.Meaning.{map_at, MapHeld, AreKnown};
ghost use Rattle.elab_groups.specs.parts.Entries.{IsSignature, IsExtended};
ghost use Rattle.theory_states.specs.Meaning.{move_at, state_at, MoveHeld, StateHeld};
ghost use Rattle.clones.specs.clone_elements.Origins.{origin_at};
ghost use Rattle.clones.specs.clone_elements.Meaning.{TypeForHeld};
ghost use Rattle.clones.specs.clone_copies.Entries.{entries_copied};
ghost use Rattle.clones.specs.clone_copies.Moves.{moves_mapped};
ghost use Rattle.theories.specs.cloning.Cloned.{within_of};
ghost use Rattle.theories.specs.cloning.Owned.{known_theory_at};
ghost use Rattle.theories.specs.cloning.ReadElements.{kept_by, map_by, copying_by};
ghost use Rattle.theories.specs.cloning.Copied.{IsRenaming, IsRenamingBy, IsKeptEntry, IsCopyReady, AreContents, with_theory};

use crate::cloning::own::{Own, source_of, within_of};
use clones::clone_copies::{
    CopiedBy, MappedTrees as Trees, SymbolMap, copy_places, map_moves, no_trees, push_entries,
};
use clones::clone_elements::{ClonedTheory, Replacement, kept_symbols, map_of};
use std::alloc::{AllocError, Global};
use surface::Link;
use tasks::{Signature, Store};
use theory_states::{Move, Opened, Typed, bring_names};

/// The map of a clone, and the symbols that become new ones, in order.
#[derive(Drop)]
pub(crate) struct Renaming {
    pub(crate) symbols: Vec<usize>,
    pub(crate) morphism: SymbolMap,
}

// The map of a clone from what its elements replace. Only want of memory refuses.
fn rename(
    alloc: Global,
    store: &Store,
    sig: &Signature,
    source: &ClonedTheory<'_>,
    replacement: &Replacement,
) -> Result<Renaming, AllocError>
    requires { All (TypeForHeld store.now) replacement.now.types.items }
    ensures { IfOk result (IsRenaming store.now (map_by store.now
        (symbols_at store.now sig.now.symbols) (origin_at store.now source.now) replacement.now)
        (kept_by (origin_at store.now source.now) replacement.now)) }
{
    let symbols = kept_symbols(alloc, source, &replacement.effects)?;
    let first = sig.symbols.len();
    let morphism = map_of(
        alloc,
        store,
        replacement.types.as_slice(),
        replacement.symbols.as_slice(),
        first,
        symbols.as_slice(),
    )?;
    Ok(Renaming { symbols, morphism })
}

// The names that a theory passes on are mapped, and the entries of the copies come after those of the signature. Only want of memory
// refuses.
fn copy_symbols(
    alloc: Global,
    store: &mut Store,
    sig: &mut Signature,
    made: &Renaming,
    trees: &mut Trees,
    moves: &[Move<usize>],
    path: &[u8],
    within: &[u8],
) -> Result<Vec<Move<usize>>, AllocError>
    requires signature { IsSignature store.old sig.old.symbols }
    requires map_held { MapHeld store.old made.now.morphism }
    requires known { AreKnown (map_at store.old made.now.morphism) store.old trees.old }
    requires moves { All (MoveHeld store.old) moves.now }
    requires kept { All IsKeptEntry (entries_copied (symbols_at store.old sig.old.symbols)
        (map_at store.old made.now.morphism) path.now within.now made.now.symbols.items) }
    ensures entries { OnOk result (IsExtended store.old sig.old store.new sig.new (entries_copied
        (symbols_at store.old sig.old.symbols) (map_at store.old made.now.morphism) path.now
        within.now made.now.symbols.items)) }
    ensures moves { IfOk result (λ v. map (move_at store.new) v.items ≡ moves_mapped
        (symbols_at store.old sig.old.symbols) (map_at store.old made.now.morphism)
        (map (move_at store.old) moves.now)) }
    ensures moves_held { IfOk result (λ v. All (MoveHeld store.new) v.items) }
    ensures known { OnOk result (AreKnown (map_at store.old made.now.morphism) store.new
        trees.new) }
    ensures grows { Grows store.old store.new }
{
    let mapped = map_moves(alloc, store, sig, &made.morphism, trees, moves)?;
    push_entries(
        alloc,
        store,
        sig,
        &made.morphism,
        trees,
        path,
        within,
        made.symbols.as_slice(),
    )?;
    Ok(mapped)
}

// The copies of a theory's symbols and declarations under a map, and the names that they pass on. Only want of memory refuses.
// Of `type t  constant c: t  axiom a: c = c`, cloned `with type t = int`, the map takes `t` to `int` and `c` to a new entry of
// type `int`; the copies are the declaration of that entry and the axiom about it, and no type is declared.
fn copy_renamed(
    alloc: Global,
    store: &mut Store,
    typed: &mut Typed,
    open: &mut Opened,
    theory: usize,
    own: &Own,
    replacement: &Replacement,
    within: &[u8],
    made: &Renaming,
    trees: &mut Trees,
) -> Result<Vec<Move<usize>>, AllocError>
    requires ready { IsCopyReady store.old typed.old open.old theory own.now replacement.now
        within.now }
    requires made { IsRenamingBy store.old typed.old theory replacement.now made.now }
    requires known { AreKnown (map_at store.old made.now.morphism) store.old trees.old }
    ensures copies { IfOk result (λ v. AreContents (known_theory_at store.old typed.old theory)
        (copying_by store.old (state_at store.old typed.old open.old)
        (known_theory_at store.old typed.old theory) replacement.now within.now)
        (map (move_at store.new) v.items) (state_at store.old typed.old open.old)
        (state_at store.new typed.new open.new)) }
    ensures moves_held { IfOk result (λ v. All (MoveHeld store.new) v.items) }
    ensures held { OnOk result (StateHeld store.new typed.new open.new) }
    ensures grows { Grows store.old store.new }
{
    let known = &typed.known.as_slice()[theory];
    let moves = copy_symbols(
        alloc,
        store,
        &mut typed.sig,
        made,
        trees,
        known.moves.as_slice(),
        open.path.as_slice(),
        within,
    )?;
    let given = CopiedBy {
        path: own.path.as_slice(),
        axioms: &own.axioms,
        replacement,
        morphism: &made.morphism,
        within,
    };
    copy_places(
        alloc,
        store,
        typed,
        open,
        &given,
        trees,
        own.visible.as_slice(),
    )?;
    Ok(moves)
}

// The copies of a theory's symbols and declarations, and the names that they pass on. Only want of memory refuses.
fn copy_contents(
    alloc: Global,
    store: &mut Store,
    typed: &mut Typed,
    open: &mut Opened,
    theory: usize,
    own: &Own,
    replacement: &Replacement,
    within: &[u8],
) -> Result<Vec<Move<usize>>, AllocError>
    requires { IsCopyReady store.old typed.old open.old theory own.now replacement.now within.now }
    ensures copies { IfOk result (λ v. AreContents (known_theory_at store.old typed.old theory)
        (copying_by store.old (state_at store.old typed.old open.old)
        (known_theory_at store.old typed.old theory) replacement.now within.now)
        (map (move_at store.new) v.items) (state_at store.old typed.old open.old)
        (state_at store.new typed.new open.new)) }
    ensures moves_held { IfOk result (λ v. All (MoveHeld store.new) v.items) }
    ensures held { OnOk result (StateHeld store.new typed.new open.new) }
    ensures grows { Grows store.old store.new }
{
    let source = source_of(typed.decls.as_slice(), own);
    let made = rename(alloc, store, &typed.sig, &source, replacement)?;
    let mut trees = no_trees(alloc);
    copy_renamed(
        alloc,
        store,
        typed,
        open,
        theory,
        own,
        replacement,
        within,
        &made,
        &mut trees,
    )
}

/// The copies of a theory, whose names come into scopes as by `use`. Only want of memory refuses.
pub(crate) fn copy_theory(
    alloc: Global,
    store: &mut Store,
    typed: &mut Typed,
    open: &mut Opened,
    theory: usize,
    own: &Own,
    replacement: &Replacement,
    link: Link,
    last: &[u8],
    alias: Option<&[u8]>,
) -> Result<(), AllocError>
    requires { IsCopyReady store.old typed.old open.old theory own.now replacement.now
        (within_of link last.now (option_copied alias) open.old.within.items) }
    ensures copied { OnOk result (state_at store.new typed.new open.new ≡ with_theory link last.now
        (option_copied alias.entry) (known_theory_at store.old typed.old theory) (copying_by
        store.old (state_at store.old typed.old open.old)
        (known_theory_at store.old typed.old theory) replacement.now
        (within_of link last.now (option_copied alias.entry) open.old.within.items))
        (state_at store.old typed.old open.old)) }
    ensures held { OnOk result (StateHeld store.new typed.new open.new) }
    ensures grows { Grows store.old store.new }
{
    let within = within_of(alloc, open.within.as_slice(), link, last, alias)?;
    let moves = copy_contents(
        alloc,
        store,
        typed,
        open,
        theory,
        own,
        replacement,
        within.as_slice(),
    )?;
    bring_names(open, moves.as_slice(), link, last, alias)
}
