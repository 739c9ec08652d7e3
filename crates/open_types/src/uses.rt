// Uses of names: variables, and symbols at unknowns.
// They depend on drafts and on types; the walk depends on them.
ghost use Rattle.std.specs.Prelude.{◌≡◌, List, IfOk, IfSome, false, All, option_map};
ghost use Rattle.std.specs.Option.{option_copied};
ghost use Rattle.trees.specs.Tree.{Tree};
ghost use Rattle.trees.specs.Node.{tree_at, Holds, Grows};
ghost use Rattle.trees.specs.Sorts.{IsList};
ghost use Rattle.trees.specs.declared.Sort.TheVariants.{Term};
ghost use Rattle.tasks.specs.Meaning.{trees_at};
ghost use Rattle.open_types.specs.Patterns.{first_or_int, rest_of};
ghost use Rattle.open_types.specs.Pieces.{local_piece, symbol_at_types};
ghost use Rattle.open_types.specs.Drafts.{HoldsType, SymbolTyped, due, is_due, IsReady, IsMade, IsWalked, IsBegun, instances, symbol_got};

use crate::draft::{Constraints, equate, make, unknowns};
use crate::types::{int, list_of, put_types, result_type};
use std::alloc::{AllocError, Global};
use tasks::SymbolInfo;
use trees::store::{Grow, Node, Store, TermId};

/// A variable of a place and a type. More places than there are numbers are want of memory.
pub fn walk_local(
    store: &mut Store,
    draft: &mut Constraints,
    place: usize,
    ty: TermId,
    wanted: Option<TermId>,
) -> Result<TermId, AllocError>
    requires ty { HoldsType store.old ty }
    requires wanted { IfSome wanted (HoldsType store.old) }
    requires ready { IsReady store.old draft.old }
    requires term { is_due wanted ≡ false }
    ensures walked { IfOk result (IsWalked (local_piece place (tree_at store.old ty) (option_map
        (tree_at store.old) wanted)) (due wanted) store.old draft.old store.new draft.new) }
    ensures grows { Grows store.old store.new }
{
    if place == usize::MAX {
        return Err(AllocError);
    }
    equate(store, draft, ty, wanted)?;
    make(store, draft, Node::Bound(place, ty))
}

// The number of an entry's type variables.
fn entry_vars(info: Option<&SymbolInfo>) -> usize
    ensures { (s : List Tree) → result ≡ (symbol_got s (option_copied info.entry)).vars }
{
    match info {
        Some(info) => info.vars,
        None => 0,
    }
}

/// The types of an entry's arguments.
pub fn entry_args(info: Option<&SymbolInfo>) -> &[TermId]
    ensures trees { (s : List Tree) → trees_at s result.now
        ≡ (symbol_got s (option_copied info.entry)).args }
    ensures held { (s : List Tree) → IfSome (option_copied info.entry) (SymbolTyped s)
        → All (HoldsType s) result.now }
{
    match info {
        Some(info) => info.args.as_slice(),
        None => &[],
    }
}

/// The unknowns of a use of a symbol, and the equation of its result.
pub fn begin_use(
    alloc: Global,
    store: &mut Store,
    draft: &mut Constraints,
    token: usize,
    info: Option<&SymbolInfo>,
    wanted: Option<TermId>,
) -> Result<Vec<TermId>, AllocError>
    requires info { IfSome (option_copied info) (SymbolTyped store.old) }
    requires wanted { IfSome wanted (HoldsType store.old) }
    requires ready { IsReady store.old draft.old }
    ensures begun { IfOk result (λ types. IsBegun store.old draft.old store.new draft.new token
        (symbol_got store.old (option_copied info.entry)) (option_map (tree_at store.old) wanted)
        types.items) }
    ensures grows { Grows store.old store.new }
{
    let result = result_type(store, info);
    let types = unknowns(alloc, store, draft, token, entry_vars(info))?;
    let ty = put_types(alloc, store, result, types.as_slice())?;
    equate(store, draft, ty, wanted)?;
    Ok(types)
}

/// Types at types.
pub fn types_put(
    alloc: Global,
    store: &mut Store,
    args: &[TermId],
    types: &[TermId],
) -> Result<Vec<TermId>, AllocError>
    requires args { All (HoldsType store.old) args.now }
    requires types { All (HoldsType store.old) types.now }
    ensures held { IfOk result (λ them. All (HoldsType store.new) them.items) }
    ensures trees { IfOk result (λ them. trees_at store.new them.items ≡ instances (trees_at
        store.old types.now) (trees_at store.old args.now)) }
    ensures grows { Grows store.old store.new }
{
    let mut them = Vec::new(alloc);
    for arg in args {
        let ty = put_types(alloc, store, *arg, types)?;
        them.push(ty)?;
    }
    Ok(them)
}

/// A symbol at types before arguments: a term of a type, or a formula.
pub fn finish_use(
    store: &mut Store,
    draft: &Constraints,
    symbol: usize,
    types: &[TermId],
    args: TermId,
    wanted: Option<TermId>,
) -> Result<TermId, AllocError>
    requires types { All (HoldsType store.old) types.now }
    requires args { Holds store.old args }
    requires terms { IsList Term (tree_at store.old args) }
    requires wanted { IfSome wanted (HoldsType store.old) }
    requires ready { IsReady store.old draft.now }
    ensures made { IfOk result (IsMade store.old draft.now store.new
        (symbol_at_types symbol (trees_at
        store.old types.now) (option_map (tree_at store.old) wanted) (tree_at store.old args))) }
    ensures grows { Grows store.old store.new }
{
    let list = list_of(store, types)?;
    match wanted {
        Some(ty) => make(store, draft, Node::Fun(symbol, list, args, ty)),
        None => make(store, draft, Node::Pred(symbol, list, args)),
    }
}

/// The first of some types, or `int`.
pub fn first_type(store: &Store, types: &[TermId]) -> TermId
    requires { All (HoldsType store.now) types.now }
    ensures held { HoldsType store.now result }
    ensures tree { tree_at store.now result ≡ first_or_int (trees_at store.now types.now) }
{
    match types.first() {
        Some(ty) => *ty,
        None => int(store),
    }
}

/// The types after the first.
pub fn other_types(types: &[TermId]) -> &[TermId]
    ensures { result.now ≡ rest_of types.now }
{
    match types.split_first() {
        Some((_, rest)) => rest,
        None => types,
    }
}
