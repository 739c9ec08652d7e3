// Symbols with their types and what they are used on, and the trees of such uses.
// They depend on names and nodes; the lines of each kind depend on them.
ghost use Rattle.std.specs.Prelude.{◌≡◌, Some, slice_get, All, IfOk, IfSome};
ghost use Rattle.std.specs.Option.{option_map, option_and_then};
ghost use Rattle.trees.specs.Tree.{Two, HPred};
ghost use Rattle.trees.specs.Node.{Holds, Grows};
ghost use Rattle.trees.specs.binders.Visits.{HoldTypes};
ghost use Rattle.tasks.specs.Meaning.{trees_at, symbol_at, task_at, SymbolHeld};
ghost use Rattle.step_lines.specs.tree_lines.Words.{at_number, texts};
ghost use Rattle.step_lines.specs.tree_lines.Named.{cells};
ghost use Rattle.step_lines.specs.tree_lines.Lines.{meaning_types, use_of, named_use, used_on, use_trees, term_of, application_tree, constructor_pattern_tree};
ghost use Rattle.step_lines.specs.tree_lines.Made.{IsTreeMade, KnownHeld, UseHeld, AreTrees, earlier_at, named_meaning, use_at};

use crate::tree_lines::known::{EarlierLines, things_at};
use crate::tree_lines::names::{Named, meaning_of};
use crate::tree_lines::nodes::{add_node, cell_list, type_list};
use name_tables::name_entries::NameOf;
use std::alloc::{AllocError, Global};
use tasks::{SymbolInfo, SymbolKind};
use trees::binders::inst_types;
use trees::store::{Node, Store, TermId};

/// A symbol with its entry, its types and what it is used on.
#[derive(Drop)]
pub(crate) struct Applied<'a> {
    pub symbol: usize,
    pub info: &'a SymbolInfo,
    pub types: Vec<TermId>,
    pub parts: Vec<TermId>,
}

/// The types at which a name stands, and those that words refer to.
pub(crate) fn all_types(
    alloc: Global,
    store: &Store,
    x: &EarlierLines<'_>,
    named: Named,
    words: &[&[u8]],
) -> Result<Option<Vec<TermId>>, AllocError>
    requires known { KnownHeld store.now x.now }
    requires named { HoldTypes store.now named.types.items }
    ensures trees { IfOk result (λ o. option_map (λ v. trees_at store.now v.items) o
        ≡ meaning_types (task_at store.now x.now.task.now) x.now.table.now
        (earlier_at store.now x.now)
        (named_meaning store.now named) (texts words.now)) }
    ensures held { IfOk result (λ o. IfSome o (λ v. HoldTypes store.now v.items)) }
{
    let Some(more) = things_at(alloc, store, x.types, words)? else {
        return Ok(None);
    };
    let mut types = named.types;
    types.extend_from_slice(&more)?;
    Ok(Some(types))
}

// A symbol's number with its entry.
#[derive(Clone, Copy)]
struct NumberedSymbol<'a> {
    number: usize,
    info: &'a SymbolInfo,
}

// The use of a symbol, by the words after its name.
fn use_of_symbol<'a>(
    alloc: Global,
    store: &Store,
    x: &EarlierLines<'_>,
    parts: &[TermId],
    named: Named,
    words: &[&[u8]],
    symbol: NumberedSymbol<'a>,
) -> Result<Option<Applied<'a>>, AllocError>
    requires known { KnownHeld store.now x.now }
    requires parts { All (Holds store.now) parts.now }
    requires named { HoldTypes store.now named.types.items }
    requires info { SymbolHeld store.now symbol.info.now }
    ensures uses { IfOk result (λ o. option_map (use_at store.now) o
        ≡ use_of (task_at store.now x.now.task.now) x.now.table.now (earlier_at store.now x.now)
        (at_number (trees_at store.now parts.now)) (named_meaning store.now named) (texts words.now)
        symbol.entry.number (symbol_at store.now symbol.entry.info.now)) }
    ensures held { IfOk result (λ o. IfSome o (UseHeld store.now)) }
{
    let count = symbol
        .info
        .vars
        .saturating_sub(named.types.len())
        .min(words.len());
    let Some(types) = all_types(alloc, store, x, named, &words[..count])? else {
        return Ok(None);
    };
    match things_at(alloc, store, parts, &words[count..])? {
        Some(parts) => Ok(Some(Applied {
            symbol: symbol.number,
            info: symbol.info,
            types,
            parts,
        })),
        None => Ok(None),
    }
}

// The entry of a symbol.
fn symbol_entry<'a>(store: &Store, x: &EarlierLines<'a>, symbol: usize) -> Option<&'a SymbolInfo>
    requires { KnownHeld store.now x.now }
    ensures tree { option_map (λ i. symbol_at store.now i.now) result
        ≡ slice_get (task_at store.now x.now.task.now).symbols symbol }
    ensures held { IfSome result (λ i. SymbolHeld store.now i.now) }
{
    let _ = store;
    x.task.sig.symbols.get(symbol)
}

// The use of what a name stands for.
fn use_of_meaning<'a>(
    alloc: Global,
    store: &Store,
    x: &EarlierLines<'a>,
    parts: &[TermId],
    words: &[&[u8]],
    named: Named,
) -> Result<Option<Applied<'a>>, AllocError>
    requires known { KnownHeld store.now x.now }
    requires parts { All (Holds store.now) parts.now }
    requires named { HoldTypes store.now named.types.items }
    ensures uses { IfOk result (λ o. option_map (use_at store.now) o
        ≡ named_use (task_at store.now x.now.task.now) x.now.table.now (earlier_at store.now x.now)
        (at_number (trees_at store.now parts.now)) (texts words.now)
        (named_meaning store.now named)) }
    ensures held { IfOk result (λ o. IfSome o (UseHeld store.now)) }
{
    let NameOf::Symbol(number) = named.symbol else {
        return Ok(None);
    };
    match symbol_entry(store, x, number) {
        Some(info) => {
            let symbol = NumberedSymbol { number, info };
            use_of_symbol(alloc, store, x, parts, named, words, symbol)
        }
        None => Ok(None),
    }
}

/// The use that words write: a name, types, and parts.
pub(crate) fn use_of_words<'a>(
    alloc: Global,
    store: &mut Store,
    x: &EarlierLines<'a>,
    parts: &[TermId],
    words: &[&[u8]],
) -> Result<Option<Applied<'a>>, AllocError>
    requires known { KnownHeld store.old x.now }
    requires parts { All (Holds store.old) parts.now }
    ensures uses { IfOk result (λ o. option_map (use_at store.new) o
        ≡ used_on (task_at store.old x.now.task.now) x.now.table.now (earlier_at store.old x.now)
        (at_number (trees_at store.old parts.now)) (texts words.now)) }
    ensures held { IfOk result (λ o. IfSome o (UseHeld store.new)) }
    ensures grows { Grows store.old store.new }
{
    let [name, rest @ ..] = words else {
        return Ok(None);
    };
    match meaning_of(alloc, store, x.names, x.table, name)? {
        Some(named) => use_of_meaning(alloc, store, x, parts, rest, named),
        None => Ok(None),
    }
}

// The lists of the types and the parts of a use, and its result at the types.
fn trees_of_use(
    alloc: Global,
    store: &mut Store,
    used: &Applied<'_>,
) -> Result<Option<(TermId, TermId, TermId)>, AllocError>
    requires { UseHeld store.old used.now }
    ensures trees { IfOk result (AreTrees store.new (use_trees (use_at store.old used.now))) }
    ensures grows { Grows store.old store.new }
{
    let Some(result) = used.info.result else {
        return Ok(None);
    };
    let ty = inst_types(alloc, store, result, &used.types)?;
    let types = type_list(store, &used.types)?;
    match cell_list(store, &used.parts)? {
        Some(parts) => Ok(Some((types, parts, ty))),
        None => Ok(None),
    }
}

// The term of a use.
fn term_of_use(
    alloc: Global,
    store: &mut Store,
    used: &Applied<'_>,
) -> Result<Option<TermId>, AllocError>
    requires { UseHeld store.old used.now }
    ensures made { IfOk result (IsTreeMade store.new (term_of (use_at store.old used.now))) }
    ensures grows { Grows store.old store.new }
{
    match trees_of_use(alloc, store, used)? {
        Some((types, args, ty)) => add_node(store, Node::Fun(used.symbol, types, args, ty)),
        None => Ok(None),
    }
}

// The formula of a use.
fn formula_of_use(store: &mut Store, used: &Applied<'_>) -> Result<Option<TermId>, AllocError>
    requires { UseHeld store.old used.now }
    ensures made { IfOk result (IsTreeMade store.new (let u = use_at store.old used.now in
        Some (Two (HPred u.symbol) (cells u.types) (cells u.parts)))) }
    ensures grows { Grows store.old store.new }
{
    let types = type_list(store, &used.types)?;
    match cell_list(store, &used.parts)? {
        Some(args) => add_node(store, Node::Pred(used.symbol, types, args)),
        None => Ok(None),
    }
}

/// The term or formula of a use.
pub(crate) fn tree_of_use(
    alloc: Global,
    store: &mut Store,
    used: &Applied<'_>,
) -> Result<Option<TermId>, AllocError>
    requires { UseHeld store.old used.now }
    ensures made { IfOk result (IsTreeMade store.new
        (application_tree (use_at store.old used.now))) }
    ensures grows { Grows store.old store.new }
{
    match used.info.kind {
        SymbolKind::Kind => Ok(None),
        SymbolKind::Predicate => formula_of_use(store, used),
        SymbolKind::Function | SymbolKind::Constructor | SymbolKind::Projection => term_of_use(
            alloc, store, used,
        ),
    }
}

/// The pattern of a use.
pub(crate) fn pattern_of_use(
    alloc: Global,
    store: &mut Store,
    used: &Applied<'_>,
) -> Result<Option<TermId>, AllocError>
    requires { UseHeld store.old used.now }
    ensures made { IfOk result (IsTreeMade store.new
        (constructor_pattern_tree (use_at store.old used.now))) }
    ensures grows { Grows store.old store.new }
{
    match trees_of_use(alloc, store, used)? {
        Some((types, parts, ty)) => add_node(store, Node::PatCon(used.symbol, types, parts, ty)),
        None => Ok(None),
    }
}
