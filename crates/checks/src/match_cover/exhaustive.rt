// The cover of patterns: their table is split by the constructors of its first column until no column is left.
// It depends on rows of patterns and the constructors of types.
ghost use Rattle.std.specs.Prelude.{◌≡◌, ◌+◌, ◌≤◌, ◌++◌, ◌↔◌, [], None, length, All, map, IfOk, IfSome, OnOk};
ghost use Rattle.std.specs.Option.{option_map};
ghost use Rattle.trees.specs.Node.{Holds};
ghost use Rattle.tasks.specs.Task.{symbol_or};
ghost use Rattle.tasks.specs.Meaning.{trees_at, symbols_at, SymbolHeld};
ghost use Rattle.checks.specs.match_cover.Shapes.{unspecified, IsPattern, HaveOneType, AreExhaustive, Escapes};
ghost use Rattle.checks.specs.match_cover.Tables.{IsTable, Answered, Splits};
ghost use Rattle.checks.specs.match_cover.Meaning.{shape_of, shapes_of, table_at, TableHeld, single_pattern};

use crate::match_cover::ValueShape;
use crate::match_cover::constructors::constructors_of;
use crate::match_cover::patterns::{column_told, some_irrefutable, specialize_rows};
use crate::match_cover::shape::{after_unknown, unknown_shape, unknowns, with_built};
use std::alloc::{AllocError, Global};
use tasks::{Seq, Signature};
use trees::TermId;
use trees::store::Store;

// The constructors that a column is split by: none where no pattern in it has one.
fn splits(
    alloc: Global,
    store: &Store,
    sig: &Signature,
    rows: &[Seq<TermId>],
    at: usize,
) -> Result<Vec<usize>, AllocError>
    requires held { TableHeld store.now rows.now }
    requires symbols_held { All (SymbolHeld store.now) sig.now.symbols }
    ensures { IfOk result (λ v. Splits (symbols_at store.now sig.now.symbols)
        (table_at store.now at rows.now) v.items) }
{
    match column_told(store, rows, at) {
        Some(symbol) => constructors_of(alloc, store, sig, symbol),
        None => Ok(Vec::new(alloc)),
    }
}

// The number of a constructor's fields.
fn arity_of(store: &Store, sig: &Signature, con: usize) -> usize
    ensures { result ≡ length (symbol_or (symbols_at store.now sig.now.symbols) con).args }
{
    let _ = store;
    match sig.symbols.get(con) {
        Some(info) => info.args.len(),
        None => 0,
    }
}

// Shapes, one for each of so many columns from a place on, that no row takes; none where each is taken.
fn missed_shapes(
    alloc: Global,
    store: &Store,
    sig: &Signature,
    rows: &[Seq<TermId>],
    at: usize,
    columns: usize,
) -> Result<Option<Vec<ValueShape>>, AllocError>
    requires held { TableHeld store.now rows.now }
    requires symbols_held { All (SymbolHeld store.now) sig.now.symbols }
    requires fits { at + columns ≤ usize.MAX }
    requires table { IsTable (symbols_at store.now sig.now.symbols) columns
        (table_at store.now at rows.now) }
    ensures { IfOk result (λ o. Answered (symbols_at store.now sig.now.symbols) columns
        (table_at store.now at rows.now) (option_map (λ v. shapes_of v.items) o)) }
{
    if rows.is_empty() {
        let all = unknowns(alloc, columns)?;
        return Ok(Some(all));
    }
    if columns == 0 {
        return Ok(None);
    }
    if some_irrefutable(store, rows, at) {
        return Ok(None);
    }
    let cons = splits(alloc, store, sig, rows, at)?;
    let found = cons.as_slice();
    if found.is_empty() {
        let rest = missed_shapes(alloc, store, sig, rows, at + 1, columns - 1)?;
        let whole = after_unknown(alloc, rest)?;
        return Ok(whole);
    }
    for con in found {
        let arity = arity_of(store, sig, *con);
        let left = specialize_rows(alloc, store, rows, at, *con, arity)?;
        let more = match arity.checked_add(columns - 1) {
            Some(more) => more,
            None => return Err(AllocError),
        };
        match missed_shapes(alloc, store, sig, left.as_slice(), 0, more)? {
            Some(shapes) => {
                let whole = with_built(alloc, *con, arity, shapes)?;
                return Ok(Some(whole));
            }
            None => {}
        }
    }
    Ok(None)
}

// A row of each pattern alone, after others.
fn push_alone(
    alloc: Global,
    patterns: &[TermId],
    out: &mut Vec<Seq<TermId>>,
) -> Result<(), AllocError>
    ensures { OnOk result (out.new.items ≡ out.old.items ++ map single_pattern patterns.now) }
{
    match patterns.split_first() {
        Some((first, rest)) => {
            let row = Seq::from_slice(alloc, &[*first])?;
            out.push(row)?;
            push_alone(alloc, rest, out)
        }
        None => Ok(()),
    }
}

/// A shape that no pattern of a list takes, or none where the list is exhaustive. The empty list leaves the unspecified shape.
/// Only want of memory refuses.
pub fn cover(
    alloc: Global,
    store: &Store,
    sig: &Signature,
    patterns: &[TermId],
) -> Result<Option<ValueShape>, AllocError>
    requires held { All (Holds store.now) patterns.now }
    requires symbols_held { All (SymbolHeld store.now) sig.now.symbols }
    requires patterns { All (IsPattern (symbols_at store.now sig.now.symbols))
        (trees_at store.now patterns.now) }
    requires one_type { HaveOneType (trees_at store.now patterns.now) }
    ensures exhaustive { IfOk result (λ o. (o ≡ None)
        ↔ AreExhaustive (symbols_at store.now sig.now.symbols) (trees_at store.now patterns.now)) }
    ensures escapes { IfOk result (λ o. IfSome o (λ s.
        Escapes (symbols_at store.now sig.now.symbols)
        (trees_at store.now patterns.now) (shape_of s))) }
    ensures empty { patterns.now ≡ []
        → IfOk result (λ o. IfSome o (λ s. shape_of s ≡ unspecified)) }
{
    if patterns.is_empty() {
        return Ok(Some(unknown_shape(alloc)));
    }
    let mut rows = Vec::new(alloc);
    push_alone(alloc, patterns, &mut rows)?;
    let found = missed_shapes(alloc, store, sig, rows.as_slice(), 0, 1)?;
    match found {
        Some(mut shapes) => {
            let last = shapes.pop();
            match last {
                Some(shape) => Ok(Some(shape)),
                None => unreachable!(),
            }
        }
        None => Ok(None),
    }
}
