// Rows of patterns, and what is left of them where the first pattern is taken apart.
// They depend on the store; the cover of patterns depends on them.
ghost use Rattle.std.specs.Prelude.{◌≡◌, ◌++◌, drop, All, List, IfOk, IfSome, OnOk};
ghost use Rattle.std.specs.Option.{option_map};
ghost use Rattle.trees.specs.Tree.{Tree};
ghost use Rattle.trees.specs.Node.{tree_at, Holds};
ghost use Rattle.tasks.specs.Typing.{members};
ghost use Rattle.tasks.specs.Meaning.{trees_at};
ghost use Rattle.checks.specs.match_cover.Shapes.{without_aliases};
ghost use Rattle.checks.specs.match_cover.Tables.{apart, opened, parts_with_row, opened_row, specialized, symbol_of_type, told, row_told, column_told, is_irrefutable, are_irrefutable, some_irrefutable};
ghost use Rattle.checks.specs.match_cover.Meaning.{table_at, RowHeld, TableHeld};

use std::alloc::{AllocError, Global};
use tasks::Seq;
use trees::store::Store;
use trees::{Node, TermId};

// A pattern without the names that it gives to what it takes.
fn bare_pattern(store: &Store, pattern: TermId) -> TermId
    requires { Holds store.now pattern }
    ensures tree { tree_at store.now result ≡ without_aliases (tree_at store.now pattern) }
    ensures held { Holds store.now result }
{
    match store.node(pattern) {
        Node::PatAlias(inner) => bare_pattern(store, inner),
        _ => pattern,
    }
}

// The members of a list, after others.
fn push_members(store: &Store, list: TermId, out: &mut Vec<TermId>) -> Result<(), AllocError>
    requires { Holds store.now list }
    ensures tree { OnOk result (trees_at store.now out.new.items
        ≡ trees_at store.now out.old.items ++ members (tree_at store.now list)) }
    ensures held { All (Holds store.now) out.old.items
        → OnOk result (All (Holds store.now) out.new.items) }
{
    match store.node(list) {
        Node::Cell(first, rest) => {
            out.push(first)?;
            push_members(store, rest, out)
        }
        _ => Ok(()),
    }
}

// The constructor of a pattern without names, and the list of its parts.
fn constructor_parts(store: &Store, pattern: TermId) -> Option<(usize, TermId)>
    requires { Holds store.now pattern }
    ensures tree { option_map (λ q. (q.0, tree_at store.now q.1)) result
        ≡ apart (tree_at store.now pattern) }
    ensures held { IfSome result (λ q. Holds store.now q.1) }
{
    match store.node(pattern) {
        Node::PatCon(con, _, parts, _) => Some((con, parts)),
        _ => None,
    }
}

// What stands for the first pattern of a row at a constructor: its parts, or the pattern itself for each field.
// None where it is another constructor's.
fn parts(
    alloc: Global,
    store: &Store,
    pattern: TermId,
    con: usize,
    arity: usize,
) -> Result<Option<Vec<TermId>>, AllocError>
    requires { Holds store.now pattern }
    ensures tree { IfOk result (λ o. (row : List Tree)
        → parts_with_row (option_map (λ v. trees_at store.now v.items) o) row
        ≡ opened con arity (without_aliases (tree_at store.now pattern)) row) }
    ensures held { IfOk result (λ o. IfSome o (λ v. All (Holds store.now) v.items)) }
{
    let inner = bare_pattern(store, pattern);
    match constructor_parts(store, inner) {
        Some((found, list)) => {
            if found != con {
                return Ok(None);
            }
            let mut parts = Vec::new(alloc);
            push_members(store, list, &mut parts)?;
            Ok(Some(parts))
        }
        None => Ok(Some(vec![in alloc; inner; arity]?)),
    }
}

// A row from a column on.
#[tactic(auto, using(crate::proofs::match_cover::Tables::held_after))]
fn from_column<'a>(store: &Store, row: &'a Seq<TermId>, at: usize) -> &'a [TermId]
    requires { RowHeld store.now row.now }
    ensures value { result.now ≡ drop at row.now }
    ensures held { All (Holds store.now) result.now }
{
    let _ = store;
    let patterns = row.as_slice();
    if at <= patterns.len() {
        &patterns[at..]
    } else {
        &[]
    }
}

// Patterns and others after them, as one row.
fn join_row(store: &Store, parts: Vec<TermId>, rest: &[TermId]) -> Result<Seq<TermId>, AllocError>
    requires parts_held { All (Holds store.now) parts.items }
    requires rest_held { All (Holds store.now) rest.now }
    ensures tree { IfOk result (λ r. trees_at store.now r
        ≡ trees_at store.now parts.items ++ trees_at store.now rest.now) }
    ensures held { IfOk result (RowHeld store.now) }
{
    let _ = store;
    let mut all = parts;
    all.extend_from_slice(rest)?;
    Ok(Seq::from_vec(all))
}

// A row whose first pattern is taken apart at a constructor, after others; nothing where it is another constructor's.
fn push_opened(
    alloc: Global,
    store: &Store,
    row: &[TermId],
    con: usize,
    arity: usize,
    out: &mut Vec<Seq<TermId>>,
) -> Result<(), AllocError>
    requires row_held { All (Holds store.now) row.now }
    requires out_held { TableHeld store.now out.old.items }
    ensures tree { OnOk result (table_at store.now 0 out.new.items
        ≡ table_at store.now 0 out.old.items ++ opened_row con arity (trees_at store.now row.now)) }
    ensures held { OnOk result (TableHeld store.now out.new.items) }
{
    match row.split_first() {
        Some((first, rest)) => match parts(alloc, store, *first, con, arity)? {
            Some(kept) => {
                let whole = join_row(store, kept, rest)?;
                out.push(whole)?;
                Ok(())
            }
            None => Ok(()),
        },
        None => Ok(()),
    }
}

// The rows that may take a constructor, from a column on, with the parts of the patterns in that column, after others.
fn push_specialized(
    alloc: Global,
    store: &Store,
    rows: &[Seq<TermId>],
    at: usize,
    con: usize,
    arity: usize,
    out: &mut Vec<Seq<TermId>>,
) -> Result<(), AllocError>
    requires rows_held { TableHeld store.now rows.now }
    requires out_held { TableHeld store.now out.old.items }
    ensures tree { OnOk result (table_at store.now 0 out.new.items
        ≡ table_at store.now 0 out.old.items
        ++ specialized con arity (table_at store.now at rows.now)) }
    ensures held { OnOk result (TableHeld store.now out.new.items) }
{
    match rows.split_first() {
        Some((first, rest)) => {
            let row = from_column(store, first, at);
            push_opened(alloc, store, row, con, arity, out)?;
            push_specialized(alloc, store, rest, at, con, arity, out)
        }
        None => Ok(()),
    }
}

// The rows that may take a constructor, from a column on, with the parts of the patterns in that column.
pub(crate) fn specialize_rows(
    alloc: Global,
    store: &Store,
    rows: &[Seq<TermId>],
    at: usize,
    con: usize,
    arity: usize,
) -> Result<Vec<Seq<TermId>>, AllocError>
    requires { TableHeld store.now rows.now }
    ensures tree { IfOk result (λ v. table_at store.now 0 v.items
        ≡ specialized con arity (table_at store.now at rows.now)) }
    ensures held { IfOk result (λ v. TableHeld store.now v.items) }
{
    let mut all = Vec::new(alloc);
    push_specialized(alloc, store, rows, at, con, arity, &mut all)?;
    Ok(all)
}

// The type symbol of a type, if it has one.
fn symbol_of_type(store: &Store, ty: TermId) -> Option<usize>
    requires { Holds store.now ty }
    ensures { result ≡ symbol_of_type (tree_at store.now ty) }
{
    match store.node(ty) {
        Node::TyApp(symbol, _) => Some(symbol),
        _ => None,
    }
}

// The type symbol that a pattern without names tells of its values.
fn told_type(store: &Store, pattern: TermId) -> Option<usize>
    requires { Holds store.now pattern }
    ensures { result ≡ told (tree_at store.now pattern) }
{
    match store.node(pattern) {
        Node::PatCon(_, _, _, ty) => symbol_of_type(store, ty),
        _ => None,
    }
}

// The type symbol that the first pattern of a row tells.
fn row_told(store: &Store, row: &[TermId]) -> Option<usize>
    requires { All (Holds store.now) row.now }
    ensures { result ≡ row_told (trees_at store.now row.now) }
{
    match row.first() {
        Some(first) => told_type(store, bare_pattern(store, *first)),
        None => None,
    }
}

// The type symbol that the first pattern in a column tells, if one does.
pub(crate) fn column_told(store: &Store, rows: &[Seq<TermId>], at: usize) -> Option<usize>
    requires { TableHeld store.now rows.now }
    ensures { result ≡ column_told (table_at store.now at rows.now) }
{
    match rows.split_first() {
        Some((first, rest)) => match row_told(store, from_column(store, first, at)) {
            Some(symbol) => Some(symbol),
            None => column_told(store, rest, at),
        },
        None => None,
    }
}

// Whether every value meets a pattern.
fn is_irrefutable(store: &Store, pattern: TermId) -> bool
    requires { Holds store.now pattern }
    ensures { result ≡ is_irrefutable (without_aliases (tree_at store.now pattern)) }
{
    match store.node(bare_pattern(store, pattern)) {
        Node::PatAny(_) => true,
        Node::PatVar(_) => true,
        _ => false,
    }
}

// Whether every value meets each pattern of a row.
fn are_irrefutable(store: &Store, row: &[TermId]) -> bool
    requires { All (Holds store.now) row.now }
    ensures { result ≡ are_irrefutable (trees_at store.now row.now) }
{
    match row.split_first() {
        Some((first, rest)) => is_irrefutable(store, *first) && are_irrefutable(store, rest),
        None => true,
    }
}

// Whether every value meets each pattern of some row, from a column on.
pub(crate) fn some_irrefutable(store: &Store, rows: &[Seq<TermId>], at: usize) -> bool
    requires { TableHeld store.now rows.now }
    ensures { result ≡ some_irrefutable (table_at store.now at rows.now) }
{
    match rows.split_first() {
        Some((first, rest)) => are_irrefutable(store, from_column(store, first, at))
            || some_irrefutable(store, rest, at),
        None => false,
    }
}
