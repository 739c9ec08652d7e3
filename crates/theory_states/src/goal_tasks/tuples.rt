// The declarations of tuples, for the widths that occur.
// They depend on the entries of tuples in a signature; tasks begin with them.
ghost use Rattle.std.specs.Prelude.{◌≡◌, ℕ, List, ◌+◌, ◌-◌, ◌<◌, ◌≤◌, [], ◌∷◌, ◌++◌, length, All, IfOk, IfSome, OnOk};
ghost use Rattle.std.specs.List.{range_with_len};
ghost use Rattle.tasks.specs.Task.{symbol_or};
ghost use Rattle.tasks.specs.Meaning.{symbol_at, symbols_at, con_at, algebraics_at, declaration_at, declarations_at, SymbolHeld, ConHeld, AlgebraicHeld, DeclHeld};
ghost use Rattle.trees.specs.Tree.{Tree};
ghost use Rattle.tasks.specs.Entries.{tuple_in};
ghost use Rattle.theory_states.specs.goal_tasks.Tuples.{symbol_of_width, tuple_constructor, tuple_algebraic, tuple_declaration, tuple_occurs, tuples_of, tuples_in};
ghost use Rattle.theory_states.specs.goal_tasks.Meaning.{IsTupleAt, AreTuples};

use indexmap::IndexSet;
use std::alloc::{AllocError, Global};
use tasks::{Alg, Body, Con, Decl, Seq, Signature, SymbolInfo, Text, is_tuple};
use trees::store::Store;

// So many numbers from one on.
fn numbers(alloc: Global, from: usize, count: usize) -> Result<Seq<usize>, AllocError>
    requires { from + count ≤ usize.MAX }
    ensures { IfOk result (λ v. v ≡ range_with_len from count) }
{
    let mut all = Vec::new(alloc);
    for number in from..from + count {
        all.push(number)?;
    }
    Ok(Seq::from_vec(all))
}

// The entry of a symbol.
fn entry_at<'a>(store: &Store, sig: &'a Signature, symbol: usize) -> &'a SymbolInfo
    requires symbols_held { All (SymbolHeld store.now) sig.now.symbols }
    requires within { symbol < length sig.now.symbols }
    ensures tree { symbol_at store.now result.now
        ≡ symbol_or (symbols_at store.now sig.now.symbols) symbol }
    ensures held { SymbolHeld store.now result.now }
{
    let _ = store;
    &sig.symbols.as_slice()[symbol]
}

// The constructor of the tuples of a width, whose entry this is.
fn tuple_con(
    alloc: Global,
    store: &Store,
    sig: &Signature,
    width: usize,
    symbol: usize,
) -> Result<Con, AllocError>
    requires symbols_held { All (SymbolHeld store.now) sig.now.symbols }
    requires at { IsTupleAt (symbols_at store.now sig.now.symbols) width symbol }
    ensures tree { IfOk result (λ c. con_at store.now c ≡ tuple_constructor width (symbol - 1)) }
    ensures held { IfOk result (ConHeld store.now) }
{
    let count = sig.symbols.len();
    prove!(symbol < count);
    let projections = numbers(alloc, symbol + 1, width)?;
    let fields = entry_at(store, sig, symbol).args.clone()?;
    Ok(Con {
        symbol,
        fields,
        projections,
    })
}

// The type of the tuples of a width, whose constructor's entry this is.
fn tuple_types(
    alloc: Global,
    store: &Store,
    sig: &Signature,
    width: usize,
    symbol: usize,
) -> Result<Seq<Alg>, AllocError>
    requires symbols_held { All (SymbolHeld store.now) sig.now.symbols }
    requires at { IsTupleAt (symbols_at store.now sig.now.symbols) width symbol }
    ensures tree { IfOk result (λ v. algebraics_at store.now v
        ≡ tuple_algebraic width (symbol - 1) ∷ []) }
    ensures held { IfOk result (All (AlgebraicHeld store.now)) }
{
    let con = tuple_con(alloc, store, sig, width, symbol)?;
    let mut cons = Seq::new(alloc);
    cons.push(con)?;
    let mut types = Seq::new(alloc);
    types.push(Alg {
        symbol: symbol - 1,
        cons,
    })?;
    Ok(types)
}

// The declaration of the tuples of a width, whose constructor's entry this is.
fn tuple_decl(
    alloc: Global,
    store: &Store,
    sig: &Signature,
    width: usize,
    symbol: usize,
) -> Result<Decl, AllocError>
    requires symbols_held { All (SymbolHeld store.now) sig.now.symbols }
    requires at { IsTupleAt (symbols_at store.now sig.now.symbols) width symbol }
    ensures tree { IfOk result (λ d. declaration_at store.now d
        ≡ tuple_declaration width (symbol - 1)) }
    ensures held { IfOk result (DeclHeld store.now) }
{
    let name = entry_at(store, sig, symbol - 1).name.clone()?;
    let theory = Text::from_slice(alloc, b"BuiltIn")?;
    let types = tuple_types(alloc, store, sig, width, symbol)?;
    Ok(Decl {
        theory,
        name,
        vars: width,
        body: Body::Algebraics(types),
    })
}

/// A constructor of tuples with its width.
#[derive(Clone, Copy)]
pub struct TupleName {
    pub width: usize,
    pub symbol: usize,
}

// The constructors of tuples by width.
fn tuple_names(alloc: Global, symbols: &[SymbolInfo]) -> Result<Vec<TupleName>, AllocError>
    ensures { IfOk result (λ names. (s : List Tree) (n : ℕ) → symbol_of_width names.items n
        ≡ tuple_in (symbols_at s symbols.now) n) }
{
    let mut names = Vec::new(alloc);
    for (symbol, info) in symbols.iter().enumerate() {
        let width = info.vars;
        if is_tuple(info, width) {
            names.push(TupleName { width, symbol })?;
        }
    }
    Ok(names)
}

// The constructor of the tuples of a width.
fn tuple_named(names: &[TupleName], width: usize) -> Option<usize>
    ensures { result ≡ symbol_of_width names.now width }
{
    let (first, rest) = names.split_first()?;
    if first.width == width {
        Some(first.symbol)
    } else {
        tuple_named(rest, width)
    }
}

// Whether the tuples with this constructor occur.
fn occurs(found: &IndexSet<usize>, symbol: usize) -> bool
    requires { 0 < symbol }
    ensures { result ≡ tuple_occurs found.now.keys symbol }
{
    let ty = symbol - 1;
    found.contains(&symbol) || found.contains(&ty)
}

// The declaration of the tuples of a width, if they occur, after others.
fn push_tuple(
    alloc: Global,
    store: &Store,
    sig: &Signature,
    found: &IndexSet<usize>,
    width: usize,
    symbol: Option<usize>,
    out: &mut Vec<Decl>,
) -> Result<(), AllocError>
    requires symbols_held { All (SymbolHeld store.now) sig.now.symbols }
    requires at { IfSome symbol (IsTupleAt (symbols_at store.now sig.now.symbols) width) }
    requires held { All (DeclHeld store.now) out.old.items }
    ensures tree { OnOk result (declarations_at store.now out.new.items
        ≡ declarations_at store.now out.old.items ++ tuples_of found.now.keys width symbol) }
    ensures new_held { OnOk result (All (DeclHeld store.now) out.new.items) }
{
    match symbol {
        Some(symbol) => {
            if occurs(found, symbol) {
                let decl = tuple_decl(alloc, store, sig, width, symbol)?;
                out.push(decl)?;
                Ok(())
            } else {
                Ok(())
            }
        }
        None => Ok(()),
    }
}

/// The declarations of the tuples that occur among these symbols, in ascending width.
pub(crate) fn tuples_in(
    alloc: Global,
    store: &Store,
    sig: &Signature,
    found: &IndexSet<usize>,
) -> Result<Vec<Decl>, AllocError>
    requires symbols_held { All (SymbolHeld store.now) sig.now.symbols }
    requires tuples { AreTuples (symbols_at store.now sig.now.symbols) }
    ensures tree { IfOk result (λ v. declarations_at store.now v.items
        ≡ tuples_in (symbols_at store.now sig.now.symbols) found.now.keys) }
    ensures held { IfOk result (λ v. All (DeclHeld store.now) v.items) }
{
    let symbols = sig.symbols.as_slice();
    let names = tuple_names(alloc, symbols)?;
    let mut out = Vec::new(alloc);
    for width in 0..symbols.len() {
        let symbol = tuple_named(&names, width);
        push_tuple(alloc, store, sig, found, width, symbol, &mut out)?;
    }
    Ok(out)
}
