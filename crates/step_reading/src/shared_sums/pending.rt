// A sum of multiples of terms that is taken apart from the greatest number down, so that each number is visited once.
// It depends on what is known of terms; the test of a weighted sum depends on it.
ghost use Rattle.std.specs.Prelude.{◌≡◌, ◌≢◌, ℕ, ℤ, pos, ◌+ℤ◌, ◌*ℤ◌, ◌<◌, ◌≤◌, None, Some, List, IfOk, OnOk};
ghost use Rattle.std.specs.Bool.{MatchBool};
ghost use Rattle.std.specs.Ordering.{nat_cmp};
ghost use Rattle.std.specs.BTreeMap.{get, IsEmpty};
ghost use Rattle.trees.specs.Tree.{Tree};
ghost use Rattle.trees.specs.Node.{tree_at, Holds};
ghost use Rattle.trees.specs.declared.ints.Ints as declared;
ghost use Rattle.step_reading.specs.shared_sums.Known.{IsInteger, AreKnownTerms};
ghost use Rattle.step_reading.specs.shared_sums.Pending.{weighed, above_numbers, IsTerm, HaveTerms, value_at, IsSum, IsSpread, IsProduct, IsFlat, Differs, IsNext};

use crate::shared_sums::known::{Table, add, known_of, multiply, negate};
use crate::shared_sums::summands::{Summand, top_of};
use std::alloc::{AllocError, Global};
use std::collections::BTreeMap;
use trees::store::Store;
use trees::{Ints, TermId};

// Multiples of terms by their numbers, and a constant, which is none where a number was too great.
#[derive(Drop)]
pub(crate) struct Pending {
    pub multiples: BTreeMap<usize, i128>,
    pub constant: Option<i128>,
}

/// Nothing.
pub(crate) fn nothing(alloc: Global) -> Pending
    ensures multiples { IsEmpty result.multiples }
    ensures constant { result.constant ≡ Some (pos 0) }
{
    Pending {
        multiples: BTreeMap::new(alloc),
        constant: Some(0),
    }
}

// Takes the multiple of a number away.
fn take(multiples: &mut BTreeMap<usize, i128>, k: usize) -> i128
    ensures sum { (f : ℕ → ℤ) → weighed f multiples.new.entries +ℤ result *ℤ f k
        ≡ weighed f multiples.old.entries }
    ensures absent { get nat_cmp multiples.new k ≡ None }
    ensures top { above_numbers multiples.new.entries ≤ above_numbers multiples.old.entries }
    ensures terms { (z : declared.Ints) (s : List Tree) → HaveTerms z s multiples.old.entries
        → HaveTerms z s multiples.new.entries }
{
    match multiples.remove(&k) {
        Some(n) => n,
        None => 0,
    }
}

// Puts a multiple of a number that has none.
fn give(multiples: &mut BTreeMap<usize, i128>, k: usize, n: i128) -> Result<(), AllocError>
    requires { get nat_cmp multiples.old k ≡ None }
    ensures sum { OnOk result ((f : ℕ → ℤ) → weighed f multiples.new.entries
        ≡ weighed f multiples.old.entries +ℤ n *ℤ f k) }
    ensures top { OnOk result ((b : ℕ) → above_numbers multiples.old.entries ≤ b → k < b
        → above_numbers multiples.new.entries ≤ b) }
    ensures terms { OnOk result ((z : declared.Ints) (s : List Tree) → HaveTerms z s
        multiples.old.entries → IsTerm z s k → HaveTerms z s multiples.new.entries) }
{
    multiples.insert(k, n)?;
    Ok(())
}

// Adds a multiple of a term.
fn put(pending: &mut Pending, k: usize, n: Option<i128>) -> Result<(), AllocError>
    ensures sum { OnOk result ((f : ℕ → ℤ) (x y : ℤ) → IsSum f pending.old x → IsInteger y n
        → IsSum f pending.new (x +ℤ y *ℤ f k)) }
    ensures top { OnOk result ((b : ℕ) → above_numbers pending.old.multiples.entries ≤ b → k < b
        → above_numbers pending.new.multiples.entries ≤ b) }
    ensures terms { OnOk result ((z : declared.Ints) (s : List Tree) → HaveTerms z s
        pending.old.multiples.entries → IsTerm z s k
        → HaveTerms z s pending.new.multiples.entries) }
{
    let before = take(&mut pending.multiples, k);
    match add(Some(before), n) {
        Some(sum) => give(&mut pending.multiples, k, sum)?,
        None => pending.constant = None,
    }
    Ok(())
}

/// Adds a constant.
pub(crate) fn put_constant(pending: &mut Pending, n: Option<i128>)
    ensures sum { (f : ℕ → ℤ) (x y : ℤ) → IsSum f pending.old x → IsInteger y n
        → IsSum f pending.new (x +ℤ y) }
    ensures multiples { pending.new.multiples ≡ pending.old.multiples }
{
    pending.constant = add(pending.constant, n);
}

/// Adds a multiple of a term, of which the table tells.
pub(crate) fn put_term(
    store: &Store,
    ints: &Ints,
    table: &mut Table,
    pending: &mut Pending,
    e: TermId,
    n: Option<i128>,
) -> Result<(), AllocError>
    requires held { Holds store.now e }
    requires table { AreKnownTerms ints.now store.now table.old }
    requires terms { HaveTerms ints.now store.now pending.old.multiples.entries }
    ensures table { OnOk result (AreKnownTerms ints.now store.now table.new) }
    ensures sum { OnOk result ((f : ℕ → ℤ) (x y : ℤ) → IsSum f pending.old x → IsInteger y n
        → IsSum f pending.new (x +ℤ y *ℤ f e.0)) }
    ensures top { OnOk result ((b : ℕ) → above_numbers pending.old.multiples.entries ≤ b → e.0 < b
        → above_numbers pending.new.multiples.entries ≤ b) }
    ensures terms { OnOk result (HaveTerms ints.now store.now pending.new.multiples.entries) }
{
    known_of(store, ints, table, e)?;
    put(pending, e.0, n)
}

// Puts the parts of a product in its place, unless it is an atom.
fn spread_product(
    store: &Store,
    ints: &Ints,
    table: &mut Table,
    pending: &mut Pending,
    a: TermId,
    b: TermId,
    n: i128,
) -> Result<bool, AllocError>
    requires a_held { Holds store.now a }
    requires b_held { Holds store.now b }
    requires table { AreKnownTerms ints.now store.now table.old }
    requires terms { HaveTerms ints.now store.now pending.old.multiples.entries }
    ensures table { OnOk result (AreKnownTerms ints.now store.now table.new) }
    ensures told { IfOk result (λ spread. (t : Tree)
        → IsProduct ints.now t (tree_at store.now a) (tree_at store.now b)
        → IsSpread ints.now store.now t n spread pending.old pending.new) }
    ensures top { OnOk result ((k : ℕ) → above_numbers pending.old.multiples.entries ≤ k
        → a.0 < k → b.0 < k → above_numbers pending.new.multiples.entries ≤ k) }
    ensures terms { OnOk result (HaveTerms ints.now store.now pending.new.multiples.entries) }
{
    let x = known_of(store, ints, table, a)?;
    let y = known_of(store, ints, table, b)?;
    if x.has_atom && y.has_atom {
        return Ok(false);
    }
    if y.has_atom {
        put(pending, b.0, multiply(x.value, Some(n)))?;
    } else {
        put(pending, a.0, multiply(y.value, Some(n)))?;
    }
    Ok(true)
}

// Puts the parts of a term in its place, unless it is an atom.
fn spread(
    store: &Store,
    ints: &Ints,
    table: &mut Table,
    pending: &mut Pending,
    e: TermId,
    n: i128,
) -> Result<bool, AllocError>
    requires held { Holds store.now e }
    requires table { AreKnownTerms ints.now store.now table.old }
    requires terms { HaveTerms ints.now store.now pending.old.multiples.entries }
    requires top { above_numbers pending.old.multiples.entries ≤ e.0 }
    ensures table { OnOk result (AreKnownTerms ints.now store.now table.new) }
    ensures told { IfOk result (λ spread. IsSpread ints.now store.now (tree_at store.now e) n spread
        pending.old pending.new) }
    ensures top { OnOk result (above_numbers pending.new.multiples.entries ≤ e.0) }
    ensures terms { OnOk result (HaveTerms ints.now store.now pending.new.multiples.entries) }
{
    match top_of(store, ints, e) {
        Summand::Number(m) => put_constant(pending, multiply(Some(n), Some(m))),
        Summand::Negated(a) => put_term(store, ints, table, pending, a, negate(Some(n)))?,
        Summand::Plus(a, b) => {
            put_term(store, ints, table, pending, a, Some(n))?;
            put_term(store, ints, table, pending, b, Some(n))?;
        }
        Summand::Minus(a, b) => {
            put_term(store, ints, table, pending, a, Some(n))?;
            put_term(store, ints, table, pending, b, negate(Some(n)))?;
        }
        Summand::Times(a, b) => return spread_product(store, ints, table, pending, a, b, n),
        Summand::Atom => return Ok(false),
    }
    Ok(true)
}

// What comes after the greatest multiple was taken apart.
#[derive(Clone, Copy)]
enum Next {
    Done,
    Atom,
    More,
}

// Takes the greatest multiple apart.
fn take_next(
    store: &Store,
    ints: &Ints,
    table: &mut Table,
    pending: &mut Pending,
) -> Result<Next, AllocError>
    requires table { AreKnownTerms ints.now store.now table.old }
    requires terms { HaveTerms ints.now store.now pending.old.multiples.entries }
    ensures table { OnOk result (AreKnownTerms ints.now store.now table.new) }
    ensures told { IfOk result (IsNext ints.now store.now pending.old pending.new) }
{
    let Some((k, n)) = pending.multiples.pop_last() else {
        return Ok(Next::Done);
    };
    if n == 0 {
        return Ok(Next::More);
    }
    store.laws();
    let goes_on = spread(store, ints, table, pending, TermId(k), n)?;
    if goes_on {
        Ok(Next::More)
    } else {
        Ok(Next::Atom)
    }
}

/// Whether all atoms cancel, so that only the constant is left.
#[tactic(auto, using(crate::proofs::shared_sums::Steps::carries_flat, crate::proofs::shared_sums::Steps::carries_differs))]
pub(crate) fn all_cancel(
    store: &Store,
    ints: &Ints,
    table: &mut Table,
    pending: &mut Pending,
) -> Result<bool, AllocError>
    requires table { AreKnownTerms ints.now store.now table.old }
    requires terms { HaveTerms ints.now store.now pending.old.multiples.entries }
    ensures { IfOk result (λ b. MatchBool b (IsFlat ints.now store.now pending.old pending.new)
        (Differs ints.now store.now pending.old pending.new)) }
{
    match take_next(store, ints, table, pending)? {
        Next::Done => Ok(true),
        Next::Atom => Ok(false),
        Next::More => all_cancel(store, ints, table, pending),
    }
}
