// Of which kind the laws of algebraic types are, by their places.
// It depends on the declarations; the transformation of algebraic types depends on it.
ghost use Rattle.std.specs.Prelude.{◌≡◌, ℕ, min, List, map, length};
ghost use Rattle.tasks.specs.Task.{SymbolTree};
ghost use Rattle.tasks.specs.Meaning.{cons_at, algebraic_at, algebraics_at};
ghost use Rattle.tr_algebraic.specs.algebraic_forms.Formulas.{all_projection_laws, distinctness_laws};
ghost use Rattle.tr_algebraic.specs.algebraic_forms.Groups.{law, type_laws, group_laws};
ghost use Rattle.tr_algebraic.specs.algebraic_forms.Search.{kinds_of_laws, AreAll, IsLawSearch};

use tasks::{Alg, Con};
use trees::store::Store;

/// What a law says: that a projection gives its field, that two constructors differ, or that each value is made by a constructor.
#[derive(Clone, Copy)]
pub enum LawKind {
    Projection,
    Distinctness,
    Exhaustion,
}

/// A law that is looked for in a list of laws by its place: it is of this kind, or so many are left after them.
#[derive(Clone, Copy)]
pub enum LawSearch {
    Here(LawKind),
    After(usize),
}

// Among so many laws of one kind.
fn among(many: usize, kind: LawKind, k: usize) -> LawSearch
    ensures { (ks : List LawKind) → AreAll ks many kind → IsLawSearch ks k result }
{
    if k < many {
        LawSearch::Here(kind)
    } else {
        LawSearch::After(k - many)
    }
}

// How many laws of projections a constructor has.
fn count_projections(con: &Con) -> usize
    ensures { result ≡ min (length con.now.projections) (length con.now.fields) }
{
    let projections = con.projections.len();
    let fields = con.fields.len();
    if projections < fields {
        projections
    } else {
        fields
    }
}

// Among the laws of projections.
fn among_projections(store: &Store, cons: &[Con], k: usize) -> LawSearch
    ensures { (type vars : ℕ) → IsLawSearch (kinds_of_laws (map (law LawKind.Projection vars)
        (all_projection_laws type vars (cons_at store.now cons.now)))) k result }
{
    match cons.split_first() {
        Some((first, rest)) => {
            let many = count_projections(first);
            match among(many, LawKind::Projection, k) {
                LawSearch::Here(kind) => LawSearch::Here(kind),
                LawSearch::After(left) => among_projections(store, rest, left),
            }
        }
        None => LawSearch::After(k),
    }
}

// Among the laws of distinctness.
fn among_differences(store: &Store, cons: &[Con], k: usize) -> LawSearch
    ensures { (type vars : ℕ) → IsLawSearch (kinds_of_laws (map (law LawKind.Distinctness vars)
        (distinctness_laws type vars (cons_at store.now cons.now)))) k result }
{
    match cons.split_first() {
        Some((_, rest)) => match among(rest.len(), LawKind::Distinctness, k) {
            LawSearch::Here(kind) => LawSearch::Here(kind),
            LawSearch::After(left) => among_differences(store, rest, left),
        },
        None => LawSearch::After(k),
    }
}

// Among the laws of a type.
fn search_type(store: &Store, alg: &Alg, k: usize) -> LawSearch
    ensures { (vars : ℕ) → IsLawSearch (kinds_of_laws
        (type_laws vars (algebraic_at store.now alg.now))) k result }
{
    let cons = alg.cons.as_slice();
    match among_projections(store, cons, k) {
        LawSearch::Here(kind) => LawSearch::Here(kind),
        LawSearch::After(left) => match among_differences(store, cons, left) {
            LawSearch::Here(kind) => LawSearch::Here(kind),
            LawSearch::After(left) => among(1, LawKind::Exhaustion, left),
        },
    }
}

/// Of which kind the k-th of the laws of algebraic types is, or how many are left after them.
pub fn search_laws(store: &Store, types: &[Alg], k: usize) -> LawSearch
    ensures { (symbols : List SymbolTree) → IsLawSearch (kinds_of_laws
        (group_laws symbols (algebraics_at store.now types.now))) k result }
{
    match types.split_first() {
        Some((first, rest)) => match search_type(store, first, k) {
            LawSearch::Here(kind) => LawSearch::Here(kind),
            LawSearch::After(left) => search_laws(store, rest, left),
        },
        None => LawSearch::After(k),
    }
}
