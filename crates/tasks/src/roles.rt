// What a task's declarations make a symbol as.
// They depend on the declarations; the rules of the kernel and typing read a task through them.
ghost use Rattle.std.specs.Prelude.{◌≡◌, ◌==◌, All};
ghost use Rattle.std.specs.List.{position_from};
ghost use Rattle.tasks.specs.Roles.{is_plain, is_constructor, defined_as, inductive_as, projected_as, constructed_as, algebraic_as, role_in, is_made_by};
ghost use Rattle.tasks.specs.Meaning.{con_at, cons_at, definitions_at, inductives_at, algebraics_at, body_at, InductiveHeld, ConHeld, AlgebraicHeld, BodyHeld};
ghost use Rattle.tasks.specs.Looking.{role_at, RoleHeld};
ghost use Rattle.trees.specs.Node.{Holds};

use crate::{Alg, Body, Con, Def, Ind};
use trees::TermId;
use trees::store::Store;

/// What a task's declarations make a symbol as.
#[derive(Clone, Copy)]
pub enum Role<'a> {
    /// Abstract, or made by no declaration.
    Plain,
    /// Defined, by this equation.
    Defined(TermId),
    /// Defined inductively, by these clauses.
    Inductive(&'a [TermId]),
    /// An algebraic type, with its constructors.
    Algebraic(&'a [Con]),
    /// A constructor of an algebraic type.
    Constructor(&'a Con),
    /// The projection to a field of a constructor, by its place.
    Projection(&'a Con, usize),
}

// Whether a symbol is abstract, or made by no declaration.
fn is_plain(store: &Store, role: Role<'_>) -> bool
    ensures { result ≡ is_plain (role_at store.now role.entry) }
{
    let _ = store;
    match role {
        Role::Plain => true,
        _ => false,
    }
}

/// Whether a symbol is a constructor of an algebraic type.
pub fn is_constructor(store: &Store, role: Role<'_>) -> bool
    ensures { result ≡ is_constructor (role_at store.now role.entry) }
{
    let _ = store;
    match role {
        Role::Constructor(_) => true,
        _ => false,
    }
}

// Among definitions.
fn defined_as<'a>(store: &Store, defs: &'a [Def], symbol: usize) -> Role<'a>
    requires { All (λ (d : Def). Holds store.now d.equation) defs.now }
    ensures tree { role_at store.now result
        ≡ defined_as symbol (definitions_at store.now defs.now) }
    ensures held { RoleHeld store.now result }
{
    match defs.split_first() {
        Some((first, rest)) => {
            if first.symbol == symbol {
                Role::Defined(first.equation)
            } else {
                defined_as(store, rest, symbol)
            }
        }
        None => Role::Plain,
    }
}

// Among predicates with their clauses.
fn inductive_as<'a>(store: &Store, inductives: &'a [Ind], symbol: usize) -> Role<'a>
    requires { All (InductiveHeld store.now) inductives.now }
    ensures tree { role_at store.now result
        ≡ inductive_as symbol (inductives_at store.now inductives.now) }
    ensures held { RoleHeld store.now result }
{
    match inductives.split_first() {
        Some((first, rest)) => {
            if first.symbol == symbol {
                Role::Inductive(first.clauses.as_slice())
            } else {
                inductive_as(store, rest, symbol)
            }
        }
        None => Role::Plain,
    }
}

// The place of a number in a list.
fn place_among(numbers: &[usize], number: usize) -> Option<usize>
    ensures { result ≡ position_from (λ j. j == number) 0 numbers.now }
{
    numbers.iter().position(|n| *n == number)
}

// Among the projections of a constructor.
fn projected_as<'a>(store: &Store, con: &'a Con, symbol: usize) -> Role<'a>
    requires { ConHeld store.now con.now }
    ensures tree { role_at store.now result ≡ projected_as symbol (con_at store.now con.now) }
    ensures held { RoleHeld store.now result }
{
    let _ = store;
    match place_among(con.projections.as_slice(), symbol) {
        Some(place) => Role::Projection(con, place),
        None => Role::Plain,
    }
}

// Among constructors.
fn constructed_as<'a>(store: &Store, cons: &'a [Con], symbol: usize) -> Role<'a>
    requires { All (ConHeld store.now) cons.now }
    ensures tree { role_at store.now result ≡ constructed_as symbol (cons_at store.now cons.now) }
    ensures held { RoleHeld store.now result }
{
    match cons.split_first() {
        Some((first, rest)) => {
            if first.symbol == symbol {
                return Role::Constructor(first);
            }
            let projected = projected_as(store, first, symbol);
            if is_plain(store, projected) {
                constructed_as(store, rest, symbol)
            } else {
                projected
            }
        }
        None => Role::Plain,
    }
}

// Among algebraic types.
fn algebraic_as<'a>(store: &Store, types: &'a [Alg], symbol: usize) -> Role<'a>
    requires { All (AlgebraicHeld store.now) types.now }
    ensures tree { role_at store.now result
        ≡ algebraic_as symbol (algebraics_at store.now types.now) }
    ensures held { RoleHeld store.now result }
{
    match types.split_first() {
        Some((first, rest)) => {
            if first.symbol == symbol {
                return Role::Algebraic(first.cons.as_slice());
            }
            let constructed = constructed_as(store, first.cons.as_slice(), symbol);
            if is_plain(store, constructed) {
                algebraic_as(store, rest, symbol)
            } else {
                constructed
            }
        }
        None => Role::Plain,
    }
}

// What a declaration makes a symbol as.
pub(crate) fn role_in<'a>(store: &Store, body: &'a Body, symbol: usize) -> Role<'a>
    requires { BodyHeld store.now body.now }
    ensures tree { role_at store.now result ≡ role_in symbol (body_at store.now body.now) }
    ensures held { RoleHeld store.now result }
{
    match body {
        Body::Defs(defs) => defined_as(store, defs.as_slice(), symbol),
        Body::Inductives(inductives) => inductive_as(store, inductives.as_slice(), symbol),
        Body::Algebraics(types) => algebraic_as(store, types.as_slice(), symbol),
        _ => Role::Plain,
    }
}

// Whether a declaration makes a symbol.
#[tactic(auto, using(crate::proofs::Declared::defined_made, crate::proofs::Declared::inductive_made, crate::proofs::Declared::types_made, crate::proofs::Declared::or_false))]
pub(crate) fn makes(store: &Store, body: &Body, symbol: usize) -> bool
    requires { BodyHeld store.now body.now }
    ensures { result ≡ is_made_by symbol (body_at store.now body.now) }
{
    match body {
        Body::TypeSymbol(known) => *known == symbol,
        Body::Symbol(known) => *known == symbol,
        Body::Prop(_) => false,
        Body::Defs(defs) => !is_plain(store, defined_as(store, defs.as_slice(), symbol)),
        Body::Inductives(inductives) => {
            !is_plain(store, inductive_as(store, inductives.as_slice(), symbol))
        }
        Body::Algebraics(types) => {
            !is_plain(store, algebraic_as(store, types.as_slice(), symbol))
        }
    }
}
