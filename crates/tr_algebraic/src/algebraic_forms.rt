// What algebraic types say, as formulas over a store, and the declarations that are put in their place: types, constructors and
// projections as symbols alone, and then their laws.
//
// Contract: exactly the laws of the definitions and the declarations, and of which kind each law is.

ghost use Rattle.tr_algebraic.specs.algebraic_forms.Laws.{
  AlgebraicTypesKeepMade,
  AlgebraicTypesStayValid,
  NoMatchMatchesNone,
};

mod cases;
mod decls;
mod distinct;
mod laws;
mod origins;
mod projecting;
mod terms;

pub use decls::push_in_place;
pub use origins::{LawKind, LawSearch, search_laws};

/// The laws of algebraic types as symbols with their laws: what is put in the place of a declaration makes the same symbols, as
/// nothing more than symbols; it is valid where the declaration is, over any vocabulary that names as much, whatever patterns may
/// name there; and an expression without a `match` has no pattern's constructor in it. It does nothing when it runs.
pub fn law_of_algebraic_types()
    ensures made { AlgebraicTypesKeepMade }
    ensures valid { AlgebraicTypesStayValid }
    ensures none { NoMatchMatchesNone }
{}
