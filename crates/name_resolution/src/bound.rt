// The names that are bound around an expression.
// They depend on the surface trees alone; the walk of an expression's names depends on them.
ghost use Rattle.std.specs.Prelude.{◌≡◌, List, map};
ghost use Rattle.std.specs.Option.{is_some};
ghost use Rattle.name_resolution.specs.Abstract.{texts_of_names, binders_of};
ghost use Rattle.name_resolution.specs.Where.{place_of};
ghost use Rattle.name_resolution.specs.Faults.{bound_names, is_variable};
ghost use Rattle.name_resolution.specs.Naming.{names_at};

use crate::world::variable_named;
use surface::{BinderTree, Name};
use tasks::Text;

/// The names that are bound around an expression: one, those of binders, or those of a list, and those outside.
#[derive(Clone, Copy)]
pub enum Names<'a> {
    Outside,
    Inside(&'a [u8], &'a Names<'a>),
    Under(&'a [BinderTree], &'a Names<'a>),
    Among(&'a [Text], &'a Names<'a>),
}

// Whether a name is among these.
fn is_among(names: &[Name], name: &[u8]) -> bool
    ensures { result ≡ is_some (place_of name.now (texts_of_names names.now)) }
{
    match names.split_first() {
        Some((first, rest)) => first.text.as_slice() == name || is_among(rest, name),
        None => false,
    }
}

// Whether binders bind a name.
#[tactic(auto, using(crate::proofs::Placed::placed_both))]
fn binds(binders: &[BinderTree], name: &[u8]) -> bool
    ensures { result ≡ is_some (place_of name.now (bound_names (binders_of binders.now))) }
{
    match binders.split_first() {
        Some((first, rest)) => is_among(first.names.as_slice(), name) || binds(rest, name),
        None => false,
    }
}

// Whether a name is bound.
#[tactic(auto, using(crate::proofs::Placed::placed_under))]
fn is_bound(names: &Names<'_>, name: &[u8]) -> bool
    ensures { result ≡ is_some (place_of name.now (names_at names.now)) }
{
    match names {
        Names::Outside => false,
        Names::Inside(inner, outer) => *inner == name || is_bound(outer, name),
        Names::Under(binders, outer) => binds(binders, name) || is_bound(outer, name),
        Names::Among(names, outer) => {
            variable_named(names, name).is_some() || is_bound(outer, name)
        }
    }
}

/// Whether a name after scopes is that of a variable.
pub fn is_variable(names: &Names<'_>, scopes: &[Text], name: &[u8]) -> bool
    ensures { result ≡ is_variable scopes.now name.now (names_at names.now) }
{
    scopes.is_empty() && is_bound(names, name)
}
