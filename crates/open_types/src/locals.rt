// The variables that are bound around an expression.
// They depend on the numbers of types; the walk depends on them.
ghost use Rattle.std.specs.Prelude.{◌≡◌, List, ◌++◌, map, reverse, IfSome, IfOk, All, option_map};
ghost use Rattle.trees.specs.Tree.{Tree};
ghost use Rattle.open_types.specs.Pieces.{variable_named, found_local};
ghost use Rattle.open_types.specs.Drafts.{local_at, locals_at, place_pair_at, HoldsType, LocalsHeld};

use scopes::Text;
use std::alloc::AllocError;
use trees::store::TermId;

/// A variable with its type.
#[derive(Clone, Copy)]
pub struct Local<'a> {
    pub name: &'a [u8],
    pub ty: TermId,
}

/// The variables around an expression: those of a binder in order, and those outside.
#[derive(Clone, Copy)]
pub enum Locals<'a> {
    Outside,
    Inside(&'a [Local<'a>], &'a Locals<'a>),
}

// The place of a variable, counted from the innermost, and its type. More places than there are numbers are want of memory.
#[cycle(locals)]
fn local_around(locals: &Locals<'_>, name: &[u8]) -> Result<Option<(usize, TermId)>, AllocError>
    ensures found { IfOk result (λ found'. (s : List Tree) → variable_named name.now (locals_at s
        locals.now) ≡ option_map (place_pair_at s) found') }
    ensures held { IfOk result (λ found'. (s : List Tree) → LocalsHeld s locals.now → IfSome found'
        (λ p. HoldsType s p.1)) }
{
    match locals {
        Locals::Outside => Ok(None),
        Locals::Inside(inner, outer) => local_among(inner, outer, name),
    }
}

#[cycle(locals)]
fn local_among(
    inner: &[Local<'_>],
    outer: &Locals<'_>,
    name: &[u8],
) -> Result<Option<(usize, TermId)>, AllocError>
    ensures found { IfOk result (λ found'. (s : List Tree) → variable_named name.now (reverse (map
        (local_at s) inner.now) ++ locals_at s outer.now) ≡ option_map (place_pair_at s) found') }
    ensures held { IfOk result (λ found'. (s : List Tree) → All (λ l. HoldsType s l.ty) inner.now →
        LocalsHeld s outer.now → IfSome found' (λ p. HoldsType s p.1)) }
{
    let Some((last, rest)) = inner.split_last() else {
        return local_around(outer, name);
    };
    if last.name == name {
        return Ok(Some((0, last.ty)));
    }
    match local_among(rest, outer, name)? {
        None => Ok(None),
        Some((place, ty)) => match place.checked_add(1) {
            Some(next) => Ok(Some((next, ty))),
            None => Err(AllocError),
        },
    }
}

/// The place of the variable for which a name after scopes stands, and its type. Only a name without scopes is one.
pub fn local_named(
    locals: &Locals<'_>,
    scopes: &[Text],
    name: &[u8],
) -> Result<Option<(usize, TermId)>, AllocError>
    ensures found { IfOk result (λ found'. (s : List Tree)
        → found_local scopes.now name.now (locals_at s
        locals.now) ≡ option_map (place_pair_at s) found') }
    ensures held { IfOk result (λ found'. (s : List Tree) → LocalsHeld s locals.now → IfSome found'
        (λ p. HoldsType s p.1)) }
{
    if scopes.is_empty() {
        local_around(locals, name)
    } else {
        Ok(None)
    }
}
