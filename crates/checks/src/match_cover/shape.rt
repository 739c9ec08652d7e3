// How far a value is known.
// It depends on std alone; the cover of patterns depends on it.
ghost use Rattle.std.specs.Prelude.{◌≡◌, ◌≤◌, ◌∷◌, IfOk, vec_len};
ghost use Rattle.std.specs.Option.{option_map};
ghost use Rattle.checks.specs.match_cover.Shapes.{unspecified, built, more_shapes};
ghost use Rattle.checks.specs.match_cover.Tables.{unknowns};
ghost use Rattle.checks.specs.match_cover.Meaning.{shape_of, shapes_of, first_shapes, shapes_after};

use std::alloc::{AllocError, Global};
use tasks::Seq;

/// How far a value is known: not at all where it has no constructor, else its constructor with a shape for each field.
#[derive(Drop)]
pub struct ValueShape {
    /// The constructor's entry in the signature.
    pub con: Option<usize>,
    /// The shapes of the fields, in order; none of an unspecified shape.
    pub parts: Seq<ValueShape>,
}

// The unspecified shape.
pub(crate) fn unknown_shape(alloc: Global) -> ValueShape
    ensures { shape_of result ≡ unspecified }
{
    ValueShape {
        con: None,
        parts: Seq::new(alloc),
    }
}

// So many unspecified shapes.
#[tactic(auto, using(crate::proofs::match_cover::Shapes::unknowns_push))]
pub(crate) fn unknowns(alloc: Global, count: usize) -> Result<Vec<ValueShape>, AllocError>
    ensures { IfOk result (λ v. shapes_of v.items ≡ unknowns count) }
{
    let mut shapes = Vec::new(alloc);
    for _made in 0..count {
        shapes.push(unknown_shape(alloc))?;
    }
    Ok(shapes)
}

// Shapes after another one.
fn with_first(
    alloc: Global,
    first: ValueShape,
    mut rest: Vec<ValueShape>,
) -> Result<Vec<ValueShape>, AllocError>
    ensures { IfOk result (λ v. v.items ≡ first ∷ rest.items) }
{
    let mut all = Vec::new(alloc);
    all.push(first)?;
    all.append(&mut rest)?;
    Ok(all)
}

// Shapes after an unspecified one, if they are there.
pub(crate) fn after_unknown(
    alloc: Global,
    shapes: Option<Vec<ValueShape>>,
) -> Result<Option<Vec<ValueShape>>, AllocError>
    ensures { IfOk result (λ o. option_map (λ v. shapes_of v.items) o
        ≡ option_map (more_shapes unspecified) (option_map (λ v. shapes_of v.items) shapes)) }
{
    match shapes {
        Some(rest) => {
            let all = with_first(alloc, unknown_shape(alloc), rest)?;
            Ok(Some(all))
        }
        None => Ok(None),
    }
}

// A constructor on shapes.
fn build_shape(con: usize, parts: Vec<ValueShape>) -> ValueShape
    ensures { shape_of result ≡ built con (shapes_of parts.items) }
{
    ValueShape {
        con: Some(con),
        parts: Seq::from_vec(parts),
    }
}

// Shapes after a constructor on the first so many of them.
#[tactic(auto, using(crate::proofs::match_cover::Shapes::built_first))]
pub(crate) fn with_built(
    alloc: Global,
    con: usize,
    arity: usize,
    mut shapes: Vec<ValueShape>,
) -> Result<Vec<ValueShape>, AllocError>
    requires { arity ≤ vec_len shapes }
    ensures { IfOk result (λ v. shapes_of v.items
        ≡ more_shapes (built con (first_shapes arity (shapes_of shapes.items)))
        (shapes_after arity (shapes_of shapes.items))) }
{
    let rest = shapes.split_off(arity)?;
    let all = with_first(alloc, build_shape(con, shapes), rest)?;
    Ok(all)
}
