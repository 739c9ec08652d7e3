// Templates: the pieces of a string, and whether they name each argument once.
// They depend on the driver; the steps of the reader depend on them.
ghost use Rattle.std.specs.Prelude.{false, [], ◌≡◌, ◌++◌, ◌&&◌, IfOk, count_by};
ghost use Rattle.drivers.specs.driver_items.Templates as spec;
ghost use Rattle.drivers.specs.driver_items.Templates.{GoesOn, GoesOnEscaped, GoesOnPlain};

use crate::driver_items::kinds::Piece;
use outside::{Seq, Text};
use std::alloc::{AllocError, Global};

/// The pieces so far, and a literal that isn't ended.
fn put_literal(alloc: Global, pieces: &mut Seq<Piece>, literal: &[u8]) -> Result<(), AllocError>
    ensures { IfOk result (λ u. pieces.new ≡ pieces.old ++ spec.literal_pieces literal.now) }
{
    if !literal.is_empty() {
        pieces.push(Piece::Literal(Text::from_slice(alloc, literal)?))?;
    }
    Ok(())
}

/// A byte where no `%` is before; whether it is one.
fn take_plain(literal: &mut Vec<u8>, byte: u8) -> Result<bool, AllocError>
    ensures { IfOk result (λ percent. GoesOnPlain byte literal.old.items literal.new.items
        percent) }
{
    if byte == b'%' {
        return Ok(true);
    }
    literal.push(byte)?;
    Ok(false)
}

/// A byte after `%`; whether it may be there.
fn take_escaped(
    alloc: Global,
    pieces: &mut Seq<Piece>,
    literal: &mut Vec<u8>,
    byte: u8,
) -> Result<bool, AllocError>
    ensures { IfOk result (λ stands. GoesOnEscaped byte pieces.old literal.old.items pieces.new
        literal.new.items stands) }
{
    if byte == b'%' {
        literal.push(byte)?;
        return Ok(true);
    }
    if byte < b'1' || b'9' < byte {
        return Ok(false);
    }
    put_literal(alloc, pieces, literal)?;
    literal.clear();
    pieces.push(Piece::Argument(usize::from(byte - b'1')))?;
    Ok(true)
}

/// A byte; whether it is a `%` that the next byte goes with, or none where the byte may not be there.
fn take_byte(
    alloc: Global,
    pieces: &mut Seq<Piece>,
    literal: &mut Vec<u8>,
    percent: bool,
    byte: u8,
) -> Result<Option<bool>, AllocError>
    ensures { IfOk result (λ next. GoesOn percent byte pieces.old literal.old.items pieces.new
        literal.new.items next) }
{
    if !percent {
        return Ok(Some(take_plain(literal, byte)?));
    }
    let stands = take_escaped(alloc, pieces, literal, byte)?;
    if stands { Ok(Some(false)) } else { Ok(None) }
}

/// The pieces of a template, unless `%` is before something else than a digit from 1 to 9 or `%`.
fn pieces_of(alloc: Global, template: &[u8]) -> Result<Option<Seq<Piece>>, AllocError>
    ensures { IfOk result (λ r. r ≡ spec.pieces_from false [] template.now) }
{
    let mut pieces = Seq::new(alloc);
    let mut literal = Vec::new(alloc);
    let mut percent = false;
    for byte in template {
        match take_byte(alloc, &mut pieces, &mut literal, percent, *byte)? {
            Some(next) => percent = next,
            None => return Ok(None),
        }
    }
    if percent {
        return Ok(None);
    }
    put_literal(alloc, &mut pieces, &literal)?;
    Ok(Some(pieces))
}

fn is_argument(piece: &Piece, number: usize) -> bool
    ensures { result ≡ spec.is_argument number piece.now }
{
    match piece {
        Piece::Argument(its) => *its == number,
        Piece::Literal(_) => false,
    }
}

/// How often an argument is named.
fn uses_of(pieces: &[Piece], number: usize) -> usize
    ensures { result ≡ count_by (spec.is_argument number) pieces.now }
{
    pieces
        .iter()
        .filter(|piece| is_argument(piece, number))
        .count()
}

/// Whether an argument is named as often as a symbol of this arity wants.
fn is_as_wanted(pieces: &[Piece], arity: usize, number: usize) -> bool
    ensures { result ≡ spec.as_wanted pieces.now arity number }
{
    let wanted = if number < arity { 1 } else { 0 };
    uses_of(pieces, number) == wanted
}

fn are_both(left: bool, right: bool) -> bool
    ensures { result ≡ (left && right) }
{
    left && right
}

/// Whether each of nine arguments is named as often as it is wanted.
fn fits(pieces: &[Piece], arity: usize) -> bool
    ensures { result ≡ spec.fits pieces.now arity }
{
    let mut all = arity <= 9;
    for number in 0..9 {
        all = are_both(all, is_as_wanted(pieces, arity, number));
    }
    all
}

/// The pieces of a template for a symbol with so many arguments, if it is one.
pub fn template_of(
    alloc: Global,
    template: &[u8],
    arity: usize,
) -> Result<Option<Seq<Piece>>, AllocError>
    ensures { IfOk result (λ r. r ≡ spec.template_pieces template.now arity) }
{
    match pieces_of(alloc, template)? {
        None => Ok(None),
        Some(pieces) => {
            if fits(pieces.as_slice(), arity) {
                Ok(Some(pieces))
            } else {
                Ok(None)
            }
        }
    }
}
