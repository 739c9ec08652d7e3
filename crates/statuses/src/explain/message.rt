// The message of a fault: where it is, its words, its numbers, and the line with a caret.
// It depends on the table and the places; the program's words depend on it.
ghost use Rattle.std.specs.Prelude.{◌≡◌, ◌≤◌, ◌++◌, IfOk, OnOk, length, map, filter};
ghost use Rattle.std.specs.Option.{option_map};
ghost use Rattle.statuses.specs.explain.Message as spec;
ghost use Rattle.statuses.specs.explain.Message.{spaced_words, row_for, Explains};
ghost use Rattle.statuses.specs.explain.Places.{IsSpot};
ghost use Rattle.statuses.specs.explain.Table.{row_text};

use crate::explain::places::{
    Spot, begins_character, column_after, line_of, lines, place, spot_of,
};
use crate::explain::table::{Row, row_of};
use std::alloc::{AllocError, Global};

const DELETE: u8 = 127;

fn push_numbers(alloc: Global, text: &mut Vec<u8>, numbers: &[usize]) -> Result<(), AllocError>
    ensures { OnOk result (text.new.items ≡ text.old.items ++ spaced_words numbers.now) }
{
    for number in numbers {
        text.push(b' ')?;
        let digits = number.to_string(alloc)?;
        text.extend_from_slice(digits.as_bytes())?;
    }
    Ok(())
}

fn shown_byte(byte: u8) -> u8
    ensures { result ≡ spec.shown byte }
{
    if byte == b'\t' {
        b'\t'
    } else if byte < b' ' || byte == DELETE {
        b' '
    } else {
        byte
    }
}

fn byte_under(byte: u8) -> u8
    ensures { result ≡ spec.under_character byte }
{
    if byte == b'\t' { b'\t' } else { b' ' }
}

fn shown_line(alloc: Global, line: &[u8]) -> Result<Vec<u8>, AllocError>
    ensures { IfOk result (λ v. v.items ≡ spec.shown_line line.now) }
{
    let mut text = Vec::new(alloc);
    for byte in line {
        text.push(shown_byte(*byte))?;
    }
    text.push(b'\n')?;
    Ok(text)
}

fn line_if_any(alloc: Global, line: &[u8]) -> Result<Vec<u8>, AllocError>
    ensures { IfOk result (λ v. v.items ≡ spec.line_if_any line.now) }
{
    match line {
        [] => Ok(Vec::new(alloc)),
        [_, ..] => shown_line(alloc, line),
    }
}

fn caret_line(alloc: Global, before: &[u8]) -> Result<Vec<u8>, AllocError>
    ensures { IfOk result (λ v. v.items ≡ spec.caret_line before.now) }
{
    let mut text = Vec::new(alloc);
    for byte in before {
        if begins_character(*byte) {
            text.push(byte_under(*byte))?;
        }
    }
    text.extend_from_slice(b"^\n")?;
    Ok(text)
}

fn place_text(alloc: Global, text: &[u8], spot: Spot) -> Result<Vec<u8>, AllocError>
    requires { IsSpot text.now spot }
    ensures { IfOk result (λ v. v.items ≡ spec.place_text text.now spot) }
{
    let mut out = Vec::new(alloc);
    match spot {
        Spot::Nowhere => Ok(out),
        Spot::Byte(byte) => {
            let (number, before) = place(alloc, text, byte)?;
            out.extend_from_slice(number.to_string(alloc)?.as_bytes())?;
            out.push(b':')?;
            out.extend_from_slice(column_after(before).to_string(alloc)?.as_bytes())?;
            out.push(b':')?;
            Ok(out)
        }
        Spot::Line(number) => {
            out.extend_from_slice(number.to_string(alloc)?.as_bytes())?;
            out.push(b':')?;
            Ok(out)
        }
    }
}

fn excerpt(alloc: Global, text: &[u8], spot: Spot) -> Result<Vec<u8>, AllocError>
    requires { IsSpot text.now spot }
    ensures { IfOk result (λ v. v.items ≡ spec.excerpt text.now spot) }
{
    match spot {
        Spot::Nowhere => Ok(Vec::new(alloc)),
        Spot::Byte(byte) => {
            let (number, before) = place(alloc, text, byte)?;
            let lines = lines(alloc, text)?;
            let mut out = shown_line(alloc, line_of(&lines, number))?;
            let caret = caret_line(alloc, before)?;
            out.extend_from_slice(&caret)?;
            Ok(out)
        }
        Spot::Line(number) => {
            let lines = lines(alloc, text)?;
            line_if_any(alloc, line_of(&lines, number))
        }
    }
}

fn head_line(
    alloc: Global,
    name: &str,
    place: &[u8],
    words: &str,
    fault: &[usize],
) -> Result<Vec<u8>, AllocError>
    ensures { IfOk result (λ v. v.items ≡ spec.head_line name.now place.now words.now fault.now) }
{
    let mut out = Vec::from_slice(alloc, name.as_bytes())?;
    out.push(b':')?;
    out.extend_from_slice(place)?;
    out.push(b' ')?;
    out.extend_from_slice(words.as_bytes())?;
    out.extend_from_slice(b" (refused:")?;
    push_numbers(alloc, &mut out, fault)?;
    out.extend_from_slice(b")\n")?;
    Ok(out)
}

fn message(
    alloc: Global,
    name: &str,
    text: &[u8],
    fault: &[usize],
    row: Row,
    spot: Spot,
) -> Result<Vec<u8>, AllocError>
    requires { IsSpot text.now spot }
    ensures { IfOk result (λ v. v.items
        ≡ spec.message name.now text.now fault.now (row_text row) spot) }
{
    let place = place_text(alloc, text, spot)?;
    let mut out = head_line(alloc, name, &place, row.words, fault)?;
    let excerpt = excerpt(alloc, text, spot)?;
    out.extend_from_slice(&excerpt)?;
    Ok(out)
}

pub(crate) fn row_for(fault: &[usize]) -> Option<Row>
    ensures { option_map row_text result ≡ row_for fault.now }
{
    match fault {
        [] => None,
        [code, fields @ ..] => match row_of(*code) {
            None => None,
            Some(row) => {
                if row.fields == fields.len() {
                    Some(row)
                } else {
                    None
                }
            }
        },
    }
}

fn last_of(fault: &[usize]) -> usize
    ensures { result ≡ spec.last_of fault.now }
{
    match fault.last() {
        Some(number) => *number,
        None => 0,
    }
}

/// The message of a fault in a file: where it is, its words, its numbers, and the line with a
/// caret.
///
/// `fault` is the code with the numbers after it, as a line `refused:` has them. None exactly where
/// the table has no such code with so many numbers.
pub fn explain(
    alloc: Global,
    name: &str,
    text: &[u8],
    fault: &[usize],
) -> Result<Option<Vec<u8>>, AllocError>
    ensures { IfOk result (λ o. Explains name.now text.now fault.now
        (option_map (λ v. v.items) o)) }
{
    match row_for(fault) {
        None => Ok(None),
        Some(row) => {
            let spot = spot_of(alloc, text, row.counts, last_of(fault))?;
            Ok(Some(message(alloc, name, text, fault, row, spot)?))
        }
    }
}
