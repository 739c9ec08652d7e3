// Types as text.
ghost use Rattle.std.specs.Prelude.{◌<◌, map, All, OnOk, Some};
ghost use Rattle.trees.specs.declared.TermId.{TermId};
ghost use Rattle.trees.specs.Node.{tree_at, Holds};
ghost use Rattle.tasks.specs.Meaning.{trees_at};
ghost use Rattle.name_tables.specs.Seen.{occurrence_at, KeyHeld};
ghost use Rattle.printed_problems.specs.Templates.{by_pieces};
ghost use Rattle.printed_problems.specs.printed_terms.Texts.{sort_by, sort_text};
ghost use Rattle.printed_problems.specs.printed_terms.Ranks.{sort_of_thing, sort_at};
ghost use Rattle.printed_problems.specs.printed_terms.Meaning.{printing, CanPrint, Appends};

use crate::printed_terms::lists::members;
use crate::printed_terms::printer::{TermPrinter, push_name_at, template_in};
use drivers::driver_items::Piece;
use std::alloc::AllocError;
use trees::store::{Node, TermId};

/// Appends the sort of a type.
#[cycle(sorts)]
pub fn push_sort(c: &TermPrinter<'_>, out: &mut Vec<u8>, ty: TermId) -> Result<(), AllocError>
    requires can { CanPrint c.now }
    requires held { Holds c.now.store.now ty }
    ensures { OnOk result (Appends out.old.items (sort_text (printing c.now) (tree_at
        c.now.store.now ty)) out.new.items) }
{
    match c.store.node(ty) {
        Node::TyApp(symbol, types) => {
            let args = members(c.alloc, c.store, types)?;
            let place = c.things.place_of(c.store, symbol, types);
            push_sort_by(c, out, symbol, place, args.as_slice(), types)
        }
        Node::TyRigid(symbol) => {
            let place = c.things.place_of_type(c.store, ty);
            push_sort_by(c, out, symbol, place, &[], ty)
        }
        _ => Ok(()),
    }
}

// Appends the sort of a type symbol that is at a place of the table, with arguments that are below a number.
#[cycle(sorts)]
fn push_sort_by(
    c: &TermPrinter<'_>,
    out: &mut Vec<u8>,
    symbol: usize,
    place: usize,
    args: &[TermId],
    below: TermId,
) -> Result<(), AllocError>
    requires can { CanPrint c.now }
    requires held { Holds c.now.store.now below }
    requires below { All (λ (id : TermId). id.0 < below.0) args.now }
    ensures { OnOk result (Appends out.old.items (sort_by (printing c.now) symbol place
        (map (sort_text (printing c.now)) (trees_at c.now.store.now args.now))) out.new.items) }
{
    if symbol == 0 {
        return match &c.driver.int_template {
            Some(text) => out.extend_from_slice(text.as_slice()),
            None => push_name_at(c, out, place),
        };
    }
    match template_in(c.driver.templates.as_slice(), symbol) {
        Some(pieces) => push_sort_pieces(c, out, pieces, args, below),
        None => push_name_at(c, out, place),
    }
}

// Appends the pieces of a type's template, with the sorts of types that are below a number.
#[cycle(sorts)]
fn push_sort_pieces(
    c: &TermPrinter<'_>,
    out: &mut Vec<u8>,
    pieces: &[Piece],
    args: &[TermId],
    below: TermId,
) -> Result<(), AllocError>
    requires can { CanPrint c.now }
    requires held { Holds c.now.store.now below }
    requires below { All (λ (id : TermId). id.0 < below.0) args.now }
    ensures { OnOk result (Appends out.old.items (by_pieces pieces.now (map (sort_text
        (printing c.now)) (trees_at c.now.store.now args.now))) out.new.items) }
{
    for piece in pieces {
        match piece {
            Piece::Literal(text) => out.extend_from_slice(text.as_slice())?,
            Piece::Argument(number) => {
                if let Some(arg) = args.get(*number) {
                    push_sort(c, out, *arg)?;
                }
            }
        }
    }
    Ok(())
}

// Appends the sort of a thing that is at a place of the table.
fn push_sort_of_thing(
    c: &TermPrinter<'_>,
    out: &mut Vec<u8>,
    place: usize,
    key: (usize, usize),
) -> Result<(), AllocError>
    requires can { CanPrint c.now }
    requires held { KeyHeld c.now.store.now key }
    ensures { OnOk result (Appends out.old.items (sort_of_thing (printing c.now) place
        (Some (occurrence_at c.now.store.now key))) out.new.items) }
{
    let types = TermId(key.1);
    let args = members(c.alloc, c.store, types)?;
    push_sort_by(c, out, key.0, place, args.as_slice(), types)
}

/// Appends the sort of what is at a place of the table.
pub fn push_sort_at(c: &TermPrinter<'_>, out: &mut Vec<u8>, place: usize) -> Result<(), AllocError>
    requires { CanPrint c.now }
    ensures { OnOk result (Appends out.old.items (sort_at (printing c.now) place) out.new.items) }
{
    let keys = c.things.as_slice();
    if place >= keys.len() {
        return Ok(());
    }
    push_sort_of_thing(c, out, place, keys[place])
}
