// What a text is made with: a store, a driver, and a table of names.
ghost use Rattle.std.specs.Prelude.{◌≡◌, ◌∷◌, [], ◌==◌, OnOk, None, Some, MatchOption};
ghost use Rattle.std.specs.Fmt.{decimal};
ghost use Rattle.trees.specs.Node.{tree_at, Holds};
ghost use Rattle.name_tables.specs.Occurrences.{occurrence};
ghost use Rattle.printed_problems.specs.printed_terms.Texts.{name_at, printed_name, variable_text, parameter};
ghost use Rattle.printed_problems.specs.printed_terms.Meaning.{printing, CanPrint, Appends};
ghost use Rattle.printed_problems.specs.Templates.{template_in};

use crate::printed_terms::words::letter;
use drivers::driver_items::{Piece, Syntax};
use drivers::driver_parts::Driver;
use name_tables::{NameEntry, Things};
use std::alloc::{AllocError, Global};
use tasks::Seq;
use trees::store::{Store, TermId};

/// What types, terms and formulas are printed with: the store that has them, the driver with its templates, what is in the
/// table of names, and the names.
#[derive(Clone, Copy)]
pub struct TermPrinter<'a> {
    pub alloc: Global,
    pub store: &'a Store,
    pub driver: &'a Driver,
    pub things: &'a Things,
    pub names: &'a [NameEntry],
}

/// Appends the name at a place of the table.
pub fn push_name_at(c: &TermPrinter<'_>, out: &mut Vec<u8>, place: usize) -> Result<(), AllocError>
    ensures { OnOk result (Appends out.old.items (name_at (printing c.now) place) out.new.items) }
{
    match c.names.get(place) {
        Some(entry) => out.extend_from_slice(entry.name.as_slice()),
        None => Ok(()),
    }
}

/// Appends the name of a symbol at types.
pub(crate) fn push_name(
    c: &TermPrinter<'_>,
    out: &mut Vec<u8>,
    symbol: usize,
    types: TermId,
) -> Result<(), AllocError>
    requires can { CanPrint c.now }
    requires held { Holds c.now.store.now types }
    ensures { OnOk result (Appends out.old.items (printed_name (printing c.now) (occurrence symbol
        (tree_at c.now.store.now types))) out.new.items) }
{
    push_name_at(c, out, c.things.place_of(c.store, symbol, types))
}

/// The template of a symbol other than `int`.
pub(crate) fn template_in(templates: &[(usize, Seq<Piece>)], symbol: usize) -> Option<&[Piece]>
    ensures { MatchOption result (template_in templates.now symbol ≡ None) (λ pieces. template_in
        templates.now symbol ≡ Some pieces.now) }
{
    for template in templates {
        if template.0 == symbol {
            return Some(template.1.as_slice());
        }
    }
    None
}

/// Appends a number in decimals.
pub fn push_number(alloc: Global, out: &mut Vec<u8>, number: usize) -> Result<(), AllocError>
    ensures { OnOk result (Appends out.old.items (decimal number) out.new.items) }
{
    let digits = number.to_string(alloc)?;
    out.extend_from_slice(digits.as_bytes())
}

/// Appends the variable of the binder with so many binders around it.
pub(crate) fn push_variable(
    alloc: Global,
    out: &mut Vec<u8>,
    syntax: Syntax,
    depth: usize,
) -> Result<(), AllocError>
    ensures { OnOk result (Appends out.old.items (variable_text syntax depth) out.new.items) }
{
    out.extend_from_slice(letter(syntax))?;
    push_number(alloc, out, depth)
}

/// Appends the name of a parameter.
pub fn push_parameter(alloc: Global, out: &mut Vec<u8>, number: usize) -> Result<(), AllocError>
    ensures { OnOk result (Appends out.old.items (parameter number) out.new.items) }
{
    out.push(99)?;
    push_number(alloc, out, number)
}
