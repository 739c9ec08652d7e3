// What has been read of a driver so far.
// It depends on the driver; the steps of the reader depend on it.
ghost use Rattle.std.specs.Prelude.{◌≡◌, IfOk};
ghost use Rattle.drivers.specs.driver_parts.Parts as spec;
ghost use Rattle.drivers.specs.driver_parts.Parts.{IsPlaceOf};

use crate::driver_items::{Piece, Printer, Target, Trans};
use crate::driver_parts::driver::Driver;
use outside::{Seq, Text};
use std::alloc::{AllocError, Global};

/// The parts of a driver.
#[derive(Drop)]
pub struct DriverParts {
    pub printer: Option<Printer>,
    pub stages: Seq<Trans>,
    pub removed: Seq<(Text, Text)>,
    pub all_removed: Seq<Text>,
    pub templates: Seq<(usize, Seq<Piece>)>,
    pub int_template: Option<Text>,
    pub eq_template: Option<Seq<Piece>>,
    pub preludes: Seq<(Option<Text>, Text)>,
}

/// Nothing has been read.
pub fn no_parts(alloc: Global) -> DriverParts
    ensures { result ≡ spec.no_parts }
{
    DriverParts {
        printer: None,
        stages: Seq::new(alloc),
        removed: Seq::new(alloc),
        all_removed: Seq::new(alloc),
        templates: Seq::new(alloc),
        int_template: None,
        eq_template: None,
        preludes: Seq::new(alloc),
    }
}

/// The text of a template without arguments.
fn literal_of(alloc: Global, pieces: Seq<Piece>) -> Text
    ensures { result ≡ spec.literal_of pieces }
{
    let mut pieces = pieces;
    if pieces.is_empty() {
        return Text::from_vec(Vec::new(alloc));
    }
    match pieces.remove(0) {
        Piece::Literal(text) => text,
        Piece::Argument(_) => Text::from_vec(Vec::new(alloc)),
    }
}

/// The place of an entry's template, if it has one, or after the last.
fn place_of(templates: &[(usize, Seq<Piece>)], entry: usize) -> usize
    ensures { IsPlaceOf templates.now entry result }
{
    for (place, template) in templates.iter().enumerate() {
        if template.0 == entry {
            return place;
        }
    }
    templates.len()
}

/// The template of an entry in the place of its earlier one, or at the end.
fn set_entry(
    templates: &mut Seq<(usize, Seq<Piece>)>,
    entry: usize,
    pieces: Seq<Piece>,
) -> Result<(), AllocError>
    ensures { IfOk result (λ u. templates.new ≡ spec.with_template_at templates.old entry pieces) }
{
    let place = place_of(templates.as_slice(), entry);
    if place < templates.len() {
        templates.set(place, (entry, pieces));
        return Ok(());
    }
    templates.push((entry, pieces))
}

/// The template of a symbol; the last one counts.
pub fn set_template(
    alloc: Global,
    parts: &mut DriverParts,
    target: Target,
    pieces: Seq<Piece>,
) -> Result<(), AllocError>
    ensures { IfOk result (λ u. parts.new ≡ spec.with_template parts.old target pieces) }
{
    match target {
        Target::Int => {
            parts.int_template = Some(literal_of(alloc, pieces));
            Ok(())
        }
        Target::Equality => {
            parts.eq_template = Some(pieces);
            Ok(())
        }
        Target::Entry(entry) => set_entry(&mut parts.templates, entry, pieces),
    }
}

/// The driver of its parts, with a printer.
pub fn driver_of(parts: DriverParts, printer: Printer, next_file: usize) -> Driver
    ensures { result ≡ spec.driver_of parts printer next_file }
{
    let DriverParts {
        printer: _,
        stages,
        removed,
        all_removed,
        templates,
        int_template,
        eq_template,
        preludes,
    } = parts;
    Driver {
        printer,
        stages,
        removed,
        all_removed,
        templates,
        int_template,
        eq_template,
        preludes,
        next_file,
    }
}
