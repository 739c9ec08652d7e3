// The lines of a problem.
ghost use Rattle.std.specs.Prelude.{◌≡◌, slice_get, All, OnOk};
ghost use Rattle.std.specs.List.{flat_map};
ghost use Rattle.trees.specs.Node.{tree_at, Holds};
ghost use Rattle.tasks.specs.Meaning.{trees_at, symbols_at, SymbolHeld};
ghost use Rattle.printed_problems.specs.printed_terms.Texts.{text_of_entry};
ghost use Rattle.printed_problems.specs.printed_terms.Ranks.{sorts_at};
ghost use Rattle.printed_problems.specs.printed_terms.Meaning.{printing, CanPrint, Appends};
ghost use Rattle.part_texts.specs.tff_texts.Text.{tff_head_line, tff_typed, tff_sort_line, arguments_text, tff_result_text, tff_rank_line, tff_symbol_line, tff_parameter_lines, axiom_lines, tff_goal_line};

use name_tables::NameEntry;
use printed_problems::printed_terms::{
    Rank, TermPrinter, push_formula, push_number, push_parameter, push_sort, push_sort_at,
    push_sorts, rank_of,
};
use std::alloc::{AllocError, Global};
use tasks::SymbolInfo;
use trees::store::TermId;

/// Appends the line that counts a part.
pub(crate) fn push_head(
    alloc: Global,
    out: &mut Vec<u8>,
    part: usize,
    parts: usize,
) -> Result<(), AllocError>
    ensures { OnOk result (Appends out.old.items (tff_head_line part parts) out.new.items) }
{
    out.extend_from_slice(b"% ")?;
    push_number(alloc, out, part)?;
    out.extend_from_slice(b" of ")?;
    push_number(alloc, out, parts)?;
    out.extend_from_slice(b"\n")
}

// Appends the begin of the line that tells the type of a name.
fn push_typed(out: &mut Vec<u8>, name: &[u8]) -> Result<(), AllocError>
    ensures { OnOk result (Appends out.old.items (tff_typed name.now) out.new.items) }
{
    out.extend_from_slice(b"tff(")?;
    out.extend_from_slice(name)?;
    out.extend_from_slice(b", type, ")?;
    out.extend_from_slice(name)?;
    out.extend_from_slice(b": ")
}

// The name at a place of the table.
fn name_at(names: &[NameEntry], place: usize) -> &[u8]
    ensures { result.now ≡ text_of_entry (slice_get names.now place) }
{
    match names.get(place) {
        Some(entry) => entry.name.as_slice(),
        None => b"",
    }
}

/// Appends the lines that declare types.
pub(crate) fn push_sort_lines(
    c: &TermPrinter<'_>,
    out: &mut Vec<u8>,
    places: &[usize],
) -> Result<(), AllocError>
    ensures { OnOk result (Appends out.old.items
        (flat_map (tff_sort_line (printing c.now)) places.now)
        out.new.items) }
{
    for place in places {
        push_typed(out, name_at(c.names, *place))?;
        out.extend_from_slice(b"$tType).\n")?;
    }
    Ok(())
}

// Appends the types of arguments, with the arrow to the result's after them.
fn push_arguments(
    c: &TermPrinter<'_>,
    out: &mut Vec<u8>,
    places: &[usize],
) -> Result<(), AllocError>
    requires { CanPrint c.now }
    ensures { OnOk result (Appends out.old.items (arguments_text (sorts_at (printing c.now)
        places.now)) out.new.items) }
{
    match places {
        [] => Ok(()),
        [place] => {
            push_sort_at(c, out, *place)?;
            out.extend_from_slice(b" > ")
        }
        _ => {
            out.extend_from_slice(b"(")?;
            push_sorts(c, out, b" * ", places)?;
            out.extend_from_slice(b") > ")
        }
    }
}

// Appends the type of a result.
fn push_result(
    c: &TermPrinter<'_>,
    out: &mut Vec<u8>,
    place: Option<usize>,
) -> Result<(), AllocError>
    requires { CanPrint c.now }
    ensures { OnOk result (Appends out.old.items (tff_result_text (printing c.now) place)
        out.new.items) }
{
    match place {
        Some(place) => push_sort_at(c, out, place),
        None => out.extend_from_slice(b"$o"),
    }
}

// Appends the line that declares a name with a rank.
fn push_rank(
    c: &TermPrinter<'_>,
    out: &mut Vec<u8>,
    name: &[u8],
    rank: &Rank,
) -> Result<(), AllocError>
    requires { CanPrint c.now }
    ensures { OnOk result (Appends out.old.items (tff_rank_line (printing c.now) name.now rank.now)
        out.new.items) }
{
    push_typed(out, name)?;
    push_arguments(c, out, rank.args.as_slice())?;
    push_result(c, out, rank.result)?;
    out.extend_from_slice(b").\n")
}

// Appends the line that declares what is at a place of the table.
fn push_symbol_line(
    c: &TermPrinter<'_>,
    out: &mut Vec<u8>,
    symbols: &[SymbolInfo],
    place: usize,
) -> Result<(), AllocError>
    requires can { CanPrint c.now }
    requires held { All (SymbolHeld c.now.store.now) symbols.now }
    ensures { OnOk result (Appends out.old.items (tff_symbol_line (printing c.now) (symbols_at
        c.now.store.now symbols.now) place) out.new.items) }
{
    match c.names.get(place) {
        Some(entry) => {
            let rank = rank_of(c.alloc, c.store, c.names, symbols, entry)?;
            push_rank(c, out, entry.name.as_slice(), &rank)
        }
        None => Ok(()),
    }
}

/// Appends the lines that declare what is at places of the table.
pub(crate) fn push_symbol_lines(
    c: &TermPrinter<'_>,
    out: &mut Vec<u8>,
    symbols: &[SymbolInfo],
    places: &[usize],
) -> Result<(), AllocError>
    requires can { CanPrint c.now }
    requires held { All (SymbolHeld c.now.store.now) symbols.now }
    ensures { OnOk result (Appends out.old.items (flat_map (tff_symbol_line (printing c.now)
        (symbols_at c.now.store.now symbols.now)) places.now) out.new.items) }
{
    for place in places {
        push_symbol_line(c, out, symbols, *place)?;
    }
    Ok(())
}

/// Appends the lines that declare parameters.
pub(crate) fn push_parameter_lines(
    c: &TermPrinter<'_>,
    out: &mut Vec<u8>,
    types: &[TermId],
) -> Result<(), AllocError>
    requires can { CanPrint c.now }
    requires held { All (Holds c.now.store.now) types.now }
    ensures { OnOk result (Appends out.old.items (tff_parameter_lines (printing c.now) 0 (trees_at
        c.now.store.now types.now)) out.new.items) }
{
    for number in 0..types.len() {
        out.extend_from_slice(b"tff(")?;
        push_parameter(c.alloc, out, number)?;
        out.extend_from_slice(b", type, ")?;
        push_parameter(c.alloc, out, number)?;
        out.extend_from_slice(b": ")?;
        push_sort(c, out, types[number])?;
        out.extend_from_slice(b").\n")?;
    }
    Ok(())
}

/// Appends formulas as axioms.
pub(crate) fn push_axioms(
    c: &TermPrinter<'_>,
    out: &mut Vec<u8>,
    formulas: &[TermId],
) -> Result<(), AllocError>
    requires can { CanPrint c.now }
    requires held { All (Holds c.now.store.now) formulas.now }
    ensures { OnOk result (Appends out.old.items (axiom_lines (printing c.now) 0 (trees_at
        c.now.store.now formulas.now)) out.new.items) }
{
    for number in 0..formulas.len() {
        out.extend_from_slice(b"tff(ax_")?;
        push_number(c.alloc, out, number)?;
        out.extend_from_slice(b", axiom, ")?;
        push_formula(c, out, formulas[number])?;
        out.extend_from_slice(b").\n")?;
    }
    Ok(())
}

/// Appends the goal as the conjecture.
pub(crate) fn push_goal(c: &TermPrinter<'_>, out: &mut Vec<u8>, e: TermId) -> Result<(), AllocError>
    requires can { CanPrint c.now }
    requires held { Holds c.now.store.now e }
    ensures { OnOk result (Appends out.old.items (tff_goal_line (printing c.now) (tree_at
        c.now.store.now e)) out.new.items) }
{
    out.extend_from_slice(b"tff(goal, conjecture, ")?;
    push_formula(c, out, e)?;
    out.extend_from_slice(b").\n")
}
