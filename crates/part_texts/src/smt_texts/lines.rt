// The lines of a problem.
ghost use Rattle.std.specs.Prelude.{All, OnOk};
ghost use Rattle.std.specs.List.{flat_map};
ghost use Rattle.trees.specs.Node.{tree_at, Holds};
ghost use Rattle.tasks.specs.Meaning.{trees_at, symbols_at, SymbolHeld};
ghost use Rattle.printed_problems.specs.printed_terms.Meaning.{printing, CanPrint, Appends};
ghost use Rattle.part_texts.specs.smt_texts.Text.{smt_head_line, smt_sort_line, smt_result_text, smt_rank_line, smt_symbol_line, smt_parameter_lines, assertion, smt_goal_line};

use printed_problems::printed_terms::{
    Rank, TermPrinter, push_formula, push_name_at, push_number, push_parameter, push_sort,
    push_sort_at, push_sorts, rank_of,
};
use std::alloc::{AllocError, Global};
use tasks::SymbolInfo;
use trees::store::TermId;

/// Appends the line that counts a part.
pub(crate) fn push_head(
    alloc: Global,
    out: &mut Vec<u8>,
    part: usize,
    parts: usize,
) -> Result<(), AllocError>
    ensures { OnOk result (Appends out.old.items (smt_head_line part parts) out.new.items) }
{
    out.extend_from_slice(b"; ")?;
    push_number(alloc, out, part)?;
    out.extend_from_slice(b" of ")?;
    push_number(alloc, out, parts)?;
    out.extend_from_slice(b"\n")
}

/// Appends the lines that declare types.
pub(crate) fn push_sort_lines(
    c: &TermPrinter<'_>,
    out: &mut Vec<u8>,
    places: &[usize],
) -> Result<(), AllocError>
    ensures { OnOk result (Appends out.old.items
        (flat_map (smt_sort_line (printing c.now)) places.now)
        out.new.items) }
{
    for place in places {
        out.extend_from_slice(b"(declare-sort ")?;
        push_name_at(c, out, *place)?;
        out.extend_from_slice(b" 0)\n")?;
    }
    Ok(())
}

// Appends the sort of a result.
fn push_result(
    c: &TermPrinter<'_>,
    out: &mut Vec<u8>,
    place: Option<usize>,
) -> Result<(), AllocError>
    requires { CanPrint c.now }
    ensures { OnOk result (Appends out.old.items (smt_result_text (printing c.now) place)
        out.new.items) }
{
    match place {
        Some(place) => push_sort_at(c, out, place),
        None => out.extend_from_slice(b"Bool"),
    }
}

// Appends the line that declares a name with a rank.
fn push_rank(
    c: &TermPrinter<'_>,
    out: &mut Vec<u8>,
    name: &[u8],
    rank: &Rank,
) -> Result<(), AllocError>
    requires { CanPrint c.now }
    ensures { OnOk result (Appends out.old.items (smt_rank_line (printing c.now) name.now rank.now)
        out.new.items) }
{
    out.extend_from_slice(b"(declare-fun ")?;
    out.extend_from_slice(name)?;
    out.extend_from_slice(b" (")?;
    push_sorts(c, out, b" ", rank.args.as_slice())?;
    out.extend_from_slice(b") ")?;
    push_result(c, out, rank.result)?;
    out.extend_from_slice(b")\n")
}

// Appends the line that declares what is at a place of the table.
fn push_symbol_line(
    c: &TermPrinter<'_>,
    out: &mut Vec<u8>,
    symbols: &[SymbolInfo],
    place: usize,
) -> Result<(), AllocError>
    requires can { CanPrint c.now }
    requires held { All (SymbolHeld c.now.store.now) symbols.now }
    ensures { OnOk result (Appends out.old.items (smt_symbol_line (printing c.now) (symbols_at
        c.now.store.now symbols.now) place) out.new.items) }
{
    match c.names.get(place) {
        Some(entry) => {
            let rank = rank_of(c.alloc, c.store, c.names, symbols, entry)?;
            push_rank(c, out, entry.name.as_slice(), &rank)
        }
        None => Ok(()),
    }
}

/// Appends the lines that declare what is at places of the table.
pub(crate) fn push_symbol_lines(
    c: &TermPrinter<'_>,
    out: &mut Vec<u8>,
    symbols: &[SymbolInfo],
    places: &[usize],
) -> Result<(), AllocError>
    requires can { CanPrint c.now }
    requires held { All (SymbolHeld c.now.store.now) symbols.now }
    ensures { OnOk result (Appends out.old.items (flat_map (smt_symbol_line (printing c.now)
        (symbols_at c.now.store.now symbols.now)) places.now) out.new.items) }
{
    for place in places {
        push_symbol_line(c, out, symbols, *place)?;
    }
    Ok(())
}

/// Appends the lines that declare parameters.
pub(crate) fn push_parameter_lines(
    c: &TermPrinter<'_>,
    out: &mut Vec<u8>,
    types: &[TermId],
) -> Result<(), AllocError>
    requires can { CanPrint c.now }
    requires held { All (Holds c.now.store.now) types.now }
    ensures { OnOk result (Appends out.old.items (smt_parameter_lines (printing c.now) 0 (trees_at
        c.now.store.now types.now)) out.new.items) }
{
    for number in 0..types.len() {
        out.extend_from_slice(b"(declare-fun ")?;
        push_parameter(c.alloc, out, number)?;
        out.extend_from_slice(b" () ")?;
        push_sort(c, out, types[number])?;
        out.extend_from_slice(b")\n")?;
    }
    Ok(())
}

/// Appends the assertions of formulas.
pub(crate) fn push_assertions(
    c: &TermPrinter<'_>,
    out: &mut Vec<u8>,
    formulas: &[TermId],
) -> Result<(), AllocError>
    requires can { CanPrint c.now }
    requires held { All (Holds c.now.store.now) formulas.now }
    ensures { OnOk result (Appends out.old.items (flat_map (assertion (printing c.now)) (trees_at
        c.now.store.now formulas.now)) out.new.items) }
{
    for formula in formulas {
        out.extend_from_slice(b"(assert ")?;
        push_formula(c, out, *formula)?;
        out.extend_from_slice(b")\n")?;
    }
    Ok(())
}

/// Appends the assertion of a goal's negation.
pub(crate) fn push_goal(c: &TermPrinter<'_>, out: &mut Vec<u8>, e: TermId) -> Result<(), AllocError>
    requires can { CanPrint c.now }
    requires held { Holds c.now.store.now e }
    ensures { OnOk result (Appends out.old.items (smt_goal_line (printing c.now) (tree_at
        c.now.store.now e)) out.new.items) }
{
    out.extend_from_slice(b"(assert (not ")?;
    push_formula(c, out, e)?;
    out.extend_from_slice(b"))\n")
}
