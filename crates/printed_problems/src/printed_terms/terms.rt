// Terms and formulas as text.
ghost use Rattle.std.specs.Prelude.{◌≡◌, ◌∷◌, [], ◌+◌, ◌<◌, ◌≤◌, map, All, OnOk};
ghost use Rattle.trees.specs.declared.TermId.{TermId};
ghost use Rattle.trees.specs.Node.{tree_at, Holds};
ghost use Rattle.tasks.specs.Meaning.{trees_at};
ghost use Rattle.name_tables.specs.Occurrences.{occurrence};
ghost use Rattle.printed_problems.specs.Templates.{by_pieces};
ghost use Rattle.printed_problems.specs.printed_terms.Texts.{printing_syntax, each_after, joined, form_text, application_text, printed_name, symbol_text, equality_text, bound_text, sort_text, printed, term_text, formula_text};
ghost use Rattle.printed_problems.specs.declared.printed_terms.words.Binder.TheVariants.{LetIn};
ghost use Rattle.printed_problems.specs.printed_terms.Meaning.{printing, CanPrint, Appends};

use crate::printed_terms::lists::members;
use crate::printed_terms::printer::{
    TermPrinter, push_name, push_parameter, push_variable, template_in,
};
use crate::printed_terms::sorts::push_sort;
use crate::printed_terms::words::{
    Binder, Form, before_body, before_bound, before_name, between_arguments, binder_opening,
    name_after, opening, separator, truth,
};
use drivers::driver_items::{Piece, syntax_of};
use std::alloc::AllocError;
use trees::store::{Node, TermId};

// Appends a term or formula under so many binders.
#[cycle(terms)]
fn push_term(
    c: &TermPrinter<'_>,
    out: &mut Vec<u8>,
    e: TermId,
    depth: usize,
) -> Result<(), AllocError>
    requires can { CanPrint c.now }
    requires held { Holds c.now.store.now e }
    requires deep { depth + e.0 ≤ usize.MAX }
    ensures { OnOk result (Appends out.old.items (term_text (printing c.now) depth (tree_at
        c.now.store.now e)) out.new.items) }
{
    let syntax = syntax_of(c.driver.printer);
    match c.store.node(e) {
        Node::True => out.extend_from_slice(truth(syntax, true)),
        Node::False => out.extend_from_slice(truth(syntax, false)),
        Node::Num(number) => out.extend_from_slice(number.to_string(c.alloc)?.as_bytes()),
        Node::Bound(i, _) => {
            push_variable(
                c.alloc,
                out,
                syntax,
                depth.saturating_sub(i).saturating_sub(1),
            )
        }
        Node::Param(number, _) => push_parameter(c.alloc, out, number),
        Node::Not(a) => push_enclosed(c, out, Form::Negation, &[a], e, depth),
        Node::Eq(a, b) => push_equality(c, out, &[a, b], e, depth),
        Node::Join(op, a, b) => push_enclosed(c, out, Form::Connected(op), &[a, b], e, depth),
        Node::If(a, b, d) => push_enclosed(c, out, Form::Conditional, &[a, b, d], e, depth),
        Node::Fun(symbol, types, args, _) => push_symbol(c, out, symbol, types, args, depth),
        Node::Pred(symbol, types, args) => push_symbol(c, out, symbol, types, args, depth),
        Node::Forall(ty, body) => push_quantified(c, out, Binder::ForAll, ty, body, depth),
        Node::Exists(ty, body) => push_quantified(c, out, Binder::ThereIs, ty, body, depth),
        Node::Let(value, body) => push_let(c, out, value, body, depth),
        _ => Ok(()),
    }
}

// Appends terms, each after a text. They are below a number.
#[cycle(terms)]
fn push_each(
    c: &TermPrinter<'_>,
    out: &mut Vec<u8>,
    separator: &[u8],
    args: &[TermId],
    below: TermId,
    depth: usize,
) -> Result<(), AllocError>
    requires can { CanPrint c.now }
    requires held { Holds c.now.store.now below }
    requires deep { depth + below.0 ≤ usize.MAX }
    requires below { All (λ (id : TermId). id.0 < below.0) args.now }
    ensures { OnOk result (Appends out.old.items (each_after separator.now (map (term_text
        (printing c.now) depth) (trees_at c.now.store.now args.now))) out.new.items) }
{
    for arg in args {
        out.extend_from_slice(separator)?;
        push_term(c, out, *arg, depth)?;
    }
    Ok(())
}

// Appends terms with a text between any two. They are below a number.
#[cycle(terms)]
fn push_joined(
    c: &TermPrinter<'_>,
    out: &mut Vec<u8>,
    separator: &[u8],
    args: &[TermId],
    below: TermId,
    depth: usize,
) -> Result<(), AllocError>
    requires can { CanPrint c.now }
    requires held { Holds c.now.store.now below }
    requires deep { depth + below.0 ≤ usize.MAX }
    requires below { All (λ (id : TermId). id.0 < below.0) args.now }
    ensures { OnOk result (Appends out.old.items (joined separator.now (map (term_text
        (printing c.now) depth) (trees_at c.now.store.now args.now))) out.new.items) }
{
    match args.split_first() {
        Some((first, rest)) => {
            push_term(c, out, *first, depth)?;
            push_each(c, out, separator, rest, below, depth)
        }
        None => Ok(()),
    }
}

// Appends a form with its parts.
#[cycle(terms)]
fn push_enclosed(
    c: &TermPrinter<'_>,
    out: &mut Vec<u8>,
    form: Form,
    args: &[TermId],
    below: TermId,
    depth: usize,
) -> Result<(), AllocError>
    requires can { CanPrint c.now }
    requires held { Holds c.now.store.now below }
    requires deep { depth + below.0 ≤ usize.MAX }
    requires below { All (λ (id : TermId). id.0 < below.0) args.now }
    ensures { OnOk result (Appends out.old.items (form_text (printing_syntax (printing c.now)) form
        (map (term_text (printing c.now) depth) (trees_at c.now.store.now args.now)))
        out.new.items) }
{
    let syntax = syntax_of(c.driver.printer);
    out.extend_from_slice(opening(syntax, form))?;
    push_joined(c, out, separator(syntax, form), args, below, depth)?;
    out.extend_from_slice(b")")
}

// Appends the pieces of a template with arguments.
#[cycle(terms)]
fn push_pieces(
    c: &TermPrinter<'_>,
    out: &mut Vec<u8>,
    pieces: &[Piece],
    args: &[TermId],
    below: TermId,
    depth: usize,
) -> Result<(), AllocError>
    requires can { CanPrint c.now }
    requires held { Holds c.now.store.now below }
    requires deep { depth + below.0 ≤ usize.MAX }
    requires below { All (λ (id : TermId). id.0 < below.0) args.now }
    ensures { OnOk result (Appends out.old.items (by_pieces pieces.now (map (term_text
        (printing c.now) depth) (trees_at c.now.store.now args.now))) out.new.items) }
{
    for piece in pieces {
        match piece {
            Piece::Literal(text) => out.extend_from_slice(text.as_slice())?,
            Piece::Argument(number) => {
                if let Some(arg) = args.get(*number) {
                    push_term(c, out, *arg, depth)?;
                }
            }
        }
    }
    Ok(())
}

// Appends an equation, by the template of equality where there is one.
#[cycle(terms)]
fn push_equality(
    c: &TermPrinter<'_>,
    out: &mut Vec<u8>,
    sides: &[TermId],
    below: TermId,
    depth: usize,
) -> Result<(), AllocError>
    requires can { CanPrint c.now }
    requires held { Holds c.now.store.now below }
    requires deep { depth + below.0 ≤ usize.MAX }
    requires below { All (λ (id : TermId). id.0 < below.0) sides.now }
    ensures { OnOk result (Appends out.old.items (equality_text c.now.driver.now
        (map (term_text (printing c.now) depth) (trees_at c.now.store.now sides.now)))
        out.new.items) }
{
    match &c.driver.eq_template {
        Some(pieces) => push_pieces(c, out, pieces.as_slice(), sides, below, depth),
        None => push_enclosed(c, out, Form::Equality, sides, below, depth),
    }
}

// Appends the name of a symbol at types, with its arguments.
#[cycle(terms)]
fn push_applied(
    c: &TermPrinter<'_>,
    out: &mut Vec<u8>,
    symbol: usize,
    types: TermId,
    args: &[TermId],
    below: TermId,
    depth: usize,
) -> Result<(), AllocError>
    requires can { CanPrint c.now }
    requires types_held { Holds c.now.store.now types }
    requires held { Holds c.now.store.now below }
    requires deep { depth + below.0 ≤ usize.MAX }
    requires below { All (λ (id : TermId). id.0 < below.0) args.now }
    ensures { OnOk result (Appends out.old.items (application_text
        (printing_syntax (printing c.now)) (printed_name (printing c.now) (occurrence symbol
        (tree_at c.now.store.now types))) (map (term_text (printing c.now) depth) (trees_at
        c.now.store.now args.now))) out.new.items) }
{
    if args.is_empty() {
        return push_name(c, out, symbol, types);
    }
    let syntax = syntax_of(c.driver.printer);
    out.extend_from_slice(before_name(syntax))?;
    push_name(c, out, symbol, types)?;
    out.extend_from_slice(name_after(syntax))?;
    push_joined(c, out, between_arguments(syntax), args, below, depth)?;
    out.extend_from_slice(b")")
}

// Appends a symbol at types with arguments, by its template where it has one.
#[cycle(terms)]
fn push_symbol_by(
    c: &TermPrinter<'_>,
    out: &mut Vec<u8>,
    symbol: usize,
    types: TermId,
    args: &[TermId],
    below: TermId,
    depth: usize,
) -> Result<(), AllocError>
    requires can { CanPrint c.now }
    requires types_held { Holds c.now.store.now types }
    requires held { Holds c.now.store.now below }
    requires deep { depth + below.0 ≤ usize.MAX }
    requires below { All (λ (id : TermId). id.0 < below.0) args.now }
    ensures { OnOk result (Appends out.old.items (symbol_text (printing c.now) (occurrence symbol
        (tree_at c.now.store.now types)) (map (term_text (printing c.now) depth) (trees_at
        c.now.store.now args.now))) out.new.items) }
{
    if symbol == 0 {
        return match &c.driver.int_template {
            Some(text) => out.extend_from_slice(text.as_slice()),
            None => push_applied(c, out, symbol, types, args, below, depth),
        };
    }
    match template_in(c.driver.templates.as_slice(), symbol) {
        Some(pieces) => push_pieces(c, out, pieces, args, below, depth),
        None => push_applied(c, out, symbol, types, args, below, depth),
    }
}

// Appends a symbol at types with a list of arguments.
#[cycle(terms)]
fn push_symbol(
    c: &TermPrinter<'_>,
    out: &mut Vec<u8>,
    symbol: usize,
    types: TermId,
    list: TermId,
    depth: usize,
) -> Result<(), AllocError>
    requires can { CanPrint c.now }
    requires types_held { Holds c.now.store.now types }
    requires held { Holds c.now.store.now list }
    requires deep { depth + list.0 ≤ usize.MAX }
    ensures { OnOk result (Appends out.old.items (symbol_text (printing c.now) (occurrence symbol
        (tree_at c.now.store.now types)) (printed (printing c.now) depth (tree_at
        c.now.store.now list)).members) out.new.items) }
{
    let args = members(c.alloc, c.store, list)?;
    push_symbol_by(c, out, symbol, types, args.as_slice(), list, depth)
}

// Appends a quantified formula.
#[cycle(terms)]
fn push_quantified(
    c: &TermPrinter<'_>,
    out: &mut Vec<u8>,
    binder: Binder,
    ty: TermId,
    body: TermId,
    depth: usize,
) -> Result<(), AllocError>
    requires can { CanPrint c.now }
    requires type_held { Holds c.now.store.now ty }
    requires held { Holds c.now.store.now body }
    requires deep { depth + 1 + body.0 ≤ usize.MAX }
    ensures { OnOk result (Appends out.old.items (bound_text
        (printing_syntax (printing c.now)) binder depth (sort_text (printing c.now)
        (tree_at c.now.store.now ty)) (term_text (printing c.now) (depth + 1)
        (tree_at c.now.store.now body))) out.new.items) }
{
    let syntax = syntax_of(c.driver.printer);
    out.extend_from_slice(binder_opening(syntax, binder))?;
    push_variable(c.alloc, out, syntax, depth)?;
    out.extend_from_slice(before_bound(syntax))?;
    push_sort(c, out, ty)?;
    out.extend_from_slice(before_body(syntax))?;
    push_term(c, out, body, depth + 1)?;
    out.extend_from_slice(b")")
}

// Appends a `let`.
#[cycle(terms)]
fn push_let(
    c: &TermPrinter<'_>,
    out: &mut Vec<u8>,
    value: TermId,
    body: TermId,
    depth: usize,
) -> Result<(), AllocError>
    requires can { CanPrint c.now }
    requires value_held { Holds c.now.store.now value }
    requires held { Holds c.now.store.now body }
    requires value_deep { depth + value.0 ≤ usize.MAX }
    requires deep { depth + 1 + body.0 ≤ usize.MAX }
    ensures { OnOk result (Appends out.old.items (bound_text
        (printing_syntax (printing c.now)) LetIn depth (term_text (printing c.now) depth
        (tree_at c.now.store.now value)) (term_text
        (printing c.now) (depth + 1) (tree_at c.now.store.now body))) out.new.items) }
{
    let syntax = syntax_of(c.driver.printer);
    out.extend_from_slice(binder_opening(syntax, Binder::LetIn))?;
    push_variable(c.alloc, out, syntax, depth)?;
    out.extend_from_slice(before_bound(syntax))?;
    push_term(c, out, value, depth)?;
    out.extend_from_slice(before_body(syntax))?;
    push_term(c, out, body, depth + 1)?;
    out.extend_from_slice(b")")
}

/// Appends a closed formula.
pub fn push_formula(c: &TermPrinter<'_>, out: &mut Vec<u8>, e: TermId) -> Result<(), AllocError>
    requires can { CanPrint c.now }
    requires held { Holds c.now.store.now e }
    ensures { OnOk result (Appends out.old.items (formula_text (printing c.now) (tree_at
        c.now.store.now e)) out.new.items) }
{
    push_term(c, out, e, 0)
}
