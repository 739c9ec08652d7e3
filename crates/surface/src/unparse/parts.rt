// The tokens of names, types, patterns and binders.
ghost use Rattle.std.specs.Prelude.{◌≡◌, ◌++◌, ◌∷◌, [], map, option_map};
ghost use Rattle.tokens_why.specs.declared.terminal.Terminal.TheVariants.{LParen, RParen, LBrace, RBrace, Equal};
ghost use Rattle.surface.specs.declared.names.Style.TheVariants.{Plain};
ghost use Rattle.surface.specs.Lexeme.{terminals, mark};
ghost use Rattle.surface.specs.Forms.{scoped, write_own, write_called, write_form, form_row, form_list, form_fields, semicolon_after};
ghost use Rattle.surface.specs.Trees.{name_row, alternative_list, type_part, write_binder, binder_list, quantifier, bar_before, separator};
ghost use Rattle.surface.specs.unparse.Putting.{Puts};
ghost use Rattle.surface.specs.Surface.{own_of, op_of, called_of, form_of, pattern_of, patterns, alternatives, binder_of, forms, form_part_of, form_names, form_values};

use crate::unparse::writing::Written;
use crate::{BinderTree, FieldPat, Name, OpName, Pat, PatNode, QName, Style, TypeNode, TypeTree};
use outside::{Seq, Text};
use tokens_why::{Terminal, is_star, terminal_of_text};

/// The terminal of an operator's token: that of its text, where it is written plainly.
pub fn operator_terminal(operator: &OpName) -> Terminal
    ensures { result ≡ (op_of operator.now).terminal }
{
    match operator.style {
        Style::Plain => terminal_of_text(operator.text.as_slice()),
        _ => Terminal::OtherWord,
    }
}

/// Puts a terminal after others.
pub fn push_terminal(terminal: Terminal, out: &mut Written)
    ensures { Puts out.old out.new (terminal ∷ []) }
{
    out.push(terminal);
}

fn push_scopes(of: &[Text], out: &mut Written)
    ensures { Puts out.old out.new (terminals (scoped of.now)) }
{
    for _scope in of {
        out.push(Terminal::Uident);
        out.push(Terminal::Dot);
    }
}

/// An operator's name in parentheses.
fn push_named(terminal: Terminal, out: &mut Written)
    ensures { Puts out.old out.new (LParen ∷ terminal ∷ RParen ∷ []) }
{
    out.push(Terminal::LParen);
    out.push(terminal);
    push_terminal(Terminal::RParen, out)
}

fn push_plain(text: &[u8], out: &mut Written)
    ensures { Puts out.old out.new (terminals
        (write_own (own_of Plain text.now))) }
{
    match terminal_of_text(text) {
        Terminal::Lident => push_terminal(Terminal::Lident, out),
        Terminal::Uident => push_terminal(Terminal::Uident, out),
        _ => push_named(Terminal::OtherWord, out),
    }
}

/// A name without its scopes.
pub fn push_own(style: Style, text: &[u8], out: &mut Written)
    ensures { Puts out.old out.new (terminals
        (write_own (own_of style text.now))) }
{
    match style {
        Style::Plain => push_plain(text, out),
        Style::Infix => push_named(terminal_of_text(text), out),
        Style::Prefix => {
            out.push(Terminal::LParen);
            out.push(terminal_of_text(text));
            out.push(Terminal::Wild);
            push_terminal(Terminal::RParen, out)
        }
        Style::Star => {
            if is_star(text) {
                push_terminal(Terminal::StarName, out)
            } else {
                push_named(Terminal::OtherWord, out)
            }
        }
    }
}

/// Puts a name's tokens, with those of its scopes, after others.
pub fn push_called(name: &QName, out: &mut Written)
    ensures { Puts out.old out.new (terminals
        (write_called (called_of name.now))) }
{
    push_scopes(name.scopes.as_slice(), out);
    push_own(name.style, name.text.as_slice(), out)
}

/// Puts a type's tokens after others.
#[cycle(type_writing)]
pub fn push_type(t: &TypeTree, out: &mut Written)
    ensures { Puts out.old out.new (terminals (write_form (form_of t.now))) }
{
    match &t.node {
        TypeNode::Var(_) => push_terminal(Terminal::TyVar, out),
        TypeNode::Named(name, arguments) => {
            push_called(name, out);
            push_types(arguments.as_slice(), out)
        }
        TypeNode::Group(parts) => {
            out.push(Terminal::LParen);
            push_listed_types(parts.as_slice(), out);
            push_terminal(Terminal::RParen, out)
        }
    }
}

/// Puts the tokens of types that stand side by side after others.
#[cycle(type_writing)]
pub fn push_types(of: &[TypeTree], out: &mut Written)
    ensures { Puts out.old out.new (terminals
        (form_row (forms (map form_of of.now)))) }
{
    for t in of {
        push_type(t, out);
    }
}

#[cycle(type_writing)]
fn push_listed_types(of: &[TypeTree], out: &mut Written)
    ensures { Puts out.old out.new (terminals
        (form_list (forms (map form_of of.now)))) }
{
    if let [first, rest @ ..] = of {
        push_type(first, out);
        for t in rest {
            out.push(Terminal::Comma);
            push_type(t, out);
        }
    }
}

#[cycle(pattern_writing)]
fn push_pattern(p: &Pat, out: &mut Written)
    ensures { Puts out.old out.new (terminals
        (write_form (pattern_of p.now))) }
{
    match &p.node {
        PatNode::Wild => push_terminal(Terminal::Wild, out),
        PatNode::Var(_) => push_terminal(Terminal::Lident, out),
        PatNode::Con(name, parts) => {
            push_called(name, out);
            push_parts(parts.as_slice(), out)
        }
        PatNode::Group(parts) => {
            out.push(Terminal::LParen);
            push_patterns(parts.as_slice(), out);
            push_terminal(Terminal::RParen, out)
        }
        PatNode::Alias(inner, _) => {
            push_pattern(inner.get(), out);
            out.push(Terminal::AsWord);
            push_terminal(Terminal::Lident, out)
        }
        PatNode::Fields(fields, semi) => {
            out.push(Terminal::LBrace);
            push_field_patterns(fields.as_slice(), out);
            push_semicolon(*semi, out);
            push_terminal(Terminal::RBrace, out)
        }
    }
}

#[cycle(pattern_writing)]
fn push_parts(of: &[Pat], out: &mut Written)
    ensures { Puts out.old out.new (terminals
        (form_row (forms (map pattern_of of.now)))) }
{
    for p in of {
        push_pattern(p, out);
    }
}

#[cycle(pattern_writing)]
fn push_field_pattern(field: &FieldPat, out: &mut Written)
    ensures { Puts out.old out.new (terminals (write_called (form_part_of field.now).name
        ++ (mark Equal ∷ write_form (form_part_of field.now).form))) }
{
    push_called(&field.name, out);
    out.push(Terminal::Equal);
    push_pattern(&field.value, out)
}

// The fields of a record with their patterns, with semicolons between.
#[cycle(pattern_writing)]
fn push_field_patterns(of: &[FieldPat], out: &mut Written)
    ensures { Puts out.old out.new (terminals (form_fields
        (form_names (map form_part_of of.now))
        (form_values (map form_part_of of.now)))) }
{
    if let [first, rest @ ..] = of {
        push_field_pattern(first, out);
        for field in rest {
            out.push(Terminal::Semi);
            push_field_pattern(field, out);
        }
    }
}

/// Puts the tokens of patterns with commas between after others.
#[cycle(pattern_writing)]
pub fn push_patterns(of: &[Pat], out: &mut Written)
    ensures { Puts out.old out.new (terminals
        (form_list (patterns of.now))) }
{
    if let [first, rest @ ..] = of {
        push_pattern(first, out);
        for p in rest {
            out.push(Terminal::Comma);
            push_pattern(p, out);
        }
    }
}

/// Puts the tokens of alternatives with bars between after others.
pub fn push_alternatives(of: &[Seq<Pat>], out: &mut Written)
    ensures { Puts out.old out.new (terminals
        (alternative_list (alternatives of.now))) }
{
    if let [first, rest @ ..] = of {
        push_patterns(first.as_slice(), out);
        for ps in rest {
            out.push(Terminal::Bar);
            push_patterns(ps.as_slice(), out);
        }
    }
}

/// Puts the tokens of names in lower case that stand side by side after others.
pub fn push_names(names: &[Name], out: &mut Written)
    ensures { Puts out.old out.new (terminals (name_row names.now)) }
{
    for _name in names {
        out.push(Terminal::Lident);
    }
}

/// Puts the tokens of a colon and a type, where there is one, after others.
pub fn push_type_part(ty: &Option<TypeTree>, out: &mut Written)
    ensures { Puts out.old out.new (terminals
        (type_part (option_map form_of ty.now))) }
{
    match ty {
        None => (),
        Some(t) => {
            out.push(Terminal::Colon);
            push_type(t, out)
        }
    }
}

fn push_binder(b: &BinderTree, out: &mut Written)
    ensures { Puts out.old out.new (terminals
        (write_binder (binder_of b.now))) }
{
    push_names(b.names.as_slice(), out);
    push_type_part(&b.ty, out)
}

/// Puts the tokens of groups of bound names with commas between after others.
pub fn push_binders(of: &[BinderTree], out: &mut Written)
    ensures { Puts out.old out.new (terminals
        (binder_list (map binder_of of.now))) }
{
    if let [first, rest @ ..] = of {
        push_binder(first, out);
        for b in rest {
            out.push(Terminal::Comma);
            push_binder(b, out);
        }
    }
}

/// The token between the terms of a trigger: `|` or `,`.
pub fn separator_terminal(bar: bool) -> Terminal
    ensures { result ≡ separator bar }
{
    if bar { Terminal::Bar } else { Terminal::Comma }
}

/// `forall` or `exists`.
pub fn quantifier_terminal(forall: bool) -> Terminal
    ensures { result ≡ quantifier forall }
{
    if forall {
        Terminal::ForallWord
    } else {
        Terminal::ExistsWord
    }
}

/// Puts a `;`, where there is one, after others.
pub fn push_semicolon(semi: bool, out: &mut Written)
    ensures { Puts out.old out.new (terminals (semicolon_after semi)) }
{
    if semi {
        out.push(Terminal::Semi);
    }
}

/// Puts a `|`, where there is one, after others.
pub fn push_bar(bar: bool, out: &mut Written)
    ensures { Puts out.old out.new (terminals (bar_before bar)) }
{
    if bar {
        out.push(Terminal::Bar);
    }
}
