// The fields of a term, each after a dot.
ghost use Rattle.std.specs.Prelude.{◌≡◌, ◌&&◌, IfOk};
ghost use Rattle.parser.specs.parse_terms.Common.{same, Dot, called_of, own_of, tree_of};
ghost use Rattle.parser.specs.parse_terms.Fields.{IsReadFields, is_lower_name};
ghost use Rattle.parser.specs.parse_terms.Reading.{CanRead, terminal_at};
ghost use Rattle.parser.specs.parse_terms.Sources.{lexemes};
ghost use Rattle.grammar.specs.declared.symbols.Symbol.TheVariants as rule;
ghost use Rattle.surface.specs.Lexeme.{at};
ghost use Rattle.surface.specs.Trees.{access};

use crate::parse_terms::names::lower_name;
use crate::parse_terms::source::Source;
use crate::parse_terms::tokens::{is_at, place};
use outside::Boxed;
use std::alloc::{AllocError, Global};
use surface::{Expr, ExprNode, QName, Style};
use tokens_why::{Terminal, terminal_of_text};

/// Whether a name is one in lower case: only of such a one a field may be taken.
fn is_lower_name(name: &QName) -> bool
    ensures { result ≡ is_lower_name (own_of name.now.style name.now.text) }
{
    match name.style {
        Style::Plain => matches!(terminal_of_text(name.text.as_slice()), Terminal::Lident),
        Style::Infix | Style::Prefix | Style::Star => false,
    }
}

/// Whether a field follows a name whose next token this is.
pub fn at_field(source: Source, name: &QName, i: usize) -> bool
    ensures { result ≡ (same Dot (terminal_at (lexemes source.entry) i)
        && is_lower_name (own_of name.now.style name.now.text)) }
{
    is_at(source, i, Terminal::Dot) && is_lower_name(name)
}

/// A field of a term that begins at a token.
fn with_field(alloc: Global, i: usize, of: Expr, field: QName) -> Result<Expr, AllocError>
    ensures { IfOk result (λ e. tree_of e ≡ access (at i) (tree_of of) (called_of field)) }
{
    let held = Boxed::new(alloc, of)?;
    Ok(Expr::new(place(i), ExprNode::Dot(held, field)))
}

/// A term that begins at token `i` with the fields that are read from token `j` on, and the token after them. Only want of
/// memory refuses.
pub fn with_fields(
    alloc: Global,
    source: Source,
    i: usize,
    of: Expr,
    j: usize,
) -> Result<(Expr, usize), AllocError>
    requires { CanRead (lexemes source) rule.Dots j }
    ensures { IfOk result
        (λ r. IsReadFields (lexemes source.entry) i (tree_of of) j (tree_of r.0) r.1) }
{
    let mut whole = of;
    let mut end = j;
    'fields: while is_at(source, end, Terminal::Dot) {
        let (field, next) = lower_name(alloc, source, end + 1)?;
        whole = with_field(alloc, i, whole, field)?;
        end = next;
    }
    Ok((whole, end))
}
