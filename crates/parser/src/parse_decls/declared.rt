// Names of what is declared: symbols and propositions.
ghost use Rattle.std.specs.Prelude.{◌+◌, IfOk};
ghost use Rattle.parser.specs.parse_decls.Common.{plain_name, CanRead, IsRead, lexemes};
ghost use Rattle.grammar.specs.declared.symbols.Symbol.TheVariants as rule;
ghost use Rattle.surface.specs.SurfaceDeclarations.{declared_name as name_of_symbol};

use crate::parse_terms::{Source, is_at, name_at, operator_name, text};
use outside::Text;
use std::alloc::{AllocError, Global};
use surface::{Name, OpName, Style};
use tokens_why::Terminal;

/// The name of a symbol, and the token after it. Only want of memory refuses.
pub fn declared_name(alloc: Global, source: Source, i: usize) -> Result<(OpName, usize), AllocError>
    requires { CanRead (lexemes source) rule.Op i }
    ensures { IfOk result
        (λ r. IsRead (lexemes source.entry) rule.Op i (name_of_symbol r.0) r.1) }
{
    let is_lower = is_at(source, i, Terminal::Lident);
    if is_lower {
        let lower = text(alloc, source, i)?;
        let name = OpName {
            at: i,
            style: Style::Plain,
            text: lower,
        };
        return Ok((name, i + 1));
    }
    let is_star = is_at(source, i, Terminal::StarName);
    if is_star {
        let star = Text::from_slice(alloc, b"*")?;
        let name = OpName {
            at: i,
            style: Style::Star,
            text: star,
        };
        return Ok((name, i + 1));
    }
    let own = operator_name(alloc, source, i + 1)?;
    let name = OpName {
        at: i,
        style: own.style,
        text: own.text,
    };
    Ok((name, own.end))
}

/// The name of a proposition. Only want of memory refuses.
pub fn prop_name(alloc: Global, source: Source, i: usize) -> Result<Name, AllocError>
    requires { CanRead (lexemes source) rule.Ident i }
    ensures { IfOk result
        (λ n. IsRead (lexemes source.entry) rule.Ident i (plain_name n) (i + 1)) }
{
    let name = name_at(alloc, source, i)?;
    Ok(name)
}
