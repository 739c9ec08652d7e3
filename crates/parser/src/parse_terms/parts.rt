// Lists of patterns and names, as they are in branches and binders.
ghost use Rattle.std.specs.Prelude.{◌∷◌, IfOk};
ghost use Rattle.parser.specs.parse_terms.Common.{Lident, binder_of, patterns};
ghost use Rattle.grammar.specs.declared.symbols.Symbol.TheVariants as rule;
ghost use Rattle.parser.specs.parse_terms.Reading.{CanRun};
ghost use Rattle.parser.specs.parse_terms.Sources.{lexemes};
ghost use Rattle.parser.specs.parse_terms.Terms.{IsAlternative, IsBinder};
ghost use Rattle.parser.specs.parse_terms.Binders.{IsNaming};

use crate::parse_terms::patterns::pattern;
use crate::parse_terms::source::Source;
use crate::parse_terms::tokens::{is_at, name_at};
use crate::parse_terms::types::type_tree;
use outside::Seq;
use std::alloc::{AllocError, Global};
use surface::{BinderTree, Name, Pat};
use tokens_why::Terminal;

/// The patterns of an alternative, and the token after them. Only want of memory refuses.
pub fn alternative(alloc: Global, source: Source, i: usize) -> Result<(Seq<Pat>, usize), AllocError>
    requires { CanRun (lexemes source) (λ k. rule.Pat ∷ rule.Arm ∷ k) i }
    ensures { IfOk result (λ r. IsAlternative (lexemes source.entry) i (patterns r.0) r.1) }
{
    let mut parts: Vec<Pat> = Vec::new(alloc);
    let (first, mut j) = pattern(alloc, source, i)?;
    parts.push(first)?;
    'more: while is_at(source, j, Terminal::Comma) {
        let (next, end) = pattern(alloc, source, j + 1)?;
        parts.push(next)?;
        j = end;
    }
    Ok((Seq::from_vec(parts), j))
}

/// The names that are bound together, and the token after the last one. Only want of memory refuses.
fn bound_names(alloc: Global, source: Source, i: usize) -> Result<(Seq<Name>, usize), AllocError>
    requires { CanRun (lexemes source) (λ k. rule.Take Lident ∷ rule.Binder ∷ k) i }
    ensures { IfOk result (λ r. IsNaming (lexemes source.entry) i r.0 r.1) }
{
    let mut names: Vec<Name> = Vec::new(alloc);
    let first = name_at(alloc, source, i)?;
    names.push(first)?;
    let mut j = i + 1;
    'more: while is_at(source, j, Terminal::Lident) {
        let next = name_at(alloc, source, j)?;
        names.push(next)?;
        j = j + 1;
    }
    Ok((Seq::from_vec(names), j))
}

/// Names that are bound and their type, and the token after them. Only want of memory refuses.
pub fn binder(alloc: Global, source: Source, i: usize) -> Result<(BinderTree, usize), AllocError>
    requires { CanRun (lexemes source) (λ k. rule.Take Lident ∷ rule.Binder ∷ k) i }
    ensures { IfOk result (λ r. IsBinder (lexemes source.entry) i (binder_of r.0) r.1) }
{
    let (names, j) = bound_names(alloc, source, i)?;
    let typed = is_at(source, j, Terminal::Colon);
    if typed {
        let (ty, end) = type_tree(alloc, source, j + 1)?;
        let tree = BinderTree {
            names,
            ty: Some(ty),
        };
        return Ok((tree, end));
    }
    Ok((BinderTree { names, ty: None }, j))
}
