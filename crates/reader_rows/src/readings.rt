// What is read of texts: sources, expressions, and the theories of the embedded library.
ghost use Rattle.tokens_why.specs.Tokens.{AreTokens};
ghost use Rattle.surface.specs.Lexeme.{rest};
ghost use Rattle.grammar.specs.recognise.Sources.{IsSyntaxRefusal};

use crate::tokens::put_lex_fault;
use parser::parse_decls::{SyntaxFault, complete, parse};
use parser::parse_terms::{complete_expr, parse_expr};
use parser::std_theories::library_files;
use std::alloc::{AllocError, Global};
use surface::unparse::unparse;
use surface::{Expr, ExprNode, File};
use tokens_why::{Token, TokenKind, classify, lex};

// Whether some kinds are those of tokens.
fn are_kinds(tokens: &[Token], kinds: &[TokenKind]) -> bool {
    tokens.len() == kinds.len() && tokens.iter().zip(kinds.iter()).all(|(t, k)| t.kind == *k)
}

// Whether the tokens of a file are these.
fn put_file(
    alloc: Global,
    out: &mut String,
    tokens: &[Token],
    file: &File,
) -> Result<(), AllocError> {
    let kinds = unparse(alloc, file)?;
    out.push_str(if are_kinds(tokens, &kinds) {
        "read"
    } else {
        "another tree"
    })
}

// The terminals of kinds.
fn put_kinds(alloc: Global, out: &mut String, kinds: &[TokenKind]) -> Result<(), AllocError> {
    for kind in kinds {
        let shown = format!(in alloc; " {:?}", classify(*kind))?;
        out.push_str(shown.as_str())?;
    }
    Ok(())
}

// A number of a fault, its token, and what completes the tokens before it.
fn put_fault(
    alloc: Global,
    out: &mut String,
    tokens: &[Token],
    text: &[u8],
    fault: SyntaxFault,
) -> Result<(), AllocError>
    requires tokens { AreTokens text.now tokens.now }
    requires refused { IsSyntaxRefusal (rest text.now tokens.now 0) fault }
{
    match fault {
        SyntaxFault::Memory => Err(AllocError),
        SyntaxFault::TooDeep { token } => {
            let shown = format!(in alloc; "13 {token}")?;
            out.push_str(shown.as_str())
        }
        SyntaxFault::Syntax { token } => {
            let shown = format!(in alloc; "12 {token}")?;
            out.push_str(shown.as_str())?;
            let kinds = complete(alloc, tokens, text, token)?;
            put_kinds(alloc, out, &kinds)
        }
        SyntaxFault::ProgramDecl { token } => {
            let shown = format!(in alloc; "14 {token}")?;
            out.push_str(shown.as_str())?;
            let kinds = complete(alloc, tokens, text, token)?;
            put_kinds(alloc, out, &kinds)
        }
    }
}

/// Whether a text is a source, the tree of which gives its tokens back, or its fault.
pub(crate) fn put_source(alloc: Global, out: &mut String, text: &[u8]) -> Result<(), AllocError> {
    let tokens = match lex(alloc, text) {
        Ok(tokens) => tokens,
        Err(fault) => return put_lex_fault(alloc, out, fault),
    };
    match parse(alloc, &tokens, text) {
        Ok(file) => put_file(alloc, out, &tokens, &file),
        Err(fault) => put_fault(alloc, out, &tokens, text, fault),
    }
}

// The form of an expression.
fn form(e: &Expr) -> &'static str {
    match &e.node {
        ExprNode::Apply(_, _) => "apply",
        ExprNode::Int(_) => "int",
        ExprNode::True => "true",
        ExprNode::False => "false",
        ExprNode::Group(_) => "group",
        ExprNode::Cast(_, _) => "cast",
        ExprNode::Match(_, _, _) => "match",
        ExprNode::Dot(_, _) => "field",
        ExprNode::Fields(_, _) => "record",
        ExprNode::Prefix(_, _) => "prefix",
        ExprNode::Not(_) => "not",
        ExprNode::Binary(_, _, _) => "binary",
        ExprNode::If(_, _, _) => "if",
        ExprNode::Let(_, _, _) => "let",
        ExprNode::Quant(_, _, _, _) => "quantifier",
    }
}

// The form of an expression, the tokens with which it begins and which is its main one, and where it ends.
fn put_form(alloc: Global, out: &mut String, e: &Expr, to: usize) -> Result<(), AllocError> {
    let shown = format!(in alloc; "{} {} {} {to}", form(e), e.at.first, e.at.main)?;
    out.push_str(shown.as_str())
}

/// The longest expression from a text's beginning, or the fault.
pub(crate) fn put_expression(
    alloc: Global,
    out: &mut String,
    text: &[u8],
) -> Result<(), AllocError> {
    let tokens = match lex(alloc, text) {
        Ok(tokens) => tokens,
        Err(fault) => return put_lex_fault(alloc, out, fault),
    };
    match parse_expr(alloc, &tokens, text, 0) {
        Ok((e, to)) => put_form(alloc, out, &e, to),
        Err(SyntaxFault::Syntax { token }) => {
            let shown = format!(in alloc; "fault {token}")?;
            out.push_str(shown.as_str())?;
            let kinds = complete_expr(alloc, &tokens, text, 0, token)?;
            put_kinds(alloc, out, &kinds)
        }
        Err(_) => Err(AllocError),
    }
}

// Of a file of the library: its path, how many declarations its theory has, and whether its tokens are these.
fn put_theory(
    alloc: Global,
    out: &mut String,
    path: &[u8],
    file: &File,
    tokens: &[Token],
) -> Result<(), AllocError> {
    for letter in path {
        out.push(char::from(*letter))?;
    }
    for theory in file.theories.as_slice() {
        let shown = format!(in alloc; " {} ", theory.decls.len())?;
        out.push_str(shown.as_str())?;
    }
    put_file(alloc, out, tokens, file)
}

/// The file of the library whose number is a text's first digit, against the rest of the text.
pub(crate) fn put_library(alloc: Global, out: &mut String, text: &[u8]) -> Result<(), AllocError> {
    let Some((digit, rest)) = text.split_first() else {
        return Ok(());
    };
    let Ok(tokens) = lex(alloc, rest) else {
        return Ok(());
    };
    let files = library_files(alloc)?;
    for (place, (path, file)) in files.iter().enumerate() {
        if place == (*digit as usize).saturating_sub(48) {
            put_theory(alloc, out, path.as_slice(), file, &tokens)?;
        }
    }
    Ok(())
}
