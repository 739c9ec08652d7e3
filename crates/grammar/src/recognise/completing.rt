// Kinds of tokens that complete an expression or a source, and the laws that tokens have one tree at most.
ghost use Rattle.std.specs.Prelude.{◌≡◌, ◌≤◌, ◌∷◌, ◌++◌, [], true, List, ℕ, None, length, take, map, IfOk};
ghost use Rattle.grammar.specs.recognise.Common.{accepts, is_safe, kind_by, AreTokens, Lexeme, rest, SyntaxTree, IsLevel, IsPlacedTree, write, SyntaxTheory, write_file, IsLevelFile, PlacedFile, Begins, IsOf};
ghost use Rattle.grammar.specs.declared.symbols.Symbol.TheVariants.{Expr, File};
ghost use Rattle.grammar.specs.recognise.Completions.{CompletesWith};
ghost use Rattle.grammar.specs.recognise.Spans.{lexemes_between, terminals_of};

use crate::recognise::spans::terminals;
use crate::{Symbol, complete_tokens};
use std::alloc::{AllocError, Global};
use tokens_why::{Terminal, Token, TokenKind, token_kinds};

/// Kinds of tokens that complete the tokens of a symbol, which some tokens complete.
fn completion(alloc: Global, start: Symbol, tokens: &[Token]) -> Result<Vec<TokenKind>, AllocError>
    requires safe { is_safe (start ∷ []) None ≡ true }
    requires some { (ys : List Terminal) × (accepts (start ∷ []) (terminals_of tokens.now ++ ys)
        ≡ true) }
    ensures { IfOk result (λ v. (ys : List Terminal) ×
        (accepts (start ∷ []) (terminals_of tokens.now ++ ys) ≡ true)
        × (v.items ≡ map kind_by ys)) }
{
    let found = terminals(alloc, tokens)?;
    match complete_tokens(alloc, start, &found)? {
        Some(more) => token_kinds(alloc, more.as_slice()),
        None => unreachable!(),
    }
}

/// Kinds of tokens which, after the tokens from a place up to another, make an expression.
///
/// `tokens` are those of `text`, and some expression begins with the tokens from `from` up to `upto`. Memory may run out.
pub fn complete_expr(
    alloc: Global,
    tokens: &[Token],
    text: &[u8],
    from: usize,
    upto: usize,
) -> Result<Vec<TokenKind>, AllocError>
    requires tokens { AreTokens text.now tokens.now }
    requires low { from ≤ upto }
    requires high { upto ≤ length tokens.now }
    requires begins { Begins IsLevel write (lexemes_between text.now tokens.now from upto) }
    ensures { IfOk result (λ v. CompletesWith IsLevel write
        (lexemes_between text.now tokens.now from upto) v.items) }
{
    let _ = text;
    let kinds = completion(alloc, Symbol::Expr(0), &tokens[from..upto])?;
    Ok(kinds)
}

/// Kinds of tokens which, after the tokens before a place, make a source.
///
/// `tokens` are those of `text`, and some source begins with those before `upto`. Memory may run out.
pub fn complete(
    alloc: Global,
    tokens: &[Token],
    text: &[u8],
    upto: usize,
) -> Result<Vec<TokenKind>, AllocError>
    requires tokens { AreTokens text.now tokens.now }
    requires place { upto ≤ length tokens.now }
    requires begins { Begins IsLevelFile write_file (take upto (rest text.now tokens.now 0)) }
    ensures { IfOk result (λ v. CompletesWith IsLevelFile write_file
        (take upto (rest text.now tokens.now 0)) v.items) }
{
    let _ = text;
    let kinds = completion(alloc, Symbol::File, &tokens[..upto])?;
    Ok(kinds)
}

/// A law: two right trees of the same tokens that have their places are equal.
pub fn has_one_tree()
    ensures { (i : ℕ) (xs : List Lexeme) (t u : SyntaxTree) → IsOf IsLevel write xs t
        → IsPlacedTree i t
        → IsOf IsLevel write xs u → IsPlacedTree i u → t ≡ u }
{}

/// A law: two right files of the same tokens that have their places are equal.
pub fn has_one_file()
    ensures { (i : ℕ) (xs : List Lexeme) (f g : List SyntaxTheory)
        → IsOf IsLevelFile write_file xs f
        → PlacedFile i f → IsOf IsLevelFile write_file xs g → PlacedFile i g → f ≡ g }
{}
