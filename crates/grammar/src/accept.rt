// The machine in code: a stack of symbols, the top one last, that takes one token after another.
ghost use Rattle.std.specs.Prelude.{◌≡◌, ◌++◌, [], ◌∷◌, IfOk, map, option_map, reverse};
ghost use Rattle.tokens_why.specs.Alphabet.{terminal_number, same};
ghost use Rattle.grammar.specs.Machine.{find_production, is_seal, sealed, takes};
ghost use Rattle.grammar.specs.Rows.{PutsSymbols, Takes, production_of, operand_takes, tail_takes};
ghost use Rattle.grammar.specs.Ends.{TakesAll};
ghost use Rattle.grammar.specs.declared.symbols.Symbol.TheVariants.{Expr};
ghost use Rattle.grammar.specs.Table.{optional};

use crate::operators::{is_infix, need_of, prec_of, right_of};
use crate::symbols::Symbol;
use crate::table::{OPEN, PRIM, Row, rows_of};
use std::alloc::{AllocError, Global};
use tokens_why::Terminal;

/// The number of a terminal in their order.
fn number_of(x: Terminal) -> u8
    ensures { result ≡ terminal_number x }
{
    x as u8
}

/// Whether two terminals are one.
pub fn is_same(a: Terminal, b: Terminal) -> bool
    ensures { result ≡ same a b }
{
    number_of(a) == number_of(b)
}

/// What comes after a token among rows.
fn symbols_after(rows: &'static [Row], x: Terminal) -> Option<&'static [Symbol]>
    ensures { option_map (λ r. r.now) result ≡ find_production (map production_of rows.now) x }
{
    for row in rows {
        if is_same(row.0, x) {
            return Some(row.1);
        }
    }
    None
}

/// Symbols on top of a stack, the first of them topmost.
fn push_all(stack: &mut Vec<Symbol>, symbols: &[Symbol]) -> Result<(), AllocError>
    ensures { IfOk result (λ u. reverse stack.new.items ≡ symbols.now ++ reverse stack.old.items) }
{
    let mut left = symbols.len();
    while left > 0 {
        left -= 1;
        stack.push(symbols[left])?;
    }
    Ok(())
}

fn put_row(stack: &mut Vec<Symbol>, rows: &'static [Row], x: Terminal) -> Result<bool, AllocError>
    ensures { IfOk result (PutsSymbols (find_production (map production_of rows.now) x)
        stack.old.items stack.new.items) }
{
    match symbols_after(rows, x) {
        None => Ok(false),
        Some(symbols) => {
            push_all(stack, symbols)?;
            Ok(true)
        }
    }
}

/// Whether a symbol may be empty.
pub fn may_be_empty(symbol: Symbol) -> bool
    ensures { result ≡ optional symbol }
{
    matches!(
        symbol,
        Symbol::Tail(_, _)
            | Symbol::Seal
            | Symbol::File
            | Symbol::Tvars
            | Symbol::Upper
            | Symbol::Algs
            | Symbol::Params
            | Symbol::Body
            | Symbol::Members
            | Symbol::Value
            | Symbol::Clauses
            | Symbol::Renamed
            | Symbol::Subst
            | Symbol::Elems
            | Symbol::Qids
            | Symbol::Targs
            | Symbol::AsPart
            | Symbol::Quids
            | Symbol::Patoms
            | Symbol::Fields
            | Symbol::HeadRest(_)
            | Symbol::Scoped
            | Symbol::Applied
            | Symbol::Dots
            | Symbol::Args
    )
}

fn put_tail(stack: &mut Vec<Symbol>, m: u8, u: u8, x: Terminal) -> Result<bool, AllocError>
    ensures { IfOk result (PutsSymbols (tail_takes m u x) stack.old.items stack.new.items) }
{
    if is_infix(x) && m <= prec_of(x) && need_of(x) <= u {
        stack.push(Symbol::Tail(m, prec_of(x)))?;
        stack.push(Symbol::Expr(right_of(x)))?;
        Ok(true)
    } else {
        Ok(false)
    }
}

/// A prefix operator or an open form, where the terminal begins one, or else an application or an atom.
fn put_operand(stack: &mut Vec<Symbol>, m: u8, x: Terminal) -> Result<bool, AllocError>
    ensures { IfOk result (PutsSymbols (operand_takes m x) stack.old.items stack.new.items) }
{
    if put_row(stack, &OPEN, x)? {
        return Ok(true);
    }
    stack.push(Symbol::Tail(m, 9))?;
    if put_row(stack, &PRIM, x)? {
        return Ok(true);
    }
    stack.pop();
    Ok(false)
}

fn put_expr(stack: &mut Vec<Symbol>, m: u8, x: Terminal) -> Result<bool, AllocError>
    ensures { IfOk result (PutsSymbols (takes (Expr m) x) stack.old.items stack.new.items) }
{
    match x {
        Terminal::NotWord => {
            if m <= 3 {
                stack.push(Symbol::Tail(m, 3))?;
                stack.push(Symbol::Expr(3))?;
            }
            Ok(m <= 3)
        }
        Terminal::Minus | Terminal::PrefixOperator => {
            stack.push(Symbol::Tail(m, 8))?;
            stack.push(Symbol::Expr(8))?;
            Ok(true)
        }
        _ => put_operand(stack, m, x),
    }
}

/// What comes after a token is put on the stack, where the symbol begins with it.
fn put(stack: &mut Vec<Symbol>, symbol: Symbol, x: Terminal) -> Result<bool, AllocError>
    ensures { IfOk result (PutsSymbols (takes symbol x) stack.old.items stack.new.items) }
{
    match symbol {
        Symbol::Take(t) => Ok(is_same(t, x)),
        Symbol::Expr(m) => put_expr(stack, m, x),
        Symbol::Tail(m, u) => put_tail(stack, m, u, x),
        Symbol::Seal => Ok(false),
        rule => put_row(stack, rows_of(rule), x),
    }
}

/// Whether a symbol takes nothing since it is a tail under a seal.
fn is_silent(after_seal: bool, symbol: Symbol) -> bool
    ensures { result ≡ sealed after_seal symbol }
{
    after_seal && matches!(symbol, Symbol::Tail(_, _))
}

fn is_seal_symbol(symbol: Symbol) -> bool
    ensures { result ≡ is_seal symbol }
{
    matches!(symbol, Symbol::Seal)
}

/// Takes a token, if the stack can.
pub fn take_token(stack: &mut Vec<Symbol>, x: Terminal) -> Result<bool, AllocError>
    ensures { IfOk result (Takes x stack.old.items stack.new.items) }
{
    let mut after_seal = false;
    while let Some(symbol) = stack.pop() {
        if is_silent(after_seal, symbol) {
            continue;
        }
        if put(stack, symbol, x)? {
            return Ok(true);
        }
        if !may_be_empty(symbol) {
            return Ok(false);
        }
        after_seal = is_seal_symbol(symbol);
    }
    Ok(false)
}

/// How many tokens, from the first on, begin a token string of a symbol.
pub fn count_taken(alloc: Global, start: Symbol, tokens: &[Terminal]) -> Result<usize, AllocError>
    ensures { IfOk result (λ n. TakesAll (start ∷ []) tokens.now n) }
{
    let mut stack: Vec<Symbol> = Vec::new(alloc);
    stack.push(start)?;
    for (i, x) in tokens.iter().enumerate() {
        if !take_token(&mut stack, *x)? {
            return Ok(i);
        }
    }
    Ok(tokens.len())
}
