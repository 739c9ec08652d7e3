// A shortest string of each rule, and how a stack is completed by them.
ghost use Rattle.std.specs.Prelude.{◌≡◌, ◌++◌, IfOk, OnOk, reverse};
ghost use Rattle.grammar.specs.Machine.{complete};
ghost use Rattle.grammar.specs.Rows.{HasShortest};
ghost use Rattle.grammar.specs.Table.{shortest};

use crate::symbols::Symbol;
use std::alloc::{AllocError, Global};
use tokens_why::Terminal as T;

/// A shortest string of a rule.
fn shortest_of(rule: Symbol) -> &'static [T]
    ensures { HasShortest rule result.now }
{
    match rule {
        Symbol::Expr(_) => &[T::StarName],
        Symbol::Decls => &[T::EndWord],
        Symbol::Typedef => &[T::Lident],
        Symbol::Algvars => &[T::Equal, T::Uident],
        Symbol::Con => &[T::Uident],
        Symbol::Op => &[T::StarName],
        Symbol::Opname => &[T::Minus, T::RParen],
        Symbol::Opend => &[T::RParen],
        Symbol::Ident => &[T::Lident],
        Symbol::Param => &[T::Lident],
        Symbol::Pparen => &[T::RParen],
        Symbol::Pname => &[T::RParen],
        Symbol::Member => &[T::Equal, T::StarName],
        Symbol::Clause => &[T::Lident, T::Colon, T::StarName],
        Symbol::Used => &[T::Uident],
        Symbol::Cloned => &[T::Uident],
        Symbol::Path => &[T::Uident],
        Symbol::Elem => &[T::AxiomWord, T::Dot],
        Symbol::Axioms => &[T::Dot],
        Symbol::Elvars => &[T::Equal, T::Lident],
        Symbol::Qlid => &[T::Lident],
        Symbol::Qop => &[T::StarName],
        Symbol::Qid => &[T::Lident],
        Symbol::TypeOf => &[T::Lident],
        Symbol::Atype => &[T::Lident],
        Symbol::Ttuple => &[T::RParen],
        Symbol::Tmore => &[T::RParen],
        Symbol::Pat => &[T::Lident],
        Symbol::Ptuple => &[T::RParen],
        Symbol::Pmore => &[T::RParen],
        Symbol::GroupRest => &[T::RParen],
        Symbol::More => &[T::RParen],
        Symbol::Scrutinees => &[T::WithWord, T::Lident, T::Arrow, T::StarName, T::EndWord],
        Symbol::Branch => &[T::Lident, T::Arrow, T::StarName, T::EndWord],
        Symbol::Arm => &[T::Arrow, T::StarName, T::EndWord],
        Symbol::Branches => &[T::EndWord],
        Symbol::Letpats => &[T::Equal, T::StarName, T::InWord, T::StarName],
        Symbol::Binder => &[T::Dot, T::StarName],
        Symbol::Binders => &[T::Dot, T::StarName],
        Symbol::Trigger => &[T::RBrack, T::Dot, T::StarName],
        Symbol::OpenForm => &[T::ExistsWord, T::Lident, T::Dot, T::StarName],
        Symbol::RecordField => &[T::Lident, T::Colon, T::Lident],
        Symbol::RecordRest | Symbol::RecordNext => &[T::RBrace],
        Symbol::PatFields | Symbol::PatField => &[T::RBrace],
        Symbol::ExprFields | Symbol::ExprField => &[T::RBrace],
        Symbol::Patom => &[T::Lident],
        Symbol::Prim => &[T::StarName],
        Symbol::Head(_) | Symbol::Qhead => &[T::StarName],
        Symbol::Atom => &[T::StarName],
        Symbol::Hparen => &[T::RParen],
        Symbol::Hminus => &[T::RParen],
        Symbol::Aparen => &[T::RParen],
        Symbol::Aminus => &[T::RParen],
        _ => &[],
    }
}

fn push_shortest(out: &mut Vec<T>, symbol: Symbol) -> Result<(), AllocError>
    ensures { OnOk result (out.new.items ≡ out.old.items ++ shortest symbol) }
{
    match symbol {
        Symbol::Take(x) => {
            out.push(x)?;
            Ok(())
        }
        rule => out.extend_from_slice(shortest_of(rule)),
    }
}

/// Terminals that complete a stack.
pub fn completion(alloc: Global, stack: &mut Vec<Symbol>) -> Result<Vec<T>, AllocError>
    ensures { IfOk result (λ v. v.items ≡ complete (reverse stack.old.items)) }
{
    let mut out: Vec<T> = Vec::new(alloc);
    while let Some(symbol) = stack.pop() {
        push_shortest(&mut out, symbol)?;
    }
    Ok(out)
}
