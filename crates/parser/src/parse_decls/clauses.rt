// Inductive predicates with their clauses.
ghost use Rattle.std.specs.Prelude.{◌+◌, ◌∷◌, IfOk, map};
ghost use Rattle.parser.specs.parse_decls.Common.{clause_of, inductive_of, CanRead, CanRun, lexemes};
ghost use Rattle.grammar.specs.declared.symbols.Symbol.TheVariants as rule;
ghost use Rattle.tokens_why.specs.declared.terminal.Terminal.TheVariants.{Colon, Equal};
ghost use Rattle.parser.specs.parse_decls.Clauses.{IsClause, IsClauses, IsReadInductive};

use crate::parse_decls::declared::{declared_name, prop_name};
use crate::parse_decls::parameters::params;
use crate::parse_terms::{Source, expression, is_at, past_bar};
use outside::Seq;
use std::alloc::{AllocError, Global};
use surface::{ClauseTree, IndTree};
use tokens_why::Terminal;

/// A clause, and the token after it.
fn clause(alloc: Global, source: Source, i: usize) -> Result<(ClauseTree, usize), AllocError>
    requires { CanRun (lexemes source)
        (λ k. rule.Ident ∷ rule.Take Colon ∷ rule.Expr 0 ∷ rule.Clauses ∷ k) i }
    ensures { IfOk result (λ r. IsClause (lexemes source.entry) i (clause_of r.0) r.1) }
{
    let name = prop_name(alloc, source, i)?;
    let prop = expression(alloc, source, 0, i + 1 + 1)?;
    let clause = ClauseTree {
        name,
        prop: prop.tree,
    };
    Ok((clause, prop.end))
}

/// The clauses of a predicate, whether a bar is before the first, and the token after them.
#[derive(Drop)]
struct ReadClauses {
    bar: bool,
    clauses: Seq<ClauseTree>,
    end: usize,
}

fn clauses(alloc: Global, source: Source, i: usize) -> Result<ReadClauses, AllocError>
    requires { CanRead (lexemes source) rule.Clause i }
    ensures { IfOk result
        (λ r. IsClauses (lexemes source.entry) i r.bar (map clause_of r.clauses) r.end) }
{
    let (bar, begin) = past_bar(source, i);
    let mut clauses: Vec<ClauseTree> = Vec::new(alloc);
    let (first, mut j) = clause(alloc, source, begin)?;
    clauses.push(first)?;
    'more: while is_at(source, j, Terminal::Bar) {
        let (next, end) = clause(alloc, source, j + 1)?;
        clauses.push(next)?;
        j = end;
    }
    Ok(ReadClauses {
        bar,
        clauses: Seq::from_vec(clauses),
        end: j,
    })
}

/// An inductive predicate with its clauses, and the token after it. Only want of memory refuses.
pub fn inductive_predicate(
    alloc: Global,
    source: Source,
    i: usize,
) -> Result<(IndTree, usize), AllocError>
    requires { CanRun (lexemes source)
        (λ k. rule.Op ∷ rule.Params ∷ rule.Take Equal ∷ rule.Clause ∷ k) i }
    ensures { IfOk result (λ r. IsReadInductive (lexemes source.entry) i (inductive_of r.0) r.1) }
{
    let (name, j) = declared_name(alloc, source, i)?;
    let (params, equal) = params(alloc, source, j)?;
    let read = clauses(alloc, source, equal + 1)?;
    let tree = IndTree {
        name,
        params,
        bar: read.bar,
        clauses: read.clauses,
    };
    Ok((tree, read.end))
}
