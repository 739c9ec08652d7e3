// How deep tokens are nested: the first that is nested too deep.
ghost use Rattle.std.specs.Prelude.{◌≡◌, ◌≤◌, [], IfOk, MatchOption};
ghost use Rattle.grammar.specs.recognise.Depth as spec;
ghost use Rattle.grammar.specs.recognise.Depth.{depth as depth_of, most_nested, nested, IsTooDeep, IsShallow};
ghost use Rattle.grammar.specs.declared.recognise.depth.Nesting.TheVariants.{Opens as OpensOne, Closes as ClosesOne, Counts as CountsOne, Restarts as RestartsOne};

use crate::recognise::stack::Stack;
use std::alloc::{AllocError, Global};
use tokens_why::Terminal;

/// What a token does to the counters of open brackets: it opens a bracket, closes the innermost one, counts in it, or lets it
/// count from 0 again.
#[derive(Clone, Copy)]
pub enum Nesting {
    Opens,
    Closes,
    Counts,
    Restarts,
    Keeps,
}

/// The counters of the open brackets, the innermost on top, and how deep a token after them is nested.
#[derive(Drop)]
struct Counters {
    counts: Stack,
    depth: usize,
    ghost is_depth: { depth ≡ depth_of counts },
}

/// What a terminal does.
fn nests(terminal: Terminal) -> Nesting
    ensures { result ≡ spec.nesting terminal }
{
    match terminal {
        Terminal::LParen
        | Terminal::LBrack
        | Terminal::LBrace
        | Terminal::TheoryWord
        | Terminal::ModuleWord
        | Terminal::ScopeWord
        | Terminal::MatchWord => Nesting::Opens,
        Terminal::RParen | Terminal::RBrack | Terminal::RBrace | Terminal::EndWord => {
            Nesting::Closes
        }
        Terminal::IfWord
        | Terminal::LetWord
        | Terminal::ForallWord
        | Terminal::ExistsWord
        | Terminal::NotWord
        | Terminal::Arrow
        | Terminal::Equiv
        | Terminal::Conj
        | Terminal::AndAnd
        | Terminal::Disj
        | Terminal::OrOr
        | Terminal::Equal
        | Terminal::Minus
        | Terminal::Operator1
        | Terminal::Operator2
        | Terminal::Operator3
        | Terminal::Operator4
        | Terminal::PrefixOperator => Nesting::Counts,
        Terminal::TypeWord
        | Terminal::FunctionWord
        | Terminal::PredicateWord
        | Terminal::ConstantWord
        | Terminal::InductiveWord
        | Terminal::AxiomWord
        | Terminal::LemmaWord
        | Terminal::GoalWord
        | Terminal::UseWord
        | Terminal::CloneWord
        | Terminal::WithWord
        | Terminal::Semi
        | Terminal::Bar => Nesting::Restarts,
        _ => Nesting::Keeps,
    }
}

/// One bracket more.
fn open_bracket(counters: Counters) -> Result<Counters, AllocError>
    requires { counters.depth ≤ most_nested }
    ensures { IfOk result (λ c. c.counts ≡ nested OpensOne counters.counts) }
{
    let Counters { counts, depth } = counters;
    let counts = counts.push(0)?;
    Ok(Counters {
        counts,
        depth: depth + 1,
    })
}

/// Without the innermost bracket, if there is one.
fn close_bracket(alloc: Global, counters: Counters) -> Counters
    ensures { result.counts ≡ nested ClosesOne counters.counts }
{
    let Counters { counts, depth } = counters;
    match counts.pop() {
        None => no_counters(alloc),
        Some((count, outer)) => Counters {
            counts: outer,
            depth: depth - 1 - count,
        },
    }
}

/// One count more in the innermost bracket, if there is one.
fn count_one(alloc: Global, counters: Counters) -> Result<Counters, AllocError>
    requires { counters.depth ≤ most_nested }
    ensures { IfOk result (λ c. c.counts ≡ nested CountsOne counters.counts) }
{
    let Counters { counts, depth } = counters;
    match counts.pop() {
        None => Ok(no_counters(alloc)),
        Some((count, outer)) => {
            let counts = outer.push(count + 1)?;
            Ok(Counters {
                counts,
                depth: depth + 1,
            })
        }
    }
}

/// No count in the innermost bracket, if there is one.
fn restart_count(alloc: Global, counters: Counters) -> Result<Counters, AllocError>
    ensures { IfOk result (λ c. c.counts ≡ nested RestartsOne counters.counts) }
{
    let Counters { counts, depth } = counters;
    match counts.pop() {
        None => Ok(no_counters(alloc)),
        Some((count, outer)) => {
            let counts = outer.push(0)?;
            Ok(Counters {
                counts,
                depth: depth - count,
            })
        }
    }
}

fn no_counters(alloc: Global) -> Counters
    ensures { result.counts ≡ [] }
{
    Counters {
        counts: Stack::new(alloc),
        depth: 0,
    }
}

/// The counters after a token.
fn counters_after(alloc: Global, counters: Counters, by: Nesting) -> Result<Counters, AllocError>
    requires { counters.depth ≤ most_nested }
    ensures { IfOk result (λ c. c.counts ≡ nested by counters.counts) }
{
    match by {
        Nesting::Opens => open_bracket(counters),
        Nesting::Closes => Ok(close_bracket(alloc, counters)),
        Nesting::Counts => count_one(alloc, counters),
        Nesting::Restarts => restart_count(alloc, counters),
        Nesting::Keeps => Ok(counters),
    }
}

/// The first token that is nested deeper than 200, or none.
pub fn too_deep(alloc: Global, tokens: &[Terminal]) -> Result<Option<usize>, AllocError>
    ensures { IfOk result (λ r. MatchOption r (IsShallow tokens.now) (IsTooDeep tokens.now)) }
{
    let mut counters = no_counters(alloc);
    for at in 0..tokens.len() {
        let next = counters_after(alloc, counters, nests(tokens[at]))?;
        if next.depth > 200 {
            return Ok(Some(at));
        }
        counters = next;
    }
    Ok(None)
}
