// Full bodies: the bodies of definitions, in which the definitions before are inlined.
ghost use Rattle.std.specs.Prelude.{◌≡◌};
ghost use Rattle.trees.specs.Node.{tree_at, Holds};
ghost use Rattle.inlining.specs.images.image_trees.Imaged.{IsTypedSomewhere};
ghost use Rattle.tr_inline.specs.full_bodies.FullBodies.{body_for, rule_over_bodies, AreReady, IsUseOr};

use tasks::Task;
use trees::store::Store;
use trees::{Node, TermId};

/// The body of a defined symbol as it is written, and its full body, in which the definitions before are inlined; none
/// where that is large.
#[derive(Clone, Copy)]
pub struct FullBody {
    pub symbol: usize,
    pub body: TermId,
    pub full: Option<TermId>,
}

/// The bodies of a task.
#[derive(Clone, Copy)]
pub(crate) struct Inlining<'a> {
    pub task: &'a Task,
    pub bodies: &'a [FullBody],
}

/// A use of a defined symbol, with the full body of the symbol.
#[derive(Clone, Copy)]
pub(crate) struct SymbolUse {
    pub full: Option<TermId>,
    pub types: TermId,
    pub args: TermId,
}

// The body of a symbol: the last one in a list, else the one that is known.
fn find_body(bodies: &[FullBody], symbol: usize, known: Option<FullBody>) -> Option<FullBody>
    ensures { result ≡ body_for symbol known bodies.now }
{
    match bodies.split_first() {
        Some((first, rest)) => {
            if symbol == first.symbol {
                find_body(rest, symbol, Some(*first))
            } else {
                find_body(rest, symbol, known)
            }
        }
        None => known,
    }
}

/// The use of a symbol with a body that a node is.
pub(crate) fn find_use(store: &Store, inlining: &Inlining, e: TermId) -> Option<SymbolUse>
    requires ready { AreReady store.now inlining.now.task.now inlining.now.bodies.now }
    requires held { Holds store.now e }
    requires typed { IsTypedSomewhere (rule_over_bodies store.now inlining.now.task.now
        inlining.now.bodies.now) (tree_at store.now e) }
    ensures { IsUseOr store.now (rule_over_bodies store.now inlining.now.task.now
        inlining.now.bodies.now) e result }
{
    match store.node(e) {
        Node::Fun(f, types, args, _) => match find_body(inlining.bodies, f, None) {
            Some(body) => Some(SymbolUse {
                full: body.full,
                types,
                args,
            }),
            None => None,
        },
        Node::Pred(p, types, args) => match find_body(inlining.bodies, p, None) {
            Some(body) => Some(SymbolUse {
                full: body.full,
                types,
                args,
            }),
            None => None,
        },
        _ => None,
    }
}
