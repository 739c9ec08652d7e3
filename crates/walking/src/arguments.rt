// Links of the arguments of applications at environments.
ghost use Rattle.std.specs.Prelude.{◌≡◌, [], ◌∷◌, ◌++◌, All, IfOk};
ghost use Rattle.trees.specs.Tree.{Two, HCell};
ghost use Rattle.trees.specs.Node.{tree_at, Holds};
ghost use Rattle.trees.specs.Sorts.{sort_of};
ghost use Rattle.evidence.specs.Drafts.{Extends, AddsTrees};
ghost use Rattle.congruence.specs.Alike.{IsClosedAt};
ghost use Rattle.congruence.specs.Applications.{applied, IsSymbolHeld};
ghost use Rattle.walking.specs.Places.{IsInstanceAt, IsLinkOf};
ghost use Rattle.walking.specs.Arguments.{AreInstancesAt, AreLinksOf};

use crate::linked::{Linked, LinkedArguments};
use congruence::{SymbolAt, apply, chain, replace_argument};
use evidence::Draft;
use std::alloc::AllocError;
use tasks::Grow;
use trees::{Node, Sort, TermId};

// An open list of arguments and its instance.
#[derive(Clone, Copy)]
struct Lists {
    image: TermId,
    list: TermId,
}

// The lists of one argument and of those after it.
#[tactic(auto, using(evidence::specs::Laws::AddsTrees_trans))]
fn argument_lists(
    draft: &mut Draft,
    env: &[TermId],
    first: TermId,
    one: Linked,
    after: LinkedArguments,
    fresh: usize,
) -> Result<Lists, AllocError>
    requires one { IsLinkOf draft.old env.now first fresh (tree_at draft.old.trees one.image) one }
    requires term { sort_of (tree_at draft.old.trees first) ≡ Sort.Term }
    requires after { AreInstancesAt draft.old env.now after.image after.list fresh }
    ensures places { IfOk result (λ m. AreInstancesAt draft.new env.now m.image m.list fresh) }
    ensures image { IfOk result (λ m. tree_at draft.new.trees m.image
        ≡ Two HCell (tree_at draft.old.trees one.image) (tree_at draft.old.trees after.image)) }
    ensures list { IfOk result (λ m. tree_at draft.new.trees m.list
        ≡ Two HCell (tree_at draft.old.trees one.right) (tree_at draft.old.trees after.list)) }
    ensures grows { AddsTrees draft.old draft.new }
{
    let _ = env;
    let _ = first;
    let _ = fresh;
    let image = draft.add(Node::Cell(one.image, after.image))?;
    let list = draft.add(Node::Cell(one.right, after.list))?;
    Ok(Lists { image, list })
}

/// The links of one argument and of those after it.
pub(crate) fn link_argument(
    draft: &mut Draft,
    env: &[TermId],
    symbol: SymbolAt,
    before: &[TermId],
    left: TermId,
    first: TermId,
    one: Linked,
    after: LinkedArguments,
    fresh: usize,
) -> Result<LinkedArguments, AllocError>
    requires symbol_held { IsSymbolHeld draft.old.trees symbol }
    requires before_held { All (Holds draft.old.trees) before.now }
    requires first { IsClosedAt draft.old first }
    requires term { sort_of (tree_at draft.old.trees first) ≡ Sort.Term }
    requires one { IsLinkOf draft.old env.now first fresh (tree_at draft.old.trees one.image) one }
    requires after { AreLinksOf draft.old env.now symbol (before.now ++ first ∷ []) left fresh
        (tree_at draft.old.trees after.image) after }
    ensures links { IfOk result (AreLinksOf draft.new env.now symbol before.now left fresh
        (Two HCell (tree_at draft.old.trees one.image) (tree_at draft.old.trees after.image))) }
    ensures grows { Extends draft.old draft.new }
{
    let lists = argument_lists(draft, env, first, one, after, fresh)?;
    let made = replace_argument(
        draft,
        symbol,
        before,
        after.right,
        first,
        one.right,
        after.list,
        one.alike,
    )?;
    let alike = chain(
        draft,
        left,
        after.right,
        made.right,
        after.alike,
        made.alike,
    )?;
    Ok(LinkedArguments {
        image: lists.image,
        list: lists.list,
        right: made.right,
        alike,
    })
}

/// An application over the links of its arguments.
pub(crate) fn link_symbol(
    draft: &mut Draft,
    env: &[TermId],
    e: TermId,
    left: TermId,
    symbol: SymbolAt,
    arguments: TermId,
    made: LinkedArguments,
    fresh: usize,
) -> Result<Linked, AllocError>
    requires place { IsInstanceAt draft.old env.now e left fresh }
    requires symbol_held { IsSymbolHeld draft.old.trees symbol }
    requires e_is { tree_at draft.old.trees e
        ≡ applied draft.old.trees symbol (tree_at draft.old.trees arguments) }
    requires made { AreLinksOf draft.old env.now symbol [] left fresh
        (tree_at draft.old.trees made.image) made }
    ensures link { IfOk result (IsLinkOf draft.new env.now left fresh
        (applied draft.old.trees symbol (tree_at draft.old.trees made.image))) }
    ensures grows { Extends draft.old draft.new }
{
    let _ = env;
    let _ = e;
    let _ = left;
    let _ = arguments;
    let _ = fresh;
    let image = apply(draft, symbol, made.image)?;
    Ok(Linked {
        image,
        right: made.right,
        alike: made.alike,
    })
}
