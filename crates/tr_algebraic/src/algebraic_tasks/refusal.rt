// The first declaration that may not be there where algebraic types become symbols with their laws.
ghost use Rattle.std.specs.Prelude.{◌≡◌, ◌+◌, ◌≤◌, List, length};
ghost use Rattle.tasks.specs.trees.Tree.{Tree};
ghost use Rattle.tasks.specs.Meaning.{declarations_at};
ghost use Rattle.tr_algebraic.specs.algebraic_tasks.Refused.{refused_from};

use tasks::{Body, Decl};

/// The place of the first definition or inductive declaration of these, counted from this one.
pub fn refused_place(decls: &[Decl], place: usize) -> Option<usize>
    requires fits { place + length decls.now ≤ usize.MAX }
    ensures { (s : List Tree) → result ≡ refused_from place (declarations_at s decls.now) }
{
    match decls.split_first() {
        Some((first, rest)) => match &first.body {
            Body::Defs(_) => Some(place),
            Body::Inductives(_) => Some(place),
            _ => refused_place(rest, place + 1),
        },
        None => None,
    }
}
