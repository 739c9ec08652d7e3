// The terms for the variables of a pattern, put into the body of a branch, told without making them.
// They depend on asked terms and on the instance walk of binders; the row of `matchdef` depends on them.
ghost use Rattle.std.specs.Prelude.{◌≡◌, ◌↔◌, ◌<◌, ◌≤◌, IsTrue};
ghost use Rattle.trees.specs.Tree.{pat_vars, loose};
ghost use Rattle.trees.specs.Node.{tree_at, Holds};
ghost use Rattle.trees.specs.Binding.{Bound, instantiating_many};
ghost use Rattle.tasks.specs.MatchTests.{pattern_terms, bind};
ghost use Rattle.rules.specs.Meaning.{task_of, TriedHeld};
ghost use Rattle.rules.specs.term_rules.Asked.{list_at, ListHeld};
ghost use Rattle.rules.specs.term_rules.Matches.{from_last, IsTriedReady};

use crate::Tried;
use crate::term_rules::asked::{Asked, AskedList, first_asked, is_asked, other_asked, projections};
use trees::binders::Put;
use trees::store::Store;
use trees::{Node, TermId};

// Whether a tree is the term for a variable of a pattern, or of a list of patterns, counted from the last one.
fn is_bound<'a>(
    x: &Tried<'_>,
    pattern: TermId,
    list: AskedList<'a>,
    back: usize,
    made: TermId,
) -> bool
    requires tried { TriedHeld x.now }
    requires pattern { Holds x.now.store.now pattern }
    requires list { ListHeld x.now.store.now list }
    requires made { Holds x.now.store.now made }
    requires within { back < pat_vars (tree_at x.now.store.now pattern) }
    requires small { back < 18446744073709551615 }
    ensures { IsTrue result ↔ (tree_at x.now.store.now made
        ≡ from_last (pattern_terms (task_of x.now) (tree_at x.now.store.now pattern)
        (list_at (task_of x.now) x.now.store.now list.entry)) back) }
{
    match x.store.node(pattern) {
        Node::PatVar(_) => is_asked(x, &first_asked(x, list), made),
        Node::PatAlias(inner) => {
            if back == 0 {
                is_asked(x, &first_asked(x, list), made)
            } else {
                is_bound(x, inner, list, back - 1, made)
            }
        },
        Node::Cell(first, more) => {
            let count = x.store.pattern_variables(more);
            if back < count {
                is_bound(x, more, other_asked(x, list), back, made)
            } else {
                let asked = first_asked(x, list);
                is_bound(x, first, AskedList::One(&asked), back - count, made)
            }
        },
        Node::PatCon(constructor, types, parts, _) => {
            let asked = first_asked(x, list);
            let inner = AskedList::Fields(projections(x, constructor), types, &asked);
            is_bound(x, parts, inner, back, made)
        },
        _ => false,
    }
}

// Whether a tree is the variable of an index and a type.
fn is_variable(store: &Store, id: TermId, index: usize, ty: TermId) -> bool
    requires held { Holds store.now id }
    requires ty_held { Holds store.now ty }
    ensures { IsTrue result ↔ (tree_at store.now id ≡ Bound index (tree_at store.now ty)) }
{
    match store.node(id) {
        Node::Bound(found, known) => found == index && store.same(known, ty),
        _ => false,
    }
}

// Whether a tree is what stands for a variable that the binders around do not close: a term of the pattern, or a variable farther out.
fn is_put_bound(
    x: &Tried<'_>,
    pattern: TermId,
    term: TermId,
    depth: usize,
    index: usize,
    ty: TermId,
    made: TermId,
) -> bool
    requires tried { TriedHeld x.now }
    requires pattern_held { Holds x.now.store.now pattern }
    requires term_held { Holds x.now.store.now term }
    requires closed { loose (tree_at x.now.store.now term) ≡ 0 }
    requires ty_held { Holds x.now.store.now ty }
    requires made_held { Holds x.now.store.now made }
    requires above { depth ≤ index }
    requires small { index < 18446744073709551615 }
    ensures { IsTrue result ↔ (tree_at x.now.store.now made
        ≡ (instantiating_many (bind (task_of x.now) (tree_at x.now.store.now pattern)
        (tree_at x.now.store.now term))).bound depth index (tree_at x.now.store.now ty)) }
{
    x.store.laws();
    let count = x.store.pattern_variables(pattern);
    let back = index - depth;
    if back < count {
        let asked = Asked::Whole(term);
        is_bound(x, pattern, AskedList::One(&asked), back, made)
    } else {
        is_variable(x.store, made, index - count, ty)
    }
}

// The terms for a pattern's variables, asked of a closed term.
#[derive(Clone, Copy)]
pub(crate) struct Bindings<'a> {
    pub x: &'a Tried<'a>,
    pub pattern: TermId,
    pub term: TermId,
}

impl<'a> Put for Bindings<'a> {
    ghost change_over = { λ v s. instantiating_many (bind (task_of v.x.now)
        (tree_at s v.pattern) (tree_at s v.term)) };

    ghost Ready = { λ v s. IsTriedReady v.x.now v.pattern v.term s };

    fn is_put(&self, s: &Store, e: TermId, depth: usize, made: TermId) -> Option<bool> {
        if s.loose(e) <= depth {
            return Some(s.same(made, e));
        }
        match s.node(e) {
            Node::Bound(index, ty) => Some(is_put_bound(
                self.x,
                self.pattern,
                self.term,
                depth,
                index,
                ty,
                made,
            )),
            _ => None,
        }
    }
}
