// The test of a pattern, told without making it: what is left of a conjunction after a pattern's tests.
// It depends on asked terms; the row of `matchdef` depends on it.
ghost use Rattle.std.specs.Prelude.{◌≡◌, ◌↔◌, ◌∷◌, [], Option, Some, None, IsTrue, IfSome};
ghost use Rattle.std.specs.Option.{option_map};
ghost use Rattle.trees.specs.Tree.{Tree};
ghost use Rattle.trees.specs.Node.{tree_at, Holds};
ghost use Rattle.tasks.specs.MatchTests.{tests, test, con_equation};
ghost use Rattle.rules.specs.Meaning.{task_of, TriedHeld};
ghost use Rattle.rules.specs.term_rules.Conjuncts.{conjunction_with, conjunction_before};
ghost use Rattle.rules.specs.term_rules.Asked.{asked_at, AskedHeld, list_at, ListHeld};

use crate::Tried;
use crate::term_rules::asked::{
    Asked, AskedList, first_asked, is_asked, is_rebuilt, other_asked, projections,
};
use trees::{Node, Op, TermId};

// Whether a tree says that a term is a constructor on its own fields.
fn is_equation<'a>(
    x: &Tried<'_>,
    constructor: usize,
    types: TermId,
    term: &'a Asked<'a>,
    id: TermId,
) -> bool
    requires tried { TriedHeld x.now }
    requires types_held { Holds x.now.store.now types }
    requires term { AskedHeld x.now.store.now term.now }
    requires held { Holds x.now.store.now id }
    ensures { IsTrue result ↔ (tree_at x.now.store.now id ≡ con_equation (task_of x.now) constructor
        (tree_at x.now.store.now types) (asked_at (task_of x.now) x.now.store.now term.now)) }
{
    match x.store.node(id) {
        Node::Eq(a, b) => is_asked(x, term, a)
            && is_rebuilt(x, constructor, projections(x, constructor), types, term, b),
        _ => false,
    }
}

// What is left of a conjunction after that equation.
fn after_equation<'a>(
    x: &Tried<'_>,
    constructor: usize,
    types: TermId,
    term: &'a Asked<'a>,
    id: TermId,
) -> Option<Option<TermId>>
    requires tried { TriedHeld x.now }
    requires types_held { Holds x.now.store.now types }
    requires term { AskedHeld x.now.store.now term.now }
    requires held { Holds x.now.store.now id }
    ensures is { IfSome result (λ r. Some (tree_at x.now.store.now id)
        ≡ conjunction_with (con_equation (task_of x.now) constructor (tree_at x.now.store.now types)
        (asked_at (task_of x.now) x.now.store.now term.now))
        (option_map (tree_at x.now.store.now) r)) }
    ensures can { (inner : Option Tree) → Some (tree_at x.now.store.now id)
        ≡ conjunction_with (con_equation (task_of x.now) constructor (tree_at x.now.store.now types)
        (asked_at (task_of x.now) x.now.store.now term.now)) inner
        → option_map (λ r. option_map (tree_at x.now.store.now) r) result ≡ Some inner }
    ensures held { IfSome result (λ r. IfSome r (Holds x.now.store.now)) }
{
    match x.store.node(id) {
        Node::Join(op, a, b) => {
            if op == Op::And && is_equation(x, constructor, types, term, a) {
                Some(Some(b))
            } else {
                None
            }
        },
        _ => {
            if is_equation(x, constructor, types, term, id) {
                Some(None)
            } else {
                None
            }
        },
    }
}

// What is left of a conjunction after the tests of a pattern, or of a list of patterns.
fn after_tests(
    x: &Tried<'_>,
    pattern: TermId,
    list: AskedList<'_>,
    made: Option<TermId>,
) -> Option<Option<TermId>>
    requires tried { TriedHeld x.now }
    requires pattern { Holds x.now.store.now pattern }
    requires list { ListHeld x.now.store.now list }
    requires made { IfSome made (Holds x.now.store.now) }
    ensures is { IfSome result (λ r. option_map (tree_at x.now.store.now) made
        ≡ conjunction_before (tests (task_of x.now) (tree_at x.now.store.now pattern)
        (list_at (task_of x.now) x.now.store.now list.entry))
        (option_map (tree_at x.now.store.now) r)) }
    ensures can { (left : Option Tree) → option_map (tree_at x.now.store.now) made
        ≡ conjunction_before (tests (task_of x.now) (tree_at x.now.store.now pattern)
        (list_at (task_of x.now) x.now.store.now list.entry)) left
        → option_map (λ r. option_map (tree_at x.now.store.now) r) result ≡ Some left }
    ensures held { IfSome result (λ r. IfSome r (Holds x.now.store.now)) }
{
    match x.store.node(pattern) {
        Node::PatAlias(inner) => after_tests(x, inner, list, made),
        Node::Cell(first, more) => {
            let asked = first_asked(x, list);
            match after_tests(x, first, AskedList::One(&asked), made) {
                Some(rest) => after_tests(x, more, other_asked(x, list), rest),
                None => None,
            }
        },
        Node::PatCon(constructor, types, parts, _) => match made {
            Some(id) => {
                let asked = first_asked(x, list);
                match after_equation(x, constructor, types, &asked, id) {
                    Some(inner) => after_tests(
                        x,
                        parts,
                        AskedList::Fields(projections(x, constructor), types, &asked),
                        inner,
                    ),
                    None => None,
                }
            },
            None => None,
        },
        _ => Some(made),
    }
}

// Whether nothing more is left of a conjunction.
fn is_spent(left: Option<Option<TermId>>) -> bool
    ensures { IsTrue result ↔ (left ≡ Some None) }
{
    match left {
        Some(None) => true,
        _ => false,
    }
}

// Whether a conjunction is the tests of a pattern, asked of a term, and nothing more.
fn is_tests(x: &Tried<'_>, pattern: TermId, term: TermId, made: Option<TermId>) -> bool
    requires tried { TriedHeld x.now }
    requires pattern_held { Holds x.now.store.now pattern }
    requires term_held { Holds x.now.store.now term }
    requires made { IfSome made (Holds x.now.store.now) }
    ensures { IsTrue result ↔ (option_map (tree_at x.now.store.now) made
        ≡ conjunction_before (tests (task_of x.now) (tree_at x.now.store.now pattern)
        (tree_at x.now.store.now term ∷ [])) None) }
{
    let asked = Asked::Whole(term);
    is_spent(after_tests(x, pattern, AskedList::One(&asked), made))
}

// Whether a tree is the test of a pattern, asked of a term.
#[tactic(auto, using(crate::proofs::term_rules::TestLemmas::some_test, crate::proofs::term_rules::TestLemmas::true_test, crate::proofs::term_rules::TestLemmas::other_test))]
pub(crate) fn is_test(x: &Tried<'_>, pattern: TermId, term: TermId, id: TermId) -> bool
    requires tried { TriedHeld x.now }
    requires pattern_held { Holds x.now.store.now pattern }
    requires term_held { Holds x.now.store.now term }
    requires held { Holds x.now.store.now id }
    ensures { IsTrue result ↔ (tree_at x.now.store.now id ≡ test (task_of x.now)
        (tree_at x.now.store.now pattern) (tree_at x.now.store.now term)) }
{
    if is_tests(x, pattern, term, Some(id)) {
        return true;
    }
    match x.store.node(id) {
        Node::True => is_tests(x, pattern, term, None),
        _ => false,
    }
}
