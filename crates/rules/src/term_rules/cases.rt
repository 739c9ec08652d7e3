// The row of `case`.
// It depends on asked terms; the checker of a step depends on it.
ghost use Rattle.std.specs.Prelude.{◌≡◌, ◌↔◌, map, IsTrue};
ghost use Rattle.std.specs.Option.{option_map};
ghost use Rattle.trees.specs.Node.{tree_at, Holds};
ghost use Rattle.tasks.specs.Meaning.{cons_at};
ghost use Rattle.tasks.specs.Roles.{role};
ghost use Rattle.tasks.specs.MatchTests.{rebuilt};
ghost use Rattle.rules.specs.Trees.{RCase};
ghost use Rattle.rules.specs.Rows.{Adds, constructors};
ghost use Rattle.rules.specs.Meaning.{task_of, sequent_of, premises_of, TriedHeld, RowOf};
ghost use Rattle.rules.specs.term_rules.Cases.{IsRebuiltHeld, case_by};

use crate::term_rules::asked::{Asked, is_rebuilt};
use crate::{Equal, Shape, Tried, is_wider, premise};
use tasks::{Con, Role};
use trees::store::Store;
use trees::{Node, TermId};

// A constructor on the fields of a term.
#[derive(Clone, Copy)]
struct Rebuilt<'a> {
    x: &'a Tried<'a>,
    con: &'a Con,
    types: TermId,
    term: TermId,
}

impl<'a> Shape for Rebuilt<'a> {
    ghost tree = { λ v s. rebuilt (task_of v.x.now) v.con.now.symbol v.con.now.projections
        (tree_at s v.types) (tree_at s v.term) };

    ghost IsHeld = { λ v s. IsRebuiltHeld v s };

    fn is(&self, store: &Store, id: TermId) -> bool {
        let _ = store;
        let asked = Asked::Whole(self.term);
        let projections = self.con.projections.as_slice();
        is_rebuilt(self.x, self.con.symbol, projections, self.types, &asked, id)
    }
}

// Whether there is a premise for each constructor, which says that a term is that constructor on its own fields.
fn are_cases<'a>(x: &'a Tried<'a>, cons: &'a [Con], types: TermId, term: TermId) -> bool
    requires tried { TriedHeld x.now }
    requires types_held { Holds x.now.store.now types }
    requires term_held { Holds x.now.store.now term }
    ensures { IsTrue result ↔ Adds (sequent_of x.now) (premises_of x.now)
        (map (case_by x.now types term) (cons_at x.now.store.now cons.now)) }
{
    if x.premises.len() != cons.len() {
        return false;
    }
    for i in 0..cons.len() {
        let con = &cons[i];
        let shape = Equal(
            term,
            Rebuilt {
                x,
                con,
                types,
                term,
            },
        );
        if !is_wider(x.store, premise(x, i), x.sequent, &shape) {
            return false;
        }
    }
    true
}

// The constructors of a type.
fn constructors<'a>(x: &Tried<'a>, symbol: usize) -> Option<&'a [Con]>
    requires { TriedHeld x.now }
    ensures { option_map (λ cs. cons_at x.now.store.now cs.now) result
        ≡ constructors (role (task_of x.now) symbol) }
{
    match x.look.role(x.store, symbol) {
        Role::Algebraic(cons) => Some(cons),
        _ => None,
    }
}

/// A term by the constructors of its type.
pub fn case<'a>(x: &'a Tried<'a>, term: TermId) -> bool
    requires tried { TriedHeld x.now }
    requires held { Holds x.now.store.now term }
    ensures { IsTrue result ↔ RowOf x.now (RCase (tree_at x.now.store.now term)) }
{
    match x.store.ty(term) {
        Some(ty) => match x.store.node(ty) {
            Node::TyApp(symbol, types) => match constructors(x, symbol) {
                Some(cons) => are_cases(x, cons, types, term),
                None => false,
            },
            _ => false,
        },
        None => false,
    }
}
