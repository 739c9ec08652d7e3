// What a rule is tried at, and whether its one premise adds a formula.
// It depends on what premises add; the rows of rules depend on it.
ghost use Rattle.std.specs.Prelude.{◌↔◌, [], ◌∷◌, IsTrue};
ghost use Rattle.tasks.specs.trees.Node.{tree_at, Holds};
ghost use Rattle.rules.specs.Rows.{Adds, signed};
ghost use Rattle.rules.specs.Forms.{alike};
ghost use Rattle.step_reading.specs.quick_steps.Places.{sequent_here, premises_here, PlaceHeld};

use rules::{Alike, Not, Step, Tried, adds_one};
use tasks::{Lookup, Store, TermId};

/// A step's sequent, and premises among the steps before it, for a task. The store may grow beside it.
#[derive(Clone, Copy)]
pub(crate) struct Place<'a> {
    pub look: &'a Lookup<'a>,
    pub sequent: &'a [TermId],
    pub before: &'a [Step],
    pub premises: &'a [usize],
}

/// Whether there is no premise.
pub(crate) fn adds_nothing(store: &Store, place: &Place<'_>) -> bool
    ensures { IsTrue result ↔ Adds (sequent_here store.now place.now)
        (premises_here store.now place.now) [] }
{
    let _ = store;
    place.premises.is_empty()
}

/// Whether the one premise adds a formula, as it is or negated.
pub(crate) fn adds_signed(store: &Store, place: &Place<'_>, formula: TermId, sign: bool) -> bool
    requires place { PlaceHeld store.now place.now }
    requires held { Holds store.now formula }
    ensures { IsTrue result ↔ Adds (sequent_here store.now place.now)
        (premises_here store.now place.now)
        ((signed sign (tree_at store.now formula) ∷ []) ∷ []) }
{
    let x = Tried {
        store,
        look: place.look,
        sequent: place.sequent,
        before: place.before,
        premises: place.premises,
    };
    if sign {
        adds_one(&x, &formula)
    } else {
        adds_one(&x, &Not(formula))
    }
}

/// Whether the one premise adds that two expressions are alike.
pub(crate) fn adds_alike(store: &Store, place: &Place<'_>, e: TermId, other: TermId) -> bool
    requires place { PlaceHeld store.now place.now }
    requires e_held { Holds store.now e }
    requires other_held { Holds store.now other }
    ensures { IsTrue result ↔ Adds (sequent_here store.now place.now)
        (premises_here store.now place.now)
        ((alike (tree_at store.now e) (tree_at store.now other) ∷ []) ∷ []) }
{
    let x = Tried {
        store,
        look: place.look,
        sequent: place.sequent,
        before: place.before,
        premises: place.premises,
    };
    adds_one(&x, &Alike { e, other })
}
