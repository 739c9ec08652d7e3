// What a proposition leaves: an axiom, a lemma that is a goal until it is proved, or a goal.
// They depend on what is known of theories and on goals.
ghost use Rattle.std.specs.Prelude.{◌≡◌, ◌++◌, ◌∷◌, [], List, length, option_map, All, IfOk, IfSome, OnOk};
ghost use Rattle.tasks.specs.trees.Tree.{Tree};
ghost use Rattle.tasks.specs.trees.Node.{tree_at, Holds, Grows};
ghost use Rattle.tasks.specs.Meaning.{declaration_at, declarations_at, DeclHeld};
ghost use Rattle.surface.specs.declared.declarations.PropKind.TheVariants.{Axiom, Lemma};
ghost use Rattle.elab_groups.specs.name_resolution.Abstract.{expression_of};
ghost use Rattle.elab_declarations.specs.Outcomes.{proposition_seen};
ghost use Rattle.theory_states.specs.Meaning.{state_at, StateHeld};
ghost use Rattle.theories.specs.declaring.Declared.{known_formula, to_prove, with_declared_goal, with_proposition, with_proposed};

use elab_declarations::say;
use elab_groups::parts::{Seen, enter_variables};
use elaboration_laws::GoalAt;
use std::alloc::{AllocError, Global};
use surface::{Expr, PropKind};
use tasks::{Body, Decl, Seq, Store, TermId, Text};
use theory_states::{AxiomAt, Opened, Typed, push_decl};

// The names of the type variables of a proposition.
fn variables_of(alloc: Global, e: &Expr) -> Result<Seq<Text>, AllocError>
    ensures { IfOk result (λ vars. vars ≡ (proposition_seen (expression_of e.now)).vars) }
{
    let mut seen = Seen {
        vars: Seq::new(alloc),
        widths: Seq::new(alloc),
    };
    enter_variables(alloc, &mut seen, e)?;
    let Seen { vars, .. } = seen;
    Ok(vars)
}

// The formula of a declaration, if it is a proposition.
fn formula_of(store: &Store, decl: &Decl) -> Option<TermId>
    requires { DeclHeld store.now decl.now }
    ensures tree { option_map (tree_at store.now) result
        ≡ known_formula (declaration_at store.now decl.now).body }
    ensures held { IfSome result (Holds store.now) }
{
    let _ = store;
    match decl.body {
        Body::Prop(formula) => Some(formula),
        Body::TypeSymbol(_) => None,
        Body::Symbol(_) => None,
        Body::Defs(_) => None,
        Body::Inductives(_) => None,
        Body::Algebraics(_) => None,
    }
}

// What is to be proved: a lemma at its rigid types, which a goal has.
fn formula_to_prove(
    alloc: Global,
    store: &mut Store,
    kind: PropKind,
    rigid: &[usize],
    formula: TermId,
) -> Result<TermId, AllocError>
    requires { Holds store.old formula }
    ensures held { IfOk result (Holds store.new) }
    ensures tree { IfOk result (λ id. tree_at store.new id ≡ to_prove kind rigid.now
        (tree_at store.old formula)) }
    ensures grows { Grows store.old store.new }
{
    match kind {
        PropKind::Lemma => say(alloc, store, PropKind::Goal, rigid, formula),
        PropKind::Goal => Ok(formula),
        PropKind::Axiom => Ok(formula),
    }
}

// A goal, before which the visible declarations stand.
fn add_goal(
    open: &mut Opened,
    name: Text,
    prop: TermId,
    rigid: Seq<usize>,
) -> Result<(), AllocError>
    ensures { OnOk result (open.new ≡ record open.old {
      goals = open.old.goals
          ++ record {
            name = name;
            before = length open.old.visible.keys;
            prop = prop;
            rigid =
                rigid;
          }
          ∷ [];
    }) }
{
    let before = open.visible.len();
    open.goals.push(GoalAt {
        name,
        before,
        prop,
        rigid,
    })?;
    Ok(())
}

// The goal of a declaration, if it is a proposition.
fn push_goal(
    alloc: Global,
    store: &mut Store,
    typed: &Typed,
    open: &mut Opened,
    kind: PropKind,
    decl: &Decl,
    rigid: Seq<usize>,
) -> Result<(), AllocError>
    requires decl { DeclHeld store.old decl.now }
    requires state { StateHeld store.old typed.now open.old }
    ensures state { OnOk result (state_at store.new typed.now open.new
        ≡ with_declared_goal kind rigid
        (declaration_at store.old decl.now) (state_at store.old typed.now open.old)) }
    ensures held { OnOk result (StateHeld store.new typed.now open.new) }
    ensures grows { Grows store.old store.new }
{
    let _ = typed;
    let Some(formula) = formula_of(store, decl) else {
        return Ok(());
    };
    let prop = formula_to_prove(alloc, store, kind, rigid.as_slice(), formula)?;
    let name = decl.name.clone()?;
    add_goal(open, name, prop, rigid)
}

// An axiom, with the names of its type variables.
fn push_axiom(
    alloc: Global,
    store: &Store,
    typed: &mut Typed,
    open: &mut Opened,
    e: &Expr,
    decl: Decl,
) -> Result<(), AllocError>
    requires decl { DeclHeld store.now decl }
    requires state { StateHeld store.now typed.old open.old }
    ensures state { OnOk result (state_at store.now typed.new open.new ≡ with_proposition Axiom
        (proposition_seen (expression_of e.now)).vars [] (declaration_at store.now decl)
        (state_at store.now typed.old open.old)) }
    ensures held { OnOk result (StateHeld store.now typed.new open.new) }
    ensures typed { OnOk result (typed.new ≡ record typed.old { decls = typed.new.decls }) }
{
    let _ = store;
    let place = push_decl(typed, open, decl)?;
    let vars = variables_of(alloc, e)?;
    open.axioms.push(AxiomAt { decl: place, vars })?;
    Ok(())
}

// A lemma, which is known, and a goal until it is proved.
fn push_lemma(
    alloc: Global,
    store: &mut Store,
    typed: &mut Typed,
    open: &mut Opened,
    decl: Decl,
    rigid: Seq<usize>,
) -> Result<(), AllocError>
    requires decl { DeclHeld store.old decl }
    requires state { StateHeld store.old typed.old open.old }
    ensures state { OnOk result (state_at store.new typed.new open.new ≡ with_proposition Lemma []
        rigid (declaration_at store.old decl) (state_at store.old typed.old open.old)) }
    ensures held { OnOk result (StateHeld store.new typed.new open.new) }
    ensures typed { OnOk result (typed.new ≡ record typed.old { decls = typed.new.decls }) }
    ensures grows { Grows store.old store.new }
{
    push_goal(alloc, store, typed, open, PropKind::Lemma, &decl, rigid)?;
    push_decl(typed, open, decl)?;
    Ok(())
}

/// What the declarations of a proposition leave, of which there is one. Only want of memory refuses.
pub(crate) fn push_proposed(
    alloc: Global,
    store: &mut Store,
    typed: &mut Typed,
    open: &mut Opened,
    kind: PropKind,
    e: &Expr,
    decls: &mut Seq<Decl>,
    rigid: Seq<usize>,
) -> Result<(), AllocError>
    requires decls { All (DeclHeld store.old) decls.old }
    requires state { StateHeld store.old typed.old open.old }
    ensures state { OnOk result (state_at store.new typed.new open.new ≡ with_proposed kind
        (proposition_seen (expression_of e.now)).vars rigid (declarations_at store.old decls.old)
        (state_at store.old typed.old open.old)) }
    ensures held { OnOk result (StateHeld store.new typed.new open.new) }
    ensures typed { OnOk result (typed.new ≡ record typed.old { decls = typed.new.decls }) }
    ensures grows { Grows store.old store.new }
{
    if decls.is_empty() {
        return Ok(());
    }
    let decl = decls.remove(0);
    match kind {
        PropKind::Axiom => push_axiom(alloc, store, typed, open, e, decl),
        PropKind::Lemma => push_lemma(alloc, store, typed, open, decl, rigid),
        PropKind::Goal => push_goal(alloc, store, typed, open, PropKind::Goal, &decl, rigid),
    }
}
