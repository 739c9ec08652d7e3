// What a declaration leaves after: declarations that are known, axioms and goals.
// They depend on what is known of theories.
ghost use Rattle.std.specs.Prelude.{◌≡◌, option_map, All, IsSome, OnOk};
ghost use Rattle.tasks.specs.trees.Node.{Grows};
ghost use Rattle.tasks.specs.Meaning.{declarations_at, DeclHeld};
ghost use Rattle.surface.specs.SurfaceDeclarations.{decl_of};
ghost use Rattle.elab_groups.specs.name_resolution.Abstract.{expression_of};
ghost use Rattle.theory_states.specs.States.{with_declarations};
ghost use Rattle.theory_states.specs.Meaning.{state_at, StateHeld};
ghost use Rattle.theories.specs.declaring.Declared.{proposition_in, known_by};

use crate::declaring::proposed::push_proposed;
use elab_groups::parts::Elaborated;
use std::alloc::{AllocError, Global};
use surface::{DeclNode, DeclTree, Expr, PropKind};
use tasks::{Decl, Seq, Store};
use theory_states::{Opened, Typed, push_decl};

// The kind of a proposition, and what it says.
fn proposition_in(decl: &DeclTree) -> Option<(PropKind, &Expr)>
    ensures { option_map (λ p. (p.0, expression_of p.1.now)) result
        ≡ proposition_in (decl_of decl.entry.now) }
{
    match &decl.node {
        DeclNode::Prop(kind, _, e) => Some((*kind, e)),
        DeclNode::TypeDecl(_, _, _) => None,
        DeclNode::Function(_, _, _, _, _) => None,
        DeclNode::Predicate(_, _, _, _) => None,
        DeclNode::Constant(_, _, _) => None,
        DeclNode::Algebraic(_) => None,
        DeclNode::Inductive(_) => None,
        DeclNode::UseTheory(_, _, _) => None,
        DeclNode::CloneTheory(_, _, _, _) => None,
        DeclNode::ScopeDecl(_, _) => None,
    }
}

// Further declarations, in order, which are taken out.
fn push_decls(
    store: &Store,
    typed: &mut Typed,
    open: &mut Opened,
    decls: &mut Seq<Decl>,
) -> Result<(), AllocError>
    requires decls { All (DeclHeld store.now) decls.old }
    requires state { StateHeld store.now typed.old open.old }
    ensures state { OnOk result (state_at store.now typed.new open.new ≡ with_declarations
        (declarations_at store.now decls.old) (state_at store.now typed.old open.old)) }
    ensures held { OnOk result (StateHeld store.now typed.new open.new) }
    ensures typed { OnOk result (typed.new ≡ record typed.old { decls = typed.new.decls }) }
{
    if decls.is_empty() {
        return Ok(());
    }
    let first = decls.remove(0);
    push_decl(typed, open, first)?;
    push_decls(store, typed, open, decls)
}

/// What a declaration leaves after that is elaborated. Only want of memory refuses.
pub(crate) fn push_made(
    alloc: Global,
    store: &mut Store,
    typed: &mut Typed,
    open: &mut Opened,
    decl: &DeclTree,
    made: Elaborated,
) -> Result<(), AllocError>
    requires decls { All (DeclHeld store.old) made.decls }
    requires state { StateHeld store.old typed.old open.old }
    ensures state { OnOk result (state_at store.new typed.new open.new ≡ known_by
        (proposition_in (decl_of decl.now)) made.rigid (declarations_at store.old made.decls)
        (state_at store.old typed.old open.old)) }
    ensures held { OnOk result (StateHeld store.new typed.new open.new) }
    ensures typed { OnOk result (typed.new ≡ record typed.old { decls = typed.new.decls }) }
    ensures grows { Grows store.old store.new }
{
    let Elaborated {
        mut decls,
        rigid,
        ..
    } = made;
    match proposition_in(decl) {
        Some((kind, e)) => push_proposed(alloc, store, typed, open, kind, e, &mut decls, rigid),
        None => push_decls(store, typed, open, &mut decls),
    }
}
