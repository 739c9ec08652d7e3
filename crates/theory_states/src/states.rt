// What is known of the theories so far, and of the one that is open.
// It depends on scopes and on the goals of theories.
ghost use Rattle.std.specs.Prelude.{◌≡◌, ◌<◌, ◌+◌, ℕ, List, None, slice_get, length, map, All, IfNone, IfOk, IfSome, OnOk};
ghost use Rattle.trees.specs.Tree.{Tree};
ghost use Rattle.tasks.specs.Meaning.{declaration_at, DeclHeld};
ghost use Rattle.theory_states.specs.States.{known_has_path, known_named, opened_empty, joined_places, with_declaration};
ghost use Rattle.theory_states.specs.Meaning.{known_at, opened_at, state_at, OpenedHeld, StateHeld};

use crate::goal_tasks::{GoalAt, Theory};
use crate::moves::Move;
use indexmap::IndexSet;
use scopes::Scope;
use std::alloc::{AllocError, Global};
use tasks::{Decl, Seq, Signature, Text};

/// An axiom of a theory, by its declaration's place, with the names of its type variables.
#[derive(Drop)]
pub struct AxiomAt {
    pub decl: usize,
    pub vars: Seq<Text>,
}

/// A theory that is typed, with its axioms and the names that it passes on.
#[derive(Drop)]
pub struct KnownTheory {
    pub theory: Theory,
    pub axioms: Seq<AxiomAt>,
    pub moves: Seq<Move<usize>>,
}

/// The theories so far, over one signature and one list of declarations.
#[derive(Drop)]
pub struct Typed {
    pub sig: Signature,
    pub decls: Seq<Decl>,
    pub known: Seq<KnownTheory>,
}

/// The theory that is open.
#[derive(Drop)]
pub struct Opened {
    pub path: Text,
    /// The names of the open scopes, each followed by a dot.
    pub within: Vec<u8>,
    pub scope: Scope,
    /// The places of the visible declarations, each once.
    pub visible: IndexSet<usize>,
    pub goals: Seq<GoalAt>,
    pub axioms: Seq<AxiomAt>,
    pub moves: Vec<Move<usize>>,
    /// The number of the next declaration.
    pub count: usize,
}

// Whether a theory has this path.
fn has_path(known: &KnownTheory, path: &[u8]) -> bool
    ensures { (s : List Tree) → result ≡ known_has_path path.now (known_at s known.now) }
{
    known.theory.path.as_slice() == path
}

impl Typed {
    /// The place of the first theory with this path.
    pub fn theory_place(&self, path: &[u8]) -> Option<usize>
        ensures none { IfNone result ((s : List Tree)
            → known_named (map (known_at s) self.now.known)
            path.now ≡ None) }
        ensures found { IfSome result (λ k. (s : List Tree) → slice_get (map (known_at s)
            self.now.known) k ≡ known_named (map (known_at s) self.now.known) path.now) }
        ensures within { IfSome result (λ k. k < length self.now.known) }
    {
        let list = self.known.as_slice();
        let mut at = 0;
        while at < list.len() {
            let known = &list[at];
            if has_path(known, path) {
                return Some(at);
            }
            at += 1;
        }
        None
    }
}

impl Opened {
    /// A theory without declarations, before the declaration of a number. Only want of memory refuses.
    pub fn new(alloc: Global, path: Text, count: usize) -> Result<Opened, AllocError>
        ensures is { IfOk result (λ o. (s : List Tree) → opened_at s o ≡ opened_empty path) }
        ensures number { IfOk result (λ o. o.count ≡ count) }
        ensures held { IfOk result (λ o. (s : List Tree) (n : ℕ) → OpenedHeld s n o) }
    {
        let scope = Scope::new(alloc)?;
        Ok(Opened {
            path,
            within: Vec::new(alloc),
            scope,
            visible: IndexSet::new(alloc),
            goals: Seq::new(alloc),
            axioms: Seq::new(alloc),
            moves: Vec::new(alloc),
            count,
        })
    }

    /// Puts places after the visible ones, each unless it is there. Only want of memory refuses.
    pub fn join(&mut self, places: &[usize]) -> Result<(), AllocError>
        ensures visible { OnOk result (self.new.visible.keys
            ≡ joined_places self.old.visible.keys places.now) }
        ensures others { self.new ≡ record self.old { visible = self.new.visible } }
    {
        for place in places {
            self.visible.insert(*place)?;
        }
        Ok(())
    }
}

/// A further declaration, which is visible in the open theory. Its place is given. Only want of memory refuses.
pub fn push_decl(typed: &mut Typed, open: &mut Opened, decl: Decl) -> Result<usize, AllocError>
    requires { All (λ k. k < length typed.old.decls) open.old.visible.keys }
    ensures place { IfOk result (λ k. k ≡ length typed.old.decls) }
    ensures state { OnOk result ((s : List Tree) → state_at s typed.new open.new
        ≡ with_declaration (declaration_at s decl) (state_at s typed.old open.old)) }
    ensures typed { OnOk result (typed.new ≡ record typed.old { decls = typed.new.decls }) }
    ensures opened { OnOk result (open.new ≡ record open.old { visible = open.new.visible }) }
    ensures held { OnOk result ((s : List Tree) → StateHeld s typed.old open.old → DeclHeld s decl
        → StateHeld s typed.new open.new) }
{
    let place = typed.decls.len();
    typed.decls.push(decl)?;
    open.visible.insert(place)?;
    Ok(place)
}
