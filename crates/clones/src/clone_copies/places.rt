// The copies of a theory's declarations, and what its axioms become.
// They depend on replacements of clones, on copies of declarations and on what is known of theories.
ghost use Rattle.std.specs.Prelude.{◌≡◌, ◌++◌, ◌<◌, List, length, map, All, IfOk, OnOk};
ghost use Rattle.tasks.specs.trees.Tree.{Tree};
ghost use Rattle.tasks.specs.trees.Node.{tree_at, Holds, Grows};
ghost use Rattle.tasks.specs.trees.Binding.{inst_types};
ghost use Rattle.tasks.specs.Task.{Says};
ghost use Rattle.tasks.specs.Rigid.{rigid_symbol};
ghost use Rattle.tasks.specs.Meaning.{trees_at, declaration_at, DeclHeld};
ghost use Rattle.clones.specs.Meaning.{map_at, MapHeld, AreKnown};
ghost use Rattle.open_types.specs.Drafts.{HoldsType};
ghost use Rattle.elab_groups.specs.parts.Entries.{IsSignature, IsExtended};
ghost use Rattle.theory_states.specs.Meaning.{state_at, StateHeld};
ghost use Rattle.clones.specs.clone_elements.Replacements.{kind_or};
ghost use Rattle.clones.specs.clone_elements.Meaning.{effects_at};
ghost use Rattle.clones.specs.clone_copies.Places.{next_numbers, rigid_types, with_copied_axiom, goal_with, with_copied_goal, with_kind, with_copy, with_own, with_place, with_places};
ghost use Rattle.clones.specs.clone_copies.Meaning.{copying_at};

use crate::clone_copies::origins::{copy_names, is_own};
use crate::clone_elements::{Effect, Replacement, is_replaced};
use crate::{MappedTrees as Trees, SymbolMap, copy_decl};
use elab_groups::parts::{PropKind, inst_types, push_entry};
use indexmap::IndexMap;
use std::alloc::{AllocError, Global};
use tasks::{Body, Decl, Grow, Node, Seq, Signature, Store, SymbolInfo, TermId, Text};
use theory_states::goal_tasks::GoalAt;
use theory_states::{AxiomAt, Opened, Typed, push_decl};

/// What a theory is copied by: its path, its axioms by their places with the names of their type variables, what elements replace, the
/// map of symbols, and the names of the scopes of the copies, each followed by a dot.
#[derive(Clone, Copy)]
pub struct CopiedBy<'a> {
    pub path: &'a [u8],
    pub axioms: &'a IndexMap<usize, Seq<Text>>,
    pub replacement: &'a Replacement,
    pub morphism: &'a SymbolMap,
    pub within: &'a [u8],
}

// The entries of type variables, and their numbers after others.
fn push_rigid(
    alloc: Global,
    store: &Store,
    sig: &mut Signature,
    numbers: &mut Vec<usize>,
    vars: &[Text],
) -> Result<(), AllocError>
    requires { IsSignature store.now sig.old.symbols }
    ensures entries { OnOk result (IsExtended store.now sig.old store.now sig.new
        (map rigid_symbol vars.now)) }
    ensures numbers { OnOk result (numbers.new.items ≡ numbers.old.items ++ next_numbers
        (length sig.old.symbols) vars.now) }
{
    let Some((first, rest)) = vars.split_first() else {
        return Ok(());
    };
    let number = sig.symbols.len();
    let info = SymbolInfo::of_variable(alloc, first.as_slice())?;
    push_entry(store, sig, info)?;
    numbers.push(number)?;
    push_rigid(alloc, store, sig, numbers, rest)
}

// The rigid types of these entries, after others.
fn push_rigid_types(
    store: &mut Store,
    types: &mut Vec<TermId>,
    numbers: &[usize],
) -> Result<(), AllocError>
    requires { All (HoldsType store.old) types.old.items }
    ensures held { OnOk result (All (HoldsType store.new) types.new.items) }
    ensures trees { OnOk result (trees_at store.new types.new.items ≡ trees_at store.old
        types.old.items ++ rigid_types numbers.now) }
    ensures grows { Grows store.old store.new }
{
    let Some((first, rest)) = numbers.split_first() else {
        return Ok(());
    };
    let ty = store.add(Node::TyRigid(*first))?;
    types.push(ty)?;
    push_rigid_types(store, types, rest)
}

// A proposition at the rigid types of these entries.
fn at_rigid(
    alloc: Global,
    store: &mut Store,
    formula: TermId,
    numbers: &[usize],
) -> Result<TermId, AllocError>
    requires { Holds store.old formula }
    ensures held { IfOk result (Holds store.new) }
    ensures tree { IfOk result (λ id. tree_at store.new id ≡ inst_types (tree_at store.old formula)
        (rigid_types numbers.now)) }
    ensures grows { Grows store.old store.new }
{
    let mut types = Vec::new(alloc);
    push_rigid_types(store, &mut types, numbers)?;
    inst_types(alloc, store, formula, types.as_slice())
}

// An axiom's copy as an axiom.
fn push_axiom(
    alloc: Global,
    store: &Store,
    typed: &mut Typed,
    open: &mut Opened,
    vars: &[Text],
    copy: Decl,
) -> Result<(), AllocError>
    requires held { StateHeld store.now typed.old open.old }
    requires copy_held { DeclHeld store.now copy }
    ensures state { OnOk result (state_at store.now typed.new open.new ≡ with_copied_axiom vars.now
        (declaration_at store.now copy) (state_at store.now typed.old open.old)) }
    ensures held { OnOk result (StateHeld store.now typed.new open.new) }
{
    let _ = store;
    let place = push_decl(typed, open, copy)?;
    let vars = copy_names(alloc, vars)?;
    open.axioms.push(AxiomAt { decl: place, vars })?;
    Ok(())
}

// The goal of a proposition.
fn push_goal_of(
    alloc: Global,
    store: &mut Store,
    typed: &mut Typed,
    open: &mut Opened,
    vars: &[Text],
    name: &Text,
    formula: TermId,
) -> Result<(), AllocError>
    requires held { StateHeld store.old typed.old open.old }
    requires formula_held { Holds store.old formula }
    ensures state { OnOk result (state_at store.new typed.new open.new ≡ goal_with vars.now name.now
        (Says (tree_at store.old formula)) (state_at store.old typed.old open.old)) }
    ensures held { OnOk result (StateHeld store.new typed.new open.new) }
    ensures grows { Grows store.old store.new }
{
    let mut numbers = Vec::new(alloc);
    push_rigid(alloc, store, &mut typed.sig, &mut numbers, vars)?;
    let prop = at_rigid(alloc, store, formula, numbers.as_slice())?;
    let name = name.clone()?;
    let before = open.visible.len();
    let rigid = Seq::from_vec(numbers);
    open.goals.push(GoalAt {
        name,
        before,
        prop,
        rigid,
    })?;
    Ok(())
}

// The goal of an axiom's copy.
fn push_goal(
    alloc: Global,
    store: &mut Store,
    typed: &mut Typed,
    open: &mut Opened,
    vars: &[Text],
    copy: &Decl,
) -> Result<(), AllocError>
    requires held { StateHeld store.old typed.old open.old }
    requires copy_held { DeclHeld store.old copy.now }
    ensures state { OnOk result (state_at store.new typed.new open.new ≡ with_copied_goal vars.now
        (declaration_at store.old copy.now) (state_at store.old typed.old open.old)) }
    ensures held { OnOk result (StateHeld store.new typed.new open.new) }
    ensures grows { Grows store.old store.new }
{
    match &copy.body {
        Body::Prop(formula) => {
            push_goal_of(alloc, store, typed, open, vars, &copy.name, *formula)
        }
        Body::TypeSymbol(_) => Ok(()),
        Body::Symbol(_) => Ok(()),
        Body::Defs(_) => Ok(()),
        Body::Inductives(_) => Ok(()),
        Body::Algebraics(_) => Ok(()),
    }
}

// Drops a declaration. A caller that calls it on each way out has no code for the declaration's parts.
fn drop_decl(decl: Decl) {
    let _ = &decl;
}

// An axiom's copy, as one of the kinds.
fn push_kind(
    alloc: Global,
    store: &mut Store,
    typed: &mut Typed,
    open: &mut Opened,
    kind: PropKind,
    vars: &[Text],
    copy: Decl,
) -> Result<(), AllocError>
    requires held { StateHeld store.old typed.old open.old }
    requires copy_held { DeclHeld store.old copy }
    ensures state { OnOk result (state_at store.new typed.new open.new ≡ with_kind kind vars.now
        (declaration_at store.old copy) (state_at store.old typed.old open.old)) }
    ensures held { OnOk result (StateHeld store.new typed.new open.new) }
    ensures grows { Grows store.old store.new }
{
    match kind {
        PropKind::Axiom => push_axiom(alloc, store, typed, open, vars, copy),
        PropKind::Lemma => match push_goal(alloc, store, typed, open, vars, &copy) {
            Ok(()) => {
                push_decl(typed, open, copy)?;
                Ok(())
            }
            Err(fault) => {
                drop_decl(copy);
                Err(fault)
            }
        },
        PropKind::Goal => {
            let pushed = push_goal(alloc, store, typed, open, vars, &copy);
            drop_decl(copy);
            pushed
        }
    }
}

// What the axiom at a place becomes.
fn kind_of(replacement: &Replacement, place: usize) -> PropKind
    ensures { result ≡ kind_or (effects_at replacement.now.effects place)
        replacement.now.all_axioms }
{
    if let Some(Effect::Becomes(kind)) = replacement.effects.get(&place) {
        return *kind;
    }
    if replacement.all_axioms {
        PropKind::Axiom
    } else {
        PropKind::Lemma
    }
}

// A copy of the declaration at a place.
fn push_copy(
    alloc: Global,
    store: &mut Store,
    typed: &mut Typed,
    open: &mut Opened,
    given: &CopiedBy<'_>,
    place: usize,
    copy: Decl,
) -> Result<(), AllocError>
    requires held { StateHeld store.old typed.old open.old }
    requires copy_held { DeclHeld store.old copy }
    ensures state { OnOk result (state_at store.new typed.new open.new ≡ with_copy
        (copying_at store.old given.now) place ((copying_at store.old given.now).axioms place)
        (declaration_at store.old copy) (state_at store.old typed.old open.old)) }
    ensures held { OnOk result (StateHeld store.new typed.new open.new) }
    ensures grows { Grows store.old store.new }
{
    match given.axioms.get(&place) {
        Some(vars) => {
            let kind = kind_of(given.replacement, place);
            push_kind(alloc, store, typed, open, kind, vars.as_slice(), copy)
        }
        None => {
            push_decl(typed, open, copy)?;
            Ok(())
        }
    }
}

// An own declaration is copied, or left out where it is replaced.
fn copy_own(
    alloc: Global,
    store: &mut Store,
    typed: &mut Typed,
    open: &mut Opened,
    given: &CopiedBy<'_>,
    trees: &mut Trees,
    place: usize,
) -> Result<(), AllocError>
    requires held { StateHeld store.old typed.old open.old }
    requires within { place < length typed.old.decls }
    requires map_held { MapHeld store.old given.now.morphism.now }
    requires known { AreKnown (map_at store.old given.now.morphism.now) store.old trees.old }
    ensures state { OnOk result (state_at store.new typed.new open.new ≡ with_own
        (copying_at store.old given.now) place (state_at store.old typed.old open.old)) }
    ensures held { OnOk result (StateHeld store.new typed.new open.new) }
    ensures known { OnOk result (AreKnown (map_at store.old given.now.morphism.now) store.new
        trees.new) }
    ensures grows { Grows store.old store.new }
{
    if is_replaced(&given.replacement.effects, place) {
        return Ok(());
    }
    let decl = &typed.decls.as_slice()[place];
    let copy = copy_decl(
        alloc,
        store,
        given.morphism,
        trees,
        open.path.as_slice(),
        given.within,
        decl,
    )?;
    push_copy(alloc, store, typed, open, given, place, copy)
}

// The declaration at a place is copied, joined, or left out where it is replaced.
fn copy_place(
    alloc: Global,
    store: &mut Store,
    typed: &mut Typed,
    open: &mut Opened,
    given: &CopiedBy<'_>,
    trees: &mut Trees,
    place: usize,
) -> Result<(), AllocError>
    requires held { StateHeld store.old typed.old open.old }
    requires within { place < length typed.old.decls }
    requires map_held { MapHeld store.old given.now.morphism.now }
    requires known { AreKnown (map_at store.old given.now.morphism.now) store.old trees.old }
    ensures state { OnOk result (state_at store.new typed.new open.new ≡ with_place
        (copying_at store.old given.now) place (state_at store.old typed.old open.old)) }
    ensures held { OnOk result (StateHeld store.new typed.new open.new) }
    ensures known { OnOk result (AreKnown (map_at store.old given.now.morphism.now) store.new
        trees.new) }
    ensures grows { Grows store.old store.new }
{
    if is_own(typed.decls.as_slice(), given.path, place) {
        copy_own(alloc, store, typed, open, given, trees, place)
    } else {
        open.join(&[place])
    }
}

/// The declarations at these places are copied, those of other theories joined, and those that elements replace left out. Only want of
/// memory refuses.
pub fn copy_places(
    alloc: Global,
    store: &mut Store,
    typed: &mut Typed,
    open: &mut Opened,
    given: &CopiedBy<'_>,
    trees: &mut Trees,
    places: &[usize],
) -> Result<(), AllocError>
    requires held { StateHeld store.old typed.old open.old }
    requires within { All (λ k. k < length typed.old.decls) places.now }
    requires map_held { MapHeld store.old given.now.morphism.now }
    requires known { AreKnown (map_at store.old given.now.morphism.now) store.old trees.old }
    ensures state { OnOk result (state_at store.new typed.new open.new ≡ with_places
        (copying_at store.old given.now) places.now (state_at store.old typed.old open.old)) }
    ensures held { OnOk result (StateHeld store.new typed.new open.new) }
    ensures known { OnOk result (AreKnown (map_at store.old given.now.morphism.now) store.new
        trees.new) }
    ensures grows { Grows store.old store.new }
{
    for place in places {
        copy_place(alloc, store, typed, open, given, trees, *place)?;
    }
    Ok(())
}
