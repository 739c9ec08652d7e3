// A theory is cloned.
// It depends on the reading of elements, on copies and on what is known of theories.
ghost use Rattle.std.specs.Prelude.{◌≡◌, ◌<◌, None, Some, length, map, IfErr, OnOk};
ghost use Rattle.tasks.specs.trees.Node.{Grows};
ghost use Rattle.surface.specs.SurfaceDeclarations.{element_of};
ghost use Rattle.theory_states.specs.States.{known_named};
ghost use Rattle.theory_states.specs.Meaning.{known_at, state_at, StateHeld};
ghost use Rattle.theory_states.specs.Uses.{OrMemory, path_text};
ghost use Rattle.elaboration_laws.specs.TypedStates.{IsTypedState};
ghost use Rattle.clones.specs.clone_elements.Rights.{all_variables_fault};
ghost use Rattle.elaboration_laws.specs.Placed.{ArePlaced};
ghost use Rattle.theories.specs.cloning.Cloned.{IsCloned, IsCloneFault};
ghost use Rattle.theories.specs.cloning.Owned.{known_theory_at};

use crate::cloning::copying::copy_theory;
use crate::cloning::own::{own_of, source_of};
use crate::cloning::reading::{naming, read_elements};
use clones::clone_elements::check_variables;
use std::alloc::Global;
use surface::{ElemTree, Link, Name, Path};
use tasks::Store;
use theory_states::{Opened, SourceFault, Typed, alias_text, find_theory, last_part};

// The theory at a place is cloned, or the first fault of the clone but for type variables that occur twice. What the elements
// replace is read first, element by element, since an element may name what an earlier one replaced: in `with type t = int,
// function f = abs` the types of `f` and of `abs` are compared where `t` is `int` already.
fn clone_known(
    alloc: Global,
    store: &mut Store,
    typed: &mut Typed,
    open: &mut Opened,
    theory: usize,
    link: Link,
    path: &Path,
    alias: &Option<Name>,
    elements: &[ElemTree],
) -> Result<(), SourceFault>
    requires held { StateHeld store.old typed.old open.old }
    requires typed { IsTypedState (state_at store.old typed.old open.old) }
    requires placed { ArePlaced (state_at store.old typed.old open.old).symbols }
    requires variables { all_variables_fault (map element_of elements.now) ≡ None }
    requires there { theory < length typed.old.known }
    requires found { known_named (map (known_at store.old) typed.old.known)
        (path_text path.now.parts) ≡ Some (known_theory_at store.old typed.old theory) }
    ensures ok { OnOk result (IsCloned link path.now alias.now (map element_of elements.now)
        (state_at store.old typed.old open.old) (state_at store.new typed.new open.new)) }
    ensures held { OnOk result (StateHeld store.new typed.new open.new) }
    ensures err { IfErr result (OrMemory (IsCloneFault path.now (map element_of elements.now)
        (state_at store.old typed.old open.old))) }
    ensures grows { Grows store.old store.new }
{
    let known = &typed.known.as_slice()[theory];
    let own = own_of(alloc, typed.decls.as_slice(), known)?;
    let source = source_of(typed.decls.as_slice(), &own);
    let replacement = read_elements(
        alloc,
        store,
        &mut typed.sig,
        &open.scope,
        &source,
        open.count,
        elements,
    )?;
    copy_theory(
        alloc,
        store,
        typed,
        open,
        theory,
        &own,
        &replacement,
        link,
        last_part(path),
        alias_text(alias),
    )?;
    Ok(())
}

/// A theory before the open one is cloned, or the first fault of the clone: a type variable that occurs twice in an element, the path,
/// the names on the right of the elements, and an element that is wrong. The state is used no more after a refusal.
pub fn clone_theory(
    alloc: Global,
    store: &mut Store,
    typed: &mut Typed,
    open: &mut Opened,
    link: Link,
    path: &Path,
    alias: &Option<Name>,
    elements: &[ElemTree],
) -> Result<(), SourceFault>
    requires held { StateHeld store.old typed.old open.old }
    requires typed { IsTypedState (state_at store.old typed.old open.old) }
    requires placed { ArePlaced (state_at store.old typed.old open.old).symbols }
    ensures ok { OnOk result (IsCloned link path.now alias.now (map element_of elements.now)
        (state_at store.old typed.old open.old) (state_at store.new typed.new open.new)) }
    ensures held { OnOk result (StateHeld store.new typed.new open.new) }
    ensures typed { OnOk result (IsTypedState (state_at store.new typed.new open.new)) }
    ensures placed { OnOk result (ArePlaced (state_at store.new typed.new open.new).symbols) }
    ensures count { OnOk result (open.new.count ≡ open.old.count) }
    ensures err { IfErr result (OrMemory (IsCloneFault path.now (map element_of elements.now)
        (state_at store.old typed.old open.old))) }
    ensures grows { Grows store.old store.new }
{
    match check_variables(alloc, elements) {
        Ok(()) => {}
        Err(fault) => return Err(naming(open.count, fault)),
    }
    let theory = find_theory(alloc, typed, path, open.count)?;
    clone_known(
        alloc, store, typed, open, theory, link, path, alias, elements,
    )
}
