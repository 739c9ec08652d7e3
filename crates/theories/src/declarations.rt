// The declarations of a theory, one after another.
// They depend on the typing of one declaration, on use and on clone; theories are typed by them.
ghost use Rattle.std.specs.Prelude.{◌≡◌, ◌+◌, map, IfErr, OnOk};
ghost use Rattle.tasks.specs.trees.Node.{Grows};
ghost use Rattle.surface.specs.SurfaceDeclarations.{decl_of, decls, element_of};
ghost use Rattle.elaboration_laws.specs.elab_declarations.Outcomes.{IsLogical};
ghost use Rattle.theory_states.specs.declared.fault.SourceFault.TheVariants.{Memory};
ghost use Rattle.theory_states.specs.Meaning.{known_at, state_at};
ghost use Rattle.theory_states.specs.Uses.{OrMemory, IsTheoryUsed, IsUnknownTheory};
ghost use Rattle.theories.specs.declaring.Declared.{IsDeclaredFault};
ghost use Rattle.theories.specs.cloning.Cloned.{IsCloned, IsCloneFault};
ghost use Rattle.theories.specs.Typing.{ThenStep, IsPassed, IsOpened, IsTwice, IsLeft, IsDeclarationFault, AreFaulty};
ghost use Rattle.theories.specs.Sound.{IsSoundlyDeclared, IsSoundlyTyped, AreSoundlyTyped};
ghost use Rattle.theories.specs.Right.{IsStateRight};

use crate::cloning::clone_theory;
use crate::declaring::{is_logical, type_declaration};
use elaboration_laws::NameFault;
use std::alloc::Global;
use surface::{DeclNode, DeclTree, ElemTree, Link, Name, Path};
use tasks::Store;
use theory_states::{Move, Opened, SourceFault, Typed, leave, use_theory};

// The next declaration has the next number.
fn pass(open: &mut Opened) -> Result<(), SourceFault>
    ensures ok { OnOk result (open.new ≡ record open.old { count = open.old.count + 1 }) }
    ensures err { IfErr result (λ fault. fault ≡ Memory) }
{
    match open.count.checked_add(1) {
        Some(next) => {
            open.count = next;
            Ok(())
        }
        None => Err(SourceFault::Memory),
    }
}

// A declaration that is no use, clone or scope.
fn type_logical(
    alloc: Global,
    store: &mut Store,
    typed: &mut Typed,
    open: &mut Opened,
    decl: &DeclTree,
) -> Result<(), SourceFault>
    requires right { IsStateRight store.old typed.old open.old }
    requires logical { IsLogical (decl_of decl.now) }
    ensures ok { OnOk result (ThenStep (IsSoundlyDeclared (decl_of decl.now)) IsPassed
        (state_at store.old typed.old open.old) (state_at store.new typed.new open.new)) }
    ensures right { OnOk result (IsStateRight store.new typed.new open.new) }
    ensures err { IfErr result (OrMemory (IsDeclaredFault (decl_of decl.now)
        (state_at store.old typed.old open.old))) }
    ensures grows { Grows store.old store.new }
{
    type_declaration(alloc, store, typed, open, decl)?;
    pass(open)
}

// A theory is used.
fn type_use(
    alloc: Global,
    store: &Store,
    typed: &Typed,
    open: &mut Opened,
    link: Link,
    path: &Path,
    alias: &Option<Name>,
) -> Result<(), SourceFault>
    requires { IsStateRight store.now typed.now open.old }
    ensures ok { OnOk result (ThenStep (IsTheoryUsed link path.now alias.now) IsPassed
        (state_at store.now typed.now open.old) (state_at store.now typed.now open.new)) }
    ensures right { OnOk result (IsStateRight store.now typed.now open.new) }
    ensures err { IfErr result (OrMemory (IsUnknownTheory path.now
        (map (known_at store.now) typed.now.known) open.old.count)) }
{
    let _ = store;
    use_theory(alloc, typed, open, link, path, alias)?;
    pass(open)
}

// A theory is cloned.
fn type_clone(
    alloc: Global,
    store: &mut Store,
    typed: &mut Typed,
    open: &mut Opened,
    link: Link,
    path: &Path,
    alias: &Option<Name>,
    elements: &[ElemTree],
) -> Result<(), SourceFault>
    requires { IsStateRight store.old typed.old open.old }
    ensures ok { OnOk result (ThenStep (IsCloned link path.now alias.now
        (map element_of elements.now))
        IsPassed (state_at store.old typed.old open.old)
        (state_at store.new typed.new open.new)) }
    ensures right { OnOk result (IsStateRight store.new typed.new open.new) }
    ensures err { IfErr result (OrMemory (IsCloneFault path.now
        (map element_of elements.now) (state_at store.old typed.old open.old))) }
    ensures grows { Grows store.old store.new }
{
    clone_theory(alloc, store, typed, open, link, path, alias, elements)?;
    pass(open)
}

// A scope of this name is opened.
fn enter_scope(
    store: &Store,
    typed: &Typed,
    open: &mut Opened,
    name: &Name,
) -> Result<(), SourceFault>
    requires { IsStateRight store.now typed.now open.old }
    ensures ok { OnOk result (IsOpened name.now (state_at store.now typed.now open.old)
        (state_at store.now typed.now open.new)) }
    ensures right { OnOk result (IsStateRight store.now typed.now open.new) }
    ensures err { IfErr result (OrMemory (IsTwice name.now
        (state_at store.now typed.now open.old))) }
{
    let _ = store;
    let _ = typed;
    match open.scope.open_name(name.text.as_slice()) {
        Ok(()) => {}
        Err(NameFault::Duplicate) => {
            return Err(SourceFault::Duplicate {
                decl: open.count,
                token: name.at,
            });
        }
        Err(_) => return Err(SourceFault::Memory),
    }
    open.within.extend_from_slice(name.text.as_slice())?;
    open.within.push(b'.')?;
    open.moves.push(Move::Opens(name.text.clone()?))?;
    pass(open)?;
    Ok(())
}

// The innermost scope is left, so that these are open.
fn leave_scope(
    store: &Store,
    typed: &Typed,
    open: &mut Opened,
    outer: Vec<u8>,
) -> Result<(), SourceFault>
    requires { IsStateRight store.now typed.now open.old }
    ensures ok { OnOk result (IsLeft outer.items (state_at store.now typed.now open.old)
        (state_at store.now typed.now open.new)) }
    ensures right { OnOk result (IsStateRight store.now typed.now open.new) }
    ensures err { IfErr result (λ fault. fault ≡ Memory) }
{
    let _ = store;
    let _ = typed;
    open.moves.push(Move::Closes)?;
    open.within = outer;
    leave(&mut open.scope);
    Ok(())
}

// A declaration.
#[cycle(typing)]
fn type_decl(
    alloc: Global,
    store: &mut Store,
    typed: &mut Typed,
    open: &mut Opened,
    decl: &DeclTree,
) -> Result<(), SourceFault>
    requires { IsStateRight store.old typed.old open.old }
    ensures ok { OnOk result (IsSoundlyTyped (decl_of decl.now)
        (state_at store.old typed.old open.old) (state_at store.new typed.new open.new)) }
    ensures right { OnOk result (IsStateRight store.new typed.new open.new) }
    ensures err { IfErr result (OrMemory (IsDeclarationFault (decl_of decl.now)
        (state_at store.old typed.old open.old))) }
    ensures grows { Grows store.old store.new }
{
    if is_logical(decl) {
        return type_logical(alloc, store, typed, open, decl);
    }
    match &decl.node {
        DeclNode::ScopeDecl(name, within) => {
            let outer = Vec::from_slice(alloc, open.within.as_slice())?;
            enter_scope(store, typed, open, name)?;
            type_decls(alloc, store, typed, open, within.as_slice())?;
            leave_scope(store, typed, open, outer)
        }
        DeclNode::UseTheory(link, path, alias) => {
            type_use(alloc, store, typed, open, *link, path, alias)
        }
        DeclNode::CloneTheory(link, path, alias, elements) => {
            let elements = elements.as_slice();
            type_clone(alloc, store, typed, open, *link, path, alias, elements)
        }
        // All others were typed above.
        _ => Err(SourceFault::Memory),
    }
}

/// Declarations of a theory, in order. The first one that is wrong is told by its number and place.
#[cycle(typing)]
pub(crate) fn type_decls(
    alloc: Global,
    store: &mut Store,
    typed: &mut Typed,
    open: &mut Opened,
    within: &[DeclTree],
) -> Result<(), SourceFault>
    requires { IsStateRight store.old typed.old open.old }
    ensures ok { OnOk result (AreSoundlyTyped (decls (map decl_of within.now))
        (state_at store.old typed.old open.old) (state_at store.new typed.new open.new)) }
    ensures right { OnOk result (IsStateRight store.new typed.new open.new) }
    ensures err { IfErr result (OrMemory (AreFaulty (decls (map decl_of within.now))
        (state_at store.old typed.old open.old))) }
    ensures grows { Grows store.old store.new }
{
    for decl in within {
        type_decl(alloc, store, typed, open, decl)?;
    }
    Ok(())
}
