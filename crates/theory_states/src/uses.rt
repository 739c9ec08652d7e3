// Theories that are used: their declarations are joined, and their names come into scopes.
// They depend on what is known of theories.
ghost use Rattle.std.specs.Prelude.{◌≡◌, ◌<◌, ◌++◌, List, length, map, slice_get, IfErr, IfOk, OnOk};
ghost use Rattle.std.specs.Option.{option_copied};
ghost use Rattle.trees.specs.Tree.{Tree};
ghost use Rattle.theory_states.specs.Moves.{brought, handed};
ghost use Rattle.theory_states.specs.States.{known_named};
ghost use Rattle.theory_states.specs.Meaning.{known_at, state_at, StateHeld};
ghost use Rattle.theory_states.specs.Uses.{path_text, last_part, alias_text, OrMemory, IsTheoryUsed, IsUnknownTheory};

use crate::fault::SourceFault;
use crate::moves::{Move, bring_theory, hand_on};
use crate::states::{Opened, Typed};
use std::alloc::{AllocError, Global};
use surface::{Link, Name, Path};
use tasks::Text;

/// The parts of a path, joined by dots. Only want of memory refuses.
pub fn path_text(alloc: Global, parts: &[Text]) -> Result<Text, AllocError>
    ensures { IfOk result (λ it. it ≡ path_text parts.now) }
{
    let Some((first, rest)) = parts.split_first() else {
        return Ok(Text::from_vec(Vec::new(alloc)));
    };
    let mut bytes = Vec::from_slice(alloc, first.as_slice())?;
    for part in rest {
        bytes.push(b'.')?;
        bytes.extend_from_slice(part.as_slice())?;
    }
    Ok(Text::from_vec(bytes))
}

/// The last part of a path.
pub fn last_part(path: &Path) -> &[u8]
    ensures { result.now ≡ last_part path.entry.now.parts }
{
    match path.parts.as_slice().last() {
        Some(part) => part.as_slice(),
        None => b"",
    }
}

/// The text of the name after `as`, if there is one.
pub fn alias_text(alias: &Option<Name>) -> Option<&[u8]>
    ensures { option_copied result ≡ alias_text alias.entry.now }
{
    match alias {
        Some(name) => Some(name.text.as_slice()),
        None => None,
    }
}

/// Brings names into the open theory: into a scope of their own, into the current one, or into both. Names that are exported are
/// passed on. Only want of memory refuses.
pub fn bring_names(
    open: &mut Opened,
    moves: &[Move<usize>],
    link: Link,
    last: &[u8],
    alias: Option<&[u8]>,
) -> Result<(), AllocError>
    ensures scope { OnOk result (open.new.scope
        ≡ brought link last.now (option_copied alias.entry) moves.now open.old.scope) }
    ensures moves { OnOk result (open.new.moves.items
        ≡ open.old.moves.items ++ handed link moves.now) }
    ensures others { open.new ≡ record open.old { scope = open.new.scope; moves = open.new.moves } }
{
    bring_theory(&mut open.scope, link, last, alias, moves)?;
    hand_on(link, moves, &mut open.moves)
}

/// The place of the first theory with this path, for the declaration of a number. It is refused where no theory has the path.
pub fn find_theory(
    alloc: Global,
    typed: &Typed,
    path: &Path,
    decl: usize,
) -> Result<usize, SourceFault>
    ensures found { IfOk result (λ k. (s : List Tree) → slice_get (map (known_at s)
        typed.now.known) k ≡ known_named (map (known_at s) typed.now.known)
        (path_text path.now.parts)) }
    ensures within { IfOk result (λ k. k < length typed.now.known) }
    ensures err { IfErr result (λ f. (s : List Tree) → OrMemory (IsUnknownTheory path.now
        (map (known_at s) typed.now.known) decl) f) }
{
    let text = path_text(alloc, path.parts.as_slice())?;
    match typed.theory_place(text.as_slice()) {
        Some(place) => Ok(place),
        None => Err(SourceFault::Unknown {
            decl,
            token: path.at,
        }),
    }
}

/// A theory before the open one is used. It is refused where no theory has the path.
pub fn use_theory(
    alloc: Global,
    typed: &Typed,
    open: &mut Opened,
    link: Link,
    path: &Path,
    alias: &Option<Name>,
) -> Result<(), SourceFault>
    ensures ok { OnOk result ((s : List Tree) → IsTheoryUsed link path.now alias.now
        (state_at s typed.now open.old) (state_at s typed.now open.new)) }
    ensures held { OnOk result ((s : List Tree) → StateHeld s typed.now open.old
        → StateHeld s typed.now open.new) }
    ensures err { IfErr result (λ f. (s : List Tree) → OrMemory (IsUnknownTheory path.now
        (map (known_at s) typed.now.known) open.old.count) f) }
{
    let place = find_theory(alloc, typed, path, open.count)?;
    let known = &typed.known.as_slice()[place];
    open.join(known.theory.visible.as_slice())?;
    let moves = known.moves.as_slice();
    bring_names(open, moves, link, last_part(path), alias_text(alias))?;
    Ok(())
}
