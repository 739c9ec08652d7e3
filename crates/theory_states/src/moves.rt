// Moves in a scope, and how the names of a theory come into scopes.
// They depend on scopes; the theories of a source depend on them.
ghost use Rattle.std.specs.Prelude.{◌≡◌, ◌++◌, OnOk};
ghost use Rattle.std.specs.Option.{option_copied};
ghost use Rattle.theory_states.specs.Moves.{left, moved, replayed, in_scope, brought, handed, name_or};

use scopes::{Referent, Scope, Table};
use std::alloc::AllocError;
use surface::Link;
use tasks::Text;

/// A move in a scope. Code has the number of an alias' type, definitions have the type itself.
#[derive(Drop)]
pub enum Move<A> {
    /// A name is brought into a table.
    Brings(Table, Text, Referent<A>),
    /// A scope is opened.
    Opens(Text),
    /// The innermost scope is left.
    Closes,
}

impl Clone for Move<usize> {
    ghost is_clone = { λ a b. b ≡ a };

    fn clone(&self) -> Result<Move<usize>, AllocError> {
        match self {
            Move::Brings(table, name, thing) => Ok(Move::Brings(*table, name.clone()?, *thing)),
            Move::Opens(name) => Ok(Move::Opens(name.clone()?)),
            Move::Closes => Ok(Move::Closes),
        }
    }
}

/// Leaves the innermost scope, if it is in another one. No memory is taken.
pub fn leave(scope: &mut Scope)
    ensures { scope.new ≡ left scope.old }
{
    if scope.is_nested() {
        let _ = scope.close();
    }
}

// Makes a move, for names that are imported.
fn make_move(scope: &mut Scope, step: &Move<usize>) -> Result<(), AllocError>
    ensures { OnOk result (scope.new ≡ moved step.now scope.old) }
{
    match step {
        Move::Brings(table, name, thing) => scope.bring_name(*table, name.as_slice(), *thing),
        Move::Opens(name) => scope.open_used_name(name.as_slice()),
        Move::Closes => {
            leave(scope);
            Ok(())
        }
    }
}

/// Makes moves in a scope, for names that are imported. Only want of memory refuses, after some of the moves.
pub fn replay(scope: &mut Scope, moves: &[Move<usize>]) -> Result<(), AllocError>
    ensures { OnOk result (scope.new ≡ replayed moves.now scope.old) }
{
    for step in moves {
        make_move(scope, step)?;
    }
    Ok(())
}

// A scope of this name with the names.
fn replay_in_scope(scope: &mut Scope, name: &[u8], moves: &[Move<usize>]) -> Result<(), AllocError>
    ensures { OnOk result (scope.new ≡ in_scope name.now moves.now scope.old) }
{
    scope.open_used_name(name)?;
    replay(scope, moves)?;
    leave(scope);
    Ok(())
}

// The name after `as`, or the last part of the path.
fn name_or<'a>(last: &'a [u8], alias: Option<&'a [u8]>) -> &'a [u8]
    ensures { result.now ≡ name_or last.entry.now (option_copied alias.entry) }
{
    match alias {
        Some(name) => name,
        None => last,
    }
}

/// Brings the names of a theory into a scope: into one of its own, into the current one, or into both. Only want of memory refuses.
pub fn bring_theory(
    scope: &mut Scope,
    link: Link,
    last: &[u8],
    alias: Option<&[u8]>,
    moves: &[Move<usize>],
) -> Result<(), AllocError>
    ensures { OnOk result (scope.new
        ≡ brought link last.now (option_copied alias.entry) moves.now scope.old) }
{
    match link {
        Link::Export => replay(scope, moves),
        Link::Import => {
            replay_in_scope(scope, name_or(last, alias), moves)?;
            replay(scope, moves)
        }
        Link::Bare => match alias {
            Some(name) => replay_in_scope(scope, name, moves),
            None => {
                replay_in_scope(scope, last, moves)?;
                replay(scope, moves)
            }
        },
    }
}

/// Puts the names that are passed on after others. Only want of memory refuses.
pub fn hand_on(
    link: Link,
    moves: &[Move<usize>],
    out: &mut Vec<Move<usize>>,
) -> Result<(), AllocError>
    ensures { OnOk result (out.new.items ≡ out.old.items ++ handed link moves.now) }
{
    match link {
        Link::Export => out.extend_with_clones(moves),
        _ => Ok(()),
    }
}
