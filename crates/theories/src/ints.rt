// The entries of int.Int, which is the first theory of the library.
// They depend on the theories of a source, whose signature tells them.
ghost use Rattle.std.specs.Prelude.{◌≡◌, List};
ghost use Rattle.tasks.specs.Valid.{AreInts};
ghost use Rattle.surface.specs.Declarations.{SyntaxTheory};
ghost use Rattle.elaboration_laws.specs.theory_states.goal_tasks.Theories.{TheoriesTree};
ghost use Rattle.theory_states.specs.States.{StateTree};
ghost use Rattle.theories.specs.Ints.{int_entries};
ghost use Rattle.theories.specs.Files.{IsLibraryTyped, TheoriesOf};

use tasks::Ints;

/// The entries of int.Int.
pub(crate) fn int_entries() -> Ints
    ensures { result ≡ int_entries }
{
    Ints {
        neg: 1,
        add: 2,
        sub: 3,
        mul: 4,
        lt: 5,
        le: 6,
        gt: 7,
        ge: 8,
    }
}

/// A law: the entries 1 to 8 after the embedded library are those of int.Int, and so they are in the signature of each source.
pub fn ints_known()
    ensures library { (c : StateTree) → IsLibraryTyped c → AreInts c.symbols int_entries }
    ensures source { (file : List SyntaxTheory) (all : TheoriesTree) → TheoriesOf file all
        → AreInts all.symbols int_entries }
{}
