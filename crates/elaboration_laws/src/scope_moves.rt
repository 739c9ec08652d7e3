// Scopes stay typed as names come in by moves: what a name stands for is a thing of its table.
ghost use Rattle.std.specs.Prelude.{Bool, ℕ, List, length, IfSome, Option};
ghost use Rattle.elab_groups.specs.trees.Tree.{Tree};
ghost use Rattle.elab_groups.specs.tasks.Vocabulary.{Vocabulary};
ghost use Rattle.elab_groups.specs.scopes.Names.{ScopeNames, find_name, with_name, with_scope};
ghost use Rattle.elab_groups.specs.scopes.declared.Table.{Table};
ghost use Rattle.elab_groups.specs.surface.declared.declarations.Link.{Link};
ghost use Rattle.elab_groups.specs.name_resolution.Naming.{scope_at};
ghost use Rattle.elab_groups.specs.name_resolution.Where.{MeaningTree, NamesTree};
ghost use Rattle.elab_groups.specs.parts.Entries.{AreScopes};
ghost use Rattle.theory_states.specs.Meaning.{NamesHeld};
ghost use Rattle.theory_states.specs.Moves.{MoveTree, left, replayed, brought, handed};
ghost use Rattle.elaboration_laws.specs.Scopes.{IsSubvocabulary, IsTypedThing, AreTypedScopes};
ghost use Rattle.elaboration_laws.specs.Moves.{AreTypedMoves};

/// A law: typed scopes stay typed where a scope is opened or left, where a name of a thing of its table
/// comes in, and where the names of typed moves do, as of a theory that is used.
pub fn moves_typed()
    ensures opened { (v : Vocabulary) (x : List ℕ) (d : Bool) (names : NamesTree)
        → AreTypedScopes v names → AreTypedScopes v (with_scope x d names) }
    ensures left { (v : Vocabulary) (names : NamesTree) → AreTypedScopes v names
        → AreTypedScopes v (left names) }
    ensures named { (v : Vocabulary) (table : Table) (x : List ℕ) (t : MeaningTree) (d : Bool)
        (names : NamesTree) → IsTypedThing v table t → AreTypedScopes v names
        → AreTypedScopes v (with_name table x t d names) }
    ensures replayed { (v : Vocabulary) (ms : List MoveTree) (names : NamesTree)
        → AreTypedMoves v ms → AreTypedScopes v names → AreTypedScopes v (replayed ms names) }
    ensures brought { (v : Vocabulary) (link : Link) (last : List ℕ) (alias : Option (List ℕ))
        (ms : List MoveTree) (names : NamesTree) → AreTypedMoves v ms → AreTypedScopes v names
        → AreTypedScopes v (brought link last alias ms names) }
    ensures handed { (v : Vocabulary) (link : Link) (ms : List MoveTree) → AreTypedMoves v ms
        → AreTypedMoves v (handed link ms) }
{}

/// A law: in typed scopes what a name stands for is a thing of the table in which it is looked for.
pub fn finds_typed()
    ensures { (v : Vocabulary) (names : NamesTree) (table : Table) (path : List (List ℕ))
        → AreTypedScopes v names → IfSome (find_name names table path) (IsTypedThing v table) }
{}

/// A law: typed scopes and moves are so over a vocabulary of which the first is a part.
pub fn stays_typed()
    ensures scopes { (v w : Vocabulary) (names : NamesTree) → IsSubvocabulary v w
        → AreTypedScopes v names → AreTypedScopes w names }
    ensures moves { (v w : Vocabulary) (ms : List MoveTree) → IsSubvocabulary v w
        → AreTypedMoves v ms → AreTypedMoves w ms }
{}

/// A law: scopes of code whose types are held are such as its functions ask for, where they are typed.
pub fn scopes_kept()
    ensures { (v : Vocabulary) (s : List Tree) (names : ScopeNames) → NamesHeld s names
        → AreTypedScopes v (scope_at s names) → AreScopes s (length v.symbols) names }
{}
