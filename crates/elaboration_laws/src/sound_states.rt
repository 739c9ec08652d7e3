// What is known while the theories of a source are typed stays sound, so that the task of each goal is valid.
ghost use Rattle.std.specs.Prelude.{◌≡◌, ℕ, false, List, [], ◌∷◌, ◌++◌, take, length, All, AllPairs, ◌≢◌, ◌<◌, Option, None, IfSome};
ghost use Rattle.std.specs.List.{Contains};
ghost use Rattle.std.specs.Str.{bytes_eq};
ghost use Rattle.elab_groups.specs.tasks.Task.{SymbolTree, DeclarationTree, int_symbol};
ghost use Rattle.elab_groups.specs.tasks.Vocabulary.{is_empty};
ghost use Rattle.elab_groups.specs.tasks.Valid.{AreInts, IsValid};
ghost use Rattle.elab_groups.specs.surface.declared.names.Name.{Name};
ghost use Rattle.elab_groups.specs.surface.declared.names.Path.{Path};
ghost use Rattle.elab_groups.specs.surface.declared.declarations.Link.{Link};
ghost use Rattle.elab_groups.specs.name_resolution.Where.{NamesTree};
ghost use Rattle.elab_groups.specs.parts.Entries.{builtin};
ghost use Rattle.theory_states.specs.Moves.{MoveTree};
ghost use Rattle.elaboration_laws.specs.Scopes.{AreTypedScopes};
ghost use Rattle.elaboration_laws.specs.Moves.{AreTypedMoves};
ghost use Rattle.elaboration_laws.specs.Lists.{after};
ghost use Rattle.theory_states.specs.goal_tasks.Theories.{GoalTree, TheoriesTree};
ghost use Rattle.theory_states.specs.goal_tasks.Tasks.{task_for};
ghost use Rattle.elaboration_laws.specs.Joined.{fresh, Agree};
ghost use Rattle.theory_states.specs.declared.states.AxiomAt.{AxiomAt};
ghost use Rattle.theory_states.specs.States.{KnownTree, StateTree, at_places, visible_now, joined_places, opened_empty, known_as, known_named};
ghost use Rattle.theory_states.specs.Uses.{IsTheoryUsed};
ghost use Rattle.elaboration_laws.specs.Whole.{IsWhole};
ghost use Rattle.elaboration_laws.specs.Sound.{IsSoundKnown, IsSoundState, AreSoundTheories, IsAfter, IsSoundAddition};

/// A law: where each theory's declarations are whole among those at places, further places joined to
/// them have these declarations and then those of the theories that weren't there; the two lists agree
/// on the theories that both have; and the first places have the first declarations.
pub fn joins_whole()
    ensures joined { (ds : List DeclarationTree) (ks more : List ℕ) → IsWhole ds ks
        → All (λ (k : ℕ). k < length ds) more → AllPairs (λ (j k : ℕ). j ≢ k) more
        → at_places ds (joined_places ks more) ≡ at_places ds ks
        ++ fresh (at_places ds ks) (at_places ds more) }
    ensures agree { (ds : List DeclarationTree) (ks more : List ℕ) → IsWhole ds ks
        → Agree (at_places ds ks) (at_places ds more) }
    ensures whole { (ds : List DeclarationTree) (ks more : List ℕ) → IsWhole ds ks
        → IsWhole ds more → IsWhole ds (joined_places ks more) }
    ensures first { (ds : List DeclarationTree) (n : ℕ) (ks : List ℕ)
        → All (λ (k : ℕ). k < length ds) ks
        → at_places ds (take n ks) ≡ take n (at_places ds ks) }
{}

/// A law: without theories, over a signature with `int` alone, all is sound; a theory with a new path
/// begins soundly after sound theories, and at its end it is one of them.
pub fn begins_sound()
    ensures nothing { AreSoundTheories (int_symbol ∷ []) [] [] }
    ensures begins { (symbols : List SymbolTree) (decls : List DeclarationTree)
        (ts : List KnownTree) (path : List ℕ) (number : ℕ) → AreSoundTheories symbols decls ts
        → is_empty path ≡ false → bytes_eq path builtin ≡ false → known_named ts path ≡ None
        → IsSoundState (record {
          symbols = symbols;
          decls = decls;
          known = ts;
          opened = opened_empty path;
          number = number;
        }) }
    ensures ends { (c : StateTree) → IsSoundState c
        → AreSoundTheories c.symbols c.decls (c.known ++ known_as c.opened ∷ []) }
{}

/// A law: a sound state stays so where a theory is used; with other typed scopes and further typed
/// moves; and with further entries, declarations of the theory, axioms, goals and moves that are sound
/// after what was visible.
pub fn stays_sound()
    ensures used { (link : Link) (p : Path) (alias : Option Name) (c next : StateTree)
        → IsSoundState c → IsTheoryUsed link p alias c next → IsSoundState next }
    ensures scoped { (c : StateTree) (within : List ℕ) (names : NamesTree) (moves : List MoveTree)
        (number : ℕ) → IsSoundState c
        → AreTypedScopes (after c.symbols [] (visible_now c)) names
        → AreTypedMoves (after c.symbols [] (visible_now c)) moves
        → IsSoundState (record c {
          opened = record c.opened {
            within = within;
            scope = names;
            moves = c.opened.moves ++ moves;
          };
          number = number;
        }) }
    ensures further { (c next : StateTree) (more : List SymbolTree) (new : List DeclarationTree)
        (axioms : List AxiomAt) (goals : List GoalTree) (moves : List MoveTree) → IsSoundState c
        → IsAfter c next more new axioms goals moves
        → IsSoundAddition c next new axioms goals moves → IsSoundState next }
{}

/// A law: the task of each goal of a sound theory is valid.
pub fn goals_valid()
    ensures { (all : TheoriesTree) (decls : List DeclarationTree) (t : KnownTree) (g : GoalTree)
        → IsSoundKnown all.symbols decls t → Contains t.goals g
        → IfSome all.ints (AreInts all.symbols)
        → IsValid (task_for all (record {
          path = t.path;
          decls = at_places decls t.visible;
          goals = t.goals;
        }) g) }
{}
