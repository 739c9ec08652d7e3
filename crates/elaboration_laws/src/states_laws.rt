// What is known while the theories of a source are typed stays sound as a theory is cloned.
ghost use Rattle.std.specs.Prelude.{ℕ, List, Option};
ghost use Rattle.std.specs.List.{Contains};
ghost use Rattle.elab_groups.specs.tasks.Task.{SymbolTree, DeclarationTree};
ghost use Rattle.elab_groups.specs.tasks.Vocabulary.{Vocabulary};
ghost use Rattle.clones.specs.Mapped.{Map};
ghost use Rattle.elaboration_laws.specs.Scopes.{IsSymbolNumber};
ghost use Rattle.elaboration_laws.specs.Morphisms.{IsMorphism};
ghost use Rattle.elab_groups.specs.surface.declared.declarations.Link.{Link};
ghost use Rattle.theory_states.specs.Moves.{MoveTree};
ghost use Rattle.theory_states.specs.goal_tasks.Theories.{GoalTree};
ghost use Rattle.theory_states.specs.declared.states.AxiomAt.{AxiomAt};
ghost use Rattle.theory_states.specs.States.{KnownTree, StateTree};
ghost use Rattle.elaboration_laws.specs.Sound.{IsSoundState};
ghost use Rattle.elaboration_laws.specs.Steps.{CopyStep};
ghost use Rattle.elaboration_laws.specs.Cloned.{IsAfterClone, IsSoundClone};

/// A law: a sound state stays so where a theory before it is cloned by steps under a map that fits them,
/// with goals, axioms and names that are sound after what the clone leaves.
pub fn clones_stay()
    ensures { (c next : StateTree) (t : KnownTree) (tuples more : List SymbolTree)
        (new : List DeclarationTree) (m : Map) (within : List ℕ) (ss : List CopyStep)
        (axioms : List AxiomAt) (goals : List GoalTree) (link : Link) (last : List ℕ)
        (alias : Option (List ℕ)) (moves : List MoveTree) → IsSoundState c → Contains c.known t
        → IsAfterClone c next t tuples more new m within ss axioms goals link last alias moves
        → IsSoundClone c next tuples more m within ss axioms goals moves → IsSoundState next }
{}

/// A law: where a map takes what one vocabulary may name to what another one may name, the name of a
/// symbol stands for a symbol under the map.
pub fn names_become()
    ensures { (v w : Vocabulary) (m : Map) (k : ℕ) → IsMorphism v w m → IsSymbolNumber v k
        → IsSymbolNumber w (m.symbols k) }
{}
