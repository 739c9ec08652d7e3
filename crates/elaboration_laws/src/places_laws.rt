// What a clone makes of a theory, place by place, is what its steps make of the theory's declarations.
ghost use Rattle.std.specs.Prelude.{◌≡◌, ◌≢◌, ℕ, ◌<◌, List, ◌++◌, length, All, AllPairs};
ghost use Rattle.elab_groups.specs.tasks.Vocabulary.{Vocabulary};
ghost use Rattle.clones.specs.Mapped.{Map};
ghost use Rattle.theory_states.specs.Moves.{MoveTree};
ghost use Rattle.elaboration_laws.specs.Moves.{AreTypedMoves};
ghost use Rattle.elaboration_laws.specs.Morphisms.{IsMorphism};
ghost use Rattle.theory_states.specs.States.{KnownTree, StateTree, visible_now};
ghost use Rattle.elaboration_laws.specs.Whole.{IsWhole};
ghost use Rattle.clones.specs.clone_copies.Places.{Copying, with_places};
ghost use Rattle.elaboration_laws.specs.Steps.{made_from};
ghost use Rattle.elaboration_laws.specs.Cloned.{AreClonedPlaces};
ghost use Rattle.clones.specs.clone_copies.Moves.{moves_mapped};
ghost use Rattle.elaboration_laws.specs.PlaceSteps.{copy_steps_at};

/// A law: where each theory's declarations are whole among the visible ones, those that are visible after
/// the places of a theory were cloned are these and what the steps make: own declarations that are
/// replaced or become goals are left out, the others copied, and those of other theories joined; their
/// places are those that were visible, those of other theories, and new ones.
pub fn places_made()
    ensures made { (x : Copying) (c : StateTree) (ks : List ℕ) → IsWhole c.decls c.opened.visible
        → All (λ (k : ℕ). k < length c.decls) c.opened.visible
        → AllPairs (λ (j k : ℕ). j ≢ k) c.opened.visible
        → All (λ (k : ℕ). k < length c.decls) ks → AllPairs (λ (j k : ℕ). j ≢ k) ks
        → visible_now (with_places x ks c) ≡ visible_now c
        ++ made_from x.mapping c.opened.path x.within (visible_now c) (copy_steps_at x c.decls ks) }
    ensures places { (x : Copying) (c : StateTree) (t : KnownTree) → x.path ≡ t.path
        → IsWhole c.decls c.opened.visible
        → All (λ (k : ℕ). k < length c.decls) c.opened.visible
        → AllPairs (λ (j k : ℕ). j ≢ k) c.opened.visible
        → All (λ (k : ℕ). k < length c.decls) t.visible
        → AllPairs (λ (j k : ℕ). j ≢ k) t.visible
        → AreClonedPlaces c (with_places x t.visible c) t }
{}

/// A law: the names that a theory passes on stand for things of their tables after a clone, where the map
/// takes what one vocabulary may name to what another one may name.
pub fn moves_become()
    ensures { (v w : Vocabulary) (m : Map) (xs : List MoveTree) → IsMorphism v w m
        → AreTypedMoves v xs → AreTypedMoves w (moves_mapped v.symbols m xs) }
{}
