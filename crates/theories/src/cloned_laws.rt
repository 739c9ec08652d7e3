// What is known while the theories of a source are typed stays sound where a theory is cloned.
ghost use Rattle.std.specs.Prelude.{ℕ, List, [], ◌∷◌, ◌++◌, Option};
ghost use Rattle.tasks.specs.Task.{SymbolTree, DeclarationTree};
ghost use Rattle.elab_groups.specs.name_resolution.Where.{NamesTree};
ghost use Rattle.theory_states.specs.Moves.{MoveTree};
ghost use Rattle.surface.specs.Declarations.{SyntaxDeclaration, Element};
ghost use Rattle.surface.specs.declared.names.Name.{Name};
ghost use Rattle.surface.specs.declared.names.Path.{Path};
ghost use Rattle.surface.specs.declared.declarations.Link.{Link};
ghost use Rattle.theory_states.specs.States.{KnownTree, StateTree, opened_empty, known_as};
ghost use Rattle.theory_states.specs.Uses.{IsTheoryUsed};
ghost use Rattle.elaboration_laws.specs.TypedStates.{IsTypedState};
ghost use Rattle.elaboration_laws.specs.Sound.{IsSoundState};
ghost use Rattle.theories.specs.declaring.Declared.{IsDeclared};
ghost use Rattle.elaboration_laws.specs.Placed.{ArePlaced};
ghost use Rattle.theories.specs.cloning.Cloned.{IsCloned};
ghost use Rattle.theories.specs.Plain.{ArePlainTheories, IsPlainState};

/// A law: a typed state that is sound stays so where a theory is cloned, if entries without a theory are
/// those of type variables and the state is plain: each axiom is a proposition; then it stays plain
/// too.
pub fn cloned_sound()
    ensures sound { (link : Link) (p : Path) (alias : Option Name) (es : List Element)
        (c next : StateTree) → IsCloned link p alias es c next → IsTypedState c
        → ArePlaced c.symbols → IsPlainState c → IsSoundState c → IsSoundState next }
    ensures plain { (link : Link) (p : Path) (alias : Option Name) (es : List Element)
        (c next : StateTree) → IsCloned link p alias es c next → IsTypedState c
        → ArePlaced c.symbols → IsPlainState c → IsSoundState c → IsPlainState next }
{}

/// A law: a theory begins and ends plainly among plain ones, and a plain state stays so where a theory is
/// used, with other scopes and further moves, and where a declaration is typed.
pub fn stays_plain()
    ensures begins { (symbols : List SymbolTree) (decls : List DeclarationTree)
        (ts : List KnownTree) (path : List ℕ) (number : ℕ) → ArePlainTheories decls ts
        → IsPlainState (record {
          symbols = symbols;
          decls = decls;
          known = ts;
          opened = opened_empty path;
          number = number;
        }) }
    ensures ends { (c : StateTree) → IsPlainState c
        → ArePlainTheories c.decls (c.known ++ known_as c.opened ∷ []) }
    ensures used { (link : Link) (p : Path) (alias : Option Name) (c next : StateTree)
        → IsPlainState c → IsTheoryUsed link p alias c next → IsPlainState next }
    ensures scoped { (c : StateTree) (within : List ℕ) (names : NamesTree)
        (moves : List MoveTree) (number : ℕ) → IsPlainState c
        → IsPlainState (record c {
          opened = record c.opened {
            within = within;
            scope = names;
            moves = c.opened.moves ++ moves;
          };
          number = number;
        }) }
    ensures declared { (d : SyntaxDeclaration) (c next : StateTree) → IsDeclared d c next
        → IsPlainState c
        → IsPlainState next }
{}
