// All that is known while a source is typed is typed over its signature, and stays so as theories are used and scopes are opened.
ghost use Rattle.theory_states.specs.States.{StateTree};
ghost use Rattle.theory_states.specs.Uses.{IsTheoryUsed};
ghost use Rattle.elaboration_laws.specs.TypedStates.{IsTypedState};
ghost use Rattle.std.specs.Prelude.{Option};
ghost use Rattle.elab_groups.specs.surface.declared.names.Name.{Name};
ghost use Rattle.elab_groups.specs.surface.declared.names.Path.{Path};
ghost use Rattle.elab_groups.specs.surface.declared.declarations.Link.{Link};

/// A law: what is known stays typed where a theory is used.
pub fn uses_typed()
    ensures { (link : Link) (p : Path) (alias : Option Name) (c c' : StateTree)
        → IsTheoryUsed link p alias c c' → IsTypedState c → IsTypedState c' }
{}
