// A source has at most one list of theories, and at most one first fault.
ghost use Rattle.std.specs.Prelude.{◌≡◌, ◌≢◌, List};
ghost use Rattle.surface.specs.Declarations.{SyntaxTheory};
ghost use Rattle.elaboration_laws.specs.theory_states.goal_tasks.Theories.{TheoriesTree};
ghost use Rattle.theory_states.specs.declared.fault.SourceFault.{SourceFault};
ghost use Rattle.theory_states.specs.declared.fault.SourceFault.TheVariants.{Memory};
ghost use Rattle.theories.specs.Files.{TheoriesOf, IsFirstSourceFault};

/// A law: a source has at most one list of theories and at most one first fault, and not both. Want
/// of memory is no fault here.
pub fn theories_determined()
    ensures one { (file : List SyntaxTheory) (a b : TheoriesTree) → TheoriesOf file a
        → TheoriesOf file b → a ≡ b }
    ensures apart { (file : List SyntaxTheory) (a : TheoriesTree) (f : SourceFault)
        → TheoriesOf file a → IsFirstSourceFault file f → f ≢ Memory → ⊥ }
    ensures fault { (file : List SyntaxTheory) (f g : SourceFault) → IsFirstSourceFault file f
        → IsFirstSourceFault file g → f ≢ Memory → g ≢ Memory → f ≡ g }
{}
