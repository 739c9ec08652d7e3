// The theories of a source that is read from a text are sound, so the task of each of its goals is valid.
ghost use Rattle.std.specs.Prelude.{ℕ, List};
ghost use Rattle.surface.specs.tokens_why.declared.token.Token.{Token};
ghost use Rattle.surface.specs.tokens_why.Tokens.{AreTokens};
ghost use Rattle.tasks.specs.Task.{TaskTree};
ghost use Rattle.tasks.specs.Valid.{IsValid};
ghost use Rattle.surface.specs.Lexeme.{rest};
ghost use Rattle.surface.specs.Declarations.{SyntaxTheory};
ghost use Rattle.parser.specs.grammar.recognise.Sources.{IsOnlyFile};
ghost use Rattle.elaboration_laws.specs.theory_states.goal_tasks.Theories.{TheoriesTree};
ghost use Rattle.elaboration_laws.specs.theory_states.goal_tasks.Tasks.{IsTaskOf};
ghost use Rattle.theories.specs.Sound.{SoundTheoriesOf};
ghost use Rattle.theories.specs.Sources.{AreSoundIn};

/// A law: the theories of a source that is read from a text are sound, and so are those of the embedded
/// library: declarations are valid where they are, and each goal is well formed after those before it.
pub fn theories_sound()
    ensures { (text : List ℕ) (ts : List Token) (file : List SyntaxTheory)
        (all : TheoriesTree) → AreTokens text ts → IsOnlyFile (rest text ts 0) file
        → SoundTheoriesOf file all → AreSoundIn all }
{}

/// A law: the task of each goal of a source that is read from a text is valid.
pub fn source_tasks_valid()
    ensures { (text : List ℕ) (ts : List Token) (file : List SyntaxTheory)
        (all : TheoriesTree) (theory goal : List ℕ) (t : TaskTree) → AreTokens text ts
        → IsOnlyFile (rest text ts 0) file → SoundTheoriesOf file all
        → IsTaskOf all theory goal t → IsValid t }
{}
