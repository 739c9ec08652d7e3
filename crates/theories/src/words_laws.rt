// Names of symbols in the task of a goal of a source: their bytes, and that none of their parts begins with a digit.
ghost use Rattle.std.specs.Prelude.{ℕ, List};
ghost use Rattle.surface.specs.tokens_why.declared.token.Token.{Token};
ghost use Rattle.surface.specs.tokens_why.Tokens.{AreTokens};
ghost use Rattle.tasks.specs.Task.{TaskTree};
ghost use Rattle.surface.specs.Lexeme.{rest};
ghost use Rattle.surface.specs.Declarations.{SyntaxTheory};
ghost use Rattle.parser.specs.grammar.recognise.Sources.{IsOnlyFile};
ghost use Rattle.elaboration_laws.specs.theory_states.goal_tasks.Theories.{TheoriesTree};
ghost use Rattle.elaboration_laws.specs.theory_states.goal_tasks.Tasks.{IsTaskOf};
ghost use Rattle.theories.specs.Files.{TheoriesOf};
ghost use Rattle.tasks.specs.Words.{NamesAreWords, NamesAreScoped};

/// A law: each name of a symbol in the task of a goal of a source is a word of a line; it is made of letters, digits, `_`, `'`,
/// characters of operators and dots, and no part of it, between dots, begins with a digit.
pub fn names_words()
    ensures words { (text : List ℕ) (ts : List Token) (file : List SyntaxTheory)
        (all : TheoriesTree) (theory goal : List ℕ) (t : TaskTree) → AreTokens text ts
        → IsOnlyFile (rest text ts 0) file → TheoriesOf file all → IsTaskOf all theory goal t
        → NamesAreWords t }
    ensures scoped { (text : List ℕ) (ts : List Token) (file : List SyntaxTheory)
        (all : TheoriesTree) (theory goal : List ℕ) (t : TaskTree) → AreTokens text ts
        → IsOnlyFile (rest text ts 0) file → TheoriesOf file all → IsTaskOf all theory goal t
        → NamesAreScoped t }
{}
