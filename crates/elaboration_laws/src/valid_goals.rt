// The task of a goal after declarations that are valid where they are is valid; what this asks of declarations, of goals and of the entries of tuples holds of what is elaborated, and of declarations joined to others.
ghost use Rattle.std.specs.Prelude.{◌≡◌, ℕ, false, List, [], ◌∷◌, ◌++◌, map, length, All, Some, IfSome};
ghost use Rattle.std.specs.Str.{bytes_eq};
ghost use Rattle.elab_groups.specs.trees.Tree.{Tree};
ghost use Rattle.elab_groups.specs.trees.Node.{Holds, tree_at};
ghost use Rattle.elab_groups.specs.trees.declared.TermId.{TermId};
ghost use Rattle.elab_groups.specs.trees.Sorts.{WellSorted};
ghost use Rattle.elab_groups.specs.tokens_why.declared.token.Token.{Token};
ghost use Rattle.elab_groups.specs.tokens_why.Tokens.{AreTokens};
ghost use Rattle.elab_groups.specs.tasks.Task.{SymbolTree, DeclarationTree, int_symbol};
ghost use Rattle.elab_groups.specs.tasks.Meaning.{symbols_at, declarations_at, DeclHeld};
ghost use Rattle.elab_groups.specs.tasks.declared.signature.Signature.{Signature};
ghost use Rattle.elab_groups.specs.tasks.Vocabulary.{of_signature};
ghost use Rattle.elab_groups.specs.tasks.Valid.{AreInts, IsQuoted, IsValid};
ghost use Rattle.elab_groups.specs.scopes.Names.{ScopeNames};
ghost use Rattle.elab_groups.specs.surface.Lexeme.{rest};
ghost use Rattle.elab_groups.specs.surface.Declarations.{SyntaxDeclaration, write_decl};
ghost use Rattle.elab_groups.specs.surface.DeclarationRules.{IsLevelDecl};
ghost use Rattle.elab_groups.specs.surface.declared.declarations.PropKind.{PropKind};
ghost use Rattle.elab_groups.specs.name_resolution.Abstract.{Expression};
ghost use Rattle.elab_groups.specs.name_resolution.Naming.{scope_at};
ghost use Rattle.elab_groups.specs.open_types.Drafts.{match_at};
ghost use Rattle.elab_groups.specs.declared.parts.made.Elaborated.{Elaborated};
ghost use Rattle.elab_groups.specs.parts.Entries.{builtin};
ghost use Rattle.elab_groups.specs.parts.Declarations.{TokenName, Declaration, proposition_declaration, declaration};
ghost use Rattle.elab_groups.specs.parts.Outcomes.{Setting};
ghost use Rattle.elab_declarations.specs.Outcomes.{proposition_seen, IsElaborated};
ghost use Rattle.elaboration_laws.specs.Lists.{after, MakesBelow, IsGroupWhole, IsNoGoal};
ghost use Rattle.elaboration_laws.specs.Valid.{IsTypedSetting, HaveNoFault};
ghost use Rattle.theory_states.specs.goal_tasks.Theories.{GoalTree, KnownTheoryTree, TheoriesTree};
ghost use Rattle.theory_states.specs.goal_tasks.Tasks.{declarations_before, task_for};
ghost use Rattle.elaboration_laws.specs.Built.{IsBuiltRight};
ghost use Rattle.elaboration_laws.specs.Joined.{Agree, AreJoined};
ghost use Rattle.elaboration_laws.specs.TaskTyped.{IsFitMatch, IsTypedOver};
ghost use Rattle.elaboration_laws.specs.Quoted.{IsQuotedLexeme};
ghost use Rattle.elaboration_laws.specs.Tasks.{AreSound, IsSoundGoal, IsToProve, IsGoalSaid, IsSoundAfter};

/// A law: in a signature with `int` alone what is built in is right.
pub fn begins_built()
    ensures { IsBuiltRight (int_symbol ∷ []) }
{}

/// A law: where what is built in is right, so it is after `elaborate` in a theory that isn't that of
/// what is built in: the entries of the tuples of each width follow one another, and nothing else is
/// built in but `int`.
pub fn keeps_built()
    ensures { (c : Setting) (d : Declaration) (g : Signature) (s : List Tree) (h : Signature)
        (names : ScopeNames) (made : Elaborated) → bytes_eq c.theory builtin ≡ false
        → IsElaborated c d g s h names made → IsBuiltRight c.symbols
        → IsBuiltRight (symbols_at s h.symbols) }
{}

/// A law: where declarations are valid where they are, make no symbol twice and none that is built
/// in, and a goal after them is well formed over what they make and its own type variables, its task
/// is valid, which has these declarations after those of the tuples that occur.
pub fn tasks_valid()
    ensures { (all : TheoriesTree) (t : KnownTheoryTree) (g : GoalTree)
        → AreSound all.symbols (declarations_before t g)
        → IsSoundGoal all.symbols (declarations_before t g) g
        → IfSome all.ints (AreInts all.symbols) → IsValid (task_for all t g) }
{}

/// A law: none are sound where what is built in is right; sound declarations stay so with what
/// `elaborate` gives of the next one, where the checks of declarations find no fault, with more entries
/// of a signature, and without the last ones.
pub fn keeps_sound()
    ensures none { (symbols : List SymbolTree) → IsBuiltRight symbols → AreSound symbols [] }
    ensures declarations { (c : Setting) (ds : List DeclarationTree) (d : SyntaxDeclaration)
        (x : Declaration) (g : Signature) (s : List Tree) (h : Signature) (names : ScopeNames)
        (made : Elaborated) → IsTypedSetting (after c.symbols [] ds) c
        → MakesBelow (length c.symbols) ds → declaration d ≡ Some x → IsGroupWhole d → IsNoGoal d
        → IsElaborated c x g s h names made
        → ((id : TermId) → Holds s id → WellSorted (tree_at s id))
        → All (DeclHeld s) made.decls
        → HaveNoFault (symbols_at s h.symbols) (declarations_at s made.decls)
        → AreSound c.symbols ds
        → AreSound (symbols_at s h.symbols) (ds ++ declarations_at s made.decls) }
    ensures entries { (xs ys : List SymbolTree) (ds : List DeclarationTree) → AreSound xs ds
        → IsBuiltRight (xs ++ ys) → AreSound (xs ++ ys) ds }
    ensures fewer { (symbols : List SymbolTree) (xs ys : List DeclarationTree)
        → AreSound symbols (xs ++ ys) → AreSound symbols xs }
{}

/// A law: a goal or lemma that is elaborated after sound declarations gives a goal that is sound after
/// them, where the names of its type variables have their quotes; it stays so with more entries.
pub fn goals_sound()
    ensures goals { (c : Setting) (ds : List DeclarationTree) (d : SyntaxDeclaration) (k : PropKind)
        (x : TokenName) (e : Expression) (g : Signature) (s : List Tree) (h : Signature)
        (names : ScopeNames) (made : Elaborated) (goal : GoalTree)
        → IsTypedSetting (after c.symbols [] ds) c → MakesBelow (length c.symbols) ds
        → IsToProve k → declaration d ≡ Some (proposition_declaration k x e)
        → IsElaborated c (proposition_declaration k x e) g s h names made
        → ((id : TermId) → Holds s id → WellSorted (tree_at s id))
        → All (DeclHeld s) made.decls
        → HaveNoFault (symbols_at s h.symbols) (declarations_at s made.decls)
        → All IsQuoted (proposition_seen e).vars → AreSound c.symbols ds
        → IsGoalSaid (declarations_at s made.decls) made.rigid goal
        → IsSoundAfter (symbols_at s h.symbols) ds goal }
    ensures entries { (xs ys : List SymbolTree) (ds : List DeclarationTree) (goal : GoalTree)
        → IsSoundAfter xs ds goal → IsBuiltRight (xs ++ ys) → IsSoundAfter (xs ++ ys) ds goal }
{}

/// A law: where the signature and the scopes are typed, and each entry that has a theory may be named, the
/// patterns of each match of what `elaborate` gives are well typed over the signature afterwards, and of one
/// type, as the test of exhaustive matches asks for; where the checks of declarations find no fault, that
/// signature and the scopes are typed again.
pub fn keeps_typed()
    ensures matches { (c : Setting) (x : Declaration) (g : Signature) (s : List Tree)
        (h : Signature) (names : ScopeNames) (made : Elaborated)
        → IsTypedSetting (of_signature c.symbols) c → IsElaborated c x g s h names made
        → All (IsFitMatch (symbols_at s h.symbols)) (map (match_at s) made.matches) }
    ensures setting { (c : Setting) (d : SyntaxDeclaration) (x : Declaration) (g : Signature)
        (s : List Tree) (h : Signature) (names : ScopeNames) (made : Elaborated)
        → IsTypedSetting (of_signature c.symbols) c → declaration d ≡ Some x
        → IsElaborated c x g s h names made
        → ((id : TermId) → Holds s id → WellSorted (tree_at s id))
        → All (DeclHeld s) made.decls
        → HaveNoFault (symbols_at s h.symbols) (declarations_at s made.decls)
        → IsTypedOver (symbols_at s h.symbols) (scope_at s names) }
{}

/// A law: sound declarations with those of a theory that is used, each theory's once, are sound, where
/// both have the same of each theory that both have: the used theory's are over a signature that has
/// grown since. What either may name may be named, and the signature is typed over what all make.
pub fn joins_sound()
    ensures { (xs ys : List SymbolTree) (ds es : List DeclarationTree) → AreSound (xs ++ ys) ds
        → AreSound xs es → Agree ds es → AreJoined xs (xs ++ ys) ds es }
{}

/// A law: what the laws above ask of a declaration holds of one that tokens stand for: where the first
/// of a group has no definition there is no other; the names of the type variables of a proposition
/// have their quotes where those of the tokens have, as the tokens of each text.
pub fn tokens_fit()
    ensures wholes { (d : SyntaxDeclaration) → IsLevelDecl d → IsGroupWhole d }
    ensures names { (d : SyntaxDeclaration) (k : PropKind) (x : TokenName) (e : Expression)
        → declaration d ≡ Some (proposition_declaration k x e) → All IsQuotedLexeme (write_decl d)
        → All IsQuoted (proposition_seen e).vars }
    ensures quotes { (text : List ℕ) (ts : List Token) (i : ℕ) → AreTokens text ts
        → All IsQuotedLexeme (rest text ts i) }
{}
