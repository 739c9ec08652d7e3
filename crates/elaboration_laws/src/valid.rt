// What declarations make is valid over the signature that they extend: the laws that validity of every task depends on.
ghost use Rattle.std.specs.Prelude.{◌≡◌, ℕ, true, false, List, [], ◌∷◌, ◌++◌, map, length, All, Some, None, IsTrue};
ghost use Rattle.elab_groups.specs.trees.Tree.{Tree};
ghost use Rattle.elab_groups.specs.trees.Node.{Holds, tree_at};
ghost use Rattle.elab_groups.specs.trees.declared.TermId.{TermId};
ghost use Rattle.elab_groups.specs.trees.Sorts.{WellSorted};
ghost use Rattle.elab_groups.specs.tasks.Task.{SymbolTree, DeclarationTree, int_symbol};
ghost use Rattle.elab_groups.specs.tasks.Meaning.{symbols_at, declarations_at, DeclHeld};
ghost use Rattle.elab_groups.specs.tasks.declared.signature.Signature.{Signature};
ghost use Rattle.elab_groups.specs.tasks.Valid.{IsDefinition, IsValidDecl};
ghost use Rattle.elab_groups.specs.tasks.Vocabulary.{Vocabulary, is_empty};
ghost use Rattle.elab_groups.specs.scopes.Names.{ScopeNames, empty_names};
ghost use Rattle.elab_groups.specs.surface.Declarations.{SyntaxDeclaration};
ghost use Rattle.elab_groups.specs.surface.declared.declarations.PropKind.{PropKind};
ghost use Rattle.elab_groups.specs.surface.declared.declarations.PropKind.TheVariants.{Goal};
ghost use Rattle.elab_groups.specs.name_resolution.Abstract.{TypeExpression, Expression};
ghost use Rattle.elab_groups.specs.name_resolution.Faults.{fault, form_fault};
ghost use Rattle.elab_groups.specs.name_resolution.Naming.{scope_at};
ghost use Rattle.elab_groups.specs.open_types.Drafts.{match_at};
ghost use Rattle.elab_groups.specs.declared.parts.made.Elaborated.{Elaborated};
ghost use Rattle.elab_groups.specs.parts.Declarations.{Declaration, proposition_declaration, declaration, TokenName, GroupMember, AlgebraicType, InductivePredicate, words, types_fault};
ghost use Rattle.std.specs.Str.{bytes_eq};
ghost use Rattle.elab_groups.specs.parts.Entries.{builtin};
ghost use Rattle.elab_groups.specs.parts.Outcomes.{Setting, Outcome, around};
ghost use Rattle.elab_declarations.specs.elab_groups.Bodies.{AllHaveBodies};
ghost use Rattle.elab_declarations.specs.elab_groups.Groups.{group_used, IsGroup};
ghost use Rattle.elab_declarations.specs.type_declarations.Algebraics.{inside_types, group_outcome};
ghost use Rattle.elab_declarations.specs.inductive_declarations.Inductives.{inductives_used, IsInductiveGroup};
ghost use Rattle.elab_declarations.specs.Outcomes.{type_outcome, alias_outcome, IsProposition, IsElaborated};
ghost use Rattle.elaboration_laws.specs.Signature.{with_entries};
ghost use Rattle.elaboration_laws.specs.Scopes.{NamesNew, IsSubvocabulary, AgreeBelow};
ghost use Rattle.elaboration_laws.specs.Typed.{ArePatterns};
ghost use Rattle.elaboration_laws.specs.Lists.{after, AreValidAfter, MakesBelow, IsGroupWhole, IsNoGoal, IsNextDeclaration, IsNextGoal};
ghost use Rattle.elaboration_laws.specs.Named.{DeclNames};
ghost use Rattle.elaboration_laws.specs.Valid.{IsTypedSetting, MayName, MayNameRigid, DeclsFit, HaveNoFault, IsValidOutcome, IsDefinedBy, definition_by, IsValidElaborated};

/// A law: where the signature and the scopes are typed over a vocabulary, which may name what is
/// made, and no name is at fault, a type without a definition, an alias, a group of algebraic types,
/// of functions and predicates or of inductive predicates whose clauses pass their checks, and an
/// axiom, lemma or goal give declarations that are valid over it with their entries; signature and
/// scopes are typed again.
pub fn makes_valid()
    ensures types { (v : Vocabulary) (c : Setting) (x : TokenName) (n : ℕ) → IsTypedSetting v c
        → MayName v c (type_outcome c x n) → IsValidOutcome v c (type_outcome c x n) }
    ensures aliases { (v : Vocabulary) (c : Setting) (x : TokenName) (vs : List TokenName)
        (f : TypeExpression) → IsTypedSetting v c
        → form_fault (around c (words vs)) false f ≡ None → MayName v c (alias_outcome c x vs f)
        → IsValidOutcome v c (alias_outcome c x vs f) }
    ensures members { (v : Vocabulary) (c : Setting) (ms : List GroupMember) (o : Outcome)
        → IsTypedSetting v c → group_used c ms ≡ None → AllHaveBodies ms → IsGroup c ms o
        → DeclsFit o.decls → MayName v c o → IsValidOutcome v c o }
    ensures propositions { (v : Vocabulary) (c : Setting) (k : PropKind) (x : TokenName)
        (e : Expression) (o : Outcome) → IsTypedSetting v c
        → fault (around c []) true [] true e ≡ None → IsProposition c k x e o
        → DeclsFit o.decls → MayName v c o → MayNameRigid v (proposition_declaration k x e) o.rigid
        → IsValidOutcome v c o }
    ensures algebraics { (v : Vocabulary) (c : Setting) (ts : List AlgebraicType)
        → IsTypedSetting v c → types_fault (inside_types c ts) ts ≡ None
        → MayName v c (group_outcome c ts) → IsValidOutcome v c (group_outcome c ts) }
    ensures inductives { (v : Vocabulary) (c : Setting) (ds : List InductivePredicate) (o : Outcome)
        → IsTypedSetting v c → inductives_used c ds ≡ None → IsInductiveGroup c ds o
        → DeclsFit o.decls → HaveNoFault (c.symbols ++ o.symbols) o.decls → MayName v c o
        → IsValidOutcome v c o }
{}

/// A law: what `elaborate` gives of a source's declaration over a typed signature and typed scopes,
/// in a store whose trees are well sorted, is valid over a vocabulary of the signature afterwards
/// that may name what is made, where the checks of declarations find no fault; that signature and
/// the scopes are typed again.
pub fn elaborates_valid()
    ensures { (v : Vocabulary) (c : Setting) (d : SyntaxDeclaration) (x : Declaration)
        (g : Signature)
        (s : List Tree) (h : Signature) (names : ScopeNames) (made : Elaborated)
        → IsTypedSetting v c → declaration d ≡ Some x → IsElaborated c x g s h names made
        → ((id : TermId) → Holds s id → WellSorted (tree_at s id))
        → All (DeclHeld s) made.decls
        → HaveNoFault (symbols_at s h.symbols) (declarations_at s made.decls)
        → NamesNew v (length c.symbols) (symbols_at s h.symbols)
        → MayNameRigid v x made.rigid → IsValidElaborated v s h names made }
{}

/// A law: over a typed signature and typed scopes the patterns of each match of what `elaborate` gives,
/// also of one in a trigger, are well typed over a vocabulary of the signature afterwards that may name
/// what is made, and of one type.
pub fn elaborates_patterns()
    ensures { (v : Vocabulary) (c : Setting) (x : Declaration) (g : Signature) (s : List Tree)
        (h : Signature) (names : ScopeNames) (made : Elaborated) → IsTypedSetting v c
        → IsElaborated c x g s h names made
        → NamesNew v (length c.symbols) (symbols_at s h.symbols)
        → All (λ (m : ℕ × List Tree). ArePatterns (with_entries v (symbols_at s h.symbols)) m.1)
        (map (match_at s) made.matches) }
{}

/// A law: a signature with `int` alone and a scope without names are typed, in a theory with a
/// name, which isn't that of what is built in, over a vocabulary that may name `int`.
pub fn begins_typed()
    ensures { (v : Vocabulary) (c : Setting) → IsTrue (v.usable 0) → is_empty c.theory ≡ false
        → bytes_eq c.theory builtin ≡ false → c.symbols ≡ int_symbol ∷ [] → c.scope ≡ empty_names
        → IsTypedSetting v c }
{}

/// A law: what is typed over a vocabulary is so over one that may name the same entries.
pub fn agrees_typed()
    ensures { (v w : Vocabulary) (c : Setting) → AgreeBelow v w (length c.symbols)
        → IsTypedSetting v c → IsTypedSetting w c }
{}

/// A law: a declaration that is valid over a vocabulary is valid over one of which that is a part.
pub fn stays_valid()
    ensures { (v w : Vocabulary) (d : DeclarationTree) → IsSubvocabulary v w → IsValidDecl v d
        → IsValidDecl w d }
{}

/// A law: a declaration that is valid over a vocabulary, as of a signature, is valid over another
/// one with the same entries, as of a task, which may name all that is in it.
pub fn moves_valid()
    ensures { (v w : Vocabulary) (d : DeclarationTree) → v.symbols ≡ w.symbols
        → DeclNames w v.symbols d → IsValidDecl v d → IsValidDecl w d }
{}

/// A law: a function whose body is a term of its type under its parameters, and a predicate whose
/// body is a formula, are defined validly by their equations.
pub fn defines_valid()
    ensures { (v : Vocabulary) (k : ℕ) (body inner : Tree) → IsDefinedBy v k body inner
        → IsDefinition v (definition_by v k inner) }
{}

/// A law: declarations that are each valid where they are, over what they make themselves and what
/// those before them make, are valid over what all of them make.
pub fn lists_valid()
    ensures { (symbols : List SymbolTree) (before ds : List DeclarationTree)
        → AreValidAfter symbols before ds
        → All (IsValidDecl (after symbols [] (before ++ ds))) ds }
{}

/// A law: where signature and scopes are typed over what declarations make, of which each is in
/// the signature, what `elaborate` gives of the next one, which is no goal, is valid where it is
/// if the checks of declarations find no fault, and signature and scopes are typed over what all of
/// them make.
pub fn next_valid()
    ensures { (c : Setting) (ds : List DeclarationTree) (d : SyntaxDeclaration) (x : Declaration)
        (g : Signature) (s : List Tree) (h : Signature) (names : ScopeNames) (made : Elaborated)
        → IsTypedSetting (after c.symbols [] ds) c → MakesBelow (length c.symbols) ds
        → declaration d ≡ Some x → IsGroupWhole d → IsNoGoal d
        → IsElaborated c x g s h names made
        → ((id : TermId) → Holds s id → WellSorted (tree_at s id))
        → All (DeclHeld s) made.decls
        → HaveNoFault (symbols_at s h.symbols) (declarations_at s made.decls)
        → IsNextDeclaration (symbols_at s h.symbols) (scope_at s names) ds
        (declarations_at s made.decls) }
{}

/// A law: of a goal after declarations the proposition is valid over what they make and its own type
/// variables, whose entries these are; signature and scopes are typed over what they make.
pub fn next_goal_valid()
    ensures { (c : Setting) (ds : List DeclarationTree) (d : SyntaxDeclaration) (x : TokenName)
        (e : Expression)
        (g : Signature) (s : List Tree) (h : Signature) (names : ScopeNames) (made : Elaborated)
        → IsTypedSetting (after c.symbols [] ds) c → MakesBelow (length c.symbols) ds
        → declaration d ≡ Some (proposition_declaration Goal x e)
        → IsElaborated c (proposition_declaration Goal x e) g s h names made
        → ((id : TermId) → Holds s id → WellSorted (tree_at s id))
        → All (DeclHeld s) made.decls
        → HaveNoFault (symbols_at s h.symbols) (declarations_at s made.decls)
        → IsNextGoal (symbols_at s h.symbols) (scope_at s names) ds made.rigid
        (declarations_at s made.decls) }
{}
