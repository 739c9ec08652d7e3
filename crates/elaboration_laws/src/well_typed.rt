// What is elaborated is well typed over the signature: the laws that validity of every task depends on.
ghost use Rattle.std.specs.Prelude.{◌≡◌, ℕ, true, List, [], ◌++◌, length, All, Option, None, option_map};
ghost use Rattle.elab_groups.specs.trees.Tree.{Tree};
ghost use Rattle.elab_groups.specs.trees.Facts.{IndicesFit};
ghost use Rattle.elab_groups.specs.tasks.Task.{SymbolTree};
ghost use Rattle.elab_groups.specs.tasks.Vocabulary.{Vocabulary};
ghost use Rattle.elab_groups.specs.tasks.Valid.{IsFormulaOver};
ghost use Rattle.elab_groups.specs.open_types.unify_types.Assigned.{assign};
ghost use Rattle.elab_groups.specs.open_types.unify_types.Pairs.{SolvesAll};
ghost use Rattle.elab_groups.specs.surface.Lexeme.{Word};
ghost use Rattle.elab_groups.specs.name_resolution.Abstract.{Expression};
ghost use Rattle.elab_groups.specs.name_resolution.Where.{Where, NamesTree};
ghost use Rattle.elab_groups.specs.name_resolution.variables.Seen.{SeenTree, has_width, seen};
ghost use Rattle.elab_groups.specs.open_types.Patterns.{LocalTree};
ghost use Rattle.elab_groups.specs.open_types.Pieces.{piece};
ghost use Rattle.elab_groups.specs.parts.Elaborated.{IsSolved};
ghost use Rattle.elab_groups.specs.parts.Entries.{wanting_tuples};
ghost use Rattle.elab_groups.specs.parts.Outcomes.{over};
ghost use Rattle.elaboration_laws.specs.Scopes.{IsTypedSignature, NamesNew, AreTypedScopes};
ghost use Rattle.elaboration_laws.specs.Signature.{with_entries, IsWellFormed, HasTuple, HasTuples};
ghost use Rattle.elaboration_laws.specs.Typed.{IsTypeOf, IsTypedAs, IsNamedExpression, local_types, assigned_types, AreTypedLocals, AreTypesIn, IsTypedIn, ArePatterns};

/// A law: at each solution of its equations by types over the signature, where so many type
/// variables stand for themselves, the tree of a piece is well typed over the signature under its
/// variables at that solution, and is a term of the wanted type there, or a formula. No variable
/// has the greatest index, as in a store.
pub fn is_typed_at_solutions()
    ensures { (v : Vocabulary) (w : Where) (rigid : ℕ) (ls : List LocalTree) (n : ℕ)
        (t : Option Tree) (e : Expression) (f : ℕ → Tree) → IsNamedExpression v w ls t e
        → AreTypedLocals (with_entries v w.symbols) ls t
        → ((j : ℕ) → IsTypeOf (with_entries v w.symbols) (f j))
        → SolvesAll rigid f (piece w ls n t e).notes.equations
        → IndicesFit (assign rigid f (piece w ls n t e).tree)
        → IsTypedAs (with_entries v w.symbols) (assigned_types rigid f ls)
        (option_map (assign rigid f) t)
        (assign rigid f (piece w ls n t e).tree) }
{}

/// A law: where the type equations of a piece determine its tree, that tree is well typed over
/// the signature under its variables, is a term of the wanted type or a formula, and has the
/// rigid type variables alone. No variable has the greatest index, as in a store.
pub fn is_well_typed()
    ensures { (v : Vocabulary) (w : Where) (rigid : ℕ) (ls : List LocalTree) (n : ℕ)
        (t : Option Tree) (e : Expression) (tree : Tree) (ms : List (ℕ × List Tree))
        → IsNamedExpression v w ls t e
        → AreTypesIn (with_entries v w.symbols) rigid ls t
        → IsSolved rigid (piece w ls n t e) tree ms → IndicesFit tree
        → IsTypedIn (with_entries v w.symbols) rigid (local_types ls) t tree }
{}

/// A law: the tree of a proposition is a closed formula over the signature, with the
/// rigid type variables. No variable has the greatest index, as in a store.
pub fn is_formula()
    ensures { (v : Vocabulary) (w : Where) (rigid n : ℕ) (e : Expression) (tree : Tree)
        (ms : List (ℕ × List Tree)) → IsNamedExpression v w [] None e
        → IsSolved rigid (piece w [] n None e) tree ms → IndicesFit tree
        → IsFormulaOver (with_entries v w.symbols) [] rigid tree }
{}

/// A law: where the type equations of a piece determine its matches, the patterns of each match,
/// also of one in a trigger, are well typed over the signature and of one type.
pub fn has_typed_matches()
    ensures { (v : Vocabulary) (w : Where) (rigid : ℕ) (ls : List LocalTree) (n : ℕ)
        (t : Option Tree) (e : Expression) (tree : Tree) (ms : List (ℕ × List Tree))
        → IsNamedExpression v w ls t e
        → AreTypedLocals (with_entries v w.symbols) ls t
        → IsSolved rigid (piece w ls n t e) tree ms
        → All (λ (m : ℕ × List Tree). ArePatterns (with_entries v w.symbols) m.1) ms }
{}

/// A law: each tuple of an expression has a constructor of its width where each width that is
/// seen in it, after others, has one.
pub fn has_tuples()
    ensures { (v : Vocabulary) (w : Where) (e : Expression) (s : SeenTree)
        → ((n : ℕ) → has_width n (seen s e).widths ≡ true → HasTuple v w n)
        → HasTuples v w e }
{}

/// A law: over a typed signature with the entries of the tuples of some widths, and typed scopes,
/// names stand for what a well-formed signature asks, and each of these widths has its
/// constructor; the signature with these entries is typed, where what is new may be named.
pub fn is_well_formed()
    ensures typed { (v : Vocabulary) (symbols : List SymbolTree) (widths : List ℕ)
        → NamesNew v (length symbols) (symbols ++ wanting_tuples symbols widths)
        → IsTypedSignature v symbols
        → IsTypedSignature v (symbols ++ wanting_tuples symbols widths) }
    ensures formed { (v : Vocabulary) (symbols : List SymbolTree) (names : NamesTree)
        (vars : List Word) → IsTypedSignature v symbols
        → AreTypedScopes (with_entries v symbols) names
        → IsWellFormed v (over symbols names vars) }
    ensures tuples { (v : Vocabulary) (symbols : List SymbolTree) (names : NamesTree)
        (vars : List Word) (widths : List ℕ) (n : ℕ)
        → NamesNew v (length symbols) (symbols ++ wanting_tuples symbols widths)
        → IsTypedSignature v symbols → has_width n widths ≡ true
        → HasTuple v (over (symbols ++ wanting_tuples symbols widths) names vars) n }
    ensures scopes { (v : Vocabulary) (symbols more : List SymbolTree) (names : NamesTree)
        → AreTypedScopes (with_entries v symbols) names
        → AreTypedScopes (with_entries v (symbols ++ more)) names }
{}
