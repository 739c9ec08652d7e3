// The copies of a theory's declarations that a clone makes are valid where they are, after what is there.
ghost use Rattle.std.specs.Prelude.{◌≡◌, ◌≢◌, ℕ, ◌<◌, false, List, [], ◌∷◌, ◌++◌, map, length, All, AllPairs, Some, None};
ghost use Rattle.std.specs.List.{Contains};
ghost use Rattle.std.specs.Str.{bytes_eq};
ghost use Rattle.elab_groups.specs.trees.Tree.{Tree};
ghost use Rattle.elab_groups.specs.trees.Binding.{inst_types};
ghost use Rattle.elab_groups.specs.tasks.Task.{SymbolTree, symbol_or, DeclarationTree, made, made_by};
ghost use Rattle.elab_groups.specs.tasks.Roles.{is_constructor, role_in};
ghost use Rattle.elab_groups.specs.tasks.Vocabulary.{Vocabulary, is_empty};
ghost use Rattle.elab_groups.specs.tasks.Rigid.{rigid_symbol};
ghost use Rattle.elab_groups.specs.tasks.Valid.{IsTypeIn, HasTypes, IsQuoted, IsFormulaOver, IsValidDecl};
ghost use Rattle.clones.specs.Mapped.{Map};
ghost use Rattle.clones.specs.Copies.{declaration_copied};
ghost use Rattle.elab_groups.specs.surface.Lexeme.{Word};
ghost use Rattle.elab_groups.specs.name_resolution.Abstract.{TypeExpression};
ghost use Rattle.elab_groups.specs.name_resolution.Faults.{form_fault};
ghost use Rattle.elab_groups.specs.parts.Outcomes.{Setting, around};
ghost use Rattle.elab_groups.specs.open_types.Scoped.{IsScopedEntry};
ghost use Rattle.elab_groups.specs.parts.Entries.{builtin};
ghost use Rattle.elab_declarations.specs.Outcomes.{entry_numbers, rigid_types};
ghost use Rattle.elaboration_laws.specs.Scopes.{NamesNew, IsTypedSignature};
ghost use Rattle.elaboration_laws.specs.Valid.{IsTypedSetting};
ghost use Rattle.elaboration_laws.specs.Lists.{after};
ghost use Rattle.elaboration_laws.specs.Built.{IsBuiltRight};
ghost use Rattle.elaboration_laws.specs.Tasks.{IsOwnSymbol, IsOfTheory, HasRecords, AreSound, IsSoundAfter};
ghost use Rattle.elab_groups.specs.tasks.Typing.{IsTypeSymbol};
ghost use Rattle.elaboration_laws.specs.Morphisms.{HasMappedTypes};
ghost use Rattle.elaboration_laws.specs.Steps.{CopyStep, declarations_of, made_from, BecomesNumbered, IsClone};
ghost use Rattle.elaboration_laws.specs.Trials.{AgreeOn};
ghost use Rattle.elaboration_laws.specs.Rights.{with_tuples, IsTypedForm};
ghost use Rattle.elaboration_laws.specs.Cloning.{IsImage, BecomesNew, IsFixed, KeepsBuilt, IsCloning, IsMadeRight, AreMadeRight};

/// A law: of sound declarations over a signature the next one, copied under a map by which what was
/// before became what is sound now, is sound after it, where its symbols become new ones, one after
/// another; so is what is now where the next one leaves nothing and its symbols have become others,
/// where it stays as it is, is valid and has its fields with their constructors, and with more entries.
pub fn clones_next()
    ensures copied { (xs : List SymbolTree) (pre : List DeclarationTree) (m : Map)
        (symbols : List SymbolTree) (now : List DeclarationTree) (d : DeclarationTree)
        (theory within : List ℕ) → IsCloning xs pre m symbols now
        → AreSound xs (pre ++ d ∷ []) → is_empty theory ≡ false
        → bytes_eq theory builtin ≡ false
        → All (BecomesNew xs symbols m theory within) (made_by d.body)
        → ((k : ℕ) → Contains (made_by d.body) k → Contains (made now) (m.symbols k) → ⊥)
        → BecomesNumbered m d
        → IsCloning xs (pre ++ d ∷ []) m symbols
        (now ++ declaration_copied m theory within d ∷ []) }
    ensures left { (xs : List SymbolTree) (pre : List DeclarationTree) (m : Map)
        (symbols : List SymbolTree) (now : List DeclarationTree) (d : DeclarationTree)
        → IsCloning xs pre m symbols now → AreSound xs (pre ++ d ∷ [])
        → ((k : ℕ) → Contains (made_by d.body) k → IsImage (after symbols [] now) m
        (symbol_or xs k) k (is_constructor (role_in k d.body)))
        → IsCloning xs (pre ++ d ∷ []) m symbols now }
    ensures taken { (xs : List SymbolTree) (pre : List DeclarationTree) (m : Map)
        (symbols : List SymbolTree) (now : List DeclarationTree) (d : DeclarationTree)
        → IsCloning xs pre m symbols now → AreSound xs (pre ++ d ∷ [])
        → IsValidDecl (after symbols [] (now ++ d ∷ [])) d
        → All (IsOwnSymbol symbols) (made_by d.body) → IsOfTheory symbols d
        → HasRecords symbols (made_by d.body) → AllPairs (λ (j k : ℕ). j ≢ k) (made_by d.body)
        → ((k : ℕ) → Contains (made now) k → Contains (made_by d.body) k → ⊥)
        → ((k : ℕ) → Contains (made_by d.body) k → IsImage (after symbols [] (now ++ d ∷ [])) m
        (symbol_or xs k) k (is_constructor (role_in k d.body)))
        → IsCloning xs (pre ++ d ∷ []) m symbols (now ++ d ∷ []) }
    ensures entries { (xs : List SymbolTree) (pre : List DeclarationTree) (m : Map)
        (symbols more : List SymbolTree) (now : List DeclarationTree)
        → IsCloning xs pre m symbols now → IsBuiltRight (symbols ++ more)
        → IsCloning xs pre m (symbols ++ more) now }
{}

/// A law: under a map that leaves what is built in, nothing becomes what is sound over more entries; and
/// of sound declarations the next one, of another theory, stands as among those of other theories,
/// which the map leaves and which are there: where it is there too, nothing changes, and else it comes
/// after them.
pub fn others_stay()
    ensures begun { (xs more : List SymbolTree) (now : List DeclarationTree) (m : Map)
        → IsBuiltRight xs → AreSound (xs ++ more) now → KeepsBuilt xs m
        → IsCloning xs [] m (xs ++ more) now }
    ensures there { (xs more : List SymbolTree) (pre others : List DeclarationTree) (m : Map)
        (now : List DeclarationTree) (d : DeclarationTree) → KeepsBuilt xs m
        → IsCloning xs pre m (xs ++ more) now → AreSound xs (pre ++ d ∷ [])
        → AreSound xs (others ++ d ∷ [])
        → ((k : ℕ) → Contains (made (others ++ d ∷ [])) k → IsFixed m k)
        → ((b : DeclarationTree) → Contains others b → Contains now b) → Contains now d
        → IsCloning xs (pre ++ d ∷ []) m (xs ++ more) now }
    ensures joined { (xs more : List SymbolTree) (pre others : List DeclarationTree) (m : Map)
        (now : List DeclarationTree) (d : DeclarationTree) → KeepsBuilt xs m
        → IsCloning xs pre m (xs ++ more) now → AreSound xs (pre ++ d ∷ [])
        → AreSound xs (others ++ d ∷ [])
        → ((k : ℕ) → Contains (made (others ++ d ∷ [])) k → IsFixed m k)
        → ((b : DeclarationTree) → Contains others b → Contains now b)
        → ((k : ℕ) → Contains (made now) k → Contains (made_by d.body) k → ⊥)
        → IsCloning xs (pre ++ d ∷ []) m (xs ++ more) (now ++ d ∷ []) }
{}

/// A law: a signature is typed over what sound declarations make exactly where each of their symbols is
/// made right: where it makes terms it has a result, and as a constructor it is one of an algebraic
/// type; what a copy makes is made right where what its declaration makes is.
pub fn signatures_typed()
    ensures right { (symbols : List SymbolTree) (ds : List DeclarationTree)
        → AreSound symbols ds → IsTypedSignature (after symbols [] ds) symbols
        → AreMadeRight symbols ds }
    ensures typed { (symbols : List SymbolTree) (ds : List DeclarationTree)
        → AreSound symbols ds → All IsScopedEntry symbols → AreMadeRight symbols ds
        → IsTypedSignature (after symbols [] ds) symbols }
    ensures copied { (xs symbols : List SymbolTree) (m : Map) (theory within : List ℕ)
        (d : DeclarationTree) → ((k : ℕ) → Contains (made_by d.body) k → k < length xs)
        → All (BecomesNew xs symbols m theory within) (made_by d.body)
        → All (IsMadeRight xs d) (made_by d.body)
        → AreMadeRight symbols (declaration_copied m theory within d ∷ []) }
    ensures entries { (symbols more : List SymbolTree) (ds : List DeclarationTree)
        → AreSound symbols ds → AreMadeRight symbols ds → AreMadeRight (symbols ++ more) ds }
{}

/// A law: a goal of a formula after sound declarations, at new type variables, one for each of its own
/// under these names, is sound after them.
pub fn new_goals_sound()
    ensures { (symbols : List SymbolTree) (now : List DeclarationTree) (e : Tree)
        (vs : List (List ℕ)) (name : List ℕ) (before : ℕ) → AreSound symbols now
        → AreMadeRight symbols now → All IsScopedEntry symbols
        → IsFormulaOver (after symbols [] now) [] (length vs) e → All IsQuoted vs
        → IsSoundAfter (symbols ++ map rigid_symbol vs) now (record {
          name = name;
          before = before;
          prop = inst_types e (rigid_types (entry_numbers (length symbols) vs));
          rigid = entry_numbers (length symbols) vs;
        }) }
{}

/// A law: over a typed signature and typed scopes a type on the right side of an element whose names are
/// there is a type over the signature with the tuples that are seen in it, if these may be named;
/// signature and scopes are typed again.
pub fn rights_typed()
    ensures { (base : Vocabulary) (c : Setting) (vars : List Word) (f : TypeExpression)
        → IsTypedSetting base c → form_fault (around c vars) false f ≡ None
        → NamesNew base (length c.symbols) (with_tuples c f) → IsTypedForm base c vars f }
{}

/// A law: a symbol whose types become those of another one under a trial map does so under a map that
/// agrees with it on the symbols of the signature, as the map of a clone does.
pub fn trials_agree()
    ensures { (v w : Vocabulary) (trial own : Map) (e j : SymbolTree)
        → AgreeOn (length w.symbols) trial own
        → ((k i : ℕ) (t : Tree) → IsTypeSymbol v k i → trial.types k ≡ Some t → IsTypeIn w i t)
        → HasTypes v e → HasTypes w j → HasMappedTypes trial e j → HasMappedTypes own e j }
{}

/// A law: what a clone makes of sound declarations is sound beside sound ones: each own declaration that
/// isn't replaced is copied under the map, and each of another theory is joined unless declarations of
/// its theory are there. So it is after the first of them, as where a goal is made.
pub fn clones_sound()
    ensures sound { (xs more : List SymbolTree) (m : Map) (theory within : List ℕ)
        (first : List DeclarationTree) (ss : List CopyStep)
        → IsClone xs more m theory within first ss
        → IsCloning xs (declarations_of ss) m (xs ++ more)
        (first ++ made_from m theory within first ss) }
    ensures front { (xs more : List SymbolTree) (m : Map) (theory within : List ℕ)
        (first : List DeclarationTree) (ss us : List CopyStep)
        → IsClone xs more m theory within first (ss ++ us)
        → IsClone xs more m theory within first ss }
{}
