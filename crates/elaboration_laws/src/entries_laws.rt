// The signature and the names that a clone leaves are typed over the signature.
ghost use Rattle.std.specs.Prelude.{◌≡◌, ◌≢◌, ℕ, ◌<◌, false, List, ◌++◌, map, length, All, Some, None, IsTrue};
ghost use Rattle.std.specs.Str.{bytes_eq};
ghost use Rattle.elab_groups.specs.trees.Tree.{Tree};
ghost use Rattle.elab_groups.specs.tasks.declared.signature.SymbolKind.TheVariants.{Kind};
ghost use Rattle.elab_groups.specs.tasks.Task.{SymbolTree, symbol_or};
ghost use Rattle.elab_groups.specs.tasks.Rigid.{rigid_symbol};
ghost use Rattle.elab_groups.specs.tasks.Vocabulary.{Vocabulary, is_empty, of_signature};
ghost use Rattle.elab_groups.specs.tasks.Valid.{IsTypeIn};
ghost use Rattle.clones.specs.Mapped.{Map, mapped};
ghost use Rattle.elab_groups.specs.parts.Entries.{builtin};
ghost use Rattle.elaboration_laws.specs.Scopes.{IsTypedEntry, IsTypedSignature, IsTypeNumber, IsSymbolNumber};
ghost use Rattle.elaboration_laws.specs.Built.{IsBuiltRight};
ghost use Rattle.elaboration_laws.specs.Morphisms.{MapsTypes};
ghost use Rattle.elaboration_laws.specs.Entries.{copied_entries, IsStanding, IsGrounded};

/// A law: a typed signature stays typed with further typed entries whose constructors have a theory, as
/// the copies of a clone under a map of its types, and as the entries of type variables; what is
/// built in stays right.
pub fn entries_typed()
    ensures further { (xs ys : List SymbolTree) → IsTypedSignature (of_signature xs) xs
        → All (IsTypedEntry (of_signature (xs ++ ys))) ys → All IsGrounded ys
        → IsTypedSignature (of_signature (xs ++ ys)) (xs ++ ys) }
    ensures copied { (xs : List SymbolTree) (m : Map) (theory within ks : List ℕ)
        → MapsTypes (of_signature xs) (of_signature (xs ++ copied_entries xs m theory within ks)) m
        → IsTypedSignature (of_signature xs) xs → is_empty theory ≡ false
        → All (IsStanding xs) ks
        → IsTypedSignature (of_signature (xs ++ copied_entries xs m theory within ks))
        (xs ++ copied_entries xs m theory within ks) }
    ensures variables { (xs : List SymbolTree) (vs : List (List ℕ))
        → IsTypedSignature (of_signature xs) xs
        → IsTypedSignature (of_signature (xs ++ map rigid_symbol vs)) (xs ++ map rigid_symbol vs) }
    ensures built_copied { (xs : List SymbolTree) (m : Map) (theory within ks : List ℕ)
        → IsBuiltRight xs → bytes_eq theory builtin ≡ false
        → IsBuiltRight (xs ++ copied_entries xs m theory within ks) }
    ensures built_variables { (xs : List SymbolTree) (vs : List (List ℕ)) → IsBuiltRight xs
        → IsBuiltRight (xs ++ map rigid_symbol vs) }
{}

/// A law: what the name of a type stands for becomes a type symbol, or a type, as the map says; the
/// name of a symbol stands for a symbol where its entry has a kind of one.
pub fn names_typed()
    ensures types { (v w : Vocabulary) (m : Map) (k : ℕ) → MapsTypes v w m → m.types k ≡ None
        → IsTypeNumber v k → IsTypeNumber w (m.symbols k) }
    ensures replaced { (v w : Vocabulary) (m : Map) (k : ℕ) (e : Tree) → MapsTypes v w m
        → m.types k ≡ Some e → IsTypeNumber v k → IsTypeIn w (symbol_or v.symbols k).vars e }
    ensures aliases { (v w : Vocabulary) (m : Map) (vars : ℕ) (t : Tree) → MapsTypes v w m
        → IsTypeIn v vars t → IsTypeIn w vars (mapped m t) }
    ensures symbols { (xs : List SymbolTree) (k : ℕ) → k < length xs
        → is_empty (symbol_or xs k).theory ≡ false → (symbol_or xs k).kind ≢ Kind
        → IsSymbolNumber (of_signature xs) k }
{}
