// A copy of a valid declaration under a map of symbols is valid over what the map's symbols may name.
ghost use Rattle.std.specs.Prelude.{ℕ, List, [], All};
ghost use Rattle.elab_groups.specs.trees.Tree.{Tree};
ghost use Rattle.elab_groups.specs.tasks.Task.{SymbolTree, DeclarationTree, made_by};
ghost use Rattle.elab_groups.specs.tasks.Vocabulary.{Vocabulary};
ghost use Rattle.elab_groups.specs.tasks.Valid.{IsTypeIn, HasTypes, IsFormulaOver, IsValidDecl};
ghost use Rattle.clones.specs.Mapped.{Map, mapped};
ghost use Rattle.clones.specs.Copies.{declaration_copied, entry_copied};
ghost use Rattle.elaboration_laws.specs.Morphisms.{MapsTypes, IsMorphism, AreTyped, IsCopied};

/// A law: where a map takes each type symbol of a vocabulary to a type symbol of another one with as
/// many arguments, or to a type at as many type variables, a type over the first becomes a type over
/// the other, and so do the types of an entry.
pub fn types_copied()
    ensures types { (v w : Vocabulary) (m : Map) (vars : ℕ) (t : Tree) → MapsTypes v w m
        → IsTypeIn v vars t → IsTypeIn w vars (mapped m t) }
    ensures entries { (v w : Vocabulary) (m : Map) (theory within : List ℕ) (e : SymbolTree)
        → MapsTypes v w m → HasTypes v e → HasTypes w (entry_copied m theory within e) }
{}

/// A law: where it takes each symbol that the one may name to one that the other may name, with the
/// mapped signature, a formula over the first becomes a formula over the other.
pub fn formulas_copied()
    ensures { (v w : Vocabulary) (m : Map) (vars : ℕ) (e : Tree) → IsMorphism v w m → AreTyped v
        → IsFormulaOver v [] vars e → IsFormulaOver w [] vars (mapped m e) }
{}

/// A law: where moreover what a declaration makes becomes new symbols, the copy of the declaration is
/// valid over the other vocabulary if the declaration is valid over the first.
pub fn copies_valid()
    ensures { (v w : Vocabulary) (m : Map) (theory within : List ℕ) (d : DeclarationTree)
        → IsMorphism v w m → AreTyped v → All (IsCopied v w m) (made_by d.body) → IsValidDecl v d
        → IsValidDecl w (declaration_copied m theory within d) }
{}
