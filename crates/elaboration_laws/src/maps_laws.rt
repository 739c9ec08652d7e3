// The map of a clone takes types over the signature to types over the signature with the copies' entries.
ghost use Rattle.std.specs.Prelude.{◌≡◌, false, List, ◌++◌, map, All, None};
ghost use Rattle.elab_groups.specs.tasks.Task.{SymbolTree};
ghost use Rattle.elab_groups.specs.tasks.Rigid.{rigid_symbol};
ghost use Rattle.elab_groups.specs.tasks.Vocabulary.{is_empty, of_signature};
ghost use Rattle.elab_groups.specs.surface.Lexeme.{Word};
ghost use Rattle.elab_groups.specs.surface.Declarations.{Element};
ghost use Rattle.elab_groups.specs.parts.Declarations.{Declaration};
ghost use Rattle.elab_groups.specs.parts.Outcomes.{Setting, Outcome};
ghost use Rattle.elab_declarations.specs.Outcomes.{IsOutcome};
ghost use Rattle.elaboration_laws.specs.Scopes.{IsTypedEntry};
ghost use Rattle.elaboration_laws.specs.Valid.{IsTypedSetting};
ghost use Rattle.elaboration_laws.specs.Built.{IsBuiltRight};
ghost use Rattle.clones.specs.clone_elements.Left.{Origin};
ghost use Rattle.clones.specs.clone_elements.Rights.{rights_tuples, rights_fault};
ghost use Rattle.clones.specs.clone_elements.Replacements.{clone_map};
ghost use Rattle.elaboration_laws.specs.Morphisms.{MapsTypes};
ghost use Rattle.elaboration_laws.specs.Placed.{ArePlaced};
ghost use Rattle.elaboration_laws.specs.Sides.{IsTypedSide, with_rights, left_sides_at, copies_made, with_copies};

/// A law: over a typed signature and typed scopes, where the right sides of elements have no fault of
/// names, the types on them are types over the signature with the tuples that are seen in them, over
/// which signature and scopes are typed; what is built in stays right.
pub fn sides_typed()
    ensures typed { (c : Setting) (t : Origin) (es : List Element)
        → IsTypedSetting (of_signature c.symbols) c
        → rights_fault c.symbols c.scope es ≡ None
        → All (IsTypedSide (of_signature (with_rights c es).symbols)) (left_sides_at c t es) }
    ensures setting { (c : Setting) (es : List Element)
        → IsTypedSetting (of_signature c.symbols) c
        → rights_fault c.symbols c.scope es ≡ None
        → IsTypedSetting (of_signature (with_rights c es).symbols) (with_rights c es) }
    ensures built { (symbols : List SymbolTree) (es : List Element) → IsBuiltRight symbols
        → IsBuiltRight (symbols ++ rights_tuples symbols es) }
{}

/// A law: then the map of the clone takes each type symbol to a type symbol, with as many arguments, of
/// the signature with the copies' entries, or to a type over it.
pub fn types_mapped()
    ensures { (c : Setting) (t : Origin) (es : List Element) (theory within : Word)
        → IsTypedSetting (of_signature c.symbols) c
        → rights_fault c.symbols c.scope es ≡ None → is_empty theory ≡ false
        → MapsTypes (of_signature (with_rights c es).symbols)
        (of_signature (with_copies c t es theory within))
        (clone_map (with_rights c es).symbols t (left_sides_at c t es)) }
{}

/// A law: where an entry without a theory is that of a type variable, each entry of the copies is typed,
/// and with these entries, those of tuples and those of type variables it stays so.
pub fn copies_typed()
    ensures typed { (c : Setting) (t : Origin) (es : List Element) (theory within : Word)
        → ArePlaced c.symbols → IsTypedSetting (of_signature c.symbols) c
        → rights_fault c.symbols c.scope es ≡ None → is_empty theory ≡ false
        → All (IsTypedEntry (of_signature (with_copies c t es theory within)))
        (copies_made c t es theory within) }
    ensures placed { (c : Setting) (t : Origin) (es : List Element) (theory within : Word)
        → ArePlaced c.symbols → is_empty theory ≡ false
        → ArePlaced (with_copies c t es theory within) }
    ensures variables { (symbols : List SymbolTree) (vs : List Word) → ArePlaced symbols
        → ArePlaced (symbols ++ map rigid_symbol vs) }
{}

/// A law: of the entries that a declaration makes in a theory only those of type variables have none.
pub fn outcomes_placed()
    ensures { (c : Setting) (d : Declaration) (o : Outcome) → is_empty c.theory ≡ false
        → IsOutcome c d o → ArePlaced o.symbols }
{}
