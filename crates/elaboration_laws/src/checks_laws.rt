// The first fault of names is the failing check at the least token.
ghost use Rattle.std.specs.Prelude.{ℕ, Bool, List, [], IfSome};
ghost use Rattle.elab_groups.specs.scopes.declared.Table.{Table};
ghost use Rattle.elab_groups.specs.surface.Lexeme.{Word};
ghost use Rattle.elab_groups.specs.surface.Trees.{SyntaxTree, IsLevel, IsPlacedTree};
ghost use Rattle.elab_groups.specs.surface.Declarations.{SyntaxDeclaration};
ghost use Rattle.elab_groups.specs.surface.DeclarationRules.{IsLevelDecl, PlacedDecl};
ghost use Rattle.elab_groups.specs.name_resolution.Abstract.{expression};
ghost use Rattle.elab_groups.specs.name_resolution.Faults.{fault};
ghost use Rattle.elab_groups.specs.name_resolution.Where.{Where};
ghost use Rattle.elab_groups.specs.parts.Declarations.{Declaration, declaration, made_names, made_fault};
ghost use Rattle.elab_groups.specs.parts.Outcomes.{Setting};
ghost use Rattle.elab_declarations.specs.Outcomes.{used_fault};
ghost use Rattle.elaboration_laws.specs.Checked.{IsLeastFailing, NamesFail};
ghost use Rattle.elaboration_laws.specs.UsedNames.{UsesFail, MadeFails};

/// A law: the first fault of names of an expression of a source, of the names that a declaration of a source
/// uses, and of those that it makes, is the failing check at the least token, and there is none where no
/// check fails.
pub fn first_fault_is_least()
    ensures expression { (w : Where) (open_ : Bool) (ls : List Word) (due : Bool) (i : ℕ)
        (e : SyntaxTree) → IsLevel e → IsPlacedTree i e
        → IsLeastFailing (fault w open_ ls due (expression e))
        (NamesFail w open_ ls due (expression e)) }
    ensures uses { (c : Setting) (i : ℕ) (s : SyntaxDeclaration) → IsLevelDecl s → PlacedDecl i s
        → IfSome (declaration s)
        (λ (d : Declaration). IsLeastFailing (used_fault c d) (UsesFail c d)) }
    ensures makes { (declared : Table → Word → Bool) (i : ℕ) (s : SyntaxDeclaration)
        → PlacedDecl i s → IfSome (declaration s)
        (λ (d : Declaration). IsLeastFailing (made_fault declared [] (made_names d))
        (MadeFails declared [] (made_names d))) }
{}
