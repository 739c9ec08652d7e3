// Type symbols without a definition, and aliases.
// They depend on entries and names; elaboration depends on them.
ghost use Rattle.std.specs.Prelude.{◌≡◌, ◌++◌, ◌∷◌, [], List, None, length, map, true, false, IfOk, IfErr, OnOk, option_map};
ghost use Rattle.tasks.specs.trees.Tree.{Tree};
ghost use Rattle.tasks.specs.trees.Node.{tree_at, Grows};
ghost use Rattle.tasks.specs.trees.Facts.{TyVarsBelow};
ghost use Rattle.tasks.specs.Task.{MakesType};
ghost use Rattle.tasks.specs.Meaning.{symbols_at, declarations_at};
ghost use Rattle.name_resolution.specs.scopes.Names.{with_name};
ghost use Rattle.name_resolution.specs.Abstract.{type_expression_of};
ghost use Rattle.name_resolution.specs.Faults.{form_fault};
ghost use Rattle.name_resolution.specs.Naming.{Tells, scope_at};
ghost use Rattle.elab_groups.specs.open_types.Pieces.{type_at};
ghost use Rattle.elab_groups.specs.open_types.Drafts.{HoldsType};
ghost use Rattle.elab_groups.specs.parts.Declarations.{word, abstract_type, alias, made_fault, makes, binds_names};
ghost use Rattle.elab_groups.specs.parts.Entries.{type_entry, wanting_tuples, IsSignature, IsExtended, AreScopes};
ghost use Rattle.elab_groups.specs.parts.Outcomes.{over, setting, declared_in, IsKept};
ghost use Rattle.elab_declarations.specs.Outcomes.{alias_seen, type_declaration, IsElaborated, IsRefusal};

use crate::type_declarations::type_of_form;
use elab_groups::parts::{
    ElabFault, Elaborated, Place, Seen, declare, enter_form, find_repeated, gather, join_words,
    naming_fault, push_tuples, push_type, texts_of, world_over,
};
use name_resolution::{NamingFault, Scope, Table, TypeName, check_form};
use std::alloc::{AllocError, Global};
use surface::{Name, TypeTree};
use tasks::{Body, Decl, Seq, Signature, Store, TermId, Text};

// The declaration of a type symbol, whose entry is at the signature's end.
fn make_type(
    alloc: Global,
    store: &Store,
    sig: &mut Signature,
    place: &Place<'_>,
    name: &[u8],
    vars: usize,
) -> Result<Elaborated, AllocError>
    requires { IsSignature store.now sig.old.symbols }
    ensures entry { OnOk result (IsExtended store.now sig.old store.now sig.new
        (type_entry place.now.theory.now (place.now.within.now ++ name.now) vars ∷ [])) }
    ensures decls { IfOk result (λ made. declarations_at store.now made.decls ≡ record {
      theory = place.now.theory.now;
      name = place.now.within.now ++ name.now;
      vars = vars;
      body
          = MakesType (length sig.old.symbols);
    } ∷ []) }
    ensures rigid { IfOk result (λ made. made.rigid ≡ []) }
    ensures matches { IfOk result (λ made. made.matches ≡ []) }
{
    let number = sig.symbols.len();
    let full = join_words(alloc, place.within, name)?;
    push_type(alloc, store, sig, place.theory, full, vars)?;
    let mut decls = Seq::new(alloc);
    decls.push(Decl {
        theory: Text::from_slice(alloc, place.theory)?,
        name: join_words(alloc, place.within, name)?,
        vars,
        body: Body::TypeSymbol(number),
    })?;
    Ok(Elaborated {
        decls,
        rigid: Seq::new(alloc),
        matches: Seq::new(alloc),
    })
}

// The names that the declaration of a type makes.
fn declare_type(
    alloc: Global,
    scope: &mut Scope,
    name: &Name,
    vars: &[Name],
    thing: TypeName,
) -> Result<(), NamingFault>
    ensures ok { OnOk result (scope.new ≡ with_name Table.Types name.now.text thing true
        scope.old) }
    ensures told { Tells result (made_fault (declared_in scope.old) []
        (makes Table.Types (word name.now) ∷ binds_names (map word vars.now) ∷ [])) }
{
    declare(scope, Table::Types, name.text.as_slice(), thing, name.at)?;
    let mut list = Vec::new(alloc);
    gather(&mut list, vars)?;
    match find_repeated(list.as_slice()) {
        Some(token) => Err(NamingFault::Duplicate { token }),
        None => Ok(()),
    }
}

// A type symbol without a definition.
fn elaborate_type(
    alloc: Global,
    store: &Store,
    sig: &mut Signature,
    scope: &mut Scope,
    place: &Place<'_>,
    name: &Name,
    vars: &[Name],
) -> Result<Elaborated, ElabFault>
    requires signature { IsSignature store.now sig.old.symbols }
    requires scopes { AreScopes store.now (length sig.old.symbols) scope.old }
    ensures ok { IfOk result (IsElaborated (setting place.now store.now sig.old scope.old)
        (abstract_type (word name.now) (map word vars.now)) sig.old store.now sig.new scope.new) }
    ensures kept { IfOk result (IsKept store.now sig.new scope.new) }
    ensures err { IfErr result (IsRefusal (setting place.now store.now sig.old scope.old)
        (abstract_type (word name.now) (map word vars.now))) }
{
    let thing = TypeName::Entry(sig.symbols.len());
    match declare_type(alloc, scope, name, vars, thing) {
        Ok(()) => {
            let made = make_type(alloc, store, sig, place, name.text.as_slice(), vars.len())?;
            Ok(made)
        }
        Err(fault) => Err(naming_fault(place.decl, fault)),
    }
}

// The type that a form stands for with some type variables, whether its names are there or not, and the entries of its tuples.
fn make_alias(
    alloc: Global,
    store: &mut Store,
    sig: &mut Signature,
    scope: &Scope,
    vars: &[Text],
    ty: &TypeTree,
) -> Result<TermId, AllocError>
    requires signature { IsSignature store.old sig.old.symbols }
    requires scopes { AreScopes store.old (length sig.old.symbols) scope.now }
    ensures entries { OnOk result (IsExtended store.old sig.old store.new sig.new
        (wanting_tuples (symbols_at store.old sig.old.symbols)
        (alias_seen (type_expression_of ty.now)).widths)) }
    ensures held { IfOk result (HoldsType store.new) }
    ensures tree { IfOk result (λ id. tree_at store.new id ≡ type_at
        (over (symbols_at store.old sig.old.symbols ++ wanting_tuples
        (symbols_at store.old sig.old.symbols) (alias_seen (type_expression_of ty.now)).widths)
        (scope_at store.old scope.now) vars.now) (type_expression_of ty.now)) }
    ensures below { IfOk result (λ id. form_fault
        (over (symbols_at store.old sig.old.symbols) (scope_at store.old scope.now) vars.now) false
        (type_expression_of ty.now) ≡ None → TyVarsBelow (length vars.now) (tree_at store.new id)) }
    ensures grows { Grows store.old store.new }
{
    let mut seen = Seen {
        vars: Seq::new(alloc),
        widths: Seq::new(alloc),
    };
    enter_form(alloc, &mut seen, ty)?;
    push_tuples(alloc, store, sig, seen.widths.as_slice())?;
    let world = world_over(sig, scope, vars, false);
    type_of_form(alloc, store, &world, ty)
}

// The first fault of the names of an alias's type.
fn check_alias(
    alloc: Global,
    sig: &Signature,
    scope: &Scope,
    vars: &[Text],
    ty: &TypeTree,
) -> Result<(), NamingFault>
    ensures { (s : List Tree) → Tells result (form_fault
        (over (symbols_at s sig.now.symbols) (scope_at s scope.now) vars.now) false
        (type_expression_of ty.now)) }
{
    let world = world_over(sig, scope, vars, false);
    check_form(alloc, ty, &world)
}

// An alias: its name stands for a type, and no entry and no declaration is made for it.
fn elaborate_alias(
    alloc: Global,
    store: &mut Store,
    sig: &mut Signature,
    scope: &mut Scope,
    place: &Place<'_>,
    name: &Name,
    vars: &[Name],
    ty: &TypeTree,
) -> Result<Elaborated, ElabFault>
    requires signature { IsSignature store.old sig.old.symbols }
    requires scopes { AreScopes store.old (length sig.old.symbols) scope.old }
    ensures ok { IfOk result (IsElaborated (setting place.now store.old sig.old scope.old)
        (alias (word name.now) (map word vars.now) (type_expression_of ty.now)) sig.old store.new
        sig.new
        scope.new) }
    ensures kept { IfOk result (IsKept store.new sig.new scope.new) }
    ensures err { IfErr result (IsRefusal (setting place.now store.old sig.old scope.old)
        (alias (word name.now) (map word vars.now) (type_expression_of ty.now))) }
    ensures grows { Grows store.old store.new }
{
    let texts = texts_of(alloc, vars)?;
    let used = check_alias(alloc, sig, scope, texts.as_slice(), ty);
    let id = make_alias(alloc, store, sig, scope, texts.as_slice(), ty)?;
    let thing = TypeName::Alias {
        vars: vars.len(),
        ty: id.0,
    };
    match declare_type(alloc, scope, name, vars, thing) {
        Ok(()) => match used {
            Ok(()) => Ok(Elaborated {
                decls: Seq::new(alloc),
                rigid: Seq::new(alloc),
                matches: Seq::new(alloc),
            }),
            Err(fault) => Err(naming_fault(place.decl, fault)),
        },
        Err(fault) => Err(naming_fault(place.decl, fault)),
    }
}

/// The declaration of a type: an alias where it has a definition, else a type symbol.
pub fn elaborate_type_declaration(
    alloc: Global,
    store: &mut Store,
    sig: &mut Signature,
    scope: &mut Scope,
    place: &Place<'_>,
    name: &Name,
    vars: &[Name],
    ty: &Option<TypeTree>,
) -> Result<Elaborated, ElabFault>
    requires signature { IsSignature store.old sig.old.symbols }
    requires scopes { AreScopes store.old (length sig.old.symbols) scope.old }
    ensures ok { IfOk result (IsElaborated (setting place.now store.old sig.old scope.old)
        (type_declaration (word name.now) (map word vars.now)
        (option_map type_expression_of ty.now)) sig.old
        store.new sig.new scope.new) }
    ensures kept { IfOk result (IsKept store.new sig.new scope.new) }
    ensures err { IfErr result (IsRefusal (setting place.now store.old sig.old scope.old)
        (type_declaration (word name.now) (map word vars.now)
        (option_map type_expression_of ty.now))) }
    ensures grows { Grows store.old store.new }
{
    match ty {
        None => elaborate_type(alloc, store, sig, scope, place, name, vars),
        Some(ty) => elaborate_alias(alloc, store, sig, scope, place, name, vars, ty),
    }
}
