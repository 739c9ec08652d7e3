// Elaboration: the declarations, entries, names and matches of a declaration, or its first fault.
ghost use Rattle.std.specs.Prelude.{◌≡◌, ◌∷◌, ◌↔◌, ℕ, List, [], None, length, IsTrue, IfSome, IfOk, IfErr};
ghost use Rattle.std.specs.Option.{option_copied};
ghost use Rattle.tasks.specs.trees.Tree.{Tree};
ghost use Rattle.name_resolution.specs.scopes.Names.{empty_names};
ghost use Rattle.tasks.specs.trees.Node.{Grows};
ghost use Rattle.surface.specs.SurfaceDeclarations.{decl_of};
ghost use Rattle.tasks.specs.Task.{int_symbol};
ghost use Rattle.tasks.specs.Meaning.{symbols_at};
ghost use Rattle.elab_groups.specs.parts.Declarations.{declaration, member_group};
ghost use Rattle.elab_groups.specs.parts.Entries.{IsSignature, AreScopes};
ghost use Rattle.elab_groups.specs.parts.Outcomes.{setting, setting_where, IsKept};
ghost use Rattle.elab_groups.specs.members.Sources.{member_at};
ghost use Rattle.elab_declarations.specs.Outcomes.{IsLogical, IsElaborated, IsRefusal};
ghost use Rattle.elab_declarations.specs.Heads.{first_member, later_members};

use crate::inductive_declarations::elaborate_inductives;
use crate::propositions::elaborate_proposition;
use crate::type_declarations::elaborate_algebraic;
use crate::types::elaborate_type_declaration;
use elab_groups::elaborate_group;
use elab_groups::members::{MemberSource, gather_members};
use elab_groups::parts::{ElabFault, Elaborated, Place};
use name_resolution::Scope;
use std::alloc::{AllocError, Global};
use surface::{DeclNode, DeclTree, Expr, MemberTree, OpName, ParamTree, TypeTree};
use tasks::{Seq, Signature, Store, SymbolInfo, SymbolKind, Text};

// The first member of a group.
fn head_member<'a>(
    name: &'a OpName,
    params: &'a [ParamTree],
    of_type: Option<&'a TypeTree>,
    body: &'a Option<Expr>,
) -> MemberSource<'a>
    ensures { member_at result ≡ first_member name.now params.now
        (option_copied of_type.entry) body.now }
{
    MemberSource {
        name,
        params,
        result: of_type,
        body: body.as_ref(),
    }
}

// A group of a member and those after `with`.
fn elaborate_members(
    alloc: Global,
    store: &mut Store,
    sig: &mut Signature,
    scope: &mut Scope,
    place: &Place<'_>,
    first: MemberSource<'_>,
    others: &[MemberTree],
) -> Result<Elaborated, ElabFault>
    requires signature { IsSignature store.old sig.old.symbols }
    requires scopes { AreScopes store.old (length sig.old.symbols) scope.old }
    ensures ok { IfOk result (IsElaborated (setting place.now store.old sig.old scope.old)
        (member_group (member_at first.entry ∷ later_members others.now)) sig.old store.new sig.new
        scope.new) }
    ensures kept { IfOk result (IsKept store.new sig.new scope.new) }
    ensures err { IfErr result (IsRefusal (setting place.now store.old sig.old scope.old)
        (member_group (member_at first.entry ∷ later_members others.now))) }
    ensures grows { Grows store.old store.new }
{
    let mut list = Vec::new(alloc);
    list.push(first)?;
    gather_members(&mut list, others)?;
    elaborate_group(alloc, store, sig, scope, place, list.as_slice())
}

/// The declarations, the entries, the names and the matches of a declaration, or its first fault. `theory` is the path of its
/// theory, `within` has the names of the open scopes, each followed by a dot, and `at` is its number, which faults carry. It is
/// no `use`, `clone` or `scope`.
///
/// After `Ok` the signature has its earlier entries, then those of the tuples of new widths by first appearance, of what the
/// declaration makes, and of the type variables of a lemma or a goal; the innermost scope has the names that it makes. After a
/// refusal the signature and the scope are used no more.
pub fn elaborate(
    alloc: Global,
    store: &mut Store,
    sig: &mut Signature,
    scope: &mut Scope,
    theory: &[u8],
    within: &[u8],
    decl: &DeclTree,
    at: usize,
) -> Result<Elaborated, ElabFault>
    requires signature { IsSignature store.old sig.old.symbols }
    requires scopes { AreScopes store.old (length sig.old.symbols) scope.old }
    requires logical { IsLogical (decl_of decl.now) }
    ensures ok { IfOk result (λ made. IfSome (declaration (decl_of decl.now))
        (λ d. IsElaborated (setting_where theory.now within.now at store.old sig.old scope.old) d
        sig.old
        store.new sig.new scope.new made)) }
    ensures kept { IfOk result (IsKept store.new sig.new scope.new) }
    ensures err { IfErr result (λ fault. IfSome (declaration (decl_of decl.now))
        (λ d. IsRefusal (setting_where theory.now within.now at store.old sig.old scope.old) d
        fault)) }
    ensures grows { Grows store.old store.new }
{
    let place = Place {
        theory,
        within,
        decl: at,
    };
    match &decl.node {
        DeclNode::TypeDecl(name, vars, ty) => {
            let vars = vars.as_slice();
            elaborate_type_declaration(alloc, store, sig, scope, &place, name, vars, ty)
        }
        DeclNode::Prop(kind, name, e) => {
            elaborate_proposition(alloc, store, sig, scope, &place, *kind, name, e)
        }
        DeclNode::Algebraic(types) => {
            let types = types.as_slice();
            elaborate_algebraic(alloc, store, sig, scope, &place, types)
        }
        DeclNode::Function(name, params, ty, body, others) => {
            let params = params.as_slice();
            let others = others.as_slice();
            let first = head_member(name, params, Some(ty), body);
            elaborate_members(alloc, store, sig, scope, &place, first, others)
        }
        DeclNode::Predicate(name, params, body, others) => {
            let params = params.as_slice();
            let others = others.as_slice();
            let first = head_member(name, params, None, body);
            elaborate_members(alloc, store, sig, scope, &place, first, others)
        }
        DeclNode::Constant(name, ty, body) => {
            let first = head_member(name, &[], Some(ty), body);
            elaborate_members(alloc, store, sig, scope, &place, first, &[])
        }
        DeclNode::Inductive(inductives) => {
            let inductives = inductives.as_slice();
            elaborate_inductives(alloc, store, sig, scope, &place, inductives)
        }
        DeclNode::UseTheory(_, _, _) => unreachable!(),
        DeclNode::CloneTheory(_, _, _, _) => unreachable!(),
        DeclNode::ScopeDecl(_, _) => unreachable!(),
    }
}

/// The signature that has the type `int` alone.
pub fn begin(alloc: Global) -> Result<Signature, AllocError>
    ensures kept { IfOk result (λ sig. (s : List Tree) → IsSignature s sig.symbols) }
    ensures int { IfOk result (λ sig. (s : List Tree) → symbols_at s sig.symbols
        ≡ int_symbol ∷ []) }
    ensures ints { IfOk result (λ sig. sig.ints ≡ None) }
{
    let mut symbols = Seq::new(alloc);
    symbols.push(SymbolInfo {
        theory: Text::from_slice(alloc, b"BuiltIn")?,
        name: Text::from_slice(alloc, b"int")?,
        kind: SymbolKind::Kind,
        vars: 0,
        args: Seq::new(alloc),
        result: None,
    })?;
    Ok(Signature {
        symbols,
        ints: None,
    })
}

/// A scope without names, in which each name stands for what it may. It does nothing when it runs.
pub fn no_names(scope: &Scope)
    requires { scope.now ≡ empty_names }
    ensures { (s : List Tree) (count : ℕ) → AreScopes s count scope.now }
{
    let _ = scope;
}

/// Whether a declaration is no `use`, `clone` or `scope`.
pub fn is_logical(decl: &DeclTree) -> bool
    ensures { IsTrue result ↔ IsLogical (decl_of decl.now) }
{
    match &decl.node {
        DeclNode::TypeDecl(_, _, _) => true,
        DeclNode::Prop(_, _, _) => true,
        DeclNode::Function(_, _, _, _, _) => true,
        DeclNode::Predicate(_, _, _, _) => true,
        DeclNode::Constant(_, _, _) => true,
        DeclNode::Algebraic(_) => true,
        DeclNode::Inductive(_) => true,
        DeclNode::UseTheory(_, _, _) => false,
        DeclNode::CloneTheory(_, _, _, _) => false,
        DeclNode::ScopeDecl(_, _) => false,
    }
}
