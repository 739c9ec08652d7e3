// The right sides of elements: types and symbols.
// They depend on the walk of names and types; the replacement of a clone depends on them.
ghost use Rattle.std.specs.Prelude.{◌≡◌, ◌++◌, ℕ, List, None, Some, false, length, map, IfOk, IfErr, OnOk, Err};
ghost use Rattle.tasks.specs.trees.Tree.{Tree};
ghost use Rattle.tasks.specs.trees.Node.{tree_at, Grows};
ghost use Rattle.tasks.specs.trees.Facts.{TyVarsBelow};
ghost use Rattle.tasks.specs.Meaning.{symbols_at};
ghost use Rattle.surface.specs.Surface.{called_of};
ghost use Rattle.surface.specs.SurfaceDeclarations.{element_of, element_by};
ghost use Rattle.name_resolution.specs.Abstract.{type_expression_of, texts_of_names};
ghost use Rattle.name_resolution.specs.Faults.{form_fault};
ghost use Rattle.name_resolution.specs.Naming.{Tells, scope_at};
ghost use Rattle.open_types.specs.Pieces.{type_at};
ghost use Rattle.open_types.specs.Drafts.{HoldsType};
ghost use Rattle.elab_groups.specs.parts.Entries.{IsSignature, IsExtended, AreScopes};
ghost use Rattle.elab_groups.specs.parts.Outcomes.{over};
ghost use Rattle.clones.specs.clone_elements.Rights.{variables_fault, all_variables_fault, type_tuples, called_symbol, symbol_missing, right_fault, right_tuples, right_made, IsWithin};
ghost use Rattle.clones.specs.clone_elements.Meaning.{right_at, RightHeld};

use elab_groups::parts::{find_repeated, gather, push_tuples, texts_of, world_over};
use name_resolution::variables::{Seen, enter_form};
use name_resolution::{NamingFault, Scope, Table, check_form, own_name};
use open_types::type_of_form;
use std::alloc::{AllocError, Global};
use surface::{ElemNode, ElemTree, Name, QName, TypeTree};
use tasks::{Seq, Signature, Store, TermId, Text};

/// What is on the right of an element: a type, a symbol, or nothing.
#[derive(Clone, Copy)]
pub enum Right {
    Type(TermId),
    Symbol(usize),
    Nothing,
}

// The second of two equal type variables of an element.
fn check_element_variables(alloc: Global, node: &ElemNode) -> Result<(), NamingFault>
    ensures { (token : ℕ) → Tells result (variables_fault (element_by node.now token)) }
{
    match node {
        ElemNode::TypeElem(_, vars, _) => {
            let mut list = Vec::new(alloc);
            gather(&mut list, vars.as_slice())?;
            match find_repeated(list.as_slice()) {
                Some(token) => Err(NamingFault::Duplicate { token }),
                None => Ok(()),
            }
        }
        _ => Ok(()),
    }
}

/// The first type variable that occurs twice in one element is a fault at its second place.
pub fn check_variables(alloc: Global, elements: &[ElemTree]) -> Result<(), NamingFault>
    ensures { Tells result (all_variables_fault (map element_of elements.now)) }
{
    let Some((first, rest)) = elements.split_first() else {
        return Ok(());
    };
    check_element_variables(alloc, &first.node)?;
    check_variables(alloc, rest)
}

// The first fault of the names of a type with these type variables.
fn check_type(
    alloc: Global,
    sig: &Signature,
    scope: &Scope,
    vars: &[Text],
    ty: &TypeTree,
) -> Result<(), NamingFault>
    ensures { (s : List Tree) → Tells result (form_fault
        (over (symbols_at s sig.now.symbols) (scope_at s scope.now) vars.now) false
        (type_expression_of ty.now)) }
{
    let world = world_over(sig, scope, vars, false);
    check_form(alloc, ty, &world)
}

// The entries of the tuples of a type, after those of the signature.
fn enter_tuples(
    alloc: Global,
    store: &mut Store,
    sig: &mut Signature,
    ty: &TypeTree,
) -> Result<(), AllocError>
    requires { IsSignature store.old sig.old.symbols }
    ensures entries { OnOk result (IsExtended store.old sig.old store.new sig.new
        (type_tuples (symbols_at store.old sig.old.symbols) (type_expression_of ty.now))) }
    ensures grows { Grows store.old store.new }
{
    let mut seen = Seen {
        vars: Seq::new(alloc),
        widths: Seq::new(alloc),
    };
    enter_form(alloc, &mut seen, ty)?;
    push_tuples(alloc, store, sig, seen.widths.as_slice())
}

// The type that a form stands for with these type variables, and the entries of its tuples.
fn make_type(
    alloc: Global,
    store: &mut Store,
    sig: &mut Signature,
    scope: &Scope,
    vars: &[Text],
    ty: &TypeTree,
) -> Result<TermId, AllocError>
    requires signature { IsSignature store.old sig.old.symbols }
    requires scopes { AreScopes store.old (length sig.old.symbols) scope.now }
    ensures entries { OnOk result (IsExtended store.old sig.old store.new sig.new
        (type_tuples (symbols_at store.old sig.old.symbols) (type_expression_of ty.now))) }
    ensures held { IfOk result (HoldsType store.new) }
    ensures tree { IfOk result (λ id. tree_at store.new id ≡ type_at
        (over (symbols_at store.old sig.old.symbols ++ type_tuples
        (symbols_at store.old sig.old.symbols) (type_expression_of ty.now))
        (scope_at store.old scope.now) vars.now) (type_expression_of ty.now)) }
    ensures below { IfOk result (λ id. form_fault
        (over (symbols_at store.old sig.old.symbols) (scope_at store.old scope.now) vars.now) false
        (type_expression_of ty.now) ≡ None → TyVarsBelow (length vars.now) (tree_at store.new id)) }
    ensures grows { Grows store.old store.new }
{
    enter_tuples(alloc, store, sig, ty)?;
    let world = world_over(sig, scope, vars, false);
    type_of_form(alloc, store, &world, ty)
}

// The type on the right of an element.
fn right_type(
    alloc: Global,
    store: &mut Store,
    sig: &mut Signature,
    scope: &Scope,
    vars: &[Name],
    ty: &TypeTree,
) -> Result<TermId, NamingFault>
    requires signature { IsSignature store.old sig.old.symbols }
    requires scopes { AreScopes store.old (length sig.old.symbols) scope.now }
    ensures entries { OnOk result (IsExtended store.old sig.old store.new sig.new
        (type_tuples (symbols_at store.old sig.old.symbols) (type_expression_of ty.now))) }
    ensures held { IfOk result (HoldsType store.new) }
    ensures tree { IfOk result (λ id. tree_at store.new id ≡ type_at
        (over (symbols_at store.old sig.old.symbols ++ type_tuples
        (symbols_at store.old sig.old.symbols) (type_expression_of ty.now))
        (scope_at store.old scope.now) (texts_of_names vars.now)) (type_expression_of ty.now)) }
    ensures below { IfOk result (λ id. TyVarsBelow (length vars.now) (tree_at store.new id)) }
    ensures free { OnOk result (form_fault (over (symbols_at store.old sig.old.symbols)
        (scope_at store.old scope.now) (texts_of_names vars.now)) false (type_expression_of ty.now)
        ≡ None) }
    ensures err { IfErr result (λ fault. Tells (Err fault) (form_fault
        (over (symbols_at store.old sig.old.symbols) (scope_at store.old scope.now)
        (texts_of_names vars.now)) false (type_expression_of ty.now))) }
    ensures grows { Grows store.old store.new }
{
    let vars = texts_of(alloc, vars)?;
    check_type(alloc, sig, scope, vars.as_slice(), ty)?;
    let id = make_type(alloc, store, sig, scope, vars.as_slice(), ty)?;
    Ok(id)
}

// The symbol on the right of an element.
fn right_symbol(alloc: Global, scope: &Scope, name: &QName) -> Result<usize, NamingFault>
    ensures found { IfOk result (λ k. (s : List Tree) → called_symbol (scope_at s scope.now)
        (called_of name.now) ≡ Some k) }
    ensures err { IfErr result (λ fault. (s : List Tree) → Tells (Err fault) (symbol_missing
        name.now.at (called_symbol (scope_at s scope.now) (called_of name.now)))) }
{
    let own = own_name(alloc, name.style, name.text.as_slice())?;
    match scope.look_at(Table::Symbols, name.scopes.as_slice(), own.as_slice()) {
        Some(symbol) => Ok(symbol),
        None => Err(NamingFault::Unknown { token: name.at }),
    }
}

/// What is on the right of an element, and the entries of the tuples of its type; or its first fault of names.
pub fn right_side(
    alloc: Global,
    store: &mut Store,
    sig: &mut Signature,
    scope: &Scope,
    node: &ElemNode,
) -> Result<Right, NamingFault>
    requires signature { IsSignature store.old sig.old.symbols }
    requires scopes { AreScopes store.old (length sig.old.symbols) scope.now }
    ensures entries { OnOk result ((token : ℕ) → IsExtended store.old sig.old store.new sig.new
        (right_tuples (symbols_at store.old sig.old.symbols) (element_by node.now token))) }
    ensures held { IfOk result (RightHeld store.new) }
    ensures made { IfOk result (λ it. (token : ℕ) → right_at store.new it ≡ right_made
        (symbols_at store.old sig.old.symbols) (scope_at store.old scope.now)
        (element_by node.now token)) }
    ensures within { IfOk result (λ it. (token : ℕ) → IsWithin (element_by node.now token)
        (right_at store.new it)) }
    ensures free { OnOk result ((token : ℕ) → right_fault (symbols_at store.old sig.old.symbols)
        (scope_at store.old scope.now) (element_by node.now token) ≡ None) }
    ensures err { IfErr result (λ fault. (token : ℕ) → Tells (Err fault) (right_fault
        (symbols_at store.old sig.old.symbols) (scope_at store.old scope.now)
        (element_by node.now token))) }
    ensures grows { Grows store.old store.new }
{
    match node {
        ElemNode::TypeElem(_, vars, ty) => {
            let id = right_type(alloc, store, sig, scope, vars.as_slice(), ty)?;
            Ok(Right::Type(id))
        }
        ElemNode::SymbolElem(_, _, name) => {
            let symbol = right_symbol(alloc, scope, name)?;
            Ok(Right::Symbol(symbol))
        }
        ElemNode::PropElem(_, _) => Ok(Right::Nothing),
        ElemNode::AllAxioms => Ok(Right::Nothing),
    }
}
