// The declarations of a theory that elements of a clone may name, found by a kind and a name.
// They depend on names and signatures; the elements depend on them.
ghost use Rattle.std.specs.Prelude.{◌≡◌, ℕ, ◌++◌, List, IfOk, OnOk, None, option_map};
ghost use Rattle.tasks.specs.trees.Tree.{Tree};
ghost use Rattle.tasks.specs.Meaning.{symbols_at, body_at, declaration_at};
ghost use Rattle.surface.specs.Surface.{own_of, called_of};
ghost use Rattle.surface.specs.SurfaceDeclarations.{element_by};
ghost use Rattle.name_resolution.specs.Abstract.{text_of_own};
ghost use Rattle.clones.specs.clone_elements.Left.{dotted, called_text, key, left_key, kind_of_symbol, kind_of_word, kind_of_body, element_key, place_after, last_place, place_by};
ghost use Rattle.clones.specs.clone_elements.Origins.{origin_at, place_at};

use indexmap::IndexMap;
use name_resolution::own_name;
use std::alloc::{AllocError, Global};
use std::collections::HashMap;
use surface::{ElemNode, QName, SymbolWord};
use tasks::{Body, Decl, Seq, Signature, SymbolKind, Text};

/// What elements name: abstract types, functions and predicates, and axioms.
#[derive(Clone, Copy)]
pub enum Abstract {
    Type,
    Function,
    Predicate,
    Axiom,
}

/// The theory that is cloned: all declarations, the places of its own ones in order, and the places of its axioms, each with the
/// names of its type variables.
#[derive(Clone, Copy)]
pub struct ClonedTheory<'a> {
    pub decls: &'a [Decl],
    pub own: &'a [usize],
    pub axioms: &'a IndexMap<usize, Seq<Text>>,
}

/// The places of the declarations that elements may name, by the letter of a kind before a name.
#[derive(Drop)]
pub struct LeftNames {
    pub places: HashMap<Vec<u8>, usize>,
}

// The letter of a kind before a name.
fn key(alloc: Global, kind: Abstract, name: &[u8]) -> Result<Vec<u8>, AllocError>
    ensures { IfOk result (λ v. v.items ≡ key kind name.now) }
{
    let letter = match kind {
        Abstract::Type => b't',
        Abstract::Function => b'f',
        Abstract::Predicate => b'p',
        Abstract::Axiom => b'a',
    };
    let mut bytes = Vec::new(alloc);
    bytes.push(letter)?;
    bytes.extend_from_slice(name)?;
    Ok(bytes)
}

fn kind_of_symbol(kind: SymbolKind) -> Option<Abstract>
    ensures { result ≡ kind_of_symbol kind }
{
    match kind {
        SymbolKind::Kind => None,
        SymbolKind::Predicate => Some(Abstract::Predicate),
        SymbolKind::Function => Some(Abstract::Function),
        SymbolKind::Constructor => Some(Abstract::Function),
        SymbolKind::Projection => Some(Abstract::Function),
    }
}

// What a declaration may be replaced as.
fn kind_of_body(sig: &Signature, assumed: bool, body: &Body) -> Option<Abstract>
    ensures { (s : List Tree) → result
        ≡ kind_of_body (symbols_at s sig.now.symbols) assumed (body_at s body.now) }
{
    match body {
        Body::TypeSymbol(_) => Some(Abstract::Type),
        Body::Symbol(symbol) => match sig.symbols.get(*symbol) {
            Some(info) => kind_of_symbol(info.kind),
            None => None,
        },
        Body::Prop(_) => { if assumed { Some(Abstract::Axiom) } else { None } }
        _ => None,
    }
}

// The key of a declaration, where an element may name it.
fn key_of(
    alloc: Global,
    sig: &Signature,
    assumed: bool,
    decl: &Decl,
) -> Result<Option<Vec<u8>>, AllocError>
    ensures { IfOk result (λ o. (s : List Tree) → option_map (λ v. v.items) o
        ≡ left_key (symbols_at s sig.now.symbols) assumed (declaration_at s decl.now)) }
{
    match kind_of_body(sig, assumed, &decl.body) {
        Some(kind) => {
            let bytes = key(alloc, kind, decl.name.as_slice())?;
            Ok(Some(bytes))
        }
        None => Ok(None),
    }
}

// Names of scopes and a last name, joined by dots, after other bytes.
fn push_dotted(bytes: &mut Vec<u8>, scopes: &[Text], name: &[u8]) -> Result<(), AllocError>
    ensures { OnOk result (bytes.new.items ≡ bytes.old.items ++ dotted scopes.now name.now) }
{
    match scopes.split_first() {
        Some((first, rest)) => {
            bytes.extend_from_slice(first.as_slice())?;
            bytes.push(b'.')?;
            push_dotted(bytes, rest, name)
        }
        None => bytes.extend_from_slice(name),
    }
}

// The key of a kind and a name in a source.
fn key_called(alloc: Global, kind: Abstract, name: &QName) -> Result<Vec<u8>, AllocError>
    ensures { IfOk result (λ v. v.items ≡ key kind (called_text (called_of name.now))) }
{
    let own = own_name(alloc, name.style, name.text.as_slice())?;
    let mut bytes = key(alloc, kind, b"".as_slice())?;
    push_dotted(&mut bytes, name.scopes.as_slice(), own.as_slice())?;
    Ok(bytes)
}

fn kind_of_word(word: SymbolWord) -> Abstract
    ensures { result ≡ kind_of_word word }
{
    match word {
        SymbolWord::Predicate => Abstract::Predicate,
        SymbolWord::Function => Abstract::Function,
        SymbolWord::Constant => Abstract::Function,
    }
}

impl LeftNames {
    /// The own declarations of a theory that elements may name. Only want of memory refuses.
    pub fn new(
        alloc: Global,
        sig: &Signature,
        source: &ClonedTheory<'_>,
    ) -> Result<LeftNames, AllocError>
        ensures { IfOk result (λ n. (s : List Tree) (x : List ℕ) → place_at n x
            ≡ last_place (symbols_at s sig.now.symbols) (origin_at s source.now) x None
            source.now.own.now) }
    {
        let mut names = LeftNames {
            places: HashMap::new(alloc),
        };
        for place in source.own {
            names.enter(alloc, sig, source, *place)?;
        }
        Ok(names)
    }

    // A further own declaration.
    fn enter(
        &mut self,
        alloc: Global,
        sig: &Signature,
        source: &ClonedTheory<'_>,
        place: usize,
    ) -> Result<(), AllocError>
        ensures { OnOk result ((s : List Tree) (x : List ℕ) → place_at self.new x
            ≡ place_after (symbols_at s sig.now.symbols) (origin_at s source.now) x
            (place_at self.old x) place) }
    {
        let assumed = source.axioms.contains_key(&place);
        let Some(decl) = source.decls.get(place) else {
            return Ok(());
        };
        if let Some(bytes) = key_of(alloc, sig, assumed, decl)? {
            self.places.insert(bytes, place)?;
        }
        Ok(())
    }

    // The place that a key has.
    fn place(
        &self,
        alloc: Global,
        kind: Abstract,
        name: &QName,
    ) -> Result<Option<usize>, AllocError>
        ensures { IfOk result (λ o. o ≡ place_at self.now (key kind (called_text (called_of
            name.now)))) }
    {
        let bytes = key_called(alloc, kind, name)?;
        Ok(self.places.get(bytes.as_slice()).copied())
    }

    /// The place of the declaration that the left side of an element names. Only want of memory refuses.
    pub fn find_declaration(
        &self,
        alloc: Global,
        node: &ElemNode,
    ) -> Result<Option<usize>, AllocError>
        ensures { IfOk result (λ o. (token : ℕ) → o ≡ place_by (place_at self.now) (element_key
            (element_by node.now token))) }
    {
        match node {
            ElemNode::TypeElem(name, _, _) => self.place(alloc, Abstract::Type, name),
            ElemNode::SymbolElem(word, name, _) => self.place(alloc, kind_of_word(*word), name),
            ElemNode::PropElem(_, name) => self.place(alloc, Abstract::Axiom, name),
            ElemNode::AllAxioms => Ok(None),
        }
    }
}
