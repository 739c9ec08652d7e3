// Entries of a signature: type symbols, constructors with their projections, and tuples.
// They depend on signatures and types; each kind of declaration enters what it makes by them.
ghost use Rattle.std.specs.Prelude.{◌≡◌, ◌+◌, ◌<◌, ◌^◌, ◌++◌, ◌∷◌, [], ℕ, List, length, All, IfOk, OnOk};
ghost use Rattle.std.specs.Fmt.{decimal};
ghost use Rattle.tasks.specs.trees.Tree.{Tree};
ghost use Rattle.tasks.specs.trees.Node.{tree_at, Grows};
ghost use Rattle.tasks.specs.trees.Facts.{TyVarsBelow};
ghost use Rattle.tasks.specs.Meaning.{symbol_at, symbols_at, trees_at};
ghost use Rattle.tasks.specs.Equations.{type_variables};
ghost use Rattle.tasks.specs.Vocabulary.{is_constructor_kind};
ghost use Rattle.open_types.specs.Scoped.{IsScopedEntry};
ghost use Rattle.open_types.specs.Drafts.{HoldsType, SymbolTyped};
ghost use Rattle.elab_groups.specs.parts.Entries.{type_entry, first_word, other_words, field_name, field_entry, field_entries, named_entries, tuple_entries, is_tuple, tuple_in, wanting_tuple, wanting_tuples, IsSignature, IsExtended};

use open_types::list_of;
use scopes::{Seq, Text};
use std::alloc::{AllocError, Global};
use tasks::{Grow, Node, Signature, Store, SymbolInfo, SymbolKind, TermId, tuple_among};

/// A word after another.
pub fn join_words(alloc: Global, first: &[u8], second: &[u8]) -> Result<Text, AllocError>
    ensures { IfOk result (λ it. it ≡ first.now ++ second.now) }
{
    let mut text = Vec::from_slice(alloc, first)?;
    text.extend_from_slice(second)?;
    Ok(Text::from_vec(text))
}

// A word before the digits of a number.
fn numbered_word(alloc: Global, word: &[u8], number: usize) -> Result<Text, AllocError>
    ensures { IfOk result (λ it. it ≡ word.now ++ decimal number) }
{
    let digits = number.to_string(alloc)?;
    join_words(alloc, word, digits.as_bytes())
}

/// A further entry.
pub fn push_entry(store: &Store, sig: &mut Signature, info: SymbolInfo) -> Result<(), AllocError>
    requires signature { IsSignature store.now sig.old.symbols }
    requires typed { SymbolTyped store.now info }
    requires scoped { IsScopedEntry (symbol_at store.now info) }
    ensures { OnOk result (IsExtended store.now sig.old store.now sig.new
        (symbol_at store.now info ∷ [])) }
{
    let _ = store;
    sig.symbols.push(info)
}

/// The entry of a type symbol.
pub fn push_type(
    alloc: Global,
    store: &Store,
    sig: &mut Signature,
    theory: &[u8],
    name: Text,
    vars: usize,
) -> Result<(), AllocError>
    requires signature { IsSignature store.now sig.old.symbols }
    ensures { OnOk result (IsExtended store.now sig.old store.now sig.new
        (type_entry theory.now name vars ∷ [])) }
{
    let info = SymbolInfo {
        theory: Text::from_slice(alloc, theory)?,
        name,
        kind: SymbolKind::Kind,
        vars,
        args: Seq::new(alloc),
        result: None,
    };
    push_entry(store, sig, info)
}

/// A constructor that is entered: the path of its theory, the names of its scopes, its own name, and its type with so many type
/// variables.
#[derive(Clone, Copy)]
pub struct NewConstructor<'a> {
    pub theory: &'a [u8],
    pub within: &'a [u8],
    pub name: &'a [u8],
    pub vars: usize,
    pub ty: TermId,
}

// The name of the projection of a number, to a field with this word or, where that is empty, without a name.
fn name_field(
    alloc: Global,
    of: &NewConstructor<'_>,
    number: usize,
    word: &[u8],
) -> Result<Text, AllocError>
    ensures { IfOk result (λ it. it ≡ field_name of.now.within.now of.now.name.now number
        word.now) }
{
    if let [_, ..] = word {
        return join_words(alloc, of.within, word);
    }
    let whole = join_words(alloc, of.within, of.name)?;
    let quoted = join_words(alloc, whole.as_slice(), b"'")?;
    numbered_word(alloc, quoted.as_slice(), number)
}

// The entry of the projection of a number.
fn push_projection(
    alloc: Global,
    store: &Store,
    sig: &mut Signature,
    of: &NewConstructor<'_>,
    number: usize,
    word: &[u8],
    field: TermId,
) -> Result<(), AllocError>
    requires signature { IsSignature store.now sig.old.symbols }
    requires ty { HoldsType store.now of.now.ty }
    requires ty_below { TyVarsBelow of.now.vars (tree_at store.now of.now.ty) }
    requires field { HoldsType store.now field }
    requires field_below { TyVarsBelow of.now.vars (tree_at store.now field) }
    ensures { OnOk result (IsExtended store.now sig.old store.now sig.new
        (field_entry of.now.theory.now of.now.within.now of.now.name.now of.now.vars
        (tree_at store.now of.now.ty) number word.now (tree_at store.now field) ∷ [])) }
{
    let mut args = Seq::new(alloc);
    args.push(of.ty)?;
    let info = SymbolInfo {
        theory: Text::from_slice(alloc, of.theory)?,
        name: name_field(alloc, of, number, word)?,
        kind: SymbolKind::Projection,
        vars: of.vars,
        args,
        result: Some(field),
    };
    push_entry(store, sig, info)
}

// The first word, which is empty where there is none, and the others.
fn split_words(words: &[Text]) -> (&[u8], &[Text])
    ensures first { result.0.now ≡ first_word words.now }
    ensures others { result.1.now ≡ other_words words.now }
{
    match words.split_first() {
        Some((word, others)) => (word.as_slice(), others),
        None => (&[], &[]),
    }
}

// The entries of the projections to some fields with these words, from the one of a number on.
fn push_projections(
    alloc: Global,
    store: &Store,
    sig: &mut Signature,
    of: &NewConstructor<'_>,
    number: usize,
    words: &[Text],
    fields: &[TermId],
) -> Result<(), AllocError>
    requires signature { IsSignature store.now sig.old.symbols }
    requires ty { HoldsType store.now of.now.ty }
    requires ty_below { TyVarsBelow of.now.vars (tree_at store.now of.now.ty) }
    requires fields { All (HoldsType store.now) fields.now }
    requires fields_below { All (TyVarsBelow of.now.vars) (trees_at store.now fields.now) }
    requires count { number + length fields.now < 2 ^ 64 }
    ensures { OnOk result (IsExtended store.now sig.old store.now sig.new
        (field_entries of.now.theory.now of.now.within.now of.now.name.now of.now.vars
        (tree_at store.now of.now.ty) number words.now (trees_at store.now fields.now))) }
{
    let Some((field, rest)) = fields.split_first() else {
        return Ok(());
    };
    let (word, others) = split_words(words);
    push_projection(alloc, store, sig, of, number, word, *field)?;
    push_projections(alloc, store, sig, of, number + 1, others, rest)
}

/// The entry of a constructor of a type, and those of its projections, to fields with these words; a field without a name has an
/// empty one, or none.
pub fn push_constructor(
    alloc: Global,
    store: &Store,
    sig: &mut Signature,
    of: &NewConstructor<'_>,
    words: &[Text],
    fields: &[TermId],
) -> Result<(), AllocError>
    requires signature { IsSignature store.now sig.old.symbols }
    requires ty { HoldsType store.now of.now.ty }
    requires ty_below { TyVarsBelow of.now.vars (tree_at store.now of.now.ty) }
    requires fields { All (HoldsType store.now) fields.now }
    requires fields_below { All (TyVarsBelow of.now.vars) (trees_at store.now fields.now) }
    ensures { OnOk result (IsExtended store.now sig.old store.now sig.new
        (named_entries of.now.theory.now of.now.within.now of.now.name.now of.now.vars
        (tree_at store.now of.now.ty) words.now (trees_at store.now fields.now))) }
{
    let info = SymbolInfo {
        theory: Text::from_slice(alloc, of.theory)?,
        name: join_words(alloc, of.within, of.name)?,
        kind: SymbolKind::Constructor,
        vars: of.vars,
        args: Seq::from_slice(alloc, fields)?,
        result: Some(of.ty),
    };
    push_entry(store, sig, info)?;
    push_projections(alloc, store, sig, of, 1, words, fields)
}

/// The first type variables.
pub fn variables(alloc: Global, store: &mut Store, count: usize) -> Result<Vec<TermId>, AllocError>
    ensures held { IfOk result (λ types. All (HoldsType store.new) types.items) }
    ensures trees { IfOk result (λ types. trees_at store.new types.items ≡ type_variables 0 count) }
    ensures grows { Grows store.old store.new }
{
    let mut types = Vec::new(alloc);
    for number in 0..count {
        let ty = store.add(Node::TyVar(number))?;
        types.push(ty)?;
    }
    Ok(types)
}

// The entries of the tuples of a width.
fn push_tuple(
    alloc: Global,
    store: &mut Store,
    sig: &mut Signature,
    width: usize,
) -> Result<(), AllocError>
    requires { IsSignature store.old sig.old.symbols }
    ensures entries { OnOk result (IsExtended store.old sig.old store.new sig.new
        (tuple_entries (length sig.old.symbols) width)) }
    ensures grows { Grows store.old store.new }
{
    let number = sig.symbols.len();
    let name = numbered_word(alloc, b"tuple", width)?;
    push_type(alloc, store, sig, b"BuiltIn", name, width)?;
    let types = variables(alloc, store, width)?;
    let list = list_of(store, types.as_slice())?;
    let ty = store.add(Node::TyApp(number, list))?;
    let name = numbered_word(alloc, b"Tuple", width)?;
    let constructor = NewConstructor {
        theory: b"BuiltIn",
        within: &[],
        name: name.as_slice(),
        vars: width,
        ty,
    };
    push_constructor(alloc, store, sig, &constructor, &[], types.as_slice())
}

// The entries of the tuples of a width, where its constructor isn't there.
fn push_width(
    alloc: Global,
    store: &mut Store,
    sig: &mut Signature,
    width: usize,
) -> Result<(), AllocError>
    requires { IsSignature store.old sig.old.symbols }
    ensures entries { OnOk result (IsExtended store.old sig.old store.new sig.new
        (wanting_tuple (symbols_at store.old sig.old.symbols) width
        (tuple_in (symbols_at store.old sig.old.symbols) width))) }
    ensures grows { Grows store.old store.new }
{
    match tuple_among(sig.symbols.as_slice(), width) {
        Some(_) => Ok(()),
        None => push_tuple(alloc, store, sig, width),
    }
}

/// The entries of the tuples of those of some widths whose constructors aren't there.
pub fn push_tuples(
    alloc: Global,
    store: &mut Store,
    sig: &mut Signature,
    widths: &[usize],
) -> Result<(), AllocError>
    requires { IsSignature store.old sig.old.symbols }
    ensures entries { OnOk result (IsExtended store.old sig.old store.new sig.new
        (wanting_tuples (symbols_at store.old sig.old.symbols) widths.now)) }
    ensures grows { Grows store.old store.new }
{
    let Some((first, rest)) = widths.split_first() else {
        return Ok(());
    };
    push_width(alloc, store, sig, *first)?;
    push_tuples(alloc, store, sig, rest)
}
