// The entries of a group: of its types, and of their constructors with their projections.
ghost use Rattle.std.specs.Prelude.{◌≡◌, ◌∷◌, [], List, All, length, map, IfOk, OnOk};
ghost use Rattle.trees.specs.Tree.{Tree};
ghost use Rattle.trees.specs.Node.{tree_at, Grows};
ghost use Rattle.trees.specs.Facts.{TyVarsBelow};
ghost use Rattle.tasks.specs.Meaning.{con_at, cons_at, algebraics_at};
ghost use Rattle.tasks.specs.Valid.{own_type};
ghost use Rattle.open_types.specs.Drafts.{HoldsType};
ghost use Rattle.surface.specs.SurfaceDeclarations.{param_of};
ghost use Rattle.elab_groups.specs.members.Members.{words_of_parameters};
ghost use Rattle.elab_groups.specs.members.Sources.{parameters_of};
ghost use Rattle.elab_groups.specs.parts.Declarations.{record_constructor};
ghost use Rattle.elab_groups.specs.parts.Entries.{named_entries, IsSignature, IsExtended};
ghost use Rattle.elab_declarations.specs.type_declarations.Algebraics.{constructors_in, constructors_of, algebraics_of, type_entries, constructors_entries, group_entries};
ghost use Rattle.elab_declarations.specs.type_declarations.Held.{ConTyped, AlgTyped, AreConsWithin, AreWithin};

use elab_groups::members::push_param_names;
use elab_groups::parts::{
    NewConstructor, Place, join_words, push_constructor, push_type, variables,
};
use open_types::list_of;
use std::alloc::{AllocError, Global};
use surface::{AlgTree, ConTree, ParamTree};
use tasks::{Alg, Con, Signature};
use trees::store::{Grow, Node, Store, TermId};

/// The entries of the types.
pub fn push_type_entries(
    alloc: Global,
    store: &Store,
    sig: &mut Signature,
    place: &Place<'_>,
    types: &[AlgTree],
) -> Result<(), AllocError>
    requires { IsSignature store.now sig.old.symbols }
    ensures { OnOk result (IsExtended store.now sig.old store.now sig.new (type_entries
        place.now.theory.now place.now.within.now (algebraics_of types.now))) }
{
    let Some((first, rest)) = types.split_first() else {
        return Ok(());
    };
    let name = join_words(alloc, place.within, first.name.text.as_slice())?;
    push_type(alloc, store, sig, place.theory, name, first.vars.len())?;
    push_type_entries(alloc, store, sig, place, rest)
}

// The type of a number at its own type variables.
fn own_type(
    alloc: Global,
    store: &mut Store,
    symbol: usize,
    vars: usize,
) -> Result<TermId, AllocError>
    ensures held { IfOk result (HoldsType store.new) }
    ensures tree { IfOk result (λ id. tree_at store.new id ≡ own_type symbol vars) }
    ensures grows { Grows store.old store.new }
{
    let types = variables(alloc, store, vars)?;
    let list = list_of(store, types.as_slice())?;
    store.add(Node::TyApp(symbol, list))
}

// The entry of a constructor with these fields, and those of its projections.
fn push_with_fields(
    alloc: Global,
    store: &Store,
    sig: &mut Signature,
    of: &NewConstructor<'_>,
    fields: &[ParamTree],
    con: &Con,
) -> Result<(), AllocError>
    requires signature { IsSignature store.now sig.old.symbols }
    requires ty { HoldsType store.now of.now.ty }
    requires ty_below { TyVarsBelow of.now.vars (tree_at store.now of.now.ty) }
    requires typed { ConTyped store.now con.now }
    requires below { All (TyVarsBelow of.now.vars) (con_at store.now con.now).fields }
    ensures { OnOk result (IsExtended store.now sig.old store.now sig.new (named_entries
        of.now.theory.now of.now.within.now of.now.name.now of.now.vars
        (tree_at store.now of.now.ty) (words_of_parameters (parameters_of fields.now))
        (con_at store.now con.now).fields)) }
{
    let mut words = Vec::new(alloc);
    push_param_names(alloc, &mut words, fields)?;
    push_constructor(
        alloc,
        store,
        sig,
        of,
        words.as_slice(),
        con.fields.as_slice(),
    )
}

// The entries of a record's constructor and its projections.
fn push_record_entries(
    alloc: Global,
    store: &Store,
    sig: &mut Signature,
    place: &Place<'_>,
    ty: TermId,
    source: &AlgTree,
    cons: &[Con],
) -> Result<(), AllocError>
    requires signature { IsSignature store.now sig.old.symbols }
    requires ty { HoldsType store.now ty }
    requires ty_below { TyVarsBelow (length source.now.vars) (tree_at store.now ty) }
    requires typed { All (ConTyped store.now) cons.now }
    requires below { AreConsWithin (length source.now.vars) (cons_at store.now cons.now) }
    ensures { OnOk result (IsExtended store.now sig.old store.now sig.new (constructors_entries
        place.now.theory.now place.now.within.now (length source.now.vars) (tree_at store.now ty)
        (record_constructor source.now.name.text (map param_of source.now.fields) ∷ [])
        (cons_at store.now cons.now))) }
{
    let Some((con, _)) = cons.split_first() else {
        return Ok(());
    };
    let name = join_words(alloc, b"mk_", source.name.text.as_slice())?;
    let of = NewConstructor {
        theory: place.theory,
        within: place.within,
        name: name.as_slice(),
        vars: source.vars.len(),
        ty,
    };
    push_with_fields(alloc, store, sig, &of, source.fields.as_slice(), con)
}

// The entries of constructors of a type, each before its projections.
fn push_constructor_entries(
    alloc: Global,
    store: &Store,
    sig: &mut Signature,
    place: &Place<'_>,
    vars: usize,
    ty: TermId,
    sources: &[ConTree],
    cons: &[Con],
) -> Result<(), AllocError>
    requires signature { IsSignature store.now sig.old.symbols }
    requires ty { HoldsType store.now ty }
    requires ty_below { TyVarsBelow vars (tree_at store.now ty) }
    requires typed { All (ConTyped store.now) cons.now }
    requires below { AreConsWithin vars (cons_at store.now cons.now) }
    ensures { OnOk result (IsExtended store.now sig.old store.now sig.new (constructors_entries
        place.now.theory.now place.now.within.now vars (tree_at store.now ty) (constructors_of
        sources.now) (cons_at store.now cons.now))) }
{
    let Some((first, rest)) = sources.split_first() else {
        return Ok(());
    };
    let Some((con, others)) = cons.split_first() else {
        return Ok(());
    };
    let of = NewConstructor {
        theory: place.theory,
        within: place.within,
        name: first.name.text.as_slice(),
        vars,
        ty,
    };
    push_with_fields(alloc, store, sig, &of, first.fields.as_slice(), con)?;
    push_constructor_entries(alloc, store, sig, place, vars, ty, rest, others)
}

// The entries of the constructors of a type, each before its projections.
fn push_type_constructors(
    alloc: Global,
    store: &mut Store,
    sig: &mut Signature,
    place: &Place<'_>,
    source: &AlgTree,
    alg: &Alg,
) -> Result<(), AllocError>
    requires signature { IsSignature store.old sig.old.symbols }
    requires typed { AlgTyped store.old alg.now }
    requires below { AreConsWithin (length source.now.vars) (cons_at store.old alg.now.cons) }
    ensures entries { OnOk result (IsExtended store.old sig.old store.new sig.new
        (constructors_entries place.now.theory.now place.now.within.now (length source.now.vars)
        (own_type alg.now.symbol (length source.now.vars)) (constructors_in source.now)
        (cons_at store.old alg.now.cons))) }
    ensures grows { Grows store.old store.new }
{
    let vars = source.vars.len();
    let ty = own_type(alloc, store, alg.symbol, vars)?;
    let cons = alg.cons.as_slice();
    if let [_, ..] = source.fields.as_slice() {
        return push_record_entries(alloc, store, sig, place, ty, source, cons);
    }
    let sources = source.cons.as_slice();
    push_constructor_entries(alloc, store, sig, place, vars, ty, sources, cons)
}

/// The entries of the constructors of types, each before its projections.
pub fn push_entries(
    alloc: Global,
    store: &mut Store,
    sig: &mut Signature,
    place: &Place<'_>,
    sources: &[AlgTree],
    types: &[Alg],
) -> Result<(), AllocError>
    requires signature { IsSignature store.old sig.old.symbols }
    requires typed { All (AlgTyped store.old) types.now }
    requires below { AreWithin (algebraics_of sources.now) (algebraics_at store.old types.now) }
    ensures entries { OnOk result (IsExtended store.old sig.old store.new sig.new (group_entries
        place.now.theory.now place.now.within.now (algebraics_of sources.now)
        (algebraics_at store.old types.now))) }
    ensures grows { Grows store.old store.new }
{
    let Some((first, rest)) = sources.split_first() else {
        return Ok(());
    };
    let Some((alg, others)) = types.split_first() else {
        return Ok(());
    };
    push_type_constructors(alloc, store, sig, place, first, alg)?;
    push_entries(alloc, store, sig, place, rest, others)
}
