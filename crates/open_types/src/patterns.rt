// Patterns: their trees over unknowns, what they note, and their variables.
// They depend on drafts, on uses and on types; the walk of branches depends on them.
ghost use Rattle.std.specs.Prelude.{◌≡◌, ◌≤◌, ℕ, List, IfOk, OnOk, [], ◌∷◌, ◌++◌, Some, length, map, reverse, slice_set, All};
ghost use Rattle.trees.specs.Tree.{Tree};
ghost use Rattle.trees.specs.Node.{tree_at, Grows};
ghost use Rattle.tasks.specs.Meaning.{symbols_at, trees_at};
ghost use Rattle.name_resolution.specs.Abstract.{abstract_pattern_of, patterns_of, record_pattern, pattern_fields_of, field_patterns_of, grouped_patterns, first_form, side_by_side, more_alternatives, alternatives_of};
ghost use Rattle.surface.specs.Surface as code;
ghost use Rattle.name_resolution.specs.Naming.{where_at, symbol_named};
ghost use Rattle.name_resolution.specs.Records.{places_named};
ghost use Rattle.open_types.specs.Patterns.{local, variable_equations, local_type, noted, entry_of, pattern_piece, patterns_piece, part_pieces, place_types, wildcard_tree, side_by_side_trees, constructor_piece, place_among, places_among, later_pieces, alternatives_pieces};
ghost use Rattle.open_types.specs.Drafts.{HoldsType, IsReady, IsNoted, AreBound, local_at, earlier_variables, EarlierHeld, CanMatch, CanMatchAll, IsMatched, AreMatched, part_at, PartHeld, ArePartsJoined, CanMatchFields, ArePut, WorldHeld, LaterHeld, IsLater, AreLater, AreDraftedAlternatives};

use crate::draft::{Constraints, equate, make};
use crate::locals::Local;
use crate::records::place_type;
use crate::types::{entry_at, entry_number, int, list_of};
use crate::uses::{begin_use, entry_args, first_type, other_types, types_put};
use name_resolution::{Fields, World, own_name, place_named, record_named};
use scopes::Seq;
use std::alloc::{AllocError, Global};
use surface::{FieldPat, Pat, PatNode};
use trees::store::{Grow, Node, Store, TermId};

/// Which alternative of a branch is walked: the first, or a later one, whose variables have the types of those of the first.
#[derive(Clone, Copy)]
pub enum Alternative<'a> {
    First,
    Later(&'a [Local<'a>]),
}

// The type of a variable of some name, or `int`.
fn type_among(store: &Store, locals: &[Local<'_>], name: &[u8]) -> TermId
    requires { All (λ l. HoldsType store.now l.ty) locals.now }
    ensures held { HoldsType store.now result }
    ensures tree { tree_at store.now result
        ≡ local_type name.now (map (local_at store.now) locals.now) }
{
    match locals.split_first() {
        Some((first, rest)) => {
            if first.name == name {
                first.ty
            } else {
                type_among(store, rest, name)
            }
        }
        None => int(store),
    }
}

// The equation of a variable of a later alternative.
fn equate_variable(
    store: &Store,
    draft: &mut Constraints,
    name: &[u8],
    ty: TermId,
    alternative: Alternative<'_>,
) -> Result<(), AllocError>
    requires ty { HoldsType store.now ty }
    requires ready { IsReady store.now draft.old }
    requires earlier { EarlierHeld store.now alternative }
    ensures noted { OnOk result (IsNoted store.now draft.old store.now draft.new
        (noted (variable_equations
        (earlier_variables store.now alternative.entry) name.now (tree_at store.now ty)) [])) }
{
    match alternative {
        Alternative::First => Ok(()),
        Alternative::Later(first) => {
            let own = type_among(store, first, name);
            equate(store, draft, own, Some(ty))
        }
    }
}

// A variable of a type after those that are there.
fn bind_variable<'a>(
    store: &Store,
    draft: &mut Constraints,
    locals: &mut Vec<Local<'a>>,
    name: &'a [u8],
    ty: TermId,
    alternative: Alternative<'_>,
) -> Result<(), AllocError>
    requires ty { HoldsType store.now ty }
    requires ready { IsReady store.now draft.old }
    requires earlier { EarlierHeld store.now alternative }
    requires held { All (λ l. HoldsType store.now l.ty) locals.old.items }
    ensures { OnOk result (AreBound store.now draft.old locals.old.items store.now draft.new
        locals.new.items (noted (variable_equations (earlier_variables store.now alternative.entry)
        name.now (tree_at
        store.now ty)) []) (local name.now (tree_at store.now ty) ∷ [])) }
{
    equate_variable(store, draft, name, ty, alternative)?;
    locals.push(Local { name, ty })?;
    Ok(())
}

/// The tree of a pattern of a type, whose variables are put after those that are there.
#[cycle(matching)]
pub fn walk_pattern<'a>(
    alloc: Global,
    store: &mut Store,
    draft: &mut Constraints,
    locals: &mut Vec<Local<'a>>,
    p: &'a Pat,
    world: &World<'_>,
    ty: TermId,
    alternative: Alternative<'_>,
) -> Result<TermId, AllocError>
    requires { CanMatch store.old draft.old world.now locals.old.items ty alternative }
    ensures matched { IfOk result (IsMatched (pattern_piece (where_at store.old world.now)
        (earlier_variables store.old alternative.entry) (length draft.old.takers)
        (tree_at store.old ty)
        (abstract_pattern_of p.now)) store.old draft.old locals.old.items store.new draft.new
        locals.new.items) }
    ensures grows { Grows store.old store.new }
{
    match &p.node {
        PatNode::Wild => make(store, draft, Node::PatAny(ty)),
        PatNode::Var(name) => {
            bind_variable(store, draft, locals, name.text.as_slice(), ty, alternative)?;
            make(store, draft, Node::PatVar(ty))
        }
        PatNode::Con(name, parts) => {
            let own = own_name(alloc, name.style, name.text.as_slice())?;
            let symbol = world.symbol_named(name.scopes.as_slice(), own.as_slice());
            let parts = parts.as_slice();
            let token = p.at.main;
            walk_constructor(
                alloc,
                store,
                draft,
                locals,
                token,
                symbol,
                parts,
                world,
                ty,
                alternative,
            )
        }
        PatNode::Group(parts) => {
            let parts = parts.as_slice();
            let token = p.at.main;
            walk_grouped(
                alloc,
                store,
                draft,
                locals,
                token,
                parts,
                world,
                ty,
                alternative,
            )
        }
        PatNode::Alias(inner, name) => {
            let inner = inner.get();
            let made = walk_pattern(alloc, store, draft, locals, inner, world, ty, alternative)?;
            bind_variable(store, draft, locals, name.text.as_slice(), ty, alternative)?;
            make(store, draft, Node::PatAlias(made))
        }
        PatNode::Fields(fields, _) => {
            let fields = fields.as_slice();
            let token = p.at.main;
            walk_record(
                alloc,
                store,
                draft,
                locals,
                token,
                fields,
                world,
                ty,
                alternative,
            )
        }
    }
}

/// A part of a record: its pattern, and its variables.
#[derive(Drop)]
pub struct Part<'a> {
    pub pattern: TermId,
    pub variables: Seq<Local<'a>>,
}

// A wildcard for each of these types, after the parts that are there.
fn push_wildcards<'a>(
    alloc: Global,
    store: &mut Store,
    draft: &Constraints,
    types: &[TermId],
    parts: &mut Seq<Part<'a>>,
) -> Result<(), AllocError>
    requires types { All (HoldsType store.old) types.now }
    requires ready { IsReady store.old draft.now }
    requires held { All (PartHeld store.old) parts.old }
    ensures held { OnOk result (All (PartHeld store.new) parts.new) }
    ensures parts { OnOk result (map (part_at store.new) parts.new
        ≡ map (part_at store.old) parts.old
        ++ map wildcard_tree (trees_at store.old types.now)) }
    ensures noted { OnOk result (IsNoted store.old draft.now store.new draft.now (noted [] [])) }
    ensures grows { Grows store.old store.new }
{
    let Some((first, rest)) = types.split_first() else {
        return Ok(());
    };
    let pattern = make(store, draft, Node::PatAny(*first))?;
    let variables = Seq::new(alloc);
    parts.push(Part { pattern, variables })?;
    push_wildcards(alloc, store, draft, rest, parts)
}

// A part at its place.
#[tactic(auto, using(name_resolution::proofs::Putting::set_past))]
fn put_part<'a>(parts: &mut Seq<Part<'a>>, place: usize, part: Part<'a>)
    ensures { parts.new ≡ slice_set parts.old place part.entry }
{
    if place < parts.len() {
        parts.set(place, part);
    }
}

// Variables after those that are there.
fn push_locals<'a>(locals: &mut Vec<Local<'a>>, more: &[Local<'a>]) -> Result<(), AllocError>
    ensures { OnOk result (locals.new.items ≡ locals.old.items ++ more.now) }
{
    for local in more {
        locals.push(*local)?;
    }
    Ok(())
}

// The parts side by side; their variables are put after those that are there.
fn join_parts<'a>(
    store: &mut Store,
    draft: &Constraints,
    locals: &mut Vec<Local<'a>>,
    parts: &[Part<'a>],
) -> Result<TermId, AllocError>
    requires ready { IsReady store.old draft.now }
    requires held { All (λ l. HoldsType store.old l.ty) locals.old.items }
    requires parts { All (PartHeld store.old) parts.now }
    ensures joined { IfOk result (ArePartsJoined (side_by_side_trees (map (part_at store.old)
        parts.now)) store.old draft.now locals.old.items store.new locals.new.items) }
    ensures grows { Grows store.old store.new }
{
    let Some((first, rest)) = parts.split_first() else {
        return make(store, draft, Node::End);
    };
    push_locals(locals, first.variables.as_slice())?;
    let list = join_parts(store, draft, locals, rest)?;
    make(store, draft, Node::Cell(first.pattern, list))
}

// The fields of a record.
#[cycle(matching)]
fn walk_record<'a>(
    alloc: Global,
    store: &mut Store,
    draft: &mut Constraints,
    locals: &mut Vec<Local<'a>>,
    token: usize,
    fields: &'a [FieldPat],
    world: &World<'_>,
    ty: TermId,
    alternative: Alternative<'_>,
) -> Result<TermId, AllocError>
    requires { CanMatch store.old draft.old world.now locals.old.items ty alternative }
    ensures matched { IfOk result (IsMatched (pattern_piece (where_at store.old world.now)
        (earlier_variables store.old alternative.entry) (length draft.old.takers)
        (tree_at store.old ty) (record_pattern token (pattern_fields_of fields.now)
        (field_patterns_of fields.now))) store.old draft.old locals.old.items store.new draft.new
        locals.new.items) }
    ensures grows { Grows store.old store.new }
{
    let owner = record_named(alloc, world, Fields::Patterns(fields))?;
    let info = entry_at(world.symbols, owner);
    let types = begin_use(alloc, store, draft, token, info, Some(ty))?;
    let wanted = types_put(alloc, store, entry_args(info), types.as_slice())?;
    let wanted = wanted.as_slice();
    let mut parts = Seq::new(alloc);
    push_wildcards(alloc, store, draft, wanted, &mut parts)?;
    walk_fields(
        alloc,
        store,
        draft,
        &mut parts,
        fields,
        owner,
        world,
        wanted,
        alternative,
    )?;
    let made = join_parts(store, draft, locals, parts.as_slice())?;
    let list = list_of(store, types.as_slice())?;
    make(store, draft, Node::PatCon(owner, list, made, ty))
}

// The patterns of fields, put at their places among the parts.
#[cycle(matching)]
fn walk_fields<'a>(
    alloc: Global,
    store: &mut Store,
    draft: &mut Constraints,
    parts: &mut Seq<Part<'a>>,
    fields: &'a [FieldPat],
    owner: usize,
    world: &World<'_>,
    wanted: &[TermId],
    alternative: Alternative<'_>,
) -> Result<(), AllocError>
    requires { CanMatchFields store.old draft.old world.now parts.old wanted.now alternative }
    ensures put { OnOk result (ArePut (places_named (symbols_at store.old world.now.symbols.now)
        (symbol_named world.now.scope.now) owner (pattern_fields_of fields.now))
        (part_pieces (where_at store.old world.now)
        (earlier_variables store.old alternative.entry) (length draft.old.takers)
        (place_types (places_named (symbols_at store.old world.now.symbols.now)
        (symbol_named world.now.scope.now) owner (pattern_fields_of fields.now))
        (trees_at store.old wanted.now)) (field_patterns_of fields.now))
        store.old draft.old parts.old store.new draft.new parts.new) }
    ensures grows { Grows store.old store.new }
{
    let Some((first, rest)) = fields.split_first() else {
        return Ok(());
    };
    let place = place_named(alloc, world, owner, &first.name)?;
    let ty = place_type(store, wanted, place);
    let mut own = Vec::new(alloc);
    let value = &first.value;
    let pattern = walk_pattern(alloc, store, draft, &mut own, value, world, ty, alternative)?;
    let variables = Seq::from_vec(own);
    put_part(parts, place, Part { pattern, variables });
    walk_fields(
        alloc,
        store,
        draft,
        parts,
        rest,
        owner,
        world,
        wanted,
        alternative,
    )
}

// The entry of a constructor before its parts.
#[cycle(matching)]
fn walk_constructor<'a>(
    alloc: Global,
    store: &mut Store,
    draft: &mut Constraints,
    locals: &mut Vec<Local<'a>>,
    token: usize,
    symbol: Option<usize>,
    parts: &'a [Pat],
    world: &World<'_>,
    ty: TermId,
    alternative: Alternative<'_>,
) -> Result<TermId, AllocError>
    requires { CanMatch store.old draft.old world.now locals.old.items ty alternative }
    ensures matched { IfOk result (IsMatched (constructor_piece (where_at store.old world.now)
        (earlier_variables store.old alternative.entry) (length draft.old.takers)
        (tree_at store.old ty)
        token (entry_of (where_at store.old world.now).symbols symbol) (patterns_of parts.now))
        store.old draft.old locals.old.items store.new draft.new locals.new.items) }
    ensures grows { Grows store.old store.new }
{
    let symbol = entry_number(symbol);
    let info = entry_at(world.symbols, symbol);
    let types = begin_use(alloc, store, draft, token, info, Some(ty))?;
    let wanted = types_put(alloc, store, entry_args(info), types.as_slice())?;
    let wanted = wanted.as_slice();
    let made = walk_patterns(
        alloc,
        store,
        draft,
        locals,
        parts,
        world,
        wanted,
        alternative,
    )?;
    let list = list_of(store, types.as_slice())?;
    make(store, draft, Node::PatCon(symbol, list, made, ty))
}

// Patterns side by side, of which these types are wanted.
#[cycle(matching)]
fn walk_patterns<'a>(
    alloc: Global,
    store: &mut Store,
    draft: &mut Constraints,
    locals: &mut Vec<Local<'a>>,
    list: &'a [Pat],
    world: &World<'_>,
    wanted: &[TermId],
    alternative: Alternative<'_>,
) -> Result<TermId, AllocError>
    requires { CanMatchAll store.old draft.old world.now locals.old.items wanted.now alternative }
    ensures matched { IfOk result (AreMatched (patterns_piece (where_at store.old world.now)
        (earlier_variables store.old alternative.entry) (length draft.old.takers)
        (trees_at store.old
        wanted.now) (patterns_of list.now)) store.old draft.old locals.old.items store.new draft.new
        locals.new.items) }
    ensures grows { Grows store.old store.new }
{
    let Some((first, rest)) = list.split_first() else {
        return make(store, draft, Node::End);
    };
    let ty = first_type(store, wanted);
    let a = walk_pattern(alloc, store, draft, locals, first, world, ty, alternative)?;
    let wanted = other_types(wanted);
    let b = walk_patterns(
        alloc,
        store,
        draft,
        locals,
        rest,
        world,
        wanted,
        alternative,
    )?;
    make(store, draft, Node::Cell(a, b))
}

/// Patterns in parentheses or side by side: one is itself, any other number of them is a tuple.
#[cycle(matching)]
pub fn walk_grouped<'a>(
    alloc: Global,
    store: &mut Store,
    draft: &mut Constraints,
    locals: &mut Vec<Local<'a>>,
    token: usize,
    list: &'a [Pat],
    world: &World<'_>,
    ty: TermId,
    alternative: Alternative<'_>,
) -> Result<TermId, AllocError>
    requires { CanMatch store.old draft.old world.now locals.old.items ty alternative }
    ensures matched { IfOk result (IsMatched (pattern_piece (where_at store.old world.now)
        (earlier_variables store.old alternative.entry) (length draft.old.takers)
        (tree_at store.old ty)
        (grouped_patterns token (patterns_of list.now))) store.old draft.old locals.old.items
        store.new draft.new locals.new.items) }
    ensures grows { Grows store.old store.new }
{
    if list.len() == 1 {
        return walk_pattern(
            alloc,
            store,
            draft,
            locals,
            &list[0],
            world,
            ty,
            alternative,
        );
    }
    let symbol = world.tuple_named(list.len());
    walk_constructor(
        alloc,
        store,
        draft,
        locals,
        token,
        symbol,
        list,
        world,
        ty,
        alternative,
    )
}

/// A later alternative of a branch: its pattern, and the places of the first one's variables among its own.
#[derive(Drop)]
pub struct LaterPattern {
    pub pattern: TermId,
    pub places: Seq<usize>,
}

/// The patterns of a branch.
#[derive(Drop)]
pub struct BranchPatterns {
    pub first: TermId,
    pub later: Seq<LaterPattern>,
}

// The first token of patterns side by side.
fn first_token(patterns: &[Pat]) -> usize
    ensures { result ≡ first_form (code.patterns patterns.now) }
{
    match patterns.first() {
        Some(first) => first.at.first,
        None => 0,
    }
}

// The place of a name among variables, the innermost first.
fn place_among(locals: &[Local<'_>], name: &[u8]) -> usize
    ensures place { (s : List Tree) → result
        ≡ place_among name.now (reverse (map (local_at s) locals.now)) }
    ensures within { result ≤ length locals.now }
{
    let Some((last, rest)) = locals.split_last() else {
        return 0;
    };
    if last.name == name {
        0
    } else {
        place_among(rest, name) + 1
    }
}

// The places of variables among others, the innermost first, after those that are there.
fn push_places(
    places: &mut Seq<usize>,
    first: &[Local<'_>],
    own: &[Local<'_>],
) -> Result<(), AllocError>
    ensures { (s : List Tree) → OnOk result (places.new ≡ places.old ++ places_among
        (reverse (map (local_at s) first.now)) (reverse (map (local_at s) own.now))) }
{
    let Some((last, rest)) = first.split_last() else {
        return Ok(());
    };
    places.push(place_among(own, last.name))?;
    push_places(places, rest, own)
}

// A later alternative.
fn walk_one_later(
    alloc: Global,
    store: &mut Store,
    draft: &mut Constraints,
    list: &[Pat],
    world: &World<'_>,
    ty: TermId,
    first: &[Local<'_>],
) -> Result<LaterPattern, AllocError>
    requires world { WorldHeld store.old world.now }
    requires ready { IsReady store.old draft.old }
    requires wanted { HoldsType store.old ty }
    requires first { All (λ l. HoldsType store.old l.ty) first.now }
    ensures later { IfOk result (IsLater (pattern_piece (where_at store.old world.now)
        (Some (map (local_at store.old) first.now)) (length draft.old.takers) (tree_at store.old ty)
        (side_by_side (code.patterns list.now))) (map (local_at store.old) first.now)
        store.old draft.old store.new draft.new) }
    ensures grows { Grows store.old store.new }
{
    let mut own = Vec::new(alloc);
    let token = first_token(list);
    let alternative = Alternative::Later(first);
    let pattern = walk_grouped(
        alloc,
        store,
        draft,
        &mut own,
        token,
        list,
        world,
        ty,
        alternative,
    )?;
    let mut places = Seq::new(alloc);
    push_places(&mut places, first, own.as_slice())?;
    Ok(LaterPattern { pattern, places })
}

// Later alternatives, after those that are there.
fn walk_later(
    alloc: Global,
    store: &mut Store,
    draft: &mut Constraints,
    list: &[Seq<Pat>],
    world: &World<'_>,
    ty: TermId,
    first: &[Local<'_>],
    later: &mut Seq<LaterPattern>,
) -> Result<(), AllocError>
    requires world { WorldHeld store.old world.now }
    requires ready { IsReady store.old draft.old }
    requires wanted { HoldsType store.old ty }
    requires first { All (λ l. HoldsType store.old l.ty) first.now }
    requires held { All (LaterHeld store.old) later.old }
    ensures later { OnOk result (AreLater (later_pieces (where_at store.old world.now)
        (map (local_at store.old) first.now) (length draft.old.takers) (tree_at store.old ty)
        (alternatives_of list.now)) (map (local_at store.old) first.now)
        store.old draft.old later.old store.new draft.new later.new) }
    ensures grows { Grows store.old store.new }
{
    let Some((one, rest)) = list.split_first() else {
        return Ok(());
    };
    let made = walk_one_later(alloc, store, draft, one.as_slice(), world, ty, first)?;
    later.push(made)?;
    walk_later(alloc, store, draft, rest, world, ty, first, later)
}

/// The patterns of a branch, of a type. The variables of the first one are put down.
pub fn walk_alternatives<'a>(
    alloc: Global,
    store: &mut Store,
    draft: &mut Constraints,
    locals: &mut Vec<Local<'a>>,
    first: &'a [Pat],
    rest: &[Seq<Pat>],
    world: &World<'_>,
    ty: TermId,
) -> Result<BranchPatterns, AllocError>
    requires none { locals.old.items ≡ [] }
    requires world { WorldHeld store.old world.now }
    requires ready { IsReady store.old draft.old }
    requires wanted { HoldsType store.old ty }
    ensures alternatives { (i : ℕ) → IfOk result (AreDraftedAlternatives
        (alternatives_pieces (where_at store.old world.now) (length draft.old.takers)
        (tree_at store.old ty) (more_alternatives i (side_by_side (code.patterns first.now))
        (alternatives_of rest.now))) store.old draft.old store.new draft.new locals.new.items) }
    ensures grows { Grows store.old store.new }
{
    let token = first_token(first);
    let alternative = Alternative::First;
    let made = walk_grouped(
        alloc,
        store,
        draft,
        locals,
        token,
        first,
        world,
        ty,
        alternative,
    )?;
    let mut later = Seq::new(alloc);
    walk_later(
        alloc,
        store,
        draft,
        rest,
        world,
        ty,
        locals.as_slice(),
        &mut later,
    )?;
    Ok(BranchPatterns { first: made, later })
}
