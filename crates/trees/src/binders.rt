// The binding functions over whatever grows by trees, which remember within a call what they made, and tests of their
// equations without memory.
//
// Contract: exactly the functions on trees.

ghost use Rattle.std.specs.Prelude.{refl, ◌≡◌, ◌↔◌, ◌≤◌, IsTrue, IfOk};
ghost use Rattle.trees.specs.Tree.{Tree, loose, above_params};
ghost use Rattle.trees.specs.Node.{tree_at, Holds};
ghost use Rattle.trees.specs.Sorts.{sort_of, WellSorted};
ghost use Rattle.trees.specs.binders.Visits.{HoldsTerm, HoldTerms, HoldTypes, trees_at, sorts_shifting, sorts_closing, sorts_inst, sorts_many, sorts_typing, inst_stays, inst_stays_ready, many_stays, many_stays_ready, typing_stays, typing_stays_ready};
ghost use Rattle.trees.specs.Facts.{has_param, Occurs, IndicesFit};
ghost use Rattle.trees.specs.Binding.{shifting, shift, instantiating, inst, instantiating_many, inst_many, typing, inst_types, closing, close, Param, ParamHasType};

pub mod index_bounds;
mod instances;
mod rebuilding;

use crate::store::{Grow, Store};
use crate::{Node, Parts, Sort, TermId};
pub use instances::{Put, is_changed, is_inst, is_inst_types};
use rebuilding::node_of;
pub use rebuilding::{Visit, change_tree};
use std::alloc::{AllocError, Global};

/// Each loose variable rises.
#[derive(Drop)]
struct Shifting {
    up: usize,
    from: usize,
}

impl Visit for Shifting {
    ghost change_over = { λ v s. shifting v.up v.from };

    ghost Ready = { λ v s. Unit {0} };

    ghost stays_ready = { λ v s t w r. tt };

    ghost stays = { λ v s t w r. refl };

    ghost sorts = { λ v s r. sorts_shifting v.up v.from };

    fn visit<G: Grow>(
        &self,
        alloc: Global,
        g: &mut G,
        e: TermId,
        depth: usize,
    ) -> Result<Option<TermId>, AllocError> {
        if g.store().loose(e) <= self.from.saturating_add(depth) {
            return Ok(Some(e));
        }
        match node_of(g, e) {
            Node::Bound(index, ty) => Ok(Some(g.add(Node::Bound(index + self.up, ty))?)),
            _ => Ok(None),
        }
    }
}

/// The tree with each loose variable from `from` on raised by `up`.
pub fn shift<G: Grow>(
    alloc: Global,
    g: &mut G,
    e: TermId,
    up: usize,
    from: usize,
) -> Result<TermId, AllocError>
    requires e_held { Holds (G.trees g.old) e }
    requires fits { IndicesFit (shift (tree_at (G.trees g.old) e) up from) }
    ensures held { IfOk result (Holds (G.trees g.new)) }
    ensures tree { IfOk result (λ id. tree_at (G.trees g.new) id
        ≡ shift (tree_at (G.trees g.old) e) up from) }
    ensures sorted { IfOk result (λ id. WellSorted (tree_at (G.trees g.new) id)) }
    ensures grows { G.grows g.old g.new }
{
    change_tree(alloc, g, &Shifting { up, from }, e)
}

/// The variable 0 becomes a term.
#[derive(Drop)]
struct Instantiating {
    by: TermId,
}

impl Visit for Instantiating {
    ghost change_over = { λ v s. instantiating (tree_at s v.by) };

    ghost Ready = { λ v s. HoldsTerm s v.by };

    ghost stays_ready = { λ v s t w r. inst_stays_ready s t v.by w r };

    ghost stays = { λ v s t w r. inst_stays s t v.by w r };

    ghost sorts = { λ v s r. sorts_inst (tree_at s v.by) r.1 };

    fn visit<G: Grow>(
        &self,
        alloc: Global,
        g: &mut G,
        e: TermId,
        depth: usize,
    ) -> Result<Option<TermId>, AllocError> {
        if g.store().loose(e) <= depth {
            return Ok(Some(e));
        }
        match node_of(g, e) {
            Node::Bound(index, ty) => {
                if index == depth {
                    Ok(Some(shift(alloc, g, self.by, depth, 0)?))
                } else {
                    Ok(Some(g.add(Node::Bound(index - 1, ty))?))
                }
            }
            _ => Ok(None),
        }
    }
}

/// The tree with a term in the place of its variable 0.
pub fn inst<G: Grow>(
    alloc: Global,
    g: &mut G,
    body: TermId,
    by: TermId,
) -> Result<TermId, AllocError>
    requires body_held { Holds (G.trees g.old) body }
    requires by_held { Holds (G.trees g.old) by }
    requires term { sort_of (tree_at (G.trees g.old) by) ≡ Sort.Term }
    requires fits { IndicesFit (inst (tree_at (G.trees g.old) body) (tree_at (G.trees g.old) by)) }
    ensures held { IfOk result (Holds (G.trees g.new)) }
    ensures tree { IfOk result (λ id. tree_at (G.trees g.new) id
        ≡ inst (tree_at (G.trees g.old) body) (tree_at (G.trees g.old) by)) }
    ensures sorted { IfOk result (λ id. WellSorted (tree_at (G.trees g.new) id)) }
    ensures grows { G.grows g.old g.new }
{
    change_tree(alloc, g, &Instantiating { by }, body)
}

/// The variables from 0 on become terms, the last one for the variable 0.
#[derive(Drop)]
struct InstantiatingMany<'a> {
    by: &'a [TermId],
}

impl<'a> Visit for InstantiatingMany<'a> {
    ghost change_over = { λ v s. instantiating_many (trees_at s v.by.now) };

    ghost Ready = { λ v s. HoldTerms s v.by.now };

    ghost stays_ready = { λ v s t w r. many_stays_ready s t v.by.now w r };

    ghost stays = { λ v s t w r. many_stays s t v.by.now w r };

    ghost sorts = { λ v s r. sorts_many s v.by.now r };

    fn visit<G: Grow>(
        &self,
        alloc: Global,
        g: &mut G,
        e: TermId,
        depth: usize,
    ) -> Result<Option<TermId>, AllocError> {
        if g.store().loose(e) <= depth {
            return Ok(Some(e));
        }
        match node_of(g, e) {
            Node::Bound(index, ty) => {
                let count = self.by.len();
                if index - depth < count {
                    Ok(Some(shift(alloc, g, self.by[count - 1 - (index - depth)], depth, 0)?))
                } else {
                    Ok(Some(g.add(Node::Bound(index - count, ty))?))
                }
            }
            _ => Ok(None),
        }
    }
}

/// The tree with terms in the place of its variables from 0 on, the last one for the variable 0.
pub fn inst_many<G: Grow>(
    alloc: Global,
    g: &mut G,
    body: TermId,
    by: &[TermId],
) -> Result<TermId, AllocError>
    requires body_held { Holds (G.trees g.old) body }
    requires terms { HoldTerms (G.trees g.old) by.now }
    requires fits { IndicesFit (inst_many (tree_at (G.trees g.old) body)
        (trees_at (G.trees g.old) by.now)) }
    ensures held { IfOk result (Holds (G.trees g.new)) }
    ensures tree { IfOk result (λ id. tree_at (G.trees g.new) id
        ≡ inst_many (tree_at (G.trees g.old) body) (trees_at (G.trees g.old) by.now)) }
    ensures sorted { IfOk result (λ id. WellSorted (tree_at (G.trees g.new) id)) }
    ensures grows { G.grows g.old g.new }
{
    change_tree(alloc, g, &InstantiatingMany { by }, body)
}

/// Each schematic type variable becomes the type of its number, where there is one.
#[derive(Drop)]
struct Typing<'a> {
    types: &'a [TermId],
}

impl<'a> Visit for Typing<'a> {
    ghost change_over = { λ v s. typing (trees_at s v.types.now) };

    ghost Ready = { λ v s. HoldTypes s v.types.now };

    ghost stays_ready = { λ v s t w r. typing_stays_ready s t v.types.now w r };

    ghost stays = { λ v s t w r. typing_stays s t v.types.now w r };

    ghost sorts = { λ v s r. sorts_typing s v.types.now r };

    fn visit<G: Grow>(
        &self,
        alloc: Global,
        g: &mut G,
        e: TermId,
        depth: usize,
    ) -> Result<Option<TermId>, AllocError> {
        if g.store().above_type_variables(e) == 0 {
            return Ok(Some(e));
        }
        match node_of(g, e) {
            Node::TyVar(number) => {
                if number < self.types.len() {
                    Ok(Some(self.types[number]))
                } else {
                    Ok(Some(e))
                }
            }
            _ => Ok(None),
        }
    }
}

/// The tree with types in the place of its schematic type variables, each by its number. A type becomes a type.
pub fn inst_types<G: Grow>(
    alloc: Global,
    g: &mut G,
    e: TermId,
    types: &[TermId],
) -> Result<TermId, AllocError>
    requires e_held { Holds (G.trees g.old) e }
    requires types { HoldTypes (G.trees g.old) types.now }
    ensures held { IfOk result (Holds (G.trees g.new)) }
    ensures tree { IfOk result (λ id. tree_at (G.trees g.new) id
        ≡ inst_types (tree_at (G.trees g.old) e) (trees_at (G.trees g.old) types.now)) }
    ensures sorted { IfOk result (λ id. WellSorted (tree_at (G.trees g.new) id)) }
    ensures sort { IfOk result (λ id. sort_of (tree_at (G.trees g.new) id)
        ≡ sort_of (tree_at (G.trees g.old) e)) }
    ensures grows { G.grows g.old g.new }
{
    g.store().laws();
    change_tree(alloc, g, &Typing { types }, e)
}

/// A parameter becomes the variable 0.
#[derive(Drop)]
struct Closing {
    param: usize,
}

// Whether closing by a parameter leaves a tree below so many binders, as the numbers kept beside it tell.
fn is_left(s: &Store, e: TermId, depth: usize, param: usize) -> bool
    requires { Holds s.now e }
    ensures loose { IsTrue result → loose (tree_at s.now e) ≤ depth }
    ensures params { IsTrue result → above_params (tree_at s.now e) ≤ param }
{
    s.loose(e) <= depth && s.above_parameters(e) <= param && param < usize::MAX
}

impl Visit for Closing {
    ghost change_over = { λ v s. closing v.param };

    ghost Ready = { λ v s. Unit {0} };

    ghost stays_ready = { λ v s t w r. tt };

    ghost stays = { λ v s t w r. refl };

    ghost sorts = { λ v s r. sorts_closing v.param };

    fn visit<G: Grow>(
        &self,
        alloc: Global,
        g: &mut G,
        e: TermId,
        depth: usize,
    ) -> Result<Option<TermId>, AllocError> {
        if is_left(g.store(), e, depth, self.param) {
            return Ok(Some(e));
        }
        match node_of(g, e) {
            Node::Bound(index, ty) => {
                if index < depth {
                    Ok(Some(e))
                } else {
                    Ok(Some(g.add(Node::Bound(index + 1, ty))?))
                }
            }
            Node::Param(number, ty) => {
                if number == self.param {
                    Ok(Some(g.add(Node::Bound(depth, ty))?))
                } else {
                    Ok(Some(e))
                }
            }
            _ => Ok(None),
        }
    }
}

/// The tree with a variable 0 in the place of a parameter. For a closed tree in which the parameter has one type, which is
/// closed too, `inst` of it by that parameter gives the tree back.
pub fn close_param<G: Grow>(
    alloc: Global,
    g: &mut G,
    e: TermId,
    param: usize,
) -> Result<TermId, AllocError>
    requires e_held { Holds (G.trees g.old) e }
    requires fits { IndicesFit (close (tree_at (G.trees g.old) e) param) }
    ensures held { IfOk result (Holds (G.trees g.new)) }
    ensures tree { IfOk result (λ id. tree_at (G.trees g.new) id
        ≡ close (tree_at (G.trees g.old) e) param) }
    ensures back { IfOk result (λ id. (ty : Tree) → loose (tree_at (G.trees g.old) e) ≡ 0
        → loose ty ≡ 0
        → ParamHasType param ty (tree_at (G.trees g.old) e)
        → inst (tree_at (G.trees g.new) id) (Param param ty) ≡ tree_at (G.trees g.old) e) }
    ensures sorted { IfOk result (λ id. WellSorted (tree_at (G.trees g.new) id)) }
    ensures grows { G.grows g.old g.new }
{
    change_tree(alloc, g, &Closing { param }, e)
}

/// Whether a parameter occurs in a tree.
pub fn has_param(s: &Store, e: TermId, param: usize) -> bool
    requires { Holds s.now e }
    ensures { result ≡ has_param (tree_at s.now e) param }
{
    if param < usize::MAX && s.above_parameters(e) <= param {
        return false;
    }
    let node = s.node(e);
    if let Node::Param(n, _) = node
        && n == param
    {
        return true;
    }
    match node.parts() {
        Parts::None => false,
        Parts::One(a) => has_param(s, a, param),
        Parts::Two(a, b) => has_param(s, a, param) || has_param(s, b, param),
        Parts::Three(a, b, c) => has_param(s, a, param)
            || has_param(s, b, param)
            || has_param(s, c, param),
    }
}

/// Whether a tree is a part of another, or the whole.
pub fn occurs(s: &Store, part: TermId, e: TermId) -> bool
    requires part_held { Holds s.now part }
    requires e_held { Holds s.now e }
    ensures { IsTrue result ↔ Occurs (tree_at s.now part) (tree_at s.now e) }
{
    if s.same(part, e) {
        return true;
    }
    match s.node(e).parts() {
        Parts::None => false,
        Parts::One(a) => occurs(s, part, a),
        Parts::Two(a, b) => occurs(s, part, a) || occurs(s, part, b),
        Parts::Three(a, b, c) => occurs(s, part, a) || occurs(s, part, b) || occurs(s, part, c),
    }
}
