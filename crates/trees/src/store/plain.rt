//! The store as a plain list, which is searched from its start and keeps nothing beside its nodes.
//! It is the reference for `Store`: the same queries with the same clauses, by slow programs that go down a tree.
#![tactic(auto)]

ghost use Rattle.std.specs.Prelude.{◌≡◌, ◌≢◌, ◌↔◌, ℕ, ◌<◌, List, [], ◌∷◌, length, get_or, min, IsTrue, IfOk, IfSome, IfNone};
ghost use Rattle.trees.specs.Tree.{Leaf, HEnd, size, height, loose, pat_vars, binders_over, above_ty_vars, above_params};
ghost use Rattle.trees.specs.Node.{tree_at, node_tree, parts_of, head_of_node, Holds, AreBelow, Grows};
ghost use Rattle.trees.specs.Sorts.{Fits, sort_of, yield, yield_type, type_of, int_type};
ghost use Rattle.trees.specs.store.Kept.{IsTypeId};

use crate::store::fitting::{Numbered, accepts};
use crate::{Node, Parts, Sort, TermId, same_node};
use std::alloc::{AllocError, Global};
use std::marker::Model;

/// Trees by number, each once. It always holds the type `int`.
#[derive(Drop)]
pub struct PlainStore {
    nodes: Vec<Node>,
}

impl Model for PlainStore {
    ghost use Rattle.std.specs.Prelude.{List};
    ghost use Rattle.trees.specs.Tree.{Tree};
    ghost use Rattle.trees.specs.Coding.{trees_code};
    ghost use Rattle.trees.specs.store.Nodes.{trees_of};
    ghost use Rattle.trees.specs.store.Kept.{IsSoundList};

    ghost Value = { List Tree };

    ghost coded = { trees_code };

    ghost view = { λ a. trees_of a.nodes.items };

    ghost invariant = { λ a. IsSoundList a.nodes.items };
}

// The place of a node.
fn find(nodes: &[Node], node: Node) -> Option<usize>
    ensures within { IfSome result (λ k. k < length nodes.now) }
    ensures found { IfSome result (λ k. get_or nodes.now k Node.End ≡ node) }
    ensures absent { IfNone result ((k : ℕ) → k < length nodes.now
        → get_or nodes.now k Node.End ≢ node) }
{
    for (i, known) in nodes.iter().enumerate() {
        if same_node(*known, node) {
            return Some(i);
        }
    }
    None
}

impl Numbered for PlainStore {
    ghost trees = { λ s. s };

    fn has(&self, id: TermId) -> bool {
        self.holds(id)
    }

    fn node_at(&self, id: TermId) -> Node {
        self.node(id)
    }

    fn sort_at(&self, id: TermId) -> Sort {
        self.sort(id)
    }
}

impl PlainStore {
    /// A store with the type `int` alone, which is the symbol 0 without arguments.
    pub fn new(alloc: Global) -> Result<PlainStore, AllocError>
        ensures { IfOk result (λ s. s ≡ Leaf HEnd ∷ int_type ∷ []) }
    {
        let mut nodes = Vec::new(alloc);
        nodes.push(Node::End)?;
        nodes.push(Node::TyApp(0, TermId(0)))?;
        Ok(PlainStore { nodes })
    }

    /// The number of the tree of a node.
    pub fn add(&mut self, node: Node) -> Result<TermId, AllocError>
        requires held { AreBelow (length self.old) (parts_of node) }
        requires fits { Fits (node_tree self.old node) }
        ensures held { IfOk result (Holds self.new) }
        ensures tree { IfOk result (λ id. tree_at self.new id ≡ node_tree self.old node) }
        ensures grows { Grows self.old self.new }
    {
        if let Some(at) = find(&self.nodes, node) {
            return Ok(TermId(at));
        }
        let id = TermId(self.nodes.len());
        self.nodes.push(node)?;
        Ok(id)
    }

    /// Whether a tree has this number.
    pub fn holds(&self, id: TermId) -> bool
        ensures { IsTrue result ↔ Holds self.now id }
    {
        id.0 < self.nodes.len()
    }

    /// The node of a number.
    pub fn node(&self, id: TermId) -> Node
        requires { Holds self.now id }
        ensures tree { tree_at self.now id ≡ node_tree self.now result }
        ensures below { AreBelow id.0 (parts_of result) }
        ensures fits { Fits (tree_at self.now id) }
    {
        self.nodes[id.0]
    }

    /// Whether two numbers have the same tree.
    pub fn same(&self, a: TermId, b: TermId) -> bool
        requires a_held { Holds self.now a }
        requires b_held { Holds self.now b }
        ensures { IsTrue result ↔ (tree_at self.now a ≡ tree_at self.now b) }
    {
        let _ = &self.nodes;
        a == b
    }

    /// The number of nodes of a tree, or the greatest number.
    pub fn size(&self, id: TermId) -> u64
        requires { Holds self.now id }
        ensures { result ≡ min (size (tree_at self.now id)) u64.MAX }
    {
        match self.node(id).parts() {
            Parts::None => 1,
            Parts::One(a) => self.size(a).saturating_add(1),
            Parts::Two(a, b) => self.size(a).saturating_add(self.size(b)).saturating_add(1),
            Parts::Three(a, b, c) => self
                .size(a)
                .saturating_add(self.size(b))
                .saturating_add(self.size(c))
                .saturating_add(1),
        }
    }

    /// The number of nodes on the longest path of a tree, or the greatest number.
    pub fn height(&self, id: TermId) -> u64
        requires { Holds self.now id }
        ensures { result ≡ min (height (tree_at self.now id)) u64.MAX }
    {
        match self.node(id).parts() {
            Parts::None => 1,
            Parts::One(a) => self.height(a).saturating_add(1),
            Parts::Two(a, b) => self.height(a).max(self.height(b)).saturating_add(1),
            Parts::Three(a, b, c) => self
                .height(a)
                .max(self.height(b))
                .max(self.height(c))
                .saturating_add(1),
        }
    }

    /// The number of variables of a pattern.
    pub fn pattern_variables(&self, id: TermId) -> usize
        requires { Holds self.now id }
        ensures { result ≡ min (pat_vars (tree_at self.now id)) usize.MAX }
    {
        match self.node(id) {
            Node::PatVar(_) => 1,
            Node::PatAlias(a) => self.pattern_variables(a).saturating_add(1),
            Node::Cell(a, b) => self
                .pattern_variables(a)
                .saturating_add(self.pattern_variables(b)),
            Node::PatCon(_, _, b, _) => self.pattern_variables(b),
            _ => 0,
        }
    }

    /// The number of variables that a node binds in its second child, where `first` is its first one, or the greatest number.
    pub fn binders(&self, node: Node, first: TermId) -> usize
        requires { Holds self.now first }
        ensures { result ≡ min (binders_over (head_of_node node) (tree_at self.now first))
            usize.MAX }
    {
        match node {
            Node::Forall(_, _) | Node::Exists(_, _) | Node::Let(_, _) => 1,
            Node::Arm(_, _) => self.pattern_variables(first),
            _ => 0,
        }
    }

    /// The least number of binders that closes a tree.
    pub fn loose(&self, id: TermId) -> usize
        requires { Holds self.now id }
        ensures { result ≡ loose (tree_at self.now id) }
    {
        let node = self.node(id);
        if let Node::Bound(i, ty) = node {
            return self.loose(ty).max(i + 1);
        }
        match node.parts() {
            Parts::None => 0,
            Parts::One(a) => self.loose(a),
            Parts::Two(a, b) => {
                let under = self.binders(node, a);
                self.loose(a).max(self.loose(b).saturating_sub(under))
            }
            Parts::Three(a, b, c) => self.loose(a).max(self.loose(b)).max(self.loose(c)),
        }
    }

    /// The least number above the schematic type variables of a tree, or the greatest number; 0 where the tree is ground.
    pub fn above_type_variables(&self, id: TermId) -> usize
        requires { Holds self.now id }
        ensures { result ≡ min (above_ty_vars (tree_at self.now id)) usize.MAX }
    {
        let node = self.node(id);
        if let Node::TyVar(number) = node {
            return number.saturating_add(1);
        }
        match node.parts() {
            Parts::None => 0,
            Parts::One(a) => self.above_type_variables(a),
            Parts::Two(a, b) => self
                .above_type_variables(a)
                .max(self.above_type_variables(b)),
            Parts::Three(a, b, c) => self
                .above_type_variables(a)
                .max(self.above_type_variables(b))
                .max(self.above_type_variables(c)),
        }
    }

    /// The least number above the parameters of a tree, or the greatest number.
    pub fn above_parameters(&self, id: TermId) -> usize
        requires { Holds self.now id }
        ensures { result ≡ min (above_params (tree_at self.now id)) usize.MAX }
    {
        let node = self.node(id);
        if let Node::Param(number, ty) = node {
            return self.above_parameters(ty).max(number.saturating_add(1));
        }
        match node.parts() {
            Parts::None => 0,
            Parts::One(a) => self.above_parameters(a),
            Parts::Two(a, b) => self.above_parameters(a).max(self.above_parameters(b)),
            Parts::Three(a, b, c) => self
                .above_parameters(a)
                .max(self.above_parameters(b))
                .max(self.above_parameters(c)),
        }
    }

    // What a tree yields: of a list its first member's sort, of a branch its body's.
    fn yields(&self, id: TermId) -> Sort
        requires { Holds self.now id }
        ensures { result ≡ yield (tree_at self.now id) }
    {
        match self.node(id) {
            Node::TyVar(_) | Node::TyRigid(_) | Node::TyApp(_, _) | Node::End => Sort::Kind,
            Node::Bound(_, _) | Node::Param(_, _) | Node::Num(_) | Node::Fun(_, _, _, _) =>
                Sort::Term,
            Node::Cell(a, _) => self.yields(a),
            Node::Let(_, b) | Node::Case(_, b) | Node::Arm(_, b) | Node::If(_, b, _) => self.yields(
                b,
            ),
            Node::PatAny(_) | Node::PatVar(_) | Node::PatAlias(_) | Node::PatCon(_, _, _, _) =>
                Sort::Pattern,
            _ => Sort::Formula,
        }
    }

    /// What sort of thing a tree is.
    pub fn sort(&self, id: TermId) -> Sort
        requires { Holds self.now id }
        ensures { result ≡ sort_of (tree_at self.now id) }
    {
        match self.node(id) {
            Node::End | Node::Cell(_, _) => Sort::List,
            Node::Arm(_, _) => Sort::Branch,
            _ => self.yields(id),
        }
    }

    // The type of what a tree yields.
    fn yields_type(&self, id: TermId) -> Option<TermId>
        requires { Holds self.now id }
        ensures { IsTypeId self.now result (yield_type (tree_at self.now id)) }
    {
        match self.node(id) {
            Node::Num(_) => Some(self.int_type()),
            Node::Bound(_, ty) | Node::Param(_, ty) | Node::PatAny(ty) | Node::PatVar(ty) => Some(
                ty,
            ),
            Node::Fun(_, _, _, ty) | Node::PatCon(_, _, _, ty) => Some(ty),
            Node::PatAlias(a) | Node::Cell(a, _) => self.yields_type(a),
            Node::Let(_, b) | Node::Case(_, b) | Node::Arm(_, b) | Node::If(_, b, _) =>
                self.yields_type(b),
            _ => None,
        }
    }

    /// The type of a term or a pattern, and none of anything else.
    pub fn ty(&self, id: TermId) -> Option<TermId>
        requires { Holds self.now id }
        ensures { IsTypeId self.now result (type_of (tree_at self.now id)) }
    {
        match self.node(id) {
            Node::Cell(_, _) | Node::Arm(_, _) => None,
            _ => self.yields_type(id),
        }
    }

    /// The type `int`.
    pub fn int_type(&self) -> TermId
        ensures held { Holds self.now result }
        ensures tree { tree_at self.now result ≡ int_type }
    {
        let _ = &self.nodes;
        TermId(1)
    }

    /// Whether the children of a node are held and of fitting sorts, so that it may be added.
    pub fn accepts(&self, node: Node) -> bool
        ensures { IsTrue result ↔ (AreBelow (length self.now) (parts_of node)
            × Fits (node_tree self.now node)) }
    {
        accepts(self, node)
    }
}
