// Trees by number, each once, with what is asked of a tree kept beside its node.
//
// Contract: equal numbers are equal trees, and the other way round.

ghost use Rattle.std.specs.Prelude.{◌≡◌, ◌↔◌, ◌<◌, List, [], ◌∷◌, length, min, IsTrue, IsOk, IfOk};
ghost use Rattle.trees.specs.Growth.{Grows_refl, Grows_trans};
ghost use Rattle.trees.specs.Tree.{Tree, Leaf, HEnd, size, height, loose, pat_vars, binders_over, above_ty_vars, above_params};
ghost use Rattle.trees.specs.Node.{tree_at, node_tree, parts_of, head_of_node, Holds, HasTree, AreBelow, Grows};
ghost use Rattle.trees.specs.Sorts.{Fits, WellSorted, sort_of, yield, yield_type, type_of, int_type};
ghost use Rattle.trees.specs.store.Kept.{IsTypeId, IsKeptSummary};

mod fitting;
mod kept;
pub mod plain;

use crate::Sort;
pub use crate::{Ints, Node, Op, Parts, TermId};
use fitting::{Numbered, accepts};
use indexmap::IndexMap;
use kept::Summary;
use std::alloc::{AllocError, Global};
use std::marker::Model;

/// Trees by number, each once. It always holds the type `int`.
#[derive(Drop)]
pub struct Store {
    nodes: IndexMap<Node, Summary>,
}

impl Model for Store {
    ghost use Rattle.std.specs.Prelude.{List};
    ghost use Rattle.std.specs.Map.{keys_of};
    ghost use Rattle.trees.specs.Tree.{Tree};
    ghost use Rattle.trees.specs.Coding.{trees_code};
    ghost use Rattle.trees.specs.store.Nodes.{trees_of};
    ghost use Rattle.trees.specs.store.Kept.{IsSoundTable};

    ghost Value = { List Tree };

    ghost coded = { trees_code };

    ghost view = { λ a. trees_of (keys_of a.nodes.entries) };

    ghost invariant = { λ a. IsSoundTable a.nodes.entries };
}

/// What grows by trees, each of which has one number.
pub trait Grow {
    /// The trees by number.
    ghost trees: { Self → List Tree };

    /// All that was there stays.
    ghost grows: { Self → Self → Type 0 };

    /// The number of the tree of a node. A tree that is there already keeps its number, and takes no memory.
    fn add(&mut self, node: Node) -> Result<TermId, AllocError>
        requires held { AreBelow (length (trees self.old)) (parts_of node) }
        requires fits { Fits (node_tree (trees self.old) node) }
        ensures held { IfOk result (Holds (trees self.new)) }
        ensures tree { IfOk result (λ id. tree_at (trees self.new) id
            ≡ node_tree (trees self.old) node) }
        ensures sorted { IfOk result (λ id. WellSorted (tree_at (trees self.new) id)) }
        ensures grows { grows self.old self.new }
        ensures again { HasTree (trees self.old) (node_tree (trees self.old) node) → IsOk result
            × (self.new ≡ self.old) };

    /// The store.
    fn store(&self) -> &Store
        ensures { result.now ≡ trees self.now };

    ghost keeps_trees: { (a b : Self) → grows a b → Grows (trees a) (trees b) };

    ghost grows_refl: { (a : Self) → grows a a };

    ghost grows_trans: { (a b c : Self) → grows a b → grows b c → grows a c };
}

impl Grow for Store {
    ghost trees = { λ s. s };

    ghost grows = { Grows };

    ghost keeps_trees = { λ a b h. h };

    ghost grows_refl = { Grows_refl };

    ghost grows_trans = { Grows_trans };

    fn add(&mut self, node: Node) -> Result<TermId, AllocError> {
        if let Some(at) = self.nodes.get_index_of(&node) {
            return Ok(TermId(at));
        }
        let id = TermId(self.nodes.len());
        let summary = self.summary_of(node);
        self.nodes.insert(node, summary)?;
        Ok(id)
    }

    fn store(&self) -> &Store {
        self
    }
}

impl Numbered for Store {
    ghost trees = { λ s. s };

    fn has(&self, id: TermId) -> bool {
        self.holds(id)
    }

    fn node_at(&self, id: TermId) -> Node {
        self.node(id)
    }

    fn sort_at(&self, id: TermId) -> Sort {
        self.sort(id)
    }
}

impl Store {
    /// A store with the type `int` alone, which is the symbol 0 without arguments.
    pub fn new(alloc: Global) -> Result<Store, AllocError>
        ensures { IfOk result (λ s. s ≡ Leaf HEnd ∷ int_type ∷ []) }
    {
        let mut nodes = IndexMap::new(alloc);
        nodes.insert(Node::End, Summary::of_a_type(1))?;
        nodes.insert(Node::TyApp(0, TermId(0)), Summary::of_a_type(2))?;
        Ok(Store { nodes })
    }

    /// Whether a tree has this number.
    pub fn holds(&self, id: TermId) -> bool
        ensures { IsTrue result ↔ Holds self.now id }
    {
        id.0 < self.nodes.len()
    }

    /// The node of a number.
    pub fn node(&self, id: TermId) -> Node
        requires { Holds self.now id }
        ensures tree { tree_at self.now id ≡ node_tree self.now result }
        ensures below { AreBelow id.0 (parts_of result) }
        ensures fits { Fits (tree_at self.now id) }
        ensures sorted { WellSorted (tree_at self.now id) }
    {
        match self.nodes.get_index(id.0) {
            Some((node, _)) => *node,
            None => unreachable!(),
        }
    }

    // What is kept beside the node of a number.
    fn summary(&self, id: TermId) -> Summary
        requires { Holds self.now id }
        ensures { IsKeptSummary self.now result (tree_at self.now id) }
    {
        match self.nodes.get_index(id.0) {
            Some((_, summary)) => *summary,
            None => unreachable!(),
        }
    }

    /// Whether two numbers have the same tree, which they have where they are equal and nowhere else.
    pub fn same(&self, a: TermId, b: TermId) -> bool
        requires a_held { Holds self.now a }
        requires b_held { Holds self.now b }
        ensures trees { IsTrue result ↔ (tree_at self.now a ≡ tree_at self.now b) }
        ensures numbers { IsTrue result ↔ (a ≡ b) }
    {
        let _ = &self.nodes;
        a == b
    }

    /// What holds of every store, for callers to cite: each tree is well sorted, and equal trees have equal numbers. It does
    /// nothing when it runs.
    pub fn laws(&self)
        ensures sorted { (id : TermId) → Holds self.now id → WellSorted (tree_at self.now id) }
        ensures apart { (a b : TermId) → Holds self.now a → Holds self.now b
            → tree_at self.now a ≡ tree_at self.now b → a ≡ b }
    {
        let _ = &self.nodes;
    }

    /// The type `int`.
    pub fn int_type(&self) -> TermId
        ensures held { Holds self.now result }
        ensures tree { tree_at self.now result ≡ int_type }
    {
        let _ = &self.nodes;
        TermId(1)
    }

    /// What sort of thing a tree is.
    pub fn sort(&self, id: TermId) -> Sort
        requires { Holds self.now id }
        ensures { result ≡ sort_of (tree_at self.now id) }
    {
        match self.node(id) {
            Node::End | Node::Cell(_, _) => Sort::List,
            Node::Arm(_, _) => Sort::Branch,
            _ => self.summary(id).sort,
        }
    }

    /// The number of nodes of a tree, each counted as often as it occurs, or the greatest number.
    pub fn size(&self, id: TermId) -> u64
        requires { Holds self.now id }
        ensures { result ≡ min (size (tree_at self.now id)) u64.MAX }
    {
        self.summary(id).size
    }

    /// The number of nodes on the longest path of a tree, or the greatest number.
    pub fn height(&self, id: TermId) -> u64
        requires { Holds self.now id }
        ensures { result ≡ min (height (tree_at self.now id)) u64.MAX }
    {
        self.summary(id).height
    }

    /// The least number of binders that closes a tree.
    pub fn loose(&self, id: TermId) -> usize
        requires { Holds self.now id }
        ensures { result ≡ loose (tree_at self.now id) }
    {
        self.summary(id).loose
    }

    /// The type of a term or a pattern, and none of anything else.
    pub fn ty(&self, id: TermId) -> Option<TermId>
        requires { Holds self.now id }
        ensures { IsTypeId self.now result (type_of (tree_at self.now id)) }
    {
        match self.node(id) {
            Node::Cell(_, _) | Node::Arm(_, _) => None,
            _ => self.summary(id).ty,
        }
    }

    /// The number of variables that a pattern or a list of patterns binds, or the greatest number.
    pub fn pattern_variables(&self, id: TermId) -> usize
        requires { Holds self.now id }
        ensures { result ≡ min (pat_vars (tree_at self.now id)) usize.MAX }
    {
        self.summary(id).variables
    }

    /// The least number above the schematic type variables of a tree, or the greatest number; 0 where the tree is ground.
    pub fn above_type_variables(&self, id: TermId) -> usize
        requires { Holds self.now id }
        ensures { result ≡ min (above_ty_vars (tree_at self.now id)) usize.MAX }
    {
        self.summary(id).above_types
    }

    /// The least number above the parameters of a tree, or the greatest number.
    pub fn above_parameters(&self, id: TermId) -> usize
        requires { Holds self.now id }
        ensures { result ≡ min (above_params (tree_at self.now id)) usize.MAX }
    {
        self.summary(id).above_params
    }

    /// The number of variables that a node binds in its second child, where `first` is its first one, or the greatest number.
    pub fn binders(&self, node: Node, first: TermId) -> usize
        requires { Holds self.now first }
        ensures { result ≡ min (binders_over (head_of_node node) (tree_at self.now first))
            usize.MAX }
    {
        match node {
            Node::Forall(_, _) | Node::Exists(_, _) | Node::Let(_, _) => 1,
            Node::Arm(_, _) => self.pattern_variables(first),
            _ => 0,
        }
    }

    /// Whether the children of a node are held and of fitting sorts, so that it may be added.
    pub fn accepts(&self, node: Node) -> bool
        ensures { IsTrue result ↔ (AreBelow (length self.now) (parts_of node)
            × Fits (node_tree self.now node)) }
    {
        accepts(self, node)
    }

    // What is to be kept beside a new node.
    fn summary_of(&self, node: Node) -> Summary
        requires held { AreBelow (length self.now) (parts_of node) }
        requires fits { Fits (node_tree self.now node) }
        ensures { IsKeptSummary self.now result (node_tree self.now node) }
    {
        Summary {
            size: self.size_of(node),
            height: self.height_of(node),
            loose: self.loose_of(node),
            variables: self.variables_of(node),
            above_types: self.above_types_of(node),
            above_params: self.above_params_of(node),
            sort: self.sort_of(node),
            ty: self.type_of(node),
        }
    }

    fn size_of(&self, node: Node) -> u64
        requires { AreBelow (length self.now) (parts_of node) }
        ensures { result ≡ min (size (node_tree self.now node)) u64.MAX }
    {
        match node.parts() {
            Parts::None => 1,
            Parts::One(a) => self.size(a).saturating_add(1),
            Parts::Two(a, b) => self.size(a).saturating_add(self.size(b)).saturating_add(1),
            Parts::Three(a, b, c) => self
                .size(a)
                .saturating_add(self.size(b))
                .saturating_add(self.size(c))
                .saturating_add(1),
        }
    }

    fn height_of(&self, node: Node) -> u64
        requires { AreBelow (length self.now) (parts_of node) }
        ensures { result ≡ min (height (node_tree self.now node)) u64.MAX }
    {
        match node.parts() {
            Parts::None => 1,
            Parts::One(a) => self.height(a).saturating_add(1),
            Parts::Two(a, b) => self.height(a).max(self.height(b)).saturating_add(1),
            Parts::Three(a, b, c) => self
                .height(a)
                .max(self.height(b))
                .max(self.height(c))
                .saturating_add(1),
        }
    }

    fn loose_of(&self, node: Node) -> usize
        requires held { AreBelow (length self.now) (parts_of node) }
        requires fits { Fits (node_tree self.now node) }
        ensures { result ≡ loose (node_tree self.now node) }
    {
        if let Node::Bound(i, ty) = node {
            return self.loose(ty).max(i + 1);
        }
        match node.parts() {
            Parts::None => 0,
            Parts::One(a) => self.loose(a),
            Parts::Two(a, b) => {
                let under = self.binders(node, a);
                self.loose(a).max(self.loose(b).saturating_sub(under))
            }
            Parts::Three(a, b, c) => self.loose(a).max(self.loose(b)).max(self.loose(c)),
        }
    }

    fn variables_of(&self, node: Node) -> usize
        requires { AreBelow (length self.now) (parts_of node) }
        ensures { result ≡ min (pat_vars (node_tree self.now node)) usize.MAX }
    {
        match node {
            Node::PatVar(_) => 1,
            Node::PatAlias(a) => self.pattern_variables(a).saturating_add(1),
            Node::Cell(a, b) => self
                .pattern_variables(a)
                .saturating_add(self.pattern_variables(b)),
            Node::PatCon(_, _, b, _) => self.pattern_variables(b),
            _ => 0,
        }
    }

    fn above_types_of(&self, node: Node) -> usize
        requires { AreBelow (length self.now) (parts_of node) }
        ensures { result ≡ min (above_ty_vars (node_tree self.now node)) usize.MAX }
    {
        if let Node::TyVar(number) = node {
            return number.saturating_add(1);
        }
        match node.parts() {
            Parts::None => 0,
            Parts::One(a) => self.above_type_variables(a),
            Parts::Two(a, b) => self
                .above_type_variables(a)
                .max(self.above_type_variables(b)),
            Parts::Three(a, b, c) => self
                .above_type_variables(a)
                .max(self.above_type_variables(b))
                .max(self.above_type_variables(c)),
        }
    }

    fn above_params_of(&self, node: Node) -> usize
        requires { AreBelow (length self.now) (parts_of node) }
        ensures { result ≡ min (above_params (node_tree self.now node)) usize.MAX }
    {
        if let Node::Param(number, ty) = node {
            return self.above_parameters(ty).max(number.saturating_add(1));
        }
        match node.parts() {
            Parts::None => 0,
            Parts::One(a) => self.above_parameters(a),
            Parts::Two(a, b) => self.above_parameters(a).max(self.above_parameters(b)),
            Parts::Three(a, b, c) => self
                .above_parameters(a)
                .max(self.above_parameters(b))
                .max(self.above_parameters(c)),
        }
    }

    // What a tree yields: of a list its first member's sort, of a branch its body's.
    fn sort_of(&self, node: Node) -> Sort
        requires { AreBelow (length self.now) (parts_of node) }
        ensures { result ≡ yield (node_tree self.now node) }
    {
        match node {
            Node::TyVar(_) | Node::TyRigid(_) | Node::TyApp(_, _) | Node::End => Sort::Kind,
            Node::Bound(_, _) | Node::Param(_, _) | Node::Num(_) | Node::Fun(_, _, _, _) =>
                Sort::Term,
            Node::Cell(a, _) => self.summary(a).sort,
            Node::Let(_, b) | Node::Case(_, b) | Node::Arm(_, b) | Node::If(_, b, _) => self
                .summary(b)
                .sort,
            Node::PatAny(_) | Node::PatVar(_) | Node::PatAlias(_) | Node::PatCon(_, _, _, _) =>
                Sort::Pattern,
            _ => Sort::Formula,
        }
    }

    // The type of what a tree yields.
    fn type_of(&self, node: Node) -> Option<TermId>
        requires { AreBelow (length self.now) (parts_of node) }
        ensures { IsTypeId self.now result (yield_type (node_tree self.now node)) }
    {
        match node {
            Node::Num(_) => Some(self.int_type()),
            Node::Bound(_, ty) | Node::Param(_, ty) | Node::PatAny(ty) | Node::PatVar(ty) => Some(
                ty,
            ),
            Node::Fun(_, _, _, ty) | Node::PatCon(_, _, _, ty) => Some(ty),
            Node::PatAlias(a) | Node::Cell(a, _) => self.summary(a).ty,
            Node::Let(_, b) | Node::Case(_, b) | Node::Arm(_, b) | Node::If(_, b, _) => self
                .summary(b)
                .ty,
            _ => None,
        }
    }
}
