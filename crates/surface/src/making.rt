// Makers of trees, each of which says what plain tree it makes, its places among it.

ghost use Rattle.std.specs.Prelude.{◌≡◌, map, option_map, IfOk};
ghost use Rattle.surface.specs.Forms.{aliased};
ghost use Rattle.surface.specs.Trees.{prefixed, negation, quantified};
ghost use Rattle.surface.specs.Surface.{form_of, form_of_node, pattern_of, pattern_of_node, tree_of, tree_of_node, arm_of, terms_of, binder_of, op_of, trees, trigger, alternatives};
ghost use Rattle.surface.specs.SurfaceDeclarations.{decl_of, decl_of_node};

use crate::declarations::{DeclNode, DeclTree};
use crate::expressions::{BinderTree, BranchTree, Expr, ExprNode, TriggerTree};
use crate::names::{At, Name, OpName};
use crate::patterns::{Pat, PatNode};
use crate::types::{TypeNode, TypeTree};
use outside::{Boxed, Seq};
use std::alloc::{AllocError, Global};

#[tactic(auto, using(crate::proofs::DeclLemmas::declared))]
impl DeclTree {
    /// A declaration at its place.
    pub fn new(at: At, node: DeclNode) -> DeclTree
        ensures { decl_of result ≡ decl_of_node node at }
    {
        DeclTree { at, node }
    }
}

#[tactic(auto, using(crate::proofs::TreeLemmas::made))]
impl TypeTree {
    /// A type at its place.
    pub fn new(at: At, node: TypeNode) -> TypeTree
        ensures { form_of result ≡ form_of_node node at }
    {
        TypeTree { at, node }
    }
}

#[tactic(auto, using(crate::proofs::TreeLemmas::made))]
impl Pat {
    /// A pattern at its place.
    pub fn new(at: At, node: PatNode) -> Pat
        ensures { pattern_of result ≡ pattern_of_node node at }
    {
        Pat { at, node }
    }

    /// A pattern `p as x`; only want of memory refuses it.
    pub fn alias(alloc: Global, at: At, pattern: Pat, name: Name) -> Result<Pat, AllocError>
        ensures { IfOk result (λ p. pattern_of p ≡ aliased at (pattern_of pattern) name) }
    {
        let pattern = Boxed::new(alloc, pattern)?;
        Ok(Pat::new(at, PatNode::Alias(pattern, name)))
    }
}

#[tactic(auto, using(crate::proofs::TreeLemmas::made))]
impl Expr {
    /// A term or a formula at its place.
    pub fn new(at: At, node: ExprNode) -> Expr
        ensures { tree_of result ≡ tree_of_node node at }
    {
        Expr { at, node }
    }

    /// A prefix operator with its operand; only want of memory refuses it.
    pub fn prefix(
        alloc: Global,
        at: At,
        operator: OpName,
        operand: Expr,
    ) -> Result<Expr, AllocError>
        ensures { IfOk result (λ e. tree_of e ≡ prefixed at (op_of operator) (tree_of operand)) }
    {
        let operand = Boxed::new(alloc, operand)?;
        Ok(Expr::new(at, ExprNode::Prefix(operator, operand)))
    }

    /// A formula `not e`; only want of memory refuses it.
    pub fn negation(alloc: Global, at: At, operand: Expr) -> Result<Expr, AllocError>
        ensures { IfOk result (λ e. tree_of e ≡ negation at (tree_of operand)) }
    {
        let operand = Boxed::new(alloc, operand)?;
        Ok(Expr::new(at, ExprNode::Not(operand)))
    }

    /// A quantifier, `forall` or else `exists`; only want of memory refuses it.
    pub fn quantifier(
        alloc: Global,
        at: At,
        forall: bool,
        binders: Seq<BinderTree>,
        triggers: Option<TriggerTree>,
        body: Expr,
    ) -> Result<Expr, AllocError>
        ensures { IfOk result (λ e. tree_of e
            ≡ quantified at forall (map binder_of binders) (trigger (option_map terms_of triggers))
            (tree_of body)) }
    {
        let body = Boxed::new(alloc, body)?;
        Ok(Expr::new(at, ExprNode::Quant(forall, binders, triggers, body)))
    }
}

impl BranchTree {
    /// A branch of a `match`.
    #[tactic(auto, using(crate::proofs::TreeLemmas::fields))]
    pub fn new(of: Seq<Seq<Pat>>, body: Expr) -> BranchTree
        ensures { arm_of result ≡ record { alternatives = alternatives of; body = tree_of body } }
    {
        BranchTree {
            alternatives: of,
            body,
        }
    }
}

impl TriggerTree {
    /// Triggers; `bars` says of each separator whether it is `|`.
    #[tactic(auto, using(crate::proofs::TreeLemmas::fields))]
    pub fn new(terms: Seq<Expr>, bars: Seq<bool>) -> TriggerTree
        ensures { terms_of result ≡ record { terms = trees (map tree_of terms); bars = bars } }
    {
        TriggerTree { terms, bars }
    }
}
