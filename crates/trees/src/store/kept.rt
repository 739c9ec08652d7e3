//! What a store keeps beside each node, so that no query goes down a tree.
//! It is made once, when the node is added, from what is kept beside its children.
#![tactic(auto)]

ghost use Rattle.std.specs.Prelude.{◌≡◌, None};

use crate::{Sort, TermId};

/// What is kept beside a node.
#[derive(Clone, Copy)]
pub struct Summary {
    /// The number of nodes, or the greatest number.
    pub size: u64,
    /// The number of nodes on the longest path, or the greatest number.
    pub height: u64,
    /// The least number of binders that closes it.
    pub loose: usize,
    /// The number of variables that it binds as a pattern, or the greatest number.
    pub variables: usize,
    /// The least number above its schematic type variables, or the greatest number.
    pub above_types: usize,
    /// The least number above its parameters, or the greatest number.
    pub above_params: usize,
    /// What it yields: of a list its first member's sort, of a branch its body's.
    pub sort: Sort,
    /// The type of what it yields.
    pub ty: Option<TermId>,
}

impl Summary {
    /// That of a closed and ground type, or of the empty list, with so many nodes, one below the other.
    pub fn of_a_type(nodes: u64) -> Summary
        ensures { result ≡ record {
          size = nodes;
          height = nodes;
          loose = 0;
          variables = 0;
          above_types = 0;
          above_params = 0;
          sort = Sort.Kind;
          ty = None;
        } }
    {
        Summary {
            size: nodes,
            height: nodes,
            loose: 0,
            variables: 0,
            above_types: 0,
            above_params: 0,
            sort: Sort::Kind,
            ty: None,
        }
    }
}
