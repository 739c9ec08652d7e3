// The bindings of unknowns: a list, latest first, and a map that finds the type of an unknown.
// They depend on a map of the standard library; resolving and solving depend on them.
ghost use Rattle.std.specs.Prelude.{◌≡◌, ◌<◌, ◌∷◌, [], length, get_or, OnOk};
ghost use Rattle.open_types.specs.unify_types.Bound.{type_bound};

use std::alloc::{AllocError, Global};
use std::collections::HashMap;
use std::marker::Model;
use trees::TermId;

/// An unknown and the type that it is bound to.
#[derive(Clone, Copy)]
pub struct Bound {
    pub unknown: usize,
    pub ty: TermId,
}

/// Bindings, which contracts see as their list, latest first.
#[derive(Drop)]
pub struct Bindings {
    list: Vec<Bound>,
    types: HashMap<usize, TermId>,
}

impl Model for Bindings {
    ghost use Rattle.std.specs.Prelude.{List, reverse};
    ghost use Rattle.open_types.specs.declared.unify_types.bindings.Bound.{Bound};

    ghost Value = { List Bound };

    ghost use Rattle.open_types.specs.unify_types.Bound.{AreFound};

    ghost view = { λ s. reverse s.list.items };

    ghost invariant = { λ s. AreFound s.list.items s.types };
}

impl Bindings {
    ghost use Rattle.open_types.specs.declared.unify_types.bindings.Bound.{Bound};

    /// No bindings. `alloc` is what later bindings take their memory from.
    pub fn new(alloc: Global) -> Bindings
        ensures { result ≡ [] }
    {
        Bindings {
            list: Vec::new(alloc),
            types: HashMap::new(alloc),
        }
    }

    /// The type to which an unknown was bound last.
    pub fn get(&self, unknown: usize) -> Option<TermId>
        ensures { result ≡ type_bound unknown self.now }
    {
        self.types.get(&unknown).copied()
    }

    /// How many bindings there are.
    pub fn len(&self) -> usize
        ensures { result ≡ length self.now }
    {
        self.list.as_slice().len()
    }

    /// The unknown of a binding, counted from the latest.
    pub fn unknown_at(&self, index: usize) -> usize
        requires { index < length self.now }
        ensures { (d : Bound) → (get_or self.now index d).unknown ≡ result }
    {
        let list = self.list.as_slice();
        list[list.len() - 1 - index].unknown
    }

    /// A further binding.
    pub fn add_binding(&mut self, unknown: usize, ty: TermId) -> Result<(), AllocError>
        ensures { OnOk result (self.new ≡ record { unknown = unknown; ty = ty } ∷ self.old) }
    {
        let count = self.list.len();
        self.list.push(Bound { unknown, ty })?;
        match self.types.insert(unknown, ty) {
            Ok(_) => {}
            Err(_) => {
                self.list.truncate(count);
                return Err(AllocError);
            }
        }
        Ok(())
    }
}
