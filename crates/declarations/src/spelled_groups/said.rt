// What a group says of its symbols, over a store.
// It depends on the declarations; spelling groups out depends on it.
ghost use Rattle.std.specs.Prelude.{◌≡◌, ◌++◌, map, All, OnOk};
ghost use Rattle.trees.specs.Node.{Holds};
ghost use Rattle.tasks.specs.declared.declaration.Def.{Def};
ghost use Rattle.tasks.specs.Task.{symbol_or};
ghost use Rattle.tasks.specs.Facts.{equation_fact};
ghost use Rattle.tasks.specs.Meaning.{symbols_at, definitions_at};
ghost use Rattle.declarations.specs.spelled_groups.Stored.{facts_at, SaidHeld};

use std::alloc::AllocError;
use tasks::{Def, Fact, Signature};
use trees::TermId;
use trees::store::Store;

/// A formula that a group says, with the name of the fact of the group from which it follows, and the number of its type variables.
#[derive(Clone, Copy)]
pub struct Said {
    pub name: Fact,
    pub vars: usize,
    pub formula: TermId,
}

// The number of a symbol's type variables.
pub(crate) fn vars_of(store: &Store, sig: &Signature, symbol: usize) -> usize
    ensures { result ≡ (symbol_or (symbols_at store.now sig.now.symbols) symbol).vars }
{
    let _ = store;
    match sig.symbols.get(symbol) {
        Some(info) => info.vars,
        None => 0,
    }
}

// The equations of definitions, after others.
pub(crate) fn push_equations(
    store: &Store,
    sig: &Signature,
    defs: &[Def],
    said: &mut Vec<Said>,
) -> Result<(), AllocError>
    requires defs { All (λ (d : Def). Holds store.now d.equation) defs.now }
    requires said { All (SaidHeld store.now) said.old.items }
    ensures said { OnOk result (facts_at store.now said.new.items
        ≡ facts_at store.now said.old.items
        ++ map (equation_fact (symbols_at store.now sig.now.symbols))
        (definitions_at store.now defs.now)) }
    ensures held { OnOk result (All (SaidHeld store.now) said.new.items) }
{
    match defs.split_first() {
        Some((first, rest)) => {
            said.push(Said {
                name: Fact::Equation(first.symbol),
                vars: vars_of(store, sig, first.symbol),
                formula: first.equation,
            })?;
            push_equations(store, sig, rest, said)
        }
        None => Ok(()),
    }
}
