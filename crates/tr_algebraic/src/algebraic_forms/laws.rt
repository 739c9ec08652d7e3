// The laws of an algebraic type.
// They depend on its projections, its constructors and its cases; declarations in the place of a group depend on them.
ghost use Rattle.std.specs.Prelude.{◌≡◌, map, All, IfOk};
ghost use Rattle.trees.specs.Node.{trees_at, Holds, Grows};
ghost use Rattle.tasks.specs.Meaning.{algebraic_at};
ghost use Rattle.tr_algebraic.specs.algebraic_forms.Groups.{type_formulas};
ghost use Rattle.tr_algebraic.specs.algebraic_forms.Making.{AlgIsFit};

use crate::algebraic_forms::cases::exhaustion_law;
use crate::algebraic_forms::distinct::push_distinctness_laws;
use crate::algebraic_forms::projecting::push_all_projection_laws;
use crate::algebraic_forms::terms::own_type;
use std::alloc::{AllocError, Global};
use tasks::Alg;
use trees::TermId;
use trees::store::Store;

/// The laws of a type with so many type variables.
pub(crate) fn type_laws(
    alloc: Global,
    store: &mut Store,
    vars: usize,
    alg: &Alg,
) -> Result<Vec<TermId>, AllocError>
    requires alg { AlgIsFit store.old alg.now }
    ensures laws { IfOk result (λ v. trees_at store.new v.items
        ≡ type_formulas vars (algebraic_at store.old alg.now)) }
    ensures held { IfOk result (λ v. All (Holds store.new) v.items) }
    ensures grows { Grows store.old store.new }
{
    let mut laws = Vec::new(alloc);
    let cons = alg.cons.as_slice();
    let own = own_type(store, alg.symbol, vars)?;
    push_all_projection_laws(store, own, cons, &mut laws)?;
    push_distinctness_laws(store, own, cons, &mut laws)?;
    let last = exhaustion_law(store, own, cons)?;
    laws.push(last)?;
    Ok(laws)
}
