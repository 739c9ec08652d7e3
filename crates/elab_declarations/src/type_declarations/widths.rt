// The widths of the tuples in the fields of algebraic types.
ghost use Rattle.std.specs.Prelude.{◌≡◌, IfOk, OnOk};
ghost use Rattle.name_resolution.specs.variables.Entered.{seen_at};
ghost use Rattle.elab_declarations.specs.type_declarations.Algebraics.{constructors_in, constructors_of, algebraics_of, constructors_seen, types_seen, group_seen};

use elab_groups::members::enter_params;
use name_resolution::variables::Seen;
use scopes::Seq;
use std::alloc::{AllocError, Global};
use surface::{AlgTree, ConTree};

// Those of constructors, after those that are there.
fn enter_constructors(alloc: Global, seen: &mut Seen, cons: &[ConTree]) -> Result<(), AllocError>
    ensures { OnOk result (seen_at seen.new ≡ constructors_seen (seen_at seen.old)
        (constructors_of cons.now)) }
{
    let Some((first, rest)) = cons.split_first() else {
        return Ok(());
    };
    enter_params(alloc, seen, first.fields.as_slice())?;
    enter_constructors(alloc, seen, rest)
}

// Those of a type, after those that are there.
fn enter_alternatives(alloc: Global, seen: &mut Seen, of: &AlgTree) -> Result<(), AllocError>
    ensures { OnOk result (seen_at seen.new ≡ constructors_seen (seen_at seen.old)
        (constructors_in of.now)) }
{
    let fields = of.fields.as_slice();
    if let [_, ..] = fields {
        return enter_params(alloc, seen, fields);
    }
    enter_constructors(alloc, seen, of.cons.as_slice())
}

// Those of types, after those that are there.
fn enter_types(alloc: Global, seen: &mut Seen, types: &[AlgTree]) -> Result<(), AllocError>
    ensures { OnOk result (seen_at seen.new
        ≡ types_seen (seen_at seen.old) (algebraics_of types.now)) }
{
    let Some((first, rest)) = types.split_first() else {
        return Ok(());
    };
    enter_alternatives(alloc, seen, first)?;
    enter_types(alloc, seen, rest)
}

/// Those of a group.
pub fn group_seen(alloc: Global, types: &[AlgTree]) -> Result<Seen, AllocError>
    ensures { IfOk result (λ seen. seen_at seen ≡ group_seen (algebraics_of types.now)) }
{
    let mut seen = Seen {
        vars: Seq::new(alloc),
        widths: Seq::new(alloc),
    };
    enter_types(alloc, &mut seen, types)?;
    Ok(seen)
}
