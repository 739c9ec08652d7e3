// What was found without a fault, for the tasks that are checked after one another.
// It depends on what is in a table; the checks depend on it.
ghost use Rattle.std.specs.Prelude.{◌≡◌, ◌<◌, length, All, IfOk, OnOk};
ghost use Rattle.printed_problems.specs.Checked.{keys_at, IsEmptyChecked, TurnsTo};

use indexmap::IndexSet;
use name_tables::Things;
use std::alloc::{AllocError, Global};

/// What was found without a fault: terms whose forms the printer has, and formulas without a fault where these things are the
/// interpreted symbols without a template.
#[derive(Drop)]
pub struct Checked {
    pub formed: IndexSet<usize>,
    pub faultless: IndexSet<usize>,
    pub bare: Vec<(usize, usize)>,
}

// The things of a table at these places.
fn keys_at(
    alloc: Global,
    things: &Things,
    places: &[usize],
) -> Result<Vec<(usize, usize)>, AllocError>
    requires { All (λ place. place < length things.now) places.now }
    ensures { IfOk result (λ v. v.items ≡ keys_at things.now places.now) }
{
    let keys = things.as_slice();
    let mut made = Vec::new(alloc);
    for place in places {
        made.push(keys[*place])?;
    }
    Ok(made)
}

impl Checked {
    /// Nothing was found.
    pub(crate) fn new(alloc: Global) -> Checked
        ensures { IsEmptyChecked result }
    {
        Checked {
            formed: IndexSet::new(alloc),
            faultless: IndexSet::new(alloc),
            bare: Vec::new(alloc),
        }
    }

    /// Forgets the formulas that were found where other things are bare than those at these places.
    pub(crate) fn turn_to(
        &mut self,
        alloc: Global,
        things: &Things,
        places: &[usize],
    ) -> Result<(), AllocError>
        requires { All (λ place. place < length things.now) places.now }
        ensures { OnOk result (TurnsTo self.old (keys_at things.now places.now) self.new) }
    {
        let bare = keys_at(alloc, things, places)?;
        if self.bare.as_slice() == bare.as_slice() {
            return Ok(());
        }
        self.faultless = IndexSet::new(alloc);
        self.bare = bare;
        Ok(())
    }
}
