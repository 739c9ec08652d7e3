// Formulas that grow too large.
ghost use Rattle.std.specs.Prelude.{◌≡◌};
ghost use Rattle.tr_if.specs.declared.conditionals.growth.GrowthFault.{GrowthFault};

use std::alloc::AllocError;

/// Why a formula isn't made.
#[derive(Clone, Copy)]
pub enum GrowthFault {
    Memory,
    /// It has more than 2^20 tree nodes.
    TooLarge,
}

impl From<AllocError> for GrowthFault {
    ghost from_gives = { λ _ e. e ≡ GrowthFault.Memory };

    fn from(_: AllocError) -> Self {
        GrowthFault::Memory
    }
}
