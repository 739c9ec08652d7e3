// Why inlining makes nothing.
ghost use Rattle.std.specs.Prelude.{◌≡◌};
ghost use Rattle.tr_inline.specs.declared.full_bodies.fault.InlineFault.{InlineFault};

use std::alloc::AllocError;

/// Why inlining makes nothing.
#[derive(Clone, Copy)]
pub enum InlineFault {
    Memory,
    /// What would be made has more than 2^20 nodes, or is higher than 2,000.
    Large,
}

impl From<AllocError> for InlineFault {
    ghost from_gives = { λ _ e. e ≡ InlineFault.Memory };

    fn from(_: AllocError) -> Self {
        InlineFault::Memory
    }
}
