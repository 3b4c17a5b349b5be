//! Why a move was not made.

ghost use Rattle.std.specs.Prelude.{◌≡◌};
ghost use Rattle.flt_machine.specs.declared.fault.ApplyFault.TheVariants.{OutOfMemory};

use std::alloc::AllocError;

/// Why a move was not made. The board and its journal are as they were.
#[derive(Debug, Clone, Copy, PartialEq, Eq)]
pub enum ApplyFault {
    /// The machine's move isn't enabled.
    NotEnabled,
    /// There are 1,000,000 entries, or 65,536 operations if one more arrives.
    Full,
    /// A growth was refused.
    OutOfMemory,
}

impl From<AllocError> for ApplyFault {
    ghost from_gives = { λ _ e. e ≡ OutOfMemory };

    fn from(_refused: AllocError) -> Self {
        ApplyFault::OutOfMemory
    }
}
