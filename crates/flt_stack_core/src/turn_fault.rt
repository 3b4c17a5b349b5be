//! Why a turn was not taken.

ghost use Rattle.std.specs.Prelude.{◌≡◌};
ghost use Rattle.flt_stack_core.specs.declared.turn_fault.TurnFault.TheVariants.{OutOfMemory};

use std::alloc::{AllocError, AllocFailed};

/// Why a turn was not taken.
#[derive(Debug, Clone, Copy, PartialEq, Eq)]
pub enum TurnFault {
    /// The journal has 1,000,000 entries; or 65,536 operations have arrived, and one more would.
    Full,
    /// A growth was refused.
    OutOfMemory,
}

impl From<AllocError> for TurnFault {
    ghost from_gives = { λ _ e. e ≡ OutOfMemory };

    fn from(_refused: AllocError) -> Self {
        TurnFault::OutOfMemory
    }
}

impl<T: Drop> From<AllocFailed<T>> for TurnFault {
    ghost from_gives = { λ _ e. e ≡ OutOfMemory };

    fn from(_refused: AllocFailed<T>) -> Self {
        TurnFault::OutOfMemory
    }
}
