//! Why an operation can't arrive.

ghost use Rattle.std.specs.Prelude.{◌≡◌};
ghost use Rattle.flt_ops.specs.declared.fault.ArriveFault.TheVariants.{OutOfMemory};

use std::alloc::AllocError;

/// Why an operation can't arrive.
#[derive(Debug, Clone, Copy, PartialEq, Eq)]
pub enum ArriveFault {
    /// There are 65,536 operations already.
    Full,
    /// A growth was refused.
    OutOfMemory,
}

impl From<AllocError> for ArriveFault {
    ghost from_gives = { λ _ e. e ≡ OutOfMemory };

    fn from(_refused: AllocError) -> Self {
        ArriveFault::OutOfMemory
    }
}
