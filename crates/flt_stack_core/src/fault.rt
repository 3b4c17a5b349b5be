//! Why nothing arrived, or no teardown began.

ghost use Rattle.std.specs.Prelude.{◌≡◌};
ghost use Rattle.flt_stack_core.specs.declared.fault.ArriveFault.TheVariants as arrive_fault;
ghost use Rattle.flt_stack_core.specs.declared.fault.DetachFault.TheVariants as detach_fault;

use std::alloc::AllocError;

/// Why an operation didn't arrive. Nothing has changed.
#[derive(Debug, Clone, Copy, PartialEq, Eq)]
pub enum ArriveFault {
    /// There are 1,000,000 entries, or 65,536 operations.
    Full,
    /// A growth was refused.
    OutOfMemory,
}

impl From<AllocError> for ArriveFault {
    ghost from_gives = { λ _ e. e ≡ arrive_fault.OutOfMemory };

    fn from(_refused: AllocError) -> Self {
        ArriveFault::OutOfMemory
    }
}

/// Why no teardown began. Nothing has changed. Of several faults the first in this order is reported.
#[derive(Debug, Clone, Copy, PartialEq, Eq)]
pub enum DetachFault {
    /// No filter has the altitude.
    NoSuch,
    /// The filter's teardown has begun before.
    Already,
    /// There are 1,000,000 entries.
    Full,
    /// A growth was refused.
    OutOfMemory,
}

impl From<AllocError> for DetachFault {
    ghost from_gives = { λ _ e. e ≡ detach_fault.OutOfMemory };

    fn from(_refused: AllocError) -> Self {
        DetachFault::OutOfMemory
    }
}
