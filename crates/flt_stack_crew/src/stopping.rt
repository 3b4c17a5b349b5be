//! Why a script is broken off.

ghost use Rattle.std.specs.Prelude.{◌≡◌, ◌≢◌};
ghost use Rattle.flt_stack_crew.specs.declared.stopping.Stop.TheVariants as stop;
ghost use Rattle.flt_stack_core.specs.declared.turn_fault.TurnFault.TheVariants as turn_fault;

use flt_stack_threads::TurnFault;
use std::alloc::AllocError;

/// Why a script is broken off.
#[derive(Clone, Copy)]
pub(crate) enum Stop {
    /// The journal, or the number of operations, is full.
    Full,
    /// A command detaches a filter whose teardown had begun before.
    Already,
    /// A growth was refused.
    OutOfMemory,
}

impl From<AllocError> for Stop {
    ghost from_gives = { λ _ e. e ≡ stop.OutOfMemory };

    fn from(_refused: AllocError) -> Self {
        Stop::OutOfMemory
    }
}

impl From<TurnFault> for Stop {
    ghost from_gives = { λ fault e. (e ≡ stop.Full → fault ≡ turn_fault.Full) × (e ≢ stop.Already) };

    fn from(fault: TurnFault) -> Self {
        match fault {
            TurnFault::Full => Stop::Full,
            TurnFault::OutOfMemory => Stop::OutOfMemory,
        }
    }
}
