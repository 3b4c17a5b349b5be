//! Why a command ended without its answer.

use flt_explain_runs::ExplainFault;
use flt_model::WriteFault;
use std::alloc::{AllocError, AllocFailed};
use thiserror::Error;

/// Why a command ended without its answer.
#[derive(Clone, Copy, Debug, PartialEq, Eq, Error)]
pub enum CommandFault {
    #[error("out of memory")]
    OutOfMemory,
    #[error("cannot write")]
    Write,
}

impl From<AllocError> for CommandFault {
    ghost use Rattle.std.specs.Prelude.{◌≡◌};
    ghost use Rattle.flt_commands_explain.specs.declared.fault.CommandFault.TheVariants.{OutOfMemory};

    ghost from_gives = { λ _ e. e ≡ OutOfMemory };

    fn from(_: AllocError) -> CommandFault {
        CommandFault::OutOfMemory
    }
}

impl<T: Drop> From<AllocFailed<T>> for CommandFault {
    ghost use Rattle.std.specs.Prelude.{◌≡◌};
    ghost use Rattle.flt_commands_explain.specs.declared.fault.CommandFault.TheVariants.{OutOfMemory};

    ghost from_gives = { λ _ e. e ≡ OutOfMemory };

    fn from(_: AllocFailed<T>) -> CommandFault {
        CommandFault::OutOfMemory
    }
}

impl From<WriteFault> for CommandFault {
    ghost use Rattle.std.specs.Prelude.{◌≡◌};
    ghost use Rattle.flt_commands_explain.specs.declared.fault.CommandFault.TheVariants.{Write};

    ghost from_gives = { λ _ e. e ≡ Write };

    fn from(_: WriteFault) -> CommandFault {
        CommandFault::Write
    }
}

impl From<ExplainFault> for CommandFault {
    ghost use Rattle.std.specs.Prelude.{◌≡◌};
    ghost use Rattle.flt_commands_explain.specs.Fault.{of_explain};

    ghost from_gives = { λ f e. e ≡ of_explain f };

    fn from(fault: ExplainFault) -> CommandFault {
        match fault {
            ExplainFault::OutOfMemory => CommandFault::OutOfMemory,
            ExplainFault::Write => CommandFault::Write,
        }
    }
}
