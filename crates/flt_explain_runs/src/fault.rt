//! Why reports on texts are missing.

use flt_model::WriteFault;
use std::alloc::{AllocError, AllocFailed};
use thiserror::Error;

/// Why some or all reports on texts are missing.
#[derive(Clone, Copy, Debug, PartialEq, Eq, Error)]
pub enum ExplainFault {
    /// Memory is refused, or a number or a count would reach 2^32.
    #[error("out of memory")]
    OutOfMemory,
    #[error("cannot write")]
    Write,
}

impl From<AllocError> for ExplainFault {
    ghost use Rattle.std.specs.Prelude.{◌≡◌};
    ghost use Rattle.flt_explain_runs.specs.declared.fault.ExplainFault.TheVariants.{OutOfMemory};

    ghost from_gives = { λ _ e. e ≡ OutOfMemory };

    fn from(_: AllocError) -> ExplainFault {
        ExplainFault::OutOfMemory
    }
}

impl<T: Drop> From<AllocFailed<T>> for ExplainFault {
    ghost use Rattle.std.specs.Prelude.{◌≡◌};
    ghost use Rattle.flt_explain_runs.specs.declared.fault.ExplainFault.TheVariants.{OutOfMemory};

    ghost from_gives = { λ _ e. e ≡ OutOfMemory };

    fn from(_: AllocFailed<T>) -> ExplainFault {
        ExplainFault::OutOfMemory
    }
}

impl From<WriteFault> for ExplainFault {
    ghost use Rattle.std.specs.Prelude.{◌≡◌};
    ghost use Rattle.flt_explain_runs.specs.declared.fault.ExplainFault.TheVariants.{Write};

    ghost from_gives = { λ _ e. e ≡ Write };

    fn from(_: WriteFault) -> ExplainFault {
        ExplainFault::Write
    }
}
