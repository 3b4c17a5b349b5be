//! Why there is no certificate.

ghost use Rattle.flt_analyse.specs.declared.fault.AnalyseFault.TheVariants.{OutOfMemory, Refused};
ghost use Rattle.std.specs.Prelude.{◌≡◌, IfOk, IfErr};

use flt_rules::Refusal;
use std::alloc::{AllocError, AllocFailed};
use thiserror::Error;

#[derive(Debug, Drop, Error)]
pub enum AnalyseFault {
    /// No certificate covers: where the walk over the points stopped, and at which rule.
    #[error("no certificate covers")]
    Refused(Refusal),
    #[error("out of memory")]
    OutOfMemory,
}

impl AnalyseFault {
    /// The refusal, unless memory ran out.
    pub(crate) fn refusal(self) -> Result<Refusal, AllocError>
        ensures refused { IfOk result (λ r. self ≡ Refused r) }
        ensures memory { IfErr result (λ _. self ≡ OutOfMemory) }
    {
        match self {
            AnalyseFault::Refused(refusal) => Ok(refusal),
            AnalyseFault::OutOfMemory => Err(AllocError),
        }
    }
}

impl From<AllocError> for AnalyseFault {
    ghost from_gives = { λ _ e. e ≡ OutOfMemory };

    fn from(_e: AllocError) -> AnalyseFault {
        AnalyseFault::OutOfMemory
    }
}

impl<T: Drop> From<AllocFailed<T>> for AnalyseFault {
    ghost from_gives = { λ _ e. e ≡ OutOfMemory };

    fn from(_e: AllocFailed<T>) -> AnalyseFault {
        AnalyseFault::OutOfMemory
    }
}
