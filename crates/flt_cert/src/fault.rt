//! The faults for which no certificate is read.

ghost use Rattle.flt_cert.specs.declared.fault.CertFault.TheVariants.{OutOfMemory};
ghost use Rattle.std.specs.Prelude.{◌≡◌};

use std::alloc::{AllocError, AllocFailed};
use thiserror::Error;

#[derive(Debug, Drop, Error)]
pub enum CertFault {
    /// The first malformed line, counted from 1. A missing line counts.
    #[error("certificate line {0}")]
    Line(usize),
    #[error("out of memory")]
    OutOfMemory,
}

impl From<AllocError> for CertFault {
    ghost from_gives = { λ _ e. e ≡ OutOfMemory };

    fn from(_e: AllocError) -> CertFault {
        CertFault::OutOfMemory
    }
}

impl<T: Drop> From<AllocFailed<T>> for CertFault {
    ghost from_gives = { λ _ e. e ≡ OutOfMemory };

    fn from(_e: AllocFailed<T>) -> CertFault {
        CertFault::OutOfMemory
    }
}
