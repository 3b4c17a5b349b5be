//! The faults for which no journal is read.

ghost use Rattle.flt_model.specs.declared.fault.JournalFault.TheVariants.{OutOfMemory};
ghost use Rattle.std.specs.Prelude.{◌≡◌};

use std::alloc::{AllocError, AllocFailed};
use thiserror::Error;

#[derive(Debug, Drop, Error)]
pub enum JournalFault {
    /// The first malformed line, counted from 1. A missing line counts.
    #[error("journal line {0}")]
    Line(usize),
    /// The reader failed.
    #[error("cannot read the journal")]
    Read,
    #[error("out of memory")]
    OutOfMemory,
}

impl From<AllocError> for JournalFault {
    ghost from_gives = { λ _ e. e ≡ OutOfMemory };

    fn from(_e: AllocError) -> JournalFault {
        JournalFault::OutOfMemory
    }
}

impl<T: Drop> From<AllocFailed<T>> for JournalFault {
    ghost from_gives = { λ _ e. e ≡ OutOfMemory };

    fn from(_e: AllocFailed<T>) -> JournalFault {
        JournalFault::OutOfMemory
    }
}
