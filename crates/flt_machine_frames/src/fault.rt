//! Why filters aren't loaded.

use std::alloc::{AllocError, AllocFailed};
use thiserror::Error;

/// Why filters aren't loaded.
#[derive(Debug, Drop, Error)]
pub enum LoadedFault {
    /// An earlier file has the altitude of this one. Files are numbered from 0, in the order in which they are given.
    #[error("altitude file {file}")]
    Altitude { file: usize },
    #[error("out of memory")]
    OutOfMemory,
}

impl From<AllocError> for LoadedFault {
    ghost use Rattle.std.specs.Prelude.{◌≡◌};
    ghost use Rattle.flt_machine_frames.specs.declared.fault.LoadedFault.TheVariants.{OutOfMemory};

    ghost from_gives = { λ _ e. e ≡ OutOfMemory };

    fn from(_e: AllocError) -> LoadedFault {
        LoadedFault::OutOfMemory
    }
}

impl<T: Drop> From<AllocFailed<T>> for LoadedFault {
    ghost use Rattle.std.specs.Prelude.{◌≡◌};
    ghost use Rattle.flt_machine_frames.specs.declared.fault.LoadedFault.TheVariants.{OutOfMemory};

    ghost from_gives = { λ _ e. e ≡ OutOfMemory };

    fn from(_e: AllocFailed<T>) -> LoadedFault {
        LoadedFault::OutOfMemory
    }
}
