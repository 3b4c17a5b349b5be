//! Why filters aren't loaded.

use flt_cert::CertFault;
use flt_rules::Refusal;
use flt_syntax::SyntaxFault;
use std::alloc::{AllocError, AllocFailed};
use thiserror::Error;

/// Why filters aren't loaded. Files are numbered from 0, in the order in which they are given.
#[derive(Debug, Drop, Error)]
pub enum LoadFault {
    /// There is no file, or there are more than 16.
    #[error("1 to 16 filters can be loaded")]
    Count,
    /// The first fault of a file's text.
    #[error("file {file} syntax {fault}")]
    Syntax { file: usize, fault: SyntaxFault },
    /// The first line of a file's certificate that no certificate has. It is never the certificate's `OutOfMemory`.
    #[error("file {file} {fault}")]
    Cert { file: usize, fault: CertFault },
    /// A file's certificate doesn't cover its text: the least fault.
    #[error("refused file {file}")]
    Refused { file: usize, refusal: Refusal },
    /// An earlier file has the altitude of this one.
    #[error("altitude file {file}")]
    Altitude { file: usize },
    #[error("out of memory")]
    OutOfMemory,
}

impl From<AllocError> for LoadFault {
    ghost use Rattle.std.specs.Prelude.{◌≡◌};
    ghost use Rattle.flt_stack.specs.declared.fault.LoadFault.TheVariants.{OutOfMemory};

    ghost from_gives = { λ _ e. e ≡ OutOfMemory };

    fn from(_e: AllocError) -> LoadFault {
        LoadFault::OutOfMemory
    }
}

impl<T: Drop> From<AllocFailed<T>> for LoadFault {
    ghost use Rattle.std.specs.Prelude.{◌≡◌};
    ghost use Rattle.flt_stack.specs.declared.fault.LoadFault.TheVariants.{OutOfMemory};

    ghost from_gives = { λ _ e. e ≡ OutOfMemory };

    fn from(_e: AllocFailed<T>) -> LoadFault {
        LoadFault::OutOfMemory
    }
}
