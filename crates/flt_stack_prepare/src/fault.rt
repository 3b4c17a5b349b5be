//! Why a script wasn't driven.

use flt_rules::Refusal;
use flt_syntax::{SyntaxFault, TextsFault};
use std::alloc::{AllocError, AllocFailed};
use thiserror::Error;

/// Why a script wasn't driven. Files are numbered from 0, in the order in which they are given.
#[derive(Debug, Drop, Error)]
pub enum RunFault {
    /// There is no file, or there are more than 16.
    #[error("1 to 16 filters can be run")]
    Count,
    /// The first fault of a file's text.
    #[error("file {file} syntax {fault}")]
    Syntax { file: usize, fault: SyntaxFault },
    /// The first malformed line of the script, from 1.
    #[error("script line {line}")]
    Script { line: usize },
    /// No certificate covers a file's text: the fault that is met first.
    #[error("refused file {file}")]
    Refused { file: usize, refusal: Refusal },
    /// An earlier file has the altitude of this one.
    #[error("altitude file {file}")]
    Altitude { file: usize },
    #[error("out of memory")]
    OutOfMemory,
}

impl From<AllocError> for RunFault {
    ghost use Rattle.std.specs.Prelude.{◌≡◌};
    ghost use Rattle.flt_stack_prepare.specs.declared.fault.RunFault.TheVariants.{OutOfMemory};

    ghost from_gives = { λ _ e. e ≡ OutOfMemory };

    fn from(_e: AllocError) -> RunFault {
        RunFault::OutOfMemory
    }
}

impl<T: Drop> From<AllocFailed<T>> for RunFault {
    ghost use Rattle.std.specs.Prelude.{◌≡◌};
    ghost use Rattle.flt_stack_prepare.specs.declared.fault.RunFault.TheVariants.{OutOfMemory};

    ghost from_gives = { λ _ e. e ≡ OutOfMemory };

    fn from(_e: AllocFailed<T>) -> RunFault {
        RunFault::OutOfMemory
    }
}

impl From<TextsFault> for RunFault {
    ghost use Rattle.std.specs.Prelude.{◌≡◌};
    ghost use Rattle.flt_stack_prepare.specs.Texts.{of_texts};

    ghost from_gives = { λ f e. e ≡ of_texts f };

    fn from(fault: TextsFault) -> RunFault {
        match fault {
            TextsFault::Syntax { number, fault } => RunFault::Syntax {
                file: number,
                fault,
            },
            TextsFault::OutOfMemory => RunFault::OutOfMemory,
        }
    }
}
