//! Why a command has no answer.

ghost use Rattle.std.specs.Prelude.{◌≡◌};
ghost use Rattle.flt_files.specs.Failure as spec;

use crate::unwritten::OutputFault;
use flt_c::Flaw;
use flt_cert::CertFault;
use flt_syntax::{ParseError, SyntaxFault, TextsFault};
use std::alloc::{AllocError, AllocFailed};

/// Why there is no answer.
#[derive(Debug, Drop)]
pub enum Failure<'a> {
    CannotRead(&'a str),
    CannotWrite(&'a str, OutputFault),
    /// A run without a file.
    NoFile,
    /// More than `MAX_FILTERS` files.
    TooManyFiles,
    Syntax(SyntaxFault),
    /// The first fault of the text of one of several files, numbered from 0.
    FileSyntax(usize, SyntaxFault),
    /// The first line of a certificate, from 1, that is malformed.
    Certificate(usize),
    /// The same for a journal.
    JournalLine(usize),
    /// The same for a script.
    ScriptLine(usize),
    /// The flaw of the C file of a name.
    Flawed(&'a str, Flaw),
    /// The C files up to the one of this name have too many different words: the first too many is at this line and column, from 1.
    TooManyWords(&'a str, u32, u32),
    /// The first file, from 0, whose altitude an earlier one has.
    Altitude(usize),
    OutOfMemory,
}

impl From<AllocError> for Failure<'_> {
    ghost use Rattle.flt_files.specs.declared.failure.Failure.TheVariants.{OutOfMemory};

    ghost from_gives = { λ _ e. e ≡ OutOfMemory };

    fn from(_: AllocError) -> Self {
        Failure::OutOfMemory
    }
}

impl<T: Drop> From<AllocFailed<T>> for Failure<'_> {
    ghost use Rattle.flt_files.specs.declared.failure.Failure.TheVariants.{OutOfMemory};

    ghost from_gives = { λ _ e. e ≡ OutOfMemory };

    fn from(_: AllocFailed<T>) -> Self {
        Failure::OutOfMemory
    }
}

impl From<CertFault> for Failure<'_> {
    ghost from_gives = { λ e f. f ≡ spec.of_certificate e };

    fn from(fault: CertFault) -> Self {
        match fault {
            CertFault::Line(line) => Failure::Certificate(line),
            CertFault::OutOfMemory => Failure::OutOfMemory,
        }
    }
}

impl From<ParseError> for Failure<'_> {
    ghost from_gives = { λ e f. f ≡ spec.of_parse e };

    fn from(fault: ParseError) -> Self {
        match fault {
            ParseError::Syntax(fault) => Failure::Syntax(fault),
            ParseError::OutOfMemory => Failure::OutOfMemory,
        }
    }
}

impl From<TextsFault> for Failure<'_> {
    ghost from_gives = { λ e f. f ≡ spec.of_texts e };

    fn from(fault: TextsFault) -> Self {
        match fault {
            TextsFault::Syntax { number, fault } => Failure::FileSyntax(number, fault),
            TextsFault::OutOfMemory => Failure::OutOfMemory,
        }
    }
}
