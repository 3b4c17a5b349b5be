//! Why a text is refused.

use std::alloc::AllocError;
use thiserror::Error;

/// The kind of a fault.
#[derive(Clone, Copy, Debug, Error)]
pub enum FaultKind {
    /// A byte with which no token begins.
    #[error("E01")]
    E01,
    /// A run of letters, digits and `_` that is no word or number, or is too long or too great.
    #[error("E02")]
    E02,
    /// Another token than the grammar requires.
    #[error("E03")]
    E03,
    /// An unknown name.
    #[error("E04")]
    E04,
    /// A name or a callback that is declared twice.
    #[error("E05")]
    E05,
    /// A limit is passed.
    #[error("E06")]
    E06,
    /// A queue without a `canceled` callback, or a post callback without its pre callback.
    #[error("E07")]
    E07,
    /// A variable that appears twice in one call.
    #[error("E08")]
    E08,
}

/// The first fault of a text, at the first byte of a token. Lines and columns count from 1.
#[derive(Clone, Copy, Debug, Error)]
#[error("{line}:{column} {kind}")]
pub struct SyntaxFault {
    pub line: usize,
    pub column: usize,
    pub kind: FaultKind,
}

/// Why there is no tree.
#[derive(Clone, Copy, Debug, Error)]
pub enum ParseError {
    #[error("{0}")]
    Syntax(SyntaxFault),
    #[error("out of memory")]
    OutOfMemory,
}

impl From<AllocError> for ParseError {
    ghost use Rattle.std.specs.Prelude.{◌≡◌};
    ghost use Rattle.flt_syntax.specs.declared.fault.ParseError.TheVariants.{OutOfMemory};

    ghost from_gives = { λ _ e. e ≡ OutOfMemory };

    fn from(_: AllocError) -> ParseError {
        ParseError::OutOfMemory
    }
}
