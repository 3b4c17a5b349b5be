//! Why a body is not read.

use crate::tree::Place;
use flt_c_tokens::Kind;
use std::alloc::AllocError;
use thiserror::Error;

/// Why no production reads a token.
#[derive(Clone, Copy, Debug, Error)]
pub enum Reason {
    #[error("another token is expected")]
    Unexpected,
    #[error("brackets, blocks or statements are nested too deep")]
    TooDeep,
    #[error("the body has too many tokens")]
    TooLong,
    #[error("assembler is not read")]
    Assembler,
    #[error("this word of C++ is not read")]
    CPlusPlus,
    #[error("a statement as an expression is not read")]
    StatementExpression,
    #[error("a lambda is not read")]
    Lambda,
    #[error("this byte begins no token")]
    Stray,
    #[error("a quote does not end in its line")]
    Unclosed,
    #[error("a line continuation joins two tokens")]
    Joined,
    #[error("a comment does not end")]
    OpenComment,
}

/// The first token at which reading stops.
#[derive(Clone, Copy)]
pub struct Fault {
    pub reason: Reason,
    pub kind: Kind,
    pub place: Place,
}

/// Why there is no tree.
#[derive(Clone, Copy)]
pub enum ReadError {
    Syntax(Fault),
    OutOfMemory,
}

impl From<AllocError> for ReadError {
    ghost use Rattle.std.specs.Prelude.{◌≡◌};
    ghost use Rattle.flt_c_syntax.specs.declared.fault.ReadError.TheVariants.{OutOfMemory};

    ghost from_gives = { λ _ e. e ≡ OutOfMemory };

    fn from(_: AllocError) -> ReadError {
        ReadError::OutOfMemory
    }
}
