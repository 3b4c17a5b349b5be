//! Tokens, and their places.

use flt_rules::Operation;
use flt_tree::Position;

/// The kinds of token. Each word that the grammar names is one, and each variable.
#[derive(Clone, Copy, PartialEq, Eq)]
pub enum Kind {
    // Symbols: { } = == != < + -
    OpenBrace,
    CloseBrace,
    Assign,
    Equal,
    NotEqual,
    Less,
    Plus,
    Minus,
    // Of a filter.
    Filter,
    Altitude,
    Lock,
    Spin,
    Fast,
    Push,
    Queue,
    // Of a callback's head.
    Pre,
    Post,
    Canceled,
    DeferredPre,
    DeferredPost,
    Generic,
    Create,
    Read,
    Write,
    Cleanup,
    // Of statements and what they test.
    Value,
    File,
    Null,
    If,
    Else,
    Repeat,
    Return,
    Irp,
    Data,
    Draining,
    // Of statuses.
    Context,
    WithCallback,
    Synchronize,
    NoCallback,
    Pending,
    DisallowFastIo,
    Complete,
    FinishedProcessing,
    MoreProcessingRequired,
    StatusSuccess,
    StatusAccessDenied,
    StatusCancelled,
    StatusInsufficientResources,
    StatusInvalidParameter,
    StatusPending,
    // Of calls that can fail.
    AllocateContext,
    GetStreamContext,
    GetInstanceContext,
    SetStreamContext,
    SetInstanceContext,
    KeepIfExists,
    ReplaceIfExists,
    Old,
    DeleteStreamContext,
    DeleteInstanceContext,
    InsertIo,
    RemoveNextIo,
    QueueDeferredIoWorkItem,
    QueueGenericWorkItem,
    // Of calls that always succeed.
    DeleteContext,
    ReferenceContext,
    As,
    ReleaseContext,
    AcquireSpinLock,
    ReleaseSpinLock,
    AcquireFastMutex,
    ReleaseFastMutex,
    AcquirePushLock,
    AcquirePushLockShared,
    ReleasePushLock,
    CompletePendedPreOperation,
    CompletePendedPostOperation,
    // Variables.
    N0,
    N1,
    N2,
    N3,
    N4,
    N5,
    N6,
    N7,
    C0,
    C1,
    C2,
    C3,
    C4,
    C5,
    C6,
    C7,
    Arg,
    O0,
    O1,
    O2,
    O3,
    /// A word that the grammar does not name.
    Name,
    Number,
    /// A byte with which no token begins.
    Stray,
    /// A run of letters, digits and `_` that is no word or number, or is too long or too great.
    Malformed,
    /// The end of the text.
    End,
}

impl Kind {
    ghost use Rattle.flt_syntax.specs.Operations.{operation_kind, operation_of};
    ghost use Rattle.std.specs.Prelude.{◌≡◌};

    /// The kind of an operation's name.
    pub fn of_operation(operation: Operation) -> Kind
        ensures { result ≡ operation_kind operation }
    {
        match operation {
            Operation::Create => Kind::Create,
            Operation::Read => Kind::Read,
            Operation::Write => Kind::Write,
            Operation::Cleanup => Kind::Cleanup,
        }
    }

    /// The operation that a word of this kind names.
    pub(crate) fn operation(self) -> Option<Operation>
        ensures { result ≡ operation_of self }
    {
        match self {
            Kind::Create => Some(Operation::Create),
            Kind::Read => Some(Operation::Read),
            Kind::Write => Some(Operation::Write),
            Kind::Cleanup => Some(Operation::Cleanup),
            _ => None,
        }
    }
}

/// A kind, and the value of a number, else 0.
#[derive(Clone, Copy)]
pub struct Word {
    pub kind: Kind,
    pub value: u64,
}

/// A word or symbol with the place of its first byte, and its bytes: from `start`, which counts from 0, up to `end`.
#[derive(Clone, Copy)]
pub struct Token {
    pub word: Word,
    pub position: Position,
    pub start: usize,
    pub end: usize,
}
