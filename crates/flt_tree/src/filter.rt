//! The meaning of a text: a filter, its callbacks and their statements.

ghost use Rattle.std.specs.Prelude.{◌≡◌};
ghost use Rattle.flt_tree.specs.Filter as spec;
ghost use Rattle.flt_tree.specs.Registered as registered;
ghost use Rattle.flt_tree.specs.declared.filter.Statement.{out-Statement};

use crate::variable::{
    Atom, ContextVariable, Expression, NumberVariable, OperationVariable, RemovedVariable,
};
use flt_rules::{
    Anchor, Existing, FinalStatus, LockKind, LockNumber, Operation, Place, StatusWord,
};
use sqlite_items::Items;

/// A line and a column, each counted from 1.
#[derive(Clone, Copy)]
pub struct Position {
    pub line: usize,
    pub column: usize,
}

/// The place of a part of a text: the line of its first token, from 1, and its bytes from `start`, which counts from 0, up to `end`. The
/// line is that of the whole statement, while the bytes leave its blocks out: of an `if` they are its condition, of a `repeat` its word and
/// its number.
#[derive(Clone, Copy)]
pub struct Span {
    pub line: usize,
    pub start: usize,
    pub end: usize,
}

/// A callback status as it is written, with the completion context or the final status that it names.
#[derive(Clone, Copy)]
pub enum Status {
    WithCallback(Option<ContextVariable>),
    Synchronize(Option<ContextVariable>),
    NoCallback,
    Complete(FinalStatus),
    Pending,
    DisallowFastIo,
    FinishedProcessing,
    MoreProcessingRequired,
}

/// The name of a routine where a call uses it.
#[derive(Drop)]
pub struct Routine {
    pub name: Items<u8>,
    pub position: Position,
}

/// A call that can fail. It appears only as the condition of an `if`, whose first block is taken if the call succeeds. It names a routine by
/// an `R`: in a tree that is its name, and where the call is resolved its number among the callbacks.
#[derive(Clone, Copy, Drop)]
pub enum FallibleCall<R> {
    /// FltAllocateContext: the variable that receives the context.
    AllocateContext(ContextVariable),
    /// FltGetStreamContext, FltGetInstanceContext: the variable that receives the context.
    GetContext(Anchor, ContextVariable),
    /// FltSetStreamContext, FltSetInstanceContext: the context that is set, and the variable that receives the one
    /// that was there.
    SetContext(Anchor, Existing, ContextVariable, Option<ContextVariable>),
    /// FltDeleteStreamContext, FltDeleteInstanceContext: the variable that receives the context that was there.
    DeleteContextOf(Anchor, Option<ContextVariable>),
    /// FltCbdqInsertIo of `data`, with the context that goes with it.
    InsertIo(Option<ContextVariable>),
    /// FltCbdqRemoveNextIo: the variables that receive the operation and its context.
    RemoveNextIo(RemovedVariable, ContextVariable),
    /// FltQueueDeferredIoWorkItem of `data`, with the context that goes with it.
    QueueDeferredIoWorkItem(R, Option<ContextVariable>),
    /// FltQueueGenericWorkItem, with the context that goes with it.
    QueueGenericWorkItem(R, Option<ContextVariable>),
}

/// A call that always succeeds.
#[derive(Clone, Copy)]
pub enum PlainCall {
    DeleteContext(ContextVariable),
    /// FltReferenceContext of the first context, as the second.
    ReferenceContext(ContextVariable, ContextVariable),
    ReleaseContext(ContextVariable),
    /// KeAcquireSpinLock, ExAcquireFastMutex, FltAcquirePushLockExclusive
    AcquireLock(LockKind, LockNumber),
    /// FltAcquirePushLockShared
    AcquirePushLockShared(LockNumber),
    /// KeReleaseSpinLock, ExReleaseFastMutex, FltReleasePushLock
    ReleaseLock(LockKind, LockNumber),
    CompletePendedPreOperation(OperationVariable, Status),
    /// FltCompletePendedPostOperation of `data`.
    CompletePendedPostOperation,
}

/// A test of the callback's own variables or of its operation.
#[derive(Clone, Copy)]
pub enum Test {
    /// `c != NULL`
    ContextIsSome(ContextVariable),
    /// `o != NULL`
    OperationIsSome(RemovedVariable),
    /// `n == atom`
    Equal(NumberVariable, Atom),
    /// `n < atom`
    Less(NumberVariable, Atom),
    /// `irp data`
    IsIrp,
    /// `draining`
    IsDraining,
}

/// The condition of an `if`.
#[derive(Drop)]
pub enum Condition {
    Test(Test),
    /// Whether the call succeeds.
    Succeeds(FallibleCall<Routine>),
}

/// A statement that neither calls nor branches.
#[derive(Clone, Copy)]
pub enum Action {
    /// `n = atom`, `n = atom + atom`, `n = atom - atom`
    SetNumber(NumberVariable, Expression),
    /// `n = value c`
    ReadValue(NumberVariable, ContextVariable),
    /// `n = file d`
    ReadFile(NumberVariable, OperationVariable),
    /// `value c = atom`
    WriteValue(ContextVariable, Atom),
    /// `c = NULL`
    ClearContext(ContextVariable),
    /// `o = NULL`
    ClearOperation(RemovedVariable),
}

/// A statement, with its place.
#[derive(Drop)]
pub enum Statement {
    Act(Span, Action),
    Call(Span, PlainCall),
    /// `return`, with a status or without.
    Return(Span, Option<Status>),
    /// The condition, the statements for when it holds, and those for when it doesn't. Without an `else` the latter are empty.
    If(Span, Condition, Items<Statement>, Items<Statement>),
    /// The number of turns, and the statements of each.
    Repeat(Span, u64, Items<Statement>),
}

/// The event of a callback, or the kind of a routine with the name that work items use.
#[derive(Drop)]
pub enum Head {
    Pre(Operation),
    Post(Operation),
    Canceled,
    DeferredPre(Items<u8>),
    DeferredPost(Items<u8>),
    Generic(Items<u8>),
}

/// A callback.
#[derive(Drop)]
pub struct Callback {
    pub head: Head,
    /// The place of its first head word.
    pub position: Position,
    /// The place of its head.
    pub span: Span,
    pub body: Items<Statement>,
    /// The place of its closing brace.
    pub end: Span,
}

/// A declared lock.
#[derive(Drop)]
pub struct Lock {
    pub kind: LockKind,
    pub name: Items<u8>,
}

/// A filter as its text declares it.
#[derive(Drop)]
pub struct Filter {
    pub name: Items<u8>,
    /// From 1 to 4294967295. Filters see an operation from the highest altitude to the lowest.
    pub altitude: u64,
    /// In order of declaration, at most eight.
    pub locks: Items<Lock>,
    /// The place of `queue`, if the filter has a cancel-safe queue.
    pub queue: Option<Position>,
    /// In order of the text, from 1 to 16.
    pub callbacks: Items<Callback>,
}

/// The completion context that a status names, if there is one.
pub fn named_context(status: Option<Status>) -> Option<ContextVariable>
    ensures { result ≡ spec.named_context status }
{
    match status {
        Some(status) => status.context(),
        None => None,
    }
}

impl Status {
    /// The word of the status, by which the table has its row.
    pub fn word(self) -> StatusWord
        ensures { result ≡ spec.word_of self }
    {
        match self {
            Status::WithCallback(_) => StatusWord::WithCallback,
            Status::Synchronize(_) => StatusWord::Synchronize,
            Status::NoCallback => StatusWord::NoCallback,
            Status::Complete(_) => StatusWord::Complete,
            Status::Pending => StatusWord::Pending,
            Status::DisallowFastIo => StatusWord::DisallowFastIo,
            Status::FinishedProcessing => StatusWord::FinishedProcessing,
            Status::MoreProcessingRequired => StatusWord::MoreProcessingRequired,
        }
    }

    /// Whether the status completes with STATUS_PENDING, which is never legal.
    pub fn completes_pending(self) -> bool
        ensures { result ≡ spec.completes_pending self }
    {
        matches!(self, Status::Complete(FinalStatus::Pending))
    }

    /// The completion context that the status names.
    pub fn context(self) -> Option<ContextVariable>
        ensures { result ≡ spec.context_of self }
    {
        match self {
            Status::WithCallback(context) | Status::Synchronize(context) => context,
            _ => None,
        }
    }
}

impl Statement {
    /// The place of the statement.
    pub fn span(&self) -> Span
        ensures { result ≡ spec.span_of (out-Statement self.now) }
    {
        match self {
            Statement::Act(span, _)
            | Statement::Call(span, _)
            | Statement::Return(span, _)
            | Statement::If(span, _, _, _)
            | Statement::Repeat(span, _, _) => *span,
        }
    }
}

impl Head {
    /// Whether the callback is the pre callback of the operation.
    pub fn is_pre_of(&self, kind: Operation) -> bool
        ensures { result ≡ registered.is_pre_of kind self.now }
    {
        match self {
            Head::Pre(own) => own.is_same(kind),
            _ => false,
        }
    }

    /// Whether the callback is the post callback of the operation.
    pub fn is_post_of(&self, kind: Operation) -> bool
        ensures { result ≡ registered.is_post_of kind self.now }
    {
        match self {
            Head::Post(own) => own.is_same(kind),
            _ => false,
        }
    }

    /// The place in which the callback runs.
    pub fn place(&self) -> Place
        ensures { result ≡ spec.head_place self.now }
    {
        match self {
            Head::Pre(operation) => Place::Pre(*operation),
            Head::Post(operation) => Place::Post(*operation),
            Head::Canceled => Place::Canceled,
            Head::DeferredPre(_) => Place::DeferredPre,
            Head::DeferredPost(_) => Place::DeferredPost,
            Head::Generic(_) => Place::Generic,
        }
    }

    /// Whether the callback is the routine of the name.
    pub fn is_named(&self, name: &[u8]) -> bool
        ensures { result ≡ spec.is_named name.now self.now }
    {
        match self {
            Head::DeferredPre(own) | Head::DeferredPost(own) | Head::Generic(own) => {
                own.as_slice() == name
            }
            _ => false,
        }
    }
}
