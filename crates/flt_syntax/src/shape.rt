//! The shapes of calls. The word of a call says its shape, and which call of that shape it is. The shape says which slots follow the word,
//! one token each, and what ends the call; they fill its operands, of which the call is made.

ghost use Rattle.flt_syntax.specs.Shape as spec;
ghost use Rattle.std.specs.Prelude.{◌≡◌};

use crate::token::Kind;
use flt_rules::{Anchor, Existing, LockKind, LockNumber};
use flt_tree::{
    ContextVariable, FallibleCall, OperationVariable, PlainCall, Position, RemovedVariable,
    Routine, Status,
};
use sqlite_items::Items;
use std::alloc::Global;

/// A token after the word of a call: a word of the grammar, or one of the call's operands.
#[derive(Clone, Copy)]
pub enum Slot {
    /// "data"
    Data,
    /// "as"
    As,
    /// "context"
    With,
    /// D
    Operation,
    /// O
    Removed,
    /// "KEEP_IF_EXISTS" | "REPLACE_IF_EXISTS"
    Existing,
    /// C
    Context,
    /// C, another one than the one before
    Other,
    /// NAME of a routine
    Routine,
    /// NAME of a declared lock of the kind
    Lock(LockKind),
}

// The lists of slots.
const CONTEXT: [Slot; 1] = [Slot::Context];

const SET: [Slot; 2] = [Slot::Existing, Slot::Context];

const DATA: [Slot; 1] = [Slot::Data];

const REMOVED_CONTEXT: [Slot; 3] = [Slot::Removed, Slot::With, Slot::Context];

const DATA_ROUTINE: [Slot; 2] = [Slot::Data, Slot::Routine];

const ROUTINE: [Slot; 1] = [Slot::Routine];

const CONTEXT_AS_OTHER: [Slot; 3] = [Slot::Context, Slot::As, Slot::Other];

const SPIN_LOCK: [Slot; 1] = [Slot::Lock(LockKind::Spin)];

const FAST_LOCK: [Slot; 1] = [Slot::Lock(LockKind::Fast)];

const PUSH_LOCK: [Slot; 1] = [Slot::Lock(LockKind::Push)];

const OPERATION: [Slot; 1] = [Slot::Operation];

/// The end of a call, after its slots.
#[derive(Clone, Copy)]
pub enum Tail {
    Nothing,
    /// [ "context" C ]
    With,
    /// [ "old" C ]
    Old,
    /// [ "old" C ], another C than the one before
    OtherOld,
    /// status
    Status,
}

/// The operands of a call, as its slots and its tail fill them. Those that the call hasn't are as at the beginning.
#[derive(Drop)]
pub struct Operands {
    pub operation: OperationVariable,
    pub removed: RemovedVariable,
    pub existing: Existing,
    pub context: ContextVariable,
    /// The second context.
    pub other: ContextVariable,
    /// The context of the tail.
    pub optional: Option<ContextVariable>,
    pub routine: Routine,
    pub lock: LockNumber,
    pub status: Status,
}

impl Operands {
    ghost use Rattle.std.specs.Prelude.{◌≡◌};
    ghost use Rattle.flt_syntax.specs.Shape.{unfilled};

    /// The operands before the first slot.
    pub fn unfilled(alloc: Global) -> Operands
        ensures { result ≡ unfilled }
    {
        Operands {
            operation: OperationVariable::Data,
            removed: RemovedVariable::O0,
            existing: Existing::Keep,
            context: ContextVariable::C0,
            other: ContextVariable::C0,
            optional: None,
            routine: Routine {
                name: Items::new(alloc),
                position: Position { line: 1, column: 1 },
            },
            lock: LockNumber::L0,
            status: Status::NoCallback,
        }
    }
}

/// Where a call gets the context that its variable receives.
#[derive(Clone, Copy)]
pub enum ContextSource {
    Allocate,
    Get(Anchor),
}

impl ContextSource {
    ghost use Rattle.std.specs.Prelude.{◌≡◌};
    ghost use Rattle.flt_syntax.specs.Shape.{obtaining};

    /// The call by which a variable receives a context from there.
    pub fn call(self, variable: ContextVariable) -> FallibleCall<Routine>
        ensures { result ≡ obtaining self variable }
    {
        match self {
            ContextSource::Allocate => FallibleCall::AllocateContext(variable),
            ContextSource::Get(anchor) => FallibleCall::GetContext(anchor, variable),
        }
    }
}

/// How a call gives up the context of its variable.
#[derive(Clone, Copy)]
pub enum ContextEnd {
    Delete,
    Release,
}

impl ContextEnd {
    ghost use Rattle.std.specs.Prelude.{◌≡◌};
    ghost use Rattle.flt_syntax.specs.Shape.{ending};

    /// The call that does this with the context of a variable.
    pub fn call(self, variable: ContextVariable) -> PlainCall
        ensures { result ≡ ending self variable }
    {
        match self {
            ContextEnd::Delete => PlainCall::DeleteContext(variable),
            ContextEnd::Release => PlainCall::ReleaseContext(variable),
        }
    }
}

/// The use that a call makes of the queue.
#[derive(Clone, Copy)]
pub enum QueueCall {
    Insert,
    RemoveNext,
}

/// The use that a call makes of a lock.
#[derive(Clone, Copy)]
pub enum LockCall {
    Acquire(LockKind),
    /// Of a push lock.
    AcquireShared,
    Release(LockKind),
}

impl LockCall {
    ghost use Rattle.std.specs.Prelude.{◌≡◌};
    ghost use Rattle.flt_syntax.specs.Shape.{lock_kind, locking};

    /// The kind of lock that it does this with.
    pub fn kind(self) -> LockKind
        ensures { result ≡ lock_kind self }
    {
        match self {
            LockCall::Acquire(kind) | LockCall::Release(kind) => kind,
            LockCall::AcquireShared => LockKind::Push,
        }
    }

    /// The call that does this with a lock.
    pub fn call(self, lock: LockNumber) -> PlainCall
        ensures { result ≡ locking self lock }
    {
        match self {
            LockCall::Acquire(kind) => PlainCall::AcquireLock(kind, lock),
            LockCall::AcquireShared => PlainCall::AcquirePushLockShared(lock),
            LockCall::Release(kind) => PlainCall::ReleaseLock(kind, lock),
        }
    }
}

/// The shape of a call that can fail.
#[derive(Clone, Copy)]
pub enum FallibleShape {
    Obtain(ContextSource),
    Set(Anchor),
    Delete(Anchor),
    /// A call of the queue. Without `queue` its word is unknown.
    Queue(QueueCall),
    QueueDeferred,
    QueueGeneric,
}

impl FallibleShape {
    ghost use Rattle.std.specs.Prelude.{◌≡◌};
    ghost use Rattle.flt_syntax.specs.Shape as spec;

    /// The slots after the word.
    pub fn slots(self) -> &'static [Slot]
        ensures { result.now ≡ spec.fallible_slots self }
    {
        match self {
            FallibleShape::Obtain(_) => &CONTEXT,
            FallibleShape::Set(_) => &SET,
            FallibleShape::Delete(_) => &[],
            FallibleShape::Queue(QueueCall::Insert) => &DATA,
            FallibleShape::Queue(QueueCall::RemoveNext) => &REMOVED_CONTEXT,
            FallibleShape::QueueDeferred => &DATA_ROUTINE,
            FallibleShape::QueueGeneric => &ROUTINE,
        }
    }

    /// The end of the call.
    pub fn tail(self) -> Tail
        ensures { result ≡ spec.fallible_tail self }
    {
        match self {
            FallibleShape::Obtain(_) | FallibleShape::Queue(QueueCall::RemoveNext) => Tail::Nothing,
            FallibleShape::Set(_) => Tail::OtherOld,
            FallibleShape::Delete(_) => Tail::Old,
            FallibleShape::Queue(QueueCall::Insert)
            | FallibleShape::QueueDeferred
            | FallibleShape::QueueGeneric => Tail::With,
        }
    }

    /// Whether the word is known only if there is a queue.
    pub fn needs_queue(self) -> bool
        ensures { result ≡ spec.needs_queue self }
    {
        matches!(self, FallibleShape::Queue(_))
    }

    /// The call of these operands.
    pub fn call(self, operands: Operands) -> FallibleCall<Routine>
        ensures { result ≡ spec.fallible_of self operands }
    {
        match self {
            FallibleShape::Obtain(source) => source.call(operands.context),
            FallibleShape::Set(anchor) => FallibleCall::SetContext(
                anchor,
                operands.existing,
                operands.context,
                operands.optional,
            ),
            FallibleShape::Delete(anchor) => {
                FallibleCall::DeleteContextOf(anchor, operands.optional)
            }
            FallibleShape::Queue(QueueCall::Insert) => FallibleCall::InsertIo(operands.optional),
            FallibleShape::Queue(QueueCall::RemoveNext) => {
                FallibleCall::RemoveNextIo(operands.removed, operands.context)
            }
            FallibleShape::QueueDeferred => {
                FallibleCall::QueueDeferredIoWorkItem(operands.routine, operands.optional)
            }
            FallibleShape::QueueGeneric => {
                FallibleCall::QueueGenericWorkItem(operands.routine, operands.optional)
            }
        }
    }
}

/// The shape of a call that always succeeds.
#[derive(Clone, Copy)]
pub enum PlainShape {
    End(ContextEnd),
    Reference,
    Lock(LockCall),
    CompletePre,
    CompletePost,
}

impl PlainShape {
    ghost use Rattle.std.specs.Prelude.{◌≡◌};
    ghost use Rattle.flt_syntax.specs.Shape as spec;

    /// The slots after the word.
    pub fn slots(self) -> &'static [Slot]
        ensures { result.now ≡ spec.plain_slots self }
    {
        match self {
            PlainShape::End(_) => &CONTEXT,
            PlainShape::Reference => &CONTEXT_AS_OTHER,
            PlainShape::Lock(call) => match call.kind() {
                LockKind::Spin => &SPIN_LOCK,
                LockKind::Fast => &FAST_LOCK,
                LockKind::Push => &PUSH_LOCK,
            },
            PlainShape::CompletePre => &OPERATION,
            PlainShape::CompletePost => &DATA,
        }
    }

    /// The end of the call.
    pub fn tail(self) -> Tail
        ensures { result ≡ spec.plain_tail self }
    {
        match self {
            PlainShape::CompletePre => Tail::Status,
            _ => Tail::Nothing,
        }
    }

    /// The call of these operands.
    pub fn call(self, operands: &Operands) -> PlainCall
        ensures { result ≡ spec.plain_of self operands.now }
    {
        match self {
            PlainShape::End(how) => how.call(operands.context),
            PlainShape::Reference => {
                PlainCall::ReferenceContext(operands.context, operands.other)
            }
            PlainShape::Lock(call) => call.call(operands.lock),
            PlainShape::CompletePre => {
                PlainCall::CompletePendedPreOperation(operands.operation, operands.status)
            }
            PlainShape::CompletePost => PlainCall::CompletePendedPostOperation,
        }
    }
}

/// The shape of a call that can fail, by its word.
#[inline(always)]
pub fn fallible_shape_of(kind: Kind) -> Option<FallibleShape>
    ensures { result ≡ spec.fallible_shape_of kind }
{
    match kind {
        Kind::AllocateContext => Some(FallibleShape::Obtain(ContextSource::Allocate)),
        Kind::GetStreamContext => Some(FallibleShape::Obtain(ContextSource::Get(Anchor::Stream))),
        Kind::GetInstanceContext => {
            Some(FallibleShape::Obtain(ContextSource::Get(Anchor::Instance)))
        }
        Kind::SetStreamContext => Some(FallibleShape::Set(Anchor::Stream)),
        Kind::SetInstanceContext => Some(FallibleShape::Set(Anchor::Instance)),
        Kind::DeleteStreamContext => Some(FallibleShape::Delete(Anchor::Stream)),
        Kind::DeleteInstanceContext => Some(FallibleShape::Delete(Anchor::Instance)),
        Kind::InsertIo => Some(FallibleShape::Queue(QueueCall::Insert)),
        Kind::RemoveNextIo => Some(FallibleShape::Queue(QueueCall::RemoveNext)),
        Kind::QueueDeferredIoWorkItem => Some(FallibleShape::QueueDeferred),
        Kind::QueueGenericWorkItem => Some(FallibleShape::QueueGeneric),
        _ => None,
    }
}

/// The shape of a call that always succeeds, by its word.
#[inline(always)]
pub fn plain_shape_of(kind: Kind) -> Option<PlainShape>
    ensures { result ≡ spec.plain_shape_of kind }
{
    match kind {
        Kind::DeleteContext => Some(PlainShape::End(ContextEnd::Delete)),
        Kind::ReferenceContext => Some(PlainShape::Reference),
        Kind::ReleaseContext => Some(PlainShape::End(ContextEnd::Release)),
        Kind::AcquireSpinLock => Some(PlainShape::Lock(LockCall::Acquire(LockKind::Spin))),
        Kind::ReleaseSpinLock => Some(PlainShape::Lock(LockCall::Release(LockKind::Spin))),
        Kind::AcquireFastMutex => Some(PlainShape::Lock(LockCall::Acquire(LockKind::Fast))),
        Kind::ReleaseFastMutex => Some(PlainShape::Lock(LockCall::Release(LockKind::Fast))),
        Kind::AcquirePushLock => Some(PlainShape::Lock(LockCall::Acquire(LockKind::Push))),
        Kind::AcquirePushLockShared => Some(PlainShape::Lock(LockCall::AcquireShared)),
        Kind::ReleasePushLock => Some(PlainShape::Lock(LockCall::Release(LockKind::Push))),
        Kind::CompletePendedPreOperation => Some(PlainShape::CompletePre),
        Kind::CompletePendedPostOperation => Some(PlainShape::CompletePost),
        _ => None,
    }
}

/// The slots after a word, if it is the word of a call.
pub fn slots_of(kind: Kind) -> &'static [Slot]
    ensures { result.now ≡ spec.slots_of kind }
{
    match fallible_shape_of(kind) {
        Some(shape) => shape.slots(),
        None => match plain_shape_of(kind) {
            Some(shape) => shape.slots(),
            None => &[],
        },
    }
}
