//! The calls of a filter, one value for each row of the call table.

ghost use Rattle.std.specs.Prelude.{◌≡◌};
ghost use Rattle.flt_rules.specs.Call as spec;

/// The object on which a context is set.
#[derive(Clone, Copy)]
pub enum Anchor {
    Stream,
    Instance,
}

/// The effect of a set if a context is there already.
#[derive(Clone, Copy)]
pub enum Existing {
    Keep,
    Replace,
}

/// The kinds of lock: spin locks, fast mutexes and push locks.
#[derive(Clone, Copy, PartialEq, Eq)]
pub enum LockKind {
    Spin,
    Fast,
    Push,
}

/// A lock, by its place among the locks that a filter declares, from `L0`.
#[derive(Clone, Copy)]
pub enum LockNumber {
    L0,
    L1,
    L2,
    L3,
    L4,
    L5,
    L6,
    L7,
}

/// The operation that a call names: the one that the callback was given, or one that it removed from the queue.
#[derive(Clone, Copy)]
pub enum Possessed {
    Given,
    Removed,
}

/// A call of the FltXxx and FltCbdqXxx interface, or of a lock routine, with what decides its row.
#[derive(Clone, Copy)]
pub enum Call {
    /// FltAllocateContext
    AllocateContext,
    /// FltGetStreamContext, FltGetInstanceContext
    GetContext(Anchor),
    /// FltSetStreamContext, FltSetInstanceContext
    SetContext(Anchor, Existing),
    /// FltDeleteStreamContext, FltDeleteInstanceContext
    DeleteContextOf(Anchor),
    /// FltDeleteContext
    DeleteContext,
    /// FltReferenceContext
    ReferenceContext,
    /// FltReleaseContext
    ReleaseContext,
    /// KeAcquireSpinLock, ExAcquireFastMutex, FltAcquirePushLockExclusive
    AcquireLock(LockKind),
    /// FltAcquirePushLockShared
    AcquirePushLockShared,
    /// KeReleaseSpinLock, ExReleaseFastMutex, FltReleasePushLock
    ReleaseLock(LockKind),
    /// FltCbdqInsertIo
    InsertIo,
    /// FltCbdqRemoveNextIo
    RemoveNextIo,
    /// FltQueueDeferredIoWorkItem
    QueueDeferredIoWorkItem,
    /// FltQueueGenericWorkItem
    QueueGenericWorkItem,
    /// FltCompletePendedPreOperation
    CompletePendedPreOperation(Possessed),
    /// FltCompletePendedPostOperation
    CompletePendedPostOperation,
}

/// Whether the call may be made where FLTFL_POST_OPERATION_DRAINING may be set. The callback only cleans
/// up there, so all but the release of a context and the spin lock calls are refused.
pub fn is_legal_in_draining(call: Call) -> bool
    ensures { result ≡ spec.is_legal_in_draining call }
{
    matches!(
        call,
        Call::ReleaseContext | Call::AcquireLock(LockKind::Spin) | Call::ReleaseLock(LockKind::Spin)
    )
}

impl LockNumber {
    ghost use Rattle.std.specs.Prelude.{◌≡◌};
    ghost use Rattle.flt_rules.specs.Call.{lock_at, place_of};

    /// The lock at a place, from 0; none from 8 on.
    pub fn at(place: usize) -> Option<LockNumber>
        ensures { result ≡ lock_at place }
    {
        match place {
            0 => Some(LockNumber::L0),
            1 => Some(LockNumber::L1),
            2 => Some(LockNumber::L2),
            3 => Some(LockNumber::L3),
            4 => Some(LockNumber::L4),
            5 => Some(LockNumber::L5),
            6 => Some(LockNumber::L6),
            7 => Some(LockNumber::L7),
            _ => None,
        }
    }

    /// The place of the lock among the declared ones, from 0.
    pub fn place(self) -> u8
        ensures { result ≡ place_of self }
    {
        match self {
            LockNumber::L0 => 0,
            LockNumber::L1 => 1,
            LockNumber::L2 => 2,
            LockNumber::L3 => 3,
            LockNumber::L4 => 4,
            LockNumber::L5 => 5,
            LockNumber::L6 => 6,
            LockNumber::L7 => 7,
        }
    }
}
