//! The words of the language.

ghost use Rattle.std.specs.Prelude.{◌≡◌, map};
ghost use Rattle.flt_syntax.specs.Vocabulary.{vocabulary};

use crate::token::Kind;

pub(crate) const FILTER: (&[u8], Kind) = (b"filter", Kind::Filter);

pub(crate) const ALTITUDE: (&[u8], Kind) = (b"altitude", Kind::Altitude);

pub(crate) const LOCK: (&[u8], Kind) = (b"lock", Kind::Lock);

pub(crate) const SPIN: (&[u8], Kind) = (b"spin", Kind::Spin);

pub(crate) const FAST: (&[u8], Kind) = (b"fast", Kind::Fast);

pub(crate) const PUSH: (&[u8], Kind) = (b"push", Kind::Push);

pub(crate) const QUEUE: (&[u8], Kind) = (b"queue", Kind::Queue);

pub(crate) const PRE: (&[u8], Kind) = (b"pre", Kind::Pre);

pub(crate) const POST: (&[u8], Kind) = (b"post", Kind::Post);

pub(crate) const CANCELED: (&[u8], Kind) = (b"canceled", Kind::Canceled);

pub(crate) const DEFERRED_PRE: (&[u8], Kind) = (b"deferred_pre", Kind::DeferredPre);

pub(crate) const DEFERRED_POST: (&[u8], Kind) = (b"deferred_post", Kind::DeferredPost);

pub(crate) const GENERIC: (&[u8], Kind) = (b"generic", Kind::Generic);

pub(crate) const CREATE: (&[u8], Kind) = (b"create", Kind::Create);

pub(crate) const READ: (&[u8], Kind) = (b"read", Kind::Read);

pub(crate) const WRITE: (&[u8], Kind) = (b"write", Kind::Write);

pub(crate) const CLEANUP: (&[u8], Kind) = (b"cleanup", Kind::Cleanup);

pub(crate) const VALUE: (&[u8], Kind) = (b"value", Kind::Value);

pub(crate) const FILE: (&[u8], Kind) = (b"file", Kind::File);

pub(crate) const NULL: (&[u8], Kind) = (b"NULL", Kind::Null);

pub(crate) const IF: (&[u8], Kind) = (b"if", Kind::If);

pub(crate) const ELSE: (&[u8], Kind) = (b"else", Kind::Else);

pub(crate) const REPEAT: (&[u8], Kind) = (b"repeat", Kind::Repeat);

pub(crate) const RETURN: (&[u8], Kind) = (b"return", Kind::Return);

pub(crate) const IRP: (&[u8], Kind) = (b"irp", Kind::Irp);

pub(crate) const DATA: (&[u8], Kind) = (b"data", Kind::Data);

pub(crate) const DRAINING: (&[u8], Kind) = (b"draining", Kind::Draining);

pub(crate) const CONTEXT: (&[u8], Kind) = (b"context", Kind::Context);

pub(crate) const WITH_CALLBACK: (&[u8], Kind) = (b"WITH_CALLBACK", Kind::WithCallback);

pub(crate) const SYNCHRONIZE: (&[u8], Kind) = (b"SYNCHRONIZE", Kind::Synchronize);

pub(crate) const NO_CALLBACK: (&[u8], Kind) = (b"NO_CALLBACK", Kind::NoCallback);

pub(crate) const PENDING: (&[u8], Kind) = (b"PENDING", Kind::Pending);

pub(crate) const DISALLOW_FAST_IO: (&[u8], Kind) = (b"DISALLOW_FASTIO", Kind::DisallowFastIo);

pub(crate) const COMPLETE: (&[u8], Kind) = (b"COMPLETE", Kind::Complete);

pub(crate) const FINISHED_PROCESSING: (&[u8], Kind) = (
    b"FINISHED_PROCESSING",
    Kind::FinishedProcessing,
);

pub(crate) const MORE_PROCESSING_REQUIRED: (&[u8], Kind) = (
    b"MORE_PROCESSING_REQUIRED",
    Kind::MoreProcessingRequired,
);

pub(crate) const STATUS_SUCCESS: (&[u8], Kind) = (b"STATUS_SUCCESS", Kind::StatusSuccess);

pub(crate) const STATUS_ACCESS_DENIED: (&[u8], Kind) = (
    b"STATUS_ACCESS_DENIED",
    Kind::StatusAccessDenied,
);

pub(crate) const STATUS_CANCELLED: (&[u8], Kind) = (b"STATUS_CANCELLED", Kind::StatusCancelled);

pub(crate) const STATUS_INSUFFICIENT_RESOURCES: (&[u8], Kind) = (
    b"STATUS_INSUFFICIENT_RESOURCES",
    Kind::StatusInsufficientResources,
);

pub(crate) const STATUS_INVALID_PARAMETER: (&[u8], Kind) = (
    b"STATUS_INVALID_PARAMETER",
    Kind::StatusInvalidParameter,
);

pub(crate) const STATUS_PENDING: (&[u8], Kind) = (b"STATUS_PENDING", Kind::StatusPending);

pub(crate) const ALLOCATE_CONTEXT: (&[u8], Kind) = (b"FltAllocateContext", Kind::AllocateContext);

pub(crate) const GET_STREAM_CONTEXT: (&[u8], Kind) = (
    b"FltGetStreamContext",
    Kind::GetStreamContext,
);

pub(crate) const GET_INSTANCE_CONTEXT: (&[u8], Kind) = (
    b"FltGetInstanceContext",
    Kind::GetInstanceContext,
);

pub(crate) const SET_STREAM_CONTEXT: (&[u8], Kind) = (
    b"FltSetStreamContext",
    Kind::SetStreamContext,
);

pub(crate) const SET_INSTANCE_CONTEXT: (&[u8], Kind) = (
    b"FltSetInstanceContext",
    Kind::SetInstanceContext,
);

pub(crate) const KEEP_IF_EXISTS: (&[u8], Kind) = (b"KEEP_IF_EXISTS", Kind::KeepIfExists);

pub(crate) const REPLACE_IF_EXISTS: (&[u8], Kind) = (b"REPLACE_IF_EXISTS", Kind::ReplaceIfExists);

pub(crate) const OLD: (&[u8], Kind) = (b"old", Kind::Old);

pub(crate) const DELETE_STREAM_CONTEXT: (&[u8], Kind) = (
    b"FltDeleteStreamContext",
    Kind::DeleteStreamContext,
);

pub(crate) const DELETE_INSTANCE_CONTEXT: (&[u8], Kind) = (
    b"FltDeleteInstanceContext",
    Kind::DeleteInstanceContext,
);

pub(crate) const INSERT_IO: (&[u8], Kind) = (b"FltCbdqInsertIo", Kind::InsertIo);

pub(crate) const REMOVE_NEXT_IO: (&[u8], Kind) = (b"FltCbdqRemoveNextIo", Kind::RemoveNextIo);

pub(crate) const QUEUE_DEFERRED_IO_WORK_ITEM: (&[u8], Kind) = (
    b"FltQueueDeferredIoWorkItem",
    Kind::QueueDeferredIoWorkItem,
);

pub(crate) const QUEUE_GENERIC_WORK_ITEM: (&[u8], Kind) = (
    b"FltQueueGenericWorkItem",
    Kind::QueueGenericWorkItem,
);

pub(crate) const DELETE_CONTEXT: (&[u8], Kind) = (b"FltDeleteContext", Kind::DeleteContext);

pub(crate) const REFERENCE_CONTEXT: (&[u8], Kind) = (
    b"FltReferenceContext",
    Kind::ReferenceContext,
);

pub(crate) const AS: (&[u8], Kind) = (b"as", Kind::As);

pub(crate) const RELEASE_CONTEXT: (&[u8], Kind) = (b"FltReleaseContext", Kind::ReleaseContext);

pub(crate) const ACQUIRE_SPIN_LOCK: (&[u8], Kind) = (b"KeAcquireSpinLock", Kind::AcquireSpinLock);

pub(crate) const RELEASE_SPIN_LOCK: (&[u8], Kind) = (b"KeReleaseSpinLock", Kind::ReleaseSpinLock);

pub(crate) const ACQUIRE_FAST_MUTEX: (&[u8], Kind) = (
    b"ExAcquireFastMutex",
    Kind::AcquireFastMutex,
);

pub(crate) const RELEASE_FAST_MUTEX: (&[u8], Kind) = (
    b"ExReleaseFastMutex",
    Kind::ReleaseFastMutex,
);

pub(crate) const ACQUIRE_PUSH_LOCK: (&[u8], Kind) = (
    b"FltAcquirePushLockExclusive",
    Kind::AcquirePushLock,
);

pub(crate) const ACQUIRE_PUSH_LOCK_SHARED: (&[u8], Kind) = (
    b"FltAcquirePushLockShared",
    Kind::AcquirePushLockShared,
);

pub(crate) const RELEASE_PUSH_LOCK: (&[u8], Kind) = (b"FltReleasePushLock", Kind::ReleasePushLock);

pub(crate) const COMPLETE_PENDED_PRE_OPERATION: (&[u8], Kind) = (
    b"FltCompletePendedPreOperation",
    Kind::CompletePendedPreOperation,
);

pub(crate) const COMPLETE_PENDED_POST_OPERATION: (&[u8], Kind) = (
    b"FltCompletePendedPostOperation",
    Kind::CompletePendedPostOperation,
);

pub(crate) const N0: (&[u8], Kind) = (b"n0", Kind::N0);

pub(crate) const N1: (&[u8], Kind) = (b"n1", Kind::N1);

pub(crate) const N2: (&[u8], Kind) = (b"n2", Kind::N2);

pub(crate) const N3: (&[u8], Kind) = (b"n3", Kind::N3);

pub(crate) const N4: (&[u8], Kind) = (b"n4", Kind::N4);

pub(crate) const N5: (&[u8], Kind) = (b"n5", Kind::N5);

pub(crate) const N6: (&[u8], Kind) = (b"n6", Kind::N6);

pub(crate) const N7: (&[u8], Kind) = (b"n7", Kind::N7);

pub(crate) const C0: (&[u8], Kind) = (b"c0", Kind::C0);

pub(crate) const C1: (&[u8], Kind) = (b"c1", Kind::C1);

pub(crate) const C2: (&[u8], Kind) = (b"c2", Kind::C2);

pub(crate) const C3: (&[u8], Kind) = (b"c3", Kind::C3);

pub(crate) const C4: (&[u8], Kind) = (b"c4", Kind::C4);

pub(crate) const C5: (&[u8], Kind) = (b"c5", Kind::C5);

pub(crate) const C6: (&[u8], Kind) = (b"c6", Kind::C6);

pub(crate) const C7: (&[u8], Kind) = (b"c7", Kind::C7);

pub(crate) const ARG: (&[u8], Kind) = (b"arg", Kind::Arg);

pub(crate) const O0: (&[u8], Kind) = (b"o0", Kind::O0);

pub(crate) const O1: (&[u8], Kind) = (b"o1", Kind::O1);

pub(crate) const O2: (&[u8], Kind) = (b"o2", Kind::O2);

pub(crate) const O3: (&[u8], Kind) = (b"o3", Kind::O3);

const KEYWORDS: [(&[u8], Kind); 90] = [
    FILTER,
    ALTITUDE,
    LOCK,
    SPIN,
    FAST,
    PUSH,
    QUEUE,
    PRE,
    POST,
    CANCELED,
    DEFERRED_PRE,
    DEFERRED_POST,
    GENERIC,
    CREATE,
    READ,
    WRITE,
    CLEANUP,
    VALUE,
    FILE,
    NULL,
    IF,
    ELSE,
    REPEAT,
    RETURN,
    IRP,
    DATA,
    DRAINING,
    CONTEXT,
    WITH_CALLBACK,
    SYNCHRONIZE,
    NO_CALLBACK,
    PENDING,
    DISALLOW_FAST_IO,
    COMPLETE,
    FINISHED_PROCESSING,
    MORE_PROCESSING_REQUIRED,
    STATUS_SUCCESS,
    STATUS_ACCESS_DENIED,
    STATUS_CANCELLED,
    STATUS_INSUFFICIENT_RESOURCES,
    STATUS_INVALID_PARAMETER,
    STATUS_PENDING,
    ALLOCATE_CONTEXT,
    GET_STREAM_CONTEXT,
    GET_INSTANCE_CONTEXT,
    SET_STREAM_CONTEXT,
    SET_INSTANCE_CONTEXT,
    KEEP_IF_EXISTS,
    REPLACE_IF_EXISTS,
    OLD,
    DELETE_STREAM_CONTEXT,
    DELETE_INSTANCE_CONTEXT,
    INSERT_IO,
    REMOVE_NEXT_IO,
    QUEUE_DEFERRED_IO_WORK_ITEM,
    QUEUE_GENERIC_WORK_ITEM,
    DELETE_CONTEXT,
    REFERENCE_CONTEXT,
    AS,
    RELEASE_CONTEXT,
    ACQUIRE_SPIN_LOCK,
    RELEASE_SPIN_LOCK,
    ACQUIRE_FAST_MUTEX,
    RELEASE_FAST_MUTEX,
    ACQUIRE_PUSH_LOCK,
    ACQUIRE_PUSH_LOCK_SHARED,
    RELEASE_PUSH_LOCK,
    COMPLETE_PENDED_PRE_OPERATION,
    COMPLETE_PENDED_POST_OPERATION,
    N0,
    N1,
    N2,
    N3,
    N4,
    N5,
    N6,
    N7,
    C0,
    C1,
    C2,
    C3,
    C4,
    C5,
    C6,
    C7,
    ARG,
    O0,
    O1,
    O2,
    O3,
];

/// The words of the language, each with its kind.
pub fn keywords() -> &'static [(&'static [u8], Kind)]
    ensures { map (λ e. (e.0.now, e.1)) result.now ≡ vocabulary }
{
    &KEYWORDS
}
