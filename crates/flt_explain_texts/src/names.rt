//! The names of calls, statuses and levels, as texts have them.

ghost use Rattle.std.specs.Prelude.{◌≡◌};
ghost use Rattle.flt_explain_texts.specs.Names as spec;

use flt_rules::{Anchor, Call, Level, LockKind, Operation, StatusWord};

/// The name of a call on the stream or on the instance.
fn anchored_name<'a>(anchor: Anchor, of_stream: &'a str, of_instance: &'a str) -> &'a str
    ensures { result.now ≡ spec.anchored_name anchor of_stream.now of_instance.now }
{
    match anchor {
        Anchor::Stream => of_stream,
        Anchor::Instance => of_instance,
    }
}

/// The name of a call that takes a lock.
fn acquire_name(kind: LockKind) -> &'static str
    ensures { result.now ≡ spec.acquire_name kind }
{
    match kind {
        LockKind::Spin => "KeAcquireSpinLock",
        LockKind::Fast => "ExAcquireFastMutex",
        LockKind::Push => "FltAcquirePushLockExclusive",
    }
}

/// The name of a call that releases a lock.
fn release_name(kind: LockKind) -> &'static str
    ensures { result.now ≡ spec.release_name kind }
{
    match kind {
        LockKind::Spin => "KeReleaseSpinLock",
        LockKind::Fast => "ExReleaseFastMutex",
        LockKind::Push => "FltReleasePushLock",
    }
}

/// The name of a call.
#[tactic(auto, unfolding(crate::specs::Names::call_name))]
pub fn call_name(call: Call) -> &'static str
    ensures { result.now ≡ spec.call_name call }
{
    match call {
        Call::AllocateContext => "FltAllocateContext",
        Call::GetContext(anchor) => {
            anchored_name(anchor, "FltGetStreamContext", "FltGetInstanceContext")
        }
        Call::SetContext(anchor, _) => {
            anchored_name(anchor, "FltSetStreamContext", "FltSetInstanceContext")
        }
        Call::DeleteContextOf(anchor) => {
            anchored_name(anchor, "FltDeleteStreamContext", "FltDeleteInstanceContext")
        }
        Call::DeleteContext => "FltDeleteContext",
        Call::ReferenceContext => "FltReferenceContext",
        Call::ReleaseContext => "FltReleaseContext",
        Call::AcquireLock(kind) => acquire_name(kind),
        Call::AcquirePushLockShared => "FltAcquirePushLockShared",
        Call::ReleaseLock(kind) => release_name(kind),
        Call::InsertIo => "FltCbdqInsertIo",
        Call::RemoveNextIo => "FltCbdqRemoveNextIo",
        Call::QueueDeferredIoWorkItem => "FltQueueDeferredIoWorkItem",
        Call::QueueGenericWorkItem => "FltQueueGenericWorkItem",
        Call::CompletePendedPreOperation(_) => "FltCompletePendedPreOperation",
        Call::CompletePendedPostOperation => "FltCompletePendedPostOperation",
    }
}

/// The name of a status.
#[tactic(auto, unfolding(crate::specs::Names::status_name))]
pub fn status_name(word: StatusWord) -> &'static str
    ensures { result.now ≡ spec.status_name word }
{
    match word {
        StatusWord::WithCallback => "WITH_CALLBACK",
        StatusWord::Synchronize => "SYNCHRONIZE",
        StatusWord::NoCallback => "NO_CALLBACK",
        StatusWord::Complete => "COMPLETE",
        StatusWord::Pending => "PENDING",
        StatusWord::DisallowFastIo => "DISALLOW_FASTIO",
        StatusWord::FinishedProcessing => "FINISHED_PROCESSING",
        StatusWord::MoreProcessingRequired => "MORE_PROCESSING_REQUIRED",
    }
}

/// The name of a level.
#[tactic(auto, unfolding(crate::specs::Names::level_name))]
pub fn level_name(level: Level) -> &'static str
    ensures { result.now ≡ spec.level_name level }
{
    match level {
        Level::Passive => "PASSIVE_LEVEL",
        Level::Apc => "APC_LEVEL",
        Level::Dispatch => "DISPATCH_LEVEL",
    }
}

/// The words for a kind of lock.
#[tactic(auto, unfolding(crate::specs::Names::kind_name))]
pub fn kind_name(kind: LockKind) -> &'static str
    ensures { result.now ≡ spec.kind_name kind }
{
    match kind {
        LockKind::Spin => "a spin lock",
        LockKind::Fast => "a fast mutex",
        LockKind::Push => "a push lock",
    }
}
