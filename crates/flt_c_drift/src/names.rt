//! The names that annotations and C have in common: calls of the driver kit, statuses that callbacks return, and operations.

ghost use Rattle.std.specs.Prelude.{◌≡◌, map};
ghost use Rattle.flt_c_drift.specs.Names as spec;

use flt_rules::Operation;

pub(crate) const CALLS: [&[u8]; 23] = [
    b"FltAllocateContext",
    b"FltGetStreamContext",
    b"FltGetInstanceContext",
    b"FltSetStreamContext",
    b"FltSetInstanceContext",
    b"FltDeleteStreamContext",
    b"FltDeleteInstanceContext",
    b"FltCbdqInsertIo",
    b"FltCbdqRemoveNextIo",
    b"FltQueueDeferredIoWorkItem",
    b"FltQueueGenericWorkItem",
    b"FltDeleteContext",
    b"FltReferenceContext",
    b"FltReleaseContext",
    b"KeAcquireSpinLock",
    b"KeReleaseSpinLock",
    b"ExAcquireFastMutex",
    b"ExReleaseFastMutex",
    b"FltAcquirePushLockExclusive",
    b"FltAcquirePushLockShared",
    b"FltReleasePushLock",
    b"FltCompletePendedPreOperation",
    b"FltCompletePendedPostOperation",
];

pub(crate) const STATUSES: [&[u8]; 8] = [
    b"WITH_CALLBACK",
    b"SYNCHRONIZE",
    b"NO_CALLBACK",
    b"COMPLETE",
    b"PENDING",
    b"DISALLOW_FASTIO",
    b"FINISHED_PROCESSING",
    b"MORE_PROCESSING_REQUIRED",
];

const C_STATUSES: [&[u8]; 8] = [
    b"FLT_PREOP_SUCCESS_WITH_CALLBACK",
    b"FLT_PREOP_SYNCHRONIZE",
    b"FLT_PREOP_SUCCESS_NO_CALLBACK",
    b"FLT_PREOP_COMPLETE",
    b"FLT_PREOP_PENDING",
    b"FLT_PREOP_DISALLOW_FASTIO",
    b"FLT_POSTOP_FINISHED_PROCESSING",
    b"FLT_POSTOP_MORE_PROCESSING_REQUIRED",
];

const LOCK_CALLS: [&[u8]; 7] = [
    b"KeAcquireSpinLock",
    b"KeReleaseSpinLock",
    b"ExAcquireFastMutex",
    b"ExReleaseFastMutex",
    b"FltAcquirePushLockExclusive",
    b"FltAcquirePushLockShared",
    b"FltReleasePushLock",
];

/// The number of bytes that each call has at least.
const SHORTEST_CALL: usize = 15;

/// The number of bytes that each call of a lock has at least.
const SHORTEST_LOCK_CALL: usize = 17;

/// The place of a word among others, from 0.
fn place_among(names: &[&[u8]], word: &[u8]) -> Option<usize>
    ensures { result ≡ spec.place_among (map (λ name. name.now) names.now) word.now }
{
    for (place, name) in names.iter().enumerate() {
        if *name == word {
            return Some(place);
        }
    }
    None
}

/// The call of a word, by its place among the calls.
#[tactic(auto, unfolding(crate::specs::Names::calls, crate::specs::Names::call_of))]
pub(crate) fn call_of(word: &[u8]) -> Option<usize>
    ensures { result ≡ spec.call_of word.now }
{
    if word.len() < SHORTEST_CALL {
        return None;
    }
    place_among(CALLS.as_slice(), word)
}

/// The status of a word of an annotation, by its place among the statuses.
#[tactic(auto, unfolding(crate::specs::Names::statuses, crate::specs::Names::status_of))]
pub(crate) fn status_of(word: &[u8]) -> Option<usize>
    ensures { result ≡ spec.status_of word.now }
{
    place_among(STATUSES.as_slice(), word)
}

/// The status of a word of C, by the same place.
#[tactic(auto, unfolding(crate::specs::Names::c_statuses, crate::specs::Names::c_status_of))]
pub(crate) fn c_status_of(word: &[u8]) -> Option<usize>
    ensures { result ≡ spec.c_status_of word.now }
{
    place_among(C_STATUSES.as_slice(), word)
}

/// The operation of a word of an annotation, by its place among the operations.
#[tactic(auto, unfolding(crate::specs::Names::operations, crate::specs::Names::operation_of))]
pub(crate) fn operation_of(word: &[u8]) -> Option<usize>
    ensures { result ≡ spec.operation_of word.now }
{
    place_among(Operation::names(), word)
}

/// The operation of a word of C, by the same place.
#[tactic(auto, unfolding(crate::specs::Names::c_operations, crate::specs::Names::c_operation_of))]
pub(crate) fn c_operation_of(word: &[u8]) -> Option<usize>
    ensures { result ≡ spec.c_operation_of word.now }
{
    place_among(Operation::major_names(), word)
}

/// The call of a word, by its place among those that take and release locks.
#[tactic(auto, unfolding(crate::specs::Names::lock_calls, crate::specs::Names::lock_call_of))]
pub(crate) fn lock_call_of(word: &[u8]) -> Option<usize>
    ensures { result ≡ spec.lock_call_of word.now }
{
    if word.len() < SHORTEST_LOCK_CALL {
        return None;
    }
    place_among(LOCK_CALLS.as_slice(), word)
}

/// Whether a word of C is the name of a major function.
pub(crate) fn is_major_function(word: &[u8]) -> bool
    ensures { result ≡ spec.is_major_function word.now }
{
    word.starts_with(b"IRP_MJ_")
}
