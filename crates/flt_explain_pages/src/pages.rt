//! The pages, by their names.

ghost use Rattle.std.specs.Io.{StartsWith};
ghost use Rattle.std.specs.Prelude.{◌≡◌, ◌∷◌, IfSome, is_some};
ghost use Rattle.flt_explain_pages.specs.Pages as spec;

use crate::{calls, faults, rules, statuses, violations, warnings};

/// The page of the rule of a number, the part of the name after the letter.
fn rule_page(number: &[u8]) -> Option<&'static str>
    ensures known { is_some result ≡ spec.is_among spec.rules (82 ∷ number.now) }
    ensures begins { IfSome result (λ found. StartsWith found.now (82 ∷ number.now)) }
{
    match number {
        b"01" => Some(rules::R01),
        b"02" => Some(rules::R02),
        b"03" => Some(rules::R03),
        b"04" => Some(rules::R04),
        b"05" => Some(rules::R05),
        b"06" => Some(rules::R06),
        b"07" => Some(rules::R07),
        b"08" => Some(rules::R08),
        b"09" => Some(rules::R09),
        b"10" => Some(rules::R10),
        b"11" => Some(rules::R11),
        b"12" => Some(rules::R12),
        b"13" => Some(rules::R13),
        b"14" => Some(rules::R14),
        b"15" => Some(rules::R15),
        _ => None,
    }
}

/// The page of the warning of a number, the part of the name after the letter.
fn warning_page(number: &[u8]) -> Option<&'static str>
    ensures known { is_some result ≡ spec.is_among spec.warnings (87 ∷ number.now) }
    ensures begins { IfSome result (λ found. StartsWith found.now (87 ∷ number.now)) }
{
    match number {
        b"00" => Some(warnings::W00),
        b"01" => Some(warnings::W01),
        b"02" => Some(warnings::W02),
        b"03" => Some(warnings::W03),
        b"04" => Some(warnings::W04),
        b"05" => Some(warnings::W05),
        b"06" => Some(warnings::W06),
        b"07" => Some(warnings::W07),
        _ => None,
    }
}

/// The page of the violation of a number, the part of the name after the letter.
fn violation_page(number: &[u8]) -> Option<&'static str>
    ensures known { is_some result ≡ spec.is_among spec.violations (86 ∷ number.now) }
    ensures begins { IfSome result (λ found. StartsWith found.now (86 ∷ number.now)) }
{
    match number {
        b"1" => Some(violations::V1),
        b"2" => Some(violations::V2),
        b"3" => Some(violations::V3),
        b"4" => Some(violations::V4),
        b"5" => Some(violations::V5),
        b"6" => Some(violations::V6),
        b"7" => Some(violations::V7),
        b"8" => Some(violations::V8),
        _ => None,
    }
}

/// The page of the fault of a text of a number, the part of the name after the letter.
fn fault_page(number: &[u8]) -> Option<&'static str>
    ensures known { is_some result ≡ spec.is_among spec.faults (69 ∷ number.now) }
    ensures begins { IfSome result (λ found. StartsWith found.now (69 ∷ number.now)) }
{
    match number {
        b"01" => Some(faults::E01),
        b"02" => Some(faults::E02),
        b"03" => Some(faults::E03),
        b"04" => Some(faults::E04),
        b"05" => Some(faults::E05),
        b"06" => Some(faults::E06),
        b"07" => Some(faults::E07),
        b"08" => Some(faults::E08),
        _ => None,
    }
}

/// The page of a call that works on contexts and operations.
fn call_page(name: &str) -> Option<&'static str>
    ensures known { is_some result ≡ spec.is_among spec.calls name.now }
    ensures begins { IfSome result (λ found. StartsWith found.now name.now) }
{
    match name {
        "FltAllocateContext" => Some(calls::FLT_ALLOCATE_CONTEXT),
        "FltGetStreamContext" => Some(calls::FLT_GET_STREAM_CONTEXT),
        "FltGetInstanceContext" => Some(calls::FLT_GET_INSTANCE_CONTEXT),
        "FltSetStreamContext" => Some(calls::FLT_SET_STREAM_CONTEXT),
        "FltSetInstanceContext" => Some(calls::FLT_SET_INSTANCE_CONTEXT),
        "FltDeleteStreamContext" => Some(calls::FLT_DELETE_STREAM_CONTEXT),
        "FltDeleteInstanceContext" => Some(calls::FLT_DELETE_INSTANCE_CONTEXT),
        "FltDeleteContext" => Some(calls::FLT_DELETE_CONTEXT),
        "FltReferenceContext" => Some(calls::FLT_REFERENCE_CONTEXT),
        "FltReleaseContext" => Some(calls::FLT_RELEASE_CONTEXT),
        "FltCbdqInsertIo" => Some(calls::FLT_CBDQ_INSERT_IO),
        "FltCbdqRemoveNextIo" => Some(calls::FLT_CBDQ_REMOVE_NEXT_IO),
        "FltQueueDeferredIoWorkItem" => Some(calls::FLT_QUEUE_DEFERRED_IO_WORK_ITEM),
        "FltQueueGenericWorkItem" => Some(calls::FLT_QUEUE_GENERIC_WORK_ITEM),
        "FltCompletePendedPreOperation" => Some(calls::FLT_COMPLETE_PENDED_PRE_OPERATION),
        "FltCompletePendedPostOperation" => Some(calls::FLT_COMPLETE_PENDED_POST_OPERATION),
        _ => None,
    }
}

/// The page of a call that takes or releases a lock.
fn lock_page(name: &str) -> Option<&'static str>
    ensures known { is_some result ≡ spec.is_among spec.lock_calls name.now }
    ensures begins { IfSome result (λ found. StartsWith found.now name.now) }
{
    match name {
        "KeAcquireSpinLock" => Some(calls::KE_ACQUIRE_SPIN_LOCK),
        "KeReleaseSpinLock" => Some(calls::KE_RELEASE_SPIN_LOCK),
        "ExAcquireFastMutex" => Some(calls::EX_ACQUIRE_FAST_MUTEX),
        "ExReleaseFastMutex" => Some(calls::EX_RELEASE_FAST_MUTEX),
        "FltAcquirePushLockExclusive" => Some(calls::FLT_ACQUIRE_PUSH_LOCK_EXCLUSIVE),
        "FltAcquirePushLockShared" => Some(calls::FLT_ACQUIRE_PUSH_LOCK_SHARED),
        "FltReleasePushLock" => Some(calls::FLT_RELEASE_PUSH_LOCK),
        _ => None,
    }
}

/// The page of a status.
fn status_page(name: &str) -> Option<&'static str>
    ensures known { is_some result ≡ spec.is_among spec.statuses name.now }
    ensures begins { IfSome result (λ found. StartsWith found.now name.now) }
{
    match name {
        "WITH_CALLBACK" => Some(statuses::WITH_CALLBACK),
        "SYNCHRONIZE" => Some(statuses::SYNCHRONIZE),
        "NO_CALLBACK" => Some(statuses::NO_CALLBACK),
        "COMPLETE" => Some(statuses::COMPLETE),
        "PENDING" => Some(statuses::PENDING),
        "DISALLOW_FASTIO" => Some(statuses::DISALLOW_FASTIO),
        "FINISHED_PROCESSING" => Some(statuses::FINISHED_PROCESSING),
        "MORE_PROCESSING_REQUIRED" => Some(statuses::MORE_PROCESSING_REQUIRED),
        _ => None,
    }
}

/// The page of what a text is made of: of a call or a status.
fn word_page(name: &str) -> Option<&'static str>
    ensures known { is_some result ≡ spec.is_word name.now }
    ensures begins { IfSome result (λ found. StartsWith found.now name.now) }
{
    if let Some(found) = call_page(name) {
        return Some(found);
    }
    if let Some(found) = lock_page(name) {
        return Some(found);
    }
    status_page(name)
}

/// The page of a code, by its letter and its number: of a rule, a warning, a violation or a fault of a text.
fn numbered_page(letter: u8, number: &[u8]) -> Option<&'static str>
    ensures known { is_some result ≡ spec.is_code (letter ∷ number.now) }
    ensures begins { IfSome result (λ found. StartsWith found.now (letter ∷ number.now)) }
{
    match letter {
        b'R' => rule_page(number),
        b'W' => warning_page(number),
        b'V' => violation_page(number),
        b'E' => fault_page(number),
        _ => None,
    }
}

/// The page of a code, whose letter may be a small one.
fn code_page(name: &str) -> Option<&'static str>
    ensures known { is_some result ≡ spec.is_code (spec.capital name.now) }
    ensures begins { IfSome result (λ found. StartsWith found.now (spec.capital name.now)) }
{
    match name.as_bytes() {
        [letter, number @ ..] => numbered_page(letter.to_ascii_uppercase(), number),
        [] => None,
    }
}

/// The page of `R01` to `R15` (a rule), `W00` to `W07` (a warning), `V1` to `V8` (a violation), `E01` to `E08` (a fault of a text), a call
/// or a status: lines of text for people, which begin with that name. The letter before a number may be a small one. No other name has a
/// page.
#[tactic(auto, unfolding(crate::specs::Pages::has_page))]
pub fn page(name: &str) -> Option<&'static str>
    ensures known { is_some result ≡ spec.has_page name.now }
    ensures begins { IfSome result (λ found. StartsWith found.now (spec.title name.now)) }
{
    match code_page(name) {
        Some(found) => Some(found),
        None => word_page(name),
    }
}
