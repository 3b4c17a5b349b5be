//! The kinds of words that appear in like places.

ghost use Rattle.std.specs.Prelude.{◌≡◌};
ghost use Rattle.flt_explain_hints.specs.Kinds as spec;

use flt_rules::LockKind;
use flt_syntax::{Kind, Slot, fallible_shape_of, plain_shape_of, slots_of};

pub(crate) fn is_fallible(kind: Kind) -> bool
    ensures { result ≡ spec.is_fallible kind }
{
    fallible_shape_of(kind).is_some()
}

pub(crate) fn is_plain(kind: Kind) -> bool
    ensures { result ≡ spec.is_plain kind }
{
    plain_shape_of(kind).is_some()
}

pub(crate) fn is_call(kind: Kind) -> bool
    ensures { result ≡ spec.is_call kind }
{
    is_fallible(kind) || is_plain(kind)
}

/// Whether it is a word that appears among the operands of calls and isn't a variable's or a status.
pub(crate) fn is_operand_word(kind: Kind) -> bool
    ensures { result ≡ spec.is_operand_word kind }
{
    matches!(
        kind,
        Kind::Name
            | Kind::Data
            | Kind::As
            | Kind::Old
            | Kind::Context
            | Kind::KeepIfExists
            | Kind::ReplaceIfExists
    )
}

pub(crate) fn is_final_status(kind: Kind) -> bool
    ensures { result ≡ spec.is_final_status kind }
{
    matches!(
        kind,
        Kind::StatusSuccess
            | Kind::StatusAccessDenied
            | Kind::StatusCancelled
            | Kind::StatusInsufficientResources
            | Kind::StatusInvalidParameter
            | Kind::StatusPending
    )
}

/// The kind of the lock whose name follows the word of a call.
pub(crate) fn lock_of(kind: Kind) -> Option<LockKind>
    ensures { result ≡ spec.lock_of kind }
{
    match slots_of(kind) {
        [Slot::Lock(lock), ..] => Some(*lock),
        _ => None,
    }
}

pub(crate) fn begins_callback(kind: Kind) -> bool
    ensures { result ≡ spec.begins_callback kind }
{
    matches!(
        kind,
        Kind::Pre
            | Kind::Post
            | Kind::Canceled
            | Kind::DeferredPre
            | Kind::DeferredPost
            | Kind::Generic
    )
}

pub(crate) fn is_number_variable(kind: Kind) -> bool
    ensures { result ≡ spec.is_number_variable kind }
{
    matches!(
        kind,
        Kind::N0 | Kind::N1 | Kind::N2 | Kind::N3 | Kind::N4 | Kind::N5 | Kind::N6 | Kind::N7
    )
}

pub(crate) fn is_context_variable(kind: Kind) -> bool
    ensures { result ≡ spec.is_context_variable kind }
{
    matches!(
        kind,
        Kind::C0
            | Kind::C1
            | Kind::C2
            | Kind::C3
            | Kind::C4
            | Kind::C5
            | Kind::C6
            | Kind::C7
            | Kind::Arg
    )
}

pub(crate) fn is_operation_variable(kind: Kind) -> bool
    ensures { result ≡ spec.is_operation_variable kind }
{
    matches!(kind, Kind::O0 | Kind::O1 | Kind::O2 | Kind::O3)
}

pub(crate) fn is_variable(kind: Kind) -> bool
    ensures { result ≡ spec.is_variable kind }
{
    is_number_variable(kind) || is_context_variable(kind) || is_operation_variable(kind)
}

pub(crate) fn is_status(kind: Kind) -> bool
    ensures { result ≡ spec.is_status kind }
{
    matches!(
        kind,
        Kind::WithCallback
            | Kind::Synchronize
            | Kind::NoCallback
            | Kind::Pending
            | Kind::DisallowFastIo
            | Kind::Complete
            | Kind::FinishedProcessing
            | Kind::MoreProcessingRequired
    )
}
