//! The names of variables, operations and statuses in C.

ghost use Rattle.flt_emit.specs.Names as spec;
ghost use Rattle.std.specs.Prelude.{◌≡◌};

use flt_rules::{Anchor, Existing, FinalStatus, Operation, Place};
use flt_tree::{ContextVariable, NumberVariable, OperationVariable, RemovedVariable, Status};

pub(crate) fn number_name(n: NumberVariable) -> &'static [u8]
    ensures { result.now ≡ spec.number_name n }
{
    match n {
        NumberVariable::N0 => b"n0",
        NumberVariable::N1 => b"n1",
        NumberVariable::N2 => b"n2",
        NumberVariable::N3 => b"n3",
        NumberVariable::N4 => b"n4",
        NumberVariable::N5 => b"n5",
        NumberVariable::N6 => b"n6",
        NumberVariable::N7 => b"n7",
    }
}

pub(crate) fn context_name(c: ContextVariable) -> &'static [u8]
    ensures { result.now ≡ spec.context_name c }
{
    match c {
        ContextVariable::C0 => b"c0",
        ContextVariable::C1 => b"c1",
        ContextVariable::C2 => b"c2",
        ContextVariable::C3 => b"c3",
        ContextVariable::C4 => b"c4",
        ContextVariable::C5 => b"c5",
        ContextVariable::C6 => b"c6",
        ContextVariable::C7 => b"c7",
        ContextVariable::Arg => b"arg",
    }
}

/// A context, or NULL if there is none.
pub(crate) fn context_or_null(context: Option<ContextVariable>) -> &'static [u8]
    ensures { result.now ≡ spec.context_or_null context }
{
    match context {
        None => b"NULL",
        Some(c) => context_name(c),
    }
}

pub(crate) fn removed_name(o: RemovedVariable) -> &'static [u8]
    ensures { result.now ≡ spec.removed_name o }
{
    match o {
        RemovedVariable::O0 => b"o0",
        RemovedVariable::O1 => b"o1",
        RemovedVariable::O2 => b"o2",
        RemovedVariable::O3 => b"o3",
    }
}

pub(crate) fn operation_name(d: OperationVariable) -> &'static [u8]
    ensures { result.now ≡ spec.operation_name d }
{
    match d {
        OperationVariable::Removed(o) => removed_name(o),
        OperationVariable::Data => b"Data",
    }
}

/// The instance of the callback.
pub(crate) fn instance(place: Place) -> &'static [u8]
    ensures { result.now ≡ spec.instance place }
{
    match place {
        Place::Pre(_) | Place::Post(_) => b"FltObjects->Instance",
        _ => b"Instance",
    }
}

/// The file object of the callback's own operation.
pub(crate) fn own_file(place: Place) -> &'static [u8]
    ensures { result.now ≡ spec.own_file place }
{
    match place {
        Place::Pre(_) | Place::Post(_) => b"FltObjects->FileObject",
        _ => b"Data->Iopb->TargetFileObject",
    }
}

/// The ends of the names of the functions that get, set and delete the context of a stream or of an instance.
pub(crate) fn anchor_name(anchor: Anchor) -> &'static [u8]
    ensures { result.now ≡ spec.anchor_name anchor }
{
    match anchor {
        Anchor::Stream => b"StreamContext( ",
        Anchor::Instance => b"InstanceContext( ",
    }
}

pub(crate) fn existing_name(existing: Existing) -> &'static [u8]
    ensures { result.now ≡ spec.existing_name existing }
{
    match existing {
        Existing::Keep => b"FLT_SET_CONTEXT_KEEP_IF_EXISTS",
        Existing::Replace => b"FLT_SET_CONTEXT_REPLACE_IF_EXISTS",
    }
}

pub(crate) fn final_status_name(status: FinalStatus) -> &'static [u8]
    ensures { result.now ≡ spec.final_status_name status }
{
    match status {
        FinalStatus::Success => b"STATUS_SUCCESS",
        FinalStatus::AccessDenied => b"STATUS_ACCESS_DENIED",
        FinalStatus::Cancelled => b"STATUS_CANCELLED",
        FinalStatus::InsufficientResources => b"STATUS_INSUFFICIENT_RESOURCES",
        FinalStatus::InvalidParameter => b"STATUS_INVALID_PARAMETER",
        FinalStatus::Pending => b"STATUS_PENDING",
    }
}

/// The value that a callback returns for a status.
pub(crate) fn status_name(status: Status) -> &'static [u8]
    ensures { result.now ≡ spec.status_name status }
{
    match status {
        Status::WithCallback(_) => b"FLT_PREOP_SUCCESS_WITH_CALLBACK",
        Status::Synchronize(_) => b"FLT_PREOP_SYNCHRONIZE",
        Status::NoCallback => b"FLT_PREOP_SUCCESS_NO_CALLBACK",
        Status::Complete(_) => b"FLT_PREOP_COMPLETE",
        Status::Pending => b"FLT_PREOP_PENDING",
        Status::DisallowFastIo => b"FLT_PREOP_DISALLOW_FASTIO",
        Status::FinishedProcessing => b"FLT_POSTOP_FINISHED_PROCESSING",
        Status::MoreProcessingRequired => b"FLT_POSTOP_MORE_PROCESSING_REQUIRED",
    }
}

/// The major function of an operation, without `IRP_MJ_`.
#[tactic(auto, using(crate::proofs::MajorNames::long))]
pub(crate) fn major_name(operation: Operation) -> &'static [u8]
    ensures { result.now ≡ spec.major_name operation }
{
    &operation.major_name().as_bytes()[7..]
}

/// The ends of the names of an operation's callbacks.
pub(crate) fn operation_word(operation: Operation) -> &'static [u8]
    ensures { result.now ≡ spec.operation_word operation }
{
    operation.title().as_bytes()
}
