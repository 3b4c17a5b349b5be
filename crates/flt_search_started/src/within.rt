//! Whether all callbacks that statements ask for may start.

ghost use Rattle.std.specs.Prelude.{◌≡◌, Some, false, get_or};
ghost use Rattle.std.specs.List.{list_all};
ghost use Rattle.flt_rules.specs.Place.{all_operations};
ghost use Rattle.flt_starts.specs.Closed as spec;
ghost use Rattle.flt_model.specs.Settling as settling;
ghost use Rattle.flt_search_started.specs.Marks.{is_marked as marked};

use crate::callbacks::{canceled_number, has_post, post_number, routine_of};
use flt_rules::{Operation, Place};
use flt_tree::{Callback, Condition, FallibleCall, PlainCall, Routine, Statement, Status};

/// Whether a callback is marked.
pub(crate) fn is_marked(marks: &[bool], number: usize) -> bool
    ensures { result ≡ marked marks.now number }
{
    match marks.get(number) {
        Some(mark) => *mark,
        None => false,
    }
}

/// Whether a status, returned or handed on before the filters below, asks for the post callback.
pub(crate) fn asks_for_post(has_post: bool, returned: bool, status: Option<Status>) -> bool
    ensures { result ≡ settling.asks_for_frame (settling.way_before has_post returned status) }
{
    match status {
        Some(Status::WithCallback(_) | Status::Synchronize(_)) => has_post,
        Some(Status::Pending | Status::DisallowFastIo) => returned && false,
        _ => false,
    }
}

fn status_within(
    callbacks: &[Callback],
    marks: &[bool],
    returned: bool,
    status: Option<Status>,
    kind: Operation,
) -> bool
    ensures { result ≡ spec.status_within callbacks.now (marked marks.now) returned status kind }
{
    !asks_for_post(has_post(callbacks, kind), returned, status)
        || is_marked(marks, post_number(callbacks, kind))
}

fn return_within(
    callbacks: &[Callback],
    marks: &[bool],
    place: Place,
    status: Option<Status>,
) -> bool
    ensures { result ≡ spec.return_within callbacks.now (marked marks.now) place status }
{
    match place {
        Place::Pre(kind) => status_within(callbacks, marks, true, status, kind),
        _ => true,
    }
}

/// The same of an operation of any kind that is completed with a status.
fn completed_within(callbacks: &[Callback], marks: &[bool], status: Status) -> bool
    ensures { result ≡ list_all (spec.status_within callbacks.now (marked marks.now) false (Some status)) all_operations }
{
    Operation::all().iter().all(|kind| status_within(callbacks, marks, false, Some(status), *kind))
}

fn plain_within(callbacks: &[Callback], marks: &[bool], call: PlainCall) -> bool
    ensures { result ≡ spec.plain_within callbacks.now (marked marks.now) call }
{
    match call {
        PlainCall::CompletePendedPreOperation(_, status) => {
            completed_within(callbacks, marks, status)
        }
        _ => true,
    }
}

fn fallible_within(callbacks: &[Callback], marks: &[bool], call: &FallibleCall<Routine>) -> bool
    ensures { result ≡ spec.fallible_within callbacks.now (marked marks.now) call.now }
{
    match call {
        FallibleCall::InsertIo(_) => is_marked(marks, canceled_number(callbacks)),
        FallibleCall::QueueDeferredIoWorkItem(routine, _)
        | FallibleCall::QueueGenericWorkItem(routine, _) => {
            is_marked(marks, routine_of(callbacks, routine))
        }
        _ => true,
    }
}

fn condition_within(callbacks: &[Callback], marks: &[bool], condition: &Condition) -> bool
    ensures { result ≡ spec.condition_within callbacks.now (marked marks.now) condition.now }
{
    match condition {
        Condition::Succeeds(call) => fallible_within(callbacks, marks, call),
        Condition::Test(_) => true,
    }
}

#[cycle(within)]
fn statement_within(
    callbacks: &[Callback],
    marks: &[bool],
    place: Place,
    statement: &Statement,
) -> bool
    ensures { result ≡ spec.statement_within callbacks.now (marked marks.now) place statement.now }
{
    match statement {
        Statement::Act(_, _) => true,
        Statement::Call(_, call) => plain_within(callbacks, marks, *call),
        Statement::Return(_, status) => return_within(callbacks, marks, place, *status),
        Statement::If(_, condition, granted, refused) => {
            condition_within(callbacks, marks, condition)
                && body_within(callbacks, marks, place, granted.as_slice())
                && body_within(callbacks, marks, place, refused.as_slice())
        }
        Statement::Repeat(_, _, body) => body_within(callbacks, marks, place, body.as_slice()),
    }
}

/// Whether all that the statements of a callback at a place ask for is marked.
#[cycle(within)]
pub(crate) fn body_within(
    callbacks: &[Callback],
    marks: &[bool],
    place: Place,
    body: &[Statement],
) -> bool
    ensures { result ≡ spec.body_within callbacks.now (marked marks.now) place body.now }
{
    for statement in body {
        if !statement_within(callbacks, marks, place, statement) {
            return false;
        }
    }
    true
}
