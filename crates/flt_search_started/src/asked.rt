//! Marks the callbacks that statements ask for. The result is tested later; no clause speaks of it here.

use crate::callbacks::{canceled_number, has_post, post_number, routine_of};
use crate::within::asks_for_post;
use flt_rules::{Operation, Place};
use flt_tree::{Callback, Condition, FallibleCall, PlainCall, Statement, Status};
use sqlite_items::Items;

/// Marks a callback, if it is there.
pub(crate) fn mark(marks: &mut Items<bool>, number: usize) {
    if number < marks.len() {
        marks.set(number, true);
    }
}

fn mark_by_status(
    callbacks: &[Callback],
    marks: &mut Items<bool>,
    returned: bool,
    status: Option<Status>,
    kind: Operation,
) {
    if asks_for_post(has_post(callbacks, kind), returned, status) {
        mark(marks, post_number(callbacks, kind));
    }
}

fn mark_by_return(
    callbacks: &[Callback],
    marks: &mut Items<bool>,
    place: Place,
    status: Option<Status>,
) {
    if let Place::Pre(kind) = place {
        mark_by_status(callbacks, marks, true, status, kind);
    }
}

fn mark_by_plain(callbacks: &[Callback], marks: &mut Items<bool>, call: PlainCall) {
    if let PlainCall::CompletePendedPreOperation(_, status) = call {
        for kind in Operation::all() {
            mark_by_status(callbacks, marks, false, Some(status), *kind);
        }
    }
}

fn mark_by_condition(callbacks: &[Callback], marks: &mut Items<bool>, condition: &Condition) {
    match condition {
        Condition::Succeeds(FallibleCall::InsertIo(_)) => mark(marks, canceled_number(callbacks)),
        Condition::Succeeds(
            FallibleCall::QueueDeferredIoWorkItem(routine, _)
            | FallibleCall::QueueGenericWorkItem(routine, _),
        ) => mark(marks, routine_of(callbacks, routine)),
        _ => {}
    }
}

#[cycle(marking)]
fn mark_by_statement(
    callbacks: &[Callback],
    marks: &mut Items<bool>,
    place: Place,
    statement: &Statement,
) {
    match statement {
        Statement::Act(_, _) => {}
        Statement::Call(_, call) => mark_by_plain(callbacks, marks, *call),
        Statement::Return(_, status) => mark_by_return(callbacks, marks, place, *status),
        Statement::If(_, condition, granted, refused) => {
            mark_by_condition(callbacks, marks, condition);
            mark_by_body(callbacks, marks, place, granted.as_slice());
            mark_by_body(callbacks, marks, place, refused.as_slice());
        }
        Statement::Repeat(_, _, body) => mark_by_body(callbacks, marks, place, body.as_slice()),
    }
}

/// Marks all callbacks that the statements of a callback at a place ask for.
#[cycle(marking)]
pub(crate) fn mark_by_body(
    callbacks: &[Callback],
    marks: &mut Items<bool>,
    place: Place,
    body: &[Statement],
) {
    for statement in body {
        mark_by_statement(callbacks, marks, place, statement);
    }
}
