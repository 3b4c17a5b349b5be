//! The call table: for each call the greatest level, the legal places, the states that it requires of its operands, and its effects on
//! them.

ghost use Rattle.std.specs.Prelude.{◌≡◌};
ghost use Rattle.flt_rules.specs.Table as spec;

use crate::call::{Anchor, Call, Existing, LockKind, Possessed};
use crate::columns::{Change, Effects, LockChange, LockNeed, Need, Needs, Places, Row};
use crate::held::Access;
use crate::place::Level;

const NOTHING: Needs = Needs {
    context: Need::Nothing,
    output: Need::Nothing,
    operation: Need::Nothing,
    irp: false,
    status: false,
    lock: LockNeed::Nothing,
};

const SAME: Effects = Effects {
    context: Change::Stays,
    output: Change::Stays,
    operation: Change::Stays,
    lock: LockChange::Stays,
};

const GIVES_HELD: Effects = Effects {
    context: Change::Stays,
    output: Change::Held,
    operation: Change::Stays,
    lock: LockChange::Stays,
};

const GIVES_NULL: Effects = Effects {
    context: Change::Stays,
    output: Change::Null,
    operation: Change::Stays,
    lock: LockChange::Stays,
};

const GIVES_NULL_OR_HELD: Effects = Effects {
    context: Change::Stays,
    output: Change::NullOrHeld,
    operation: Change::Stays,
    lock: LockChange::Stays,
};

/// The effects on the operation and the context that a call hands over, if it names them.
const HANDED_OVER: Effects = Effects {
    context: Change::Stale,
    output: Change::Stays,
    operation: Change::Stale,
    lock: LockChange::Stays,
};

fn line(
    greatest: Level,
    places: Places,
    needs: Needs,
    on_ok: Effects,
    on_fail: Option<Effects>,
) -> Row
    ensures { result ≡ spec.line greatest places needs on_ok on_fail }
{
    Row {
        greatest,
        places,
        needs,
        on_ok,
        on_fail,
    }
}

/// The places of a call on the stream or on the instance. The stream isn't there yet in the pre callback of a create.
fn places_of(anchor: Anchor) -> Places
    ensures { result ≡ spec.places_of anchor }
{
    match anchor {
        Anchor::Stream => Places::NotPreCreate,
        Anchor::Instance => Places::All,
    }
}

/// The state that a call on the stream or on the instance requires of the operation, which names the stream.
fn operation_need(anchor: Anchor) -> Need
    ensures { result ≡ spec.operation_need anchor }
{
    match anchor {
        Anchor::Stream => Need::Held,
        Anchor::Instance => Need::Nothing,
    }
}

/// The row of a call that gets, sets or deletes the context of a stream or of the instance.
fn anchored(anchor: Anchor, context: Need, on_ok: Effects, on_fail: Effects) -> Row
    ensures { result ≡ spec.anchored anchor context on_ok on_fail }
{
    let needs = Needs {
        context,
        output: Need::Output,
        operation: operation_need(anchor),
        ..NOTHING
    };
    line(Level::Apc, places_of(anchor), needs, on_ok, Some(on_fail))
}

fn lock_level(kind: LockKind) -> Level
    ensures { result ≡ spec.lock_level kind }
{
    match kind {
        LockKind::Spin => Level::Dispatch,
        LockKind::Fast | LockKind::Push => Level::Apc,
    }
}

fn lock_row(kind: LockKind, lock: LockNeed, change: LockChange) -> Row
    ensures { result ≡ spec.lock_row kind lock change }
{
    let needs = Needs { lock, ..NOTHING };
    let on_ok = Effects {
        lock: change,
        ..SAME
    };
    line(lock_level(kind), Places::All, needs, on_ok, None)
}

/// The row of a call that makes, references or releases a context.
fn lifetime_row(greatest: Level, context: Need, output: Need, on_ok: Effects) -> Row
    ensures { result ≡ spec.lifetime_row greatest context output on_ok }
{
    let needs = Needs {
        context,
        output,
        ..NOTHING
    };
    line(greatest, Places::All, needs, on_ok, None)
}

/// The row of a call that hands an operation or a context to a queue, to a work item or back.
fn hand_over_row(
    greatest: Level,
    places: Places,
    operation: Need,
    irp: bool,
    on_fail: Option<Effects>,
) -> Row
    ensures { result ≡ spec.hand_over_row greatest places operation irp on_fail }
{
    let needs = Needs {
        context: Need::HandedOver,
        operation,
        irp,
        ..NOTHING
    };
    line(greatest, places, needs, HANDED_OVER, on_fail)
}

fn remove_next_row() -> Row
    ensures { result ≡ spec.remove_next_row }
{
    let needs = Needs {
        output: Need::Output,
        operation: Need::Output,
        ..NOTHING
    };
    let on_ok = Effects {
        output: Change::NullOrHeld,
        operation: Change::Held,
        ..SAME
    };
    let on_fail = Effects {
        output: Change::Null,
        operation: Change::Null,
        ..SAME
    };
    line(Level::Apc, Places::All, needs, on_ok, Some(on_fail))
}

fn complete_pre_row(whose: Possessed) -> Row
    ensures { result ≡ spec.complete_pre_row whose }
{
    let needs = Needs {
        context: Need::HandedOver,
        operation: Need::Held,
        status: true,
        ..NOTHING
    };
    let places = match whose {
        Possessed::Given => Places::CanceledOrDeferredPre,
        Possessed::Removed => Places::All,
    };
    line(Level::Apc, places, needs, HANDED_OVER, None)
}

fn complete_post_row() -> Row
    ensures { result ≡ spec.complete_post_row }
{
    let needs = Needs {
        operation: Need::Held,
        ..NOTHING
    };
    line(
        Level::Dispatch,
        Places::DeferredPost,
        needs,
        HANDED_OVER,
        None,
    )
}

fn allocate_row() -> Row
    ensures { result ≡ spec.allocate_row }
{
    let needs = Needs {
        output: Need::Output,
        ..NOTHING
    };
    line(Level::Apc, Places::All, needs, GIVES_HELD, Some(GIVES_NULL))
}

fn release_row() -> Row
    ensures { result ≡ spec.release_row }
{
    let on_ok = Effects {
        context: Change::Stale,
        ..SAME
    };
    lifetime_row(Level::Dispatch, Need::Held, Need::Nothing, on_ok)
}

/// The row of a call.
pub fn row(call: Call) -> Row
    ensures { result ≡ spec.row call }
{
    match call {
        Call::AllocateContext => allocate_row(),
        Call::GetContext(anchor) => anchored(anchor, Need::Nothing, GIVES_HELD, GIVES_NULL),
        Call::SetContext(anchor, Existing::Keep) => {
            anchored(anchor, Need::Held, GIVES_NULL, GIVES_NULL_OR_HELD)
        }
        Call::SetContext(anchor, Existing::Replace) => {
            anchored(anchor, Need::Held, GIVES_NULL_OR_HELD, GIVES_NULL)
        }
        Call::DeleteContextOf(anchor) => anchored(anchor, Need::Nothing, GIVES_HELD, GIVES_NULL),
        Call::DeleteContext => lifetime_row(Level::Apc, Need::Held, Need::Nothing, SAME),
        Call::ReferenceContext => {
            lifetime_row(Level::Dispatch, Need::Held, Need::Output, GIVES_HELD)
        }
        Call::ReleaseContext => release_row(),
        Call::AcquireLock(kind) => lock_row(
            kind,
            LockNeed::NotHeld,
            LockChange::Taken(Access::Exclusive),
        ),
        Call::AcquirePushLockShared => lock_row(
            LockKind::Push,
            LockNeed::NotHeld,
            LockChange::Taken(Access::Shared),
        ),
        Call::ReleaseLock(kind) => lock_row(kind, LockNeed::Latest, LockChange::Released),
        Call::InsertIo => hand_over_row(
            Level::Apc,
            Places::PreOrDeferredPre,
            Need::Held,
            true,
            Some(SAME),
        ),
        Call::RemoveNextIo => remove_next_row(),
        Call::QueueDeferredIoWorkItem => hand_over_row(
            Level::Dispatch,
            Places::PreOrPost,
            Need::Held,
            true,
            Some(SAME),
        ),
        Call::QueueGenericWorkItem => hand_over_row(
            Level::Dispatch,
            Places::All,
            Need::Nothing,
            false,
            Some(SAME),
        ),
        Call::CompletePendedPreOperation(whose) => complete_pre_row(whose),
        Call::CompletePendedPostOperation => complete_post_row(),
    }
}
