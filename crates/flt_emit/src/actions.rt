//! Writes statements that don't branch.

ghost use Rattle.flt_emit.specs.Statements as spec;
ghost use Rattle.flt_tree.specs.Declarations as declared;
ghost use Rattle.std.specs.Prelude.{◌≡◌, ◌++◌, OnOk};

use crate::expressions::{expression, file};
use crate::line::{Piece, text, texts, write};
use crate::names::{
    context_name, context_or_null, final_status_name, number_name, operation_name, removed_name,
    status_name,
};
use flt_rules::{FinalStatus, LockKind, LockNumber, Place};
use flt_tree::{Action, ContextVariable, Lock, PlainCall, Status};
use std::alloc::AllocError;

/// A statement that neither calls nor branches.
pub(crate) fn action(out: &mut Vec<u8>, place: Place, action: Action) -> Result<(), AllocError>
    ensures { OnOk result (out.new.items ≡ out.old.items ++ spec.action_text place action) }
{
    match action {
        Action::SetNumber(n, e) => {
            texts(out, &[number_name(n), b" = "])?;
            expression(out, e)?;
            text(out, b";")
        }
        Action::ReadValue(n, c) => texts(
            out,
            &[
                number_name(n),
                b" = ReadULong64NoFence( &",
                context_name(c),
                b"->Value );",
            ],
        ),
        Action::ReadFile(n, d) => texts(
            out,
            &[
                number_name(n),
                b" = USER_FILE_NUMBER( ",
                file(place, d),
                b" );",
            ],
        ),
        Action::WriteValue(c, x) => write(
            out,
            &[
                Piece::Text(b"WriteULong64NoFence( &"),
                Piece::Text(context_name(c)),
                Piece::Text(b"->Value, "),
                Piece::Atom(x),
                Piece::Text(b" );"),
            ],
        ),
        Action::ClearContext(c) => texts(out, &[context_name(c), b" = NULL;"]),
        Action::ClearOperation(o) => texts(out, &[removed_name(o), b" = NULL;"]),
    }
}

/// The name of the lock of a number, if it is there.
fn lock_name(locks: &[Lock], number: LockNumber) -> &[u8]
    ensures { result.now ≡ declared.lock_name locks.now number }
{
    match locks.get(usize::from(number.place())) {
        None => b"",
        Some(lock) => lock.name.as_slice(),
    }
}

/// The call that acquires a lock. For a spin lock it saves the level before.
fn acquire(out: &mut Vec<u8>, kind: LockKind, name: &[u8]) -> Result<(), AllocError>
    ensures { OnOk result (out.new.items ≡ out.old.items ++ spec.acquire_text kind name.now) }
{
    match kind {
        LockKind::Spin => texts(
            out,
            &[
                b"KeAcquireSpinLock( &Globals.lock_",
                name,
                b", &irql_",
                name,
                b" );",
            ],
        ),
        LockKind::Fast => texts(out, &[b"ExAcquireFastMutex( &Globals.lock_", name, b" );"]),
        LockKind::Push => texts(
            out,
            &[b"FltAcquirePushLockExclusive( &Globals.lock_", name, b" );"],
        ),
    }
}

/// The call that acquires a push lock shared.
fn acquire_shared(out: &mut Vec<u8>, name: &[u8]) -> Result<(), AllocError>
    ensures { OnOk result (out.new.items ≡ out.old.items ++ spec.shared_text name.now) }
{
    texts(
        out,
        &[b"FltAcquirePushLockShared( &Globals.lock_", name, b" );"],
    )
}

/// The call that releases a lock. For a spin lock it takes the level before.
fn release(out: &mut Vec<u8>, kind: LockKind, name: &[u8]) -> Result<(), AllocError>
    ensures { OnOk result (out.new.items ≡ out.old.items ++ spec.release_text kind name.now) }
{
    match kind {
        LockKind::Spin => texts(
            out,
            &[
                b"KeReleaseSpinLock( &Globals.lock_",
                name,
                b", irql_",
                name,
                b" );",
            ],
        ),
        LockKind::Fast => texts(out, &[b"ExReleaseFastMutex( &Globals.lock_", name, b" );"]),
        LockKind::Push => texts(out, &[b"FltReleasePushLock( &Globals.lock_", name, b" );"]),
    }
}

/// A call that always succeeds.
pub(crate) fn plain_call(
    out: &mut Vec<u8>,
    locks: &[Lock],
    call: PlainCall,
) -> Result<(), AllocError>
    ensures { OnOk result (out.new.items ≡ out.old.items ++ spec.plain_text locks.now call) }
{
    match call {
        PlainCall::DeleteContext(c) => {
            texts(out, &[b"FltDeleteContext( ", context_name(c), b" );"])
        }
        PlainCall::ReferenceContext(c, d) => {
            texts(
                out,
                &[
                    context_name(d),
                    b" = ReferenceContext( ",
                    context_name(c),
                    b" );",
                ],
            )
        }
        PlainCall::ReleaseContext(c) => texts(
            out,
            &[b"FltReleaseContext( ", context_name(c), b" );"],
        ),
        PlainCall::AcquireLock(kind, number) => acquire(out, kind, lock_name(locks, number)),
        PlainCall::AcquirePushLockShared(number) => {
            acquire_shared(out, lock_name(locks, number))
        }
        PlainCall::ReleaseLock(kind, number) => release(out, kind, lock_name(locks, number)),
        PlainCall::CompletePendedPreOperation(d, status) => texts(
            out,
            &[
                b"FltCompletePendedPreOperation( ",
                operation_name(d),
                b", ",
                status_name(status),
                b", ",
                context_or_null(status.context()),
                b" );",
            ],
        ),
        PlainCall::CompletePendedPostOperation => {
            text(out, b"FltCompletePendedPostOperation( Data );")
        }
    }
}

/// The lines that set the final status of an operation.
fn final_lines(
    out: &mut Vec<u8>,
    level: usize,
    operation: &[u8],
    status: FinalStatus,
) -> Result<(), AllocError>
    ensures { OnOk result (out.new.items ≡ out.old.items ++ spec.final_text level operation.now status) }
{
    write(
        out,
        &[
            Piece::Level(level),
            Piece::Text(operation),
            Piece::Text(b"->IoStatus.Status = "),
            Piece::Text(final_status_name(status)),
            Piece::Text(b";\n"),
            Piece::Level(level),
            Piece::Text(operation),
            Piece::Text(b"->IoStatus.Information = 0;\n"),
        ],
    )
}

/// The lines that a status needs if it completes an operation.
fn completed(
    out: &mut Vec<u8>,
    level: usize,
    operation: &[u8],
    status: Status,
) -> Result<(), AllocError>
    ensures { OnOk result (out.new.items ≡ out.old.items ++ spec.completed_text level operation.now status) }
{
    match status {
        Status::Complete(status) => final_lines(out, level, operation, status),
        _ => Ok(()),
    }
}

/// The line that hands a context to the post callback, if there is one.
fn handed(
    out: &mut Vec<u8>,
    level: usize,
    context: Option<ContextVariable>,
) -> Result<(), AllocError>
    ensures { OnOk result (out.new.items ≡ out.old.items ++ spec.handed_text level context) }
{
    match context {
        None => Ok(()),
        Some(c) => {
            write(
                out,
                &[
                    Piece::Level(level),
                    Piece::Text(b"*CompletionContext = "),
                    Piece::Text(context_name(c)),
                    Piece::Text(b";\n"),
                ],
            )
        }
    }
}

/// The lines before a call.
pub(crate) fn before_call(
    out: &mut Vec<u8>,
    level: usize,
    call: PlainCall,
) -> Result<(), AllocError>
    ensures { OnOk result (out.new.items ≡ out.old.items ++ spec.before_call level call) }
{
    match call {
        PlainCall::CompletePendedPreOperation(d, status) => {
            completed(out, level, operation_name(d), status)
        }
        _ => Ok(()),
    }
}

/// The lines before a returned status.
fn before_return(out: &mut Vec<u8>, level: usize, status: Status) -> Result<(), AllocError>
    ensures { OnOk result (out.new.items ≡ out.old.items ++ spec.before_return level status) }
{
    completed(out, level, b"Data", status)?;
    handed(out, level, status.context())
}

/// How a callback that returns no status is left.
fn leaving(place: Place) -> &'static [u8]
    ensures { result.now ≡ spec.leaving place }
{
    match place {
        Place::Canceled => b"return;",
        _ => b"goto Done;",
    }
}

/// The return of a pre or a post callback that passes the operation on.
pub(crate) fn passing(is_pre: bool) -> &'static [u8]
    ensures { result.now ≡ spec.passing is_pre }
{
    if is_pre {
        b"return FLT_PREOP_SUCCESS_NO_CALLBACK;"
    } else {
        b"return FLT_POSTOP_FINISHED_PROCESSING;"
    }
}

/// The return of a pre or a post callback.
fn answer(
    out: &mut Vec<u8>,
    is_pre: bool,
    level: usize,
    status: Option<Status>,
) -> Result<(), AllocError>
    ensures { OnOk result (out.new.items ≡ out.old.items ++ spec.answer_text is_pre level status) }
{
    match status {
        None => { write(out, &[Piece::Level(level), Piece::Text(passing(is_pre))]) }
        Some(status) => {
            before_return(out, level, status)?;
            write(
                out,
                &[
                    Piece::Level(level),
                    Piece::Text(b"return "),
                    Piece::Text(status_name(status)),
                    Piece::Text(b";"),
                ],
            )
        }
    }
}

/// A return.
pub(crate) fn leave(
    out: &mut Vec<u8>,
    place: Place,
    level: usize,
    status: Option<Status>,
) -> Result<(), AllocError>
    ensures { OnOk result (out.new.items ≡ out.old.items ++ spec.return_text place level status) }
{
    match place {
        Place::Pre(_) => answer(out, true, level, status),
        Place::Post(_) => answer(out, false, level, status),
        _ => { write(out, &[Piece::Level(level), Piece::Text(leaving(place))]) }
    }
}
