//! Writes the C source of a filter.

ghost use Rattle.flt_emit.specs.Source as spec;
ghost use Rattle.flt_tree.specs.Registered.{has_post};
ghost use Rattle.std.specs.Prelude.{◌≡◌, ◌++◌, flat_map, IfOk, OnOk};

use crate::callbacks::{callbacks, prototypes};
use crate::fixed;
use crate::line::{Piece, text, texts, write};
use crate::names::{major_name, operation_word};
use crate::scope::Allocation;
use flt_rules::{LockKind, Operation};
use flt_tree::{Callback, Filter, Head, Lock, Tree};
use std::alloc::{AllocError, Global};

fn lock_type(kind: LockKind) -> &'static [u8]
    ensures { result.now ≡ spec.lock_type kind }
{
    match kind {
        LockKind::Spin => b"    KSPIN_LOCK lock_",
        LockKind::Fast => b"    FAST_MUTEX lock_",
        LockKind::Push => b"    EX_PUSH_LOCK lock_",
    }
}

fn initializer(kind: LockKind) -> &'static [u8]
    ensures { result.now ≡ spec.initializer kind }
{
    match kind {
        LockKind::Spin => b"    KeInitializeSpinLock( &Globals.lock_",
        LockKind::Fast => b"    ExInitializeFastMutex( &Globals.lock_",
        LockKind::Push => b"    FltInitializePushLock( &Globals.lock_",
    }
}

fn lock_fields(out: &mut Vec<u8>, mut locks: &[Lock]) -> Result<(), AllocError>
    ensures { OnOk result (out.new.items ≡ out.old.items ++ flat_map spec.lock_field locks.entry.now) }
{
    while let [lock, rest @ ..] = locks {
        text(out, lock_type(lock.kind))?;
        texts(out, &[lock.name.as_slice(), b";\n"])?;
        locks = rest;
    }
    Ok(())
}

fn locks_begun(out: &mut Vec<u8>, mut locks: &[Lock]) -> Result<(), AllocError>
    ensures { OnOk result (out.new.items ≡ out.old.items ++ flat_map spec.lock_begun locks.entry.now) }
{
    while let [lock, rest @ ..] = locks {
        text(out, initializer(lock.kind))?;
        texts(out, &[lock.name.as_slice(), b" );\n"])?;
        locks = rest;
    }
    Ok(())
}

fn delete_lock(out: &mut Vec<u8>, kind: LockKind, name: &[u8]) -> Result<(), AllocError>
    ensures { OnOk result (out.new.items ≡ out.old.items ++ spec.deleted kind name.now) }
{
    match kind {
        LockKind::Push => texts(
            out,
            &[b"    FltDeletePushLock( &Globals.lock_", name, b" );\n"],
        ),
        _ => Ok(()),
    }
}

fn discard_lock(out: &mut Vec<u8>, kind: LockKind, name: &[u8]) -> Result<(), AllocError>
    ensures { OnOk result (out.new.items ≡ out.old.items ++ spec.discarded kind name.now) }
{
    match kind {
        LockKind::Push => texts(
            out,
            &[
                b"    if (!NT_SUCCESS( status )) {\n        FltDeletePushLock( &Globals.lock_",
                name,
                b" );\n    }\n\n",
            ],
        ),
        _ => Ok(()),
    }
}

fn locks_deleted(out: &mut Vec<u8>, mut locks: &[Lock]) -> Result<(), AllocError>
    ensures { OnOk result (out.new.items ≡ out.old.items ++ flat_map spec.lock_deleted locks.entry.now) }
{
    while let [lock, rest @ ..] = locks {
        delete_lock(out, lock.kind, lock.name.as_slice())?;
        locks = rest;
    }
    Ok(())
}

fn locks_discarded(out: &mut Vec<u8>, mut locks: &[Lock]) -> Result<(), AllocError>
    ensures { OnOk result (out.new.items ≡ out.old.items ++ flat_map spec.lock_discarded locks.entry.now) }
{
    while let [lock, rest @ ..] = locks {
        discard_lock(out, lock.kind, lock.name.as_slice())?;
        locks = rest;
    }
    Ok(())
}

fn has_post(callbacks: &[Callback], operation: Operation) -> bool
    ensures { result ≡ has_post callbacks.now operation }
{
    callbacks.iter().any(|c| c.head.is_post_of(operation))
}

/// The row of an operation, with its post callback or without.
fn operation_row(out: &mut Vec<u8>, has_post: bool, operation: Operation) -> Result<(), AllocError>
    ensures { OnOk result (out.new.items ≡ out.old.items ++ spec.operation_row has_post operation) }
{
    let (prefix, word): (&'static [u8], &'static [u8]) = if has_post {
        (b", Post", operation_word(operation))
    } else {
        (b", NULL", b"")
    };
    texts(
        out,
        &[
            b"    { IRP_MJ_",
            major_name(operation),
            b", 0, Pre",
            operation_word(operation),
            prefix,
            word,
            b", NULL },\n",
        ],
    )
}

fn row(out: &mut Vec<u8>, all: &[Callback], head: &Head) -> Result<(), AllocError>
    ensures { OnOk result (out.new.items ≡ out.old.items ++ spec.row_of all.now head.now) }
{
    match head {
        Head::Pre(operation) => operation_row(out, has_post(all, *operation), *operation),
        _ => Ok(()),
    }
}

fn rows(out: &mut Vec<u8>, all: &[Callback], mut found: &[Callback]) -> Result<(), AllocError>
    ensures { OnOk result (out.new.items ≡ out.old.items ++ spec.rows_of all.now found.entry.now) }
{
    while let [first, rest @ ..] = found {
        row(out, all, &first.head)?;
        found = rest;
    }
    Ok(())
}

/// The first lines of the comment.
#[tactic(auto, unfolding(crate::specs::Source::title))]
fn title(out: &mut Vec<u8>, filter: &Filter) -> Result<(), AllocError>
    ensures { OnOk result (out.new.items ≡ out.old.items ++ spec.title filter.now) }
{
    let name = filter.name.as_slice();
    fixed::comment_begin(out)?;
    text(out, name)?;
    fixed::source_title(out)?;
    text(out, name)?;
    fixed::altitude_title(out)?;
    write(out, &[Piece::Number(filter.altitude), Piece::Text(b".\n")])
}

/// The line that includes the writer's header.
#[tactic(auto, unfolding(crate::specs::Source::included))]
fn included(out: &mut Vec<u8>, filter: &Filter) -> Result<(), AllocError>
    ensures { OnOk result (out.new.items ≡ out.old.items ++ spec.included filter.now) }
{
    text(out, b"#include \"")?;
    text(out, filter.name.as_slice())?;
    text(out, b"_user.h\"\n")
}

/// The comment and the headers.
#[tactic(auto, unfolding(crate::specs::Source::front))]
fn front(out: &mut Vec<u8>, filter: &Filter) -> Result<(), AllocError>
    ensures { OnOk result (out.new.items ≡ out.old.items ++ spec.front filter.now) }
{
    title(out, filter)?;
    fixed::written(out)?;
    included(out, filter)
}

/// The contexts, and the declarations that all callbacks share.
#[tactic(auto, unfolding(crate::specs::Source::globals))]
fn globals(out: &mut Vec<u8>, locks: &[Lock], queue: bool) -> Result<(), AllocError>
    ensures { OnOk result (out.new.items ≡ out.old.items ++ spec.globals locks.now queue) }
{
    fixed::contexts(out)?;
    lock_fields(out, locks)?;
    if queue {
        fixed::queue_fields(out)?;
    }
    fixed::globals_end(out)
}

/// Functions that callbacks call.
#[tactic(auto, unfolding(crate::specs::Source::helpers))]
pub(crate) fn helpers(out: &mut Vec<u8>, queue: bool) -> Result<(), AllocError>
    ensures { OnOk result (out.new.items ≡ out.old.items ++ spec.helpers queue) }
{
    fixed::allocating(out)?;
    fixed::stream_contexts(out)?;
    fixed::instance_contexts(out)?;
    fixed::work_items(out)?;
    if queue {
        fixed::queueing(out)?;
    }
    Ok(())
}

/// The callbacks of the queue.
#[tactic(auto, unfolding(crate::specs::Source::queue_part))]
fn queue_part(out: &mut Vec<u8>, queue: bool) -> Result<(), AllocError>
    ensures { OnOk result (out.new.items ≡ out.old.items ++ spec.queue_part queue) }
{
    if queue {
        fixed::queue_callbacks(out)?;
        fixed::queue_locking(out)?;
    }
    Ok(())
}

/// How the filter attaches and detaches.
#[tactic(auto, unfolding(crate::specs::Source::attachment))]
fn attachment(out: &mut Vec<u8>, locks: &[Lock], queue: bool) -> Result<(), AllocError>
    ensures { OnOk result (out.new.items ≡ out.old.items ++ spec.attachment locks.now queue) }
{
    fixed::attaching(out)?;
    if queue {
        fixed::queue_setup(out)?;
    }
    fixed::detaching(out)?;
    locks_deleted(out, locks)
}

/// The registration of the filter.
#[tactic(auto, unfolding(crate::specs::Source::registered))]
fn registered(out: &mut Vec<u8>, callbacks: &[Callback], queue: bool) -> Result<(), AllocError>
    ensures { OnOk result (out.new.items ≡ out.old.items ++ spec.registered callbacks.now queue) }
{
    fixed::operations(out)?;
    rows(out, callbacks, callbacks)?;
    fixed::registration(out)?;
    if queue {
        fixed::queue_registration(out)?;
    }
    Ok(())
}

/// How the driver's locks and its queue begin.
#[tactic(auto, unfolding(crate::specs::Source::beginning))]
fn beginning(out: &mut Vec<u8>, locks: &[Lock], queue: bool) -> Result<(), AllocError>
    ensures { OnOk result (out.new.items ≡ out.old.items ++ spec.beginning locks.now queue) }
{
    fixed::entry(out)?;
    locks_begun(out, locks)?;
    if queue {
        fixed::queue_entry(out)?;
    }
    Ok(())
}

/// How the driver registers.
#[tactic(auto, unfolding(crate::specs::Source::registering))]
fn registering(out: &mut Vec<u8>, locks: &[Lock]) -> Result<(), AllocError>
    ensures { OnOk result (out.new.items ≡ out.old.items ++ spec.registering locks.now) }
{
    fixed::registering(out)?;
    locks_discarded(out, locks)?;
    fixed::ending(out)
}

/// The source before the callbacks.
#[tactic(auto, unfolding(crate::specs::Source::declared))]
fn declared(out: &mut Vec<u8>, filter: &Filter) -> Result<(), AllocError>
    ensures { OnOk result (out.new.items ≡ out.old.items ++ spec.declared filter.now) }
{
    let queue = filter.queue.is_some();
    front(out, filter)?;
    globals(out, filter.locks.as_slice(), queue)?;
    prototypes(out, filter.callbacks.as_slice())?;
    helpers(out, queue)
}

/// The source after the callbacks.
#[tactic(auto, unfolding(crate::specs::Source::framed))]
pub(crate) fn framed(out: &mut Vec<u8>, filter: &Filter) -> Result<(), AllocError>
    ensures { OnOk result (out.new.items ≡ out.old.items ++ spec.framed filter.now) }
{
    let locks = filter.locks.as_slice();
    let queue = filter.queue.is_some();
    queue_part(out, queue)?;
    attachment(out, locks, queue)?;
    registered(out, filter.callbacks.as_slice(), queue)?;
    beginning(out, locks, queue)?;
    registering(out, locks)
}

/// The C source of a filter. `instances` has the points at which contexts of the instance are allocated; at every other point a
/// context of a stream is.
///
/// # Errors
///
/// `AllocError` if a growth is refused.
#[tactic(auto, unfolding(crate::specs::Source::source))]
pub fn emit(alloc: Global, tree: &Tree, instances: &[Allocation]) -> Result<Vec<u8>, AllocError>
    ensures { IfOk result (λ text. text.items ≡ spec.source instances.now tree.now.filter) }
{
    let filter = &tree.filter;
    let mut out = Vec::new(alloc);
    declared(&mut out, filter)?;
    callbacks(
        &mut out,
        filter.locks.as_slice(),
        instances,
        filter.callbacks.as_slice(),
    )?;
    framed(&mut out, filter)?;
    Ok(out)
}
