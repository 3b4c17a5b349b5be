//! The drifts of a C file: the points in which it and its annotations differ.

ghost use Rattle.std.specs.Prelude.{◌≡◌, ◌++◌, [], Err, IfOk, MatchResult, Ok, OnOk};
ghost use Rattle.flt_c_drift.specs.Drifts as spec;
ghost use Rattle.flt_c_drift.specs.Reading as reading;

use crate::callbacks::Callbacks;
use crate::mark::{Mark, MarkKind, Take};
use crate::reader::marks;
use crate::stretch::Stretch;
use flt_c::{Flaw, letters};
use std::alloc::{AllocError, Global};

/// The kinds of drift, with their codes.
#[derive(Clone, Copy, Debug)]
pub enum DriftKind {
    /// C01: an annotation names a call, and the code that it is about doesn't have its name. The place is that of the name in the
    /// annotation.
    NotCalled,
    /// C02: code has the name of a call, and the annotations about it don't name it. The place is that of the name in the code.
    NotNamed,
    /// C03: code returns a status, and the annotations about it return another one. The place is that of the status in the code, the other
    /// place that of the first status in the annotations.
    OtherStatus,
    /// C04: a table registers a callback, and no annotation begins it. The place is that of the callback's name.
    NotAnnotated,
    /// C04: an annotation begins a callback, and no table registers one. The place is that of the operation in the annotation.
    NotRegistered,
    /// A note, and no difference: a table registers callbacks of other major functions, which no text has. The place is that of the first
    /// one's name.
    OtherOperation,
    /// C05: code takes or releases a lock, and the annotations about it name only locks of other expressions. The place is that of the
    /// call's first argument, the other place that of the first of these expressions, in the lock's declaration.
    OtherLock,
    /// A comment `@flt-call` is malformed: it ends too early, or its second word is no call. The place is that of `-call` or of this word.
    Malformed,
}

/// Some bytes of a file.
#[derive(Clone, Copy, Debug)]
pub struct Span {
    /// The number of bytes of the file before them.
    pub start: usize,
    /// Their number.
    pub length: usize,
}

/// A point in which a C file and its annotations differ.
#[derive(Clone, Copy, Debug)]
pub struct Drift {
    pub kind: DriftKind,
    /// The number of bytes of the file before the word that it is about.
    pub start: usize,
    /// The number of bytes of this word.
    pub length: usize,
    /// Another word of the file that it is about.
    pub other: Option<Span>,
}

fn is_cut(kind: MarkKind) -> bool
    ensures { result ≡ spec.is_cut kind }
{
    matches!(kind, MarkKind::Cut)
}

/// Adds a drift at the place of a mark.
fn put(
    out: &mut Vec<Drift>,
    kind: DriftKind,
    mark: Mark,
    other: Option<Span>,
) -> Result<(), AllocError>
    ensures { OnOk result (out.new.items ≡ out.old.items ++ spec.at kind mark other) }
{
    out.push(Drift {
        kind,
        start: mark.start,
        length: mark.length,
        other,
    })?;
    Ok(())
}

/// Adds the drift of a status that the annotations don't return, if they return another one.
fn put_other_status(
    out: &mut Vec<Drift>,
    mark: Mark,
    answer: Option<Span>,
) -> Result<(), AllocError>
    ensures { OnOk result (out.new.items ≡ out.old.items ++ spec.other_status mark answer) }
{
    if let Some(answer) = answer {
        put(out, DriftKind::OtherStatus, mark, Some(answer))?;
    }
    Ok(())
}

/// Adds the drift of a lock that the annotations don't name, if they name another one.
fn put_other_lock(out: &mut Vec<Drift>, mark: Mark, other: Option<Span>) -> Result<(), AllocError>
    ensures { OnOk result (out.new.items ≡ out.old.items ++ spec.other_lock mark other) }
{
    if let Some(other) = other {
        put(out, DriftKind::OtherLock, mark, Some(other))?;
    }
    Ok(())
}

/// Adds a drift at the place of a mark, unless this holds.
fn put_unless(
    out: &mut Vec<Drift>,
    holds: bool,
    kind: DriftKind,
    mark: Mark,
) -> Result<(), AllocError>
    ensures { OnOk result (out.new.items ≡ out.old.items ++ spec.unless holds kind mark) }
{
    if !holds {
        put(out, kind, mark, None)?;
    }
    Ok(())
}

/// Adds the drift of a callback that an entry registers or an annotation begins, if it has one.
fn put_callback(
    out: &mut Vec<Drift>,
    callbacks: &Callbacks<'_>,
    mark: Mark,
) -> Result<(), AllocError>
    ensures { OnOk result (out.new.items ≡ out.old.items ++ spec.callback_drift callbacks.now mark mark.kind) }
{
    match mark.kind {
        MarkKind::RegistersPre(operation) => {
            let holds = callbacks.is_pre_headed(operation) || !callbacks.has_heads();
            put_unless(out, holds, DriftKind::NotAnnotated, mark)
        }
        MarkKind::RegistersPost(operation) => {
            let holds = callbacks.is_post_headed(operation) || !callbacks.has_heads();
            put_unless(out, holds, DriftKind::NotAnnotated, mark)
        }
        MarkKind::HeadsPre(operation) => {
            let holds = callbacks.is_pre_registered(operation) || !callbacks.has_table();
            put_unless(out, holds, DriftKind::NotRegistered, mark)
        }
        MarkKind::HeadsPost(operation) => {
            let holds = callbacks.is_post_registered(operation) || !callbacks.has_table();
            put_unless(out, holds, DriftKind::NotRegistered, mark)
        }
        MarkKind::RegistersOther => {
            let holds = !callbacks.is_first_other(mark.start);
            put_unless(out, holds, DriftKind::OtherOperation, mark)
        }
        _ => Ok(()),
    }
}

/// Adds the drift of a status that code returns, if it has one.
fn put_return(
    out: &mut Vec<Drift>,
    stretch: &Stretch<'_>,
    mark: Mark,
    status: usize,
) -> Result<(), AllocError>
    ensures { OnOk result (out.new.items ≡ out.old.items ++ spec.return_drift stretch.now mark status) }
{
    if !stretch.is_answered(status) {
        put_other_status(out, mark, stretch.first_answer())?;
    }
    Ok(())
}

/// Adds the drift of a lock that code takes or releases, if it has one.
fn put_lock(
    out: &mut Vec<Drift>,
    stretch: &Stretch<'_>,
    mark: Mark,
    take: Take,
) -> Result<(), AllocError>
    ensures { OnOk result (out.new.items ≡ out.old.items ++ spec.lock_drift (spec.guards_of stretch.now) mark take) }
{
    let unknown = Take {
        call: take.call,
        lock: None,
    };
    if !(stretch.is_guarded(take) || stretch.is_guarded(unknown)) {
        put_other_lock(out, mark, stretch.first_guard(take.call))?;
    }
    Ok(())
}

/// Adds the drift of a mark of a stretch, if it has one, in a file that has these callbacks.
fn put_drift(
    out: &mut Vec<Drift>,
    callbacks: &Callbacks<'_>,
    stretch: &Stretch<'_>,
    mark: Mark,
) -> Result<(), AllocError>
    ensures { OnOk result (out.new.items ≡ out.old.items ++ spec.drift_by callbacks.now stretch.now mark mark.kind) }
{
    match mark.kind {
        MarkKind::Names(call) => {
            put_unless(out, stretch.is_called(call), DriftKind::NotCalled, mark)
        }
        MarkKind::Calls(call) => {
            let holds = stretch.is_named(call) || !stretch.is_annotated();
            put_unless(out, holds, DriftKind::NotNamed, mark)
        }
        MarkKind::Returns(status) => put_return(out, stretch, mark, status),
        MarkKind::Takes(take) => put_lock(out, stretch, mark, take),
        MarkKind::Malformed => put(out, DriftKind::Malformed, mark, None),
        _ => put_callback(out, callbacks, mark),
    }
}

/// Adds the drifts of some marks of a stretch.
fn put_marks(
    out: &mut Vec<Drift>,
    callbacks: &Callbacks<'_>,
    stretch: &Stretch<'_>,
    marks: &[Mark],
) -> Result<(), AllocError>
    ensures { OnOk result (out.new.items ≡ out.old.items ++ spec.drifts_in callbacks.now stretch.now marks.now) }
{
    for mark in marks {
        put_drift(out, callbacks, stretch, *mark)?;
    }
    Ok(())
}

/// Adds the drifts of a stretch.
fn put_stretch(
    alloc: Global,
    out: &mut Vec<Drift>,
    callbacks: &Callbacks<'_>,
    marks: &[Mark],
) -> Result<(), AllocError>
    ensures { OnOk result (out.new.items ≡ out.old.items ++ spec.drifts_of callbacks.now marks.now) }
{
    let stretch = Stretch::new(alloc, marks)?;
    put_marks(out, callbacks, &stretch, marks)
}

/// The drifts of the marks of a file.
fn drifts_of(alloc: Global, all: &[Mark]) -> Result<Vec<Drift>, AllocError>
    ensures { IfOk result (λ found. found.items ≡ spec.drifts_of_marks all.now) }
{
    let callbacks = Callbacks::new(alloc, all)?;
    let mut found = Vec::new(alloc);
    let mut stretch: Vec<Mark> = Vec::new(alloc);
    for mark in all {
        if is_cut(mark.kind) {
            put_stretch(alloc, &mut found, &callbacks, stretch.as_slice())?;
            stretch.clear();
        } else {
            stretch.push(*mark)?;
        }
    }
    put_stretch(alloc, &mut found, &callbacks, stretch.as_slice())?;
    Ok(found)
}

/// The points in which a C file and its annotations differ, in the order of their places, or why the file can't be read.
///
/// # Errors
///
/// `AllocError` if a growth is refused.
pub fn drifts(alloc: Global, file: &[u8]) -> Result<Result<Vec<Drift>, Flaw>, AllocError>
    ensures { IfOk result (λ done. MatchResult done
        (λ found. spec.drifts file.now ≡ Ok found.items)
        (λ flaw. spec.drifts file.now ≡ Err flaw)) }
{
    match letters(alloc, file)? {
        Ok(letters) => {
            let marks = marks(alloc, letters.as_slice())?;
            let found = drifts_of(alloc, marks.as_slice())?;
            Ok(Ok(found))
        }
        Err(flaw) => Ok(Err(flaw)),
    }
}
