//! A stretch: some code, and then the annotations about it.

ghost use Rattle.std.specs.Prelude.{◌≡◌, IfOk, OnOk};
ghost use Rattle.flt_c_drift.specs.Drifts as spec;

use crate::drift::Span;
use crate::flags::{Question, flags, is_noted};
use crate::mark::{Mark, MarkKind, Take};
use std::alloc::{AllocError, Global};
use std::marker::Model;

/// The marks of a stretch, with flags for the calls and statuses that they are about.
#[derive(Drop)]
pub(crate) struct Stretch<'a> {
    marks: &'a [Mark],
    /// For each of the first calls, whether code has its name.
    called: Vec<bool>,
    /// For each of the first calls, whether an annotation names it.
    named: Vec<bool>,
    /// For each of the first statuses, whether an annotation returns it.
    answered: Vec<bool>,
    has_note: bool,
    answer: Option<Span>,
    /// The locks that annotations take and release, each with each call once.
    guards: Vec<Mark>,
}

impl<'a> Model for Stretch<'a> {
    ghost use Rattle.std.specs.Prelude.{◌≡◌, List};
    ghost use Rattle.flt_c_drift.specs.Drifts.{is_annotated, first_answer, guards_of};
    ghost use Rattle.flt_c_drift.specs.Flags.{flags_of};
    ghost use Rattle.flt_c_drift.specs.declared.flags.Question.TheVariants as ask;
    ghost use Rattle.flt_c_drift.specs.declared.mark.Mark.{Mark};

    ghost Value = { List Mark };

    ghost view = { λ s. s.marks.now };

    ghost invariant = { λ s.
        (s.called.items ≡ flags_of ask.Called s.marks.now)
        × (s.named.items ≡ flags_of ask.Named s.marks.now)
        × (s.answered.items ≡ flags_of ask.Answered s.marks.now)
        × (s.has_note ≡ is_annotated s.marks.now)
        × (s.answer ≡ first_answer s.marks.now)
        × (s.guards.items ≡ guards_of s.marks.now) };
}

fn notes(kind: MarkKind) -> bool
    ensures { result ≡ spec.is_noted kind }
{
    matches!(kind, MarkKind::Noted)
}

/// Whether a stretch has an annotation.
fn has_note(stretch: &[Mark]) -> bool
    ensures { result ≡ spec.is_annotated stretch.now }
{
    stretch.iter().any(|mark| notes(mark.kind))
}

/// The bytes of a return in an annotation.
fn answer_of(mark: Mark) -> Option<Span>
    ensures { result ≡ spec.answer_of mark mark.kind }
{
    match mark.kind {
        MarkKind::Answers(_) => Some(Span {
            start: mark.start,
            length: mark.length,
        }),
        _ => None,
    }
}

/// Those of the first return in the annotations of a stretch.
fn first_answer(stretch: &[Mark]) -> Option<Span>
    ensures { result ≡ spec.first_answer stretch.now }
{
    for mark in stretch {
        if let Some(answer) = answer_of(*mark) {
            return Some(answer);
        }
    }
    None
}

fn same_lock(lock: Option<usize>, other: Option<usize>) -> bool
    ensures { result ≡ spec.same_lock lock other }
{
    match (lock, other) {
        (None, None) => true,
        (Some(lock), Some(other)) => lock == other,
        _ => false,
    }
}

/// Whether an annotation takes or releases this lock by this call.
fn guards(take: Take, kind: MarkKind) -> bool
    ensures { result ≡ spec.guards take kind }
{
    match kind {
        MarkKind::Guards(other) => other.call == take.call && same_lock(other.lock, take.lock),
        _ => false,
    }
}

/// Whether an annotation takes or releases any lock by this call.
fn guards_any(call: usize, kind: MarkKind) -> bool
    ensures { result ≡ spec.guards_any call kind }
{
    match kind {
        MarkKind::Guards(other) => other.call == call,
        _ => false,
    }
}

/// Whether one of some marks is this call with this lock, in an annotation.
fn is_guarded(take: Take, marks: &[Mark]) -> bool
    ensures { result ≡ spec.is_guarded take marks.now }
{
    marks.iter().any(|mark| guards(take, mark.kind))
}

/// Adds a mark, if it is a call with a lock in an annotation, and none of the others is the same.
fn put_guard(found: &mut Vec<Mark>, mark: Mark) -> Result<(), AllocError>
    ensures { OnOk result (found.new.items ≡ spec.with_guard found.old.items mark mark.kind) }
{
    if let MarkKind::Guards(take) = mark.kind {
        if !is_guarded(take, found.as_slice()) {
            found.push(mark)?;
        }
    }
    Ok(())
}

/// The locks that the annotations of a stretch take and release, each with each call once.
fn guards_of(alloc: Global, stretch: &[Mark]) -> Result<Vec<Mark>, AllocError>
    ensures { IfOk result (λ found. found.items ≡ spec.guards_of stretch.now) }
{
    let mut found = Vec::new(alloc);
    for mark in stretch {
        put_guard(&mut found, *mark)?;
    }
    Ok(found)
}

/// The bytes of a call with a lock in an annotation.
fn guard_in(call: usize, mark: Mark) -> Option<Span>
    ensures { result ≡ spec.guard_in call mark }
{
    if guards_any(call, mark.kind) {
        Some(Span {
            start: mark.start,
            length: mark.length,
        })
    } else {
        None
    }
}

/// Those of the first one.
fn first_guard(call: usize, marks: &[Mark]) -> Option<Span>
    ensures { result ≡ spec.first_guard call marks.now }
{
    for mark in marks {
        if let Some(guard) = guard_in(call, *mark) {
            return Some(guard);
        }
    }
    None
}

impl<'a> Stretch<'a> {
    /// The stretch of some marks.
    pub(crate) fn new(alloc: Global, marks: &'a [Mark]) -> Result<Stretch<'a>, AllocError>
        ensures { IfOk result (λ stretch. stretch ≡ marks.now) }
    {
        let called = flags(alloc, Question::Called, marks)?;
        let named = flags(alloc, Question::Named, marks)?;
        let answered = flags(alloc, Question::Answered, marks)?;
        let guards = guards_of(alloc, marks)?;
        Ok(Stretch {
            marks,
            called,
            named,
            answered,
            has_note: has_note(marks),
            answer: first_answer(marks),
            guards,
        })
    }

    /// Whether its code has the name of a call.
    pub(crate) fn is_called(&self, call: usize) -> bool
        ensures { result ≡ spec.is_called call self.now }
    {
        is_noted(self.called.as_slice(), Question::Called, call, self.marks)
    }

    /// Whether its annotations name a call.
    pub(crate) fn is_named(&self, call: usize) -> bool
        ensures { result ≡ spec.is_named call self.now }
    {
        is_noted(self.named.as_slice(), Question::Named, call, self.marks)
    }

    /// Whether its annotations return a status.
    pub(crate) fn is_answered(&self, status: usize) -> bool
        ensures { result ≡ spec.is_answered status self.now }
    {
        is_noted(
            self.answered.as_slice(),
            Question::Answered,
            status,
            self.marks,
        )
    }

    /// Whether it has an annotation.
    pub(crate) fn is_annotated(&self) -> bool
        ensures { result ≡ spec.is_annotated self.now }
    {
        self.has_note
    }

    /// The bytes of the first return in its annotations.
    pub(crate) fn first_answer(&self) -> Option<Span>
        ensures { result ≡ spec.first_answer self.now }
    {
        self.answer
    }

    /// Whether its annotations take or release a lock by a call.
    pub(crate) fn is_guarded(&self, take: Take) -> bool
        ensures { result ≡ spec.is_guarded take (spec.guards_of self.now) }
    {
        is_guarded(take, self.guards.as_slice())
    }

    /// The bytes of the first lock that its annotations take or release by a call.
    pub(crate) fn first_guard(&self, call: usize) -> Option<Span>
        ensures { result ≡ spec.first_guard call (spec.guards_of self.now) }
    {
        first_guard(call, self.guards.as_slice())
    }
}
