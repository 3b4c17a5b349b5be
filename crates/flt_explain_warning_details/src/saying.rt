//! The details of each warning: its place, the problem, how to fix it, and the other places that it is about.

ghost use Rattle.std.specs.Prelude.{◌≡◌, ◌∷◌, [], IfOk};
ghost use Rattle.flt_explain_texts.specs.Page.{Writes};
ghost use Rattle.flt_explain_warning_details.specs.Parsed.{of_parsed};
ghost use Rattle.flt_explain_warning_details.specs.Saying as spec;

use crate::contexts::{
    access_place, lost_place, subject_of, tell_changed_help, tell_changed_note, tell_changed_title,
    tell_lost_help, tell_lost_note, tell_lost_title, worked_on,
};
use crate::detail::RelatedPlace;
use crate::late::{tell_late_help, tell_late_note, tell_late_title};
use crate::locks::{
    circle_marks, circle_places, tell_called_help, tell_called_note, tell_called_title,
    tell_circle_help, tell_circle_note, tell_circle_title,
};
use crate::parsed::ParsedText;
use crate::places::{marks_at, marks_of_head, marks_of_lock};
use crate::queue::{
    left_place, tell_kept_help, tell_kept_note, tell_kept_title, tell_left_help, tell_left_note,
    tell_left_title,
};
use crate::unused::{
    tell_callback_help, tell_callback_title, tell_lock_help, tell_lock_title, tell_never_help,
    tell_never_note, tell_never_title, tell_unreached_help, tell_unreached_title,
};
use flt_explain::Subject;
use flt_explain_texts::{Marks, Page};
use flt_explain_warnings::{Site, Warning};
use flt_graph::OperationVariable;
use flt_order::Acquisition;
use sqlite_items::Items;
use std::alloc::{AllocError, Global};

// ---- places

/// The regions of a point that works on a context.
fn context_marks(alloc: Global, text: &ParsedText<'_>, site: Site) -> Result<Marks, AllocError>
    ensures { IfOk result (λ m. m ≡ spec.context_marks (of_parsed text.now) site) }
{
    let subject = subject_of(worked_on(&text.instruction(site)));
    marks_at(alloc, text, site, subject)
}

/// The regions of a warning.
pub(crate) fn marks_of(
    alloc: Global,
    text: &ParsedText<'_>,
    warning: &Warning,
) -> Result<Marks, AllocError>
    ensures { IfOk result (λ m. m ≡ spec.marks_of (of_parsed text.now) warning.now) }
{
    match warning {
        Warning::LockCircle(circle) => circle_marks(alloc, text, circle.acquisitions()),
        Warning::CalledLocked(site, _) => marks_at(alloc, text, *site, Subject::Call),
        Warning::NeverRemoved(site) | Warning::LeftPended(site, _) => {
            let subject = Subject::Operation(OperationVariable::Data);
            marks_at(alloc, text, *site, subject)
        }
        Warning::ChangedUnlocked(site, _) | Warning::LostContext(site, _) => {
            context_marks(alloc, text, *site)
        }
        Warning::UnusedLock(lock) => Ok(marks_of_lock(text, *lock)),
        Warning::UnusedCallback(callback) => Ok(marks_of_head(text, *callback)),
        Warning::Unreached(site) | Warning::NeverHolds(site) | Warning::CalledLate(site) => {
            marks_at(alloc, text, *site, Subject::Call)
        }
    }
}

/// The line from 1 on which the statement or the declaration of a warning begins.
pub(crate) fn line_of(text: &ParsedText<'_>, warning: &Warning) -> usize
    ensures { result ≡ spec.line_of (of_parsed text.now) warning.now }
{
    match warning {
        Warning::UnusedLock(lock) => marks_of_lock(text, *lock).statement.first.line,
        Warning::UnusedCallback(callback) => marks_of_head(text, *callback).statement.first.line,
        _ => match warning.site() {
            Some(site) => text.line(site),
            None => 0,
        },
    }
}

/// The head of the callback of a warning; empty if it is in none.
pub(crate) fn head_of<'a>(text: &ParsedText<'a>, warning: &Warning) -> &'a [u8]
    ensures { result.now ≡ spec.head_of (of_parsed text.now) warning.now }
{
    match warning {
        Warning::UnusedCallback(callback) => text.head(*callback),
        _ => match warning.site() {
            Some(site) => text.head(site.callback),
            None => &[],
        },
    }
}

/// One place.
fn one(alloc: Global, place: RelatedPlace) -> Result<Items<RelatedPlace>, AllocError>
    ensures { IfOk result (λ all. all ≡ place ∷ []) }
{
    let mut all = Items::new(alloc);
    all.push(place)?;
    Ok(all)
}

/// The other places of a warning.
pub(crate) fn related_of(
    alloc: Global,
    text: &ParsedText<'_>,
    warning: &Warning,
) -> Result<Items<RelatedPlace>, AllocError>
    ensures { IfOk result (λ all. all ≡ spec.related_of (of_parsed text.now) warning.now) }
{
    match warning {
        Warning::LockCircle(circle) => circle_places(alloc, text, circle.acquisitions()),
        Warning::LeftPended(site, point) => {
            let left = Site {
                callback: site.callback,
                point: *point,
            };
            one(alloc, left_place(alloc, text, left)?)
        }
        Warning::ChangedUnlocked(_, other) => one(alloc, access_place(alloc, text, *other)?),
        Warning::LostContext(site, point) => one(alloc, lost_place(alloc, text, *site, *point)?),
        _ => Ok(Items::new(alloc)),
    }
}

/// The acquisitions of the circle that a warning is about; empty if it is about none.
pub(crate) fn circle_of(warning: &Warning) -> &[Acquisition]
    ensures { result.now ≡ spec.circle_of warning.now }
{
    match warning {
        Warning::LockCircle(circle) => circle.acquisitions(),
        _ => &[],
    }
}

// ---- words

/// Writes the problem.
fn tell_title(page: &mut Page, text: &ParsedText<'_>, warning: &Warning) -> Result<(), AllocError>
    ensures { Writes result page.old page.new (spec.title_of (of_parsed text.now) warning.now) }
{
    match warning {
        Warning::LockCircle(circle) => tell_circle_title(page, text, circle.acquisitions()),
        Warning::CalledLocked(site, lock) => tell_called_title(page, text, *site, *lock),
        Warning::NeverRemoved(_) => tell_kept_title(page),
        Warning::LeftPended(_, _) => tell_left_title(page),
        Warning::ChangedUnlocked(site, _) => tell_changed_title(page, text, *site),
        Warning::LostContext(site, _) => tell_lost_title(page, text, *site),
        Warning::UnusedLock(lock) => tell_lock_title(page, text, *lock),
        Warning::UnusedCallback(callback) => tell_callback_title(page, text, *callback),
        Warning::Unreached(_) => tell_unreached_title(page),
        Warning::NeverHolds(site) => tell_never_title(page, text, *site),
        Warning::CalledLate(site) => tell_late_title(page, text, *site),
    }
}

/// Writes how to fix it.
fn tell_help(page: &mut Page, text: &ParsedText<'_>, warning: &Warning) -> Result<(), AllocError>
    ensures { Writes result page.old page.new (spec.help_of (of_parsed text.now) warning.now) }
{
    match warning {
        Warning::LockCircle(circle) => tell_circle_help(page, text, circle.acquisitions()),
        Warning::CalledLocked(_, lock) => tell_called_help(page, text, *lock),
        Warning::NeverRemoved(_) => tell_kept_help(page),
        Warning::LeftPended(_, _) => tell_left_help(page),
        Warning::ChangedUnlocked(_, _) => tell_changed_help(page),
        Warning::LostContext(site, _) => tell_lost_help(page, text, *site),
        Warning::UnusedLock(_) => tell_lock_help(page),
        Warning::UnusedCallback(callback) => tell_callback_help(page, text, *callback),
        Warning::Unreached(_) => tell_unreached_help(page),
        Warning::NeverHolds(site) => tell_never_help(page, text, *site),
        Warning::CalledLate(_) => tell_late_help(page),
    }
}

/// Writes the possible consequence or the reason, if there is a note.
fn tell_note(page: &mut Page, text: &ParsedText<'_>, warning: &Warning) -> Result<(), AllocError>
    ensures { Writes result page.old page.new (spec.note_of (of_parsed text.now) warning.now) }
{
    match warning {
        Warning::LockCircle(_) => tell_circle_note(page),
        Warning::CalledLocked(_, lock) => tell_called_note(page, text, *lock),
        Warning::NeverRemoved(_) => tell_kept_note(page),
        Warning::LeftPended(_, _) => tell_left_note(page),
        Warning::ChangedUnlocked(_, _) => tell_changed_note(page),
        Warning::LostContext(site, _) => tell_lost_note(page, text, *site),
        Warning::NeverHolds(_) => tell_never_note(page),
        Warning::CalledLate(_) => tell_late_note(page),
        _ => Ok(()),
    }
}

/// The problem, in words.
pub(crate) fn title_of(
    alloc: Global,
    text: &ParsedText<'_>,
    warning: &Warning,
) -> Result<Items<u8>, AllocError>
    ensures { IfOk result (λ z. z ≡ spec.title_of (of_parsed text.now) warning.now) }
{
    let mut page = Page::new(alloc);
    tell_title(&mut page, text, warning)?;
    Ok(Items::from_vec(page.out))
}

/// How to fix it, in words.
pub(crate) fn help_of(
    alloc: Global,
    text: &ParsedText<'_>,
    warning: &Warning,
) -> Result<Items<u8>, AllocError>
    ensures { IfOk result (λ z. z ≡ spec.help_of (of_parsed text.now) warning.now) }
{
    let mut page = Page::new(alloc);
    tell_help(&mut page, text, warning)?;
    Ok(Items::from_vec(page.out))
}

/// The possible consequence or the reason, in words; or nothing.
pub(crate) fn note_of(
    alloc: Global,
    text: &ParsedText<'_>,
    warning: &Warning,
) -> Result<Items<u8>, AllocError>
    ensures { IfOk result (λ z. z ≡ spec.note_of (of_parsed text.now) warning.now) }
{
    let mut page = Page::new(alloc);
    tell_note(&mut page, text, warning)?;
    Ok(Items::from_vec(page.out))
}
