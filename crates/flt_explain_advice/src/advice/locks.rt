//! Locks that are released, kept or taken wrongly (R09 to R12).

ghost use Rattle.std.specs.Prelude.{◌≡◌};
ghost use Rattle.flt_explain_advice.specs.Advice.Locks as spec;
ghost use Rattle.flt_explain_advice.specs.Case.{of_case};
ghost use Rattle.flt_explain_texts.specs.Page.{Writes};

use crate::advice::sentences::{around, at_end, on_line};
use crate::case::Case;
use flt_explain::Subject;
use flt_explain_texts::{Page, Part};
use flt_graph::LockNumber;
use flt_rules::HeldLock;
use std::alloc::AllocError;

/// The mistake in the release of a lock.
#[derive(Clone, Copy)]
pub(crate) enum Release {
    /// It isn't held.
    NotHeld,
    /// Another lock was taken later.
    Under(LockNumber),
    Unknown,
}

/// The mistake in the release of a lock that is among these.
fn under_last(locks: &[HeldLock]) -> Release
    ensures { result ≡ spec.under_last locks.now }
{
    match locks {
        [] => Release::NotHeld,
        [last] => Release::Under(last.lock),
        [_, later @ ..] => under_last(later),
    }
}

/// The mistake in the release of a lock, by the locks that are held.
#[tactic(auto, unfolding(crate::specs::Advice::Locks::release))]
pub(crate) fn release_of(case: &Case<'_>) -> Release
    ensures { result ≡ spec.release (of_case case.now) }
{
    let Subject::Lock(lock) = case.finding.subject else {
        return Release::Unknown;
    };
    let Some(state) = case.state() else {
        return Release::Unknown;
    };
    if state.locks().contains(lock) {
        under_last(state.locks().as_slice())
    } else {
        Release::NotHeld
    }
}

/// The words of the title about the release of a lock.
fn release_fault(release: Release) -> &'static str
    ensures { result.now ≡ spec.release_fault release }
{
    match release {
        Release::NotHeld => " is released and isn't held",
        Release::Under(_) | Release::Unknown => " isn't the lock that was taken last",
    }
}

/// Writes the title for the release of a lock (R09).
pub(crate) fn tell_release_title(page: &mut Page, case: &Case<'_>) -> Result<(), AllocError>
    ensures { Writes result page.old page.new (spec.release_title (of_case case.now)) }
{
    around(page, case, "", release_fault(release_of(case)))
}

/// Writes that a lock is still held at the end (R10).
pub(crate) fn tell_end_title(page: &mut Page, case: &Case<'_>) -> Result<(), AllocError>
    ensures { Writes result page.old page.new (spec.end_title (of_case case.now)) }
{
    at_end(page, case, " is still held when ")
}

/// Writes how to fix the release of a lock (R09).
#[tactic(auto, unfolding(crate::specs::Advice::Locks::release_help))]
pub(crate) fn tell_release_help(page: &mut Page, case: &Case<'_>) -> Result<(), AllocError>
    ensures { Writes result page.old page.new (spec.release_help (of_case case.now)) }
{
    match release_of(case) {
        Release::NotHeld => around(
            page,
            case,
            "take ",
            " on this path too, or release it only where it is held",
        ),
        Release::Under(later) => page.say(&[
            Part::Text("release "),
            Part::Quoted(case.lock_name(later)),
            Part::Text(", taken later, first"),
        ]),
        Release::Unknown => around(
            page,
            case,
            "release the locks that were taken after ",
            " first",
        ),
    }
}

/// Writes how to fix that a lock is taken twice (R11); if a path is known, with the line that took it first.
#[tactic(auto, unfolding(crate::specs::Advice::Locks::twice_help))]
pub(crate) fn tell_twice_help(page: &mut Page, case: &Case<'_>) -> Result<(), AllocError>
    ensures { Writes result page.old page.new (spec.twice_help (of_case case.now)) }
{
    match case.cause() {
        Some(step) => on_line(
            page,
            case,
            case.step_line(step),
            " took ",
            ": release it before it is taken again, and shared before exclusive",
        ),
        None => around(page, case, "release ", " before it is taken again"),
    }
}
