//! Operations that are left in the queue (W03).

ghost use Rattle.std.specs.Prelude.{◌≡◌, IfOk};
ghost use Rattle.flt_explain_texts.specs.Page.{Writes};
ghost use Rattle.flt_explain_warning_details.specs.Parsed.{of_parsed};
ghost use Rattle.flt_explain_warning_details.specs.Queue as spec;

use crate::detail::RelatedPlace;
use crate::parsed::ParsedText;
use crate::places::marks_at;
use flt_explain::Subject;
use flt_explain_texts::Page;
use flt_explain_warnings::Site;
use sqlite_items::Items;
use std::alloc::{AllocError, Global};

/// Writes that nothing takes an operation out of the queue.
pub(crate) fn tell_kept_title(page: &mut Page) -> Result<(), AllocError>
    ensures { Writes result page.old page.new spec.kept_title }
{
    page.texts(&["`FltCbdqInsertIo` pends an operation that no callback takes out of the queue"])
}

/// Writes how to fix that.
pub(crate) fn tell_kept_help(page: &mut Page) -> Result<(), AllocError>
    ensures { Writes result page.old page.new spec.kept_help }
{
    page.texts(&[
        "call `FltCbdqRemoveNextIo` in the routine of a work item, and complete there what it gives",
    ])
}

/// Writes the possible consequence.
pub(crate) fn tell_kept_note(page: &mut Page) -> Result<(), AllocError>
    ensures { Writes result page.old page.new spec.kept_note }
{
    page.texts(&["the operation waits until it is cancelled or the filter is unloaded"])
}

/// Writes that no work item is queued that takes an operation out of the queue.
pub(crate) fn tell_left_title(page: &mut Page) -> Result<(), AllocError>
    ensures { Writes result page.old page.new spec.left_title }
{
    page.texts(&["`FltCbdqInsertIo` pends an operation for which no work item is queued"])
}

/// Writes how to fix that.
pub(crate) fn tell_left_help(page: &mut Page) -> Result<(), AllocError>
    ensures { Writes result page.old page.new spec.left_help }
{
    page.texts(&[
        "queue a work item whose routine calls `FltCbdqRemoveNextIo` on each path from here to that `return PENDING`",
    ])
}

/// Writes the possible consequence.
pub(crate) fn tell_left_note(page: &mut Page) -> Result<(), AllocError>
    ensures { Writes result page.old page.new spec.left_note }
{
    page.texts(&[
        "the operation waits until a work item is queued for another one, it is cancelled or the filter is unloaded",
    ])
}

fn left_words(alloc: Global) -> Result<Items<u8>, AllocError>
    ensures { IfOk result (λ z. z ≡ spec.left_words) }
{
    Items::from_slice(alloc, b"returns with the operation in the queue")
}

/// The place where an operation is left.
pub(crate) fn left_place(
    alloc: Global,
    text: &ParsedText<'_>,
    site: Site,
) -> Result<RelatedPlace, AllocError>
    ensures { IfOk result (λ r. r ≡ spec.left_place (of_parsed text.now) site) }
{
    let marks = marks_at(alloc, text, site, Subject::Status)?;
    let words = left_words(alloc)?;
    Ok(RelatedPlace { marks, words })
}
