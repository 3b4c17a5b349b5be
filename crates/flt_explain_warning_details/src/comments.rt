//! Comments that allow nothing (W00).

ghost use Rattle.std.specs.Prelude.{◌≡◌, [], IfOk};
ghost use Rattle.flt_explain_texts.specs.Page.{Writes};
ghost use Rattle.flt_explain_warning_details.specs.Comments as spec;

use crate::allowing::is_reason;
use crate::detail::WarningDetail;
use crate::places::bare;
use flt_explain_texts::{Page, Part};
use flt_explain_warnings::{Allowance, Kind};
use flt_places::Files;
use sqlite_items::Items;
use std::alloc::{AllocError, Global};

/// Writes that a comment, which is in the file of the number `home`, is for a line that has no warning of its kind.
fn tell_needless_title(
    page: &mut Page,
    files: Files<'_>,
    home: usize,
    kind: Kind,
    statement: usize,
) -> Result<(), AllocError>
    ensures { Writes result page.old page.new (spec.needless_title files.entry home kind statement) }
{
    page.say(&[
        Part::Text("this comment allows no "),
        Part::Word(kind.name()),
        Part::Text(" on line "),
        Part::Line(files, home, statement),
    ])
}

/// Writes why a comment that names a kind allows nothing.
fn tell_named_title(
    page: &mut Page,
    files: Files<'_>,
    home: usize,
    kind: Kind,
    reason: &[u8],
    statement: usize,
) -> Result<(), AllocError>
    ensures { Writes result page.old page.new (spec.named_title files.entry home kind reason.now statement) }
{
    if is_reason(reason) {
        tell_needless_title(page, files, home, kind, statement)
    } else {
        page.texts(&["this comment allows nothing: it gives no reason"])
    }
}

/// Writes what to do with a comment that has no reason.
fn tell_reason_help(page: &mut Page, kind: Kind) -> Result<(), AllocError>
    ensures { Writes result page.old page.new (spec.reason_help kind) }
{
    page.texts(&["write why after a colon: `# allow ", kind.name(), ": ..`"])
}

/// Writes what to do with a comment that names a kind.
fn tell_named_help(page: &mut Page, kind: Kind, reason: &[u8]) -> Result<(), AllocError>
    ensures { Writes result page.old page.new (spec.named_help kind reason.now) }
{
    if is_reason(reason) {
        page.texts(&[
            "remove the comment, or put it on the line before the statement of the warning",
        ])
    } else {
        tell_reason_help(page, kind)
    }
}

/// Writes why a comment allows nothing.
fn tell_title(page: &mut Page, files: Files<'_>, allowance: &Allowance) -> Result<(), AllocError>
    ensures { Writes result page.old page.new (spec.title_of files.entry allowance.now) }
{
    match allowance.kind {
        Some(kind) => tell_named_title(
            page,
            files,
            files.file_at(allowance.region.first.line),
            kind,
            allowance.reason.as_slice(),
            allowance.statement,
        ),
        None => page.texts(&["this comment allows nothing: no warning has this number"]),
    }
}

/// Writes what to do with it.
fn tell_help(page: &mut Page, allowance: &Allowance) -> Result<(), AllocError>
    ensures { Writes result page.old page.new (spec.help_of allowance.now) }
{
    match allowance.kind {
        Some(kind) => tell_named_help(page, kind, allowance.reason.as_slice()),
        None => page.texts(&["write a number from `W01` to `W07`"]),
    }
}

fn title_of(alloc: Global, files: Files<'_>, allowance: &Allowance) -> Result<Items<u8>, AllocError>
    ensures { IfOk result (λ z. z ≡ spec.title_of files.entry allowance.now) }
{
    let mut page = Page::new(alloc);
    tell_title(&mut page, files, allowance)?;
    Ok(Items::from_vec(page.out))
}

fn help_of(alloc: Global, allowance: &Allowance) -> Result<Items<u8>, AllocError>
    ensures { IfOk result (λ z. z ≡ spec.help_of allowance.now) }
{
    let mut page = Page::new(alloc);
    tell_help(&mut page, allowance)?;
    Ok(Items::from_vec(page.out))
}

/// The details of a comment that allows nothing.
pub(crate) fn idle_detail(
    alloc: Global,
    files: Files<'_>,
    allowance: &Allowance,
) -> Result<WarningDetail, AllocError>
    ensures { IfOk result (λ d. d ≡ spec.idle_detail files.entry allowance.now) }
{
    let title = title_of(alloc, files, allowance)?;
    let help = help_of(alloc, allowance)?;
    Ok(WarningDetail {
        kind: Kind::W00,
        site: None,
        marks: bare(allowance.region),
        head: Items::new(alloc),
        title,
        help,
        note: Items::new(alloc),
        related: Items::new(alloc),
        circle: Items::new(alloc),
        reason: None,
    })
}
