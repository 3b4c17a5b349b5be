//! Reports on certificates, journals and scripts, for people.

ghost use Rattle.std.specs.Prelude.{◌≡◌, IfOk};
ghost use Rattle.flt_explain_runs.specs.Notices as spec;
ghost use Rattle.flt_explain_texts.specs.Page.{Writes};

use flt_explain_reasons::{Kind, Notice, Reason};
use flt_explain_reports::{MarkedLine, report_line};
use flt_explain_texts::Page;
use std::alloc::{AllocError, Global};

/// Whether a line of a script detaches a filter.
pub(crate) fn detaches(script: &[u8]) -> bool
    ensures { result ≡ spec.detaches script.now }
{
    let mut begins_line = true;
    for at in 0..script.len() {
        if begins_line && script[at..].starts_with(b"detach ") {
            return true;
        }
        begins_line = script[at] == b'\n';
    }
    false
}

/// The word for one thing, or for several.
fn things(count: usize, one: &'static str, several: &'static str) -> &'static str
    ensures { result.now ≡ spec.things count one.entry.now several.entry.now }
{
    if count == 1 { one } else { several }
}

/// Writes that nothing is known of the filters of a script that is alone; nothing for another.
fn tell_altitude(page: &mut Page, is_alone: bool) -> Result<(), AllocError>
    ensures { Writes result page.old page.new (spec.altitude_note is_alone) }
{
    if is_alone {
        page.texts(&[
            "   = note: no text that parses is named beside it, so any altitude may be detached\n",
        ])
    } else {
        Ok(())
    }
}

/// Writes that a file of a name is well-formed, and how many things it has.
#[tactic(auto, unfolding(crate::specs::Notices::well_formed))]
fn tell_well_formed(
    page: &mut Page,
    name: &[u8],
    kind: &str,
    count: usize,
    one: &'static str,
    several: &'static str,
) -> Result<(), AllocError>
    ensures { Writes result page.old page.new (spec.well_formed name.now kind.now count one.entry.now several.entry.now) }
{
    page.words(&[name])?;
    page.numbers(&[kind, " "], &[count])?;
    page.texts(&[things(count, one, several), "\n"])
}

/// Writes how a file of a name is used: by a call, with its words before the name and after it.
#[tactic(auto, unfolding(crate::specs::Notices::use_of))]
fn tell_use(page: &mut Page, call: &str, name: &[u8], rest: &str) -> Result<(), AllocError>
    ensures { Writes result page.old page.new (spec.use_of call.now name.now rest.now) }
{
    page.texts(&["   = help: `fltstack ", call])?;
    page.words(&[name])?;
    page.texts(&[rest, "\n"])
}

/// Writes the lines on a well-formed certificate.
#[tactic(auto, unfolding(crate::specs::Notices::certificate_lines))]
fn tell_certificate(page: &mut Page, name: &[u8], count: usize) -> Result<(), AllocError>
    ensures { Writes result page.old page.new (spec.certificate_lines name.now count) }
{
    tell_well_formed(
        page,
        name,
        ": a well-formed certificate of ",
        count,
        "callback",
        "callbacks",
    )?;
    tell_use(page, "check FILE ", name, "` says whether it covers a text")
}

/// Writes the lines on a well-formed journal.
#[tactic(auto, unfolding(crate::specs::Notices::journal_lines))]
fn tell_journal(page: &mut Page, name: &[u8], count: usize) -> Result<(), AllocError>
    ensures { Writes result page.old page.new (spec.journal_lines name.now count) }
{
    tell_well_formed(
        page,
        name,
        ": a well-formed journal of ",
        count,
        "entry",
        "entries",
    )?;
    tell_use(
        page,
        "replay ",
        name,
        " FILE..` says what it breaks on filters",
    )
}

/// Writes the lines on a well-formed script; with `is_alone`, it detaches filters and those of its stack aren't known.
#[tactic(auto, unfolding(crate::specs::Notices::script_lines))]
fn tell_script(page: &mut Page, is_alone: bool, name: &[u8], count: usize) -> Result<(), AllocError>
    ensures { Writes result page.old page.new (spec.script_lines is_alone name.now count) }
{
    tell_well_formed(
        page,
        name,
        ": a well-formed script of ",
        count,
        "command",
        "commands",
    )?;
    tell_altitude(page, is_alone)?;
    tell_use(page, "run ", name, " FILE..` drives filters by it")
}

/// Writes the lines on a well-formed certificate, journal or script.
fn tell_whole(
    page: &mut Page,
    is_alone: bool,
    name: &[u8],
    kind: Kind,
    count: usize,
) -> Result<(), AllocError>
    ensures { Writes result page.old page.new (spec.whole_lines is_alone name.now kind count) }
{
    match kind {
        Kind::Certificate => tell_certificate(page, name, count),
        Kind::Journal => tell_journal(page, name, count),
        Kind::Script => tell_script(page, is_alone, name, count),
    }
}

/// The lines on a well-formed certificate, journal or script.
fn whole_lines(
    alloc: Global,
    is_alone: bool,
    name: &[u8],
    kind: Kind,
    count: usize,
) -> Result<Vec<u8>, AllocError>
    ensures { IfOk result (λ lines. lines.items ≡ spec.whole_lines is_alone name.now kind count) }
{
    let mut page = Page::new(alloc);
    tell_whole(&mut page, is_alone, name, kind, count)?;
    Ok(page.out)
}

/// The report of a malformed line.
fn malformed_lines(
    alloc: Global,
    coloured: bool,
    name: &str,
    reason: &Reason<'_>,
) -> Result<Vec<u8>, AllocError>
    ensures { IfOk result (λ lines. spec.IsReasonReport coloured name.now reason.now lines.items) }
{
    let marked = MarkedLine {
        name,
        line: reason.file_line,
        column: reason.column,
        shown: reason.shown,
        marked: reason.found.len(),
        message: reason.message.as_slice(),
        meant: reason.meant.as_slice(),
        help: reason.help.as_str(),
    };
    let lines = report_line(alloc, coloured, &marked)?;
    Ok(lines)
}

/// The report of a certificate, a journal or a script, in whole lines. With `is_alone` the filters of a script's stack aren't known. With
/// `coloured`, escape sequences of a terminal colour the lines.
pub(crate) fn notice_lines(
    alloc: Global,
    coloured: bool,
    is_alone: bool,
    name: &str,
    notice: &Notice<'_>,
) -> Result<Vec<u8>, AllocError>
    ensures { IfOk result (λ lines. spec.AreNoticeLines coloured is_alone name.now notice.now lines.items) }
{
    match notice {
        Notice::Whole(kind, count) => whole_lines(alloc, is_alone, name.as_bytes(), *kind, *count),
        Notice::Malformed(_, reason) => malformed_lines(alloc, coloured, name, reason),
    }
}
