//! Reports of texts, part by part.

ghost use Rattle.std.specs.Prelude.{◌≡◌, slice_get, IfOk};
ghost use Rattle.flt_explain_texts.specs.Page.{Writes};
ghost use Rattle.flt_explain_reports.specs.Fault.{IsFaultReport};
ghost use Rattle.flt_explain_reports.specs.Finding.{finding_report};
ghost use Rattle.flt_explain_reports.specs.Reports as spec;

use crate::fault_report::report_fault;
use crate::finding_report::report_finding;
use flt_explain_advice::{Words, words_of};
use flt_explain_origins::Group;
use flt_explain_texts::{Page, Scene, Source};
use flt_explain_ways::Traces;
use flt_places::{Files, SourceFile};
use std::alloc::{AllocError, Global};

/// The lines of the report of a group of findings in these words: that of the first, and where the others are.
fn lines_in(
    alloc: Global,
    coloured: bool,
    scene: &Scene<'_>,
    traces: &Traces,
    group: &Group,
    words: &Words,
) -> Result<Vec<u8>, AllocError>
    ensures { IfOk result (λ lines. lines.items ≡ finding_report coloured scene.now.files scene.now.lines.now
        scene.now.graph.now group.now.first.finding words.now (slice_get traces.now.shown group.now.first.number) group.now.others) }
{
    let mut page = Page::new(alloc);
    let finding = group.first.finding;
    let shown = traces.shown(&group.first);
    let others = group.others.as_slice();
    report_finding(
        alloc, &mut page, coloured, scene, &finding, words, shown, others,
    )?;
    Ok(page.out)
}

/// The report of a group of findings in whole lines: the lines of the text that show the first, a path that leads there, how to fix it, and
/// where the others are. With `coloured`, escape sequences of a terminal colour it.
///
/// # Errors
///
/// If memory is refused.
pub fn report_group(
    alloc: Global,
    coloured: bool,
    scene: &Scene<'_>,
    traces: &Traces,
    group: &Group,
) -> Result<Vec<u8>, AllocError>
    ensures { IfOk result (λ lines. spec.AreLines coloured scene.now.files scene.now.lines.now
        scene.now.tree.now.filter scene.now.graph.now traces.now group.now lines.items) }
{
    let finding = group.first.finding;
    let words = words_of(alloc, scene, &finding, traces.shown(&group.first))?;
    let lines = lines_in(alloc, coloured, scene, traces, group, &words)?;
    Ok(lines)
}

/// The words before a name: none before the first.
fn before_name(is_behind: bool, between: &str) -> &str
    ensures { result.now ≡ spec.before_name is_behind between.now }
{
    if is_behind { between } else { "" }
}

/// Writes the names of files, with these words between them.
fn tell_names(page: &mut Page, between: &str, files: &[SourceFile<'_>]) -> Result<(), AllocError>
    ensures { Writes result page.old page.new (spec.named between.now files.now) }
{
    let mut is_behind = false;
    for file in files {
        page.texts(&[before_name(is_behind, between)])?;
        page.words(&[file.name.as_bytes()])?;
        is_behind = true;
    }
    Ok(())
}

/// Writes the command that prints the certificate of the text of a file.
#[tactic(auto, unfolding(crate::specs::Reports::analyse_command))]
fn tell_analyse(page: &mut Page, files: &[SourceFile<'_>]) -> Result<(), AllocError>
    ensures { Writes result page.old page.new (spec.analyse_command files.now) }
{
    page.bytes(b"fltstack analyse ")?;
    tell_names(page, " ", files)
}

/// Writes the command that prints the certificate for the annotations of files, which are extracted first.
#[tactic(auto, unfolding(crate::specs::Reports::extract_command))]
fn tell_extract(page: &mut Page, files: &[SourceFile<'_>]) -> Result<(), AllocError>
    ensures { Writes result page.old page.new (spec.extract_command files.now) }
{
    page.bytes(b"fltstack extract ")?;
    tell_names(page, " ", files)?;
    page.bytes(b" | fltstack analyse -")
}

/// Writes the one of the two for a text in these files.
fn tell_command(page: &mut Page, files: &Files<'_>) -> Result<(), AllocError>
    ensures { Writes result page.old page.new (spec.command files.now) }
{
    match files.stands {
        [] => tell_analyse(page, files.all),
        [_, ..] => tell_extract(page, files.all),
    }
}

/// Writes the promise of a text without findings, and how to see its certificate.
#[tactic(auto, unfolding(crate::specs::Reports::nothing_report))]
fn tell_nothing(page: &mut Page, files: &Files<'_>) -> Result<(), AllocError>
    ensures { Writes result page.old page.new (spec.nothing_report files.now) }
{
    tell_names(page, ", ", files.all)?;
    page.bytes(b": a certificate covers this text, so that no run of it breaks V1 to V8\n")?;
    page.bytes(b"   = help: `")?;
    tell_command(page, files)?;
    page.bytes(b"` prints the certificate\n")
}

/// The report of a text in these files that has no findings: what that promises, in whole lines.
///
/// # Errors
///
/// If memory is refused.
pub fn report_nothing(alloc: Global, files: &Files<'_>) -> Result<Vec<u8>, AllocError>
    ensures { IfOk result (λ lines. lines.items ≡ spec.nothing_report files.now) }
{
    let mut page = Page::new(alloc);
    tell_nothing(&mut page, files)?;
    Ok(page.out)
}

/// The report of a text that doesn't parse: where and why, and how to fix it, in whole lines. Empty if the text parses.
///
/// # Errors
///
/// If memory is refused.
pub fn report_unread(
    alloc: Global,
    coloured: bool,
    source: Source<'_>,
) -> Result<Vec<u8>, AllocError>
    ensures { IfOk result (λ lines. IsFaultReport coloured source.entry.files source.entry.text.now lines.items) }
{
    report_fault(alloc, coloured, source)
}
