//! The report of a finding and of the others of its group.

ghost use Rattle.std.specs.Prelude.{◌≡◌, map, option_copied};
ghost use Rattle.flt_explain_texts.specs.Page.{Writes};
ghost use Rattle.flt_explain_reports.specs.Finding as spec;
ghost use Rattle.flt_explain_reports.specs.Indents.{headed};

use crate::heading::{name_at, tell_file_place, tell_heading};
use crate::indents::begin;
use crate::shown_lines::draw_shown;
use crate::way_lines::tell_way;
use flt_explain::Finding;
use flt_explain_advice::Words;
use flt_explain_origins::{Answer, FindingTrace, TracedFinding};
use flt_explain_texts::{Page, Part, Scene};
use flt_places::{Files, lines_of};
use std::alloc::{AllocError, Global};

// ---- what is wrong, and where

/// Writes the head of a callback in backquotes.
#[tactic(auto, unfolding(crate::specs::Finding::head_told))]
pub(crate) fn tell_callback(page: &mut Page, head: &[u8]) -> Result<(), AllocError>
    ensures { Writes result page.old page.new (spec.head_told head.now) }
{
    page.words(&[b", `", head, b"`"])
}

/// Writes the numbers of a callback and a point.
#[tactic(auto, unfolding(crate::specs::Finding::numbers_told))]
pub(crate) fn tell_numbers(page: &mut Page, callback: usize, point: usize) -> Result<(), AllocError>
    ensures { Writes result page.old page.new (spec.numbers_told callback point) }
{
    page.numbers(&[" (callback ", " point ", ")\n"], &[callback, point])
}

/// Writes the title and the place of a finding.
#[tactic(auto, unfolding(crate::specs::Finding::head_lines))]
fn tell_head(
    page: &mut Page,
    coloured: bool,
    scene: &Scene<'_>,
    finding: &Finding,
    words: &Words,
) -> Result<(), AllocError>
    ensures { Writes result page.old page.new
        (spec.head_lines coloured scene.now.files scene.now.lines.now scene.now.graph.now finding.now words.now) }
{
    let code = Some(finding.rule.name());
    let site = scene.site(finding.callback, finding.point);
    let name = name_at(&scene.files, site.place.line);
    tell_heading(page, coloured, code, words.title.as_slice(), name)?;
    tell_file_place(page, &scene.files, site.place)?;
    tell_callback(page, words.head.as_slice())?;
    tell_numbers(page, finding.callback, finding.point)
}

// ---- the paths to it

/// The notes on the paths to a finding.
#[tactic(auto, unfolding(crate::specs::Finding::notes))]
fn notes(answer: &Answer) -> &'static str
    ensures { result.now ≡ spec.notes answer.now }
{
    match answer {
        Answer::Clean(_) => "",
        Answer::Behind(_) =>
            "   = note: each path that was found breaks another rule before: fix that first\n",
        Answer::Unreached =>
            "   = note: no path leads here: the text is refused because the sets of the rules forget what goes together\n   = help: test the variable itself, as by `if c0 != NULL`, and not what it depends on\n",
        Answer::Unknown =>
            "   = note: no path was found among the situations that were looked at\n",
    }
}

/// Writes the paths to a finding, and the notes on them.
#[tactic(auto, unfolding(crate::specs::Finding::paths_told))]
fn tell_ways(
    page: &mut Page,
    home: usize,
    scene: &Scene<'_>,
    callback: usize,
    shown: &FindingTrace,
) -> Result<(), AllocError>
    ensures { Writes result page.old page.new
        (spec.paths_told scene.now.files home scene.now.lines.now scene.now.graph.now callback shown.now.answer) }
{
    let (way, other) = shown.ways();
    tell_way(page, home, scene, callback, "   = path: ", way)?;
    tell_way(page, home, scene, callback, "   = other path: ", other)?;
    page.texts(&[notes(&shown.answer)])
}

/// Writes the lines and paths that show a finding, if they are known.
#[tactic(auto, unfolding(crate::specs::Finding::shown_part))]
fn tell_shown(
    alloc: Global,
    page: &mut Page,
    coloured: bool,
    home: usize,
    scene: &Scene<'_>,
    finding: &Finding,
    subject: &[u8],
    shown: Option<&FindingTrace>,
) -> Result<(), AllocError>
    ensures { Writes result page.old page.new
        (spec.shown_part coloured scene.now.files home scene.now.lines.now scene.now.graph.now finding.now subject.now
        (option_copied shown.entry)) }
{
    let Some(shown) = shown else {
        return Ok(());
    };
    draw_shown(alloc, page, coloured, scene, finding, subject, shown)?;
    tell_ways(page, home, scene, finding.callback, shown)
}

// ---- the others of its group

/// The text before the number of a line: a comma if another number is before it.
#[tactic(auto, unfolding(crate::specs::Finding::before_line))]
fn before_line(is_below: bool) -> &'static str
    ensures { result.now ≡ spec.before_line is_below }
{
    if is_below {
        ", "
    } else {
        "   = note: also at line "
    }
}

/// Whether two lines of a text are in the same line of a file.
fn is_same_line(files: &Files<'_>, line: usize, other: usize) -> bool
    ensures { result ≡ spec.is_same_line files.now line other }
{
    files.file_at(line) == files.file_at(other) && files.file_line(line) == files.file_line(other)
}

/// Writes the line numbers of the others of a group, each once.
#[tactic(auto, unfolding(crate::specs::Finding::others_told))]
fn tell_others(
    page: &mut Page,
    files: Files<'_>,
    home: usize,
    others: &[TracedFinding],
) -> Result<(), AllocError>
    ensures { Writes result page.old page.new (spec.others_told files.entry home others.now) }
{
    let mut last: usize = 0;
    let mut told = false;
    for other in others {
        let line = other.finding.line;
        if !told || !is_same_line(&files, last, line) {
            page.texts(&[before_line(told)])?;
            page.say(&[Part::Line(files, home, line)])?;
            last = line;
            told = true;
        }
    }
    page.texts(&[if told { "\n" } else { "" }])
}

// ---- how to fix it

/// Writes lines, the first after a word and the others indented as far.
fn tell_lines(page: &mut Page, word: &str, lines: &[&[u8]]) -> Result<(), AllocError>
    ensures { Writes result page.old page.new (headed word.now (map spec.shown_line (map (λ l. l.now) lines.now))) }
{
    let mut told = false;
    for line in lines {
        begin(page, word, told)?;
        page.line(&[line])?;
        told = true;
    }
    Ok(())
}

/// Writes how to fix it, with further lines under the first.
#[tactic(auto, unfolding(crate::specs::Finding::help_told))]
pub(crate) fn tell_help(alloc: Global, page: &mut Page, help: &[u8]) -> Result<(), AllocError>
    ensures { Writes result page.old page.new (spec.help_told help.now) }
{
    let lines = lines_of(alloc, help)?;
    tell_lines(page, "   = help: ", lines.as_slice())
}

/// Writes a note, if there is one.
#[tactic(auto, unfolding(crate::specs::Finding::note_told))]
pub(crate) fn tell_note(page: &mut Page, note: &[u8]) -> Result<(), AllocError>
    ensures { Writes result page.old page.new (spec.note_told note.now) }
{
    if note.is_empty() {
        Ok(())
    } else {
        tell_lines(page, "   = note: ", &[note])
    }
}

// ---- all of it

/// Writes the report of a finding in a text that is in a file: its title and place, the file's lines and the paths that show it, the lines
/// of the others of its group, and how to fix it.
#[tactic(auto, unfolding(crate::specs::Finding::finding_report))]
pub(crate) fn report_finding(
    alloc: Global,
    page: &mut Page,
    coloured: bool,
    scene: &Scene<'_>,
    finding: &Finding,
    words: &Words,
    shown: Option<&FindingTrace>,
    others: &[TracedFinding],
) -> Result<(), AllocError>
    ensures { Writes result page.old page.new
        (spec.finding_report coloured scene.now.files scene.now.lines.now scene.now.graph.now finding.now words.now
        (option_copied shown.entry) others.now) }
{
    let subject = words.subject.as_slice();
    let site = scene.site(finding.callback, finding.point);
    let home = scene.files.file_at(site.place.line);
    tell_head(page, coloured, scene, finding, words)?;
    tell_shown(alloc, page, coloured, home, scene, finding, subject, shown)?;
    tell_others(page, scene.files, home, others)?;
    tell_help(alloc, page, words.help.as_slice())?;
    tell_note(page, words.note.as_slice())
}
