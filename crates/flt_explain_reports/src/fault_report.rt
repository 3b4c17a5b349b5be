//! The report of a text that doesn't parse.

ghost use Rattle.std.specs.Prelude.{◌≡◌, ◌++◌, ◌∷◌, [], IfOk};
ghost use Rattle.flt_explain_texts.specs.Page.{Writes};
ghost use Rattle.flt_explain_reports.specs.Fault as spec;

use crate::excerpts::excerpt_of;
use crate::heading::{name_at, tell_file_place, tell_heading};
use crate::marks::{Drawing, Stroke};
use flt_explain_hints::{FaultExplanation, Spot, Trouble, describe, tell};
use flt_explain_texts::{Page, Source, fault_name, line_words};
use flt_places::{Files, Lines, Site};
use flt_tree::Position;
use std::alloc::{AllocError, Global};

/// The place where a text is refused.
fn place_of(spot: &Spot<'_>) -> Position
    ensures { result ≡ spec.place_of spot.now }
{
    Position {
        line: spot.fault.line,
        column: spot.fault.column,
    }
}

/// Writes the word that is probably meant, if there is one, and ends the line.
fn tell_meant(page: &mut Page, meant: &[u8]) -> Result<(), AllocError>
    ensures { Writes result page.old page.new (spec.meant_told meant.now ++ 10 ∷ []) }
{
    if meant.is_empty() {
        page.bytes(b"\n")
    } else {
        page.line(&[b" ", meant])
    }
}

/// Draws the line with marks under the refused text, and after them the word that is probably meant.
#[tactic(auto, unfolding(crate::specs::Fault::spot_drawn))]
fn draw_spot(
    alloc: Global,
    page: &mut Page,
    coloured: bool,
    files: &Files<'_>,
    lines: &Lines<'_>,
    spot: &Spot<'_>,
    meant: &[u8],
) -> Result<(), AllocError>
    ensures { Writes result page.old page.new (spec.spot_drawn coloured files.now lines.now spot.now meant.now) }
{
    let line = spot.fault.line;
    let site = Site {
        place: place_of(spot),
        length: spot.bytes.len(),
    };
    Drawing::new(coloured, files.file_line(line), files.file_at(line)).draw(
        alloc,
        page,
        files,
        excerpt_of(files, lines, line),
        lines.line(line),
        &site,
        Stroke::Error,
    )?;
    tell_meant(page, meant)
}

/// Draws the same for a whole text, and nothing if the text is too large.
#[tactic(auto, unfolding(crate::specs::Fault::picture))]
fn draw(
    alloc: Global,
    page: &mut Page,
    coloured: bool,
    files: &Files<'_>,
    text: &[u8],
    spot: &Spot<'_>,
    meant: &[u8],
) -> Result<(), AllocError>
    ensures { Writes result page.old page.new
        (spec.picture coloured files.now text.now spot.now meant.now spot.now.token) }
{
    match spot.token {
        Some(_) => {
            let lines = Lines::of(alloc, text)?;
            draw_spot(alloc, page, coloured, files, &lines, spot, meant)
        }
        None => Ok(()),
    }
}

/// Writes the fault, its place, the refused text, and how to fix it.
#[tactic(auto, unfolding(crate::specs::Fault::fault_report))]
fn report_spot(
    alloc: Global,
    page: &mut Page,
    coloured: bool,
    source: Source<'_>,
    spot: &Spot<'_>,
    told: &FaultExplanation,
) -> Result<(), AllocError>
    ensures { Writes result page.old page.new
        (spec.fault_report coloured source.entry.files source.entry.text.now spot.now told.now.title.items
        told.now.meant.items told.now.notes.items) }
{
    let code = Some(fault_name(spot.fault.kind));
    let files = &source.files;
    let name = name_at(files, spot.fault.line);
    tell_heading(page, coloured, code, told.title.as_slice(), name)?;
    tell_file_place(page, files, place_of(spot))?;
    page.bytes(b"\n")?;
    draw(
        alloc,
        page,
        coloured,
        files,
        source.text,
        spot,
        told.meant.as_slice(),
    )?;
    page.bytes(told.notes.as_slice())
}

/// The lines of the report of a text's trouble in these words.
fn lines_in(
    alloc: Global,
    coloured: bool,
    source: Source<'_>,
    spot: &Spot<'_>,
    told: &FaultExplanation,
) -> Result<Vec<u8>, AllocError>
    ensures { IfOk result (λ lines. lines.items ≡
        spec.fault_report coloured source.entry.files source.entry.text.now spot.now told.now.title.items
        told.now.meant.items told.now.notes.items) }
{
    let mut page = Page::new(alloc);
    report_spot(alloc, &mut page, coloured, source, spot, told)?;
    Ok(page.out)
}

/// The name of the line of a call that lacks an operand; empty if there is none.
fn line_of_call(
    alloc: Global,
    files: &Files<'_>,
    trouble: &Trouble<'_>,
) -> Result<Vec<u8>, AllocError>
    ensures { IfOk result (λ line. line.items ≡ spec.line_of_call files.now trouble.now) }
{
    match trouble.open_call {
        Some(call) => line_words(
            alloc,
            files,
            files.file_at(trouble.spot.fault.line),
            call.line,
        ),
        None => Ok(Vec::new(alloc)),
    }
}

/// The report of a text's trouble.
#[tactic(auto, unfolding(crate::specs::Fault::trouble_report))]
fn report_trouble(
    alloc: Global,
    coloured: bool,
    source: Source<'_>,
    trouble: &Trouble<'_>,
) -> Result<Vec<u8>, AllocError>
    ensures { IfOk result (λ lines. lines.items
        ≡ spec.trouble_report coloured source.entry.files source.entry.text.now trouble.now) }
{
    let line = line_of_call(alloc, &source.files, trouble)?;
    let told = tell(alloc, trouble, line.as_slice())?;
    let lines = lines_in(alloc, coloured, source, &trouble.spot, &told)?;
    Ok(lines)
}

/// The report of a text's trouble, if it has one.
fn report_described(
    alloc: Global,
    coloured: bool,
    source: Source<'_>,
    trouble: &Option<Trouble<'_>>,
) -> Result<Vec<u8>, AllocError>
    ensures { IfOk result (λ lines. lines.items
        ≡ spec.report_of coloured source.entry.files source.entry.text.now trouble.now) }
{
    match trouble {
        Some(trouble) => report_trouble(alloc, coloured, source, trouble),
        None => Ok(Vec::new(alloc)),
    }
}

/// The report of a text that is refused: the place, the text there, the legal alternatives, and how to fix it. Empty if the text parses.
pub(crate) fn report_fault(
    alloc: Global,
    coloured: bool,
    source: Source<'_>,
) -> Result<Vec<u8>, AllocError>
    ensures { IfOk result (λ lines.
        spec.IsFaultReport coloured source.entry.files source.entry.text.now lines.items) }
{
    let described = describe(alloc, source.text)?;
    let lines = report_described(alloc, coloured, source, &described)?;
    Ok(lines)
}
