//! The report of a warning.

ghost use Rattle.std.specs.Prelude.{◌≡◌, option_copied, IfOk, OnOk};
ghost use Rattle.flt_explain_texts.specs.Page.{Writes};
ghost use Rattle.flt_explain_reports.specs.MarkOrder.{all_placed};
ghost use Rattle.flt_explain_reports.specs.WarningReport as spec;

use crate::excerpts::excerpt_of;
use crate::finding_report::{tell_callback, tell_help, tell_note, tell_numbers};
use crate::heading::{name_at, tell_file_place, tell_warning_heading};
use crate::mark_order::{Mark, add_mark, greatest_line};
use crate::marks::{Drawing, Stroke};
use flt_explain_texts::{Marks, Page};
use flt_explain_warning_details::{RelatedPlace, WarningDetail};
use flt_explain_warnings::Site as Point;
use flt_places::{Files, Lines, Region, Site};
use std::alloc::{AllocError, Global};

// ---- what it says, and where

/// Writes the head of a callback, if there is one.
#[tactic(auto, unfolding(crate::specs::WarningReport::head_part))]
fn tell_head(page: &mut Page, head: &[u8]) -> Result<(), AllocError>
    ensures { Writes result page.old page.new (spec.head_part head.now) }
{
    if head.is_empty() {
        Ok(())
    } else {
        tell_callback(page, head)
    }
}

/// Writes the numbers of a callback and a point, if there are any, and ends the line.
fn tell_point(page: &mut Page, point: Option<Point>) -> Result<(), AllocError>
    ensures { Writes result page.old page.new (spec.point_part point) }
{
    match point {
        Some(point) => tell_numbers(page, point.callback, point.point),
        None => page.bytes(b"\n"),
    }
}

/// Writes the kind and the title of a warning, its file and its place.
#[tactic(auto, unfolding(crate::specs::WarningReport::head_lines))]
fn tell_head_lines(
    page: &mut Page,
    coloured: bool,
    files: &Files<'_>,
    detail: &WarningDetail,
) -> Result<(), AllocError>
    ensures { Writes result page.old page.new (spec.head_lines coloured files.now detail.now) }
{
    let kind = detail.kind.name();
    let first = detail.marks.statement.first;
    let name = name_at(files, first.line);
    tell_warning_heading(page, coloured, kind, detail.title.as_slice(), name)?;
    tell_file_place(page, files, first)?;
    tell_head(page, detail.head.as_slice())?;
    tell_point(page, detail.site)
}

// ---- the places

/// The part of a region that is on its first line.
#[tactic(auto, unfolding(crate::specs::WarningReport::site_of))]
fn site_of(lines: &Lines<'_>, region: Region) -> Site
    ensures { result ≡ spec.site_of lines.now region }
{
    let first = region.first;
    let length = if region.end.line == first.line {
        region.end.column.saturating_sub(first.column)
    } else {
        lines.line(first.line).len()
    };
    Site {
        place: first,
        length,
    }
}

/// A mark at a place: at that of the related place of a number, from 0, or at the warning's own.
fn mark_at(lines: &Lines<'_>, marks: &Marks, related: Option<usize>) -> Mark<Option<usize>>
    ensures { result ≡ spec.mark_at lines.now marks.now related }
{
    Mark {
        sign: related,
        site: site_of(lines, marks.statement),
    }
}

/// Adds the marks of related places.
fn add_related(
    marks: &mut Vec<Mark<Option<usize>>>,
    lines: &Lines<'_>,
    related: &[RelatedPlace],
) -> Result<(), AllocError>
    ensures { OnOk result (marks.new.items ≡ all_placed marks.old.items (spec.related_marks lines.now 0 related.now)) }
{
    for number in 0..related.len() {
        let place = &related[number];
        add_mark(marks, mark_at(lines, &place.marks, Some(number)))?;
    }
    Ok(())
}

/// The marks of a warning in the order of their lines.
#[tactic(auto, unfolding(crate::specs::WarningReport::marks_of))]
fn marks_of(
    alloc: Global,
    lines: &Lines<'_>,
    detail: &WarningDetail,
) -> Result<Vec<Mark<Option<usize>>>, AllocError>
    ensures { IfOk result (λ marks. marks.items ≡ spec.marks_of lines.now detail.now) }
{
    let mut marks = Vec::new(alloc);
    add_mark(&mut marks, mark_at(lines, &detail.marks, None))?;
    add_related(&mut marks, lines, detail.related.as_slice())?;
    Ok(marks)
}

/// The stroke that is drawn under a place.
#[tactic(auto, unfolding(crate::specs::WarningReport::stroke))]
fn stroke(related: Option<usize>) -> Stroke
    ensures { result ≡ spec.stroke related }
{
    match related {
        Some(_) => Stroke::Aside,
        None => Stroke::Warning,
    }
}

/// Writes the words of a related place.
fn tell_words(page: &mut Page, related: Option<&RelatedPlace>) -> Result<(), AllocError>
    ensures { Writes result page.old page.new (spec.words_of (option_copied related.entry)) }
{
    match related {
        Some(related) => page.line(&[b" ", related.words.as_slice()]),
        None => page.bytes(b"\n"),
    }
}

/// Writes the words after a mark: none at the warning's own place.
#[tactic(auto, unfolding(crate::specs::WarningReport::mark_words))]
fn tell_mark(
    page: &mut Page,
    related: &[RelatedPlace],
    number: Option<usize>,
) -> Result<(), AllocError>
    ensures { Writes result page.old page.new (spec.mark_words related.now number) }
{
    match number {
        Some(number) => tell_words(page, related.get(number)),
        None => page.bytes(b"\n"),
    }
}

/// Draws marks, in their order, with their words.
#[tactic(auto, unfolding(crate::specs::WarningReport::all_drawn))]
fn draw_marks<'x>(
    alloc: Global,
    page: &mut Page,
    drawing: &mut Drawing,
    files: &Files<'x>,
    lines: &Lines<'x>,
    related: &[RelatedPlace],
    marks: &[Mark<Option<usize>>],
) -> Result<(), AllocError>
    ensures { Writes result page.old page.new
        (spec.all_drawn drawing.old.coloured drawing.old.margin files.now drawing.old.file lines.now related.now drawing.old.last
        marks.now) }
{
    for mark in marks {
        let number = mark.site.place.line;
        let excerpt = excerpt_of(files, lines, number);
        drawing.draw(
            alloc,
            page,
            files,
            excerpt,
            lines.line(number),
            &mark.site,
            stroke(mark.sign),
        )?;
        tell_mark(page, related, mark.sign)?;
    }
    Ok(())
}

/// Draws the places of a warning, in the order of their lines.
#[tactic(auto, unfolding(crate::specs::WarningReport::places_drawn))]
fn draw_places<'x>(
    alloc: Global,
    page: &mut Page,
    coloured: bool,
    files: &Files<'x>,
    lines: &Lines<'x>,
    detail: &WarningDetail,
) -> Result<(), AllocError>
    ensures { Writes result page.old page.new (spec.places_drawn coloured files.now lines.now detail.now) }
{
    let marks = marks_of(alloc, lines, detail)?;
    let marks = marks.as_slice();
    let first = detail.marks.statement.first.line;
    let mut drawing = Drawing::new(coloured, greatest_line(files, marks), files.file_at(first));
    let related = detail.related.as_slice();
    draw_marks(alloc, page, &mut drawing, files, lines, related, marks)
}

// ---- all of it

/// Writes the report of a warning.
#[tactic(auto, unfolding(crate::specs::WarningReport::warning_report))]
fn tell<'x>(
    alloc: Global,
    page: &mut Page,
    coloured: bool,
    files: &Files<'x>,
    lines: &Lines<'x>,
    detail: &WarningDetail,
) -> Result<(), AllocError>
    ensures { Writes result page.old page.new
        (spec.warning_report coloured files.now lines.now detail.now) }
{
    tell_head_lines(page, coloured, files, detail)?;
    draw_places(alloc, page, coloured, files, lines, detail)?;
    tell_help(alloc, page, detail.help.as_slice())?;
    tell_note(page, detail.note.as_slice())
}

/// The report of a warning in a text of these lines, which is in these files: its title and place, the files' lines at its places, what to
/// write, and what may result from it, in whole lines. With `coloured`, escape sequences of a terminal colour them.
///
/// # Errors
///
/// If memory is refused.
pub fn report_warning<'x>(
    alloc: Global,
    coloured: bool,
    files: &Files<'x>,
    lines: &Lines<'x>,
    detail: &WarningDetail,
) -> Result<Vec<u8>, AllocError>
    ensures { IfOk result (λ report. report.items ≡ spec.warning_report coloured files.now lines.now detail.now) }
{
    let mut page = Page::new(alloc);
    tell(alloc, &mut page, coloured, files, lines, detail)?;
    Ok(page.out)
}
