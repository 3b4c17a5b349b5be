//! The report of a line of a file that isn't the text of a filter.

ghost use Rattle.std.specs.Prelude.{◌≡◌, ◌++◌, ◌∷◌, [], IfOk};
ghost use Rattle.flt_explain_texts.specs.Page.{Writes};
ghost use Rattle.flt_explain_reports.specs.Line as spec;

use crate::heading::{tell_heading, tell_place};
use crate::marks::{Drawing, Stroke};
use flt_explain_texts::Page;
use flt_places::Site;
use flt_tree::Position;
use std::alloc::{AllocError, Global};

/// A line with an error. Lines and columns count from 1.
#[derive(Clone, Copy)]
pub struct MarkedLine<'a> {
    /// The name of the file.
    pub name: &'a str,
    pub line: usize,
    pub column: usize,
    /// The part of the line that is shown; empty if the line is missing.
    pub shown: &'a [u8],
    /// How many bytes are marked, from the column on.
    pub marked: usize,
    /// The error, in words.
    pub message: &'a [u8],
    /// The word that is probably meant, or nothing.
    pub meant: &'a [u8],
    /// How to fix it, or nothing.
    pub help: &'a str,
}

/// The place of the error.
fn place_of(marked: &MarkedLine<'_>) -> Position
    ensures { result ≡ spec.place_of marked.now }
{
    Position {
        line: marked.line,
        column: marked.column,
    }
}

/// Writes the word that is probably meant, if there is one, and ends the line.
#[tactic(auto, unfolding(crate::specs::Line::meant))]
fn tell_meant(page: &mut Page, meant: &[u8]) -> Result<(), AllocError>
    ensures { Writes result page.old page.new (spec.meant meant.now ++ 10 ∷ []) }
{
    if meant.is_empty() {
        page.bytes(b"\n")
    } else {
        page.line(&[b" did you mean `", meant, b"`?"])
    }
}

/// Draws the line, and after the marks the word that is probably meant; nothing if no part of the line is shown.
#[tactic(auto, unfolding(crate::specs::Line::picture))]
fn draw(
    alloc: Global,
    page: &mut Page,
    coloured: bool,
    marked: &MarkedLine<'_>,
) -> Result<(), AllocError>
    ensures { Writes result page.old page.new (spec.picture coloured marked.now) }
{
    if marked.shown.is_empty() {
        return Ok(());
    }
    let site = Site {
        place: place_of(marked),
        length: marked.marked,
    };
    let drawing = Drawing::new(coloured, marked.line, 0);
    drawing.draw_alone(alloc, page, marked.shown, &site, Stroke::Error)?;
    tell_meant(page, marked.meant)
}

/// Writes how to fix it.
#[tactic(auto, unfolding(crate::specs::Line::help_line))]
fn tell_help(page: &mut Page, help: &str) -> Result<(), AllocError>
    ensures { Writes result page.old page.new (spec.help_line help.now) }
{
    if help.is_empty() {
        Ok(())
    } else {
        page.texts(&["   = help: ", help, "\n"])
    }
}

#[tactic(auto, unfolding(crate::specs::Line::line_report))]
fn tell(
    alloc: Global,
    page: &mut Page,
    coloured: bool,
    marked: &MarkedLine<'_>,
) -> Result<(), AllocError>
    ensures { Writes result page.old page.new (spec.line_report coloured marked.now) }
{
    tell_heading(page, coloured, None, marked.message, marked.name)?;
    tell_place(page, place_of(marked))?;
    page.bytes(b"\n")?;
    draw(alloc, page, coloured, marked)?;
    tell_help(page, marked.help)
}

/// The report of a line of a file that isn't the text of a filter: the error, its place, and how to fix it, in whole lines. With
/// `coloured`, escape sequences of a terminal colour them.
///
/// # Errors
///
/// If memory is refused.
pub fn report_line(
    alloc: Global,
    coloured: bool,
    marked: &MarkedLine<'_>,
) -> Result<Vec<u8>, AllocError>
    ensures { IfOk result (λ lines. lines.items ≡ spec.line_report coloured marked.now) }
{
    let mut page = Page::new(alloc);
    tell(alloc, &mut page, coloured, marked)?;
    Ok(page.out)
}
