//! The first lines of reports.

ghost use Rattle.std.specs.Prelude.{◌≡◌, option_copied};
ghost use Rattle.flt_explain_texts.specs.Page.{Writes};
ghost use Rattle.flt_explain_reports.specs.Heading as spec;

use crate::colours::{bold, plain, red, yellow};
use flt_explain_texts::Page;
use flt_places::Files;
use flt_tree::Position;
use std::alloc::AllocError;

/// Writes a code, if there is one.
#[tactic(auto, unfolding(crate::specs::Heading::bracketed))]
fn tell_code(page: &mut Page, code: Option<&str>) -> Result<(), AllocError>
    ensures { Writes result page.old page.new (spec.bracketed (option_copied code.entry)) }
{
    match code {
        Some(code) => page.texts(&["[", code, "]"]),
        None => Ok(()),
    }
}

/// Writes a word for the severity, in a colour, and a code, if there is one.
#[tactic(auto, unfolding(crate::specs::Heading::severity))]
fn tell_severity(
    page: &mut Page,
    coloured: bool,
    colour: &str,
    word: &str,
    code: Option<&str>,
) -> Result<(), AllocError>
    ensures { Writes result page.old page.new (spec.severity coloured colour.now word.now (option_copied code.entry)) }
{
    page.texts(&[colour, word])?;
    tell_code(page, code)?;
    page.texts(&[": ", plain(coloured)])
}

/// Writes a title, and a file's name on the next line.
#[tactic(auto, unfolding(crate::specs::Heading::titled))]
fn tell_title(page: &mut Page, coloured: bool, title: &[u8], name: &str) -> Result<(), AllocError>
    ensures { Writes result page.old page.new (spec.titled coloured title.now name.now) }
{
    page.texts(&[bold(coloured)])?;
    page.words(&[title])?;
    page.texts(&[plain(coloured), "\n  --> "])?;
    page.words(&[name.as_bytes()])
}

/// Writes the title of an error and the name of the file. The place in the file follows on the page.
#[tactic(auto, unfolding(crate::specs::Heading::heading))]
pub(crate) fn tell_heading(
    page: &mut Page,
    coloured: bool,
    code: Option<&str>,
    title: &[u8],
    name: &str,
) -> Result<(), AllocError>
    ensures { Writes result page.old page.new (spec.heading coloured (option_copied code.entry) title.now name.now) }
{
    tell_severity(page, coloured, red(coloured), "error", code)?;
    tell_title(page, coloured, title, name)
}

/// Writes the title of a warning of a kind and the name of the file. The place in the file follows on the page.
#[tactic(auto, unfolding(crate::specs::Heading::warning_heading))]
pub(crate) fn tell_warning_heading(
    page: &mut Page,
    coloured: bool,
    kind: &str,
    title: &[u8],
    name: &str,
) -> Result<(), AllocError>
    ensures { Writes result page.old page.new (spec.warning_heading coloured kind.now title.now name.now) }
{
    tell_severity(page, coloured, yellow(coloured), "warning", Some(kind))?;
    tell_title(page, coloured, title, name)
}

/// Writes a line and a column after a file's name.
#[tactic(auto, unfolding(crate::specs::Heading::at_place))]
pub(crate) fn tell_place(page: &mut Page, place: Position) -> Result<(), AllocError>
    ensures { Writes result page.old page.new (spec.at_place place) }
{
    page.numbers(&[":", ":"], &[place.line, place.column])
}

/// The name of the file in which a line of the text is.
pub(crate) fn name_at<'f>(files: &Files<'f>, line: usize) -> &'f str
    ensures { result.now ≡ spec.name_at files.now line }
{
    files.file_name(files.file_at(line))
}

/// Writes the place in its file of a place in the text, after the file's name.
pub(crate) fn tell_file_place(
    page: &mut Page,
    files: &Files<'_>,
    place: Position,
) -> Result<(), AllocError>
    ensures { Writes result page.old page.new (spec.at_file_place files.now place) }
{
    tell_place(page, files.file_place(place))
}
