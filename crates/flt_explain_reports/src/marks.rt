//! Lines of a text with marks under them.

ghost use Rattle.std.specs.Prelude.{◌≡◌, ◌+◌, ◌≤◌, drop, option_copied, take, IfOk, OnOk};
ghost use Rattle.std.specs.Int.{is_in_range};
ghost use Rattle.std.specs.List.{count_by};
ghost use Rattle.flt_explain_texts.specs.Page.{Writes};
ghost use Rattle.flt_places.specs.Files.{file_at, file_line};
ghost use Rattle.flt_explain_reports.specs.Excerpts.{of_excerpt};
ghost use Rattle.flt_explain_reports.specs.Marks as spec;

use crate::colours::{blue, plain, red, yellow};
use crate::excerpts::Excerpt;
use flt_explain_texts::Page;
use flt_places::{Files, Site};
use std::alloc::{AllocError, Global};

/// The lines that are drawn: whether in colours, the width of their numbers, the file that is named last, and the number there of the last
/// line, 0 if there is none.
#[derive(Clone, Copy)]
pub(crate) struct Drawing {
    coloured: bool,
    margin: usize,
    file: usize,
    last: usize,
}

/// The sign and the colour of a mark.
#[derive(Clone, Copy)]
pub(crate) enum Stroke {
    /// `^` in red: an error.
    Error,
    /// `^` in yellow: the place of a warning.
    Warning,
    /// `-` in blue: any other place that is shown.
    Aside,
}

fn is_return(byte: Option<&u8>) -> bool
    ensures { result ≡ spec.is_return (option_copied byte.entry) }
{
    match byte {
        Some(byte) => *byte == b'\r',
        None => false,
    }
}

/// A line without the carriage return that may end it.
#[tactic(auto, unfolding(crate::specs::Marks::without_return))]
fn without_return(line: &[u8]) -> &[u8]
    ensures { result.now ≡ spec.without_return line.now }
{
    if is_return(line.last()) {
        &line[..line.len().saturating_sub(1)]
    } else {
        line
    }
}

fn is_continued(byte: u8) -> bool
    ensures { result ≡ is_in_range 0x80 0xBF byte }
{
    matches!(byte, 0x80..=0xBF)
}

/// How many bytes continue a character.
fn continued(bytes: &[u8]) -> usize
    ensures { result ≡ count_by (is_in_range 0x80 0xBF) bytes.now }
{
    bytes.iter().filter(|byte| is_continued(**byte)).count()
}

/// The first bytes of a line; all of them if it has no more.
fn front(line: &[u8], count: usize) -> &[u8]
    ensures { result.now ≡ take count line.now }
{
    &line[..count.min(line.len())]
}

/// The bytes of a line after so many; none if it has no more.
fn after(line: &[u8], count: usize) -> &[u8]
    ensures { result.now ≡ drop count line.now }
{
    &line[count.min(line.len())..]
}

/// How many columns so many first bytes of a line take where they are shown: one for each character.
fn columns(alloc: Global, line: &[u8], count: usize) -> Result<usize, AllocError>
    ensures { IfOk result (λ n. n ≡ spec.columns line.now count) }
{
    let mut page = Page::new(alloc);
    page.words(&[front(line, count)])?;
    Ok(count.saturating_sub(continued(page.out.as_slice())))
}

/// How many bytes of a site are on its first line.
fn bytes_marked(line: &[u8], site: &Site) -> usize
    ensures { result ≡ spec.bytes_marked line.now site.now }
{
    let rest = line
        .len()
        .saturating_sub(site.place.column.saturating_sub(1));
    rest.min(site.length)
}

/// How many signs mark a site: one for each column of its bytes on its first line, at least one.
#[tactic(auto, unfolding(crate::specs::Marks::signs))]
fn signs(alloc: Global, line: &[u8], site: &Site) -> Result<usize, AllocError>
    ensures { IfOk result (λ n. n ≡ spec.signs line.now site.now) }
{
    let rest = after(line, site.place.column.saturating_sub(1));
    let columns = columns(alloc, rest, bytes_marked(line, site))?;
    Ok(columns.max(1))
}

/// How many columns are before a site where its line is shown so.
fn columns_before(alloc: Global, excerpt: Excerpt<'_>, site: &Site) -> Result<usize, AllocError>
    ensures { IfOk result (λ n. n ≡ spec.columns_before (of_excerpt excerpt.entry) site.now) }
{
    let column = excerpt.before.saturating_add(site.place.column);
    columns(alloc, excerpt.bytes, column.saturating_sub(1))
}

/// How many digits a number has.
#[tactic(auto, using(crate::proofs::Widths::one_digit, crate::proofs::Widths::one_digit_more))]
fn width(number: usize) -> usize
    ensures value { result ≡ spec.width number }
    ensures within { result ≤ number + 1 }
{
    if number < 10 {
        1
    } else {
        width(number / 10) + 1
    }
}

#[tactic(auto, unfolding(crate::specs::Marks::sign_of))]
fn sign_of(stroke: Stroke) -> u8
    ensures { result ≡ spec.sign_of stroke }
{
    match stroke {
        Stroke::Error | Stroke::Warning => b'^',
        Stroke::Aside => b'-',
    }
}

#[tactic(auto, unfolding(crate::specs::Marks::colour_of))]
fn colour_of(coloured: bool, stroke: Stroke) -> &'static str
    ensures { result.now ≡ spec.colour_of coloured stroke }
{
    match stroke {
        Stroke::Error => red(coloured),
        Stroke::Warning => yellow(coloured),
        Stroke::Aside => blue(coloured),
    }
}

impl Drawing {
    /// A drawing for lines up to this number, below the name of a file.
    pub(crate) fn new(coloured: bool, greatest: usize, file: usize) -> Drawing
        ensures coloured { result.coloured ≡ coloured }
        ensures margin { result.margin ≡ spec.width greatest }
        ensures file { result.file ≡ file }
        ensures last { result.last ≡ 0 }
    {
        Drawing {
            coloured,
            margin: width(greatest),
            file,
            last: 0,
        }
    }

    /// The dots between the last line and another one, if they aren't neighbours.
    #[tactic(auto, unfolding(crate::specs::Marks::dots))]
    fn dots(self, number: usize) -> &'static str
        ensures { result.now ≡ spec.dots self.last number }
    {
        if self.last == 0 || number.saturating_sub(1) == self.last {
            ""
        } else {
            "...\n"
        }
    }

    /// Writes the text between the last line and another one: the name of its file, if that isn't named yet.
    #[tactic(auto, unfolding(crate::specs::Marks::gap))]
    fn tell_gap(self, page: &mut Page, files: &Files<'_>, number: usize) -> Result<(), AllocError>
        ensures { Writes result page.old page.new (spec.gap files.now self.file self.last number) }
    {
        let file = files.file_at(number);
        if file == self.file {
            return page.texts(&[self.dots(files.file_line(number))]);
        }
        page.line(&[b"  ::: ", files.file_name(file).as_bytes()])
    }

    /// Draws a line of the text.
    #[tactic(auto, unfolding(crate::specs::Marks::numbered_line))]
    fn draw_line(self, page: &mut Page, line: &[u8], number: usize) -> Result<(), AllocError>
        ensures { Writes result page.old page.new (spec.numbered_line self.coloured self.margin number line.now) }
    {
        let blanks = self.margin.saturating_sub(width(number));
        page.run(b' ', blanks, blue(self.coloured))?;
        page.numbers(&["", " | "], &[number])?;
        page.texts(&[plain(self.coloured)])?;
        page.line(&[line])
    }

    /// Draws the line of its file for a line of the text, if it isn't the last one drawn.
    #[tactic(auto, unfolding(crate::specs::Marks::line_once))]
    fn draw_once(
        self,
        page: &mut Page,
        files: &Files<'_>,
        line: &[u8],
        number: usize,
    ) -> Result<(), AllocError>
        ensures { Writes result page.old page.new
            (spec.line_once self.coloured self.margin files.now self.file self.last line.now number) }
    {
        if files.file_at(number) == self.file && files.file_line(number) == self.last {
            return Ok(());
        }
        self.tell_gap(page, files, number)?;
        self.draw_line(page, line, files.file_line(number))
    }

    /// Draws signs under a site in a line that is shown so.
    #[tactic(auto, unfolding(crate::specs::Marks::marked))]
    fn draw_marks(
        self,
        alloc: Global,
        page: &mut Page,
        excerpt: Excerpt<'_>,
        line: &[u8],
        site: &Site,
        stroke: Stroke,
    ) -> Result<(), AllocError>
        ensures { Writes result page.old page.new
            (spec.marked self.coloured self.margin (of_excerpt excerpt.entry) line.now site.now stroke) }
    {
        let before = columns_before(alloc, excerpt, site)?;
        let signs = signs(alloc, line, site)?;
        page.run(b' ', self.margin, blue(self.coloured))?;
        page.texts(&[" | ", plain(self.coloured)])?;
        page.run(b' ', before, colour_of(self.coloured, stroke))?;
        page.run(sign_of(stroke), signs, plain(self.coloured))
    }

    /// Draws the line of a site as it is, with signs under the site. The words of the mark follow on the page.
    #[tactic(auto, unfolding(crate::specs::Marks::drawn_alone))]
    pub(crate) fn draw_alone(
        self,
        alloc: Global,
        page: &mut Page,
        line: &[u8],
        site: &Site,
        stroke: Stroke,
    ) -> Result<(), AllocError>
        ensures { Writes result page.old page.new (spec.drawn_alone self.coloured self.margin line.now site.now stroke) }
    {
        let shown = without_return(line);
        self.draw_line(page, shown, site.place.line)?;
        let excerpt = Excerpt {
            bytes: line,
            before: 0,
        };
        self.draw_marks(alloc, page, excerpt, shown, site, stroke)
    }

    /// Draws signs under a site in a line, below the excerpt for that line; the excerpt only if its line isn't the last one drawn. The
    /// words of the mark follow on the page.
    #[tactic(auto, unfolding(crate::specs::Marks::drawn))]
    pub(crate) fn draw(
        &mut self,
        alloc: Global,
        page: &mut Page,
        files: &Files<'_>,
        excerpt: Excerpt<'_>,
        line: &[u8],
        site: &Site,
        stroke: Stroke,
    ) -> Result<(), AllocError>
        ensures drawn { Writes result page.old page.new
            (spec.drawn self.old.coloured self.old.margin files.now self.old.file self.old.last (of_excerpt excerpt.entry) line.now site.now
            stroke) }
        ensures coloured { OnOk result (self.new.coloured ≡ self.old.coloured) }
        ensures margin { OnOk result (self.new.margin ≡ self.old.margin) }
        ensures file { OnOk result (self.new.file ≡ file_at files.now site.now.place.line) }
        ensures last { OnOk result (self.new.last ≡ file_line files.now site.now.place.line) }
    {
        let shown = without_return(excerpt.bytes);
        self.draw_once(page, files, shown, site.place.line)?;
        self.file = files.file_at(site.place.line);
        self.last = files.file_line(site.place.line);
        self.draw_marks(alloc, page, excerpt, without_return(line), site, stroke)
    }
}
