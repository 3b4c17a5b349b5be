//! The lines of files that reports show.

ghost use Rattle.std.specs.Prelude.{◌≡◌};
ghost use Rattle.flt_explain_reports.specs.Excerpts as spec;

use flt_places::{Files, Lines};

/// A line that is shown for a line of a text.
#[derive(Clone, Copy)]
pub(crate) struct Excerpt<'a> {
    pub(crate) bytes: &'a [u8],
    /// How many of its bytes are before those of the text.
    pub(crate) before: usize,
}

/// Whether a line has so many bytes that no report shows it.
fn is_long(line: &[u8]) -> bool
    ensures { result ≡ spec.is_long line.now }
{
    line.len() > 1000
}

/// The excerpt for a line of a text, by its number, from 1: the line of its file, or the text's own if that is too long.
pub(crate) fn excerpt_of<'a>(files: &Files<'a>, text: &Lines<'a>, number: usize) -> Excerpt<'a>
    ensures { spec.of_excerpt result ≡ spec.excerpt files.now text.now number }
{
    let line = files.line_in_file(number);
    if is_long(line) {
        Excerpt {
            bytes: text.line(number),
            before: 0,
        }
    } else {
        Excerpt {
            bytes: line,
            before: files.stand_at(number).before,
        }
    }
}
