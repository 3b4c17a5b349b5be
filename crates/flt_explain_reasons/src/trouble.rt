//! The place in a line that is malformed.

use crate::cursor::{Cursor, is_decimal, last_number};
use crate::lines::Line;
use crate::wanted::Expectation;

/// The role of a line in its input.
#[derive(Clone, Copy)]
pub(crate) enum Subject {
    First,
    /// The first line of a callback, by its number.
    Callback(usize),
    /// A point, by the number of its callback and its own.
    Point(usize, usize),
    /// A line after a point, in a certificate that may leave points out, by the number of their callback, and the least and the greatest
    /// number that a further point has.
    Among(usize, usize, usize),
    /// An entry, by its number.
    Entry(usize),
    /// A command, by the number of its line, from 1.
    Command(usize),
    Last,
    /// A line after the last.
    Behind,
}

/// The place in a line that is malformed.
#[derive(Clone, Copy)]
pub(crate) struct Trouble<'a> {
    pub(crate) subject: Subject,
    /// None if the input ends before it.
    pub(crate) line: Option<Line<'a>>,
    /// The line from that place on.
    pub(crate) left: &'a [u8],
    pub(crate) wanted: Expectation,
}

/// The error `wanted`, if it isn't there.
pub(crate) fn asked(is_there: bool, wanted: Expectation) -> Result<(), Expectation> {
    if is_there { Ok(()) } else { Err(wanted) }
}

/// The line has no more bytes.
pub(crate) fn line_end(cursor: &Cursor<'_>) -> Result<(), Expectation> {
    asked(cursor.left.is_empty(), Expectation::LineEnd)
}

/// One of the words that are wanted.
pub(crate) fn word(cursor: &mut Cursor<'_>, wanted: Expectation) -> Result<(), Expectation> {
    let own = cursor.word();
    asked(wanted.words().iter().any(|word| *word == own), wanted)?;
    cursor.pass_word();
    Ok(())
}

/// A number below a bound.
pub(crate) fn number_below(
    cursor: &mut Cursor<'_>,
    bound: u64,
    wanted: Expectation,
) -> Result<(), Expectation> {
    let own = cursor.word();
    asked(is_decimal(own) && last_number(own) < bound, wanted)?;
    cursor.pass_word();
    Ok(())
}

/// The bytes of a line: none if it is missing.
pub(crate) fn bytes_of<'a>(line: Option<Line<'a>>) -> &'a [u8] {
    match line {
        Some(line) => line.bytes,
        None => &[],
    }
}

/// A carriage return is before the line feed.
fn has_return(line: Option<Line<'_>>) -> bool {
    match line {
        Some(line) => line.has_return,
        None => false,
    }
}

/// The wanted thing in a line, by the result of reading it. If all of the line is read, it doesn't end in a line feed alone.
fn wanted_by(line: Option<Line<'_>>, read: Result<(), Expectation>) -> Expectation {
    match read {
        Ok(()) if has_return(line) => Expectation::NoReturn,
        Ok(()) => Expectation::LineFeed,
        Err(wanted) => wanted,
    }
}

/// The mistake in a line, given its unread rest and the result of reading it.
pub(crate) fn found<'a>(
    subject: Subject,
    line: Option<Line<'a>>,
    cursor: Cursor<'a>,
    read: Result<(), Expectation>,
) -> Trouble<'a> {
    Trouble {
        subject,
        line,
        left: cursor.left,
        wanted: wanted_by(line, read),
    }
}

/// A line that is exactly these words.
pub(crate) fn exact(
    cursor: &mut Cursor<'_>,
    words: &'static str,
    wanted: Expectation,
) -> Result<(), Expectation> {
    match cursor.left.strip_prefix(words.as_bytes()) {
        Some(left) => {
            cursor.left = left;
            line_end(cursor)
        }
        None => Err(wanted),
    }
}
