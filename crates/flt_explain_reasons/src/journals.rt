//! Finds the mistake in a line of a journal.

use crate::cursor::Cursor;
use crate::lines::{Line, Lines};
use crate::trouble::{
    Subject, Trouble, asked, bytes_of, exact, found, line_end, number_below, word,
};
use crate::wanted::Expectation;
use flt_rules::MAX_ENTRIES;

/// A field after an entry's word.
#[derive(Clone, Copy)]
enum Field {
    Number,
    Operation,
    Mode,
    Key,
    Answer,
}

const ONE_NUMBER: [Field; 1] = [Field::Number];

const TWO_NUMBERS: [Field; 2] = [Field::Number, Field::Number];

const ARRIVAL: [Field; 3] = [Field::Operation, Field::Mode, Field::Number];

const UNLINK: [Field; 2] = [Field::Number, Field::Key];

const GO: [Field; 3] = [Field::Number, Field::Number, Field::Answer];

/// The fields after an entry's word. None if no entry begins with it.
fn fields_of(word: &[u8]) -> Option<&'static [Field]> {
    match word {
        b"arrive" => Some(&ARRIVAL),
        b"pre" | b"skip" | b"lower" | b"post" | b"cancel" => Some(&ONE_NUMBER),
        b"work" | b"detach" | b"detached" => Some(&ONE_NUMBER),
        b"canceled" | b"drain" => Some(&TWO_NUMBERS),
        b"unlink" => Some(&UNLINK),
        b"go" => Some(&GO),
        _ => None,
    }
}

fn number(cursor: &mut Cursor<'_>) -> Result<(), Expectation> {
    number_below(cursor, 1 << 32, Expectation::AnyNumber)
}

/// A stream with its file, or the instance.
fn key(cursor: &mut Cursor<'_>) -> Result<(), Expectation> {
    let is_stream = cursor.word() == b"stream".as_slice();
    word(cursor, Expectation::Key)?;
    if !is_stream {
        return Ok(());
    }
    asked(cursor.byte(b' '), Expectation::Blank)?;
    number(cursor)
}

fn read_field(cursor: &mut Cursor<'_>, field: Field) -> Result<(), Expectation> {
    asked(cursor.byte(b' '), Expectation::Blank)?;
    match field {
        Field::Number => number(cursor),
        Field::Operation => word(cursor, Expectation::Operation),
        Field::Mode => word(cursor, Expectation::Mode),
        Field::Key => key(cursor),
        Field::Answer => word(cursor, Expectation::Answer),
    }
}

/// An entry, or the last line.
fn entry(cursor: &mut Cursor<'_>) -> Result<(), Expectation> {
    if cursor.word() == b"end".as_slice() {
        return exact(cursor, "end", Expectation::End);
    }
    let Some(fields) = fields_of(cursor.word()) else {
        return Err(Expectation::Entry);
    };
    cursor.pass_word();
    for one in fields {
        read_field(cursor, *one)?;
    }
    line_end(cursor)
}

/// Reads a line, up to the mistake in it.
fn read(cursor: &mut Cursor<'_>, subject: Subject) -> Result<(), Expectation> {
    match subject {
        Subject::First => exact(
            cursor,
            "fltjournal 1",
            Expectation::FirstLine("fltjournal 1"),
        ),
        Subject::Entry(_) => entry(cursor),
        Subject::Last => exact(cursor, "end", Expectation::End),
        _ => Err(Expectation::Nothing),
    }
}

/// The mistake in a line with this subject.
fn trouble_in<'a>(line: Option<Line<'a>>, subject: Subject) -> Trouble<'a> {
    let mut cursor = Cursor {
        left: bytes_of(line),
    };
    let read = read(&mut cursor, subject);
    found(subject, line, cursor, read)
}

/// The subject of a line after another one, by its number, from 1.
fn subject(before: Option<Line<'_>>, line: usize) -> Subject {
    let entries = line.saturating_sub(2);
    match before {
        Some(Line { bytes: b"end", .. }) => Subject::Behind,
        _ if entries < MAX_ENTRIES => Subject::Entry(entries),
        _ => Subject::Last,
    }
}

/// The mistake in the first malformed line of a journal, given the line's number from 1.
pub(crate) fn trouble<'a>(input: &'a [u8], line: usize) -> Trouble<'a> {
    let mut lines = Lines { left: input };
    if line <= 1 {
        return trouble_in(lines.next(), Subject::First);
    }
    let mut before = lines.next();
    for _number in 2..line {
        before = lines.next();
    }
    trouble_in(lines.next(), subject(before, line))
}
