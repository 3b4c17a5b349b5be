//! Finds the mistake in a line of a certificate.

use crate::cursor::{Cursor, is_decimal, last_number};
use crate::lines::{Line, Lines};
use crate::trouble::{Subject, Trouble, asked, bytes_of, exact, found, line_end};
use crate::wanted::Expectation;
use flt_rules::MAX_CALLBACKS;

const CONTEXTS: [&str; 8] = ["c1", "c2", "c3", "c4", "c5", "c6", "c7", "arg"];

const OPERATIONS: [&str; 5] = ["o0", "o1", "o2", "o3", "data"];

/// The state of the reader after the lines so far.
#[derive(Clone, Copy)]
struct Standing {
    /// Whether points may be left out.
    is_thin: bool,
    /// The number of callbacks that have begun.
    callbacks: usize,
    /// The least number that a further point of the last one has, and the number of its points.
    next: usize,
    count: usize,
    is_over: bool,
}

impl Standing {
    /// Passes one more line, which is well-formed.
    fn pass(&mut self, line: &[u8]) {
        let word = Cursor { left: line }.word();
        if is_decimal(word) {
            self.next = (last_number(word) as usize).saturating_add(1);
        } else if line == b"end".as_slice() {
            self.is_over = true;
        } else {
            self.callbacks = self.callbacks.saturating_add(1);
            self.next = 0;
            self.count = last_number(line) as usize;
        }
    }

    /// The subject of a line after a point, if points may be left out and that one isn't the last of its callback.
    fn behind_point(&self, line: &[u8]) -> Subject {
        let callback = self.callbacks.saturating_sub(1);
        let word = Cursor { left: line }.word();
        let number = last_number(word) as usize;
        if is_decimal(word) && self.next <= number && number < self.count {
            Subject::Point(callback, number)
        } else {
            Subject::Among(callback, self.next, self.count.saturating_sub(1))
        }
    }

    /// The subject of the next line.
    fn subject(&self, line: &[u8]) -> Subject {
        if self.is_over {
            Subject::Behind
        } else if self.is_thin && 0 < self.next && self.next < self.count {
            self.behind_point(line)
        } else if self.next < self.count {
            Subject::Point(self.callbacks.saturating_sub(1), self.next)
        } else if self.callbacks < MAX_CALLBACKS {
            Subject::Callback(self.callbacks)
        } else {
            Subject::Last
        }
    }
}

/// A number that counts on.
fn number(cursor: &mut Cursor<'_>, number: usize) -> Result<(), Expectation> {
    let word = cursor.word();
    let is_there = is_decimal(word) && last_number(word) == number as u64;
    asked(is_there, Expectation::Number(number))?;
    cursor.pass_word();
    asked(cursor.byte(b' '), Expectation::Blank)
}

/// The first line of a callback, or the last line.
fn head(cursor: &mut Cursor<'_>, callback: usize) -> Result<(), Expectation> {
    if 0 < callback && cursor.left.strip_prefix(b"end").is_some() {
        return exact(cursor, "end", Expectation::End);
    }
    asked(
        cursor.word() == b"callback".as_slice(),
        Expectation::Callback(callback),
    )?;
    cursor.pass_word();
    asked(cursor.byte(b' '), Expectation::Blank)?;
    number(cursor, callback)?;
    let count = cursor.word();
    let many = last_number(count);
    asked(
        is_decimal(count) && 1 <= many && many <= 512,
        Expectation::Count,
    )?;
    cursor.pass_word();
    line_end(cursor)
}

/// The first line of this callback, or the last line if there are all callbacks.
fn head_or_last(cursor: &mut Cursor<'_>, callback: usize) -> Result<(), Expectation> {
    if callback < MAX_CALLBACKS {
        head(cursor, callback)
    } else {
        exact(cursor, "end", Expectation::End)
    }
}

/// A line after a point of this callback. The numbers of further points are between these two.
fn among(
    cursor: &mut Cursor<'_>,
    callback: usize,
    least: usize,
    greatest: usize,
) -> Result<(), Expectation> {
    let next = callback.saturating_add(1);
    match cursor.left {
        [b'0'..=b'9', ..] if least < greatest => Err(Expectation::Rising(least, greatest)),
        [b'0'..=b'9', ..] => Err(Expectation::Number(greatest)),
        [b'e', b'n', b'd', ..] => head_or_last(cursor, next),
        _ if cursor.word() == b"callback".as_slice() => head_or_last(cursor, next),
        _ if next < MAX_CALLBACKS => Err(Expectation::PointOr(next)),
        _ => Err(Expectation::PointOrEnd),
    }
}

/// Digits of these variables.
fn statuses(cursor: &mut Cursor<'_>, names: &[&'static str]) -> Result<(), Expectation> {
    for name in names {
        asked(cursor.digit(b'7'), Expectation::Status(name))?;
    }
    asked(cursor.byte(b' '), Expectation::Blank)
}

/// The number of a lock that isn't among those taken, a bit for each; with it they are the result.
fn lock(cursor: &mut Cursor<'_>, taken: u64, wanted: Expectation) -> Result<u64, Expectation> {
    let [digit, others @ ..] = cursor.left else {
        return Err(wanted);
    };
    let number = digit.saturating_sub(b'0');
    if *digit < b'0' || 8 <= number {
        return Err(wanted);
    }
    let own = 1u64 << number;
    if taken & own != 0 {
        return Err(Expectation::OtherLock);
    }
    cursor.left = others;
    Ok(taken | own)
}

/// The locks, up to the end of the line.
fn locks(cursor: &mut Cursor<'_>) -> Result<(), Expectation> {
    if cursor.byte(b'-') {
        return line_end(cursor);
    }
    let mut taken = lock(cursor, 0, Expectation::Locks)?;
    for _turn in 0..8 {
        let _is_shared = cursor.byte(b's');
        if cursor.left.is_empty() {
            return Ok(());
        }
        asked(cursor.byte(b','), Expectation::LockEnd)?;
        taken = lock(cursor, taken, Expectation::OtherLock)?;
    }
    line_end(cursor)
}

/// The state of a point.
fn state(cursor: &mut Cursor<'_>) -> Result<(), Expectation> {
    if cursor.byte(b'!') {
        return line_end(cursor);
    }
    asked(cursor.digit(b'7'), Expectation::State)?;
    statuses(cursor, CONTEXTS.as_slice())?;
    statuses(cursor, OPERATIONS.as_slice())?;
    asked(cursor.digit(b'3'), Expectation::Modes)?;
    asked(cursor.byte(b' '), Expectation::Blank)?;
    asked(cursor.digit(b'3'), Expectation::Draining)?;
    asked(cursor.byte(b' '), Expectation::Blank)?;
    locks(cursor)
}

/// The line of a point.
fn point(cursor: &mut Cursor<'_>, own: usize) -> Result<(), Expectation> {
    number(cursor, own)?;
    state(cursor)
}

/// The first line.
fn first(cursor: &mut Cursor<'_>) -> Result<(), Expectation> {
    if cursor.left.strip_prefix(b"fltcert 2").is_some() {
        return exact(cursor, "fltcert 2", Expectation::Format);
    }
    exact(cursor, "fltcert 1", Expectation::Format)
}

/// Reads a line, up to the mistake in it.
fn read(cursor: &mut Cursor<'_>, subject: Subject) -> Result<(), Expectation> {
    match subject {
        Subject::First => first(cursor),
        Subject::Callback(callback) => head(cursor, callback),
        Subject::Point(_, own) => point(cursor, own),
        Subject::Among(callback, least, greatest) => among(cursor, callback, least, greatest),
        Subject::Last => exact(cursor, "end", Expectation::End),
        Subject::Behind | Subject::Entry(_) | Subject::Command(_) => Err(Expectation::Nothing),
    }
}

/// The mistake in a line with this subject.
fn trouble_in<'a>(line: Option<Line<'a>>, subject: Subject) -> Trouble<'a> {
    let mut cursor = Cursor {
        left: bytes_of(line),
    };
    let read = read(&mut cursor, subject);
    found(subject, line, cursor, read)
}

/// The mistake in the first malformed line of a certificate, given the line's number from 1.
pub(crate) fn trouble<'a>(input: &'a [u8], line: usize) -> Trouble<'a> {
    let mut lines = Lines { left: input };
    if line <= 1 {
        return trouble_in(lines.next(), Subject::First);
    }
    let mut standing = Standing {
        is_thin: bytes_of(lines.next()) == b"fltcert 2".as_slice(),
        callbacks: 0,
        next: 0,
        count: 0,
        is_over: false,
    };
    for _number in 2..line {
        if let Some(passed) = lines.next() {
            standing.pass(passed.bytes);
        }
    }
    let own = lines.next();
    trouble_in(own, standing.subject(bytes_of(own)))
}
