//! Finds the mistake in a line of a script.

use crate::cursor::{Cursor, last_number};
use crate::lines::Lines;
use crate::trouble::{Subject, Trouble, asked, bytes_of, found, line_end, number_below, word};
use crate::wanted::Expectation;
use flt_rules::{MAX_OPERATIONS, Operation};
use flt_tree::Tree;

/// The number of files.
const FILES: u64 = 1024;

/// The greatest number of operations of a stack.
const OPERATIONS: u64 = MAX_OPERATIONS as u64;

/// The part of the input that decides which filters a line may detach.
#[derive(Clone, Copy)]
struct Before<'a> {
    /// The filters of the stack, if they are known.
    stack: Option<&'a [Tree]>,
    /// The whole script.
    input: &'a [u8],
    /// The number of the line, from 1.
    line: usize,
}

impl Before<'_> {
    /// A filter of the stack has this altitude.
    fn is_loaded(self, altitude: u64) -> bool {
        match self.stack {
            Some(trees) => trees.iter().any(|tree| tree.filter.altitude == altitude),
            None => true,
        }
    }

    /// A line before detaches the filter of this altitude.
    fn is_detached(self, altitude: u64) -> bool {
        let mut lines = Lines { left: self.input };
        for _number in 1..self.line {
            let bytes = bytes_of(lines.next());
            if bytes.starts_with(b"detach ") && last_number(bytes) == altitude {
                return true;
            }
        }
        false
    }
}

/// Whether a word names an operation that comes as an I/O request packet alone.
fn is_packet(word: &[u8]) -> bool {
    Operation::all().iter().any(|operation| operation.is_always_irp()
        && operation.name().as_bytes() == word)
}

/// An arrival: an operation, its mode and its file.
fn arrival(cursor: &mut Cursor<'_>) -> Result<(), Expectation> {
    let is_packet = is_packet(cursor.word());
    word(cursor, Expectation::Operation)?;
    asked(cursor.byte(b' '), Expectation::Blank)?;
    word(
        cursor,
        if is_packet {
            Expectation::Packet
        } else {
            Expectation::Mode
        },
    )?;
    asked(cursor.byte(b' '), Expectation::Blank)?;
    number_below(cursor, FILES, Expectation::File)
}

/// The altitude of a filter that may be detached.
fn altitude(cursor: &mut Cursor<'_>, before: Before<'_>) -> Result<(), Expectation> {
    let own = *cursor;
    number_below(cursor, 1 << 32, Expectation::AnyNumber)?;
    let altitude = last_number(own.word());
    let wanted = if !before.is_loaded(altitude) {
        Expectation::LoadedAltitude
    } else if before.is_detached(altitude) {
        Expectation::OtherAltitude
    } else {
        return Ok(());
    };
    *cursor = own;
    Err(wanted)
}

/// The operands after a command's word.
fn operands(
    cursor: &mut Cursor<'_>,
    command: &[u8],
    before: Before<'_>,
) -> Result<(), Expectation> {
    asked(cursor.byte(b' '), Expectation::Blank)?;
    match command {
        b"arrive" => arrival(cursor),
        b"cancel" => number_below(cursor, OPERATIONS, Expectation::Serial),
        b"detach" => altitude(cursor, before),
        _ => number_below(cursor, 1 << 32, Expectation::AnyNumber),
    }
}

/// Reads a line, up to the mistake in it.
fn read(cursor: &mut Cursor<'_>, before: Before<'_>) -> Result<(), Expectation> {
    let command = cursor.word();
    word(cursor, Expectation::Command)?;
    operands(cursor, command, before)?;
    line_end(cursor)
}

/// The mistake in the first malformed line of a script, given the line's number from 1, and the filters of the stack if they are known.
pub(crate) fn trouble<'a>(stack: Option<&[Tree]>, input: &'a [u8], line: usize) -> Trouble<'a> {
    let before = Before { stack, input, line };
    let mut lines = Lines { left: input };
    for _number in 1..line {
        let _passed = lines.next();
    }
    let own = lines.next();
    let mut cursor = Cursor {
        left: bytes_of(own),
    };
    let read = read(&mut cursor, before);
    found(Subject::Command(line), own, cursor, read)
}
