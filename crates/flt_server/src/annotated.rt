//! The annotations of C files, as texts that are read.

use flt_c::{PlaceFlaw, in_place};
use flt_places::Lines;
use flt_server_outline::byte_of;
use flt_server_session::{Encoding, Spot};
use flt_tree::Position;
use std::alloc::{AllocError, Global};

/// The greatest number of bytes of a C file that is read.
const MAX_FILE: usize = 65_536;

/// The beginnings of the two comments that are annotations.
const MARKERS: [&[u8]; 2] = [b"//@flt", b"/*@flt"];

/// How many bytes of them are before the `@`.
const BEFORE: usize = 2;

/// Whether the marker of an annotation has its `@` at a byte.
fn is_marker(bytes: &[u8], at: usize) -> bool {
    let found = bytes.get(at.saturating_sub(BEFORE)..).unwrap_or(b"");
    MARKERS.iter().any(|marker| found.starts_with(marker))
}

/// Whether a C file has the marker of an annotation. A file without one has no annotation.
pub(crate) fn has_marker(bytes: &[u8]) -> bool {
    for (at, byte) in bytes.iter().enumerate() {
        if *byte == b'@' && is_marker(bytes, at) {
            return true;
        }
    }
    false
}

/// Whether a C file has more bytes than are read.
pub(crate) fn is_too_long_in_c(bytes: &[u8]) -> bool {
    MAX_FILE < bytes.len()
}

/// The annotations of a C file, each in its line and at its column, or why they make no text.
pub(crate) fn annotations(
    alloc: Global,
    bytes: &[u8],
) -> Result<Result<Vec<u8>, PlaceFlaw>, AllocError> {
    let file = Vec::from_slice(alloc, bytes)?;
    in_place(alloc, file)
}

/// The same, if they make a text.
pub(crate) fn annotations_in(alloc: Global, bytes: &[u8]) -> Result<Option<Vec<u8>>, AllocError> {
    if !has_marker(bytes) || is_too_long_in_c(bytes) {
        return Ok(None);
    }
    match annotations(alloc, bytes)? {
        Ok(text) => Ok(Some(text)),
        Err(_) => Ok(None),
    }
}

/// A C file that has annotations.
#[derive(Drop)]
pub(crate) struct CFile<'a> {
    pub(crate) bytes: &'a [u8],
    pub(crate) lines: Lines<'a>,
}

/// A byte of a C file, and the byte in its place in the text of annotations.
#[derive(Clone, Copy)]
pub(crate) struct Pair {
    pub(crate) own: usize,
    pub(crate) read: usize,
}

/// The pair before one.
fn before(pair: Pair) -> Pair {
    Pair {
        own: pair.own.saturating_sub(1),
        read: pair.read.saturating_sub(1),
    }
}

fn is_blank(byte: u8) -> bool {
    byte == b' ' || byte == b'\t'
}

impl<'a> CFile<'a> {
    pub(crate) fn of(alloc: Global, bytes: &'a [u8]) -> Result<CFile<'a>, AllocError> {
        let lines = Lines::of(alloc, bytes)?;
        Ok(CFile { bytes, lines })
    }

    /// The byte of a place of the client, from 0.
    pub(crate) fn byte_of(&self, encoding: Encoding, spot: Spot) -> usize {
        byte_of(self.bytes, encoding, spot)
    }

    /// A place of the client.
    pub(crate) fn place_of(&self, encoding: Encoding, spot: Spot) -> Position {
        self.lines.place(self.byte_of(encoding, spot))
    }

    /// Whether a byte of the file isn't in the text, which has a blank in its place.
    fn is_left_out(&self, text: &[u8], pair: Pair) -> bool {
        match (self.bytes.get(pair.own), text.get(pair.read)) {
            (Some(own), Some(b' ')) => *own != b' ',
            _ => false,
        }
    }

    /// Whether a byte, or the one before it, is code, of a marker, or of the expression of a lock.
    fn is_beside_others(&self, text: &[u8], pair: Pair) -> bool {
        self.is_left_out(text, pair) || self.is_left_out(text, before(pair))
    }

    /// Whether code or a marker follows in the line, before a word of the text.
    fn is_before_others(&self, text: &[u8], pair: Pair) -> bool {
        let own = self.bytes.get(pair.own..).unwrap_or(b"");
        let read = text.get(pair.read..).unwrap_or(b"");
        for (own, read) in own.iter().zip(read.iter()) {
            if *read != b' ' {
                return false;
            }
            if !is_blank(*own) {
                return true;
            }
        }
        false
    }

    /// Whether a byte is within an annotation, or ends one. The text has so many bytes before it in its line. An empty line isn't: in the
    /// text it may be one of code.
    pub(crate) fn is_annotated(&self, text: &[u8], pair: Pair, column: usize) -> bool {
        let start = pair.read.saturating_sub(column);
        let line = text.get(start..pair.read).unwrap_or(b"");
        if line.iter().any(|byte| *byte != b' ') {
            return !self.is_beside_others(text, pair);
        }
        let is_empty = column == 0 && matches!(text.get(pair.read), None | Some(b'\n'));
        !is_empty && !self.is_beside_others(text, pair) && !self.is_before_others(text, pair)
    }
}
