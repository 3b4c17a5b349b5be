//! Places as the protocol counts them: lines and columns from 0, columns in UTF-16 units or in bytes.

ghost use Rattle.std.specs.Prelude.{◌≡◌, ◌≤◌, ◌-◌, drop, length};
ghost use Rattle.flt_server_outline.specs.Places as spec;
ghost use Rattle.flt_places.specs.Places.{first_line as line_at_front, rest_behind};

use flt_places::{Lines, bytes_before, column_of};
use flt_server_session::{Encoding, Spot};
use flt_tree::Position;

/// The column of a place, from 1.
fn column(lines: &Lines<'_>, encoding: Encoding, place: Position) -> usize
    ensures { result ≡ spec.column encoding lines.now place }
{
    match encoding {
        Encoding::Utf8 => place.column,
        Encoding::Utf16 => column_of(lines, place),
    }
}

/// A place, whose line and column are from 1 and whose column is in bytes, as the protocol counts it.
pub fn spot_of(lines: &Lines<'_>, encoding: Encoding, place: Position) -> Spot
    ensures { result ≡ spec.spot_of encoding lines.now place }
{
    Spot {
        line: place.line.saturating_sub(1),
        character: column(lines, encoding, place).saturating_sub(1),
    }
}

/// The number of line feeds that are still to be passed, after a byte.
fn left_after(left: usize, byte: u8) -> usize
    ensures { result ≡ spec.left_after left byte }
{
    if byte == b'\n' {
        left.saturating_sub(1)
    } else {
        left
    }
}

/// The byte with which a line begins, given the number of lines before it: the end of the text if there is no such line.
fn line_start(text: &[u8], lines: usize) -> usize
    ensures rest { rest_behind lines text.now ≡ drop result text.now }
    ensures within { result ≤ length text.now }
{
    let mut left = lines;
    let mut at: usize = 0;
    for byte in text {
        if left == 0 {
            return at;
        }
        left = left_after(left, *byte);
        at += 1;
    }
    at
}

/// The bytes before the first line feed.
fn first_line(text: &[u8]) -> &[u8]
    ensures { result.now ≡ line_at_front text.now }
{
    let mut length: usize = 0;
    for byte in text {
        if *byte == b'\n' {
            break;
        }
        length += 1;
    }
    &text[..length]
}

/// The number of bytes of a line before a column, from 0.
fn bytes_in(line: &[u8], encoding: Encoding, character: usize) -> usize
    ensures value { result ≡ spec.bytes_in encoding line.now character }
    ensures within { result ≤ length line.now }
{
    match encoding {
        Encoding::Utf8 => character.min(line.len()),
        Encoding::Utf16 => bytes_before(line, character),
    }
}

/// The byte of a place, from 0: the end of its line if the place is after that, the beginning of its character if it is within one, and the
/// end of the text if the line isn't there.
#[tactic(auto, using(crate::proofs::InLines::within_line, crate::proofs::InLines::before_line))]
pub fn byte_of(text: &[u8], encoding: Encoding, spot: Spot) -> usize
    ensures value { result ≡ spec.byte_of encoding text.now spot }
    ensures within { result ≤ length text.now }
{
    let start = line_start(text, spot.line);
    start + bytes_in(first_line(&text[start..]), encoding, spot.character)
}
