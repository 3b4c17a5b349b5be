//! Columns in UTF-16 units.

ghost use Rattle.std.specs.Prelude.{◌≡◌, ◌<◌, ◌≤◌, ◌+◌, ◌-◌, ◌^◌, length, take};
ghost use Rattle.flt_places.specs.Columns as spec;

use crate::files::Files;
use crate::places::Lines;
use flt_tree::Position;

/// The number of units that a byte of UTF-8 adds.
fn units_of(byte: u8) -> usize
    ensures value { result ≡ spec.units_of byte }
    ensures few { result ≤ 2 }
{
    if byte < 128 {
        1
    } else if byte < 192 {
        0
    } else if byte < 240 {
        1
    } else {
        2
    }
}

/// The number of units of some bytes of UTF-8.
fn units(bytes: &[u8]) -> usize
    ensures value { result ≡ spec.units bytes.now }
    ensures few { result < 2 ^ 64 - 1 }
{
    let mut units = 0;
    for byte in bytes {
        units += units_of(*byte);
    }
    units
}

/// The number of bytes before the one that is `count` bytes after a column; all of them if the line has no more.
fn count_before(line: &[u8], column: usize, count: usize) -> usize
    ensures { result ≡ spec.last_in line.now column count }
{
    column
        .saturating_sub(1)
        .saturating_add(count)
        .min(line.len())
}

/// The bytes before the one that is `count` bytes after a column.
#[tactic(auto, using(crate::proofs::Fronts::within))]
fn front(line: &[u8], column: usize, count: usize) -> &[u8]
    ensures { result.now ≡ take (column - 1 + count) line.now }
{
    &line[..count_before(line, column, count)]
}

/// The column, from 1, that is `count` bytes after a column of a line, which counts in bytes: the end of the line if it has no more.
fn column_in(line: &[u8], column: usize, count: usize) -> usize
    ensures { result ≡ spec.column_in line.now column count }
{
    units(front(line, column, count)) + 1
}

/// The column, from 1, of a place whose column counts in bytes.
pub fn column_of(lines: &Lines<'_>, place: Position) -> usize
    ensures { result ≡ spec.column_of lines.now place }
{
    column_in(lines.line(place.line), place.column, 0)
}

/// The column, from 1, that is `count` bytes after a place of a text, in the line of its file in which that is: the end of this line if it
/// has no more. The place is that in the text, and counts in bytes.
pub fn file_column_behind(files: &Files<'_>, place: Position, count: usize) -> usize
    ensures { result ≡ spec.file_column_behind files.now place count }
{
    let line = files.line_in_file(place.line);
    column_in(line, files.file_place(place).column, count)
}

/// The column, from 1, of the last of `count` bytes from a place of a text on, in the line of its file in which that is. It counts in
/// bytes, and the place is that in the text.
pub fn file_column_up_to(files: &Files<'_>, place: Position, count: usize) -> usize
    ensures { result ≡ spec.file_column_up_to files.now place count }
{
    let line = files.line_in_file(place.line);
    count_before(line, files.file_place(place).column, count)
}

/// The number of bytes at the front of a line that have at most so many units: whole characters, and as many of them as there are.
#[tactic(auto, using(crate::proofs::Before::no_more, crate::proofs::Before::as_many))]
pub fn bytes_before(line: &[u8], units: usize) -> usize
    ensures value { result ≡ spec.bytes_before line.now units }
    ensures within { result ≤ length line.now }
    ensures few { spec.units (take result line.now) ≤ units }
    ensures many { result < length line.now → units < spec.units (take (result + 1) line.now) }
{
    let mut left = units;
    let mut count: usize = 0;
    for byte in line {
        let next = units_of(*byte);
        if left < next {
            return count;
        }
        left -= next;
        count += 1;
    }
    count
}
