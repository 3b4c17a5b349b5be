//! The annotations of a C file, laid in their places.

ghost use Rattle.std.specs.Prelude.{◌≡◌, ◌≤◌, ◌++◌, [], ◌∷◌, true, length, replicate, IfOk, OnOk, MatchResult, Ok, Err};
ghost use Rattle.flt_c.specs.InPlace as spec;
ghost use Rattle.flt_c.specs.Runs as runs;
ghost use Rattle.flt_c.specs.Texts.{text_in};

use crate::files::{FileFlaw, Flaw, extract};
use crate::place::Place;
use crate::run::{Plain, plain_count};
use crate::scan::{after, before};
use crate::text::{Annotations, Line};
use std::alloc::{AllocError, Global};

/// Why the annotations of a file can't be laid in their places.
#[derive(Clone, Copy, Debug)]
pub enum PlaceFlaw {
    /// They make no text.
    Flawed(Flaw),
    /// At this place an annotation begins in a line in which another one ends.
    Crowded(Place),
}

/// Writes a byte a number of times.
fn put_times(out: &mut Vec<u8>, byte: u8, times: usize) -> Result<(), AllocError>
    ensures { OnOk result (out.new.items ≡ out.old.items ++ replicate times byte) }
{
    for _time in 0..times {
        out.push(byte)?;
    }
    Ok(())
}

/// Writes the line feeds and blanks between the end of an earlier line and the place where a line begins.
fn put_gap(out: &mut Vec<u8>, last: usize, at: Place) -> Result<(), AllocError>
    ensures { OnOk result (out.new.items ≡ out.old.items ++ spec.gap last at) }
{
    put_times(out, b'\n', at.line.saturating_sub(last).saturating_sub(1))?;
    put_times(out, b' ', at.column.saturating_sub(1))?;
    Ok(())
}

/// The number of bytes with which a line continues.
fn run_in(fresh: bool, rest: &[u8]) -> usize
    ensures value { result ≡ runs.run_in fresh rest.now }
    ensures within { result ≤ length rest.now }
{
    if fresh {
        0
    } else {
        plain_count(Plain::Until(b'\n'), rest)
    }
}

/// The bytes of lines that begin at these places, laid there.
fn laid(alloc: Global, bytes: &[u8], lines: &[Line]) -> Result<Vec<u8>, AllocError>
    ensures { IfOk result (λ out. out.items ≡ spec.laid 0 true bytes.now lines.now) }
{
    let mut out = Vec::new(alloc);
    let mut last = 0;
    let mut fresh = true;
    let mut lines = lines;
    let mut rest = bytes;
    while let [byte, ..] = rest {
        let run = run_in(fresh, rest);
        if 0 < run {
            out.extend_from_slice(before(rest, run))?;
            rest = after(rest, run);
        } else {
            if let (true, [line, others @ ..]) = (fresh, lines) {
                put_gap(&mut out, last, line.place)?;
                last = line.place.line;
                lines = others;
            }
            out.push(*byte)?;
            fresh = *byte == b'\n';
            rest = after(rest, 1);
        }
    }
    Ok(out)
}

/// The place of the first line that begins in the line of C in which the one before it ends.
fn crowded(lines: &[Line]) -> Option<Place>
    ensures { result ≡ spec.crowded 0 lines.now }
{
    let mut last = 0;
    for line in lines {
        if line.place.line == last {
            return Some(line.place);
        }
        last = line.place.line;
    }
    None
}

/// The text laid in its places, unless two of its lines are in the same line of C.
fn lay(alloc: Global, found: &Annotations) -> Result<Result<Vec<u8>, PlaceFlaw>, AllocError>
    ensures { IfOk result (λ done. MatchResult done
        (λ text. spec.laid_unless (spec.crowded 0 found.now.lines.items) (text_in found.now) ≡ Ok text.items)
        (λ flaw. spec.laid_unless (spec.crowded 0 found.now.lines.items) (text_in found.now) ≡ Err flaw)) }
{
    if let Some(at) = crowded(found.lines.as_slice()) {
        return Ok(Err(PlaceFlaw::Crowded(at)));
    }
    let text = laid(alloc, found.bytes.as_slice(), found.lines.as_slice())?;
    Ok(Ok(text))
}

/// The annotations of a C file in their places: each in its line and at its column, with only blanks and empty lines between them. So a
/// place in the result is the same place in the file, by its line and its column.
///
/// # Errors
///
/// `AllocError` if a growth is refused.
pub fn in_place(alloc: Global, file: Vec<u8>) -> Result<Result<Vec<u8>, PlaceFlaw>, AllocError>
    ensures { IfOk result (λ done. MatchResult done
        (λ text. spec.in_place file.items ≡ Ok text.items)
        (λ flaw. spec.in_place file.items ≡ Err flaw)) }
{
    let files = [file];
    match extract(alloc, &files)? {
        Ok(found) => lay(alloc, &found),
        Err(FileFlaw { file: _, flaw }) => Ok(Err(PlaceFlaw::Flawed(flaw))),
    }
}
