//! The reports of drifts.

ghost use Rattle.std.specs.Prelude.{◌≡◌, ◌<◌, ◌++◌, [], ◌∷◌, OnOk, IfOk, decimal, drop, length, take};
ghost use Rattle.flt_c_drift.specs.Report as spec;
ghost use Rattle.flt_places.specs.Places.{first_line, place_in};

use crate::drift::{Drift, DriftKind, Span};
use crate::drift_words::{code, heading, help, is_difference, joint, opening};
use flt_places::Lines;
use flt_shown::put_shown;
use flt_tree::Position;
use std::alloc::{AllocError, Global};

/// The greatest number of bytes of a line that a report shows.
const MAX_SHOWN: usize = 1000;

// ---- bytes

/// The bytes of a file from one on.
fn rest_of(file: &[u8], start: usize) -> &[u8]
    ensures { result.now ≡ drop start file.now }
{
    if start <= file.len() {
        &file[start..]
    } else {
        &[]
    }
}

/// The first bytes.
fn first_of(bytes: &[u8], length: usize) -> &[u8]
    ensures { result.now ≡ take length bytes.now }
{
    if length <= bytes.len() {
        &bytes[..length]
    } else {
        bytes
    }
}

/// The `length` bytes of a file from byte `start` on, counted from 0; fewer if the file ends before.
fn word_at(file: &[u8], start: usize, length: usize) -> &[u8]
    ensures { result.now ≡ spec.word_at file.now start length }
{
    first_of(rest_of(file, start), length)
}

/// The bytes before the first line feed.
fn first_line(bytes: &[u8]) -> &[u8]
    ensures { result.now ≡ first_line bytes.now }
{
    let mut length: usize = 0;
    for byte in bytes {
        if *byte == b'\n' {
            break;
        }
        length += 1;
    }
    &bytes[..length]
}

// ---- pieces

/// Adds bytes as they are.
pub(crate) fn put(out: &mut Vec<u8>, bytes: &[u8]) -> Result<(), AllocError>
    ensures { OnOk result (out.new.items ≡ out.old.items ++ bytes.now) }
{
    out.extend_from_slice(bytes)
}

/// Adds a byte `count` times.
fn put_row(out: &mut Vec<u8>, byte: u8, count: usize) -> Result<(), AllocError>
    ensures { OnOk result (out.new.items ≡ out.old.items ++ spec.row_of byte count) }
{
    for _at in 0..count {
        out.push(byte)?;
    }
    Ok(())
}

/// The digits of a number.
pub(crate) fn digits(alloc: Global, number: usize) -> Result<Vec<u8>, AllocError>
    ensures { IfOk result (λ digits. digits.items ≡ decimal number) }
{
    let digits = format!(in alloc; "{number}")?;
    Ok(digits.into_bytes())
}

// ---- a report

/// Adds the words on the word that the annotations have in its place, if there is one.
fn put_beside(
    out: &mut Vec<u8>,
    file: &[u8],
    kind: DriftKind,
    other: Option<Span>,
) -> Result<(), AllocError>
    ensures { OnOk result (out.new.items ≡ out.old.items ++ spec.beside file.now kind other) }
{
    if let Some(other) = other {
        put(out, joint(kind))?;
        put_shown(out, word_at(file, other.start, other.length))?;
    }
    Ok(())
}

/// Adds a drift in one sentence, without an end of its line.
#[tactic(auto, unfolding(crate::specs::Report::sentence))]
fn put_sentence(out: &mut Vec<u8>, file: &[u8], drift: Drift) -> Result<(), AllocError>
    ensures { OnOk result (out.new.items ≡ out.old.items ++ spec.sentence file.now drift) }
{
    put(out, opening(drift.kind))?;
    put_shown(out, word_at(file, drift.start, drift.length))?;
    put_beside(out, file, drift.kind, drift.other)?;
    put(out, b"`")
}

/// Adds the line with the code and the message of a drift.
#[tactic(auto, unfolding(crate::specs::Report::message))]
pub(crate) fn put_message(out: &mut Vec<u8>, file: &[u8], drift: Drift) -> Result<(), AllocError>
    ensures { OnOk result (out.new.items ≡ out.old.items ++ spec.message file.now drift) }
{
    put(out, heading(drift.kind))?;
    put(out, code(drift.kind).as_bytes())?;
    put(out, b"]: ")?;
    put_sentence(out, file, drift)?;
    put(out, b"\n")
}

/// Adds the line that names the place of a drift.
#[tactic(auto, unfolding(crate::specs::Report::place_line))]
fn put_place(
    alloc: Global,
    out: &mut Vec<u8>,
    name: &str,
    place: Position,
) -> Result<(), AllocError>
    ensures { OnOk result (out.new.items ≡ out.old.items ++ spec.place_line name.now place) }
{
    let line = digits(alloc, place.line)?;
    let column = digits(alloc, place.column)?;
    put(out, b"  --> ")?;
    put_shown(out, name.as_bytes())?;
    put(out, b":")?;
    put(out, line.as_slice())?;
    put(out, b":")?;
    put(out, column.as_slice())?;
    put(out, b"\n")
}

/// The line of a place, whose byte is `start` in the file, from 0, or its first thousand bytes; nothing if the place is after them.
#[tactic(auto, unfolding(crate::specs::Report::shown_line))]
fn shown_line(file: &[u8], start: usize, place: Position) -> &[u8]
    ensures { result.now ≡ spec.shown_line file.now start place }
{
    if MAX_SHOWN < place.column {
        return &[];
    }
    let begin = start.saturating_sub(place.column.saturating_sub(1));
    first_line(first_of(rest_of(file, begin), MAX_SHOWN))
}

/// Adds a line after its number.
#[tactic(auto, unfolding(crate::specs::Report::numbered_line))]
fn put_numbered(out: &mut Vec<u8>, number: &[u8], line: &[u8]) -> Result<(), AllocError>
    ensures { OnOk result (out.new.items ≡ out.old.items ++ spec.numbered_line number.now line.now) }
{
    put(out, number)?;
    put(out, b" | ")?;
    put_shown(out, line)?;
    put(out, b"\n")
}

/// Adds marks under `marked` bytes from a column on, after a number of this width.
#[tactic(auto, unfolding(crate::specs::Report::marks_line))]
fn put_marks(
    out: &mut Vec<u8>,
    width: usize,
    column: usize,
    marked: usize,
) -> Result<(), AllocError>
    ensures { OnOk result (out.new.items ≡ out.old.items ++ spec.marks_line width column marked) }
{
    put_row(out, b' ', width)?;
    put(out, b" | ")?;
    put_row(out, b' ', column.saturating_sub(1))?;
    put_row(out, b'^', marked)?;
    put(out, b"\n")
}

/// Adds a line with its number, and marks under `marked` bytes from a column on.
#[tactic(auto, unfolding(crate::specs::Report::marked_line))]
fn put_marked(
    alloc: Global,
    out: &mut Vec<u8>,
    place: Position,
    marked: usize,
    line: &[u8],
) -> Result<(), AllocError>
    ensures { OnOk result (out.new.items ≡ out.old.items ++ spec.marked_line place marked line.now) }
{
    let number = digits(alloc, place.line)?;
    put_numbered(out, number.as_slice(), line)?;
    put_marks(out, number.len(), place.column, marked)
}

/// Adds a line with its marks; nothing if it is empty.
fn put_picture(
    alloc: Global,
    out: &mut Vec<u8>,
    place: Position,
    marked: usize,
    line: &[u8],
) -> Result<(), AllocError>
    ensures { OnOk result (out.new.items ≡ out.old.items ++ spec.picture place marked line.now) }
{
    match line {
        [] => Ok(()),
        [_, ..] => put_marked(alloc, out, place, marked, line),
    }
}

/// Adds the help on a drift.
#[tactic(auto, unfolding(crate::specs::Report::help_line))]
fn put_help(out: &mut Vec<u8>, drift: Drift) -> Result<(), AllocError>
    ensures { OnOk result (out.new.items ≡ out.old.items ++ spec.help_line drift) }
{
    put(out, b"   = help: ")?;
    put(out, help(drift.kind).as_bytes())?;
    put(out, b"\n")
}

/// Adds the report of a drift at a place of the file of a name.
#[tactic(auto, unfolding(crate::specs::Report::report_at))]
fn put_report(
    alloc: Global,
    out: &mut Vec<u8>,
    name: &str,
    file: &[u8],
    place: Position,
    drift: Drift,
) -> Result<(), AllocError>
    ensures { OnOk result (out.new.items ≡ out.old.items ++ spec.report_at name.now file.now place drift) }
{
    put_message(out, file, drift)?;
    put_place(alloc, out, name, place)?;
    let line = shown_line(file, drift.start, place);
    put_picture(alloc, out, place, drift.length, line)?;
    put_help(out, drift)
}

/// Whether code and annotations differ in one of some drifts, which may be notes.
pub fn has_difference(drifts: &[Drift]) -> bool
    ensures { result ≡ spec.has_difference drifts.now }
{
    drifts.iter().any(|drift| is_difference(drift.kind))
}

/// The drift of a C file in one sentence, with the words of C and of the annotation, without an end of its line. Bytes that a terminal
/// would obey are shown as blanks.
///
/// # Errors
///
/// `AllocError` if a growth is refused.
pub fn drift_sentence(alloc: Global, file: &[u8], drift: Drift) -> Result<Vec<u8>, AllocError>
    ensures { IfOk result (λ sentence. sentence.items ≡ spec.sentence file.now drift) }
{
    let mut out = Vec::new(alloc);
    put_sentence(&mut out, file, drift)?;
    Ok(out)
}

/// The reports of drifts, one below the other.
fn reports_of(
    alloc: Global,
    name: &str,
    file: &[u8],
    drifts: &[Drift],
) -> Result<Vec<u8>, AllocError>
    ensures { IfOk result (λ reports. reports.items ≡ spec.reports_of name.now file.now drifts.now) }
{
    let lines = Lines::of(alloc, file)?;
    let mut out = Vec::new(alloc);
    for drift in drifts {
        let place = lines.place(drift.start);
        put_report(alloc, &mut out, name, file, place, *drift)?;
    }
    Ok(out)
}

/// The reports of drifts of the C file of a name, one below the other: the code of each, its message and place, the first thousand bytes of
/// its line, and how to fix it. They are whole lines. Bytes that a terminal would obey are shown as blanks. Notes alone have no report.
///
/// # Errors
///
/// `AllocError` if a growth is refused.
pub fn report_drifts(
    alloc: Global,
    name: &str,
    file: &[u8],
    drifts: &[Drift],
) -> Result<Vec<u8>, AllocError>
    ensures { IfOk result (λ reports. reports.items ≡ spec.drift_reports name.now file.now drifts.now) }
{
    if has_difference(drifts) {
        reports_of(alloc, name, file, drifts)
    } else {
        Ok(Vec::new(alloc))
    }
}
