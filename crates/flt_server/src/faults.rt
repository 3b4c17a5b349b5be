//! Diagnostics of a text that doesn't parse.

use crate::members::{add_line, put_number, put_string, put_text};
use crate::places::{Document, own_files};
use crate::trial::trial_text;
use flt_explain_hints::{FaultExplanation, Trouble, describe, tell};
use flt_explain_texts::{fault_name, line_words};
use flt_places::{Region, lines_of};
use flt_rules::MAX_TEXT;
use flt_server_outline::Part;
use flt_syntax::SyntaxFault;
use flt_tree::Position;
use json::Writer;
use std::alloc::{AllocError, Global};

/// The marks with which further lines of a report begin.
const NOTE: &[u8] = b"   = note: ";

const HELP: &[u8] = b"   = help: ";

/// The members that each diagnostic begins with, after its place: a severity of the protocol, and the number of the rule or the fault.
pub(crate) fn put_kind(writer: &mut Writer, severity: usize, code: &str) -> Result<(), AllocError> {
    put_number(writer, "severity", severity)?;
    put_string(writer, "code", code)?;
    put_string(writer, "source", "fltstack")
}

/// The words of a further line of a report.
fn words_of(line: &[u8]) -> &[u8] {
    match line.strip_prefix(NOTE) {
        Some(words) => words,
        None => line.strip_prefix(HELP).unwrap_or(line),
    }
}

fn add_notes(alloc: Global, out: &mut Vec<u8>, notes: &[u8]) -> Result<(), AllocError> {
    let lines = lines_of(alloc, notes)?;
    for line in lines.as_slice() {
        add_line(out, words_of(line))?;
    }
    Ok(())
}

/// The mistake, and how to fix it.
fn message_of(alloc: Global, told: &FaultExplanation) -> Result<Vec<u8>, AllocError> {
    let mut out = Vec::new(alloc);
    add_line(&mut out, told.title.as_slice())?;
    add_line(&mut out, told.meant.as_slice())?;
    add_notes(alloc, &mut out, told.notes.as_slice())?;
    Ok(out)
}

/// Where a text is refused.
fn region_of(trouble: &Trouble<'_>) -> Region {
    let fault = trouble.spot.fault;
    Region {
        first: Position {
            line: fault.line,
            column: fault.column,
        },
        end: Position {
            line: fault.line,
            column: fault.column.saturating_add(trouble.spot.bytes.len()),
        },
    }
}

/// The line of the call that isn't complete, in words; nothing if there is none.
fn open_line(alloc: Global, trouble: &Trouble<'_>) -> Result<Vec<u8>, AllocError> {
    match trouble.open_call {
        Some(call) => line_words(alloc, &own_files(), 0, call.line),
        None => Ok(Vec::new(alloc)),
    }
}

fn put_fault(
    alloc: Global,
    writer: &mut Writer,
    document: &Document<'_>,
    trouble: &Trouble<'_>,
) -> Result<(), AllocError> {
    let line = open_line(alloc, trouble)?;
    let told = tell(alloc, trouble, line.as_slice())?;
    let message = message_of(alloc, &told)?;
    writer.begin_object()?;
    document.put_region(writer, "range", region_of(trouble))?;
    put_kind(writer, 1, fault_name(trouble.spot.fault.kind))?;
    put_text(alloc, writer, "message", message.as_slice())?;
    writer.end_object()
}

/// The diagnostic of a text that doesn't parse.
pub(crate) fn put_unread(
    alloc: Global,
    writer: &mut Writer,
    document: &Document<'_>,
    fault: SyntaxFault,
) -> Result<(), AllocError> {
    let focus = trial_text(alloc, document.text, fault)?;
    match describe(alloc, focus.text.as_slice())? {
        Some(trouble) => put_fault(alloc, writer, document, &trouble),
        None => Ok(()),
    }
}

/// The diagnostic of a text that is too long to be read, at its first byte.
pub(crate) fn put_unanalysed(
    writer: &mut Writer,
    document: &Document<'_>,
) -> Result<(), AllocError> {
    writer.begin_object()?;
    document.put_part(writer, "range", Part { start: 0, end: 0 })?;
    put_kind(writer, 1, "E06")?;
    put_string(
        writer,
        "message",
        "a text has at most 65,536 bytes: this one isn't analysed",
    )?;
    writer.end_object()
}

/// The diagnostic that says that something isn't looked at while a text is edited, at the first byte.
fn put_spared(writer: &mut Writer, document: &Document<'_>, words: &str) -> Result<(), AllocError> {
    writer.begin_object()?;
    document.put_part(writer, "range", Part { start: 0, end: 0 })?;
    put_number(writer, "severity", 3)?;
    put_string(writer, "source", "fltstack")?;
    put_string(writer, "message", words)?;
    writer.end_object()
}

/// The diagnostic that says that a C file is too long to be read while it is edited.
pub(crate) fn put_unread_in_c(
    writer: &mut Writer,
    document: &Document<'_>,
) -> Result<(), AllocError> {
    put_spared(
        writer,
        document,
        "the file has more than 65,536 bytes, too many to be read while it is edited: `fltstack explain` reads it",
    )
}

/// The diagnostic that says how many others aren't sent, at the place of the first of them.
pub(crate) fn put_rest(
    alloc: Global,
    writer: &mut Writer,
    document: &Document<'_>,
    region: Region,
    count: usize,
) -> Result<(), AllocError> {
    let message = format!(in alloc;
        "{count} more from here on: `fltstack explain` has all of them"
    )?;
    writer.begin_object()?;
    document.put_region(writer, "range", region)?;
    put_number(writer, "severity", 3)?;
    put_string(writer, "source", "fltstack")?;
    put_string(writer, "message", message.as_str())?;
    writer.end_object()
}

/// The diagnostic that says that warnings aren't searched for.
pub(crate) fn put_unsearched(
    writer: &mut Writer,
    document: &Document<'_>,
) -> Result<(), AllocError> {
    put_spared(
        writer,
        document,
        "the text uses values of contexts too often to be searched for warnings while it is edited: `fltstack explain` has them",
    )
}

/// Whether a text has more bytes than are read.
pub(crate) fn is_too_long(text: &[u8]) -> bool {
    MAX_TEXT < text.len()
}
