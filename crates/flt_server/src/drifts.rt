//! Diagnostics of drifts: where C and its annotations differ.

use crate::annotated::CFile;
use crate::faults::{put_kind, put_rest};
use crate::findings::put_related_place;
use crate::members::{add_line, put_text};
use crate::places::{Document, region_of};
use flt_c_drift::{
    Drift, DriftKind, Span, code, drift_sentence, drifts, has_difference, help, is_difference,
};
use flt_places::Region;
use flt_server_outline::Part;
use json::Writer;
use std::alloc::{AllocError, Global};

/// How many drifts of a C file are sent at most.
const MAX_DRIFTS: usize = 200;

/// The region of some bytes of a C file.
fn region_in(c_file: &CFile<'_>, start: usize, length: usize) -> Region {
    let part = Part {
        start,
        end: start.saturating_add(length),
    };
    region_of(&c_file.lines, part)
}

/// The difference, and how to fix it.
fn message_of(alloc: Global, c_file: &CFile<'_>, drift: Drift) -> Result<Vec<u8>, AllocError> {
    let mut out = drift_sentence(alloc, c_file.bytes, drift)?;
    add_line(&mut out, help(drift.kind).as_bytes())?;
    Ok(out)
}

/// A severity of the protocol: a warning, or information.
fn severity_of(kind: DriftKind) -> usize {
    if is_difference(kind) { 2 } else { 3 }
}

/// The words for the other word of a drift.
fn other_words(kind: DriftKind) -> &'static [u8] {
    match kind {
        DriftKind::OtherLock => b"the annotation's lock is declared here",
        _ => b"the annotation returns this",
    }
}

/// The other word that a drift is about, if there is one.
fn put_other(
    alloc: Global,
    writer: &mut Writer,
    document: &Document<'_>,
    c_file: &CFile<'_>,
    kind: DriftKind,
    other: Option<Span>,
) -> Result<(), AllocError> {
    let Some(other) = other else {
        return Ok(());
    };
    let region = region_in(c_file, other.start, other.length);
    writer.key("relatedInformation")?;
    writer.begin_array()?;
    put_related_place(alloc, writer, document, region, other_words(kind))?;
    writer.end_array()
}

fn put_drift(
    alloc: Global,
    writer: &mut Writer,
    document: &Document<'_>,
    c_file: &CFile<'_>,
    drift: Drift,
) -> Result<(), AllocError> {
    let message = message_of(alloc, c_file, drift)?;
    writer.begin_object()?;
    document.put_region(
        writer,
        "range",
        region_in(c_file, drift.start, drift.length),
    )?;
    put_kind(writer, severity_of(drift.kind), code(drift.kind))?;
    put_text(alloc, writer, "message", message.as_slice())?;
    put_other(alloc, writer, document, c_file, drift.kind, drift.other)?;
    writer.end_object()
}

/// The diagnostic that says how many drifts aren't sent, at the first of them.
fn put_unsent(
    alloc: Global,
    writer: &mut Writer,
    document: &Document<'_>,
    c_file: &CFile<'_>,
    found: &[Drift],
) -> Result<(), AllocError> {
    match found {
        [first, ..] => {
            let region = region_in(c_file, first.start, first.length);
            put_rest(alloc, writer, document, region, found.len())
        }
        [] => Ok(()),
    }
}

fn put_sent(
    alloc: Global,
    writer: &mut Writer,
    document: &Document<'_>,
    c_file: &CFile<'_>,
    found: &[Drift],
) -> Result<(), AllocError> {
    let count = MAX_DRIFTS.min(found.len());
    for drift in &found[..count] {
        put_drift(alloc, writer, document, c_file, *drift)?;
    }
    put_unsent(alloc, writer, document, c_file, &found[count..])
}

/// The diagnostics of the drifts of a C file, as many as are sent; none if all of them are notes.
pub(crate) fn put_drifts(
    alloc: Global,
    writer: &mut Writer,
    document: &Document<'_>,
    c_file: &CFile<'_>,
) -> Result<(), AllocError> {
    match drifts(alloc, c_file.bytes)? {
        Ok(found) if has_difference(found.as_slice()) => {
            put_sent(alloc, writer, document, c_file, found.as_slice())
        }
        _ => Ok(()),
    }
}
