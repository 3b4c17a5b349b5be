//! The diagnostics of a document.

use crate::annotated::{annotations, has_marker, is_too_long_in_c};
use crate::drifts::put_drifts;
use crate::faults::{is_too_long, put_unanalysed, put_unread, put_unread_in_c};
use crate::findings::put_findings;
use crate::flaws::put_flaw;
use crate::places::{Document, document_in_c, document_of};
use crate::warned::put_warnings;
use flt_c::{Flaw, PlaceFlaw};
use flt_explain_texts::{TextJudgement, judge};
use flt_server_session::OpenText;
use json::Writer;
use std::alloc::{AllocError, Global};

/// The diagnostics of a text that is read.
fn put_judged(
    alloc: Global,
    writer: &mut Writer,
    document: &Document<'_>,
    judged: &TextJudgement,
) -> Result<(), AllocError> {
    match judged {
        TextJudgement::Unread(fault) => put_unread(alloc, writer, document, *fault),
        TextJudgement::Known(tree, graph, found) => {
            put_findings(alloc, writer, document, tree, graph, found.as_slice())?;
            put_warnings(alloc, writer, document, tree, graph, found.as_slice())
        }
    }
}

fn put_all(alloc: Global, writer: &mut Writer, document: &Document<'_>) -> Result<(), AllocError> {
    if is_too_long(document.text) {
        return put_unanalysed(writer, document);
    }
    let judged = judge(alloc, document.text)?;
    put_judged(alloc, writer, document, &judged)
}

/// The diagnostics of a document, as a JSON array.
pub(crate) fn diagnostics(alloc: Global, document: &Document<'_>) -> Result<Vec<u8>, AllocError> {
    let mut writer = Writer::new(Vec::new(alloc));
    writer.begin_array()?;
    put_all(alloc, &mut writer, document)?;
    writer.end_array()?;
    Ok(writer.into_inner())
}

/// The diagnostics of a C file whose annotations are read: its drifts, and those of its text.
fn put_annotated(
    alloc: Global,
    writer: &mut Writer,
    document: &Document<'_>,
) -> Result<(), AllocError> {
    if let Some(c_file) = &document.c_file {
        put_drifts(alloc, writer, document, c_file)?;
    }
    put_all(alloc, writer, document)
}

/// The diagnostics of a C file that has the marker of an annotation; none if it has no annotation all the same.
fn put_marked(alloc: Global, writer: &mut Writer, open: OpenText<'_>) -> Result<(), AllocError> {
    let whole = document_of(alloc, open)?;
    if is_too_long_in_c(open.text) {
        return put_unread_in_c(writer, &whole);
    }
    match annotations(alloc, open.text)? {
        Ok(text) => {
            let document = document_in_c(alloc, open, text.as_slice())?;
            put_annotated(alloc, writer, &document)
        }
        Err(PlaceFlaw::Flawed(Flaw::Bare)) => Ok(()),
        Err(flaw) => put_flaw(writer, &whole, flaw),
    }
}

/// The diagnostics of a C file, as a JSON array.
pub(crate) fn diagnostics_in_c(alloc: Global, open: OpenText<'_>) -> Result<Vec<u8>, AllocError> {
    let mut writer = Writer::new(Vec::new(alloc));
    writer.begin_array()?;
    if has_marker(open.text) {
        put_marked(alloc, &mut writer, open)?;
    }
    writer.end_array()?;
    Ok(writer.into_inner())
}
