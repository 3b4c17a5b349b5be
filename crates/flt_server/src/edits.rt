//! Edits of a document that an editor offers.

use crate::focus::Focus;
use crate::members::{put_string, put_text};
use crate::places::Document;
use flt_explain::Finding;
use flt_explain_texts::{TextJudgement, judge};
use flt_server_outline::Part;
use json::Writer;
use std::alloc::{AllocError, Global};

/// An edit: a part of the text becomes other bytes.
#[derive(Drop)]
pub(crate) struct Edit {
    pub(crate) title: Vec<u8>,
    pub(crate) part: Part,
    pub(crate) new: Vec<u8>,
}

/// The text of a callback after an edit in it.
fn edited(alloc: Global, focus: &Focus, edit: &Edit) -> Result<Vec<u8>, AllocError> {
    let text = focus.text.as_slice();
    let start = edit.part.start.saturating_sub(focus.left_out);
    let end = edit.part.end.saturating_sub(focus.left_out);
    let mut out = Vec::new(alloc);
    out.extend_from_slice(text.get(..start).unwrap_or(b""))?;
    out.extend_from_slice(edit.new.as_slice())?;
    out.extend_from_slice(text.get(end..).unwrap_or(b""))?;
    Ok(out)
}

/// How many of some findings a callback has.
fn count_in(found: &[Finding], callback: usize) -> usize {
    let mut count: usize = 0;
    for finding in found {
        if finding.callback == callback {
            count = count.saturating_add(1);
        }
    }
    count
}

/// How many findings a callback of a text has; none if the text doesn't parse.
pub(crate) fn findings_in(
    alloc: Global,
    text: &[u8],
    callback: usize,
) -> Result<Option<usize>, AllocError> {
    match judge(alloc, text)? {
        TextJudgement::Known(_, _, found) => Ok(Some(count_in(found.as_slice(), callback))),
        TextJudgement::Unread(_) => Ok(None),
    }
}

/// Whether a callback has fewer findings than a number after an edit.
pub(crate) fn is_better(
    alloc: Global,
    focus: &Focus,
    callback: usize,
    findings: usize,
    edit: &Edit,
) -> Result<bool, AllocError> {
    let text = edited(alloc, focus, edit)?;
    match findings_in(alloc, text.as_slice(), callback)? {
        Some(left) => Ok(left < findings),
        None => Ok(false),
    }
}

fn put_change(
    alloc: Global,
    writer: &mut Writer,
    document: &Document<'_>,
    edit: &Edit,
) -> Result<(), AllocError> {
    writer.begin_array()?;
    writer.begin_object()?;
    document.put_part(writer, "range", edit.part)?;
    put_text(alloc, writer, "newText", edit.new.as_slice())?;
    writer.end_object()?;
    writer.end_array()
}

/// An edit as an action of an editor.
pub(crate) fn put_action(
    alloc: Global,
    writer: &mut Writer,
    document: &Document<'_>,
    edit: &Edit,
) -> Result<(), AllocError> {
    writer.begin_object()?;
    put_text(alloc, writer, "title", edit.title.as_slice())?;
    put_string(writer, "kind", "quickfix")?;
    writer.key("edit")?;
    writer.begin_object()?;
    writer.key("changes")?;
    writer.begin_object()?;
    writer.key(document.uri)?;
    put_change(alloc, writer, document, edit)?;
    writer.end_object()?;
    writer.end_object()?;
    writer.end_object()
}
