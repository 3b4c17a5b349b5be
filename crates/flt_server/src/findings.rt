//! Diagnostics of findings.

use crate::faults::{put_kind, put_rest};
use crate::members::{add_line, put_text};
use crate::places::{Document, region_of as region_of_part};
use flt_explain::Finding;
use flt_explain_advice::Words;
use flt_explain_details::{Detail, Maker, details};
use flt_explain_texts::Marks;
use flt_graph::Graph;
use flt_places::Region;
use flt_server_outline::Part;
use flt_syntax::Tree;
use json::Writer;
use std::alloc::{AllocError, Global};

/// The place of the operand, or of its statement.
pub(crate) fn region_of(marks: &Marks) -> Region {
    marks.operand.unwrap_or(marks.statement)
}

/// The mistake, how to fix it, and a note if there is one.
fn message_of(alloc: Global, words: &Words) -> Result<Vec<u8>, AllocError> {
    let mut out = Vec::new(alloc);
    add_line(&mut out, words.title.as_slice())?;
    add_line(&mut out, words.help.as_slice())?;
    add_line(&mut out, words.note.as_slice())?;
    Ok(out)
}

/// Another place, with words for it.
pub(crate) fn put_related_place(
    alloc: Global,
    writer: &mut Writer,
    document: &Document<'_>,
    region: Region,
    words: &[u8],
) -> Result<(), AllocError> {
    writer.begin_object()?;
    writer.key("location")?;
    document.put_location(writer, region)?;
    put_text(alloc, writer, "message", words)?;
    writer.end_object()
}

/// The words for the step that caused a finding.
fn maker_words(maker: &Maker) -> &[u8] {
    let words = maker.stage.words.as_slice();
    if words.is_empty() {
        b"it comes from here"
    } else {
        words
    }
}

/// The step that caused a finding, if one is known.
fn put_origin(
    alloc: Global,
    writer: &mut Writer,
    document: &Document<'_>,
    origin: &Option<Maker>,
) -> Result<(), AllocError> {
    let Some(maker) = origin else {
        return Ok(());
    };
    writer.key("relatedInformation")?;
    writer.begin_array()?;
    put_related_place(
        alloc,
        writer,
        document,
        region_of(&maker.marks),
        maker_words(maker),
    )?;
    writer.end_array()
}

fn put_rule(writer: &mut Writer, finding: &Finding) -> Result<(), AllocError> {
    put_kind(writer, 1, finding.rule.name())
}

fn put_finding(
    alloc: Global,
    writer: &mut Writer,
    document: &Document<'_>,
    detail: &Detail,
) -> Result<(), AllocError> {
    let message = message_of(alloc, &detail.words)?;
    writer.begin_object()?;
    document.put_region(writer, "range", region_of(&detail.marks))?;
    put_rule(writer, &detail.finding)?;
    put_text(alloc, writer, "message", message.as_slice())?;
    put_origin(alloc, writer, document, &detail.route.origin)?;
    writer.end_object()
}

/// How many findings of a text are sent at most.
const MAX_FINDINGS: usize = 200;

/// How many points their paths may have: a path to each is searched for.
const MAX_POINTS: usize = 6_000;

/// How many findings are sent: the first, of which each adds the points of its callback up to its own.
fn sent_count(found: &[Finding]) -> usize {
    let mut points: usize = 0;
    let mut count: usize = 0;
    for finding in found {
        points = points.saturating_add(finding.point).saturating_add(1);
        if count == MAX_FINDINGS || MAX_POINTS < points && 0 < count {
            return count;
        }
        count = count.saturating_add(1);
    }
    count
}

/// The diagnostic that says how many findings aren't sent, at the first of them.
fn put_unsent(
    alloc: Global,
    writer: &mut Writer,
    document: &Document<'_>,
    graph: &Graph,
    found: &[Finding],
) -> Result<(), AllocError> {
    match found {
        [first, ..] => {
            let span = graph.span(first.callback, first.point);
            let part = Part {
                start: span.start,
                end: span.end,
            };
            put_rest(
                alloc,
                writer,
                document,
                region_of_part(&document.lines, part),
                found.len(),
            )
        }
        [] => Ok(()),
    }
}

/// The diagnostics of the findings of a text, as many as are sent.
pub(crate) fn put_findings(
    alloc: Global,
    writer: &mut Writer,
    document: &Document<'_>,
    tree: &Tree,
    graph: &Graph,
    found: &[Finding],
) -> Result<(), AllocError> {
    let count = sent_count(found).min(found.len());
    let details = details(alloc, document.source(), tree, graph, &found[..count])?;
    for detail in details.as_slice() {
        put_finding(alloc, writer, document, detail)?;
    }
    put_unsent(alloc, writer, document, graph, &found[count..])
}
