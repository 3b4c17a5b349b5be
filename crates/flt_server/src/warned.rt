//! Diagnostics of warnings.

use crate::faults::{put_kind, put_rest, put_unsearched};
use crate::findings::{put_related_place, region_of};
use crate::members::{add_line, put_text};
use crate::places::Document;
use flt_explain::Finding;
use flt_explain_warning_details::{RelatedPlace, WarningDetail, warning_details};
use flt_explain_warnings::AllowedKinds;
use flt_graph::{Graph, Instruction};
use flt_syntax::{Action, Tree};
use json::Writer;
use std::alloc::{AllocError, Global};

/// The mistake, how to fix it, and a note if there is one.
fn message_of(alloc: Global, detail: &WarningDetail) -> Result<Vec<u8>, AllocError> {
    let mut out = Vec::new(alloc);
    add_line(&mut out, detail.title.as_slice())?;
    add_line(&mut out, detail.help.as_slice())?;
    add_line(&mut out, detail.note.as_slice())?;
    Ok(out)
}

fn put_related(
    alloc: Global,
    writer: &mut Writer,
    document: &Document<'_>,
    places: &[RelatedPlace],
) -> Result<(), AllocError> {
    writer.key("relatedInformation")?;
    writer.begin_array()?;
    for place in places {
        put_related_place(
            alloc,
            writer,
            document,
            region_of(&place.marks),
            place.words.as_slice(),
        )?;
    }
    writer.end_array()
}

fn put_warning(
    alloc: Global,
    writer: &mut Writer,
    document: &Document<'_>,
    detail: &WarningDetail,
) -> Result<(), AllocError> {
    let message = message_of(alloc, detail)?;
    writer.begin_object()?;
    document.put_region(writer, "range", region_of(&detail.marks))?;
    put_kind(writer, 2, detail.kind.name())?;
    put_text(alloc, writer, "message", message.as_slice())?;
    put_related(alloc, writer, document, detail.related.as_slice())?;
    writer.end_object()
}

/// How many warnings of a text are sent at most.
const MAX_WARNINGS: usize = 200;

/// How many pairs of a point and a use of a context's value a text may have. Each of them is compared.
const MAX_PAIRS: usize = 2_500_000;

fn uses_value(instruction: &Instruction) -> bool {
    match instruction {
        Instruction::Act(Action::ReadValue(_, _) | Action::WriteValue(_, _), _) => true,
        _ => false,
    }
}

/// How many uses of contexts' values a callback has.
fn uses_in(graph: &Graph, callback: usize) -> usize {
    let mut count: usize = 0;
    for point in 0..graph.points(callback) {
        if uses_value(graph.instruction_ref(callback, point)) {
            count = count.saturating_add(1);
        }
    }
    count
}

/// Whether the warnings of a text are searched for in time.
fn has_few_pairs(graph: &Graph) -> bool {
    let mut points: usize = 0;
    let mut uses: usize = 0;
    for callback in 0..graph.callbacks() {
        points = points.saturating_add(graph.points(callback));
        uses = uses.saturating_add(uses_in(graph, callback));
    }
    points.saturating_mul(uses) <= MAX_PAIRS
}

/// The warnings among some that no comment allows.
fn put_shown(
    alloc: Global,
    writer: &mut Writer,
    document: &Document<'_>,
    all: &[WarningDetail],
) -> Result<(), AllocError> {
    let mut count: usize = 0;
    let mut first = None;
    for detail in all {
        if detail.is_shown() {
            if count < MAX_WARNINGS {
                put_warning(alloc, writer, document, detail)?;
            } else if first.is_none() {
                first = Some(region_of(&detail.marks));
            }
            count = count.saturating_add(1);
        }
    }
    match first {
        Some(region) => {
            put_rest(
                alloc,
                writer,
                document,
                region,
                count.saturating_sub(MAX_WARNINGS),
            )
        }
        None => Ok(()),
    }
}

/// The diagnostics of the warnings of a text that no comment allows, as many as are sent.
pub(crate) fn put_warnings(
    alloc: Global,
    writer: &mut Writer,
    document: &Document<'_>,
    tree: &Tree,
    graph: &Graph,
    found: &[Finding],
) -> Result<(), AllocError> {
    if !has_few_pairs(graph) {
        return put_unsearched(writer, document);
    }
    let all = warning_details(
        alloc,
        document.source(),
        tree,
        graph,
        found,
        AllowedKinds::none(),
    )?;
    put_shown(alloc, writer, document, all.as_slice())
}
