//! Runs that break something because of findings, as JSON.

ghost use Rattle.std.specs.Prelude.{◌≡◌, IfOk, Some, codes, flat_map, slice_get};
ghost use Rattle.flt_explain_flows.specs.FindingRun.{at, source_of as run_source};
ghost use Rattle.flt_explain_forms.specs.Places.{region_members};
ghost use Rattle.flt_explain_forms.specs.RunMember as spec;
ghost use Rattle.flt_explain_parts.specs.Members.{Adds, object_member};

use crate::places::put_region_members;
use flt_explain_flows::{
    FindingRun, FlowActivation, FlowStep, run_of, source_of as source_of_activation,
};
use flt_explain_parts::{
    close_array, close_object, open_array, open_object, put_items, put_key, put_null, put_number,
    put_string,
};
use flt_explain_texts::Source;
use flt_places::{Files, Lines, Region};
use flt_tree::Span;
use json::Writer;
use std::alloc::{AllocError, Global};

/// The lines of a text, and its files.
#[derive(Drop)]
pub(crate) struct TextLines<'s> {
    lines: Lines<'s>,
    files: Files<'s>,
}

/// Texts, and runs of their filters that break something, if they were looked for.
#[derive(Clone, Copy)]
pub(crate) struct TextRuns<'r, 's> {
    pub(crate) sources: &'r [Source<'s>],
    /// The lines of each text, and its files, if there are runs.
    pub(crate) texts: &'r [TextLines<'s>],
    pub(crate) runs: Option<&'r [FindingRun]>,
}

/// Which of them is that of the finding of a number in the text of a number.
#[derive(Clone, Copy)]
pub(crate) struct OwnRun<'r, 's> {
    pub(crate) runs: TextRuns<'r, 's>,
    pub(crate) source: usize,
    pub(crate) finding: usize,
}

/// Writes which violation a run breaks, and by which entry.
fn put_breaks(writer: &mut Writer, run: &FindingRun) -> Result<(), AllocError>
    ensures { Adds result writer.old writer.new (spec.breaks run.now) }
{
    put_key(writer, "breaks")?;
    open_object(writer)?;
    put_string(writer, "violation", run.violation.name())?;
    put_number(writer, "entry", run.entry)?;
    close_object(writer)
}

/// Writes a number, or null.
fn put_number_or_null(
    writer: &mut Writer,
    name: &str,
    number: Option<usize>,
) -> Result<(), AllocError>
    ensures { Adds result writer.old writer.new (spec.number_or_null name.now number) }
{
    match number {
        None => put_null(writer, name),
        Some(number) => put_number(writer, name, number),
    }
}

// ---- activations

/// The text of the filter of a number of a run.
fn source_of<'s>(sources: &[Source<'s>], run: &FindingRun, tree: usize) -> Option<Source<'s>>
    ensures { result ≡ at sources.now (slice_get run.now.sources tree) }
{
    match run.sources.as_slice().get(tree) {
        None => None,
        Some(number) => sources.get(*number).copied(),
    }
}

/// Writes the name of a text, or null.
fn put_file(writer: &mut Writer, source: Option<Source<'_>>) -> Result<(), AllocError>
    ensures { Adds result writer.old writer.new (spec.file_member source.entry) }
{
    match source {
        None => put_null(writer, "file"),
        Some(source) => put_string(writer, "file", source.name()),
    }
}

fn put_activation(
    alloc: Global,
    writer: &mut Writer,
    sources: &[Source<'_>],
    run: &FindingRun,
    activation: &FlowActivation,
) -> Result<(), AllocError>
    ensures { Adds result writer.old writer.new (spec.activation sources.now run.now activation.now) }
{
    open_object(writer)?;
    put_file(writer, source_of(sources, run, activation.tree))?;
    put_number(writer, "callback", activation.callback)?;
    put_number_or_null(writer, "operation", activation.operation)?;
    put_items(alloc, writer, "name", &activation.name)?;
    close_object(writer)
}

fn put_each_activation(
    alloc: Global,
    writer: &mut Writer,
    sources: &[Source<'_>],
    run: &FindingRun,
) -> Result<(), AllocError>
    ensures { Adds result writer.old writer.new (flat_map (spec.activation sources.now run.now) run.now.flow.activations) }
{
    for activation in run.flow.activations.as_slice() {
        put_activation(alloc, writer, sources, run, activation)?;
    }
    Ok(())
}

/// Writes the activations of a run, in their order.
fn put_activations(
    alloc: Global,
    writer: &mut Writer,
    sources: &[Source<'_>],
    run: &FindingRun,
) -> Result<(), AllocError>
    ensures { Adds result writer.old writer.new (spec.activations sources.now run.now) }
{
    put_key(writer, "activations")?;
    open_array(writer)?;
    put_each_activation(alloc, writer, sources, run)?;
    close_array(writer)
}

// ---- entries

fn put_region(writer: &mut Writer, files: &Files<'_>, region: Region) -> Result<(), AllocError>
    ensures { Adds result writer.old writer.new (object_member (codes "place") (region_members files.now 0 region)) }
{
    put_key(writer, "place")?;
    open_object(writer)?;
    put_region_members(writer, files, 0, region)?;
    close_object(writer)
}

/// Writes where something is in a text, or null.
fn put_span(writer: &mut Writer, text: &TextLines<'_>, span: Option<Span>) -> Result<(), AllocError>
    ensures { Adds result writer.old writer.new (spec.region_in text.now span) }
{
    match span {
        None => put_null(writer, "place"),
        Some(span) => put_region(writer, &text.files, text.lines.region(span)),
    }
}

/// Writes where an entry is, in the text of its activation, or null.
fn put_place(
    writer: &mut Writer,
    texts: &[TextLines<'_>],
    run: &FindingRun,
    step: &FlowStep,
) -> Result<(), AllocError>
    ensures { Adds result writer.old writer.new (spec.place_member (at texts.now (run_source run.now step.now.activation)) step.now.span) }
{
    let Some(number) = source_of_activation(run, step.activation) else {
        return put_null(writer, "place");
    };
    match texts.get(number) {
        None => put_null(writer, "place"),
        Some(text) => put_span(writer, text, step.span),
    }
}

fn put_entry(
    alloc: Global,
    writer: &mut Writer,
    texts: &[TextLines<'_>],
    run: &FindingRun,
    step: &FlowStep,
) -> Result<(), AllocError>
    ensures { Adds result writer.old writer.new (spec.entry texts.now run.now step.now) }
{
    open_object(writer)?;
    put_number(writer, "entry", step.entry)?;
    put_number_or_null(writer, "activation", step.activation)?;
    put_place(writer, texts, run, step)?;
    put_items(alloc, writer, "words", &step.words)?;
    close_object(writer)
}

fn put_each_entry(
    alloc: Global,
    writer: &mut Writer,
    texts: &[TextLines<'_>],
    run: &FindingRun,
) -> Result<(), AllocError>
    ensures { Adds result writer.old writer.new (flat_map (spec.entry texts.now run.now) run.now.flow.steps) }
{
    for step in run.flow.steps.as_slice() {
        put_entry(alloc, writer, texts, run, step)?;
    }
    Ok(())
}

/// Writes the entries of a run, in their order.
fn put_entries(
    alloc: Global,
    writer: &mut Writer,
    texts: &[TextLines<'_>],
    run: &FindingRun,
) -> Result<(), AllocError>
    ensures { Adds result writer.old writer.new (spec.entries texts.now run.now) }
{
    put_key(writer, "entries")?;
    open_array(writer)?;
    put_each_entry(alloc, writer, texts, run)?;
    close_array(writer)
}

// ---- the run

/// The lines of a text, and its files.
fn lines_of<'s>(alloc: Global, source: Source<'s>) -> Result<TextLines<'s>, AllocError>
    ensures { IfOk result (λ text. text ≡ spec.lines_of source.entry) }
{
    let lines = Lines::of(alloc, source.text)?;
    let files = source.files;
    Ok(TextLines { lines, files })
}

/// The lines of each text, and its files.
pub(crate) fn texts_in<'s>(
    alloc: Global,
    sources: &[Source<'s>],
) -> Result<Vec<TextLines<'s>>, AllocError>
    ensures { IfOk result (λ texts. texts.items ≡ spec.texts_of sources.now) }
{
    let mut texts = Vec::new(alloc);
    for source in sources {
        let text = lines_of(alloc, *source)?;
        texts.push(text)?;
    }
    Ok(texts)
}

fn put_run(
    alloc: Global,
    writer: &mut Writer,
    sources: &[Source<'_>],
    texts: &[TextLines<'_>],
    run: &FindingRun,
) -> Result<(), AllocError>
    ensures { Adds result writer.old writer.new (spec.run_member sources.now texts.now (Some run.now)) }
{
    put_key(writer, "run")?;
    open_object(writer)?;
    put_breaks(writer, run)?;
    put_activations(alloc, writer, sources, run)?;
    put_entries(alloc, writer, texts, run)?;
    close_object(writer)
}

/// Writes the run of a finding of a text, or null, if runs were looked for.
pub(crate) fn put_run_member(
    alloc: Global,
    writer: &mut Writer,
    own: OwnRun<'_, '_>,
) -> Result<(), AllocError>
    ensures { Adds result writer.old writer.new (spec.member_of own.entry) }
{
    let Some(runs) = own.runs.runs else {
        return Ok(());
    };
    match run_of(runs, own.source, own.finding) {
        None => put_null(writer, "run"),
        Some(run) => put_run(alloc, writer, own.runs.sources, own.runs.texts, run),
    }
}
