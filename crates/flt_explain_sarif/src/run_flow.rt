//! Runs that break something because of findings, as code flows of SARIF.

ghost use Rattle.std.specs.Prelude.{◌≡◌, IfOk, Some, codes, flat_map};
ghost use Rattle.flt_explain_flows.specs.FindingRun.{at, source_of as run_source};
ghost use Rattle.flt_explain_parts.specs.Counted.{counted};
ghost use Rattle.flt_explain_parts.specs.Members.{Adds, array_member};
ghost use Rattle.flt_explain_sarif.specs.Results.{message};
ghost use Rattle.flt_explain_sarif.specs.RunFlow as spec;

use crate::results::{put_artifact, put_whole_region};
use flt_explain_flows::{FindingRun, FlowActivation, FlowStep, run_of, source_of};
use flt_explain_parts::{
    File, close_array, close_object, open_array, open_object, put_bytes, put_items, put_key,
    put_number, put_string,
};
use flt_model::Violation;
use flt_places::Region;
use flt_tree::Span;
use json::Writer;
use sqlite_items::Items;
use std::alloc::{AllocError, Global};
use std::fmt;

/// The files of a document, and runs of their filters that break something.
#[derive(Clone, Copy)]
pub(crate) struct FileRuns<'r, 's> {
    pub(crate) files: &'r [File<'s>],
    pub(crate) runs: &'r [FindingRun],
}

/// Which of them is that of the finding of a number in the text of a number.
#[derive(Clone, Copy)]
pub(crate) struct OwnFlow<'r, 's> {
    pub(crate) runs: FileRuns<'r, 's>,
    pub(crate) source: usize,
    pub(crate) finding: usize,
}

// ---- places

fn put_region(
    alloc: Global,
    writer: &mut Writer,
    file: &File<'_>,
    region: Region,
) -> Result<(), AllocError>
    ensures { Adds result writer.old writer.new (spec.whole_place file.now region) }
{
    put_key(writer, "physicalLocation")?;
    open_object(writer)?;
    put_artifact(alloc, writer, file, region.first.line)?;
    put_whole_region(writer, "region", file, region)?;
    close_object(writer)
}

/// Writes where something is in a file, if it is anywhere.
fn put_span(
    alloc: Global,
    writer: &mut Writer,
    file: &File<'_>,
    span: Option<Span>,
) -> Result<(), AllocError>
    ensures { Adds result writer.old writer.new (spec.region_in file.now span) }
{
    match span {
        None => Ok(()),
        Some(span) => put_region(alloc, writer, file, file.lines.region(span)),
    }
}

/// Writes where an entry is, in the file of its activation.
fn put_place(
    alloc: Global,
    writer: &mut Writer,
    files: &[File<'_>],
    run: &FindingRun,
    step: &FlowStep,
) -> Result<(), AllocError>
    ensures { Adds result writer.old writer.new (spec.place_in (at files.now (run_source run.now step.now.activation)) step.now.span) }
{
    let Some(number) = source_of(run, step.activation) else {
        return Ok(());
    };
    match files.get(number) {
        None => Ok(()),
        Some(file) => put_span(alloc, writer, file, step.span),
    }
}

fn put_words(alloc: Global, writer: &mut Writer, words: &Items<u8>) -> Result<(), AllocError>
    ensures { Adds result writer.old writer.new (message words.now) }
{
    put_key(writer, "message")?;
    open_object(writer)?;
    put_items(alloc, writer, "text", words)?;
    close_object(writer)
}

fn put_location(
    alloc: Global,
    writer: &mut Writer,
    files: &[File<'_>],
    run: &FindingRun,
    step: &FlowStep,
) -> Result<(), AllocError>
    ensures { Adds result writer.old writer.new (spec.step_location files.now run.now step.now) }
{
    put_key(writer, "location")?;
    open_object(writer)?;
    put_place(alloc, writer, files, run, step)?;
    put_words(alloc, writer, &step.words)?;
    close_object(writer)
}

/// Writes an entry of a run.
fn put_entry(
    alloc: Global,
    writer: &mut Writer,
    files: &[File<'_>],
    run: &FindingRun,
    step: &FlowStep,
) -> Result<(), AllocError>
    ensures { Adds result writer.old writer.new (spec.flow_entry files.now run.now step.now) }
{
    open_object(writer)?;
    put_location(alloc, writer, files, run, step)?;
    put_number(writer, "executionOrder", step.entry)?;
    close_object(writer)
}

// ---- threads

/// Whether an entry is of an activation, or of none.
fn is_on(activation: Option<usize>, step: &FlowStep) -> bool
    ensures { result ≡ spec.is_on activation step.now }
{
    activation == step.activation
}

/// Writes an entry, if it is of an activation.
fn put_entry_on(
    alloc: Global,
    writer: &mut Writer,
    files: &[File<'_>],
    run: &FindingRun,
    activation: Option<usize>,
    step: &FlowStep,
) -> Result<(), AllocError>
    ensures { Adds result writer.old writer.new (spec.entry_on files.now run.now activation step.now) }
{
    if is_on(activation, step) {
        return put_entry(alloc, writer, files, run, step);
    }
    Ok(())
}

/// Whether an entry is of an activation.
fn has_entry(activation: Option<usize>, steps: &[FlowStep]) -> bool
    ensures { result ≡ spec.has_entry activation steps.now }
{
    for step in steps {
        if is_on(activation, step) {
            return true;
        }
    }
    false
}

fn put_each(
    alloc: Global,
    writer: &mut Writer,
    files: &[File<'_>],
    run: &FindingRun,
    activation: Option<usize>,
) -> Result<(), AllocError>
    ensures { Adds result writer.old writer.new (flat_map (spec.entry_on files.now run.now activation) run.now.flow.steps) }
{
    for step in run.flow.steps.as_slice() {
        put_entry_on(alloc, writer, files, run, activation, step)?;
    }
    Ok(())
}

/// Writes the entries of an activation, in their order.
fn put_locations(
    alloc: Global,
    writer: &mut Writer,
    files: &[File<'_>],
    run: &FindingRun,
    activation: Option<usize>,
) -> Result<(), AllocError>
    ensures { Adds result writer.old writer.new
        (array_member (codes "locations") (flat_map (spec.entry_on files.now run.now activation) run.now.flow.steps)) }
{
    put_key(writer, "locations")?;
    open_array(writer)?;
    put_each(alloc, writer, files, run, activation)?;
    close_array(writer)
}

fn put_whole_thread(
    alloc: Global,
    writer: &mut Writer,
    files: &[File<'_>],
    run: &FindingRun,
    activation: Option<usize>,
    name: &[u8],
) -> Result<(), AllocError>
    ensures { Adds result writer.old writer.new (spec.whole_thread files.now run.now activation name.now) }
{
    open_object(writer)?;
    put_bytes(alloc, writer, "id", Some(name))?;
    put_locations(alloc, writer, files, run, activation)?;
    close_object(writer)
}

/// Writes the entries of an activation under its name, if it has some.
fn put_thread(
    alloc: Global,
    writer: &mut Writer,
    files: &[File<'_>],
    run: &FindingRun,
    activation: Option<usize>,
    name: &[u8],
) -> Result<(), AllocError>
    ensures { Adds result writer.old writer.new (spec.thread files.now run.now activation name.now) }
{
    if has_entry(activation, run.flow.steps.as_slice()) {
        return put_whole_thread(alloc, writer, files, run, activation, name);
    }
    Ok(())
}

/// The number and the name of an activation.
fn thread_name(alloc: Global, number: usize, name: &[u8]) -> Result<Vec<u8>, AllocError>
    ensures { IfOk result (λ words. words.items ≡ spec.thread_name number name.now) }
{
    let mut words = format!(in alloc; "{number}")?.into_bytes();
    words.extend_from_slice(b": ")?;
    words.extend_from_slice(name)?;
    Ok(words)
}

/// Writes the entries of the activation of a number.
fn put_thread_of(
    alloc: Global,
    writer: &mut Writer,
    files: &[File<'_>],
    run: &FindingRun,
    number: usize,
    activation: &FlowActivation,
) -> Result<(), AllocError>
    ensures { Adds result writer.old writer.new (spec.thread_of files.now run.now number activation.now) }
{
    let name = thread_name(alloc, number, activation.name.as_slice())?;
    put_thread(alloc, writer, files, run, Some(number), name.as_slice())
}

/// Writes the entries of each of some activations.
fn put_named(
    alloc: Global,
    writer: &mut Writer,
    files: &[File<'_>],
    run: &FindingRun,
    activations: &[FlowActivation],
) -> Result<(), AllocError>
    ensures { Adds result writer.old writer.new (counted (spec.thread_of files.now run.now) 0 activations.now) }
{
    for (number, activation) in activations.iter().enumerate() {
        put_thread_of(alloc, writer, files, run, number, activation)?;
    }
    Ok(())
}

fn put_threads(
    alloc: Global,
    writer: &mut Writer,
    files: &[File<'_>],
    run: &FindingRun,
) -> Result<(), AllocError>
    ensures { Adds result writer.old writer.new (spec.threads files.now run.now) }
{
    put_thread(alloc, writer, files, run, None, b"machine")?;
    put_named(alloc, writer, files, run, run.flow.activations.as_slice())
}

fn put_thread_flows(
    alloc: Global,
    writer: &mut Writer,
    files: &[File<'_>],
    run: &FindingRun,
) -> Result<(), AllocError>
    ensures { Adds result writer.old writer.new (array_member (codes "threadFlows") (spec.threads files.now run.now)) }
{
    put_key(writer, "threadFlows")?;
    open_array(writer)?;
    put_threads(alloc, writer, files, run)?;
    close_array(writer)
}

// ---- the run

/// The violation in a run, and the number of the entry that makes it.
#[derive(Drop)]
struct RunWords(Violation, usize);

impl fmt::Display for RunWords {
    ghost output = { λ r. Some (spec.words_of r.0 r.1) };

    fn fmt<W: fmt::Write>(&self, f: &mut fmt::Formatter<W>) -> fmt::Result {
        let violation = self.0.name();
        let entry = self.1;
        write!(f, "a run that breaks {violation} at entry {entry}")
    }
}

fn put_broken(alloc: Global, writer: &mut Writer, run: &FindingRun) -> Result<(), AllocError>
    ensures { Adds result writer.old writer.new (spec.broken run.now) }
{
    let words = RunWords(run.violation, run.entry);
    let words = format!(in alloc; "{words}")?;
    put_key(writer, "message")?;
    open_object(writer)?;
    put_string(writer, "text", words.as_str())?;
    close_object(writer)
}

fn put_flow_of_run(
    alloc: Global,
    writer: &mut Writer,
    files: &[File<'_>],
    run: &FindingRun,
) -> Result<(), AllocError>
    ensures { Adds result writer.old writer.new (spec.flow_of_run files.now run.now) }
{
    open_object(writer)?;
    put_broken(alloc, writer, run)?;
    put_thread_flows(alloc, writer, files, run)?;
    close_object(writer)
}

/// Writes the run of a finding, if it has one.
pub(crate) fn put_run_flow(
    alloc: Global,
    writer: &mut Writer,
    own: OwnFlow<'_, '_>,
) -> Result<(), AllocError>
    ensures { Adds result writer.old writer.new (spec.flow_of own.entry) }
{
    match run_of(own.runs.runs, own.source, own.finding) {
        None => Ok(()),
        Some(run) => put_flow_of_run(alloc, writer, own.runs.files, run),
    }
}
