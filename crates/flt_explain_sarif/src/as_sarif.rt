//! The findings in texts, as SARIF 2.1.0.

ghost use Rattle.std.specs.Prelude.{◌++◌, IfOk, List, codes};
ghost use Rattle.flt_explain_hints.specs.Telling.{title_of};
ghost use Rattle.flt_explain_parts.specs.Help.{help_of as help_with};
ghost use Rattle.flt_explain_parts.specs.Members.{Added, Adds, array_member};
ghost use Rattle.flt_explain_sarif.specs.DriftResults.{drift_results};
ghost use Rattle.flt_explain_sarif.specs.Results.{fault_result, item};
ghost use Rattle.flt_explain_sarif.specs.RunFlow.{flows_in};
ghost use Rattle.flt_explain_sarif.specs.Sarif as spec;
ghost use Rattle.flt_explain_texts.specs.Reports.{IsJudged};
ghost use Rattle.flt_syntax.specs.TextFails.{Fails};
ghost use Rattle.json.specs.Token.{Token};

use crate::artifacts::put_setting;
use crate::drift_results::put_drift_results;
use crate::results::{put_fault_result, put_results};
use crate::run_flow::FileRuns;
use crate::unread::put_invocations;
use crate::warning_results::put_warning_results;
use flt_explain::Finding;
use flt_explain_details::details;
use flt_explain_flows::FindingRun;
use flt_explain_hints::{Trouble, describe, tell};
use flt_explain_parts::{
    DriftedFile, File, close_array, close_object, drift_status, file_of, files_of, greater,
    help_of, names_of, open_array, open_line, open_object, put_key, put_string, put_tool,
    status_of, warned_of,
};
use flt_explain_texts::{Printout, Source, TextJudgement, judge};
use flt_explain_warning_details::WarningOptions;
use flt_files::UnreadFile;
use flt_graph::Graph;
use flt_places::Files;
use flt_syntax::{SyntaxFault, Tree, fails_exactly_where_nothing_is_spelled};
use json::Writer;
use std::alloc::{AllocError, Global};

// ---- the results

/// Writes the result of the first fault of a text.
fn put_trouble(
    alloc: Global,
    writer: &mut Writer,
    file: &File<'_>,
    files: &Files<'_>,
    trouble: &Trouble<'_>,
) -> Result<(), AllocError>
    ensures { Adds result writer.old writer.new (fault_result file.now trouble.now.spot.fault trouble.now.spot.bytes.now
        (title_of trouble.now) (help_with files.now trouble.now)) }
{
    let line = open_line(alloc, files, trouble)?;
    let told = tell(alloc, trouble, line.as_slice())?;
    let help = help_of(alloc, &told)?;
    put_fault_result(
        alloc,
        writer,
        file,
        trouble.spot.fault,
        trouble.spot.bytes,
        &told.title,
        &help,
    )
}

/// Writes the result of a text that doesn't parse.
fn put_unread(
    alloc: Global,
    writer: &mut Writer,
    file: &File<'_>,
    source: Source<'_>,
    fault: SyntaxFault,
) -> Result<(), AllocError>
    requires { Fails source.text.now fault }
    ensures { IfOk result (λ _. (ts : List Token) × spec.IsFaultResult file.now source.entry ts × Added writer.old writer.new ts) }
{
    fails_exactly_where_nothing_is_spelled();
    let Some(trouble) = describe(alloc, source.text)? else {
        return Ok(());
    };
    put_trouble(alloc, writer, file, &source.files, &trouble)?;
    Ok(())
}

/// Writes the results of a text of a number that parses.
fn put_known(
    alloc: Global,
    writer: &mut Writer,
    file: &File<'_>,
    runs: FileRuns<'_, '_>,
    number: usize,
    source: Source<'_>,
    tree: &Tree,
    graph: &Graph,
    found: &[Finding],
) -> Result<(), AllocError>
    ensures { IfOk result (λ _. (ts : List Token) ×
        spec.AreFindingResults file.now (flows_in runs.entry number) source.entry tree.now.filter graph.now found.now ts
        × Added writer.old writer.new ts) }
{
    let details = details(alloc, source, tree, graph, found)?;
    put_results(alloc, writer, file, graph, runs, number, details.as_slice())
}

#[tactic(auto, unfolding(crate::specs::Sarif::HasResults))]
fn put_judged(
    alloc: Global,
    writer: &mut Writer,
    file: &File<'_>,
    runs: FileRuns<'_, '_>,
    number: usize,
    source: Source<'_>,
    judged: &TextJudgement,
) -> Result<(), AllocError>
    requires { IsJudged source.text.now judged.now }
    ensures { IfOk result (λ _. (ts : List Token) × spec.HasResults file.now (flows_in runs.entry number) source.entry judged.now ts
        × Added writer.old writer.new ts) }
{
    match judged {
        TextJudgement::Unread(fault) => put_unread(alloc, writer, file, source, *fault),
        TextJudgement::Known(tree, graph, found) => put_known(
            alloc,
            writer,
            file,
            runs,
            number,
            source,
            tree,
            graph,
            found.as_slice(),
        ),
    }
}

/// Writes the results of a judged text of a number, in a document of files of these names; returns the text's status.
fn put_judged_source(
    alloc: Global,
    writer: &mut Writer,
    options: WarningOptions,
    names: &[&str],
    runs: FileRuns<'_, '_>,
    number: usize,
    source: Source<'_>,
    judged: &TextJudgement,
) -> Result<u8, AllocError>
    requires { IsJudged source.text.now judged.now }
    ensures { IfOk result (λ status. (ts : List Token) × spec.IsPart options names.now (flows_in runs.entry number) source.entry ts status
        × Added writer.old writer.new ts) }
{
    let file = file_of(alloc, names, source)?;
    let warned = warned_of(alloc, options.allowed, source, judged)?;
    put_judged(alloc, writer, &file, runs, number, source, judged)?;
    put_warning_results(alloc, writer, &file, warned.as_slice())?;
    Ok(status_of(options.is_strict, judged, warned.as_slice()))
}

/// Writes the results of the text of a number, in a document of files of these names; returns the text's status.
fn put_source(
    alloc: Global,
    writer: &mut Writer,
    options: WarningOptions,
    names: &[&str],
    runs: FileRuns<'_, '_>,
    number: usize,
    source: Source<'_>,
) -> Result<u8, AllocError>
    ensures { IfOk result (λ status. (ts : List Token) × spec.IsPart options names.now (flows_in runs.entry number) source.entry ts status
        × Added writer.old writer.new ts) }
{
    let judged = judge(alloc, source.text)?;
    put_judged_source(alloc, writer, options, names, runs, number, source, &judged)
}

/// Writes the results of several texts; returns the greatest status.
fn put_sources(
    alloc: Global,
    writer: &mut Writer,
    options: WarningOptions,
    names: &[&str],
    runs: FileRuns<'_, '_>,
    sources: &[Source<'_>],
) -> Result<u8, AllocError>
    ensures { IfOk result (λ status. (ts : List Token) × spec.AreResults options names.now (flows_in runs.entry) 0 sources.now ts status
        × Added writer.old writer.new ts) }
{
    let mut status = 0;
    for (number, source) in sources.iter().enumerate() {
        let own = put_source(alloc, writer, options, names, runs, number, *source)?;
        status = greater(status, own);
    }
    Ok(status)
}

/// Writes the results of several texts, and after them those of the drifts of C files; returns the greatest status of the texts.
fn put_all(
    alloc: Global,
    writer: &mut Writer,
    options: WarningOptions,
    names: &[&str],
    runs: FileRuns<'_, '_>,
    sources: &[Source<'_>],
    drifted: &[DriftedFile<'_>],
) -> Result<u8, AllocError>
    ensures { IfOk result (λ status. (ts : List Token) × spec.AreResults options names.now (flows_in runs.entry) 0 sources.now ts status
        × Added writer.old writer.new (ts ++ drift_results names.now drifted.now)) }
{
    let status = put_sources(alloc, writer, options, names, runs, sources)?;
    put_drift_results(alloc, writer, names, drifted)?;
    Ok(status)
}

fn put_results_member(
    alloc: Global,
    writer: &mut Writer,
    options: WarningOptions,
    names: &[&str],
    runs: FileRuns<'_, '_>,
    sources: &[Source<'_>],
    drifted: &[DriftedFile<'_>],
) -> Result<u8, AllocError>
    ensures { IfOk result (λ status. (ts : List Token) × spec.AreResults options names.now (flows_in runs.entry) 0 sources.now ts status
        × Added writer.old writer.new (array_member (codes "results") (ts ++ drift_results names.now drifted.now))) }
{
    put_key(writer, "results")?;
    open_array(writer)?;
    let status = put_all(alloc, writer, options, names, runs, sources, drifted)?;
    close_array(writer)?;
    Ok(status)
}

// ---- the whole

fn put_run_members(
    alloc: Global,
    writer: &mut Writer,
    options: WarningOptions,
    names: &[&str],
    runs: FileRuns<'_, '_>,
    sources: &[Source<'_>],
    unread: &[UnreadFile],
    drifted: &[DriftedFile<'_>],
) -> Result<u8, AllocError>
    ensures { IfOk result (λ status. (ts : List Token)
        × spec.IsRun options names.now (flows_in runs.entry) sources.now unread.now drifted.now ts status
        × Added writer.old writer.new ts) }
{
    put_tool(alloc, writer, drifted)?;
    put_setting(alloc, writer, names)?;
    let own = put_results_member(alloc, writer, options, names, runs, sources, drifted)?;
    let status = greater(own, drift_status(options.is_strict, drifted));
    put_invocations(alloc, writer, unread, status)?;
    Ok(status)
}

fn put_run(
    alloc: Global,
    writer: &mut Writer,
    options: WarningOptions,
    names: &[&str],
    runs: FileRuns<'_, '_>,
    sources: &[Source<'_>],
    unread: &[UnreadFile],
    drifted: &[DriftedFile<'_>],
) -> Result<u8, AllocError>
    ensures { IfOk result (λ status. (ts : List Token)
        × spec.IsRun options names.now (flows_in runs.entry) sources.now unread.now drifted.now ts status
        × Added writer.old writer.new (item ts)) }
{
    open_object(writer)?;
    let status = put_run_members(
        alloc, writer, options, names, runs, sources, unread, drifted,
    )?;
    close_object(writer)?;
    Ok(status)
}

fn put_runs(
    alloc: Global,
    writer: &mut Writer,
    options: WarningOptions,
    names: &[&str],
    runs: FileRuns<'_, '_>,
    sources: &[Source<'_>],
    unread: &[UnreadFile],
    drifted: &[DriftedFile<'_>],
) -> Result<u8, AllocError>
    ensures { IfOk result (λ status. (ts : List Token)
        × spec.IsRun options names.now (flows_in runs.entry) sources.now unread.now drifted.now ts status
        × Added writer.old writer.new (array_member (codes "runs") (item ts))) }
{
    put_key(writer, "runs")?;
    open_array(writer)?;
    let status = put_run(
        alloc, writer, options, names, runs, sources, unread, drifted,
    )?;
    close_array(writer)?;
    Ok(status)
}

fn put_document(
    alloc: Global,
    writer: &mut Writer,
    options: WarningOptions,
    names: &[&str],
    runs: FileRuns<'_, '_>,
    sources: &[Source<'_>],
    unread: &[UnreadFile],
    drifted: &[DriftedFile<'_>],
) -> Result<u8, AllocError>
    ensures { IfOk result (λ status. (ts : List Token)
        × spec.IsRun options names.now (flows_in runs.entry) sources.now unread.now drifted.now ts status
        × Added writer.old writer.new (spec.document ts)) }
{
    open_object(writer)?;
    put_string(
        writer,
        "$schema",
        "https://json.schemastore.org/sarif-2.1.0.json",
    )?;
    put_string(writer, "version", "2.1.0")?;
    let status = put_runs(
        alloc, writer, options, names, runs, sources, unread, drifted,
    )?;
    close_object(writer)?;
    Ok(status)
}

/// The findings and warnings of some texts, as one SARIF 2.1.0 document and a line feed: a result for each finding of a text that parses,
/// in their order, and one for a text that doesn't; then one for each of its warnings. After those of all texts come the results of the
/// drifts of C files; notes alone have none. The document has each file once, by its name as a reference, and says how the program ran,
/// with a notification for each file that isn't read. The first of `runs` that is the finding's own is the last code flow of its result.
/// The status is 0 if nothing is found, 1 if there are findings, or if warnings count and one is shown, or if they count and a C file and
/// its annotations differ, and 2 if a text doesn't parse.
///
/// # Errors
///
/// `AllocError` if a growth is refused.
#[tactic(auto, unfolding(crate::specs::Sarif::IsSarif))]
pub fn sarif<'s>(
    alloc: Global,
    options: WarningOptions,
    sources: &[Source<'s>],
    unread: &[UnreadFile],
    runs: &[FindingRun],
    drifted: &[DriftedFile<'s>],
) -> Result<Printout, AllocError>
    ensures { IfOk result (λ e. spec.IsSarif options sources.now unread.now runs.now drifted.now e.output.items e.status) }
{
    let names = names_of(alloc, sources, drifted)?;
    let files = files_of(alloc, names.as_slice(), sources)?;
    let runs = FileRuns {
        files: files.as_slice(),
        runs,
    };
    let mut writer = Writer::new(Vec::new(alloc));
    let status = put_document(
        alloc,
        &mut writer,
        options,
        names.as_slice(),
        runs,
        sources,
        unread,
        drifted,
    )?;
    let mut output = writer.into_inner();
    output.push(b'\n')?;
    Ok(Printout { output, status })
}
