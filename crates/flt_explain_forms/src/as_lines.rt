//! The findings in texts, line by line.

ghost use Rattle.std.specs.Prelude.{◌≡◌, ◌++◌, [], IfOk, List, ℕ};
ghost use Rattle.flt_explain_forms.specs.Fault.{IsFaultLine, fault};
ghost use Rattle.flt_explain_forms.specs.Lines as spec;
ghost use Rattle.flt_explain_forms.specs.RunMember.{members_in, no_member, own_member};
ghost use Rattle.flt_explain_hints.specs.Telling.{title_of};
ghost use Rattle.flt_explain_parts.specs.Help.{help_of as help_with};
ghost use Rattle.flt_explain_parts.specs.Members.{line_of};
ghost use Rattle.flt_explain_texts.specs.Reports.{IsJudged};
ghost use Rattle.flt_syntax.specs.TextFails.{Fails};

use crate::clean::put_clean_lines;
use crate::fault::put_fault_line;
use crate::finding::put_lines;
use crate::run_member::{TextRuns, texts_in};
use crate::short::{put_short_fault, put_short_lines, put_short_warnings};
use crate::warning::put_warnings;
use flt_explain::Finding;
use flt_explain_details::details;
use flt_explain_flows::FindingRun;
use flt_explain_hints::{Trouble, describe, tell};
use flt_explain_parts::{greater, help_of, open_line, status_of, warned_of};
use flt_explain_texts::{Printout, Source, TextJudgement, judge};
use flt_explain_warning_details::{WarningDetail, WarningOptions};
use flt_graph::Graph;
use flt_places::{Files, Lines};
use flt_syntax::{SyntaxFault, Tree, fails_exactly_where_nothing_is_spelled};
use std::alloc::{AllocError, Global};

/// The style of a line.
#[derive(Clone, Copy, Debug)]
pub enum Style {
    /// A JSON object.
    Object,
    /// A sentence after the file's name, its line and its column, as compilers print it.
    Sentence,
}

/// Adds the line of the first fault of a text to the output.
fn put_trouble(
    alloc: Global,
    out: Vec<u8>,
    files: &Files<'_>,
    trouble: &Trouble<'_>,
) -> Result<Vec<u8>, AllocError>
    ensures { IfOk result (λ v. v.items ≡ out.items
        ++ line_of (fault files.now trouble.now (title_of trouble.now) (help_with files.now trouble.now))) }
{
    let line = open_line(alloc, files, trouble)?;
    let told = tell(alloc, trouble, line.as_slice())?;
    let help = help_of(alloc, &told)?;
    put_fault_line(alloc, out, files, trouble, &told, &help)
}

/// Adds the line of a text that doesn't parse to the output.
fn unread(
    alloc: Global,
    out: Vec<u8>,
    source: Source<'_>,
    fault: SyntaxFault,
) -> Result<Vec<u8>, AllocError>
    requires { Fails source.text.now fault }
    ensures { IfOk result (λ v. (printed : List ℕ) × IsFaultLine source.entry.files source.entry.text.now printed
        × (v.items ≡ out.items ++ printed)) }
{
    fails_exactly_where_nothing_is_spelled();
    let Some(trouble) = describe(alloc, source.text)? else {
        return Ok(out);
    };
    let written = put_trouble(alloc, out, &source.files, &trouble)?;
    Ok(written)
}

/// Adds the lines of the findings in a text of a number that parses to the output.
fn known(
    alloc: Global,
    out: Vec<u8>,
    runs: TextRuns<'_, '_>,
    number: usize,
    source: Source<'_>,
    tree: &Tree,
    graph: &Graph,
    found: &[Finding],
) -> Result<Vec<u8>, AllocError>
    ensures { IfOk result (λ v. (printed : List ℕ) ×
        spec.AreFindingLines source.entry.files (members_in runs.entry number) source.entry.text.now tree.now.filter graph.now
        found.now printed
        × (v.items ≡ out.items ++ printed)) }
{
    let details = details(alloc, source, tree, graph, found)?;
    let lines = Lines::of(alloc, source.text)?;
    put_lines(
        alloc,
        out,
        &source.files,
        &lines,
        graph,
        runs,
        number,
        details.as_slice(),
    )
}

fn put_judged(
    alloc: Global,
    out: Vec<u8>,
    style: Style,
    runs: TextRuns<'_, '_>,
    number: usize,
    source: Source<'_>,
    judged: &TextJudgement,
) -> Result<Vec<u8>, AllocError>
    requires { IsJudged source.text.now judged.now }
    ensures { IfOk result (λ v. (printed : List ℕ) × spec.IsPrinted style (members_in runs.entry number) source.entry judged.now printed
        × (v.items ≡ out.items ++ printed)) }
{
    match (style, judged) {
        (Style::Object, TextJudgement::Unread(fault)) => unread(alloc, out, source, *fault),
        (Style::Object, TextJudgement::Known(tree, graph, found)) => {
            known(
                alloc,
                out,
                runs,
                number,
                source,
                tree,
                graph,
                found.as_slice(),
            )
        }
        (Style::Sentence, TextJudgement::Unread(fault)) => put_short_fault(
            alloc, out, source, *fault,
        ),
        (Style::Sentence, TextJudgement::Known(tree, graph, found)) => {
            put_short_lines(alloc, out, source, tree, graph, found.as_slice())
        }
    }
}

/// Adds a line for each warning to the output.
fn put_warned(
    alloc: Global,
    out: Vec<u8>,
    style: Style,
    files: &Files<'_>,
    warned: &[WarningDetail],
) -> Result<Vec<u8>, AllocError>
    ensures { IfOk result (λ v. v.items ≡ out.items ++ spec.warning_lines style files.now warned.now) }
{
    match style {
        Style::Object => put_warnings(alloc, out, files, warned),
        Style::Sentence => put_short_warnings(alloc, out, files, warned),
    }
}

/// Adds the lines of a judged text of a number to the output; returns the text's status, too.
fn put_judged_source(
    alloc: Global,
    out: Vec<u8>,
    style: Style,
    options: WarningOptions,
    runs: TextRuns<'_, '_>,
    number: usize,
    source: Source<'_>,
    judged: &TextJudgement,
) -> Result<Printout, AllocError>
    requires { IsJudged source.text.now judged.now }
    ensures { IfOk result (λ e. (printed : List ℕ) × spec.IsPart style options (members_in runs.entry number) source.entry printed e.status
        × (e.output.items ≡ out.items ++ printed)) }
{
    let warned = warned_of(alloc, options.allowed, source, judged)?;
    let first = put_judged(alloc, out, style, runs, number, source, judged)?;
    let shown = put_warned(alloc, first, style, &source.files, warned.as_slice())?;
    let output = put_clean_lines(shown, style, source.name(), judged, warned.as_slice())?;
    Ok(Printout {
        output,
        status: status_of(options.is_strict, judged, warned.as_slice()),
    })
}

/// Adds the lines of the text of a number to the output; returns the text's status, too.
fn put_source(
    alloc: Global,
    out: Vec<u8>,
    style: Style,
    options: WarningOptions,
    runs: TextRuns<'_, '_>,
    number: usize,
    source: Source<'_>,
) -> Result<Printout, AllocError>
    ensures { IfOk result (λ e. (printed : List ℕ) × spec.IsPart style options (members_in runs.entry number) source.entry printed e.status
        × (e.output.items ≡ out.items ++ printed)) }
{
    let judged = judge(alloc, source.text)?;
    put_judged_source(alloc, out, style, options, runs, number, source, &judged)
}

/// Adds the lines of several texts to the output; returns the greatest status, too.
fn put_sources(
    alloc: Global,
    out: Vec<u8>,
    style: Style,
    options: WarningOptions,
    runs: TextRuns<'_, '_>,
    sources: &[Source<'_>],
) -> Result<Printout, AllocError>
    ensures { IfOk result (λ e.
        spec.AreLinesFrom style options (members_in runs.entry) 0 sources.now out.items e.output.items e.status) }
{
    let mut told = Printout {
        output: out,
        status: 0,
    };
    for (number, source) in sources.iter().enumerate() {
        let before = told.status;
        let one = put_source(alloc, told.output, style, options, runs, number, *source)?;
        told = Printout {
            output: one.output,
            status: greater(before, one.status),
        };
    }
    Ok(told)
}

/// The lines of some texts, with the runs of their findings.
fn with_runs(
    alloc: Global,
    style: Style,
    options: WarningOptions,
    sources: &[Source<'_>],
    runs: &[FindingRun],
) -> Result<Printout, AllocError>
    ensures { IfOk result (λ e.
        spec.AreLinesFrom style options (own_member sources.now runs.now) 0 sources.now [] e.output.items e.status) }
{
    let texts = texts_in(alloc, sources)?;
    let runs = TextRuns {
        sources,
        texts: texts.as_slice(),
        runs: Some(runs),
    };
    put_sources(alloc, Vec::new(alloc), style, options, runs, sources)
}

/// The lines of some texts, without a word on runs.
fn without_runs(
    alloc: Global,
    style: Style,
    options: WarningOptions,
    sources: &[Source<'_>],
) -> Result<Printout, AllocError>
    ensures { IfOk result (λ e. spec.AreLinesFrom style options no_member 0 sources.now [] e.output.items e.status) }
{
    let runs = TextRuns {
        sources,
        texts: &[],
        runs: None,
    };
    put_sources(alloc, Vec::new(alloc), style, options, runs, sources)
}

/// The findings and warnings of some texts, line by line: a line for each finding of a text that parses, in their order, and one for a text
/// that doesn't; then one for each of its warnings; and, with objects, one for a text that has none of these. docs/FORMATS.md says how they
/// are written. If there are `runs`, the object of a finding has the first one that is its own, or null. The status is that of `explain`: 0
/// if nothing is found, 1 if there are findings, or if warnings count and one is shown, 2 if a text doesn't parse.
///
/// # Errors
///
/// `AllocError` if a growth is refused.
pub fn lines(
    alloc: Global,
    style: Style,
    options: WarningOptions,
    sources: &[Source<'_>],
    runs: Option<&[FindingRun]>,
) -> Result<Printout, AllocError>
    ensures { IfOk result (λ e. spec.AreLines style options sources.now runs.entry e.output.items e.status) }
{
    match runs {
        None => without_runs(alloc, style, options, sources),
        Some(runs) => with_runs(alloc, style, options, sources, runs),
    }
}
