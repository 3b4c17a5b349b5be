//! The report of a text without findings: its promise, and its warnings.

ghost use Rattle.std.specs.Prelude.{◌≡◌, ◌++◌, IfOk, OnOk, Some, string_bytes};
ghost use Rattle.flt_explain_runs.specs.Warned.{warned_of};
ghost use Rattle.flt_explain_runs.specs.Warnings as spec;

use crate::deadlocks::run_lines;
use crate::lines::plural;
use crate::warned::WarnedText;
use flt_explain_reports::{report_nothing, report_warning};
use flt_explain_warning_details::{WarningDetail, shown_count};
use flt_search::SearchWatch;
use std::alloc::{AllocError, Global};
use std::fmt;

/// The report of a warning, with the run to the deadlock that it is about.
fn report_with_run<W: SearchWatch>(
    text: &WarnedText<'_>,
    detail: &WarningDetail,
    watch: &mut W,
) -> Result<Vec<u8>, AllocError>
    ensures { IfOk result (λ printed. spec.IsReportWithRun (warned_of text.now) detail.now printed.items) }
{
    let mut printed = report_warning(text.alloc, text.coloured, text.files, text.lines, detail)?;
    let below = run_lines(text, detail.circle.as_slice(), watch)?;
    printed.extend_from_slice(below.as_slice())?;
    Ok(printed)
}

/// The same, unless a comment of the text allows the warning.
fn shown_report<W: SearchWatch>(
    text: &WarnedText<'_>,
    detail: &WarningDetail,
    watch: &mut W,
) -> Result<Vec<u8>, AllocError>
    ensures { IfOk result (λ printed. spec.IsShownReport (warned_of text.now) detail.now printed.items) }
{
    if detail.is_shown() {
        report_with_run(text, detail, watch)
    } else {
        Ok(Vec::new(text.alloc))
    }
}

/// The reports of the warnings that no comment allows, one below the other.
fn shown_reports<W: SearchWatch>(
    text: &WarnedText<'_>,
    details: &[WarningDetail],
    watch: &mut W,
) -> Result<Vec<u8>, AllocError>
    ensures { IfOk result (λ out. spec.AreShownReports (warned_of text.now) details.now out.items) }
{
    let mut out = Vec::new(text.alloc);
    for detail in details {
        let report = shown_report(text, detail, watch)?;
        out.extend_from_slice(report.as_slice())?;
    }
    Ok(out)
}

/// How many warnings there are.
#[derive(Drop)]
struct WarningCount(usize);

impl fmt::Display for WarningCount {
    ghost output = { λ c. Some (spec.warning_count c.0) };

    fn fmt<W: fmt::Write>(&self, f: &mut fmt::Formatter<W>) -> fmt::Result {
        let count = self.0;
        let many = plural(count);
        write!(f, "{count} warning{many}")
    }
}

/// The line that says how many warnings there are; empty if there are none.
fn warnings_line(alloc: Global, count: usize) -> Result<String, AllocError>
    ensures { IfOk result (λ line. string_bytes line ≡ spec.warnings_line count) }
{
    if count == 0 {
        return Ok(String::new(alloc));
    }
    let line = WarningCount(count);
    format!(in alloc; "{line}\n")
}

/// The promise of a text without findings, the reports of its warnings that no comment allows, and how many these are, in whole lines.
///
/// # Errors
///
/// If memory is refused, or a number or a count would reach 2^32.
pub(crate) fn promise_and_warnings<W: SearchWatch>(
    text: &WarnedText<'_>,
    details: &[WarningDetail],
    watch: &mut W,
) -> Result<Vec<u8>, AllocError>
    ensures { IfOk result (λ out. spec.ArePromised (warned_of text.now) details.now out.items) }
{
    let mut out = report_nothing(text.alloc, text.files)?;
    let reports = shown_reports(text, details, watch)?;
    let count = warnings_line(text.alloc, shown_count(details))?;
    out.extend_from_slice(reports.as_slice())?;
    out.extend_from_slice(count.as_bytes())?;
    Ok(out)
}
