//! The lines on the outcome of a finding if one more callback sets the contexts that nothing in its text sets.

ghost use Rattle.std.specs.Prelude.{◌≡◌, Some, IfOk, string_bytes};
ghost use Rattle.flt_explain_runs.specs.Lines as lines_of;
ghost use Rattle.flt_explain_runs.specs.Rows as rows;

use crate::lines::{again_line, run_rows};
use crate::parts::RunLines;
use flt_explain_outcomes::{Setter, SetterOutcome};
use flt_places::Files;
use flt_search::BreakingJournal;
use std::alloc::{AllocError, Global};

/// The text before a line: its number and a bar.
fn line_head(alloc: Global, line: usize) -> Result<String, AllocError>
    ensures { IfOk result (λ head. string_bytes head ≡ rows.line_head line) }
{
    format!(in alloc; "    {line:>4} | ")
}

/// Lines with their numbers before them, from this number on.
fn numbered(alloc: Global, first: usize, lines: &[u8]) -> Result<Vec<u8>, AllocError>
    ensures { IfOk result (λ out. out.items ≡ rows.numbered first lines.now) }
{
    let mut out = Vec::new(alloc);
    let mut line = first;
    let mut begins = true;
    for byte in lines {
        if begins {
            let head = line_head(alloc, line)?;
            out.extend_from_slice(head.as_bytes())?;
            line = line.saturating_add(1);
        }
        out.push(*byte)?;
        begins = *byte == b'\n';
    }
    Ok(out)
}

/// The lines of the added callback, by their numbers, and a run of the text with it as rows. The text is in these files.
fn setter_rows(
    alloc: Global,
    files: &Files<'_>,
    setter: &Setter,
    broken: &BreakingJournal,
) -> Result<Vec<u8>, AllocError>
    ensures { IfOk result (λ out. rows.AreSetterRows setter.now files.now broken.now out.items) }
{
    let first = files.file_line(setter.line);
    let mut out = numbered(alloc, first, setter.added.as_bytes())?;
    let broken_rows = run_rows(alloc, setter.trees.as_slice(), &[*files], broken)?;
    out.extend_from_slice(broken_rows.as_bytes())?;
    Ok(out)
}

/// The lines after the one on a run: those of the callback, and the run as rows. The text is in these files.
fn rows_by(
    alloc: Global,
    files: &Files<'_>,
    setter: &Setter,
    again: &SetterOutcome,
) -> Result<Vec<u8>, AllocError>
    ensures { IfOk result (λ out. rows.AreRowsBy setter.now files.now again.now out.items) }
{
    match again {
        SetterOutcome::Runs(broken) => setter_rows(alloc, files, setter, broken),
        SetterOutcome::RunsNowhere => Ok(Vec::new(alloc)),
    }
}

/// The line on an outcome in the text with the callback, and its rows. The text is in these files.
///
/// # Errors
///
/// If memory is refused.
pub(crate) fn again_lines(
    alloc: Global,
    files: &Files<'_>,
    setter: &Setter,
    again: &SetterOutcome,
) -> Result<RunLines, AllocError>
    ensures line { IfOk result (λ lines. lines.line.items ≡ lines_of.again_line (Some again.now)) }
    ensures rows { IfOk result (λ lines. rows.AreRowsBy setter.now files.now again.now lines.rows.items) }
{
    let line = again_line(alloc, again)?;
    let rows = rows_by(alloc, files, setter, again)?;
    Ok(RunLines {
        line: line.into_bytes(),
        rows,
    })
}
