//! The lines on the standard error for files that are laid out.

ghost use Rattle.std.specs.Prelude.{◌≡◌, IfOk, flat_map, string_bytes};
ghost use Rattle.flt_commands_texts.specs.LayoutRemarks as spec;

use crate::outcomes::{FileOutcome, Outcome, Outcomes};
use flt_explain_texts::SyntaxLine;
use flt_files::{UnreadFile, unwritten_line};
use flt_syntax::SyntaxFault;
use flt_words::{FormatMode, visible};
use std::alloc::{AllocError, Global};

/// The line that says that a file isn't read.
fn unread_line(alloc: Global, file: &UnreadFile) -> Result<String, AllocError>
    ensures { IfOk result (λ line. string_bytes line ≡ spec.unread_line file.now) }
{
    let name = visible(alloc, file.name.as_str())?;
    format!(in alloc; "cannot read {name}\n")
}

/// The same for some files.
fn unread_lines(alloc: Global, files: &[UnreadFile]) -> Result<Vec<u8>, AllocError>
    ensures { IfOk result (λ lines. lines.items ≡ flat_map spec.unread_line files.now) }
{
    let mut lines = Vec::new(alloc);
    for file in files {
        lines.extend_from_slice(unread_line(alloc, file)?.as_bytes())?;
    }
    Ok(lines)
}

/// Why a file has no layout, in a line: for one that is printed as `check` says it, for others after their names.
fn reason_line(
    alloc: Global,
    mode: FormatMode,
    name: &str,
    why: &str,
) -> Result<Vec<u8>, AllocError>
    ensures { IfOk result (λ line. line.items ≡ spec.reason_line mode name.now why.now) }
{
    let line = match mode {
        FormatMode::Print => format!(in alloc; "{why}\n")?,
        FormatMode::Check | FormatMode::Write => {
            let name = visible(alloc, name)?;
            format!(in alloc; "{name}: {why}\n")?
        }
    };
    Ok(line.into_bytes())
}

/// The same for a fault of its text.
fn fault_line(
    alloc: Global,
    mode: FormatMode,
    name: &str,
    fault: SyntaxFault,
) -> Result<Vec<u8>, AllocError>
    ensures { IfOk result (λ line. line.items ≡ spec.fault_line mode name.now fault) }
{
    let line = SyntaxLine(fault);
    let why = format!(in alloc; "{line}")?;
    reason_line(alloc, mode, name, why.as_str())
}

/// The lines on the standard error for the file of a name.
fn remark(
    alloc: Global,
    mode: FormatMode,
    name: &str,
    outcome: &Outcome,
) -> Result<Vec<u8>, AllocError>
    ensures { IfOk result (λ lines. lines.items ≡ spec.remark mode name.now outcome.now) }
{
    match outcome {
        Outcome::Same(_) | Outcome::Other(_) => Ok(Vec::new(alloc)),
        Outcome::Unwritten(_, why) => unwritten_line(alloc, name, why.as_slice()),
        Outcome::Fault(fault) => fault_line(alloc, mode, name, *fault),
        Outcome::Long => reason_line(alloc, mode, name, "layout too long"),
    }
}

/// The lines on the standard error for some files.
fn remarks(alloc: Global, mode: FormatMode, files: &[FileOutcome]) -> Result<Vec<u8>, AllocError>
    ensures { IfOk result (λ lines. lines.items ≡ flat_map (spec.remarked mode) files.now) }
{
    let mut lines = Vec::new(alloc);
    for file in files {
        let name = file.name.as_str();
        lines.extend_from_slice(remark(alloc, mode, name, &file.outcome)?.as_slice())?;
    }
    Ok(lines)
}

/// Whole lines on all files that aren't read, have no layout or aren't written.
pub fn all_remarks(alloc: Global, mode: FormatMode, found: &Outcomes) -> Result<Vec<u8>, AllocError>
    ensures { IfOk result (λ lines. lines.items ≡ spec.all_remarks mode found.now) }
{
    let mut lines = unread_lines(alloc, found.unread.as_slice())?;
    let others = remarks(alloc, mode, found.files.as_slice())?;
    lines.extend_from_slice(others.as_slice())?;
    Ok(lines)
}
