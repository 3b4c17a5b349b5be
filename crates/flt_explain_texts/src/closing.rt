//! The lines that end reports.

ghost use Rattle.std.specs.Prelude.{◌≡◌, Some, IfOk, string_bytes};
ghost use Rattle.flt_explain_texts.specs.Closing as spec;

use flt_explain::Finding;
use flt_places::Files;
use flt_rules::Refusal;
use flt_syntax::{FaultKind, SyntaxFault};
use flt_tree::Position;
use std::alloc::{AllocError, Global};
use std::fmt;

/// `E01` to `E08`.
pub fn fault_name(kind: FaultKind) -> &'static str
    ensures { result.now ≡ spec.fault_name kind }
{
    match kind {
        FaultKind::E01 => "E01",
        FaultKind::E02 => "E02",
        FaultKind::E03 => "E03",
        FaultKind::E04 => "E04",
        FaultKind::E05 => "E05",
        FaultKind::E06 => "E06",
        FaultKind::E07 => "E07",
        FaultKind::E08 => "E08",
    }
}

/// The first fault of a text, as `check` and `analyse` print it.
#[derive(Drop)]
pub struct SyntaxLine(pub SyntaxFault);

impl fmt::Display for SyntaxLine {
    ghost output = { λ s. Some (spec.syntax_line s.0) };

    fn fmt<W: fmt::Write>(&self, f: &mut fmt::Formatter<W>) -> fmt::Result {
        let line = self.0.line;
        let column = self.0.column;
        let kind = fault_name(self.0.kind);
        write!(f, "syntax {line}:{column} {kind}")
    }
}

/// The refusal that a finding is, by its line in its file.
fn refusal_in(files: &Files<'_>, finding: &Finding) -> Refusal
    ensures { result ≡ spec.refusal_in files.now finding.now }
{
    Refusal {
        callback: finding.callback,
        point: finding.point,
        line: files.file_line(finding.line),
        rule: finding.rule,
    }
}

/// The last line of a report with these findings: the place of the first one, by its line in its file, and its rule, or that nothing is
/// found.
///
/// # Errors
///
/// `AllocError` if a growth is refused.
pub fn findings_line(
    alloc: Global,
    files: &Files<'_>,
    found: &[Finding],
) -> Result<String, AllocError>
    ensures { IfOk result (λ line. string_bytes line ≡ spec.findings_closing files.now found.now) }
{
    match found {
        [first, ..] => {
            let refusal = refusal_in(files, first);
            format!(in alloc; "refused {refusal}\n")
        }
        [] => String::from_str(alloc, "nothing found\n"),
    }
}

/// A fault by its place in its file.
fn fault_in(files: &Files<'_>, fault: SyntaxFault) -> SyntaxFault
    ensures { result ≡ spec.fault_in files.now fault }
{
    let place = files.file_place(Position {
        line: fault.line,
        column: fault.column,
    });
    SyntaxFault {
        line: place.line,
        column: place.column,
        kind: fault.kind,
    }
}

/// The last line of a report of a text that doesn't parse: its first fault, by its place in its file.
///
/// # Errors
///
/// `AllocError` if a growth is refused.
pub fn fault_line(
    alloc: Global,
    files: &Files<'_>,
    fault: SyntaxFault,
) -> Result<String, AllocError>
    ensures { IfOk result (λ line. string_bytes line ≡ spec.fault_closing files.now fault) }
{
    let line = SyntaxLine(fault_in(files, fault));
    format!(in alloc; "{line}\n")
}
