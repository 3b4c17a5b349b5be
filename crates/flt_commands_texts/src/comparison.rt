//! The comparison of C files with their annotations, and how it is printed.

ghost use Rattle.std.specs.Prelude.{◌≡◌, IfOk, Some, string_bytes};
ghost use Rattle.flt_commands_texts.specs.Comparison as spec;

use std::alloc::{AllocError, Global};
use std::fmt;

/// The comparison of some C files with their annotations.
#[derive(Drop)]
pub struct Comparison {
    /// The reports on the points in which they differ.
    pub reports: Vec<u8>,
    /// How many lines of annotations the files have: those that `extract` prints of each by itself.
    pub lines: usize,
    /// How many files were compared.
    pub files: usize,
}

/// The exit status of reports on C files: 1 if there is one.
fn compared_status(reports: &[u8]) -> u8
    ensures { result ≡ spec.compared_status reports.now }
{
    match reports {
        [] => 0,
        [_, ..] => 1,
    }
}

/// The exit status of a comparison: 1 if something differs.
pub(crate) fn comparison_status(found: &Comparison) -> u8
    ensures { result ≡ spec.compared_status found.now.reports.items }
{
    compared_status(found.reports.as_slice())
}

// ---- the standard output

/// The ending of a word for so many things.
fn plural(count: usize) -> &'static str
    ensures { result.now ≡ spec.plural count }
{
    if count == 1 { "" } else { "s" }
}

/// So many lines of annotations.
#[derive(Drop)]
struct LineCount(usize);

impl fmt::Display for LineCount {
    ghost output = { λ n. Some (spec.line_count n.0) };

    fn fmt<W: fmt::Write>(&self, f: &mut fmt::Formatter<W>) -> fmt::Result {
        let lines = self.0;
        let end = plural(lines);
        write!(f, "{lines} line{end} of annotations")
    }
}

/// So many files.
#[derive(Drop)]
struct FileCount(usize);

impl fmt::Display for FileCount {
    ghost output = { λ n. Some (spec.file_count n.0) };

    fn fmt<W: fmt::Write>(&self, f: &mut fmt::Formatter<W>) -> fmt::Result {
        let files = self.0;
        let end = plural(files);
        write!(f, "{files} file{end}")
    }
}

/// The line that says how much was compared, without its end.
fn agreement(alloc: Global, lines: usize, files: usize) -> Result<String, AllocError>
    ensures { IfOk result (λ line. string_bytes line ≡ spec.agreement lines files) }
{
    let lines = LineCount(lines);
    let files = FileCount(files);
    format!(in alloc; "nothing differs: {lines} in {files}")
}

/// The last line of the output: how much was compared, if there are no reports.
fn last_line(
    alloc: Global,
    reports: &[u8],
    lines: usize,
    files: usize,
) -> Result<Vec<u8>, AllocError>
    ensures { IfOk result (λ line. line.items ≡ spec.last_line reports.now lines files) }
{
    match reports {
        [] => {
            let mut line = agreement(alloc, lines, files)?.into_bytes();
            line.push(b'\n')?;
            Ok(line)
        }
        [_, ..] => Ok(Vec::new(alloc)),
    }
}

/// The output for a comparison: its reports, or how much was compared if nothing differs.
pub(crate) fn printed_comparison(alloc: Global, found: Comparison) -> Result<Vec<u8>, AllocError>
    ensures { IfOk result (λ bytes. bytes.items ≡ spec.printed found) }
{
    let line = last_line(alloc, found.reports.as_slice(), found.lines, found.files)?;
    let mut bytes = found.reports;
    bytes.extend_from_slice(line.as_slice())?;
    Ok(bytes)
}
