//! The lines on the standard error above the one that says why there is no answer, or beside an answer.

ghost use Rattle.std.specs.Prelude.{◌≡◌, ◌≢◌, IfOk, None, OnErr, Some, flat_map, option_map, string_bytes};
ghost use Rattle.flt_commands_explain.specs.Explain.{said_of};
ghost use Rattle.flt_commands_explain.specs.Remarks as spec;
ghost use Rattle.flt_explain_outcomes.specs.Noted.{first_journal};

use crate::explain::Explanation;
use flt_explain_outcomes::{Note, first_journal};
use flt_files::{UnreadFile, unwritten_lines};
use flt_words::visible;
use std::alloc::{AllocError, Global};
use std::fmt;

/// The lines on a file that isn't read, with its name as it is shown.
#[derive(Drop)]
struct LinesOn<'a> {
    name: &'a str,
    why: &'a str,
    help: &'a str,
}

impl fmt::Display for LinesOn<'_> {
    ghost output = { λ l. Some (spec.lines_on l.name.now l.why.now l.help.now) };

    fn fmt<W: fmt::Write>(&self, f: &mut fmt::Formatter<W>) -> fmt::Result {
        let name = self.name;
        let why = self.why;
        let help = self.help;
        write!(
            f,
            "error: `{name}` isn't read: {why}\n   = help: {help}\ncannot read {name}\n"
        )
    }
}

/// The same as text.
fn lines_on<'a>(
    alloc: Global,
    name: &'a str,
    why: &'a str,
    help: &'a str,
) -> Result<String, AllocError>
    ensures { IfOk result (λ lines. string_bytes lines ≡ spec.lines_on name.now why.now help.now) }
{
    let lines = LinesOn { name, why, help };
    format!(in alloc; "{lines}")
}

/// Whole lines that say that a file isn't read.
pub(crate) fn lines_on_file(alloc: Global, file: &UnreadFile) -> Result<String, AllocError>
    ensures { IfOk result (λ lines. string_bytes lines ≡ spec.unread_lines file.now) }
{
    let name = visible(alloc, file.name.as_str())?;
    lines_on(alloc, name.as_str(), file.why.as_str(), file.help)
}

/// Whole lines that say which files aren't read.
pub(crate) fn unread_lines(alloc: Global, files: &[UnreadFile]) -> Result<Vec<u8>, AllocError>
    ensures { IfOk result (λ lines. lines.items ≡ flat_map spec.unread_lines files.now) }
{
    let mut lines = Vec::new(alloc);
    for file in files {
        lines.extend_from_slice(lines_on_file(alloc, file)?.as_bytes())?;
    }
    Ok(lines)
}

/// The line that says that no journal is written into the file of a name, if no finding has one; else nothing.
fn unfound_line(alloc: Global, name: &str, noted: &[Note]) -> Result<Vec<u8>, AllocError>
    ensures { IfOk result (λ line. line.items ≡ spec.unfound_for name.now (first_journal noted.now)) }
{
    match first_journal(noted) {
        Some(_) => Ok(Vec::new(alloc)),
        None => {
            let name = visible(alloc, name)?;
            let line = format!(in alloc; "no run is found: {name} is as it was\n")?;
            Ok(line.into_bytes())
        }
    }
}

/// Whole lines on the outcome of `explain` for some files, after those on files that aren't read: why a file isn't written, or that no run
/// is found for the requested journal.
pub fn explain_remark(
    alloc: Global,
    before: Vec<u8>,
    journal: Option<&str>,
    said: &Explanation<'_>,
) -> Result<Vec<u8>, AllocError>
    requires { IfOk (said_of said.now) (λ answer. before.items ≡ spec.unread_in answer) }
    ensures found { IfOk result (λ lines. spec.IsFound (option_map (λ name. name.now) journal.entry) (said_of said.now) lines.items) }
    ensures none { OnErr result (journal.entry ≢ None) }
{
    let Some(name) = journal else {
        return Ok(before);
    };
    let lines = match said {
        Explanation::Told(told, _) => unfound_line(alloc, name, told.noted.as_slice())?,
        Explanation::Unwritten(name, why) => unwritten_lines(alloc, name, *why)?,
    };
    let mut all = before;
    all.extend_from_slice(lines.as_slice())?;
    Ok(all)
}
