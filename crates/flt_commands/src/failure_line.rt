//! Why a command has no answer, in a line.

ghost use Rattle.std.specs.Prelude.{◌≡◌, IfOk, Some, string_bytes};
ghost use Rattle.flt_commands.specs.FailureLine as spec;

use flt_explain_texts::SyntaxLine;
use flt_files::{Failure, flaw_line};
use flt_syntax::SyntaxFault;
use flt_words::visible;
use std::alloc::{AllocError, Global};
use std::fmt;

/// The first fault of the text of one of several files.
#[derive(Drop)]
struct FileSyntaxLine(usize, SyntaxFault);

impl fmt::Display for FileSyntaxLine {
    ghost output = { λ l. Some (spec.file_syntax_line l.0 l.1) };

    fn fmt<W: fmt::Write>(&self, f: &mut fmt::Formatter<W>) -> fmt::Result {
        let file = self.0;
        let line = SyntaxLine(self.1);
        write!(f, "file {file} {line}")
    }
}

/// The line that says why there is no answer, without its end.
pub(crate) fn failure_line(alloc: Global, failure: &Failure<'_>) -> Result<String, AllocError>
    ensures { IfOk result (λ line. string_bytes line ≡ spec.failure_line failure.now) }
{
    match failure {
        Failure::CannotRead(name) => {
            let name = visible(alloc, name)?;
            format!(in alloc; "cannot read {name}")
        }
        Failure::CannotWrite(name, _) => {
            let name = visible(alloc, name)?;
            format!(in alloc; "cannot write {name}")
        }
        Failure::NoFile => String::from_str(alloc, "no file"),
        Failure::TooManyFiles => String::from_str(alloc, "too many files"),
        Failure::Syntax(fault) => {
            let line = SyntaxLine(*fault);
            format!(in alloc; "{line}")
        }
        Failure::FileSyntax(file, fault) => {
            let line = FileSyntaxLine(*file, *fault);
            format!(in alloc; "{line}")
        }
        Failure::Certificate(line) => format!(in alloc; "certificate line {line}"),
        Failure::JournalLine(line) => format!(in alloc; "journal line {line}"),
        Failure::ScriptLine(line) => format!(in alloc; "script line {line}"),
        Failure::Flawed(name, flaw) => flaw_line(alloc, name, *flaw),
        Failure::TooManyWords(name, line, column) => {
            let name = visible(alloc, name)?;
            format!(in alloc; "{name}:{line}:{column}: too many words")
        }
        Failure::Altitude(file) => format!(in alloc; "altitude file {file}"),
        Failure::OutOfMemory => String::from_str(alloc, "out of memory"),
    }
}
