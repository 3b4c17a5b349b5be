//! Why a file isn't written.

ghost use Rattle.std.specs.Prelude.{◌≡◌, ◌++◌, IfOk};
ghost use Rattle.flt_files.specs.Unwritten as spec;

use flt_words::visible;
use std::alloc::{AllocError, Global};
use std::io;

/// Why a file isn't written.
#[derive(Clone, Copy, Debug)]
pub enum OutputFault {
    /// Its name is that of a symbolic link, which may lead to another's file.
    Link,
    /// It is one of the inputs, whatever its name.
    Input,
    Folder,
    /// Something is there that `emit --into` didn't write, or that was changed since.
    Foreign,
    /// It was changed since it was read.
    Changed,
    /// It is a pipe or a device, which has no bytes to replace.
    Stream,
    /// The system refuses it, and says why.
    Refused(io::Error),
}

impl OutputFault {
    /// How to fix that.
    fn help(self) -> &'static str {
        match self {
            OutputFault::Link => "name the file that it leads to",
            OutputFault::Input => "name another file",
            OutputFault::Folder => "name a file in it",
            OutputFault::Foreign => "name another folder, or add `--force`, which replaces it",
            OutputFault::Changed => "run the command again",
            OutputFault::Stream => "name a file",
            OutputFault::Refused(_) =>
                "it takes a folder with room for a new file, and the right to write there",
        }
    }

    /// Why it isn't written, in words.
    fn words(self, alloc: Global) -> Result<String, AllocError> {
        match self {
            OutputFault::Link => String::from_str(alloc, "it is a symbolic link"),
            OutputFault::Input => String::from_str(alloc, "it is one of the inputs"),
            OutputFault::Folder => String::from_str(alloc, "this is a folder"),
            OutputFault::Foreign => String::from_str(
                alloc,
                "there is a file that `emit --into` didn't write, or that was changed since",
            ),
            OutputFault::Changed => String::from_str(alloc, "it was changed since it was read"),
            OutputFault::Stream => String::from_str(alloc, "it is a pipe or a device"),
            OutputFault::Refused(fault) => format!(in alloc; "{fault}"),
        }
    }
}

/// Whole lines that say why a file isn't written.
pub fn unwritten_lines(alloc: Global, name: &str, why: OutputFault) -> Result<Vec<u8>, AllocError> {
    let words = why.words(alloc)?;
    let help = why.help();
    let name = visible(alloc, name)?;
    let lines = format!(in alloc; "error: `{name}` isn't written: {words}\n   = help: {help}\n")?;
    Ok(lines.into_bytes())
}

/// The line that says that a file isn't written, after those that say why.
pub fn unwritten_line(alloc: Global, name: &str, why: &[u8]) -> Result<Vec<u8>, AllocError>
    ensures { IfOk result (λ lines. lines.items ≡ why.now ++ spec.unwritten_line name.now) }
{
    let name = visible(alloc, name)?;
    let line = format!(in alloc; "cannot write {name}\n")?;
    let mut lines = Vec::from_slice(alloc, why)?;
    lines.extend_from_slice(line.as_bytes())?;
    Ok(lines)
}
