//! Why a file isn't read.

ghost use Rattle.std.specs.Prelude.{◌≡◌, IfOk, string_bytes};
ghost use Rattle.flt_files.specs.Unread as spec;

use crate::flaws::annotation_flaw_words;
use flt_c::Flaw;
use flt_explain_pages::page;
use std::alloc::{AllocError, Global};
use std::io;

/// A file that isn't read.
#[derive(Drop)]
pub struct UnreadFile {
    pub name: String,
    /// Why it isn't read.
    pub why: String,
    /// How to fix that.
    pub help: &'static str,
}

/// Why nothing is read for a name.
#[derive(Clone, Copy, Debug)]
pub enum InputFault {
    /// There is no such file.
    Missing,
    Folder,
    Denied,
    /// Its name is longer than that of a file may be.
    LongName,
    /// The symbolic links of its path lead in a circle.
    Circle,
    /// It has more bytes than an input may have.
    TooLong,
    /// The same for a file that isn't regular, and may have no end.
    Endless,
    /// It is the standard input, which another name before it is, too.
    Again,
    /// A folder has it in which texts are looked for, and it is neither a regular file nor a link to one.
    Irregular,
    /// A folder has it in which texts are looked for, and its name isn't UTF-8.
    NotUtf8,
    /// The annotations of a C file make no text.
    Flawed(Flaw),
    /// The system refuses it for another reason, and says why.
    Refused(io::Error),
    /// Anything else.
    Failed,
}

/// The words for names that look like those of pages.
const RULES: &str = "there is no such file, and rules are R01 to R15";

const WARNINGS: &str = "there is no such file, and warnings are W00 to W07";

const VIOLATIONS: &str = "there is no such file, and violations are V1 to V8";

const FAULTS: &str = "there is no such file, and faults of a text are E01 to E08";

/// The words for the name of a page.
const ALONE: &str = "there is no such file; pages are for people, and have no file beside them";

/// Whether there are digits and nothing else.
fn are_digits(bytes: &[u8]) -> bool {
    !bytes.is_empty() && bytes.iter().all(|byte| byte.is_ascii_digit())
}

/// The words for a letter with digits after it.
fn numbered_words(letter: u8) -> &'static str {
    match letter {
        b'R' | b'r' => RULES,
        b'W' | b'w' => WARNINGS,
        b'V' | b'v' => VIOLATIONS,
        b'E' | b'e' => FAULTS,
        _ => "there is no such file",
    }
}

/// Why there is no file of a name, in words; with the names of pages, if it looks like one.
fn missing_words(name: &str) -> &'static str {
    if page(name).is_some() {
        return ALONE;
    }
    match name.as_bytes() {
        [letter, digits @ ..] if are_digits(digits) => numbered_words(*letter),
        _ => "there is no such file",
    }
}

impl InputFault {
    /// The reason that the system gives for a call that failed.
    pub fn of(fault: &io::Error) -> InputFault {
        match fault.kind() {
            io::ErrorKind::NotFound | io::ErrorKind::NotADirectory => InputFault::Missing,
            io::ErrorKind::IsADirectory => InputFault::Folder,
            io::ErrorKind::PermissionDenied => InputFault::Denied,
            io::ErrorKind::InvalidFilename => InputFault::LongName,
            io::ErrorKind::FilesystemLoop => InputFault::Circle,
            _ => InputFault::Refused(*fault),
        }
    }

    /// Why nothing is read for a name, in words.
    fn words(self, alloc: Global, name: &str) -> Result<String, AllocError> {
        let words = match self {
            InputFault::Missing => missing_words(name),
            InputFault::Folder => "this is a folder, and no `*.flt` in it is read",
            InputFault::Denied => "reading it isn't permitted",
            InputFault::LongName => "its name is too long",
            InputFault::Circle => "its symbolic links lead in a circle",
            InputFault::TooLong => "it has more than 67,108,864 bytes",
            InputFault::Endless => "it has no end within 67,108,864 bytes",
            InputFault::Again => "the standard input is read once, for the first `-`",
            InputFault::Irregular => "it isn't a regular file",
            InputFault::NotUtf8 => "its name isn't UTF-8",
            InputFault::Flawed(flaw) => return annotation_flaw_words(alloc, flaw),
            InputFault::Refused(fault) => return format!(in alloc; "reading it failed: {fault}"),
            InputFault::Failed => "reading it failed",
        };
        String::from_str(alloc, words)
    }

    /// How to fix that.
    fn help(self) -> &'static str {
        match self {
            InputFault::Missing =>
                "a name is a path from the current folder, or `-` for the standard input; R01 to R15, W00 to W07, V1 to V8, E01 to E08, calls and statuses alone are pages",
            InputFault::Folder => "name a file in it, or a folder that has texts",
            InputFault::Denied => "see who may read it",
            InputFault::LongName => "a part of a path has at most 255 bytes",
            InputFault::Circle => "name the file that is meant",
            InputFault::TooLong | InputFault::Endless =>
                "a text has at most 65,536 bytes, a journal 1,000,000 entries",
            InputFault::Again => "name each input once",
            InputFault::Irregular => "name it by itself, or take it out of the folder",
            InputFault::NotUtf8 => "rename it",
            InputFault::Flawed(_) =>
                "an annotation is what follows `//@flt` in its line, or `/*@flt` up to `*/`",
            InputFault::Refused(_) | InputFault::Failed => "copy it into a file first",
        }
    }

    /// The file of a name, for which nothing is read.
    pub fn file(self, alloc: Global, name: &str) -> Result<UnreadFile, AllocError>
        ensures { IfOk result (λ file. string_bytes file.name ≡ name.now) }
    {
        let why = self.words(alloc, name)?;
        let name = String::from_str(alloc, name)?;
        Ok(UnreadFile {
            name,
            why,
            help: self.help(),
        })
    }
}

/// The exit status of reports or outcomes, with these files that aren't read.
pub fn status_beside(status: u8, unread: &[UnreadFile]) -> u8
    ensures { result ≡ spec.status_beside status unread.now }
{
    match unread {
        [] => status,
        [_, ..] => 2,
    }
}
