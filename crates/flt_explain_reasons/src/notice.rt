//! The report on an input that isn't the text of a filter.

ghost use Rattle.std.specs.Prelude.{◌≡◌, IfOk, string_bytes};
ghost use Rattle.flt_explain_reasons.specs.Notice as spec;

use std::alloc::{AllocError, Global};

/// The kind of an input that isn't the text of a filter.
#[derive(Clone, Copy, PartialEq, Eq)]
pub enum Kind {
    Certificate,
    Journal,
    Script,
}

/// The mistake in a line. Lines and columns count from 1.
#[derive(Drop)]
pub struct Reason<'a> {
    /// The first malformed line of the certificate, journal or script. A missing line counts.
    pub line: usize,
    /// The same line in its file.
    pub file_line: usize,
    /// Its column.
    pub column: usize,
    /// The part of the line that is shown: empty if the line is missing.
    pub shown: &'a [u8],
    /// The bytes found there: empty at the end of the line.
    pub found: &'a [u8],
    /// The mistake: words without an end of line, as in all of these.
    pub title: Vec<u8>,
    /// The expected and the found words.
    pub note: Vec<u8>,
    /// Both, for other programs.
    pub message: Vec<u8>,
    /// The word that is probably meant, or nothing.
    pub meant: Vec<u8>,
    /// How to fix it.
    pub help: String,
}

/// The report on an input that isn't the text of a filter.
#[derive(Drop)]
pub enum Notice<'a> {
    /// It is well-formed. The number is that of its callbacks, entries or commands.
    Whole(Kind, usize),
    Malformed(Kind, Reason<'a>),
}

impl Notice<'_> {
    /// 0 if it is well-formed, else 2.
    pub fn status(&self) -> u8
        ensures { result ≡ spec.status_of self.now }
    {
        match self {
            Notice::Whole(_, _) => 0,
            Notice::Malformed(_, _) => 2,
        }
    }

    /// The last line of the report: the first malformed line, as `check`, `replay` and `run` print it, or that nothing is found.
    ///
    /// # Errors
    ///
    /// `AllocError` if a growth is refused.
    pub fn closing(&self, alloc: Global) -> Result<String, AllocError>
        ensures { IfOk result (λ line. string_bytes line ≡ spec.closing self.now) }
    {
        match self {
            Notice::Whole(_, _) => String::from_str(alloc, "nothing found\n"),
            Notice::Malformed(kind, reason) => {
                let name = kind.name();
                let line = reason.line;
                format!(in alloc; "{name} line {line}\n")
            }
        }
    }
}

impl Kind {
    /// The name of the kind, which reports to other programs have as their `rule`, too.
    pub fn name(self) -> &'static str
        ensures { result.now ≡ spec.kind_name self }
    {
        match self {
            Kind::Certificate => "certificate",
            Kind::Journal => "journal",
            Kind::Script => "script",
        }
    }
}
