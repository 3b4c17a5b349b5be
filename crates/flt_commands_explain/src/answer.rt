//! The answers of `explain`, and how they are written.

ghost use Rattle.std.specs.Prelude.{◌≡◌, IfOk};
ghost use Rattle.flt_commands_explain.specs.Answer as spec;

use flt_explain_runs::ExplainOutput;
use flt_files::{UnreadFile, status_beside};
use std::alloc::{AllocError, Global};

/// The answer of `explain`.
#[derive(Drop)]
pub enum ExplainAnswer {
    /// Reports of texts, with the outcomes of the findings in runs; and the files that aren't read.
    Explained(ExplainOutput, Vec<UnreadFile>),
    /// The pages of rules, violations, faults of a text, calls or statuses.
    Pages(Vec<&'static str>),
}

impl ExplainAnswer {
    /// The exit status: 0 for yes, 1 for no, and 2 if a file isn't read.
    pub fn status(&self) -> u8
        ensures { result ≡ spec.status_of self.now }
    {
        match self {
            ExplainAnswer::Explained(told, unread) => {
                status_beside(told.explained.status, unread.as_slice())
            }
            ExplainAnswer::Pages(_) => 0,
        }
    }

    /// The bytes for the standard output: reports, or pages with an empty line between them.
    pub fn output(self, alloc: Global) -> Result<Vec<u8>, AllocError>
        ensures { IfOk result (λ bytes. bytes.items ≡ spec.output self) }
    {
        let pages = match self {
            ExplainAnswer::Explained(told, _) => return Ok(told.explained.output),
            ExplainAnswer::Pages(pages) => pages.as_slice().join(alloc, "\n")?,
        };
        Ok(pages.into_bytes())
    }
}
