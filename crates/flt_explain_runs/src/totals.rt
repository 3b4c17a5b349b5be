//! The number of findings in several files.

ghost use Rattle.std.specs.Prelude.{◌≡◌, ◌+◌, IfOk, Some, max};
ghost use Rattle.flt_explain_runs.specs.Totals as spec;

use std::alloc::AllocError;
use std::fmt;

/// The tally of a file: its status, and how many findings it has.
#[derive(Clone, Copy)]
pub(crate) struct Tally {
    pub(crate) status: u8,
    pub(crate) findings: usize,
}

/// The total of files: the greatest status, how many findings they have, and how many of them have some.
#[derive(Clone, Copy)]
pub(crate) struct Total {
    pub(crate) status: u8,
    pub(crate) findings: usize,
    pub(crate) files: usize,
}

fn greater(a: u8, b: u8) -> u8
    ensures { result ≡ max a b }
{
    if a < b { b } else { a }
}

fn sum(a: usize, b: usize) -> Result<usize, AllocError>
    ensures { IfOk result (λ n. n ≡ a + b) }
{
    match a.checked_add(b) {
        Some(n) => Ok(n),
        None => Err(AllocError),
    }
}

/// 1 if there are some, else 0.
fn some(count: usize) -> usize
    ensures { result ≡ spec.some count }
{
    if count == 0 { 0 } else { 1 }
}

impl Total {
    /// The total with one more file.
    pub(crate) fn and(self, tally: Tally) -> Result<Total, AllocError>
        ensures { IfOk result (λ total. total ≡ spec.with_tally self tally) }
    {
        let findings = sum(self.findings, tally.findings)?;
        let files = sum(self.files, some(tally.findings))?;
        Ok(Total {
            status: greater(self.status, tally.status),
            findings,
            files,
        })
    }
}

/// How many findings there are, and in how many of so many files.
#[derive(Drop)]
pub(crate) struct Summary {
    pub(crate) findings: usize,
    pub(crate) files: usize,
    pub(crate) all: usize,
}

impl fmt::Display for Summary {
    ghost output = { λ s. Some (spec.summary s.findings s.files s.all) };

    fn fmt<W: fmt::Write>(&self, f: &mut fmt::Formatter<W>) -> fmt::Result {
        let findings = self.findings;
        let files = self.files;
        let all = self.all;
        if findings == 0 {
            return write!(f, "nothing found in {all} files");
        }
        let many = if findings == 1 { "" } else { "s" };
        write!(f, "{findings} finding{many} in {files} of {all} files")
    }
}
