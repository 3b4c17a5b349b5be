//! The answers of `run` and `replay`, and how they are written.

ghost use Rattle.std.specs.Prelude.{◌≡◌, ◌≢◌, [], ◌∷◌, ◌++◌, IfOk};
ghost use Rattle.flt_commands_runs.specs.Answer as spec;
ghost use Rattle.flt_model.specs.Verdicts.{verdict_line};

use flt_model::Verdict;
use flt_rules::Refusal;
use flt_stack_crew::{Ending, Ran};
use std::alloc::{AllocError, Global};

/// The answer of a command on a run of filters.
#[derive(Drop)]
pub enum RunAnswer {
    /// The verdict about a journal.
    Judged(Verdict),
    /// The rows in which a journal is shown, and the verdict about it.
    Shown(Vec<u8>, Verdict),
    /// The outcome of a script.
    Ran(Ran),
    /// A point of the text of one of several files, numbered from 0, is refused.
    FileRefused(usize, Refusal),
}

impl RunAnswer {
    /// The exit status: 0 for yes, 1 for no, and 2 for a journal that is full before its script has ended, in which a detach was refused,
    /// or that the receipts contradict.
    pub fn status(&self) -> u8
        ensures { result ≡ spec.status_of self.now }
    {
        match self {
            RunAnswer::Judged(Verdict::Legal) | RunAnswer::Shown(_, Verdict::Legal) => 0,
            RunAnswer::Judged(_) | RunAnswer::Shown(_, _) | RunAnswer::FileRefused(_, _) => 1,
            RunAnswer::Ran(ran) => ended_status(ran.ending),
        }
    }

    /// How the run ended whose journal this is. All other answers are whole.
    pub fn ending(&self) -> Ending
        ensures value { result ≡ spec.ending_of self.now }
        ensures status { result ≢ Ending.Whole → spec.status_of self.now ≡ 2 }
    {
        match self {
            RunAnswer::Ran(ran) => ran.ending,
            RunAnswer::Judged(_) | RunAnswer::Shown(_, _) | RunAnswer::FileRefused(_, _) => {
                Ending::Whole
            }
        }
    }

    /// The bytes for the standard output: the journal, rows, or a line.
    pub fn output(self, alloc: Global) -> Result<Vec<u8>, AllocError>
        ensures { IfOk result (λ bytes. bytes.items ≡ spec.output self) }
    {
        match self {
            RunAnswer::Ran(ran) => Ok(ran.journal),
            RunAnswer::Shown(rows, verdict) => shown(alloc, rows, verdict),
            RunAnswer::Judged(verdict) => shown(alloc, Vec::new(alloc), verdict),
            RunAnswer::FileRefused(file, refusal) => {
                let mut line = format!(in alloc; "refused file {file} {refusal}")?;
                line.push('\n')?;
                Ok(line.into_bytes())
            }
        }
    }
}

/// The exit status of a journal with this ending.
fn ended_status(ending: Ending) -> u8
    ensures { result ≡ spec.ended_status ending }
{
    match ending {
        Ending::Whole => 0,
        Ending::Full | Ending::Already | Ending::Differ => 2,
    }
}

/// The rows of a journal, and the verdict about it after them.
fn shown(alloc: Global, rows: Vec<u8>, verdict: Verdict) -> Result<Vec<u8>, AllocError>
    ensures { IfOk result (λ bytes. bytes.items ≡ rows.items ++ (verdict_line verdict ++ 10 ∷ [])) }
{
    let line = format!(in alloc; "{verdict}\n")?;
    let mut bytes = rows;
    bytes.extend_from_slice(line.as_bytes())?;
    Ok(bytes)
}
