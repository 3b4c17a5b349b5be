//! The answer of any command, and how it is written.

ghost use Rattle.std.specs.Prelude.{◌≡◌, ◌≢◌, IfOk};
ghost use Rattle.flt_commands.specs.Answer as spec;

use flt_commands_explain::ExplainAnswer;
use flt_commands_runs::RunAnswer;
use flt_commands_texts::TextAnswer;
use flt_files::Failure;
use flt_stack_crew::Ending;
use std::alloc::{AllocError, Global};

/// The answer of a command.
#[derive(Drop)]
pub enum Answer {
    /// Of a command on texts or C files.
    OfText(TextAnswer),
    /// Of `run` or `replay`.
    OfRun(RunAnswer),
    /// Of `explain`.
    OfExplain(ExplainAnswer),
}

impl Answer {
    /// The exit status: 0 for yes, 1 for no, and 2 for a journal that is full before its script has ended, in which a detach was refused,
    /// or that the receipts contradict, and if a file isn't read, has no layout or isn't written.
    pub fn status(&self) -> u8
        ensures { result ≡ spec.status_of self.now }
    {
        match self {
            Answer::OfText(answer) => answer.status(),
            Answer::OfRun(answer) => answer.status(),
            Answer::OfExplain(answer) => answer.status(),
        }
    }

    /// How the run ended whose journal this is. All other answers are whole.
    pub fn ending(&self) -> Ending
        ensures value { result ≡ spec.ending_of self.now }
        ensures status { result ≢ Ending.Whole → spec.status_of self.now ≡ 2 }
    {
        match self {
            Answer::OfRun(answer) => answer.ending(),
            Answer::OfText(_) | Answer::OfExplain(_) => Ending::Whole,
        }
    }

    /// The bytes for the standard output: the certificate, the journal, the texts, or a line.
    pub fn output(self, alloc: Global) -> Result<Vec<u8>, AllocError>
        ensures { IfOk result (λ bytes. bytes.items ≡ spec.output self) }
    {
        match self {
            Answer::OfText(answer) => answer.output(alloc),
            Answer::OfRun(answer) => answer.output(alloc),
            Answer::OfExplain(answer) => answer.output(alloc),
        }
    }
}

/// The outcome of a command on texts or C files, as that of any command.
pub(crate) fn of_text<'a>(said: Result<TextAnswer, Failure<'a>>) -> Result<Answer, Failure<'a>>
    ensures { result ≡ spec.of_text said.entry }
{
    match said {
        Ok(answer) => Ok(Answer::OfText(answer)),
        Err(failure) => Err(failure),
    }
}

/// The same for `run` or `replay`.
pub(crate) fn of_run<'a>(said: Result<RunAnswer, Failure<'a>>) -> Result<Answer, Failure<'a>>
    ensures { result ≡ spec.of_run said.entry }
{
    match said {
        Ok(answer) => Ok(Answer::OfRun(answer)),
        Err(failure) => Err(failure),
    }
}

/// The same for `explain`.
pub(crate) fn of_explain<'a>(
    said: Result<ExplainAnswer, Failure<'a>>,
) -> Result<Answer, Failure<'a>>
    ensures { result ≡ spec.of_explain said.entry }
{
    match said {
        Ok(answer) => Ok(Answer::OfExplain(answer)),
        Err(failure) => Err(failure),
    }
}
