//! The report on a command, before it is written.

ghost use Rattle.std.specs.Prelude.{◌≡◌, ◌≢◌, ◌++◌, ◌∷◌, [], None, IfErr, IfOk, IsErr, drop};
ghost use Rattle.flt_commands.specs.Answer.{ending_of, of_explain, output, remark, status_of};
ghost use Rattle.flt_commands.specs.Commands as spec;
ghost use Rattle.flt_commands_explain.specs.Answer.{sent_in};
ghost use Rattle.flt_commands_explain.specs.Explain.{said_of};
ghost use Rattle.flt_files.specs.Unread.{status_beside};
ghost use Rattle.flt_commands.specs.FailureLine.{failure_line};

use crate::answer::Answer;
use crate::failure_line::failure_line;
use flt_commands_explain::{CommandFault, Explanation};
use flt_door::let_out;
use flt_explain_runs::ExplainOutput;
use flt_files::{Contents, Failure, UnreadFile, status_beside};
use flt_model::Journal;
use flt_stack_crew::Ending;
use std::alloc::{AllocError, Global};

/// The report on a command: the inputs that were read for it, and the bytes for each output.
#[derive(Drop)]
pub struct Report {
    /// The bytes of the names among the words, in their order, for a C file of `explain` its annotations at their places; none for a file
    /// of `explain` that isn't read, and for a journal see `journal`.
    pub texts: Vec<Vec<u8>>,
    /// For each text of `explain` the C file whose annotations it is, if it is a C file's. There are none for other commands.
    pub codes: Vec<Option<Vec<u8>>>,
    /// The entries of the journal that was read. Its bytes, which spell them, are freed while it is read.
    pub journal: Option<Journal>,
    /// The bytes for the standard output.
    pub output: Vec<u8>,
    /// The number of its bytes that were written before it was whole.
    pub(crate) sent: usize,
    /// The bytes for the standard error.
    pub remark: Vec<u8>,
    /// The exit status: 0 for yes, 1 for no, and 2 if there is no answer, a journal was full before its script had ended, a detach of it
    /// was refused, or the receipts contradict it.
    pub status: u8,
}

impl Report {
    /// The report on the contents of some names.
    fn on(alloc: Global, contents: Contents, output: Vec<u8>, remark: Vec<u8>, status: u8) -> Report
        ensures texts { result.texts ≡ contents.texts }
        ensures codes { result.codes.items ≡ [] }
        ensures journal { result.journal ≡ contents.journal }
        ensures output { result.output ≡ output }
        ensures sent { result.sent ≡ 0 }
        ensures remark { result.remark ≡ remark }
        ensures status { result.status ≡ status }
    {
        Report {
            texts: contents.texts,
            codes: Vec::new(alloc),
            journal: contents.journal,
            output,
            sent: 0,
            remark,
            status,
        }
    }

    /// The report on reports of texts, of which these C files have annotations, with these files that aren't read.
    fn on_reports(
        alloc: Global,
        contents: Contents,
        codes: Vec<Option<Vec<u8>>>,
        told: ExplainOutput,
        unread: &[UnreadFile],
        remark: Vec<u8>,
    ) -> Report
        ensures texts { result.texts ≡ contents.texts }
        ensures codes { result.codes ≡ codes }
        ensures journal { result.journal ≡ contents.journal }
        ensures output { result.output ≡ told.explained.output }
        ensures sent { result.sent ≡ told.sent }
        ensures remark { result.remark ≡ remark }
        ensures status { result.status ≡ status_beside told.explained.status unread.now }
    {
        let status = status_beside(told.explained.status, unread);
        let mut report = Report::on(alloc, contents, told.explained.output, remark, status);
        report.codes = codes;
        report.sent = told.sent;
        report
    }

    /// The report on words that ask for a text about their use.
    pub(crate) fn on_usage(alloc: Global, text: String) -> Report
        ensures output { result.output.items ≡ [] }
        ensures sent { result.sent ≡ 0 }
        ensures status { result.status ≡ 2 }
    {
        Report {
            texts: Vec::new(alloc),
            codes: Vec::new(alloc),
            journal: None,
            output: Vec::new(alloc),
            sent: 0,
            remark: text.into_bytes(),
            status: 2,
        }
    }

    /// Lets the report out: its output, unless that has the user's own bytes, and its remark.
    pub(crate) fn let_out(&mut self, gives_bytes: bool)
        ensures out { spec.IsLetOut gives_bytes self.old self.new }
        ensures sent { self.new.sent ≡ self.old.sent }
    {
        let_output_out(&mut self.output, gives_bytes);
        let_out(self.remark.as_mut_slice());
    }

    /// The bytes for the standard output that aren't written yet.
    pub(crate) fn rest(&self) -> &[u8]
        ensures { result.now ≡ drop self.now.sent self.now.output.items }
    {
        let output = self.output.as_slice();
        if self.sent < output.len() {
            &output[self.sent..]
        } else {
            &[]
        }
    }
}

/// Lets the output of a report out, unless it is the user's own bytes.
fn let_output_out(output: &mut Vec<u8>, gives_bytes: bool)
    ensures { output.new.items ≡ spec.out_of gives_bytes output.old.items }
{
    if gives_bytes {
        return;
    }
    let_out(output.as_mut_slice());
}

/// The line on the standard error for a journal with this ending, if it has one.
fn remark_on(alloc: Global, ending: Ending) -> Result<Vec<u8>, AllocError>
    ensures { IfOk result (λ bytes. bytes.items ≡ remark ending) }
{
    let mut bytes = Vec::new(alloc);
    match ending {
        Ending::Whole => {}
        Ending::Full => bytes.extend_from_slice(b"full\n")?,
        Ending::Already => bytes.extend_from_slice(b"detached already\n")?,
        Ending::Differ => bytes.extend_from_slice(b"receipts differ\n")?,
    }
    Ok(bytes)
}

/// The report on an answer, with these lines on the standard error before its own.
fn report_on_answer(
    alloc: Global,
    before: Vec<u8>,
    answer: Answer,
    contents: Contents,
) -> Result<Report, CommandFault>
    ensures texts { IfOk result (λ report. report.texts ≡ contents.texts) }
    ensures codes { IfOk result (λ report. report.codes.items ≡ []) }
    ensures journal { IfOk result (λ report. report.journal ≡ contents.journal) }
    ensures output { IfOk result (λ report. report.output.items ≡ output answer) }
    ensures sent { IfOk result (λ report. report.sent ≡ 0) }
    ensures status { IfOk result (λ report. report.status ≡ status_of answer) }
    ensures remark { IfOk result (λ report. report.remark.items ≡ before.items ++ remark (ending_of answer)) }
    ensures quiet { IfOk result (λ report. report.status ≢ 2 → report.remark.items ≡ before.items) }
    ensures err { IfErr result (λ e. e ≡ CommandFault.OutOfMemory) }
{
    let status = answer.status();
    let mut remark = before;
    let ending = remark_on(alloc, answer.ending())?;
    remark.extend_from_slice(ending.as_slice())?;
    let output = answer.output(alloc)?;
    Ok(Report::on(alloc, contents, output, remark, status))
}

/// The report on why there is no answer, in a line after some others.
fn report_on_failure(
    alloc: Global,
    before: Vec<u8>,
    failure: &Failure,
    contents: Contents,
) -> Result<Report, CommandFault>
    ensures texts { IfOk result (λ report. report.texts ≡ contents.texts) }
    ensures codes { IfOk result (λ report. report.codes.items ≡ []) }
    ensures journal { IfOk result (λ report. report.journal ≡ contents.journal) }
    ensures output { IfOk result (λ report. report.output.items ≡ []) }
    ensures sent { IfOk result (λ report. report.sent ≡ 0) }
    ensures status { IfOk result (λ report. report.status ≡ 2) }
    ensures remark { IfOk result (λ report. report.remark.items ≡ before.items ++ (failure_line failure.now ++ 10 ∷ [])) }
    ensures err { IfErr result (λ e. e ≡ CommandFault.OutOfMemory) }
{
    let line = failure_line(alloc, failure)?;
    let mut remark = before;
    remark.extend_from_slice(line.as_bytes())?;
    remark.push(b'\n')?;
    Ok(Report::on(alloc, contents, Vec::new(alloc), remark, 2))
}

/// The report on an answer or a failure, with these lines on the standard error before those of the answer, or before the line that says
/// why there is none.
pub(crate) fn report_on(
    alloc: Global,
    before: Vec<u8>,
    said: Result<Answer, Failure>,
    contents: Contents,
) -> Result<Report, CommandFault>
    ensures texts { IfOk result (λ report. report.texts ≡ contents.texts) }
    ensures codes { IfOk result (λ report. report.codes.items ≡ []) }
    ensures journal { IfOk result (λ report. report.journal ≡ contents.journal) }
    ensures reported { IfOk result (λ report. spec.IsReported said.entry report.output.items report.status) }
    ensures remarked { IfOk result (λ report. spec.IsRemarkedAfter before.items said.entry report.remark.items) }
    ensures sent { IfOk result (λ report. report.sent ≡ 0) }
    ensures quiet { IfOk result (λ report. report.status ≢ 2 → report.remark.items ≡ before.items) }
    ensures err { IfErr result (λ e. e ≡ CommandFault.OutOfMemory) }
{
    match said {
        Ok(answer) => report_on_answer(alloc, before, answer, contents),
        Err(Failure::OutOfMemory) => Err(CommandFault::OutOfMemory),
        Err(failure) => report_on_failure(alloc, before, &failure, contents),
    }
}

/// The same on the outcome of `explain` for files, of which these C files have annotations.
pub(crate) fn report_on_explanation(
    alloc: Global,
    before: Vec<u8>,
    said: Explanation<'_>,
    contents: Contents,
    codes: Vec<Option<Vec<u8>>>,
) -> Result<Report, CommandFault>
    ensures texts { IfOk result (λ report. report.texts ≡ contents.texts) }
    ensures codes { IfOk result (λ report. report.codes ≡ codes) }
    ensures reported { IfOk result (λ report. spec.IsReported (of_explain (said_of said.entry)) report.output.items report.status) }
    ensures sent { IfOk result (λ report. report.sent ≡ sent_in (said_of said.entry)) }
    ensures remarked { IfOk result (λ report. spec.IsRemarkedAfter before.items (of_explain (said_of said.entry)) report.remark.items) }
    ensures quiet { IfOk result (λ report. report.status ≢ 2 → report.remark.items ≡ before.items) }
    ensures err { IfErr result (λ e. (e ≡ CommandFault.OutOfMemory) × IsErr (said_of said.entry)) }
{
    match said {
        Explanation::Told(told, unread) => Ok(Report::on_reports(
            alloc,
            contents,
            codes,
            told,
            unread.as_slice(),
            before,
        )),
        Explanation::Unwritten(name, why) => {
            let mut report = report_on(
                alloc,
                before,
                Err(Failure::CannotWrite(name, why)),
                contents,
            )?;
            report.codes = codes;
            Ok(report)
        }
    }
}
