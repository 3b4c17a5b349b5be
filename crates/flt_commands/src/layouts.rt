//! The report on the outcomes of `format`.

ghost use Rattle.std.specs.Prelude.{◌≡◌, ◌≢◌, [], Bool, IfErr, IfOk, map};
ghost use Rattle.flt_files.specs.Attempts.{Does};
ghost use Rattle.flt_commands.specs.Commands.{IsAnswered};
ghost use Rattle.flt_words.specs.Request.{Format};

use crate::answer::Answer;
use crate::clean::{covered_texts_break_nothing, driven_texts_break_nothing};
use crate::report::{Report, report_on};
use flt_commands_explain::CommandFault;
use flt_commands_texts::{TextAnswer, all_remarks, format_files};
use flt_files::{Contents, Inputs, Pictures};
use flt_syntax::fails_exactly_where_nothing_is_spelled;
use flt_words::FormatMode;
use std::alloc::Global;

/// The report on `format` of some files. All files that it writes are written by then.
pub(crate) fn report_on_layouts<I: Inputs, P: Pictures>(
    alloc: Global,
    mode: FormatMode,
    inputs: &I,
    files: &[&str],
    pictures: &mut P,
) -> Result<Report, CommandFault>
    ensures answered { (shown : Bool) → IfOk result (IsAnswered shown (I.gives inputs.now) (P.written pictures.new)
        (Does (pictures.new ≡ pictures.old) (P.done pictures.old) (P.done pictures.new))
        (Format mode (map (λ name. name.now) files.now))) }
    ensures quiet { IfOk result (λ report. report.status ≢ 2 → report.remark.items ≡ []) }
    ensures sent { IfOk result (λ report. report.sent ≡ 0) }
    ensures err { IfErr result (λ e. e ≡ CommandFault.OutOfMemory) }
    ensures untouched { mode ≢ FormatMode.Write → pictures.new ≡ pictures.old }
{
    covered_texts_break_nothing();
    driven_texts_break_nothing();
    fails_exactly_where_nothing_is_spelled();
    let mut contents = Contents::new(alloc);
    let found = format_files(alloc, mode, inputs, files, pictures, &mut contents)?;
    let before = all_remarks(alloc, mode, &found)?;
    let answer = Answer::OfText(TextAnswer::Formatted(mode, found));
    report_on(alloc, before, Ok(answer), contents)
}
