//! The report on the outcome of `explain` for files.

ghost use Rattle.flt_door.specs.Lines.{Shows};
ghost use Rattle.std.specs.Prelude.{◌≡◌, ◌≢◌, [], Bool, IfErr, IfOk, None, OnOk, Some, map, option_map, take};
ghost use Rattle.flt_commands_explain.specs.Allowed.{options_of};
ghost use Rattle.flt_files.specs.Attempts.{Does};
ghost use Rattle.flt_commands.specs.Commands.{IsAnswered, NamesNoJournal};
ghost use Rattle.flt_commands_explain.specs.Explain as spec;
ghost use Rattle.flt_words.specs.Request.{Choice, Explain};
ghost use Rattle.flt_words.specs.declared.request.Colour.{Colour};

use crate::clean::{covered_texts_break_nothing, driven_texts_break_nothing};
use crate::report::{Report, report_on_explanation};
use flt_commands_explain::{CommandFault, ExplainOptions, explain_files, explain_remark};
use flt_explain_runs::SearchWatch;
use flt_files::{Contents, Inputs, Pictures};
use flt_model::Sink;
use flt_syntax::fails_exactly_where_nothing_is_spelled;
use std::alloc::Global;

/// The report on `explain` for some files, for C files by their annotations, after the drifts of these. The output for a file is written as
/// soon as it is made, unless all of it is held back.
pub(crate) fn report_on_files<'a, I: Inputs, P: Pictures, O: Sink, W: SearchWatch>(
    alloc: Global,
    asked: ExplainOptions<'a>,
    inputs: &I,
    files: &[&'a str],
    pictures: &mut P,
    out: &mut O,
    watch: &mut W,
) -> Result<Report, CommandFault>
    ensures answered { (colour : Colour) → (shown : Bool) → (warnings : Choice) → asked.entry.coloured ≡ spec.is_coloured colour shown →
        asked.entry.options ≡ options_of warnings → map (λ name. name.now) asked.entry.allowed.now ≡ warnings.allowed →
        IfOk result (IsAnswered shown (I.gives inputs.now) (P.written pictures.new)
        (Does (pictures.new ≡ pictures.old) (P.done pictures.old) (P.done pictures.new))
        (Explain asked.entry.form colour asked.entry.search (option_map (λ name. name.now) asked.entry.journal) warnings
        asked.entry.is_c (map (λ name. name.now) files.now))) }
    ensures quiet { (colour : Colour) → (warnings : Choice) → IfOk result (λ report. report.status ≢ 2 →
        NamesNoJournal (Some (Explain asked.entry.form colour asked.entry.search (option_map (λ name. name.now) asked.entry.journal)
        warnings asked.entry.is_c (map (λ name. name.now) files.now))) → report.remark.items ≡ []) }
    ensures sent { IfOk result (λ report. Shows (O.taken out.old) (O.taken out.new) (take report.sent report.output.items)) }
    ensures held { spec.HoldsBack asked.entry.form (option_map (λ name. name.now) asked.entry.journal) → out.new ≡ out.old }
    ensures fine { OnOk result (O.failures out.new ≡ O.failures out.old) }
    ensures write { IfErr result (λ e. e ≡ CommandFault.Write → O.failures out.new ≢ O.failures out.old) }
    ensures memory { IfErr result (λ e. e ≡ CommandFault.OutOfMemory →
        spec.IsCutShort (I.gives inputs.now) asked.entry.is_c asked.entry.form asked.entry.options (spec.search_of asked.entry.search)
        (map (λ name. name.now) asked.entry.allowed.now) (map (λ name. name.now) files.now) (O.taken out.old) (O.taken out.new)) }
    ensures untouched { asked.entry.journal ≡ None → pictures.new ≡ pictures.old }
{
    covered_texts_break_nothing();
    driven_texts_break_nothing();
    fails_exactly_where_nothing_is_spelled();
    let mut contents = Contents::new(alloc);
    let mut codes = Vec::new(alloc);
    let mut remark = Vec::new(alloc);
    let said = explain_files(
        alloc,
        asked,
        inputs,
        files,
        pictures,
        out,
        watch,
        &mut contents,
        &mut codes,
        &mut remark,
    )?;
    let before = explain_remark(alloc, remark, asked.journal, &said)?;
    report_on_explanation(alloc, before, said, contents, codes)
}
