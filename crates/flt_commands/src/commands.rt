//! The commands, over inputs and writers.

ghost use Rattle.std.specs.Io.KnownBytes.{Appends};
ghost use Rattle.std.specs.Prelude.{◌≡◌, ◌≢◌, ◌⊎◌, [], OnOk, IfOk, IfErr, drop, map, option_map, take, unwrap_or};
ghost use Rattle.flt_files.specs.Attempts.{Does};
ghost use Rattle.flt_commands.specs.Commands as spec;
ghost use Rattle.flt_commands_explain.specs.Explain.{is_coloured as is_coloured_as};
ghost use Rattle.flt_door.specs.Lines.{Shows};
ghost use Rattle.flt_words.specs.Request.{asked_of};

use crate::answer::{Answer, of_explain, of_run, of_text};
use crate::clean::{covered_texts_break_nothing, driven_texts_break_nothing};
use crate::explained::report_on_files;
use crate::layouts::report_on_layouts;
use crate::report::{Report, report_on};
use crate::search::{Search, WatchSearch};
use flt_commands_explain::{CommandFault, ExplainOptions, options_of, pages_of};
use flt_commands_runs::{
    WatchDeadlock, replay_files, run_files, show_files, show_remark, tell_deadlock,
};
use flt_commands_texts::{
    analyse_file, check_files, compare_files, emit_files, emit_files_into, extract_files,
    into_remark, list_functions, thin_files,
};
use flt_door::all_that_goes_out_is_shown;
use flt_files::{Contents, Failure, Inputs, Pictures, Texts};
use flt_model::{Sink, put_all};
use flt_stack_crew::{NoWatch, Watch};
use flt_syntax::fails_exactly_where_nothing_is_spelled;
use flt_words::{Colour, FormatMode, Request};
use std::alloc::Global;
use std::sync::Wait;
use std::thread::Threads;

/// The name of the certificate, or of the text that has it.
fn last_of<'a>(file: &'a str, cert: Option<&'a str>) -> &'a str
    ensures { result.now ≡ unwrap_or (option_map (λ name. name.now) cert.entry) file.entry.now }
{
    match cert {
        Some(cert) => cert,
        None => file,
    }
}

/// Whether reports have colours; `shown` says whether the output is a terminal that shows them.
fn is_coloured(colour: Colour, shown: bool) -> bool
    ensures { result ≡ is_coloured_as colour shown }
{
    match colour {
        Colour::Auto => shown,
        Colour::Always => true,
        Colour::Never => false,
    }
}

/// Why a report answers no request for a server: no name gives it the standard input.
fn unserved() -> Result<Answer, Failure<'static>>
    ensures { spec.IsUnserved result }
{
    Err(Failure::CannotRead("-"))
}

/// Whether a request is for bytes of the user on the standard output.
fn gives_bytes(request: &Request) -> bool
    ensures { result ≡ spec.gives_bytes (asked_of request.now) }
{
    match request {
        Request::Extract { .. } => true,
        Request::Format {
            mode: FormatMode::Print,
            ..
        } => true,
        Request::Emit { .. } => true,
        _ => false,
    }
}

/// The report on a request. A part of the output of `explain` may be written already.
#[tactic(auto, using(crate::proofs::SentFor::cut_short_for, flt_commands_explain::proofs::Sent::none_sent))]
fn report_of<
    'a,
    R: Threads + Wait + Sync,
    I: Inputs,
    P: Pictures,
    O: Sink,
    W: Watch + WatchDeadlock + WatchSearch,
>(
    rt: &R,
    alloc: Global,
    request: Request<'a>,
    inputs: &'a I,
    pictures: &mut P,
    coloured: bool,
    out: &mut O,
    watch: &mut W,
) -> Result<Report, CommandFault>
    ensures answers { IfOk result (spec.AnswersFor coloured (I.gives inputs.now) (P.written pictures.new)
        (Does (pictures.new ≡ pictures.old) (P.done pictures.old) (P.done pictures.new)) (asked_of request.entry)) }
    ensures quiet { IfOk result (λ report. report.status ≢ 2 → spec.NamesNoJournal (asked_of request.entry) →
        report.remark.items ≡ []) }
    ensures sent { IfOk result (λ report. Shows (O.taken out.old) (O.taken out.new) (take report.sent report.output.items)) }
    ensures fine { OnOk result (O.failures out.new ≡ O.failures out.old) }
    ensures write { IfErr result (λ e. e ≡ CommandFault.Write → O.failures out.new ≢ O.failures out.old) }
    ensures memory { IfErr result (λ e. e ≡ CommandFault.OutOfMemory →
        spec.IsCutShort (I.gives inputs.now) (asked_of request.entry) (O.taken out.old) (O.taken out.new)) }
    ensures held { spec.HoldsBack (asked_of request.entry) → out.new ≡ out.old }
    ensures untouched { spec.WritesNoFile (asked_of request.entry) → pictures.new ≡ pictures.old }
{
    covered_texts_break_nothing();
    driven_texts_break_nothing();
    fails_exactly_where_nothing_is_spelled();
    let mut contents = Contents::new(alloc);
    match request {
        Request::Usage(text) => Ok(Report::on_usage(alloc, text)),
        Request::Check { file, cert } => {
            let whole = Some(last_of(file, cert));
            let said = check_files(alloc, &Texts { inputs, whole }, file, cert, &mut contents);
            report_on(alloc, Vec::new(alloc), of_text(said), contents)
        }
        Request::Analyse { file } => {
            let whole = None;
            let said = analyse_file(alloc, &Texts { inputs, whole }, file, &mut contents);
            report_on(alloc, Vec::new(alloc), of_text(said), contents)
        }
        Request::Thin { file, cert } => {
            let whole = Some(last_of(file, cert));
            let said = thin_files(alloc, &Texts { inputs, whole }, file, cert, &mut contents);
            report_on(alloc, Vec::new(alloc), of_text(said), contents)
        }
        Request::Run {
            workers,
            quiet: true,
            script,
            files,
        } => {
            let files = files.as_slice();
            let whole = Some(script);
            let said = run_files(
                rt,
                alloc,
                workers,
                &Texts { inputs, whole },
                script,
                files,
                &mut NoWatch,
                &mut contents,
            );
            report_on(alloc, Vec::new(alloc), of_run(said), contents)
        }
        Request::Run {
            workers,
            script,
            files,
            ..
        } => {
            let whole = Some(script);
            let said = run_files(
                rt,
                alloc,
                workers,
                &Texts { inputs, whole },
                script,
                files.as_slice(),
                watch,
                &mut contents,
            );
            tell_deadlock(alloc, &said, &contents, watch)?;
            report_on(alloc, Vec::new(alloc), of_run(said), contents)
        }
        Request::Replay { journal, files } => {
            let files = files.as_slice();
            let whole = Some(journal);
            let inputs = Texts { inputs, whole };
            let said = replay_files(alloc, &inputs, journal, files, &mut contents);
            report_on(alloc, Vec::new(alloc), of_run(said), contents)
        }
        Request::Show {
            timeline,
            picture,
            journal,
            files,
        } => {
            let files = files.as_slice();
            let whole = Some(journal);
            let said = show_files(
                alloc,
                &Texts { inputs, whole },
                timeline,
                picture,
                journal,
                files,
                pictures,
                &mut contents,
            );
            let before = show_remark(alloc, &said)?;
            report_on(alloc, before, of_run(said), contents)
        }
        Request::Explain {
            form,
            colour,
            search,
            journal,
            warnings,
            is_c,
            files,
        } => {
            let asked = ExplainOptions {
                form,
                coloured: is_coloured(colour, coloured),
                search,
                journal,
                options: options_of(&warnings),
                allowed: warnings.allowed.as_slice(),
                is_c,
            };
            let mut watched = Search {
                watch,
                most: search.states,
            };
            let files = files.as_slice();
            report_on_files(alloc, asked, inputs, files, pictures, out, &mut watched)
        }
        Request::Extract { map, files } => {
            let said = extract_files(alloc, inputs, map, files.as_slice(), &mut contents);
            report_on(alloc, Vec::new(alloc), of_text(said), contents)
        }
        Request::Format { mode, files } => {
            let files = files.as_slice();
            report_on_layouts(alloc, mode, inputs, files, pictures)
        }
        Request::Pages { names } => {
            let said = pages_of(alloc, names.as_slice());
            report_on(alloc, Vec::new(alloc), of_explain(said), contents)
        }
        Request::Emit { part, file, cert } => {
            let whole = cert;
            let said = emit_files(
                alloc,
                &Texts { inputs, whole },
                part,
                file,
                cert,
                &mut contents,
            );
            report_on(alloc, Vec::new(alloc), of_text(said), contents)
        }
        Request::EmitInto {
            folder,
            is_forced,
            file,
            cert,
        } => {
            let said = emit_files_into(
                alloc,
                inputs,
                folder,
                is_forced,
                file,
                cert,
                pictures,
                &mut contents,
            );
            let before = into_remark(alloc, &said)?;
            report_on(alloc, before, of_text(said), contents)
        }
        Request::Compare { files } => {
            let said = compare_files(alloc, inputs, files.as_slice(), &mut contents);
            report_on(alloc, Vec::new(alloc), of_text(said), contents)
        }
        Request::Functions {
            defined,
            undefined,
            folders,
            files,
        } => {
            let said = list_functions(
                alloc,
                inputs,
                defined.as_slice(),
                undefined.as_slice(),
                folders.as_slice(),
                files.as_slice(),
                &mut contents,
            );
            report_on(alloc, Vec::new(alloc), of_text(said), contents)
        }
        Request::Serve => { report_on(alloc, Vec::new(alloc), unserved(), contents) }
    }
}

/// Writes the rest of a report's output, and its lines for the standard error last.
fn write_report<O: Sink, E: Sink>(
    report: &Report,
    out: &mut O,
    err: &mut E,
) -> Result<(), CommandFault>
    ensures prints { OnOk result (Appends (O.taken out.old) (O.taken out.new) (drop report.now.sent report.now.output.items)) }
    ensures remarks { OnOk result (Appends (E.taken err.old) (E.taken err.new) report.now.remark.items) }
    ensures write { IfErr result (λ e. (e ≡ CommandFault.Write) × ((O.failures out.new ≢ O.failures out.old)
        ⊎ (E.failures err.new ≢ E.failures err.old))) }
    ensures fine { OnOk result ((O.failures out.new ≡ O.failures out.old) × (E.failures err.new ≡ E.failures err.old)) }
    ensures quiet { OnOk result (report.now.remark.items ≡ [] → err.new ≡ err.old) }
{
    put_all(out, report.rest())?;
    if report.remark.is_empty() {
        return Ok(());
    }
    put_all(err, report.remark.as_slice())?;
    Ok(())
}

/// Runs the command of a request, and returns the report on it once it is written. The answer goes to `out`;
/// the line that says why there is no answer, `full`, `detached already`, `receipts differ`, or that no run is found for a journal goes to
/// `err`; a picture, a journal, a layout or a driver for files goes to `pictures`. The output of `explain` for a file is written as soon as
/// it is made, unless it is one document or a file is named for a journal. All that is written passes the door of `flt_door`, but for the
/// user's own bytes: the text of annotations, a layout and a part of a driver.
/// Reports of `explain` have the colours of a terminal if `coloured`,
/// unless the request says when. A command that drives filters reports each line of the script to `watch`, unless the request is for quiet, and
/// one that searches for runs how far it has come, if the request allows more states than the default. Threads are started by `run` alone, if
/// it has more than one worker. `serve` has no answer here: the report says that `-` can't be read. The server is
/// `serve_client`.
///
/// # Errors
///
/// `OutOfMemory` if a growth is refused: nothing is written then, except the output of `explain` for the first files. `Write` if a write
/// fails.
#[tactic(auto, using(crate::proofs::SentFor::cut_short_for))]
pub fn command<
    'a,
    R: Threads + Wait + Sync,
    I: Inputs,
    P: Pictures,
    O: Sink,
    E: Sink,
    W: Watch + WatchDeadlock + WatchSearch,
>(
    rt: &R,
    alloc: Global,
    request: Request<'a>,
    inputs: &'a I,
    pictures: &mut P,
    coloured: bool,
    out: &mut O,
    err: &mut E,
    watch: &mut W,
) -> Result<Report, CommandFault>
    ensures answers { IfOk result (spec.Answers coloured (I.gives inputs.now) (P.written pictures.new)
        (Does (pictures.new ≡ pictures.old) (P.done pictures.old) (P.done pictures.new)) (asked_of request.entry)) }
    ensures shown { IfOk result (spec.AllIsShown (asked_of request.entry)) }
    ensures prints { IfOk result (λ report. Appends (O.taken out.old) (O.taken out.new) report.output.items) }
    ensures remarks { IfOk result (λ report. Appends (E.taken err.old) (E.taken err.new) report.remark.items) }
    ensures write { IfErr result (λ e. e ≡ CommandFault.Write → (O.failures out.new ≢ O.failures out.old)
        ⊎ (E.failures err.new ≢ E.failures err.old)) }
    ensures fine { OnOk result ((O.failures out.new ≡ O.failures out.old) × (E.failures err.new ≡ E.failures err.old)) }
    ensures memory { IfErr result (λ e. e ≡ CommandFault.OutOfMemory → (err.new ≡ err.old)
        × spec.IsCutShort (I.gives inputs.now) (asked_of request.entry) (O.taken out.old) (O.taken out.new)) }
    ensures held { IfErr result (λ e. e ≡ CommandFault.OutOfMemory → spec.HoldsBack (asked_of request.entry) →
        out.new ≡ out.old) }
    ensures quiet { IfOk result (λ report. report.status ≢ 2 → spec.NamesNoJournal (asked_of request.entry) →
        err.new ≡ err.old) }
    ensures untouched { spec.WritesNoFile (asked_of request.entry) → pictures.new ≡ pictures.old }
{
    all_that_goes_out_is_shown();
    let is_own = gives_bytes(&request);
    let mut report = report_of(rt, alloc, request, inputs, pictures, coloured, out, watch)?;
    report.let_out(is_own);
    write_report(&report, out, err)?;
    Ok(report)
}
