//! The answer of `explain` to the names that it is given: reports of files, or pages.

ghost use Rattle.flt_door.specs.Lines.{Shows};
ghost use Rattle.std.specs.Prelude.{◌≡◌, ◌≢◌, [], ◌∷◌, None, IfErr, IfOk, OnErr, OnOk, length, map, option_map, string_bytes, take};
ghost use Rattle.flt_commands_explain.specs.Drifts.{drifts_told};
ghost use Rattle.flt_commands_explain.specs.Explain as spec;
ghost use Rattle.flt_commands_explain.specs.Html.{IsPageOn, IsPaged};
ghost use Rattle.flt_commands_explain.specs.Sources.{bytes_in, refused_names};
ghost use Rattle.flt_joined.specs.Made.{AreJoined};
ghost use Rattle.flt_joined.specs.Texts.{givens};
ghost use Rattle.flt_commands_explain.specs.Remarks.{unread_in};
ghost use Rattle.flt_explain_outcomes.specs.Noted.{AreNotes, first_journal};
ghost use Rattle.flt_explain_texts.specs.Reports.{texts_of};
ghost use Rattle.flt_files.specs.Attempts.{Does, Failed, Grows};

use crate::after::explain_after;
use crate::annotated::{NamedFiles, find_each};
use crate::answer::ExplainAnswer;
use crate::drifts::{drifted_files, tell_drifts};
use crate::fault::CommandFault;
use crate::finding_runs::runs_of;
use crate::html::page_on;
use crate::in_turn::lines_in_turn;
use crate::remarks::unread_lines;
use crate::sources::{add_refused, bytes_in, codes_in, sources_of};
use flt_explain_forms::{Style, lines};
use flt_explain_outcomes::{Note, RunSearch, first_journal, notes_on};
use flt_explain_pages::page;
use flt_explain_parts::DriftedFile;
use flt_explain_runs::{Asking, ExplainOutput, SearchWatch, explain};
use flt_explain_sarif::sarif;
use flt_explain_texts::{Printout, Source};
use flt_explain_warning_details::WarningOptions;
use flt_files::{Contents, Failure, Inputs, OutputFault, Pictures, UnreadFile};
use flt_joined::{GivenFile, JoinedTexts, join, source_files};
use flt_model::{Sink, journal_bytes};
use flt_words::{Form, SearchChoice, visible};
use sqlite_items::Items;
use std::alloc::{AllocError, Global};

/// A file's name, as a form prints it: a line of the short one is for a terminal.
fn told_name(alloc: Global, form: Form, name: &str) -> Result<String, AllocError>
    ensures { IfOk result (λ told. string_bytes told ≡ spec.told_name form name.now) }
{
    match form {
        Form::Short => visible(alloc, name),
        _ => String::from_str(alloc, name),
    }
}

/// The names of files, as a form prints them.
fn told_names(alloc: Global, form: Form, files: &[GivenFile<'_>]) -> Result<Vec<String>, AllocError>
    ensures { IfOk result (λ told. map string_bytes told.items ≡ map (λ file. spec.told_name form file.name.now) files.now) }
{
    let mut told = Vec::new(alloc);
    for file in files {
        let name = told_name(alloc, form, file.name)?;
        told.push(name)?;
    }
    Ok(told)
}

/// The outcome of `explain` for files.
#[derive(Drop)]
pub enum Explanation<'a> {
    /// The output, and the files that aren't read.
    Told(ExplainOutput, Vec<UnreadFile>),
    /// The journal isn't written into the file of this name.
    Unwritten(&'a str, OutputFault),
}

/// The options of `explain` for texts.
#[derive(Clone, Copy)]
pub struct ExplainOptions<'a> {
    pub form: Form,
    pub coloured: bool,
    /// How runs of the texts are looked for.
    pub search: SearchChoice,
    /// The file into which the journal of the first finding that has one is written.
    pub journal: Option<&'a str>,
    /// Which warnings are left out, and whether they count.
    pub options: WarningOptions,
    /// The names of the kinds that are left out, of which those of drifts count here.
    pub allowed: &'a [&'a str],
    /// Whether each file is taken for C, whatever its name ends with.
    pub is_c: bool,
}

/// How runs are looked for, by the words.
fn search_of(choice: SearchChoice) -> RunSearch
    ensures { result ≡ spec.search_of choice }
{
    RunSearch {
        states: choice.states,
        is_stack: choice.is_stack,
    }
}

/// The options of `explain`, for reports for people.
fn asking(asked: ExplainOptions<'_>, is_held: bool) -> Asking
    ensures coloured { result.coloured ≡ asked.entry.coloured }
    ensures search { result.search ≡ spec.search_of asked.entry.search }
    ensures held { result.is_held ≡ is_held }
    ensures options { result.options ≡ asked.entry.options }
{
    Asking {
        coloured: asked.coloured,
        search: search_of(asked.search),
        is_held,
        options: asked.options,
    }
}

/// Output without notes, all of which is written already.
fn sent(alloc: Global, explained: Printout) -> ExplainOutput
    ensures explained { result.explained ≡ explained }
    ensures noted { result.noted ≡ [] }
    ensures sent { result.sent ≡ length explained.output.items }
{
    ExplainOutput {
        sent: explained.output.len(),
        explained,
        noted: Items::new(alloc),
    }
}

/// Output of which nothing is written yet.
fn unsent(explained: Printout, noted: Items<Note>) -> ExplainOutput
    ensures explained { result.explained ≡ explained }
    ensures noted { result.noted ≡ noted }
    ensures sent { result.sent ≡ 0 }
{
    ExplainOutput {
        explained,
        noted,
        sent: 0,
    }
}

/// The page on some texts, after these drifts, of which nothing has gone out.
fn told_page<O: Sink, W: SearchWatch>(
    alloc: Global,
    asked: ExplainOptions<'_>,
    drifted: &[DriftedFile<'_>],
    sources: &[Source<'_>],
    out: &mut O,
    watch: &mut W,
) -> Result<ExplainOutput, CommandFault>
    ensures page { IfOk result (λ t. IsPageOn asked.entry.options (drifts_told Form.Html drifted.now) sources.now
        t.explained.output.items t.explained.status) }
    ensures paged { IfOk result (λ t.
        IsPaged (spec.look_of asked.entry) (drifts_told Form.Html drifted.now) sources.now t.noted t.explained.output.items
        t.explained.status) }
    ensures noted { IfOk result (λ t. AreNotes asked.entry.search.is_stack (texts_of sources.now) t.noted) }
    ensures sent { IfOk result (λ t. t.sent ≡ 0) }
    ensures held { out.new ≡ out.old }
    ensures err { IfErr result (λ e. e ≡ CommandFault.OutOfMemory) }
{
    let plain = Asking {
        coloured: false,
        search: search_of(asked.search),
        is_held: true,
        options: asked.options,
    };
    let told = explain(alloc, plain, sources, out, watch)?;
    let mut printed = tell_drifts(alloc, Form::Html, drifted)?;
    printed.extend_from_slice(told.explained.output.as_slice())?;
    let output = page_on(alloc, sources, printed.as_slice(), told.noted.as_slice())?;
    let status = told.explained.status;
    Ok(unsent(Printout { output, status }, told.noted))
}

/// The lines of some texts with the runs of their findings, before anything is written.
fn lines_with_runs<W: SearchWatch>(
    alloc: Global,
    asked: ExplainOptions<'_>,
    sources: &[Source<'_>],
    watch: &mut W,
) -> Result<ExplainOutput, CommandFault>
    ensures told { IfOk result (spec.AreToldWithRuns asked.entry.options sources.now) }
    ensures noted { IfOk result (λ t. AreNotes asked.entry.search.is_stack (texts_of sources.now) t.noted) }
    ensures sent { IfOk result (λ t. t.sent ≡ 0) }
    ensures err { IfErr result (λ e. e ≡ CommandFault.OutOfMemory) }
{
    let noted = notes_on(alloc, search_of(asked.search), sources, watch)?;
    let runs = runs_of(alloc, sources, noted.as_slice())?;
    let explained = lines(
        alloc,
        Style::Object,
        asked.options,
        sources,
        Some(runs.as_slice()),
    )?;
    Ok(unsent(explained, noted))
}

/// The same as a document, with drifts, and files that aren't read.
fn sarif_with_runs<W: SearchWatch>(
    alloc: Global,
    asked: ExplainOptions<'_>,
    drifted: &[DriftedFile<'_>],
    sources: &[Source<'_>],
    unread: &[UnreadFile],
    watch: &mut W,
) -> Result<ExplainOutput, CommandFault>
    ensures told { IfOk result (spec.IsToldWithRuns asked.entry.options drifted.now sources.now unread.now) }
    ensures noted { IfOk result (λ t. AreNotes asked.entry.search.is_stack (texts_of sources.now) t.noted) }
    ensures sent { IfOk result (λ t. t.sent ≡ 0) }
    ensures err { IfErr result (λ e. e ≡ CommandFault.OutOfMemory) }
{
    let noted = notes_on(alloc, search_of(asked.search), sources, watch)?;
    let runs = runs_of(alloc, sources, noted.as_slice())?;
    let explained = sarif(
        alloc,
        asked.options,
        sources,
        unread,
        runs.as_slice(),
        drifted,
    )?;
    Ok(unsent(explained, noted))
}

/// The output for some texts, in a form, with files that aren't read; a page and a document have drifts within them. Each text's part is
/// written as soon as it is made, unless the form is one document.
#[tactic(auto, using(crate::proofs::Sent::none_sent, crate::proofs::Faults::write_of, crate::proofs::Faults::memory_of))]
fn told_in_turn<O: Sink, W: SearchWatch>(
    alloc: Global,
    asked: ExplainOptions<'_>,
    drifted: &[DriftedFile<'_>],
    sources: &[Source<'_>],
    unread: &[UnreadFile],
    out: &mut O,
    watch: &mut W,
) -> Result<ExplainOutput, CommandFault>
    ensures told { IfOk result (spec.IsTold asked.entry.form asked.entry.options drifted.now sources.now unread.now) }
    ensures noted { IfOk result (λ t. spec.AreNotedFor asked.entry.search.is_stack asked.entry.form None (texts_of sources.now) t.noted) }
    ensures notes { IfOk result (spec.IsNoteTold asked.entry.form (texts_of sources.now) (spec.search_of asked.entry.search)) }
    ensures print { IfOk result (spec.IsPrintTold asked.entry.form (spec.look_of asked.entry) drifted.now sources.now) }
    ensures sent { IfOk result (λ t. Shows (O.taken out.old) (O.taken out.new) (take t.sent t.explained.output.items)) }
    ensures early { IfOk result (spec.GoesOutEarly asked.entry.form asked.entry.options sources.now (spec.search_of asked.entry.search)) }
    ensures cut { IfOk result (λ t.
        spec.IsCutIn asked.entry.form asked.entry.options
        (spec.search_of asked.entry.search) sources.now (O.taken out.old) (O.taken out.new)) }
    ensures held { spec.HoldsBack asked.entry.form None → out.new ≡ out.old }
    ensures fine { OnOk result (O.failures out.new ≡ O.failures out.old) }
    ensures write { IfErr result (λ e. e ≡ CommandFault.Write → O.failures out.new ≢ O.failures out.old) }
    ensures memory { IfErr result (λ e. e ≡ CommandFault.OutOfMemory →
        spec.IsCutIn asked.entry.form asked.entry.options
        (spec.search_of asked.entry.search) sources.now (O.taken out.old) (O.taken out.new)) }
{
    let options = asked.options;
    match asked.form {
        Form::Human => Ok(explain(alloc, asking(asked, false), sources, out, watch)?),
        Form::Short => Ok(sent(
            alloc,
            lines_in_turn(alloc, Style::Sentence, options, sources, out)?,
        )),
        Form::Lines => Ok(sent(
            alloc,
            lines_in_turn(alloc, Style::Object, options, sources, out)?,
        )),
        Form::Sarif => Ok(unsent(
            sarif(alloc, options, sources, unread, &[], drifted)?,
            Items::new(alloc),
        )),
        Form::LinesWithRuns => lines_with_runs(alloc, asked, sources, watch),
        Form::SarifWithRuns => sarif_with_runs(alloc, asked, drifted, sources, unread, watch),
        Form::Html => told_page(alloc, asked, drifted, sources, out, watch),
    }
}

/// The same with the outcomes of the findings in runs, before anything is written.
#[tactic(auto, using(crate::proofs::Sent::none_sent, crate::proofs::Faults::memory_alone))]
fn told_whole<O: Sink, W: SearchWatch>(
    alloc: Global,
    asked: ExplainOptions<'_>,
    drifted: &[DriftedFile<'_>],
    sources: &[Source<'_>],
    unread: &[UnreadFile],
    out: &mut O,
    watch: &mut W,
) -> Result<ExplainOutput, CommandFault>
    ensures told { IfOk result (spec.IsTold asked.entry.form asked.entry.options drifted.now sources.now unread.now) }
    ensures noted { IfOk result (λ t. AreNotes asked.entry.search.is_stack (texts_of sources.now) t.noted) }
    ensures notes { IfOk result (spec.IsNoteTold asked.entry.form (texts_of sources.now) (spec.search_of asked.entry.search)) }
    ensures print { IfOk result (spec.IsPrintTold asked.entry.form (spec.look_of asked.entry) drifted.now sources.now) }
    ensures sent { IfOk result (λ t. Shows (O.taken out.old) (O.taken out.new) (take t.sent t.explained.output.items)) }
    ensures held { out.new ≡ out.old }
    ensures err { IfErr result (λ e. e ≡ CommandFault.OutOfMemory) }
{
    let explained = match asked.form {
        Form::Human => return Ok(explain(alloc, asking(asked, true), sources, out, watch)?),
        Form::Short => lines(alloc, Style::Sentence, asked.options, sources, None)?,
        Form::Lines => lines(alloc, Style::Object, asked.options, sources, None)?,
        Form::Sarif => sarif(alloc, asked.options, sources, unread, &[], drifted)?,
        Form::LinesWithRuns => return lines_with_runs(alloc, asked, sources, watch),
        Form::SarifWithRuns => return sarif_with_runs(
            alloc, asked, drifted, sources, unread, watch,
        ),
        Form::Html => return told_page(alloc, asked, drifted, sources, out, watch),
    };
    let notes = notes_on(alloc, search_of(asked.search), sources, watch)?;
    Ok(unsent(explained, notes))
}

/// The output for some texts, in a form, with files that aren't read; a page and a document have drifts within them. If a file is named for
/// a journal, nothing is written before all is known.
#[tactic(auto, using(crate::proofs::Sent::cut_nowhere))]
pub(crate) fn told<O: Sink, W: SearchWatch>(
    alloc: Global,
    asked: ExplainOptions<'_>,
    drifted: &[DriftedFile<'_>],
    sources: &[Source<'_>],
    unread: &[UnreadFile],
    out: &mut O,
    watch: &mut W,
) -> Result<ExplainOutput, CommandFault>
    ensures told { IfOk result (spec.IsTold asked.entry.form asked.entry.options drifted.now sources.now unread.now) }
    ensures noted { IfOk result (λ t. spec.AreNotedFor asked.entry.search.is_stack asked.entry.form
        (option_map (λ name. name.now) asked.entry.journal) (texts_of sources.now) t.noted) }
    ensures notes { IfOk result (spec.IsNoteTold asked.entry.form (texts_of sources.now) (spec.search_of asked.entry.search)) }
    ensures print { IfOk result (spec.IsPrintTold asked.entry.form (spec.look_of asked.entry) drifted.now sources.now) }
    ensures sent { IfOk result (λ t. Shows (O.taken out.old) (O.taken out.new) (take t.sent t.explained.output.items)) }
    ensures cut { IfOk result (λ t.
        spec.IsCutIn asked.entry.form asked.entry.options
        (spec.search_of asked.entry.search) sources.now (O.taken out.old) (O.taken out.new)) }
    ensures held { spec.HoldsBack asked.entry.form (option_map (λ name. name.now) asked.entry.journal) → out.new ≡ out.old }
    ensures fine { OnOk result (O.failures out.new ≡ O.failures out.old) }
    ensures write { IfErr result (λ e. e ≡ CommandFault.Write → O.failures out.new ≢ O.failures out.old) }
    ensures memory { IfErr result (λ e. e ≡ CommandFault.OutOfMemory →
        spec.IsCutIn asked.entry.form asked.entry.options
        (spec.search_of asked.entry.search) sources.now (O.taken out.old) (O.taken out.new)) }
{
    match asked.journal {
        Some(_) => told_whole(alloc, asked, drifted, sources, unread, out, watch),
        None => told_in_turn(alloc, asked, drifted, sources, unread, out, watch),
    }
}

/// The output for the texts that files make, in a form, with the drifts of the C files among them.
fn told_joined<'s, O: Sink, W: SearchWatch>(
    alloc: Global,
    asked: ExplainOptions<'_>,
    files: &'s [GivenFile<'s>],
    joined: &'s JoinedTexts,
    unread: &[UnreadFile],
    out: &mut O,
    watch: &mut W,
) -> Result<ExplainOutput, CommandFault>
    requires { AreJoined files.now joined.now }
    ensures told { IfOk result (spec.IsToldOfFiles asked.entry.form (spec.look_of asked.entry)
        (map (λ name. name.now) asked.entry.allowed.now)
        (option_map (λ name. name.now) asked.entry.journal) (givens files.now) (refused_names files.now joined.now.refused.items)
        (bytes_in joined.now.texts.items) unread.now) }
    ensures sent { IfOk result (λ t. Shows (O.taken out.old) (O.taken out.new) (take t.sent t.explained.output.items)) }
    ensures held { spec.HoldsBack asked.entry.form (option_map (λ name. name.now) asked.entry.journal) → out.new ≡ out.old }
    ensures fine { OnOk result (O.failures out.new ≡ O.failures out.old) }
    ensures write { IfErr result (λ e. e ≡ CommandFault.Write → O.failures out.new ≢ O.failures out.old) }
    ensures memory { IfErr result (λ e. e ≡ CommandFault.OutOfMemory →
        spec.IsCutOfFiles asked.entry.form asked.entry.options
        (spec.search_of asked.entry.search) (map (λ name. name.now) asked.entry.allowed.now)
        (givens files.now) (O.taken out.old) (O.taken out.new)) }
    ensures cut { OnOk result
        (spec.IsCutOfFiles asked.entry.form asked.entry.options
        (spec.search_of asked.entry.search) (map (λ name. name.now) asked.entry.allowed.now)
        (givens files.now) (O.taken out.old) (O.taken out.new)) }
{
    let drifted = drifted_files(alloc, asked.allowed, files)?;
    let names = told_names(alloc, asked.form, files)?;
    let own = source_files(alloc, files, names.as_slice())?;
    let sources = sources_of(alloc, joined.texts.as_slice(), own.as_slice())?;
    explain_after(
        alloc,
        asked,
        drifted.as_slice(),
        sources.as_slice(),
        unread,
        out,
        watch,
    )
}

/// Writes the journal of the first finding that has one, if there is one, into a file that is none of the inputs. Returns why that failed,
/// if it did.
fn write_journal<P: Pictures>(
    alloc: Global,
    inputs: &[&str],
    name: &str,
    noted: &[Note],
    pictures: &mut P,
) -> Result<Result<(), OutputFault>, AllocError>
    ensures spelled { IfOk result (λ tried. OnOk tried (spec.IsSpelledAs (P.written pictures.new)
        (Does (pictures.new ≡ pictures.old) (P.done pictures.old) (P.done pictures.new)) name.now (first_journal noted.now))) }
    ensures failed { IfOk result (λ tried. OnErr tried (Grows (P.done pictures.old) (P.done pictures.new) (Failed name.now ∷ []))) }
{
    match first_journal(noted) {
        Some(journal) => {
            let bytes = journal_bytes(alloc, journal)?;
            pictures.write(alloc, inputs, name, bytes.as_slice())
        }
        None => Ok(Ok(())),
    }
}

/// The outcome for some files, after the journal of the first finding that has one is written, if a file is named for it.
fn keep<'a, P: Pictures>(
    alloc: Global,
    inputs: &[&'a str],
    journal: Option<&'a str>,
    told: ExplainOutput,
    unread: Vec<UnreadFile>,
    pictures: &mut P,
) -> Result<Explanation<'a>, AllocError>
    ensures said { IfOk result (spec.IsToldOrUnwritten told unread.items (option_map (λ name. name.now) journal.entry)) }
    ensures written { IfOk result (λ said. spec.IsWrittenFor (P.written pictures.new)
        (Does (pictures.new ≡ pictures.old) (P.done pictures.old) (P.done pictures.new))
        (option_map (λ name. name.now) journal.entry) (spec.said_of said)) }
    ensures none { OnErr result (journal.entry ≢ None) }
    ensures untouched { journal.entry ≡ None → pictures.new ≡ pictures.old }
{
    let Some(name) = journal else {
        return Ok(Explanation::Told(told, unread));
    };
    match write_journal(alloc, inputs, name, told.noted.as_slice(), pictures)? {
        Ok(()) => Ok(Explanation::Told(told, unread)),
        Err(why) => Ok(Explanation::Unwritten(name, why)),
    }
}

/// The outcome of `explain`, in a form, for those of its names that can be read, and the texts that these files make, of C files by their
/// annotations, after the drifts of these; `contents` becomes the texts, `codes` the C files, and `remark` whole lines on the names that
/// give no text, or with which one would be too long. The journal of the first finding that has one is written into a file, if one is
/// named; else the drifts are written first and the output for each text as soon as it is made, unless the form is one document.
#[tactic(auto, using(crate::proofs::Sent::cut_short))]
pub fn explain_files<'a, I: Inputs, P: Pictures, O: Sink, W: SearchWatch>(
    alloc: Global,
    asked: ExplainOptions<'a>,
    inputs: &I,
    files: &[&'a str],
    pictures: &mut P,
    out: &mut O,
    watch: &mut W,
    contents: &mut Contents,
    codes: &mut Vec<Option<Vec<u8>>>,
    remark: &mut Vec<u8>,
) -> Result<Explanation<'a>, CommandFault>
    ensures said { IfOk result (λ said. spec.IsExplained (I.gives inputs.now) asked.entry.is_c asked.entry.form (spec.look_of asked.entry)
        (map (λ name. name.now) asked.entry.allowed.now) (option_map (λ name. name.now) asked.entry.journal)
        (map (λ name. name.now) files.now) (map (option_map (λ code. code.items)) codes.new.items)
        (map (λ text. text.items) contents.new.texts.items) (spec.said_of said)) }
    ensures unread { IfOk result (λ said. IfOk (spec.said_of said) (λ answer. remark.new.items ≡ unread_in answer)) }
    ensures written { IfOk result (λ said. spec.IsWrittenFor (P.written pictures.new)
        (Does (pictures.new ≡ pictures.old) (P.done pictures.old) (P.done pictures.new))
        (option_map (λ name. name.now) asked.entry.journal) (spec.said_of said)) }
    ensures sent { IfOk result (λ said. spec.IsSent (O.taken out.old) (O.taken out.new) (spec.said_of said)) }
    ensures held { spec.HoldsBack asked.entry.form (option_map (λ name. name.now) asked.entry.journal) → out.new ≡ out.old }
    ensures fine { OnOk result (O.failures out.new ≡ O.failures out.old) }
    ensures write { IfErr result (λ e. e ≡ CommandFault.Write → O.failures out.new ≢ O.failures out.old) }
    ensures memory { IfErr result (λ e. e ≡ CommandFault.OutOfMemory →
        spec.IsCutShort (I.gives inputs.now) asked.entry.is_c asked.entry.form asked.entry.options (spec.search_of asked.entry.search)
        (map (λ name. name.now) asked.entry.allowed.now) (map (λ name. name.now) files.now) (O.taken out.old) (O.taken out.new)) }
    ensures untouched { asked.entry.journal ≡ None → pictures.new ≡ pictures.old }
{
    let NamedFiles { read, mut unread } = find_each(alloc, inputs, asked.is_c, files)?;
    let joined = join(alloc, read.as_slice())?;
    add_refused(
        alloc,
        &mut unread,
        read.as_slice(),
        joined.refused.as_slice(),
    )?;
    *remark = unread_lines(alloc, unread.as_slice())?;
    // Room for these is requested before anything is written: no whole output is followed by a refusal.
    let texts = Vec::with_capacity(alloc, joined.texts.len())?;
    let all_codes = Vec::with_capacity(alloc, read.len())?;
    let told = told_joined(
        alloc,
        asked,
        read.as_slice(),
        &joined,
        unread.as_slice(),
        out,
        watch,
    )?;
    contents.texts = bytes_in(texts, joined.texts);
    *codes = codes_in(all_codes, read);
    let said = keep(alloc, files, asked.journal, told, unread, pictures)?;
    Ok(said)
}

/// The pages of some names, in order.
pub fn pages_of<'a>(alloc: Global, names: &[&'a str]) -> Result<ExplainAnswer, Failure<'a>>
    ensures { spec.ArePaged (map (λ name. name.now) names.now) result }
{
    let mut pages = Vec::new(alloc);
    for name in names {
        match page(name) {
            Some(text) => pages.push(text)?,
            None => return Err(Failure::CannotRead(name)),
        }
    }
    Ok(ExplainAnswer::Pages(pages))
}
