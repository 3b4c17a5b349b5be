//! Reports on some texts, with the outcomes of their findings in runs.

ghost use Rattle.std.specs.Prelude.{◌≡◌, ◌≢◌, ◌≤◌, ◌++◌, true, false, IfOk, IfErr, OnOk, length, take};
ghost use Rattle.flt_door.specs.Lines.{Shows};
ghost use Rattle.flt_explain_texts.specs.Reports.{texts_of};
ghost use Rattle.flt_explain_outcomes.specs.Noted.{AreNotes};
ghost use Rattle.flt_explain_outcomes.specs.Readings.{files_by, files_read};
ghost use Rattle.flt_explain_runs.specs.Reported as spec;
ghost use Rattle.flt_explain_runs.specs.Told.{Tells};
ghost use Rattle.flt_explain_runs.specs.Whole.{IsPrint, look_for};

use crate::fault::ExplainFault;
use crate::printing::Printer;
use crate::together::PrintedTexts;
use flt_explain_outcomes::{Note, Reading, RunSearch, Stage, StudiedText, read_all};
use flt_explain_texts::{Printout, Source};
use flt_explain_warning_details::WarningOptions;
use flt_model::Sink;
use flt_places::Files;
use flt_search::SearchWatch;
use sqlite_items::Items;
use std::alloc::{AllocError, Global};

/// The settings of reports on texts.
#[derive(Clone, Copy)]
pub struct Asking {
    /// Whether escape sequences of a terminal colour the reports.
    pub coloured: bool,
    /// How runs of the texts are looked for.
    pub search: RunSearch,
    /// Whether nothing is put out before everything is known.
    pub is_held: bool,
    /// Which warnings are left out, and whether they count.
    pub options: WarningOptions,
}

/// The output, and the notes on the findings in it: one for each finding that is reported by itself, in their order.
#[derive(Drop)]
pub struct ExplainOutput {
    pub explained: Printout,
    pub noted: Items<Note>,
    /// How many bytes of the output are put out already.
    pub sent: usize,
}

/// Adds the files of a text, if it parses.
fn add_files<'a>(all: &mut Vec<Files<'a>>, studied: &StudiedText<'a>) -> Result<(), AllocError>
    ensures { OnOk result (all.new.items ≡ all.old.items ++ files_by studied.now.reading studied.now.source) }
{
    if let Reading::Known(_) = studied.reading {
        all.push(studied.source.files)?;
    }
    Ok(())
}

/// The files of each text that parses.
fn files_in<'a>(alloc: Global, each: &[StudiedText<'a>]) -> Result<Vec<Files<'a>>, AllocError>
    ensures { IfOk result (λ all. all.items ≡ files_read each.now) }
{
    let mut all = Vec::new(alloc);
    for studied in each {
        add_files(&mut all, studied)?;
    }
    Ok(all)
}

/// The output for texts, with its status.
fn finished(printed: PrintedTexts) -> ExplainOutput
    ensures output { result.explained.output.items ≡ printed.bytes.items }
    ensures status { result.explained.status ≡ printed.total.status }
    ensures noted { result.noted ≡ printed.noted }
    ensures sent { result.sent ≡ printed.sent }
{
    let PrintedTexts {
        bytes,
        noted,
        total,
        sent,
    } = printed;
    ExplainOutput {
        explained: Printout {
            output: bytes,
            status: total.status,
        },
        noted,
        sent,
    }
}

/// Reports on some texts for people: each finding with the lines of its file that show it, a path that leads there, how to fix it, and a
/// journal that breaks what its rule prevents, if one is found. Journals are looked for by one search for all findings of a text, up to so
/// many states, in runs of the text's filter alone. If the texts are those of one stack and the filter meets another one on an operation,
/// half of the states are for runs of all that parse, and the rest for the findings without a journal there. The last line of each text is
/// that of `analyse`, or `nothing found`; after those of several texts a line says how many findings there are, and in how many of the
/// texts. Before `nothing found` a text has its warnings that no comment of it allows, and how many they are. A text that doesn't parse
/// and begins as a certificate, a journal or a script is taken for one: its report says why a line of it is malformed, and its last line
/// is that of `check`, `replay` or `run`, or `nothing found`. A script is taken for one for the filters of the texts that parse, or, if
/// none does, for whichever filters it detaches.
///
/// Unless it is held back, the report of each text but the last is put out before the next one's findings are looked for.
///
/// # Errors
///
/// `OutOfMemory` if memory is refused, or a number or a count would reach 2^32: then whole reports of the first texts are put out. `Write`
/// if a report can't be put out.
pub fn explain<O: Sink, W: SearchWatch>(
    alloc: Global,
    asking: Asking,
    sources: &[Source<'_>],
    out: &mut O,
    watch: &mut W,
) -> Result<ExplainOutput, ExplainFault>
    ensures reports { IfOk result (λ t. spec.AreReports asking.options sources.now t.explained.output.items t.explained.status) }
    ensures noted { IfOk result (λ t. AreNotes asking.search.is_stack (texts_of sources.now) t.noted) }
    ensures said { IfOk result (λ t. Tells (texts_of sources.now) asking.search t.noted t.explained.output.items) }
    ensures print { IfOk result (λ t. IsPrint (look_for asking) sources.now t.noted t.explained.output.items t.explained.status) }
    ensures within { IfOk result (λ t. t.sent ≤ length t.explained.output.items) }
    ensures sent { IfOk result (λ t. Shows (O.taken out.old) (O.taken out.new) (take t.sent t.explained.output.items)) }
    ensures early { IfOk result (λ t. asking.is_held ≡ false →
        spec.IsAllButLast asking.options sources.now asking.search (take t.sent t.explained.output.items)) }
    ensures late { IfOk result (λ t. asking.is_held ≡ true → t.sent ≡ 0) }
    ensures held { asking.is_held ≡ true → out.new ≡ out.old }
    ensures fine { OnOk result (O.failures out.new ≡ O.failures out.old) }
    ensures write { IfErr result (λ e. e ≡ ExplainFault.Write → O.failures out.new ≢ O.failures out.old) }
    ensures memory { IfErr result (λ e. e ≡ ExplainFault.OutOfMemory →
        spec.IsCut asking.options sources.now asking.search (O.taken out.old) (O.taken out.new)) }
{
    let readings = read_all(alloc, sources)?;
    let each = readings.each.as_slice();
    let files = files_in(alloc, each)?;
    let printer = Printer {
        stage: Stage {
            alloc,
            trees: readings.trees.as_slice(),
            search: asking.search,
        },
        coloured: asking.coloured,
        files: files.as_slice(),
        options: asking.options,
    };
    let printed = printer.put_all(each, asking.is_held, out, watch)?;
    Ok(finished(printed))
}
