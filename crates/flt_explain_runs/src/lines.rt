//! The words on a finding's outcome: the line that has them, and the rows after it.

ghost use Rattle.std.specs.Prelude.{◌≡◌, ◌++◌, Some, IfOk, OnOk, codes, map, string_bytes};
ghost use Rattle.flt_model.specs.Verdicts.{verdict_line};
ghost use Rattle.flt_model.specs.declared.verdict.Verdict.TheVariants.{Breaks};
ghost use Rattle.flt_explain_runs.specs.Lines as spec;
ghost use Rattle.flt_explain_outcomes.specs.Noted.{schedule_of as schedule_in};
ghost use Rattle.flt_explain_runs.specs.Rows.{AreJournalRows, AreNoteRows, AreRunRows};

use flt_explain_outcomes::{
    Note, RunSearch, Schedule, SetterOutcome, Unset, own_files, own_trees, schedule_of,
};
use flt_explain_timeline::Timeline;
use flt_graph::Place;
use flt_model::{Journal, JournalEntry, Move, Verdict, Violation};
use flt_places::Files;
use flt_search::BreakingJournal;
use flt_tree::Tree;
use std::alloc::{AllocError, Global};
use std::fmt;

/// How many blanks are before a timeline's rows.
const INDENT: usize = 4;

/// The legend of a journal's rows.
const LEGEND: &str =
    "    (left: entries; right: lines, without those that nobody else sees; `yes` and `no`: how a call went)\n";

/// The note that the rule demands the release of `arg` all the same.
const IS_STRICTER: &str =
    "   = note: stricter than the driver kit: this rule takes `arg` as possibly held in each callback that has one\n";

// ---- a run

/// Whether an entry is the arrival of an operation.
fn is_arrival(entry: &JournalEntry) -> bool
    ensures { result ≡ spec.is_arrival entry.now }
{
    matches!(entry, JournalEntry::Move(Move::Arrive { .. }))
}

/// How many operations arrive.
fn arrivals(entries: &[JournalEntry]) -> usize
    ensures { result ≡ spec.arrivals entries.now }
{
    let mut count = 0;
    for entry in entries {
        if is_arrival(entry) {
            count += 1;
        }
    }
    count
}

/// The ending of a word for so many things.
pub(crate) fn plural(count: usize) -> &'static str
    ensures { result.now ≡ spec.plural count }
{
    if count == 1 { "" } else { "s" }
}

/// How many operations and entries a journal has.
#[derive(Clone, Copy)]
pub(crate) struct Lengths {
    operations: usize,
    entries: usize,
}

impl fmt::Display for Lengths {
    ghost output = { λ l. Some (spec.lengths_of l.operations l.entries) };

    fn fmt<W: fmt::Write>(&self, f: &mut fmt::Formatter<W>) -> fmt::Result {
        let operations = self.operations;
        let many = plural(operations);
        let entries = self.entries;
        write!(
            f,
            ", with {operations} operation{many} and {entries} entries"
        )
    }
}

/// How long a journal is.
pub(crate) fn lengths_of(journal: &Journal) -> Lengths
    ensures { spec.lengths_of result.operations result.entries ≡ spec.lengths journal.now }
{
    Lengths {
        operations: arrivals(journal.entries()),
        entries: journal.len(),
    }
}

/// A byte of a name as it is printed: `?` for one that isn't graphic.
fn shown(byte: u8) -> u8
    ensures { result ≡ spec.shown byte }
{
    if byte.is_ascii_graphic() { byte } else { b'?' }
}

/// Writes a name.
fn put_name(out: &mut Vec<u8>, name: &[u8]) -> Result<(), AllocError>
    ensures { OnOk result (out.new.items ≡ out.old.items ++ map spec.shown name.now) }
{
    for byte in name {
        out.push(shown(*byte))?;
    }
    Ok(())
}

/// Writes the names of filters.
fn put_names(out: &mut Vec<u8>, own: &[Tree]) -> Result<(), AllocError>
    ensures { OnOk result (out.new.items ≡ out.old.items ++ spec.names (codes ", on ") own.now) }
{
    let mut word: &[u8] = b", on ";
    for tree in own {
        out.extend_from_slice(word)?;
        put_name(out, tree.filter.name.as_slice())?;
        word = b" and ";
    }
    Ok(())
}

/// Writes the names of the filters of a run, if the texts are those of one stack and more than one parses.
fn put_filters(
    out: &mut Vec<u8>,
    is_stack: bool,
    trees: &[Tree],
    own: &[Tree],
) -> Result<(), AllocError>
    ensures { OnOk result (out.new.items ≡ out.old.items ++ spec.on is_stack trees.now own.now) }
{
    if is_stack && 1 < trees.len() {
        return put_names(out, own);
    }
    Ok(())
}

/// The violation of a run, and how long it is.
fn broken_words(alloc: Global, broken: &BreakingJournal) -> Result<String, AllocError>
    ensures { IfOk result (λ words. string_bytes words
        ≡ verdict_line (Breaks broken.now.violation broken.now.entry) ++ spec.lengths broken.now.journal) }
{
    let words = Verdict::Breaks(broken.violation, broken.entry);
    let lengths = lengths_of(&broken.journal);
    format!(in alloc; "{words}{lengths}")
}

/// The words on a run of some of the filters of these trees, which are those of one stack or not.
fn run_words(
    alloc: Global,
    is_stack: bool,
    trees: &[Tree],
    own: &[Tree],
    broken: &BreakingJournal,
) -> Result<Vec<u8>, AllocError>
    ensures { IfOk result (λ words. words.items ≡ spec.run_words is_stack trees.now own.now broken.now) }
{
    let mut words = broken_words(alloc, broken)?.into_bytes();
    put_filters(&mut words, is_stack, trees, own)?;
    Ok(words)
}

// ---- no run

/// Why a callback at this place never runs.
fn never_started(place: Place) -> &'static str
    ensures { result.now ≡ spec.never_started place }
{
    match place {
        Place::Post(_) => {
            "nothing that runs asks for this callback by WITH_CALLBACK or SYNCHRONIZE, so it never runs"
        }
        Place::Canceled => {
            "nothing that runs puts an operation into the queue, so `canceled` never runs"
        }
        _ => "nothing that runs queues a work item for this routine, so it never runs",
    }
}

/// The words on the contexts that calls get and nothing sets.
fn never_got(unset: Unset) -> &'static str
    ensures { result.now ≡ spec.never_got unset.stream unset.instance }
{
    match (unset.stream, unset.instance) {
        (true, true) => {
            "no callback of this text sets a stream or an instance context, and this isn't reached unless a call gets one"
        }
        (true, false) => {
            "no callback of this text sets a stream context, and this isn't reached unless a call gets one"
        }
        _ => {
            "no callback of this text sets an instance context, and this isn't reached unless a call gets one"
        }
    }
}

/// The words for a run shown before that breaks this too.
#[derive(Drop)]
struct AlsoWords(Violation);

impl fmt::Display for AlsoWords {
    ghost output = { λ a. Some (spec.also_words a.0) };

    fn fmt<W: fmt::Write>(&self, f: &mut fmt::Formatter<W>) -> fmt::Result {
        let name = self.0.name();
        write!(
            f,
            "the run above breaks {name} by the same entry, too; `replay` says the least of what an entry breaks"
        )
    }
}

/// The words for a search that was ended at so many states.
#[derive(Drop)]
struct CutWords(u32);

impl fmt::Display for CutWords {
    ghost output = { λ c. Some (spec.cut_words c.0) };

    fn fmt<W: fmt::Write>(&self, f: &mut fmt::Formatter<W>) -> fmt::Result {
        let states = self.0;
        let many = plural(states as usize);
        write!(
            f,
            "no run was found in {states} state{many}; `--states N` sets another bound"
        )
    }
}

/// The words for a search that found no run, with the bound at which it was ended, if it was.
fn searched(alloc: Global, is_behind: bool, cut: Option<u32>) -> Result<String, AllocError>
    ensures { IfOk result (λ words. string_bytes words ≡ spec.searched is_behind cut) }
{
    if is_behind {
        return String::from_str(
            alloc,
            "each path there that is known breaks another rule first, and a run ends where it breaks something",
        );
    }
    match cut {
        Some(states) => {
            let words = CutWords(states);
            format!(in alloc; "{words}")
        }
        None => String::from_str(
            alloc,
            "no run was found among those that are tried, of up to 3 operations at once and 1,100 one after the other",
        ),
    }
}

/// Why no run is shown. These words never say more of a search than that it ended.
fn missing(alloc: Global, noted: &Note, cut: Option<u32>) -> Result<String, AllocError>
    ensures { IfOk result (λ words. string_bytes words ≡ spec.missing noted.now.also noted.now.is_behind cut) }
{
    match noted.also {
        Some(violation) => {
            let words = AlsoWords(violation);
            format!(in alloc; "{words}")
        }
        None => searched(alloc, noted.is_behind, cut),
    }
}

/// Why there is no run, if a search continues from so many states; empty if there is one.
fn reason(alloc: Global, states: u32, noted: &Note) -> Result<String, AllocError>
    ensures { IfOk result (λ words. string_bytes words ≡ spec.reason states noted.now (schedule_in noted.now.scheduled)) }
{
    match schedule_of(&noted.scheduled) {
        Schedule::Breaks(_) => Ok(String::new(alloc)),
        Schedule::NotWithin => missing(alloc, noted, None),
        Schedule::Cut => missing(alloc, noted, Some(states)),
        Schedule::NeverHanded => String::from_str(
            alloc,
            "nothing in this text hands this callback a context, and nothing writes `arg`",
        ),
        Schedule::NeverStarted => String::from_str(alloc, never_started(noted.place)),
        Schedule::NeverGot(unset) => String::from_str(alloc, never_got(*unset)),
    }
}

/// The same, after the word `none`.
fn none_words(alloc: Global, states: u32, noted: &Note) -> Result<Vec<u8>, AllocError>
    ensures { IfOk result (λ words. words.items
        ≡ codes "none: " ++ spec.reason states noted.now (schedule_in noted.now.scheduled)) }
{
    let reason = reason(alloc, states, noted)?;
    let mut words = Vec::from_slice(alloc, b"none: ")?;
    words.extend_from_slice(reason.as_bytes())?;
    Ok(words)
}

// ---- notes

/// The words of a note, given the trees of the texts that parse.
fn note_words(
    alloc: Global,
    trees: &[Tree],
    search: RunSearch,
    noted: &Note,
) -> Result<Vec<u8>, AllocError>
    ensures { IfOk result (λ words. words.items ≡ spec.words_of trees.now search noted.now (schedule_in noted.now.scheduled)) }
{
    match schedule_of(&noted.scheduled) {
        Schedule::Breaks(broken) => {
            let own = own_trees(trees, noted.filter, &noted.scheduled);
            run_words(alloc, search.is_stack, trees, own, broken)
        }
        Schedule::NotWithin
        | Schedule::Cut
        | Schedule::NeverHanded
        | Schedule::NeverStarted
        | Schedule::NeverGot(_) => none_words(alloc, search.states, noted),
    }
}

/// The line of a note.
pub(crate) fn note_line(
    alloc: Global,
    trees: &[Tree],
    search: RunSearch,
    noted: &Note,
) -> Result<Vec<u8>, AllocError>
    ensures { IfOk result (λ line. line.items ≡ spec.note_line trees.now search noted.now) }
{
    let words = note_words(alloc, trees, search, noted)?;
    let mut line = Vec::from_slice(alloc, b"   = journal: ")?;
    line.extend_from_slice(words.as_slice())?;
    line.push(b'\n')?;
    Ok(line)
}

/// The words on a run of a text with one more callback.
#[derive(Drop)]
struct AgainWords(Violation, usize);

impl fmt::Display for AgainWords {
    ghost output = { λ a. Some (spec.again_words a.0 a.1) };

    fn fmt<W: fmt::Write>(&self, f: &mut fmt::Formatter<W>) -> fmt::Result {
        let name = self.0.name();
        let entry = self.1;
        write!(
            f,
            "   = with a callback that sets one, a run breaks {name} at entry {entry}"
        )
    }
}

/// The line on a run of a text with one more callback, which sets what nothing in the text sets.
fn run_again(alloc: Global, broken: &BreakingJournal) -> Result<String, AllocError>
    ensures { IfOk result (λ line. string_bytes line ≡ spec.run_again broken.now) }
{
    let words = AgainWords(broken.violation, broken.entry);
    let lengths = lengths_of(&broken.journal);
    let line = format!(in alloc;
        "{words}{lengths}; it is no run of this text, and `--journal` doesn't keep it:\n"
    )?;
    Ok(line)
}

/// The line on the outcome of a finding in that text.
pub(crate) fn again_line(alloc: Global, again: &SetterOutcome) -> Result<String, AllocError>
    ensures { IfOk result (λ line. string_bytes line ≡ spec.again_line (Some again.now)) }
{
    match again {
        SetterOutcome::Runs(broken) => run_again(alloc, broken),
        SetterOutcome::RunsNowhere => String::from_str(
            alloc,
            "   = with a callback that sets one: no run was found either\n",
        ),
    }
}

// ---- rows

/// The legend and the rows of a journal on these filters, whose texts are in these files.
pub(crate) fn journal_rows(
    alloc: Global,
    own: &[Tree],
    files: &[Files<'_>],
    journal: &Journal,
    verdict: Verdict,
) -> Result<String, AllocError>
    ensures { IfOk result (λ rows. AreJournalRows own.now files.now journal.now verdict (string_bytes rows)) }
{
    let timeline = Timeline::of(alloc, own, files, journal, verdict)?;
    let rows = timeline.text(alloc, INDENT)?;
    let mut out = String::from_str(alloc, LEGEND)?;
    out.push_str(rows.as_str())?;
    Ok(out)
}

/// The legend and the rows of a run of these filters.
pub(crate) fn run_rows(
    alloc: Global,
    own: &[Tree],
    files: &[Files<'_>],
    broken: &BreakingJournal,
) -> Result<String, AllocError>
    ensures { IfOk result (λ rows. AreRunRows own.now files.now broken.now (string_bytes rows)) }
{
    let verdict = Verdict::Breaks(broken.violation, broken.entry);
    journal_rows(alloc, own, files, &broken.journal, verdict)
}

/// The lines after that of a note.
pub(crate) fn note_rows(
    alloc: Global,
    trees: &[Tree],
    files: &[Files<'_>],
    noted: &Note,
) -> Result<String, AllocError>
    ensures { IfOk result (λ rows. AreNoteRows trees.now files.now noted.now (string_bytes rows)) }
{
    match schedule_of(&noted.scheduled) {
        Schedule::Breaks(broken) => {
            let own = own_trees(trees, noted.filter, &noted.scheduled);
            let files = own_files(files, noted.filter, &noted.scheduled);
            run_rows(alloc, own, files, broken)
        }
        Schedule::NeverHanded => String::from_str(alloc, IS_STRICTER),
        Schedule::NotWithin | Schedule::Cut | Schedule::NeverStarted | Schedule::NeverGot(_) => Ok(
            String::new(alloc),
        ),
    }
}
