//! Words of journals and callbacks.

ghost use Rattle.std.specs.Prelude.{◌≡◌, ◌++◌, ◌<◌, ◌≤◌, codes, length, map, slice_get, option_copied, string_bytes};
ghost use Rattle.std.specs.Fmt.{decimal};
ghost use Rattle.flt_explain_timeline.specs.Words as spec;

use crate::telling::{Happening, StartedCallback};
use flt_model::{JournalEntry, Key, Move};
use flt_places::Files;
use flt_rules::{Mode, Operation};
use flt_tree::{Filter, Head};
use std::alloc::AllocError;
use std::fmt::Write;

/// The word of a mode, between blanks.
fn mode_word(mode: Mode) -> &'static str
    ensures { result.now ≡ spec.mode_word mode }
{
    match mode {
        Mode::Irp => " irp ",
        Mode::Fast => " fast ",
    }
}

/// The choice or the outcome, after a blank.
fn choice_word(choice: bool) -> &'static str
    ensures { result.now ≡ spec.choice_word choice }
{
    if choice { " yes" } else { " no" }
}

/// A word, which ends with a blank, and a number.
pub(crate) fn put_one(out: &mut String, word: &str, number: u32) -> Result<(), AllocError>
    ensures { spec.Puts result (string_bytes out.old) (string_bytes out.new) (word.now ++ decimal number) }
{
    write!(out, "{word}{number}")
}

/// A word, which ends with a blank, and two numbers.
fn put_two(out: &mut String, word: &str, one: u32, other: u32) -> Result<(), AllocError>
    ensures { spec.Puts result (string_bytes out.old) (string_bytes out.new) (spec.two_words word.now one other) }
{
    write!(out, "{word}{one} {other}")
}

fn put_arrival(out: &mut String, kind: Operation, mode: Mode, file: u32) -> Result<(), AllocError>
    ensures { spec.Puts result (string_bytes out.old) (string_bytes out.new) (spec.arrival_words kind mode file) }
{
    let kind = kind.name();
    let mode = mode_word(mode);
    write!(out, "arrive {kind}{mode}{file}")
}

fn put_unlink(out: &mut String, altitude: u32, key: Key) -> Result<(), AllocError>
    ensures { spec.Puts result (string_bytes out.old) (string_bytes out.new) (spec.unlink_words altitude key) }
{
    match key {
        Key::Stream(file) => write!(out, "unlink {altitude} stream {file}"),
        Key::Instance => write!(out, "unlink {altitude} instance"),
    }
}

/// A move as its line in a journal.
pub(crate) fn put_move(out: &mut String, step: Move) -> Result<(), AllocError>
    ensures { spec.Puts result (string_bytes out.old) (string_bytes out.new) (spec.move_words step) }
{
    match step {
        Move::Arrive {
            operation,
            mode,
            file,
        } => put_arrival(out, operation, mode, file),
        Move::Pre { serial } => put_one(out, "pre ", serial),
        Move::Skip { serial } => put_one(out, "skip ", serial),
        Move::Lower { serial } => put_one(out, "lower ", serial),
        Move::Post { serial } => put_one(out, "post ", serial),
        Move::Cancel { serial } => put_one(out, "cancel ", serial),
        Move::Canceled { altitude, serial } => put_two(out, "canceled ", altitude, serial),
        Move::Work { item } => put_one(out, "work ", item),
        Move::Detach { altitude } => put_one(out, "detach ", altitude),
        Move::Drain { altitude, serial } => put_two(out, "drain ", altitude, serial),
        Move::Unlink { altitude, key } => put_unlink(out, altitude, key),
        Move::Detached { altitude } => put_one(out, "detached ", altitude),
    }
}

/// An entry as its line in a journal.
fn put_entry(out: &mut String, entry: JournalEntry) -> Result<(), AllocError>
    ensures { spec.Puts result (string_bytes out.old) (string_bytes out.new) (spec.entry_words entry) }
{
    match entry {
        JournalEntry::Move(step) => put_move(out, step),
        JournalEntry::Go {
            activation,
            steps,
            grant,
        } => {
            let choice = choice_word(grant);
            write!(out, "go {activation} {steps}{choice}")
        }
    }
}

/// A byte of a name as it is printed: `?` for one that isn't graphic.
fn shown(byte: u8) -> u8
    ensures value { result ≡ spec.shown byte }
    ensures ascii { result < 128 }
{
    if byte.is_ascii_graphic() { byte } else { b'?' }
}

fn put_name(out: &mut String, name: &[u8]) -> Result<(), AllocError>
    ensures { spec.Puts result (string_bytes out.old) (string_bytes out.new) (map spec.shown name.now) }
{
    for byte in name {
        out.push(shown(*byte) as char)?;
    }
    Ok(())
}

/// A word and a name, in backquotes.
#[tactic(auto, unfolding(crate::specs::Words::head_named))]
fn put_named(out: &mut String, word: &str, name: &[u8]) -> Result<(), AllocError>
    ensures { spec.Puts result (string_bytes out.old) (string_bytes out.new) (spec.head_named word.now name.now) }
{
    out.push_str("`")?;
    out.push_str(word)?;
    put_name(out, name)?;
    out.push_str("`")
}

/// The head of an operation's callback, in backquotes.
#[tactic(auto, unfolding(crate::specs::Words::head_on))]
fn put_head_on(out: &mut String, word: &str, kind: Operation) -> Result<(), AllocError>
    ensures { spec.Puts result (string_bytes out.old) (string_bytes out.new) (spec.head_on word.now kind) }
{
    let kind = kind.name();
    write!(out, "`{word}{kind}`")
}

/// The head of a callback as its text has it, in backquotes.
fn put_head(out: &mut String, head: &Head) -> Result<(), AllocError>
    ensures { spec.Puts result (string_bytes out.old) (string_bytes out.new) (spec.head_words head.now) }
{
    match head {
        Head::Pre(kind) => put_head_on(out, "pre ", *kind),
        Head::Post(kind) => put_head_on(out, "post ", *kind),
        Head::Canceled => out.push_str("`canceled`"),
        Head::DeferredPre(name) => put_named(out, "deferred_pre ", name.as_slice()),
        Head::DeferredPost(name) => put_named(out, "deferred_post ", name.as_slice()),
        Head::Generic(name) => put_named(out, "generic ", name.as_slice()),
    }
}

/// The head of a filter's callback.
fn put_head_of(out: &mut String, filter: &Filter, callback: usize) -> Result<(), AllocError>
    ensures { spec.Puts result (string_bytes out.old) (string_bytes out.new)
        (spec.callback_head (slice_get filter.now.callbacks callback)) }
{
    match filter.callbacks.get(callback) {
        Some(callback) => put_head(out, &callback.head),
        None => out.push_str("``"),
    }
}

/// The name of a filter, if there are several.
fn put_filter(out: &mut String, filters: usize, filter: &Filter) -> Result<(), AllocError>
    ensures { spec.Puts result (string_bytes out.old) (string_bytes out.new) (spec.of_filter filters filter.now) }
{
    if filters > 1 {
        out.push_str(" of ")?;
        return put_name(out, filter.name.as_slice());
    }
    Ok(())
}

/// A callback by its head, with the name of its filter if there are several.
pub fn put_callback(
    out: &mut String,
    filters: &[&Filter],
    started: StartedCallback,
) -> Result<(), AllocError>
    ensures { spec.Puts result (string_bytes out.old) (string_bytes out.new) (spec.callback_words filters.now started) }
{
    let Some(filter) = filters.get(started.filter) else {
        return Ok(());
    };
    put_head_of(out, filter, started.callback)?;
    put_filter(out, filters.len(), filter)
}

fn put_start(
    out: &mut String,
    filters: &[&Filter],
    started: StartedCallback,
) -> Result<(), AllocError>
    ensures { spec.Puts result (string_bytes out.old) (string_bytes out.new)
        (spec.callback_words filters.now started ++ spec.starts_word started.draining) }
{
    put_callback(out, filters, started)?;
    out.push_str(if started.draining {
        " starts, draining"
    } else {
        " starts"
    })
}

/// The name of the file of a line of a text, before the line's number, if there are several files.
fn put_file(out: &mut String, files: &Files<'_>, line: usize) -> Result<(), AllocError>
    ensures { spec.Puts result (string_bytes out.old) (string_bytes out.new) (spec.name_before files.now line) }
{
    if files.all.len() > 1 {
        put_name(out, files.file_name(files.file_at(line)).as_bytes())?;
        return out.push_str(":");
    }
    Ok(())
}

/// A line of a text by its number in its file, after the file's name if there are several.
fn put_line_in(out: &mut String, files: &Files<'_>, line: usize) -> Result<(), AllocError>
    ensures { spec.Puts result (string_bytes out.old) (string_bytes out.new) (spec.line_in files.now line) }
{
    put_file(out, files, line)?;
    let line = files.file_line(line);
    write!(out, "{line}")
}

/// The same; by its number in the text, if the files aren't known.
pub(crate) fn put_line(
    out: &mut String,
    files: Option<Files<'_>>,
    line: usize,
) -> Result<(), AllocError>
    ensures { spec.Puts result (string_bytes out.old) (string_bytes out.new) (spec.line_words files.entry line) }
{
    match files {
        None => write!(out, "{line}"),
        Some(files) => put_line_in(out, &files, line),
    }
}

fn put_outcome(out: &mut String, outcome: Option<bool>) -> Result<(), AllocError>
    ensures { spec.Puts result (string_bytes out.old) (string_bytes out.new) (spec.outcome_word outcome) }
{
    match outcome {
        Some(outcome) => out.push_str(choice_word(outcome)),
        None => Ok(()),
    }
}

fn put_run(
    out: &mut String,
    files: Option<Files<'_>>,
    line: usize,
    outcome: Option<bool>,
) -> Result<(), AllocError>
    ensures { spec.Puts result (string_bytes out.old) (string_bytes out.new)
        (spec.line_words files.entry line ++ spec.outcome_word outcome) }
{
    put_line(out, files, line)?;
    put_outcome(out, outcome)
}

/// The files of the filter of a number, if they are known.
pub(crate) fn files_of<'f>(files: &[Option<Files<'f>>], filter: usize) -> Option<Files<'f>>
    ensures { result ≡ spec.files_of files.now filter }
{
    match files.get(filter) {
        Some(files) => *files,
        None => None,
    }
}

/// A word, which ends with a blank, and the number of an operation, if there is one.
pub(crate) fn put_operation(
    out: &mut String,
    word: &str,
    operation: Option<usize>,
) -> Result<(), AllocError>
    ensures { spec.Puts result (string_bytes out.old) (string_bytes out.new) (spec.operation_words word.now operation) }
{
    match operation {
        Some(number) => write!(out, "{word}{number}"),
        None => out.push_str(word),
    }
}

/// The words of an event that is about this operation, if it is about one.
pub(crate) fn put_happening(
    out: &mut String,
    filters: &[&Filter],
    files: &[Option<Files<'_>>],
    operation: Option<usize>,
    happening: Happening,
) -> Result<(), AllocError>
    ensures { spec.Puts result (string_bytes out.old) (string_bytes out.new)
        (spec.happening_words filters.now files.now operation happening) }
{
    match happening {
        Happening::Arrives(kind, mode, file) => put_arrival(out, kind, mode, file),
        Happening::Skips => put_operation(out, "skip ", operation),
        Happening::Lowers => put_operation(out, "lower ", operation),
        Happening::Cancels => put_operation(out, "cancel ", operation),
        Happening::Detaches(altitude) => put_one(out, "detach ", altitude),
        Happening::Unlinks(altitude, key) => put_unlink(out, altitude, key),
        Happening::IsDetached(altitude) => put_one(out, "detached ", altitude),
        Happening::Starts(started) => put_start(out, filters, started),
        Happening::Runs(filter, line, outcome) => {
            put_run(out, files_of(files, filter), line, outcome)
        }
        Happening::IsRefused(entry) => put_entry(out, entry),
        Happening::IsLeftOut => out.push_str("not judged"),
    }
}
