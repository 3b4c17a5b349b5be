//! The program on its system: its streams, and its own words.

ghost use Rattle.std.specs.Prelude.{◌≡◌, [], IfNone, IfOk, IfSome, map, string_bytes};
ghost use Rattle.flt_commands.specs.Commands.{AllIsShown, AnswersSomehow, WritesNoFile};
ghost use Rattle.flt_commands.specs.Folders.{AreExpanded, barred_in, names_in};
ghost use Rattle.flt_commands_explain.specs.Served.{ServesSomehow};
ghost use Rattle.flt_files.specs.Deeds.{deeds_in};
ghost use Rattle.flt_files.specs.Folders.{said_by_host};
ghost use Rattle.flt_files.specs.System.{given_by_host, written_by_host};
ghost use Rattle.flt_words.specs.Request.{asked_of, explained_files, with_files};
ghost use Rattle.flt_words.specs.Words.{AskToServe, asked};

use crate::commands::command;
use crate::folders::{ExpandedFiles, with_folders};
use crate::report::Report;
use crate::search::WatchSearch;
use flt_commands_explain::{CommandFault, serve_client};
use flt_commands_runs::WatchDeadlock;
use flt_files::{
    BarredFile, CountedReader, Deeds, HostFolders, HostSystem, Reader, SystemFiles, WrittenFiles,
};
use flt_model::{ReadFault, Writing, put_all};
use flt_server_frames::{Incoming, ServeFault};
use flt_stack_crew::Watch;
use flt_words::{Request, ask_to_serve, read_words};
use std::alloc::{AllocError, Global};
use std::env::{self, VarError};
use std::io;
use std::io::{IsTerminal, Stdin, Stdout, Write};
use std::sync::Wait;
use std::thread::Threads;

/// The number of lines of a script after which a terminal shows how far the run has come.
const LINES_A_LOOK: u64 = 1_000;

/// The number of states of a search for runs after which a terminal shows how far it has come.
const STATES_A_LOOK: u32 = 100_000;

/// Reports on the standard error what a run waits for at its end, and to a terminal how far it or a search for runs has come.
#[derive(Drop)]
struct Progress<'a> {
    rt: &'a HostRuntime,
    /// Whether a terminal hears how far the run or the search has come.
    is_shown: bool,
    lines: u64,
}

impl Watch for Progress<'_> {
    fn after(&mut self, entries: u64) {
        self.lines = self.lines.saturating_add(1);
        if self.is_shown && self.lines % LINES_A_LOOK == 0 {
            let lines = self.lines;
            let _ = eprintln!(self.rt; "{lines} lines: {entries} entries");
        }
    }
}

impl WatchDeadlock for Progress<'_> {
    fn waits(&mut self, lines: &[u8]) {
        let _ = put_all(&mut Writing::new(self.rt.stderr()), lines);
    }
}

impl WatchSearch for Progress<'_> {
    fn searched(&mut self, states: u32, most: u32) {
        if self.is_shown && states % STATES_A_LOOK == 0 {
            let _ = eprintln!(self.rt; "{states} of {most} states");
        }
    }
}

/// A reader as the input of a server.
#[derive(Drop)]
struct ServerInput<R: Reader + Drop> {
    reader: R,
}

impl<R: Reader + Drop> Incoming for ServerInput<R> {
    ghost left = { λ s. R.left s.reader };

    ghost failures = { λ s. R.failures s.reader };

    fn take(&mut self, buffer: &mut [u8]) -> Result<usize, ReadFault> {
        self.reader.take(buffer)
    }
}

/// A stream of the system that is written, with the reason of its last failure.
#[derive(Drop)]
struct CheckedWriter<W: Write + Drop> {
    inner: W,
    fault: Option<io::Error>,
}

impl<W: Write + Drop> CheckedWriter<W> {
    fn new(inner: W) -> CheckedWriter<W> {
        CheckedWriter { inner, fault: None }
    }
}

impl<W: Write + Drop> Write for CheckedWriter<W> {
    ghost contents = { λ told. W.contents told.inner };

    fn write(&mut self, buf: &[u8]) -> io::Result<usize> {
        match self.inner.write(buf) {
            Ok(0) => {
                self.fault = Some(io::Error::from(io::ErrorKind::WriteZero));
                Ok(0)
            }
            Ok(count) => Ok(count),
            Err(fault) => {
                self.fault = Some(fault);
                Err(fault)
            }
        }
    }

    fn flush(&mut self) -> io::Result<()> {
        self.inner.flush()
    }
}

/// The words of the command line, without the program's own name; none if one of them isn't UTF-8.
fn arguments(rt: &HostRuntime) -> Result<Option<Vec<String>>, AllocError> {
    let given = match env::args(rt) {
        Ok(given) => given,
        Err(fault) if fault.kind() == io::ErrorKind::InvalidData => return Ok(None),
        Err(_) => return Err(AllocError),
    };
    // `collect` asks for room for all of them first, and goes on where that is refused.
    let mut words = Vec::new(rt.alloc());
    for word in given.skip(1) {
        words.push(word)?;
    }
    Ok(Some(words))
}

/// Says on the standard error that memory ran out.
fn say_out_of_memory(rt: &HostRuntime) {
    let _ = eprintln!(rt; "out of memory");
}

/// Says on the standard error why the standard output didn't take the answer, if it didn't.
fn say_unwritten(rt: &HostRuntime, out: &CheckedWriter<Stdout>) {
    if let Some(fault) = out.fault {
        let _ = eprintln!(rt; "error: cannot write: {fault}");
    }
}

/// The words of the command line; none if one of them isn't UTF-8, or if memory ran out, which the standard error then says.
fn words_of(rt: &HostRuntime) -> Option<Vec<String>> {
    match arguments(rt) {
        Ok(Some(words)) => Some(words),
        Ok(None) => {
            let _ = eprintln!(rt; "a word is not UTF-8");
            None
        }
        Err(_) => {
            say_out_of_memory(rt);
            None
        }
    }
}

/// The program's own words, and the report on them.
#[derive(Drop)]
pub struct Execution {
    /// The words of the command line, without the program's own name.
    pub words: Vec<String>,
    /// The files of `explain` that these name, with the texts of each folder in its place.
    pub files: ExpandedFiles,
    /// The report on the words, with these files; none if a word isn't UTF-8, memory ran out or a write failed, and for a server.
    pub report: Option<Report>,
    /// How a server ended; none where there was none, memory ran out, or a read or a write failed.
    pub served: Option<u8>,
    /// The changes to files, one after the other.
    pub deeds: Deeds,
}

impl Execution {
    /// The exit status: that of the report or of the server, or 2 without both.
    pub fn status(&self) -> u8
        ensures some { IfSome self.now.report (λ report. result ≡ report.status) }
        ensures served { IfNone self.now.report (IfSome self.now.served (λ status. result ≡ status)) }
        ensures none { IfNone self.now.report (IfNone self.now.served (result ≡ 2)) }
    {
        match &self.report {
            Some(report) => report.status,
            None => self.served.unwrap_or(2),
        }
    }
}

/// Whether the environment refuses colours: `NO_COLOR` is there, and isn't empty (no-color.org).
fn refuses_colours(rt: &HostRuntime) -> Result<bool, AllocError> {
    match env::var(rt, "NO_COLOR") {
        Ok(value) => Ok(!value.is_empty()),
        Err(VarError::NotUnicode) => Ok(true),
        Err(VarError::NotPresent) => Ok(false),
        Err(VarError::OutOfMemory) => Err(AllocError),
    }
}

/// Whether the terminal shows none: `TERM` is `dumb`.
fn is_dumb(rt: &HostRuntime) -> Result<bool, AllocError> {
    match env::var(rt, "TERM") {
        Ok(value) => Ok(value.as_str() == "dumb"),
        Err(VarError::OutOfMemory) => Err(AllocError),
        Err(_) => Ok(false),
    }
}

/// Whether the standard output is a terminal that shows colours, and the environment doesn't refuse them.
fn shows_colours(rt: &HostRuntime) -> Result<bool, AllocError> {
    if !rt.stdout().is_terminal() || refuses_colours(rt)? {
        return Ok(false);
    }
    Ok(!is_dumb(rt)?)
}

/// Runs the command of a request on the system, of which some files aren't opened, and returns the report on it, and the changes to files.
/// The standard error says if memory ran out, or why the answer isn't written.
fn execute<'a, R: Threads + Wait + Sync>(
    rt: &HostRuntime,
    threads: &R,
    request: Request<'a>,
    barred: &[BarredFile],
) -> (Option<Report>, Deeds)
    ensures answered { IfSome result.0 (AnswersSomehow given_by_host written_by_host (deeds_in result.1) (asked_of request.entry)) }
    ensures shown { IfSome result.0 (AllIsShown (asked_of request.entry)) }
    ensures idle { WritesNoFile (asked_of request.entry) → deeds_in result.1 ≡ [] }
{
    let files = HostSystem::new(rt, barred);
    let host = HostSystem::new(rt, barred);
    let mut written = WrittenFiles { system: host };
    let mut watch = Progress {
        rt,
        is_shown: rt.stderr().is_terminal(),
        lines: 0,
    };
    let Ok(coloured) = shows_colours(rt) else {
        say_out_of_memory(rt);
        return (None, written.system.into_deeds());
    };
    let mut out = Writing::new(CheckedWriter::new(rt.stdout()));
    let result = command(
        threads,
        rt.alloc(),
        request,
        &SystemFiles::new(&files),
        &mut written,
        coloured,
        &mut out,
        &mut Writing::new(rt.stderr()),
        &mut watch,
    );
    let deeds = written.system.into_deeds();
    match result {
        Ok(report) => (Some(report), deeds),
        Err(CommandFault::OutOfMemory) => {
            say_out_of_memory(rt);
            (None, deeds)
        }
        Err(CommandFault::Write) => {
            say_unwritten(rt, &out.into_inner());
            (None, deeds)
        }
    }
}

/// Some names, as slices.
fn slices_of<'a>(alloc: Global, names: &'a [String]) -> Result<Vec<&'a str>, AllocError>
    ensures { IfOk result (λ slices. map (λ name. name.now) slices.items ≡ map string_bytes names.entry.now) }
{
    let mut slices = Vec::new(alloc);
    for name in names {
        slices.push(name.as_str())?;
    }
    Ok(slices)
}

/// The files of `explain` that some words name, with the texts of each folder in its place.
fn files_of_words(rt: &HostRuntime, words: &[String]) -> Result<ExpandedFiles, AllocError>
    ensures { IfOk result (λ files. AreExpanded said_by_host (explained_files (asked (map string_bytes words.now)))
        (names_in files) (barred_in files)) }
{
    let request = read_words(rt.alloc(), words)?;
    let folders = HostFolders::new(rt);
    with_folders(rt.alloc(), &folders, request.explained_files())
}

/// Runs the command of some words on the system, with these files in place of those that they name for `explain`, of which some aren't
/// opened, and returns the report on it, and the changes to files.
fn execute_with<'a, R: Threads + Wait + Sync>(
    rt: &HostRuntime,
    threads: &R,
    words: &'a [String],
    files: &'a [String],
    barred: &[BarredFile],
) -> Result<(Option<Report>, Deeds), AllocError>
    ensures answered { IfOk result (λ done. IfSome done.0 (AnswersSomehow given_by_host written_by_host (deeds_in done.1)
        (with_files (map string_bytes files.entry.now) (asked (map string_bytes words.entry.now))))) }
    ensures shown { IfOk result (λ done. IfSome done.0 (AllIsShown
        (with_files (map string_bytes files.entry.now) (asked (map string_bytes words.entry.now))))) }
    ensures idle { IfOk result (λ done. WritesNoFile (with_files (map string_bytes files.entry.now)
        (asked (map string_bytes words.entry.now))) → deeds_in done.1 ≡ []) }
{
    let request = read_words(rt.alloc(), words)?;
    let names = slices_of(rt.alloc(), files)?;
    Ok(execute(rt, threads, request.with_files(names), barred))
}

/// The files of `explain` that some words name, with the texts of each folder in its place; and the report on the words with these files, and
/// the changes to files.
fn execute_words<R: Threads + Wait + Sync>(
    rt: &HostRuntime,
    threads: &R,
    words: &[String],
) -> Result<(ExpandedFiles, Option<Report>, Deeds), AllocError>
    ensures expanded { IfOk result (λ done. AreExpanded said_by_host (explained_files (asked (map string_bytes words.now)))
        (names_in done.0) (barred_in done.0)) }
    ensures answered { IfOk result (λ done. IfSome done.1 (AnswersSomehow given_by_host written_by_host (deeds_in done.2)
        (with_files (names_in done.0) (asked (map string_bytes words.now))))) }
    ensures shown { IfOk result (λ done. IfSome done.1 (AllIsShown (with_files (names_in done.0) (asked (map string_bytes words.now))))) }
    ensures idle { IfOk result (λ done. WritesNoFile (with_files (names_in done.0) (asked (map string_bytes words.now))) →
        deeds_in done.2 ≡ []) }
{
    let files = files_of_words(rt, words)?;
    let names = files.names.as_slice();
    let (report, deeds) = execute_with(rt, threads, words, names, files.barred.as_slice())?;
    Ok((files, report, deeds))
}

/// Says on the standard error why a server ended without a status.
fn say_unserved(
    rt: &HostRuntime,
    fault: ServeFault,
    input: &ServerInput<CountedReader<Stdin>>,
    out: &CheckedWriter<Stdout>,
) {
    match fault {
        ServeFault::OutOfMemory => say_out_of_memory(rt),
        ServeFault::Read => {
            if let Some(why) = input.reader.fault() {
                let _ = eprintln!(rt; "error: cannot read: {why}");
            }
        }
        ServeFault::Write => say_unwritten(rt, out),
    }
}

/// Serves a client over the standard streams, and returns the exit status; none if memory ran out, or a read or a write failed, which the
/// standard error then says.
fn serve_streams(rt: &HostRuntime) -> Option<u8>
    ensures { IfSome result ServesSomehow }
{
    let reader = CountedReader::new(rt.stdin());
    let mut input = ServerInput { reader };
    let mut out = Writing::new(CheckedWriter::new(rt.stdout()));
    match serve_client(rt.alloc(), &mut input, &mut out) {
        Ok(status) => Some(status),
        Err(fault) => {
            say_unserved(rt, fault, &input, &out.into_inner());
            None
        }
    }
}

/// The execution of some words of which nothing was done.
fn not_executed(rt: &HostRuntime, words: Vec<String>) -> Execution
    ensures words { result.words ≡ words }
    ensures report { result.report ≡ None }
    ensures served { result.served ≡ None }
    ensures deeds { deeds_in result.deeds ≡ [] }
{
    Execution {
        words,
        files: ExpandedFiles::new(rt.alloc()),
        report: None,
        served: None,
        deeds: Deeds::new(rt.alloc()),
    }
}

/// Runs the command of the program's own words on the system, and returns the words with the report on them and with the changes to files;
/// or runs a server, if they ask for one, and returns the words with its exit status. The report is on the texts of each folder that
/// `explain` is given, which are returned, too. `threads` is the same runtime once more: `main` alone can pass on that it starts threads.
pub fn run<R: Threads + Wait + Sync>(rt: &HostRuntime, threads: &R) -> Execution
    ensures answered { IfSome result.report (AnswersSomehow given_by_host written_by_host (deeds_in result.deeds)
        (with_files (names_in result.files) (asked (map string_bytes result.words.items)))) }
    ensures expanded { IfSome result.report (λ _. AreExpanded said_by_host
        (explained_files (asked (map string_bytes result.words.items))) (names_in result.files) (barred_in result.files)) }
    ensures shown { IfSome result.report (AllIsShown (with_files (names_in result.files) (asked (map string_bytes result.words.items)))) }
    ensures served { IfSome result.served ServesSomehow }
    ensures apart { IfSome result.report (λ _. ¬ (AskToServe (map string_bytes result.words.items))) }
    ensures asked { IfSome result.served (λ _. AskToServe (map string_bytes result.words.items)) }
    ensures untouched { IfSome result.served (λ _. deeds_in result.deeds ≡ []) }
    ensures idle { WritesNoFile (with_files (names_in result.files) (asked (map string_bytes result.words.items))) →
        deeds_in result.deeds ≡ [] }
{
    let Some(words) = words_of(rt) else {
        return not_executed(rt, Vec::new(rt.alloc()));
    };
    match ask_to_serve(rt.alloc(), words.as_slice()) {
        Ok(true) => {
            let served = serve_streams(rt);
            let mut execution = not_executed(rt, words);
            execution.served = served;
            execution
        }
        Ok(false) => match execute_words(rt, threads, words.as_slice()) {
            Ok((files, report, deeds)) => Execution {
                words,
                files,
                report,
                served: None,
                deeds,
            },
            Err(_) => {
                say_out_of_memory(rt);
                not_executed(rt, words)
            }
        },
        Err(_) => {
            say_out_of_memory(rt);
            not_executed(rt, words)
        }
    }
}
