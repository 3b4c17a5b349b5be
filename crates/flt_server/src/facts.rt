//! Facts of a statement in words, by the certificate of a text: each variable, each lock and the level where it is reached.

ghost use Rattle.std.specs.Prelude.{IfOk};
ghost use Rattle.flt_explain_warning_details.specs.Details.{IsLeastOf};

use flt_abs::{Abs, Statuses};
use flt_analyse::{AnalyseFault, analyse_plainly};
use flt_cert::FullCert;
use flt_explain::Subject;
use flt_explain_texts::{Page, word_of};
use flt_graph::Graph;
use flt_rules::{Access, HeldLock, Level, entry_level, raised_by};
use flt_syntax::Tree;
use std::alloc::{AllocError, Global};

const CONTEXTS: [&str; 9] = ["c0", "c1", "c2", "c3", "c4", "c5", "c6", "c7", "arg"];

const OPERATIONS: [&str; 5] = ["o0", "o1", "o2", "o3", "data"];

/// The least certificate of a graph; none if no certificate covers it.
fn certificate(alloc: Global, graph: &Graph) -> Result<Option<FullCert>, AllocError>
    ensures { IfOk result (IsLeastOf graph.now) }
{
    match analyse_plainly(alloc, graph) {
        Ok(cert) => Ok(Some(cert)),
        Err(AnalyseFault::Refused(_)) => Ok(None),
        Err(AnalyseFault::OutOfMemory) => Err(AllocError),
    }
}

/// The words for a set of statuses, by a certificate's digit.
fn statuses(digit: u8) -> &'static str {
    match digit {
        1 => "NULL",
        2 => "held",
        3 => "NULL or held",
        4 => "stale (released, completed or handed over)",
        5 => "NULL or stale",
        6 => "held or stale",
        7 => "NULL, held or stale",
        _ => "nothing",
    }
}

fn modes(digit: u8) -> &'static str {
    match digit {
        1 => "IRP",
        2 => "fast I/O",
        _ => "IRP or fast I/O",
    }
}

fn level_name(level: Level) -> &'static str {
    match level {
        Level::Passive => "PASSIVE_LEVEL",
        Level::Apc => "APC_LEVEL",
        Level::Dispatch => "DISPATCH_LEVEL",
    }
}

fn say_words<'a>(page: &mut Page, word: &'a str, words: &'a str) -> Result<(), AllocError> {
    page.texts(&["  ", word, ": ", words, "\n"])
}

/// A variable that isn't surely NULL.
fn say_variable(page: &mut Page, word: &str, set: Statuses) -> Result<(), AllocError> {
    if set.digit() == 1 {
        return Ok(());
    }
    say_words(page, word, statuses(set.digit()))
}

fn say_variables(page: &mut Page, words: &[&str], sets: &[Statuses]) -> Result<(), AllocError> {
    for (word, set) in words.iter().zip(sets.iter()) {
        say_variable(page, word, *set)?;
    }
    Ok(())
}

fn access_words(access: Access) -> &'static [u8] {
    match access {
        Access::Exclusive => b"` is held\n",
        Access::Shared => b"` is held shared\n",
    }
}

fn say_locks(page: &mut Page, tree: &Tree, locks: &[HeldLock]) -> Result<(), AllocError> {
    for held in locks {
        let name = word_of(tree, Subject::Lock(held.lock));
        page.words(&[b"  `", name])?;
        page.bytes(access_words(held.access))?;
    }
    Ok(())
}

/// The level at which a callback is with these locks.
fn level_of(graph: &Graph, callback: usize, locks: &[HeldLock]) -> Level {
    let mut level = entry_level(graph.place(callback));
    for held in locks {
        let kind = graph.locks.get(usize::from(held.lock.place())).copied();
        level = level.max(raised_by(kind));
    }
    level
}

fn say_level(
    page: &mut Page,
    graph: &Graph,
    callback: usize,
    locks: &[HeldLock],
) -> Result<(), AllocError> {
    let level = level_name(level_of(graph, callback, locks));
    page.texts(&["  at most ", level, "\n"])
}

/// Whether `data` is surely NULL, as in a generic routine.
fn lacks_operation(state: &Abs) -> bool {
    match state.operations().get(4) {
        Some(data) => data.digit() == 1,
        None => true,
    }
}

fn say_operation(page: &mut Page, state: &Abs) -> Result<(), AllocError> {
    if lacks_operation(state) {
        return Ok(());
    }
    page.texts(&["  the operation is ", modes(state.modes().digit()), "\n"])?;
    if state.draining().digit() == 1 {
        return Ok(());
    }
    page.texts(&["  FLTFL_POST_OPERATION_DRAINING may be set\n"])
}

/// The facts of a state of a callback.
fn say_state(
    page: &mut Page,
    tree: &Tree,
    graph: &Graph,
    callback: usize,
    state: &Abs,
) -> Result<(), AllocError> {
    let locks = state.locks().as_slice();
    page.texts(&["Where this is reached:\n"])?;
    say_variables(page, &CONTEXTS, state.contexts())?;
    say_variables(page, &OPERATIONS, state.operations())?;
    say_locks(page, tree, locks)?;
    say_level(page, graph, callback, locks)?;
    say_operation(page, state)?;
    page.texts(&["  other variables of contexts and operations are NULL\n"])
}

/// The point of a callback whose text has a byte, if one does.
fn point_in(graph: &Graph, callback: usize, byte: usize) -> Option<usize> {
    for point in 0..graph.points(callback) {
        let span = graph.span(callback, point);
        if span.start <= byte && byte < span.end {
            return Some(point);
        }
    }
    None
}

/// The callback and the point whose text has a byte, if one does.
fn point_at(graph: &Graph, byte: usize) -> Option<(usize, usize)> {
    for callback in 0..graph.callbacks() {
        if let Some(point) = point_in(graph, callback, byte) {
            return Some((callback, point));
        }
    }
    None
}

fn say_point(
    page: &mut Page,
    tree: &Tree,
    graph: &Graph,
    cert: &FullCert,
    at: (usize, usize),
) -> Result<(), AllocError> {
    match cert.state(at.0, at.1) {
        Some(state) => say_state(page, tree, graph, at.0, state),
        None => page.texts(&["No path leads here.\n"]),
    }
}

/// The facts where the statement at a byte is reached; nothing if there is no statement.
pub(crate) fn say_facts(
    alloc: Global,
    page: &mut Page,
    tree: &Tree,
    graph: &Graph,
    byte: usize,
) -> Result<(), AllocError> {
    let Some(at) = point_at(graph, byte) else {
        return Ok(());
    };
    match certificate(alloc, graph)? {
        Some(cert) => say_point(page, tree, graph, &cert, at),
        None => page.texts(&["The text has findings, so it has no certificate.\n"]),
    }
}
