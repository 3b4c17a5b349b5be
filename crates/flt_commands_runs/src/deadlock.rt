//! The report on a run that ends in a deadlock: a line for each activation that waits for a lock. No clause is about the words of the
//! lines, but that each of their bytes is shown.

ghost use Rattle.std.specs.Prelude.{◌≡◌};
ghost use Rattle.flt_door.specs.Door.{AreShown, at_door};

use crate::answer::RunAnswer;
use flt_door::{all_that_goes_out_is_shown, let_out};
use flt_explain_waits::{BlockedActivation, waits_of};
use flt_files::{Contents, Failure};
use flt_model::{Journal, JournalFault, read};
use flt_shown::put_shown;
use flt_stack_crew::{Ending, NoWatch, Ran};
use flt_syntax::{TextsFault, parse_all};
use flt_tree::{Callback, Filter, Span, Tree};
use std::alloc::{AllocError, Global};

/// Hears of a deadlock at the end of a run. Nothing that it does changes the answer.
pub trait WatchDeadlock {
    /// At the end of the script activations wait for locks, and nothing can continue. These lines say so; each of their bytes is shown.
    fn waits(&mut self, lines: &[u8])
        requires { AreShown lines.now };
}

impl WatchDeadlock for NoWatch {
    fn waits(&mut self, _lines: &[u8]) {}
}

/// The journal of a run that ended whole and may have come to a deadlock; none for another one.
fn journal_of(alloc: Global, ran: &Ran) -> Result<Option<Journal>, AllocError> {
    if !ran.is_still || ran.ending != Ending::Whole {
        return Ok(None);
    }
    match read(alloc, &mut ran.journal.as_slice()) {
        Ok(journal) => Ok(Some(journal)),
        Err(JournalFault::OutOfMemory) => Err(AllocError),
        Err(_) => Ok(None),
    }
}

/// The trees of some texts, each of which has one.
fn trees_of(alloc: Global, texts: &[Vec<u8>]) -> Result<Vec<Tree>, AllocError> {
    match parse_all(alloc, texts) {
        Ok(trees) => Ok(trees),
        Err(TextsFault::OutOfMemory) => Err(AllocError),
        Err(TextsFault::Syntax { .. }) => Ok(Vec::new(alloc)),
    }
}

/// The number of filters above an altitude.
fn above(trees: &[Tree], altitude: u64) -> usize {
    let mut count: usize = 0;
    for tree in trees {
        if tree.filter.altitude > altitude {
            count = count.saturating_add(1);
        }
    }
    count
}

/// The bytes of a span of a text.
fn bytes_at<'a>(text: &'a [u8], span: Span) -> &'a [u8] {
    if span.start <= span.end && span.end <= text.len() {
        &text[span.start..span.end]
    } else {
        &[]
    }
}

/// The callback that contains a span.
fn callback_at<'a>(filter: &'a Filter, span: Span) -> Option<&'a Callback> {
    for callback in filter.callbacks.as_slice() {
        if span.start < callback.end.start {
            return Some(callback);
        }
    }
    None
}

/// Adds words.
fn put_words(out: &mut Vec<u8>, words: &str) -> Result<(), AllocError> {
    out.extend_from_slice(words.as_bytes())
}

/// Adds the place where an activation waits: its callback's head as the text has it, its filter and the line.
fn put_place(
    alloc: Global,
    out: &mut Vec<u8>,
    text: &[u8],
    filter: &Filter,
    wait: BlockedActivation,
) -> Result<(), AllocError> {
    if let Some(callback) = callback_at(filter, wait.span) {
        put_shown(out, bytes_at(text, callback.span))?;
        put_words(out, " of ")?;
    }
    put_words(out, "\"")?;
    put_shown(out, filter.name.as_slice())?;
    let altitude = filter.altitude;
    let line = wait.span.line;
    let words = format!(in alloc; "\" at {altitude}, line {line}")?;
    put_words(out, words.as_str())
}

/// Adds by whom a lock is held, and ends the line.
fn put_holder(alloc: Global, out: &mut Vec<u8>, holder: Option<usize>) -> Result<(), AllocError> {
    let Some(holder) = holder else {
        return put_words(out, "\n");
    };
    let words = format!(in alloc; ", held by activation {holder}\n")?;
    put_words(out, words.as_str())
}

/// Adds the line that says which lock an activation of a filter waits for.
fn put_line(
    alloc: Global,
    out: &mut Vec<u8>,
    text: &[u8],
    filter: &Filter,
    wait: BlockedActivation,
) -> Result<(), AllocError> {
    let number = wait.activation;
    let words = format!(in alloc; "deadlock: activation {number} (")?;
    put_words(out, words.as_str())?;
    put_place(alloc, out, text, filter, wait)?;
    put_words(out, ") waits for lock \"")?;
    if let Some(lock) = filter.locks.get(usize::from(wait.lock.place())) {
        put_shown(out, lock.name.as_slice())?;
    }
    put_words(out, "\"")?;
    put_holder(alloc, out, wait.holder)
}

/// Adds the line of one activation that waits, after those that are there.
fn put_wait(
    alloc: Global,
    out: &mut Vec<u8>,
    texts: &[Vec<u8>],
    trees: &[Tree],
    wait: BlockedActivation,
) -> Result<(), AllocError> {
    for (text, tree) in texts.iter().zip(trees) {
        if above(trees, tree.filter.altitude) == wait.filter {
            put_line(alloc, out, text.as_slice(), &tree.filter, wait)?;
        }
    }
    Ok(())
}

/// The lines of all activations that wait for a lock at the end of a run on some texts.
fn lines_of(alloc: Global, texts: &[Vec<u8>], journal: &Journal) -> Result<Vec<u8>, AllocError> {
    let mut out = Vec::new(alloc);
    let trees = trees_of(alloc, texts)?;
    let waits = waits_of(alloc, trees.as_slice(), journal)?;
    for wait in waits.as_slice() {
        put_wait(alloc, &mut out, texts, trees.as_slice(), *wait)?;
    }
    Ok(out)
}

/// Lets lines out.
fn let_lines_out(lines: &mut Vec<u8>)
    ensures { lines.new.items ≡ at_door lines.old.items }
{
    let_out(lines.as_mut_slice());
}

/// Reports the activations that wait for a lock at the end of a run on some texts, if its script came to its end. If memory is refused, it
/// reports nothing.
pub fn tell_deadlock<W: WatchDeadlock>(
    alloc: Global,
    said: &Result<RunAnswer, Failure<'_>>,
    contents: &Contents,
    watch: &mut W,
) -> Result<(), AllocError> {
    let Ok(RunAnswer::Ran(ran)) = said else {
        return Ok(());
    };
    let [_, texts @ ..] = contents.texts.as_slice() else {
        return Ok(());
    };
    let Some(journal) = journal_of(alloc, ran)? else {
        return Ok(());
    };
    let mut lines = lines_of(alloc, texts, &journal)?;
    if !lines.is_empty() {
        all_that_goes_out_is_shown();
        let_lines_out(&mut lines);
        watch.waits(lines.as_slice());
    }
    Ok(())
}
