//! The lines below the report of a circle of locks: a run to a deadlock, if one is found.

ghost use Rattle.std.specs.Prelude.{◌≡◌, IfOk, Some, string_bytes};
ghost use Rattle.flt_explain_texts.specs.Page.{Writes};
ghost use Rattle.flt_explain_runs.specs.Deadlocked as spec;
ghost use Rattle.flt_explain_runs.specs.Warned.{warned_of};

use crate::lines::{journal_rows, lengths_of, plural};
use crate::warned::WarnedText;
use flt_explain::Subject;
use flt_explain_texts::{Page, Part, word_of};
use flt_explain_waits::BlockedActivation;
use flt_model::{Journal, Verdict};
use flt_order::Acquisition;
use flt_places::Files;
use flt_search::{Bounds, SearchWatch};
use flt_search_deadlocks::{Answer, Deadlock, WatchedSearch, find_deadlock};
use flt_tree::Tree;
use std::alloc::{AllocError, Global};
use std::fmt;

// ---- who waits

/// Writes the lock for which an activation waits, and the line.
#[tactic(auto, unfolding(crate::specs::Deadlocked::wait_words))]
fn tell_wait<'x>(
    page: &mut Page,
    files: &Files<'x>,
    home: usize,
    tree: &'x Tree,
    wait: &BlockedActivation,
) -> Result<(), AllocError>
    ensures { Writes result page.old page.new (spec.wait_words files.now home tree.now.filter wait.now) }
{
    page.say(&[
        Part::Text("    activation "),
        Part::Number(wait.activation),
        Part::Text(" waits for "),
        Part::Quoted(word_of(tree, Subject::Lock(wait.lock))),
        Part::Text(" on line "),
        Part::Line(*files, home, wait.span.line),
    ])
}

/// Writes that an activation holds that lock.
#[tactic(auto, unfolding(crate::specs::Deadlocked::held_by))]
fn tell_held(page: &mut Page, number: usize) -> Result<(), AllocError>
    ensures { Writes result page.old page.new (spec.held_by number) }
{
    page.say(&[Part::Text(", held by activation "), Part::Number(number)])
}

/// Writes which activation holds that lock, if one is named.
fn tell_holder(page: &mut Page, holder: Option<usize>) -> Result<(), AllocError>
    ensures { Writes result page.old page.new (spec.holder_words holder) }
{
    match holder {
        Some(number) => tell_held(page, number),
        None => Ok(()),
    }
}

/// Writes the line of an activation that waits.
fn tell_wait_line(
    page: &mut Page,
    files: &Files<'_>,
    home: usize,
    tree: &Tree,
    wait: &BlockedActivation,
) -> Result<(), AllocError>
    ensures { Writes result page.old page.new (spec.wait_line files.now home tree.now.filter wait.now) }
{
    tell_wait(page, files, home, tree, wait)?;
    tell_holder(page, wait.holder)?;
    page.bytes(b"\n")?;
    Ok(())
}

/// The lines of the activations that wait.
fn wait_lines(
    alloc: Global,
    files: &Files<'_>,
    home: usize,
    tree: &Tree,
    waits: &[BlockedActivation],
) -> Result<Vec<u8>, AllocError>
    ensures { IfOk result (λ lines. lines.items ≡ spec.wait_lines files.now home tree.now.filter waits.now) }
{
    let mut page = Page::new(alloc);
    for wait in waits {
        tell_wait_line(&mut page, files, home, tree, wait)?;
    }
    Ok(page.out)
}

/// The file whose lines need no name before them: the only one; none of several.
fn named(files: &Files<'_>) -> usize
    ensures { result ≡ spec.named files.now }
{
    if files.all.len() > 1 {
        files.all.len()
    } else {
        0
    }
}

// ---- a run

/// The line that says that a run leads to a deadlock.
fn deadlock_line(alloc: Global, journal: &Journal) -> Result<String, AllocError>
    ensures { IfOk result (λ line. string_bytes line ≡ spec.deadlock_line journal.now) }
{
    let lengths = lengths_of(journal);
    let line = format!(in alloc; "   = deadlock: a run leads to one{lengths}\n")?;
    Ok(line)
}

/// The lines on a run to a deadlock: how long it is, its rows, and who waits at its end.
fn deadlock_lines(text: &WarnedText<'_>, deadlock: &Deadlock) -> Result<Vec<u8>, AllocError>
    ensures { IfOk result (λ lines. spec.AreDeadlockLines (warned_of text.now) deadlock.now lines.items) }
{
    let line = deadlock_line(text.alloc, &deadlock.journal)?;
    let rows = journal_rows(
        text.alloc,
        text.own,
        &[*text.files],
        &deadlock.journal,
        Verdict::Legal,
    )?;
    let waits = wait_lines(
        text.alloc,
        text.files,
        named(text.files),
        text.tree,
        deadlock.waits.as_slice(),
    )?;
    let mut lines = line.into_bytes();
    lines.extend_from_slice(rows.as_bytes())?;
    lines.extend_from_slice(waits.as_slice())?;
    Ok(lines)
}

// ---- none

/// The line that says that no run to a deadlock is among those that are tried.
const NOT_WITHIN: &[u8] =
    b"   = deadlock: no such run was found among those that are tried, of up to 4 operations at once\n";

/// The line that says that the search was ended at so many states.
#[derive(Drop)]
struct CutLine(u32);

impl fmt::Display for CutLine {
    ghost output = { λ c. Some (spec.cut_line c.0) };

    fn fmt<W: fmt::Write>(&self, f: &mut fmt::Formatter<W>) -> fmt::Result {
        let states = self.0;
        let many = plural(states as usize);
        write!(
            f,
            "   = deadlock: no such run was found in {states} state{many}; `--states N` sets another bound\n"
        )
    }
}

/// The same, as bytes.
fn cut_line(alloc: Global, states: u32) -> Result<Vec<u8>, AllocError>
    ensures { IfOk result (λ line. line.items ≡ spec.cut_line states) }
{
    let line = CutLine(states);
    let line = format!(in alloc; "{line}")?;
    Ok(line.into_bytes())
}

// ---- all

/// The lines on the answer of a search for a deadlock.
fn answer_lines(text: &WarnedText<'_>, answer: &Answer) -> Result<Vec<u8>, AllocError>
    ensures { IfOk result (λ lines. spec.AreAnswerLines (warned_of text.now) answer.now lines.items) }
{
    match answer {
        Answer::Found(deadlock) => deadlock_lines(text, deadlock),
        Answer::NotWithin => Vec::from_slice(text.alloc, NOT_WITHIN),
        Answer::Cut => cut_line(text.alloc, text.states),
    }
}

/// The lines on the answer of a search for the deadlock of a circle.
fn search_lines<W: SearchWatch>(
    text: &WarnedText<'_>,
    circle: &[Acquisition],
    watch: &mut W,
) -> Result<Vec<u8>, AllocError>
    ensures { IfOk result (λ lines. spec.AreSearchLines (warned_of text.now) circle.now lines.items) }
{
    let bounds = Bounds {
        states: text.states,
    };
    let mut watched = WatchedSearch::new(watch);
    let answer = find_deadlock(text.alloc, text.own, 0, circle, bounds, &mut watched)?;
    let lines = answer_lines(text, &answer)?;
    Ok(lines)
}

/// The lines below the report of a warning about a circle of locks; empty if it is about none.
pub(crate) fn run_lines<W: SearchWatch>(
    text: &WarnedText<'_>,
    circle: &[Acquisition],
    watch: &mut W,
) -> Result<Vec<u8>, AllocError>
    ensures { IfOk result (λ lines. spec.AreRunLines (warned_of text.now) circle.now lines.items) }
{
    match circle {
        [] => Ok(Vec::new(text.alloc)),
        [_, ..] => search_lines(text, circle, watch),
    }
}
