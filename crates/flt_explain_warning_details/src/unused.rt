//! Locks, callbacks, statements and tests that are never used (W06).

ghost use Rattle.std.specs.Prelude.{◌≡◌, option_map};
ghost use Rattle.flt_explain_texts.specs.Page.{Writes};
ghost use Rattle.flt_tree.specs.Variable.{number_place};
ghost use Rattle.flt_explain_warning_details.specs.Parsed.{of_parsed};
ghost use Rattle.flt_explain_warning_details.specs.Unused as spec;

use crate::parsed::ParsedText;
use flt_explain_texts::{Page, Part};
use flt_explain_warnings::Site;
use flt_graph::{Instruction, LockNumber, NumberVariable, Operation, Place, Test};
use std::alloc::AllocError;

// ---- locks

/// Writes that no call names a lock.
#[tactic(auto, unfolding(crate::specs::Unused::lock_title))]
pub(crate) fn tell_lock_title(
    page: &mut Page,
    text: &ParsedText<'_>,
    lock: LockNumber,
) -> Result<(), AllocError>
    ensures { Writes result page.old page.new (spec.lock_title (of_parsed text.now) lock) }
{
    page.say(&[
        Part::Quoted(text.lock(lock)),
        Part::Text(" is declared and never taken"),
    ])
}

/// Writes what to do with it.
pub(crate) fn tell_lock_help(page: &mut Page) -> Result<(), AllocError>
    ensures { Writes result page.old page.new spec.lock_help }
{
    page.texts(&["remove the declaration, or take the lock where callbacks share a value"])
}

// ---- callbacks

/// The words that say why a callback at a place never runs.
fn never_runs(place: Place) -> &'static str
    ensures { result.now ≡ spec.never_runs place }
{
    match place {
        Place::Post(_) => " never runs: no status asks for it",
        Place::Canceled => " never runs: no operation is queued",
        _ => " never runs: no call queues it",
    }
}

/// Writes that nothing starts a callback.
#[tactic(auto, unfolding(crate::specs::Unused::callback_title))]
pub(crate) fn tell_callback_title(
    page: &mut Page,
    text: &ParsedText<'_>,
    callback: usize,
) -> Result<(), AllocError>
    ensures { Writes result page.old page.new (spec.callback_title (of_parsed text.now) callback) }
{
    page.say(&[
        Part::Quoted(text.head(callback)),
        Part::Text(never_runs(text.scene.graph.place(callback))),
    ])
}

/// Writes what to do with a post callback. A create can't be synchronized.
fn tell_post_help(page: &mut Page, operation: Operation) -> Result<(), AllocError>
    ensures { Writes result page.old page.new (spec.post_help operation) }
{
    match operation {
        Operation::Create => {
            page.texts(&["return `WITH_CALLBACK` in its `pre` callback, or remove it"])
        }
        _ => page.texts(&[
            "return `WITH_CALLBACK` or `SYNCHRONIZE` in its `pre` callback, or remove it",
        ]),
    }
}

/// The call that queues a routine of a place.
fn queueing(place: Place) -> &'static str
    ensures { result.now ≡ spec.queueing place }
{
    match place {
        Place::Generic => "FltQueueGenericWorkItem",
        _ => "FltQueueDeferredIoWorkItem",
    }
}

/// Writes what to do with a routine.
#[tactic(auto, unfolding(crate::specs::Unused::routine_help))]
fn tell_routine_help(page: &mut Page, place: Place) -> Result<(), AllocError>
    ensures { Writes result page.old page.new (spec.routine_help place) }
{
    page.say(&[
        Part::Text("queue it by "),
        Part::Word(queueing(place)),
        Part::Text(", or remove it"),
    ])
}

/// Writes what to do with a callback that nothing starts.
pub(crate) fn tell_callback_help(
    page: &mut Page,
    text: &ParsedText<'_>,
    callback: usize,
) -> Result<(), AllocError>
    ensures { Writes result page.old page.new (spec.callback_help (of_parsed text.now) callback) }
{
    match text.scene.graph.place(callback) {
        Place::Post(operation) => tell_post_help(page, operation),
        Place::Canceled => {
            page.texts(&["queue operations by `FltCbdqInsertIo`, or remove it and the queue"])
        }
        place => tell_routine_help(page, place),
    }
}

// ---- statements

/// Writes that nothing reaches a statement.
pub(crate) fn tell_unreached_title(page: &mut Page) -> Result<(), AllocError>
    ensures { Writes result page.old page.new spec.unreached_title }
{
    page.texts(&["no path reaches this statement"])
}

/// Writes what to do with it.
pub(crate) fn tell_unreached_help(page: &mut Page) -> Result<(), AllocError>
    ensures { Writes result page.old page.new spec.unreached_help }
{
    page.texts(&["remove it, or change what ends each path before it"])
}

// ---- tests

/// The variable of numbers that an instruction tests.
pub(crate) fn tested(instruction: &Instruction) -> Option<NumberVariable>
    ensures { result ≡ spec.tested instruction.now }
{
    match instruction {
        Instruction::Test(Test::Equal(number, _), _, _) => Some(*number),
        Instruction::Test(Test::Less(number, _), _, _) => Some(*number),
        _ => None,
    }
}

/// Writes a variable of numbers.
fn tell_number(page: &mut Page, number: Option<NumberVariable>) -> Result<(), AllocError>
    ensures { Writes result page.old page.new (spec.number_told number) }
{
    match number {
        Some(number) => page.say(&[
            Part::Text("`n"),
            Part::Number(number.place()),
            Part::Text("`"),
        ]),
        None => page.texts(&["its variable"]),
    }
}

/// Writes that a test never holds.
#[tactic(auto, unfolding(crate::specs::Unused::never_title))]
pub(crate) fn tell_never_title(
    page: &mut Page,
    text: &ParsedText<'_>,
    site: Site,
) -> Result<(), AllocError>
    ensures { Writes result page.old page.new (spec.never_title (of_parsed text.now) site) }
{
    page.texts(&["nothing in the callback writes "])?;
    tell_number(page, tested(&text.instruction(site)))?;
    page.texts(&[", so this test never holds"])
}

/// Writes what to do with it.
#[tactic(auto, unfolding(crate::specs::Unused::never_help))]
pub(crate) fn tell_never_help(
    page: &mut Page,
    text: &ParsedText<'_>,
    site: Site,
) -> Result<(), AllocError>
    ensures { Writes result page.old page.new (spec.never_help (of_parsed text.now) site) }
{
    page.texts(&["set "])?;
    tell_number(page, tested(&text.instruction(site)))?;
    page.texts(&[" before the test, or remove the test"])
}

/// Writes why.
pub(crate) fn tell_never_note(page: &mut Page) -> Result<(), AllocError>
    ensures { Writes result page.old page.new spec.never_note }
{
    page.texts(&["a variable of numbers is 0 where its callback begins"])
}
