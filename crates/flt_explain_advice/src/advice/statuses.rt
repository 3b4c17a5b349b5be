//! Statuses that aren't legal (R06): each mistake has its own sentence.

ghost use Rattle.std.specs.Prelude.{◌≡◌};
ghost use Rattle.flt_explain_advice.specs.Advice.Statuses as spec;
ghost use Rattle.flt_explain_advice.specs.Advice.Reasons.{reason};
ghost use Rattle.flt_explain_advice.specs.Case.{of_case};
ghost use Rattle.flt_explain_texts.specs.Page.{Writes};

use crate::advice::reasons::{reason_of, tell_reason};
use crate::case::Case;
use flt_explain::Subject;
use flt_explain_texts::{Page, Part, status_name};
use flt_graph::{Call, Graph, Instruction, Operation, OperationVariable, Place, Status};
use flt_rules::{Possession, Stage, status_row};
use std::alloc::AllocError;

/// The mistake in a status, or in a call that R06 forbids.
#[derive(Clone, Copy)]
enum Wrong {
    /// STATUS_PENDING as a final status.
    PendingIsFinal,
    /// `canceled` and routines return no status.
    NoneIsReturned,
    /// It is a status of the other stage.
    OtherStage(Stage),
    /// There is no `post` callback of the operation.
    NoPost(Operation),
    /// A create is synchronized as it is.
    Create,
    /// The operation is still held, and the status says that it was given away.
    Held,
    /// The operation was given away, and the status says that it is held.
    GivenAway,
    /// The status needs an IRP.
    FastIo,
    /// The status needs fast I/O.
    Irp,
    /// The operation is always an IRP, and the status needs fast I/O.
    NeverFast(Operation),
    Draining,
    /// A fast I/O is put into the queue.
    Queued,
    /// A fast I/O is given to a work item.
    Deferred,
    /// Only COMPLETE is legal in `canceled`.
    Canceled,
    /// No pended operation can be given this status.
    NotHanded,
    /// There is an operation with a `pre` callback and without a `post` callback.
    Unpaired(Operation),
    /// None of these.
    Other,
}

// ---- callbacks of operations

fn is_post_of(operation: Operation, place: Place) -> bool
    ensures { result ≡ spec.is_post_of operation place }
{
    matches!(place, Place::Post(own) if own.is_same(operation))
}

pub(crate) fn is_pre_of(operation: Operation, place: Place) -> bool
    ensures { result ≡ spec.is_pre_of operation place }
{
    matches!(place, Place::Pre(own) if own.is_same(operation))
}

#[tactic(auto, unfolding(crate::specs::Advice::Statuses::has_post))]
fn has_post(graph: &Graph, operation: Operation) -> bool
    ensures { result ≡ spec.has_post graph.now operation }
{
    let callbacks = graph.callbacks.as_slice();
    callbacks.iter().any(|c| is_post_of(operation, c.place))
}

#[tactic(auto, unfolding(crate::specs::Advice::Statuses::has_pre))]
fn has_pre(graph: &Graph, operation: Operation) -> bool
    ensures { result ≡ spec.has_pre graph.now operation }
{
    let callbacks = graph.callbacks.as_slice();
    callbacks.iter().any(|c| is_pre_of(operation, c.place))
}

/// Whether an operation has a `pre` callback and no `post` callback.
fn is_unpaired(graph: &Graph, operation: Operation) -> bool
    ensures { result ≡ spec.is_unpaired graph.now operation }
{
    has_pre(graph, operation) && !has_post(graph, operation)
}

/// The first operation with a `pre` callback and no `post` callback.
#[tactic(auto, unfolding(crate::specs::Advice::Statuses::unpaired))]
fn unpaired(graph: &Graph) -> Option<Operation>
    ensures { result ≡ spec.unpaired graph.now }
{
    Operation::all()
        .iter()
        .copied()
        .find(|operation| is_unpaired(graph, *operation))
}

// ---- what is wrong

/// The mistake in a status that the callback of an operation returns, if it is one in every situation.
fn wrong_for(case: &Case<'_>, operation: Operation, status: Status) -> Option<Wrong>
    ensures { result ≡ spec.wrong_for (of_case case.now) operation status }
{
    let row = status_row(status.word());
    if status.completes_pending() {
        Some(Wrong::PendingIsFinal)
    } else if !row.in_create && case.place().is_pre_create() {
        Some(Wrong::Create)
    } else if row.needs_post && !has_post(case.scene.graph, operation) {
        Some(Wrong::NoPost(operation))
    } else {
        None
    }
}

/// The mistake in a returned status, if it is one in every situation.
#[tactic(auto, unfolding(crate::specs::Advice::Statuses::wrong_anyhow))]
fn wrong_anyhow(case: &Case<'_>, status: Status) -> Option<Wrong>
    ensures { result ≡ spec.wrong_anyhow (of_case case.now) status }
{
    let stage = status_row(status.word()).stage;
    let place = case.place();
    if !place.answers() {
        Some(Wrong::NoneIsReturned)
    } else if !place.fits(stage) {
        Some(Wrong::OtherStage(stage))
    } else {
        match case.operation() {
            Some(operation) => wrong_for(case, operation, status),
            None => None,
        }
    }
}

/// The mistake in a status that refuses fast I/O.
fn fast_io_refused(operation: Option<Operation>) -> Wrong
    ensures { result ≡ spec.fast_io_refused operation }
{
    match operation {
        Some(operation) if operation.is_always_irp() => Wrong::NeverFast(operation),
        _ => Wrong::Irp,
    }
}

/// The mistake in a status that is returned in the wrong mode.
fn wrong_mode(status: Status, operation: Option<Operation>) -> Wrong
    ensures { result ≡ spec.wrong_mode status operation }
{
    match status {
        Status::DisallowFastIo => fast_io_refused(operation),
        _ => Wrong::FastIo,
    }
}

/// The mistake about the operation, by what a status says of it.
fn wrong_possession(said: Possession) -> Wrong
    ensures { result ≡ spec.wrong_possession said }
{
    match said {
        Possession::GivenAway => Wrong::Held,
        Possession::Held => Wrong::GivenAway,
    }
}

/// The mistake in a returned status, by the finding's subject.
fn wrong_here(case: &Case<'_>, status: Status) -> Wrong
    ensures { result ≡ spec.wrong_here (of_case case.now) case.now.finding.subject status }
{
    match case.finding.subject {
        Subject::Operation(OperationVariable::Data) => {
            wrong_possession(status_row(status.word()).data)
        }
        Subject::Mode => wrong_mode(status, case.operation()),
        Subject::Draining => Wrong::Draining,
        _ => Wrong::Other,
    }
}

/// The mistake in a returned status.
fn wrong_return(case: &Case<'_>, status: Status) -> Wrong
    ensures { result ≡ spec.wrong_return (of_case case.now) status }
{
    match wrong_anyhow(case, status) {
        Some(wrong) => wrong,
        None => wrong_here(case, status),
    }
}

/// The mistake in a status that could be given if no callback were missing.
fn wrong_pair(operation: Option<Operation>) -> Wrong
    ensures { result ≡ spec.wrong_pair operation }
{
    match operation {
        Some(operation) => Wrong::Unpaired(operation),
        None => Wrong::Other,
    }
}

fn is_canceled(place: Place) -> bool
    ensures { result ≡ spec.is_canceled place }
{
    matches!(place, Place::Canceled)
}

/// The mistake in a status that a pended operation is given.
#[tactic(auto, unfolding(crate::specs::Advice::Statuses::wrong_given))]
fn wrong_given(case: &Case<'_>, status: Status) -> Wrong
    ensures { result ≡ spec.wrong_given (of_case case.now) status }
{
    let word = status.word();
    if status.completes_pending() {
        Wrong::PendingIsFinal
    } else if !status_row(word).handed {
        Wrong::NotHanded
    } else if is_canceled(case.place()) && !word.is_complete() {
        Wrong::Canceled
    } else {
        wrong_pair(unpaired(case.scene.graph))
    }
}

/// The mistake in the status, if any, that a pended operation is given.
fn wrong_if_given(case: &Case<'_>, status: Option<Status>) -> Wrong
    ensures { result ≡ spec.wrong_if_given (of_case case.now) status }
{
    match status {
        Some(status) => wrong_given(case, status),
        None => Wrong::Other,
    }
}

/// The mistake in the returned status, if any.
fn wrong_if_returned(case: &Case<'_>, status: Option<Status>) -> Wrong
    ensures { result ≡ spec.wrong_if_returned (of_case case.now) status }
{
    match status {
        Some(status) => wrong_return(case, status),
        None => Wrong::Other,
    }
}

/// The mistake in a call.
fn wrong_call(case: &Case<'_>, call: Call, status: Option<Status>) -> Wrong
    ensures { result ≡ spec.wrong_call (of_case case.now) call status }
{
    match call {
        Call::InsertIo => Wrong::Queued,
        Call::QueueDeferredIoWorkItem => Wrong::Deferred,
        _ => wrong_if_given(case, status),
    }
}

#[tactic(auto, unfolding(crate::specs::Advice::Statuses::wrong))]
fn wrong_of(case: &Case<'_>) -> Wrong
    ensures { result ≡ spec.wrong (of_case case.now) }
{
    match case.instruction() {
        Instruction::Call(call, _, _) => {
            let call = call.roles();
            wrong_call(case, call.call, call.status)
        }
        Instruction::Return(status) => wrong_if_returned(case, status),
        _ => Wrong::Other,
    }
}

// ---- titles

/// The word of the status.
#[tactic(auto, unfolding(crate::specs::Advice::Statuses::word))]
fn word(case: &Case<'_>) -> &'static str
    ensures { result.now ≡ spec.word (of_case case.now) }
{
    match case.status() {
        Some(status) => status_name(status.word()),
        None => "this status",
    }
}

/// Writes the word of the status, and these words.
#[tactic(auto, unfolding(crate::specs::Advice::Statuses::of_word))]
fn tell_of_word<'a>(page: &mut Page, case: &Case<'a>, words: &'a str) -> Result<(), AllocError>
    ensures { Writes result page.old page.new (spec.of_word (of_case case.now) words.now) }
{
    page.say(&[Part::Word(word(case)), Part::Text(words)])
}

/// Writes that a status isn't legal in the callback.
#[tactic(auto, unfolding(crate::specs::Advice::Statuses::not_legal))]
fn tell_not_legal(page: &mut Page, case: &Case<'_>) -> Result<(), AllocError>
    ensures { Writes result page.old page.new (spec.not_legal (of_case case.now)) }
{
    page.say(&[
        Part::Word(word(case)),
        Part::Text(" isn't legal in "),
        Part::Quoted(case.head()),
    ])
}

/// Writes that a status isn't legal, and what it needs of an operation.
#[tactic(auto, unfolding(crate::specs::Advice::Statuses::needing))]
fn tell_needing(
    page: &mut Page,
    case: &Case<'_>,
    before: &'static str,
    operation: Operation,
    after: &'static str,
) -> Result<(), AllocError>
    ensures { Writes result page.old page.new (spec.needing (of_case case.now) before.now operation after.now) }
{
    tell_not_legal(page, case)?;
    page.texts(&[before, operation.name(), after])?;
    Ok(())
}

/// Writes the title for a mistake in a status.
fn tell_title_by(page: &mut Page, case: &Case<'_>, wrong: Wrong) -> Result<(), AllocError>
    ensures { Writes result page.old page.new (spec.title_by (of_case case.now) wrong) }
{
    match wrong {
        Wrong::PendingIsFinal => page.texts(&["`STATUS_PENDING` is no final status"]),
        Wrong::Queued => page.texts(&["a fast I/O can't be queued"]),
        Wrong::Deferred => page.texts(&["a fast I/O can't be deferred"]),
        Wrong::NoPost(operation) | Wrong::Unpaired(operation) => {
            tell_needing(page, case, ": there is no `post ", operation, "`")
        }
        Wrong::NeverFast(operation) => {
            tell_needing(page, case, ": a ", operation, " is never fast I/O")
        }
        Wrong::Held => tell_of_word(page, case, " is returned while `data` is still held"),
        Wrong::GivenAway => tell_of_word(page, case, " is returned after `data` was given away"),
        Wrong::FastIo => tell_of_word(page, case, " isn't legal for a fast I/O"),
        Wrong::Irp => tell_of_word(page, case, " isn't legal for an IRP"),
        Wrong::NotHanded => tell_of_word(page, case, " can't be given to a pended operation"),
        Wrong::Draining => tell_of_word(page, case, " isn't legal while draining"),
        Wrong::NoneIsReturned
        | Wrong::OtherStage(_)
        | Wrong::Create
        | Wrong::Canceled
        | Wrong::Other => tell_not_legal(page, case),
    }
}

/// Writes the title of a finding about a status.
#[tactic(auto, unfolding(crate::specs::Advice::Statuses::title))]
pub(crate) fn tell_title(page: &mut Page, case: &Case<'_>) -> Result<(), AllocError>
    ensures { Writes result page.old page.new (spec.title (of_case case.now)) }
{
    tell_title_by(page, case, wrong_of(case))
}

// ---- helps

/// How to fix that the operation is still held.
fn held_help(place: Place) -> &'static str
    ensures { result.now ≡ spec.held_help place }
{
    match place {
        Place::Post(_) =>
            "hand `data` to a work item first, and return `MORE_PROCESSING_REQUIRED` only where that succeeds",
        _ =>
            "queue `data` or hand it to a work item first, and return `PENDING` only where that succeeds",
    }
}

/// The words that say which status to return if the operation was given away.
fn given_away_remedy(place: Place) -> &'static str
    ensures { result.now ≡ spec.given_away_remedy place }
{
    match place {
        Place::Post(_) => ": return `MORE_PROCESSING_REQUIRED` there",
        _ => ": return `PENDING` there",
    }
}

/// Writes who has the operation.
fn tell_why_given_away(page: &mut Page, case: &Case<'_>) -> Result<(), AllocError>
    ensures { Writes result page.old page.new (spec.why_given_away (of_case case.now) (reason (of_case case.now))) }
{
    match reason_of(case) {
        Some(reason) => tell_reason(page, case, reason),
        None => page.texts(&["`data` was given away before"]),
    }
}

/// Writes how to fix that the operation was given away: who has it, and what to return.
#[tactic(auto, unfolding(crate::specs::Advice::Statuses::given_away_help))]
fn tell_given_away(page: &mut Page, case: &Case<'_>) -> Result<(), AllocError>
    ensures { Writes result page.old page.new (spec.given_away_help (of_case case.now)) }
{
    tell_why_given_away(page, case)?;
    page.texts(&[given_away_remedy(case.place())])?;
    Ok(())
}

/// How to fix a mistake, whatever the callback's operation is.
fn plain_help(wrong: Wrong) -> &'static str
    ensures { result.now ≡ spec.plain_help wrong }
{
    match wrong {
        Wrong::PendingIsFinal =>
            "name the status with which the operation ends, such as `STATUS_SUCCESS`; to end it later, queue it and return `PENDING`",
        Wrong::NoneIsReturned =>
            "write `return` alone: the call that completes the operation names the status",
        Wrong::OtherStage(Stage::Post) =>
            "this is a status of `post` callbacks: return `NO_CALLBACK`",
        Wrong::OtherStage(Stage::Pre) =>
            "this is a status of `pre` callbacks: return `FINISHED_PROCESSING`",
        Wrong::Create => "a create is synchronized as it is: return `WITH_CALLBACK`",
        Wrong::Draining => "test `draining`, and return `FINISHED_PROCESSING` where it holds",
        Wrong::Queued => "test `irp data` first, and queue `data` only where it holds",
        Wrong::Deferred => "test `irp data` first, and defer `data` only where it holds",
        Wrong::Canceled => "a cancelled operation ends here: write `COMPLETE STATUS_CANCELLED`",
        Wrong::NotHanded => "give `WITH_CALLBACK`, `NO_CALLBACK` or `COMPLETE` with a final status",
        Wrong::NeverFast(_) =>
            "return `COMPLETE` with a final status to refuse it, or `NO_CALLBACK` to let it pass",
        _ => "see `fltstack explain R06`, which has the table of statuses",
    }
}

/// Writes how to fix that a status is for the other mode.
#[tactic(auto, unfolding(crate::specs::Advice::Statuses::mode_help))]
fn tell_mode_help<'a>(page: &mut Page, case: &Case<'a>, side: &'a str) -> Result<(), AllocError>
    ensures { Writes result page.old page.new (spec.mode_help (of_case case.now) side.now) }
{
    page.say(&[
        Part::Text("test `irp data`, and return "),
        Part::Word(word(case)),
        Part::Text(" only where it "),
        Part::Text(side),
    ])
}

/// Writes how to fix that there is no `post` callback.
#[tactic(auto, unfolding(crate::specs::Advice::Statuses::pairing_help))]
fn tell_pairing(page: &mut Page, operation: Operation, verb: &'static str) -> Result<(), AllocError>
    ensures { Writes result page.old page.new (spec.pairing_help operation verb.now) }
{
    page.texts(&[
        "add a `post ",
        operation.name(),
        "`, or ",
        verb,
        " `NO_CALLBACK`",
    ])
}

/// Writes how to fix a mistake in a status.
fn tell_help_by(page: &mut Page, case: &Case<'_>, wrong: Wrong) -> Result<(), AllocError>
    ensures { Writes result page.old page.new (spec.help_by (of_case case.now) wrong) }
{
    match wrong {
        Wrong::NoPost(operation) => tell_pairing(page, operation, "return"),
        Wrong::Unpaired(operation) => tell_pairing(page, operation, "give"),
        Wrong::Held => page.texts(&[held_help(case.place())]),
        Wrong::GivenAway => tell_given_away(page, case),
        Wrong::FastIo => tell_mode_help(page, case, "holds"),
        Wrong::Irp => tell_mode_help(page, case, "doesn't hold"),
        _ => page.texts(&[plain_help(wrong)]),
    }
}

/// Writes how to fix a finding about a status.
#[tactic(auto, unfolding(crate::specs::Advice::Statuses::help))]
pub(crate) fn tell_help(page: &mut Page, case: &Case<'_>) -> Result<(), AllocError>
    ensures { Writes result page.old page.new (spec.help (of_case case.now)) }
{
    tell_help_by(page, case, wrong_of(case))
}
