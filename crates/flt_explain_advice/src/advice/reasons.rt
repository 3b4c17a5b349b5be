//! The reasons why a variable isn't held, in words.

ghost use Rattle.std.specs.Prelude.{◌≡◌, option_copied};
ghost use Rattle.flt_explain_advice.specs.Advice.Reasons as spec;
ghost use Rattle.flt_explain_advice.specs.Case.{of_case};
ghost use Rattle.flt_explain_texts.specs.Page.{Writes};

use crate::advice::sentences::{in_line, on_line, since};
use crate::case::Case;
use flt_explain::Subject;
use flt_explain_origins::{Step, VariableStatus};
use flt_explain_texts::{Page, Part, call_name};
use flt_graph::Call;
use std::alloc::AllocError;

/// The step that gave a variable the status that it has where the finding is.
#[derive(Clone, Copy)]
pub(crate) enum Reason {
    /// It gave the variable away, released or completed it.
    Lost(Step),
    /// It left NULL in it.
    Emptied(Step),
}

/// The reason why a variable isn't held where the finding is; none if it isn't known.
#[tactic(auto, unfolding(crate::specs::Advice::Reasons::reason))]
pub(crate) fn reason_of(case: &Case<'_>) -> Option<Reason>
    ensures { result ≡ spec.reason (of_case case.now) }
{
    match (case.variable_status(), case.cause()) {
        (Some(VariableStatus::Stale), Some(step)) => Some(Reason::Lost(step)),
        (Some(VariableStatus::Null), Some(step)) => Some(Reason::Emptied(step)),
        _ => None,
    }
}

/// The words for the new owner of a context that a call hands over, with their verb.
pub(crate) fn new_owner(call: Call) -> Option<&'static str>
    ensures { option_copied result ≡ spec.new_owner call }
{
    match call {
        Call::InsertIo => Some("the queue owns "),
        Call::QueueDeferredIoWorkItem | Call::QueueGenericWorkItem => Some("the work item owns "),
        Call::CompletePendedPreOperation(_) => Some("the `post` callback owns "),
        _ => None,
    }
}

/// The words for the new holder of an operation that a call gives away, with their verb.
fn new_holder(call: Call) -> Option<&'static str>
    ensures { option_copied result ≡ spec.new_holder call }
{
    match call {
        Call::InsertIo => Some("the queue has "),
        Call::QueueDeferredIoWorkItem => Some("the work item has "),
        _ => None,
    }
}

/// Writes who has the variable since a line, or what that line did with it.
fn tell_lost_to(
    page: &mut Page,
    case: &Case<'_>,
    line: usize,
    owns: Option<&'static str>,
    verb: &'static str,
) -> Result<(), AllocError>
    ensures { Writes result page.old page.new (spec.lost_to (of_case case.now) line (option_copied owns.entry) verb.now) }
{
    match owns {
        Some(owns) => since(page, case, owns, line),
        None => on_line(page, case, line, verb, ""),
    }
}

/// Writes what became of a variable by a call.
fn tell_lost_by_call(
    page: &mut Page,
    case: &Case<'_>,
    call: Call,
    line: usize,
) -> Result<(), AllocError>
    ensures { Writes result page.old page.new (spec.lost_by_call (of_case case.now) case.now.finding.subject call line) }
{
    match case.finding.subject {
        Subject::Operation(_) => tell_lost_to(page, case, line, new_holder(call), " completed "),
        _ => tell_lost_to(page, case, line, new_owner(call), " released "),
    }
}

/// Writes what made a variable stale.
#[tactic(auto, unfolding(crate::specs::Advice::Reasons::lost))]
fn tell_lost(page: &mut Page, case: &Case<'_>, step: Step) -> Result<(), AllocError>
    ensures { Writes result page.old page.new (spec.lost (of_case case.now) step) }
{
    let line = case.step_line(step);
    match case.call_at(step) {
        Some(call) => tell_lost_by_call(page, case, call.call, line),
        None => in_line(page, case, " is given away in line ", line),
    }
}

/// The outcome of a call that gives nothing, in words.
fn emptying_outcome(succeeds: bool) -> &'static str
    ensures { result.now ≡ spec.emptying_outcome succeeds }
{
    if succeeds {
        " succeeds and gives none"
    } else {
        " fails"
    }
}

/// Writes that a call gives nothing.
#[tactic(auto, unfolding(crate::specs::Advice::Reasons::emptied_by_call))]
fn tell_emptied_by_call(
    page: &mut Page,
    case: &Case<'_>,
    call: Call,
    line: usize,
    succeeds: bool,
) -> Result<(), AllocError>
    ensures { Writes result page.old page.new (spec.emptied_by_call (of_case case.now) call line succeeds) }
{
    page.say(&[
        Part::Marked(case.subject()),
        Part::Text(" is NULL where "),
        Part::Word(call_name(call)),
        Part::Text(" in line "),
        case.line(line),
        Part::Text(emptying_outcome(succeeds)),
    ])
}

/// Writes what made a variable NULL: a call that gives nothing by this outcome, or a statement.
#[tactic(auto, unfolding(crate::specs::Advice::Reasons::emptied))]
fn tell_emptied(page: &mut Page, case: &Case<'_>, step: Step) -> Result<(), AllocError>
    ensures { Writes result page.old page.new (spec.emptied (of_case case.now) step) }
{
    let line = case.step_line(step);
    match case.call_at(step) {
        Some(call) => tell_emptied_by_call(page, case, call.call, line, step.granted),
        None => on_line(page, case, line, " sets ", " to NULL"),
    }
}

/// Writes why a variable isn't held.
pub(crate) fn tell_reason(
    page: &mut Page,
    case: &Case<'_>,
    reason: Reason,
) -> Result<(), AllocError>
    ensures { Writes result page.old page.new (spec.reason_told (of_case case.now) reason) }
{
    match reason {
        Reason::Lost(step) => tell_lost(page, case, step),
        Reason::Emptied(step) => tell_emptied(page, case, step),
    }
}
