//! Calls and tests at places where they aren't legal (R08), by call and place.

ghost use Rattle.std.specs.Prelude.{◌≡◌};
ghost use Rattle.flt_explain_advice.specs.Advice.Places as spec;
ghost use Rattle.flt_explain_advice.specs.Case.{of_case};
ghost use Rattle.flt_explain_texts.specs.Page.{Writes};

use crate::case::Case;
use flt_explain::Subject;
use flt_explain_texts::{Page, Part, call_name};
use flt_graph::{Call, Invocation, Place};
use flt_rules::{Places, Possessed, row};
use std::alloc::AllocError;

// ---- title

/// The name of the call, or of the test if it is one.
fn name_of(call: Option<Invocation>) -> &'static str
    ensures { result.now ≡ spec.name_of call }
{
    match call {
        Some(call) => call_name(call.call),
        None => "draining",
    }
}

/// The words for when a call isn't legal, if it is legal at other times.
fn when_of(call: Option<Invocation>, subject: Subject) -> &'static str
    ensures { result.now ≡ spec.when_of call subject }
{
    match (call, subject) {
        (Some(_), Subject::Draining) => " while draining",
        _ => "",
    }
}

/// Writes that a name isn't allowed in a callback.
#[tactic(auto, unfolding(crate::specs::Advice::Places::not_allowed))]
fn tell_not_allowed<'a>(
    page: &mut Page,
    case: &Case<'a>,
    name: &'a str,
    when: &'a str,
) -> Result<(), AllocError>
    ensures { Writes result page.old page.new (spec.not_allowed (of_case case.now) name.now when.now) }
{
    page.say(&[
        Part::Word(name),
        Part::Text(" isn't allowed in "),
        Part::Quoted(case.head()),
        Part::Text(when),
    ])
}

/// Writes which call or test isn't legal, and where.
#[tactic(auto, unfolding(crate::specs::Advice::Places::title))]
pub(crate) fn tell_title(page: &mut Page, case: &Case<'_>) -> Result<(), AllocError>
    ensures { Writes result page.old page.new (spec.title (of_case case.now)) }
{
    let call = case.call();
    tell_not_allowed(
        page,
        case,
        name_of(call),
        when_of(call, case.finding.subject),
    )
}

// ---- help

/// The help for completing the operation that the callback was given, by the callback's place.
fn completion_help(place: Place) -> &'static str
    ensures { result.now ≡ spec.completion_help place }
{
    match place {
        Place::Pre(_) =>
            "a `pre` callback ends its operation by the status that it returns: `return COMPLETE STATUS_SUCCESS`",
        Place::Post(_) => "the operation is completed already: return `FINISHED_PROCESSING`",
        Place::DeferredPost =>
            "`deferred_post` resumes its operation by `FltCompletePendedPostOperation data`",
        _ => "a generic routine has no operation: complete one that was removed from the queue",
    }
}

/// The help for continuing an operation on its path up, by the callback's place.
fn post_completion_help(place: Place) -> &'static str
    ensures { result.now ≡ spec.post_completion_help place }
{
    match place {
        Place::Post(_) => "return `FINISHED_PROCESSING`: only a deferred operation needs this call",
        Place::Canceled | Place::DeferredPre =>
            "an operation that goes down is completed by `FltCompletePendedPreOperation`",
        _ =>
            "only the routine of `FltQueueDeferredIoWorkItem` in a `post` callback needs this call",
    }
}

/// The help for a call, by the callback's place.
fn call_help(call: Call, place: Place) -> &'static str
    ensures { result.now ≡ spec.call_help call place }
{
    match call {
        Call::CompletePendedPreOperation(Possessed::Given) => completion_help(place),
        Call::CompletePendedPostOperation => post_completion_help(place),
        _ => "see `fltstack explain R08`",
    }
}

/// The help for a call that is legal at `places` and is made at `place`.
fn places_help(places: Places, call: Call, place: Place) -> &'static str
    ensures { result.now ≡ spec.places_help places call place }
{
    match places {
        Places::NotPreCreate =>
            "a create has no stream while it goes down: make the call in `post create`, after the test of `draining`",
        Places::PreOrDeferredPre =>
            "an operation is queued only while it goes down: in a `pre` callback, or in `deferred_pre`",
        Places::PreOrPost =>
            "an operation is deferred by its `pre` or `post` callback alone: do the work here, or in the routine of a generic work item",
        _ => call_help(call, place),
    }
}

/// The help that says where the call or the test is legal.
fn help(call: Option<Invocation>, subject: Subject, place: Place) -> &'static str
    ensures { result.now ≡ spec.help_by call subject place }
{
    match (call, subject) {
        (None, _) => "only a `post` callback is ever drained: leave the test out, or ask it there",
        (Some(_), Subject::Draining) =>
            "test `draining` first, and make the call where it doesn't hold: a draining callback only releases what it has",
        (Some(call), _) => places_help(row(call.call).places, call.call, place),
    }
}

/// Writes where the call or the test is legal.
#[tactic(auto, unfolding(crate::specs::Advice::Places::help))]
pub(crate) fn tell_help(page: &mut Page, case: &Case<'_>) -> Result<(), AllocError>
    ensures { Writes result page.old page.new (spec.help (of_case case.now)) }
{
    page.texts(&[help(case.call(), case.finding.subject, case.place())])
}
