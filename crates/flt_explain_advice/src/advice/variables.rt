//! Variables that aren't held where they are used (R01, R04, R13), or are held where they mustn't be (R02, R03, R05).

ghost use Rattle.std.specs.Prelude.{◌≡◌, option_copied};
ghost use Rattle.flt_explain_advice.specs.Advice.Variables as spec;
ghost use Rattle.flt_explain_advice.specs.Case.{of_case, call_in, instruction, place};
ghost use Rattle.flt_explain_texts.specs.Page.{Writes};

use crate::advice::reasons::{new_owner, reason_of, tell_reason};
use crate::advice::sentences::{around, at_end};
use crate::case::Case;
use flt_explain::Subject;
use flt_explain_origins::VariableStatus;
use flt_explain_texts::Page;
use flt_graph::{Call, ContextVariable, Invocation, OperationVariable, Place};
use std::alloc::AllocError;

// ---- what is known

/// Whether the variable was released, completed or given away.
fn is_lost(case: &Case<'_>) -> bool
    ensures { result ≡ spec.is_lost (of_case case.now) }
{
    matches!(case.variable_status(), Some(VariableStatus::Stale))
}

/// The call that gave the variable its status.
#[tactic(auto, unfolding(crate::specs::Advice::Variables::earlier))]
fn earlier(case: &Case<'_>) -> Option<Invocation>
    ensures { result ≡ spec.earlier (of_case case.now) }
{
    case.call_at(case.cause()?)
}

fn completes(call: Call) -> bool
    ensures { result ≡ spec.completes call }
{
    matches!(
        call,
        Call::CompletePendedPreOperation(_) | Call::CompletePendedPostOperation
    )
}

fn releases(call: Call) -> bool
    ensures { result ≡ spec.releases call }
{
    matches!(call, Call::ReleaseContext)
}

/// The words for a second release or completion, if both calls release or both complete.
fn twice(earlier: Call, later: Call) -> Option<&'static str>
    ensures { option_copied result ≡ spec.twice earlier later }
{
    if releases(earlier) && releases(later) {
        Some(" is released a second time")
    } else if completes(earlier) && completes(later) {
        Some(" is completed a second time")
    } else {
        None
    }
}

/// The words for a second release or completion of a variable that is lost.
#[tactic(auto, unfolding(crate::specs::Advice::Variables::repeated))]
fn repeated(case: &Case<'_>) -> Option<&'static str>
    ensures { option_copied result ≡ spec.repeated (of_case case.now) }
{
    if !is_lost(case) {
        return None;
    }
    match (earlier(case), case.call()) {
        (Some(earlier), Some(later)) => twice(earlier.call, later.call),
        _ => None,
    }
}

/// Whether a generic routine uses the operation, which it doesn't have.
#[tactic(auto, unfolding(crate::specs::Advice::Variables::is_without_operation))]
fn is_without_operation(case: &Case<'_>) -> bool
    ensures { result ≡ spec.is_without_operation (of_case case.now) }
{
    match case.finding.subject {
        Subject::Operation(OperationVariable::Data) => matches!(case.place(), Place::Generic),
        _ => false,
    }
}

/// Whether a finding is about `arg`.
fn is_argument(subject: Subject) -> bool
    ensures { result ≡ spec.is_argument subject }
{
    matches!(subject, Subject::Context(ContextVariable::Arg))
}

/// Whether a call hands a context to somebody.
fn hands_over(call: Option<Invocation>) -> bool
    ensures { result ≡ spec.hands_over call }
{
    match call {
        Some(call) => new_owner(call.call).is_some(),
        None => false,
    }
}

/// Whether a call releases a context.
fn releases_here(call: Option<Invocation>) -> bool
    ensures { result ≡ spec.releases_here call }
{
    match call {
        Some(call) => releases(call.call),
        None => false,
    }
}

// ---- titles

/// Writes that a context might not be held (R01).
pub(crate) fn tell_use_title(page: &mut Page, case: &Case<'_>) -> Result<(), AllocError>
    ensures { Writes result page.old page.new (spec.use_title (of_case case.now)) }
{
    let fault = repeated(case).unwrap_or(" might not be held here");
    around(page, case, "", fault)
}

/// The words for an operation that isn't held.
fn operation_fault(is_without: bool) -> &'static str
    ensures { result.now ≡ spec.operation_fault is_without }
{
    if is_without {
        " isn't there: a generic routine has no operation"
    } else {
        " might not be held here"
    }
}

/// Writes that an operation might not be held (R04).
pub(crate) fn tell_operation_title(page: &mut Page, case: &Case<'_>) -> Result<(), AllocError>
    ensures { Writes result page.old page.new (spec.operation_title (of_case case.now)) }
{
    let otherwise = operation_fault(is_without_operation(case));
    let fault = repeated(case).unwrap_or(otherwise);
    around(page, case, "", fault)
}

/// Writes that a variable might still be held at the end (R02, R05).
pub(crate) fn tell_end_title(page: &mut Page, case: &Case<'_>) -> Result<(), AllocError>
    ensures { Writes result page.old page.new (spec.end_title (of_case case.now)) }
{
    at_end(page, case, " might still be held when ")
}

// ---- what isn't held

/// The remedy that uses the variable only while it is held.
fn use_remedy(is_lost: bool) -> &'static str
    ensures { result.now ≡ spec.use_remedy is_lost }
{
    if is_lost {
        ": use it before that, or not at all"
    } else {
        ": use it only where it is held"
    }
}

/// The remedy that releases the variable once.
fn release_remedy(is_handed_over: bool) -> &'static str
    ensures { result.now ≡ spec.release_remedy is_handed_over }
{
    if is_handed_over {
        ": release it only where that call fails"
    } else {
        ": release it once on each path"
    }
}

/// The remedy for a context that isn't held (R01), which follows the reason.
#[tactic(auto, unfolding(crate::specs::Advice::Variables::context_remedy))]
pub(crate) fn context_remedy(case: &Case<'_>) -> &'static str
    ensures { result.now ≡ spec.context_remedy (of_case case.now) }
{
    let is_lost = is_lost(case);
    if is_lost && releases_here(case.call()) {
        release_remedy(hands_over(earlier(case)))
    } else {
        use_remedy(is_lost)
    }
}

/// The remedy for an operation that isn't held (R04), which follows the reason.
#[tactic(auto, unfolding(crate::specs::Advice::Variables::operation_remedy))]
pub(crate) fn operation_remedy(case: &Case<'_>) -> &'static str
    ensures { result.now ≡ spec.operation_remedy (of_case case.now) }
{
    if repeated(case).is_some() {
        ": complete it once on each path"
    } else {
        use_remedy(is_lost(case))
    }
}

/// Writes how to fix that a variable isn't held, if no reason is known.
fn tell_use_help(page: &mut Page, case: &Case<'_>) -> Result<(), AllocError>
    ensures { Writes result page.old page.new (spec.use_help (of_case case.now)) }
{
    if is_argument(case.finding.subject) {
        page.texts(&[
            "`arg` is NULL where nothing was handed over: use it inside `if arg != NULL { .. }` alone",
        ])
    } else {
        around(
            page,
            case,
            "use ",
            " only where it is held: after a call that gives it, where that succeeds, and before it is released, completed or given away",
        )
    }
}

/// Writes how to fix that a variable isn't held (R01, R04, R13): the reason, and this remedy.
#[tactic(auto, unfolding(crate::specs::Advice::Variables::missing_help))]
pub(crate) fn tell_missing_help(
    page: &mut Page,
    case: &Case<'_>,
    remedy: &'static str,
) -> Result<(), AllocError>
    ensures { Writes result page.old page.new (spec.missing_help (of_case case.now) remedy.now) }
{
    if is_without_operation(case) {
        return page.texts(&[
            "use `FltQueueDeferredIoWorkItem`, whose routine has the operation, or get the context first and hand it over",
        ]);
    }
    match reason_of(case) {
        Some(reason) => {
            tell_reason(page, case, reason)?;
            page.texts(&[remedy])?;
            Ok(())
        }
        None => tell_use_help(page, case),
    }
}

// ---- what is held

/// Writes how to fix that a context is held at the end (R02).
#[tactic(auto, unfolding(crate::specs::Advice::Variables::release_help))]
pub(crate) fn tell_release_help(page: &mut Page, case: &Case<'_>) -> Result<(), AllocError>
    ensures { Writes result page.old page.new (spec.release_help (of_case case.now)) }
{
    if is_argument(case.finding.subject) {
        page.texts(&[
            "release it on each path to the end, as each callback that is given a context does:\n",
            "if arg != NULL {\n  FltReleaseContext arg\n}",
        ])
    } else {
        around(page, case, "release ", " on this path, or hand it over")
    }
}

/// Writes how to fix that a variable is held where it is overwritten (R03).
#[tactic(auto, unfolding(crate::specs::Advice::Variables::overwriting_help))]
pub(crate) fn tell_overwriting_help(page: &mut Page, case: &Case<'_>) -> Result<(), AllocError>
    ensures { Writes result page.old page.new (spec.overwriting_help (of_case case.now)) }
{
    match case.finding.subject {
        Subject::Operation(_) => around(page, case, "complete ", " before it is overwritten"),
        _ => around(
            page,
            case,
            "release ",
            " before it is overwritten, or hand it over",
        ),
    }
}

/// Writes how to fix that `data` is held at the end, by the place of the callback.
fn tell_completion(page: &mut Page, case: &Case<'_>) -> Result<(), AllocError>
    ensures { Writes result page.old page.new (spec.completion_by (of_case case.now) (place (of_case case.now))) }
{
    match case.place() {
        Place::Canceled => around(
            page,
            case,
            "write `FltCompletePendedPreOperation data COMPLETE STATUS_CANCELLED` on this path: nobody else completes ",
            "",
        ),
        Place::DeferredPost => around(
            page,
            case,
            "write `FltCompletePendedPostOperation data` on this path: nobody else completes ",
            "",
        ),
        _ => around(
            page,
            case,
            "complete ",
            " by `FltCompletePendedPreOperation` on this path, or queue it again",
        ),
    }
}

/// Writes how to fix that an operation is held at the end (R05).
#[tactic(auto, unfolding(crate::specs::Advice::Variables::completion_help))]
pub(crate) fn tell_completion_help(page: &mut Page, case: &Case<'_>) -> Result<(), AllocError>
    ensures { Writes result page.old page.new (spec.completion_help (of_case case.now)) }
{
    match case.finding.subject {
        Subject::Operation(OperationVariable::Data) => tell_completion(page, case),
        _ => around(
            page,
            case,
            "complete ",
            " by `FltCompletePendedPreOperation` on this path",
        ),
    }
}
