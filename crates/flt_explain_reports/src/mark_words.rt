//! The words of the marks that show a finding.

ghost use Rattle.std.specs.Prelude.{◌≡◌, ◌++◌, option_copied};
ghost use Rattle.flt_explain_advice.specs.Branches as branches;
ghost use Rattle.flt_explain_texts.specs.Page.{Writes};
ghost use Rattle.flt_explain_reports.specs.MarkWords as spec;

use flt_explain::{Finding, Subject};
use flt_explain_advice::{fact_word, state_at_end, step_call_outcome};
use flt_explain_origins::{Fact, FindingTrace, Step, VariableStatus, Way};
use flt_explain_texts::{Page, Scene};
use flt_graph::{Call, Instruction};
use flt_rules::Rule;
use std::alloc::AllocError;

/// The kind of a mark, by what it shows.
#[derive(Clone, Copy)]
pub(crate) enum Sign {
    /// The step that makes a fact of the finding.
    Origin(Fact, Step),
    Point,
    /// The point where paths meet with different locks.
    Meeting,
}

// ---- where what is found comes from

/// The word for what a call does to the subject that it gives away or releases.
#[tactic(auto, unfolding(crate::specs::MarkWords::lost_by))]
fn lost_by(call: Call, is_operation: bool) -> &'static str
    ensures { result.now ≡ spec.lost_by call is_operation }
{
    match (call, is_operation) {
        (Call::InsertIo, _) => "queued",
        (Call::QueueDeferredIoWorkItem | Call::QueueGenericWorkItem, _) => "handed to a work item",
        (Call::CompletePendedPreOperation(_), false) => "handed to the `post` callback",
        (_, false) => "released",
        (_, true) => "completed",
    }
}

/// The same for an instruction, if it is a call.
#[tactic(auto, unfolding(crate::specs::MarkWords::lost_at))]
fn lost_at(instruction: &Instruction, is_operation: bool) -> Option<&'static str>
    ensures { option_copied result ≡ spec.lost_at instruction.now is_operation }
{
    match instruction {
        Instruction::Call(call, _, _) => Some(lost_by(call.roles().call, is_operation)),
        _ => None,
    }
}

/// The word for what a step does to a subject that it makes stale; none if the step does something else to it.
#[tactic(auto, unfolding(crate::specs::MarkWords::lost))]
fn lost(scene: &Scene<'_>, callback: usize, fact: Fact, step: Step) -> Option<&'static str>
    ensures { option_copied result ≡ spec.lost scene.now.graph.now callback fact step }
{
    let is_operation = match fact {
        Fact::Context(_, VariableStatus::Stale) => false,
        Fact::Operation(_, VariableStatus::Stale) => true,
        _ => return None,
    };
    lost_at(&scene.graph.instruction(callback, step.point), is_operation)
}

/// The words for how a subject changes on a path, or might change if no path is known.
#[tactic(auto, unfolding(crate::specs::MarkWords::becomes))]
fn becomes(
    finding: &Finding,
    way: Option<&Way>,
    fact: Fact,
    lost: Option<&'static str>,
) -> (&'static str, &'static str)
    ensures { result.0.now ++ result.1.now ≡ spec.becomes finding.now.subject (option_copied way.entry) fact (option_copied lost.entry) }
{
    match (lost, way) {
        (Some(lost), Some(_)) => (" is ", lost),
        (Some(lost), None) => (" might be ", lost),
        (None, Some(_)) => match state_at_end(finding, way) {
            Some(word) => (" becomes ", word),
            None => ("", ""),
        },
        (None, None) => (" might become ", fact_word(fact)),
    }
}

/// The outcome of an origin's call, after the words that introduce it.
#[tactic(auto, unfolding(crate::specs::MarkWords::call_side))]
fn call_side(scene: &Scene<'_>, callback: usize, step: Step) -> (&'static str, &'static str)
    ensures { result.0.now ++ result.1.now ≡ spec.call_side (branches.step_call_outcome scene.now.graph.now callback step) }
{
    match step_call_outcome(scene, callback, step) {
        Some(outcome) => (", where this ", outcome),
        None => ("", ""),
    }
}

/// Writes that a step changes a subject: how it does on a path, else how it might.
#[tactic(auto, unfolding(crate::specs::MarkWords::made_here))]
fn tell_made(
    page: &mut Page,
    scene: &Scene<'_>,
    finding: &Finding,
    subject: &[u8],
    way: Option<&Way>,
    fact: Fact,
    step: Step,
) -> Result<(), AllocError>
    ensures { Writes result page.old page.new
        (spec.made_here scene.now.graph.now finding.now subject.now (option_copied way.entry) fact step) }
{
    let lost = lost(scene, finding.callback, fact, step);
    let (becomes, word) = becomes(finding, way, fact, lost);
    let (before, outcome) = call_side(scene, finding.callback, step);
    page.words(&[b" ", subject])?;
    page.texts(&[becomes, word])?;
    page.texts(&[" here", before, outcome, "\n"])
}

/// Writes the words of an origin's mark.
#[tactic(auto, unfolding(crate::specs::MarkWords::origin_told))]
fn tell_origin(
    page: &mut Page,
    scene: &Scene<'_>,
    finding: &Finding,
    subject: &[u8],
    way: Option<&Way>,
    fact: Fact,
    step: Step,
) -> Result<(), AllocError>
    ensures { Writes result page.old page.new
        (spec.origin_told scene.now.graph.now finding.now subject.now (option_copied way.entry) fact step) }
{
    match fact {
        Fact::Lock(_, true) => page.bytes(b" taken here\n"),
        Fact::Lock(_, false) => page.bytes(b" released here\n"),
        _ => tell_made(page, scene, finding, subject, way, fact, step),
    }
}

// ---- what is so at the point

/// The article before a mode.
#[tactic(auto, unfolding(crate::specs::MarkWords::article))]
fn article(mode: &str) -> &str
    ensures { result.now ≡ spec.article mode.now }
{
    if mode == "IRP" { "an " } else { "" }
}

/// Writes the mode that the operation might have at a point.
fn tell_mode(page: &mut Page, mode: &str) -> Result<(), AllocError>
    ensures { Writes result page.old page.new (spec.mode_told mode.now) }
{
    let article = article(mode);
    page.texts(&[" the operation might be ", article, mode, " here\n"])
}

/// Writes the state of a subject at a point. A state with which the callback is entered is only possible.
#[tactic(auto, unfolding(crate::specs::MarkWords::state_told))]
fn tell_state(
    page: &mut Page,
    subject: Subject,
    words: &[u8],
    state: &str,
) -> Result<(), AllocError>
    ensures { Writes result page.old page.new (spec.state_told subject words.now state.now) }
{
    match subject {
        Subject::Mode => tell_mode(page, state),
        Subject::Draining => {
            page.words(&[b" ", words])?;
            page.texts(&[" might be ", state, " here\n"])
        }
        _ => {
            page.words(&[b" ", words])?;
            page.texts(&[" is ", state, " here\n"])
        }
    }
}

/// Whether a state has this word.
#[tactic(auto, unfolding(crate::specs::MarkWords::is_word))]
fn is_word(state: Option<&str>, word: &str) -> bool
    ensures { result ≡ spec.is_word (option_copied state.entry) word.now }
{
    match state {
        Some(state) => state == word,
        None => false,
    }
}

/// Writes whether a lock is held on one path where that joins another one.
#[tactic(auto, unfolding(crate::specs::MarkWords::joining_told))]
fn tell_joining(
    page: &mut Page,
    subject: &[u8],
    here: Option<&str>,
    there: Option<&str>,
) -> Result<(), AllocError>
    ensures { Writes result page.old page.new
        (spec.joining_told subject.now (option_copied here.entry) (option_copied there.entry)) }
{
    if is_word(here, "taken") && is_word(there, "not taken") {
        page.words(&[b" ", subject])?;
        page.bytes(b" is held on this path\n")
    } else if is_word(here, "not taken") && is_word(there, "taken") {
        page.words(&[b" ", subject])?;
        page.bytes(b" isn't held on this path\n")
    } else {
        page.bytes(b" this path leads on with other locks held\n")
    }
}

/// Writes the state of a subject at a point, if that is known.
fn tell_maybe(
    page: &mut Page,
    subject: Subject,
    words: &[u8],
    state: Option<&str>,
) -> Result<(), AllocError>
    ensures { Writes result page.old page.new (spec.maybe_state subject words.now (option_copied state.entry)) }
{
    match state {
        Some(state) => tell_state(page, subject, words, state),
        None => page.bytes(b"\n"),
    }
}

/// Writes the words of the mark at the finding's point.
#[tactic(auto, unfolding(crate::specs::MarkWords::point_told))]
fn tell_point(
    page: &mut Page,
    finding: &Finding,
    subject: &[u8],
    shown: &FindingTrace,
) -> Result<(), AllocError>
    ensures { Writes result page.old page.new (spec.point_told finding.now subject.now shown.now.answer) }
{
    let (way, other) = shown.ways();
    let state = state_at_end(finding, way);
    match finding.rule {
        Rule::R12 => tell_joining(page, subject, state, state_at_end(finding, other)),
        _ => tell_maybe(page, finding.subject, subject, state),
    }
}

// ---- all marks

/// Writes the words of a mark.
#[tactic(auto, unfolding(crate::specs::MarkWords::mark_told))]
pub(crate) fn tell_mark(
    page: &mut Page,
    scene: &Scene<'_>,
    finding: &Finding,
    subject: &[u8],
    shown: &FindingTrace,
    sign: Sign,
) -> Result<(), AllocError>
    ensures { Writes result page.old page.new (spec.mark_told scene.now.graph.now finding.now subject.now shown.now.answer sign) }
{
    let (way, _) = shown.ways();
    match sign {
        Sign::Origin(fact, step) => tell_origin(page, scene, finding, subject, way, fact, step),
        Sign::Point => tell_point(page, finding, subject, shown),
        Sign::Meeting => page.bytes(b" the paths join here\n"),
    }
}
