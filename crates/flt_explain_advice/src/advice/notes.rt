//! Notes on findings: that the rule is this project's own there, and stricter than the driver kit; or that numbers, which the rules don't
//! trace, rule out the path.

ghost use Rattle.std.specs.List.{find};
ghost use Rattle.std.specs.Prelude.{◌≡◌, option_copied};
ghost use Rattle.flt_explain_advice.specs.Advice.Notes as spec;
ghost use Rattle.flt_explain_advice.specs.Case.{of_case};
ghost use Rattle.flt_explain_texts.specs.Page.{Writes};

use crate::advice::locks::{Release, release_of};
use crate::advice::statuses::is_pre_of;
use crate::case::Case;
use flt_explain::Subject;
use flt_explain_origins::Step;
use flt_explain_texts::{Page, Part};
use flt_graph::{
    Action, CallbackGraph, Graph, Instruction, LockKind, Operation, Place, Status, Test,
};
use flt_rules::{Level, Rule, entry_level};
use flt_tree::{Atom, Expression};
use std::alloc::AllocError;

// ---- where the rule is stricter

fn is_synchronize(status: Option<Status>) -> bool
    ensures { result ≡ spec.is_synchronize status }
{
    matches!(status, Some(Status::Synchronize(_)))
}

/// Whether an instruction returns SYNCHRONIZE.
fn synchronizes(instruction: &Instruction) -> bool
    ensures { result ≡ spec.synchronizes instruction.now }
{
    match instruction {
        Instruction::Return(status) => is_synchronize(*status),
        _ => false,
    }
}

/// Whether some point of a callback returns SYNCHRONIZE.
#[tactic(auto, unfolding(crate::specs::Advice::Notes::returns_synchronize))]
fn returns_synchronize(callback: &CallbackGraph) -> bool
    ensures { result ≡ spec.returns_synchronize callback.now }
{
    let points = callback.points.as_slice();
    points.iter().any(|p| synchronizes(&p.instruction))
}

/// Whether a callback is the `pre` callback of an operation and returns SYNCHRONIZE.
fn synchronizes_in(operation: Operation, callback: &CallbackGraph) -> bool
    ensures { result ≡ spec.synchronizes_in operation callback.now }
{
    is_pre_of(operation, callback.place) && returns_synchronize(callback)
}

/// Whether the `pre` callback of an operation returns SYNCHRONIZE.
#[tactic(auto, unfolding(crate::specs::Advice::Notes::is_synchronized))]
fn is_synchronized(graph: &Graph, operation: Operation) -> bool
    ensures { result ≡ spec.is_synchronized graph.now operation }
{
    let callbacks = graph.callbacks.as_slice();
    callbacks.iter().any(|c| synchronizes_in(operation, c))
}

/// Whether a `post` callback runs above APC_LEVEL, but not after SYNCHRONIZE.
fn runs_lower(graph: &Graph, place: Place) -> bool
    ensures { result ≡ spec.runs_lower graph.now place }
{
    match place {
        Place::Post(operation) => {
            entry_level(Place::Post(operation)).is_above(Level::Apc)
                && is_synchronized(graph, operation)
        }
        _ => false,
    }
}

fn is_spin(kind: Option<LockKind>) -> bool
    ensures { result ≡ spec.is_spin kind }
{
    matches!(kind, Some(LockKind::Spin))
}

/// Whether locks are released in another order, none of which is a spin lock.
fn is_other_order(case: &Case<'_>, subject: Subject, release: Release) -> bool
    ensures { result ≡ spec.is_other_order (of_case case.now) subject release }
{
    match (subject, release) {
        (Subject::Lock(lock), Release::Under(later)) => {
            !is_spin(case.lock_kind(lock)) && !is_spin(case.lock_kind(later))
        }
        _ => false,
    }
}

fn level_note(runs_lower: bool) -> Option<&'static str>
    ensures { option_copied result ≡ spec.level_note runs_lower }
{
    if runs_lower {
        Some(
            "stricter than the driver kit: there a `post` callback after `SYNCHRONIZE` runs at APC_LEVEL or below",
        )
    } else {
        None
    }
}

fn order_note(is_other_order: bool) -> Option<&'static str>
    ensures { option_copied result ≡ spec.order_note is_other_order }
{
    if is_other_order {
        Some(
            "stricter than the driver kit: only spin locks must be released in reverse order there",
        )
    } else {
        None
    }
}

/// The note that the rule is stricter than the driver kit; none if it isn't.
#[tactic(auto, unfolding(crate::specs::Advice::Notes::stricter))]
fn stricter(case: &Case<'_>) -> Option<&'static str>
    ensures { option_copied result ≡ spec.stricter (of_case case.now) }
{
    match case.finding.rule {
        Rule::R07 => level_note(runs_lower(case.scene.graph, case.place())),
        Rule::R09 => order_note(is_other_order(case, case.finding.subject, release_of(case))),
        _ => None,
    }
}

// ---- numbers that no statement stores

/// Whether an atom is this number. A variable has a value that was stored before, or 0, so it doesn't count.
fn is_value(atom: Atom, value: u64) -> bool
    ensures { result ≡ spec.is_value atom value }
{
    match atom {
        Atom::Number(number) => number == value,
        _ => false,
    }
}

/// Whether an expression might have a value; a sum or a difference might have any.
fn may_be(expression: Expression, value: u64) -> bool
    ensures { result ≡ spec.may_be expression value }
{
    match expression {
        Expression::Atom(atom) => is_value(atom, value),
        _ => true,
    }
}

/// Whether an action might store a value.
fn may_store(action: Action, value: u64) -> bool
    ensures { result ≡ spec.may_store action value }
{
    match action {
        Action::SetNumber(_, expression) => may_be(expression, value),
        Action::ReadFile(_, _) => true,
        Action::WriteValue(_, atom) => is_value(atom, value),
        _ => false,
    }
}

fn stores(instruction: &Instruction, value: u64) -> bool
    ensures { result ≡ spec.stores instruction.now value }
{
    match instruction {
        Instruction::Act(action, _) => may_store(*action, value),
        _ => false,
    }
}

/// Whether some statement of a callback might store a value.
#[tactic(auto, unfolding(crate::specs::Advice::Notes::is_stored_in))]
fn is_stored_in(value: u64, callback: &CallbackGraph) -> bool
    ensures { result ≡ spec.is_stored_in value callback.now }
{
    let points = callback.points.as_slice();
    points.iter().any(|p| stores(&p.instruction, value))
}

/// Whether some statement of the text might store a value.
#[tactic(auto, unfolding(crate::specs::Advice::Notes::is_stored))]
fn is_stored(graph: &Graph, value: u64) -> bool
    ensures { result ≡ spec.is_stored graph.now value }
{
    let callbacks = graph.callbacks.as_slice();
    callbacks.iter().any(|c| is_stored_in(value, c))
}

/// The number for which an instruction tests.
fn asked(instruction: &Instruction) -> Option<u64>
    ensures { result ≡ spec.asked instruction.now }
{
    match instruction {
        Instruction::Test(Test::Equal(_, Atom::Number(value)), _, _) => Some(*value),
        _ => None,
    }
}

/// A number that no variable might have.
fn missing_in(graph: &Graph, value: u64) -> Option<u64>
    ensures { result ≡ spec.missing_in graph.now value }
{
    if value == 0 || is_stored(graph, value) {
        None
    } else {
        Some(value)
    }
}

/// The value for which a step tests and which it finds, if no statement stores it.
#[tactic(auto, unfolding(crate::specs::Advice::Notes::unstored))]
fn unstored(case: &Case<'_>, step: Step) -> Option<u64>
    ensures { result ≡ spec.unstored (of_case case.now) step }
{
    if !step.granted {
        return None;
    }
    match asked(&case.step_instruction(step)) {
        Some(value) => missing_in(case.scene.graph, value),
        None => None,
    }
}

fn is_unstored(case: &Case<'_>, step: Step) -> bool
    ensures { result ≡ spec.is_unstored (of_case case.now) step }
{
    unstored(case, step).is_some()
}

fn first_among(case: &Case<'_>, steps: &[Step]) -> Option<Step>
    ensures { result ≡ find (spec.is_unstored (of_case case.now)) steps.now }
{
    for step in steps {
        if is_unstored(case, *step) {
            return Some(*step);
        }
    }
    None
}

/// The first step of the path that tests for a value that no statement stores, and finds it.
#[tactic(auto, unfolding(crate::specs::Advice::Notes::first_unstored))]
fn first_unstored(case: &Case<'_>) -> Option<Step>
    ensures { result ≡ spec.first_unstored (of_case case.now) }
{
    match case.path() {
        Some(path) => first_among(case, path.steps.as_slice()),
        None => None,
    }
}

/// Writes that no statement stores a value for which a line tests.
fn tell_unstored(
    page: &mut Page,
    case: &Case<'_>,
    value: u64,
    line: usize,
) -> Result<(), AllocError>
    ensures { Writes result page.old page.new (spec.unstored_note (of_case case.now) value line) }
{
    page.say(&[
        Part::Text("no statement stores "),
        Part::Value(value),
        Part::Text(", which line "),
        case.line(line),
        Part::Text(
            " asks for; the rules don't trace numbers, and `n0 = file data` stands for an unknown one",
        ),
    ])
}

/// Writes that a step tests for a value that no statement stores; nothing without such a step.
fn tell_numbers(page: &mut Page, case: &Case<'_>, step: Option<Step>) -> Result<(), AllocError>
    ensures { Writes result page.old page.new (spec.step_note (of_case case.now) step) }
{
    let Some(step) = step else {
        return Ok(());
    };
    match unstored(case, step) {
        Some(value) => tell_unstored(page, case, value, case.step_line(step)),
        None => Ok(()),
    }
}

/// Writes the note on a finding; nothing if there is none.
#[tactic(auto, unfolding(crate::specs::Advice::Notes::note))]
pub(crate) fn tell_note(page: &mut Page, case: &Case<'_>) -> Result<(), AllocError>
    ensures { Writes result page.old page.new (spec.note (of_case case.now)) }
{
    match stricter(case) {
        Some(words) => page.texts(&[words]),
        None => tell_numbers(page, case, first_unstored(case)),
    }
}
