//! Whether a callback is ever handed a context.

ghost use Rattle.std.specs.Prelude.{◌≡◌};
ghost use Rattle.flt_explain_outcomes.specs.HandOver as spec;

use flt_explain::{Finding, Subject};
use flt_graph::{
    Call, CallbackGraph, ContextVariable, Graph, Instruction, Invocation, Place, Status,
};
use flt_rules::Rule;
use flt_tree::named_context;

// ---- what hands a context over

/// Whether a call hands a context to the callback of a number, which is at this place.
fn is_handed_by_call(call: &Invocation, number: usize, place: Place) -> bool
    ensures { result ≡ spec.is_handed_by_call call.now number place }
{
    match (call.call, place) {
        (Call::CompletePendedPreOperation(_), Place::Post(_)) => call.context.is_some(),
        (Call::InsertIo, Place::Canceled) => call.context.is_some(),
        (
            Call::QueueDeferredIoWorkItem | Call::QueueGenericWorkItem,
            Place::DeferredPre | Place::DeferredPost | Place::Generic,
        ) => call.context.is_some() && call.routine == Some(number),
        _ => false,
    }
}

/// Whether a returned status hands a context to a callback.
fn is_handed_by_status(from: Place, status: Option<Status>, place: Place) -> bool
    ensures { result ≡ spec.is_handed_by_status from status place }
{
    match (from, place) {
        (Place::Pre(own), Place::Post(operation)) => {
            own.is_same(operation) && named_context(status).is_some()
        }
        _ => false,
    }
}

/// Whether an instruction of a callback hands a context to the callback of a number.
fn is_handed_by(from: Place, instruction: &Instruction, number: usize, place: Place) -> bool
    ensures { result ≡ spec.is_handed_by from instruction.now number place }
{
    match instruction {
        Instruction::Call(call, _, _) => is_handed_by_call(&call.roles(), number, place),
        Instruction::Return(status) => is_handed_by_status(from, *status, place),
        _ => false,
    }
}

/// Whether a callback hands a context to the callback of a number.
fn is_handed_in(from: &CallbackGraph, number: usize, place: Place) -> bool
    ensures { result ≡ spec.is_handed_in from.now number place }
{
    from.points.as_slice().iter().any(|p| is_handed_by(from.place, &p.instruction, number, place))
}

/// Whether some callback hands a context to the callback of a number.
fn is_handed(graph: &Graph, number: usize) -> bool
    ensures { result ≡ spec.is_handed graph.now number }
{
    let place = graph.place(number);
    graph
        .callbacks
        .as_slice()
        .iter()
        .any(|from| is_handed_in(from, number, place))
}

// ---- what else gives `arg` a context

pub(crate) fn is_argument(variable: ContextVariable) -> bool
    ensures { result ≡ spec.is_argument variable }
{
    matches!(variable, ContextVariable::Arg)
}

/// Whether a call writes `arg`.
fn is_written_by(instruction: &Instruction) -> bool
    ensures { result ≡ spec.is_written_by instruction.now }
{
    match instruction {
        Instruction::Call(call, _, _) => match call.roles().output {
            Some(output) => is_argument(output),
            None => false,
        },
        _ => false,
    }
}

/// Whether a callback writes its `arg`.
fn is_written_in(own: &CallbackGraph) -> bool
    ensures { result ≡ spec.is_written_in own.now }
{
    own.points
        .as_slice()
        .iter()
        .any(|p| is_written_by(&p.instruction))
}

/// Whether the callback of a number writes its `arg`.
fn is_written(graph: &Graph, number: usize) -> bool
    ensures { result ≡ spec.is_written graph.now number }
{
    match graph.callbacks.get(number) {
        Some(own) => is_written_in(own),
        None => false,
    }
}

// ---- findings

/// Whether a finding says that `arg` is held where it mustn't be.
fn is_about_held_argument(finding: &Finding) -> bool
    ensures { result ≡ spec.is_about_held_argument finding.now }
{
    match (finding.rule, finding.subject) {
        (Rule::R02 | Rule::R03, Subject::Context(variable)) => is_argument(variable),
        _ => false,
    }
}

/// Whether a finding says that `arg` is held where it mustn't be, and nothing ever gives it a context.
pub(crate) fn is_without_hand_over(graph: &Graph, finding: &Finding) -> bool
    ensures { result ≡ spec.is_without_hand_over graph.now finding.now }
{
    is_about_held_argument(finding)
        && !is_handed(graph, finding.callback)
        && !is_written(graph, finding.callback)
}
