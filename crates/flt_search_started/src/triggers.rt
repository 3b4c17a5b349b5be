//! The triggers of a callback.

ghost use Rattle.std.specs.Prelude.{◌≡◌};
ghost use Rattle.flt_search_started.specs.Triggers as spec;

use flt_graph::{Call, CallbackGraph, Graph, Instruction, Invocation, Place, Status};

/// Whether the system itself starts a callback at this place.
pub fn is_started_alone(place: Place) -> bool
    ensures { result ≡ spec.is_started_alone place }
{
    matches!(place, Place::Pre(_))
}

/// Whether a status makes the system call the post callback.
fn is_calling_back(status: Option<Status>) -> bool
    ensures { result ≡ spec.is_calling_back status }
{
    match status {
        Some(Status::WithCallback(_)) | Some(Status::Synchronize(_)) => true,
        _ => false,
    }
}

/// Whether a call starts the callback of a number, which is at this place.
fn is_started_to(call: &Invocation, number: usize, place: Place) -> bool
    ensures { result ≡ spec.is_started_to call.now.call call.now number place }
{
    match (call.call, place) {
        (Call::CompletePendedPreOperation(_), Place::Post(_)) => is_calling_back(call.status),
        (Call::InsertIo, Place::Canceled) => true,
        (
            Call::QueueDeferredIoWorkItem | Call::QueueGenericWorkItem,
            Place::DeferredPre | Place::DeferredPost | Place::Generic,
        ) => call.routine == Some(number),
        _ => false,
    }
}

/// Whether the status of a callback starts a callback at another place.
fn is_started_by_status(from: Place, status: Option<Status>, place: Place) -> bool
    ensures { result ≡ spec.is_started_by_status from status place }
{
    match (from, place) {
        (Place::Pre(own), Place::Post(operation)) => {
            own.is_same(operation) && is_calling_back(status)
        }
        _ => false,
    }
}

/// Whether the instruction at a point of a callback starts the callback of a number, which is at this place.
pub fn is_started_by(from: Place, instruction: &Instruction, number: usize, place: Place) -> bool
    ensures { result ≡ spec.is_started_by from instruction.now number place }
{
    match instruction {
        Instruction::Call(call, _, _) => is_started_to(&call.roles(), number, place),
        Instruction::Return(status) => is_started_by_status(from, *status, place),
        _ => false,
    }
}

/// Whether some point of a callback starts the callback of a number.
fn is_started_in(graph: &Graph, number: usize, own: &CallbackGraph) -> bool
    ensures { result ≡ spec.is_started_in graph.now number own.now }
{
    own.points.as_slice().iter().any(|point| is_started_by(
        own.place,
        &point.instruction,
        number,
        graph.place(number),
    ))
}

/// Whether some callback starts the callback of a number.
fn is_started_within(graph: &Graph, number: usize) -> bool
    ensures { result ≡ spec.is_started_within graph.now number }
{
    graph
        .callbacks
        .as_slice()
        .iter()
        .any(|own| is_started_in(graph, number, own))
}

/// Whether the system or some callback starts the callback of a number, from 0. A point that no path reaches counts, too.
pub fn is_started(graph: &Graph, number: usize) -> bool
    ensures { result ≡ spec.is_started graph.now number }
{
    is_started_alone(graph.place(number)) || is_started_within(graph, number)
}
