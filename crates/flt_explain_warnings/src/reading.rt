//! Questions about a graph: the points of a callback, calls that take an operation out of the queue, and work routines.

ghost use Rattle.std.specs.Prelude.{◌≡◌};
ghost use Rattle.std.specs.List.{list_any};
ghost use Rattle.flt_graph.specs.Graph.{callback_at};
ghost use Rattle.flt_explain_warnings.specs.Reading as spec;

use crate::warning::Site;
use flt_cert::FullCert;
use flt_graph::{Call, CallbackGraph, Graph, Instruction, Place, Point};

/// The points of a callback; none if it isn't there.
#[tactic(auto, using(crate::proofs::Places::found, crate::proofs::Places::missing))]
pub(crate) fn points(graph: &Graph, callback: usize) -> &[Point]
    ensures { result.now ≡ (callback_at graph.now callback).points }
{
    match graph.callbacks.get(callback) {
        Some(found) => found.points.as_slice(),
        None => &[],
    }
}

/// Whether a point is reached, by a certificate.
pub(crate) fn is_reached(cert: &FullCert, site: Site) -> bool
    ensures { result ≡ spec.is_reached cert.now site }
{
    cert.state(site.callback, site.point).is_some()
}

/// Whether a callback is the routine of a work item.
pub(crate) fn is_routine(place: Place) -> bool
    ensures { result ≡ spec.is_routine place }
{
    matches!(
        place,
        Place::DeferredPre | Place::DeferredPost | Place::Generic
    )
}

/// Whether an instruction takes an operation out of the queue.
fn removes(instruction: &Instruction) -> bool
    ensures { result ≡ spec.removes instruction.now }
{
    match instruction {
        Instruction::Call(call, _, _) => matches!(call.roles().call, Call::RemoveNextIo),
        _ => false,
    }
}

fn removes_among(points: &[Point]) -> bool
    ensures { result ≡ list_any spec.removes_at points.now }
{
    points.iter().any(|point| removes(&point.instruction))
}

/// Whether a callback of a number takes operations out of the queue.
pub(crate) fn removes_in(graph: &Graph, callback: usize) -> bool
    ensures { result ≡ spec.removes_in (callback_at graph.now callback) }
{
    removes_among(points(graph, callback))
}

fn callback_removes(callback: &CallbackGraph) -> bool
    ensures { result ≡ spec.removes_in callback.now }
{
    removes_among(callback.points.as_slice())
}

/// Whether some callback takes operations out of the queue.
pub(crate) fn removes_somewhere(graph: &Graph) -> bool
    ensures { result ≡ spec.removes_somewhere graph.now }
{
    graph
        .callbacks
        .as_slice()
        .iter()
        .any(|callback| callback_removes(callback))
}

fn removes_unasked(callback: &CallbackGraph) -> bool
    ensures { result ≡ spec.removes_unasked callback.now }
{
    !is_routine(callback.place) && callback_removes(callback)
}

/// Whether a callback that isn't the routine of a work item takes operations out of the queue.
pub(crate) fn removes_outside(graph: &Graph) -> bool
    ensures { result ≡ spec.removes_outside graph.now }
{
    graph
        .callbacks
        .as_slice()
        .iter()
        .any(|callback| removes_unasked(callback))
}
