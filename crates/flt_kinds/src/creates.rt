//! Opens that a filter completes itself.

ghost use Rattle.flt_graph.specs.Graph.{points_at};
ghost use Rattle.flt_kinds.specs.Creates as spec;
ghost use Rattle.std.specs.Prelude.{◌≡◌, length};

use crate::slot::Spot;
use flt_graph::{Graph, Instruction, Operation, Place, Status};
use flt_rules::FinalStatus;

fn is_create(place: Place) -> bool
    ensures { result ≡ spec.is_create place }
{
    matches!(place, Place::Pre(Operation::Create))
}

fn is_success(instruction: &Instruction) -> bool
    ensures { result ≡ spec.is_success instruction.now }
{
    matches!(
        instruction,
        Instruction::Return(Some(Status::Complete(FinalStatus::Success)))
    )
}

#[tactic(auto, unfolding(crate::specs::Creates::completes_at))]
fn completes_at(graph: &Graph, callback: usize, point: usize) -> bool
    ensures { result ≡ spec.completes_at graph.now callback point }
{
    is_create(graph.place(callback)) && is_success(graph.instruction_ref(callback, point))
}

fn this_one(is: bool, callback: usize, point: usize) -> Option<Spot>
    ensures { result ≡ spec.this_one is callback point }
{
    if is {
        Some(Spot { callback, point })
    } else {
        None
    }
}

fn first_spot(first: Option<Spot>, other: Option<Spot>) -> Option<Spot>
    ensures { result ≡ spec.first_spot first other }
{
    match first {
        Some(found) => Some(found),
        None => other,
    }
}

fn completed_below(graph: &Graph, callback: usize) -> Option<Spot>
    ensures { result ≡ spec.completed_below graph.now callback (points_at graph.now callback) }
{
    let mut found = None;
    for point in 0..graph.points(callback) {
        let here = this_one(completes_at(graph, callback, point), callback, point);
        found = first_spot(found, here);
    }
    found
}

fn completed_in(graph: &Graph) -> Option<Spot>
    ensures { result ≡ spec.completed_in graph.now (length graph.now.callbacks) }
{
    let mut found = None;
    for callback in 0..graph.callbacks() {
        found = first_spot(found, completed_below(graph, callback));
    }
    found
}

/// The first statement at which a `pre create` returns COMPLETE STATUS_SUCCESS, if there is one.
pub fn completed_create(graph: &Graph) -> Option<Spot>
    ensures { spec.AreFound graph.now result }
{
    completed_in(graph)
}
