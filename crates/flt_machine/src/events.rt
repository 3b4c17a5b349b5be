//! The effect of a move or a step: its events, and the subjects that get a ticket.

ghost use Rattle.std.specs.Prelude.{◌≡◌, ◌≢◌, ◌++◌, IfOk, OnOk, OnErr};
ghost use Rattle.flt_machine_dispatch.specs.Decisions as spec;

use counted_heap::Heap;
use flt_machine_dispatch::Decision;
use flt_model::{Event, Object, Subject};
use sqlite_items::Items;
use std::alloc::AllocError;

/// The effect of a move or a step: its events, and the subjects that get a ticket.
#[derive(Drop)]
pub struct Events {
    /// In the order in which it happened.
    pub list: Items<Event>,
    /// The subjects that get a ticket by it, since the next move may be about them: operations, activations, work items, entries and a
    /// teardown, each by rising number; entries from the lowest altitude to the highest.
    pub next: Vec<Subject>,
}

/// The events of a move, given the number of the activation that it may start.
pub(crate) fn events_of(
    heap: &mut Heap,
    activation: usize,
    decision: &Decision,
) -> Result<Items<Event>, AllocError>
    ensures told { IfOk result (λ events. events ≡ spec.gains_by activation decision.now.start ++ spec.frees_by decision.now.freed) }
    ensures granted { OnOk result (heap.new ≡ heap.old) }
    ensures memory { OnErr result (heap.new ≢ heap.old) }
{
    let mut events = Items::new(heap.alloc());
    if let Some(start) = decision.start {
        if let Some(visit) = start.given {
            heap.push_item(&mut events, Event::Gain(activation, Object::Visit(visit)))?;
        }
        if let Some(context) = start.arg {
            heap.push_item(
                &mut events,
                Event::Gain(activation, Object::Context(context)),
            )?;
        }
    }
    if let Some(context) = decision.freed {
        heap.push_item(&mut events, Event::Free(context))?;
    }
    Ok(events)
}
