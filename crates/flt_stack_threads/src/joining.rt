//! The places that an exchange gives.
ghost use Rattle.std.specs.Prelude.{◌≡◌, ◌+◌, ◌≤◌, All, IfOk, OnOk, length, map};
ghost use Rattle.flt_stack_threads.specs.Places.{IsFreshSeat, caller_tickets, worker_tickets};

use crate::OutOfMemory;
use crate::places::{CallerPlace, WorkerPlace};
use flt_cancel::{Pads, Seat};
use flt_pool::{PutSeat, TakeSeat};
use std::alloc::Global;

/// A place for each of these rights to put tickets, in their order, with one of the seats each. Seats are left over.
pub(crate) fn caller_places(
    alloc: Global,
    pads: &Pads,
    tickets: Vec<PutSeat>,
    seats: &mut Vec<Seat>,
) -> Result<Vec<CallerPlace>, OutOfMemory>
    requires enough { length tickets.items ≤ length seats.old.items }
    requires fresh { All (IsFreshSeat pads.now) seats.old.items }
    ensures tickets { IfOk result (λ places. map caller_tickets places.items ≡ tickets.items) }
    ensures fresh { IfOk result (λ places. All (λ place. IsFreshSeat pads.now place.requests) places.items) }
    ensures left { OnOk result (length seats.new.items + length tickets.items ≡ length seats.old.items) }
    ensures rest { OnOk result (All (IsFreshSeat pads.now) seats.new.items) }
{
    let mut places = Vec::with_capacity(alloc, tickets.len())?;
    'places: for tickets in tickets {
        let Some(requests) = seats.pop() else {
            unreachable!()
        };
        places.push(CallerPlace { tickets, requests })?;
    }
    Ok(places)
}

/// A place for each of these rights to take tickets, in their order, with one of the seats each. Seats are left over.
pub(crate) fn worker_places(
    alloc: Global,
    pads: &Pads,
    tickets: Vec<TakeSeat>,
    seats: &mut Vec<Seat>,
) -> Result<Vec<WorkerPlace>, OutOfMemory>
    requires enough { length tickets.items ≤ length seats.old.items }
    requires fresh { All (IsFreshSeat pads.now) seats.old.items }
    ensures tickets { IfOk result (λ places. map worker_tickets places.items ≡ tickets.items) }
    ensures fresh { IfOk result (λ places. All (λ place. IsFreshSeat pads.now place.requests) places.items) }
{
    let mut places = Vec::with_capacity(alloc, tickets.len())?;
    'places: for tickets in tickets {
        let Some(requests) = seats.pop() else {
            unreachable!()
        };
        places.push(WorkerPlace { tickets, requests })?;
    }
    Ok(places)
}
