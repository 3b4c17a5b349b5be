//! The seats that a stack gives, each with one part of its ledger and one of that of refusals, and the exchange where they meet.
ghost use Rattle.std.specs.Prelude.{◌≡◌, ◌≤◌, ◌+◌, [], All, IfOk, OnOk, length, map};
ghost use Rattle.flt_stack_threads.specs.Places.{IsCallerOf, IsFreshCaller, IsFreshWorker, IsWorkerOf};

use crate::pace::Pace;
use crate::requests::Requests;
use crate::round::Round;
use crate::seats::{CallerSeat, WorkerSeat};
use crate::waiting::Waiting;
use crate::{CallerPlace, Exchange, OutOfMemory, WorkerPlace};
use flt_stack_core::{CallerEntries, Fulls, OtherEntries, Receipts, StackName};
use std::alloc::Global;
use std::sync::ledger::Share;

/// A seat at each of these places, in their order, with no receipt.
fn caller_seats<N: StackName>(
    alloc: Global,
    places: Vec<CallerPlace>,
    all: &mut Share<CallerEntries<N>>,
    fulls: &mut Share<Fulls<N>>,
) -> Result<Vec<CallerSeat<N>>, OutOfMemory>
    requires all { (all.old.parts ≡ length places.items) × (all.old.amount ≡ 0) }
    requires fulls { (length places.items ≤ fulls.old.parts) × (fulls.old.amount ≡ 0) }
    ensures places { IfOk result (λ seats. map (λ seat. seat.place) seats.items ≡ places.items) }
    ensures receipts { IfOk result (λ seats. All (λ seat. seat.receipts.list.items ≡ []) seats.items) }
    ensures shares { IfOk result (λ seats.
        All (λ seat. (seat.receipts.share.parts ≡ 1) × (seat.receipts.share.amount ≡ 0)) seats.items) }
    ensures fulls { IfOk result (λ seats. All (λ seat. (seat.fulls.parts ≡ 1) × (seat.fulls.amount ≡ 0)) seats.items) }
    ensures left { OnOk result ((all.new.parts ≡ 0) × (all.new.amount ≡ 0)) }
    ensures fulls_left { OnOk result ((fulls.new.parts + length places.items ≡ fulls.old.parts) × (fulls.new.amount ≡ 0)) }
{
    let mut seats = Vec::with_capacity(alloc, places.len())?;
    'seats: for place in places {
        let receipts = Receipts::new(alloc, all.split_off(1, 0));
        let fulls = fulls.split_off(1, 0);
        seats.push(CallerSeat {
            place,
            receipts,
            fulls,
        })?;
    }
    Ok(seats)
}

/// A seat at each of these places, in their order, numbered from 0.
fn worker_seats<N: StackName>(
    alloc: Global,
    places: Vec<WorkerPlace>,
    all: &mut Share<OtherEntries<N>>,
    fulls: &mut Share<Fulls<N>>,
) -> Result<Vec<WorkerSeat<N>>, OutOfMemory>
    requires all { (all.old.parts ≡ length places.items) × (all.old.amount ≡ 0) }
    requires fulls { (length places.items ≤ fulls.old.parts) × (fulls.old.amount ≡ 0) }
    ensures places { IfOk result (λ seats. map (λ seat. seat.place) seats.items ≡ places.items) }
    ensures shares { IfOk result (λ seats. All (λ seat. (seat.share.parts ≡ 1) × (seat.share.amount ≡ 0)) seats.items) }
    ensures fulls { IfOk result (λ seats. All (λ seat. (seat.fulls.parts ≡ 1) × (seat.fulls.amount ≡ 0)) seats.items) }
    ensures left { OnOk result ((all.new.parts ≡ 0) × (all.new.amount ≡ 0)) }
    ensures fulls_left { OnOk result ((fulls.new.parts + length places.items ≡ fulls.old.parts) × (fulls.new.amount ≡ 0)) }
{
    let mut seats = Vec::with_capacity(alloc, places.len())?;
    let alone = places.len() == 1;
    'seats: for place in places {
        let pace = Pace::new(seats.len());
        let share = all.split_off(1, 0);
        let fulls = fulls.split_off(1, 0);
        seats.push(WorkerSeat {
            place,
            share,
            fulls,
            pace,
            round: Round::new(alone),
            waiting: Waiting::new(alloc),
            requests: Requests::none(),
        })?;
    }
    Ok(seats)
}

/// An exchange with a seat for each caller and one for each worker.
pub(crate) fn seats<N: StackName>(
    alloc: Global,
    callers: usize,
    workers: usize,
    callers_share: &mut Share<CallerEntries<N>>,
    others_share: &mut Share<OtherEntries<N>>,
    fulls: &mut Share<Fulls<N>>,
) -> Result<(Exchange, Vec<CallerSeat<N>>, Vec<WorkerSeat<N>>), OutOfMemory>
    requires callers { (1 ≤ callers) × (callers ≤ 16) }
    requires workers { (1 ≤ workers) × (workers ≤ 16) }
    requires callers_parts { (callers_share.old.parts ≡ callers) × (callers_share.old.amount ≡ 0) }
    requires others_parts { (others_share.old.parts ≡ workers) × (others_share.old.amount ≡ 0) }
    requires fulls_parts { (fulls.old.parts ≡ callers + workers) × (fulls.old.amount ≡ 0) }
    ensures counts { IfOk result (λ made. (length made.1.items ≡ callers) × (length made.2.items ≡ workers)) }
    ensures callers { IfOk result (λ made. All (λ seat. IsCallerOf made.0 seat.place × IsFreshCaller seat.place) made.1.items) }
    ensures receipts { IfOk result (λ made. All (λ seat. seat.receipts.list.items ≡ []) made.1.items) }
    ensures callers_shares { IfOk result (λ made. All (λ seat. (seat.receipts.share.parts ≡ 1) × (seat.receipts.share.amount ≡ 0))
        made.1.items) }
    ensures workers { IfOk result (λ made. All (λ seat. IsWorkerOf made.0 seat.place × IsFreshWorker seat.place) made.2.items) }
    ensures others_shares { IfOk result (λ made. All (λ seat. (seat.share.parts ≡ 1) × (seat.share.amount ≡ 0)) made.2.items) }
    ensures callers_fulls { IfOk result (λ made. All (λ seat. (seat.fulls.parts ≡ 1) × (seat.fulls.amount ≡ 0)) made.1.items) }
    ensures workers_fulls { IfOk result (λ made. All (λ seat. (seat.fulls.parts ≡ 1) × (seat.fulls.amount ≡ 0)) made.2.items) }
    ensures callers_left { OnOk result ((callers_share.new.parts ≡ 0) × (callers_share.new.amount ≡ 0)) }
    ensures others_left { OnOk result ((others_share.new.parts ≡ 0) × (others_share.new.amount ≡ 0)) }
    ensures fulls_left { OnOk result ((fulls.new.parts ≡ 0) × (fulls.new.amount ≡ 0)) }
{
    let (exchange, caller_places, worker_places) = Exchange::open(alloc, callers, workers)?;
    let caller_seats = caller_seats(alloc, caller_places, callers_share, fulls)?;
    let worker_seats = worker_seats(alloc, worker_places, others_share, fulls)?;
    Ok((exchange, caller_seats, worker_seats))
}
