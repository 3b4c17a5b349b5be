//! The exchange: opening it, and the calls of callers and workers on it.
ghost use Rattle.std.specs.Prelude.{◌≡◌, ◌<◌, ◌≤◌, ◌++◌, ◌∷◌, [], ℕ, All, IfErr, IfNone, IfOk, IfSome, OnOk, length, map};
ghost use Rattle.flt_cancel.specs.Serials.{group_of, serials, IsPresent};
ghost use Rattle.flt_cancel.specs.Steps.{words_after, IsNext, WasAsked};
ghost use Rattle.flt_cancel.specs.declared.step.Step.TheVariants.{Ask, Collect};
ghost use Rattle.flt_pool.specs.Hands.{having_put};
ghost use Rattle.flt_pool.specs.Seats.{IsTakenOf};
ghost use Rattle.flt_stack_threads.specs.Places.{asked_by, collected_by, hands_by, marked_by, marks_by, other_deques, own_deque};
ghost use Rattle.flt_stack_threads.specs.Places.{put_by, IsCallerOf, IsFreshCaller, IsFreshWorker, IsWorkerOf, LeadsToOthers};
ghost use Rattle.flt_rules.specs.Limits.{max_operations};

use crate::joining::{caller_places, worker_places};
use crate::places::{CallerPlace, WorkerPlace};
use crate::{OutOfMemory, Ticket};
use flt_cancel::Pads;
use flt_pool::Pool;
use std::alloc::Global;
use std::sync::Wait;

/// Where callers and workers meet: tickets that wait for a worker, and requests to cancel operations.
#[derive(Drop)]
pub struct Exchange {
    pub(crate) pool: Pool,
    pub(crate) pads: Pads,
}

impl Exchange {
    /// An exchange with no ticket and no request, a place for each caller and one for each worker, through which nothing has gone. Each
    /// worker has a path to each other worker's deque.
    pub fn open(
        alloc: Global,
        callers: usize,
        workers: usize,
    ) -> Result<(Exchange, Vec<CallerPlace>, Vec<WorkerPlace>), OutOfMemory>
        requires callers { (1 ≤ callers) × (callers ≤ 16) }
        requires workers { (1 ≤ workers) × (workers ≤ 16) }
        ensures counts { IfOk result (λ opened. (length opened.1.items ≡ callers) × (length opened.2.items ≡ workers)) }
        ensures callers { IfOk result (λ opened. All (λ place. IsCallerOf opened.0 place × IsFreshCaller place) opened.1.items) }
        ensures workers { IfOk result (λ opened. All (λ place. IsWorkerOf opened.0 place × IsFreshWorker place) opened.2.items) }
        ensures ways { IfOk result (λ opened. All (LeadsToOthers (map own_deque opened.2.items)) opened.2.items) }
    {
        let (pool, put_seats, take_seats) = Pool::open(alloc, callers, workers)?;
        let (pads, mut seats) = Pads::open(alloc, callers + workers)?;
        let callers = caller_places(alloc, &pads, put_seats, &mut seats)?;
        let workers = worker_places(alloc, &pads, take_seats, &mut seats)?;
        Ok((Exchange { pool, pads }, callers, workers))
    }

    // ---- what callers do

    /// Puts a ticket where any worker finds it. It comes back if memory is refused, or after nearly 2^62 tickets.
    pub fn put<R: Wait>(
        &self,
        rt: &R,
        place: &mut CallerPlace,
        ticket: Ticket,
    ) -> Result<(), Ticket>
        requires { IsCallerOf self.now place.old }
        ensures place { IsCallerOf self.now place.new }
        ensures put { OnOk result (put_by place.new ≡ having_put ticket (put_by place.old)) }
        ensures back { IfErr result (λ t. t ≡ ticket) }
        ensures same { IfErr result (λ _. put_by place.new ≡ put_by place.old) }
        ensures requests { place.new.requests ≡ place.old.requests }
    {
        self.pool.put(rt, &mut place.tickets, ticket)
    }

    /// Requests that an operation be cancelled, by its serial number, and then sets the mark of the number's group. It waits for nobody,
    /// takes no memory and is never refused.
    pub fn ask(&self, place: &mut CallerPlace, serial: u32)
        requires serial { serial < max_operations }
        requires place { IsCallerOf self.now place.old }
        ensures place { IsCallerOf self.now place.new }
        ensures asked { (asked_by place.new).asked ≡ (asked_by place.old).asked ++ serial ∷ [] }
        ensures collected { (asked_by place.new).collected ≡ (asked_by place.old).collected }
        ensures step { (by : ℕ) × IsNext by (Ask by serial) (asked_by place.old).seen (asked_by place.new).seen }
        ensures present { IsPresent (words_after (asked_by place.new).seen) serial }
        ensures marked { (marked_by place.new).asked ≡ (marked_by place.old).asked ++ group_of serial ∷ [] }
        ensures unmarked { (marked_by place.new).collected ≡ (marked_by place.old).collected }
        ensures mark_step { (by : ℕ) × IsNext by (Ask by (group_of serial)) (marked_by place.old).seen (marked_by place.new).seen }
        ensures mark_present { IsPresent (words_after (marked_by place.new).seen) (group_of serial) }
        ensures tickets { place.new.tickets ≡ place.old.tickets }
    {
        self.pads.ask(&mut place.requests, serial)
    }

    // ---- what workers do

    /// Takes a ticket. It looks at the worker's own deque, then at the callers' tickets, and then at the others' deques in the order of the
    /// workers, and takes the front ticket of the first one in which it finds any. As with `Pool::take`, no contract says in which order it
    /// looks, nor that all of them were empty, each at its moment, if it answers none.
    pub fn take<R: Wait>(&self, rt: &R, place: &mut WorkerPlace) -> Option<Ticket>
        requires { IsWorkerOf self.now place.old }
        ensures place { IsWorkerOf self.now place.new }
        ensures taken { IfSome result (λ ticket. IsTakenOf ticket (hands_by place.old) (hands_by place.new)) }
        ensures none { IfNone result (hands_by place.new ≡ hands_by place.old) }
        ensures deques { (own_deque place.new ≡ own_deque place.old) × (other_deques place.new ≡ other_deques place.old) }
        ensures requests { place.new.requests ≡ place.old.requests }
    {
        self.pool.take(rt, &mut place.tickets)
    }

    /// Takes all the requests of a word, in one step. Bit `b` of the result is serial `64 * word + b`. It waits for nobody.
    pub fn collect(&self, place: &mut WorkerPlace, word: usize) -> u64
        requires word { word < 1024 }
        requires place { IsWorkerOf self.now place.old }
        ensures place { IsWorkerOf self.now place.new }
        ensures asked { (collected_by place.new).asked ≡ (collected_by place.old).asked }
        ensures collected { (collected_by place.new).collected ≡ (collected_by place.old).collected ++ serials word result }
        ensures step { (by : ℕ) × IsNext by (Collect by word result) (collected_by place.old).seen (collected_by place.new).seen }
        ensures were_asked { All (λ serial. WasAsked serial (collected_by place.new).seen) (serials word result) }
        ensures marks { marks_by place.new ≡ marks_by place.old }
        ensures tickets { place.new.tickets ≡ place.old.tickets }
    {
        self.pads.collect(&mut place.requests, word)
    }

    /// Takes all marks, in one step. Bit `g` of the result is the mark of group `g`, whose words are `16 * g` to `16 * g + 15`. Whoever
    /// does so collects these words, or sets the marks again. It waits for nobody.
    pub fn unmark(&self, place: &mut WorkerPlace) -> u64
        requires { IsWorkerOf self.now place.old }
        ensures place { IsWorkerOf self.now place.new }
        ensures marked { (marks_by place.new).asked ≡ (marks_by place.old).asked }
        ensures unmarked { (marks_by place.new).collected ≡ (marks_by place.old).collected ++ serials 0 result }
        ensures mark_step { (by : ℕ) × IsNext by (Collect by 0 result) (marks_by place.old).seen (marks_by place.new).seen }
        ensures were_marked { All (λ group. WasAsked group (marks_by place.new).seen) (serials 0 result) }
        ensures requests { collected_by place.new ≡ collected_by place.old }
        ensures tickets { place.new.tickets ≡ place.old.tickets }
    {
        self.pads.unmark(&mut place.requests)
    }

    /// Sets a group's mark, in one step. It waits for nobody.
    pub fn mark(&self, place: &mut WorkerPlace, group: u32)
        requires group { group < 64 }
        requires place { IsWorkerOf self.now place.old }
        ensures place { IsWorkerOf self.now place.new }
        ensures marked { (marks_by place.new).asked ≡ (marks_by place.old).asked ++ group ∷ [] }
        ensures unmarked { (marks_by place.new).collected ≡ (marks_by place.old).collected }
        ensures mark_step { (by : ℕ) × IsNext by (Ask by group) (marks_by place.old).seen (marks_by place.new).seen }
        ensures mark_present { IsPresent (words_after (marks_by place.new).seen) group }
        ensures requests { collected_by place.new ≡ collected_by place.old }
        ensures tickets { place.new.tickets ≡ place.old.tickets }
    {
        self.pads.mark(&mut place.requests, group)
    }
}
