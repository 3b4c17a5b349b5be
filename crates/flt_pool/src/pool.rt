//! The pool: opening it, putting and taking.
ghost use Rattle.std.specs.Prelude.{◌≡◌, ◌≤◌, All, IfErr, IfNone, IfOk, IfSome, OnOk, length, map};
ghost use Rattle.crossbeam_deque.specs.Injected.{injector_view, IsInjectorPassOf};
ghost use Rattle.flt_pool.specs.Hands.{AreNewcomers, having_put, having_taken, newcomer};
ghost use Rattle.flt_pool.specs.Seats.{deque_of, hands, IsPutSeatOf, IsTakenOf, IsTakeSeatOf, put_hand, reached, ReachesOthers};

use crate::opening::{put_seats, take_seats};
use crate::rule::{Puts, Takes, TicketRule};
use crate::seats::{PutSeat, TakeSeat, steal_any};
use crate::{Hand, OutOfMemory, Ticket};
use crossbeam_deque::{Injector, InjectorPass, Steal};
use std::alloc::Global;
use std::sync::Wait;

/// The injector, under the rule.
pub(crate) type Inlet = Injector<Ticket, Global, Hand, TicketRule>;

/// A seat's pass for the injector.
pub(crate) type InletPass = InjectorPass<Ticket, Hand>;

/// Tickets that threads share: the injector, to which each seat of the pool has a right.
#[derive(Drop)]
pub struct Pool {
    pub(crate) inlet: Inlet,
}

impl Pool {
    /// An empty pool, a seat for each caller and one for each worker. Each worker has a path to each other worker's deque.
    pub fn open(
        alloc: Global,
        callers: usize,
        workers: usize,
    ) -> Result<(Pool, Vec<PutSeat>, Vec<TakeSeat>), OutOfMemory>
        requires callers { (1 ≤ callers) × (callers ≤ 16) }
        requires workers { (1 ≤ workers) × (workers ≤ 16) }
        ensures counts { IfOk result (λ opened. (length opened.1.items ≡ callers) × (length opened.2.items ≡ workers)) }
        ensures callers { IfOk result (λ opened. All (λ seat. IsPutSeatOf opened.0 seat × (put_hand seat ≡ newcomer)) opened.1.items) }
        ensures workers { IfOk result (λ opened. All (λ seat. IsTakeSeatOf opened.0 seat × AreNewcomers (hands seat)) opened.2.items) }
        ensures ways { IfOk result (λ opened. All (ReachesOthers (map deque_of opened.2.items)) opened.2.items) }
    {
        let (inlet, _) = Inlet::new_as(alloc)?;
        let pool = Pool { inlet };
        let put_seats = put_seats(alloc, &pool, callers)?;
        let take_seats = take_seats(alloc, &pool, workers)?;
        Ok((pool, put_seats, take_seats))
    }

    /// Puts a ticket into the injector. It comes back if memory is refused, or after nearly 2^62 tickets.
    pub fn put<R: Wait>(&self, rt: &R, seat: &mut PutSeat, ticket: Ticket) -> Result<(), Ticket>
        requires { IsPutSeatOf self.now seat.old }
        ensures seat { IsPutSeatOf self.now seat.new }
        ensures put { OnOk result (put_hand seat.new ≡ having_put ticket (put_hand seat.old)) }
        ensures back { IfErr result (λ t. t ≡ ticket) }
        ensures same { IfErr result (λ _. put_hand seat.new ≡ put_hand seat.old) }
    {
        self.inlet.push_as::<Puts, R>(rt, &mut seat.pass, ticket)
    }

    /// Takes a ticket. It looks at the seat's own deque, then at the injector, and then at the others' deques in the order of the workers,
    /// and takes the front ticket of the first one in which it finds any. This order is in no contract, and neither is that all of them
    /// were empty, each at its moment, if it answers none: a seat knows nothing of the tickets that others put and took.
    pub fn take<R: Wait>(&self, rt: &R, seat: &mut TakeSeat) -> Option<Ticket>
        requires { IsTakeSeatOf self.now seat.old }
        ensures seat { IsTakeSeatOf self.now seat.new }
        ensures taken { IfSome result (λ ticket. IsTakenOf ticket (hands seat.old) (hands seat.new)) }
        ensures none { IfNone result (hands seat.new ≡ hands seat.old) }
        ensures deques { (deque_of seat.new ≡ deque_of seat.old) × (reached seat.new.ways.items ≡ reached seat.old.ways.items) }
    {
        if let Some(ticket) = seat.deque.pop() {
            return Some(ticket);
        }
        if let Some(ticket) = self.take_out(rt, &mut seat.pass) {
            return Some(ticket);
        }
        steal_any(rt, seat.ways.as_mut_slice())
    }

    // The ticket at the injector's front, if there is one. It tries again where another thread was faster.
    fn take_out<R: Wait>(&self, rt: &R, pass: &mut InletPass) -> Option<Ticket>
        requires { IsInjectorPassOf self.now.inlet pass.old }
        ensures pass { IsInjectorPassOf self.now.inlet pass.new }
        ensures some { IfSome result (λ ticket. injector_view pass.new ≡ having_taken ticket (injector_view pass.old)) }
        ensures none { IfNone result (injector_view pass.new ≡ injector_view pass.old) }
    {
        for _ in rt.forever() {
            match self.inlet.steal_as::<Takes, R>(rt, pass) {
                Steal::Success(ticket) => return Some(ticket),
                Steal::Empty => return None,
                Steal::Retry => {}
            }
        }
        unreachable!()
    }
}
