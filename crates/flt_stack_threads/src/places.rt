//! The places of callers and of workers at an exchange.
ghost use Rattle.std.specs.Prelude.{◌≡◌, ◌≤◌, ◌∷◌, IfErr, OnOk, length};
ghost use Rattle.flt_pool.specs.Hands.{having_put};
ghost use Rattle.flt_pool.specs.Seats.{other_hands, own_hand, slots};
ghost use Rattle.flt_stack_threads.specs.Places.{hands_by, other_deques, own_deque};

use crate::Ticket;
use flt_cancel::Seat;
use flt_pool::{PutSeat, TakeSeat};

/// A caller's place: a right to put tickets and to ask for cancels at the exchange that gave it. It has no bytes, and may go to another
/// thread.
#[derive(Drop)]
pub struct CallerPlace {
    pub(crate) tickets: PutSeat,
    pub(crate) requests: Seat,
}

/// A worker's place: its own deque of tickets, and a right to take others' tickets and to collect requests at the exchange that gave it.
/// It may go to another thread.
#[derive(Drop)]
pub struct WorkerPlace {
    pub(crate) tickets: TakeSeat,
    pub(crate) requests: Seat,
}

impl WorkerPlace {
    /// Puts a ticket at the back of the place's own deque. It waits for nobody. The ticket comes back if memory is refused, which the first
    /// 64 tickets of a place don't need, or after 2^62 tickets.
    pub fn push(&mut self, ticket: Ticket) -> Result<(), Ticket>
        ensures pushed { OnOk result (hands_by self.new ≡ having_put ticket (own_hand self.old.tickets) ∷ other_hands self.old.tickets) }
        ensures back { IfErr result (λ t. t ≡ ticket) }
        ensures same { IfErr result (λ _. hands_by self.new ≡ hands_by self.old) }
        ensures refused { IfErr result
            (λ _. (64 ≤ slots self.old.tickets) × (slots self.old.tickets ≤ length (own_hand self.old.tickets).put)) }
        ensures pass { self.new.tickets.pass ≡ self.old.tickets.pass }
        ensures deques { (own_deque self.new ≡ own_deque self.old) × (other_deques self.new ≡ other_deques self.old) }
        ensures requests { self.new.requests ≡ self.old.requests }
    {
        self.tickets.push(ticket)
    }
}
