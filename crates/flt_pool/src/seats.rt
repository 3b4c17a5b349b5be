//! The seats of callers and of workers.
ghost use Rattle.std.specs.Prelude.{◌≡◌, ◌≤◌, ◌∷◌, IfSome, IfNone, IfErr, OnOk, length};
ghost use Rattle.flt_pool.specs.Hands.{having_put};
ghost use Rattle.flt_pool.specs.Seats.{deque_of, hands, hands_of_ways, IsTakenOf, other_hands, own_hand, reached, slots};

use crate::Ticket;
use crate::deque::Deque;
use crate::pool::InletPass;
use crate::way::Way;
use std::sync::Wait;

/// A right to put tickets into the injector of the pool that gave it. It has no bytes, and may go to another thread.
#[derive(Drop)]
pub struct PutSeat {
    pub(crate) pass: InletPass,
}

/// A worker's place: its own deque, a right to the injector of the pool that gave it, and a path to each other worker's deque. It may go to
/// another thread.
#[derive(Drop)]
pub struct TakeSeat {
    pub(crate) deque: Deque,
    pub(crate) pass: InletPass,
    pub(crate) ways: Vec<Way>,
}

impl TakeSeat {
    /// Puts a ticket at the back of the seat's own deque. It waits for nobody. The seat stays one of its pool. The ticket comes back if
    /// memory is refused, which the first 64 tickets of a seat don't need, or after 2^62 tickets.
    pub fn push(&mut self, ticket: Ticket) -> Result<(), Ticket>
        ensures pushed { OnOk result (hands self.new ≡ having_put ticket (own_hand self.old) ∷ other_hands self.old) }
        ensures back { IfErr result (λ t. t ≡ ticket) }
        ensures same { IfErr result (λ _. hands self.new ≡ hands self.old) }
        ensures refused { IfErr result (λ _. (64 ≤ slots self.old) × (slots self.old ≤ length (own_hand self.old).put)) }
        ensures pass { self.new.pass ≡ self.old.pass }
        ensures deques { (deque_of self.new ≡ deque_of self.old) × (reached self.new.ways.items ≡ reached self.old.ways.items) }
    {
        self.deque.push(ticket)
    }
}

/// A ticket from the first of these paths whose deque has one.
pub(crate) fn steal_any<R: Wait>(rt: &R, ways: &mut [Way]) -> Option<Ticket>
    ensures some { IfSome result (λ ticket. IsTakenOf ticket (hands_of_ways ways.old) (hands_of_ways ways.new)) }
    ensures none { IfNone result (hands_of_ways ways.new ≡ hands_of_ways ways.old) }
    ensures deques { reached ways.new ≡ reached ways.old }
{
    for k in 0..ways.len() {
        if let Some(ticket) = ways[k].steal(rt) {
            return Some(ticket);
        }
    }
    None
}
