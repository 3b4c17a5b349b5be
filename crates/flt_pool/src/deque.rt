//! A worker's own deque.
ghost use Rattle.std.specs.Prelude.{◌≡◌, ◌≤◌, IfSome, IfNone, IfOk, IfErr, OnOk, length};
ghost use Rattle.crossbeam_deque.specs.Handles.{worker_deque, worker_view, worker_capacity, worker_index, stealer_deque};
ghost use Rattle.flt_pool.specs.Hands.{newcomer, having_put, having_taken};

use crate::rule::{Puts, Takes, TicketRule};
use crate::way::Thief;
use crate::{Hand, OutOfMemory, Ticket};
use crossbeam_deque::Worker;
use std::alloc::Global;

/// How many slots a deque begins with.
const FIRST_SLOTS: usize = 64;

/// A deque, first in, first out, which its owner pushes to. Neither push nor pop waits.
#[derive(Drop)]
pub(crate) struct Deque {
    pub(crate) owner: Worker<Ticket, Global, Hand, TicketRule>,
    ghost roomy: { 64 ≤ worker_capacity owner },
    ghost counted: { worker_index owner ≤ length (worker_view owner).put },
}

impl Deque {
    /// An empty deque, through which nothing has gone.
    pub(crate) fn new(alloc: Global) -> Result<Deque, OutOfMemory>
        ensures { IfOk result (λ deque. worker_view deque.owner ≡ newcomer) }
    {
        let owner = Worker::fifo_as(alloc, FIRST_SLOTS)?;
        Ok(Deque { owner })
    }

    /// A handle that steals from it.
    pub(crate) fn thief(&self) -> Result<Thief, OutOfMemory>
        ensures { IfOk result (λ thief. stealer_deque thief ≡ worker_deque self.now.owner) }
    {
        self.owner.stealer()
    }

    /// Puts a ticket at the back, or returns it if memory is refused.
    pub(crate) fn push(&mut self, ticket: Ticket) -> Result<(), Ticket>
        ensures pushed { OnOk result (worker_view self.new.owner ≡ having_put ticket (worker_view self.old.owner)) }
        ensures back { IfErr result (λ t. t ≡ ticket) }
        ensures same { IfErr result (λ _. worker_view self.new.owner ≡ worker_view self.old.owner) }
        ensures refused { IfErr result (λ _. worker_capacity self.old.owner ≤ worker_index self.old.owner) }
        ensures deque { worker_deque self.new.owner ≡ worker_deque self.old.owner }
    {
        self.owner.push_as::<Puts>(ticket)
    }

    /// The ticket at the front, if there is one.
    pub(crate) fn pop(&mut self) -> Option<Ticket>
        ensures some { IfSome result (λ ticket. worker_view self.new.owner ≡ having_taken ticket (worker_view self.old.owner)) }
        ensures none { IfNone result (worker_view self.new.owner ≡ worker_view self.old.owner) }
        ensures deque { worker_deque self.new.owner ≡ worker_deque self.old.owner }
    {
        self.owner.pop_as::<Takes>()
    }
}
