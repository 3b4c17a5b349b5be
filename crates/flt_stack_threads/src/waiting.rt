//! The tickets that a worker must still push.
ghost use Rattle.std.specs.Prelude.{◌≡◌, ◌++◌, ◌∷◌, [], Err, IfErr, IfOk, OnErr, OnOk};
ghost use Rattle.flt_stack_core.specs.declared.turn_fault.TurnFault.TheVariants as fault;
ghost use Rattle.flt_stack_threads.specs.Left.{AreUnpushed};
ghost use Rattle.flt_stack_threads.specs.Waiting as spec;
ghost use Rattle.flt_stack_threads.specs.Waiting.{put_own};
ghost use Rattle.flt_stack_threads.specs.Places.{other_deques, own_deque};

use crate::{OutOfMemory, Ticket, WorkerPlace};
use flt_stack_core::{TicketTurn, TurnFault};
use std::alloc::{AllocError, Global};

/// Tickets that wait to be pushed: those that a move gave, and then the move's own ticket, if it goes to the back. They stay here if a push
/// is refused, so that none is lost.
#[derive(Drop)]
pub(crate) struct Waiting {
    /// The tickets that the move gave.
    named: Vec<Ticket>,
    /// How many of these are pushed.
    pushed: usize,
    /// The move's own ticket.
    own: Option<Ticket>,
    /// How many tickets lie in the place's own deque, where no other worker takes any.
    held: u64,
}

impl Waiting {
    /// Nothing waits.
    pub(crate) fn new(alloc: Global) -> Waiting
        ensures { spec.tickets result ≡ [] }
    {
        Waiting {
            named: Vec::new(alloc),
            pushed: 0,
            own: None,
            held: 0,
        }
    }

    /// These wait.
    fn wait(&mut self, named: Vec<Ticket>, own: Option<Ticket>)
        ensures { spec.tickets self.new ≡ named.items ++ spec.listed own }
    {
        self.named = named;
        self.pushed = 0;
        self.own = own;
    }

    /// How many tickets lie in the place's own deque, where no other worker takes any.
    pub(crate) fn held(&self) -> u64 {
        self.held
    }

    /// A ticket was taken: from the own deque, if one lay there.
    pub(crate) fn take(&mut self)
        ensures { spec.tickets self.new ≡ spec.tickets self.old }
    {
        self.held = self.held.saturating_sub(1);
    }

    /// Ends a ticket's turn: pushes the tickets that it gave, and the ticket itself, if it stays. If the turn was refused, the ticket
    /// waits, and the fault is handed on. It answers whether the turn made an entry.
    pub(crate) fn finish_turn(
        &mut self,
        place: &mut WorkerPlace,
        ticket: Ticket,
        outcome: Result<TicketTurn, TurnFault>,
    ) -> Result<bool, TurnFault>
        requires { spec.tickets self.old ≡ [] }
        ensures made { IfOk outcome (λ turned. IfOk result (λ made. made ≡ turned.made)) }
        ensures pushed { IfOk outcome (λ turned. put_own place.new ++ spec.tickets self.new
            ≡ put_own place.old ++ (turned.next.items ++ spec.remaining turned.stays ticket)) }
        ensures all { OnOk result (spec.tickets self.new ≡ []) }
        ensures memory { IfOk outcome (λ _. IfErr result (λ f. (f ≡ fault.OutOfMemory) × AreUnpushed place.new self.new)) }
        ensures kept { OnErr outcome ((spec.tickets self.new ≡ ticket ∷ []) × (place.new ≡ place.old)) }
        ensures fault { IfErr outcome (λ f. result ≡ Err f) }
        ensures pass { place.new.tickets.pass ≡ place.old.tickets.pass }
        ensures requests { place.new.requests ≡ place.old.requests }
    {
        match outcome {
            Ok(turned) => {
                let own = if turned.stays { Some(ticket) } else { None };
                Ok(self.settle(place, turned, own)?)
            }
            Err(fault) => {
                self.keep(ticket);
                Err(fault)
            }
        }
    }

    /// A ticket waits, if none did before.
    fn keep(&mut self, ticket: Ticket)
        requires { spec.tickets self.old ≡ [] }
        ensures { spec.tickets self.new ≡ ticket ∷ [] }
    {
        self.own = Some(ticket);
    }

    /// Pushes the tickets that a turn gave, and the turn's own ticket, if it stays. It answers whether the turn made an entry.
    pub(crate) fn settle(
        &mut self,
        place: &mut WorkerPlace,
        turned: TicketTurn,
        own: Option<Ticket>,
    ) -> Result<bool, OutOfMemory>
        requires { spec.tickets self.old ≡ [] }
        ensures made { IfOk result (λ made. made ≡ turned.made) }
        ensures pushed { put_own place.new ++ spec.tickets self.new ≡ put_own place.old ++ (turned.next.items ++ spec.listed own) }
        ensures all { OnOk result (spec.tickets self.new ≡ []) }
        ensures refused { OnErr result (AreUnpushed place.new self.new) }
        ensures pass { place.new.tickets.pass ≡ place.old.tickets.pass }
        ensures requests { place.new.requests ≡ place.old.requests }
    {
        let TicketTurn {
            next,
            stays: _,
            made,
        } = turned;
        self.wait(next, own);
        self.push_all(place)?;
        Ok(made)
    }

    /// Pushes the waiting tickets, in their order, until one is refused.
    pub(crate) fn push_all(&mut self, place: &mut WorkerPlace) -> Result<(), OutOfMemory>
        ensures pushed { put_own place.new ++ spec.tickets self.new ≡ put_own place.old ++ spec.tickets self.old }
        ensures all { OnOk result (spec.tickets self.new ≡ []) }
        ensures refused { OnErr result (AreUnpushed place.new self.new) }
        ensures pass { place.new.tickets.pass ≡ place.old.tickets.pass }
        ensures deques { (own_deque place.new ≡ own_deque place.old) × (other_deques place.new ≡ other_deques place.old) }
        ensures requests { place.new.requests ≡ place.old.requests }
    {
        self.push_named(place)?;
        self.push_own(place)
    }

    /// Pushes the tickets that the move gave, in their order, until one is refused.
    fn push_named(&mut self, place: &mut WorkerPlace) -> Result<(), OutOfMemory>
        ensures pushed { put_own place.new ++ spec.tickets self.new ≡ put_own place.old ++ spec.tickets self.old }
        ensures all { OnOk result (spec.tickets self.new ≡ spec.listed self.new.own) }
        ensures refused { OnErr result (AreUnpushed place.new self.new) }
        ensures pass { place.new.tickets.pass ≡ place.old.tickets.pass }
        ensures deques { (own_deque place.new ≡ own_deque place.old) × (other_deques place.new ≡ other_deques place.old) }
        ensures requests { place.new.requests ≡ place.old.requests }
    {
        while self.pushed < self.named.len() {
            let ticket = self.named[self.pushed];
            if place.push(ticket).is_err() {
                return Err(AllocError);
            }
            self.pushed += 1;
            self.held = self.held.saturating_add(1);
        }
        Ok(())
    }

    /// Pushes the move's own ticket, if it waits. All others are pushed.
    fn push_own(&mut self, place: &mut WorkerPlace) -> Result<(), OutOfMemory>
        requires { spec.tickets self.old ≡ spec.listed self.old.own }
        ensures pushed { put_own place.new ++ spec.tickets self.new ≡ put_own place.old ++ spec.tickets self.old }
        ensures all { OnOk result (spec.tickets self.new ≡ []) }
        ensures refused { OnErr result (AreUnpushed place.new self.new) }
        ensures pass { place.new.tickets.pass ≡ place.old.tickets.pass }
        ensures deques { (own_deque place.new ≡ own_deque place.old) × (other_deques place.new ≡ other_deques place.old) }
        ensures requests { place.new.requests ≡ place.old.requests }
    {
        let Some(ticket) = self.own else {
            return Ok(());
        };
        if place.push(ticket).is_err() {
            return Err(AllocError);
        }
        self.own = None;
        self.held = self.held.saturating_add(1);
        Ok(())
    }
}
