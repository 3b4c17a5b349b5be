//! The work of a worker: it takes a ticket and makes its move, over and over.
ghost use Rattle.std.specs.Prelude.{◌≡◌, ◌≢◌, ◌⊎◌, ◌+◌, ◌*◌, ◌<◌, ◌≤◌, ◌++◌, ◌∷◌, [], IfErr, IfOk, IfSome, Err, None, OnErr, OnOk};
ghost use Rattle.flt_cancel.specs.Serials.{serials};
ghost use Rattle.flt_stack_core.specs.Turning.{IsCounted, grows};
ghost use Rattle.flt_stack_threads.specs.Left.{AreUnpushed, Leaves, LeavesRequest};
ghost use Rattle.flt_stack_threads.specs.Requests.{AreCollected, AreSetAgain, AreSwept, HasSwept, IsEmpty, IsWithout};
ghost use Rattle.flt_stack_threads.specs.Waiting as waiting;
ghost use Rattle.flt_stack_threads.specs.Working.{HasWorked};
ghost use Rattle.flt_stack_core.specs.declared.turn_fault.TurnFault.TheVariants as fault;
ghost use Rattle.flt_stack_threads.specs.Places.{IsWorkerOf, collected_by, hands_by, marks_by};
ghost use Rattle.flt_rules.specs.Limits.{max_operations};

use crate::Ticket;
use crate::pace::Pace;
use crate::requests::Requests;
use crate::seats::WorkerSeat;
use crate::stack::Stack;
use crate::word::{has_bit, has_none_from, lowest_bit};
use flt_machine::{Frame, advance};
use flt_pool::Gate;
use flt_rules::MAX_ENTRIES;
use flt_stack_core::{Fulls, OtherEntries, StackName, TicketTurn, TurnFault};
use std::alloc::Global;
use std::sync::Wait;
use std::sync::ledger::Share;

/// How many groups of words of requests there are.
const GROUPS: u32 = 64;

/// How many words each has.
const WORDS_OF_GROUP: usize = 16;

/// How many tickets are taken in one call at most.
const MAX_TICKETS: u32 = MAX_ENTRIES as u32;

/// How often a worker looks for something to do in one call at most: for each ticket, for each entry that a request may add, and once
/// more.
const MAX_LOOKS: u32 = 2_000_001;

/// Whether a ticket stays, and nothing was moved at its turn.
fn is_still(outcome: &Result<TicketTurn, TurnFault>) -> bool {
    match outcome {
        Ok(turned) => turned.stays && !turned.made,
        Err(_) => false,
    }
}

impl<N: StackName> Stack<N> {
    /// Works until one look at all deques finds no ticket, or 1,000,000 tickets were taken, and answers how many entries it added. The
    /// worker of number 0 also collects the requests to cancel: before its first ticket, and again when it finds none. The leftovers of an
    /// earlier call come first. The gate is called before each change, with no lock held. If there is one worker, and each ticket of its
    /// deque had a turn that moved nothing, further rounds of them are counted as if they were taken, and aren't.
    ///
    /// # Errors
    ///
    /// There are 1,000,000 entries, or a growth was refused. The entries that were made before stay, and the leftovers stay in the seat.
    pub fn work<R: Wait, G: Gate>(
        &self,
        rt: &R,
        alloc: Global,
        seat: &mut WorkerSeat<N>,
        gate: &mut G,
    ) -> Result<u64, TurnFault>
        requires { IsWorkerOf self.now.exchange seat.old.place }
        ensures worked { HasWorked self.now.exchange seat.old seat.new (λ made. made) result }
        ensures left { IfErr result (λ f. Leaves f seat.new.place seat.new.waiting seat.new.requests) }
        ensures tried { OnOk result (IsEmpty seat.old.requests.bits → IsEmpty seat.new.requests.bits) }
    {
        seat.waiting.push_all(&mut seat.place)?;
        let mut made = self.collect(rt, alloc, seat, gate)?;
        if seat.round.goes_on() {
            seat.round.begin(self.moving(rt));
        }
        let mut taken: u32 = 0;
        for _ in 0..MAX_LOOKS {
            taken += seat.round.passes(seat.waiting.held(), MAX_TICKETS - taken);
            if taken == MAX_TICKETS {
                return Ok(made);
            }
            if let Some(ticket) = self.exchange.take(rt, &mut seat.place) {
                seat.waiting.take();
                made += self.serve(rt, alloc, seat, gate, ticket)? as u64;
                taken += 1;
                continue;
            }
            let more = self.collect(rt, alloc, seat, gate)?;
            if more == 0 {
                return Ok(made);
            }
            made += more;
        }
        Ok(made)
    }

    /// How many entries the journal has beside the arrivals. An arrival moves no ticket that stays: its operation gets one of its own.
    fn moving<R: Wait>(&self, rt: &R) -> usize {
        let core = self.core.lock(rt);
        let board = core.board();
        board.journal().len().saturating_sub(board.operations())
    }

    // ---- tickets

    /// A ticket's turn. It answers whether an entry was made. The ticket stays in the seat if the turn is refused.
    fn serve<R: Wait, G: Gate>(
        &self,
        rt: &R,
        alloc: Global,
        seat: &mut WorkerSeat<N>,
        gate: &mut G,
        ticket: Ticket,
    ) -> Result<bool, TurnFault>
        requires seat { IsWorkerOf self.now.exchange seat.old.place }
        requires waiting { waiting.tickets seat.old.waiting ≡ [] }
        ensures worked { HasWorked self.now.exchange seat.old seat.new grows result }
        ensures kept { IfErr result (λ f.
            ((waiting.tickets seat.new.waiting ≡ ticket ∷ []) × (hands_by seat.new.place ≡ hands_by seat.old.place))
            ⊎ ((f ≡ fault.OutOfMemory) × AreUnpushed seat.new.place seat.new.waiting)) }
        ensures requests { seat.new.requests ≡ seat.old.requests }
    {
        let outcome = self.turn(
            rt,
            alloc,
            &mut seat.pace,
            &mut seat.share,
            &mut seat.fulls,
            gate,
            ticket,
        );
        seat.round.turn(is_still(&outcome));
        seat.waiting.finish_turn(&mut seat.place, ticket, outcome)
    }

    /// Makes the move that a ticket asks for, which is chosen and made in one hold of the lock; or the steps of an activation. An
    /// activation is taken from the board in one hold of the lock, and comes back in another; between them it makes its local steps.
    fn turn<R: Wait, G: Gate>(
        &self,
        rt: &R,
        alloc: Global,
        pace: &mut Pace,
        mine: &mut Share<OtherEntries<N>>,
        fulls: &mut Share<Fulls<N>>,
        gate: &mut G,
        ticket: Ticket,
    ) -> Result<TicketTurn, TurnFault>
        requires part { (0 < mine.old.parts) × (0 < fulls.old.parts) }
        ensures { IsCounted mine.old mine.new fulls.old fulls.new (λ t. grows t.made) result }
    {
        let machine = self.machine();
        let Ticket::Activation(activation) = ticket else {
            pace.pass(gate);
            return self
                .core
                .lock(rt)
                .move_on(alloc, machine, mine, fulls, ticket);
        };
        let Some(frame) = self.checkout(rt, activation) else {
            return Ok(TicketTurn {
                next: Vec::new(alloc),
                stays: false,
                made: false,
            });
        };
        let advanced = advance(machine, frame);
        pace.pass(gate);
        self.core
            .lock(rt)
            .go_on(alloc, machine, mine, fulls, &advanced)
    }

    /// An activation as it is on the board; none if it has ended.
    fn checkout<R: Wait>(&self, rt: &R, activation: u32) -> Option<Frame> {
        self.core.lock(rt).board().checkout(activation)
    }

    // ---- requests

    /// Cancels the requested operations that can be cancelled, in the order of the serial numbers. It answers how many entries were made.
    /// Only the worker of number 0 calls it, and it looks only at the words of groups that have a mark.
    fn collect<R: Wait, G: Gate>(
        &self,
        rt: &R,
        alloc: Global,
        seat: &mut WorkerSeat<N>,
        gate: &mut G,
    ) -> Result<u64, TurnFault>
        requires seat { IsWorkerOf self.now.exchange seat.old.place }
        requires waiting { waiting.tickets seat.old.waiting ≡ [] }
        ensures worked { HasWorked self.now.exchange seat.old seat.new (λ made. made) result }
        ensures left { IfErr result (λ f. LeavesRequest f seat.new.place seat.new.waiting seat.new.requests) }
        ensures tried { OnOk result (IsEmpty seat.old.requests.bits → IsEmpty seat.new.requests.bits) }
        ensures swept { OnOk result (seat.old.pace.number ≡ 0 → HasSwept seat.old.place.requests seat.new.place.requests) }
        ensures again { OnErr result (AreSetAgain seat.old.place.requests seat.new.place.requests) }
        ensures few { IfOk result (λ made. made ≤ 65600) }
    {
        if !seat.pace.collects() {
            return Ok(0);
        }
        let made = self.cancel_all(rt, alloc, seat, gate)?;
        let more = self.sweep_marked(rt, alloc, seat, gate)?;
        Ok(made + more)
    }

    /// Takes all marks, collects the words of the groups that had one, and cancels the operations that can be cancelled. It answers how
    /// many entries were made. If it is refused something it sets the marks again, since some words weren't looked at.
    fn sweep_marked<R: Wait, G: Gate>(
        &self,
        rt: &R,
        alloc: Global,
        seat: &mut WorkerSeat<N>,
        gate: &mut G,
    ) -> Result<u64, TurnFault>
        requires seat { IsWorkerOf self.now.exchange seat.old.place }
        requires waiting { waiting.tickets seat.old.waiting ≡ [] }
        requires requests { IsEmpty seat.old.requests.bits }
        ensures worked { HasWorked self.now.exchange seat.old seat.new (λ made. made) result }
        ensures left { IfErr result (λ f. LeavesRequest f seat.new.place seat.new.waiting seat.new.requests) }
        ensures tried { OnOk result (IsEmpty seat.new.requests.bits) }
        ensures swept { OnOk result (HasSwept seat.old.place.requests seat.new.place.requests) }
        ensures again { OnErr result (AreSetAgain seat.old.place.requests seat.new.place.requests) }
        ensures few { IfOk result (λ made. made ≤ max_operations) }
    {
        let groups = self.exchange.unmark(&mut seat.place);
        match self.sweep(rt, alloc, seat, gate, groups) {
            Ok(made) => Ok(made),
            Err(fault) => {
                self.mark_again(seat, groups);
                Err(fault)
            }
        }
    }

    /// Sets the marks of these groups, one bit each.
    fn mark_again(&self, seat: &mut WorkerSeat<N>, groups: u64)
        requires { IsWorkerOf self.now.exchange seat.old.place }
        ensures seat { IsWorkerOf self.now.exchange seat.new.place }
        ensures marked { (marks_by seat.new.place).asked ≡ (marks_by seat.old.place).asked ++ serials 0 groups }
        ensures unmarked { (marks_by seat.new.place).collected ≡ (marks_by seat.old.place).collected }
        ensures requests { collected_by seat.new.place ≡ collected_by seat.old.place }
        ensures tickets { seat.new.place.tickets ≡ seat.old.place.tickets }
        ensures rest { (seat.new.waiting ≡ seat.old.waiting) × ((seat.new.requests ≡ seat.old.requests)
            × ((seat.new.share ≡ seat.old.share) × (seat.new.fulls ≡ seat.old.fulls))) }
    {
        for group in 0..GROUPS {
            if !has_bit(groups, group) {
                continue;
            }
            self.exchange.mark(&mut seat.place, group);
        }
    }

    /// Collects the words of these groups, one bit each, in their order, and cancels the operations that can be cancelled. It answers how
    /// many entries were made.
    fn sweep<R: Wait, G: Gate>(
        &self,
        rt: &R,
        alloc: Global,
        seat: &mut WorkerSeat<N>,
        gate: &mut G,
        groups: u64,
    ) -> Result<u64, TurnFault>
        requires seat { IsWorkerOf self.now.exchange seat.old.place }
        requires waiting { waiting.tickets seat.old.waiting ≡ [] }
        requires requests { IsEmpty seat.old.requests.bits }
        ensures worked { HasWorked self.now.exchange seat.old seat.new (λ made. made) result }
        ensures left { IfErr result (λ f. LeavesRequest f seat.new.place seat.new.waiting seat.new.requests) }
        ensures tried { OnOk result (IsEmpty seat.new.requests.bits) }
        ensures swept { OnOk result (AreSwept groups 64 (collected_by seat.old.place).seen (collected_by seat.new.place).seen) }
        ensures marks { marks_by seat.new.place ≡ marks_by seat.old.place }
        ensures few { IfOk result (λ made. made ≤ max_operations) }
    {
        let mut made: u64 = 0;
        for group in lowest_bit(groups)..GROUPS {
            if has_none_from(groups, group) {
                return Ok(made);
            }
            if !has_bit(groups, group) {
                continue;
            }
            made += self.sweep_group(rt, alloc, seat, gate, group)?;
        }
        Ok(made)
    }

    /// Collects the words of a group in their order, and cancels the operations that can be cancelled. It answers how many entries were
    /// made.
    fn sweep_group<R: Wait, G: Gate>(
        &self,
        rt: &R,
        alloc: Global,
        seat: &mut WorkerSeat<N>,
        gate: &mut G,
        group: u32,
    ) -> Result<u64, TurnFault>
        requires group { group < 64 }
        requires seat { IsWorkerOf self.now.exchange seat.old.place }
        requires waiting { waiting.tickets seat.old.waiting ≡ [] }
        requires requests { IsEmpty seat.old.requests.bits }
        ensures worked { HasWorked self.now.exchange seat.old seat.new (λ made. made) result }
        ensures left { IfErr result (λ f. LeavesRequest f seat.new.place seat.new.waiting seat.new.requests) }
        ensures tried { OnOk result (IsEmpty seat.new.requests.bits) }
        ensures swept { OnOk result (AreCollected (16 * group) 16 (collected_by seat.old.place).seen (collected_by seat.new.place).seen) }
        ensures marks { marks_by seat.new.place ≡ marks_by seat.old.place }
        ensures few { IfOk result (λ made. made ≤ 1024) }
    {
        let mut made: u64 = 0;
        let first = WORDS_OF_GROUP * group as usize;
        for k in 0..WORDS_OF_GROUP {
            let requests = Requests::collect(&self.exchange, &mut seat.place, first + k);
            if requests.bits == 0 {
                continue;
            }
            seat.requests = requests;
            made += self.cancel_all(rt, alloc, seat, gate)?;
        }
        Ok(made)
    }

    /// Cancels the operations of the seat's requests that can be cancelled. It answers how many entries were made.
    fn cancel_all<R: Wait, G: Gate>(
        &self,
        rt: &R,
        alloc: Global,
        seat: &mut WorkerSeat<N>,
        gate: &mut G,
    ) -> Result<u64, TurnFault>
        requires seat { IsWorkerOf self.now.exchange seat.old.place }
        requires waiting { waiting.tickets seat.old.waiting ≡ [] }
        ensures worked { HasWorked self.now.exchange seat.old seat.new (λ made. made) result }
        ensures left { IfErr result (λ f. LeavesRequest f seat.new.place seat.new.waiting seat.new.requests) }
        ensures tried { OnOk result (IsEmpty seat.new.requests.bits) }
        ensures pads { seat.new.place.requests ≡ seat.old.place.requests }
        ensures few { IfOk result (λ made. made ≤ 64) }
    {
        let mut made: u64 = 0;
        for bit in lowest_bit(seat.requests.bits)..64 {
            if seat.requests.bits == 0 {
                return Ok(made);
            }
            if seat.requests.has(bit) {
                made += self.cancel_one(rt, alloc, seat, gate, bit)? as u64;
            }
        }
        Ok(made)
    }

    /// Cancels the operation that a bit of the seat's requests stands for, if it can be cancelled. It answers whether an entry was made.
    fn cancel_one<R: Wait, G: Gate>(
        &self,
        rt: &R,
        alloc: Global,
        seat: &mut WorkerSeat<N>,
        gate: &mut G,
        bit: u32,
    ) -> Result<bool, TurnFault>
        requires bit { bit < 64 }
        requires seat { IsWorkerOf self.now.exchange seat.old.place }
        requires waiting { waiting.tickets seat.old.waiting ≡ [] }
        ensures worked { HasWorked self.now.exchange seat.old seat.new grows result }
        ensures kept { IfErr result (λ f.
            ((seat.new.requests ≡ seat.old.requests) × (waiting.tickets seat.new.waiting ≡ []))
            ⊎ ((f ≡ fault.OutOfMemory) × (AreUnpushed seat.new.place seat.new.waiting
            × IsWithout bit seat.old.requests.bits seat.new.requests.bits))) }
        ensures tried { OnOk result (IsWithout bit seat.old.requests.bits seat.new.requests.bits) }
        ensures pads { seat.new.place.requests ≡ seat.old.place.requests }
    {
        let serial = seat.requests.serial(bit);
        let turned = self.try_cancel(
            rt,
            alloc,
            &mut seat.pace,
            &mut seat.share,
            &mut seat.fulls,
            gate,
            serial,
        )?;
        seat.requests.remove(bit);
        Ok(seat.waiting.settle(&mut seat.place, turned, None)?)
    }

    /// Cancels an operation, if it can be cancelled.
    fn try_cancel<R: Wait, G: Gate>(
        &self,
        rt: &R,
        alloc: Global,
        pace: &mut Pace,
        mine: &mut Share<OtherEntries<N>>,
        fulls: &mut Share<Fulls<N>>,
        gate: &mut G,
        serial: u32,
    ) -> Result<TicketTurn, TurnFault>
        requires part { (0 < mine.old.parts) × (0 < fulls.old.parts) }
        ensures { IsCounted mine.old mine.new fulls.old fulls.new (λ t. grows t.made) result }
    {
        let machine = self.machine();
        pace.pass(gate);
        self.core
            .lock(rt)
            .cancel(alloc, machine, mine, fulls, serial)
    }
}
