//! The work that a worker does in one hold of the lock: a ticket's move, or the step after an advance.
ghost use Rattle.std.specs.Prelude.{◌≡◌, ◌≢◌, ◌+◌, ◌<◌, [], true, false, length, Err, IfOk, OnErr, OnOk};
ghost use Rattle.std.specs.BTreeSet.{insert_key};
ghost use Rattle.std.specs.Ordering.{nat_cmp};
ghost use Rattle.flt_stack_core.specs.Turning.{HasCommitted, IsCancel, IsCounted, grows};
ghost use Rattle.flt_machine_frames.specs.Loading.{AreLoaded};
ghost use Rattle.flt_machine.specs.Calls.{IsAdvanced};
ghost use Rattle.flt_stack_core.specs.Turns as spec;
ghost use Rattle.flt_stack_core.specs.declared.turn_fault.TurnFault.TheVariants as fault;
ghost use Rattle.flt_rules.specs.Limits.{max_entries};

use crate::board::Core;
use crate::names::{Fulls, OtherEntries, StackName};
use crate::one::{asked_by, is_teardown, stays_after};
use crate::turn_fault::TurnFault;
use counted_heap::Heap;
use flt_machine::{Advanced, ApplyFault, Commit, Loaded, OutOfMemory};
use flt_model::{Move, Subject};
use std::alloc::Global;
use std::sync::ledger::Share;

/// The result of a ticket's turn.
#[derive(Drop)]
pub struct TicketTurn {
    /// The subjects that get a ticket by it.
    pub next: Vec<Subject>,
    /// Whether the ticket goes to the back.
    pub stays: bool,
    /// Whether a move or a step was made, and the journal has one entry more.
    pub made: bool,
}

/// A turn in which nothing was made.
fn unmade(alloc: Global, stays: bool) -> TicketTurn
    ensures next { result.next.items ≡ [] }
    ensures stays { result.stays ≡ stays }
    ensures made { result.made ≡ false }
{
    TicketTurn {
        next: Vec::new(alloc),
        stays,
        made: false,
    }
}

impl<N: StackName> Core<N> {
    /// From now on the choice of this number, counted from 0, is answered no, if it is still to come.
    pub fn refuse(&mut self, choice: u64) -> Result<(), OutOfMemory>
        ensures refused { OnOk result (self.new.choices.refused.keys ≡ insert_key nat_cmp self.old.choices.refused.keys choice) }
        ensures same { OnErr result (self.new.choices.refused.keys ≡ self.old.choices.refused.keys) }
        ensures rest { (self.new.board ≡ self.old.board) × (self.new.choices.made ≡ self.old.choices.made) }
    {
        self.choices.refused.insert(choice)?;
        Ok(())
    }

    /// Makes the move that a ticket asks for, if it is enabled. An activation's ticket asks for none: it makes steps.
    pub fn move_on(
        &mut self,
        alloc: Global,
        loaded: &Loaded,
        mine: &mut Share<OtherEntries<N>>,
        fulls: &mut Share<Fulls<N>>,
        ticket: Subject,
    ) -> Result<TicketTurn, TurnFault>
        requires loaded { AreLoaded N.trees loaded.now }
        requires part { (0 < mine.old.parts) × (0 < fulls.old.parts) }
        ensures moved { IfOk result (λ t. spec.HasMoved loaded.now self.old.board self.new.board ticket t.stays t.next.items) }
        ensures choices { self.new.choices ≡ self.old.choices }
        ensures entries { IfOk result (λ t. length self.new.board.entries ≡ length self.old.board.entries + grows t.made) }
        ensures counted { IsCounted mine.old mine.new fulls.old fulls.new (λ t. grows t.made) result }
        ensures full { result ≡ Err fault.Full → length self.old.board.entries ≡ max_entries }
        ensures refused { OnErr result (self.new.board ≡ self.old.board) }
    {
        let teardown = is_teardown(self.board(), loaded, ticket);
        let Some(step) = asked_by(self.board(), loaded, ticket) else {
            return Ok(unmade(alloc, teardown));
        };
        match self.apply(alloc, loaded, mine, step) {
            Ok(events) => Ok(TicketTurn {
                next: events.next,
                stays: stays_after(teardown, step),
                made: true,
            }),
            Err(ApplyFault::NotEnabled) => Ok(unmade(alloc, teardown)),
            Err(ApplyFault::Full) => {
                self.count_full(fulls, step);
                Err(TurnFault::Full)
            }
            Err(ApplyFault::OutOfMemory) => Err(TurnFault::OutOfMemory),
        }
    }

    /// Makes the local steps of an advance, and the step after them, by the system's next choice. The ticket leaves if the activation
    /// isn't in the state that it was advanced from.
    pub fn go_on(
        &mut self,
        alloc: Global,
        loaded: &Loaded,
        mine: &mut Share<OtherEntries<N>>,
        fulls: &mut Share<Fulls<N>>,
        advanced: &Advanced,
    ) -> Result<TicketTurn, TurnFault>
        requires loaded { AreLoaded N.trees loaded.now }
        requires part { (0 < mine.old.parts) × (0 < fulls.old.parts) }
        requires advance { IsAdvanced loaded.now advanced.now }
        ensures gone { IfOk result (λ t. HasCommitted loaded.now self.old.board self.new.board self.old.choices self.new.choices
            advanced.now t.made t.stays t.next.items) }
        ensures entries { IfOk result (λ t. length self.new.board.entries ≡ length self.old.board.entries + grows t.made) }
        ensures counted { IsCounted mine.old mine.new fulls.old fulls.new (λ t. grows t.made) result }
        ensures full { result ≡ Err fault.Full → length self.old.board.entries ≡ max_entries }
        ensures refused { OnErr result ((self.new.board ≡ self.old.board) × (self.new.choices ≡ self.old.choices)) }
    {
        let grant = self.choices.next();
        match self
            .board
            .commit(&mut Heap::new(alloc), loaded, advanced, grant)
        {
            Commit::Committed(events) => {
                self.others.add(mine, 1);
                self.choices.count(loaded, advanced);
                Ok(TicketTurn {
                    next: events.next,
                    stays: false,
                    made: true,
                })
            }
            Commit::Stale => Ok(unmade(alloc, false)),
            Commit::Blocked => Ok(unmade(alloc, true)),
            Commit::Full => {
                self.count_full(fulls, Move::Cancel { serial: 0 });
                Err(TurnFault::Full)
            }
            Commit::OutOfMemory => Err(TurnFault::OutOfMemory),
        }
    }

    /// Cancels an operation, if it can be cancelled.
    pub fn cancel(
        &mut self,
        alloc: Global,
        loaded: &Loaded,
        mine: &mut Share<OtherEntries<N>>,
        fulls: &mut Share<Fulls<N>>,
        serial: u32,
    ) -> Result<TicketTurn, TurnFault>
        requires loaded { AreLoaded N.trees loaded.now }
        requires part { (0 < mine.old.parts) × (0 < fulls.old.parts) }
        ensures cancelled { IfOk result (λ t. IsCancel loaded.now self.old.board self.new.board serial t.made t.stays t.next.items) }
        ensures choices { self.new.choices ≡ self.old.choices }
        ensures entries { IfOk result (λ t. length self.new.board.entries ≡ length self.old.board.entries + grows t.made) }
        ensures counted { IsCounted mine.old mine.new fulls.old fulls.new (λ t. grows t.made) result }
        ensures full { result ≡ Err fault.Full → length self.old.board.entries ≡ max_entries }
        ensures refused { OnErr result (self.new.board ≡ self.old.board) }
    {
        let step = Move::Cancel { serial };
        match self.apply(alloc, loaded, mine, step) {
            Ok(events) => Ok(TicketTurn {
                next: events.next,
                stays: false,
                made: true,
            }),
            Err(ApplyFault::NotEnabled) => Ok(unmade(alloc, false)),
            Err(ApplyFault::Full) => {
                self.count_full(fulls, step);
                Err(TurnFault::Full)
            }
            Err(ApplyFault::OutOfMemory) => Err(TurnFault::OutOfMemory),
        }
    }
}
