//! The core of a running stack, which its lock guards.
ghost use Rattle.std.specs.Prelude.{◌≡◌, ◌↔◌, ◌⊎◌, ◌<◌, ◌+◌, ◌++◌, ◌∷◌, [], true, false, length};
ghost use Rattle.std.specs.Prelude.{Err, Some, None, IfErr, IfOk, IfSome, IsTrue, OnOk, OnErr};
ghost use Rattle.flt_stack_core.specs.Counting.{callers_in, is_callers_move, others_in};
ghost use Rattle.flt_stack_core.specs.Bounds.{IsFull};
ghost use Rattle.flt_stack_core.specs.Receipts.{receipt};
ghost use Rattle.flt_stack_core.specs.Refusals as spec;
ghost use Rattle.flt_stack_core.specs.declared.fault.ArriveFault.TheVariants as arrive_fault;
ghost use Rattle.flt_stack_core.specs.declared.fault.DetachFault.TheVariants as detach_fault;
ghost use Rattle.flt_machine_frames.specs.Loading.{AreLoaded};
ghost use Rattle.flt_machine.specs.Calls.{IsDisabled, IsFullFor, Makes};
ghost use Rattle.flt_machine.specs.Situations as situations;
ghost use Rattle.flt_machine.specs.Situations.{IsBoard, Now};
ghost use Rattle.flt_machine.specs.Tickets as tickets;
ghost use Rattle.flt_machine.specs.declared.fault.ApplyFault.TheVariants as apply_fault;
ghost use Rattle.flt_rules.specs.Place.{fits_mode};
ghost use Rattle.flt_model.specs.Expansion.{IsCleanRun};
ghost use Rattle.flt_model.specs.Moves.{make};
ghost use Rattle.flt_model.specs.Steps.{Make};
ghost use Rattle.flt_model.specs.declared.moves.JournalEntry.TheVariants as journal_entry;
ghost use Rattle.flt_model.specs.declared.moves.Move.TheVariants as moves;
ghost use Rattle.flt_rules.specs.Limits.{max_entries, max_operations};

use crate::choices::Choices;
use crate::fault::{ArriveFault, DetachFault};
use crate::laws::arrivals_are_operations;
use crate::names::{CallerEntries, Fulls, OtherEntries, StackName};
use crate::receipt::Receipt;
use crate::receipts::Receipts;
use counted_heap::Heap;
use flt_machine::{ApplyFault, Board, Events, Loaded, OutOfMemory};
use flt_model::{Journal, Move, Subject};
use flt_rules::{MAX_ENTRIES, MAX_OPERATIONS, Mode, Operation};
use std::alloc::Global;
use std::marker::Model;
use std::sync::ledger::{Book, Share};

/// The value that a stack's lock guards: a board of the filters that N names, the system's choices, the books of the board's entries,
/// and that of refusals for lack of room. Contracts see the board and the choices.
#[derive(Drop)]
pub struct Core<N: StackName> {
    pub(crate) board: Board,
    pub(crate) choices: Choices,
    pub(crate) callers: Book<CallerEntries<N>>,
    pub(crate) others: Book<OtherEntries<N>>,
    pub(crate) fulls: Book<Fulls<N>>,
}

impl<N: StackName> Model for Core<N> {
    ghost use Rattle.std.specs.Prelude.{◌≡◌, ◌<◌};
    ghost use Rattle.flt_stack_core.specs.Counting.{callers_in, others_in};
    ghost use Rattle.flt_stack_core.specs.Guarded.{Guarded};
    ghost use Rattle.flt_machine.specs.Situations.{IsBoard};
    ghost use Rattle.flt_stack_core.specs.Bounds.{IsFull};

    ghost Value = { Guarded };

    ghost view = { λ c. record { board = c.board; choices = c.choices } };

    ghost invariant = { λ c. IsBoard N.trees c.board
        × (c.callers.total ≡ callers_in c.board.entries) × (c.others.total ≡ others_in c.board.entries)
        × (0 < c.fulls.total → IsFull c.board.entries) };
}

impl<N: StackName> Core<N> {
    /// The board before the first move, with no choice made and none refused, and with books in which nothing is counted.
    pub fn new(
        alloc: Global,
        loaded: &Loaded,
        callers: Book<CallerEntries<N>>,
        others: Book<OtherEntries<N>>,
        fulls: Book<Fulls<N>>,
    ) -> Result<Core<N>, OutOfMemory>
        requires loaded { AreLoaded N.trees loaded.now }
        requires callers { callers.total ≡ 0 }
        requires others { others.total ≡ 0 }
        requires fulls { fulls.total ≡ 0 }
        ensures opening { IfOk result (λ core. core.board ≡ situations.opening (length N.trees)) }
        ensures choices { IfOk result (λ core. (core.choices.made ≡ 0) × (core.choices.refused.keys ≡ [])) }
    {
        let board = Board::new(&mut Heap::new(alloc), loaded)?;
        Ok(Core {
            board,
            choices: Choices::new(alloc),
            callers,
            others,
            fulls,
        })
    }

    /// The board. Whenever the core can be looked at, its journal is a run of the machine on the filters that N names, and the board is at
    /// that run's end.
    pub fn board(&self) -> &Board
        ensures same { result.now ≡ self.now.board }
        ensures own { IsBoard N.trees self.now.board }
    {
        &self.board
    }

    /// The journal breaks nothing. It does nothing: its clause is the law.
    pub fn breaks_nothing(&self, loaded: &flt_stack::Loaded)
        requires loaded { loaded.now ≡ N.trees }
        ensures { IsCleanRun N.trees self.now.board.entries }
    {
        loaded.boards_break_nothing(&self.board)
    }

    /// By its clauses, shares that have all parts of a ledger count the journal's entries, and the journal is full if something was refused
    /// for lack of room. It changes nothing.
    pub fn audit(
        &mut self,
        callers: &mut Share<CallerEntries<N>>,
        others: &mut Share<OtherEntries<N>>,
        fulls: &mut Share<Fulls<N>>,
    )
        ensures same { self.new ≡ self.old }
        ensures amounts { (callers.new.amount ≡ callers.old.amount) × (others.new.amount ≡ others.old.amount) }
        ensures parts { (callers.new.parts ≡ callers.old.parts) × (others.new.parts ≡ others.old.parts) }
        ensures callers { callers.old.parts ≡ N.callers_parts → callers.old.amount ≡ callers_in self.old.board.entries }
        ensures others { others.old.parts ≡ N.others_parts → others.old.amount ≡ others_in self.old.board.entries }
        ensures full { 0 < fulls.old.amount → IsFull self.old.board.entries }
    {
        self.callers.audit(callers);
        self.others.audit(others);
        self.fulls.audit(fulls);
    }

    /// Ends the core, and hands out its journal.
    pub fn into_journal(self) -> Journal
        ensures { result ≡ self.board.entries }
    {
        let Core {
            board,
            choices: _,
            callers: _,
            others: _,
            fulls: _,
        } = self;
        board.into_journal()
    }

    // ---- what a caller asks for

    /// An operation arrives at the top of the stack. It answers the operation's serial number. `Operation` of this number is the one
    /// ticket by it.
    pub fn arrive(
        &mut self,
        alloc: Global,
        loaded: &Loaded,
        receipts: &mut Receipts<N>,
        operation: Operation,
        mode: Mode,
        file: u32,
    ) -> Result<u32, ArriveFault>
        requires loaded { AreLoaded N.trees loaded.now }
        requires mode { fits_mode operation mode ≡ true }
        requires file { file < 1024 }
        ensures serial { IfOk result (λ serial. serial ≡ length self.old.board.store.arrivals) }
        ensures entry { OnOk result
            (self.new.board.entries ≡ self.old.board.entries ++ journal_entry.Move (moves.Arrive operation mode file) ∷ []) }
        ensures receipt { IfOk result (λ serial. receipts.new.list.items ≡ receipts.old.list.items
            ++ receipt (length self.old.board.entries) (moves.Arrive operation mode file) (Some serial) ∷ []) }
        ensures share { OnOk result (receipts.new.share.amount ≡ receipts.old.share.amount + 1) }
        ensures parts { receipts.new.share.parts ≡ receipts.old.share.parts }
        ensures full { (result ≡ Err arrive_fault.Full)
            ↔ ((length self.old.board.entries ≡ max_entries) ⊎ (length self.old.board.store.arrivals ≡ max_operations)) }
        ensures choices { self.new.choices ≡ self.old.choices }
        ensures refused { OnErr result ((self.new ≡ self.old) × (receipts.new.list.items ≡ receipts.old.list.items)
            × (receipts.new.share.amount ≡ receipts.old.share.amount)) }
    {
        let serial = self.board.operations() as u32;
        let step = Move::Arrive {
            operation,
            mode,
            file,
        };
        match self.make(alloc, loaded, receipts, step, Some(serial)) {
            Ok(()) => Ok(serial),
            Err(ApplyFault::NotEnabled) => unreachable!(),
            Err(ApplyFault::Full) => Err(ArriveFault::Full),
            Err(ApplyFault::OutOfMemory) => Err(ArriveFault::OutOfMemory),
        }
    }

    /// The teardown of the filter at an altitude begins. Its tickets are those that `tickets` names.
    pub fn detach(
        &mut self,
        alloc: Global,
        loaded: &Loaded,
        receipts: &mut Receipts<N>,
        altitude: u32,
    ) -> Result<(), DetachFault>
        requires loaded { AreLoaded N.trees loaded.now }
        ensures entry { OnOk result (self.new.board.entries ≡ self.old.board.entries ++ journal_entry.Move (moves.Detach altitude) ∷ []) }
        ensures receipt { OnOk result (receipts.new.list.items ≡ receipts.old.list.items
            ++ receipt (length self.old.board.entries) (moves.Detach altitude) None ∷ []) }
        ensures share { OnOk result (receipts.new.share.amount ≡ receipts.old.share.amount + 1) }
        ensures parts { receipts.new.share.parts ≡ receipts.old.share.parts }
        ensures fault { IfSome (spec.detach_fault N.trees self.old.board altitude) (λ fault. result ≡ Err fault) }
        ensures memory { spec.detach_fault N.trees self.old.board altitude ≡ None →
            IfErr result (λ fault. fault ≡ detach_fault.OutOfMemory) }
        ensures choices { self.new.choices ≡ self.old.choices }
        ensures refused { OnErr result ((self.new ≡ self.old) × (receipts.new.list.items ≡ receipts.old.list.items)
            × (receipts.new.share.amount ≡ receipts.old.share.amount)) }
    {
        if let Some(fault) = self.detach_fault(loaded, altitude) {
            return Err(fault);
        }
        match self.make(alloc, loaded, receipts, Move::Detach { altitude }, None) {
            Ok(()) => Ok(()),
            Err(ApplyFault::NotEnabled) => unreachable!(),
            Err(ApplyFault::Full) => unreachable!(),
            Err(ApplyFault::OutOfMemory) => Err(DetachFault::OutOfMemory),
        }
    }

    /// Why the teardown of the filter at an altitude can't begin; none if only memory can refuse it.
    pub fn detach_fault(&self, loaded: &Loaded, altitude: u32) -> Option<DetachFault>
        requires loaded { AreLoaded N.trees loaded.now }
        ensures fault { result ≡ spec.detach_fault N.trees self.now.board altitude }
        ensures enabled { result ≡ None → IsDisabled loaded.now self.now.board (moves.Detach altitude) → ⊥ }
    {
        let entries = self.board().journal().len();
        if loaded.number(altitude) >= loaded.filters() {
            return Some(DetachFault::NoSuch);
        }
        if !self.is_enabled(loaded, Move::Detach { altitude }) {
            return Some(DetachFault::Already);
        }
        if entries == MAX_ENTRIES {
            return Some(DetachFault::Full);
        }
        None
    }

    /// Makes a move that a caller asks for, and gives its receipt.
    fn make(
        &mut self,
        alloc: Global,
        loaded: &Loaded,
        receipts: &mut Receipts<N>,
        step: Move,
        answer: Option<u32>,
    ) -> Result<(), ApplyFault>
        requires loaded { AreLoaded N.trees loaded.now }
        requires callers { is_callers_move step ≡ true }
        ensures entry { OnOk result (self.new.board.entries ≡ self.old.board.entries ++ journal_entry.Move step ∷ []) }
        ensures receipt { OnOk result (receipts.new.list.items ≡ receipts.old.list.items
            ++ receipt (length self.old.board.entries) step answer ∷ []) }
        ensures share { OnOk result (receipts.new.share.amount ≡ receipts.old.share.amount + 1) }
        ensures parts { receipts.new.share.parts ≡ receipts.old.share.parts }
        ensures disabled { (result ≡ Err apply_fault.NotEnabled) ↔ IsDisabled loaded.now self.old.board step }
        ensures full { (result ≡ Err apply_fault.Full) ↔ ((IsDisabled loaded.now self.old.board step → ⊥) × IsFullFor self.old.board step) }
        ensures choices { self.new.choices ≡ self.old.choices }
        ensures refused { OnErr result ((self.new ≡ self.old) × (receipts.new.list.items ≡ receipts.old.list.items)
            × (receipts.new.share.amount ≡ receipts.old.share.amount)) }
    {
        if !self.is_enabled(loaded, step) {
            return Err(ApplyFault::NotEnabled);
        }
        if self.is_full_for(step) {
            return Err(ApplyFault::Full);
        }
        let number = self.board.journal().len();
        receipts.list.reserve(1)?;
        self.apply_callers(alloc, loaded, &mut receipts.share, step)?;
        receipts.list.push_reserved(Receipt {
            number,
            entry: step,
            answer,
        });
        Ok(())
    }

    /// Makes a move that a caller asks for, and counts it.
    #[tactic(auto, using(crate::proofs::Counted::callers_in_more, crate::proofs::Counted::others_in_more))]
    fn apply_callers(
        &mut self,
        alloc: Global,
        loaded: &Loaded,
        mine: &mut Share<CallerEntries<N>>,
        step: Move,
    ) -> Result<(), ApplyFault>
        requires loaded { AreLoaded N.trees loaded.now }
        requires part { 0 < mine.old.parts }
        requires callers { is_callers_move step ≡ true }
        ensures entry { OnOk result (self.new.board.entries ≡ self.old.board.entries ++ journal_entry.Move step ∷ []) }
        ensures share { OnOk result (mine.new.amount ≡ mine.old.amount + 1) }
        ensures parts { mine.new.parts ≡ mine.old.parts }
        ensures disabled { (result ≡ Err apply_fault.NotEnabled) ↔ IsDisabled loaded.now self.old.board step }
        ensures full { (result ≡ Err apply_fault.Full) ↔ ((IsDisabled loaded.now self.old.board step → ⊥) × IsFullFor self.old.board step) }
        ensures choices { self.new.choices ≡ self.old.choices }
        ensures refused { OnErr result ((self.new ≡ self.old) × (mine.new.amount ≡ mine.old.amount)) }
    {
        arrivals_are_operations();
        self.board.apply(&mut Heap::new(alloc), loaded, step)?;
        self.callers.add(mine, 1);
        Ok(())
    }

    // ---- what workers do

    /// Makes a move that no caller asks for, and counts it in a worker's share.
    #[tactic(auto, using(crate::proofs::Counted::callers_in_more, crate::proofs::Counted::others_in_more))]
    pub(crate) fn apply(
        &mut self,
        alloc: Global,
        loaded: &Loaded,
        mine: &mut Share<OtherEntries<N>>,
        step: Move,
    ) -> Result<Events, ApplyFault>
        requires loaded { AreLoaded N.trees loaded.now }
        requires part { 0 < mine.old.parts }
        requires others { is_callers_move step ≡ false }
        ensures made { IfOk result (λ events. Now loaded.now self.old.board (λ p m. Makes p self.new.board [] (Make step) events.list m)) }
        ensures entry { OnOk result (self.new.board.entries ≡ self.old.board.entries ++ journal_entry.Move step ∷ []) }
        ensures next { IfOk result
            (λ events. events.next.items ≡ tickets.after_move loaded.now.altitudes self.old.board.store self.new.board.store
            (length self.old.board.standings) (length self.new.board.standings)) }
        ensures share { OnOk result (mine.new.amount ≡ mine.old.amount + 1) }
        ensures parts { mine.new.parts ≡ mine.old.parts }
        ensures disabled { (result ≡ Err apply_fault.NotEnabled) ↔ IsDisabled loaded.now self.old.board step }
        ensures full { (result ≡ Err apply_fault.Full) ↔ ((IsDisabled loaded.now self.old.board step → ⊥) × IsFullFor self.old.board step) }
        ensures choices { self.new.choices ≡ self.old.choices }
        ensures refused { OnErr result ((self.new ≡ self.old) × (mine.new.amount ≡ mine.old.amount)) }
    {
        let events = self.board.apply(&mut Heap::new(alloc), loaded, step)?;
        self.others.add(mine, 1);
        Ok(events)
    }

    // ---- what is refused

    /// A move is refused, since there is no room for it, and this is counted. Nothing else changes.
    pub fn count_full(&mut self, fulls: &mut Share<Fulls<N>>, step: Move)
        requires part { 0 < fulls.old.parts }
        requires full { IsFullFor self.old.board step }
        ensures same { self.new ≡ self.old }
        ensures amount { fulls.new.amount ≡ fulls.old.amount + 1 }
        ensures parts { fulls.new.parts ≡ fulls.old.parts }
    {
        arrivals_are_operations();
        self.fulls.add(fulls, 1);
    }

    // ---- what is tested first

    /// Whether a move is enabled.
    fn is_enabled(&self, loaded: &Loaded, step: Move) -> bool
        requires loaded { AreLoaded N.trees loaded.now }
        ensures { (result ≡ false) ↔ IsDisabled loaded.now self.now.board step }
    {
        self.board.enabled(loaded, step)
    }

    /// The subjects that would get a ticket by a move. It is empty if the move isn't enabled.
    pub fn tickets(
        &self,
        alloc: Global,
        loaded: &Loaded,
        step: Move,
    ) -> Result<Vec<Subject>, OutOfMemory>
        requires loaded { AreLoaded N.trees loaded.now }
        ensures { IfOk result (λ next. Now loaded.now self.now.board
            (λ p m. next.items ≡ tickets.by_move loaded.now.altitudes m.world (make p m.world step))) }
    {
        self.board.tickets(&mut Heap::new(alloc), loaded, step)
    }

    /// Whether there are as many entries as may be, or as many operations if one more arrives.
    pub fn is_full_for(&self, step: Move) -> bool
        ensures { IsTrue result ↔ IsFullFor self.now.board step }
    {
        self.board.journal().len() == MAX_ENTRIES
            || (matches!(step, Move::Arrive { .. }) && self.board.operations() == MAX_OPERATIONS)
    }
}
