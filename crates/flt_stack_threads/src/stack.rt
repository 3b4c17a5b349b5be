//! The stack, and the calls on it.
ghost use Rattle.std.specs.Prelude.{◌≡◌, ◌≢◌, ◌↔◌, ◌⊎◌, ◌+◌, ◌<◌, ◌≤◌, ◌++◌, ◌∷◌, [], ℕ, true, false, All, Err, IfErr};
ghost use Rattle.std.specs.Prelude.{IfOk, IsPermutation, IsTrue, List, MatchResult, OnErr, OnOk, length, map, sum_by};
ghost use Rattle.flt_cancel.specs.Serials.{IsPresent};
ghost use Rattle.flt_cancel.specs.Steps.{IsNext, words_after};
ghost use Rattle.flt_cancel.specs.declared.step.Step.TheVariants.{Ask};
ghost use Rattle.flt_stack_core.specs.Counting.{callers_in, others_in};
ghost use Rattle.flt_stack_core.specs.Refusals.{has_altitude};
ghost use Rattle.flt_stack_core.specs.declared.fault.ArriveFault.TheVariants as arrive_fault;
ghost use Rattle.flt_stack_core.specs.declared.fault.DetachFault.TheVariants as detach_fault;
ghost use Rattle.flt_machine_frames.specs.Loading.{AreLoaded};
ghost use Rattle.flt_rules.specs.Place.{fits_mode};
ghost use Rattle.flt_model.specs.Expansion.{IsCleanRun};
ghost use Rattle.flt_model.specs.declared.moves.Move.TheVariants as moves;
ghost use Rattle.flt_model.specs.declared.subject.Subject.{Subject};
ghost use Rattle.flt_model.specs.declared.subject.Subject.TheVariants as ticket;
ghost use Rattle.flt_pool.specs.Hands.{having_put};
ghost use Rattle.flt_stack_core.specs.Bounds.{IsFull};
ghost use Rattle.flt_stack_core.specs.Receipts.{receipt, receipts_in, together};
ghost use Rattle.flt_stack_threads.specs.Asking.{HasCalled};
ghost use Rattle.flt_stack_threads.specs.Places.{IsCallerOf, IsFreshCaller, IsFreshWorker, IsWorkerOf, asked_by, put_by};
ghost use Rattle.flt_rules.specs.Limits.{max_operations};

use crate::asking::{arrive_on, detach_on, refuse_on};
use crate::ending::{Differ, agrees, merge_callers, merge_workers};
use crate::opening::seats;
use crate::seats::{CallerSeat, WorkerSeat};
use crate::{Exchange, OutOfMemory};
use flt_model::Journal;
use flt_rules::{Mode, Operation};
use flt_stack::Loaded;
use flt_stack_core::{
    ArriveFault, CallerEntries, Core, DetachFault, Fulls, OtherEntries, StackName,
};
use std::alloc::Global;
use std::sync::ledger::{Blank, Book, Share};
use std::sync::{Mutex, Wait};

/// Shares without a part, to which the end adds those of all seats.
#[derive(Drop)]
pub(crate) struct Spare<N: StackName> {
    pub(crate) callers: Share<CallerEntries<N>>,
    pub(crate) others: Share<OtherEntries<N>>,
    pub(crate) fulls: Share<Fulls<N>>,
    pub(crate) ghost no_callers: { callers.parts ≡ 0 },
    pub(crate) ghost no_others: { others.parts ≡ 0 },
    pub(crate) ghost callers_none: { callers.amount ≡ 0 },
    pub(crate) ghost others_none: { others.amount ≡ 0 },
    pub(crate) ghost fulls_none: { fulls.amount ≡ 0 },
}

/// The blanks of a stack's three ledgers: of the callers' entries, of the others, and of refusals for lack of room.
#[derive(Drop)]
pub struct Blanks {
    pub callers: Blank,
    pub others: Blank,
    pub fulls: Blank,
}

/// A stack: the loaded filters, a board of them guarded by a lock, and the exchange where callers and workers meet. Threads share it.
#[derive(Drop)]
pub struct Stack<N: StackName> {
    pub(crate) loaded: Loaded,
    pub(crate) exchange: Exchange,
    pub(crate) core: Mutex<Core<N>>,
    /// Nobody takes this lock. It exists so that threads may share the stack.
    pub(crate) spare: Mutex<Spare<N>>,
    pub(crate) ghost named: { loaded ≡ N.trees },
}

impl<N: StackName> Stack<N> {
    /// A stack on the loaded filters before the first move, with a seat for each caller and one for each worker. Each blank is cut into as
    /// many parts as there are seats that hold a share of its ledger: the callers', the workers', and all.
    pub fn open(
        alloc: Global,
        loaded: Loaded,
        blanks: Blanks,
        callers: usize,
        workers: usize,
    ) -> Result<(Stack<N>, Vec<CallerSeat<N>>, Vec<WorkerSeat<N>>), OutOfMemory>
        requires filters { loaded ≡ N.trees }
        requires callers { (1 ≤ callers) × (callers ≤ 16) }
        requires workers { (1 ≤ workers) × (workers ≤ 16) }
        requires callers_name { blanks.callers.name ≡ N.callers_name }
        requires callers_parts { (blanks.callers.parts ≡ N.callers_parts) × (N.callers_parts ≡ callers) }
        requires others_name { blanks.others.name ≡ N.others_name }
        requires others_parts { (blanks.others.parts ≡ N.others_parts) × (N.others_parts ≡ workers) }
        requires fulls_name { blanks.fulls.name ≡ N.fulls_name }
        requires fulls_parts { (blanks.fulls.parts ≡ N.fulls_parts) × (N.fulls_parts ≡ callers + workers) }
        ensures counts { IfOk result (λ opened. (length opened.1.items ≡ callers) × (length opened.2.items ≡ workers)) }
        ensures callers { IfOk result (λ opened. All (λ seat. IsCallerOf opened.0.exchange seat.place × IsFreshCaller seat.place)
            opened.1.items) }
        ensures receipts { IfOk result (λ opened. All (λ seat. seat.receipts.list.items ≡ []) opened.1.items) }
        ensures callers_shares { IfOk result (λ opened. All (λ seat. (seat.receipts.share.parts ≡ 1) × (seat.receipts.share.amount ≡ 0))
            opened.1.items) }
        ensures workers { IfOk result (λ opened. All (λ seat. IsWorkerOf opened.0.exchange seat.place × IsFreshWorker seat.place)
            opened.2.items) }
        ensures others_shares { IfOk result (λ opened. All (λ seat. (seat.share.parts ≡ 1) × (seat.share.amount ≡ 0)) opened.2.items) }
        ensures callers_fulls { IfOk result (λ opened. All (λ seat. (seat.fulls.parts ≡ 1) × (seat.fulls.amount ≡ 0)) opened.1.items) }
        ensures workers_fulls { IfOk result (λ opened. All (λ seat. (seat.fulls.parts ≡ 1) × (seat.fulls.amount ≡ 0)) opened.2.items) }
    {
        let Blanks {
            callers: callers_blank,
            others: others_blank,
            fulls: fulls_blank,
        } = blanks;
        let (callers_book, mut callers_share) = callers_blank.open::<CallerEntries<N>>();
        let (others_book, mut others_share) = others_blank.open::<OtherEntries<N>>();
        let (fulls_book, mut fulls_share) = fulls_blank.open::<Fulls<N>>();
        let (exchange, caller_seats, worker_seats) = seats(
            alloc,
            callers,
            workers,
            &mut callers_share,
            &mut others_share,
            &mut fulls_share,
        )?;
        let spare = Spare {
            callers: callers_share,
            others: others_share,
            fulls: fulls_share,
        };
        let core = Core::<N>::new(
            alloc,
            loaded.machine(),
            callers_book,
            others_book,
            fulls_book,
        )?;
        let stack = Stack::on(loaded, exchange, core, spare);
        Ok((stack, caller_seats, worker_seats))
    }

    /// A stack on the loaded filters, with this core.
    fn on(loaded: Loaded, exchange: Exchange, core: Core<N>, spare: Spare<N>) -> Stack<N>
        requires filters { loaded ≡ N.trees }
        ensures exchange { result.exchange ≡ exchange }
    {
        Stack {
            loaded,
            exchange,
            core: Mutex::new(core),
            spare: Mutex::new(spare),
        }
    }

    /// The loaded filters that a board is lent.
    pub(crate) fn machine(&self) -> &flt_machine::Loaded
        ensures { AreLoaded N.trees result.now }
    {
        self.loaded.machine()
    }

    // ---- what callers do

    /// An operation arrives at the top of the stack. It answers the operation's serial number, and its ticket waits for a worker.
    ///
    /// # Errors
    ///
    /// There are 1,000,000 entries or 65,536 operations, or a growth was refused. If that was after the ticket had been put, the ticket
    /// stays until a worker takes it, and leads to no move.
    pub fn arrive<R: Wait>(
        &self,
        rt: &R,
        alloc: Global,
        seat: &mut CallerSeat<N>,
        operation: Operation,
        mode: Mode,
        file: u32,
    ) -> Result<u32, ArriveFault>
        requires seat { IsCallerOf self.now.exchange seat.old.place }
        requires mode { fits_mode operation mode ≡ true }
        requires file { file < 1024 }
        ensures called { HasCalled self.now.exchange seat.old seat.new arrive_fault.Full result }
        ensures receipt { IfOk result (λ serial. (number : ℕ) × (seat.new.receipts.list.items
            ≡ seat.old.receipts.list.items ++ receipt number (moves.Arrive operation mode file) (Some serial) ∷ [])) }
        ensures ticket { IfOk result (λ serial. put_by seat.new.place ≡ having_put (ticket.Operation serial) (put_by seat.old.place)) }
    {
        let machine = self.machine();
        let mut core = self.core.lock(rt);
        arrive_on(
            rt,
            alloc,
            &self.exchange,
            machine,
            &mut *core,
            seat,
            operation,
            mode,
            file,
        )
    }

    /// The teardown of the filter at an altitude begins. Its tickets wait for a worker.
    ///
    /// # Errors
    ///
    /// The first of these: no filter has the altitude; its teardown has begun before; there are 1,000,000 entries; a growth was refused. If
    /// that was after tickets had been put, these stay until a worker takes them, and lead to no move.
    pub fn detach<R: Wait>(
        &self,
        rt: &R,
        alloc: Global,
        seat: &mut CallerSeat<N>,
        altitude: u32,
    ) -> Result<(), DetachFault>
        requires { IsCallerOf self.now.exchange seat.old.place }
        ensures called { HasCalled self.now.exchange seat.old seat.new detach_fault.Full result }
        ensures receipt { OnOk result ((number : ℕ) × (seat.new.receipts.list.items
            ≡ seat.old.receipts.list.items ++ receipt number (moves.Detach altitude) None ∷ [])) }
        ensures tickets { (more : List Subject) × ((put_by seat.new.place).put ≡ (put_by seat.old.place).put ++ more) }
        ensures nothing { (result ≡ Err detach_fault.NoSuch) ⊎ ((result ≡ Err detach_fault.Already) ⊎ (result ≡ Err detach_fault.Full)) →
            put_by seat.new.place ≡ put_by seat.old.place }
        ensures no_such { (result ≡ Err detach_fault.NoSuch) ↔ (has_altitude N.trees altitude ≡ false) }
    {
        let machine = self.machine();
        let mut core = self.core.lock(rt);
        detach_on(
            rt,
            alloc,
            &self.exchange,
            machine,
            &mut *core,
            seat,
            altitude,
        )
    }

    /// Requests that an operation be cancelled, by its serial number, whether it has arrived or not. It waits for nobody, takes no memory
    /// and is never refused. The operation is cancelled once a worker collects the request, if it can be then.
    pub fn cancel(&self, seat: &mut CallerSeat<N>, serial: u32)
        requires serial { serial < max_operations }
        requires seat { IsCallerOf self.now.exchange seat.old.place }
        ensures seat { IsCallerOf self.now.exchange seat.new.place }
        ensures asked { (asked_by seat.new.place).asked ≡ (asked_by seat.old.place).asked ++ serial ∷ [] }
        ensures collected { (asked_by seat.new.place).collected ≡ (asked_by seat.old.place).collected }
        ensures step { (by : ℕ) × IsNext by (Ask by serial) (asked_by seat.old.place).seen (asked_by seat.new.place).seen }
        ensures present { IsPresent (words_after (asked_by seat.new.place).seen) serial }
        ensures tickets { put_by seat.new.place ≡ put_by seat.old.place }
        ensures receipts { seat.new.receipts ≡ seat.old.receipts }
        ensures fulls { seat.new.fulls ≡ seat.old.fulls }
    {
        self.exchange.ask(&mut seat.place, serial);
    }

    /// From now on the system's choice of this number, counted from 0, is answered no, if it is still to come.
    pub fn refuse<R: Wait>(&self, rt: &R, choice: u64) -> Result<(), OutOfMemory> {
        refuse_on(&mut self.core.lock(rt), choice)
    }

    // ---- the end

    /// Ends the stack, and returns its journal. If all seats come back that `open` gave, the journal has as many entries of callers, and of
    /// others, as their shares say together. If a call of one of the seats was refused for lack of room, the journal is full.
    ///
    /// # Errors
    ///
    /// The callers' receipts together aren't those of the journal, each once.
    pub fn finish(
        self,
        callers: Vec<CallerSeat<N>>,
        workers: Vec<WorkerSeat<N>>,
    ) -> Result<Journal, Differ>
        ensures clean { MatchResult result (λ journal. IsCleanRun N.trees journal) (λ differ. IsCleanRun N.trees differ.0) }
        ensures callers { sum_by (λ seat. seat.receipts.share.parts) callers.items ≡ N.callers_parts → MatchResult result
            (λ journal. callers_in journal ≡ sum_by (λ seat. seat.receipts.share.amount) callers.items)
            (λ differ. callers_in differ.0 ≡ sum_by (λ seat. seat.receipts.share.amount) callers.items) }
        ensures others { sum_by (λ seat. seat.share.parts) workers.items ≡ N.others_parts → MatchResult result
            (λ journal. others_in journal ≡ sum_by (λ seat. seat.share.amount) workers.items)
            (λ differ. others_in differ.0 ≡ sum_by (λ seat. seat.share.amount) workers.items) }
        ensures full { 0 < sum_by (λ seat. seat.fulls.amount) callers.items + sum_by (λ seat. seat.fulls.amount) workers.items →
            MatchResult result (λ journal. IsFull journal) (λ differ. IsFull differ.0) }
        ensures agree { IfOk result (λ journal.
            IsPermutation (receipts_in journal) (together (map (λ seat. seat.receipts.list.items) callers.items))) }
        ensures differ { IfErr result (λ differ.
            IsPermutation (receipts_in differ.0) (together (map (λ seat. seat.receipts.list.items) callers.items)) → ⊥) }
    {
        let (journal, same) = self.end(callers, workers);
        if same {
            return Ok(journal);
        }
        Err(Differ(journal))
    }

    /// The journal, and whether the callers' receipts together are the journal's.
    fn end(self, callers: Vec<CallerSeat<N>>, workers: Vec<WorkerSeat<N>>) -> (Journal, bool)
        ensures clean { IsCleanRun N.trees result.0 }
        ensures callers { sum_by (λ seat. seat.receipts.share.parts) callers.items ≡ N.callers_parts
            → callers_in result.0 ≡ sum_by (λ seat. seat.receipts.share.amount) callers.items }
        ensures others { sum_by (λ seat. seat.share.parts) workers.items ≡ N.others_parts
            → others_in result.0 ≡ sum_by (λ seat. seat.share.amount) workers.items }
        ensures full { 0 < sum_by (λ seat. seat.fulls.amount) callers.items + sum_by (λ seat. seat.fulls.amount) workers.items →
            IsFull result.0 }
        ensures agree { IsTrue result.1
            ↔ IsPermutation (receipts_in result.0) (together (map (λ seat. seat.receipts.list.items) callers.items)) }
    {
        let Stack {
            loaded,
            exchange: _,
            core,
            spare,
        } = self;
        let Spare {
            callers: mut callers_share,
            others: mut others_share,
            fulls: mut fulls_share,
        } = spare.into_inner();
        let mut core = core.into_inner();
        let same = agrees(&core, callers.as_slice());
        merge_callers(&mut callers_share, &mut fulls_share, callers);
        merge_workers(&mut others_share, &mut fulls_share, workers);
        core.audit(&mut callers_share, &mut others_share, &mut fulls_share);
        core.breaks_nothing(&loaded);
        (core.into_journal(), same)
    }
}
