//! Steps of activations.

ghost use Rattle.std.specs.Prelude.{◌≡◌, ◌≢◌, ◌↔◌, ◌||◌, not, ◌<◌, ◌≤◌, ◌+◌, ◌++◌, ◌∷◌, [], ℕ, true, false, List, length, set};
ghost use Rattle.std.specs.Prelude.{get_or, IsSome, IsTrue, is_some, if◌then◌else◌, Some, None, OnOk, OnErr, IfOk, IfSome};
ghost use Rattle.flt_machine_calls.specs.Continuing.{leads_on};
ghost use Rattle.flt_machine_calls.specs.Own.{AreOf};
ghost use Rattle.flt_machine_calls.specs.Plans.{TakesNone, is_end};
ghost use Rattle.flt_machine_frames.specs.Firsts.{Remains};
ghost use Rattle.flt_machine_frames.specs.Loading.{AreLoaded};
ghost use Rattle.flt_machine.specs.Calls as spec;
ghost use Rattle.flt_machine.specs.Calls.{IsAdvanced, IsBlocked, IsFresh};
ghost use Rattle.flt_machine.specs.Counted.{IsSmall};
ghost use Rattle.flt_machine.specs.Situations.{IsBoard, IsOwn, Now, standing_of};
ghost use Rattle.flt_machine.specs.Tickets as tickets;
ghost use Rattle.flt_machine.specs.declared.committing.Commit.TheVariants as answer;
ghost use Rattle.flt_machine.specs.declared.events.Events.{Events};
ghost use Rattle.flt_model.specs.declared.moves.JournalEntry.TheVariants.{Go};
ghost use Rattle.flt_model.specs.declared.subject.Subject.TheVariants as subject;
ghost use Rattle.flt_machine_store.specs.Changes.{after_change, IsPossible};
ghost use Rattle.flt_tree.specs.declared.filter.Callback.{Callback};
ghost use Rattle.flt_tree.specs.declared.filter.Filter.{Filter};
ghost use Rattle.flt_tree.specs.declared.filter.Statement.{Statement};
ghost use Rattle.flt_rules.specs.Limits.{max_cost, max_entries};

use crate::active::count_end;
use crate::board::Board;
use crate::events::Events;
use crate::kept::StoredStanding;
use crate::tickets::subjects_by;
use crate::writing::write;
use counted_heap::Heap;
use flt_graph::Instruction;
use flt_machine_calls::{Caller, Plan, Write, continued, plan_step};
use flt_machine_frames::{Advanced, Loaded, Standing, standings_have_points};
use flt_machine_store::Change;
use flt_model::{JournalEntry, Subject};
use flt_rules::{Access, Call, MAX_ENTRIES};
use std::alloc::AllocError;

/// The answer of a commit. After any but `Committed` the board and its journal are unchanged.
#[derive(Drop)]
pub enum Commit {
    /// The steps were made.
    Committed(Events),
    /// The activation isn't in the state that the frame was taken from.
    Stale,
    /// Other activations hold the lock that the step would take, and exclude that.
    Blocked,
    /// There are 1,000,000 entries.
    Full,
    /// A growth was refused.
    OutOfMemory,
}

impl Board {
    /// Makes the local steps of an advance, and the step after them. `grant` is the system's choice, if that step leaves one. The
    /// activation must have been advanced on the same loaded filters.
    pub fn commit(
        &mut self,
        heap: &mut Heap,
        loaded: &Loaded,
        advanced: &Advanced,
        grant: bool,
    ) -> Commit
        requires own { IsOwn loaded.now self.old }
        requires advance { IsAdvanced loaded.now advanced.now }
        ensures own { (p : List Filter) → AreLoaded p loaded.now → IsBoard p self.old → IsBoard p self.new }
        ensures committed { (events : Events) → result ≡ answer.Committed events →
            Now loaded.now self.old (λ p m. spec.Commits p self.old self.new advanced.now grant events.list m) }
        ensures next { (events : Events) → result ≡ answer.Committed events →
            events.next.items ≡ tickets.after_go loaded.now.altitudes self.old.store self.new.store advanced.now.frame.activation
            (is_some (standing_of self.new advanced.now.frame.activation)) }
        ensures few { (events : Events) → result ≡ answer.Committed events → length events.next.items ≤ 2 }
        ensures stale { (result ≡ answer.Stale) ↔ (IsFresh self.old advanced.now → ⊥) }
        ensures blocked { (result ≡ answer.Blocked) ↔ (IsFresh self.old advanced.now × IsBlocked loaded.now self.old advanced.now grant) }
        ensures full { (result ≡ answer.Full) ↔ (IsFresh self.old advanced.now
            × ((IsBlocked loaded.now self.old advanced.now grant → ⊥) × (length self.old.entries ≡ max_entries))) }
        ensures refused { ((events : Events) → result ≢ answer.Committed events) → self.new ≡ self.old }
        ensures granted { result ≢ answer.OutOfMemory → heap.new ≡ heap.old }
        ensures memory { result ≡ answer.OutOfMemory → heap.new ≢ heap.old }
    {
        standings_have_points();
        if !self.is_fresh(advanced) {
            return Commit::Stale;
        }
        let caller = self.caller(advanced);
        let instruction = loaded.instruction(
            caller.filter,
            caller.standing.callback,
            caller.standing.point,
        );
        if self.is_blocked(&caller, instruction) {
            return Commit::Blocked;
        }
        if self.journal.len() >= MAX_ENTRIES {
            return Commit::Full;
        }
        match self.go_on(heap, loaded, advanced, &caller, instruction, grant) {
            Ok(events) => Commit::Committed(events),
            Err(_) => Commit::OutOfMemory,
        }
    }

    /// Whether the activation is in the state that the frame was taken from.
    fn is_fresh(&self, advanced: &Advanced) -> bool
        ensures { IsTrue result ↔ IsFresh self.now advanced.now }
    {
        let activation = advanced.frame.activation as usize;
        let actor = self.actor(activation);
        match self.standing(activation) {
            Some(standing) => {
                standing.is_same(&advanced.frame.standing)
                    && actor.filter == advanced.frame.filter
                    && actor.draining == advanced.frame.draining
            }
            None => false,
        }
    }

    /// The activation as it was advanced.
    fn caller(&self, advanced: &Advanced) -> Caller
        ensures { result ≡ spec.caller_of self.now advanced.now }
    {
        let activation = advanced.frame.activation as usize;
        Caller {
            activation,
            filter: advanced.frame.filter,
            place: self.actor(activation).place,
            standing: advanced.after,
        }
    }

    /// Whether the step would take a lock that others hold, and that excludes it.
    fn is_blocked(&self, caller: &Caller, instruction: Instruction) -> bool
        ensures { result ≡ spec.is_refused_lock self.now.store caller.now instruction }
    {
        let Instruction::Call(made, _, _) = instruction else {
            return false;
        };
        let roles = made.roles();
        let Some(lock) = roles.lock else {
            return false;
        };
        let access = match roles.call {
            Call::AcquireLock(_) => Access::Exclusive,
            Call::AcquirePushLockShared => Access::Shared,
            _ => return false,
        };
        !self
            .store
            .may_take(caller.filter, lock, caller.activation, access)
    }

    /// Makes the steps and adds their entry, or changes nothing.
    fn go_on(
        &mut self,
        heap: &mut Heap,
        loaded: &Loaded,
        advanced: &Advanced,
        caller: &Caller,
        instruction: Instruction,
        grant: bool,
    ) -> Result<Events, AllocError>
        requires own { IsOwn loaded.now self.old }
        requires advance { IsAdvanced loaded.now advanced.now }
        requires fresh { IsFresh self.old advanced.now }
        requires caller { caller.now ≡ spec.caller_of self.old advanced.now }
        requires instruction { instruction ≡ spec.instruction_for loaded.now advanced.now }
        requires free { spec.is_refused_lock self.old.store caller.now instruction ≡ false }
        requires room { length self.old.entries < max_entries }
        ensures committed { IfOk result (λ events.
            Now loaded.now self.old (λ p m. spec.Commits p self.old self.new advanced.now grant events.list m)) }
        ensures next { IfOk result (λ events. events.next.items ≡ tickets.after_go loaded.now.altitudes self.old.store self.new.store
            advanced.now.frame.activation (is_some (standing_of self.new advanced.now.frame.activation))) }
        ensures few { IfOk result (λ events. length events.next.items ≤ 2) }
        ensures refused { OnErr result (self.new ≡ self.old) }
        ensures granted { OnOk result (heap.new ≡ heap.old) }
        ensures memory { OnErr result (heap.new ≢ heap.old) }
    {
        standings_have_points();
        let plan = plan_step(heap, loaded, &self.store, caller, grant)?;
        let later = standing_after(caller, instruction, &plan);
        let going = going(advanced.frame.activation, later.is_some());
        let next = subjects_by(heap, loaded, &self.store, plan.change, going)?;
        self.write_down(heap, entry_of(advanced, instruction, grant), plan.change)?;
        self.put(caller.activation, later);
        Ok(Events {
            list: plan.events,
            next,
        })
    }

    /// Makes a change and adds its entry, or changes nothing.
    fn write_down(
        &mut self,
        heap: &mut Heap,
        entry: JournalEntry,
        change: Change,
    ) -> Result<(), AllocError>
        requires possible { IsPossible self.old.store change }
        requires room { length self.old.entries < max_entries }
        ensures ok { OnOk result (self.new ≡
            record self.old { store = after_change self.old.store change; entries = self.old.entries ++ entry ∷ [] }) }
        ensures refused { OnErr result (self.new ≡ self.old) }
        ensures granted { OnOk result (heap.new ≡ heap.old) }
        ensures memory { OnErr result (heap.new ≢ heap.old) }
    {
        write(heap, &mut self.journal, &mut self.store, entry, change)?;
        Ok(())
    }

    /// Sets how far an activation that hasn't ended has come, or that it has ended.
    fn put(&mut self, activation: usize, later: Option<Standing>)
        requires there { IsSome (standing_of self.old activation) }
        requires small { IfSome later (λ s. IsSmall (length self.old.entries) s) }
        ensures { self.new ≡ record self.old { standings = set self.old.standings activation later } }
    {
        match later {
            Some(standing) => renew(&mut self.standings, activation, standing),
            None => self.end(activation),
        }
    }

    /// Ends an activation.
    fn end(&mut self, activation: usize)
        requires there { IsSome (standing_of self.old activation) }
        ensures { self.new ≡ record self.old { standings = set self.old.standings activation None } }
    {
        let filter = self.actor(activation).filter;
        self.standings[activation] = None;
        count_end(&mut self.active, filter);
    }
}

/// The activation, if it hasn't ended.
fn going(activation: u32, goes: bool) -> Option<Subject>
    ensures { tickets.one_of result ≡ (if goes then subject.Activation activation ∷ [] else []) }
{
    if goes {
        Some(Subject::Activation(activation))
    } else {
        None
    }
}

/// The entry that says what a commit does.
fn entry_of(advanced: &Advanced, instruction: Instruction, grant: bool) -> JournalEntry
    requires { advanced.now.steps ≤ max_cost }
    ensures { result ≡ Go advanced.now.frame.activation (advanced.now.steps + 1) (grant || not (spec.leaves_choice_at instruction)) }
{
    JournalEntry::Go {
        activation: advanced.frame.activation,
        steps: advanced.steps + 1,
        grant: grant || !leaves_choice(instruction),
    }
}

/// How far the caller has come after a plan's step; none if the step ends the activation.
fn standing_after(caller: &Caller, instruction: Instruction, plan: &Plan) -> Option<Standing>
    requires leads { is_end plan.now.write ≡ false → leads_on instruction ≡ true }
    requires free { TakesNone caller.now.standing.locks plan.now.write }
    requires small { IsSmall max_entries caller.now.standing }
    requires few { length plan.now.events ≤ 16 }
    ensures later { (cs : List Callback) (a : ℕ) (rest : List Statement) → Remains cs caller.now.standing rest instruction →
        AreOf a plan.now.events → spec.IsLater cs a caller.now.standing rest plan.now result }
    ensures small { (entries : ℕ) → IsSmall entries caller.now.standing → IfSome result (λ s. IsSmall (entries + 1) s) }
{
    match plan.write {
        Write::End => None,
        _ => Some(continued(&caller.standing, instruction, plan)),
    }
}

/// Replaces the `Standing` of an activation that hasn't ended.
fn renew(standings: &mut Vec<Option<StoredStanding>>, activation: usize, later: Standing)
    requires { IsSome (get_or standings.old.items activation None) }
    ensures { standings.new.items ≡ set standings.old.items activation (Some later) }
{
    if activation < standings.len() {
        if let Some(kept) = &mut standings[activation] {
            kept.set(later);
        }
    }
}

/// Whether the instruction is a call that the system may refuse.
fn leaves_choice(instruction: Instruction) -> bool
    ensures { result ≡ spec.leaves_choice_at instruction }
{
    match instruction {
        Instruction::Call(made, _, _) => matches!(
            made.roles().call,
            Call::AllocateContext | Call::QueueDeferredIoWorkItem | Call::QueueGenericWorkItem
        ),
        _ => false,
    }
}
