//! Moves.

ghost use Rattle.std.specs.Prelude.{◌≡◌, ◌≢◌, ◌↔◌, ◌<◌, ◌≤◌, ◌+◌, ◌++◌, ◌∷◌, [], false, List, length};
ghost use Rattle.std.specs.Prelude.{Some, Err, is_some, IsTrue, IfOk, IfSome, OnOk, OnErr};
ghost use Rattle.flt_machine_dispatch.specs.Decisions.{IsActive, actors_by, frees_by, gains_by, is_cancelling};
ghost use Rattle.flt_machine_dispatch.specs.Turns as turns;
ghost use Rattle.flt_machine_frames.specs.Loading.{AreLoaded};
ghost use Rattle.flt_machine.specs.Calls as spec;
ghost use Rattle.flt_machine.specs.Calls.{IsDisabled, IsFullFor};
ghost use Rattle.flt_machine.specs.Moving.{Begins, HasMoved};
ghost use Rattle.flt_machine.specs.Situations.{IsBoard, IsOwn, Now};
ghost use Rattle.flt_machine.specs.Tickets as tickets;
ghost use Rattle.flt_machine.specs.declared.fault.ApplyFault.TheVariants as fault;
ghost use Rattle.flt_model.specs.Moves.{make};
ghost use Rattle.flt_model.specs.Program.{filter_of};
ghost use Rattle.flt_model.specs.Steps.{Make};
ghost use Rattle.flt_model.specs.World.{is_detaching, presence_at};
ghost use Rattle.flt_model.specs.declared.moves.JournalEntry.TheVariants as journal_entry;
ghost use Rattle.flt_model.specs.declared.subject.Subject.TheVariants as subject;
ghost use Rattle.flt_machine_store.specs.Changes.{after_change, cancels_entries, IsPossible};
ghost use Rattle.flt_tree.specs.declared.filter.Filter.{Filter};
ghost use Rattle.flt_rules.specs.Limits.{max_entries};

use crate::active::{count_start, make_room};
use crate::actor::Actor;
use crate::board::Board;
use crate::events::{Events, events_of};
use crate::fault::ApplyFault;
use crate::kept::StoredStanding;
use crate::tickets::subjects_by;
use crate::writing::write;
use counted_heap::Heap;
use flt_machine_dispatch::{Decision, Start, decide};
use flt_machine_frames::{Loaded, Standing};
use flt_model::{JournalEntry, Move, Subject};
use flt_rules::{MAX_ENTRIES, MAX_OPERATIONS};
use std::alloc::AllocError;

impl Board {
    /// Makes a move.
    pub fn apply(
        &mut self,
        heap: &mut Heap,
        loaded: &Loaded,
        step: Move,
    ) -> Result<Events, ApplyFault>
        requires own { IsOwn loaded.now self.old }
        ensures own { (p : List Filter) → AreLoaded p loaded.now → IsBoard p self.old → IsBoard p self.new }
        ensures made { IfOk result (λ events. Now loaded.now self.old (λ p m. spec.Makes p self.new [] (Make step) events.list m)) }
        ensures next { IfOk result (λ events. events.next.items ≡ tickets.after_move loaded.now.altitudes self.old.store self.new.store
            (length self.old.standings) (length self.new.standings)) }
        ensures few { is_cancelling step ≡ false → IfOk result (λ events. length events.next.items ≤ 2) }
        ensures written { IfOk result (λ events. self.new.entries ≡ self.old.entries ++ journal_entry.Move step ∷ []) }
        ensures disabled { (result ≡ Err fault.NotEnabled) ↔ IsDisabled loaded.now self.old step }
        ensures full { (result ≡ Err fault.Full) ↔ ((IsDisabled loaded.now self.old step → ⊥) × IsFullFor self.old step) }
        ensures refused { OnErr result (self.new ≡ self.old) }
        ensures granted { result ≢ Err fault.OutOfMemory → heap.new ≡ heap.old }
        ensures memory { result ≡ Err fault.OutOfMemory → heap.new ≢ heap.old }
    {
        let active = self.is_active_for(loaded, step);
        let Some(decision) = decide(loaded, &self.store, step, active) else {
            return Err(ApplyFault::NotEnabled);
        };
        if self.is_full_for(step) {
            return Err(ApplyFault::Full);
        }
        let events = self.make(heap, loaded, step, &decision)?;
        Ok(events)
    }

    /// Whether a move is enabled.
    pub fn enabled(&self, loaded: &Loaded, step: Move) -> bool
        requires own { IsOwn loaded.now self.now }
        ensures { Now loaded.now self.now (λ p m. result ≡ is_some (make p m.world step)) }
    {
        decide(loaded, &self.store, step, self.is_active_for(loaded, step)).is_some()
    }

    /// The subjects that would get a ticket by a move: the `next` that `apply` gives. It is empty if the move isn't enabled.
    pub fn tickets(
        &self,
        heap: &mut Heap,
        loaded: &Loaded,
        step: Move,
    ) -> Result<Vec<Subject>, AllocError>
        requires own { IsOwn loaded.now self.now }
        ensures next { IfOk result (λ next. Now loaded.now self.now
            (λ p m. next.items ≡ tickets.by_move loaded.now.altitudes m.world (make p m.world step))) }
        ensures few { is_cancelling step ≡ false → IfOk result (λ next. length next.items ≤ 2) }
        ensures granted { OnOk result (heap.new ≡ heap.old) }
        ensures memory { OnErr result (heap.new ≢ heap.old) }
    {
        let active = self.is_active_for(loaded, step);
        let Some(decision) = decide(loaded, &self.store, step, active) else {
            return Ok(Vec::new(heap.alloc()));
        };
        if let Move::Arrive { .. } = step {
            let mut next = Vec::new(heap.alloc());
            heap.push(
                &mut next,
                Subject::Operation(self.store.operations() as u32),
            )?;
            return Ok(next);
        }
        let next = subjects_by(
            heap,
            loaded,
            &self.store,
            decision.change,
            self.starting(&decision),
        )?;
        Ok(next)
    }

    /// The activation that a move starts.
    fn starting(&self, decision: &Decision) -> Option<Subject>
        ensures { tickets.newcomer subject.Activation (length self.now.standings)
            (length self.now.standings + length (actors_by decision.now.start)) ≡ tickets.one_of result }
    {
        match decision.start {
            Some(_) => Some(Subject::Activation(self.standings.len() as u32)),
            None => None,
        }
    }

    /// The enabled one of an operation's own moves: pre, skip, lower or post.
    pub fn next_move(&self, loaded: &Loaded, serial: u32) -> Option<Move>
        requires own { IsOwn loaded.now self.now }
        ensures next { Now loaded.now self.now (λ p m. result ≡ turns.next_of p m.world serial) }
        ensures few { IfSome result (λ step. is_cancelling step ≡ false) }
    {
        flt_machine_dispatch::next_of(loaded, &self.store, serial)
    }

    /// The move of the teardown of the filter at an altitude; none if it isn't being detached, or if only its activations are left.
    pub fn next_detach(&self, loaded: &Loaded, altitude: u32) -> Option<Move>
        requires own { IsOwn loaded.now self.now }
        ensures next { Now loaded.now self.now (λ p m. turns.ComesNextOf p m.world altitude result) }
        ensures few { IfSome result (λ step. is_cancelling step ≡ false) }
    {
        let active = self.has_active(loaded.number(altitude));
        flt_machine_dispatch::next_of_teardown(loaded, &self.store, altitude, active)
    }

    /// Whether the filter at an altitude is being detached: its teardown has begun and not ended. False if no filter has that altitude.
    pub fn is_detaching(&self, loaded: &Loaded, altitude: u32) -> bool
        requires own { IsOwn loaded.now self.now }
        ensures { Now loaded.now self.now (λ p m. result ≡ is_detaching (presence_at m.world.store (filter_of p altitude))) }
    {
        self.store.is_detaching(loaded.number(altitude))
    }

    /// Whether a move ends the teardown of a filter with an activation that hasn't ended.
    fn is_active_for(&self, loaded: &Loaded, step: Move) -> bool
        ensures { Now loaded.now self.now (λ p m. IsActive p step result m.world.actors m.world.activations) }
    {
        match step {
            Move::Detached { altitude } => self.has_active(loaded.number(altitude)),
            _ => false,
        }
    }

    fn is_full_for(&self, step: Move) -> bool
        ensures { IsTrue result ↔ IsFullFor self.now step }
    {
        self.journal.len() >= MAX_ENTRIES
            || (matches!(step, Move::Arrive { .. }) && self.store.operations() >= MAX_OPERATIONS)
    }

    /// Carries a decision out and adds its entry, or changes nothing.
    fn make(
        &mut self,
        heap: &mut Heap,
        loaded: &Loaded,
        step: Move,
        decision: &Decision,
    ) -> Result<Events, AllocError>
        requires room { length self.old.entries < max_entries }
        requires possible { IsPossible self.old.store decision.now.change }
        ensures events { IfOk result (λ events.
            events.list ≡ gains_by (length self.old.standings) decision.now.start ++ frees_by decision.now.freed) }
        ensures next { IfOk result (λ events. events.next.items ≡ tickets.subjects loaded.now.altitudes self.old.store
            (after_change self.old.store decision.now.change) (tickets.newcomer subject.Activation (length self.old.standings)
            (length self.old.standings + length (actors_by decision.now.start)))) }
        ensures few { cancels_entries decision.now.change ≡ false → IfOk result (λ events. length events.next.items ≤ 2) }
        ensures made { OnOk result (HasMoved self.old self.new step decision.now) }
        ensures refused { OnErr result (self.new ≡ self.old) }
        ensures granted { OnOk result (heap.new ≡ heap.old) }
        ensures memory { OnErr result (heap.new ≢ heap.old) }
    {
        let next = subjects_by(
            heap,
            loaded,
            &self.store,
            decision.change,
            self.starting(decision),
        )?;
        let list = events_of(heap, self.standings.len(), decision)?;
        match decision.start {
            Some(start) => self.start(heap, step, decision, start)?,
            None => write(
                heap,
                &mut self.journal,
                &mut self.store,
                JournalEntry::Move(step),
                decision.change,
            )?,
        }
        Ok(Events { list, next })
    }

    /// Starts the activation that a decision starts.
    fn start(
        &mut self,
        heap: &mut Heap,
        step: Move,
        decision: &Decision,
        start: Start,
    ) -> Result<(), AllocError>
        requires start { decision.now.start ≡ Some start }
        requires room { length self.old.entries < max_entries }
        requires possible { IsPossible self.old.store decision.now.change }
        ensures made { OnOk result (HasMoved self.old self.new step decision.now) }
        ensures refused { OnErr result (self.new ≡ self.old) }
        ensures granted { OnOk result (heap.new ≡ heap.old) }
        ensures memory { OnErr result (heap.new ≢ heap.old) }
    {
        heap.reserve(&mut self.actors, 1)?;
        heap.reserve(&mut self.standings, 1)?;
        make_room(heap, &mut self.active, start.filter)?;
        let kept = StoredStanding::new(heap, standing_of(start))?;
        write(
            heap,
            &mut self.journal,
            &mut self.store,
            JournalEntry::Move(step),
            decision.change,
        )?;
        self.actors.push_reserved(Actor {
            filter: start.filter,
            place: start.place,
            draining: start.draining,
        });
        self.standings.push_reserved(Some(kept));
        count_start(&mut self.active, start.filter);
        Ok(())
    }
}

/// The `Standing` of an activation that starts. It has gained the visit that it is given.
fn standing_of(start: Start) -> Standing
    ensures { (p : List Filter) → Begins p (Some start) (Some result) }
{
    let mut standing = Standing::starting(start.callback, start.given, start.arg);
    if start.given.is_some() {
        standing.gained = 1;
    }
    standing
}
