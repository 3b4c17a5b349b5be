//! The board, and reads of it.

ghost use Rattle.std.specs.Prelude.{◌≡◌, ◌≢◌, ◌↔◌, ◌≤◌, ◌<◌, ℕ, true, List, length, option_map};
ghost use Rattle.std.specs.Prelude.{Some, None, IfOk, OnOk, OnErr, MatchOption, if◌then◌else◌};
ghost use Rattle.std.specs.List.{list_any};
ghost use Rattle.std.specs.Option.{option_copied};
ghost use Rattle.flt_costs.specs.Costs.{IsStarted, callback_cost, steps_of};
ghost use Rattle.flt_machine_dispatch.specs.Turns as turns;
ghost use Rattle.flt_machine_frames.specs.Loading.{AreLoaded};
ghost use Rattle.flt_machine_frames.specs.Standings.{StandsFor};
ghost use Rattle.flt_machine_frames.specs.declared.loaded.Loaded.{Loaded};
ghost use Rattle.flt_machine.specs.Situations as spec;
ghost use Rattle.flt_machine.specs.Situations.{IsBoard, IsAt, IsOwn, Now};
ghost use Rattle.flt_model.specs.Moves.{make};
ghost use Rattle.flt_model.specs.Program.{callbacks_at};
ghost use Rattle.flt_model.specs.Runs.{Moment};
ghost use Rattle.flt_model.specs.World as machine;
ghost use Rattle.flt_rules.specs.Limits.{max_cost, max_operations};
ghost use Rattle.flt_tree.specs.declared.filter.Filter.{Filter};

use crate::active::has_any;
use crate::actor::Actor;
use crate::kept::StoredStanding;
use counted_heap::Heap;
use flt_costs::journals_stay_within_costs;
use flt_machine_frames::{Frame, Loaded, Standing};
use flt_machine_store::Store;
use flt_model::{Journal, Move, Outcome};
use flt_rules::{MAX_ENTRIES, Place};
use std::alloc::AllocError;
use std::marker::Model;

/// A machine of one thread, with its journal. It holds no texts: each call that needs the filters is lent the loaded ones, and its
/// condition is that these are the board's own.
#[derive(Drop)]
pub struct Board {
    pub(crate) actors: Vec<Actor>,
    pub(crate) standings: Vec<Option<StoredStanding>>,
    /// For each filter, how many of its activations haven't ended. A filter without a count has none.
    pub(crate) active: Vec<usize>,
    pub(crate) store: Store,
    pub(crate) journal: Journal,
}

impl Model for Board {
    ghost use Rattle.flt_machine.specs.Situations.{Situation};
    ghost use Rattle.flt_machine.specs.Active.{IsConsistent};

    ghost Value = { Situation };

    ghost view = { λ b. record {
      actors = b.actors.items;
      standings = b.standings.items;
      store = b.store;
      entries = b.journal;
    } };

    ghost invariant = { λ b. IsConsistent (record {
      actors = b.actors.items;
      standings = b.standings.items;
      store = b.store;
      entries = b.journal;
    }) b.active.items };
}

impl Board {
    /// The board before the first move.
    pub fn new(heap: &mut Heap, loaded: &Loaded) -> Result<Board, AllocError>
        ensures opening { IfOk result (λ b. (p : List Filter) → AreLoaded p loaded.now → b ≡ spec.opening (length p)) }
        ensures own { IfOk result (λ b. (p : List Filter) → AreLoaded p loaded.now → IsBoard p b) }
        ensures granted { OnOk result (heap.new ≡ heap.old) }
        ensures memory { OnErr result (heap.new ≢ heap.old) }
    {
        let alloc = heap.alloc();
        Ok(Board {
            actors: Vec::new(alloc),
            standings: Vec::new(alloc),
            active: Vec::new(alloc),
            store: Store::new(heap, loaded.filters())?,
            journal: Journal::new(alloc),
        })
    }

    // ---- activations

    pub(crate) fn standing(&self, activation: usize) -> Option<&Standing>
        ensures { option_copied result ≡ spec.standing_of self.now activation }
    {
        match self.standings.get(activation) {
            Some(Some(kept)) => Some(kept.get()),
            _ => None,
        }
    }

    pub(crate) fn actor(&self, activation: usize) -> Actor
        ensures { result ≡ spec.actor_of self.now activation }
    {
        match self.actors.get(activation) {
            Some(actor) => *actor,
            None => Actor {
                filter: 0,
                place: Place::Generic,
                draining: false,
            },
        }
    }

    /// An activation as it is, if it has started and not ended.
    pub fn checkout(&self, activation: u32) -> Option<Frame>
        ensures frame { result ≡ option_map (spec.frame_of self.now activation) (spec.standing_of self.now activation) }
        ensures stands { (p : List Filter) (m : Moment) → IsAt p self.now m →
            MatchOption result ((machine.activation_at m.world activation).ended ≡ true)
            (λ frame. StandsFor (callbacks_at p frame.filter) frame.standing (machine.activation_at m.world activation)) }
    {
        let standing = self.standing(activation as usize)?;
        let actor = self.actor(activation as usize);
        Some(Frame {
            activation,
            filter: actor.filter,
            draining: actor.draining,
            standing: *standing,
        })
    }

    /// Whether the filter has an activation that hasn't ended.
    pub(crate) fn has_active(&self, filter: usize) -> bool
        ensures { result ≡ spec.has_standing filter self.now.actors self.now.standings }
    {
        has_any(self.active.as_slice(), filter)
    }

    // ---- what is there

    /// How many references a context has, or `None` once it is freed.
    pub fn references(&self, context: usize) -> Option<u64>
        ensures { result ≡ (if machine.is_freed (machine.context_at self.now.store context) then None
            else Some (machine.context_at self.now.store context).references) }
    {
        self.store.references(context)
    }

    /// How many operations have arrived. The next one gets this as its serial number.
    pub fn operations(&self) -> usize
        ensures arrived { result ≡ length self.now.store.arrivals }
        ensures few { result ≤ max_operations }
    {
        self.store.operations()
    }

    /// How an operation ended at its lowest point, from the moment at which it goes up.
    pub fn outcome(&self, serial: u32) -> Option<Outcome>
        ensures { result ≡ (machine.route_at self.now.store serial).outcome }
    {
        self.store.outcome(serial)
    }

    /// The entries so far. Each activation was started by one of them, and makes at most as many steps as its callback costs, so 1,000,000
    /// at most.
    pub fn journal(&self) -> &Journal
        ensures entries { result.now ≡ self.now.entries }
        ensures started { (p : List Filter) (a : ℕ) → IsBoard p self.now → a < length self.now.standings →
            (filter : ℕ) × (callback : ℕ) × IsStarted p self.now.entries a filter callback }
        ensures few { (p : List Filter) (a filter callback : ℕ) → IsBoard p self.now → IsStarted p self.now.entries a filter callback →
            steps_of a self.now.entries ≤ callback_cost p filter callback }
        ensures limited { (loaded : Loaded) (a : ℕ) → IsOwn loaded self.now → steps_of a self.now.entries ≤ max_cost }
    {
        journals_stay_within_costs();
        &self.journal
    }

    /// Ends the board, and hands out its journal.
    pub fn into_journal(self) -> Journal
        ensures { result ≡ self.entries }
    {
        let Board {
            actors: _,
            standings: _,
            active: _,
            store: _,
            journal,
        } = self;
        journal
    }
}
