//! The store, and reads of it.

ghost use Rattle.std.specs.Prelude.{◌≡◌, ◌≢◌, ℕ, ◌<◌, ◌≤◌, ◌&&◌, ◌||◌, ◌==◌, not, set, true, false, [], ◌∷◌};
ghost use Rattle.std.specs.Prelude.{drop, find, position, is_some, length, get_or, option_map, replicate, Some};
ghost use Rattle.std.specs.Prelude.{None, OnOk, OnErr, IfOk, IfSome, IfNone, MatchOption, if◌then◌else◌};
ghost use Rattle.std.specs.List.{list_any};
ghost use Rattle.flt_model.specs.Locks as locks;
ghost use Rattle.flt_model.specs.Moves as moves;
ghost use Rattle.flt_model.specs.Settling as settling;
ghost use Rattle.flt_model.specs.World as spec;
ghost use Rattle.flt_model.specs.declared.parts.Presence.TheVariants.{Attached};
ghost use Rattle.flt_ops.specs.Operating as operating;
ghost use Rattle.flt_model.specs.declared.moves.Key.{Key};
ghost use Rattle.flt_machine_store.specs.Parts.{entry_of, key_of, link_of};
ghost use Rattle.flt_machine_store.specs.Stores.{empty_store, is_emptied, order_of};

use crate::holders::{Holders, unheld};
use crate::items::WorkItems;
use counted_heap::Heap;
use flt_cbdq::{Entry, Queues};
use flt_ctx::{Contexts, Key as At, Target};
use flt_model::{Arrival, Item, Key, Outcome, Position, Presence, Way};
use flt_ops::{Frame, Operations, Visit};
use flt_rules::{Access, LockNumber};
use std::alloc::AllocError;
use std::marker::Model;

/// The state that activations share. Presences, queues and lock holders are by filter; contracts see it as the machine's own store.
#[derive(Drop)]
pub struct Store {
    pub(crate) presences: Vec<Presence>,
    pub(crate) queues: Queues,
    /// No visit with a greater number was ever put into a queue.
    pub(crate) greatest_queued: usize,
    /// By filter and lock.
    pub(crate) holders: Vec<[Holders; 8]>,
    pub(crate) operations: Operations,
    pub(crate) contexts: Contexts,
    pub(crate) items: WorkItems,
}

impl Model for Store {
    ghost use Rattle.std.specs.Prelude.{map};
    ghost use Rattle.flt_model.specs.World as machine;
    ghost use Rattle.flt_machine_store.specs.Parts.{context_of, entry_of};
    ghost use Rattle.flt_machine_store.specs.Stores.{AreParts};

    ghost Value = { machine.Store };

    ghost view = { λ s. record {
      presences = s.presences.items;
      queues = map (map entry_of) s.queues.queues;
      holders = s.holders.items;
      arrivals = s.operations.arrivals;
      routes = s.operations.routes;
      visits = s.operations.visits;
      settled = s.operations.settled;
      contexts = map context_of s.contexts.contexts;
      items = s.items;
    } };

    ghost invariant = { λ s. AreParts s.presences.items s.queues s.greatest_queued s.contexts s.operations s.holders.items };
}

/// So many filters, each attached.
fn all_attached(heap: &mut Heap, filters: usize) -> Result<Vec<Presence>, AllocError>
    ensures attached { IfOk result (λ presences. presences.items ≡ replicate filters Attached) }
    ensures granted { OnOk result (heap.new ≡ heap.old) }
    ensures memory { OnErr result (heap.new ≢ heap.old) }
{
    let mut presences = Vec::new(heap.alloc());
    for _ in 0..filters {
        heap.push(&mut presences, Presence::Attached)?;
    }
    Ok(presences)
}

/// The locks of so many filters, which nobody holds.
fn all_unheld(heap: &mut Heap, filters: usize) -> Result<Vec<[Holders; 8]>, AllocError>
    ensures unheld { IfOk result (λ holders. holders.items ≡ replicate filters (replicate 8 [])) }
    ensures granted { OnOk result (heap.new ≡ heap.old) }
    ensures memory { OnErr result (heap.new ≢ heap.old) }
{
    let alloc = heap.alloc();
    let mut holders = Vec::new(alloc);
    for _ in 0..filters {
        heap.push(&mut holders, unheld(alloc))?;
    }
    Ok(holders)
}

impl Store {
    /// The store before the first move, of so many filters.
    pub fn new(heap: &mut Heap, filters: usize) -> Result<Store, AllocError>
        ensures empty { IfOk result (λ store. store ≡ empty_store filters) }
        ensures granted { OnOk result (heap.new ≡ heap.old) }
        ensures memory { OnErr result (heap.new ≢ heap.old) }
    {
        // What owns most lists comes last, so that few are dropped if memory is refused.
        let presences = all_attached(heap, filters)?;
        let holders = all_unheld(heap, filters)?;
        let items = WorkItems::new(heap, filters)?;
        let queues = Queues::new(heap, filters)?;
        let contexts = Contexts::new(heap, filters)?;
        Ok(Store {
            presences,
            queues,
            greatest_queued: 0,
            holders,
            operations: Operations::new(heap.alloc(), filters),
            contexts,
            items,
        })
    }

    // ---- filters

    /// How many filters there are.
    pub fn filters(&self) -> usize
        ensures { result ≡ length self.now.presences }
    {
        self.presences.len()
    }

    fn presence(&self, filter: usize) -> Presence
        ensures { result ≡ spec.presence_at self.now filter }
    {
        match self.presences.get(filter) {
            Some(presence) => *presence,
            None => Presence::Detached,
        }
    }

    /// Whether the filter is there, and not being detached.
    pub fn is_attached(&self, filter: usize) -> bool
        ensures { result ≡ spec.is_attached (spec.presence_at self.now filter) }
    {
        matches!(self.presence(filter), Presence::Attached)
    }

    /// Whether the filter is being detached.
    pub fn is_detaching(&self, filter: usize) -> bool
        ensures { result ≡ spec.is_detaching (spec.presence_at self.now filter) }
    {
        matches!(self.presence(filter), Presence::Detaching)
    }

    // ---- contexts

    /// How many contexts there have been: the number of the next one.
    pub fn contexts(&self) -> usize
        ensures { result ≡ length self.now.contexts }
    {
        self.contexts.len()
    }

    /// The context that is linked there.
    pub fn linked_at(&self, filter: usize, key: Key) -> Option<usize>
        ensures { result ≡ spec.linked_at self.now (record { filter = filter; key = key }) }
    {
        self.contexts.linked_at(key_at(filter, key))
    }

    /// How many references a context has, or `None` once it is freed.
    pub fn references(&self, context: usize) -> Option<u64>
        ensures { result ≡ (if spec.is_freed (spec.context_at self.now context) then None
            else Some (spec.context_at self.now context).references) }
    {
        self.contexts.references(context)
    }

    /// Whether a context has one reference left.
    pub fn is_last(&self, context: usize) -> bool
        ensures { result ≡ ((spec.context_at self.now context).references == 1) }
    {
        match self.contexts.references(context) {
            Some(references) => references == 1,
            None => false,
        }
    }

    /// The value of a context, which a freed one keeps; 0 if it isn't there.
    pub fn value(&self, context: usize) -> u64
        ensures { result ≡ (spec.context_at self.now context).value }
    {
        self.contexts.value(context)
    }

    /// Whether a context has a link.
    pub fn is_linked(&self, context: usize) -> bool
        ensures { result ≡ is_some (spec.context_at self.now context).link }
    {
        self.contexts.is_linked(context)
    }

    /// A context isn't linked if the filter isn't attached, or if the context is linked or freed.
    pub fn cannot_set(&self, filter: usize, context: usize) -> bool
        ensures { result ≡ (not (spec.is_attached (spec.presence_at self.now filter))
            || (is_some (spec.context_at self.now context).link || spec.is_freed (spec.context_at self.now context))) }
    {
        !self.is_attached(filter) || self.contexts.cannot_link(context)
    }

    // ---- locks

    /// Whether an activation may take a lock of a filter with this access, beside the others that hold it.
    pub fn may_take(
        &self,
        filter: usize,
        lock: LockNumber,
        activation: usize,
        access: Access,
    ) -> bool
        ensures { result ≡ locks.is_free_for activation access (locks.holders_of self.now filter lock) }
    {
        match self.holders.get(filter) {
            Some(holders) => holders[usize::from(lock.place())].is_free_for(activation, access),
            None => true,
        }
    }

    // ---- what waits

    /// The front entry of a filter's queue.
    pub fn front(&self, filter: usize) -> Option<Entry>
        ensures { MatchOption result (spec.queue_at self.now filter ≡ [])
            (λ e. spec.queue_at self.now filter ≡ record { visit = e.visit; context = e.context } ∷
            drop 1 (spec.queue_at self.now filter)) }
    {
        self.queues.entry(filter, 0).copied()
    }

    /// The first entry of an operation in a filter's queue. It walks along the queue only if an entry's visit doesn't exist, which counts
    /// as one of the first operation and is in no list of visits.
    pub fn first_entry(&self, filter: usize, serial: u32) -> Option<Entry>
        ensures { option_map entry_of result ≡ find (moves.is_entry_of self.now serial) (spec.queue_at self.now filter) }
    {
        if self.greatest_queued >= self.operations.visits() {
            return self.walk_to_entry(filter, serial);
        }
        let visits = self.operations.visits_of(serial);
        self.queues.first_of(filter, visits).copied()
    }

    /// The same, by a walk from the front.
    fn walk_to_entry(&self, filter: usize, serial: u32) -> Option<Entry>
        ensures { option_map entry_of result ≡ find (moves.is_entry_of self.now serial) (spec.queue_at self.now filter) }
    {
        let mut left = self.queues.walk(filter);
        while let Some(entry) = left.next_entry() {
            if self.operations.visit(entry.visit).operation == serial {
                return Some(entry);
            }
        }
        None
    }

    /// For each operation, by its serial number, whether a filter's queue has an entry of it. It takes as many steps as there are
    /// operations and entries.
    pub fn waiting(&self, heap: &mut Heap, filter: usize) -> Result<Vec<bool>, AllocError>
        ensures length { IfOk result (λ marks. length marks.items ≡ length self.now.arrivals) }
        ensures marked { IfOk result (λ marks. (o : ℕ) → o < length self.now.arrivals →
            get_or marks.items o false ≡ list_any (moves.is_entry_of self.now o) (spec.queue_at self.now filter)) }
        ensures granted { OnOk result (heap.new ≡ heap.old) }
        ensures memory { OnErr result (heap.new ≢ heap.old) }
    {
        let mut marks = heap.marks(self.operations())?;
        let mut left = self.queues.walk(filter);
        while let Some(entry) = left.next_entry() {
            let serial = self.operations.visit(entry.visit).operation as usize;
            if serial < marks.len() {
                marks[serial] = true;
            }
        }
        Ok(marks)
    }

    /// How many work items there have been: the number of the next one.
    pub fn items(&self) -> usize
        ensures { result ≡ length self.now.items }
    {
        self.items.len()
    }

    /// A work item, until it starts.
    pub fn item(&self, item: usize) -> Option<Item>
        ensures { result ≡ spec.item_at self.now item }
    {
        self.items.get(item)
    }

    // ---- operations

    /// How many operations there are: the serial number of the next one.
    pub fn operations(&self) -> usize
        ensures { result ≡ length self.now.arrivals }
    {
        self.operations.len()
    }

    /// The kind, mode and file of an operation. One that isn't there reads file 0 by an I/O request packet.
    pub fn arrival(&self, serial: u32) -> Arrival
        ensures { result ≡ spec.arrival_at self.now serial }
    {
        self.operations.arrival(serial)
    }

    /// The position of an operation. One that isn't there is up.
    pub fn position(&self, serial: u32) -> Position
        ensures { result ≡ (spec.route_at self.now serial).position }
    {
        self.operations.position(serial)
    }

    /// Whether an operation is cancelled. One that isn't there is.
    pub fn cancelled(&self, serial: u32) -> bool
        ensures { result ≡ (spec.route_at self.now serial).cancelled }
    {
        self.operations.cancelled(serial)
    }

    /// How an operation ended at its lowest point, from the moment at which it goes up.
    pub fn outcome(&self, serial: u32) -> Option<Outcome>
        ensures { result ≡ (spec.route_at self.now serial).outcome }
    {
        self.operations.outcome(serial)
    }

    /// Whether an operation is over: it is up, no post callback of it waits, and all its visits are settled.
    pub fn is_done(&self, serial: u32) -> bool
        ensures { result ≡ moves.is_done self.now serial }
    {
        self.operations.is_done(serial)
    }

    /// Whether nothing of an operation waits any more: no post callback of it, and all its visits are settled. It is over once it is up.
    pub fn is_spent(&self, serial: u32) -> bool
        ensures { result ≡ (moves.is_empty (spec.route_at self.now serial).frames
            && moves.are_settled serial self.now.visits self.now.settled) }
    {
        self.operations.is_spent(serial)
    }

    /// The same, once a visit is settled.
    pub fn is_spent_after(&self, serial: u32, visit: usize) -> bool
        ensures { result ≡ (moves.is_empty (spec.route_at self.now serial).frames
            && moves.are_settled serial self.now.visits (set self.now.settled visit true)) }
    {
        self.operations.is_spent_after(serial, visit)
    }

    /// The filter that an operation is at while it goes down.
    pub fn filter_at(&self, serial: u32) -> Option<usize>
        ensures { result ≡ operating.filter_in (length self.now.presences) (spec.route_at self.now serial).position }
    {
        self.operations.filter_at(serial)
    }

    /// Whether an operation is below the last filter.
    pub fn is_past_filters(&self, serial: u32) -> bool
        ensures { result ≡ operating.is_below (length self.now.presences) (spec.route_at self.now serial).position }
    {
        self.operations.is_past_filters(serial)
    }

    /// The frame whose post callback is next, of an operation that goes up.
    pub fn frame_at(&self, serial: u32) -> Option<Frame>
        ensures { result ≡ operating.frame_in (spec.route_at self.now serial).frames (spec.route_at self.now serial).position }
    {
        self.operations.frame_at(serial)
    }

    /// The first frame of a filter that an operation has.
    pub fn first_frame(&self, filter: usize, serial: u32) -> Option<Frame>
        ensures { result ≡ find (moves.is_frame_of filter) (spec.route_at self.now serial).frames }
    {
        self.operations.first_frame(filter, serial)
    }

    /// The least serial number of an operation with a frame of the filter.
    pub fn least_frame(&self, filter: usize) -> Option<u32>
        ensures { result ≡ position (moves.has_frame filter) self.now.routes }
    {
        self.operations.least_frame(filter)
    }

    /// How many visits there have been: the number of the next one.
    pub fn visits(&self) -> usize
        ensures { result ≡ length self.now.visits }
    {
        self.operations.visits()
    }

    /// The visit of a number. One that isn't there is a draining one.
    pub fn visit(&self, visit: usize) -> Visit
        ensures { result ≡ spec.visit_at self.now visit }
    {
        self.operations.visit(visit)
    }

    /// The kind, mode and file of a visit's operation.
    pub fn arrival_of(&self, visit: usize) -> Arrival
        ensures { result ≡ spec.arrival_of self.now visit }
    {
        self.arrival(self.visit(visit).operation)
    }

    /// Whether a visit still moves its operation: it isn't settled, nor a draining one.
    pub fn is_led(&self, visit: usize) -> bool
        ensures { result ≡ settling.is_led self.now visit }
    {
        self.operations.is_led(visit)
    }

    /// Whether settling a visit by this `Way` makes a frame, which takes the completion context over.
    pub fn makes_frame(&self, visit: usize, way: Way) -> bool
        ensures { result ≡ settling.makes_frame self.now visit way }
    {
        self.operations.makes_frame(visit, way)
    }

    // ---- teardown

    /// The first key of a filter at which a context is linked: the instance, otherwise the stream with the least number.
    pub fn first_key(&self, filter: usize) -> Option<Key>
        ensures linked { IfSome result (λ key. is_some (spec.linked_at self.now (record { filter = filter; key = key })) ≡ true) }
        ensures least { IfSome result (λ key. (other : Key) →
            is_some (spec.linked_at self.now (record { filter = filter; key = other })) ≡ true →
            order_of key ≤ order_of other) }
        ensures none { IfNone result (list_any (λ (c : spec.Context). moves.is_linked_by filter c.link) self.now.contexts ≡ false) }
    {
        let key = self.contexts.first_key(filter)?;
        Some(key_in(key.target))
    }

    /// Whether the filter has nothing left but activations: no frame, no entry, no work item and no link.
    pub fn is_empty_of(&self, filter: usize) -> bool
        ensures { result ≡ is_emptied self.now filter }
    {
        !self.has_frame(filter)
            && !self.has_entry(filter)
            && !self.items.has_of(filter)
            && !self.has_link(filter)
    }

    /// Whether an operation has a frame of the filter.
    fn has_frame(&self, filter: usize) -> bool
        ensures { result ≡ list_any (moves.has_frame filter) self.now.routes }
    {
        self.least_frame(filter).is_some()
    }

    /// Whether an entry waits in the filter's queue.
    fn has_entry(&self, filter: usize) -> bool
        ensures { result ≡ not (moves.is_empty (spec.queue_at self.now filter)) }
    {
        self.front(filter).is_some()
    }

    /// Whether a context is linked for the filter.
    fn has_link(&self, filter: usize) -> bool
        ensures { result ≡ list_any (λ (c : spec.Context). moves.is_linked_by filter c.link) self.now.contexts }
    {
        self.first_key(filter).is_some()
    }
}

pub(crate) fn key_at(filter: usize, key: Key) -> At
    ensures { link_of result ≡ record { filter = filter; key = key } }
{
    let target = match key {
        Key::Stream(file) => Target::Stream(file),
        Key::Instance => Target::Instance,
    };
    At { filter, target }
}

fn key_in(target: Target) -> Key
    ensures { result ≡ key_of target }
{
    match target {
        Target::Stream(file) => Key::Stream(file),
        Target::Instance => Key::Instance,
    }
}
