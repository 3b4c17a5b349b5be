//! The queues themselves.
ghost use Rattle.std.specs.Prelude.{◌≡◌, ◌≢◌, ◌≤◌, true, false, [], ◌∷◌, ◌++◌, ◌↔◌, IfOk, OnOk, OnErr, MatchResult};
ghost use Rattle.std.specs.Prelude.{Err, drop, replicate, set, find, slice_get, option_copied};
ghost use Rattle.flt_cbdq.specs.Queues.{queue_of, is_disabled, with_queue, has_visit, is_of, front_of, without_first, entry_in};
ghost use Rattle.flt_cbdq.specs.declared.fault.InsertFault.TheVariants as fault;

use crate::nodes::{add_entry, entry_of, first_node, node_at};
use crate::nodes_by_visit::NodesByVisit;
use crate::walk::Walk;
use crate::{Entry, InsertFault, OutOfMemory};
use counted_heap::Heap;
use ilist_core::Lists;
use std::marker::Model;

/// The data of one queue beside its list.
#[derive(Drop)]
struct Queue {
    nodes: NodesByVisit,
    disabled: bool,
}

/// A queue for each filter, by the filter's number from 0.
///
/// Contracts see the entries of each queue in order, and whether it is disabled. A filter that isn't there has a queue that is
/// empty and disabled.
#[derive(Drop)]
pub struct Queues {
    /// By filter.
    lists: Lists,
    queues: Vec<Queue>,
    /// By the number of the node.
    entries: Vec<Entry>,
}

impl Model for Queues {
    ghost use Rattle.flt_cbdq.specs.Queues.{Queueing};

    ghost Value = { Queueing };

    ghost use Rattle.flt_cbdq.specs.Kept.{entries_of, disabled_of, IsKept};

    ghost view = { λ q. record {
      queues = entries_of q.entries.items q.lists.lists;
      disabled = disabled_of q.queues.items;
    } };

    ghost invariant = { λ q. IsKept q.queues.items q.entries.items q.lists };
}

impl Queues {
    /// Empty queues, none of them disabled, of so many filters.
    pub fn new(heap: &mut Heap, filters: usize) -> Result<Self, OutOfMemory>
        ensures empty { IfOk result (λ q. q ≡ record { queues = replicate filters []; disabled = replicate filters false }) }
        ensures granted { OnOk result (heap.new ≡ heap.old) }
        ensures memory { OnErr result (heap.new ≢ heap.old) }
    {
        let alloc = heap.alloc();
        let mut lists = Lists::new(alloc);
        let mut queues = Vec::new(alloc);
        for _ in 0..filters {
            let _ = lists.new_list(heap)?;
            let queue = Queue {
                nodes: NodesByVisit::new(alloc),
                disabled: false,
            };
            heap.push(&mut queues, queue)?;
        }
        Ok(Queues {
            lists,
            queues,
            entries: Vec::new(alloc),
        })
    }

    /// Puts the entry at the end of the filter's queue, unless that is disabled.
    pub fn insert(
        &mut self,
        heap: &mut Heap,
        filter: usize,
        entry: Entry,
    ) -> Result<(), InsertFault>
        ensures queued { OnOk result (self.new ≡ with_queue self.old filter (queue_of self.old filter ++ entry ∷ [])) }
        ensures disabled { (result ≡ Err (fault.Disabled entry)) ↔ (is_disabled self.old filter ≡ true) }
        ensures refused { OnErr result (self.new ≡ self.old) }
        ensures back { MatchResult result (λ _. is_disabled self.old filter ≡ false) (λ fault. entry_in fault ≡ entry) }
        ensures granted { result ≢ Err (fault.OutOfMemory entry) → heap.new ≡ heap.old }
        ensures memory { result ≡ Err (fault.OutOfMemory entry) → heap.new ≢ heap.old }
    {
        let Some(list) = self.lists.list(filter) else {
            return Err(InsertFault::Disabled(entry));
        };
        let Some(queue) = self.queues.get_mut(filter) else {
            return Err(InsertFault::Disabled(entry));
        };
        if queue.disabled {
            return Err(InsertFault::Disabled(entry));
        }
        match add_entry(
            heap,
            &mut self.lists,
            &mut self.entries,
            &mut queue.nodes,
            list,
            entry,
        ) {
            Ok(()) => Ok(()),
            Err(_) => Err(InsertFault::OutOfMemory(entry)),
        }
    }

    /// Takes the front entry out of the filter's queue, if there is one.
    pub fn remove_next(&mut self, filter: usize) -> Option<Entry>
        ensures front { result ≡ front_of (queue_of self.old filter) }
        ensures rest { self.new ≡ with_queue self.old filter (drop 1 (queue_of self.old filter)) }
    {
        let list = self.lists.list(filter)?;
        let queue = self.queues.get_mut(filter)?;
        let front = self.lists.pop_front(list)?;
        self.lists.remove_node(front);
        let entry = *entry_of(self.entries.as_slice(), front);
        queue.nodes.pop(entry.visit);
        Some(entry)
    }

    /// Takes the first entry of the visit out of the filter's queue, if there is one.
    pub fn remove(&mut self, filter: usize, visit: usize) -> Option<Entry>
        ensures first { result ≡ find (has_visit visit) (queue_of self.old filter) }
        ensures rest { self.new ≡ with_queue self.old filter (without_first (has_visit visit) (queue_of self.old filter)) }
    {
        let queue = self.queues.get_mut(filter)?;
        let node = queue.nodes.first(visit)?;
        queue.nodes.pop(visit);
        self.lists.unlink(node);
        self.lists.remove_node(node);
        Some(*entry_of(self.entries.as_slice(), node))
    }

    /// The first entry in the filter's queue that is of one of the visits. An operation's first entry is that of all its visits, settled
    /// ones too: a queue may still have an entry of a visit that was settled out of turn.
    pub fn first_of(&self, filter: usize, visits: &[usize]) -> Option<&Entry>
        ensures { option_copied result ≡ find (is_of visits.now) (queue_of self.now filter) }
    {
        let list = self.lists.list(filter)?;
        let queue = self.queues.get(filter)?;
        let node = first_node(
            &self.lists,
            self.entries.as_slice(),
            &queue.nodes,
            list,
            visits,
        )?;
        Some(entry_of(self.entries.as_slice(), node))
    }

    /// The entry of a place in the filter's queue, counted from 0 at the front.
    pub fn entry(&self, filter: usize, place: usize) -> Option<&Entry>
        ensures { option_copied result ≡ slice_get (queue_of self.now filter) place }
    {
        let list = self.lists.list(filter)?;
        let node = node_at(&self.lists, list, place)?;
        Some(entry_of(self.entries.as_slice(), node))
    }

    /// A walk along the filter's queue from the front.
    pub fn walk(&self, filter: usize) -> Walk<'_>
        ensures { result ≡ queue_of self.now filter }
    {
        Walk::new(&self.lists, self.entries.as_slice(), filter)
    }

    /// From now on the filter's queue takes no entry. Its entries stay.
    pub fn disable(&mut self, filter: usize)
        ensures { self.new ≡ record self.old { disabled = set self.old.disabled filter true } }
    {
        if filter < self.queues.len() {
            self.queues[filter].disabled = true;
        }
    }
}
