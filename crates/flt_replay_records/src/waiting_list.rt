//! Waiting entries, in queues and in work items, with counts of their visits.

ghost use Rattle.std.specs.Prelude.{◌≡◌, ◌+◌, List, [], ◌∷◌, ◌++◌, length, get_or, set, sum_by};
ghost use Rattle.std.specs.Prelude.{find, map, Some, None, OnOk, IfOk, MatchOption, ◌↔◌, IsTrue};
ghost use Rattle.flt_model.specs.Violations.{in_queue, in_item};
ghost use Rattle.flt_model.specs.declared.parts.Entry.{Entry};
ghost use Rattle.flt_replay_records.specs.Tickets.{is_of, without_first};

use crate::counts::Counts;
use crate::queue::Queue;
use flt_model::{Entry, Item};
use std::alloc::{AllocError, Global};
use std::marker::Model;

/// The queues of the filters, and the work items by number.
#[derive(Drop)]
pub struct Waiting {
    /// By filter.
    queues: Vec<Queue>,
    items: Vec<Option<Item>>,
    /// The number of entries and items with each visit.
    counts: Counts,
}

impl Model for Waiting {
    ghost use Rattle.std.specs.Prelude.{List, Option};
    ghost use Rattle.flt_model.specs.declared.parts.Entry.{Entry};
    ghost use Rattle.flt_model.specs.declared.parts.Item.{Item};

    ghost Value = { List (List Entry) × List (Option Item) };

    ghost use Rattle.flt_replay_records.specs.Waiting.{AreWaiting};

    ghost view = { λ w. (w.queues.items, w.items.items) };

    ghost invariant = { λ w. AreWaiting w.queues.items w.items.items w.counts };
}

impl Waiting {
    /// No queues and no items.
    pub fn new(alloc: Global) -> Waiting
        ensures { result ≡ ([], []) }
    {
        Waiting {
            queues: Vec::new(alloc),
            items: Vec::new(alloc),
            counts: Counts::new(alloc),
        }
    }

    /// The number of entries and items with a visit.
    pub fn count(&self, visit: usize) -> u64
        ensures { result ≡ sum_by (in_queue visit) self.now.0 + sum_by (in_item visit) self.now.1 }
    {
        self.counts.count(visit)
    }

    /// Adds a filter, with an empty queue.
    #[tactic(auto, using(crate::proofs::Queues::CountWaiting::queue_added))]
    pub fn add_queue(&mut self, alloc: Global) -> Result<(), AllocError>
        ensures { OnOk result (self.new ≡ (self.old.0 ++ [] ∷ [], self.old.1)) }
    {
        self.queues.push(Queue::new(alloc))?;
        Ok(())
    }

    /// The work items by number.
    pub fn items(&self) -> &[Option<Item>]
        ensures { result.now ≡ self.now.1 }
    {
        self.items.as_slice()
    }

    /// Whether a filter's queue is empty.
    pub fn is_empty(&self, filter: usize) -> bool
        ensures { IsTrue result ↔ (get_or self.now.0 filter [] ≡ []) }
    {
        match self.queues.get(filter) {
            Some(queue) => queue.is_empty(),
            None => true,
        }
    }

    /// The visits of the entries of a filter's queue, in order.
    pub fn visits(&self, alloc: Global, filter: usize) -> Result<Vec<usize>, AllocError>
        ensures { IfOk result (λ vs. vs.items ≡ map (λ (e : Entry). e.visit) (get_or self.now.0 filter [])) }
    {
        match self.queues.get(filter) {
            Some(queue) => queue.visits(alloc),
            None => Ok(Vec::new(alloc)),
        }
    }

    /// Adds an entry at the end of a filter's queue.
    pub fn push(&mut self, filter: usize, entry: Entry) -> Result<(), AllocError>
        ensures { OnOk result (self.new ≡ (set self.old.0 filter (get_or self.old.0 filter [] ++ entry ∷ []), self.old.1)) }
    {
        let visit = entry.visit;
        if let Some(queue) = self.queues.get_mut(filter) {
            self.counts.add(visit)?;
            if let Err(refused) = queue.push(entry) {
                self.counts.take(visit);
                return Err(refused);
            }
        }
        Ok(())
    }

    /// Takes the front entry out of a filter's queue.
    pub fn take_first(&mut self, filter: usize) -> Option<Entry>
        ensures { MatchOption result ((get_or self.old.0 filter [] ≡ []) × (self.new ≡ self.old))
            (λ e. (get_or self.old.0 filter [] ≡ e ∷ get_or self.new.0 filter [])
            × (self.new ≡ (set self.old.0 filter (get_or self.new.0 filter []), self.old.1))) }
    {
        if let Some(queue) = self.queues.get_mut(filter) {
            if let Some(entry) = queue.take_first() {
                self.counts.take(entry.visit);
                return Some(entry);
            }
        }
        None
    }

    /// Takes the first entry with one of some visits out of a filter's queue.
    pub fn take_entry(&mut self, filter: usize, visits: &[usize]) -> Option<Entry>
        ensures { MatchOption result ((find (is_of visits.now) (get_or self.old.0 filter []) ≡ None) × (self.new ≡ self.old))
            (λ e. (find (is_of visits.now) (get_or self.old.0 filter []) ≡ Some e)
            × (self.new ≡ (set self.old.0 filter (without_first (is_of visits.now) (get_or self.old.0 filter [])), self.old.1))) }
    {
        if let Some(queue) = self.queues.get_mut(filter) {
            if let Some(entry) = queue.take_entry(visits) {
                self.counts.take(entry.visit);
                return Some(entry);
            }
        }
        None
    }

    /// Adds a work item.
    #[tactic(auto, using(crate::proofs::Queues::CountWaiting::item_added))]
    pub fn add_item(&mut self, item: Item) -> Result<(), AllocError>
        ensures { OnOk result (self.new ≡ (self.old.0, self.old.1 ++ Some item ∷ [])) }
    {
        match item.visit {
            Some(visit) => {
                self.counts.add(visit)?;
                match self.items.push(Some(item)) {
                    Ok(()) => Ok(()),
                    Err(_) => {
                        self.counts.take(visit);
                        Err(AllocError)
                    }
                }
            }
            None => {
                self.items.push(Some(item))?;
                Ok(())
            }
        }
    }

    /// Takes a work item out, whose number stays.
    pub fn take_item(&mut self, number: usize) -> Option<Item>
        ensures item { result ≡ get_or self.old.1 number None }
        ensures after { self.new ≡ (self.old.0, set self.old.1 number None) }
    {
        let place = self.items.get_mut(number)?;
        let item = place.take()?;
        if let Some(visit) = item.visit {
            self.counts.take(visit);
        }
        Some(item)
    }
}
