//! Work items by number. Those that have started are gone.

ghost use Rattle.std.specs.Prelude.{◌≡◌, ◌≢◌, [], ◌∷◌, ◌++◌, length, set, get_or, Some, None, IfOk, OnOk, OnErr};
ghost use Rattle.std.specs.List.{list_any};
ghost use Rattle.flt_model.specs.Moves.{is_item_of};

use counted_heap::Heap;
use flt_model::Item;
use std::alloc::AllocError;
use std::marker::Model;

/// Work items by number, from 0.
#[derive(Drop)]
pub(crate) struct WorkItems {
    items: Vec<Option<Item>>,
    /// By filter, how many of its items wait.
    waiting: Vec<usize>,
}

impl Model for WorkItems {
    ghost use Rattle.std.specs.Prelude.{List, Option};
    ghost use Rattle.flt_model.specs.declared.parts.Item.{Item};
    ghost use Rattle.flt_machine_store.specs.Waiting.{AreCounted};

    ghost Value = { List (Option Item) };

    ghost view = { λ w. w.items.items };

    ghost invariant = { λ w. AreCounted w.items.items w.waiting.items };
}

impl WorkItems {
    /// No items, with a count for each of so many filters.
    pub(crate) fn new(heap: &mut Heap, filters: usize) -> Result<WorkItems, AllocError>
        ensures empty { IfOk result (λ items. items ≡ []) }
        ensures granted { OnOk result (heap.new ≡ heap.old) }
        ensures memory { OnErr result (heap.new ≢ heap.old) }
    {
        let alloc = heap.alloc();
        let mut waiting = Vec::new(alloc);
        for _ in 0..filters {
            heap.push(&mut waiting, 0)?;
        }
        Ok(WorkItems {
            items: Vec::new(alloc),
            waiting,
        })
    }

    /// How many there have been.
    pub(crate) fn len(&self) -> usize
        ensures { result ≡ length self.now }
    {
        self.items.len()
    }

    /// The item of a number, until it starts.
    pub(crate) fn get(&self, item: usize) -> Option<Item>
        ensures { result ≡ get_or self.now item None }
    {
        match self.items.get(item) {
            Some(item) => *item,
            None => None,
        }
    }

    /// Whether an item of the filter waits. If the filter has no count, the items are searched.
    pub(crate) fn has_of(&self, filter: usize) -> bool
        ensures { result ≡ list_any (is_item_of filter) self.now }
    {
        match self.waiting.get(filter) {
            Some(waiting) => *waiting > 0,
            None => self.items.iter().any(|item| is_of(filter, item)),
        }
    }

    /// Adds an item.
    pub(crate) fn push(&mut self, heap: &mut Heap, item: Item) -> Result<(), AllocError>
        ensures ok { OnOk result (self.new ≡ self.old ++ Some item ∷ []) }
        ensures refused { OnErr result (self.new ≡ self.old) }
        ensures granted { OnOk result (heap.new ≡ heap.old) }
        ensures memory { OnErr result (heap.new ≢ heap.old) }
    {
        heap.push(&mut self.items, Some(item))?;
        if item.filter < self.waiting.len() {
            self.waiting[item.filter] += 1;
        }
        Ok(())
    }

    /// The item is gone.
    pub(crate) fn take(&mut self, item: usize)
        ensures { self.new ≡ set self.old item None }
    {
        if let Some(taken) = self.get(item) {
            self.items[item] = None;
            if taken.filter < self.waiting.len() {
                self.waiting[taken.filter] -= 1;
            }
        }
    }
}

fn is_of(filter: usize, item: &Option<Item>) -> bool
    ensures { result ≡ is_item_of filter item.now }
{
    match item {
        Some(item) => item.filter == filter,
        None => false,
    }
}
