//! The places of activations among the holders of a lock.

ghost use Rattle.std.specs.Prelude.{◌≡◌, ◌≢◌, ℕ, [], OnOk, OnErr, Some, None};
ghost use Rattle.flt_machine_store.specs.Holding.{place_in};

use counted_heap::Heap;
use std::alloc::{AllocError, Global};
use std::collections::BTreeMap;
use std::marker::Model;

/// A place for each activation that holds the lock.
#[derive(Drop)]
pub(crate) struct Places {
    places: BTreeMap<usize, usize>,
}

impl Model for Places {
    ghost use Rattle.std.specs.Prelude.{ℕ, List};

    ghost Value = { List (ℕ × ℕ) };

    ghost view = { λ p. p.places.entries };
}

impl Places {
    #[tactic(auto, unfolding(crate::specs::Holding::place_in))]
    pub(crate) fn new(alloc: Global) -> Places
        ensures { (a : ℕ) → place_in result a ≡ None }
    {
        Places {
            places: BTreeMap::new(alloc),
        }
    }

    /// The place of an activation.
    #[tactic(auto, unfolding(crate::specs::Holding::place_in))]
    pub(crate) fn get(&self, activation: usize) -> Option<usize>
        ensures { result ≡ place_in self.now activation }
    {
        self.places.get(&activation).copied()
    }

    /// Notes the place of an activation.
    #[tactic(auto, unfolding(crate::specs::Holding::place_in))]
    pub(crate) fn insert(
        &mut self,
        heap: &mut Heap,
        activation: usize,
        place: usize,
    ) -> Result<(), AllocError>
        ensures here { OnOk result (place_in self.new activation ≡ Some place) }
        ensures others { OnOk result ((other : ℕ) → other ≢ activation → place_in self.new other ≡ place_in self.old other) }
        ensures refused { OnErr result ((other : ℕ) → place_in self.new other ≡ place_in self.old other) }
        ensures granted { OnOk result (heap.new ≡ heap.old) }
        ensures memory { OnErr result (heap.new ≢ heap.old) }
    {
        heap.put(&mut self.places, activation, place)?;
        Ok(())
    }

    /// No place is noted for the activation any more.
    #[tactic(auto, unfolding(crate::specs::Holding::place_in))]
    pub(crate) fn remove(&mut self, activation: usize)
        ensures here { place_in self.new activation ≡ None }
        ensures others { (other : ℕ) → other ≢ activation → place_in self.new other ≡ place_in self.old other }
    {
        let _ = self.places.remove(&activation);
    }
}
