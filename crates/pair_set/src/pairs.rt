//! Pairs in their order: by the first number, then by the second.

ghost use Rattle.std.specs.Prelude.{◌≡◌, ◌≢◌, ℕ, ◌<◌, false, true, not, ◌&&◌, ◌||◌, OnOk, OnErr, MatchOption};
ghost use Rattle.pair_set.specs.Pairs.{has, is_pair};

use counted_heap::Heap;
use std::alloc::{AllocError, Global};
use std::collections::BTreeSet;
use std::marker::Model;

/// A set of pairs. Each call takes a time that is logarithmic in the number of pairs.
#[derive(Drop)]
pub struct PairSet {
    set: BTreeSet<(usize, u32)>,
}

impl Model for PairSet {
    ghost use Rattle.std.specs.Prelude.{ℕ};
    ghost use Rattle.std.specs.BTreeSet.{BTreeSet};

    ghost Value = { BTreeSet (ℕ × ℕ) };

    ghost view = { λ p. p.set };
}

impl PairSet {
    /// No pair.
    pub fn new(alloc: Global) -> PairSet
        ensures { (a b : ℕ) → has result a b ≡ false }
    {
        PairSet {
            set: BTreeSet::new(alloc),
        }
    }

    /// Puts a pair in. One that is there already changes nothing.
    pub fn insert(&mut self, heap: &mut Heap, first: usize, second: u32) -> Result<(), AllocError>
        ensures ok { OnOk result ((a b : ℕ) → has self.new a b ≡ (is_pair first second a b || has self.old a b)) }
        ensures err { OnErr result ((a b : ℕ) → has self.new a b ≡ has self.old a b) }
        ensures granted { OnOk result (heap.new ≡ heap.old) }
        ensures memory { OnErr result (heap.new ≢ heap.old) }
    {
        heap.add(&mut self.set, (first, second))?;
        Ok(())
    }

    /// Takes a pair out. One that isn't there changes nothing.
    pub fn remove(&mut self, first: usize, second: u32)
        ensures { (a b : ℕ) → has self.new a b ≡ (not (is_pair first second a b) && has self.old a b) }
    {
        let _ = self.set.remove(&(first, second));
    }

    /// The least second number of the pairs with a first one.
    pub fn least(&self, first: usize) -> Option<u32>
        ensures { MatchOption result ((b : ℕ) → has self.now first b ≡ false)
            (λ least. (has self.now first least ≡ true) × ((b : ℕ) → b < least → has self.now first b ≡ false)) }
    {
        match self.set.range((first, 0)..).next() {
            Some(pair) if pair.0 == first => Some(pair.1),
            _ => None,
        }
    }
}
