//! A set of places, which finds the least place of two numbers without a search.

ghost use Rattle.std.specs.Prelude.{◌≡◌, ℕ, ◌<◌, ◌≤◌, false, true, not, ◌&&◌, ◌||◌, OnOk, OnErr, MatchOption};
ghost use Rattle.flt_replay_records.specs.Places.{has, is_place};

use std::alloc::{AllocError, Global};
use std::collections::BTreeSet;

/// A place is a number, identified by two other numbers.
#[derive(Drop)]
pub(crate) struct Places {
    set: BTreeSet<(usize, usize, usize)>,
}

impl Places {
    pub(crate) fn new(alloc: Global) -> Places
        ensures { (i j k : ℕ) → has result.set i j k ≡ false }
    {
        Places {
            set: BTreeSet::new(alloc),
        }
    }

    pub(crate) fn insert(&mut self, i: usize, j: usize, k: usize) -> Result<(), AllocError>
        ensures ok { OnOk result ((a b c : ℕ) → has self.new.set a b c ≡ (is_place i j k a b c || has self.old.set a b c)) }
        ensures err { OnErr result ((a b c : ℕ) → has self.new.set a b c ≡ has self.old.set a b c) }
    {
        match self.set.insert((i, j, k)) {
            Ok(_) => Ok(()),
            Err(_) => Err(AllocError),
        }
    }

    pub(crate) fn remove(&mut self, i: usize, j: usize, k: usize)
        ensures { (a b c : ℕ) → has self.new.set a b c ≡ (not (is_place i j k a b c) && has self.old.set a b c) }
    {
        let _ = self.set.remove(&(i, j, k));
    }

    /// The least place of two numbers, from a number on.
    pub(crate) fn next(&self, i: usize, j: usize, from: usize) -> Option<usize>
        ensures { MatchOption result ((c : ℕ) → from ≤ c → has self.now.set i j c ≡ false)
            (λ k. (from ≤ k) × ((has self.now.set i j k ≡ true) × ((c : ℕ) → from ≤ c → c < k → has self.now.set i j c ≡ false))) }
    {
        match self.set.range((i, j, from)..).next() {
            Some(place) if place.0 == i && place.1 == j => Some(place.2),
            _ => None,
        }
    }

    /// The least place of two numbers.
    pub(crate) fn first(&self, i: usize, j: usize) -> Option<usize>
        ensures { MatchOption result ((c : ℕ) → has self.now.set i j c ≡ false)
            (λ k. (has self.now.set i j k ≡ true) × ((c : ℕ) → c < k → has self.now.set i j c ≡ false)) }
    {
        self.next(i, j, 0)
    }
}
