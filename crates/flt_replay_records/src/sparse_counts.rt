//! The number of times that each number was counted, for numbers of which few count. Only those counted at least once are kept.

ghost use Rattle.std.specs.Prelude.{◌≡◌, ◌+◌, ℕ, ◌<◌, [], min, OnOk, OnErr, IfOk, ◌↔◌, IsTrue};
ghost use Rattle.flt_model.specs.Trace.{one_if};
ghost use Rattle.flt_replay_records.specs.Counts as spec;

use std::alloc::{AllocError, Global};
use std::collections::BTreeMap;
use std::marker::Model;

/// Counts by number, each kept while it is at least 1.
#[derive(Drop)]
pub struct SparseCounts {
    map: BTreeMap<usize, u64>,
}

impl Model for SparseCounts {
    ghost use Rattle.std.specs.Prelude.{ℕ, ◌<◌, List, IfSome};
    ghost use Rattle.std.specs.BTreeMap.{get};
    ghost use Rattle.std.specs.Ordering.{nat_cmp};

    ghost Value = { List (ℕ × ℕ) };

    ghost view = { λ c. c.map.entries };

    ghost invariant = { λ c. (n : ℕ) → IfSome (get nat_cmp c.map n) (λ times. 0 < times) };
}

impl SparseCounts {
    /// Counts in which no number was counted.
    #[tactic(auto, unfolding(crate::specs::Counts::count_in))]
    pub fn new(alloc: Global) -> SparseCounts
        ensures none { result ≡ [] }
        ensures no_count { (n : ℕ) → spec.count_in result n ≡ 0 }
    {
        SparseCounts {
            map: BTreeMap::new(alloc),
        }
    }

    /// The number of times that a number was counted.
    #[tactic(auto, unfolding(crate::specs::Counts::count_in))]
    pub fn count(&self, number: usize) -> u64
        ensures { result ≡ spec.count_in self.now number }
    {
        match self.map.get(&number) {
            Some(times) => *times,
            None => 0,
        }
    }

    /// Adds one to the count of a number. The count is a number that no journal in memory reaches the end of.
    #[tactic(auto, unfolding(crate::specs::Counts::count_in, flt_model::specs::Trace::one_if))]
    pub fn add(&mut self, number: usize) -> Result<(), AllocError>
        ensures ok { OnOk result ((n : ℕ) → spec.count_in self.new n ≡ spec.count_in self.old n + one_if number n) }
        ensures err { OnErr result (self.new ≡ self.old) }
    {
        match self.count(number).checked_add(1) {
            Some(times) => {
                let _ = self.map.insert(number, times)?;
                Ok(())
            }
            None => Err(AllocError),
        }
    }

    /// Takes one off the count of a number, which is at least 1.
    #[tactic(auto, unfolding(crate::specs::Counts::count_in, flt_model::specs::Trace::one_if))]
    pub fn take(&mut self, number: usize)
        ensures { 0 < spec.count_in self.old number → (n : ℕ) → spec.count_in self.old n ≡ spec.count_in self.new n + one_if number n }
    {
        let times = self.count(number);
        if times > 1 {
            if let Some(place) = self.map.get_mut(&number) {
                *place = times - 1;
            }
        } else {
            let _ = self.map.remove(&number);
        }
    }

    /// Whether no number counts.
    #[tactic(auto, using(crate::proofs::SparseCounting::empty_from_length, crate::proofs::SparseCounting::length_from_empty))]
    pub fn is_empty(&self) -> bool
        ensures { IsTrue result ↔ ((n : ℕ) → spec.count_in self.now n ≡ 0) }
    {
        self.map.is_empty()
    }

    /// The numbers that count, each once.
    #[tactic(auto, using(crate::proofs::SparseCounting::keys_counted))]
    pub fn numbers(&self, alloc: Global) -> Result<Vec<usize>, AllocError>
        ensures { IfOk result (λ ns. (n : ℕ) → spec.occurs n ns.items ≡ min 1 (spec.count_in self.now n)) }
    {
        // No `collect`, which asks for room for all of them first, and goes on where that is refused.
        let mut numbers = Vec::new(alloc);
        for number in self.map.keys() {
            numbers.push(*number)?;
        }
        Ok(numbers)
    }
}
