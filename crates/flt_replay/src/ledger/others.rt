//! The number of times that each number was counted for each activation, except the one in place. Most activations have none of these and
//! take no memory here, so the code that looks for them is kept out of its callers.

ghost use Rattle.std.specs.Prelude.{◌≡◌, ◌+◌, ℕ, ◌<◌, ◌≤◌, min, OnOk, OnErr, IsTrue};
ghost use Rattle.flt_model.specs.Trace.{one_if, of_actor};
ghost use Rattle.flt_replay_records.specs.Counts.{count, occurs};
ghost use Rattle.flt_replay.specs.Rows as spec;

use flt_replay_records::{Counts, SparseCounts};
use std::alloc::{AllocError, Global};
use std::collections::BTreeMap;
use std::marker::Model;

/// Counts by activation and number.
#[derive(Drop)]
pub(crate) struct Others {
    rows: BTreeMap<usize, SparseCounts>,
}

impl Model for Others {
    ghost use Rattle.std.specs.Prelude.{ℕ, List};

    ghost Value = { List (ℕ × List (ℕ × ℕ)) };

    ghost view = { λ o. o.rows.entries };
}

impl Others {
    #[tactic(auto, unfolding(crate::specs::Rows::count_among, flt_replay_records::specs::Counts::count_in))]
    pub(crate) fn new(alloc: Global) -> Others
        ensures { (a n : ℕ) → spec.count_among result a n ≡ 0 }
    {
        Others {
            rows: BTreeMap::new(alloc),
        }
    }

    /// Whether no activation has any.
    #[inline(always)]
    #[tactic(auto, unfolding(crate::specs::Rows::count_among, flt_replay_records::specs::Counts::count_in))]
    pub(crate) fn are_none(&self) -> bool
        ensures { IsTrue result → (a n : ℕ) → spec.count_among self.now a n ≡ 0 }
    {
        self.rows.is_empty()
    }

    #[inline(never)]
    #[tactic(auto, unfolding(crate::specs::Rows::count_among, flt_replay_records::specs::Counts::count_in))]
    pub(crate) fn count(&self, activation: usize, number: usize) -> u64
        ensures { result ≡ spec.count_among self.now activation number }
    {
        match self.rows.get(&activation) {
            Some(row) => row.count(number),
            None => 0,
        }
    }

    /// Adds one to a number's count for an activation.
    #[inline(never)]
    #[tactic(auto, unfolding(crate::specs::Rows::count_among, flt_replay_records::specs::Counts::count_in, flt_model::specs::Trace::of_actor))]
    pub(crate) fn add(
        &mut self,
        alloc: Global,
        activation: usize,
        number: usize,
    ) -> Result<(), AllocError>
        ensures ok { OnOk result ((a n : ℕ) → spec.count_among self.new a n ≡ spec.count_among self.old a n + of_actor activation a
            (one_if number n)) }
        ensures err { OnErr result ((a n : ℕ) → spec.count_among self.new a n ≡ spec.count_among self.old a n) }
        ensures rest { (a n : ℕ) → of_actor activation a (one_if number n) ≡ 0 →
            spec.count_among self.new a n ≡ spec.count_among self.old a n }
    {
        if let Some(row) = self.rows.get_mut(&activation) {
            return row.add(number);
        }
        let mut row = SparseCounts::new(alloc);
        row.add(number)?;
        match self.rows.insert(activation, row) {
            Ok(_) => Ok(()),
            Err(_) => Err(AllocError),
        }
    }

    /// Takes one off a number's count for an activation, which is at least 1.
    #[inline(never)]
    #[tactic(auto, unfolding(crate::specs::Rows::count_among, flt_replay_records::specs::Counts::count_in, flt_model::specs::Trace::of_actor))]
    pub(crate) fn take(&mut self, activation: usize, number: usize)
        ensures some { 0 < spec.count_among self.old activation number → (a n : ℕ) →
            spec.count_among self.old a n ≡ spec.count_among self.new a n + of_actor activation a (one_if number n) }
        ensures rest { (a n : ℕ) → of_actor activation a (one_if number n) ≡ 0 →
            spec.count_among self.new a n ≡ spec.count_among self.old a n }
    {
        let Some(row) = self.rows.get_mut(&activation) else {
            return;
        };
        if row.count(number) == 0 {
            return;
        }
        row.take(number);
        if row.is_empty() {
            let _ = self.rows.remove(&activation);
        }
    }

    /// Adds one to the count in `holders` of each number that counts for an activation.
    #[inline(never)]
    #[tactic(auto, unfolding(crate::specs::Rows::count_among, flt_replay_records::specs::Counts::count_in))]
    pub(crate) fn add_to(
        &self,
        alloc: Global,
        activation: usize,
        holders: &mut Counts,
    ) -> Result<(), AllocError>
        ensures { OnOk result ((n : ℕ) → count holders.new n ≡ count holders.old n + min 1 (spec.count_among self.now activation n)) }
    {
        let Some(row) = self.rows.get(&activation) else {
            return Ok(());
        };
        let numbers = row.numbers(alloc)?;
        holders.add_each(numbers.as_slice())
    }

    /// Takes one off the count in `holders` of each number that counts for an activation.
    #[inline(never)]
    #[tactic(auto, unfolding(crate::specs::Rows::count_among, flt_replay_records::specs::Counts::count_in))]
    pub(crate) fn take_from(
        &self,
        alloc: Global,
        activation: usize,
        holders: &mut Counts,
    ) -> Result<(), AllocError>
        ensures { OnOk result (((n : ℕ) → min 1 (spec.count_among self.now activation n) ≤ count holders.old n) → (n : ℕ) →
            count holders.old n ≡ count holders.new n + min 1 (spec.count_among self.now activation n)) }
    {
        let Some(row) = self.rows.get(&activation) else {
            return Ok(());
        };
        let numbers = row.numbers(alloc)?;
        holders.take_each(numbers.as_slice());
        Ok(())
    }

    /// Lists the numbers that count for an activation, each once.
    #[inline(never)]
    #[tactic(auto, unfolding(crate::specs::Rows::count_among, flt_replay_records::specs::Counts::count_in))]
    pub(crate) fn list(
        &self,
        alloc: Global,
        activation: usize,
        numbers: &mut Vec<usize>,
    ) -> Result<(), AllocError>
        ensures { OnOk result ((n : ℕ) →
            occurs n numbers.new.items ≡ occurs n numbers.old.items + min 1 (spec.count_among self.now activation n)) }
    {
        let Some(row) = self.rows.get(&activation) else {
            return Ok(());
        };
        let more = row.numbers(alloc)?;
        numbers.extend_from_slice(more.as_slice())?;
        Ok(())
    }
}
