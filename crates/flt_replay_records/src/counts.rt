//! The number of times that each number was counted, for numbers that are given in sequence.

ghost use Rattle.std.specs.Prelude.{◌≡◌, ◌+◌, ℕ, ◌<◌, ◌≤◌, [], length, OnOk, OnErr};
ghost use Rattle.flt_model.specs.Trace.{one_if};
ghost use Rattle.flt_replay_records.specs.Counts as spec;

use std::alloc::{AllocError, Global};
use std::marker::Model;

/// Counts by number. It takes as much memory as the greatest number counted requires.
#[derive(Drop)]
pub struct Counts {
    /// The count of each number. Past the end, it is 0.
    times: Vec<u32>,
}

impl Model for Counts {
    ghost use Rattle.std.specs.Prelude.{ℕ, List};

    ghost Value = { List ℕ };

    ghost view = { λ c. c.times.items };
}

impl Counts {
    /// Counts in which no number was counted.
    #[tactic(auto, unfolding(crate::specs::Counts::count))]
    pub fn new(alloc: Global) -> Counts
        ensures none { result ≡ [] }
        ensures no_count { (n : ℕ) → spec.count result n ≡ 0 }
    {
        Counts {
            times: Vec::new(alloc),
        }
    }

    /// The number of times that a number was counted.
    #[tactic(auto, unfolding(crate::specs::Counts::count))]
    pub fn count(&self, number: usize) -> u64
        ensures { result ≡ spec.count self.now number }
    {
        match self.times.get(number) {
            Some(times) => u64::from(*times),
            None => 0,
        }
    }

    /// Makes room for a number.
    #[tactic(auto, using(crate::proofs::Counting::filled_up))]
    fn grow(&mut self, number: usize) -> Result<(), AllocError>
        ensures room { OnOk result (number < length self.new) }
        ensures same { (n : ℕ) → spec.count self.new n ≡ spec.count self.old n }
        ensures err { OnErr result (self.new ≡ self.old) }
    {
        let Some(length) = number.checked_add(1) else {
            return Err(AllocError);
        };
        if self.times.len() < length {
            self.times.resize(length, 0)?;
        }
        Ok(())
    }

    /// Counts a number that hasn't been counted.
    #[tactic(auto, using(crate::proofs::Counting::first_time, crate::proofs::Counting::first_past))]
    fn begin(&mut self, number: usize) -> Result<(), AllocError>
        ensures ok { length self.old ≤ number → OnOk result ((n : ℕ) → spec.count self.new n ≡ spec.count self.old n + one_if number n) }
        ensures err { OnErr result (self.new ≡ self.old) }
    {
        if number == self.times.len() {
            self.times.push(1)?;
            return Ok(());
        }
        self.grow(number)?;
        if let Some(place) = self.times.get_mut(number) {
            *place = 1;
        }
        Ok(())
    }

    /// Adds one to the count of a number. It fails if a count would reach 2^32.
    #[inline(always)]
    #[tactic(auto, using(crate::proofs::Counting::raised, crate::proofs::Counting::past_the_end))]
    pub fn add(&mut self, number: usize) -> Result<(), AllocError>
        ensures ok { OnOk result ((n : ℕ) → spec.count self.new n ≡ spec.count self.old n + one_if number n) }
        ensures err { OnErr result (self.new ≡ self.old) }
    {
        let Some(place) = self.times.get_mut(number) else {
            return self.begin(number);
        };
        let Some(times) = place.checked_add(1) else {
            return Err(AllocError);
        };
        *place = times;
        Ok(())
    }

    /// Takes one off the count of a number, which is at least 1.
    #[tactic(auto, using(crate::proofs::Counting::once_less, crate::proofs::Counting::past_the_end))]
    pub fn take(&mut self, number: usize)
        ensures { 0 < spec.count self.old number → (n : ℕ) → spec.count self.old n ≡ spec.count self.new n + one_if number n }
    {
        let Some(place) = self.times.get_mut(number) else {
            return;
        };
        *place = place.saturating_sub(1);
    }

    /// Adds one to the count of each of some numbers.
    pub fn add_each(&mut self, numbers: &[usize]) -> Result<(), AllocError>
        ensures { OnOk result ((n : ℕ) → spec.count self.new n ≡ spec.count self.old n + spec.occurs n numbers.now) }
    {
        for number in numbers {
            self.add(*number)?;
        }
        Ok(())
    }

    /// Takes one off the count of each of some numbers, if these counts suffice.
    pub fn take_each(&mut self, numbers: &[usize])
        ensures { ((n : ℕ) → spec.occurs n numbers.now ≤ spec.count self.old n) → (n : ℕ) →
            spec.count self.old n ≡ spec.count self.new n + spec.occurs n numbers.now }
    {
        for number in numbers {
            self.take(*number);
        }
    }
}
