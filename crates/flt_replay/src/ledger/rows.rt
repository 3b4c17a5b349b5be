//! The number of times that each number was counted for each activation, or for each context, which mostly counts one: that one is in
//! place.

ghost use Rattle.std.specs.Prelude.{◌≡◌, ◌+◌, ℕ, ◌<◌, ◌≤◌, length, get_or, set, min, OnOk, OnErr};
ghost use Rattle.flt_model.specs.Trace.{one_if, of_actor};
ghost use Rattle.flt_replay_records.specs.Counts.{count, occurs};
ghost use Rattle.flt_replay.specs.Rows as spec;

use super::others::Others;
use flt_replay_records::Counts;
use std::alloc::{AllocError, Global};
use std::marker::Model;

/// The number in place, which may count 0.
#[derive(Clone, Copy)]
struct First {
    number: u32,
    times: u32,
}

impl First {
    /// Adds one to the count of the number in `holders`, if it counts.
    #[inline(always)]
    #[tactic(auto, using(crate::proofs::Counting::Rows::once, crate::proofs::Counting::Rows::never))]
    fn add_to(self, holders: &mut Counts) -> Result<(), AllocError>
        ensures { OnOk result ((n : ℕ) → count holders.new n ≡ count holders.old n + min 1 (spec.in_place self n)) }
    {
        if self.times > 0 {
            holders.add(self.number as usize)?;
        }
        Ok(())
    }

    /// Takes one off the count of the number in `holders`, if it counts.
    #[inline(always)]
    #[tactic(auto, using(crate::proofs::Counting::Rows::once, crate::proofs::Counting::Rows::never, crate::proofs::Counting::Rows::some_holder_of))]
    fn take_from(self, holders: &mut Counts)
        ensures { ((n : ℕ) → min 1 (spec.in_place self n) ≤ count holders.old n) → (n : ℕ) →
            count holders.old n ≡ count holders.new n + min 1 (spec.in_place self n) }
    {
        if self.times > 0 {
            holders.take(self.number as usize);
        }
    }

    /// Lists the number, if it counts.
    #[inline(always)]
    #[tactic(auto, using(crate::proofs::Counting::Rows::once, crate::proofs::Counting::Rows::never, crate::proofs::Counting::Rows::listed_once_more))]
    fn list(self, numbers: &mut Vec<usize>) -> Result<(), AllocError>
        ensures { OnOk result ((n : ℕ) →
            occurs n numbers.new.items ≡ occurs n numbers.old.items + min 1 (spec.in_place self n)) }
    {
        if self.times > 0 {
            numbers.push(self.number as usize)?;
        }
        Ok(())
    }
}

/// By activation; it grows as they come.
#[derive(Drop)]
pub(crate) struct Rows {
    firsts: Vec<First>,
    others: Others,
}

impl Model for Rows {
    ghost use Rattle.flt_replay.specs.Rows.{Counted, AreApart};

    ghost Value = { Counted };

    ghost view = { λ r. record { firsts = r.firsts.items; others = r.others } };

    ghost invariant = { λ r. AreApart (record { firsts = r.firsts.items; others = r.others }) };
}

impl Rows {
    #[tactic(auto, unfolding(crate::specs::Rows::count_of, crate::specs::Rows::in_place))]
    pub(crate) fn new(alloc: Global) -> Rows
        ensures { (a n : ℕ) → spec.count_of result a n ≡ 0 }
    {
        Rows {
            firsts: Vec::new(alloc),
            others: Others::new(alloc),
        }
    }

    /// The number in place of an activation.
    #[inline(always)]
    fn first(&self, activation: usize) -> First
        ensures first { result ≡ get_or self.now.firsts activation spec.blank }
        ensures apart { spec.count_among self.now.others activation result.number ≡ 0 }
    {
        match self.firsts.get(activation) {
            Some(first) => *first,
            None => First {
                number: 0,
                times: 0,
            },
        }
    }

    /// The number of times that a number that isn't in place was counted.
    #[inline(always)]
    fn count_beside(&self, activation: usize, number: usize) -> u64
        ensures { result ≡ spec.count_among self.now.others activation number }
    {
        if self.others.are_none() {
            0
        } else {
            self.others.count(activation, number)
        }
    }

    #[inline(always)]
    #[tactic(auto, unfolding(crate::specs::Rows::count_of, crate::specs::Rows::in_place))]
    pub(crate) fn count(&self, activation: usize, number: usize) -> u64
        ensures { result ≡ spec.count_of self.now activation number }
    {
        let first = self.first(activation);
        if number == first.number as usize {
            return u64::from(first.times);
        }
        self.count_beside(activation, number)
    }

    /// Adds one to the count in `holders` of each number that counts for an activation.
    #[tactic(auto, using(crate::proofs::Counting::Rows::once_each), unfolding(crate::specs::Rows::count_of, crate::specs::Rows::in_place))]
    pub(crate) fn add_to(
        &self,
        alloc: Global,
        activation: usize,
        holders: &mut Counts,
    ) -> Result<(), AllocError>
        ensures { OnOk result ((n : ℕ) → count holders.new n ≡ count holders.old n + min 1 (spec.count_of self.now activation n)) }
    {
        let first = self.first(activation);
        if self.others.are_none() {
            return first.add_to(holders);
        }
        self.others.add_to(alloc, activation, holders)?;
        first.add_to(holders)
    }

    /// Takes one off the count in `holders` of each number that counts for an activation.
    #[tactic(auto, using(crate::proofs::Counting::Rows::once_each), unfolding(crate::specs::Rows::count_of, crate::specs::Rows::in_place))]
    pub(crate) fn take_from(
        &self,
        alloc: Global,
        activation: usize,
        holders: &mut Counts,
    ) -> Result<(), AllocError>
        ensures { OnOk result (((n : ℕ) → min 1 (spec.count_of self.now activation n) ≤ count holders.old n) → (n : ℕ) →
            count holders.old n ≡ count holders.new n + min 1 (spec.count_of self.now activation n)) }
    {
        let first = self.first(activation);
        if self.others.are_none() {
            first.take_from(holders);
            return Ok(());
        }
        self.others.take_from(alloc, activation, holders)?;
        first.take_from(holders);
        Ok(())
    }

    /// Lists the numbers that count for an activation, each once.
    #[tactic(auto, using(crate::proofs::Counting::Rows::once_each), unfolding(crate::specs::Rows::count_of, crate::specs::Rows::in_place))]
    pub(crate) fn list(
        &self,
        alloc: Global,
        activation: usize,
        numbers: &mut Vec<usize>,
    ) -> Result<(), AllocError>
        ensures { OnOk result ((n : ℕ) →
            occurs n numbers.new.items ≡ occurs n numbers.old.items + min 1 (spec.count_of self.now activation n)) }
    {
        let first = self.first(activation);
        if self.others.are_none() {
            return first.list(numbers);
        }
        self.others.list(alloc, activation, numbers)?;
        first.list(numbers)
    }

    /// Makes room for an activation.
    #[inline(always)]
    #[tactic(auto, using(crate::proofs::Counting::Rows::grown), unfolding(crate::specs::Rows::count_of))]
    fn grow(&mut self, activation: usize) -> Result<(), AllocError>
        ensures room { OnOk result (activation < length self.new.firsts) }
        ensures same { (a n : ℕ) → spec.count_of self.new a n ≡ spec.count_of self.old a n }
    {
        while self.firsts.len() <= activation {
            self.firsts.push(First {
                number: 0,
                times: 0,
            })?;
        }
        Ok(())
    }

    /// Puts a number in place that isn't one of the others.
    #[inline(always)]
    #[tactic(auto, using(crate::proofs::Counting::Rows::apart_in_place))]
    fn put(&mut self, activation: usize, first: First)
        requires { spec.count_among self.now.others activation first.number ≡ 0 }
        ensures { self.new ≡ record self.old { firsts = set self.old.firsts activation first } }
    {
        if let Some(place) = self.firsts.get_mut(activation) {
            *place = first;
        }
    }

    /// Adds one to a number's count for an activation. It fails if a number in place or its count would reach 2^32.
    #[inline(always)]
    #[tactic(auto, using(crate::proofs::Counting::Rows::more_in_place, crate::proofs::Counting::Rows::again, crate::proofs::Counting::Rows::moved_in), unfolding(crate::specs::Rows::count_of))]
    pub(crate) fn add(
        &mut self,
        alloc: Global,
        activation: usize,
        number: usize,
    ) -> Result<(), AllocError>
        ensures ok { OnOk result ((a n : ℕ) → spec.count_of self.new a n ≡ spec.count_of self.old a n + of_actor activation a
            (one_if number n)) }
        ensures err { OnErr result ((a n : ℕ) → spec.count_of self.new a n ≡ spec.count_of self.old a n) }
    {
        self.grow(activation)?;
        let first = self.first(activation);
        if number == first.number as usize {
            let Some(times) = first.times.checked_add(1) else {
                return Err(AllocError);
            };
            self.put(activation, First { times, ..first });
            return Ok(());
        }
        if first.times > 0 || self.count_beside(activation, number) > 0 {
            return self.others.add(alloc, activation, number);
        }
        let Ok(number) = u32::try_from(number) else {
            return Err(AllocError);
        };
        self.put(activation, First { number, times: 1 });
        Ok(())
    }

    /// Takes one off a number's count for an activation, which is at least 1.
    #[inline(always)]
    #[tactic(auto, using(crate::proofs::Counting::Rows::taken_in_place, crate::proofs::Counting::Rows::some_among), unfolding(crate::specs::Rows::count_of))]
    pub(crate) fn take(&mut self, activation: usize, number: usize)
        ensures { 0 < spec.count_of self.old activation number → (a n : ℕ) →
            spec.count_of self.old a n ≡ spec.count_of self.new a n + of_actor activation a (one_if number n) }
    {
        let first = self.first(activation);
        if number != first.number as usize {
            self.others.take(activation, number);
            return;
        }
        let times = first.times.saturating_sub(1);
        self.put(activation, First { times, ..first });
    }
}
