//! Visits, with the numbers of those of each operation, and a count of the unsettled ones.

ghost use Rattle.std.specs.Prelude.{◌≡◌, ◌≢◌, ℕ, ◌<◌, ◌≤◌, true, false, List, [], ◌∷◌, ◌++◌, length, set, get_or, OnOk, OnErr, IfOk};
ghost use Rattle.flt_model.specs.Moves as moves;
ghost use Rattle.flt_model.specs.World as machine;
ghost use Rattle.flt_ops.specs.Unsettled.{count_unsettled};
ghost use Rattle.flt_ops.specs.Numbered.{numbers_of};

use crate::numbers::Numbers;
use crate::parts::Visit;
use counted_heap::Heap;
use flt_rules::Stage;
use std::alloc::{AllocError, Global};
use std::marker::Model;

/// Visits by number, and whether each is settled.
#[derive(Drop)]
pub(crate) struct Visits {
    visits: Vec<Visit>,
    settled: Vec<bool>,
    /// Of each operation, how many of its visits aren't settled.
    unsettled: Vec<usize>,
    /// Of each operation, the numbers of its visits.
    numbers: Vec<Numbers>,
}

impl Model for Visits {
    ghost use Rattle.std.specs.Prelude.{length};
    ghost use Rattle.flt_ops.specs.Unsettled.{VisitRows};
    ghost use Rattle.flt_ops.specs.Numbered.{AreRows};

    ghost Value = { VisitRows };

    ghost view = { λ v. record { room = length v.unsettled.items; visits = v.visits.items; settled = v.settled.items } };

    ghost invariant = { λ v. AreRows v.visits.items v.settled.items v.unsettled.items v.numbers.items };
}

impl Visits {
    pub(crate) fn new(alloc: Global) -> Visits
        ensures { result ≡ record { room = 0; visits = []; settled = [] } }
    {
        Visits {
            visits: Vec::new(alloc),
            settled: Vec::new(alloc),
            unsettled: Vec::new(alloc),
            numbers: Vec::new(alloc),
        }
    }

    /// How many visits there have been.
    pub(crate) fn len(&self) -> usize
        ensures { result ≡ length self.now.visits }
    {
        self.visits.len()
    }

    /// The visit of a number. For one that isn't there it is a draining one.
    pub(crate) fn get(&self, visit: usize) -> Visit
        ensures { result ≡ get_or self.now.visits visit machine.no_visit }
    {
        match self.visits.get(visit) {
            Some(found) => *found,
            None => Visit {
                operation: 0,
                filter: 0,
                stage: Stage::Post,
                draining: true,
            },
        }
    }

    /// Whether the visit of a number is settled; one that isn't there is.
    pub(crate) fn is_settled(&self, visit: usize) -> bool
        ensures { result ≡ get_or self.now.settled visit true }
    {
        match self.settled.get(visit) {
            Some(settled) => *settled,
            None => true,
        }
    }

    /// The numbers of the visits of an operation, in order.
    pub(crate) fn of(&self, operation: u32) -> &[usize]
        ensures { result.now ≡ numbers_of operation self.now.visits }
    {
        match self.numbers.get(operation as usize) {
            Some(numbers) => numbers.as_slice(),
            None => &[],
        }
    }

    /// How many visits of an operation aren't settled.
    fn unsettled(&self, operation: u32) -> usize
        ensures { result ≡ count_unsettled operation self.now.visits self.now.settled }
    {
        match self.unsettled.get(operation as usize) {
            Some(count) => *count,
            None => 0,
        }
    }

    /// Whether all visits of an operation are settled.
    #[tactic(auto, using(crate::proofs::Counts::none_counted))]
    pub(crate) fn are_settled(&self, operation: u32) -> bool
        ensures { result ≡ moves.are_settled operation self.now.visits self.now.settled }
    {
        self.unsettled(operation) == 0
    }

    /// The same, once a visit is settled.
    #[tactic(auto, using(crate::proofs::Counts::last_counted, crate::proofs::Counts::others_counted, crate::proofs::Counts::past_counted))]
    pub(crate) fn are_settled_but(&self, operation: u32, visit: usize) -> bool
        ensures { result ≡ moves.are_settled operation self.now.visits (set self.now.settled visit true) }
    {
        let left = self.unsettled(operation);
        if visit >= self.visits.len() {
            return left == 0;
        }
        if self.settled[visit] || self.visits[visit].operation != operation {
            return left == 0;
        }
        left == 1
    }

    /// Makes room for the visits of one more operation, if there isn't any yet.
    pub(crate) fn make_room(&mut self, heap: &mut Heap, operation: usize) -> Result<(), AllocError>
        requires { operation ≤ self.old.room }
        ensures room { OnOk result (operation < self.new.room) }
        ensures kept { self.old.room ≤ self.new.room }
        ensures same { self.new ≡ record self.old { room = self.new.room } }
        ensures granted { OnOk result (heap.new ≡ heap.old) }
        ensures memory { OnErr result (heap.new ≢ heap.old) }
    {
        if operation == self.unsettled.len() {
            heap.reserve(&mut self.unsettled, 1)?;
            let numbers = Numbers::new(heap.alloc());
            heap.push(&mut self.numbers, numbers)?;
            self.unsettled.push_reserved(0);
        }
        Ok(())
    }

    /// A new visit, which isn't settled. The answer is its number.
    pub(crate) fn add(&mut self, heap: &mut Heap, visit: Visit) -> Result<usize, AllocError>
        requires { visit.operation < self.old.room }
        ensures number { IfOk result (λ number. number ≡ length self.old.visits) }
        ensures ok { OnOk result (self.new ≡ record self.old {
          visits = self.old.visits ++ visit ∷ [];
          settled = self.old.settled ++ false ∷ [];
        }) }
        ensures refused { OnErr result (self.new ≡ self.old) }
        ensures granted { OnOk result (heap.new ≡ heap.old) }
        ensures memory { OnErr result (heap.new ≢ heap.old) }
    {
        heap.reserve(&mut self.visits, 1)?;
        heap.reserve(&mut self.settled, 1)?;
        let operation = visit.operation as usize;
        let number = self.visits.len();
        self.numbers[operation].push(heap, number)?;
        self.visits.push_reserved(visit);
        self.settled.push_reserved(false);
        self.unsettled[operation] += 1;
        Ok(number)
    }

    /// The filter's part in the operation is over.
    #[tactic(auto, using(std::proofs::lemmas::Grind::common_steps, crate::proofs::Counts::counted_less, crate::proofs::Counts::counted_there))]
    pub(crate) fn settle(&mut self, visit: usize)
        ensures { self.new ≡ record self.old { settled = set self.old.settled visit true } }
    {
        if let Some(found) = self.visits.get(visit) {
            let operation = found.operation as usize;
            if !self.settled[visit] {
                self.settled[visit] = true;
                self.unsettled[operation] -= 1;
            }
        }
    }
}
