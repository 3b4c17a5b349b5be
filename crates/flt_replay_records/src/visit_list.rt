//! Visits, indexed by their operations.

ghost use Rattle.std.specs.Prelude.{◌≡◌, ℕ, true, false, nat_eq, List, [], ◌∷◌, ◌++◌, length, set, OnOk, IfOk};
ghost use Rattle.std.specs.List.{list_any};
ghost use Rattle.flt_model.specs.Moves as moves;
ghost use Rattle.flt_replay_records.specs.Unsettled.{is_visit_of};

use crate::counts::Counts;
use crate::number_map::NumberMap;
use crate::parts::Visit;
use crate::slot::Slot;
use std::alloc::{AllocError, Global};
use std::marker::Model;

/// Visits by number, and whether each is settled.
#[derive(Drop)]
pub struct Visits {
    visits: Vec<Visit>,
    settled: Vec<bool>,
    /// For each visit, its operation's visit before it.
    before: Vec<Slot>,
    /// For each operation, its last visit.
    last: NumberMap,
    /// For each operation, the number of its visits that aren't settled.
    unsettled: Counts,
}

impl Model for Visits {
    ghost use Rattle.std.specs.Prelude.{List, Bool};
    ghost use Rattle.flt_model.specs.World as machine;

    ghost Value = { List machine.Visit × List Bool };

    ghost use Rattle.flt_replay_records.specs.Unsettled.{AreVisits};

    ghost view = { λ v. (v.visits.items, v.settled.items) };

    ghost invariant = { λ v. AreVisits v.visits.items v.settled.items v.before.items v.last v.unsettled };
}

impl Visits {
    /// No visits.
    pub fn new(alloc: Global) -> Visits
        ensures { result ≡ ([], []) }
    {
        Visits {
            visits: Vec::new(alloc),
            settled: Vec::new(alloc),
            before: Vec::new(alloc),
            last: NumberMap::new(alloc),
            unsettled: Counts::new(alloc),
        }
    }

    /// The number of visits there have been.
    pub fn len(&self) -> usize
        ensures { result ≡ length self.now.0 }
    {
        self.visits.len()
    }

    /// The visits by number.
    pub fn as_slice(&self) -> &[Visit]
        ensures { result.now ≡ self.now.0 }
    {
        self.visits.as_slice()
    }

    /// Whether each visit is settled, by number.
    pub fn settled(&self) -> &[bool]
        ensures { result.now ≡ self.now.1 }
    {
        self.settled.as_slice()
    }

    /// Adds a new visit, which isn't settled.
    pub fn add(&mut self, visit: Visit) -> Result<(), AllocError>
        ensures { OnOk result (self.new ≡ (self.old.0 ++ visit ∷ [], self.old.1 ++ false ∷ [])) }
    {
        let number = self.visits.len();
        let operation = visit.operation as usize;
        self.visits.reserve(1)?;
        self.settled.reserve(1)?;
        self.before.reserve(1)?;
        let before = Slot::naming(self.last.get(operation))?;
        self.unsettled.add(operation)?;
        match self.last.set(operation, number) {
            Ok(()) => {
                self.visits.push_reserved(visit);
                self.settled.push_reserved(false);
                self.before.push_reserved(before);
                Ok(())
            }
            Err(refused) => {
                self.unsettled.take(operation);
                Err(refused)
            }
        }
    }

    /// Settles a visit: the filter's part in the operation is over.
    pub fn settle(&mut self, visit: usize)
        ensures { self.new ≡ (self.old.0, set self.old.1 visit true) }
    {
        let Some(settled) = self.settled.get_mut(visit) else {
            return;
        };
        if *settled {
            return;
        }
        *settled = true;
        if let Some(visit) = self.visits.get(visit) {
            self.unsettled.take(visit.operation as usize);
        }
    }

    /// Whether all visits of an operation are settled.
    #[tactic(auto, using(crate::proofs::VisitLinks::none_unsettled))]
    pub fn are_settled(&self, operation: usize) -> bool
        ensures { result ≡ moves.are_settled operation self.now.0 self.now.1 }
    {
        self.unsettled.count(operation) == 0
    }

    /// The visits of an operation.
    pub fn of(&self, alloc: Global, operation: usize) -> Result<Vec<usize>, AllocError>
        ensures { IfOk result (λ vs. (v : ℕ) → list_any (nat_eq v) vs.items ≡ is_visit_of operation self.now.0 v) }
    {
        let mut numbers = Vec::new(alloc);
        let mut latest = self.last.get(operation);
        while let Some(number) = latest {
            numbers.push(number)?;
            latest = match self.before.get(number) {
                Some(before) => before.get(),
                None => None,
            };
        }
        Ok(numbers)
    }
}
