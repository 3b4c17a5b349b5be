//! The number of times that each activation holds each context. Most contexts have one holder, which is in place, while an activation may
//! hold many of them.

ghost use Rattle.std.specs.Prelude.{◌≡◌, ◌+◌, ℕ, ◌<◌, OnOk, ◌↔◌, IsTrue};
ghost use Rattle.flt_model.specs.Trace.{one_if, of_actor};
ghost use Rattle.flt_replay.specs.Holdings as spec;

use super::rows::Rows;
use flt_replay_records::Counts;
use std::alloc::{AllocError, Global};
use std::marker::Model;

/// By context, the number of times that each activation holds it.
#[derive(Drop)]
pub(crate) struct Holdings {
    rows: Rows,
    /// By activation, the number of times that it holds contexts.
    totals: Counts,
    /// The contexts from this number on were never held.
    known: usize,
}

impl Model for Holdings {
    ghost use Rattle.flt_replay.specs.Rows.{Counted};

    ghost Value = { Counted };

    ghost use Rattle.flt_replay.specs.Holdings.{AreTotals};

    ghost view = { λ h. h.rows };

    ghost invariant = { λ h. AreTotals h.rows h.totals h.known };
}

impl Holdings {
    #[tactic(auto, using(crate::proofs::Counting::Totals::none))]
    pub(crate) fn new(alloc: Global) -> Holdings
        ensures { (a x : ℕ) → spec.times_held result a x ≡ 0 }
    {
        Holdings {
            rows: Rows::new(alloc),
            totals: Counts::new(alloc),
            known: 0,
        }
    }

    #[inline(always)]
    #[tactic(auto, unfolding(crate::specs::Holdings::times_held))]
    pub(crate) fn count(&self, activation: usize, context: usize) -> u64
        ensures { result ≡ spec.times_held self.now activation context }
    {
        self.rows.count(context, activation)
    }

    /// Whether an activation holds no context.
    #[tactic(auto, using(crate::proofs::Counting::Totals::none_held))]
    pub(crate) fn is_empty(&self, activation: usize) -> bool
        ensures { IsTrue result ↔ ((x : ℕ) → spec.times_held self.now activation x ≡ 0) }
    {
        self.totals.count(activation) == 0
    }

    /// Adds one to a count. It fails if a number or a count would reach 2^32.
    pub(crate) fn add(
        &mut self,
        alloc: Global,
        activation: usize,
        context: usize,
    ) -> Result<(), AllocError>
        ensures { OnOk result ((a x : ℕ) → spec.times_held self.new a x ≡ spec.times_held self.old a x + of_actor activation a
            (one_if context x)) }
    {
        let Some(known) = context.checked_add(1) else {
            return Err(AllocError);
        };
        self.totals.add(activation)?;
        if let Err(refused) = self.rows.add(alloc, context, activation) {
            self.totals.take(activation);
            return Err(refused);
        }
        if self.known <= context {
            self.known = known;
        }
        Ok(())
    }

    /// Takes one off a count that is at least 1.
    #[tactic(auto, using(crate::proofs::Counting::Totals::times_more))]
    pub(crate) fn take(&mut self, activation: usize, context: usize)
        ensures { 0 < spec.times_held self.old activation context → (a x : ℕ) →
            spec.times_held self.old a x ≡ spec.times_held self.new a x + of_actor activation a (one_if context x) }
    {
        if self.rows.count(context, activation) == 0 {
            return;
        }
        self.rows.take(context, activation);
        self.totals.take(activation);
    }
}
