//! The sight of the walk at a point: all that it knows there.

ghost use Rattle.std.specs.Prelude.{◌≡◌};
ghost use Rattle.flt_explain.specs.Sight as spec;

use crate::finding::{Fault, Subject};
use crate::locks::Locks;
use crate::sets::Sets;
use flt_abs::{Abs, Successor, entry_state, leads_past};
use flt_graph::{Graph, Instruction, Place};
use std::alloc::Global;

/// A state in which broken rules were fixed on the path.
#[derive(Drop)]
pub(crate) struct Sight {
    /// With the sets below, and all in place of an empty one.
    pub(crate) state: Abs,
    sets: Sets,
    /// The locks by which paths differ that met here or before. No rule on locks is reported of them.
    unsure: Locks,
}

/// A point that follows, from 0, and the sight when it is reached.
#[derive(Drop)]
pub(crate) struct Way {
    pub(crate) point: usize,
    pub(crate) sight: Sight,
}

/// Where a point leads: first if a call succeeds or a test holds, then otherwise.
#[derive(Drop)]
pub(crate) struct Ways {
    pub(crate) first: Option<Way>,
    pub(crate) second: Option<Way>,
}

impl Sight {
    /// The sight at the entry of a callback of the place.
    #[tactic(auto, unfolding(crate::specs::Sight::entered))]
    pub(crate) fn entry(alloc: Global, place: Place) -> Sight
        ensures { result ≡ spec.entered place }
    {
        let state = entry_state(alloc, place);
        Sight {
            sets: Sets::of(&state),
            state,
            unsure: Locks::none(),
        }
    }

    /// The sight with these sets, and with the locks of a state.
    fn of(state: &Abs, sets: Sets, unsure: Locks) -> Sight
        ensures { result ≡ spec.sight state.now sets unsure }
    {
        Sight {
            state: sets.with_locks_of(state),
            sets,
            unsure,
        }
    }

    /// Whether a fault about a subject is reported.
    pub(crate) fn tells(&self, subject: Subject) -> bool
        ensures { result ≡ spec.tells self.now subject }
    {
        match subject {
            Subject::Lock(lock) => !self.unsure.contains(lock),
            _ => self.sets.tells(subject),
        }
    }

    /// The locks by which this and another path to the same point differ.
    fn differ(&self, other: &Sight) -> Locks
        ensures { result ≡ spec.differ self.now other.now }
    {
        Locks::differing(self.state.locks(), other.state.locks())
    }

    /// The same, as far as both are sure of them.
    #[tactic(auto, unfolding(crate::specs::Sight::told_apart))]
    pub(crate) fn differing(&self, other: &Sight) -> Locks
        ensures { result ≡ spec.told_apart self.now other.now }
    {
        self.differ(other)
            .without(&self.unsure)
            .without(&other.unsure)
    }

    /// The sets of both, or of this alone if the other path came with different locks.
    fn joined_sets(&self, other: &Sight) -> Sets
        ensures { result ≡ spec.joined_sets self.now other.now }
    {
        if self.differ(other).is_empty() {
            self.sets.union(&other.sets)
        } else {
            self.sets
        }
    }

    /// The locks that are unsure where both paths meet.
    fn joined_unsure(&self, other: &Sight) -> Locks
        ensures { result ≡ spec.joined_unsure self.now other.now }
    {
        self.unsure.union(&other.unsure).union(&self.differ(other))
    }

    /// The sight after another path came to the same point; none if that adds nothing. A path that came with different locks is not joined:
    /// they are unsure from here on.
    #[tactic(auto, unfolding(crate::specs::Sight::joined))]
    pub(crate) fn joined(&self, other: &Sight) -> Option<Sight>
        ensures { result ≡ spec.joined self.now other.now }
    {
        let sets = self.joined_sets(other);
        let unsure = self.joined_unsure(other);
        if sets.is_same(&self.sets) && unsure.without(&self.unsure).is_empty() {
            None
        } else {
            Some(Sight::of(&self.state, sets, unsure))
        }
    }

    /// The sight after an instruction that made a state.
    #[tactic(auto, unfolding(crate::specs::Sight::seen))]
    fn seen(&self, mended: &Sets, instruction: &Instruction, granted: bool, state: &Abs) -> Sight
        ensures { result ≡ spec.seen self.now mended.now instruction.now granted state.now }
    {
        let sets = Sets::of(state).after(mended, instruction, granted);
        Sight::of(state, sets, self.unsure)
    }

    /// The sight after an instruction by one outcome.
    #[tactic(auto, unfolding(crate::specs::Sight::way))]
    fn way(
        &self,
        mended: &Sets,
        instruction: &Instruction,
        granted: bool,
        next: Option<Successor>,
    ) -> Option<Way>
        ensures { result ≡ spec.way self.now mended.now instruction.now granted next }
    {
        match next {
            Some(Successor { point, state }) => Some(Way {
                point,
                sight: self.seen(mended, instruction, granted, &state),
            }),
            None => None,
        }
    }

    /// The points to which a point leads once its faults are fixed.
    #[tactic(auto, unfolding(crate::specs::Sight::past))]
    pub(crate) fn past(
        &self,
        graph: &Graph,
        callback: usize,
        point: usize,
        faults: &[Fault],
    ) -> Ways
        ensures { result ≡ spec.past graph.now callback point faults.now self.now }
    {
        let mended = self.sets.mended(faults);
        let state = mended.with_locks_of(&self.state);
        let next = leads_past(graph, callback, point, &state);
        let instruction = graph.instruction(callback, point);
        Ways {
            first: self.way(&mended, &instruction, true, next.first),
            second: self.way(&mended, &instruction, false, next.second),
        }
    }
}
