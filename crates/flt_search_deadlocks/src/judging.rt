//! The judgement of a journal: it is run again, and those that wait at its end are compared with the circle.

ghost use Rattle.std.specs.Prelude.{◌≡◌, [], IfOk, IfSome, IsTrue, All, Contains};
ghost use Rattle.std.specs.List.{AllZip};
ghost use Rattle.flt_replay_world.specs.Filters.{filters_of};
ghost use Rattle.flt_search_deadlocks.specs.Deadlocks as spec;

use flt_explain_waits::{BlockedActivation, local_steps_are_runs, waits_of, what_waits_is_stuck};
use flt_model::Journal;
use flt_order::Acquisition;
use flt_replay_world::Stack;
use flt_tree::Tree;
use std::alloc::{AllocError, Global};

/// A run to a deadlock.
#[derive(Drop)]
pub struct Deadlock {
    pub journal: Journal,
    /// For each acquisition of the circle, in their order, the activation that waits at it.
    pub waits: Vec<BlockedActivation>,
}

/// The number of a tree's filter, from the highest altitude; none if there is no such tree.
pub(crate) fn number_of(
    alloc: Global,
    trees: &[Tree],
    filter: usize,
) -> Result<Option<usize>, AllocError>
    ensures { IfOk result (λ found. IfSome found (λ n. n ≡ spec.number_of (filters_of trees.now) filter)) }
{
    let Some(tree) = trees.get(filter) else {
        return Ok(None);
    };
    let Ok(altitude) = u32::try_from(tree.filter.altitude) else {
        return Ok(None);
    };
    let stack = Stack::of(alloc, trees)?;
    Ok(Some(stack.number_of(altitude)))
}

/// Whether an activation waits at an acquisition of a filter.
fn is_at(wait: &BlockedActivation, filter: usize, acquisition: Acquisition) -> bool
    ensures { IsTrue result → spec.WaitsAt filter acquisition wait.now }
{
    wait.filter == filter && wait.span.line == acquisition.line && wait.lock == acquisition.taken
}

/// The first of some activations that waits at an acquisition of a filter.
fn waiting_at(
    waits: &[BlockedActivation],
    filter: usize,
    acquisition: Acquisition,
) -> Option<BlockedActivation>
    ensures { IfSome result (λ b. Contains waits.now b × spec.WaitsAt filter acquisition b) }
{
    for wait in waits {
        if is_at(wait, filter, acquisition) {
            return Some(*wait);
        }
    }
    None
}

/// For each acquisition of a circle an activation that waits at it; none if one of them has none.
fn waiting_round(
    alloc: Global,
    waits: &[BlockedActivation],
    filter: usize,
    circle: &[Acquisition],
) -> Result<Option<Vec<BlockedActivation>>, AllocError>
    ensures { IfOk result (λ found. IfSome found (λ round.
        All (Contains waits.now) round.items × AllZip (spec.WaitsAt filter) circle.now round.items)) }
{
    let mut round = Vec::new(alloc);
    for acquisition in circle {
        let Some(wait) = waiting_at(waits, filter, *acquisition) else {
            return Ok(None);
        };
        round.push(wait)?;
    }
    Ok(Some(round))
}

/// Whether one of some activations holds the lock for which one waits.
fn is_held_among(round: &[BlockedActivation], wait: &BlockedActivation) -> bool
    ensures { IsTrue result → spec.IsHeldAmong round.now wait.now }
{
    for other in round {
        if wait.holder == Some(other.activation) {
            return true;
        }
    }
    false
}

/// Whether each of some activations waits for a lock that one of them holds.
fn are_held_among(round: &[BlockedActivation]) -> bool
    ensures { IsTrue result → All (spec.IsHeldAmong round.now) round.now }
{
    for wait in round {
        if !is_held_among(round, wait) {
            return false;
        }
    }
    true
}

/// Whether there are some activations, and each waits for a lock that one of them holds.
fn is_round(round: &[BlockedActivation]) -> bool
    ensures { IsTrue result → (round.now ≡ [] → ⊥) × All (spec.IsHeldAmong round.now) round.now }
{
    !round.is_empty() && are_held_among(round)
}

/// The deadlock to which a journal leads, if in the filter of a number an activation waits at each acquisition of a circle.
fn deadlock_at(
    alloc: Global,
    trees: &[Tree],
    number: usize,
    circle: &[Acquisition],
    journal: Journal,
) -> Result<Option<Deadlock>, AllocError>
    ensures { IfOk result (λ found. IfSome found (spec.IsDeadlockIn (filters_of trees.now) number circle.now)) }
{
    local_steps_are_runs();
    what_waits_is_stuck();
    let waits = waits_of(alloc, trees, &journal)?;
    let Some(round) = waiting_round(alloc, waits.as_slice(), number, circle)? else {
        return Ok(None);
    };
    if !is_round(round.as_slice()) {
        return Ok(None);
    }
    Ok(Some(Deadlock {
        journal,
        waits: round,
    }))
}

/// The deadlock to which a journal leads, if in the filter of a tree an activation waits at each acquisition of a circle.
pub(crate) fn judge(
    alloc: Global,
    trees: &[Tree],
    filter: usize,
    circle: &[Acquisition],
    journal: Journal,
) -> Result<Option<Deadlock>, AllocError>
    ensures { IfOk result (λ found. IfSome found (spec.IsDeadlock (filters_of trees.now) filter circle.now)) }
{
    match number_of(alloc, trees, filter)? {
        Some(number) => deadlock_at(alloc, trees, number, circle, journal),
        None => Ok(None),
    }
}
