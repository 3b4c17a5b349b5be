//! The search, round after round.

ghost use Rattle.std.specs.Prelude.{IfOk, IfSome};
ghost use Rattle.flt_replay_world.specs.Filters.{filters_of};
ghost use Rattle.flt_search_deadlocks.specs.Deadlocks as spec;

use crate::judging::{Deadlock, judge};
use flt_order::Acquisition;
use flt_rules::MAX_FILTERS;
use flt_search::{Bounds, journal_of};
use flt_search_plan::Plan;
use flt_search_rounds::{
    Left, MEETINGS, Search, SearchWatch, Stand, Targets, WatchedSearch, explore,
};
use flt_tree::Tree;
use std::alloc::{AllocError, Global};

/// The answer of a search for a deadlock.
#[derive(Drop)]
pub enum Answer {
    /// This run leads to it.
    Found(Deadlock),
    /// Each round came to its end.
    NotWithin,
    /// Something was beyond the bounds.
    Cut,
}

/// The places of the acquisitions of a circle; none if there is no such filter, or no acquisition.
fn stands_of(
    alloc: Global,
    plan: &Plan,
    filter: usize,
    circle: &[Acquisition],
) -> Result<Option<Vec<Stand>>, AllocError> {
    let mut stands = Vec::new(alloc);
    let place = match plan.place_of(filter) {
        Some(place) if place < MAX_FILTERS && !circle.is_empty() => place as u8,
        _ => return Ok(None),
    };
    for acquisition in circle {
        stands.push(Stand {
            filter: place,
            callback: acquisition.callback,
            point: acquisition.point,
        })?;
    }
    Ok(Some(stands))
}

/// The deadlock that a round has found, if running it again shows that it is one.
fn deadlock_of(
    alloc: Global,
    trees: &[Tree],
    filter: usize,
    circle: &[Acquisition],
    search: &Search<'_>,
) -> Result<Option<Deadlock>, AllocError>
    ensures { IfOk result (λ found. IfSome found (spec.IsDeadlock (filters_of trees.now) filter circle.now)) }
{
    match search.journal_to_meeting()? {
        Some(entries) => {
            let journal = journal_of(alloc, entries.as_slice())?;
            judge(alloc, trees, filter, circle, journal)
        }
        None => Ok(None),
    }
}

/// The bounds of all rounds together.
fn left_of(bounds: Bounds) -> Left {
    Left {
        states: bounds.states,
        moves: bounds.states.saturating_mul(5),
        steps: bounds.states.saturating_mul(100),
    }
}

/// Goes through the rounds, for activations that wait at these places.
fn find_at<W: SearchWatch>(
    alloc: Global,
    trees: &[Tree],
    filter: usize,
    circle: &[Acquisition],
    plan: &Plan,
    stands: &[Stand],
    bounds: Bounds,
    watched: &mut WatchedSearch<'_, W>,
) -> Result<Answer, AllocError>
    ensures { IfOk result (spec.IsAnswer (filters_of trees.now) filter circle.now) }
{
    let mut left = left_of(bounds);
    let mut is_cut = false;
    for round in MEETINGS {
        let targets = Targets::of_circle(alloc, plan, stands)?;
        let search = explore(
            alloc,
            plan,
            round.within(bounds.states),
            targets,
            left,
            watched,
        )?;
        left = search.left;
        is_cut = is_cut || search.is_cut;
        if let Some(deadlock) = deadlock_of(alloc, trees, filter, circle, &search)? {
            return Ok(Answer::Found(deadlock));
        }
    }
    Ok(if is_cut {
        Answer::Cut
    } else {
        Answer::NotWithin
    })
}

/// Seeks a run to a moment at which activations of a filter wait at all acquisitions of a circle, for locks of one another. `filter` is the
/// number of its tree; the trees may be in any order. The search goes breadth first through small worlds, in rounds of growing bounds, with
/// up to four operations and activations at once, and continues from so many states in all, with five times as many moves and a hundred
/// times as many local steps. No clause says that a run is found if one exists. `watched` counts the states, and reports them to its
/// watcher.
///
/// # Errors
///
/// If memory is refused, or a number or a count would reach 2^32.
pub fn find_deadlock<W: SearchWatch>(
    alloc: Global,
    trees: &[Tree],
    filter: usize,
    circle: &[Acquisition],
    bounds: Bounds,
    watched: &mut WatchedSearch<'_, W>,
) -> Result<Answer, AllocError>
    ensures { IfOk result (spec.IsAnswer (filters_of trees.now) filter circle.now) }
{
    if trees.len() > MAX_FILTERS {
        return Ok(Answer::NotWithin);
    }
    let plan = Plan::of(alloc, trees)?;
    match stands_of(alloc, &plan, filter, circle)? {
        Some(stands) => find_at(
            alloc,
            trees,
            filter,
            circle,
            &plan,
            stands.as_slice(),
            bounds,
            watched,
        ),
        None => Ok(Answer::NotWithin),
    }
}
