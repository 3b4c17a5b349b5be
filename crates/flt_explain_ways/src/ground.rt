//! A callback in which paths are sought.

use crate::held::Lists;
use crate::plan::Plan;
use crate::possible::{Part, Possible};
use flt_abs::{Abs, Statuses, entry_state};
use flt_graph::{Graph, Place};
use std::alloc::{AllocError, Global};

/// A callback, with all that is looked up in it.
#[derive(Drop)]
pub(crate) struct Ground<'a> {
    pub(crate) graph: &'a Graph,
    pub(crate) callback: usize,
    pub(crate) plan: Plan,
    pub(crate) lists: Lists,
    /// All that is possible at the entry.
    pub(crate) entry: Possible,
}

fn of_sets(first: usize, sets: &[Statuses]) -> Possible {
    let mut all = Possible::NOTHING;
    let mut place = first;
    for set in sets {
        all = all.or(Possible::of(Part::at(place), set.digit()));
        place = place.saturating_add(1);
    }
    all
}

fn of_state(state: &Abs) -> Possible {
    of_sets(0, state.contexts())
        .or(of_sets(9, state.operations()))
        .or(Possible::of(Part::MODE, state.modes().digit()))
        .or(Possible::of(Part::DRAINING, state.draining().digit()))
}

fn at_entry(alloc: Global, place: Place) -> Possible {
    let state = entry_state(alloc, place);
    of_state(&state)
}

impl<'a> Ground<'a> {
    pub(crate) fn of(
        alloc: Global,
        graph: &'a Graph,
        callback: usize,
    ) -> Result<Ground<'a>, AllocError> {
        let plan = Plan::of(alloc, graph, callback)?;
        let lists = Lists::of(alloc, graph, callback)?;
        Ok(Ground {
            graph,
            callback,
            plan,
            lists,
            entry: at_entry(alloc, graph.place(callback)),
        })
    }

    /// The list after a point; none if there are too many.
    pub(crate) fn list_behind(
        &mut self,
        point: usize,
        list: usize,
    ) -> Result<Option<usize>, AllocError> {
        if self.plan.spot(point).changes_locks {
            let graph = self.graph;
            let callback = self.callback;
            self.lists.behind(graph, callback, point, list)
        } else {
            Ok(Some(list))
        }
    }
}
