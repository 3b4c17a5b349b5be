//! The choices on a path: which of the possible situations at the entry, and whether a call that may give a context gives one. Each part is
//! chosen backwards, from the value that is wanted at the end.

use crate::ground::Ground;
use crate::plan::{Side, Spot};
use crate::possible::{HELD, Part, Possible, lowest};
use crate::search::Search;
use crate::starts::entered;
use flt_explain_origins::{Situation, Step};
use sqlite_items::Items;
use std::alloc::{AllocError, Global};

/// A situation at the entry, and steps from there.
#[derive(Drop)]
pub(crate) struct Path {
    pub(crate) start: Situation,
    pub(crate) steps: Items<Step>,
}

/// A point on a path, and its outcome.
#[derive(Clone, Copy)]
pub(crate) struct Branch {
    pub(crate) point: usize,
    pub(crate) granted: bool,
}

/// A step, with all that is possible where it is taken, given the point's outcome.
#[derive(Clone, Copy)]
struct StepChoice {
    branch: Branch,
    left: Possible,
    side: Side,
}

fn side_of(spot: &Spot, granted: bool) -> Option<Side> {
    if granted { spot.granted } else { spot.refused }
}

/// The branches to the moment of a number, and the branch after it, if there is one.
pub(crate) fn branches_to(
    alloc: Global,
    search: &Search,
    number: usize,
    last: Option<Branch>,
) -> Result<Vec<Branch>, AllocError> {
    let mut branches = Vec::new(alloc);
    if let Some(branch) = last {
        branches.push(branch)?;
    }
    let mut at = search.node(number);
    for _step in 0..search.nodes.len() {
        let Some(node) = at else {
            break;
        };
        let Some((from, granted)) = node.arrival else {
            break;
        };
        at = search.node(from);
        if let Some(before) = at {
            branches.push(Branch {
                point: before.point,
                granted,
            })?;
        }
    }
    branches.reverse();
    Ok(branches)
}

/// All that is possible on a path, step by step.
#[derive(Drop)]
struct Passage {
    passed: Vec<StepChoice>,
    end: Possible,
}

/// The passage of branches; none if they don't follow one another.
fn passage_of(
    alloc: Global,
    ground: &Ground<'_>,
    clean: bool,
    branches: &[Branch],
) -> Result<Option<Passage>, AllocError> {
    let mut passed = Vec::new(alloc);
    let mut all = ground.entry;
    for branch in branches {
        let spot = ground.plan.spot(branch.point);
        let Some(side) = side_of(&spot, branch.granted) else {
            return Ok(None);
        };
        let fine = if clean { all.without(spot.bad) } else { all };
        let left = fine.and(side.keeps);
        passed.push(StepChoice {
            branch: *branch,
            left,
            side,
        })?;
        all = left.without(side.clears).or(side.puts);
    }
    Ok(Some(Passage { passed, end: all }))
}

/// Whether a call gave a context, by the need after it.
fn gives(side: &Side, need: Possible) -> bool {
    match side.gives {
        Some(part) => need.digit(part) / HELD % 2 == 1,
        None => true,
    }
}

/// The situation at the entry that is needed, if the callback may be entered in it.
fn start_in(alloc: Global, ground: &Ground<'_>, need: Possible) -> Option<Situation> {
    entered(
        alloc,
        ground.graph.place(ground.callback),
        lowest(need.digit(Part::ARG)),
        lowest(need.digit(Part::MODE)),
        lowest(need.digit(Part::DRAINING)),
    )
}

/// The path along branches that ends as wanted; none if that isn't possible.
pub(crate) fn path_along(
    alloc: Global,
    ground: &Ground<'_>,
    clean: bool,
    branches: &[Branch],
    wants: Possible,
) -> Result<Option<Path>, AllocError> {
    let Some(passage) = passage_of(alloc, ground, clean, branches)? else {
        return Ok(None);
    };
    let mut need = passage.end.and(wants);
    let mut steps = Vec::new(alloc);
    for passed in passage.passed.iter().rev() {
        let StepChoice { branch, left, side } = *passed;
        steps.push(Step {
            point: branch.point,
            granted: branch.granted,
            gives: gives(&side, need),
        })?;
        need = left.and(need.without(side.clears).or(side.clears));
    }
    steps.reverse();
    match start_in(alloc, ground, need) {
        Some(start) => Ok(Some(Path {
            start,
            steps: Items::from_vec(steps),
        })),
        None => Ok(None),
    }
}
