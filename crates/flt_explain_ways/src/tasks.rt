//! The findings of a callback for which paths are sought, in groups that need the same parts followed, with one search for each group.

use crate::aims::{Aim, Aims, asked};
use crate::choices::{branches_to, path_along};
use crate::ground::Ground;
use crate::possible::Possible;
use crate::search::{FollowedParts, Manner, NOWHERE, Search, Stop};
use crate::sought::{Budget, Budgets, Found, Outcomes, SearchResults};
use flt_explain::Finding;
use std::alloc::{AllocError, Global};

/// How often a finding can be sought anew: first with the refused outcome looked at first, and then with more parts followed, once for each
/// part.
const TURNS: usize = 20;

/// The state of the searches for a finding.
#[derive(Clone, Copy)]
enum Standing {
    Open,
    /// Nothing more can be reached: all that was reached is in the cover of this number, if rules may be broken before.
    Ended(usize),
    /// A search was ended.
    Cut,
    Found,
}

/// A finding of the callback, its number among all, and the parts that are followed for it.
#[derive(Clone, Copy)]
struct Task {
    number: usize,
    finding: Finding,
    followed: FollowedParts,
    refused_first: bool,
    standing: Standing,
}

/// The findings of a callback, and the paths to them.
#[derive(Drop)]
pub(crate) struct Tasks {
    tasks: Vec<Task>,
}

impl Task {
    fn is_open(&self) -> bool {
        matches!(self.standing, Standing::Open)
    }

    /// Whether one search is for both.
    fn is_sought_with(&self, followed: FollowedParts, refused_first: bool) -> bool {
        self.is_open() && self.followed.is_same(followed) && self.refused_first == refused_first
    }

    /// Changes the search after a path was stopped: at first to look at the refused outcome first, later to follow more.
    fn stopped_by(&mut self, stop: Stop) {
        if self.refused_first {
            self.followed = self.followed.with(stop);
        } else {
            self.refused_first = true;
        }
    }
}

impl Tasks {
    pub(crate) fn none(alloc: Global) -> Tasks {
        Tasks {
            tasks: Vec::new(alloc),
        }
    }

    pub(crate) fn push(&mut self, number: usize, finding: Finding) -> Result<(), AllocError> {
        self.tasks.push(Task {
            number,
            finding,
            followed: asked(&finding),
            refused_first: false,
            standing: Standing::Open,
        })?;
        Ok(())
    }

    /// The open task for which least must be followed.
    fn least(&self) -> Option<Task> {
        let mut least: Option<Task> = None;
        for task in self.tasks.iter() {
            let is_less = match least {
                Some(other) => task.followed.size() < other.followed.size(),
                None => true,
            };
            if task.is_open() && is_less {
                least = Some(*task);
            }
        }
        least
    }

    /// The aims of the open tasks that are sought in this manner.
    fn aims(&self, alloc: Global, ground: &Ground<'_>, manner: Manner) -> Result<Aims, AllocError> {
        let mut aims = Aims::none(alloc, ground.plan.points())?;
        for (number, task) in self.tasks.iter().enumerate() {
            if task.is_sought_with(manner.followed, manner.refused_first) {
                aims.push(Aim::of(ground.graph, &task.finding, number))?;
            }
        }
        Ok(aims)
    }

    /// Changes the state of a task.
    fn stand(&mut self, at: usize, standing: Standing) {
        if let Some(task) = self.tasks.get_mut(at) {
            task.standing = standing;
        }
    }

    fn stopped_by(&mut self, at: usize, stop: Stop) {
        if let Some(task) = self.tasks.get_mut(at) {
            task.stopped_by(stop);
        }
    }

    fn number(&self, at: usize) -> usize {
        match self.tasks.get(at) {
            Some(task) => task.number,
            None => usize::MAX,
        }
    }

    /// Updates a task by the result of a search.
    fn settle(
        &mut self,
        alloc: Global,
        ground: &Ground<'_>,
        search: &Search,
        aim: Aim,
        cover: Option<usize>,
        outcomes: &mut Outcomes,
    ) -> Result<(), AllocError> {
        match (aim.met, aim.stop) {
            (Some(_), Some(stop)) => self.stopped_by(aim.task, stop),
            (Some(number), None) => {
                let found = found_by(alloc, ground, search, number, aim.wants)?;
                self.stand(aim.task, Standing::Found);
                outcomes.put(self.number(aim.task), found);
            }
            (None, _) => match cover {
                Some(number) => self.stand(aim.task, Standing::Ended(number)),
                None => self.stand(aim.task, Standing::Cut),
            },
        }
        Ok(())
    }

    /// One search for all open tasks that are sought in this manner.
    fn seek_with(
        &mut self,
        alloc: Global,
        ground: &mut Ground<'_>,
        manner: Manner,
        budget: &mut Budget,
        outcomes: &mut Outcomes,
    ) -> Result<(), AllocError> {
        let mut aims = self.aims(alloc, ground, manner)?;
        let mut search = Search::open(alloc, ground, manner)?;
        search.run(alloc, ground, &mut aims, budget.limit())?;
        budget.take(search.looked);
        let cover = cover_of(alloc, ground, &search, &aims, outcomes)?;
        for aim in aims.aims.iter() {
            self.settle(alloc, ground, &search, *aim, cover, outcomes)?;
        }
        Ok(())
    }

    /// Searches again and again, until no task is open: if `clean`, only past points where no rule is broken; if `open_alone`, only by
    /// paths that nothing stops, which might not be the shortest.
    fn seek(
        &mut self,
        alloc: Global,
        ground: &mut Ground<'_>,
        clean: bool,
        open_alone: bool,
        budget: &mut Budget,
        outcomes: &mut Outcomes,
    ) -> Result<(), AllocError> {
        for _turn in 0..self.tasks.len().saturating_mul(TURNS) {
            let Some(task) = self.least() else {
                return Ok(());
            };
            let manner = Manner {
                clean,
                followed: task.followed,
                refused_first: task.refused_first,
                open_alone,
            };
            self.seek_with(alloc, ground, manner, budget, outcomes)?;
        }
        Ok(())
    }

    /// Opens the tasks again whose searches came to their end, or if `cut` those whose searches were ended.
    fn open_again(&mut self, cut: bool) {
        for task in self.tasks.iter_mut() {
            let is_meant = match task.standing {
                Standing::Ended(_) => !cut,
                Standing::Cut => cut,
                Standing::Open | Standing::Found => false,
            };
            if is_meant {
                task.standing = Standing::Open;
                task.followed = asked(&task.finding);
                task.refused_first = cut;
            }
        }
    }

    /// Writes down the result of each task that has no path.
    fn write_down(&self, outcomes: &mut Outcomes) {
        for task in self.tasks.iter() {
            let came = match task.standing {
                Standing::Ended(number) => Some(SearchResults::Nothing(number)),
                Standing::Open | Standing::Cut => Some(SearchResults::Unknown),
                Standing::Found => None,
            };
            if let Some(came) = came {
                outcomes.put(task.number, came);
            }
        }
    }

    /// Looks for a path to each finding: first only past points where no rule is broken, then past any.
    pub(crate) fn seek_all(
        &mut self,
        alloc: Global,
        ground: &mut Ground<'_>,
        budgets: &mut Budgets,
        outcomes: &mut Outcomes,
    ) -> Result<(), AllocError> {
        self.seek(alloc, ground, true, false, &mut budgets.text, outcomes)?;
        self.open_again(false);
        self.seek(alloc, ground, false, false, &mut budgets.text, outcomes)?;
        self.open_again(true);
        self.seek(alloc, ground, true, true, &mut budgets.last, outcomes)?;
        self.open_again(true);
        self.seek(alloc, ground, false, true, &mut budgets.last, outcomes)?;
        self.write_down(outcomes);
        Ok(())
    }
}

/// The number of the cover of all that a search reached, if it came to its end. No cover is written down if each aim is met, or if the
/// search was clean.
fn cover_of(
    alloc: Global,
    ground: &Ground<'_>,
    search: &Search,
    aims: &Aims,
    outcomes: &mut Outcomes,
) -> Result<Option<usize>, AllocError> {
    if !search.is_all() {
        return Ok(None);
    }
    if search.manner.clean || !aims.is_any_open() {
        return Ok(Some(NOWHERE));
    }
    Ok(Some(search.write_down(alloc, ground, &mut outcomes.covers)?))
}

/// The path to the moment of a number, in which this is wanted.
fn found_by(
    alloc: Global,
    ground: &Ground<'_>,
    search: &Search,
    number: usize,
    wants: Possible,
) -> Result<SearchResults, AllocError> {
    let clean = search.manner.clean;
    let branches = branches_to(alloc, search, number, None)?;
    match path_along(alloc, ground, clean, branches.as_slice(), wants)? {
        Some(path) => Ok(SearchResults::of(clean, Found::One(path))),
        None => Ok(SearchResults::Unknown),
    }
}
