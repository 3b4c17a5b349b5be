//! The search for two paths that meet with different locks.

use crate::choices::{Branch, Path, branches_to, path_along};
use crate::cover::Cover;
use crate::ground::Ground;
use crate::possible::Possible;
use crate::search::{FollowedParts, Manner, Node, Search, Stop};
use crate::sought::{Budget, Found, SearchResults};
use flt_explain::Finding;
use std::alloc::{AllocError, Global};

/// How often a search is done anew with more parts followed: once for each part.
const TURNS: usize = 18;

/// Two moments that meet: the number and the outcome from which the first comes, and the number of the other; and the stop of one of the
/// paths, if it had one.
#[derive(Clone, Copy)]
struct Pair {
    number: usize,
    granted: bool,
    other: usize,
    stop: Option<Stop>,
}

/// The better one of two pairs: the first, unless it was stopped and the second wasn't.
fn better(first: Option<Pair>, second: Option<Pair>) -> Option<Pair> {
    match (first, second) {
        (Some(pair), Some(other)) if pair.stop.is_some() && other.stop.is_none() => second,
        (Some(_), _) => first,
        (None, _) => second,
    }
}

impl Search {
    /// A pair of a moment after the one of a number and a moment that it meets with different locks.
    fn meets(
        &self,
        ground: &Ground<'_>,
        finding: &Finding,
        number: usize,
        next: Node,
        granted: bool,
    ) -> Option<Pair> {
        let mut found = None;
        for (other, met) in self.nodes.iter().enumerate() {
            let is_met = met.point == next.point
                && ground.lists.are_apart(finding.subject, next.list, met.list);
            if is_met {
                let pair = Pair {
                    number,
                    granted,
                    other,
                    stop: next.stop.or(met.stop),
                };
                found = better(found, Some(pair));
            }
        }
        found
    }

    /// The pair of which the first comes from the moment of a number.
    fn pair_from(
        &mut self,
        ground: &mut Ground<'_>,
        finding: &Finding,
        number: usize,
        node: Node,
    ) -> Result<Option<Pair>, AllocError> {
        let (granted, refused) = self.behind(ground, number, node)?;
        let first = match granted {
            Some(next) => self.meets(ground, finding, number, next, true),
            None => None,
        };
        let second = match refused {
            Some(next) => self.meets(ground, finding, number, next, false),
            None => None,
        };
        Ok(better(first, second))
    }

    fn pair(
        &mut self,
        ground: &mut Ground<'_>,
        finding: &Finding,
    ) -> Result<Option<Pair>, AllocError> {
        let mut found = None;
        for number in 0..self.nodes.len() {
            if let Some(node) = self.node(number) {
                if node.point == finding.point {
                    found = better(found, self.pair_from(ground, finding, number, node)?);
                }
            }
        }
        Ok(found)
    }
}

/// A path to the moment of a number, and then past the last branch.
fn path_to(
    alloc: Global,
    ground: &Ground<'_>,
    search: &Search,
    number: usize,
    last: Option<Branch>,
) -> Result<Option<Path>, AllocError> {
    let branches = branches_to(alloc, search, number, last)?;
    path_along(
        alloc,
        ground,
        search.manner.clean,
        branches.as_slice(),
        Possible::ALL,
    )
}

/// The paths to a pair that no part stopped.
fn ways_to(
    alloc: Global,
    ground: &Ground<'_>,
    search: &Search,
    finding: &Finding,
    pair: Pair,
) -> Result<SearchResults, AllocError> {
    let last = Branch {
        point: finding.point,
        granted: pair.granted,
    };
    let first = path_to(alloc, ground, search, pair.number, Some(last))?;
    let second = path_to(alloc, ground, search, pair.other, None)?;
    match (first, second) {
        (Some(first), Some(second)) => Ok(SearchResults::of(
            search.manner.clean,
            Found::Two(first, second),
        )),
        _ => Ok(SearchResults::Unknown),
    }
}

/// The result of a search: paths, or the next part that must be followed too, or neither.
#[derive(Drop)]
enum Came {
    To(SearchResults),
    Stopped(Stop),
}

/// The result of a search that has reached the entry alone.
fn meeting_of(
    alloc: Global,
    search: &mut Search,
    ground: &mut Ground<'_>,
    finding: &Finding,
    budget: &mut Budget,
    covers: &mut Vec<Cover>,
) -> Result<Came, AllocError> {
    search.reach_all(alloc, ground, budget.limit())?;
    budget.take(search.looked);
    let is_all = search.is_all();
    match search.pair(ground, finding)? {
        Some(
            Pair {
                stop: Some(stop),
                ..
            },
        ) => Ok(Came::Stopped(stop)),
        Some(pair) => Ok(Came::To(ways_to(alloc, ground, search, finding, pair)?)),
        None if is_all => {
            let number = search.write_down(alloc, ground, covers)?;
            Ok(Came::To(SearchResults::Nothing(number)))
        }
        None => Ok(Came::To(SearchResults::Unknown)),
    }
}

/// The result of a search in this manner.
fn meeting_with(
    alloc: Global,
    ground: &mut Ground<'_>,
    finding: &Finding,
    manner: Manner,
    budget: &mut Budget,
    covers: &mut Vec<Cover>,
) -> Result<Came, AllocError> {
    let mut search = Search::open(alloc, ground, manner)?;
    let came = meeting_of(alloc, &mut search, ground, finding, budget, covers);
    drop(search);
    came
}

/// Looks for two paths that meet as the finding says: if `clean`, only past points where no rule is broken.
pub(crate) fn seek_meeting(
    alloc: Global,
    ground: &mut Ground<'_>,
    finding: &Finding,
    clean: bool,
    budget: &mut Budget,
    covers: &mut Vec<Cover>,
) -> Result<SearchResults, AllocError> {
    let mut followed = FollowedParts {
        parts: Possible::NOTHING,
        locks: true,
    };
    for _turn in 0..TURNS {
        let manner = Manner {
            clean,
            followed,
            refused_first: false,
            open_alone: false,
        };
        match meeting_with(alloc, ground, finding, manner, budget, covers)? {
            Came::To(sought) => return Ok(sought),
            Came::Stopped(stop) => followed = followed.with(stop),
        }
    }
    Ok(SearchResults::Unknown)
}
