//! The results of searches, and how far they go.

use crate::choices::Path;
use crate::cover::Cover;
use std::mem::swap;

/// How many moments are looked at, at most: for all findings of a text, in one search, and for all in the last searches, which take paths
/// that might not be the shortest, if the others didn't come to an end.
const OF_TEXT: usize = 200_000;

const OF_SEARCH: usize = 50_000;

const LAST: usize = 100_000;

/// A path, or two to one point.
#[derive(Drop)]
pub(crate) enum Found {
    One(Path),
    Two(Path, Path),
}

/// The results of the searches for a finding.
#[derive(Drop)]
pub(crate) enum SearchResults {
    /// Only past points where no rule is broken.
    Clean(Found),
    Behind(Found),
    /// Nothing more can be reached: all that was reached is in the cover of this number.
    Nothing(usize),
    Unknown,
}

impl SearchResults {
    /// A result with paths: if `clean`, only past points where no rule is broken.
    pub(crate) fn of(clean: bool, found: Found) -> SearchResults {
        if clean {
            SearchResults::Clean(found)
        } else {
            SearchResults::Behind(found)
        }
    }
}

/// How many moments may still be looked at.
#[derive(Drop)]
pub(crate) struct Budget {
    left: usize,
}

/// How far the searches for a text go, and the last ones.
#[derive(Drop)]
pub(crate) struct Budgets {
    pub(crate) text: Budget,
    pub(crate) last: Budget,
}

impl Budgets {
    pub(crate) fn new() -> Budgets {
        Budgets {
            text: Budget { left: OF_TEXT },
            last: Budget { left: LAST },
        }
    }
}

impl Budget {
    /// How many may be looked at in one search.
    pub(crate) fn limit(&self) -> usize {
        if self.left < OF_SEARCH {
            self.left
        } else {
            OF_SEARCH
        }
    }

    /// Takes the moments that were looked at from the budget.
    pub(crate) fn take(&mut self, looked: usize) {
        self.left = self.left.saturating_sub(looked);
    }
}

/// The results of the searches for the findings of a text, by their numbers, and the covers that these name.
#[derive(Drop)]
pub(crate) struct Outcomes {
    pub(crate) sought: Vec<Option<SearchResults>>,
    pub(crate) covers: Vec<Cover>,
}

impl Outcomes {
    /// Writes down the result of the searches for the finding of a number.
    pub(crate) fn put(&mut self, number: usize, sought: SearchResults) {
        let mut sought = Some(sought);
        if let Some(place) = self.sought.get_mut(number) {
            swap(place, &mut sought);
        }
        drop(sought);
    }
}
