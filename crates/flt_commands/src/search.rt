//! The progress of searches for runs.

use flt_explain_runs::SearchWatch;
use flt_stack_crew::NoWatch;
use flt_words::DEFAULT_STATES;

/// Hears how far the searches for runs of `explain` have come. Nothing that it does changes the findings.
pub trait WatchSearch {
    /// Hears that the search for runs of a text has continued from `states` states, of at most `most`.
    fn searched(&mut self, states: u32, most: u32);
}

impl WatchSearch for NoWatch {
    fn searched(&mut self, _states: u32, _most: u32) {}
}

/// A search that continues from at most `most` states. Its watcher hears of it only if these are more than the default.
#[derive(Drop)]
pub(crate) struct Search<'w, W: WatchSearch> {
    pub(crate) watch: &'w mut W,
    pub(crate) most: u32,
}

impl<W: WatchSearch> SearchWatch for Search<'_, W> {
    fn gone_on(&mut self, states: u32) {
        if DEFAULT_STATES < self.most {
            self.watch.searched(states, self.most);
        }
    }
}
