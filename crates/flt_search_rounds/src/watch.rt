//! Watchers of a search.

/// The number of states between two reports to a watcher.
const STATES_A_LOOK: u32 = 10_000;

/// A watcher of a search for runs. It doesn't change the results.
pub trait SearchWatch {
    /// Reports the number of states that have been expanded in all.
    fn gone_on(&mut self, states: u32);
}

/// A watcher that takes no notice.
#[derive(Drop)]
pub struct UnwatchedSearch;

impl SearchWatch for UnwatchedSearch {
    fn gone_on(&mut self, _states: u32) {}
}

/// The number of states expanded, in one search or in several, and the watcher.
#[derive(Drop)]
pub struct WatchedSearch<'w, W: SearchWatch> {
    watch: &'w mut W,
    states: u32,
}

impl<'w, W: SearchWatch> WatchedSearch<'w, W> {
    /// A watched search in which no state has been expanded yet.
    pub fn new(watch: &'w mut W) -> WatchedSearch<'w, W> {
        WatchedSearch { watch, states: 0 }
    }

    /// Counts one more expanded state.
    pub(crate) fn add_state(&mut self) {
        self.states = self.states.saturating_add(1);
        if self.states % STATES_A_LOOK == 0 {
            self.watch.gone_on(self.states);
        }
    }
}
