//! Watchers of a script being driven.

/// Watches a script being driven. Nothing that it does changes the run.
pub trait Watch {
    /// A command of the script was given, and this many entries are known to have been made so far.
    fn after(&mut self, entries: u64);
}

/// Takes no notice.
#[derive(Drop)]
pub struct NoWatch;

impl Watch for NoWatch {
    fn after(&mut self, _entries: u64) {}
}
