//! The progress of a run, which the caller and the workers share beside the stack.

use std::sync::atomic::{AtomicBool, AtomicU64, Ordering};

/// How far a run has come. No journal depends on it.
#[derive(Drop)]
pub(crate) struct Progress {
    /// All commands that can be given have been.
    is_given: AtomicBool,
    /// How many entries are known to have been made.
    entries: AtomicU64,
}

impl Progress {
    /// Nothing is given, and nothing made.
    pub(crate) fn new() -> Progress {
        Progress {
            is_given: AtomicBool::new(false),
            entries: AtomicU64::new(0),
        }
    }

    /// No more commands are given.
    pub(crate) fn end(&self) {
        self.is_given.store(true, Ordering::SeqCst);
    }

    /// Whether no more commands are given.
    pub(crate) fn is_given(&self) -> bool {
        self.is_given.load(Ordering::SeqCst)
    }

    /// Counts this many more entries.
    pub(crate) fn add(&self, made: u64) {
        self.entries.fetch_add(made, Ordering::SeqCst);
    }

    /// How many entries are known to have been made.
    pub(crate) fn entries(&self) -> u64 {
        self.entries.load(Ordering::SeqCst)
    }
}
