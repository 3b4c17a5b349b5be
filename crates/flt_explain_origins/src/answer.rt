//! Paths to findings.

use crate::situation::{Moment, Situation};
use sqlite_items::Items;

/// A point of a callback, from 0, and its outcome on a path.
#[derive(Clone, Copy)]
pub struct Step {
    pub point: usize,
    /// The call succeeds, the test holds, or a turn is left. It is true if nothing is asked.
    pub granted: bool,
    /// A call that may give a context gives one. It matters to no other call.
    pub gives: bool,
}

/// A path of a callback from its entry to a point.
#[derive(Drop)]
pub struct Way {
    pub start: Situation,
    pub steps: Items<Step>,
    /// The point after the last step, and the situation there.
    pub end: Moment,
}

/// The paths that show a finding.
#[derive(Drop)]
pub struct Ways {
    pub way: Way,
    /// If two paths meet with different locks (R12), the other of them.
    pub other: Option<Way>,
}

/// The answer for a finding.
#[derive(Drop)]
pub enum Answer {
    /// No rule is broken before.
    Clean(Ways),
    /// Other rules are broken before, and each call there counts as made. No path was found on which no rule is broken.
    Behind(Ways),
    /// There is no path, whatever is broken before.
    Unreached,
    /// No path was found among the situations that were looked at.
    Unknown,
}
