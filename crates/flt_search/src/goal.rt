//! The goals of a search, and its bounds.

use flt_model::Violation;

/// A break that is looked for: one of some violations, in a callback of one of the filters, at a point of it or anywhere. Filters,
/// callbacks and points count from 0.
#[derive(Clone, Copy)]
pub struct Goal<'w> {
    /// The number of the filter among the trees.
    pub filter: usize,
    pub callback: usize,
    pub point: usize,
    pub wanted: &'w [Violation],
    /// Whether the break may be at any point of the callback.
    pub is_anywhere: bool,
}

/// How far a search goes.
#[derive(Clone, Copy)]
pub struct Bounds {
    /// How many states are continued from in all.
    pub states: u32,
}
