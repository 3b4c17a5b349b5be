//! The search for a run to a deadlock: to a moment at which each acquisition of a circle has an activation that waits at it.
//!
//! `find_deadlock` goes through the rounds of `flt_search_rounds` (`searching`). Whatever they propose is run again: only a legal journal
//! after which all of these activations wait for locks of one another is found (`judging`). That is proved; it isn't proved that a run is
//! found if one exists.
#![tactic(auto)]

mod judging;
mod searching;

pub use flt_search::Bounds;
pub use flt_search_rounds::{SearchWatch, UnwatchedSearch, WatchedSearch};
pub use judging::Deadlock;
pub use searching::{Answer, find_deadlock};
