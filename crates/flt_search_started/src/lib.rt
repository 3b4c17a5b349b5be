//! The callbacks of a filter that may start, and what starts them.
//!
//! `StartedCallbacks` is a set that nothing leads out of, reached from the pre callbacks by the requests of statements, and then tested; it
//! rules out the others by the law of `flt_starts`. The triggers of a callback, by the places and the points of its graph, are `is_started`
//! for all, `is_started_alone` for the system, and `is_started_by` for one point; and it is a law that no run starts a callback that none of
//! these starts.
#![tactic(auto)]

mod asked;
mod callbacks;
mod laws;
mod started;
mod triggers;
mod within;

pub use laws::unstarted_callbacks_never_start;
pub use started::StartedCallbacks;
pub use triggers::{is_started, is_started_alone, is_started_by};
