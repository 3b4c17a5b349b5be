//! The waits at the end of a run: the activations whose next step takes a lock that others hold.
//!
//! `asking` has the lock that a statement asks for, `settling` makes an activation's local steps, and `waits` goes through the activations
//! of the world at the end of a journal. `laws` says that those that wait can't continue.
#![tactic(auto)]

mod asking;
mod laws;
mod settling;
mod waits;

pub use laws::{local_steps_are_runs, what_waits_is_stuck};
pub use waits::{BlockedActivation, waits_of};
