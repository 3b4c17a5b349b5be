//! The steps of activations and the moves of the system in the monitor's world: each is the machine's own, with its events.
//!
//! Steps: `board` finds the step of the first statement or of the end of the body. `reads` are those that are no calls, `contexts`,
//! `queueing`, `locking` and `settling` the calls, and `ending` the end with its status.
//!
//! Moves of the filter manager and of worker threads: `moves` has operations that arrive, go down and up, and are cancelled; `waiting` has
//! queue entries and work items that are taken out, `teardown` filters that are detached, and `starting` the callbacks that they start.
#![tactic(auto)]

mod board;
mod contexts;
mod ending;
mod locking;
mod moves;
mod queueing;
mod reads;
mod settling;
mod starting;
mod teardown;
mod waiting;

pub use board::{Setup, step_seen, step_unseen, steps_unseen};
pub use moves::make;
